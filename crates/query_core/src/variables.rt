ghost use Rattle.std.specs.Prelude.{◌≡◌, ◌+◌, ◌<◌, ◌^◌, All, IfOk, length, slice_index_or};
ghost use Rattle.net_core.specs.Sides.{graph_of};
ghost use Rattle.claim_core.specs.Claims.{IsClaim};
ghost use Rattle.claim_core.specs.ClaimQueries.{claim_query};
ghost use Rattle.claim_core.specs.ConeClauses.{AreReached, left_gates, right_gates};
ghost use Rattle.claim_core.specs.Formulas.{left_variables, right_variables};
ghost use Rattle.claim_core.specs.Queries.{IsQuery, bits_in, circuit_of};
ghost use Rattle.query_core.specs.Variables.{AreFor, HasGate, variable_at, variables_in};

use crate::reaching::{reaches, reaches_in_cone, reaches_of_claim};
use bit_list::Marks;
use claim_core::{Claim, Query};
use net_core::Graphs;
use std::alloc::{AllocError, Global};

/// The variables that stand for a circuit's gates.
#[derive(Drop)]
pub(crate) enum Variables {
    /// Gate t has the t-th variable from this one on.
    Own(u64),
    /// Gate t has the t-th variable from `own` on where signal `first + t`, which is its own, is marked, and else the
    /// t-th one from `first` on, which stands for the same gate of the left circuit.
    Shared { first: u64, own: u64, marked: Marks },
}

impl Variables {
    /// The variable of a gate.
    pub(crate) fn of(&self, gate: usize) -> u64
        requires { HasGate self.now gate }
        ensures value { result ≡ variable_at self.now gate }
        ensures few { result < 2 ^ 63 }
    {
        match self {
            Variables::Own(first) => *first + gate as u64,
            Variables::Shared { first, own, marked } => { shared(marked, *first, *own, gate) }
        }
    }
}

/// The variables of the left circuit's gates.
pub(crate) fn left_variables(graphs: &Graphs<'_>, query: &Query) -> Variables
    requires { IsQuery graphs.now query.now }
    ensures value { variables_in result (left_gates graphs.now query.now) ≡ left_variables graphs.now query.now }
    ensures fits { AreFor (left_gates graphs.now query.now) result }
{
    Variables::Own(left_from(graphs, query))
}

/// The variables of the right circuit's gates.
pub(crate) fn right_variables(
    alloc: Global,
    graphs: &Graphs<'_>,
    query: &Query,
) -> Result<Variables, AllocError>
    requires { IsQuery graphs.now query.now }
    ensures value { IfOk result (λ variables.
        variables_in variables (right_gates graphs.now query.now) ≡ right_variables graphs.now query.now) }
    ensures fits { IfOk result (AreFor (right_gates graphs.now query.now)) }
{
    let first = left_from(graphs, query);
    let own = right_from(graphs, query);
    if query.left.side != query.right.side {
        return Ok(Variables::Own(own));
    }
    let right = graphs.side(query.right.side);
    let marked = reaches(alloc, query, right.gates())?;
    Ok(Variables::Shared {
        first,
        own,
        marked: Marks::from_table(marked),
    })
}

/// The variables of the right circuit's gates, right for these, which its output reaches. It takes a step for each of
/// these and each input, whatever else the circuit has.
pub(crate) fn cone_variables(
    alloc: Global,
    graphs: &Graphs<'_>,
    query: &Query,
    gates: &[u32],
) -> Result<Variables, AllocError>
    requires fits { IsQuery graphs.now query.now }
    requires gates { AreReached (circuit_of graphs.now query.now.right) query.now.right.output gates.now }
    ensures values { IfOk result (λ variables.
        All (λ t. variable_at variables t ≡ slice_index_or (right_variables graphs.now query.now) t 0) gates.now) }
    ensures fits { IfOk result (AreFor (right_gates graphs.now query.now)) }
{
    let first = left_from(graphs, query);
    let own = right_from(graphs, query);
    if query.left.side != query.right.side {
        return Ok(Variables::Own(own));
    }
    let right = graphs.side(query.right.side);
    let marked = reaches_in_cone(alloc, query, right, gates)?;
    Ok(Variables::Shared { first, own, marked })
}

/// The variables of the right circuit's gates in a claim's query, right for these, which the claim's output reaches. It
/// takes a step for each of these, whatever else the circuit has.
pub(crate) fn claim_variables(
    alloc: Global,
    graphs: &Graphs<'_>,
    claim: &Claim,
    query: &Query,
    gates: &[u32],
) -> Result<Variables, AllocError>
    requires claim { IsClaim graphs.now claim.now }
    requires query { query.now ≡ claim_query graphs.now claim.now }
    requires fits { IsQuery graphs.now query.now }
    requires gates { AreReached (graph_of graphs.now claim.now.side) claim.now.output gates.now }
    ensures values { IfOk result (λ variables.
        All (λ t. variable_at variables t ≡ slice_index_or (right_variables graphs.now query.now) t 0) gates.now) }
    ensures fits { IfOk result (AreFor (right_gates graphs.now query.now)) }
{
    let first = left_from(graphs, query);
    let own = right_from(graphs, query);
    let graph = graphs.side(claim.side);
    let marked = reaches_of_claim(alloc, claim, graph, gates)?;
    Ok(Variables::Shared { first, own, marked })
}

// The variable of a gate that has one of its own where it is marked.
fn shared(marked: &Marks, first: u64, own: u64, gate: usize) -> u64
    requires marks { HasGate (Variables.Shared first own marked.now) gate }
    ensures value { result ≡ variable_at (Variables.Shared first own marked.now) gate }
    ensures few { result < 2 ^ 63 }
{
    if marked.has(first as usize + gate) {
        own + gate as u64
    } else {
        first + gate as u64
    }
}

// The variable of the left circuit's first gate.
fn left_from(graphs: &Graphs<'_>, query: &Query) -> u64
    ensures value { result ≡ bits_in graphs.now query.now + 1 }
    ensures few { result + left_gates graphs.now query.now < 2 ^ 31 }
{
    let left = graphs.side(query.left.side);
    // it brings in that the signals can be counted
    let _signals = left.signals();
    u64::from(left.inputs()) + 1
}

// The first of the variables that the right circuit's gates may have of their own.
fn right_from(graphs: &Graphs<'_>, query: &Query) -> u64
    ensures value { result ≡ bits_in graphs.now query.now + 1 + left_gates graphs.now query.now }
    ensures few { result + right_gates graphs.now query.now < 2 ^ 32 }
{
    let left = graphs.side(query.left.side);
    let right = graphs.side(query.right.side);
    // it brings in that the signals can be counted
    let _right_signals = right.signals();
    left.signals() as u64
}
