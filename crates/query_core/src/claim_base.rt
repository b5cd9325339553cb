//! The clauses of a claim's query, one by one.

ghost use Rattle.std.specs.Prelude.{ℕ, ◌≡◌, ◌<◌, ◌≤◌, ◌*◌, ◌^◌, true, All, IfOk, length};
ghost use Rattle.std.specs.List.{list_all};
ghost use Rattle.circuits.specs.Literals.{bit};
ghost use Rattle.bit_list.specs.Marking.{listed_marks};
ghost use Rattle.net_core.specs.Cones.{ReachesGate};
ghost use Rattle.net_core.specs.Sides.{graph_of};
ghost use Rattle.claim_core.specs.Claims.{IsClaim};
ghost use Rattle.claim_core.specs.ClaimQueries.{claim_query};
ghost use Rattle.query_core.specs.ClaimClauses.{gate_of, is_of_marked, is_present, IsMarkedCone, IsPartialQuery};

use crate::clauses::{clause_over, count_of, variables_of};
use crate::variables::{Variables, claim_variables, left_variables, right_variables};
use bit_list::Marks;
use claim_core::{Claim, Query, of_claim};
use cnf_core::{Base, Clause3, SatLit};
use net_core::{Graph, Graphs};
use std::alloc::{AllocError, Global};
use std::marker::Model;

/// The clauses of a claim's query. Those of the gates that the claim's output reaches are present, and those of other
/// gates only once it is made whole: till then the clause of variable 0 stands in their place. So a claim costs by its
/// output's cone, and not by the circuit.
pub struct ClaimBase<'a> {
    graphs: &'a Graphs<'a>,
    query: Query,
    /// The variables that stand for the gates of the left circuit, and of the right one.
    left: Variables,
    right: Variables,
    cone: MarkedCone,
    /// Whether the clauses of all gates are present.
    whole: bool,
}

impl<'a> Model for ClaimBase<'a> {
    ghost use Rattle.query_core.specs.ClaimClauses.{IsPartialQuery, PartialQuery};

    ghost Value = { PartialQuery };

    ghost view = { λ a. record { graphs = a.graphs.now; query = a.query; marked = a.cone.marked; whole = a.whole } };

    ghost invariant = { λ a. IsPartialQuery a.graphs.now a.query a.left a.right a.cone.gates.items a.cone.marked
        a.whole };
}

// By hand, so that each exit of a function has one call for it (docs/IDIOMS.md).
impl Drop for ClaimBase<'_> {
    fn drop(self) {
        let ClaimBase {
            graphs: _graphs,
            query: _query,
            left: _left,
            right: _right,
            cone: _cone,
            whole: _whole,
        } = self;
    }
}

/// The gates that an output reaches, ascending, and a mark for each of them.
#[derive(Drop)]
struct MarkedCone {
    gates: Vec<u32>,
    marked: Marks,
}

impl<'a> ClaimBase<'a> {
    /// The clauses of the query of a claim of two circuits. To find the output's cone takes some steps for each of its
    /// gates.
    ///
    /// # Errors
    ///
    /// Only when out of memory.
    pub fn new(
        alloc: Global,
        graphs: &'a Graphs<'a>,
        claim: &Claim,
    ) -> Result<ClaimBase<'a>, AllocError>
        requires { IsClaim graphs.now claim.now }
        ensures graphs { IfOk result (λ base. base.graphs ≡ graphs.now) }
        ensures query { IfOk result (λ base. base.query ≡ claim_query graphs.now claim.now) }
        ensures cone { IfOk result (λ base. (t : ℕ)
            → ReachesGate (graph_of graphs.now claim.now.side) claim.now.output t → bit base.marked t ≡ true) }
    {
        let cone = cone_of(alloc, graphs.side(claim.side), claim.output)?;
        ClaimBase::over(alloc, graphs, claim, cone)
    }

    /// The clauses of the query of another claim of the same circuits. Where it is of the same output, it takes a step
    /// for each gate of its cone; else it costs as much as a new one.
    ///
    /// # Errors
    ///
    /// Only when out of memory.
    pub fn for_claim(self, alloc: Global, claim: &Claim) -> Result<ClaimBase<'a>, AllocError>
        requires { IsClaim self.graphs claim.now }
        ensures graphs { IfOk result (λ base. base.graphs ≡ self.entry.graphs) }
        ensures query { IfOk result (λ base. base.query ≡ claim_query self.entry.graphs claim.now) }
    {
        let ClaimBase {
            graphs,
            query,
            left: _left,
            right: _right,
            cone,
            whole: _whole,
        } = self;
        if (query.left.side == claim.side) & (query.left.output == claim.output) {
            return ClaimBase::over(alloc, graphs, claim, cone);
        }
        ClaimBase::new(alloc, graphs, claim)
    }

    // The clauses of the query of a claim whose output has this cone.
    fn over(
        alloc: Global,
        graphs: &'a Graphs<'a>,
        claim: &Claim,
        cone: MarkedCone,
    ) -> Result<ClaimBase<'a>, AllocError>
        requires claim { IsClaim graphs.now claim.now }
        requires cone { IsMarkedCone (graph_of graphs.now claim.now.side) claim.now.output
            cone.gates.items cone.marked }
        ensures graphs { IfOk result (λ base. base.graphs ≡ graphs.now) }
        ensures query { IfOk result (λ base. base.query ≡ claim_query graphs.now claim.now) }
        ensures marked { IfOk result (λ base. base.marked ≡ cone.marked) }
    {
        let query = of_claim(alloc, graphs, claim)?;
        let left = left_variables(graphs, &query);
        let right = claim_variables(alloc, graphs, claim, &query, &cone.gates)?;
        Ok(ClaimBase {
            graphs,
            query,
            left,
            right,
            cone,
            whole: false,
        })
    }

    /// The base with the clauses of all gates. It takes some steps for each signal of the circuit.
    ///
    /// # Errors
    ///
    /// Only when out of memory.
    pub fn whole(&self, alloc: Global) -> Result<ClaimBase<'a>, AllocError>
        ensures graphs { IfOk result (λ base. base.graphs ≡ self.now.graphs) }
        ensures query { IfOk result (λ base. base.query ≡ self.now.query) }
        ensures whole { IfOk result (λ base. base.whole ≡ true) }
    {
        let cone = cone_of(
            alloc,
            self.graphs.side(self.query.left.side),
            self.query.left.output,
        )?;
        let query = self.query.copy()?;
        let left = left_variables(self.graphs, &query);
        let right = right_variables(alloc, self.graphs, &query)?;
        Ok(ClaimBase {
            graphs: self.graphs,
            query,
            left,
            right,
            cone,
            whole: true,
        })
    }

    /// Whether the clauses of these numbers are present. Numbers that are no clause's are those of a log's lines.
    pub fn are_present(&self, ids: &[u64]) -> bool
        ensures { result ≡ list_all (is_present self.now) ids.now }
    {
        if self.whole {
            return true;
        }
        let gates = self.graphs.side(self.query.left.side).gates().len() as u64;
        are_of_marked(&self.cone.marked, gates, ids)
    }
}

impl<'a> Base for ClaimBase<'a> {
    ghost use Rattle.query_core.specs.ClaimClauses.{present_formula};

    ghost formula = { present_formula };

    fn variables(&self) -> u64 {
        variables_of(self.graphs, &self.query)
    }

    fn count(&self) -> u64 {
        count_of(self.graphs, &self.query)
    }

    fn clause(&self, id: u64) -> Clause3 {
        // they bring in that both graphs are sound
        let _first = self.graphs.first();
        let _second = self.graphs.second();
        let gates = self.graphs.side(self.query.left.side).gates().len() as u64;
        if self.whole | is_of_marked(&self.cone.marked, gates, id) {
            return clause_over(self.graphs, &self.query, &self.left, &self.right, id);
        }
        Clause3::one(SatLit::of(0, true))
    }
}

// An output's cone.
fn cone_of(alloc: Global, graph: &Graph, output: u32) -> Result<MarkedCone, AllocError>
    requires { output < length graph.now.outputs }
    ensures { IfOk result (λ cone. IsMarkedCone graph.now output cone.gates.items cone.marked) }
{
    let gates = graph.cone(alloc, output)?;
    let marked = marks_of(alloc, graph.gates().len(), &gates)?;
    Ok(MarkedCone { gates, marked })
}

// Marks of these numbers, which are below a count.
fn marks_of(alloc: Global, count: usize, numbers: &[u32]) -> Result<Marks, AllocError>
    requires { All (λ number. number < count) numbers.now }
    ensures { IfOk result (λ marks. marks ≡ listed_marks count numbers.now) }
{
    let mut marks = Marks::none(alloc, count);
    for number in numbers.iter() {
        marks.mark(alloc, *number as usize)?;
    }
    Ok(marks)
}

// Whether each of these numbers is that of variable 0's clause, of an output's, or of one of a marked gate's.
fn are_of_marked(marked: &Marks, gates: u64, ids: &[u64]) -> bool
    requires few { gates < 2 ^ 31 }
    requires marks { length marked.now ≡ gates }
    ensures { result ≡ list_all (is_of_marked gates marked.now) ids.now }
{
    for id in ids.iter() {
        if !is_of_marked(marked, gates, *id) {
            return false;
        }
    }
    true
}

// Whether a number is that of variable 0's clause, of an output's, or of one of a marked gate's.
fn is_of_marked(marked: &Marks, gates: u64, id: u64) -> bool
    requires few { gates < 2 ^ 31 }
    requires marks { length marked.now ≡ gates }
    ensures { result ≡ is_of_marked gates marked.now id }
{
    if id == 0 {
        return true;
    }
    if id > 6 * gates {
        return true;
    }
    marked.has(gate_of(gates, id) as usize)
}

// The gate of one of the clauses of either circuit's gates.
fn gate_of(gates: u64, id: u64) -> u64
    requires few { gates < 2 ^ 31 }
    requires from { 1 ≤ id }
    requires to { id ≤ 6 * gates }
    ensures gate { result ≡ gate_of gates id }
    ensures there { result < gates }
{
    let place = id - 1;
    if place < 3 * gates {
        place / 3
    } else {
        (place - 3 * gates) / 3
    }
}
