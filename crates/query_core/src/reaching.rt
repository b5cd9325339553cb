//! Which signals of a circuit reach an input whose two feeds differ.

ghost use Rattle.std.specs.Prelude.{◌≡◌, ◌+◌, ◌-◌, ◌<◌, ◌++◌, ◌∷◌, ℕ, false, All, IfOk, OnOk, length, take};
ghost use Rattle.circuits.specs.Literals.{bit};
ghost use Rattle.net_core.specs.Graph.{AreInOrder};
ghost use Rattle.claim_core.specs.Claims.{IsPlaced};
ghost use Rattle.claim_core.specs.ClaimQueries.{opposite_shape, values_feed};
ghost use Rattle.claim_core.specs.ConeClauses.{AreReached, IsSomeCone};
ghost use Rattle.claim_core.specs.Formulas.{feeds_differ, reaching, reaches};
ghost use Rattle.query_core.specs.Reaching.{with_shape};

use bit_list::Marks;
use claim_core::{Claim, Feeds, Query, Shape};
use net_core::{Gate, Graph};
use std::alloc::{AllocError, Global};

/// Whether each signal of the right circuit reaches an input whose two feeds differ.
pub(crate) fn reaches(alloc: Global, query: &Query, gates: &[Gate]) -> Result<Vec<bool>, AllocError>
    requires feeds { length query.now.left.feed ≡ length query.now.right.feed }
    requires ordered { AreInOrder (length query.now.right.feed + 1) gates.now }
    ensures reaches { IfOk result (λ signals. signals.items ≡ reaches query.now gates.now) }
    ensures count { IfOk result
        (λ signals. length signals.items ≡ length query.now.left.feed + 1 + length gates.now) }
{
    let mut signals = differing(alloc, query)?;
    push_reaching(gates, &mut signals)?;
    Ok(signals)
}

/// Whether each of these gates, which the right output reaches, reaches an input whose two feeds differ. Nothing is
/// said of the other gates.
pub(crate) fn reaches_in_cone(
    alloc: Global,
    query: &Query,
    right: &Graph,
    gates: &[u32],
) -> Result<Marks, AllocError>
    requires left { length query.now.left.feed ≡ right.now.inputs }
    requires right { length query.now.right.feed ≡ right.now.inputs }
    requires gates { AreReached right.now query.now.right.output gates.now }
    ensures marks { IfOk result (λ marked. All (λ t. bit marked (right.now.inputs + 1 + t)
        ≡ bit (reaches query.now right.now.gates) (right.now.inputs + 1 + t)) gates.now) }
    ensures count { IfOk result
        (λ marked. length marked ≡ right.now.inputs + 1 + length right.now.gates) }
{
    let mut marked = marked_inputs(alloc, &query.left.feed, &query.right.feed, right.signals())?;
    mark_cone(alloc, right, gates, &mut marked)?;
    Ok(marked)
}

/// Whether each of these gates, which a claim's output reaches, reaches an input of the claim's shape: these get one
/// value on the left and the other one on the right. Nothing is said of the other gates.
pub(crate) fn reaches_of_claim(
    alloc: Global,
    claim: &Claim,
    graph: &Graph,
    gates: &[u32],
) -> Result<Marks, AllocError>
    requires placed { IsPlaced graph.now.inputs claim.now.shape }
    requires gates { AreReached graph.now claim.now.output gates.now }
    ensures marks { IfOk result (λ marked. let n = graph.now.inputs in
        let differ = feeds_differ (values_feed n claim.now.shape) (values_feed n (opposite_shape claim.now.shape)) in
        All (λ t. bit marked (n + 1 + t) ≡ bit (reaching (false ∷ differ) graph.now.gates) (n + 1 + t)) gates.now) }
    ensures count { IfOk result
        (λ marked. length marked ≡ graph.now.inputs + 1 + length graph.now.gates) }
{
    let mut marked = shape_marks(alloc, claim.shape, graph.inputs(), graph.signals())?;
    mark_cone(alloc, graph, gates, &mut marked)?;
    Ok(marked)
}

// Marks of signals, where those of a shape's inputs are marked.
fn shape_marks(
    alloc: Global,
    shape: Shape,
    inputs: u32,
    signals: usize,
) -> Result<Marks, AllocError>
    requires placed { IsPlaced inputs shape }
    requires room { inputs < signals }
    ensures start { IfOk result (λ marked. take (inputs + 1) marked
        ≡ false ∷ feeds_differ (values_feed inputs shape) (values_feed inputs (opposite_shape shape))) }
    ensures rest { IfOk result (λ marked. (s : ℕ) → inputs < s → bit marked s ≡ false) }
    ensures size { IfOk result (λ marked. length marked ≡ signals) }
{
    let mut marked = Marks::none(alloc, signals);
    mark_shape(alloc, shape, &mut marked)?;
    Ok(marked)
}

// Marks the signals of a shape's inputs.
fn mark_shape(alloc: Global, shape: Shape, marked: &mut Marks) -> Result<(), AllocError>
    requires { IsPlaced (length marked.old - 1) shape }
    ensures { OnOk result (marked.new ≡ with_shape shape marked.old) }
{
    match shape {
        Shape::Up(i) | Shape::Down(i) => marked.mark(alloc, i as usize + 1),
        Shape::Swap { i, j, .. } => {
            marked.mark(alloc, i as usize + 1)?;
            marked.mark(alloc, j as usize + 1)
        }
    }
}

// Marks of n signals, where those of the inputs whose two feeds differ are marked.
fn marked_inputs(
    alloc: Global,
    left: &Feeds,
    right: &Feeds,
    signals: usize,
) -> Result<Marks, AllocError>
    requires feeds { length left.now ≡ length right.now }
    requires room { length left.now < signals }
    ensures start { IfOk result (λ marked. take (length left.now + 1) marked
        ≡ false ∷ feeds_differ left.now right.now) }
    ensures rest { IfOk result (λ marked. (s : ℕ) → length left.now < s → bit marked s ≡ false) }
    ensures size { IfOk result (λ marked. length marked ≡ signals) }
{
    let mut marked = Marks::none(alloc, signals);
    for input in 0..left.len() {
        marked.mark_where(alloc, input + 1, left.get(input) != right.get(input))?;
    }
    Ok(marked)
}

// The constant's signal, and whether the two feeds of each input differ.
fn differing(alloc: Global, query: &Query) -> Result<Vec<bool>, AllocError>
    requires { length query.now.left.feed ≡ length query.now.right.feed }
    ensures signals { IfOk result (λ signals. signals.items
        ≡ false ∷ feeds_differ query.now.left.feed query.now.right.feed) }
    ensures count { IfOk result (λ signals. length signals.items ≡ length query.now.left.feed + 1) }
{
    let mut signals = Vec::new(alloc);
    signals.push(false)?;
    push_differing(&query.left.feed, &query.right.feed, &mut signals)?;
    Ok(signals)
}

// Adds whether the two feeds of each input differ.
fn push_differing(left: &Feeds, right: &Feeds, signals: &mut Vec<bool>) -> Result<(), AllocError>
    requires { length left.now ≡ length right.now }
    ensures { OnOk result (signals.new.items ≡ signals.old.items ++ feeds_differ left.now right.now) }
{
    for input in 0..left.len() {
        signals.push(left.get(input) != right.get(input))?;
    }
    Ok(())
}

// Adds whether each gate reaches what one of its operands reaches.
fn push_reaching(gates: &[Gate], signals: &mut Vec<bool>) -> Result<(), AllocError>
    requires { AreInOrder (length signals.old.items) gates.now }
    ensures reaches { OnOk result (signals.new.items ≡ reaching signals.old.items gates.now) }
    ensures count { OnOk result (length signals.new.items ≡ length signals.old.items + length gates.now) }
{
    for gate in gates.iter() {
        let reaches = signals[gate.a.signal() as usize] | signals[gate.b.signal() as usize];
        signals.push(reaches)?;
    }
    Ok(())
}

// Marks each of a cone's gates that has a marked operand. The inputs are marked before, and no gate is.
fn mark_cone(
    alloc: Global,
    graph: &Graph,
    gates: &[u32],
    marked: &mut Marks,
) -> Result<(), AllocError>
    requires cone { IsSomeCone graph.now gates.now }
    requires room { length marked.old ≡ graph.now.inputs + 1 + length graph.now.gates }
    requires unmarked { (s : ℕ) → graph.now.inputs < s → bit marked.old s ≡ false }
    ensures marks { OnOk result (let first = graph.now.inputs + 1
        in All (λ t. bit marked.new (first + t)
        ≡ bit (reaching (take first marked.old) graph.now.gates) (first + t)) gates.now) }
    ensures size { OnOk result (length marked.new ≡ length marked.old) }
{
    let first = graph.inputs() as usize + 1;
    let all = graph.gates();
    for gate in gates.iter() {
        let row = all[*gate as usize];
        let reaches = marked.has(row.a.signal() as usize) | marked.has(row.b.signal() as usize);
        marked.mark_where(alloc, first + *gate as usize, reaches)?;
    }
    Ok(())
}
