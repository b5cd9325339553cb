ghost use Rattle.std.specs.Prelude.{◌≡◌, ◌↔◌, IsTrue, IfOk};
ghost use Rattle.account_core.specs.declared.fact.FactHead.TheVariants as head;
ghost use Rattle.account_check.specs.Conclusions.{PortsTest};
ghost use Rattle.account_check.specs.Facts.{AreInputs, ArePortsThere, FactTests, IsLesserFirst};

use crate::reject::Reject;
use ban_check::{Evaluator, breaks, have_as_many};
use bit_list::Bits;
use claim_core::{Claim, Shape};
use net_core::Graphs;
use std::alloc::{AllocError, Global};

/// What is wrong with the record of a claim that fails: what would be wrong with it where it holds; or that its vector
/// doesn't break it.
pub(crate) fn test_fails(
    alloc: Global,
    evaluator: &mut Evaluator<'_>,
    claim: &Claim,
    bits: &Bits,
) -> Result<Option<Reject>, AllocError>
    ensures same { evaluator.new ≡ evaluator.old }
    ensures tests { IfOk result (PortsTest evaluator.old (FactTests evaluator.old (head.Fails claim.now bits.now))) }
{
    if let Some(reject) = test_holds(evaluator.graphs(), claim) {
        return Ok(Some(reject));
    }
    if !breaks(alloc, evaluator, claim, bits)? {
        return Ok(Some(Reject::VectorFails));
    }
    Ok(None)
}

/// What is wrong with the record of a claim that holds: the circuits differ in their numbers of ports; the claim names
/// an output or an input that doesn't exist, or a swap's greater input first.
pub(crate) fn test_holds(graphs: &Graphs<'_>, claim: &Claim) -> Option<Reject>
    ensures { PortsTest graphs.now (FactTests graphs.now (head.Holds claim.now)) result }
{
    if !have_as_many(graphs) {
        return Some(Reject::Conclusion);
    }
    if !are_ports_there(graphs, claim) {
        return Some(Reject::UnknownId);
    }
    if !is_lesser_first(claim.shape) {
        return Some(Reject::Rule);
    }
    None
}

// Whether a claim's output and inputs exist.
fn are_ports_there(graphs: &Graphs<'_>, claim: &Claim) -> bool
    ensures { IsTrue result ↔ ArePortsThere graphs.now claim.now }
{
    let graph = graphs.side(claim.side);
    ((claim.output as usize) < graph.outputs().len()) & are_inputs(graph.inputs(), claim.shape)
}

// Whether a shape's inputs are some of n.
fn are_inputs(inputs: u32, shape: Shape) -> bool
    ensures { IsTrue result ↔ AreInputs inputs shape }
{
    match shape {
        Shape::Up(i) | Shape::Down(i) => i < inputs,
        Shape::Swap { i, j, .. } => (i < inputs) & (j < inputs),
    }
}

// Whether a swap has its lesser input first.
fn is_lesser_first(shape: Shape) -> bool
    ensures { IsTrue result ↔ IsLesserFirst shape }
{
    match shape {
        Shape::Up(_) | Shape::Down(_) => true,
        Shape::Swap { i, j, .. } => i < j,
    }
}
