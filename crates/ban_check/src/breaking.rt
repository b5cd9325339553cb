ghost use Rattle.std.specs.Prelude.{◌≡◌, ◌<◌, ◌↔◌, IsTrue, IfOk, length};
ghost use Rattle.net_core.specs.Sides.{graph_of};
ghost use Rattle.claim_core.specs.Claims.{with_opposites, Breaks, BreaksShape, HasValues, IsClaim, IsPlaced};

use crate::evaluator::Evaluator;
use bit_list::Bits;
use claim_core::{Claim, Shape};
use items::Items;
use net_core::Side;
use std::alloc::{AllocError, Global};

/// Whether a vector breaks a claim: it has the values of the claim's shape, its output is 1 on it, and 0 where the
/// shape's inputs have the opposite values.
pub fn breaks(
    alloc: Global,
    evaluator: &mut Evaluator<'_>,
    claim: &Claim,
    bits: &Bits,
) -> Result<bool, AllocError>
    requires { IsClaim evaluator.old claim.now }
    ensures same { evaluator.new ≡ evaluator.old }
    ensures breaks { IfOk result (λ breaks. IsTrue breaks ↔ Breaks evaluator.old claim.now bits.now) }
{
    breaks_shape(
        alloc,
        evaluator,
        claim.side,
        claim.output,
        claim.shape,
        bits,
    )
}

fn breaks_shape(
    alloc: Global,
    evaluator: &mut Evaluator<'_>,
    side: Side,
    output: u32,
    shape: Shape,
    bits: &Bits,
) -> Result<bool, AllocError>
    requires output { output < length (graph_of evaluator.old side).outputs }
    requires placed { IsPlaced (graph_of evaluator.old side).inputs shape }
    ensures same { evaluator.new ≡ evaluator.old }
    ensures breaks { IfOk result
        (λ breaks. IsTrue breaks ↔ BreaksShape (graph_of evaluator.old side) output shape bits.now) }
{
    let graph = evaluator.graphs().side(side);
    if bits.len() != graph.inputs() as usize {
        return Ok(false);
    }
    let mut vector = vector_of(alloc, bits)?;
    if !has_values(shape, &vector) {
        return Ok(false);
    }
    let before = evaluator.bit(alloc, side, output, &vector)?;
    set_opposites(shape, &mut vector);
    let after = evaluator.bit(alloc, side, output, &vector)?;
    Ok(before & !after)
}

// A vector's bits.
fn vector_of(alloc: Global, bits: &Bits) -> Result<Items<bool>, AllocError>
    ensures { IfOk result (λ vector. vector ≡ bits.now) }
{
    let mut vector = Items::with_capacity(alloc, bits.len())?;
    for place in 0..bits.len() {
        vector.push(bits.get(place))?;
    }
    Ok(vector)
}

// Whether a vector has a shape's values.
fn has_values(shape: Shape, vector: &[bool]) -> bool
    requires { IsPlaced (length vector.now) shape }
    ensures { IsTrue result ↔ HasValues shape vector.now }
{
    match shape {
        Shape::Up(i) => !vector[i as usize],
        Shape::Down(i) => vector[i as usize],
        Shape::Swap { i, j, a, b } => (vector[i as usize] == a) & (vector[j as usize] == b),
    }
}

// Gives a shape's inputs the values opposite to its own.
fn set_opposites(shape: Shape, vector: &mut Items<bool>)
    requires { IsPlaced (length vector.old) shape }
    ensures { vector.new ≡ with_opposites shape vector.old }
{
    match shape {
        Shape::Up(i) => vector.set(i as usize, true),
        Shape::Down(i) => vector.set(i as usize, false),
        Shape::Swap { i, j, a, b } => {
            vector.set(i as usize, !a);
            vector.set(j as usize, !b);
        }
    }
}
