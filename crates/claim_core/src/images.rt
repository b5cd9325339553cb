//! What a claim of the first circuit becomes under pairs of ports.

ghost use Rattle.std.specs.Prelude.{◌≡◌, ◌⊎◌, ◌↔◌, IsNone};
ghost use Rattle.circuits.specs.declared.port.PortKind.TheVariants.{Output as AnyOutput};
ghost use Rattle.claim_core.specs.Images.{Lacks, LacksInput, image_of, is_of, moved_one, moved_shape, moved_two};
ghost use Rattle.claim_core.specs.Images.{moved_value, pair_of};

use crate::claims::{Claim, Shape};
use net_core::{Pair, PortKind, Side};

/// The claim of the second circuit that a claim of the first becomes where ports go as the pairs say. Its output and
/// inputs go to their partners, an input's value with the pair's sign. Where the output's pair is inverted, the values
/// are exchanged for the opposite ones: a rise of the one output is a fall of the other. It is None exactly where no
/// pair is of the output, or of an input of the shape. It takes no memory.
///
/// Pairs are meant to agree with one another: of two that share their first port the earlier one counts.
pub fn image(claim: &Claim, pairs: &[Pair]) -> Option<Claim>
    ensures image { result ≡ image_of pairs.now claim.now }
    ensures none { IsNone result
        ↔ (Lacks pairs.now AnyOutput claim.now.output ⊎ LacksInput pairs.now claim.now.shape) }
{
    moved_claim(pairs, claim)
}

// The claim at the places of its output and inputs.
fn moved_claim(pairs: &[Pair], claim: &Claim) -> Option<Claim>
    ensures { result ≡ image_of pairs.now claim.now }
{
    let output = pair_of(pairs, PortKind::Output, claim.output)?;
    let shape = moved_shape(pairs, output.flip, claim.shape)?;
    Some(Claim {
        side: Side::Second,
        output: output.to,
        shape,
    })
}

/// The first of these pairs that is of this port of the first circuit. A scan: nearly each ban
/// has two pairs, and in the check of 21,941 bans it takes 0.4 percent of the instructions.
pub fn pair_of(pairs: &[Pair], kind: PortKind, port: u32) -> Option<Pair>
    ensures { result ≡ pair_of pairs.now kind port }
{
    for pair in pairs.iter() {
        if is_of(*pair, kind, port) {
            return Some(*pair);
        }
    }
    None
}

// Whether a pair is of this port of the first circuit.
fn is_of(pair: Pair, kind: PortKind, port: u32) -> bool
    ensures { result ≡ is_of kind port pair }
{
    (pair.kind == kind) & (pair.from == port)
}

// A shape at its inputs' places. It is None where an input has no pair.
fn moved_shape(pairs: &[Pair], exchanged: bool, shape: Shape) -> Option<Shape>
    ensures { result ≡ moved_shape pairs.now exchanged shape }
{
    match shape {
        Shape::Up(i) => {
            let input = pair_of(pairs, PortKind::Input, i)?;
            Some(moved_one(exchanged, false, input))
        }
        Shape::Down(i) => {
            let input = pair_of(pairs, PortKind::Input, i)?;
            Some(moved_one(exchanged, true, input))
        }
        Shape::Swap { i, j, a, b } => {
            let first = pair_of(pairs, PortKind::Input, i)?;
            let second = pair_of(pairs, PortKind::Input, j)?;
            Some(moved_two(exchanged, a, b, first, second))
        }
    }
}

// An input with a value, at its place.
fn moved_one(exchanged: bool, value: bool, input: Pair) -> Shape
    ensures { result ≡ moved_one exchanged value input }
{
    if moved_value(exchanged, input, value) {
        Shape::Down(input.to)
    } else {
        Shape::Up(input.to)
    }
}

// Two inputs with their values, at their places, the lesser input first.
fn moved_two(exchanged: bool, a: bool, b: bool, first: Pair, second: Pair) -> Shape
    ensures { result ≡ moved_two exchanged a b first second }
{
    let a = moved_value(exchanged, first, a);
    let b = moved_value(exchanged, second, b);
    if first.to < second.to {
        Shape::Swap {
            i: first.to,
            j: second.to,
            a,
            b,
        }
    } else {
        Shape::Swap {
            i: second.to,
            j: first.to,
            a: b,
            b: a,
        }
    }
}

/// The value from which a pair's second input changes where its first one changes from `value`: opposite where either
/// the pair or the output's pair is inverted, and the same where both are.
pub fn moved_value(exchanged: bool, input: Pair, value: bool) -> bool
    ensures { result ≡ moved_value exchanged input value }
{
    (value != input.flip) != exchanged
}
