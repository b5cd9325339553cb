//! Changes of a vector.

ghost use Rattle.std.specs.Prelude.{◌≡◌};
ghost use Rattle.sim_signature.specs.Changes.{ends_of as the_ends, is_inverted as the_inverted};

use claim_core::Shape;

/// A vector as it is, or with one input inverted.
#[derive(Clone, Copy, Debug)]
pub(crate) enum Change {
    Nothing,
    Inverted(u32),
}

/// Two changes of one vector that make vectors which differ at the shape's inputs alone: for one input that it is
/// inverted or not, and for two that either of them is. So vectors with one input inverted decide the claims about two.
pub(crate) fn ends_of(shape: Shape) -> (Change, Change)
    ensures { result ≡ the_ends shape }
{
    match shape {
        Shape::Up(i) => (Change::Inverted(i), Change::Nothing),
        Shape::Down(i) => (Change::Inverted(i), Change::Nothing),
        Shape::Swap { i, j, a: _, b: _ } => (Change::Inverted(i), Change::Inverted(j)),
    }
}

/// Whether a change inverts an input.
pub(crate) fn is_inverted(change: Change, input: usize) -> bool
    ensures { result ≡ the_inverted change input }
{
    match change {
        Change::Nothing => false,
        Change::Inverted(i) => input == i as usize,
    }
}
