//! Shapes of claims, by inputs and values.

ghost use Rattle.std.specs.Prelude.{◌≡◌};
ghost use Rattle.claim_core.specs.Images.{one_input, two_inputs};

use claim_core::Shape;

/// The shape for a change of one input from a value: false goes up, true goes down.
pub fn one_input(input: u32, value: bool) -> Shape
    ensures { result ≡ one_input input value }
{
    if value {
        Shape::Down(input)
    } else {
        Shape::Up(input)
    }
}

/// The shape for a change of two inputs from their values, the input with the lesser number first.
pub fn two_inputs(one: u32, one_value: bool, other: u32, other_value: bool) -> Shape
    ensures { result ≡ two_inputs one one_value other other_value }
{
    if one < other {
        Shape::Swap {
            i: one,
            j: other,
            a: one_value,
            b: other_value,
        }
    } else {
        Shape::Swap {
            i: other,
            j: one,
            a: other_value,
            b: one_value,
        }
    }
}
