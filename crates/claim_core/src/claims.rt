//! Claims about an output of a circuit and one or two of its inputs.

use net_core::Side;

/// Values for one or two inputs. It stands for the change from these values to the opposite ones.
#[derive(Clone, Copy, Debug, Drop, PartialEq, Eq, PartialOrd, Ord, Hash)]
pub enum Shape {
    /// The input has the bit 0.
    Up(u32),
    /// The input has the bit 1.
    Down(u32),
    /// Input `i` has the bit `a`, and input `j` the bit `b`. `i` is below `j`.
    Swap { i: u32, j: u32, a: bool, b: bool },
}

/// That an output never falls from 1 to 0 where the inputs of a shape go from its values to the opposite ones.
#[derive(Clone, Copy, Debug, Drop, PartialEq, Eq, Hash)]
pub struct Claim {
    pub side: Side,
    pub output: u32,
    pub shape: Shape,
}
