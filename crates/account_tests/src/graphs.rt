//! Small circuits.

use samples::{GraphPair, SampleFault};
use std::alloc::Global;

/// The AND of two inputs, and their OR.
pub fn and_or(alloc: Global) -> Result<GraphPair, SampleFault> {
    GraphPair::new(alloc, 2, (&[(2, 4)], 6), (&[(3, 5)], 7))
}

/// The AND of two inputs, and their XOR.
pub fn and_xor(alloc: Global) -> Result<GraphPair, SampleFault> {
    GraphPair::new(alloc, 2, (&[(2, 4)], 6), (&[(2, 4), (3, 5), (7, 9)], 10))
}

/// Constant 0, and the one input: no match exists.
pub fn zero_wire(alloc: Global) -> Result<GraphPair, SampleFault> {
    GraphPair::new(alloc, 1, (&[], 0), (&[], 2))
}
