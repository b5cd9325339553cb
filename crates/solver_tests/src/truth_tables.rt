//! The first output of a circuit of three inputs, on all vectors.

use net_core::Graph;
use samples::output_on;
use std::alloc::{AllocError, Global};

/// The output on each vector, whose input `i` is bit `i` of its number.
pub fn outputs(alloc: Global, circuit: &Graph) -> Result<[bool; 8], AllocError> {
    let mut outputs = [false; 8];
    for code in 0..8u32 {
        outputs[code as usize] = output_on(alloc, circuit, code)?;
    }
    Ok(outputs)
}

/// Whether there is a 1 at this place.
pub fn is_on(outputs: &[bool], code: usize) -> bool {
    outputs.get(code).copied().unwrap_or(false)
}
