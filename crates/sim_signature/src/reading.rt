//! The inputs that an output reads.

ghost use Rattle.std.specs.Prelude.{◌≡◌, ◌<◌, IfOk, length};

use crate::Supports;
use net_core::Graph;
use std::alloc::{AllocError, Global};

/// Marks the inputs that an output reads through gates.
///
/// # Errors
///
/// Only when out of memory.
pub(crate) fn read_inputs(
    alloc: Global,
    graph: &Graph,
    output: u32,
) -> Result<Vec<bool>, AllocError>
    requires { output < length graph.now.outputs }
    ensures { IfOk result (λ marks. length marks.items ≡ graph.now.inputs) }
{
    let supports = Supports::new(alloc, graph)?;
    let mut marks = Vec::with_capacity(alloc, graph.inputs() as usize)?;
    for input in 0..graph.inputs() {
        marks.push(supports.reaches(output, input))?;
    }
    Ok(marks)
}
