//! Evaluation by three values.

ghost use Rattle.std.specs.Prelude.{◌≡◌, ◌<◌, IfOk, length, slice_index_or};
ghost use Rattle.word_sim.specs.declared.tri.Tri.TheVariants.{X};
ghost use Rattle.word_sim.specs.ThreeValues.{tri_outputs};

use crate::tri::Tri;
use net_core::{Graph, eval_outputs};
use std::alloc::{AllocError, Global};

/// Each output's value where the inputs have these values. A value 0 or 1 is the output's bit under every
/// vector that fills the inputs' X in.
pub fn tri_eval(alloc: Global, graph: &Graph, inputs: &[Tri]) -> Result<Vec<Tri>, AllocError>
    requires { length inputs.now ≡ graph.now.inputs }
    ensures { IfOk result (λ outputs. outputs.items ≡ tri_outputs graph.now inputs.now) }
{
    eval_outputs(alloc, graph, Tri::Zero, inputs)
}

/// One output's value where the inputs have these values.
pub fn tri_output(
    alloc: Global,
    graph: &Graph,
    inputs: &[Tri],
    output: u32,
) -> Result<Tri, AllocError>
    requires inputs { length inputs.now ≡ graph.now.inputs }
    requires output { output < length graph.now.outputs }
    ensures { IfOk result (λ value. value ≡ slice_index_or (tri_outputs graph.now inputs.now) output X) }
{
    let outputs = tri_eval(alloc, graph, inputs)?;
    Ok(outputs[output as usize])
}
