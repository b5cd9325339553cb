//! Drawn circuits of three inputs, and a circuit's first output on a vector.

ghost use Rattle.std.specs.Prelude.{◌≡◌, IfOk, length};
ghost use Rattle.circuits.specs.Literals.{bit, vector_of};
ghost use Rattle.circuits.specs.Netlists.{function_of, signals_of};
ghost use Rattle.net_core.specs.Graph.{IsGraph};

use crate::build::graph;
use crate::fault::SampleFault;
use circuits::plain::write_vector;
use net_core::{Graph, lit_value};
use rand_core::utils::NextWord;
use rand_pcg::Pcg32;
use std::alloc::{AllocError, Global};

/// A circuit of three inputs, six gates and one output, drawn from the numbers.
///
/// # Errors
///
/// As those of [`graph`].
pub fn drawn(alloc: Global, numbers: &mut Pcg32) -> Result<Graph, SampleFault>
    ensures sound { IfOk result IsGraph }
    ensures inputs { IfOk result (λ graph. graph.inputs ≡ 3) }
{
    drawn_over(alloc, numbers, [2, 4, 6])
}

/// The circuit of [`drawn`] with these literals in place of its inputs.
///
/// # Errors
///
/// As those of [`graph`].
pub fn drawn_over(
    alloc: Global,
    numbers: &mut Pcg32,
    inputs: [u32; 3],
) -> Result<Graph, SampleFault>
    ensures sound { IfOk result IsGraph }
    ensures inputs { IfOk result (λ graph. graph.inputs ≡ 3) }
{
    let mut gates = [(0, 0); 6];
    for t in 0..6u32 {
        let below = 2 * (4 + t);
        gates[t as usize] = (
            renamed(inputs, numbers.next_word() % below),
            renamed(inputs, numbers.next_word() % below),
        );
    }
    let output = 18 + numbers.next_word() % 2;
    graph(alloc, 3, gates.as_slice(), &[output])
}

/// A literal with other ones in place of the inputs.
fn renamed(inputs: [u32; 3], literal: u32) -> u32 {
    match literal / 2 {
        signal @ 1..=3 => inputs[signal as usize - 1] ^ literal % 2,
        _ => literal,
    }
}

/// The first output on the vector that a number codes, input i having its bit i; false where there is no output.
///
/// # Errors
///
/// Only when out of memory.
pub fn output_on(alloc: Global, graph: &Graph, code: u32) -> Result<bool, AllocError>
    ensures { IfOk result
        (λ output. output ≡ bit (function_of graph.now (vector_of graph.now.inputs code)) 0) }
{
    let mut vector = vec![in alloc; false; graph.inputs() as usize]?;
    let mut values = vec![in alloc; false; graph.signals()]?;
    Ok(first_output(graph, code, &mut vector, &mut values))
}

fn first_output(graph: &Graph, code: u32, vector: &mut [bool], values: &mut [bool]) -> bool
    requires vector { length vector.old ≡ graph.now.inputs }
    requires values { length values.old ≡ signals_of graph.now }
    ensures { result ≡ bit (function_of graph.now (vector_of graph.now.inputs code)) 0 }
{
    write_vector(code, vector);
    graph.eval_into(vector, values);
    match graph.outputs().first() {
        Some(output) => lit_value(values, *output),
        None => false,
    }
}
