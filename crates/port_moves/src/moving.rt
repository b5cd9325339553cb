//! A netlist under other places and signs of its ports.

ghost use Rattle.std.specs.Prelude.{◌≡◌, ◌+◌, ◌-◌, ◌<◌, ◌^◌, All, IfOk, length, map};
ghost use Rattle.circuits.specs.Bijections.{IsSignedBijection};
ghost use Rattle.circuits.specs.Matches.{IsMatchOfFunctions};
ghost use Rattle.net_core.specs.Graph.{IsGraph};
ghost use Rattle.port_moves.specs.Moved.{signed, moved_literal, moved_gate, AreMovedOutputs};

use net_core::{Gate, Graph, Lit, Matching};
use std::alloc::{AllocError, Global};

/// The graph whose ports are those of `graph`, moved as the matching says, which is a match of the two. The operands
/// of each gate are exchanged.
///
/// # Errors
///
/// `AllocError` when out of memory.
pub fn moved_graph(alloc: Global, graph: &Graph, matching: &Matching) -> Result<Graph, AllocError>
    requires inputs { IsSignedBijection graph.now.inputs matching.now.inputs }
    requires outputs { IsSignedBijection (length graph.now.outputs) matching.now.outputs }
    ensures matches { IfOk result
        (λ second. IsMatchOfFunctions graph.now second matching.now.inputs matching.now.outputs) }
    ensures gates { IfOk result (λ second. second.gates ≡ map (moved_gate matching.now.inputs) graph.now.gates) }
    ensures outputs { IfOk result (λ second.
        AreMovedOutputs matching.now.inputs matching.now.outputs graph.now.outputs second.outputs) }
    ensures sound { IfOk result IsGraph }
{
    let gates = moved_gates(alloc, graph.gates(), &matching.inputs)?;
    let outputs = moved_outputs(alloc, graph.outputs(), matching)?;
    match Graph::new(graph.inputs(), gates, outputs) {
        Some(second) => Ok(second),
        None => unreachable!(),
    }
}

// The gates with their operands moved and exchanged.
fn moved_gates(
    alloc: Global,
    gates: &[Gate],
    inputs: &[(u32, bool)],
) -> Result<Vec<Gate>, AllocError>
    requires { All (λ entry. entry.0 < 2 ^ 31 - 1) inputs.now }
    ensures { IfOk result (λ moved. moved.items ≡ map (moved_gate inputs.now) gates.now) }
{
    let mut moved = Vec::new(alloc);
    for gate in gates.iter() {
        let a = moved_literal(inputs, gate.b);
        let b = moved_literal(inputs, gate.a);
        moved.push(Gate { a, b })?;
    }
    Ok(moved)
}

// A literal, moved where it is of an input.
fn moved_literal(inputs: &[(u32, bool)], literal: Lit) -> Lit
    requires { All (λ entry. entry.0 < 2 ^ 31 - 1) inputs.now }
    ensures { result ≡ moved_literal inputs.now literal }
{
    let signal = literal.signal() as usize;
    if signal == 0 {
        return literal;
    }
    if signal > inputs.len() {
        return literal;
    }
    let (place, inverted) = inputs[signal - 1];
    signed(Lit(2 * (place + 1)), literal.is_negated() != inverted)
}

/// A literal, inverted or not.
pub fn signed(literal: Lit, inverted: bool) -> Lit
    ensures { result ≡ signed inverted literal }
{
    if inverted { literal.inverse() } else { literal }
}

// The outputs, each moved to its place.
fn moved_outputs(
    alloc: Global,
    outputs: &[Lit],
    matching: &Matching,
) -> Result<Vec<Lit>, AllocError>
    requires inputs { All (λ entry. entry.0 < 2 ^ 31 - 1) matching.now.inputs }
    requires outputs { IsSignedBijection (length outputs.now) matching.now.outputs }
    ensures { IfOk result
        (λ moved. AreMovedOutputs matching.now.inputs matching.now.outputs outputs.now moved.items) }
{
    let mut moved = vec![in alloc; Lit(0); outputs.len()]?;
    put_outputs(outputs, &matching.inputs, &matching.outputs, &mut moved);
    Ok(moved)
}

// Writes each output to its place.
fn put_outputs(outputs: &[Lit], inputs: &[(u32, bool)], places: &[(u32, bool)], moved: &mut [Lit])
    requires inputs { All (λ entry. entry.0 < 2 ^ 31 - 1) inputs.now }
    requires outputs { IsSignedBijection (length outputs.now) places.now }
    requires room { length moved.old ≡ length outputs.now }
    ensures { AreMovedOutputs inputs.now places.now outputs.now moved.new }
{
    for (k, output) in outputs.iter().enumerate() {
        let (place, inverted) = places[k];
        moved[place as usize] = signed(moved_literal(inputs, *output), inverted);
    }
}
