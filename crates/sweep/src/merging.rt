//! Operands and outputs, replaced.

ghost use Rattle.std.specs.Prelude.{◌≡◌, ◌<◌, All, IfOk, length, map};
ghost use Rattle.circuits.specs.Literals.{signal_of};
ghost use Rattle.net_core.specs.Graph.{IsGraph};
ghost use Rattle.sweep.specs.Merging.{AreReplacements, IsRead, merged, replaced, replaced_gate};

use net_core::{Gate, Graph, Lit};
use std::alloc::{AllocError, Global};

/// The graph with each operand and each output replaced by what its signal's replacement is. All gates are there still:
/// no output reaches a gate that was replaced.
///
/// # Errors
///
/// Only when out of memory.
pub(crate) fn merged(
    alloc: Global,
    graph: &Graph,
    replacements: &[Lit],
) -> Result<Graph, AllocError>
    requires { AreReplacements graph.now replacements.now }
    ensures merged { IfOk result (λ other. other ≡ merged replacements.now graph.now) }
    ensures sound { IfOk result IsGraph }
{
    let gates = replaced_gates(alloc, graph.gates(), replacements)?;
    let outputs = replaced_literals(alloc, graph.outputs(), replacements)?;
    match Graph::new(graph.inputs(), gates, outputs) {
        Some(merged) => Ok(merged),
        None => unreachable!(),
    }
}

/// The gates with their operands replaced.
fn replaced_gates(
    alloc: Global,
    gates: &[Gate],
    replacements: &[Lit],
) -> Result<Vec<Gate>, AllocError>
    requires { All (IsRead (length replacements.now)) gates.now }
    ensures { IfOk result (λ others. others.items ≡ map (replaced_gate replacements.now) gates.now) }
{
    let mut others = Vec::with_capacity(alloc, gates.len())?;
    for gate in gates.iter() {
        others.push(Gate {
            a: replaced(replacements, gate.a),
            b: replaced(replacements, gate.b),
        })?;
    }
    Ok(others)
}

/// The literals, replaced.
fn replaced_literals(
    alloc: Global,
    literals: &[Lit],
    replacements: &[Lit],
) -> Result<Vec<Lit>, AllocError>
    requires { All (λ literal. signal_of literal < length replacements.now) literals.now }
    ensures { IfOk result (λ others. others.items ≡ map (replaced replacements.now) literals.now) }
{
    let mut others = Vec::with_capacity(alloc, literals.len())?;
    for literal in literals.iter() {
        others.push(replaced(replacements, *literal))?;
    }
    Ok(others)
}

/// The replacement of a literal's signal, with the literal's sign.
fn replaced(replacements: &[Lit], literal: Lit) -> Lit
    requires { signal_of literal < length replacements.now }
    ensures { result ≡ replaced replacements.now literal }
{
    let replacement = replacements[literal.signal() as usize];
    if literal.is_negated() {
        replacement.inverse()
    } else {
        replacement
    }
}
