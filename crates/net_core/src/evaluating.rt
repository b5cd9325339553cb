//! Gates evaluated in order, on values of any kind.

ghost use Rattle.std.specs.Prelude.{◌≡◌, ◌+◌, ◌<◌, ◌∷◌, All, IfOk, length, map, take};
ghost use Rattle.circuits.specs.Literals.{signal_of};
ghost use Rattle.circuits.specs.Netlists.{signals_of};
ghost use Rattle.net_core.specs.Graph.{AreInOrder};
ghost use Rattle.net_core.specs.Values.{gate_value, literal_value, output_values, with_values};

use crate::graph::Graph;
use crate::values::SignalValue;
use circuits::{Gate, Lit};
use std::alloc::{AllocError, Global};

/// Each output's value where the constant and the inputs have these values.
///
/// # Errors
///
/// Only when out of memory.
pub fn eval_outputs<V: SignalValue>(
    alloc: Global,
    graph: &Graph,
    constant: V,
    inputs: &[V],
) -> Result<Vec<V>, AllocError>
    requires { length inputs.now ≡ graph.now.inputs }
    ensures { IfOk result (λ outputs. outputs.items ≡ output_values V.operations graph.now (constant ∷ inputs.now)) }
{
    let mut values = vec![in alloc; constant; graph.signals()]?;
    eval_in(alloc, graph, constant, inputs, &mut values)
}

/// Each output's value. `values` has room for the value of each signal.
fn eval_in<V: SignalValue>(
    alloc: Global,
    graph: &Graph,
    constant: V,
    inputs: &[V],
    values: &mut [V],
) -> Result<Vec<V>, AllocError>
    requires inputs { length inputs.now ≡ graph.now.inputs }
    requires room { length values.old ≡ signals_of graph.now }
    ensures { IfOk result (λ outputs. outputs.items ≡ output_values V.operations graph.now (constant ∷ inputs.now)) }
{
    let gates = graph.gates();
    put_inputs(constant, inputs, values);
    eval_gates(gates, inputs.len() + 1, values);
    literal_values(alloc, values, graph.outputs())
}

/// Each literal's value.
fn literal_values<V: SignalValue>(
    alloc: Global,
    values: &[V],
    literals: &[Lit],
) -> Result<Vec<V>, AllocError>
    requires { All (λ literal. signal_of literal < length values.now) literals.now }
    ensures { IfOk result (λ found. found.items ≡ map (literal_value V.operations values.now) literals.now) }
{
    let mut found = Vec::with_capacity(alloc, literals.len())?;
    for literal in literals {
        found.push(literal_value(values, *literal))?;
    }
    Ok(found)
}

/// What a literal has where each signal has the value that `values` gives it.
#[inline(always)]
pub fn literal_value<V: SignalValue>(values: &[V], literal: Lit) -> V
    requires { signal_of literal < length values.now }
    ensures { result ≡ literal_value V.operations values.now literal }
{
    values[literal.signal() as usize].signed(literal.is_negated())
}

/// What a gate has where each signal has the value that `values` gives it: the AND of what its two literals have.
#[inline(always)]
pub fn gate_value<V: SignalValue>(values: &[V], gate: Gate) -> V
    requires first_operand { signal_of gate.a < length values.now }
    requires second_operand { signal_of gate.b < length values.now }
    ensures { result ≡ gate_value V.operations values.now gate }
{
    literal_value(values, gate.a).and(literal_value(values, gate.b))
}

/// Writes the constant and the inputs, which come first.
pub fn put_inputs<V: Copy>(constant: V, inputs: &[V], values: &mut [V])
    requires { length inputs.now < length values.old }
    ensures front { take (length inputs.now + 1) values.new ≡ constant ∷ inputs.now }
    ensures room { length values.new ≡ length values.old }
{
    values[0] = constant;
    for (i, value) in inputs.iter().enumerate() {
        values[i + 1] = *value;
    }
}

/// Gives each gate its value, in order, from the signal `first` on.
pub fn eval_gates<V: SignalValue>(gates: &[Gate], first: usize, values: &mut [V])
    requires order { AreInOrder first gates.now }
    requires room { first + length gates.now ≡ length values.old }
    ensures values { values.new ≡ with_values V.operations (take first values.old) gates.now }
    ensures room { length values.new ≡ length values.old }
{
    for t in 0..gates.len() {
        let value = gate_value(values, gates[t]);
        values[first + t] = value;
    }
}
