//! Values of outputs, found by the gates that they reach.

ghost use Rattle.std.specs.Prelude.{◌≡◌, ◌+◌, ◌<◌, ◌∷◌, length, slice_set, take};
ghost use Rattle.circuits.specs.Literals.{signal_of};
ghost use Rattle.circuits.specs.Netlists.{signals_of};
ghost use Rattle.net_core.specs.Graph.{AreInOrder};
ghost use Rattle.net_core.specs.Values.{gate_value, literal_value, with_values};
ghost use Rattle.ban_check.specs.Cones.{gate_at, output_at, AreConeValues, IsClosed, IsConeOf, IsWithin};

use net_core::{Gate, Graph, Lit, SignalValue, gate_value, literal_value, put_inputs};

/// What an output has where the inputs have these values. Only the gates of its cone are evaluated, in `values`, which
/// has room for each signal.
pub(crate) fn cone_value<V: SignalValue>(
    graph: &Graph,
    output: u32,
    cone: &[u32],
    constant: V,
    inputs: &[V],
    values: &mut [V],
) -> V
    requires output { output < length graph.now.outputs }
    requires cone { IsConeOf graph.now output cone.now }
    requires inputs { length inputs.now ≡ graph.now.inputs }
    requires room { length values.old ≡ signals_of graph.now }
    ensures { result ≡ literal_value V.operations
        (with_values V.operations (constant ∷ inputs.now) graph.now.gates) (output_at graph.now output) }
{
    let literal = graph.outputs()[output as usize];
    put_inputs(constant, inputs, values);
    literal_by(graph.gates(), inputs.len() + 1, cone, literal, values)
}

// What a literal of a cone has, where the signals before the gates have their values.
fn literal_by<V: SignalValue>(
    gates: &[Gate],
    first: usize,
    cone: &[u32],
    literal: Lit,
    values: &mut [V],
) -> V
    requires order { AreInOrder first gates.now }
    requires cone { IsClosed first gates.now cone.now }
    requires room { first + length gates.now ≡ length values.old }
    requires there { signal_of literal < length values.old }
    requires within { IsWithin first cone.now (signal_of literal) }
    ensures { result ≡ literal_value V.operations (with_values V.operations (take first values.old) gates.now) literal }
{
    eval_cone(gates, first, cone, values);
    literal_value(values, literal)
}

// Gives each gate of a cone its value, in order, where the signals before the gates have theirs.
fn eval_cone<V: SignalValue>(gates: &[Gate], first: usize, cone: &[u32], values: &mut [V])
    requires order { AreInOrder first gates.now }
    requires cone { IsClosed first gates.now cone.now }
    requires room { first + length gates.now ≡ length values.old }
    ensures { AreConeValues V.operations first gates.now cone.now (length cone.now) (take first values.old) values.new }
{
    for gate in cone.iter() {
        eval_one(gates, first, *gate as usize, values);
    }
}

// Gives a gate its value.
fn eval_one<V: SignalValue>(gates: &[Gate], first: usize, gate: usize, values: &mut [V])
    requires order { AreInOrder first gates.now }
    requires there { gate < length gates.now }
    requires room { first + length gates.now ≡ length values.old }
    ensures { values.new ≡ slice_set values.old (first + gate)
        (gate_value V.operations values.old (gate_at gates.now gate)) }
{
    let value = gate_value(values, gates[gate]);
    values[first + gate] = value;
}
