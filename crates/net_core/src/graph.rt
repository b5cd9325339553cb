//! Graphs of AND gates, each of which stands after its operands.

ghost use Rattle.std.specs.Prelude.{◌≡◌, ◌+◌, ◌^◌, ◌<◌, ◌↔◌, IsSome, IfOk, IfSome, length, vec_len};
ghost use Rattle.circuits.specs.Literals.{literal_bit, signal_of};
ghost use Rattle.circuits.specs.Netlists.{IsOrdered, signals_of, valuation_of};
ghost use Rattle.net_core.specs.Graph.{IsGraph};

use crate::evaluating::{eval_gates, put_inputs};
use circuits::plain::literal_bit;
use circuits::{Gate, Lit, is_ordered};
use std::alloc::{AllocError, Global};
use std::marker::Model;

/// A netlist of AND gates in order. Signal 0 is false, input i is signal i + 1, and gate t is signal
/// inputs + 1 + t. A gate's operands are earlier signals, and each output is a literal of a signal.
/// There are fewer than 2^31 signals, so that each literal has 32 bits, and fewer than 2^32 outputs.
#[derive(Debug, Drop)]
pub struct Graph {
    inputs: u32,
    gates: Vec<Gate>,
    outputs: Vec<Lit>,
}

impl Model for Graph {
    ghost use Rattle.circuits.specs.Netlists.{Net};
    ghost use Rattle.net_core.specs.Graph.{IsGraph};

    ghost Value = { Net };

    ghost view = { λ g. record { inputs = g.inputs; gates = g.gates.items; outputs = g.outputs.items } };

    ghost invariant = { λ g. IsGraph (record { inputs = g.inputs; gates = g.gates.items; outputs = g.outputs.items }) };
}

impl Graph {
    /// The graph of these gates and outputs. It is None exactly where a literal is out of place: an operand
    /// whose signal doesn't stand before its gate, or an output whose signal isn't there.
    pub fn new(inputs: u32, gates: Vec<Gate>, outputs: Vec<Lit>) -> Option<Graph>
        requires signals { inputs + 1 + vec_len gates < 2 ^ 31 }
        requires outputs { vec_len outputs < 2 ^ 32 }
        ensures ordered { IsSome result
            ↔ IsOrdered (record { inputs = inputs; gates = gates.items; outputs = outputs.items }) }
        ensures graph { IfSome result
            (λ graph. graph ≡ record { inputs = inputs; gates = gates.items; outputs = outputs.items }) }
        ensures sound { IfSome result IsGraph }
    {
        if !is_ordered(inputs, &gates, &outputs) {
            return None;
        }
        Some(Graph {
            inputs,
            gates,
            outputs,
        })
    }

    /// The graph of gates that are in order, and of outputs.
    pub(crate) fn in_order(inputs: u32, gates: Vec<Gate>, outputs: Vec<Lit>) -> Graph
        requires graph { IsGraph (record { inputs = inputs; gates = gates.items; outputs = outputs.items }) }
        ensures { result ≡ record { inputs = inputs; gates = gates.items; outputs = outputs.items } }
    {
        Graph {
            inputs,
            gates,
            outputs,
        }
    }

    /// How many inputs there are.
    pub fn inputs(&self) -> u32
        ensures value { result ≡ self.now.inputs }
        ensures graph { IsGraph self.now }
    {
        self.inputs
    }

    /// The gates, in order.
    pub fn gates(&self) -> &[Gate]
        ensures value { result.now ≡ self.now.gates }
        ensures graph { IsGraph self.now }
    {
        self.gates.as_slice()
    }

    /// The output literals, in order.
    pub fn outputs(&self) -> &[Lit]
        ensures value { result.now ≡ self.now.outputs }
        ensures graph { IsGraph self.now }
    {
        self.outputs.as_slice()
    }

    /// How many signals there are: the constant, the inputs and the gates.
    pub fn signals(&self) -> usize
        ensures value { result ≡ signals_of self.now }
        ensures graph { IsGraph self.now }
    {
        self.inputs as usize + 1 + self.gates.len()
    }

    /// An equal graph.
    pub fn copy(&self, alloc: Global) -> Result<Graph, AllocError>
        ensures copy { IfOk result (λ graph. graph ≡ self.now) }
        ensures sound { IfOk result IsGraph }
    {
        let gates = Vec::from_slice(alloc, &self.gates)?;
        let outputs = Vec::from_slice(alloc, &self.outputs)?;
        Ok(Graph {
            inputs: self.inputs,
            gates,
            outputs,
        })
    }

    /// Gives each signal the bit that it has where the inputs have the bits of `vector`.
    pub fn eval_into(&self, vector: &[bool], values: &mut [bool])
        requires vector { length vector.now ≡ self.now.inputs }
        requires values { length values.old ≡ signals_of self.now }
        ensures { values.new ≡ valuation_of self.now vector.now }
    {
        put_inputs(false, vector, values);
        eval_gates(&self.gates, vector.len() + 1, values);
    }
}

/// The bit of a literal where each signal has the bit that `values` gives it.
pub fn lit_value(values: &[bool], lit: Lit) -> bool
    requires { signal_of lit < length values.now }
    ensures { result ≡ literal_bit values.now lit }
{
    literal_bit(values, lit)
}
