//! Literals, AND gates and netlists, as the AIGER format numbers them.

ghost use Rattle.std.specs.Prelude.{◌≡◌, ◌↔◌, ◌<◌, ◌+◌, ◌^◌, All, IsTrue, length};
ghost use Rattle.circuits.specs.Literals.{EachAt, inverse, signal_of, is_negated};
ghost use Rattle.circuits.specs.Netlists.{IsOrdered};

use std::marker::Model;

/// A literal: a signal, plain or negated. Its number is twice the signal's, plus 1 where it is negated.
/// Signal 0 is constantly false, so literal 0 is false and literal 1 is true (the AIGER format).
#[derive(Clone, Copy, Debug, PartialEq, Eq)]
pub struct Lit(pub u32);

impl Lit {
    /// The signal that the literal reads.
    pub fn signal(self) -> u32
        ensures { result ≡ signal_of self }
    {
        self.0 / 2
    }

    /// Whether the literal inverts its signal.
    pub fn is_negated(self) -> bool
        ensures { result ≡ is_negated self }
    {
        self.0 % 2 == 1
    }

    /// The literal of the same signal with the other sign.
    pub fn inverse(self) -> Lit
        ensures { result ≡ inverse self }
    {
        // An odd number is not 0 and an even one is not the greatest of 32 bits, so neither step wraps.
        if self.is_negated() {
            Lit(self.0 - 1)
        } else {
            Lit(self.0 + 1)
        }
    }
}

/// An AND gate of two literals.
#[derive(Clone, Copy, Debug, PartialEq, Eq)]
pub struct Gate {
    /// One operand.
    pub a: Lit,
    /// The other operand.
    pub b: Lit,
}

/// A netlist of AND gates: a count of inputs, then the gates and the outputs in their order. Signal 0 is
/// constantly false, input i is signal i + 1, and gate t is signal inputs + 1 + t (the AIGER format).
#[derive(Debug, Drop)]
pub struct Netlist {
    inputs: u32,
    gates: Vec<Gate>,
    outputs: Vec<Lit>,
}

impl Model for Netlist {
    ghost use Rattle.circuits.specs.Netlists.{Net};

    ghost Value = { Net };

    ghost view = { λ a. record { inputs = a.inputs; gates = a.gates.items; outputs = a.outputs.items } };
}

impl Netlist {
    /// The netlist with these parts, in order or not.
    pub fn new(inputs: u32, gates: Vec<Gate>, outputs: Vec<Lit>) -> Netlist
        ensures { result ≡ record { inputs = inputs; gates = gates.items; outputs = outputs.items } }
    {
        Netlist {
            inputs,
            gates,
            outputs,
        }
    }

    /// How many inputs there are.
    pub fn inputs(&self) -> u32
        ensures { result ≡ self.now.inputs }
    {
        self.inputs
    }

    /// The gates, gate 0 first.
    pub fn gates(&self) -> &[Gate]
        ensures { result.now ≡ self.now.gates }
    {
        self.gates.as_slice()
    }

    /// The outputs, output 0 first.
    pub fn outputs(&self) -> &[Lit]
        ensures { result.now ≡ self.now.outputs }
    {
        self.outputs.as_slice()
    }

    /// Whether each gate reads earlier signals alone, and each output reads a signal that is there.
    pub fn is_ordered(&self) -> bool
        ensures { IsTrue result ↔ IsOrdered self.now }
    {
        is_ordered(self.inputs, &self.gates, &self.outputs)
    }
}

/// Whether each gate of a netlist reads earlier signals alone, and each output a signal that is there.
pub fn is_ordered(inputs: u32, gates: &[Gate], outputs: &[Lit]) -> bool
    ensures { IsTrue result
        ↔ IsOrdered (record { inputs = inputs; gates = gates.now; outputs = outputs.now }) }
{
    let first_gate = 1 + inputs as usize;
    operands_are_earlier(first_gate, gates) & outputs_are_signals(first_gate + gates.len(), outputs)
}

/// Whether each gate's operands are below its own signal, where the first gate has the signal given.
fn operands_are_earlier(first_gate: usize, gates: &[Gate]) -> bool
    requires { first_gate + length gates.now < 2 ^ 64 }
    ensures { IsTrue result
        ↔ EachAt
        (λ t gate. (signal_of gate.a < first_gate + t) × (signal_of gate.b < first_gate + t))
        gates.now }
{
    for (t, gate) in gates.iter().enumerate() {
        let signal = first_gate + t;
        if gate.a.signal() as usize >= signal {
            return false;
        }
        if gate.b.signal() as usize >= signal {
            return false;
        }
    }
    true
}

/// Whether each output reads one of n signals.
fn outputs_are_signals(signals: usize, outputs: &[Lit]) -> bool
    ensures { IsTrue result ↔ All (λ output. signal_of output < signals) outputs.now }
{
    outputs
        .iter()
        .all(|output| (output.signal() as usize) < signals)
}
