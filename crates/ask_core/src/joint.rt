//! The cones of a question as one netlist.

ghost use Rattle.std.specs.Prelude.{◌≡◌, IfOk, length};

use crate::gates::{LitGate, inputs_of};
use cnf_core::SatLit;
use indexmap::IndexMap;
use net_core::{Gate, Graph, Lit};
use std::alloc::{AllocError, Global};

/// How many signals a netlist may have: a literal is twice a signal's number, or one more, and has 32 bits.
const LIMIT: usize = 1 << 31;

/// What a signal of the netlist is in the question.
#[derive(Clone, Copy, Drop)]
pub(crate) struct Signal {
    /// The literal that is true where the signal is 1.
    pub(crate) literal: SatLit,
    /// How many gates there are at most from an input to it.
    pub(crate) depth: u64,
}

/// The gates of two cones as one netlist, a gate that both have once. All signals are its outputs, the constant and the
/// inputs too, so that a simulation says what each of them has.
pub(crate) struct Joint {
    pub(crate) graph: Graph,
    /// What each signal is.
    pub(crate) signals: Vec<Signal>,
}

// By hand, so that each exit of a function has one call for it (docs/IDIOMS.md).
impl Drop for Joint {
    fn drop(self) {
        let Joint {
            graph: _graph,
            signals: _signals,
        } = self;
    }
}

/// A netlist that is being put together.
struct JointBuilder {
    /// The signal of each variable.
    numbers: IndexMap<u64, usize>,
    signals: Vec<Signal>,
    gates: Vec<Gate>,
}

// By hand, so that each exit of a function has one call for it (docs/IDIOMS.md).
impl Drop for JointBuilder {
    fn drop(self) {
        let JointBuilder {
            numbers: _numbers,
            signals: _signals,
            gates: _gates,
        } = self;
    }
}

impl Joint {
    /// The netlist of gates each of which stands after its operands. None where there are too many.
    ///
    /// # Errors
    ///
    /// Only when out of memory.
    pub(crate) fn of(alloc: Global, gates: &[LitGate]) -> Result<Option<Joint>, AllocError> {
        let inputs = inputs_of(alloc, gates)?;
        let mut builder = JointBuilder::new(alloc, &inputs)?;
        builder.add_gates(gates)?;
        let outputs = plain_literals(alloc, builder.signals.len())?;
        Ok(builder.into_joint(inputs.len(), outputs))
    }
}

impl JointBuilder {
    // The constant, and inputs: signal 0 is 0, and variable 0 is true.
    fn new(alloc: Global, inputs: &[SatLit]) -> Result<JointBuilder, AllocError> {
        let mut builder = JointBuilder {
            numbers: IndexMap::new(alloc),
            signals: Vec::new(alloc),
            gates: Vec::new(alloc),
        };
        builder.add(SatLit::of(0, false), 0)?;
        for input in inputs.iter() {
            builder.add(*input, 0)?;
        }
        Ok(builder)
    }

    // Adds gates each of which stands after its operands.
    fn add_gates(&mut self, gates: &[LitGate]) -> Result<(), AllocError> {
        for gate in gates.iter() {
            self.add_gate(*gate)?;
        }
        Ok(())
    }

    // The netlist with these outputs, where n signals are inputs. None where there are too many of them.
    fn into_joint(self, inputs: usize, outputs: Vec<Lit>) -> Option<Joint> {
        let JointBuilder {
            numbers: _numbers,
            signals,
            gates,
        } = self;
        if (inputs >= LIMIT / 2) | (gates.len() >= LIMIT / 2) | (outputs.len() >= LIMIT) {
            return None;
        }
        let graph = Graph::new(inputs as u32, gates, outputs)?;
        Some(Joint { graph, signals })
    }

    // Adds a signal that is 1 where a literal is true.
    fn add(&mut self, literal: SatLit, depth: u64) -> Result<(), AllocError> {
        let number = self.signals.len();
        self.numbers.insert(literal.variable(), number)?;
        self.signals.push(Signal { literal, depth })?;
        Ok(())
    }

    // Adds a gate that isn't there.
    fn add_gate(&mut self, gate: LitGate) -> Result<(), AllocError> {
        if self.numbers.get(&gate.output.variable()).is_some() {
            return Ok(());
        }
        let (a, first) = self.operand(gate.first);
        let (b, second) = self.operand(gate.second);
        self.gates.push(Gate { a, b })?;
        self.add(gate.output, first.max(second).saturating_add(1))
    }

    // The netlist's literal for an operand, and its depth. One that isn't there is taken for the constant.
    fn operand(&self, operand: SatLit) -> (Lit, u64) {
        let number = self.numbers.get(&operand.variable()).copied();
        let number = number.unwrap_or(0);
        match self.signals.get(number) {
            Some(signal) => (literal(number, operand != signal.literal), signal.depth),
            None => (Lit(0), 0),
        }
    }
}

// The literal of a signal. Where a netlist is made they are all below the limit.
fn literal(signal: usize, negated: bool) -> Lit {
    let number = (signal % LIMIT) as u32;
    Lit(2 * number + negated as u32)
}

// A literal without complement for each of n signals.
fn plain_literals(alloc: Global, count: usize) -> Result<Vec<Lit>, AllocError>
    ensures { IfOk result (λ literals. length literals.items ≡ count) }
{
    let mut literals = Vec::with_capacity(alloc, count)?;
    for signal in 0..count {
        literals.push(literal(signal, false))?;
    }
    Ok(literals)
}
