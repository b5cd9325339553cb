//! Netlists without the gates that no output reaches.

ghost use Rattle.std.specs.Prelude.{◌≡◌, ◌+◌, ◌<◌, ◌^◌, All, IfOk, OnOk, length, map};
ghost use Rattle.circuits.specs.Literals.{signal_of};
ghost use Rattle.circuits.specs.Netlists.{signals_of};
ghost use Rattle.net_core.specs.Graph.{IsGraph};
ghost use Rattle.sweep.specs.Pruning.{AreAllGatesOf, AreMarked, AreMarkedFrom, AreUsed, IsKept, IsNumbered, IsNumbering};
ghost use Rattle.sweep.specs.Pruning.{IsNumberedLiteral, IsPruned, origin};

use net_core::{Gate, Graph, Lit};
use std::alloc::{AllocError, Global};

/// The graph without the gates that no output reaches. The others keep their order, and the ports their places.
///
/// # Errors
///
/// Only when out of memory.
pub(crate) fn pruned(alloc: Global, graph: &Graph) -> Result<Graph, AllocError>
    ensures pruned { IfOk result (IsPruned graph.now) }
    ensures sound { IfOk result IsGraph }
{
    let used = used_signals(alloc, graph)?;
    let numbering = Numbering::of(alloc, graph, &used)?;
    numbering.applied(alloc, graph)
}

/// Which signals some output reaches.
fn used_signals(alloc: Global, graph: &Graph) -> Result<Vec<bool>, AllocError>
    ensures { IfOk result (λ used. AreUsed graph.now used.items) }
{
    let mut used = vec![in alloc; false; graph.signals()]?;
    mark_signals(graph.outputs(), &mut used);
    mark_operands(graph, &mut used);
    Ok(used)
}

/// Marks the signals of literals.
fn mark_signals(literals: &[Lit], used: &mut [bool])
    requires { All (λ literal. signal_of literal < length used.old) literals.now }
    ensures { AreMarked literals.now (length literals.now) used.old used.new }
{
    for literal in literals.iter() {
        used[literal.signal() as usize] = true;
    }
}

/// Marks the operands of each gate that is marked, from the last gate to the first: those that read a gate stand after
/// it.
fn mark_operands(graph: &Graph, used: &mut [bool])
    requires { AreMarkedFrom graph.now (length graph.now.gates) used.old }
    ensures { AreMarkedFrom graph.now 0 used.new }
{
    let mut left = graph.gates().len();
    while left > 0 {
        left -= 1;
        mark_operands_of(graph, left, used);
    }
}

/// Marks the operands of a gate, if it is marked.
fn mark_operands_of(graph: &Graph, place: usize, used: &mut [bool])
    requires there { place < length graph.now.gates }
    requires marked { AreMarkedFrom graph.now (place + 1) used.old }
    ensures { AreMarkedFrom graph.now place used.new }
{
    let gate = graph.gates()[place];
    if used[graph.inputs() as usize + 1 + place] {
        used[gate.a.signal() as usize] = true;
        used[gate.b.signal() as usize] = true;
    }
}

/// New numbers for the signals that stay.
struct Numbering {
    /// The signals that stay, in order: the signal that each of the new ones was.
    origins: Vec<u32>,
    /// For each signal the number of those that stay before it: its new number, if it stays.
    numbers: Vec<u32>,
}

// By hand, so that each exit of a function has one call for it (docs/IDIOMS.md).
impl Drop for Numbering {
    fn drop(self) {
        let Numbering {
            origins: _origins,
            numbers: _numbers,
        } = self;
    }
}

impl Numbering {
    /// The constant, the inputs, and the gates that are used, stay.
    fn of(alloc: Global, graph: &Graph, used: &[bool]) -> Result<Numbering, AllocError>
        requires { AreUsed graph.now used.now }
        ensures { IfOk result (λ numbering.
            IsNumbering graph.now numbering.origins.items numbering.numbers.items) }
    {
        let ports = graph.inputs() as usize + 1;
        let mut numbering = Numbering {
            origins: Vec::new(alloc),
            numbers: Vec::with_capacity(alloc, used.len())?,
        };
        for (signal, is_used) in used.iter().enumerate() {
            numbering.add(signal as u32, *is_used | (signal < ports))?;
        }
        Ok(numbering)
    }

    /// Numbers one signal more.
    fn add(&mut self, signal: u32, stays: bool) -> Result<(), AllocError>
        requires { length self.old.origins.items < 2 ^ 32 }
        ensures { OnOk result (IsNumbered signal stays self.old.origins.items self.old.numbers.items
            self.new.origins.items self.new.numbers.items) }
    {
        self.numbers.push(self.origins.len() as u32)?;
        if stays {
            self.origins.push(signal)?;
        }
        Ok(())
    }

    /// The graph by the new numbers.
    fn applied(&self, alloc: Global, graph: &Graph) -> Result<Graph, AllocError>
        requires { IsNumbering graph.now self.now.origins.items self.now.numbers.items }
        ensures pruned { IfOk result (IsPruned graph.now) }
        ensures sound { IfOk result IsGraph }
    {
        let gates = self.gates(alloc, graph)?;
        let outputs = self.outputs(alloc, graph.outputs())?;
        match Graph::new(graph.inputs(), gates, outputs) {
            Some(pruned) => Ok(pruned),
            None => unreachable!(),
        }
    }

    /// The gates that stay.
    fn gates(&self, alloc: Global, graph: &Graph) -> Result<Vec<Gate>, AllocError>
        requires { IsNumbering graph.now self.now.origins.items self.now.numbers.items }
        ensures { IfOk result (λ gates. AreAllGatesOf graph.now self.now.origins.items gates.items) }
    {
        let ports = graph.inputs() as usize + 1;
        let mut gates = Vec::new(alloc);
        for signal in self.origins[ports..].iter() {
            let gate = graph.gates()[*signal as usize - ports];
            gates.push(Gate {
                a: self.literal(gate.a),
                b: self.literal(gate.b),
            })?;
        }
        Ok(gates)
    }

    /// Literals of signals that stay.
    fn outputs(&self, alloc: Global, outputs: &[Lit]) -> Result<Vec<Lit>, AllocError>
        requires few { length self.now.origins.items < 2 ^ 31 }
        requires numbered { All (IsNumberedLiteral self.now.origins.items self.now.numbers.items) outputs.now }
        ensures were { IfOk result (λ literals. map (origin self.now.origins.items) literals.items ≡ outputs.now) }
        ensures there { IfOk result (λ literals.
            All (λ literal. signal_of literal < length self.now.origins.items) literals.items) }
    {
        let mut literals = Vec::with_capacity(alloc, outputs.len())?;
        for output in outputs.iter() {
            literals.push(self.literal(*output))?;
        }
        Ok(literals)
    }

    /// A literal of a signal that stays.
    fn literal(&self, literal: Lit) -> Lit
        requires few { length self.now.origins.items < 2 ^ 31 }
        requires numbered { IsNumberedLiteral self.now.origins.items self.now.numbers.items literal }
        ensures was { origin self.now.origins.items result ≡ literal }
        ensures there { signal_of result < length self.now.origins.items }
    {
        let number = self.numbers[literal.signal() as usize];
        Lit(2 * number + u32::from(literal.is_negated()))
    }
}
