//! The order in which a circuit's inputs are met from its outputs on.

use net_core::Graph;
use std::alloc::{AllocError, Global};

/// The place of each input in the order in which a search by depth meets it that begins at the first output and goes to
/// the deeper operand first. Inputs that stand near each other there are joined by gates near the inputs, as the leaves
/// of a tree or the bits of a chain of carries. Those that are never met come last.
pub(crate) fn places_of(alloc: Global, graph: &Graph) -> Result<Vec<usize>, AllocError> {
    let mut walk = Walk::new(alloc, graph)?;
    walk.meet_all()?;
    Ok(walk.into_places())
}

/// A search by depth.
struct Walk<'a> {
    graph: &'a Graph,
    /// How many gates lie one after another below each signal at most.
    levels: Vec<u32>,
    is_met: Vec<bool>,
    /// The signals that are still to be met. The last one is next.
    stack: Vec<usize>,
    places: Vec<usize>,
    /// How many inputs were met.
    met: usize,
}

// By hand, so that each exit of a function has one call for it (docs/IDIOMS.md).
impl Drop for Walk<'_> {
    fn drop(self) {
        let Walk {
            graph: _graph,
            levels: _levels,
            is_met: _is_met,
            stack: _stack,
            places: _places,
            met: _met,
        } = self;
    }
}

impl<'a> Walk<'a> {
    // No signal is met yet, and the first output is next.
    fn new(alloc: Global, graph: &'a Graph) -> Result<Walk<'a>, AllocError> {
        let inputs = graph.inputs() as usize;
        Ok(Walk {
            graph,
            levels: levels_of(alloc, graph)?,
            is_met: vec![in alloc; false; graph.signals()]?,
            stack: outputs_of(alloc, graph)?,
            places: vec![in alloc; inputs; inputs]?,
            met: 0,
        })
    }

    // Meets all signals that outputs rest on. Each gate is met once, and adds its two operands.
    fn meet_all(&mut self) -> Result<(), AllocError> {
        let most = self.graph.gates().len().saturating_mul(2);
        for _ in 0..most.saturating_add(self.graph.outputs().len()) {
            self.step()?;
        }
        Ok(())
    }

    // The inputs' places, once all are met.
    fn into_places(self) -> Vec<usize> {
        let Walk {
            graph: _graph,
            levels: _levels,
            is_met: _is_met,
            stack: _stack,
            places,
            met: _met,
        } = self;
        places
    }

    // Meets the next signal, if there is one.
    fn step(&mut self) -> Result<(), AllocError> {
        let Some(signal) = self.stack.pop() else {
            return Ok(());
        };
        if self.is_met.get(signal) != Some(&false) {
            return Ok(());
        }
        if signal < self.is_met.len() {
            self.is_met[signal] = true;
        }
        let inputs = self.graph.inputs() as usize;
        if signal > inputs {
            self.add_operands(signal - inputs - 1)
        } else {
            self.meet(signal);
            Ok(())
        }
    }

    // Gives an input its place. The constant has none.
    fn meet(&mut self, signal: usize) {
        if (0 < signal) & (signal <= self.places.len()) {
            self.places[signal - 1] = self.met;
            self.met = self.met.saturating_add(1);
        }
    }

    // The deeper operand comes last, so that it is met first.
    fn add_operands(&mut self, gate: usize) -> Result<(), AllocError> {
        let Some(gate) = self.graph.gates().get(gate) else {
            return Ok(());
        };
        let (one, other) = (gate.a.signal() as usize, gate.b.signal() as usize);
        if self.level(one) < self.level(other) {
            self.stack.push(one)?;
            self.stack.push(other)?;
        } else {
            self.stack.push(other)?;
            self.stack.push(one)?;
        }
        Ok(())
    }

    fn level(&self, signal: usize) -> u32 {
        level_at(&self.levels, signal)
    }
}

// The signals of the outputs, that of the first one last.
fn outputs_of(alloc: Global, graph: &Graph) -> Result<Vec<usize>, AllocError> {
    let mut signals = Vec::with_capacity(alloc, graph.outputs().len())?;
    for output in graph.outputs().iter().rev() {
        signals.push(output.signal() as usize)?;
    }
    Ok(signals)
}

// How many gates lie one after another below each signal at most.
fn levels_of(alloc: Global, graph: &Graph) -> Result<Vec<u32>, AllocError> {
    let mut levels = vec![in alloc; 0u32; graph.inputs() as usize + 1]?;
    for gate in graph.gates().iter() {
        let below = level_at(&levels, gate.a.signal() as usize).max(level_at(
            &levels,
            gate.b.signal() as usize,
        ));
        levels.push(below.saturating_add(1))?;
    }
    Ok(levels)
}

fn level_at(levels: &[u32], signal: usize) -> u32 {
    match levels.get(signal) {
        Some(level) => *level,
        None => 0,
    }
}
