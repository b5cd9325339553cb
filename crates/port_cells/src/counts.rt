//! How outputs depend on inputs, counted on vectors.

use crate::cells::{empty_lists, port_at};
use crate::{FlipSim, Lanes, VECTORS, ones_in};
use items::Items;
use std::alloc::{AllocError, Global};

/// How an output depends on an input: on how many vectors it changes where the input is inverted, and has the input's
/// bit before, or the other one.
#[derive(Clone, Copy, Debug, Drop)]
pub struct Influence {
    /// The output of an input, or the input of an output.
    pub port: u32,
    pub agrees: u32,
    pub differs: u32,
}

impl Influence {
    /// On how many vectors the output changes.
    pub fn changes(self) -> u32 {
        self.agrees.saturating_add(self.differs)
    }

    /// The counts with one of the two ports in place of its complement, or with the complement of one of them.
    pub fn counts(self, negated: bool) -> (u32, u32) {
        if negated {
            (self.differs, self.agrees)
        } else {
            (self.agrees, self.differs)
        }
    }

    // With 256 more vectors: the output's bits before and after, and the input's.
    fn add(&mut self, before: Lanes, after: Lanes, input: Lanes) {
        let changes = before ^ after;
        let differs = changes & (before ^ input);
        self.agrees = self.agrees.saturating_add(ones_in(changes ^ differs));
        self.differs = self.differs.saturating_add(ones_in(differs));
    }
}

/// What is counted of a circuit on vectors.
#[derive(Debug)]
pub struct Counts {
    /// How many vectors there are.
    pub vectors: u32,
    /// On how many of them each output is 1.
    pub ones: Items<u32>,
    /// The outputs that each input changes.
    pub of_inputs: Items<Items<Influence>>,
    /// The inputs that change each output.
    pub of_outputs: Items<Items<Influence>>,
}

// By hand, so that each exit of a function has one call for it (docs/IDIOMS.md).
impl Drop for Counts {
    fn drop(self) {
        let Counts {
            vectors: _vectors,
            ones: _ones,
            of_inputs: _of_inputs,
            of_outputs: _of_outputs,
        } = self;
    }
}

/// What is counted of a circuit so far.
pub struct Counter {
    vectors: u32,
    ones: Vec<u32>,
    of_inputs: Vec<Vec<Influence>>,
}

// By hand, so that each exit of a function has one call for it (docs/IDIOMS.md).
impl Drop for Counter {
    fn drop(self) {
        let Counter {
            vectors: _vectors,
            ones: _ones,
            of_inputs: _of_inputs,
        } = self;
    }
}

impl Counter {
    /// Nothing is counted yet of a circuit.
    pub fn new(alloc: Global, simulator: &FlipSim<'_>) -> Result<Counter, AllocError> {
        let graph = simulator.graph();
        let ones = vec![in alloc; 0u32; graph.outputs().len()]?;
        let mut of_inputs = Vec::new(alloc);
        for input in 0..graph.inputs() {
            of_inputs.push(unchanged(alloc, simulator.reached(input))?)?;
        }
        Ok(Counter {
            vectors: 0,
            ones,
            of_inputs,
        })
    }

    /// Leaves an input out: it isn't inverted.
    pub fn leave_out(&mut self, input: u32) {
        if (input as usize) < self.of_inputs.len() {
            self.of_inputs[input as usize].clear();
        }
    }

    /// Counts the vectors that a simulator was run on.
    pub fn add(&mut self, simulator: &mut FlipSim<'_>) {
        self.vectors = self.vectors.saturating_add(VECTORS as u32);
        add_ones(simulator, self.ones.as_mut_slice());
        add_influences(simulator, self.of_inputs.as_mut_slice());
    }

    /// What was counted, without the outputs that no vector changes.
    pub fn counts(&self, alloc: Global) -> Result<Counts, AllocError> {
        let kept = changing(alloc, &self.of_inputs)?;
        let of_outputs = by_outputs(alloc, &kept, self.ones.len())?;
        Ok(Counts {
            vectors: self.vectors,
            ones: Items::from_vec(self.ones.clone()?),
            of_inputs: kept,
            of_outputs,
        })
    }

    /// In which directions outputs were seen to change with inputs: each count is 0 or 1, whatever the vectors were
    /// drawn by. How often outputs are true isn't counted.
    pub fn directions(&self, alloc: Global) -> Result<Counts, AllocError> {
        let mut of_inputs = Items::new(alloc);
        for influences in self.of_inputs.iter() {
            of_inputs.push(directions_of(alloc, influences)?)?;
        }
        let of_outputs = by_outputs(alloc, &of_inputs, self.ones.len())?;
        Ok(Counts {
            vectors: 0,
            ones: Items::from_vec(vec![in alloc; 0u32; self.ones.len()]?),
            of_inputs,
            of_outputs,
        })
    }
}

// No change of each output that is reached.
fn unchanged(alloc: Global, reached: &[u32]) -> Result<Vec<Influence>, AllocError> {
    let mut influences = Vec::with_capacity(alloc, reached.len())?;
    for output in reached.iter() {
        influences.push(Influence {
            port: *output,
            agrees: 0,
            differs: 0,
        })?;
    }
    Ok(influences)
}

fn add_ones(simulator: &FlipSim<'_>, ones: &mut [u32]) {
    for (output, count) in ones.iter_mut().enumerate() {
        *count = count.saturating_add(ones_in(simulator.output(port_at(output))));
    }
}

fn add_influences(simulator: &mut FlipSim<'_>, of_inputs: &mut [Vec<Influence>]) {
    for (input, influences) in of_inputs.iter_mut().enumerate() {
        if !influences.is_empty() {
            add_changes(simulator, port_at(input), influences.as_mut_slice());
        }
    }
}

fn add_changes(simulator: &mut FlipSim<'_>, input: u32, influences: &mut [Influence]) {
    let lanes = simulator.input(input);
    simulator.flip(input);
    for influence in influences.iter_mut() {
        let before = simulator.output(influence.port);
        let after = simulator.flipped_output(influence.port);
        influence.add(before, after, lanes);
    }
    simulator.unflip(input);
}

// The influences that are some.
fn changing(
    alloc: Global,
    of_inputs: &[Vec<Influence>],
) -> Result<Items<Items<Influence>>, AllocError> {
    let mut kept = Items::new(alloc);
    for influences in of_inputs.iter() {
        kept.push(some_of(alloc, influences)?)?;
    }
    Ok(kept)
}

fn some_of(alloc: Global, influences: &[Influence]) -> Result<Items<Influence>, AllocError> {
    let mut kept = Items::new(alloc);
    for influence in influences.iter() {
        if influence.changes() > 0 {
            kept.push(*influence)?;
        }
    }
    Ok(kept)
}

// The influences that are some, with 1 for each count that isn't 0.
fn directions_of(alloc: Global, influences: &[Influence]) -> Result<Items<Influence>, AllocError> {
    let mut directions = Items::new(alloc);
    for influence in influences.iter() {
        if influence.changes() > 0 {
            directions.push(Influence {
                port: influence.port,
                agrees: influence.agrees.min(1),
                differs: influence.differs.min(1),
            })?;
        }
    }
    Ok(directions)
}

// The influences on each output, from those of each input.
fn by_outputs(
    alloc: Global,
    of_inputs: &[Items<Influence>],
    outputs: usize,
) -> Result<Items<Items<Influence>>, AllocError> {
    let mut of_outputs = empty_lists(alloc, outputs)?;
    for (input, influences) in of_inputs.iter().enumerate() {
        add_by_output(port_at(input), influences, of_outputs.as_mut_slice())?;
    }
    Ok(Items::from_vec(of_outputs))
}

// Adds the influences of an input to those on outputs.
fn add_by_output(
    input: u32,
    influences: &[Influence],
    of_outputs: &mut [Items<Influence>],
) -> Result<(), AllocError> {
    for influence in influences.iter() {
        if (influence.port as usize) < of_outputs.len() {
            of_outputs[influence.port as usize].push(Influence {
                port: input,
                agrees: influence.agrees,
                differs: influence.differs,
            })?;
        }
    }
    Ok(())
}
