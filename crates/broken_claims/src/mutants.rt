//! Vectors near those that showed something.

use port_cells::{Draws, FlipSim, Lanes, VECTORS, bit_of, port_at, with_bit};
use std::alloc::{AllocError, Global};

/// How many vectors are kept at most, so that each is in a block of 256 at least twice, with other inputs inverted.
/// With fewer each has more mutants, but vectors of fewer claims are kept.
const MOST_PARENTS: usize = 128;

/// How many inputs of a mutant are inverted at most. That a carry goes one place further takes one or two; with more
/// inverted ones most mutants lose what their parent showed.
const MOST_INVERTED: usize = 3;

/// How many vectors are in a word, one a bit.
const WORD: usize = 64;

/// Vectors that showed something, and what is drawn near them: where few vectors break a claim, as those on which a
/// carry goes far, the next ones are near those that are known.
pub(crate) struct Mutants {
    alloc: Global,
    pub(crate) draws: Draws,
    parents: Vec<Vec<bool>>,
}

// By hand, so that each exit of a function has one call for it (docs/IDIOMS.md).
impl Drop for Mutants {
    fn drop(self) {
        let Mutants {
            alloc: _alloc,
            draws: _draws,
            parents: _parents,
        } = self;
    }
}

impl Mutants {
    /// No vector is kept.
    pub(crate) fn new(alloc: Global, seed: u64) -> Mutants {
        Mutants {
            alloc,
            draws: Draws::new(seed),
            parents: Vec::new(alloc),
        }
    }

    pub(crate) fn is_empty(&self) -> bool {
        self.parents.is_empty()
    }

    /// Lets the vectors go.
    pub(crate) fn clear(&mut self) {
        self.parents.clear();
    }

    /// Keeps a vector, a bit for each input. Where there is no room it goes into the place of another one.
    pub(crate) fn keep(&mut self, bits: Vec<bool>) -> Result<(), AllocError> {
        if self.parents.len() < MOST_PARENTS {
            self.parents.push(bits)?;
            return Ok(());
        }
        let place = self.draws.below(MOST_PARENTS);
        if place < self.parents.len() {
            self.parents[place] = bits;
        }
        Ok(())
    }

    /// Keeps those of a simulator's vectors that are marked.
    pub(crate) fn keep_marked(
        &mut self,
        simulator: &FlipSim<'_>,
        marks: Lanes,
    ) -> Result<(), AllocError> {
        for vector in 0..VECTORS {
            if bit_of(marks, vector) {
                self.keep(vector_of(self.alloc, simulator, vector)?)?;
            }
        }
        Ok(())
    }

    /// Gives a simulator's inputs 256 vectors that are kept, one after the other and again, each with one to three
    /// inputs inverted, but for the first.
    pub(crate) fn send(&mut self, simulator: &mut FlipSim<'_>) {
        let first = self.draws.below(self.parents.len());
        send_parents(&self.parents, first, simulator);
        for vector in 1..VECTORS {
            let count = self.draws.below(MOST_INVERTED).saturating_add(1);
            self.invert(simulator, vector, count);
        }
    }

    // Inverts so many inputs on a vector.
    fn invert(&mut self, simulator: &mut FlipSim<'_>, vector: usize, count: usize) {
        for _ in 0..count {
            let input = port_at(self.draws.below(simulator.graph().inputs() as usize));
            let lanes = simulator.input(input);
            let bit = !bit_of(lanes, vector);
            simulator.set_input(input, with_bit(lanes, vector, bit));
        }
    }
}

// The bits of one of a simulator's vectors.
fn vector_of(
    alloc: Global,
    simulator: &FlipSim<'_>,
    vector: usize,
) -> Result<Vec<bool>, AllocError> {
    let inputs = simulator.graph().inputs();
    let mut bits = Vec::with_capacity(alloc, inputs as usize)?;
    for input in 0..inputs {
        bits.push(bit_of(simulator.input(input), vector))?;
    }
    Ok(bits)
}

// Gives a simulator's inputs 256 of the vectors, from one on.
fn send_parents(parents: &[Vec<bool>], first: usize, simulator: &mut FlipSim<'_>) {
    for input in 0..simulator.graph().inputs() {
        simulator.set_input(input, column_of(parents, first, input));
    }
}

// What an input has on 256 of the vectors, from one on.
fn column_of(parents: &[Vec<bool>], first: usize, input: u32) -> Lanes {
    Lanes::from_array([
        word_of(parents, first, input),
        word_of(parents, first.saturating_add(WORD), input),
        word_of(parents, first.saturating_add(2 * WORD), input),
        word_of(parents, first.saturating_add(3 * WORD), input),
    ])
}

fn word_of(parents: &[Vec<bool>], first: usize, input: u32) -> u64 {
    let mut word = 0u64;
    for place in 0..WORD {
        if bit_at(parents, first.saturating_add(place), input) {
            word |= 1u64 << (place % WORD);
        }
    }
    word
}

// The bit of an input in a vector; after the last vector comes the first again.
fn bit_at(parents: &[Vec<bool>], number: usize, input: u32) -> bool {
    let Some(bits) = parents.get(number % parents.len().max(1)) else {
        return false;
    };
    match bits.get(input as usize) {
        Some(bit) => *bit,
        None => false,
    }
}
