//! What is counted of both circuits at first.

use cell_splits::rare_blocks;
use items::Items;
use net_core::Graph;
use port_cells::{
    Counter, Counts, Draws, FlipSim, Influence, Lanes, all_lanes, blocks_of_all, port_at,
};
use std::alloc::{AllocError, Global};

/// How many words of gates may be computed so that all vectors are counted: about a fifth of a second. What is counted
/// of all vectors is exact, and splits most.
const MOST_EXACT: u64 = 1 << 27;

/// How many words of gates may be computed so that drawn vectors are counted: about a tenth of a second. With a fourth
/// of them the counts of two literals have to be twice as far apart, as shares of the vectors, to tell these apart;
/// with four times as many large circuits take four times as long before the first guess.
const MOST_DRAWN: u64 = 1 << 26;

/// The most blocks of 256 vectors that are drawn, 65,536 vectors. Influences below a thousandth aren't seen on them,
/// and are left to vectors on which gates have rare values.
const MOST_BLOCKS: u64 = 256;

/// The fewest, 4,096 vectors. With 5.5 standard deviations of slack they tell counts apart that differ by a sixteenth
/// of the vectors, a fourth as many only those that differ by an eighth.
const LEAST_BLOCKS: u64 = 16;

/// An input with fewer changes of outputs on drawn vectors is faint: with 5.5 standard deviations of slack fewer than
/// 32 changes in one direction don't show its sign.
const FEW_CHANGES: u32 = 64;

/// The vectors that are counted, in blocks of 256.
#[derive(Clone, Copy, Debug, Drop)]
pub(crate) struct Sample {
    pub(crate) blocks: u64,
    /// Whether these are all vectors.
    pub(crate) is_all: bool,
}

impl Sample {
    /// Vectors for circuits with this many inputs, where a block takes this many words of gates.
    pub(crate) fn new(inputs: u32, words: u64) -> Sample {
        let all = blocks_of_all(inputs);
        // a block costs something also where no input reaches a gate
        if all.saturating_mul(words.max(1)) <= MOST_EXACT {
            return Sample {
                blocks: all,
                is_all: true,
            };
        }
        Sample {
            blocks: (MOST_DRAWN / words.max(1)).clamp(LEAST_BLOCKS, MOST_BLOCKS),
            is_all: false,
        }
    }
}

/// A circuit, and what was counted of it.
pub(crate) struct Circuit<'a> {
    pub(crate) simulator: FlipSim<'a>,
    pub(crate) counts: Counts,
    /// In which directions outputs were seen to change with inputs, also on vectors on which gates have rare values.
    pub(crate) directions: Counts,
    /// Whether drawn vectors leave some inputs faint. Only then are there such vectors.
    pub(crate) is_faint: bool,
}

// By hand, so that each exit of a function has one call for it (docs/IDIOMS.md).
impl Drop for Circuit<'_> {
    fn drop(self) {
        let Circuit {
            simulator: _simulator,
            counts: _counts,
            directions: _directions,
            is_faint: _is_faint,
        } = self;
    }
}

/// Blocks of 256 vectors, a column for each input.
pub(crate) type Blocks = Items<Items<Lanes>>;

impl<'a> Circuit<'a> {
    /// Counts the circuit on a sample's vectors. The blocks are of vectors on which gates have rare values: none,
    /// unless the sample leaves inputs faint.
    pub(crate) fn new(
        alloc: Global,
        simulator: FlipSim<'a>,
        sample: Sample,
        draws: &mut Draws,
    ) -> Result<(Circuit<'a>, Blocks), AllocError> {
        let mut simulator = simulator;
        let mut counter = Counter::new(alloc, &simulator)?;
        count_sample(sample, &mut simulator, &mut counter, draws);
        let counts = counter.counts(alloc)?;
        let is_faint = !sample.is_all && has_faint(&simulator, &counts);
        let rare = if is_faint {
            rare_blocks(alloc, &mut simulator, draws)?
        } else {
            Items::new(alloc)
        };
        let directions = directions_on(alloc, &rare, &mut simulator, &mut counter)?;
        let circuit = Circuit {
            simulator,
            counts,
            directions,
            is_faint,
        };
        Ok((circuit, rare))
    }

    /// Whether an input changes no output: on all vectors, or since it reaches none where some are drawn.
    pub(crate) fn is_idle(&self, input: u32, sample: Sample) -> bool {
        if !sample.is_all {
            return self.simulator.reached(input).is_empty();
        }
        match self.counts.of_inputs.get(input as usize) {
            Some(influences) => influences.is_empty(),
            None => false,
        }
    }

    /// The circuit's graph.
    pub(crate) fn graph(&self) -> &Graph {
        self.simulator.graph()
    }
}

// Counts a sample's vectors.
fn count_sample(
    sample: Sample,
    simulator: &mut FlipSim<'_>,
    counter: &mut Counter,
    draws: &mut Draws,
) {
    for block in 0..sample.blocks {
        put_block(simulator, block, sample.is_all, draws);
        simulator.run();
        counter.add(simulator);
    }
}

fn changes_of(influences: &[Influence]) -> u32 {
    let mut changes = 0u32;
    for influence in influences.iter() {
        changes = changes.saturating_add(influence.changes());
    }
    changes
}

// Whether some input that reaches outputs changes them on few vectors.
fn has_faint(simulator: &FlipSim<'_>, counts: &Counts) -> bool {
    for (input, influences) in counts.of_inputs.iter().enumerate() {
        let is_reaching = !simulator.reached(port_at(input)).is_empty();
        if is_reaching & (changes_of(influences) < FEW_CHANGES) {
            return true;
        }
    }
    false
}

// In which directions outputs change on blocks of vectors too.
fn directions_on(
    alloc: Global,
    blocks: &[Items<Lanes>],
    simulator: &mut FlipSim<'_>,
    counter: &mut Counter,
) -> Result<Counts, AllocError> {
    for block in blocks.iter() {
        simulator.set_inputs(block);
        simulator.run();
        counter.add(simulator);
    }
    counter.directions(alloc)
}

// Gives the inputs a block of all vectors, or a drawn one.
fn put_block(simulator: &mut FlipSim<'_>, block: u64, is_all: bool, draws: &mut Draws) {
    for input in 0..simulator.graph().inputs() {
        let lanes = if is_all {
            all_lanes(input, block)
        } else {
            draws.lanes()
        };
        simulator.set_input(input, lanes);
    }
}
