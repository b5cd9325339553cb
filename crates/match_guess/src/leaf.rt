//! Whole matchings of inputs, tried on vectors.

use crate::circuit::{Circuit, Sample};
use crate::kept::Kept;
use cell_splits::{Patterns, State, add_hashes};
use net_core::Side;
use port_cells::{Cells, Draws, all_lanes, blocks_of_all};
use std::alloc::{AllocError, Global};

/// How many blocks of 256 drawn vectors a matching is tried on at first: most wrong ones fail on them, for a hundredth
/// of what trying it on all takes. One block does as well for 29 pairs.
const FIRST_BLOCKS: u64 = 8;

/// How many further ones a matching of many inputs is tried on, some 200,000 vectors, where all aren't fewer: a wrong
/// matching costs the oracle more.
const MORE_BLOCKS: u64 = 768;

/// Pairs the outputs of circuits whose inputs are paired by what they have on vectors, where that can be: on those on
/// which matchings failed before, which are one block, on a few drawn ones, and on all where the inputs are few. So
/// most wrong matchings are left before what takes longest.
pub(crate) fn with_paired_outputs(
    alloc: Global,
    state: State,
    first: &mut Circuit<'_>,
    second: &mut Circuit<'_>,
    kept: &Kept,
    draws: &mut Draws,
) -> Result<Option<State>, AllocError> {
    let Some(state) = on_kept(alloc, state, first, second, kept)? else {
        return Ok(None);
    };
    let few = Sample {
        blocks: FIRST_BLOCKS,
        is_all: false,
    };
    let Some(state) = on_sample(alloc, state, first, second, few, draws)? else {
        return Ok(None);
    };
    let all = blocks_of_all(first.graph().inputs());
    let many = Sample {
        blocks: all.min(MORE_BLOCKS),
        is_all: all <= MORE_BLOCKS,
    };
    on_sample(alloc, state, first, second, many, draws)
}

// Pairs outputs by the vectors on which matchings failed.
fn on_kept(
    alloc: Global,
    state: State,
    first: &mut Circuit<'_>,
    second: &mut Circuit<'_>,
    kept: &Kept,
) -> Result<Option<State>, AllocError> {
    let patterns = Patterns::of_inputs(alloc, &state.inputs, kept.inputs())?;
    let mut hashes = Hashes::new(alloc, &state)?;
    hashes.add(&state, &patterns, first, second);
    hashes.split(alloc, state)
}

// Pairs outputs by a sample of vectors.
fn on_sample(
    alloc: Global,
    state: State,
    first: &mut Circuit<'_>,
    second: &mut Circuit<'_>,
    sample: Sample,
    draws: &mut Draws,
) -> Result<Option<State>, AllocError> {
    let mut hashes = Hashes::new(alloc, &state)?;
    for block in 0..sample.blocks {
        let patterns = if sample.is_all {
            all_patterns(alloc, &state.inputs, first.graph().inputs(), block)?
        } else {
            Patterns::draw(alloc, &state.inputs, draws)?
        };
        hashes.add(&state, &patterns, first, second);
    }
    hashes.split(alloc, state)
}

// What cells of inputs have in a block of all vectors.
fn all_patterns(
    alloc: Global,
    cells: &Cells,
    inputs: u32,
    block: u64,
) -> Result<Patterns, AllocError> {
    let mut lanes = Vec::with_capacity(alloc, inputs as usize)?;
    for input in 0..inputs {
        lanes.push(all_lanes(input, block))?;
    }
    Patterns::of_inputs(alloc, cells, &lanes)
}

// Hashes of the bits of the outputs' literals.
struct Hashes {
    first: Vec<u64>,
    second: Vec<u64>,
}

// By hand, so that each exit of a function has one call for it (docs/IDIOMS.md).
impl Drop for Hashes {
    fn drop(self) {
        let Hashes {
            first: _first,
            second: _second,
        } = self;
    }
}

impl Hashes {
    fn new(alloc: Global, state: &State) -> Result<Hashes, AllocError> {
        let literals = state.outputs.of(Side::First).len();
        Ok(Hashes {
            first: vec![in alloc; 0u64; literals]?,
            second: vec![in alloc; 0u64; literals]?,
        })
    }

    // Adds what the outputs have on more vectors.
    fn add(
        &mut self,
        state: &State,
        patterns: &Patterns,
        first: &mut Circuit<'_>,
        second: &mut Circuit<'_>,
    ) {
        patterns.run(&state.inputs, Side::First, &mut first.simulator);
        patterns.run(&state.inputs, Side::Second, &mut second.simulator);
        add_hashes(&first.simulator, &mut self.first);
        add_hashes(&second.simulator, &mut self.second);
    }

    // The state with the outputs' cells split by the hashes.
    fn split(&self, alloc: Global, state: State) -> Result<Option<State>, AllocError> {
        let outputs = state.outputs.refine(alloc, &self.first, &self.second)?;
        Ok(state.with_outputs(outputs))
    }
}
