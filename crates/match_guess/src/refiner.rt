//! Cells of ports, split by counts and by vectors until nothing splits them any more.

use crate::choice::{Next, next_point};
use crate::circuit::{Blocks, Circuit, Sample};
use crate::kept::Kept;
use crate::leaf::with_paired_outputs;
use crate::signs::has_known_sign;
use account_core::PairableGraphs;
use cell_splits::{
    BEST, CellAssignment, Keys, Link, Patterns, Similarity, Starts, State, anchored, climbed,
};
use items::Items;
use net_core::Side;
use port_cells::{Cells, Draws, FlipSim, Lanes, Slack};
use std::alloc::{AllocError, Global};

/// The most rounds of one refinement: a bound that isn't met, since each round splits a cell.
const MOST_ROUNDS: u32 = 100_000;

/// Under how many assignments cells are split where signs are open. Each tells other inputs apart, and eight are the
/// fewest in which all kinds take a turn (`assignment`). Under four, comparators of 64 bits take one to three seconds
/// longer.
const MANY_ASSIGNMENTS: u32 = 8;

/// Under how many more where these showed nothing: one turn. Without these the minimum and maximum of 16 bits takes two
/// seconds longer.
const FEW_ASSIGNMENTS: u32 = 4;

/// On how many blocks of 256 vectors each of them. Deviations grow by the square root, so that sixteen times the
/// vectors show influences a fourth as large; a fourth of the blocks does as well for 29 pairs.
const MANY_BLOCKS: u64 = 16;

/// How often in a round assignments of inputs whose signs are known may show nothing. Of inputs that are alike, as
/// those of a parity, they never do, and of two numbers that are compared always.
const MOST_IN_VAIN: u32 = 4;

/// The squares of 5.5, 6.25 and 7 standard deviations, rounded down: how far counts of corresponding literals may be
/// apart, in rounds that take turns. A match is missed where one of its counts is farther off, as one in 26 million is
/// by 5.5 if it is normal; circuits of 128 inputs and outputs have 32,768 counts, and those of rare changes stray
/// farther. With 7 in all rounds comparators of 64 bits take 0.6 to 1.7 s longer.
const DEVIATIONS: [u64; 3] = [30, 39, 49];

/// Both circuits and what was counted of them, by which cells of their ports are split.
pub(crate) struct Refiner<'a> {
    pub(crate) first: Circuit<'a>,
    pub(crate) second: Circuit<'a>,
    /// Vectors of each circuit on which gates have rare values, where drawn ones leave inputs faint.
    pub(crate) first_rare: Blocks,
    pub(crate) second_rare: Blocks,
    pub(crate) draws: Draws,
    /// Whether all that was counted was counted on all vectors. Then a search that is exhausted has missed no match.
    pub(crate) is_exact: bool,
    /// The round of the search.
    pub(crate) round: u32,
    sample: Sample,
    /// Vectors of the first circuit on which many inputs matter, once they are needed: a column for each input.
    climbed: Items<Lanes>,
    /// How often in this round counts under assignments split no cell of inputs whose signs are known.
    in_vain: u32,
}

// By hand, so that each exit of a function has one call for it (docs/IDIOMS.md).
impl Drop for Refiner<'_> {
    fn drop(self) {
        let Refiner {
            first: _first,
            second: _second,
            first_rare: _first_rare,
            second_rare: _second_rare,
            draws: _draws,
            is_exact: _is_exact,
            round: _round,
            sample: _sample,
            climbed: _climbed,
            in_vain: _in_vain,
        } = self;
    }
}

impl<'a> Refiner<'a> {
    /// Counts of both circuits, on vectors drawn by a seed where all are too many.
    pub(crate) fn new(
        alloc: Global,
        graphs: &PairableGraphs<'a>,
        seed: u64,
    ) -> Result<Refiner<'a>, AllocError> {
        let first = FlipSim::new(alloc, graphs.first())?;
        let second = FlipSim::new(alloc, graphs.second())?;
        let words = first.words_of_flips().max(second.words_of_flips());
        let sample = Sample::new(graphs.first().inputs(), words);
        let mut draws = Draws::new(seed);
        let (first, first_rare) = Circuit::new(alloc, first, sample, &mut draws)?;
        let (second, second_rare) = Circuit::new(alloc, second, sample, &mut draws)?;
        Ok(Refiner {
            first,
            second,
            first_rare,
            second_rare,
            draws,
            is_exact: sample.is_all,
            round: 0,
            sample,
            climbed: Items::new(alloc),
            in_vain: 0,
        })
    }

    /// Begins a round of the search.
    pub(crate) fn begin_round(&mut self, round: u32) {
        self.round = round;
        self.in_vain = 0;
    }

    /// How many words of gates were computed of both circuits.
    pub(crate) fn words(&self) -> u64 {
        let first = self.first.simulator.words();
        first.saturating_add(self.second.simulator.words())
    }

    /// How many words of gates a block of 256 vectors takes with each input inverted, of the larger circuit.
    pub(crate) fn words_of_flips(&self) -> u64 {
        let first = self.first.simulator.words_of_flips();
        first.max(self.second.simulator.words_of_flips())
    }

    /// How alike inputs are by the gates that they reach.
    pub(crate) fn similarity(
        &mut self,
        alloc: Global,
        state: &State,
    ) -> Result<Similarity, AllocError> {
        Similarity::new(
            alloc,
            state,
            &mut self.first.simulator,
            &mut self.second.simulator,
            &mut self.draws,
        )
    }

    /// Chooses what is guessed next, by how alike inputs are where that is known.
    pub(crate) fn next_point(
        &mut self,
        alloc: Global,
        state: State,
        similarity: Option<&Similarity>,
    ) -> Result<Next, AllocError> {
        next_point(
            alloc,
            state,
            &self.first.counts,
            similarity,
            self.round,
            &mut self.draws,
        )
    }

    /// States in which vectors with one profile decide the signs that are open at the root.
    pub(crate) fn anchored(
        &mut self,
        alloc: Global,
        root: &State,
    ) -> Result<Vec<State>, AllocError> {
        anchored(
            alloc,
            root,
            Starts {
                first: &self.first_rare,
                second: &self.second_rare,
            },
            &mut self.first.simulator,
            &mut self.second.simulator,
            &mut self.draws,
        )
    }

    /// The state with its outputs paired by vectors, or None where these allow no pairs of them.
    pub(crate) fn with_paired_outputs(
        &mut self,
        alloc: Global,
        state: State,
        kept: &Kept,
    ) -> Result<Option<State>, AllocError> {
        with_paired_outputs(
            alloc,
            state,
            &mut self.first,
            &mut self.second,
            kept,
            &mut self.draws,
        )
    }

    /// Splits the root's cells by what was counted at first.
    pub(crate) fn split_root(
        &self,
        alloc: Global,
        root: State,
    ) -> Result<Option<State>, AllocError> {
        let root = with_paired_idle(alloc, root, &self.first, &self.second, self.sample)?;
        match self.linked(alloc, root)? {
            Some(root) => Ok(Some(self.signed(alloc, root)?)),
            None => Ok(None),
        }
    }

    /// Splits cells until nothing splits any more, or None where a cell has other numbers of literals on both sides.
    pub(crate) fn refined(
        &mut self,
        alloc: Global,
        state: State,
    ) -> Result<Option<State>, AllocError> {
        let Some(state) = self.linked(alloc, state)? else {
            return Ok(None);
        };
        let mut state = state;
        for _ in 0..MOST_ROUNDS {
            if state.inputs.is_discrete() || !has_known_sign(&state.inputs) {
                return Ok(Some(state));
            }
            let before = state.count();
            let Some(finer) = self.refined_once(alloc, state)? else {
                return Ok(None);
            };
            state = finer;
            if state.count() == before {
                return Ok(Some(state));
            }
        }
        Ok(Some(state))
    }

    // Splits cells by vectors, or by counts under assignments where signs are open, and then by the first counts.
    fn refined_once(&mut self, alloc: Global, state: State) -> Result<Option<State>, AllocError> {
        let split = if state.inputs.has_open() {
            self.split_by_assignments(alloc, state)?
        } else {
            self.split_known(alloc, state)?
        };
        match split {
            Some(state) => self.linked(alloc, state),
            None => Ok(None),
        }
    }

    // Splits cells whose signs are known, by counts under assignments too where vectors show nothing and drawn ones
    // left inputs faint: of two numbers that are compared the next bits matter once those above them are equal.
    fn split_known(&mut self, alloc: Global, state: State) -> Result<Option<State>, AllocError> {
        let before = state.count();
        let Some(state) = self.split_by_vectors(alloc, state)? else {
            return Ok(None);
        };
        if state.count() > before || !self.first.is_faint || self.in_vain >= MOST_IN_VAIN {
            return Ok(Some(state));
        }
        let Some(state) = self.split_under(alloc, state, MANY_ASSIGNMENTS, 1)? else {
            return Ok(None);
        };
        if state.count() == before {
            self.in_vain = self.in_vain.saturating_add(1);
        }
        Ok(Some(state))
    }

    // Splits cells by counts under assignments, of more vectors where few show nothing.
    fn split_by_assignments(
        &mut self,
        alloc: Global,
        state: State,
    ) -> Result<Option<State>, AllocError> {
        let before = state.count();
        let Some(state) = self.split_under(alloc, state, MANY_ASSIGNMENTS, 1)? else {
            return Ok(None);
        };
        // a guess among inputs whose signs are known splits more for less
        if state.count() > before || state.has_shared(alloc)? {
            return Ok(Some(state));
        }
        self.split_under(alloc, state, FEW_ASSIGNMENTS, MANY_BLOCKS)
    }

    // Splits cells by counts under some assignments, on some blocks of vectors each.
    fn split_under(
        &mut self,
        alloc: Global,
        state: State,
        assignments: u32,
        blocks: u64,
    ) -> Result<Option<State>, AllocError> {
        let mut state = state;
        for number in 0..assignments {
            let assignment = self.assignment(alloc, &state, number, blocks)?;
            let Some(finer) = self.split_under_one(alloc, state, assignment)? else {
                return Ok(None);
            };
            state = finer;
        }
        Ok(Some(state))
    }

    fn split_under_one(
        &mut self,
        alloc: Global,
        state: State,
        assignment: CellAssignment,
    ) -> Result<Option<State>, AllocError> {
        let first = assignment.count(
            alloc,
            &state,
            Side::First,
            &mut self.first.simulator,
            &mut self.draws,
        )?;
        let second = assignment.count(
            alloc,
            &state,
            Side::Second,
            &mut self.second.simulator,
            &mut self.draws,
        )?;
        self.is_exact &= assignment.is_all();
        let link = Link {
            first: &first,
            second: &second,
            slack: self.slack(first.vectors, assignment.is_all()),
        };
        link.split(alloc, state)
    }

    // Every other one is by a vector on which many inputs matter: under most assignments a wide gate shows none of its
    // inputs. Of the others half are drawn, and half have one bit on all inputs, 0 and 1 in turn: the upper bits of two
    // numbers that are compared are equal then, which they hardly ever are on drawn vectors.
    fn assignment(
        &mut self,
        alloc: Global,
        state: &State,
        number: u32,
        blocks: u64,
    ) -> Result<CellAssignment, AllocError> {
        match number % 4 {
            1 => CellAssignment::constant(alloc, &state.inputs, number % 8 == 5, blocks),
            3 => CellAssignment::draw(alloc, &state.inputs, blocks, &mut self.draws),
            _ => self.climbed_assignment(alloc, state, blocks),
        }
    }

    // An assignment by one of the vectors on which many inputs matter.
    fn climbed_assignment(
        &mut self,
        alloc: Global,
        state: &State,
        blocks: u64,
    ) -> Result<CellAssignment, AllocError> {
        if self.climbed.is_empty() {
            self.climbed = climbed(
                alloc,
                &self.first_rare,
                &mut self.first.simulator,
                &mut self.draws,
            )?;
        }
        let lane = self.draws.below(BEST);
        CellAssignment::by_majority(alloc, &state.inputs, &self.climbed, lane, blocks)
    }

    // Splits cells whose signs are known by drawn vectors.
    fn split_by_vectors(
        &mut self,
        alloc: Global,
        state: State,
    ) -> Result<Option<State>, AllocError> {
        let (inputs, outputs) = self.cells_by_vectors(alloc, &state)?;
        match state.with_inputs(inputs) {
            Some(state) => Ok(state.with_outputs(outputs)),
            None => Ok(None),
        }
    }

    // The cells of inputs, and those of outputs, split by drawn vectors; None where that can't be.
    fn cells_by_vectors(
        &mut self,
        alloc: Global,
        state: &State,
    ) -> Result<(Option<Cells>, Option<Cells>), AllocError> {
        let patterns = Patterns::draw(alloc, &state.inputs, &mut self.draws)?;
        let first = Keys::new(
            alloc,
            state,
            Side::First,
            &patterns,
            &mut self.first.simulator,
        )?;
        let second = Keys::new(
            alloc,
            state,
            Side::Second,
            &patterns,
            &mut self.second.simulator,
        )?;
        let inputs = state.inputs.refine(alloc, &first.inputs, &second.inputs)?;
        let outputs = state
            .outputs
            .refine(alloc, &first.outputs, &second.outputs)?;
        Ok((inputs, outputs))
    }

    // Splits cells by what was counted at first.
    fn linked(&self, alloc: Global, state: State) -> Result<Option<State>, AllocError> {
        let vectors = self.first.counts.vectors;
        let link = Link {
            first: &self.first.counts,
            second: &self.second.counts,
            slack: self.slack(vectors, self.sample.is_all),
        };
        link.split(alloc, state)
    }

    // Splits cells by directions, if that can be: rare changes may have been seen in one circuit alone.
    fn signed(&self, alloc: Global, state: State) -> Result<State, AllocError> {
        if !(self.first.is_faint & self.second.is_faint) {
            return Ok(state);
        }
        let link = Link {
            first: &self.first.directions,
            second: &self.second.directions,
            slack: None,
        };
        match link.split(alloc, state.copy()?)? {
            Some(finer) => Ok(finer),
            None => Ok(state),
        }
    }

    // How far counts on this many vectors may be apart.
    fn slack(&self, vectors: u32, is_all: bool) -> Option<Slack> {
        if is_all {
            return None;
        }
        Some(Slack {
            vectors,
            deviations: DEVIATIONS[self.round as usize % 3],
        })
    }
}

// The state where inputs that change no output go to such inputs in order, where both circuits have as many.
fn with_paired_idle(
    alloc: Global,
    state: State,
    first: &Circuit<'_>,
    second: &Circuit<'_>,
    sample: Sample,
) -> Result<State, AllocError> {
    let left = idle_keys(alloc, first, sample)?;
    let right = idle_keys(alloc, second, sample)?;
    let mut state = state;
    if let Some(inputs) = state.inputs.refine(alloc, &left, &right)? {
        state.inputs = inputs;
    }
    Ok(state)
}

// Keys of their own for the literals of each input that changes no output.
fn idle_keys(alloc: Global, circuit: &Circuit<'_>, sample: Sample) -> Result<Vec<u64>, AllocError> {
    let mut keys = Vec::with_capacity(alloc, circuit.counts.of_inputs.len())?;
    let mut idle = 0u64;
    for input in 0..circuit.graph().inputs() {
        let is_idle = circuit.is_idle(input, sample);
        if is_idle {
            idle = idle.saturating_add(2);
        }
        keys.push(if is_idle { idle } else { 0 })?;
        keys.push(if is_idle { idle | 1 } else { 0 })?;
    }
    Ok(keys)
}
