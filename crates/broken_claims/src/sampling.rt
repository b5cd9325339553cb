//! Claims of one input that vectors break.

use crate::mutants::Mutants;
use crate::paths::{Paths, paths_to_outputs};
use account_core::Tallied;
use net_core::Graph;
use port_cells::{Draws, FlipSim, Lanes, all_lanes, blocks_of_all, ones_in, replicated};
use std::alloc::{AllocError, Global};

/// How many words of gates may be computed of a circuit on drawn vectors: about a tenth of a second. On half and on
/// twice as many five near misses are refused by as many bans of each kind.
const MOST_WORDS: u64 = 1 << 25;

/// The most blocks of 256 vectors. On 16,384 vectors an input that matters on one of a thousand is nearly always seen.
const MOST_BLOCKS: u64 = 64;

/// The fewest: an input of a wide gate isn't seen on fewer.
const LEAST_BLOCKS: u64 = 4;

/// How many of the first blocks show which claims vectors commonly break: as many vectors as claims are tried on before
/// they are asked (`fact_tests`).
const COMMON_BLOCKS: u64 = 2;

/// How many words of gates may be computed on vectors near those that showed something new: four times as many as on
/// drawn ones, about half a second, since each claim that they break is a question less.
const MOST_NEAR_WORDS: u64 = 1 << 27;

/// How many blocks these are at most, a million vectors. One of each four shows something new, so that only circuits
/// with more than a thousand claims come so far.
const MOST_NEAR_BLOCKS: u32 = 4_096;

/// How many of them may show nothing new one after the other: two near others and two drawn ones. With more of them
/// time is spent on claims that hold, and with fewer more claims that fail are left to questions.
const MOST_QUIET: u32 = 4;

/// How many blocks are looked at near a vector that a question gave. More of them take longer after each such question,
/// and leave fewer claims to be asked.
const BLOCKS_OF_ANSWER: u32 = 2;

/// The bit of an input and an output that falls on some vector as the input rises: it breaks the claim that it never
/// does. `cube_tables` has the same two bits.
const FALLS: u8 = 1;

/// The bit where it rises as the input rises, and so falls as the input falls.
const RISES: u8 = 2;

/// Both: the output is binate in the input.
const BINATE: u8 = FALLS | RISES;

/// The bit of an input from which a path with an even number of negations leads to the output.
const EVEN: u8 = 4;

/// The bit of one from which a path with an odd number leads there.
const ODD: u8 = 8;

/// Where the bits of what vectors commonly break begin.
const COMMON: u32 = 4;

/// What is known of an input of an output: by which paths it reaches the output, and whether a vector breaks the claim
/// that the output never falls where the input goes up, or down. There is one for each input of each output, so all is
/// in one byte.
#[derive(Clone, Copy, Debug, Drop)]
pub struct Flips {
    /// `FALLS` and `RISES` for what vectors break, `EVEN` and `ODD` for the paths, and from `COMMON` on `FALLS` and
    /// `RISES` for what vectors commonly break.
    bits: u8,
}

impl Flips {
    // Nothing is known but the paths.
    fn unseen(paths: Paths) -> Flips {
        let even = if paths.even { EVEN } else { 0 };
        let odd = if paths.odd { ODD } else { 0 };
        Flips { bits: even | odd }
    }

    /// Whether the input reaches the output through gates.
    pub(crate) fn reaches(self) -> bool {
        self.bits & (EVEN | ODD) > 0
    }

    /// Whether a vector breaks the claim of the input that has this value at first: it goes up from false, and down
    /// from true.
    pub(crate) fn is_broken(self, value: bool) -> bool {
        self.bits & breaking(value) > 0
    }

    /// Which of the two claims vectors break: `FALLS`, `RISES`, or both bits.
    pub(crate) fn broken(self) -> u8 {
        self.bits & BINATE
    }

    /// Whether the claim of the input with a value is broken by no vector, though it doesn't hold by paths.
    pub(crate) fn is_open_at(self, value: bool) -> bool {
        let may_fall = if value { EVEN } else { ODD };
        (self.bits & may_fall > 0) & !self.is_broken(value)
    }

    fn is_open(self) -> bool {
        self.is_open_at(false) | self.is_open_at(true)
    }

    /// Whether the output is known to depend on the input, or to be binate in it.
    pub fn is_of(self, kind: Tallied) -> bool {
        match kind {
            Tallied::Support => self.broken() > 0,
            Tallied::Binate => self.broken() == BINATE,
        }
    }

    /// Whether the output can't be of a kind in the input, by the paths from the input to it.
    pub fn is_never(self, kind: Tallied) -> bool {
        match kind {
            Tallied::Support => !self.reaches(),
            Tallied::Binate => self.bits & (EVEN | ODD) != EVEN | ODD,
        }
    }

    // Which of the two claims vectors commonly break.
    fn common(self) -> u8 {
        self.bits >> COMMON
    }

    /// Whether vectors commonly show that the output depends on the input, or is binate in it.
    pub fn is_commonly(self, kind: Tallied) -> bool {
        match kind {
            Tallied::Support => self.common() > 0,
            Tallied::Binate => self.common() == BINATE,
        }
    }

    /// The value of a claim of the input that fails, if one does: one that vectors commonly break where there is one.
    pub fn failing_value(self) -> bool {
        if self.common() > 0 {
            self.common() == RISES
        } else {
            !self.is_broken(false)
        }
    }

    /// The value of a claim of the input that may hold, of which one isn't broken: one that holds by paths where there
    /// is one.
    pub fn holding_value(self) -> bool {
        if self.is_broken(false) {
            true
        } else {
            (self.bits & (EVEN | ODD) == ODD) & !self.is_broken(true)
        }
    }

    /// Notes that the claim of the input with a value fails.
    pub(crate) fn break_claim(&mut self, value: bool) {
        self.bits |= breaking(value);
    }

    // Notes that all that is known so far is commonly shown.
    fn mark_common(&mut self) {
        self.bits |= self.broken() << COMMON;
    }

    // Notes that these vectors break the claim of the input with a value. Answers one of them where none did before.
    fn note(&mut self, vectors: Lanes, value: bool) -> Lanes {
        if self.is_broken(value) | (ones_in(vectors) == 0) {
            return replicated(false);
        }
        self.break_claim(value);
        first_of(vectors)
    }
}

// What breaks the claim of an input with a value.
fn breaking(value: bool) -> u8 {
    if value { RISES } else { FALLS }
}

// The first of some vectors alone.
fn first_of(vectors: Lanes) -> Lanes {
    let [a, b, c, d] = vectors.to_array();
    if a != 0 {
        Lanes::from_array([lowest(a), 0, 0, 0])
    } else if b != 0 {
        Lanes::from_array([0, lowest(b), 0, 0])
    } else if c != 0 {
        Lanes::from_array([0, 0, lowest(c), 0])
    } else {
        Lanes::from_array([0, 0, 0, lowest(d)])
    }
}

// The lowest bit of a word.
fn lowest(word: u64) -> u64 {
    word & !word.wrapping_sub(1)
}

/// For each output of a circuit, what vectors show of each input: all of few inputs, else drawn ones, and then vectors
/// near those that showed what none did before, as long as these show more, in turn with drawn ones.
pub(crate) fn sampled(
    alloc: Global,
    graph: &Graph,
    seed: u64,
) -> Result<Vec<Vec<Flips>>, AllocError> {
    let mut rows = unseen(alloc, graph)?;
    let mut sample = Sample::new(alloc, graph, seed)?;
    if !sample.draw(&mut rows)? {
        sample.look_on(&mut rows)?;
    }
    Ok(rows)
}

// Nothing is known yet of any input of an output but by which paths it reaches it.
fn unseen(alloc: Global, graph: &Graph) -> Result<Vec<Vec<Flips>>, AllocError> {
    let mut rows = Vec::new(alloc);
    for paths in paths_to_outputs(alloc, graph)?.iter() {
        rows.push(unseen_row(alloc, paths)?)?;
    }
    Ok(rows)
}

fn unseen_row(alloc: Global, paths: &[Paths]) -> Result<Vec<Flips>, AllocError> {
    let mut row = Vec::with_capacity(alloc, paths.len())?;
    for paths in paths.iter() {
        row.push(Flips::unseen(*paths))?;
    }
    Ok(row)
}

/// A circuit on vectors that are drawn, or are near those that showed something.
pub struct Sample<'a> {
    simulator: FlipSim<'a>,
    mutants: Mutants,
}

// By hand, so that each exit of a function has one call for it (docs/IDIOMS.md).
impl Drop for Sample<'_> {
    fn drop(self) {
        let Sample {
            simulator: _simulator,
            mutants: _mutants,
        } = self;
    }
}

impl<'a> Sample<'a> {
    /// Nothing is drawn yet; the seed says what will be.
    ///
    /// # Errors
    ///
    /// Only when out of memory.
    pub fn new(alloc: Global, graph: &'a Graph, seed: u64) -> Result<Sample<'a>, AllocError> {
        Ok(Sample {
            simulator: FlipSim::new(alloc, graph)?,
            mutants: Mutants::new(alloc, seed),
        })
    }

    // Looks at all vectors where these are few, else at drawn ones. Answers whether it was all.
    fn draw(&mut self, rows: &mut [Vec<Flips>]) -> Result<bool, AllocError> {
        let all = blocks_of_all(self.simulator.graph().inputs());
        let words = self.simulator.words_of_flips().max(1);
        let blocks = all.min((MOST_WORDS / words).clamp(LEAST_BLOCKS, MOST_BLOCKS));
        for block in 0..blocks {
            if block == COMMON_BLOCKS {
                mark_common(rows);
            }
            let is_all = blocks == all;
            send_block(&mut self.simulator, block, is_all, &mut self.mutants.draws);
            self.look(rows)?;
        }
        Ok(blocks == all)
    }

    // Looks at vectors near those that showed something new, and at drawn ones, while they show more.
    fn look_on(&mut self, rows: &mut [Vec<Flips>]) -> Result<(), AllocError> {
        let most = self.simulator.words().saturating_add(MOST_NEAR_WORDS);
        let mut quiet = 0u32;
        for turn in 0..MOST_NEAR_BLOCKS {
            if (quiet >= MOST_QUIET) | (self.simulator.words() >= most) {
                return Ok(());
            }
            if (turn % 2 == 0) & !self.mutants.is_empty() {
                self.mutants.send(&mut self.simulator);
            } else {
                send_block(&mut self.simulator, 0, false, &mut self.mutants.draws);
            }
            let is_new = self.look(rows)?;
            quiet = if is_new { 0 } else { quiet.saturating_add(1) };
        }
        Ok(())
    }

    /// Looks at a vector, a bit for each input, and at others near it.
    pub(crate) fn look_near(
        &mut self,
        vector: Vec<bool>,
        rows: &mut [Vec<Flips>],
    ) -> Result<(), AllocError> {
        self.mutants.clear();
        self.mutants.keep(vector)?;
        for _ in 0..BLOCKS_OF_ANSWER {
            self.mutants.send(&mut self.simulator);
            self.look(rows)?;
        }
        Ok(())
    }

    // Looks at a block of vectors, and keeps those that show what none did before. Answers whether there are any.
    fn look(&mut self, rows: &mut [Vec<Flips>]) -> Result<bool, AllocError> {
        self.simulator.run();
        let mut shown = replicated(false);
        for input in 0..self.simulator.graph().inputs() {
            if is_any_open(rows, self.simulator.reached(input), input) {
                self.simulator.flip(input);
                shown = shown | note_flipped(rows, &self.simulator, input);
                self.simulator.unflip(input);
            }
        }
        self.mutants.keep_marked(&self.simulator, shown)?;
        Ok(ones_in(shown) > 0)
    }
}

// Marks what is known so far as commonly shown.
fn mark_common(rows: &mut [Vec<Flips>]) {
    for row in rows.iter_mut() {
        mark_row(row);
    }
}

fn mark_row(row: &mut [Flips]) {
    for flips in row.iter_mut() {
        flips.mark_common();
    }
}

// Whether a claim of an input is open at one of some outputs.
fn is_any_open(rows: &[Vec<Flips>], outputs: &[u32], input: u32) -> bool {
    outputs
        .iter()
        .any(|output| is_open_at(rows, *output, input))
}

fn is_open_at(rows: &[Vec<Flips>], output: u32, input: u32) -> bool {
    let Some(row) = rows.get(output as usize) else {
        return false;
    };
    match row.get(input as usize) {
        Some(flips) => flips.is_open(),
        None => false,
    }
}

// Notes what an inverted input shows of the outputs that it reaches. Answers vectors that show what none did before.
fn note_flipped(rows: &mut [Vec<Flips>], simulator: &FlipSim<'_>, input: u32) -> Lanes {
    let mut shown = replicated(false);
    for output in simulator.reached(input).iter() {
        if is_open_at(rows, *output, input) & ((*output as usize) < rows.len()) {
            let row = &mut rows[*output as usize];
            shown = shown | note_output(row, simulator, *output, input);
        }
    }
    shown
}

// Where an output differs from an input and follows it, it falls as the input goes up; where it agrees, as the input
// goes down.
fn note_output(row: &mut [Flips], simulator: &FlipSim<'_>, output: u32, input: u32) -> Lanes {
    if input as usize >= row.len() {
        return replicated(false);
    }
    let before = simulator.output(output);
    let changes = before ^ simulator.flipped_output(output);
    let differs = before ^ simulator.input(input);
    let up = row[input as usize].note(changes & differs, false);
    let down = row[input as usize].note(changes & !differs, true);
    up | down
}

/// Gives the inputs a block of all vectors, or a drawn one.
pub(crate) fn send_block(simulator: &mut FlipSim<'_>, block: u64, is_all: bool, draws: &mut Draws) {
    for input in 0..simulator.graph().inputs() {
        let lanes = if is_all {
            all_lanes(input, block)
        } else {
            drawn(draws)
        };
        simulator.set_input(input, lanes);
    }
}

// Half of the vectors have 0 and 1 equally often, a quarter are mostly 0, and a quarter mostly 1: only on those do wide
// gates depend on single inputs.
fn drawn(draws: &mut Draws) -> Lanes {
    let sparse = draws.word() & draws.word() & draws.word();
    let dense = draws.word() | draws.word() | draws.word();
    Lanes::from_array([draws.word(), draws.word(), sparse, dense])
}
