//! Claims of two inputs that vectors break.

use crate::sampling::send_block;
use claim_core::Shape;
use net_core::Graph;
use port_cells::{Draws, FlipSim, Lanes, blocks_of_all, ones_in};
use std::alloc::{AllocError, Global};

/// How many words of gates may be computed of a circuit: about half a second. Nothing is seen of a circuit for which
/// that isn't enough for one block of 256 vectors. On half and on twice as many five near misses are refused by as many
/// bans.
const MOST_WORDS: u64 = 1 << 28;

/// The most blocks, 4,096 vectors. Claims of two inputs break more often than those of one. With fewer blocks more
/// claims are asked that fail; each block takes as long as the first one, and shows less.
const MOST_BLOCKS: u64 = 16;

/// How many pairs of inputs are kept at most, over all outputs: 64 MiB, as many as 128 outputs have that 512 inputs
/// reach. Of a circuit with more nothing is seen, and nothing asked; twice as many take twice the memory.
const MOST_PAIRS: u64 = 1 << 24;

/// Which claims of two inputs vectors break, by how the inputs change.
#[derive(Clone, Copy, Debug, Drop)]
struct Broken {
    both_rise: bool,
    first_rises: bool,
    second_rises: bool,
    both_fall: bool,
}

impl Broken {
    // No claim is broken.
    fn at_none() -> Broken {
        Broken {
            both_rise: false,
            first_rises: false,
            second_rises: false,
            both_fall: false,
        }
    }

    // Only the claim of these values: an input that has 0 rises.
    fn at(first: bool, second: bool) -> Broken {
        Broken {
            both_rise: !first & !second,
            first_rises: !first & second,
            second_rises: first & !second,
            both_fall: first & second,
        }
    }

    // What an output shows on 256 vectors by its bits on these, and on the same vectors with both inputs inverted.
    fn shown(before: Lanes, after: Lanes, first: Lanes, second: Lanes) -> Broken {
        let falls = before & !after;
        let rises = after & !before;
        let zeros = !first & !second;
        let ones = first & second;
        let second_alone = !first & second;
        let first_alone = first & !second;
        Broken {
            both_rise: is_any((falls & zeros) | (rises & ones)),
            both_fall: is_any((falls & ones) | (rises & zeros)),
            first_rises: is_any((falls & second_alone) | (rises & first_alone)),
            second_rises: is_any((falls & first_alone) | (rises & second_alone)),
        }
    }

    // The claims that either one breaks.
    fn or(self, other: Broken) -> Broken {
        Broken {
            both_rise: self.both_rise | other.both_rise,
            first_rises: self.first_rises | other.first_rises,
            second_rises: self.second_rises | other.second_rises,
            both_fall: self.both_fall | other.both_fall,
        }
    }

    // Whether the claim of these values is broken.
    fn is_at(self, first: bool, second: bool) -> bool {
        let at = Broken::at(first, second);
        (self.both_rise & at.both_rise)
            | (self.first_rises & at.first_rises)
            | (self.second_rises & at.second_rises)
            | (self.both_fall & at.both_fall)
    }
}

// Whether the bit is 1 on some vector.
fn is_any(lanes: Lanes) -> bool {
    ones_in(lanes) > 0
}

/// What is known of an output.
#[derive(Debug)]
struct Row {
    /// How many inputs reach the output, and for each input its place among these.
    reached: u32,
    places: Vec<Option<u32>>,
    /// For each place what is known of it with each place before it.
    pairs: Vec<Vec<Broken>>,
}

// By hand, so that each exit of a function has one call for it (docs/IDIOMS.md).
impl Drop for Row {
    fn drop(self) {
        let Row {
            reached: _reached,
            places: _places,
            pairs: _pairs,
        } = self;
    }
}

impl Row {
    // Nothing is known, and no input reaches the output yet.
    fn new(alloc: Global, inputs: u32) -> Result<Row, AllocError> {
        Ok(Row {
            reached: 0,
            places: vec![in alloc; None; inputs as usize]?,
            pairs: Vec::new(alloc),
        })
    }

    // One input more reaches the output.
    fn add_input(&mut self, alloc: Global, input: u32) -> Result<(), AllocError> {
        let place = self.reached;
        let before = vec![in alloc; Broken::at_none(); place as usize]?;
        self.pairs.push(before)?;
        self.reached = place.saturating_add(1);
        if (input as usize) < self.places.len() {
            self.places[input as usize] = Some(place);
        }
        Ok(())
    }

    fn place(&self, input: u32) -> Option<u32> {
        match self.places.get(input as usize) {
            Some(place) => *place,
            None => None,
        }
    }

    // What is known of two inputs, the lesser one first; None where one of them doesn't reach the output.
    fn of_two(&self, first: u32, second: u32) -> Option<Broken> {
        let first = self.place(first)?;
        let second = self.place(second)?;
        let before = self.pairs.get(second as usize)?;
        match before.get(first as usize) {
            Some(broken) => Some(*broken),
            None => None,
        }
    }

    // These claims of two inputs are broken too.
    fn add_broken(&mut self, first: u32, second: u32, broken: Broken) {
        let (Some(first), Some(second)) = (self.place(first), self.place(second)) else {
            return;
        };
        if (second as usize) < self.pairs.len() {
            add_at(&mut self.pairs[second as usize], first, broken);
        }
    }
}

fn add_at(before: &mut [Broken], place: u32, broken: Broken) {
    if (place as usize) < before.len() {
        before[place as usize] = before[place as usize].or(broken);
    }
}

/// For each output of a circuit, what vectors show of the claims of two inputs.
#[derive(Debug)]
pub(crate) struct Swaps {
    rows: Vec<Row>,
}

// By hand, so that each exit of a function has one call for it (docs/IDIOMS.md).
impl Drop for Swaps {
    fn drop(self) {
        let Swaps { rows: _rows } = self;
    }
}

impl Swaps {
    /// Nothing is known.
    pub(crate) fn none(alloc: Global) -> Swaps {
        Swaps {
            rows: Vec::new(alloc),
        }
    }

    /// Whether a vector breaks the claim of a shape of two inputs. It is None where nothing is known of them.
    pub(crate) fn is_broken(&self, output: u32, shape: Shape) -> Option<bool> {
        let Shape::Swap { i, j, a, b } = shape else {
            return None;
        };
        let row = self.rows.get(output as usize)?;
        let broken = row.of_two(i, j)?;
        Some(broken.is_at(a, b))
    }

    /// Notes that the claim of a shape fails.
    pub(crate) fn note(&mut self, output: u32, shape: Shape) {
        let Shape::Swap { i, j, a, b } = shape else {
            return;
        };
        if (output as usize) < self.rows.len() {
            self.rows[output as usize].add_broken(i, j, Broken::at(a, b));
        }
    }

    // The inputs that reach each output.
    fn unseen(alloc: Global, simulator: &FlipSim<'_>) -> Result<Swaps, AllocError> {
        let graph = simulator.graph();
        let mut rows = unseen_rows(alloc, graph)?;
        for input in 0..graph.inputs() {
            add_reached(alloc, &mut rows, simulator.reached(input), input)?;
        }
        Ok(Swaps { rows })
    }

    // Notes what a block of vectors shows, which a simulator has; the other one is for the vectors with inputs
    // inverted.
    fn add(&mut self, block: &FlipSim<'_>, other: &mut FlipSim<'_>) {
        for second in 0..block.graph().inputs() {
            invert(block, other, second);
            other.run();
            self.add_with(block, other, second);
        }
    }

    // With each input before the one that is inverted.
    fn add_with(&mut self, block: &FlipSim<'_>, other: &mut FlipSim<'_>, second: u32) {
        for first in 0..second {
            if self.meet(block.reached(first), second) {
                other.flip(first);
                self.add_two(block, other, first, second);
                other.unflip(first);
            }
        }
    }

    // Whether an input reaches one of some outputs.
    fn meet(&self, outputs: &[u32], input: u32) -> bool {
        outputs.iter().any(|output| self.reaches(*output, input))
    }

    fn reaches(&self, output: u32, input: u32) -> bool {
        match self.rows.get(output as usize) {
            Some(row) => row.place(input).is_some(),
            None => false,
        }
    }

    // Notes what two inverted inputs show of each output.
    fn add_two(&mut self, block: &FlipSim<'_>, other: &FlipSim<'_>, first: u32, second: u32) {
        for output in block.reached(first).iter() {
            if (*output as usize) < self.rows.len() {
                let shown = Broken::shown(
                    block.output(*output),
                    other.flipped_output(*output),
                    block.input(first),
                    block.input(second),
                );
                self.rows[*output as usize].add_broken(first, second, shown);
            }
        }
    }
}

// A row for each output, which no input reaches yet.
fn unseen_rows(alloc: Global, graph: &Graph) -> Result<Vec<Row>, AllocError> {
    let mut rows = Vec::new(alloc);
    for _ in 0..graph.outputs().len() {
        rows.push(Row::new(alloc, graph.inputs())?)?;
    }
    Ok(rows)
}

// An input reaches these outputs.
fn add_reached(
    alloc: Global,
    rows: &mut [Row],
    outputs: &[u32],
    input: u32,
) -> Result<(), AllocError> {
    for output in outputs.iter() {
        if (*output as usize) < rows.len() {
            rows[*output as usize].add_input(alloc, input)?;
        }
    }
    Ok(())
}

// Gives each input what it has in a block, and inverts one.
fn invert(block: &FlipSim<'_>, other: &mut FlipSim<'_>, inverted: u32) {
    for input in 0..block.graph().inputs() {
        let lanes = block.input(input);
        let lanes = if input == inverted { !lanes } else { lanes };
        other.set_input(input, lanes);
    }
}

/// How many blocks of vectors are worth it to see claims of two inputs of a circuit.
pub(crate) fn blocks_for_swaps(alloc: Global, graph: &Graph) -> Result<u64, AllocError> {
    let simulator = FlipSim::new(alloc, graph)?;
    let inputs = graph.inputs() as u64;
    if pairs_of(alloc, &simulator)? > MOST_PAIRS {
        return Ok(0);
    }
    // each input is inverted about once beside each other one, and that is taken back
    let words = simulator.words_of_flips().saturating_mul(inputs).max(1);
    Ok(
        (MOST_WORDS / words)
            .min(MOST_BLOCKS)
            .min(blocks_of_all(graph.inputs())),
    )
}

// How many pairs of inputs reach outputs.
fn pairs_of(alloc: Global, simulator: &FlipSim<'_>) -> Result<u64, AllocError> {
    let graph = simulator.graph();
    let mut counts = vec![in alloc; 0u64; graph.outputs().len()]?;
    for input in 0..graph.inputs() {
        count_reached(&mut counts, simulator.reached(input));
    }
    Ok(pairs_among(&counts))
}

// How many pairs there are of so many inputs of each output.
fn pairs_among(counts: &[u64]) -> u64 {
    let mut pairs = 0u64;
    for count in counts.iter() {
        pairs = pairs.saturating_add(count.saturating_mul(*count) / 2);
    }
    pairs
}

fn count_reached(counts: &mut [u64], outputs: &[u32]) {
    for output in outputs.iter() {
        if (*output as usize) < counts.len() {
            let count = counts[*output as usize];
            counts[*output as usize] = count.saturating_add(1);
        }
    }
}

/// What this many blocks of vectors show of claims of two inputs, all vectors where they are no more.
pub(crate) fn swaps_seen(
    alloc: Global,
    graph: &Graph,
    blocks: u64,
    seed: u64,
) -> Result<Swaps, AllocError> {
    let mut simulator = FlipSim::new(alloc, graph)?;
    let mut other = FlipSim::new(alloc, graph)?;
    let mut swaps = Swaps::unseen(alloc, &simulator)?;
    let mut draws = Draws::new(seed);
    let is_all = blocks == blocks_of_all(graph.inputs());
    for block in 0..blocks {
        send_block(&mut simulator, block, is_all, &mut draws);
        simulator.run();
        swaps.add(&simulator, &mut other);
    }
    Ok(swaps)
}
