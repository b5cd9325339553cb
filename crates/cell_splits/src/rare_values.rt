//! Vectors on which gates have values that they hardly ever have, found by walks from the gates down to inputs.

use items::Items;
use net_core::Lit;
use port_cells::{Draws, FlipSim, Lanes, ones_in, port_at, replicated};
use std::alloc::{AllocError, Global};

/// On how many blocks of 256 drawn vectors gates are looked at first. A fourth of them does as well for 29 pairs.
const DRAWN_BLOCKS: u32 = 16;

/// A value is rare that a gate has on fewer vectors, of these 4,096. The inputs of an AND are faint where it is 1 on
/// less than one vector of 2,048, since on twice as many it changes with an input: four times as many allow for chance.
/// A fourth or four times as many change none of 29 pairs.
const FEW_VECTORS: u32 = 8;

/// From how many gates walks begin at most, which bounds their words by those that counting all vectors may take. Where
/// a wide gate near the outputs has its rare value those below it have theirs too, mostly; two walks do as well for 29
/// pairs.
const MOST_WALKS: usize = 8;

/// How many steps an input adds to a walk. A drawn vector has half of the inputs of an AND wrong, and a step sets one
/// right, so that this is four times what that takes.
const STEPS_EACH: u64 = 2;

/// How many there are beside these, for circuits of few inputs. It wasn't tuned: such walks are short with any number.
const FIRST_STEPS: u64 = 40;

/// How many words of gates a walk may compute, about a thirtieth of a second's: all walks then take no more than
/// counting all vectors may. One of 3,054 gates and 256 inputs (`drawn256`) may have all its steps; half and twice
/// change neither `equal128` nor `adder128`.
const MOST_WORDS: u64 = 1 << 24;

/// Blocks of 256 vectors, a column for each input, on most of which a gate has a value that it has on hardly any of
/// some thousand drawn vectors. Few gates that have such a value are tried, those nearest to the outputs first.
pub fn rare_blocks(
    alloc: Global,
    simulator: &mut FlipSim<'_>,
    draws: &mut Draws,
) -> Result<Items<Items<Lanes>>, AllocError> {
    let mut seen = drawn_values(alloc, simulator, draws)?;
    let mut blocks = Items::new(alloc);
    add_blocks(alloc, simulator, &mut seen, draws, &mut blocks)?;
    Ok(blocks)
}

// Adds a block for each of a few gates that have such a value, by how often gates had each.
fn add_blocks(
    alloc: Global,
    simulator: &mut FlipSim<'_>,
    seen: &mut [ValueCounts],
    draws: &mut Draws,
    blocks: &mut Items<Items<Lanes>>,
) -> Result<(), AllocError> {
    let gates = simulator.graph().gates().len();
    let mut paths = vec![in alloc; replicated(false); simulator.graph().signals()]?;
    for place in 0..gates {
        let gate = gates - 1 - place;
        if blocks.len() < MOST_WALKS
            && let Some(bit) = rare_value(gate, seen)
        {
            walk(gate, bit, simulator, &mut paths, draws);
            add_values(simulator, seen);
            blocks.push(inputs_of(alloc, simulator)?)?;
        }
    }
    Ok(())
}

// Gives all inputs drawn bits.
fn draw_inputs(simulator: &mut FlipSim<'_>, draws: &mut Draws) {
    for input in 0..simulator.graph().inputs() {
        simulator.set_input(input, draws.lanes());
    }
}

fn inputs_of(alloc: Global, simulator: &FlipSim<'_>) -> Result<Items<Lanes>, AllocError> {
    let mut columns = Items::new(alloc);
    for input in 0..simulator.graph().inputs() {
        columns.push(simulator.input(input))?;
    }
    Ok(columns)
}

/// How often a gate had each value.
#[derive(Clone, Copy, Drop)]
struct ValueCounts {
    ones: u32,
    zeros: u32,
}

// How often gates have each value on drawn vectors.
fn drawn_values(
    alloc: Global,
    simulator: &mut FlipSim<'_>,
    draws: &mut Draws,
) -> Result<Vec<ValueCounts>, AllocError> {
    let none = ValueCounts { ones: 0, zeros: 0 };
    let mut seen = vec![in alloc; none; simulator.graph().gates().len()]?;
    for _ in 0..DRAWN_BLOCKS {
        draw_inputs(simulator, draws);
        simulator.run();
        add_values(simulator, &mut seen);
    }
    Ok(seen)
}

// Adds what gates have on the vectors.
fn add_values(simulator: &FlipSim<'_>, seen: &mut [ValueCounts]) {
    for (gate, values) in seen.iter_mut().enumerate() {
        let lanes = simulator.gate(gate);
        values.ones = values.ones.saturating_add(ones_in(lanes));
        values.zeros = values.zeros.saturating_add(ones_in(!lanes));
    }
}

// The value that a gate hardly ever had. None where it had both often enough.
fn rare_value(gate: usize, seen: &[ValueCounts]) -> Option<bool> {
    let values = seen.get(gate)?;
    if values.ones.min(values.zeros) >= FEW_VECTORS {
        return None;
    }
    Some(values.ones < values.zeros)
}

// Looks for vectors on which a gate has a value: on each vector on which it hasn't, one input after another is
// inverted, a bounded number. Each is the end of a path that begins at the gate and goes on from a wrong value to an
// operand that makes it wrong, as in WalkSAT (Selman, Kautz and Cohen, 1994), and as test generation justifies values.
fn walk(
    gate: usize,
    bit: bool,
    simulator: &mut FlipSim<'_>,
    paths: &mut [Lanes],
    draws: &mut Draws,
) {
    draw_inputs(simulator, draws);
    simulator.run();
    for _ in 0..steps(simulator) {
        let wrong = simulator.gate(gate) ^ replicated(bit);
        if ones_in(wrong) == 0 {
            return;
        }
        put_path(gate_signal(gate, simulator), wrong, paths);
        lead_on(gate, simulator, paths, draws);
        invert_ends(simulator, paths);
        simulator.run();
    }
}

fn steps(simulator: &FlipSim<'_>) -> u64 {
    let inputs = u64::from(simulator.graph().inputs());
    let gates = simulator.graph().gates().len() as u64;
    // going down a gate costs about what computing it does
    let most = MOST_WORDS / gates.saturating_mul(8).max(1);
    inputs
        .saturating_mul(STEPS_EACH)
        .saturating_add(FIRST_STEPS)
        .min(most)
}

fn gate_signal(gate: usize, simulator: &FlipSim<'_>) -> usize {
    gate.saturating_add(simulator.graph().inputs() as usize + 1)
}

// Leads paths that begin at a gate on to inputs.
fn lead_on(gate: usize, simulator: &FlipSim<'_>, paths: &mut [Lanes], draws: &mut Draws) {
    for place in 0..gate.saturating_add(1) {
        descend(gate.saturating_sub(place), simulator, paths, draws);
    }
}

// The vectors on which the path goes through a gate go on to one of its operands: to the one that is 0 where the other
// one is 1, else to a drawn one.
fn descend(gate: usize, simulator: &FlipSim<'_>, paths: &mut [Lanes], draws: &mut Draws) {
    let on = take_path(gate_signal(gate, simulator), paths);
    if ones_in(on) == 0 {
        return;
    }
    let Some(gate) = simulator.graph().gates().get(gate) else {
        return;
    };
    let one = literal_lanes(gate.a, simulator);
    let other = literal_lanes(gate.b, simulator);
    let to_one = on & ((!one & other) | (!(one ^ other) & draws.lanes()));
    put_path(gate.a.signal() as usize, to_one, paths);
    put_path(gate.b.signal() as usize, on ^ to_one, paths);
}

// What a literal has on the vectors.
fn literal_lanes(literal: Lit, simulator: &FlipSim<'_>) -> Lanes {
    let signal = literal.signal() as usize;
    let inputs = simulator.graph().inputs() as usize;
    let lanes = if signal > inputs {
        simulator.gate(signal - inputs - 1)
    } else if signal > 0 {
        simulator.input(port_at(signal - 1))
    } else {
        replicated(false)
    };
    lanes ^ replicated(literal.is_negated())
}

// Adds vectors on which the path goes through a signal.
fn put_path(signal: usize, lanes: Lanes, paths: &mut [Lanes]) {
    if signal < paths.len() {
        paths[signal] = paths[signal] | lanes;
    }
}

// The vectors on which the path goes through a signal. The signal has none afterwards.
fn take_path(signal: usize, paths: &mut [Lanes]) -> Lanes {
    if signal >= paths.len() {
        return replicated(false);
    }
    let lanes = paths[signal];
    paths[signal] = replicated(false);
    lanes
}

// Inverts the inputs at which paths end.
fn invert_ends(simulator: &mut FlipSim<'_>, paths: &mut [Lanes]) {
    for input in 0..simulator.graph().inputs() {
        let end = take_path(input as usize + 1, paths);
        let lanes = simulator.input(input);
        simulator.set_input(input, lanes ^ end);
    }
}
