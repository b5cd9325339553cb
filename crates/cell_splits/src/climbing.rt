//! Vectors on which many inputs matter, found by mutation and selection.

use crate::lane_counts::LaneCounts;
use items::Items;
use port_cells::{Draws, FlipSim, Lanes, VECTORS, bit_of, with_bit};
use std::alloc::{AllocError, Global};

/// The most generations. With half as many adders of 128 bits aren't guessed, and twice as many gain nothing.
const MOST_GENERATIONS: u64 = 300;

/// How many words of gates may be computed for them, a fifth of a second's. With half of that adders of 128 bits get
/// too few generations.
const MOST_WORDS: u64 = 1 << 28;

/// How many generations there are at least, whatever they take. Two or 32 do as well for ten wide circuits.
const FEWEST_GENERATIONS: u64 = 8;

/// How many generations an input adds, since each sets few right.
const GENERATIONS_EACH: u64 = 2;

/// How many there are beside these. Without them `content_match8x8` takes 0.7 s instead of 0.2.
const FIRST_GENERATIONS: u64 = 40;

/// How many of 256 vectors have descendants. They stay too, as the first ones: one of the four words, so that the other
/// three are made of it a word at a time.
pub const BEST: usize = 64;

/// From how many blocks the climb starts beside drawn vectors, which keep one of the four words. Without any equalities
/// of 32 and of 128 bits aren't guessed in three seconds; one block does as well.
const MOST_STARTS: usize = 3;

/// From which vector on a descendant has two inputs inverted and not one: half of those after the best have. Where all
/// have, comparators of 64 bits take 1.5 s longer; where none has, none of 29 pairs changes.
const FIRST_OF_TWO: usize = 160;

/// 256 vectors of a circuit on which many outputs change with many inputs, far more than on drawn ones: there wide
/// gates show their inputs. A column for each input. The first `BEST` are the best so far, the others are made of them.
/// The climb starts from drawn vectors and from others, which may be none, blocks of 256 with a column for each input.
pub fn climbed(
    alloc: Global,
    starts: &[Items<Lanes>],
    simulator: &mut FlipSim<'_>,
    draws: &mut Draws,
) -> Result<Items<Lanes>, AllocError> {
    let mut vectors = first_generation(alloc, simulator.graph().inputs(), starts, draws)?;
    for _ in 0..generations(simulator) {
        vectors = next_generation(alloc, &vectors, simulator, draws)?;
    }
    Ok(vectors)
}

// The vectors from which the climb starts.
fn first_generation(
    alloc: Global,
    inputs: u32,
    starts: &[Items<Lanes>],
    draws: &mut Draws,
) -> Result<Items<Lanes>, AllocError> {
    let mut vectors = Items::new(alloc);
    for input in 0..inputs {
        vectors.push(start_of(input as usize, starts, draws.lanes()))?;
    }
    Ok(vectors)
}

// What an input has on the vectors from which the climb starts: 64 of each of the first blocks, up to three, and else
// drawn ones.
fn start_of(input: usize, starts: &[Items<Lanes>], drawn: Lanes) -> Lanes {
    let mut words = drawn.to_array();
    for (place, block) in starts.iter().take(MOST_STARTS).enumerate() {
        if let Some(lanes) = block.get(input) {
            let [first, _, _, _] = lanes.to_array();
            words[place % 4] = first;
        }
    }
    Lanes::from_array(words)
}

// How many generations there are: two for each input and 40, as far as the words of gates allow it.
fn generations(simulator: &FlipSim<'_>) -> u64 {
    let inputs = u64::from(simulator.graph().inputs());
    let most = (MOST_WORDS / simulator.words_of_flips().max(1)).max(FEWEST_GENERATIONS);
    inputs
        .saturating_mul(GENERATIONS_EACH)
        .saturating_add(FIRST_GENERATIONS)
        .min(MOST_GENERATIONS)
        .min(most)
}

// The best vectors, and three others that are made of each of them.
fn next_generation(
    alloc: Global,
    vectors: &[Lanes],
    simulator: &mut FlipSim<'_>,
    draws: &mut Draws,
) -> Result<Items<Lanes>, AllocError> {
    let best = by_changes(alloc, vectors, simulator)?;
    let rotations = [rotation(draws), rotation(draws), rotation(draws)];
    let mut next = Vec::with_capacity(alloc, vectors.len())?;
    for lanes in vectors.iter() {
        next.push(descended(*lanes, &best, rotations))?;
    }
    mutate(draws, &mut next);
    Ok(Items::from_vec(next))
}

// By how many of its 64 places the word of the best vectors is rotated.
fn rotation(draws: &mut Draws) -> u32 {
    (draws.word() % 64) as u32
}

// What an input has on the best vectors, and on three rotations of them.
fn descended(lanes: Lanes, best: &[usize], rotations: [u32; 3]) -> Lanes {
    let mut word = 0u64;
    for (place, lane) in best.iter().take(BEST).enumerate() {
        word |= (bit_of(lanes, *lane) as u64) << (place % 64);
    }
    let [one, two, three] = rotations;
    Lanes::from_array([
        word,
        word.rotate_left(one),
        word.rotate_left(two),
        word.rotate_left(three),
    ])
}

// Inverts one input on each vector after the best ones, and two on the last of them.
fn mutate(draws: &mut Draws, vectors: &mut [Lanes]) {
    for lane in BEST..VECTORS {
        invert(draws.below(vectors.len()), lane, vectors);
        if lane >= FIRST_OF_TWO {
            invert(draws.below(vectors.len()), lane, vectors);
        }
    }
}

fn invert(input: usize, lane: usize, vectors: &mut [Lanes]) {
    if input < vectors.len() {
        let lanes = vectors[input];
        vectors[input] = with_bit(lanes, lane, !bit_of(lanes, lane));
    }
}

// The vectors' numbers, those on which most outputs change with inputs first.
fn by_changes(
    alloc: Global,
    vectors: &[Lanes],
    simulator: &mut FlipSim<'_>,
) -> Result<Vec<usize>, AllocError> {
    simulator.set_inputs(vectors);
    simulator.run();
    let mut changes = LaneCounts::new(alloc)?;
    for input in 0..simulator.graph().inputs() {
        simulator.flip(input);
        add_changes(simulator, input, &mut changes);
        simulator.unflip(input);
    }
    changes.descending(alloc)
}

fn add_changes(simulator: &FlipSim<'_>, input: u32, changes: &mut LaneCounts) {
    for output in simulator.reached(input).iter() {
        changes.add(simulator.output(*output) ^ simulator.flipped_output(*output));
    }
}
