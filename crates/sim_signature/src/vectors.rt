ghost use Rattle.std.specs.Prelude.{◌≡◌, ◌<◌, ◌≤◌, ℕ, length, IfOk};
ghost use Rattle.circuits.specs.Literals.{vector_of};
ghost use Rattle.word_sim.specs.Columns.{word_of};
ghost use Rattle.sim_signature.specs.Blocks.{pattern};

use crate::input_pairs::joining_gates;
use bit_list::Bits;
use net_core::Graph;
use rand_core::Rng;
use rand_pcg::Pcg32;
use std::alloc::{AllocError, Global};
use std::simd::prelude::*;
use word_sim::alternating;

/// How many inputs a circuit has at most whose vectors are all tried: a word has a bit for each.
pub(crate) const FEW_INPUTS: u32 = 6;

/// 512 vectors, a block of eight words for each input: all vectors of at most six inputs, else some that a generator
/// draws.
///
/// # Errors
///
/// Only when out of memory.
pub(crate) fn vectors(
    alloc: Global,
    inputs: u32,
    generator: &mut Pcg32,
) -> Result<Vec<u64x8>, AllocError>
    ensures inputs { IfOk result (λ blocks. length blocks.items ≡ inputs) }
    ensures all { IfOk result (λ blocks. inputs ≤ 6 → (w v : ℕ) → w < 8 → v < 64
        → pattern blocks.items w v ≡ vector_of inputs v) }
{
    if inputs > FEW_INPUTS {
        return drawn_vectors(alloc, inputs, generator);
    }
    all_vectors(alloc, inputs)
}

/// All vectors of at most six inputs: bit v of each word stands for the vector with the number v.
fn all_vectors(alloc: Global, inputs: u32) -> Result<Vec<u64x8>, AllocError>
    requires { inputs ≤ 6 }
    ensures vectors { IfOk result
        (λ blocks. (w v : ℕ) → w < 8 → v < 64 → pattern blocks.items w v ≡ vector_of inputs v) }
    ensures inputs { IfOk result (λ blocks. length blocks.items ≡ inputs) }
{
    let mut blocks = Vec::with_capacity(alloc, inputs as usize)?;
    for input in 0..inputs {
        blocks.push(everywhere(alternating(input)))?;
    }
    Ok(blocks)
}

/// A block of one word eight times.
fn everywhere(word: u64) -> u64x8
    ensures { (w : ℕ) → w < 8 → word_of w result ≡ word }
{
    u64x8::splat(word)
}

/// Vectors drawn by a generator.
fn drawn_vectors(
    alloc: Global,
    inputs: u32,
    generator: &mut Pcg32,
) -> Result<Vec<u64x8>, AllocError>
    ensures { IfOk result (λ blocks. length blocks.items ≡ inputs) }
{
    let mut blocks = Vec::with_capacity(alloc, inputs as usize)?;
    for _ in 0..inputs {
        blocks.push(drawn_block(generator))?;
    }
    Ok(blocks)
}

fn drawn_block(generator: &mut Pcg32) -> u64x8 {
    u64x8::from_array([
        generator.next_u64(),
        generator.next_u64(),
        generator.next_u64(),
        generator.next_u64(),
        generator.next_u64(),
        generator.next_u64(),
        generator.next_u64(),
        generator.next_u64(),
    ])
}

/// 512 vectors near one, a block of eight words for each input, drawn by a generator. On the first word's vectors each
/// input is inverted on one of 16, on the second's on one of 32, then on one of 64 and on one of 128, for two words
/// each. So circuits of a hundred inputs, where few vectors are near with fewer inverted, and those of few inputs,
/// where one of 128 mostly leaves the vector as it is, both get many. On the last two words, with one of 64 and one of
/// 128, the two inputs that a gate joins are also inverted together, on one of four: a digit of an adder that hands a
/// carry on does so still. For vectors on which a carry comes from far are rare, and one of them has each digit in one
/// of its two ways.
///
/// # Errors
///
/// Only when out of memory.
pub(crate) fn near_vectors(
    alloc: Global,
    graph: &Graph,
    vector: &Bits,
    generator: &mut Pcg32,
) -> Result<Vec<u64x8>, AllocError>
    requires { length vector.now ≡ graph.now.inputs }
    ensures { IfOk result (λ blocks. length blocks.items ≡ length vector.now) }
{
    let joints = joining_gates(alloc, graph)?;
    let seed = generator.next_u64();
    let mut blocks = Vec::with_capacity(alloc, vector.len())?;
    for place in 0..vector.len() {
        let near = near_block(vector.get(place), generator);
        blocks.push(joined(near, joints[place], seed))?;
    }
    Ok(blocks)
}

fn near_block(bit: bool, generator: &mut Pcg32) -> u64x8 {
    u64x8::from_array([
        near_word(bit, 4, generator),
        near_word(bit, 5, generator),
        near_word(bit, 6, generator),
        near_word(bit, 6, generator),
        near_word(bit, 7, generator),
        near_word(bit, 7, generator),
        near_word(bit, 6, generator),
        near_word(bit, 7, generator),
    ])
}

/// The block of an input. Where a gate joins two inputs, the same bits are inverted of both.
fn joined(block: u64x8, gate: Option<u32>, seed: u64) -> u64x8 {
    let Some(gate) = gate else {
        return block;
    };
    let mut generator = Pcg32::new(seed, gate as u64);
    let inverted = u64x8::from_array([
        0,
        0,
        0,
        0,
        0,
        0,
        near_word(false, 2, &mut generator),
        near_word(false, 2, &mut generator),
    ]);
    block ^ inverted
}

/// A bit 64 times, each time inverted with a chance of one in 2^`halvings`.
fn near_word(bit: bool, halvings: u32, generator: &mut Pcg32) -> u64 {
    let mut inverted = u64::MAX;
    for _ in 0..halvings {
        inverted &= generator.next_u64();
    }
    if bit { !inverted } else { inverted }
}
