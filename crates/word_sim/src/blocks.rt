//! Blocks of eight words, which stand for 512 vectors.

ghost use Rattle.std.specs.Prelude.{◌≡◌, ◌<◌, ◌&&◌, ℕ, true, MatchOption, bit_and, length};
ghost use Rattle.circuits.specs.Literals.{differ, signal_of};
ghost use Rattle.word_sim.specs.Columns.{literal_word, row_of, signed_word, word_bit, word_of};

use net_core::{Lit, SignalValue, literal_value};
use std::simd::prelude::*;

/// How many words are evaluated at once: 512 bits, the widest registers of the machines that this is made for.
pub(crate) const LANES: usize = 8;

/// The AND of each two lanes. All bits of an operand are inverted where its flag says so.
#[inline(always)]
pub fn and_lanes(a: u64x8, flip_a: bool, b: u64x8, flip_b: bool) -> u64x8
    ensures lanes { length result ≡ 8 }
    ensures words { (l : ℕ) → l < 8
        → word_of l result ≡ bit_and (signed_word (word_of l a) flip_a) (signed_word (word_of l b) flip_b) }
    ensures bits { (l v : ℕ) → l < 8 → v < 64
        → word_bit v (word_of l result)
        ≡ differ (word_bit v (word_of l a)) flip_a && differ (word_bit v (word_of l b)) flip_b }
{
    signed_lanes(a, flip_a) & signed_lanes(b, flip_b)
}

/// The lanes, with all bits inverted where the flag says so.
#[inline(always)]
pub fn signed_lanes(lanes: u64x8, flip: bool) -> u64x8
    ensures lanes { length result ≡ 8 }
    ensures words { (l : ℕ) → l < 8 → word_of l result ≡ signed_word (word_of l lanes) flip }
    ensures bits { (l v : ℕ) → l < 8 → v < 64
        → word_bit v (word_of l result) ≡ differ (word_bit v (word_of l lanes)) flip }
{
    lanes.signed(flip)
}

/// The literal's block where each signal has the block that `values` gives it: its signal's block, all bits inverted
/// where the literal is negated.
#[inline(always)]
pub(crate) fn literal_block(values: &[u64x8], literal: Lit) -> u64x8
    requires { signal_of literal < length values.now }
    ensures lanes { length result ≡ 8 }
    ensures words { (l : ℕ) → l < 8 → word_of l result ≡ literal_word (row_of values.now l) literal }
{
    literal_value(values, literal)
}

/// A word of a block.
pub fn word_at(block: u64x8, word: usize) -> u64
    requires { word < 8 }
    ensures { result ≡ word_of word block }
{
    block[word]
}

/// The first word of a block with a bit that is 1, and its lowest one: the place of a vector.
pub fn first_bit(block: u64x8) -> Option<(usize, u32)>
    ensures { MatchOption result ((w : ℕ) → w < 8 → word_of w block ≡ 0)
        (λ place. (place.0 < 8) × (place.1 < 64) × (word_bit place.1 (word_of place.0 block) ≡ true)) }
{
    for word in 0..LANES {
        if let Some(lane) = first_lane(word_at(block, word)) {
            return Some((word, lane));
        }
    }
    None
}

// The lowest bit that is 1.
fn first_lane(word: u64) -> Option<u32>
    ensures { MatchOption result (word ≡ 0) (λ lane. (lane < 64) × (word_bit lane word ≡ true)) }
{
    if word == 0 {
        return None;
    }
    Some(word.trailing_zeros())
}
