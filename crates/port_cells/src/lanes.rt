//! 256 bits.

use std::simd::u64x4;
use word_sim::alternating;

/// A bit of each vector of a block.
pub type Lanes = u64x4;

/// How many vectors a block has.
pub const VECTORS: usize = 256;

/// How many words of 64 vectors these are.
pub(crate) const WORDS: usize = 4;

/// The same bit on all vectors.
pub fn replicated(bit: bool) -> Lanes {
    Lanes::splat(if bit { u64::MAX } else { 0 })
}

/// On how many vectors the bit is 1.
pub fn ones_in(lanes: Lanes) -> u32 {
    let [a, b, c, d] = lanes.to_array();
    a.count_ones() + b.count_ones() + c.count_ones() + d.count_ones()
}

/// The bit on a vector; the vectors are numbered from 0 on.
pub fn bit_of(lanes: Lanes, vector: usize) -> bool {
    let words = lanes.to_array();
    (words[vector / 64 % WORDS] >> (vector % 64)) % 2 == 1
}

/// The lanes with another bit on a vector.
pub fn with_bit(lanes: Lanes, vector: usize, bit: bool) -> Lanes {
    let mut words = lanes.to_array();
    let word = words[vector / 64 % WORDS];
    let mask = 1u64 << (vector % 64);
    words[vector / 64 % WORDS] = if bit { word | mask } else { word & !mask };
    Lanes::from_array(words)
}

/// What an input has in a word of all vectors: bit v is digit `input` of the number 64 * `word` + v in base two.
pub fn word_of_all(input: u32, word: usize) -> u64 {
    if input < 6 {
        alternating(input)
    } else if (word >> ((input - 6) % 64)) % 2 == 1 {
        u64::MAX
    } else {
        0
    }
}

/// How many blocks of 256 vectors all vectors of n inputs take, the greatest number where that is more than 4,096: past
/// a million vectors drawn ones are counted.
pub fn blocks_of_all(inputs: u32) -> u64 {
    match inputs {
        0..=8 => 1,
        9..=20 => 1 << (inputs - 8),
        _ => u64::MAX,
    }
}

/// What an input has in a block of all vectors.
pub fn all_lanes(input: u32, block: u64) -> Lanes {
    let word = (block % (1 << 32)) as usize * WORDS;
    Lanes::from_array([
        word_of_all(input, word),
        word_of_all(input, word + 1),
        word_of_all(input, word + 2),
        word_of_all(input, word + 3),
    ])
}
