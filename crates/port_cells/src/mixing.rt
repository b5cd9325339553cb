//! Hashes of words.

use crate::Lanes;
use word_sim::mix;

/// A hash of a word and of 256 bits.
pub fn mix_lanes(hash: u64, lanes: Lanes) -> u64 {
    let [a, b, c, d] = lanes.to_array();
    mix(mix(mix(mix(hash, a), b), c), d)
}
