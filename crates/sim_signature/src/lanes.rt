//! Blocks as 512 answers at once.

ghost use Rattle.std.specs.Prelude.{◌≡◌, ◌<◌, ◌↔◌, ℕ, true};
ghost use Rattle.sim_signature.specs.Blocks.{block_bit};

use std::simd::prelude::*;
use word_sim::{and_lanes, word_at};

/// A bit of a word of a block.
pub(crate) fn bit_at(block: u64x8, word: usize, lane: u32) -> bool
    requires word { word < 8 }
    requires lane { lane < 64 }
    ensures { result ≡ block_bit word lane block }
{
    (word_at(block, word) >> lane) % 2 == 1
}

/// The bits of a block at which another block has this value.
pub(crate) fn picked(block: u64x8, column: u64x8, value: bool) -> u64x8
    ensures { (w v : ℕ) → w < 8 → v < 64
        → (block_bit w v result ≡ true ↔ ((block_bit w v block ≡ true) × (block_bit w v column ≡ value))) }
{
    // an inverted column has a 1 where it had a 0, so that one AND picks either value
    and_lanes(block, false, column, !value)
}
