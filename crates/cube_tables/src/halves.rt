//! Powers of a half, of which the exponent is in parts of 256.

use std::alloc::{AllocError, Global};

/// In how many parts an exponent is counted: an error of less than a part is less than 0.3 per cent of a share.
const EXPONENT_PARTS: u32 = 256;

/// How many bits of a share stand after the point.
const FRACTION_BITS: u32 = 32;

/// One, as shares are counted.
pub(crate) const ONE: u64 = 1 << FRACTION_BITS;

/// The 256th root of a half, times `ONE`.
const ROOT_OF_HALF: u64 = 4_283_353_945;

/// The exponent of a share of 0. Any other share is greater than the 16th power of a half: there are 59,049 cubes at
/// most.
const MOST_EXPONENT: u32 = 20;

/// The greatest value that is scaled, so that its product with `ONE` fits 64 bits.
pub(crate) const MOST_VALUE: u64 = 1 << 31;

/// The powers of a half of which the exponent is below one.
#[derive(Drop)]
pub(crate) struct Halves {
    powers: Vec<u64>,
}

impl Halves {
    pub(crate) fn new(alloc: Global) -> Result<Halves, AllocError> {
        let mut powers = Vec::with_capacity(alloc, EXPONENT_PARTS as usize)?;
        let mut power = ONE;
        for _ in 0..EXPONENT_PARTS {
            powers.push(power)?;
            power = (power.min(ONE) * ROOT_OF_HALF) >> FRACTION_BITS;
        }
        Ok(Halves { powers })
    }

    /// Which power of a half a share is, about.
    pub(crate) fn exponent(&self, share: u64) -> u32 {
        let mut share = share;
        for whole in 0..MOST_EXPONENT {
            if share > ONE / 2 {
                return whole
                    .saturating_mul(EXPONENT_PARTS)
                    .saturating_add(self.parts_of(share));
            }
            share = share.saturating_mul(2);
        }
        MOST_EXPONENT.saturating_mul(EXPONENT_PARTS)
    }

    // By how many parts the exponent of a share between a half and one is above 0.
    fn parts_of(&self, share: u64) -> u32 {
        let parts = self.powers.iter().filter(|power| **power > share).count();
        parts.min(EXPONENT_PARTS as usize - 1) as u32
    }

    /// A value times a power of a half.
    pub(crate) fn scale(&self, value: u64, exponent: u32) -> u64 {
        let part = (exponent % EXPONENT_PARTS) as usize;
        let power = self.powers.get(part).copied().unwrap_or(0);
        let scaled = value.min(MOST_VALUE).saturating_mul(power) >> FRACTION_BITS;
        let whole = exponent / EXPONENT_PARTS;
        // a scaled value is below `ONE`
        if whole < FRACTION_BITS {
            scaled >> whole
        } else {
            0
        }
    }
}
