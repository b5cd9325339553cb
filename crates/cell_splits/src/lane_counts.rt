//! A number for each of 256 vectors.

use port_cells::{Lanes, VECTORS, bit_of, ones_in, replicated};
use std::alloc::{AllocError, Global};
use std::cmp::Reverse;

/// How many digits a count has: more than 2^16 outputs that change with an input are counted from 0 again, which only
/// makes a choice worse.
const DIGITS: usize = 16;

/// How often something was seen on each of 256 vectors, as binary counters by side: a digit of all of them is one
/// value, so that one addition counts on all vectors.
#[derive(Drop)]
pub(crate) struct LaneCounts {
    digits: Vec<Lanes>,
}

impl LaneCounts {
    pub(crate) fn new(alloc: Global) -> Result<LaneCounts, AllocError> {
        Ok(LaneCounts {
            digits: vec![in alloc; replicated(false); DIGITS]?,
        })
    }

    /// Counts one more on the vectors whose bits are 1.
    pub(crate) fn add(&mut self, lanes: Lanes) {
        let mut carry = lanes;
        for digit in self.digits.iter_mut() {
            if ones_in(carry) == 0 {
                return;
            }
            let sum = *digit ^ carry;
            carry = *digit & carry;
            *digit = sum;
        }
    }

    /// The count of each vector.
    pub(crate) fn counts(&self, alloc: Global) -> Result<Vec<u64>, AllocError> {
        let mut counts = Vec::with_capacity(alloc, VECTORS)?;
        for lane in 0..VECTORS {
            counts.push(self.count(lane))?;
        }
        Ok(counts)
    }

    fn count(&self, lane: usize) -> u64 {
        let mut count = 0u64;
        for digit in self.digits.iter().rev() {
            count = count
                .wrapping_mul(2)
                .wrapping_add(bit_of(*digit, lane) as u64);
        }
        count
    }

    /// The vectors' numbers, those with the greatest counts first.
    pub(crate) fn descending(&self, alloc: Global) -> Result<Vec<usize>, AllocError> {
        let mut ranked = Vec::with_capacity(alloc, VECTORS)?;
        for lane in 0..VECTORS {
            ranked.push((Reverse(self.count(lane)), lane))?;
        }
        ranked.sort_unstable();
        ranked.iter().map(|entry| entry.1).collect(alloc)
    }
}
