//! What is drawn.

use crate::lanes::Lanes;
use rand_core::Rng;
use rand_pcg::Pcg32;

/// Which of the generator's streams all draws are of: that of PCG's own examples. Any one serves, as seeds tell
/// searches apart.
const STREAM: u64 = 54;

/// Numbers drawn one after another, by a seed.
#[derive(Debug, Drop)]
pub struct Draws {
    generator: Pcg32,
}

impl Draws {
    pub fn new(seed: u64) -> Draws {
        Draws {
            generator: Pcg32::new(seed, STREAM),
        }
    }

    /// A word of which each bit is 1 half of the time.
    pub fn word(&mut self) -> u64 {
        self.generator.next_u64()
    }

    /// A number below another one, or 0 where that is 0. All are equally likely, up to a share of `count` of 2^64.
    pub fn below(&mut self, count: usize) -> usize {
        (self.word() % (count as u64).max(1)) as usize
    }

    /// 256 bits.
    pub fn lanes(&mut self) -> Lanes {
        Lanes::from_array([self.word(), self.word(), self.word(), self.word()])
    }

    /// Puts numbers in another order. Not all orders are equally likely, which an order of tries doesn't need.
    pub fn shuffle(&mut self, numbers: &mut [usize]) {
        for place in 0..numbers.len() {
            let other = self.below(numbers.len());
            if other < numbers.len() {
                numbers.swap(place, other);
            }
        }
    }
}
