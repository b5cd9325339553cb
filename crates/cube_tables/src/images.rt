//! What the first circuit's inputs have on a cube of the second's, by pairs.

use crate::cone::{HAS_ONE, HAS_ZERO};
use crate::cubes::{FREE, bit, has, power};
use crate::primes::Prime;
use crate::tables::TabledPair;
use circuits::{Pair, PortKind};
use std::alloc::{AllocError, Global};

/// The cubes of a first cone to which pairs of inputs carry those of a second one.
#[derive(Drop)]
pub(crate) struct Images {
    /// The places of the second cone that are in pairs.
    pub(crate) paired: usize,
    /// By how much the number of the first cone's cube falls, from that in which all is free, where a paired place has
    /// bit 0, and where it has bit 1: two for each place.
    steps: Vec<usize>,
    free: usize,
}

impl Images {
    /// The images by the pairs of inputs that are assigned.
    pub(crate) fn new(
        alloc: Global,
        tabled: &TabledPair<'_>,
        assigned: &[Pair],
    ) -> Result<Images, AllocError> {
        let places = tabled.second.inputs.len().saturating_mul(2);
        let mut images = Images {
            paired: 0,
            steps: vec![in alloc; 0usize; places]?,
            free: power(tabled.first.inputs.len()).saturating_sub(1),
        };
        for pair in assigned.iter() {
            images.add(tabled, *pair);
        }
        Ok(images)
    }

    fn add(&mut self, tabled: &TabledPair<'_>, pair: Pair) {
        if pair.kind != PortKind::Input {
            return;
        }
        let Some(place) = tabled.second.place_of(pair.to) else {
            return;
        };
        self.paired |= bit(place);
        let [zero, one] = steps_of(tabled, pair);
        self.set(place.saturating_mul(2), zero);
        self.set(place.saturating_mul(2).saturating_add(1), one);
    }

    fn set(&mut self, place: usize, step: usize) {
        if let Some(old) = self.steps.get_mut(place) {
            *old = step;
        }
    }

    /// The number of the cube to which a prime is carried, where places that aren't in a pair, and one more, are free.
    pub(crate) fn cube_of(&self, prime: &Prime, free: usize) -> usize {
        let mut cube = self.free;
        for place in 0..self.steps.len() / 2 {
            if has(prime.fixed, place) & !has(free, place) {
                cube = cube.saturating_sub(self.step(place, has(prime.ones, place)));
            }
        }
        cube
    }

    fn step(&self, place: usize, one: bool) -> usize {
        let at = place.saturating_mul(2).saturating_add(one as usize);
        self.steps.get(at).copied().unwrap_or(0)
    }
}

/// By how much the number of the first cone's cube falls where a pair's second input has bit 0, and where it has 1.
pub(crate) fn steps_of(tabled: &TabledPair<'_>, pair: Pair) -> [usize; 2] {
    let Some(place) = tabled.first.place_of(pair.from) else {
        return [0, 0];
    };
    let zero = (FREE - pair.flip as usize).saturating_mul(power(place));
    let one = (FREE - !pair.flip as usize).saturating_mul(power(place));
    [zero, one]
}

/// What the first output has to have on some vector, as `Cone::bits` has it, so that a prime shows that its partner is
/// wrong.
pub(crate) fn needed_bit(tabled: &TabledPair<'_>, prime: &Prime) -> u8 {
    if prime.value != tabled.pair.flip {
        HAS_ZERO
    } else {
        HAS_ONE
    }
}
