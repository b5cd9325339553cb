//! The greatest cubes on which an output is known.

use crate::cone::{Cone, UNKNOWN};
use crate::cubes::{Digits, FREE, at, bit, power};
use std::alloc::{AllocError, Global};

/// A cube on which an output is known by its gates, and isn't where any other place is free too: a prime. Those that
/// fix few places stand first.
#[derive(Clone, Copy, Drop, PartialEq, Eq, PartialOrd, Ord)]
pub(crate) struct Prime {
    /// How many places it fixes.
    pub(crate) size: u32,
    /// The places that it fixes, and those that it fixes to 1.
    pub(crate) fixed: usize,
    pub(crate) ones: usize,
    /// What the output has.
    pub(crate) value: bool,
}

/// The primes of a cone, those first that fix the fewest places.
pub(crate) fn primes_of(alloc: Global, cone: &Cone) -> Result<Vec<Prime>, AllocError> {
    let mut primes = Vec::new(alloc);
    for (cube, value) in cone.values.iter().enumerate() {
        if *value == UNKNOWN {
            continue;
        }
        if let Some((fixed, ones)) = prime_at(&cone.values, cube, cone.inputs.len()) {
            primes.push(Prime {
                size: fixed.count_ones(),
                fixed,
                ones,
                value: *value == 1,
            })?;
        }
    }
    primes.sort_unstable();
    Ok(primes)
}

// The places that a cube fixes, and those that it fixes to 1, if the output isn't known where one more is free.
fn prime_at(values: &[u8], cube: usize, inputs: usize) -> Option<(usize, usize)> {
    let (mut fixed, mut ones) = (0, 0);
    let mut digits = Digits::of(cube);
    for place in 0..inputs {
        let digit = digits.next();
        if digit != FREE {
            let wider = cube.saturating_add((FREE - digit).saturating_mul(power(place)));
            if at(values, wider) != UNKNOWN {
                return None;
            }
            fixed |= bit(place);
        }
        if digit == 1 {
            ones |= bit(place);
        }
    }
    Some((fixed, ones))
}
