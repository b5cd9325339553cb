//! How many bans excluding a pair of outputs takes.
//!
//! Inputs of the second circuit are paired one after the other, and each way that a prime excludes is a ban. The
//! expected number of open nodes with some inputs paired is the number of ways to pair these, times, for each prime
//! that fixes no other ones, the share of the first cone's cubes with as many fixed places on which the output hasn't
//! the opposite value. So what is below a node is a sum along the best order of the inputs. On the drawn functions
//! that were tried it is near the bans that were made.

use crate::cone::{Cone, HAS_ONE, HAS_ZERO};
use crate::cubes::{Digits, FREE, bit, has};
use crate::halves::{Halves, MOST_VALUE, ONE};
use crate::primes::Prime;
use crate::tables::TabledPair;
use items::Items;
use std::alloc::{AllocError, Global};

/// In how many parts a ban is counted, since less than one is expected below most ways.
pub(crate) const BAN_PARTS: u64 = 16;

/// What a node costs at which all inputs of a cone are paired. Other outputs have to exclude it, which isn't foreseen:
/// so many bans that an output comes late which leaves such nodes open.
const LEAF_COST: u64 = 1_000 * BAN_PARTS;

/// How often a first cone has no 0, and no 1, on cubes with so many fixed places: exponents of a half, two for each
/// number of places.
#[derive(Drop)]
pub(crate) struct Shares {
    exponents: Vec<u32>,
}

impl Shares {
    /// The shares of a cone's cubes.
    pub(crate) fn new(alloc: Global, halves: &Halves, cone: &Cone) -> Result<Shares, AllocError> {
        let counts = CubeCounts::new(alloc, cone)?;
        let mut exponents = Vec::with_capacity(alloc, counts.without.len())?;
        for (place, number) in counts.without.iter().enumerate() {
            let all = count_at(&counts.all, place / 2);
            exponents.push(halves.exponent(share_of(*number, all)))?;
        }
        Ok(Shares { exponents })
    }

    // How often the output hasn't the bit that excludes, on cubes to which a prime may be carried.
    fn exponent(&self, prime: &Prime, flip: bool) -> u32 {
        let excluding = (prime.value == flip) as usize;
        let place = (prime.size as usize)
            .saturating_mul(2)
            .saturating_add(excluding);
        self.exponents.get(place).copied().unwrap_or(0)
    }
}

/// How many cubes of a cone fix so many places.
#[derive(Drop)]
struct CubeCounts {
    all: Vec<u64>,
    /// How many have no 0 of the output, and how many no 1: two counts for each number of places.
    without: Vec<u64>,
}

impl CubeCounts {
    fn new(alloc: Global, cone: &Cone) -> Result<CubeCounts, AllocError> {
        let inputs = cone.inputs.len();
        let sizes = inputs.saturating_add(1);
        let mut counts = CubeCounts {
            all: vec![in alloc; 0u64; sizes]?,
            without: vec![in alloc; 0u64; sizes.saturating_mul(2)]?,
        };
        for (cube, bits) in cone.bits.iter().enumerate() {
            counts.add(fixed_in(cube, inputs), *bits);
        }
        Ok(counts)
    }

    // Counts a cube that fixes so many places, with the bits that the output has on it, as `Cone::bits` has them.
    fn add(&mut self, size: usize, bits: u8) {
        count(&mut self.all, size);
        let place = size.saturating_mul(2);
        if bits & HAS_ZERO == 0 {
            count(&mut self.without, place);
        }
        if bits & HAS_ONE == 0 {
            count(&mut self.without, place.saturating_add(1));
        }
    }
}

fn count(counts: &mut [u64], place: usize) {
    if let Some(count) = counts.get_mut(place) {
        *count = count.saturating_add(1);
    }
}

fn count_at(counts: &[u64], place: usize) -> u64 {
    counts.get(place).copied().unwrap_or(0)
}

// Cubes of ten places are fewer than 2^16, so that nothing is too large.
fn share_of(number: u64, all: u64) -> u64 {
    if all == 0 {
        return ONE;
    }
    number.saturating_mul(ONE) / all
}

// How many places a cube fixes.
fn fixed_in(cube: usize, inputs: usize) -> usize {
    let mut digits = Digits::of(cube);
    let mut fixed = 0usize;
    for _place in 0..inputs {
        if digits.next() != FREE {
            fixed = fixed.saturating_add(1);
        }
    }
    fixed
}

/// For each set of places of a second cone what a node costs at which these are paired, in parts of bans.
#[derive(Drop)]
pub(crate) struct Costs {
    costs: Items<u64>,
}

impl Costs {
    /// The costs of a pair of outputs.
    pub(crate) fn new(
        alloc: Global,
        halves: &Halves,
        shares: &Shares,
        tabled: &TabledPair<'_>,
    ) -> Result<Costs, AllocError> {
        let exponents = exponents_of(alloc, shares, tabled)?;
        let mut costs = Items::from_vec(vec![in alloc; LEAF_COST; exponents.len()]?);
        let places = tabled.second.inputs.len();
        for back in 1..exponents.len() {
            let set = exponents.len().saturating_sub(back).saturating_sub(1);
            let cost = cost_at(halves, &exponents, &costs, places, set);
            if set < costs.len() {
                costs.set(set, cost);
            }
        }
        Ok(Costs { costs })
    }

    /// What a node costs at which these places are paired.
    pub(crate) fn at(&self, paired: usize) -> u64 {
        cost_in(&self.costs, paired)
    }
}

fn cost_in(costs: &[u64], set: usize) -> u64 {
    costs.get(set).copied().unwrap_or(MOST_VALUE)
}

fn exponent_in(exponents: &[u32], set: usize) -> u32 {
    exponents.get(set).copied().unwrap_or(0)
}

// What a node costs: a ban for each way of the best place that comes next, and what is below those that stay open.
fn cost_at(halves: &Halves, exponents: &[u32], costs: &[u64], places: usize, set: usize) -> u64 {
    let paired = set.count_ones() as usize;
    let ways = (places.saturating_sub(paired) as u64).saturating_mul(2);
    let mut best = MOST_VALUE;
    for place in 0..places {
        if !has(set, place) {
            let next = set | bit(place);
            let more = exponent_in(exponents, next).saturating_sub(exponent_in(exponents, set));
            best = best.min(halves.scale(cost_in(costs, next), more));
        }
    }
    ways.saturating_mul(BAN_PARTS.saturating_add(best))
        .min(MOST_VALUE)
}

// For each set of places by which power of a half the nodes are fewer at which it is paired, than there are ways to
// pair it: the exponents of the primes that fix no other places, added up.
fn exponents_of(
    alloc: Global,
    shares: &Shares,
    tabled: &TabledPair<'_>,
) -> Result<Vec<u32>, AllocError> {
    let places = tabled.second.inputs.len();
    let mut sums = vec![in alloc; 0u32; bit(places)]?;
    add_primes(&mut sums, shares, tabled);
    for place in 0..places {
        add_below(&mut sums, place);
    }
    Ok(sums)
}

// Adds to each set of places the exponents of the primes that fix these.
fn add_primes(sums: &mut [u32], shares: &Shares, tabled: &TabledPair<'_>) {
    for prime in tabled.primes.iter() {
        if let Some(sum) = sums.get_mut(prime.fixed) {
            *sum = sum.saturating_add(shares.exponent(prime, tabled.pair.flip));
        }
    }
}

// Adds to each set with a place what stands for it without.
fn add_below(sums: &mut [u32], place: usize) {
    for set in 0..sums.len() {
        if has(set, place) {
            let below = exponent_in(sums, set & !bit(place));
            sums[set] = sums[set].saturating_add(below);
        }
    }
}

/// About how many steps making the costs of a cone of so many inputs takes.
pub(crate) fn work_of(places: usize) -> usize {
    bit(places).saturating_mul(places)
}
