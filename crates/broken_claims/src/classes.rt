//! Outputs that don't fit together by counts of their inputs.

use crate::claims::BrokenClaims;
use account_core::Tallied;
use net_core::Side;
use std::alloc::{AllocError, Global};

/// How many bytes the bans of all ways may take, about: a tally has the numbers of up to two facts for each input.
const MOST_BYTES: usize = 200_000_000;

/// The bytes that a ban takes, about: itself, with few pairs and its places in the indices of bans, without numbers of
/// facts.
pub const BYTES_OF_BAN: usize = 270;

/// What the numbers of up to two facts take, of 8 bytes each.
const NUMBERS_OF_INPUT: usize = 16;

/// How many inputs an output depends on, and in how many it is binate, as far as is seen.
#[derive(Clone, Copy, Debug, Drop, PartialEq)]
struct Key {
    support: u32,
    binate: u32,
}

/// Outputs of the first circuit and of the second, more together than a circuit has, none of which fits with one of the
/// others, as far as is seen. Each output of a circuit is marked, or isn't.
pub struct Classes {
    pub from: Vec<bool>,
    pub to: Vec<bool>,
}

// By hand, so that each exit of a function has one call for it (docs/IDIOMS.md).
impl Drop for Classes {
    fn drop(self) {
        let Classes {
            from: _from,
            to: _to,
        } = self;
    }
}

impl Classes {
    /// Those outputs of the one circuit that depend on so many inputs and are binate in so many, and those of the other
    /// one that don't, where it has fewer such outputs: by the two counts with the fewest ways to pair them. None where
    /// each two counts are as frequent in both circuits.
    ///
    /// # Errors
    ///
    /// Only when out of memory.
    pub fn new(
        alloc: Global,
        outputs: u32,
        inputs: u32,
        broken: &BrokenClaims,
    ) -> Result<Option<Classes>, AllocError> {
        let first = keys(alloc, Side::First, outputs, broken)?;
        let second = keys(alloc, Side::Second, outputs, broken)?;
        let Some(key) = rarest(&first, &second, most_ways(inputs)) else {
            return Ok(None);
        };
        let is_first = frequency(&first, key) > frequency(&second, key);
        Ok(Some(Classes {
            from: marks(alloc, &first, key, is_first)?,
            to: marks(alloc, &second, key, !is_first)?,
        }))
    }
}

fn keys(
    alloc: Global,
    side: Side,
    outputs: u32,
    broken: &BrokenClaims,
) -> Result<Vec<Key>, AllocError> {
    let mut keys = Vec::new(alloc);
    for output in 0..outputs {
        keys.push(Key {
            support: broken.count(side, output, Tallied::Support),
            binate: broken.count(side, output, Tallied::Binate),
        })?;
    }
    Ok(keys)
}

// The most ways, plain ones, of which bans are made of circuits with n inputs: each has two tallies.
fn most_ways(inputs: u32) -> usize {
    let tally = (inputs as usize)
        .saturating_mul(NUMBERS_OF_INPUT)
        .saturating_add(BYTES_OF_BAN);
    MOST_BYTES / tally.saturating_mul(2).max(1)
}

// Of the keys that one circuit has more often than the other, the one with the fewest ways to pair its outputs with
// those of other keys. It counts again for each output, which is cheap enough: it is done once a try, and tries are
// few.
fn rarest(first: &[Key], second: &[Key], most: usize) -> Option<Key> {
    let mut found = None;
    let mut fewest = most.saturating_add(1);
    for key in first.iter().chain(second.iter()) {
        let ways = ways_of(first, second, *key);
        if ways < fewest {
            fewest = ways;
            found = Some(*key);
        }
    }
    found
}

// How many ways there are to pair the outputs of a key of the circuit that has more of them with other ones; a great
// number where both have as many.
fn ways_of(first: &[Key], second: &[Key], key: Key) -> usize {
    let one = frequency(first, key);
    let other = frequency(second, key);
    if one > other {
        one.saturating_mul(second.len().saturating_sub(other))
    } else if other > one {
        other.saturating_mul(first.len().saturating_sub(one))
    } else {
        usize::MAX
    }
}

fn frequency(keys: &[Key], key: Key) -> usize {
    let mut count = 0usize;
    for other in keys.iter() {
        if *other == key {
            count = count.saturating_add(1);
        }
    }
    count
}

// Marks the outputs that have a key, or those that don't.
fn marks(alloc: Global, keys: &[Key], key: Key, having: bool) -> Result<Vec<bool>, AllocError> {
    let mut marks = Vec::new(alloc);
    for other in keys.iter() {
        marks.push((*other == key) == having)?;
    }
    Ok(marks)
}
