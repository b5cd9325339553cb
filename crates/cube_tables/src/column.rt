//! Which ways of an input of the second circuit are excluded beside assigned pairs.

use crate::cubes::{at, bit, has};
use crate::images::{Images, needed_bit, steps_of};
use crate::tables::TabledPair;
use circuits::{Pair, PortKind};
use std::alloc::{AllocError, Global};

/// A prime that fixes the input, and otherwise inputs that are in pairs: the first cone's cube to which these carry it,
/// whether it fixes the input to 1, and what the first output has to have there.
#[derive(Clone, Copy, Drop)]
struct Entry {
    prime: usize,
    cube: usize,
    one: bool,
    needed: u8,
}

/// What a pair of outputs says of the ways of an input.
#[derive(Drop)]
pub(crate) struct Column<'a> {
    tabled: TabledPair<'a>,
    entries: Vec<Entry>,
    /// The assigned pairs, of which those of other inputs count.
    assigned: &'a [Pair],
}

impl<'a> Column<'a> {
    /// What a pair of outputs says of an input's ways beside assigned pairs of other inputs.
    pub(crate) fn new(
        alloc: Global,
        tabled: TabledPair<'a>,
        images: &Images,
        assigned: &'a [Pair],
        input: u32,
    ) -> Result<Column<'a>, AllocError> {
        let mut entries = Vec::new(alloc);
        if let Some(place) = tabled.second.place_of(input) {
            add_entries(&tabled, images, place, &mut entries)?;
        }
        Ok(Column {
            tabled,
            entries,
            assigned,
        })
    }

    /// Whether it excludes a way of the input: claims of that input differ, or of it and one that is in a pair, or a
    /// prime is carried to a cube on which the first output has the opposite value.
    pub(crate) fn excludes(&self, way: Pair) -> bool {
        self.tabled.is_unlike(way) || self.has_unlike_swap(way) || self.wrong_prime(way).is_some()
    }

    fn has_unlike_swap(&self, way: Pair) -> bool {
        self.assigned.iter().any(|other| {
            (other.kind == PortKind::Input)
                & (other.to != way.to)
                & self.tabled.is_unlike_with(way, *other)
        })
    }

    /// The first prime that is carried to a cube on which the first output has the opposite value, where a way is
    /// assigned.
    pub(crate) fn wrong_prime(&self, way: Pair) -> Option<usize> {
        let [zero, one] = steps_of(&self.tabled, way);
        for entry in self.entries.iter() {
            let cube = entry
                .cube
                .saturating_sub(if entry.one { one } else { zero });
            if at(&self.tabled.first.bits, cube) & entry.needed != 0 {
                return Some(entry.prime);
            }
        }
        None
    }
}

fn add_entries(
    tabled: &TabledPair<'_>,
    images: &Images,
    place: usize,
    entries: &mut Vec<Entry>,
) -> Result<(), AllocError> {
    let paired = images.paired | bit(place);
    for (number, prime) in tabled.primes.iter().enumerate() {
        if has(prime.fixed, place) & (prime.fixed & !paired == 0) {
            entries.push(Entry {
                prime: number,
                cube: images.cube_of(prime, bit(place)),
                one: has(prime.ones, place),
                needed: needed_bit(tabled, prime),
            })?;
        }
    }
    Ok(())
}
