//! Cubes of few inputs: the numbers below a power of three, of which each digit says what an input has. It is 0, 1, or
//! 2 where the input may have either bit.

ghost use Rattle.std.specs.Prelude.{◌<◌};

use std::alloc::{AllocError, Global};
use std::simd::prelude::*;
use word_sim::Rails;

/// How many inputs a cone may reach of which a table is made. With ten there are 59,049 cubes, and some 30 ms of
/// tables; each input more takes three times as many.
pub(crate) const MOST_INPUTS: usize = 10;

/// The digit of an input that may have either bit.
pub(crate) const FREE: usize = 2;

/// How many cubes are in a word, one a bit.
pub(crate) const WORD: usize = 64;

/// How many words are evaluated at once: as many as the lanes of `word_sim`.
pub(crate) const BLOCK: usize = 8;

/// How many places a set of places may have: some more than a cone has inputs, and few enough for each `usize`.
const MOST_PLACES: usize = 32;

/// How many digits there are.
const BASE: usize = 3;

/// The powers of three.
static POWERS: [usize; MOST_INPUTS + 1] = [1, 3, 9, 27, 81, 243, 729, 2_187, 6_561, 19_683, 59_049];

/// What the digit of a place counts for, and how many cubes there are of so many inputs.
pub(crate) fn power(place: usize) -> usize {
    POWERS.get(place).copied().unwrap_or(0)
}

/// The set of one place. A set of places is a number, of which each bit says whether a place is in it.
pub(crate) fn bit(place: usize) -> usize {
    if place < MOST_PLACES {
        1usize << place
    } else {
        0
    }
}

/// Whether a place is in a set.
pub(crate) fn has(set: usize, place: usize) -> bool {
    set & bit(place) != 0
}

/// The element of a table at a place, 0 outside it.
pub(crate) fn at(table: &[u8], place: usize) -> u8 {
    table.get(place).copied().unwrap_or(0)
}

/// The digits of a cube, one after the other from that of the first place on.
#[derive(Drop)]
pub(crate) struct Digits {
    rest: usize,
}

impl Digits {
    /// The digits of a cube, from the first place on.
    pub(crate) fn of(cube: usize) -> Digits {
        Digits { rest: cube }
    }

    /// The digit of the next place.
    pub(crate) fn next(&mut self) -> usize
        ensures digit { result < 3 }
    {
        let digit = self.rest % BASE;
        self.rest /= BASE;
        digit
    }
}

/// The first free place of a cube of so many inputs.
pub(crate) fn first_free(cube: usize, inputs: usize) -> Option<usize> {
    let mut digits = Digits::of(cube);
    for place in 0..inputs {
        if digits.next() == FREE {
            return Some(place);
        }
    }
    None
}

/// The cubes without a free place, by the numbers of their vectors: bit p of a number is what the input of place p has.
pub(crate) fn vectors_of(alloc: Global, inputs: usize) -> Result<Vec<usize>, AllocError> {
    let mut cubes = vec![in alloc; 0usize; 1]?;
    for place in 0..inputs {
        double_by(&mut cubes, place)?;
    }
    Ok(cubes)
}

// Adds to cubes the same with 1 at a place.
fn double_by(cubes: &mut Vec<usize>, place: usize) -> Result<(), AllocError> {
    for number in 0..cubes.len() {
        if let Some(cube) = cubes.get(number).copied() {
            cubes.push(cube.saturating_add(power(place)))?;
        }
    }
    Ok(())
}

/// What the input of a place has on all cubes of some inputs, in words.
#[derive(Drop)]
pub(crate) struct CubeColumn {
    zeros: Vec<u64>,
    ones: Vec<u64>,
}

impl CubeColumn {
    /// The column of a place, of so many cubes from the first on.
    pub(crate) fn new(alloc: Global, place: usize, cubes: usize) -> Result<CubeColumn, AllocError> {
        let zeros = digit_words(alloc, place, cubes, 0)?;
        let ones = digit_words(alloc, place, cubes, 1)?;
        Ok(CubeColumn { zeros, ones })
    }

    /// What the place has on the 512 cubes of eight words, X where it is free.
    pub(crate) fn rails(&self, word: usize) -> Rails {
        Rails {
            ones: block_at(&self.ones, word),
            zeros: block_at(&self.zeros, word),
        }
    }
}

/// How many blocks of 512 cubes these take.
pub(crate) fn blocks_of(cubes: usize) -> usize {
    cubes.div_ceil(WORD * BLOCK)
}

// A bit for each cube, which is 1 where the digit of a place is this one.
fn digit_words(
    alloc: Global,
    place: usize,
    cubes: usize,
    digit: usize,
) -> Result<Vec<u64>, AllocError> {
    let words = blocks_of(cubes).saturating_mul(BLOCK);
    let mut bits = vec![in alloc; 0u64; words]?;
    let mut left = power(place);
    let mut now = 0;
    for cube in 0..cubes {
        if now == digit {
            mark(&mut bits, cube);
        }
        left = left.saturating_sub(1);
        if left == 0 {
            left = power(place);
            now = next_digit(now);
        }
    }
    Ok(bits)
}

fn next_digit(digit: usize) -> usize {
    match digit {
        0 => 1,
        1 => FREE,
        _ => 0,
    }
}

fn mark(bits: &mut [u64], cube: usize) {
    if let Some(word) = bits.get_mut(cube / WORD) {
        *word |= 1u64 << (cube % WORD);
    }
}

fn block_at(words: &[u64], word: usize) -> u64x8 {
    if word.saturating_add(BLOCK) <= words.len() {
        u64x8::from_slice(&words[word..])
    } else {
        u64x8::splat(0)
    }
}
