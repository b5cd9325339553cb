//! Which assigned pairs exclude each other, as tables show.

use crate::column::Column;
use crate::cone::Cone;
use crate::cubes::{Digits, FREE, at, has, power};
use crate::images::{Images, needed_bit};
use crate::primes::Prime;
use crate::tables::{TabledPair, Tables};
use bit_list::Bits;
use circuits::{Pair, PortKind};
use items::Items;
use std::alloc::{AllocError, Global};

/// Assigned pairs that exclude each other, as tables show.
#[derive(Debug, Drop)]
pub struct Exclusion {
    /// The one of outputs.
    pub output: Pair,
    /// All of them.
    pub pairs: Items<Pair>,
    /// Whether claims of two inputs show it.
    pub by_swaps: bool,
    /// A vector of the first circuit's inputs on which the partner is wrong; it is empty where claims show that the
    /// pairs exclude each other.
    pub vector: Bits,
}

/// What is looked up in tables.
#[derive(Clone, Copy)]
pub(crate) enum LookUp {
    /// Claims of one input and of two.
    Claims,
    /// The cubes to which primes are carried.
    Primes,
}

/// What tables show of an assigned pair beside others, if they show something.
pub(crate) fn exclusion_by(
    alloc: Global,
    tables: &Tables,
    assigned: &[Pair],
    latest: Pair,
    by: LookUp,
) -> Result<Option<Exclusion>, AllocError> {
    if let Some(tabled) = tables.tabled(latest) {
        return exclusion_of_output(alloc, &tabled, assigned, by);
    }
    for pair in assigned.iter() {
        if let Some(tabled) = tables.tabled(*pair) {
            if let Some(exclusion) = exclusion_of_input(alloc, &tabled, assigned, latest, by)? {
                return Ok(Some(exclusion));
            }
        }
    }
    Ok(None)
}

// What tables show of a pair of outputs, alone and beside pairs of inputs.
fn exclusion_of_output(
    alloc: Global,
    tabled: &TabledPair<'_>,
    assigned: &[Pair],
    by: LookUp,
) -> Result<Option<Exclusion>, AllocError> {
    match by {
        LookUp::Claims => claims_of_output(alloc, tabled, assigned),
        LookUp::Primes => primes_of_output(alloc, tabled, assigned),
    }
}

// What tables show of a pair of outputs and an input's pair, alone and beside other inputs'.
fn exclusion_of_input(
    alloc: Global,
    tabled: &TabledPair<'_>,
    assigned: &[Pair],
    input: Pair,
    by: LookUp,
) -> Result<Option<Exclusion>, AllocError> {
    match by {
        LookUp::Claims => claims_of_input(alloc, tabled, assigned, input),
        LookUp::Primes => primes_of_input(alloc, tabled, assigned, input),
    }
}

fn claims_of_output(
    alloc: Global,
    tabled: &TabledPair<'_>,
    assigned: &[Pair],
) -> Result<Option<Exclusion>, AllocError> {
    if !tabled.has_same_counts() {
        return Ok(Some(by_claims(alloc, tabled, &[])?));
    }
    for pair in assigned.iter() {
        if let Some(exclusion) = claims_of_input(alloc, tabled, assigned, *pair)? {
            return Ok(Some(exclusion));
        }
    }
    Ok(None)
}

fn claims_of_input(
    alloc: Global,
    tabled: &TabledPair<'_>,
    assigned: &[Pair],
    input: Pair,
) -> Result<Option<Exclusion>, AllocError> {
    if input.kind != PortKind::Input {
        return Ok(None);
    }
    if tabled.is_unlike(input) {
        return Ok(Some(by_claims(alloc, tabled, &[input])?));
    }
    for other in assigned.iter() {
        if is_other_input(*other, input) & tabled.is_unlike_with(input, *other) {
            return Ok(Some(by_claims(alloc, tabled, &[input, *other])?));
        }
    }
    Ok(None)
}

fn is_other_input(other: Pair, input: Pair) -> bool {
    (other.kind == PortKind::Input) & (other.to != input.to)
}

fn primes_of_input(
    alloc: Global,
    tabled: &TabledPair<'_>,
    assigned: &[Pair],
    input: Pair,
) -> Result<Option<Exclusion>, AllocError> {
    let images = Images::new(alloc, tabled, assigned)?;
    let column = Column::new(alloc, *tabled, &images, assigned, input.to)?;
    match column.wrong_prime(input) {
        Some(number) => by_prime(alloc, tabled, &images, assigned, number),
        None => Ok(None),
    }
}

fn primes_of_output(
    alloc: Global,
    tabled: &TabledPair<'_>,
    assigned: &[Pair],
) -> Result<Option<Exclusion>, AllocError> {
    let images = Images::new(alloc, tabled, assigned)?;
    match wrong_prime(tabled, &images) {
        Some(number) => by_prime(alloc, tabled, &images, assigned, number),
        None => Ok(None),
    }
}

/// The first prime by which a pair of outputs is excluded beside pairs of inputs.
pub(crate) fn wrong_prime(tabled: &TabledPair<'_>, images: &Images) -> Option<usize> {
    for (number, prime) in tabled.primes.iter().enumerate() {
        if prime.fixed & !images.paired == 0 {
            let cube = images.cube_of(prime, 0);
            if at(&tabled.first.bits, cube) & needed_bit(tabled, prime) != 0 {
                return Some(number);
            }
        }
    }
    None
}

// That claims differ, of one input's pair or of two.
fn by_claims(
    alloc: Global,
    tabled: &TabledPair<'_>,
    inputs: &[Pair],
) -> Result<Exclusion, AllocError> {
    let mut pairs = Items::from_slice(alloc, inputs)?;
    pairs.push(tabled.pair)?;
    Ok(Exclusion {
        output: tabled.pair,
        pairs,
        by_swaps: inputs.len() == 2,
        vector: Bits::new(alloc),
    })
}

// That the output's partner is wrong on a vector of the cube to which a prime is carried.
fn by_prime(
    alloc: Global,
    tabled: &TabledPair<'_>,
    images: &Images,
    assigned: &[Pair],
    number: usize,
) -> Result<Option<Exclusion>, AllocError> {
    let Some(prime) = tabled.primes.get(number) else {
        return Ok(None);
    };
    let mut pairs = fixed_pairs(alloc, tabled, assigned, prime)?;
    pairs.push(tabled.pair)?;
    let cube = images.cube_of(prime, 0);
    let vector = vector_in(alloc, tabled, cube, needed_bit(tabled, prime))?;
    Ok(Some(Exclusion {
        output: tabled.pair,
        pairs,
        by_swaps: false,
        vector,
    }))
}

// The assigned pairs of the inputs that a prime fixes.
fn fixed_pairs(
    alloc: Global,
    tabled: &TabledPair<'_>,
    assigned: &[Pair],
    prime: &Prime,
) -> Result<Items<Pair>, AllocError> {
    let mut pairs = Items::new(alloc);
    for pair in assigned.iter() {
        if is_fixed(tabled, prime, *pair) {
            pairs.push(*pair)?;
        }
    }
    Ok(pairs)
}

// Whether a pair is of an input that a prime fixes.
fn is_fixed(tabled: &TabledPair<'_>, prime: &Prime, pair: Pair) -> bool {
    if pair.kind != PortKind::Input {
        return false;
    }
    match tabled.second.place_of(pair.to) {
        Some(place) => has(prime.fixed, place),
        None => false,
    }
}

// A vector of a cube on which an output has a bit that it has there. Inputs that the output doesn't reach are 0.
fn vector_in(
    alloc: Global,
    tabled: &TabledPair<'_>,
    cube: usize,
    needed: u8,
) -> Result<Bits, AllocError> {
    let cone = tabled.first;
    let mut cube = cube;
    let mut digits = Digits::of(cube);
    let mut vector = Bits::new(alloc);
    for (place, input) in cone.inputs.iter().enumerate() {
        extend_to(&mut vector, *input)?;
        let mut digit = digits.next();
        if digit == FREE {
            digit = chosen_digit(cone, cube, place, needed);
            cube = cube.saturating_sub(FREE.saturating_sub(digit).saturating_mul(power(place)));
        }
        vector.push(digit == 1)?;
    }
    extend_to(&mut vector, tabled.inputs)?;
    Ok(vector)
}

// The bit of a free place for which an output still has a bit on the cube.
fn chosen_digit(cone: &Cone, cube: usize, place: usize, needed: u8) -> usize {
    let zero = cube.saturating_sub(power(place).saturating_mul(2));
    if at(&cone.bits, zero) & needed != 0 {
        0
    } else {
        1
    }
}

// Adds bits that are 0 up to an input.
fn extend_to(vector: &mut Bits, input: u32) -> Result<(), AllocError> {
    for _place in vector.len()..input as usize {
        vector.push(false)?;
    }
    Ok(())
}
