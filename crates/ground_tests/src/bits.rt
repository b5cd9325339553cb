//! Bits of which every third is 1, in lists that end within a word, at its end and after it.

use bit_list::Bits;
use std::alloc::{AllocError, Global};
use std::test::Fail;

/// How many bits the lists have.
static LENGTHS: [usize; 6] = [0, 1, 63, 64, 65, 130];

fn every_third(alloc: Global, count: usize) -> Result<Vec<bool>, AllocError> {
    let mut bits = Vec::new(alloc);
    for place in 0..count {
        bits.push(place % 3 == 1)?;
    }
    Ok(bits)
}

fn third_bits(alloc: Global, count: usize) -> Result<Bits, AllocError> {
    Bits::from_slice(alloc, &every_third(alloc, count)?)
}

/// Whether there are n bits, of which every third is 1.
fn are_thirds(bits: &Bits, count: usize) -> bool {
    let mut same = bits.len() == count;
    for place in 0..bits.len() {
        same = same & (bits.get(place) == (place % 3 == 1));
    }
    same
}

/// Whether a list of n bits gives back each of them.
fn gives_back(alloc: Global, count: usize) -> Result<bool, AllocError> {
    let given = every_third(alloc, count)?;
    let bits = Bits::from_slice(alloc, &given)?;
    Ok(are_thirds(&bits, count))
}

fn followed_by(bits: &Bits, last: bool) -> Result<Bits, AllocError> {
    let mut longer = bits.clone()?;
    longer.push(last)?;
    Ok(longer)
}

fn equals_its_copy(bits: &Bits) -> Result<bool, AllocError> {
    Ok(bits.clone()? == *bits)
}

/// Whether a list is equal to no list that is a bit longer, and two that end otherwise differ.
fn differs_by_a_bit(bits: &Bits) -> Result<bool, AllocError> {
    let longer = followed_by(bits, false)?;
    let other = followed_by(bits, true)?;
    Ok((longer != *bits) & (other != *bits) & (longer != other))
}

fn is_equal_bit_by_bit(alloc: Global, count: usize) -> Result<bool, AllocError> {
    let bits = third_bits(alloc, count)?;
    Ok(equals_its_copy(&bits)? & differs_by_a_bit(&bits)?)
}

#[test]
fn bits_are_as_they_were_given(rt: HostRuntime) -> Result<(), Fail> {
    for count in LENGTHS.iter() {
        assert!(rt; gives_back(rt.alloc(), *count)?);
    }
    Ok(())
}

#[test]
fn lists_are_equal_bit_by_bit(rt: HostRuntime) -> Result<(), Fail> {
    let alloc = rt.alloc();
    for count in LENGTHS.iter() {
        assert!(rt; is_equal_bit_by_bit(alloc, *count)?);
    }
    assert!(rt; Bits::with_capacity(alloc, 65)? == Bits::new(alloc));
    Ok(())
}
