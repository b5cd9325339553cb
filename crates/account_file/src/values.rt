//! The words of an account's lines that are numbers, pairs of ports or bits.

ghost use Rattle.std.specs.Prelude.{◌≡◌, ◌^◌};
ghost use Rattle.account_file.specs.Forms.{bad_number, bit_of, bits_of, flip_of_sign, is_plain};
ghost use Rattle.account_file.specs.Forms.{literal_of, number_below, number_of, pair_after, pair_in, pair_of, port_of};
ghost use Rattle.account_file.specs.Forms.{reference_of, tri_of, tris_of, two_bits_of};
ghost use Rattle.account_file.specs.Texts.{Answers, GivesDigits};

use crate::fault::{FileStop, RecordFault};
use crate::words::Word;
use bit_list::Bits;
use circuits::{Pair, PortKind};
use cnf_core::SatLit;
use items::Items;
use std::alloc::Global;
use text_core::{digits_in_front, is_numeral, value_of};
use word_sim::Tri;

// Whether a word is digits without a leading zero.
fn is_plain(word: &[u8]) -> bool
    ensures { result ≡ is_plain word.now }
{
    is_numeral(word) && (word.len() == 1 || word[0] != b'0')
}

// What is wrong with a word where a number stands.
fn bad_number(word: &[u8]) -> RecordFault
    ensures { result ≡ bad_number word.now }
{
    if is_numeral(word) {
        RecordFault::Number
    } else {
        RecordFault::Word
    }
}

// The number of 64 bits that a word writes without leading zeros.
fn plain_number(word: &[u8]) -> Option<u64>
    ensures { result ≡ number_below (2 ^ 64) word.now }
{
    if !is_plain(word) {
        return None;
    }
    value_of(word)
}

// The number of 32 bits.
fn plain_port(word: &[u8]) -> Option<u32>
    ensures { result ≡ number_below (2 ^ 32) word.now }
{
    let number = plain_number(word)?;
    if number < 1 << 32 {
        Some(number as u32)
    } else {
        None
    }
}

impl Word for u64 {
    ghost read = { number_of };

    fn read(word: &[u8]) -> Result<u64, RecordFault> {
        match plain_number(word) {
            Some(number) => Ok(number),
            None => Err(bad_number(word)),
        }
    }
}

impl Word for u32 {
    ghost read = { port_of };

    fn read(word: &[u8]) -> Result<u32, RecordFault> {
        match plain_port(word) {
            Some(port) => Ok(port),
            None => Err(bad_number(word)),
        }
    }
}

impl Word for SatLit {
    ghost read = { literal_of };

    fn read(word: &[u8]) -> Result<SatLit, RecordFault> {
        Ok(SatLit(u64::read(word)?))
    }
}

impl Word for Option<u64> {
    ghost read = { reference_of };

    fn read(word: &[u8]) -> Result<Option<u64>, RecordFault> {
        if word == b"-".as_slice() {
            return Ok(None);
        }
        Ok(Some(u64::read(word)?))
    }
}

impl Word for Pair {
    ghost read = { pair_of };

    fn read(word: &[u8]) -> Result<Pair, RecordFault> {
        pair_in(word).ok_or(RecordFault::Word)
    }
}

// The pair that a word writes: `i3-5`.
fn pair_in(word: &[u8]) -> Option<Pair>
    ensures { result ≡ pair_in word.now }
{
    let [letter, rest @ ..] = word else {
        return None;
    };
    let count = digits_in_front(rest);
    pair_after(
        PortKind::from_letter(*letter),
        &rest[..count],
        &rest[count..],
    )
}

// The pair of a kind and a first number, by what stands after the number.
fn pair_after(kind: Option<PortKind>, from: &[u8], rest: &[u8]) -> Option<Pair>
    ensures { result ≡ pair_after kind from.now rest.now }
{
    let [sign, to @ ..] = rest else {
        return None;
    };
    match (kind, plain_port(from), flip_of_sign(*sign), plain_port(to)) {
        (Some(kind), Some(from), Some(flip), Some(to)) => Some(Pair {
            kind,
            from,
            to,
            flip,
        }),
        _ => None,
    }
}

fn flip_of_sign(sign: u8) -> Option<bool>
    ensures { result ≡ flip_of_sign sign }
{
    match sign {
        b'+' => Some(false),
        b'-' => Some(true),
        _ => None,
    }
}

impl Word for (bool, bool) {
    ghost read = { two_bits_of };

    fn read(word: &[u8]) -> Result<(bool, bool), RecordFault> {
        let [a, b] = word else {
            return Err(RecordFault::Word);
        };
        Ok((bit_of(*a)?, bit_of(*b)?))
    }
}

fn bit_of(digit: u8) -> Result<bool, RecordFault>
    ensures { result ≡ bit_of digit }
{
    match digit {
        b'0' => Ok(false),
        b'1' => Ok(true),
        _ => Err(RecordFault::Word),
    }
}

fn tri_of(digit: u8) -> Result<Tri, RecordFault>
    ensures { result ≡ tri_of digit }
{
    match digit {
        b'0' => Ok(Tri::Zero),
        b'1' => Ok(Tri::One),
        b'x' => Ok(Tri::X),
        _ => Err(RecordFault::Word),
    }
}

// The digits after `=`.
fn digits_of(word: &[u8]) -> Result<&[u8], RecordFault>
    ensures { GivesDigits result word.now }
{
    let [sign, digits @ ..] = word else {
        return Err(RecordFault::Word);
    };
    if *sign == b'=' {
        Ok(digits)
    } else {
        Err(RecordFault::Word)
    }
}

/// The bits that a word writes: `=01`.
pub(crate) fn bits_of(alloc: Global, word: &[u8]) -> Result<Bits, FileStop>
    ensures { Answers (λ bits. bits) result (bits_of word.now) }
{
    let digits = digits_of(word)?;
    let mut bits = Bits::new(alloc);
    for digit in digits.iter() {
        bits.push(bit_of(*digit)?)?;
    }
    Ok(bits)
}

/// The bits that a word writes, each of which may be either: `=0x`.
pub(crate) fn tris_of(alloc: Global, word: &[u8]) -> Result<Items<Tri>, FileStop>
    ensures { Answers (λ tris. tris) result (tris_of word.now) }
{
    let digits = digits_of(word)?;
    let mut tris = Items::new(alloc);
    for digit in digits.iter() {
        tris.push(tri_of(*digit)?)?;
    }
    Ok(tris)
}
