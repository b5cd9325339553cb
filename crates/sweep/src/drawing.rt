//! Vectors on which signals are simulated. No answer rests on them.

ghost use Rattle.std.specs.Prelude.{◌≡◌, ◌<◌, ◌^◌, IfOk, length};

use items::Items;
use rand_core::Rng;
use rand_pcg::Pcg32;
use std::alloc::{AllocError, Global};
use word_sim::Words;

/// Words of drawn vectors for each input.
///
/// # Errors
///
/// Only when out of memory.
pub(crate) fn drawn(
    alloc: Global,
    generator: &mut Pcg32,
    inputs: u32,
    words: usize,
) -> Result<Words, AllocError>
    ensures { IfOk result (λ table. length table.columns ≡ inputs) }
{
    let mut table = Words::new(alloc, inputs, words)?;
    for input in 0..inputs {
        draw_column(generator, &mut table, input);
    }
    Ok(table)
}

// Draws an input's words.
fn draw_column(generator: &mut Pcg32, table: &mut Words, input: u32)
    requires { input < length table.old.columns }
    ensures { length table.new.columns ≡ length table.old.columns }
{
    for word in 0..table.words() {
        table.set(input, word, drawn_word(generator, word));
    }
}

// A word. Of each eight four are even; in the others, one each, three of four bits are 1, seven of eight, one of four
// and one of eight: wide gates are the same value on nearly all even vectors.
fn drawn_word(generator: &mut Pcg32, place: usize) -> u64 {
    let one = generator.next_u64();
    match place % 8 {
        4 => one | generator.next_u64(),
        5 => one | generator.next_u64() | generator.next_u64(),
        6 => one & generator.next_u64(),
        7 => one & generator.next_u64() & generator.next_u64(),
        _ => one,
    }
}

/// A word for each vector: its first lane is the vector itself, and in each other lane some inputs are inverted.
///
/// # Errors
///
/// Only when out of memory.
pub(crate) fn near(
    alloc: Global,
    generator: &mut Pcg32,
    inputs: u32,
    vectors: &[Items<bool>],
) -> Result<Words, AllocError>
    ensures { IfOk result (λ table. length table.columns ≡ inputs) }
{
    let mut table = Words::new(alloc, inputs, vectors.len())?;
    for (word, vector) in vectors.iter().enumerate() {
        put_near(generator, &mut table, word, vector);
    }
    Ok(table)
}

// Writes the word of vectors near one.
fn put_near(generator: &mut Pcg32, table: &mut Words, word: usize, vector: &Items<bool>)
    requires word { word < table.old.words }
    requires few { length table.old.columns < 2 ^ 32 }
    ensures columns { length table.new.columns ≡ length table.old.columns }
    ensures words { table.new.words ≡ table.old.words }
{
    for input in 0..table.columns() {
        let bit = vector.get(input).copied().unwrap_or(false);
        table.set(input as u32, word, near_word(generator, bit));
    }
}

// An input's bit in each lane but the first inverted with a chance of one in 16: on vectors that differ in few inputs
// from one that tells two signals apart, others are told apart too (FRAIGs invert one input in each lane).
fn near_word(generator: &mut Pcg32, bit: bool) -> u64 {
    let one_in_four = generator.next_u64() & generator.next_u64();
    let inverted = one_in_four & generator.next_u64() & generator.next_u64() & (u64::MAX - 1);
    let plain = if bit { u64::MAX } else { 0 };
    plain ^ inverted
}
