//! The vectors that circuits are tried on, 64 in a word.

ghost use Rattle.std.specs.Prelude.{◌≡◌, ◌<◌, ◌≤◌, IfOk, length};
ghost use Rattle.sim_patterns.specs.Trials.{HasColumns};

use bit_list::Bits;
use port_cells::{Draws, word_of_all};
use std::alloc::{AllocError, Global};
use word_sim::Words;

/// How many words are tried at least: the lanes of `word_sim`, which are evaluated at once.
const FEWEST_WORDS: usize = 8;

/// How many words are tried at most: 2,048 vectors show nearly every wrong pair, and a search tries them at each step.
const MOST_WORDS: usize = 32;

/// Vectors of n inputs, 8 to 32 words: all of few inputs, which come again where they don't fill a block, else some
/// that are drawn.
pub(crate) fn first_vectors(alloc: Global, inputs: u32, seed: u64) -> Result<Words, AllocError>
    ensures { IfOk result (HasColumns inputs) }
{
    vectors(
        alloc,
        inputs,
        words_of_all(inputs).max(FEWEST_WORDS).min(MOST_WORDS),
        seed,
    )
}

/// So many words of vectors: all vectors where these are enough, else some that are drawn.
fn vectors(alloc: Global, inputs: u32, words: usize, seed: u64) -> Result<Words, AllocError>
    requires { 8 ≤ words }
    ensures { IfOk result (HasColumns inputs) }
{
    let whole = words >= words_of_all(inputs);
    let mut table = Words::new(alloc, inputs, words)?;
    let mut draws = Draws::new(seed);
    for word in 0..words {
        fill(inputs, word, whole, &mut draws, &mut table);
    }
    Ok(table)
}

/// How many words all vectors of n inputs take, the greatest number where that is more than are tried.
pub(crate) fn words_of_all(inputs: u32) -> usize
    ensures { 0 < result }
{
    match inputs {
        0..=6 => 1,
        7 => 2,
        8 => 4,
        9 => 8,
        10 => 16,
        11 => 32,
        _ => usize::MAX,
    }
}

// Fills a word of each column.
fn fill(inputs: u32, word: usize, whole: bool, draws: &mut Draws, table: &mut Words)
    requires columns { length table.old.columns ≡ inputs }
    requires word { word < table.old.words }
    ensures columns { length table.new.columns ≡ inputs }
    ensures words { table.new.words ≡ table.old.words }
{
    for input in 0..inputs {
        table.set(input, word, bits_for(input, word, whole, draws));
    }
}

// A word of an input: of all vectors, or drawn.
fn bits_for(input: u32, word: usize, whole: bool, draws: &mut Draws) -> u64 {
    if whole {
        word_of_all(input, word)
    } else {
        drawn(word, draws)
    }
}

// A drawn word. Of eight words, a block, two are even, and the others mostly 0 or mostly 1: an output that is nearly
// always 1 on even vectors, as whether a graph has an edge between two of the inputs that are 1, shows the graph only
// where few inputs are. How few depends on the graph, so that a quarter of them are, an eighth and a sixteenth. These
// shares weren't tuned.
fn drawn(word: usize, draws: &mut Draws) -> u64 {
    match word % 8 {
        2 | 5 => sparse(2, draws),
        4 => sparse(3, draws),
        7 => sparse(4, draws),
        3 => !sparse(2, draws),
        6 => !sparse(3, draws),
        _ => draws.word(),
    }
}

// A word of which one bit of 2^factors is 1, on average.
fn sparse(factors: u32, draws: &mut Draws) -> u64 {
    let mut word = u64::MAX;
    for _ in 0..factors {
        word &= draws.word();
    }
    word
}

/// Writes a vector to a bit of the first word.
pub(crate) fn put_vector(vector: &Bits, inputs: u32, lane: u32, table: &mut Words)
    requires places { length vector.now ≡ inputs }
    requires columns { length table.old.columns ≡ inputs }
    requires words { 0 < table.old.words }
    requires lane { lane < 64 }
    ensures columns { length table.new.columns ≡ inputs }
    ensures words { table.new.words ≡ table.old.words }
{
    for input in 0..inputs {
        let word = table.get(input, 0);
        table.set(input, 0, with_bit(word, lane, vector.get(input as usize)));
    }
}

// The word with another bit.
fn with_bit(word: u64, lane: u32, bit: bool) -> u64
    requires { lane < 64 }
{
    let mask = 1u64 << lane;
    if bit { word | mask } else { word & !mask }
}
