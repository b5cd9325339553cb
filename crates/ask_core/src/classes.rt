//! Signals that agree.

ghost use Rattle.std.specs.Prelude.{◌<◌, ◌≡◌, IfOk, length};

use indexmap::IndexMap;
use net_core::Graph;
use rand_core::Rng;
use rand_pcg::Pcg32;
use std::alloc::{AllocError, Global};
use word_sim::{Words, mix, simulate};

/// How many rounds of vectors are drawn at most: the first has 512, and each later one as many as all before it, so
/// that there are 32,768 in all. In a divider of 12 bits most signals are rarely 1: 4,096 vectors leave some 30 pairs
/// that aren't equal, each of which costs the search 500 lines, and 32,768 leave none.
const ROUNDS: u32 = 7;

/// How many words of 64 vectors the first round has for each input: one of each kind that `drawn_word` draws. Over all
/// questions of a multiplier of 8 bits one even word leaves some 470 pairs that aren't equal, four 100, and eight 20.
const FIRST_WORDS: usize = 8;

/// How many words a round may have for all signals: 16 megabytes. So all rounds are drawn for up to 8,192 signals, and
/// fewer for more.
const MOST_WORDS: usize = 1 << 21;

/// The stream of the generator, the same for each seed. Any would do.
const STREAM: u64 = 54;

/// Which signals agreed on all vectors, or disagreed on all of them.
#[derive(Drop)]
pub(crate) struct SignalClasses {
    pub(crate) members: Vec<Member>,
    /// How many classes there are.
    count: usize,
}

/// What is known of a signal.
#[derive(Clone, Copy, Drop)]
pub(crate) struct Member {
    /// Whether it is 0 on the first vector: then its complement is looked at.
    pub(crate) flip: bool,
    /// The number of its class.
    pub(crate) class: u64,
}

/// The classes of a netlist's outputs on drawn vectors. They are drawn in rounds, until one splits no class.
///
/// # Errors
///
/// Only when out of memory.
pub(crate) fn classes_of(
    alloc: Global,
    graph: &Graph,
    seed: u64,
) -> Result<SignalClasses, AllocError> {
    let mut generator = Pcg32::new(seed, STREAM);
    let mut classes = SignalClasses {
        members: Vec::new(alloc),
        count: 0,
    };
    for round in 0..ROUNDS {
        if !classes.split_once(alloc, graph, round, &mut generator)? {
            break;
        }
    }
    Ok(classes)
}

// How many words a round has: as many as all before it.
fn words_of(round: u32) -> usize
    requires { round < 7 }
    ensures { 0 < result }
{
    if round == 0 {
        return FIRST_WORDS;
    }
    FIRST_WORDS << (round - 1)
}

impl SignalClasses {
    // Draws a round, and answers whether a class was split.
    fn split_once(
        &mut self,
        alloc: Global,
        graph: &Graph,
        round: u32,
        generator: &mut Pcg32,
    ) -> Result<bool, AllocError>
        requires { round < 7 }
    {
        let count = graph.outputs().len();
        let words = words_of(round);
        if count > MOST_WORDS / words {
            return Ok(false);
        }
        let inputs = drawn(alloc, generator, graph.inputs(), words)?;
        let values = simulate(alloc, graph, &inputs)?;
        self.split(alloc, &values, count as u32)
    }

    /// Splits the classes by what n signals have on more vectors. Answers whether one was split.
    fn split(&mut self, alloc: Global, values: &Words, count: u32) -> Result<bool, AllocError>
        requires { length values.now.columns ≡ count }
    {
        let before = self.count;
        let mut numbers = ClassNumbers {
            map: IndexMap::new(alloc),
        };
        let mut members = Vec::with_capacity(alloc, count as usize)?;
        for column in 0..count {
            let member = self.members.get(column as usize).copied();
            members.push(numbers.member(values, column, member)?)?;
        }
        self.members = members;
        self.count = numbers.map.len();
        Ok(self.count > before)
    }
}

/// The numbers of new classes: by the old class, and a hash of the words that came.
struct ClassNumbers {
    map: IndexMap<(u64, u64), u64>,
}

// By hand, so that each exit of a function has one call for it (docs/IDIOMS.md).
impl Drop for ClassNumbers {
    fn drop(self) {
        let ClassNumbers { map: _map } = self;
    }
}

impl ClassNumbers {
    // What is known of a signal after the words of a column.
    fn member(
        &mut self,
        values: &Words,
        column: u32,
        before: Option<Member>,
    ) -> Result<Member, AllocError>
        requires { column < length values.now.columns }
    {
        let (flip, class) = match before {
            Some(member) => (member.flip, member.class),
            None => (begins_with_zero(values, column), 0),
        };
        let class = self.number((class, hash_of(values, column, flip)))?;
        Ok(Member { flip, class })
    }

    // The number of a class.
    fn number(&mut self, class: (u64, u64)) -> Result<u64, AllocError> {
        if let Some(number) = self.map.get(&class) {
            return Ok(*number);
        }
        let number = self.map.len() as u64;
        self.map.insert(class, number)?;
        Ok(number)
    }
}

// Whether the bit of the first vector is 0.
fn begins_with_zero(values: &Words, column: u32) -> bool
    requires { column < length values.now.columns }
{
    values.words() > 0 && values.get(column, 0) % 2 == 0
}

// A hash of a column's words, each inverted where the flag says so.
fn hash_of(values: &Words, column: u32, flip: bool) -> u64
    requires { column < length values.now.columns }
{
    let mask = if flip { u64::MAX } else { 0 };
    let mut hash = 0;
    for word in 0..values.words() {
        hash = mix(hash, values.get(column, word) ^ mask);
    }
    hash
}

// Words of drawn vectors for each input.
fn drawn(
    alloc: Global,
    generator: &mut Pcg32,
    inputs: u32,
    words: usize,
) -> Result<Words, AllocError>
    ensures { IfOk result (λ table. length table.columns ≡ inputs) }
{
    let mut table = Words::new(alloc, inputs, words)?;
    for input in 0..inputs {
        draw_column(generator, &mut table, input);
    }
    Ok(table)
}

// Draws an input's words.
fn draw_column(generator: &mut Pcg32, table: &mut Words, input: u32)
    requires { input < length table.old.columns }
    ensures { length table.new.columns ≡ length table.old.columns }
{
    for word in 0..table.words() {
        table.set(input, word, drawn_word(generator, word));
    }
}

// A word. Of each eight four are even; in the others, one each, three of four bits are 1, seven of eight, one of four
// and one of eight: wide gates are the same value on nearly all even vectors.
fn drawn_word(generator: &mut Pcg32, place: usize) -> u64 {
    let one = generator.next_u64();
    match place % 8 {
        4 => one | generator.next_u64(),
        5 => one | generator.next_u64() | generator.next_u64(),
        6 => one & generator.next_u64(),
        7 => one & generator.next_u64() & generator.next_u64(),
        _ => one,
    }
}
