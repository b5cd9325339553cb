//! Signals that may compute the same: those that agree on all vectors that were tried, or disagree on all of them.

ghost use Rattle.std.specs.Prelude.{◌≡◌, ◌<◌, ◌^◌, [], IfOk, OnOk, length, map, slice_index_or};
ghost use Rattle.net_core.specs.Values.{signed_word};
ghost use Rattle.word_sim.specs.Columns.{word_of};
ghost use Rattle.sweep.specs.Classes.{AreClasses, HasAlso, IsNumbered, IsSplitBy, first_member, number_of};
ghost use Rattle.sweep.specs.Exposed.{IsExposed};

use crate::drawing::drawn;
use indexmap::IndexMap;
use net_core::{Graph, SignalValue};
use rand_pcg::Pcg32;
use std::alloc::{AllocError, Global};
use word_sim::{Words, simulate};

/// How many rounds of vectors are drawn at most, each as large as all before it.
const ROUNDS: u32 = 4;

/// How many words of 64 vectors the first round has: one of each kind that `drawn_word` draws.
const FIRST_WORDS: usize = 8;

/// How many words a round may have for all signals: 16 megabytes.
const MOST_WORDS: usize = 1 << 21;

/// What is known of a signal.
#[derive(Clone, Copy, Drop)]
pub(crate) struct Member {
    /// Its bit where all inputs are false. Where that is true its complement is looked at, so that opposite signals are
    /// of one class.
    pub(crate) flip: bool,
    /// The first signal of its class.
    pub(crate) class: u32,
}

/// The classes of a graph's signals, each of which is an output, on drawn vectors. They are drawn in rounds, until one
/// splits no class.
///
/// # Errors
///
/// Only when out of memory.
pub(crate) fn drawn_classes(
    alloc: Global,
    exposed: &Graph,
    generator: &mut Pcg32,
) -> Result<Vec<Member>, AllocError>
    requires { IsExposed exposed.now }
    ensures { IfOk result (λ members. AreClasses exposed.now members.items) }
{
    let mut members = one_class(alloc, exposed)?;
    split_in_rounds(alloc, exposed, generator, &mut members)?;
    Ok(members)
}

/// Draws rounds of vectors, until one splits no class.
fn split_in_rounds(
    alloc: Global,
    exposed: &Graph,
    generator: &mut Pcg32,
    members: &mut Vec<Member>,
) -> Result<(), AllocError>
    requires exposed { IsExposed exposed.now }
    requires classes { AreClasses exposed.now members.old.items }
    ensures { OnOk result (AreClasses exposed.now members.new.items) }
{
    let mut words = FIRST_WORDS;
    for _round in 0..ROUNDS {
        let before = count_of(members);
        if words > MOST_WORDS / exposed.signals() {
            break;
        }
        let inputs = drawn(alloc, generator, exposed.inputs(), words)?;
        split(alloc, exposed, &inputs, members)?;
        if count_of(members) == before {
            break;
        }
        words = words.saturating_mul(2);
    }
    Ok(())
}

/// How many classes there are: each is called by its first signal.
fn count_of(members: &[Member]) -> usize {
    let mut count = 0;
    for (signal, member) in members.iter().enumerate() {
        if member.class as usize == signal {
            count += 1;
        }
    }
    count
}

/// All signals of a graph in one class.
fn one_class(alloc: Global, exposed: &Graph) -> Result<Vec<Member>, AllocError>
    ensures { IfOk result (λ members. AreClasses exposed.now members.items) }
{
    let zeros = vec![in alloc; false; exposed.inputs() as usize]?;
    let mut values = vec![in alloc; false; exposed.signals()]?;
    exposed.eval_into(&zeros, &mut values);
    members_of(alloc, &values)
}

/// Signals with these bits where all inputs are false, in one class.
fn members_of(alloc: Global, bits: &[bool]) -> Result<Vec<Member>, AllocError>
    ensures { IfOk result (λ members. members.items ≡ map first_member bits.now) }
{
    let mut members = Vec::with_capacity(alloc, bits.len())?;
    for flip in bits.iter() {
        members.push(Member {
            flip: *flip,
            class: 0,
        })?;
    }
    Ok(members)
}

/// Splits the classes by what the signals have on more vectors, one word of these after the other. No class is split
/// unless two signals of it differ on one of them, so it may be any vectors.
///
/// # Errors
///
/// Only when out of memory; then nothing is promised of the classes.
pub(crate) fn split(
    alloc: Global,
    exposed: &Graph,
    inputs: &Words,
    members: &mut Vec<Member>,
) -> Result<(), AllocError>
    requires exposed { IsExposed exposed.now }
    requires columns { length inputs.now.columns ≡ exposed.now.inputs }
    requires classes { AreClasses exposed.now members.old.items }
    ensures { OnOk result (AreClasses exposed.now members.new.items) }
{
    // it brings in that the signals can be counted
    let _signals = exposed.signals();
    let values = simulate(alloc, exposed, inputs)?;
    for word in 0..values.words() {
        split_by_word(alloc, &values, word, members)?;
    }
    Ok(())
}

/// Splits the classes by one word of each signal.
fn split_by_word(
    alloc: Global,
    values: &Words,
    word: usize,
    members: &mut Vec<Member>,
) -> Result<(), AllocError>
    requires word { word < values.now.words }
    requires columns { length values.now.columns ≡ length members.old.items }
    requires few { length members.old.items < 2 ^ 31 }
    ensures { OnOk result (IsSplitBy values.now word members.old.items members.new.items) }
{
    let mut numbers = IndexMap::new(alloc);
    for signal in 0..members.len() {
        let member = members[signal];
        let seen = seen_of(values, word, signal as u32, member.flip);
        let class = number_under(&mut numbers, (u64::from(member.class), seen), signal as u32)?;
        members[signal] = Member {
            flip: member.flip,
            class,
        };
    }
    Ok(())
}

/// A word of a signal, complemented or not.
fn seen_of(values: &Words, word: usize, signal: u32, flip: bool) -> u64
    requires word { word < values.now.words }
    requires signal { signal < length values.now.columns }
    ensures { result ≡ signed_word (word_of word (slice_index_or values.now.columns signal [])) flip }
{
    values.get(signal, word).signed(flip)
}

/// The number under a class and a word. Where there is none, it is the signal's from now on.
fn number_under(
    numbers: &mut IndexMap<(u64, u64), u32>,
    key: (u64, u64),
    signal: u32,
) -> Result<u32, AllocError>
    ensures { IfOk result (IsNumbered numbers.old.entries numbers.new.entries key signal) }
{
    if let Some(number) = number_of(numbers, key) {
        return Ok(number);
    }
    keep(numbers, key, signal)?;
    Ok(signal)
}

/// The number under a key, if there is one.
fn number_of(numbers: &IndexMap<(u64, u64), u32>, key: (u64, u64)) -> Option<u32>
    ensures { result ≡ number_of numbers.now.entries key }
{
    numbers.get(&key).copied()
}

/// Keeps a number under a key.
fn keep(
    numbers: &mut IndexMap<(u64, u64), u32>,
    key: (u64, u64),
    number: u32,
) -> Result<(), AllocError>
    ensures { OnOk result (HasAlso numbers.old.entries numbers.new.entries key number) }
{
    numbers.insert(key, number)?;
    Ok(())
}
