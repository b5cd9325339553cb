ghost use Rattle.std.proofs.Common.{rules};
ghost use Rattle.std.specs.Bool.{beq};
ghost use Rattle.std.specs.Cmp.Lexicographic.{pointwise, lists_per, lists_equiv};
ghost use Rattle.std.specs.Cmp.Rules.{comparing};
ghost use Rattle.std.specs.Prelude.{◌≡◌, ◌≢◌, ℕ, ◌+◌, ◌*◌, ◌^◌, ◌<◌, ◌≤◌, ◌∷◌, [], ◌++◌, length, false, slice_index_or};
ghost use Rattle.std.specs.Prelude.{IfOk, OnOk, OnErr, nat_eq};
ghost use Rattle.bit_list.specs.Packing.{packed_bit, word_bit};

use items::Items;
use std::alloc::{AllocError, Global};
use std::marker::Model;

/// A growable list of bits. Contracts see it as the list of its bits, in order.
///
/// It takes a bit of memory for each bit, rounded up to words of 8 bytes, and as much again where it grew by pushes.
#[derive(Debug, Drop)]
pub struct Bits {
    /// Bit i is bit i % 64 of word i / 64. What is left of the last word is 0, so equal lists have equal words.
    words: Items<u64>,
    count: usize,
}

impl Model for Bits {
    ghost use Rattle.std.specs.Prelude.{List, Bool};
    ghost use Rattle.bit_list.specs.Packing.{bits_of, IsPacked};

    ghost Value = { List Bool };

    ghost view = { λ a. bits_of a.words a.count };

    ghost invariant = { λ a. IsPacked a.words a.count };
}

impl Bits {
    /// The empty list. It takes no memory until a bit comes.
    pub fn new(alloc: Global) -> Bits
        ensures { result ≡ [] }
    {
        Bits {
            words: Items::new(alloc),
            count: 0,
        }
    }

    /// A list of bits that stand in a slice.
    pub fn from_slice(alloc: Global, bits: &[bool]) -> Result<Bits, AllocError>
        ensures { IfOk result (λ list. list ≡ bits.now) }
    {
        let mut list = Bits::with_capacity(alloc, bits.len())?;
        for bit in bits.iter() {
            list.push(*bit)?;
        }
        Ok(list)
    }

    /// The empty list with room for n bits.
    pub fn with_capacity(alloc: Global, bits: usize) -> Result<Bits, AllocError>
        ensures { IfOk result (λ list. list ≡ []) }
    {
        let words = Items::with_capacity(alloc, bits.div_ceil(64))?;
        Ok(Bits { words, count: 0 })
    }

    /// Adds a bit at the end. When out of memory, the list stays as it was.
    ///
    /// # Errors
    ///
    /// Only when out of memory: 2^64 bits fit no memory.
    pub fn push(&mut self, bit: bool) -> Result<(), AllocError>
        ensures pushed { OnOk result (self.new ≡ self.old ++ bit ∷ []) }
        ensures refused { OnErr result (self.new ≡ self.old) }
    {
        let count = self.count.checked_add(1).ok_or(AllocError)?;
        make_room(&mut self.words, self.count)?;
        let word = with_bit(self.words[self.count / 64], self.count % 64, bit);
        self.words.set(self.count / 64, word);
        self.count = count;
        Ok(())
    }

    /// How many bits there are.
    pub fn len(&self) -> usize
        ensures { result ≡ length self.now }
    {
        self.count
    }

    /// The bit at a place.
    pub fn get(&self, place: usize) -> bool
        requires { place < length self.now }
        ensures { result ≡ slice_index_or self.now place false }
    {
        (self.words[place / 64] >> (place % 64)) % 2 == 1
    }
}

/// Adds a word of 0 where all words are full.
fn make_room(words: &mut Items<u64>, count: usize) -> Result<(), AllocError>
    requires enough { count ≤ 64 * length words.old }
    requires none_more { 64 * length words.old < count + 64 }
    ensures room { OnOk result (count < 64 * length words.new) }
    ensures none_more { OnOk result (64 * length words.new < count + 1 + 64) }
    ensures bits { OnOk result ((i : ℕ) → packed_bit words.new i ≡ packed_bit words.old i) }
    ensures refused { OnErr result (words.new ≡ words.old) }
{
    if count % 64 == 0 {
        words.push(0)?;
    }
    Ok(())
}

/// The word with a bit at a place where it has a 0.
fn with_bit(word: u64, place: usize, bit: bool) -> u64
    requires place { place < 64 }
    requires free { word_bit place word ≡ false }
    ensures placed { word_bit place result ≡ bit }
    ensures others { (v : ℕ) → v ≢ place → word_bit v result ≡ word_bit v word }
{
    if bit { word | 1 << place } else { word }
}

/// Whether the words are the same.
// A function for its other clauses: below 2^64, words that are equal have the same bits.
fn same_words(first: &[u64], second: &[u64]) -> bool
    ensures value { result ≡ pointwise nat_eq first.now second.now }
    ensures first { (k : ℕ) → slice_index_or first.now k 0 < 2 ^ 64 }
    ensures second { (k : ℕ) → slice_index_or second.now k 0 < 2 ^ 64 }
{
    first == second
}

impl Clone for Bits {
    ghost is_clone = { λ bits copy. copy ≡ bits };

    fn clone(&self) -> Result<Bits, AllocError> {
        let words = self.words.clone()?;
        Ok(Bits {
            words,
            count: self.count,
        })
    }
}

impl PartialEq for Bits {
    ghost eq = { λ a b. pointwise beq a b };

    ghost laws = { lists_per (Prim.search (comparing, rules)) };

    fn eq(&self, other: &Self) -> bool {
        (self.count == other.count) & same_words(&self.words, &other.words)
    }
}

impl Eq for Bits {
    ghost laws = { lists_equiv (Prim.search (comparing, rules)) };
}
