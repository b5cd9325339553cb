ghost use Rattle.std.specs.Prelude.{◌≡◌, ◌<◌, ◌≤◌, ◌+◌, [], ℕ, All, IfOk, length, replicate, slice_index_or, slice_set};
ghost use Rattle.std.specs.Simd.Lanes.{put_chunk};
ghost use Rattle.word_sim.specs.Columns.{IsTable, lane as lane_bits, row_of, vector_at, word_of};

use items::Items;
use std::alloc::{AllocError, Global};
use std::marker::Model;
use std::simd::prelude::*;

/// A column of words for each port of a circuit. Bit v of word w of column i is bit i of vector 64 * w + v.
#[derive(Debug, Drop)]
pub struct Words {
    words: usize,
    columns: Vec<Items<u64>>,
}

impl Model for Words {
    ghost use Rattle.word_sim.specs.Columns.{IsTable, Table};

    ghost Value = { Table };

    ghost view = { λ a. record { words = a.words; columns = a.columns.items } };

    ghost invariant = { λ a. IsTable (record { words = a.words; columns = a.columns.items }) };
}

impl Words {
    /// Columns of as many words each, all 0.
    pub fn new(alloc: Global, columns: u32, words: usize) -> Result<Words, AllocError>
        ensures zeros { IfOk result (λ table. table
            ≡ record { words = words; columns = replicate columns (replicate words 0) }) }
        ensures table { IfOk result IsTable }
    {
        let mut zeros = Vec::with_capacity(alloc, columns as usize)?;
        for _ in 0..columns {
            zeros.push(Items::from_vec(vec![in alloc; 0u64; words]?))?;
        }
        Ok(Words {
            words,
            columns: zeros,
        })
    }

    /// How many words each column has.
    pub fn words(&self) -> usize
        ensures value { result ≡ self.now.words }
        ensures table { IsTable self.now }
    {
        self.words
    }

    /// How many columns there are.
    pub fn columns(&self) -> usize
        ensures value { result ≡ length self.now.columns }
        ensures table { IsTable self.now }
    {
        self.columns.len()
    }

    /// A word of a column.
    pub fn get(&self, column: u32, word: usize) -> u64
        requires column { column < length self.now.columns }
        requires word { word < self.now.words }
        ensures { result ≡ word_of word (slice_index_or self.now.columns column []) }
    {
        self.columns[column as usize][word]
    }

    /// Gives a word of a column another value. All others stay.
    pub fn set(&mut self, column: u32, word: usize, value: u64)
        requires column { column < length self.old.columns }
        requires word { word < self.old.words }
        ensures table { IsTable self.new }
        ensures value { self.new ≡ record self.old {
          columns =
              slice_set self.old.columns column (slice_set (slice_index_or self.old.columns column []) word value);
        } }
    {
        self.columns[column as usize].set(word, value);
    }

    /// Eight words of a column, from `word` on.
    pub fn block(&self, column: u32, word: usize) -> u64x8
        requires column { column < length self.now.columns }
        requires word { word + 8 ≤ self.now.words }
        ensures lanes { length result ≡ 8 }
        ensures words { (l : ℕ) → l < 8
            → word_of l result ≡ word_of (word + l) (slice_index_or self.now.columns column []) }
    {
        u64x8::from_slice(&self.columns[column as usize][word..])
    }

    /// Gives eight words of a column other values, from `word` on. All others stay.
    pub(crate) fn set_block(&mut self, column: u32, word: usize, block: u64x8)
        requires column { column < length self.old.columns }
        requires word { word + 8 ≤ self.old.words }
        ensures table { IsTable self.new }
        ensures value { self.new ≡ record self.old {
          columns =
              slice_set self.old.columns column (put_chunk word (slice_index_or self.old.columns column []) block);
        } }
    {
        put_block(self.columns[column as usize].as_mut_slice(), word, block);
    }

    /// The vector at a bit of a word: a bit of each column.
    pub fn vector(&self, alloc: Global, word: usize, lane: u32) -> Result<Items<bool>, AllocError>
        requires word { word < self.now.words }
        requires lane { lane < 64 }
        ensures { IfOk result (λ vector. vector ≡ vector_at self.now word lane) }
    {
        lane_of(alloc, &self.columns, word, lane)
    }
}

/// Writes eight words of a column.
fn put_block(column: &mut [u64], word: usize, block: u64x8)
    requires { word + 8 ≤ length column.old }
    ensures { column.new ≡ put_chunk word column.old block }
{
    block.copy_to_slice(&mut column[word..]);
}

/// A bit of a word of each column.
fn lane_of(
    alloc: Global,
    columns: &[Items<u64>],
    word: usize,
    lane: u32,
) -> Result<Items<bool>, AllocError>
    requires word { All (λ column. word < length column) columns.now }
    requires lane { lane < 64 }
    ensures { IfOk result (λ bits. bits ≡ lane_bits lane (row_of columns.now word)) }
{
    let mut bits = Items::with_capacity(alloc, columns.len())?;
    for column in columns {
        bits.push((column[word] >> lane) % 2 == 1)?;
    }
    Ok(bits)
}
