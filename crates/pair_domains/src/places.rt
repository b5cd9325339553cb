//! Where the entries of pairs stand.

ghost use Rattle.std.specs.Prelude.{◌≡◌, ◌<◌, IfOk, None, OnErr, OnOk, Some, length, replicate, slice_index_or, slice_set};

use std::alloc::{AllocError, Global};
use std::marker::Model;

/// Where the entry of each pair stands, if it has one, by the pair's number.
///
/// Of what pairs take this alone has something for each pair that there could be, so it has four bytes a pair: the
/// place and one, or 0 where there is no entry.
#[derive(Debug, Drop)]
pub(crate) struct Places {
    numbers: Vec<u32>,
}

impl Model for Places {
    ghost use Rattle.std.specs.Prelude.{ℕ, List, Option, map};
    ghost use Rattle.pair_domains.specs.Packed.{place_of};

    ghost Value = { List (Option ℕ) };

    ghost view = { λ a. map place_of a.numbers.items };
}

impl Places {
    /// So many pairs without entries.
    pub(crate) fn new(alloc: Global, count: usize) -> Result<Places, AllocError>
        ensures { IfOk result (λ places. places ≡ replicate count None) }
    {
        Ok(Places {
            numbers: vec![in alloc; 0; count]?,
        })
    }

    /// Where the entry of the pair of a number stands.
    pub(crate) fn get(&self, number: usize) -> Option<usize>
        requires { number < length self.now }
        ensures { result ≡ slice_index_or self.now number None }
    {
        match self.numbers[number] {
            0 => None,
            next => Some(next as usize - 1),
        }
    }

    /// Writes where the entry of the pair of a number stands. Where the place isn't a number of 32 bits, that is an
    /// error, and nothing changes.
    pub(crate) fn put(&mut self, number: usize, place: usize) -> Result<(), AllocError>
        requires { number < length self.old }
        ensures put { OnOk result (self.new ≡ slice_set self.old number (Some place)) }
        ensures refused { OnErr result (self.new ≡ self.old) }
    {
        if place >= u32::MAX as usize {
            return Err(AllocError);
        }
        self.numbers[number] = place as u32 + 1;
        Ok(())
    }

    /// The pair of a number has no entry any more.
    pub(crate) fn clear(&mut self, number: usize)
        requires { number < length self.old }
        ensures { self.new ≡ slice_set self.old number None }
    {
        self.numbers[number] = 0;
    }
}
