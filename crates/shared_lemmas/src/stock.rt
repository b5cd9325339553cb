//! Lines that are kept.

ghost use Rattle.std.specs.Prelude.{◌≡◌, []};

use claim_core::Query;
use cnf_core::{LogLine, SatLit};
use indexmap::IndexMap;
use std::alloc::{AllocError, Global};

/// The places of lines of two literals. They are found by these: the lemmas by which two gates are one come again with
/// each question.
#[derive(Drop)]
pub(crate) struct Twins {
    places: IndexMap<(SatLit, SatLit), usize>,
}

impl Twins {
    /// No lines.
    pub(crate) fn new(alloc: Global) -> Twins {
        Twins {
            places: IndexMap::new(alloc),
        }
    }

    /// The place of a line with this clause, if it has two literals and was added.
    pub(crate) fn place_of(&self, clause: &[SatLit]) -> Option<usize> {
        let [one, other] = clause else {
            return None;
        };
        self.places.get(&(*one, *other)).copied()
    }

    /// Adds the lines from a place on that have two literals.
    pub(crate) fn add_all(&mut self, lines: &[LogLine], from: usize) -> Result<(), AllocError> {
        for (place, line) in lines.iter().enumerate().skip(from) {
            self.add(&line.clause, place)?;
        }
        Ok(())
    }

    fn add(&mut self, clause: &[SatLit], place: usize) -> Result<(), AllocError> {
        if let [one, other] = clause {
            self.places.insert((*one, *other), place)?;
        }
        Ok(())
    }
}

/// Lines that are derived under the feeds of a query, whatever is asked of the outputs. It has lists and maps alone,
/// and no enum: whoever owns a stock drops each of these in one step.
#[derive(Drop)]
pub(crate) struct Stock {
    /// The query that was asked last, if one was: under its feeds the lines are derived.
    pub(crate) last_query: Vec<Query>,
    pub(crate) lines: Vec<LogLine>,
    pub(crate) twins: Twins,
    /// How many lines questions got as lemmas, also of feeds that were left.
    pub(crate) given: u64,
}

impl Stock {
    /// No lines, where questions got this many before.
    pub(crate) fn new(alloc: Global, given: u64) -> Stock
        ensures last_query { result.last_query.items ≡ [] }
        ensures lines { result.lines.items ≡ [] }
    {
        Stock {
            last_query: Vec::new(alloc),
            lines: Vec::new(alloc),
            twins: Twins::new(alloc),
            given,
        }
    }
}
