//! Where the facts, the bans and the lines of a log stand that a record of an account may name.

ghost use Rattle.std.specs.Prelude.{◌≡◌, ◌<◌, ◌^◌, OnOk};
ghost use Rattle.account_file.specs.declared.record.Record.TheVariants as record_of;
ghost use Rattle.account_trim.specs.Places.{claim_base, match_base, no_places, with_conclusion, with_fact};
ghost use Rattle.account_trim.specs.Places.{with_line, with_one};

use account_core::{Conclusion, FactHead};
use account_file::Record;
use claim_core::Claim;
use cnf_core::LogLine;
use items::Items;
use net_core::Graphs;
use std::alloc::{AllocError, Global};

/// What stands where, after some records of an account. Records are counted from 0.
#[derive(Drop)]
pub struct Places {
    /// For each fact the line that gives it: where it holds, the last line of its log.
    pub(crate) facts: Items<u64>,
    pub(crate) bans: Items<u64>,
    /// The fact whose log is open.
    pub(crate) owner: Option<u64>,
    /// The first line of the log that was begun last, and the number that this line has in hints.
    pub(crate) start: u64,
    pub(crate) base: u64,
}

impl Places {
    /// Before the first record.
    pub(crate) fn new(alloc: Global) -> Places
        ensures { result ≡ no_places }
    {
        Places {
            facts: Items::new(alloc),
            bans: Items::new(alloc),
            owner: None,
            start: 0,
            base: 0,
        }
    }

    /// After the record of a place.
    pub(crate) fn add(
        &mut self,
        graphs: &Graphs<'_>,
        place: u64,
        entry: &Record,
    ) -> Result<(), AllocError>
        requires { place < 2 ^ 63 }
        ensures { OnOk result (self.new ≡ with_one graphs.now self.old place entry.now) }
    {
        match entry {
            Record::Header => Ok(()),
            Record::Fact(head) => self.add_fact(graphs, place, head),
            Record::Line(line) => self.add_line(place, line),
            Record::Ban(_) => {
                self.bans.push(place)?;
                Ok(())
            }
            Record::Conclusion(conclusion) => {
                self.conclude(graphs, place, conclusion);
                Ok(())
            }
            Record::DropFact(_) | Record::DropBan(_) => {
                // no log goes on over a drop
                self.start = place + 1;
                Ok(())
            }
            Record::End => Ok(()),
        }
    }

    // After a fact, whose log follows where it holds.
    fn add_fact(
        &mut self,
        graphs: &Graphs<'_>,
        place: u64,
        head: &FactHead,
    ) -> Result<(), AllocError>
        requires { place < 2 ^ 63 }
        ensures { OnOk result (self.new ≡ with_fact graphs.now self.old place head.now) }
    {
        match head {
            FactHead::Fails { claim: _, bits: _ } => {
                self.facts.push(place)?;
                Ok(())
            }
            FactHead::Holds { claim } => {
                self.owner = Some(place);
                self.start = place + 1;
                self.base = claim_base(graphs, claim);
                Ok(())
            }
        }
    }

    // After a line of a log.
    fn add_line(&mut self, place: u64, line: &LogLine) -> Result<(), AllocError>
        requires { place < 2 ^ 63 }
        ensures { OnOk result (self.new ≡ with_line self.old place line.now) }
    {
        if !line.clause.is_empty() {
            return Ok(());
        }
        if self.owner.is_some() {
            self.facts.push(place)?;
        }
        self.owner = None;
        self.start = place + 1;
        Ok(())
    }

    // After a conclusion. The logs of a match follow.
    fn conclude(&mut self, graphs: &Graphs<'_>, place: u64, conclusion: &Conclusion)
        requires { place < 2 ^ 63 }
        ensures { self.new ≡ with_conclusion graphs.now self.old place conclusion.now }
    {
        if let Conclusion::Match(_) = conclusion {
            self.start = place + 1;
            self.base = match_base(graphs);
        }
    }
}

// How many clauses the query of a claim has.
fn claim_base(graphs: &Graphs<'_>, claim: &Claim) -> u64
    ensures { result ≡ claim_base graphs.now claim.now }
{
    let graph = graphs.side(claim.side);
    3 + 3 * (graph.gates().len() as u64 + graph.gates().len() as u64)
}

// How many clauses each query of a match has.
fn match_base(graphs: &Graphs<'_>) -> u64
    ensures { result ≡ match_base graphs.now }
{
    3 + 3 * (graphs.first().gates().len() as u64 + graphs.second().gates().len() as u64)
}
