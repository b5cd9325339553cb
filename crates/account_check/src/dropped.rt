//! The facts and bans that were dropped.

ghost use Rattle.std.specs.Prelude.{◌≡◌, ◌<◌, ◌↔◌, All, IsTrue, OnErr, OnOk, length, take};
ghost use Rattle.account_check.specs.Drops.{AreNamesKept, IsReferenceUnmarked, IsUnmarked, marked, nothing_dropped};
ghost use Rattle.account_check.specs.Drops.{without_ban, without_fact};

use account_core::Step;
use items::Items;
use std::alloc::{AllocError, Global};
use std::marker::Model;

/// Which facts and bans were dropped: a mark for each, up to the last that was.
#[derive(Drop)]
pub(crate) struct Dropped {
    facts: Items<bool>,
    bans: Items<bool>,
}

impl Model for Dropped {
    ghost use Rattle.account_check.specs.Drops.{Dropped as AnyDropped};

    ghost Value = { AnyDropped };

    ghost view = { λ a. record { facts = a.facts; bans = a.bans } };
}

impl Dropped {
    /// Nothing was dropped.
    pub(crate) fn new(alloc: Global) -> Dropped
        ensures { result ≡ nothing_dropped }
    {
        Dropped {
            facts: Items::new(alloc),
            bans: Items::new(alloc),
        }
    }

    /// Whether a fact wasn't dropped.
    pub(crate) fn keeps_fact(&self, fact: u64) -> bool
        ensures { IsTrue result ↔ IsUnmarked self.now.facts fact }
    {
        is_unmarked(&self.facts, fact)
    }

    /// Whether a ban wasn't dropped.
    pub(crate) fn keeps_ban(&self, ban: u64) -> bool
        ensures { IsTrue result ↔ IsUnmarked self.now.bans ban }
    {
        is_unmarked(&self.bans, ban)
    }

    /// Whether no fact and no ban that a step names was dropped.
    pub(crate) fn keeps_names(&self, step: &Step) -> bool
        ensures { IsTrue result ↔ AreNamesKept self.now step.now }
    {
        match step {
            Step::Vector { .. } => true,
            Step::Mismatch { fails, holds } => {
                is_unmarked(&self.facts, *fails) & is_unmarked(&self.facts, *holds)
            }
            Step::Tally { have, lack, .. } => {
                are_unmarked(&self.facts, have) & are_unmarked(&self.facts, lack)
            }
            Step::Cover { refs, .. } => are_references_unmarked(&self.bans, refs),
        }
    }

    /// Drops a fact.
    ///
    /// # Errors
    ///
    /// Only when out of memory; then nothing changes, here and below.
    pub(crate) fn drop_fact(&mut self, fact: u64) -> Result<(), AllocError>
        ensures dropped { OnOk result (self.new ≡ without_fact self.old fact) }
        ensures unchanged { OnErr result (self.new ≡ self.old) }
    {
        mark(&mut self.facts, fact)
    }

    /// Drops a ban.
    pub(crate) fn drop_ban(&mut self, ban: u64) -> Result<(), AllocError>
        ensures dropped { OnOk result (self.new ≡ without_ban self.old ban) }
        ensures unchanged { OnErr result (self.new ≡ self.old) }
    {
        mark(&mut self.bans, ban)
    }
}

// Whether a number isn't marked.
fn is_unmarked(marks: &[bool], number: u64) -> bool
    ensures { IsTrue result ↔ IsUnmarked marks.now number }
{
    if number >= marks.len() as u64 {
        return true;
    }
    !marks[number as usize]
}

// Whether none of some numbers is marked.
fn are_unmarked(marks: &[bool], numbers: &[u64]) -> bool
    ensures { IsTrue result ↔ All (IsUnmarked marks.now) numbers.now }
{
    numbers.iter().all(|number| is_unmarked(marks, *number))
}

// Whether none of the numbers that are referred to is marked.
fn are_references_unmarked(marks: &[bool], refs: &[Option<u64>]) -> bool
    ensures { IsTrue result ↔ All (IsReferenceUnmarked marks.now) refs.now }
{
    refs.iter()
        .all(|reference| is_reference_unmarked(marks, *reference))
}

// Whether the number that is referred to isn't marked, if there is one.
fn is_reference_unmarked(marks: &[bool], reference: Option<u64>) -> bool
    ensures { IsTrue result ↔ IsReferenceUnmarked marks.now reference }
{
    match reference {
        Some(number) => is_unmarked(marks, number),
        None => true,
    }
}

// Marks one number more.
fn mark(marks: &mut Items<bool>, number: u64) -> Result<(), AllocError>
    ensures marked { OnOk result (marks.new ≡ marked marks.old number) }
    ensures refused { OnErr result (marks.new ≡ marks.old) }
{
    let count = marks.len();
    if let Err(stop) = lengthen(marks, number) {
        marks.truncate(count);
        return Err(stop);
    }
    marks.set(number as usize, true);
    Ok(())
}

// Adds marks of numbers that aren't marked, up to this one's.
fn lengthen(marks: &mut Items<bool>, number: u64) -> Result<(), AllocError>
    ensures before { take (length marks.old) marks.new ≡ marks.old }
    ensures same { marked marks.new number ≡ marked marks.old number }
    ensures there { OnOk result (number < length marks.new) }
{
    while marks.len() as u64 <= number {
        marks.push(false)?;
    }
    Ok(())
}
