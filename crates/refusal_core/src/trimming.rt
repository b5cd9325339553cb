ghost use Rattle.std.specs.Prelude.{◌≡◌, ◌<◌, All, IfOk, length, map};
ghost use Rattle.refusal_core.specs.Marks.{AreMarks};
ghost use Rattle.refusal_core.specs.Names.{ReferBack, bans_named, facts_named};
ghost use Rattle.refusal_core.specs.Numbered.{at, numbered_ban};
ghost use Rattle.refusal_core.specs.Trims.{IsTrimmed, kept};

use crate::keeping::keep_marked;
use crate::marking::{CoreMarks, needed};
use crate::numbering::{Numbers, numbers_by};
use crate::renumbering::renumber_all;
use account_core::{Ban, Fact};
use items::Items;
use std::alloc::{AllocError, Global};

/// The facts and bans that a ban rests on, with the number that it has among them.
#[derive(Debug, Drop)]
pub struct Core {
    pub facts: Items<Fact>,
    pub bans: Items<Ban>,
    pub number: u64,
}

/// Keeps of facts and bans what the ban of a number rests on: that ban, what its step names, what the steps of these
/// bans name, and so on, in their order and numbered again. What is kept stays in memory where it is.
pub fn trim(
    alloc: Global,
    facts: Items<Fact>,
    bans: Items<Ban>,
    number: u64,
) -> Result<Core, AllocError>
    requires earlier { ReferBack (length facts) bans }
    requires inside { number < length bans }
    ensures { IfOk result (IsTrimmed facts bans number) }
{
    let marks = needed(alloc, facts.len(), &bans, number as usize)?;
    let numbers = numbers_by(alloc, &marks)?;
    Ok(core_of(facts, bans, number, &marks, &numbers))
}

// The facts and bans that are marked, under their new numbers.
fn core_of(
    facts: Items<Fact>,
    bans: Items<Ban>,
    number: u64,
    marks: &CoreMarks,
    numbers: &Numbers,
) -> Core
    requires marks { AreMarks (length facts) (length bans) marks.now }
    requires facts { All (λ ban. All (λ k. k < length numbers.now.facts) (facts_named ban.step)) bans }
    requires bans { All (λ ban. All (λ k. k < length numbers.now.bans) (bans_named ban.step)) bans }
    requires inside { number < length numbers.now.bans }
    ensures facts { result.facts ≡ kept marks.now.facts.items facts }
    ensures bans { result.bans
        ≡ map (numbered_ban numbers.now.facts numbers.now.bans) (kept marks.now.bans.items bans) }
    ensures number { result.number ≡ at numbers.now.bans number }
{
    let mut facts = facts.into_vec();
    keep_marked(&mut facts, &marks.facts);
    let mut bans = bans.into_vec();
    keep_marked(&mut bans, &marks.bans);
    renumber_all(&mut bans, numbers);
    Core {
        facts: Items::from_vec(facts),
        bans: Items::from_vec(bans),
        number: numbers.bans[number as usize],
    }
}
