//! Bans of two pairs that decided claims tell apart, made where a cover refers to them.

ghost use Rattle.std.specs.Prelude.{◌≡◌, ◌∷◌, [], All, Contains, IfOk, IfSome, IsTrue};
ghost use Rattle.ban_book.specs.Covering.{Covers};
ghost use Rattle.pair_search.specs.Grounded.{MayAdd, in_order, mismatch_ban};

use account_core::{Ban, Step};
use ban_book::{BanBook, Unlike};
use circuits::{Pair, PortKind};
use indexmap::IndexMap;
use items::Few;
use std::alloc::{AllocError, Global};

/// The numbers of the bans that were made of mismatches, so that each is made once. What it says is tried, and not
/// trusted.
#[derive(Debug, Drop)]
pub struct Mismatches {
    /// By the deleted pair and the assigned one.
    numbers: IndexMap<(Pair, Pair), u64>,
}

impl Mismatches {
    /// No ban was made.
    pub fn new(alloc: Global) -> Mismatches {
        Mismatches {
            numbers: IndexMap::new(alloc),
        }
    }

    fn number(&self, way: Pair, with: Pair) -> Option<u64> {
        self.numbers.get(&(way, with)).copied()
    }

    fn keep(&mut self, way: Pair, with: Pair, number: u64) -> Result<(), AllocError> {
        self.numbers.insert((way, with), number)?;
        Ok(())
    }
}

/// The number of the ban of a deleted pair and an assigned one by two facts. It is made here, unless it was before.
pub(crate) fn keep_mismatch(
    alloc: Global,
    way: Pair,
    with: Pair,
    unlike: Unlike,
    made: &mut Mismatches,
    book: &mut BanBook,
) -> Result<u64, AllocError>
    ensures adds { MayAdd book.old (mismatch_ban way with unlike.fails unlike.holds) book.new }
    ensures covers { IfOk result (Covers book.new (way ∷ with ∷ [])) }
{
    if let Some(number) = made_before(made, book.bans(), way, with) {
        return Ok(number);
    }
    let ban = ban_of(alloc, way, with, unlike)?;
    let number = book.hold(ban)?;
    made.keep(way, with, number)?;
    Ok(number)
}

/// The number of a ban that was made of a way's mismatch with one of some pairs.
pub(crate) fn made_beside(made: &Mismatches, bans: &[Ban], way: Pair, pairs: &[Pair]) -> Option<u64>
    ensures { IfSome result (Covers bans.now (way ∷ pairs.now)) }
{
    for with in pairs.iter() {
        if let Some(number) = made_before(made, bans, way, *with) {
            return Some(number);
        }
    }
    None
}

// The number of a ban of two pairs that was made before.
fn made_before(made: &Mismatches, bans: &[Ban], way: Pair, with: Pair) -> Option<u64>
    ensures { IfSome result (Covers bans.now (way ∷ with ∷ [])) }
{
    let number = made.number(way, with)?;
    if excludes(bans, number, way, with) {
        return Some(number);
    }
    None
}

// Whether a ban has no other pairs than these two.
fn excludes(bans: &[Ban], number: u64, one: Pair, other: Pair) -> bool
    ensures { IsTrue result → Covers bans.now (one ∷ other ∷ []) number }
{
    if number >= bans.len() as u64 {
        return false;
    }
    are_of(&bans[number as usize].pairs, one, other)
}

fn are_of(pairs: &[Pair], one: Pair, other: Pair) -> bool
    ensures { IsTrue result → All (Contains (one ∷ other ∷ [])) pairs.now }
{
    for pair in pairs.iter() {
        if !is_of(*pair, one, other) {
            return false;
        }
    }
    true
}

fn is_of(pair: Pair, one: Pair, other: Pair) -> bool
    ensures { IsTrue result → Contains (one ∷ other ∷ []) pair }
{
    if pair == one {
        return true;
    }
    pair == other
}

// The ban of a deleted pair and an assigned one by two facts.
fn ban_of(alloc: Global, way: Pair, with: Pair, unlike: Unlike) -> Result<Ban, AllocError>
    ensures { IfOk result (λ ban. ban ≡ mismatch_ban way with unlike.fails unlike.holds) }
{
    let Unlike { fails, holds } = unlike;
    let pairs = in_order(alloc, way, with)?;
    Ok(Ban {
        pairs,
        step: Step::Mismatch { fails, holds },
    })
}

// A pair and one of the other kind, the input's first.
fn in_order(alloc: Global, pair: Pair, with: Pair) -> Result<Few<Pair, 8>, AllocError>
    ensures { IfOk result (λ pairs. pairs ≡ in_order pair.kind pair with) }
{
    match pair.kind {
        PortKind::Input => Few::from_slice(alloc, &[pair, with]),
        PortKind::Output => Few::from_slice(alloc, &[with, pair]),
    }
}
