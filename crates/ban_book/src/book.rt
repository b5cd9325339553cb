//! The book of bans, and how they are looked up.

ghost use Rattle.std.specs.Prelude.{◌≡◌, ◌↔◌, [], ◌∷◌, ◌++◌, All, Contains, IfNone, IfOk, IfSome, IsTrue, OnErr, OnOk};
ghost use Rattle.std.specs.Prelude.{length};
ghost use Rattle.ban_book.specs.Chains.{HasNoneWithin, first_of};
ghost use Rattle.ban_book.specs.Covering.{Covers, IsWithin};

use account_core::Ban;
use circuits::Pair;
use indexmap::IndexMap;
use items::Items;
use std::alloc::{AllocError, Global};
use std::marker::Model;

/// The bans that were made, in that order, each under its number, from 0. Contracts see the list of them. The book
/// promises nothing of their steps: it doesn't know the circuits and the facts by which these are valid.
///
/// A ban is found by its first pair: the bans with the same first pair are linked in a chain, the latest first, and so
/// are those without pairs.
#[derive(Debug)]
pub struct BanBook {
    bans: Vec<Ban>,
    /// The latest ban of each chain.
    heads: IndexMap<Option<Pair>, u64>,
    /// For each ban the one made before it in its chain.
    before: Vec<Option<u64>>,
}

// By hand, so that each exit of a function has one call for it (docs/IDIOMS.md).
impl Drop for BanBook {
    fn drop(self) {
        let BanBook {
            bans: _bans,
            heads: _heads,
            before: _before,
        } = self;
    }
}

impl Model for BanBook {
    ghost use Rattle.std.specs.Prelude.{List};
    ghost use Rattle.account_core.specs.declared.step.Ban.{Ban as AnyBan};
    ghost use Rattle.ban_book.specs.Chains.{AreChained, last_of};

    ghost Value = { List AnyBan };

    ghost view = { λ a. a.bans.items };

    ghost invariant = { λ a. AreChained a.bans.items (last_of a.heads.entries) a.before.items };
}

impl BanBook {
    /// A book without bans.
    pub fn new(alloc: Global) -> BanBook
        ensures { result ≡ [] }
    {
        BanBook {
            bans: Vec::new(alloc),
            heads: IndexMap::new(alloc),
            before: Vec::new(alloc),
        }
    }

    /// Keeps a ban under the next number, and answers that. Where memory runs out nothing changes.
    pub fn hold(&mut self, ban: Ban) -> Result<u64, AllocError>
        ensures number { IfOk result (λ number. number ≡ length self.old) }
        ensures added { OnOk result (self.new ≡ self.old ++ ban ∷ []) }
        ensures refused { OnErr result (self.new ≡ self.old) }
    {
        self.bans.reserve(1)?;
        self.before.reserve(1)?;
        let number = self.bans.len() as u64;
        let before = self.heads.insert(first_of(&ban), number)?;
        self.before.push_reserved(before);
        self.bans.push_reserved(ban);
        Ok(number)
    }

    /// The number of a ban that excludes the pairs: all of its own pairs are among them. None exactly where no ban
    /// does.
    pub fn covering(&self, pairs: &[Pair]) -> Option<u64>
        ensures found { IfSome result (Covers self.now pairs.now) }
        ensures none { IfNone result (All (λ ban. IsWithin pairs.now ban → ⊥) self.now) }
    {
        if let Some(ban) = self.last_within(None, pairs) {
            return Some(ban);
        }
        for pair in pairs.iter() {
            if let Some(ban) = self.last_within(Some(*pair), pairs) {
                return Some(ban);
            }
        }
        None
    }

    // The latest ban of a chain whose pairs are all among these.
    fn last_within(&self, first: Option<Pair>, pairs: &[Pair]) -> Option<u64>
        ensures found { IfSome result (Covers self.now pairs.now) }
        ensures none { IfNone result (HasNoneWithin self.now first pairs.now) }
    {
        let mut next = self.heads.get(&first).copied();
        while let Some(number) = next {
            if is_within(pairs, &self.bans[number as usize]) {
                return Some(number);
            }
            next = self.before[number as usize];
        }
        None
    }

    /// The bans, in the order of their numbers.
    pub fn bans(&self) -> &[Ban]
        ensures { result.now ≡ self.now }
    {
        self.bans.as_slice()
    }

    /// The bans, in the order of their numbers, out of the book.
    pub fn into_bans(self) -> Items<Ban>
        ensures { result ≡ self }
    {
        let BanBook {
            bans,
            heads: _heads,
            before: _before,
        } = self;
        Items::from_vec(bans)
    }
}

fn first_of(ban: &Ban) -> Option<Pair>
    ensures { result ≡ first_of ban.now }
{
    ban.pairs.first().copied()
}

// Whether all pairs of a ban are among the given ones.
fn is_within(pairs: &[Pair], ban: &Ban) -> bool
    ensures { IsTrue result ↔ IsWithin pairs.now ban.now }
{
    are_among(pairs, &ban.pairs)
}

fn are_among(pairs: &[Pair], others: &[Pair]) -> bool
    ensures { IsTrue result ↔ All (Contains pairs.now) others.now }
{
    for other in others.iter() {
        if !contains(pairs, *other) {
            return false;
        }
    }
    true
}

/// Whether a list has a pair. A scan: bans and matchings in the making have few pairs.
pub fn contains(pairs: &[Pair], pair: Pair) -> bool
    ensures { IsTrue result ↔ Contains pairs.now pair }
{
    pairs.contains(&pair)
}
