//! The facts and bans that were given.

ghost use Rattle.std.specs.Prelude.{◌≡◌, ◌-◌, ◌↔◌, [], IfOk, IsTrue, OnOk, OnErr, length, take};
ghost use Rattle.account_core.specs.Given.{ban_at, fact_at, IsBanGiven, IsFactGiven};
ghost use Rattle.ban_check.specs.Kept.{pairs_kept};
ghost use Rattle.ban_check.specs.More.{with_ban, with_fact, without_pairs};

use circuits::{Pair, PortKind};
use claim_core::{Claim, Shape};
use items::Items;
use net_core::Side;
use std::alloc::{AllocError, Global};
use std::marker::Model;

/// A fact that was given: a claim, and whether it holds.
#[derive(Clone, Copy, Debug, Drop)]
pub(crate) struct GivenFact {
    pub(crate) claim: Claim,
    pub(crate) holds: bool,
}

/// What is kept of a ban: its pairs, till it is dropped. They are a list of their own, whose memory is given back then;
/// pairs that stood in the list of bans would go on to take it.
#[derive(Debug, Drop)]
pub(crate) enum KeptBan {
    Pairs(Items<Pair>),
    Dropped,
}

/// Two pairs that no match has both of.
static CLASHING_PAIRS: [Pair; 2] = [
    Pair {
        kind: PortKind::Input,
        from: 0,
        to: 0,
        flip: false,
    },
    Pair {
        kind: PortKind::Input,
        from: 0,
        to: 0,
        flip: true,
    },
];

impl KeptBan {
    // Its pairs; once it is dropped, two that no match has both of.
    fn pairs(&self) -> &[Pair]
        ensures { result.now ≡ pairs_kept self.now }
    {
        match self {
            KeptBan::Pairs(pairs) => pairs,
            KeptBan::Dropped => &CLASHING_PAIRS,
        }
    }
}

/// The facts, and the pairs of the bans, each numbered from 0 in its own order.
#[derive(Drop)]
pub struct Given {
    facts: Items<GivenFact>,
    bans: Items<KeptBan>,
}

impl Model for Given {
    ghost use Rattle.account_core.specs.Given.{Given as AnyGiven};
    ghost use Rattle.ban_check.specs.Kept.{decided_claims, pairs_of_each};

    ghost Value = { AnyGiven };

    ghost view = { λ a. record { facts = decided_claims a.facts; bans = pairs_of_each a.bans } };
}

impl Given {
    /// Nothing was given.
    pub fn new(alloc: Global) -> Given
        ensures facts { result.facts ≡ [] }
        ensures bans { result.bans ≡ [] }
    {
        Given {
            facts: Items::new(alloc),
            bans: Items::new(alloc),
        }
    }

    /// Whether there is a fact of this number.
    pub fn has_fact(&self, number: u64) -> bool
        ensures { IsTrue result ↔ IsFactGiven self.now number }
    {
        number < self.facts.len() as u64
    }

    /// Whether there is a ban of this number.
    pub fn has_ban(&self, number: u64) -> bool
        ensures { IsTrue result ↔ IsBanGiven self.now number }
    {
        number < self.bans.len() as u64
    }

    /// The fact of a number; where there is none, one that says nothing of use.
    pub(crate) fn fact(&self, number: u64) -> GivenFact
        ensures claim { result.claim ≡ (fact_at self.now number).claim }
        ensures holds { result.holds ≡ (fact_at self.now number).holds }
    {
        if number >= self.facts.len() as u64 {
            return GivenFact {
                claim: Claim {
                    side: Side::First,
                    output: 0,
                    shape: Shape::Up(0),
                },
                holds: true,
            };
        }
        self.facts[number as usize]
    }

    /// The pairs of the ban of a number; where there is none, no pairs.
    pub fn ban(&self, number: u64) -> &[Pair]
        ensures { result.now ≡ ban_at self.now number }
    {
        if number >= self.bans.len() as u64 {
            return &[];
        }
        self.bans[number as usize].pairs()
    }

    /// Adds a fact.
    ///
    /// # Errors
    ///
    /// Only when out of memory; then nothing changes.
    pub fn add_fact(&mut self, claim: Claim, holds: bool) -> Result<(), AllocError>
        ensures added { OnOk result (self.new ≡ with_fact self.old claim holds) }
        ensures unchanged { OnErr result (self.new ≡ self.old) }
    {
        self.facts.push(GivenFact { claim, holds })?;
        Ok(())
    }

    /// Takes the last fact back, if there is one.
    pub fn forget_fact(&mut self)
        ensures facts { self.new.facts ≡ take (length self.old.facts - 1) self.old.facts }
        ensures bans { self.new.bans ≡ self.old.bans }
    {
        // the fact that is taken back is dropped
        let _last = self.facts.pop();
    }

    /// Adds a ban.
    ///
    /// # Errors
    ///
    /// Only when out of memory; then nothing changes.
    pub fn add_ban(&mut self, alloc: Global, pairs: &[Pair]) -> Result<(), AllocError>
        ensures added { OnOk result (self.new ≡ with_ban self.old pairs.now) }
        ensures unchanged { OnErr result (self.new ≡ self.old) }
    {
        let pairs = Items::from_slice(alloc, pairs)?;
        self.bans.push(KeptBan::Pairs(pairs))?;
        Ok(())
    }

    /// Forgets the pairs of a ban, whose memory is given back: in their place stand two that no match has both of.
    pub fn forget_ban(&mut self, number: u64)
        requires { IsBanGiven self.old number }
        ensures { self.new ≡ without_pairs self.old number }
    {
        self.bans.set(number as usize, KeptBan::Dropped);
    }
}
