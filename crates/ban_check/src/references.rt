//! The references of a cover.

ghost use Rattle.std.specs.Prelude.{◌≡◌, ◌==◌, ◌↔◌, ℕ, IfOk, IsTrue, OnErr, OnOk, Some as There, if◌then◌else◌};
ghost use Rattle.account_core.specs.Covers.{IsReference};
ghost use Rattle.account_core.specs.Given.{ban_at};
ghost use Rattle.ban_check.specs.PairIndices.{AreMissing, kept_of};

use crate::given::Given;
use crate::missing::{Missing, is_all, missing_of};
use crate::ordered::OrderedPairs;
use crate::pair_index::PairIndex;
use circuits::Pair;
use indexmap::IndexMap;
use std::alloc::{AllocError, Global};
use std::marker::Model;

/// What was given, and the pairs of a ban whose cover is checked, beside which its references are looked at. What is
/// missing of a ban is found once, so that a reference costs one step, however many pairs both bans have.
#[derive(Drop)]
pub(crate) struct References<'a> {
    given: &'a Given,
    pairs: PairIndex<'a>,
    missing: IndexMap<u64, Missing>,
}

impl<'a> Model for References<'a> {
    ghost use Rattle.ban_check.specs.PairIndices.{AreKept, Beside};

    ghost Value = { Beside };

    ghost view = { λ a. record { given = a.given.now; pairs = a.pairs } };

    ghost invariant = { λ a. AreKept (record { given = a.given.now; pairs = a.pairs }) a.missing.entries };
}

impl<'a> References<'a> {
    /// The references of a cover whose ban has these pairs. None was looked at yet.
    pub(crate) fn new(
        alloc: Global,
        given: &'a Given,
        pairs: &OrderedPairs<'a>,
    ) -> Result<References<'a>, AllocError>
        ensures { IfOk result (λ references. references ≡ record { given = given.now; pairs = pairs.now }) }
    {
        let index = PairIndex::new(alloc, pairs)?;
        Ok(References {
            given,
            pairs: index,
            missing: IndexMap::new(alloc),
        })
    }

    /// Whether a reference fits a pair: none where the pair is impossible, else an earlier ban all of whose pairs are
    /// this one or among the checked ban's.
    pub(crate) fn fits(&mut self, pair: Pair, reference: Option<u64>) -> Result<bool, AllocError>
        ensures same { self.new ≡ self.old }
        ensures fits { IfOk result (λ fits. IsTrue fits ↔ IsReference self.old.given self.old.pairs pair reference) }
    {
        let impossible = self.pairs.clash_with(pair);
        let Some(ban) = reference else {
            return Ok(impossible);
        };
        if impossible {
            return Ok(false);
        }
        let missing = self.missing_of(ban)?;
        Ok(is_all(missing, pair))
    }

    // Which pairs of an earlier ban aren't among the checked one's. They are looked for once.
    fn missing_of(&mut self, ban: u64) -> Result<Missing, AllocError>
        ensures same { self.new ≡ self.old }
        ensures missing { IfOk result (AreMissing self.old.pairs (ban_at self.old.given ban)) }
    {
        if let Some(missing) = kept_of(&self.missing, ban) {
            return Ok(missing);
        }
        let missing = missing_of(&self.pairs, self.given.ban(ban));
        keep(&mut self.missing, ban, missing)?;
        Ok(missing)
    }
}

// What was found missing of a ban, if it was looked for.
fn kept_of(kept: &IndexMap<u64, Missing>, ban: u64) -> Option<Missing>
    ensures { result ≡ kept_of kept.now.entries ban }
{
    kept.get(&ban).copied()
}

// Keeps what is missing of a ban. When out of memory, nothing changes.
fn keep(kept: &mut IndexMap<u64, Missing>, ban: u64, missing: Missing) -> Result<(), AllocError>
    ensures kept { OnOk result ((other : ℕ) → kept_of kept.new.entries other
        ≡ (if ban == other then There missing else kept_of kept.old.entries other)) }
    ensures refused { OnErr result (kept.new.entries ≡ kept.old.entries) }
{
    kept.insert(ban, missing)?;
    Ok(())
}
