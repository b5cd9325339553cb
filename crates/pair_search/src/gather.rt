//! The pairs that deleted ways need.

ghost use Rattle.std.specs.Prelude.{◌≡◌, ◌↔◌, All, AllPairs, Contains, IfOk, IsTrue, OnOk, Some};
ghost use Rattle.account_core.specs.Covers.{IsImpossible};
ghost use Rattle.account_core.specs.Assigned.{AddsAssigned, AreApart, IsPart};
ghost use Rattle.pair_domains.specs.Trails.{IsPairOf};
ghost use Rattle.pair_search.specs.Named.{AreAllGathered, AreAllNamed, AreNamed, IsGathered, IsLeftOutOr, IsNamedIn};

use crate::mismatch::{Mismatches, made_beside};
use crate::view::TrailView;
use account_core::Ban;
use ban_book::clash::clashing;
use ban_book::cover::{add_assigned, add_others};
use circuits::Pair;
use pair_domains::Reason;
use std::alloc::AllocError;

/// Adds assigned pairs to those of a conflict, until all of some ways but one that is left out are impossible beside
/// them, or were deleted for a reason that names none but them. The pairs come from those that are assigned, and each
/// way was deleted for a reason that names assigned pairs alone. A way that is impossible beside the conflict's pairs
/// needs none, nor does one that a ban of a mismatch excludes beside one of them: for each such way that ban's number
/// is answered.
pub(crate) fn gather(
    view: &TrailView<'_>,
    bans: &[Ban],
    ways: &[Pair],
    skipped: Option<Pair>,
    made: &Mismatches,
    conflict: &mut Vec<Pair>,
) -> Result<Vec<Option<u64>>, AllocError>
    requires known { All (IsPairOf view.now.domains.now.inputs view.now.domains.now.outputs) ways.now }
    requires apart { AllPairs AreApart view.now.assigned.now }
    requires named { AreAllNamed bans.now view.now.domains.now.entries ways.now skipped view.now.assigned.now }
    requires part { IsPart view.now.assigned.now conflict.old.items }
    ensures adds { OnOk result (AddsAssigned view.now.assigned.now conflict.old.items conflict.new.items) }
    ensures gathered { IfOk result (λ noted.
        AreAllGathered bans.now view.now.domains.now.entries ways.now skipped conflict.new.items noted.items) }
{
    let mut noted = Vec::new(view.alloc);
    for way in ways.iter() {
        let number = gather_way(view, bans, *way, skipped, made, conflict)?;
        noted.push(number)?;
    }
    Ok(noted)
}

// Adds the pairs that one way needs, if it isn't left out. Answers the number of a ban by which it needs none.
fn gather_way(
    view: &TrailView<'_>,
    bans: &[Ban],
    way: Pair,
    skipped: Option<Pair>,
    made: &Mismatches,
    conflict: &mut Vec<Pair>,
) -> Result<Option<u64>, AllocError>
    requires known { IsPairOf view.now.domains.now.inputs view.now.domains.now.outputs way }
    requires apart { AllPairs AreApart view.now.assigned.now }
    requires named { IsLeftOutOr skipped way
        (IsNamedIn bans.now view.now.domains.now.entries view.now.assigned.now way) }
    requires part { IsPart view.now.assigned.now conflict.old.items }
    ensures adds { OnOk result (AddsAssigned view.now.assigned.now conflict.old.items conflict.new.items) }
    ensures gathered { IfOk result (λ number.
        IsLeftOutOr skipped way (IsGathered bans.now view.now.domains.now.entries conflict.new.items way number)) }
{
    if is_left_out(skipped, way) {
        return Ok(None);
    }
    if is_impossible(conflict, way) {
        return Ok(None);
    }
    if let Some(number) = made_beside(made, bans, way, conflict) {
        return Ok(Some(number));
    }
    // no pair has two entries
    let _lawful = view.domains.entries();
    let Some(reason) = view.domains.reason(way) else {
        unreachable!()
    };
    add_named(view.assigned, bans, way, reason, conflict)?;
    Ok(None)
}

fn is_left_out(skipped: Option<Pair>, way: Pair) -> bool
    ensures { IsTrue result ↔ (skipped ≡ Some way) }
{
    match skipped {
        Some(pair) => pair == way,
        None => false,
    }
}

/// Whether a way clashes with one of a conflict's pairs.
pub(crate) fn is_impossible(conflict: &[Pair], way: Pair) -> bool
    ensures { IsTrue result ↔ IsImpossible conflict.now way }
{
    clashing(conflict, way).is_some()
}

// Adds the pairs that the reason of a deleted way names.
fn add_named(
    assigned: &[Pair],
    bans: &[Ban],
    way: Pair,
    reason: Reason,
    conflict: &mut Vec<Pair>,
) -> Result<(), AllocError>
    requires apart { AllPairs AreApart assigned.now }
    requires named { AreNamed bans.now assigned.now way reason }
    requires part { IsPart assigned.now conflict.old.items }
    ensures adds { OnOk result (AddsAssigned assigned.now conflict.old.items conflict.new.items) }
    ensures named { OnOk result (AreNamed bans.now conflict.new.items way reason) }
{
    match reason {
        Reason::Clash(with) => add_assigned(conflict, assigned, with),
        Reason::Ban(ban) => add_others(conflict, assigned, way, &bans[ban as usize].pairs),
        Reason::Mismatch { with, .. } => add_assigned(conflict, assigned, with),
    }
}
