//! Bans all of whose pairs are assigned, or all but one.

ghost use Rattle.std.specs.Prelude.{◌≡◌, ◌<◌, ◌∷◌, All, Contains, IfNone, IfOk, IsTrue, OnOk, length};
ghost use Rattle.ban_book.specs.Covering.{Covers};
ghost use Rattle.pair_domains.specs.Trails.{IsOpen, IsPairOf, assigned_in};
ghost use Rattle.pair_search.specs.Justified.{IsJustifiedTrail};
ghost use Rattle.pair_search.specs.Progress.{Propagates};

use account_core::Ban;
use circuits::Pair;
use net_core::Side;
use pair_domains::{Domains, Reason};
use std::alloc::AllocError;

/// Where all pairs of a ban but one are assigned, and that one is open, deletes it. It answers whether all are
/// assigned.
pub(crate) fn apply(domains: &mut Domains, bans: &[Ban], number: u64) -> Result<bool, AllocError>
    requires there { number < length bans.now }
    requires justified { IsJustifiedTrail bans.now domains.old }
    ensures propagates { OnOk result (Propagates bans.now domains.old domains.new) }
    ensures all { IfOk result (λ all. IsTrue all → Covers bans.now (assigned_in domains.new.entries) number) }
{
    // no pair has two entries, and assigned pairs share no port
    let _lawful = domains.entries();
    let pairs = &bans[number as usize].pairs;
    let Some(way) = unassigned(domains, pairs) else {
        return Ok(true);
    };
    if is_open(domains, way) & are_others_assigned(domains, pairs, way) {
        domains.delete(way, Reason::Ban(number))?;
    }
    Ok(false)
}

// The first of some pairs that isn't assigned.
fn unassigned(domains: &Domains, pairs: &[Pair]) -> Option<Pair>
    ensures { IfNone result (All (Contains (assigned_in domains.now.entries)) pairs.now) }
{
    for pair in pairs.iter() {
        if !is_assigned(domains, *pair) {
            return Some(*pair);
        }
    }
    None
}

// Whether all of some pairs but one are assigned.
fn are_others_assigned(domains: &Domains, pairs: &[Pair], way: Pair) -> bool
    ensures { IsTrue result → All (Contains (way ∷ assigned_in domains.now.entries)) pairs.now }
{
    for pair in pairs.iter() {
        if !is_assigned_or(domains, *pair, way) {
            return false;
        }
    }
    true
}

// Whether a pair is assigned, or is this one.
fn is_assigned_or(domains: &Domains, pair: Pair, way: Pair) -> bool
    ensures { IsTrue result → Contains (way ∷ assigned_in domains.now.entries) pair }
{
    if pair == way {
        return true;
    }
    is_assigned(domains, pair)
}

/// Whether a pair is of ports that exist.
pub(crate) fn is_known(domains: &Domains, pair: Pair) -> bool
    ensures { IsTrue result → IsPairOf domains.now.inputs domains.now.outputs pair }
{
    let count = domains.ports(pair.kind);
    (pair.from < count) & (pair.to < count)
}

/// Whether a pair is assigned. No clause says when this is false: what isn't followed is found later.
pub(crate) fn is_assigned(domains: &Domains, pair: Pair) -> bool
    ensures known { IsTrue result → IsPairOf domains.now.inputs domains.now.outputs pair }
    ensures assigned { IsTrue result → Contains (assigned_in domains.now.entries) pair }
{
    if !is_known(domains, pair) {
        return false;
    }
    match domains.assigned(Side::First, pair.kind, pair.from) {
        Some(assigned) => assigned == pair,
        None => false,
    }
}

/// Whether a pair is of ports that exist, and neither assigned nor deleted. No clause says when this is false.
pub fn is_open(domains: &Domains, pair: Pair) -> bool
    ensures known { IsTrue result → IsPairOf domains.now.inputs domains.now.outputs pair }
    ensures is { IsTrue result → IsOpen domains.now.entries pair }
{
    if !is_known(domains, pair) {
        return false;
    }
    match domains.place(pair) {
        Some(_) => false,
        None => true,
    }
}
