//! Pairs that a ban needs, in the order that bans have.

ghost use Rattle.std.specs.Prelude.{◌≡◌, ◌≢◌, ◌⊎◌, ◌≤◌, All, Contains, IfNone, IfSome, IsTrue, OnOk, ◌↔◌, ◌<◌, length};
ghost use Rattle.std.specs.Prelude.{slice_index_or, take};
ghost use Rattle.circuits.specs.declared.port.Pair.{Pair as AnyPair};
ghost use Rattle.account_core.specs.Ports.{AreOrdered};
ghost use Rattle.account_core.specs.Assigned.{AreApart, StandsBefore};

use circuits::{Pair, PortKind};
use std::alloc::AllocError;

/// Adds a pair at its place in the order, unless it is there.
pub fn add(needed: &mut Vec<Pair>, pair: Pair) -> Result<(), AllocError>
    requires ordered { AreOrdered needed.old.items }
    requires apart { All (λ other. (other ≡ pair) ⊎ AreApart other pair) needed.old.items }
    ensures ordered { OnOk result (AreOrdered needed.new.items) }
    ensures stays { OnOk result (All (Contains needed.new.items) needed.old.items) }
    ensures added { OnOk result (Contains needed.new.items pair) }
    ensures only { OnOk result (All (λ other. Contains needed.old.items other ⊎ (other ≡ pair)) needed.new.items) }
{
    let place = place_for(needed, pair);
    if has_at(needed, place, pair) {
        return Ok(());
    }
    needed.insert(place, pair)?;
    Ok(())
}

/// Where a pair stands, if it is there. It goes over the list, as leaving the pair out does.
pub fn place_of(pairs: &[Pair], pair: Pair) -> Option<usize>
    ensures found { IfSome result (λ place. place < length pairs.now) }
    ensures is { IfSome result (λ place. slice_index_or pairs.now place pair ≡ pair) }
    ensures none { IfNone result (All (λ other. other ≢ pair) pairs.now) }
{
    for (place, other) in pairs.iter().enumerate() {
        if *other == pair {
            return Some(place);
        }
    }
    None
}

// How many of the pairs stand before a pair. It goes over the list, as putting the pair in does.
fn place_for(pairs: &[Pair], pair: Pair) -> usize
    ensures within { result ≤ length pairs.now }
    ensures before { All (λ other. StandsBefore other pair) (take result pairs.now) }
    ensures after { (d : AnyPair) → result < length pairs.now
        → StandsBefore (slice_index_or pairs.now result d) pair → ⊥ }
{
    for (place, other) in pairs.iter().enumerate() {
        if !stands_before(*other, pair) {
            return place;
        }
    }
    pairs.len()
}

// Whether a pair stands at a place.
fn has_at(pairs: &[Pair], place: usize, pair: Pair) -> bool
    ensures { IsTrue result ↔ ((place < length pairs.now) × (slice_index_or pairs.now place pair ≡ pair)) }
{
    match pairs.get(place) {
        Some(other) => *other == pair,
        None => false,
    }
}

// Whether a pair stands before another: inputs come first, and ports of a kind ascend.
fn stands_before(one: Pair, other: Pair) -> bool
    ensures { IsTrue result ↔ StandsBefore one other }
{
    match (one.kind, other.kind) {
        (PortKind::Input, PortKind::Output) => true,
        (PortKind::Output, PortKind::Input) => false,
        _ => one.from < other.from,
    }
}
