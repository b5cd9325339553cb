//! The ways that a port has left.

ghost use Rattle.std.specs.Prelude.{◌≡◌, ◌<◌, ◌≤◌, ◌*◌, ◌^◌, ℕ, ◌⊎◌, Contains, IfNone, IfOk, IfSome, IsTrue, List};
ghost use Rattle.std.specs.Prelude.{OnOk, false};
ghost use Rattle.account_core.specs.declared.step.Ban.{Ban as AnyBan};
ghost use Rattle.net_core.specs.declared.graphs.Side.TheVariants.{First, Second};
ghost use Rattle.ban_book.specs.Ways.{nth_way};
ghost use Rattle.account_core.specs.Tallies.{port_on};
ghost use Rattle.pair_domains.specs.Trails.{IsDeleted, IsFreePort, IsOpen, IsPairOf, assigned_in, ports_of};
ghost use Rattle.pair_search.specs.Justified.{IsJustifiedTrail};
ghost use Rattle.pair_search.specs.Named.{IsPortOf};
ghost use Rattle.pair_search.specs.Conflicts.{HasNoWay, IsConflict};
ghost use Rattle.pair_search.specs.Progress.{Propagates, StaysJustified, left};

use crate::conflict::Conflict;
use account_core::{Ban, Port};
use ban_book::ways::nth_way;
use circuits::Pair;
use net_core::Side;
use pair_domains::{Cause, Domains, Reason};
use std::alloc::AllocError;

/// Where a port has one way left, which is open, assigns it. It answers whether it has none.
pub(crate) fn apply_port(
    domains: &mut Domains,
    bans: &[Ban],
    port: Port,
) -> Result<bool, AllocError>
    requires there { IsPortOf domains.old port }
    requires justified { IsJustifiedTrail bans.now domains.old }
    ensures propagates { OnOk result (Propagates bans.now domains.old domains.new) }
    ensures none { IfOk result (λ none. IsTrue none → HasNoWay domains.new port) }
{
    // in view of the bans the trail is justified, before and after
    let _ = bans;
    // no pair has two entries, and ports are fewer than 2^32
    let _lawful = domains.entries();
    let _count = domains.ports(port.kind);
    let Some(number) = remaining(domains, port, 0) else {
        return Ok(true);
    };
    if let Some(_) = remaining(domains, port, number + 1) {
        return Ok(false);
    }
    let way = way_of(domains, port, number);
    if is_free(domains, way) {
        domains.assign(way, Cause::LastWay(port.side))?;
    }
    Ok(false)
}

/// Decides a port of which no pair is assigned: assigns the first of its ways that isn't deleted; or deletes it, if it
/// shares its other port with an assigned pair. It answers a conflict where all are deleted.
pub fn branch(domains: &mut Domains, port: Port) -> Result<Option<Conflict>, AllocError>
    requires there { IsPortOf domains.old port }
    requires free { IsFreePort domains.old.entries port.side port.kind port.number }
    ensures stays { (bans : List AnyBan)
        → IsJustifiedTrail bans domains.old
        → OnOk result (StaysJustified bans domains.old domains.new) }
    ensures less { IfOk result (λ found. IfNone found (left domains.new < left domains.old)) }
    ensures stuck { IfOk result (λ found. IfSome found (λ conflict. domains.new ≡ domains.old)) }
    ensures conflict { IfOk result (λ found. IfSome found (λ conflict.
        (bans : List AnyBan) → IsConflict bans domains.new conflict)) }
{
    // no pair has two entries
    let _lawful = domains.entries();
    // No way is preferred to the first one: what tells ways apart was tried by guesses before, and where there is no
    // match each way has to be excluded, in any order. No other order was measured.
    let Some(number) = remaining(domains, port, 0) else {
        return Ok(Some(Conflict::Port(port)));
    };
    let way = way_of(domains, port, number);
    match assigned_beside(domains, way) {
        None => {
            domains.assign(way, Cause::Choice)?;
            Ok(None)
        }
        Some(assigned) => {
            domains.delete(way, Reason::Clash(assigned))?;
            Ok(None)
        }
    }
}

/// A way of a port, by its number.
pub fn way_of(domains: &Domains, port: Port, number: u64) -> Pair
    requires there { IsPortOf domains.now port }
    requires below { number < 2 * ports_of domains.now.inputs domains.now.outputs port.kind }
    ensures value { result ≡ nth_way port.side port.kind port.number number }
    ensures known { IsPairOf domains.now.inputs domains.now.outputs result }
    ensures kind { result.kind ≡ port.kind }
    ensures port { port_on port.side result ≡ port.number }
{
    // ports are fewer than 2^32
    let _count = domains.ports(port.kind);
    nth_way(port.side, port.kind, port.number, number)
}

// The number of the first way of a port, from one on, that isn't deleted. All that it passes over were deleted one by
// one, and it is asked only where a port is decided, or has one way left at most.
fn remaining(domains: &Domains, port: Port, from: u64) -> Option<u64>
    requires there { IsPortOf domains.now port }
    ensures from { IfSome result (λ number. from ≤ number) }
    ensures below { IfSome result (λ number. number < 2 * ports_of domains.now.inputs domains.now.outputs port.kind) }
    ensures is { IfSome result (λ number.
        IsDeleted domains.now.entries (nth_way port.side port.kind port.number number) → ⊥) }
    ensures before { IfSome result (λ last. (number : ℕ) → from ≤ number → number < last
        → IsDeleted domains.now.entries (nth_way port.side port.kind port.number number)) }
    ensures none { IfNone result ((number : ℕ) → from ≤ number
        → number < 2 * ports_of domains.now.inputs domains.now.outputs port.kind
        → IsDeleted domains.now.entries (nth_way port.side port.kind port.number number)) }
{
    let count = domains.ports(port.kind);
    for number in from..2 * count as u64 {
        if domains.remains(way_of(domains, port, number)) {
            return Some(number);
        }
    }
    None
}

// An assigned pair that shares a port with a pair.
fn assigned_beside(domains: &Domains, pair: Pair) -> Option<Pair>
    requires { IsPairOf domains.now.inputs domains.now.outputs pair }
    ensures assigned { IfSome result (Contains (assigned_in domains.now.entries)) }
    ensures kind { IfSome result (λ assigned. assigned.kind ≡ pair.kind) }
    ensures share { IfSome result (λ assigned. (assigned.from ≡ pair.from) ⊎ (assigned.to ≡ pair.to)) }
    ensures from { IfNone result (IsFreePort domains.now.entries First pair.kind pair.from) }
    ensures to { IfNone result (IsFreePort domains.now.entries Second pair.kind pair.to) }
{
    if let Some(assigned) = domains.assigned(Side::First, pair.kind, pair.from) {
        return Some(assigned);
    }
    domains.assigned(Side::Second, pair.kind, pair.to)
}

// Whether a pair is open, and no pair of its ports is assigned.
fn is_free(domains: &Domains, pair: Pair) -> bool
    requires { IsPairOf domains.now.inputs domains.now.outputs pair }
    ensures is { IsTrue result → IsOpen domains.now.entries pair }
    ensures from { IsTrue result → IsFreePort domains.now.entries First pair.kind pair.from }
    ensures to { IsTrue result → IsFreePort domains.now.entries Second pair.kind pair.to }
{
    if let Some(_) = assigned_beside(domains, pair) {
        return false;
    }
    match domains.place(pair) {
        Some(_) => false,
        None => true,
    }
}
