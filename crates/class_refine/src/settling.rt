//! Settling pairs: each is deleted, or nothing excludes it beside the assigned ones.

ghost use Rattle.std.specs.Prelude.{◌≡◌, ◌<◌, ◌∷◌, IfNone, IfOk, IfSome, List};
ghost use Rattle.account_core.specs.declared.step.Ban.{Ban as AnyBan};
ghost use Rattle.ban_book.specs.Covering.{Covers};
ghost use Rattle.ban_book.specs.Shown.{IsShownBan};
ghost use Rattle.pair_domains.specs.declared.entry.Fate.TheVariants.{Deleted};
ghost use Rattle.pair_domains.specs.Trails.{IsOpen, IsPairOf, assigned_in, ports_of};
ghost use Rattle.pair_search.specs.Grounded.{IsGrounded};
ghost use Rattle.pair_search.specs.Named.{AreNamed};
ghost use Rattle.class_refine.specs.declared.grounds.Grounds.{Grounds as AnyGrounds};
ghost use Rattle.class_refine.specs.Rows.{decided};
ghost use Rattle.class_refine.specs.Settling.{Excludes, IsClear, MaySettle, Settles};
ghost use Rattle.class_refine.specs.Stable.{HaveNoBan};

use crate::grounds::Grounds;
use crate::shown::way_ban;
use crate::swaps::swap_ban;
use account_core::{Ban, Port};
use ban_book::BanBook;
use ban_book::clash::clashing;
use circuits::{Pair, PortKind};
use net_core::Side;
use pair_domains::{Domains, Reason};
use pair_search::way_of;
use std::alloc::{AllocError, Global};

/// What excludes a pair beside the assigned ones.
#[derive(Debug, Drop)]
pub(crate) enum Exclusion {
    /// An assigned pair that it clashes with, or a ban of the book.
    Known(Reason),
    /// A ban that decided claims show, which isn't in the book yet.
    Shown(Ban),
}

/// Settles all pairs, or answers the number of a ban within the assigned ones, where one is found. The order of the two
/// kinds of pairs doesn't matter: no pair is assigned meanwhile, and a deleted pair excludes no other.
pub(crate) fn settle_all(
    alloc: Global,
    grounds: &Grounds<'_>,
    domains: &mut Domains,
    book: &mut BanBook,
) -> Result<Option<u64>, AllocError>
    requires may { MaySettle grounds.now book.old domains.old }
    ensures { Settles grounds.now book.old book.new domains.old domains.new
        (λ pair. IsPairOf domains.old.inputs domains.old.outputs pair) result }
{
    if let Some(dead) = settle_kind(alloc, grounds, domains, PortKind::Output, book)? {
        return Ok(Some(dead));
    }
    settle_kind(alloc, grounds, domains, PortKind::Input, book)
}

// Settles the pairs of a kind.
fn settle_kind(
    alloc: Global,
    grounds: &Grounds<'_>,
    domains: &mut Domains,
    kind: PortKind,
    book: &mut BanBook,
) -> Result<Option<u64>, AllocError>
    requires may { MaySettle grounds.now book.old domains.old }
    ensures { Settles grounds.now book.old book.new domains.old domains.new
        (λ pair. (pair.kind ≡ kind) × IsPairOf domains.old.inputs domains.old.outputs pair) result }
{
    for from in 0..domains.ports(kind) {
        if let Some(dead) = settle_port(alloc, grounds, domains, kind, from, book)? {
            return Ok(Some(dead));
        }
    }
    Ok(None)
}

// Settles the pairs of a port of the first circuit.
fn settle_port(
    alloc: Global,
    grounds: &Grounds<'_>,
    domains: &mut Domains,
    kind: PortKind,
    from: u32,
    book: &mut BanBook,
) -> Result<Option<u64>, AllocError>
    requires may { MaySettle grounds.now book.old domains.old }
    requires from { from < ports_of domains.old.inputs domains.old.outputs kind }
    ensures { Settles grounds.now book.old book.new domains.old domains.new
        (λ pair. (pair.kind ≡ kind) × (pair.from ≡ from)
        × IsPairOf domains.old.inputs domains.old.outputs pair) result }
{
    let port = Port {
        side: Side::First,
        kind,
        number: from,
    };
    let count = domains.ports(kind);
    for number in 0..2 * count as u64 {
        let way = way_of(domains, port, number);
        if let Some(dead) = settle(alloc, grounds, domains, way, book)? {
            return Ok(Some(dead));
        }
    }
    Ok(None)
}

// Settles a pair. One that is assigned or deleted is settled.
fn settle(
    alloc: Global,
    grounds: &Grounds<'_>,
    domains: &mut Domains,
    way: Pair,
    book: &mut BanBook,
) -> Result<Option<u64>, AllocError>
    requires may { MaySettle grounds.now book.old domains.old }
    requires known { IsPairOf domains.old.inputs domains.old.outputs way }
    ensures { Settles grounds.now book.old book.new domains.old domains.new (λ pair. pair ≡ way) result }
{
    // assigned pairs are of ports that exist, and share none
    let _lawful = domains.entries();
    match domains.fate(way) {
        Some(_) => Ok(None),
        None => settle_open(alloc, grounds, domains, way, book),
    }
}

// Settles an open pair: deletes it where something excludes it.
fn settle_open(
    alloc: Global,
    grounds: &Grounds<'_>,
    domains: &mut Domains,
    way: Pair,
    book: &mut BanBook,
) -> Result<Option<u64>, AllocError>
    requires may { MaySettle grounds.now book.old domains.old }
    requires known { IsPairOf domains.old.inputs domains.old.outputs way }
    requires open { IsOpen domains.old.entries way }
    ensures { Settles grounds.now book.old book.new domains.old domains.new (λ pair. pair ≡ way) result }
{
    let Some(exclusion) = exclusion_of(alloc, grounds, domains, way, book)? else {
        return Ok(None);
    };
    match exclusion {
        Exclusion::Known(reason) => delete(domains, way, reason),
        Exclusion::Shown(ban) => delete_by(domains, way, ban, book),
    }
}

// What excludes a pair beside the assigned ones: one that it clashes with, a ban of the book, or a ban that decided
// claims show, of one input first. So what needs no new ban is found first, and then the bans of the fewest pairs.
fn exclusion_of(
    alloc: Global,
    grounds: &Grounds<'_>,
    domains: &Domains,
    way: Pair,
    book: &BanBook,
) -> Result<Option<Exclusion>, AllocError>
    requires may { MaySettle grounds.now book.now domains.now }
    requires known { IsPairOf domains.now.inputs domains.now.outputs way }
    ensures found { IfOk result (λ found. IfSome found
        (Excludes grounds.now book.now (assigned_in domains.now.entries) way)) }
    ensures none { IfOk result (λ found. IfNone found
        (IsClear grounds.now book.now (assigned_in domains.now.entries) way)) }
{
    // assigned pairs are of ports that exist, and share none
    let _lawful = domains.entries();
    let assigned = domains.pairs();
    if let Some(with) = clashing(assigned, way) {
        return Ok(Some(Exclusion::Known(Reason::Clash(with))));
    }
    let pairs = beside(alloc, assigned, way)?;
    if let Some(number) = book.covering(&pairs) {
        return Ok(Some(Exclusion::Known(Reason::Ban(number))));
    }
    if let Some(ban) = way_ban(alloc, grounds, assigned, way)? {
        return Ok(Some(Exclusion::Shown(ban)));
    }
    match swap_ban(alloc, grounds, &pairs)? {
        Some(ban) => Ok(Some(Exclusion::Shown(ban))),
        None => Ok(None),
    }
}

// Makes a ban that facts show, and deletes the pair that it excludes beside the assigned ones. A ban that is within
// these alone is answered.
fn delete_by(
    domains: &mut Domains,
    way: Pair,
    ban: Ban,
    book: &mut BanBook,
) -> Result<Option<u64>, AllocError>
    requires known { IsPairOf domains.old.inputs domains.old.outputs way }
    requires open { IsOpen domains.old.entries way }
    ensures { (grounds : AnyGrounds)
        → IsShownBan grounds.graphs.now (decided grounds) (way ∷ assigned_in domains.old.entries) ban
        → Settles grounds book.old book.new domains.old domains.new (λ pair. pair ≡ way) result }
{
    // no pair has two entries
    let _lawful = domains.entries();
    let number = book.hold(ban)?;
    if let Some(dead) = book.covering(domains.pairs()) {
        return Ok(Some(dead));
    }
    domains.delete(way, Reason::Ban(number))?;
    Ok(None)
}

// Deletes a pair that clashes with an assigned one, or that a ban of the book excludes beside them.
fn delete(domains: &mut Domains, way: Pair, reason: Reason) -> Result<Option<u64>, AllocError>
    requires known { IsPairOf domains.old.inputs domains.old.outputs way }
    requires open { IsOpen domains.old.entries way }
    ensures { (grounds : AnyGrounds) (bans : List AnyBan)
        → HaveNoBan bans (assigned_in domains.old.entries)
        → AreNamed bans (assigned_in domains.old.entries) way reason
        → IsGrounded grounds.graphs.now (decided grounds) way (Deleted reason)
        → Settles grounds bans bans domains.old domains.new (λ pair. pair ≡ way) result }
{
    // no pair has two entries
    let _lawful = domains.entries();
    domains.delete(way, reason)?;
    Ok(None)
}

// A pair, and some after it.
fn beside(alloc: Global, assigned: &[Pair], way: Pair) -> Result<Vec<Pair>, AllocError>
    ensures { IfOk result (λ pairs. pairs.items ≡ way ∷ assigned.now) }
{
    let mut pairs = Vec::new(alloc);
    pairs.push(way)?;
    pairs.extend_from_slice(assigned)?;
    Ok(pairs)
}
