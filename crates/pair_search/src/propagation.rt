//! What follows of the pairs that are assigned and deleted.

ghost use Rattle.std.specs.Prelude.{◌≡◌, ◌<◌};
ghost use Rattle.pair_domains.specs.Trails.{ports_of};
ghost use Rattle.pair_search.specs.Justified.{IsJustifiedTrail};
ghost use Rattle.pair_search.specs.Conflicts.{Follows};

use crate::clashes::delete_ways;
use crate::conflict::Conflict;
use crate::crowds::crowd;
use crate::ports::apply_port;
use crate::queue::{Queue, Watching};
use crate::units::{apply, is_assigned, is_known};
use crate::watchers::Watcher;
use account_core::{Ban, Port, port_on};
use circuits::Pair;
use net_core::Side;
use pair_domains::{Domains, Entry, Fate};
use std::alloc::{AllocError, Global};

/// The conflict, if one was found.
type Followed = Result<Option<Conflict>, AllocError>;

/// Assigns and deletes what follows, until nothing follows or there is a conflict. Pairs that share a port with an
/// assigned one are deleted, and so is the last pair of a ban whose other pairs are assigned; the last way of a port is
/// assigned. At the end outputs are looked for that have fewer outputs to go to than they are.
pub fn propagate(
    alloc: Global,
    domains: &mut Domains,
    queue: &mut Queue,
    bans: &[Ban],
) -> Result<Option<Conflict>, AllocError>
    requires justified { IsJustifiedTrail bans.now domains.old }
    ensures { Follows bans.now domains.old domains.new result }
{
    if let Some(conflict) = follow_all(domains, queue, bans)? {
        return Ok(Some(conflict));
    }
    match crowd(alloc, domains, &mut queue.partners)? {
        Some(block) => Ok(Some(Conflict::Block(block))),
        None => Ok(None),
    }
}

// Assigns and deletes what follows, one after the other.
fn follow_all(domains: &mut Domains, queue: &mut Queue, bans: &[Ban]) -> Followed
    requires justified { IsJustifiedTrail bans.now domains.old }
    ensures { Follows bans.now domains.old domains.new result }
{
    if let Some(conflict) = apply_new(domains, queue, bans)? {
        return Ok(Some(conflict));
    }
    while queue.head < domains.entries().len() {
        let place = queue.head;
        let entry = domains.entries()[place];
        let found = follow(domains, queue, bans, entry)?;
        queue.head = place + 1;
        if let Some(conflict) = found {
            return Ok(Some(conflict));
        }
    }
    Ok(None)
}

// Applies the bans that came since, and adds them to the index.
fn apply_new(domains: &mut Domains, queue: &mut Queue, bans: &[Ban]) -> Followed
    requires justified { IsJustifiedTrail bans.now domains.old }
    ensures { Follows bans.now domains.old domains.new result }
{
    for number in queue.seen..bans.len() {
        queue.add(domains, &bans[number], number as u64)?;
        queue.seen = number + 1;
        if let Some(conflict) = apply_ban(domains, bans, number as u64)? {
            return Ok(Some(conflict));
        }
    }
    Ok(None)
}

// Applies a ban.
fn apply_ban(domains: &mut Domains, bans: &[Ban], number: u64) -> Followed
    requires justified { IsJustifiedTrail bans.now domains.old }
    ensures { Follows bans.now domains.old domains.new result }
{
    if number >= bans.len() as u64 {
        return Ok(None);
    }
    if apply(domains, bans, number)? {
        return Ok(Some(Conflict::Ban(number)));
    }
    Ok(None)
}

// What follows of one entry.
fn follow(domains: &mut Domains, queue: &mut Queue, bans: &[Ban], entry: Entry) -> Followed
    requires justified { IsJustifiedTrail bans.now domains.old }
    ensures { Follows bans.now domains.old domains.new result }
{
    match entry.fate {
        Fate::Assigned(_) => follow_assigned(domains, queue, bans, entry.pair),
        Fate::Deleted(_) => follow_deleted(domains, bans, entry.pair),
    }
}

// What follows of a pair that is assigned.
fn follow_assigned(domains: &mut Domains, queue: &mut Queue, bans: &[Ban], pair: Pair) -> Followed
    requires justified { IsJustifiedTrail bans.now domains.old }
    ensures { Follows bans.now domains.old domains.new result }
{
    if !is_assigned(domains, pair) {
        return Ok(None);
    }
    delete_ways(domains, bans, pair, Side::First)?;
    delete_ways(domains, bans, pair, Side::Second)?;
    let found = apply_bans(domains, queue, bans, pair)?;
    Ok(found)
}

// Applies the bans that watch a pair.
fn apply_bans(domains: &mut Domains, queue: &mut Queue, bans: &[Ban], pair: Pair) -> Followed
    requires justified { IsJustifiedTrail bans.now domains.old }
    ensures { Follows bans.now domains.old domains.new result }
{
    let count = queue.begin_list(pair);
    for place in 0..count {
        if let Some(conflict) = apply_watcher(domains, queue, bans, pair, place)? {
            keep_rest(queue, place, count);
            return Ok(Some(conflict));
        }
    }
    queue.end_list();
    Ok(None)
}

// Has the watchers after a place stay in the list that is gone through, of so many.
fn keep_rest(queue: &mut Queue, after: usize, count: usize) {
    for place in after.saturating_add(1)..count {
        if let Some(watcher) = queue.watcher_at(place) {
            queue.keep(watcher);
        }
    }
    queue.end_list();
}

// Applies the ban of a watcher of an assigned pair: it watches another pair of it that isn't assigned in place of this
// one, or this one still where there is none. Where the other watched pair is deleted, nothing follows of the ban.
fn apply_watcher(
    domains: &mut Domains,
    queue: &mut Queue,
    bans: &[Ban],
    pair: Pair,
    place: usize,
) -> Followed
    requires justified { IsJustifiedTrail bans.now domains.old }
    ensures { Follows bans.now domains.old domains.new result }
{
    let Some(watcher) = queue.watcher_at(place) else {
        return Ok(None);
    };
    if is_gone(domains, watcher.blocker) {
        queue.keep(watcher);
        return Ok(None);
    }
    match queue.watching_at(watcher.place) {
        Some(watching) => apply_watching(domains, queue, bans, pair, watcher.place, watching),
        None => Ok(None),
    }
}

// Applies a ban that watches an assigned pair. Its watcher, which was there, stays or goes to another pair's list.
fn apply_watching(
    domains: &mut Domains,
    queue: &mut Queue,
    bans: &[Ban],
    pair: Pair,
    place: usize,
    watching: Watching,
) -> Followed
    requires justified { IsJustifiedTrail bans.now domains.old }
    ensures { Follows bans.now domains.old domains.new result }
{
    let blocker = watching.other_than(pair);
    if is_gone(domains, blocker) {
        queue.keep(Watcher { place, blocker });
        return Ok(None);
    }
    let next = next_watch(domains, bans, watching.ban, pair, blocker);
    if next != pair {
        queue.watch(place, next, blocker)?;
        return Ok(None);
    }
    queue.keep(Watcher { place, blocker });
    apply_ban(domains, bans, watching.ban)
}

// Whether a pair is deleted.
fn is_gone(domains: &Domains, pair: Pair) -> bool {
    if !is_known(domains, pair) {
        return false;
    }
    domains.reason(pair).is_some()
}

// What a ban is to watch in place of an assigned pair: one of its pairs that isn't assigned nor watched, or the pair
// itself.
fn next_watch(domains: &Domains, bans: &[Ban], number: u64, pair: Pair, other: Pair) -> Pair {
    let Some(ban) = bans.get(number as usize) else {
        return pair;
    };
    for next in ban.pairs.iter() {
        if (*next != other) & !is_assigned(domains, *next) {
            return *next;
        }
    }
    pair
}

// What follows of a pair that is deleted: its ports may have one way left, or none.
fn follow_deleted(domains: &mut Domains, bans: &[Ban], pair: Pair) -> Followed
    requires justified { IsJustifiedTrail bans.now domains.old }
    ensures { Follows bans.now domains.old domains.new result }
{
    if let Some(conflict) = follow_port(domains, bans, pair, Side::First)? {
        return Ok(Some(conflict));
    }
    let found = follow_port(domains, bans, pair, Side::Second)?;
    Ok(found)
}

// What follows at the port that a deleted pair has of a circuit.
fn follow_port(domains: &mut Domains, bans: &[Ban], pair: Pair, side: Side) -> Followed
    requires justified { IsJustifiedTrail bans.now domains.old }
    ensures { Follows bans.now domains.old domains.new result }
{
    if !is_known(domains, pair) {
        return Ok(None);
    }
    let port = Port {
        side,
        kind: pair.kind,
        number: port_on(side, pair),
    };
    if is_settled(domains, port) {
        return Ok(None);
    }
    if apply_port(domains, bans, port)? {
        return Ok(Some(Conflict::Port(port)));
    }
    Ok(None)
}

// Whether nothing follows at a port: a pair of it is assigned, so that its other ways are deleted one after the other;
// or two ways at least are left, by the count of those that are deleted.
fn is_settled(domains: &Domains, port: Port) -> bool
    requires { port.number < ports_of domains.now.inputs domains.now.outputs port.kind }
{
    if domains
        .assigned(port.side, port.kind, port.number)
        .is_some()
    {
        return true;
    }
    let gone = domains.gone(port.side, port.kind, port.number);
    let count = domains.ports(port.kind) as usize;
    gone.saturating_add(1) < count.saturating_mul(2)
}
