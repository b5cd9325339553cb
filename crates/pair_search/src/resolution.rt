//! Resolution of conflicts.

ghost use Rattle.std.specs.Prelude.{◌≡◌, ◌≢◌, ◌+◌, ◌<◌, ◌≤◌, ◌∷◌, ◌↔◌, All, Contains, IfNone, IfOk, IfSome, IsTrue};
ghost use Rattle.std.specs.Prelude.{length, slice_index_or, false, take, true};
ghost use Rattle.circuits.specs.declared.port.Pair.{Pair as AnyPair};
ghost use Rattle.account_core.specs.Ports.{AreOrdered};
ghost use Rattle.pair_domains.specs.declared.entry.Entry.{Entry as AnyEntry};
ghost use Rattle.pair_domains.specs.declared.entry.Cause.TheVariants.{Choice, LastWay};
ghost use Rattle.pair_domains.specs.declared.entry.Fate.TheVariants.{Assigned};
ghost use Rattle.pair_domains.specs.Trails.{IsPairOf, assigned_in, is_assigned};
ghost use Rattle.pair_search.specs.ConflictSets.{HasNoChoice, IsChoiceAt, IsConflictSet, IsLastOf, IsLearned};
ghost use Rattle.pair_search.specs.Grounded.{LearnsMore};
ghost use Rattle.pair_search.specs.Justified.{IsTrail};
ghost use Rattle.pair_search.specs.declared.learned.LearnedBan.TheVariants as learned;
ghost use Rattle.pair_search.specs.Pivots.{IsPivot};

use crate::conflict_set::{ConflictSet, cover_port};
use crate::learned::{Back, LearnedBan};
use crate::mismatch::Mismatches;
use crate::resolved::Resolved;
use crate::view::TrailView;
use account_core::{PairableGraphs, Port, port_on};
use ban_book::needed::place_of;
use ban_book::{BanBook, contains};
use circuits::Pair;
use net_core::Side;
use pair_domains::{Cause, Domains, Entry, Fate};
use std::alloc::{AllocError, Global};

// What is done about the latest pair of a conflict.
pub(crate) enum Pivot {
    /// All other pairs of the conflict are assigned before the choice whose entry stands at this place, and it is not.
    Choice(usize),
    /// The pair was forced by its port of this circuit.
    Forced(Side),
}

// A conflict whose latest pair was forced.
struct ForcedPair {
    /// The pair's place among the assigned ones.
    place: usize,
    /// The circuit whose port forced it.
    side: Side,
    conflict: ConflictSet,
}

/// Resolves a conflict on its latest pair, again and again, until a choice stands between that pair and the others: the
/// first unique implication point. Where there is none before any choice, the conflict's last ban has no pairs.
pub fn resolve(
    alloc: Global,
    graphs: &PairableGraphs<'_>,
    domains: &Domains,
    conflict: ConflictSet,
    made: &mut Mismatches,
    book: &mut BanBook,
) -> Result<LearnedBan, AllocError>
    requires trail { IsTrail graphs.now book.old domains.now }
    requires conflict { IsConflictSet book.old (assigned_in domains.now.entries) conflict }
    ensures more { LearnsMore graphs.now domains.now.entries book.old book.new }
    ensures learned { IfOk result (IsLearned book.new domains.now) }
{
    // no pair has two entries, and assigned pairs share no port
    let _lawful = domains.entries();
    let mut conflict = conflict;
    let mut limit = domains.pairs().len();
    while let Some(last) = last_of(domains.pairs(), limit, &conflict.pairs) {
        match pivot_at(domains, last, &conflict.pairs) {
            Pivot::Choice(place) => return Ok(back_to(domains, last, place, conflict.ban)),
            Pivot::Forced(side) => {
                let forced = ForcedPair {
                    place: last,
                    side,
                    conflict,
                };
                conflict = resolve_on(alloc, graphs, domains, forced, made, book)?;
                limit = last;
            }
        }
    }
    Ok(LearnedBan::Refusal(conflict.ban))
}

// The last of the first `limit` assigned pairs that is one of a conflict's. Each is looked for among all of these, as
// the cover of a step does with each way of its port.
fn last_of(assigned: &[Pair], limit: usize, pairs: &[Pair]) -> Option<usize>
    requires { limit ≤ length assigned.now }
    ensures found { IfSome result (IsLastOf assigned.now limit pairs.now) }
    ensures none { IfNone result (All (λ pair. Contains pairs.now pair → ⊥) (take limit assigned.now)) }
{
    let mut left = limit;
    while left > 0 {
        left -= 1;
        if is_at(assigned, left, pairs) {
            return Some(left);
        }
    }
    None
}

// What is done about the latest pair of a conflict, of which it is the last assigned one.
fn pivot_at(domains: &Domains, last: usize, pairs: &[Pair]) -> Pivot
    requires within { last < length (assigned_in domains.now.entries) }
    requires among { All (Contains (take (last + 1) (assigned_in domains.now.entries))) pairs.now }
    ensures { IsPivot domains.now.entries pairs.now last result }
{
    let own = entry_of(domains, last);
    let first = after_others(domains, last, pairs);
    if let Some(place) = choice_between(domains.entries(), first, own) {
        return Pivot::Choice(place);
    }
    match side_of(domains.entries()[own].fate) {
        Some(side) => Pivot::Forced(side),
        None => Pivot::Choice(own),
    }
}

// The circuit whose port forced an assigned pair, if it was forced.
fn side_of(fate: Fate) -> Option<Side>
    ensures forced { IfSome result (λ side. fate ≡ Assigned (LastWay side)) }
    ensures chosen { IfNone result (is_assigned fate ≡ true → fate ≡ Assigned Choice) }
{
    match fate {
        Fate::Assigned(Cause::LastWay(side)) => Some(side),
        Fate::Assigned(Cause::Choice) => None,
        Fate::Deleted(_) => None,
    }
}

// Whether the assigned pair at a place is one of some.
fn is_at(assigned: &[Pair], place: usize, pairs: &[Pair]) -> bool
    requires { place < length assigned.now }
    ensures yes { IsTrue result → (d : AnyPair) → Contains pairs.now (slice_index_or assigned.now place d) }
    ensures no { result ≡ false → (d : AnyPair) → Contains pairs.now (slice_index_or assigned.now place d) → ⊥ }
{
    contains(pairs, assigned[place])
}

// Where the entry of an assigned pair stands.
fn entry_of(domains: &Domains, index: usize) -> usize
    requires { index < length (assigned_in domains.now.entries) }
    ensures within { result < length domains.now.entries }
    ensures is { (d : AnyEntry) (p : AnyPair)
        → (slice_index_or domains.now.entries result d).pair
        ≡ slice_index_or (assigned_in domains.now.entries) index p }
    ensures assigned { (d : AnyEntry) → is_assigned (slice_index_or domains.now.entries result d).fate ≡ true }
    ensures front { take index (assigned_in domains.now.entries) ≡ assigned_in (take result domains.now.entries) }
{
    // no pair has two entries, and assigned pairs share no port
    let _lawful = domains.entries();
    match domains.place(assigned_at(domains, index)) {
        Some(place) => place,
        None => unreachable!(),
    }
}

// An assigned pair.
fn assigned_at(domains: &Domains, index: usize) -> Pair
    requires { index < length (assigned_in domains.now.entries) }
    ensures value { (d : AnyPair) → slice_index_or (assigned_in domains.now.entries) index d ≡ result }
    ensures assigned { Contains (assigned_in domains.now.entries) result }
    ensures known { IsPairOf domains.now.inputs domains.now.outputs result }
{
    // no pair has two entries, and assigned pairs share no port
    let _lawful = domains.entries();
    domains.pairs()[index]
}

// The place after the entries of all of a conflict's pairs but the last.
fn after_others(domains: &Domains, last: usize, pairs: &[Pair]) -> usize
    requires within { last < length (assigned_in domains.now.entries) }
    requires among { All (Contains (take (last + 1) (assigned_in domains.now.entries))) pairs.now }
    ensures within { result ≤ length domains.now.entries }
    ensures others { (d : AnyPair) → All (Contains
        (slice_index_or (assigned_in domains.now.entries) last d
        ∷ assigned_in (take result domains.now.entries))) pairs.now }
{
    // no pair has two entries, and assigned pairs share no port
    let _lawful = domains.entries();
    match last_of(domains.pairs(), last, pairs) {
        Some(second) => entry_of(domains, second) + 1,
        None => 0,
    }
}

/// The first choice from one place on, and before another.
pub fn choice_between(entries: &[Entry], from: usize, to: usize) -> Option<usize>
    requires { to ≤ length entries.now }
    ensures choice { IfSome result (IsChoiceAt entries.now) }
    ensures from { IfSome result (λ place. from ≤ place) }
    ensures to { IfSome result (λ place. place < to) }
    ensures first { IfSome result (HasNoChoice entries.now from) }
    ensures none { IfNone result (HasNoChoice entries.now from to) }
{
    for place in from..to {
        if is_choice(entries[place].fate) {
            return Some(place);
        }
    }
    None
}

fn is_choice(fate: Fate) -> bool
    ensures { IsTrue result ↔ (fate ≡ Assigned Choice) }
{
    match fate {
        Fate::Assigned(Cause::Choice) => true,
        _ => false,
    }
}

// Going back before a choice.
fn back_to(domains: &Domains, last: usize, place: usize, ban: u64) -> LearnedBan
    requires { last < length (assigned_in domains.now.entries) }
    ensures { (d : AnyPair) → result ≡ learned.Back (record {
      place = place;
      pair = slice_index_or (assigned_in domains.now.entries) last d;
      ban = ban;
    }) }
{
    LearnedBan::Back(Back {
        place,
        pair: assigned_at(domains, last),
        ban,
    })
}

// Resolves a conflict on an assigned pair that was forced by its port of a circuit: all ways of the port lead into bans
// beside pairs that were assigned before it.
fn resolve_on(
    alloc: Global,
    graphs: &PairableGraphs<'_>,
    domains: &Domains,
    forced: ForcedPair,
    made: &mut Mismatches,
    book: &mut BanBook,
) -> Result<ConflictSet, AllocError>
    requires trail { IsTrail graphs.now book.old domains.now }
    requires within { forced.place < length (assigned_in domains.now.entries) }
    requires forced { (d : AnyPair) → Contains domains.now.entries
        (record {
          pair = slice_index_or (assigned_in domains.now.entries) forced.place d;
          fate = Assigned (LastWay forced.side);
        }) }
    requires conflict { IsConflictSet book.old
        (take (forced.place + 1) (assigned_in domains.now.entries)) forced.conflict }
    ensures more { LearnsMore graphs.now domains.now.entries book.old book.new }
    ensures conflict { IfOk result (IsConflictSet book.new (take forced.place (assigned_in domains.now.entries))) }
{
    // the assigned pairs are of ports that exist, and share none
    let _lawful = domains.entries();
    let ForcedPair {
        place,
        side,
        conflict,
    } = forced;
    let way = assigned_at(domains, place);
    let port = Port {
        side,
        kind: way.kind,
        number: port_on(side, way),
    };
    let ConflictSet { pairs, ban } = conflict;
    let pairs = without(pairs, way);
    let view = TrailView {
        alloc,
        graphs,
        domains,
        assigned: first_assigned(domains, place),
    };
    let resolved = Some(Resolved { way, ban });
    let conflict = cover_port(&view, port, resolved, pairs, made, book)?;
    Ok(conflict)
}

// The first assigned pairs.
fn first_assigned(domains: &Domains, count: usize) -> &[Pair]
    requires { count ≤ length (assigned_in domains.now.entries) }
    ensures { result.now ≡ take count (assigned_in domains.now.entries) }
{
    &domains.pairs()[..count]
}

// Pairs in order but for one.
fn without(pairs: Vec<Pair>, pair: Pair) -> Vec<Pair>
    requires { AreOrdered pairs.items }
    ensures ordered { AreOrdered result.items }
    ensures fewer { All (Contains pairs.items) result.items }
    ensures gone { All (λ other. other ≢ pair) result.items }
    ensures others { All (Contains (pair ∷ result.items)) pairs.items }
{
    let mut pairs = pairs;
    if let Some(place) = place_of(&pairs, pair) {
        let _ = pairs.remove(place);
    }
    pairs
}
