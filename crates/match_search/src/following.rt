//! What follows of the pairs that are assigned, by bans, by decided claims and by vectors.

ghost use Rattle.std.specs.Prelude.{◌≤◌, Contains, IfOk, IfSome, OnOk};
ghost use Rattle.pair_search.specs.Conflicts.{IsConflict};
ghost use Rattle.pair_domains.specs.Trails.{assigned_in};
ghost use Rattle.pair_search.specs.Progress.{left};
ghost use Rattle.match_search.specs.States.{Deletes, MayStep, Steps, lent};

use crate::asking::{ask_assigned, ask_output};
use crate::session::Session;
use crate::swap_bans::exclude_by_swaps;
use crate::trail::PairTrail;
use crate::unlike::{delete_unlike, list_unlike};
use account_core::PairableGraphs;
use circuits::{Pair, PortKind};
use class_refine::Domains;
use cnf_core::Stop;
use fact_bans::Asker;
use oracle_core::Oracle;
use pair_search::{Conflict, propagate};
use std::alloc::AllocError;
use vector_bans::foresee;

/// Propagates bans, compares the assigned pairs with decided claims, those of one input first, which are fewer and
/// whose bans are shorter, and then tries the pairs on vectors.
pub(crate) fn follow<O: Oracle>(
    graphs: &PairableGraphs<'_>,
    session: &mut Session<'_, O>,
    trail: &mut PairTrail,
) -> Result<Option<Conflict>, Stop>
    requires may { MayStep graphs.now (lent O.known session.old) trail.old.domains }
    ensures steps { Steps graphs.now (lent O.known session.old) (lent O.known session.new) trail.new.domains result }
    ensures less { OnOk result (left trail.new.domains ≤ left trail.old.domains) }
    ensures conflict { IfOk result (λ found. IfSome found (IsConflict session.new.book.now trail.new.domains)) }
{
    if let Some(conflict) = settle(graphs, session, trail)? {
        return Ok(Some(conflict));
    }
    let learned = session.learned();
    if session.heuristics.guide.has_had_its_share(learned) {
        return Ok(None);
    }
    let domains = &trail.domains;
    if let Some(excluded) = compare_by_swaps(graphs, session, domains)? {
        return Ok(Some(excluded));
    }
    try_assigned(graphs, session, domains)
}

// Tries the assigned pairs on vectors.
fn try_assigned<O: Oracle>(
    graphs: &PairableGraphs<'_>,
    session: &mut Session<'_, O>,
    domains: &Domains,
) -> Result<Option<Conflict>, Stop>
    requires may { MayStep graphs.now (lent O.known session.old) domains.now }
    ensures steps { Steps graphs.now (lent O.known session.old) (lent O.known session.new) domains.now result }
    ensures conflict { IfOk result (λ found. IfSome found (IsConflict session.new.book.now domains.now)) }
{
    // assigned pairs are of ports that exist, and share none
    let _lawful = domains.entries();
    match foresee(
        graphs,
        &mut session.asker,
        domains.pairs(),
        &session.heuristics.trials,
        session.book,
    )? {
        Some(ban) => Ok(Some(Conflict::Ban(ban))),
        None => Ok(None),
    }
}

// Compares each assigned pair that wasn't compared yet with claims of two inputs, beside all other assigned pairs.
fn compare_by_swaps<O: Oracle>(
    graphs: &PairableGraphs<'_>,
    session: &mut Session<'_, O>,
    domains: &Domains,
) -> Result<Option<Conflict>, Stop>
    requires may { MayStep graphs.now (lent O.known session.old) domains.now }
    ensures steps { Steps graphs.now (lent O.known session.old) (lent O.known session.new) domains.now result }
    ensures conflict { IfOk result (λ found. IfSome found (IsConflict session.new.book.now domains.now)) }
{
    // assigned pairs are of ports that exist, and share none
    let _lawful = domains.entries();
    let assigned = domains.pairs();
    for place in session.heuristics.guide.compared_by_swaps..assigned.len() {
        session.heuristics.guide.compared_by_swaps = place;
        if let Some(ban) = exclude_by_swaps(graphs, session, assigned, assigned[place])? {
            return Ok(Some(Conflict::Ban(ban)));
        }
    }
    session.heuristics.guide.compared_by_swaps = assigned.len();
    Ok(None)
}

// Propagates bans in turns. After each turn the claims of one more output, or of one more assigned pair, are decided,
// and the bans that they show are made. It ends where none is left, or once the round has learned its lines.
fn settle<O: Oracle>(
    graphs: &PairableGraphs<'_>,
    session: &mut Session<'_, O>,
    trail: &mut PairTrail,
) -> Result<Option<Conflict>, Stop>
    requires may { MayStep graphs.now (lent O.known session.old) trail.old.domains }
    ensures steps { Steps graphs.now (lent O.known session.old) (lent O.known session.new) trail.new.domains result }
    ensures less { OnOk result (left trail.new.domains ≤ left trail.old.domains) }
    ensures conflict { IfOk result (λ found. IfSome found (IsConflict session.new.book.now trail.new.domains)) }
{
    let inputs = trail.domains.ports(PortKind::Input) as u64;
    let outputs = trail.domains.ports(PortKind::Output) as u64;
    for _turn in 0..inputs + 2 * outputs + 1 {
        if let Some(conflict) = propagate(
            session.asker.alloc,
            &mut trail.domains,
            &mut trail.queue,
            session.book.bans(),
        )? {
            return Ok(Some(conflict));
        }
        let more = ask_next(graphs, session, &mut trail.domains)?;
        let learned = session.learned();
        if !more | session.heuristics.guide.has_had_its_share(learned) {
            return Ok(None);
        }
    }
    Ok(None)
}

// Makes the tallies of the next output that has none. After the last output it makes the bans that decided claims show
// of the next assigned pair that wasn't compared yet. Where there are some, what follows of them comes first, and the
// pair is compared again; where there are none, the ways are deleted that claims exclude with the pair. Answers whether
// there was a next output or pair.
fn ask_next<O: Oracle>(
    graphs: &PairableGraphs<'_>,
    session: &mut Session<'_, O>,
    domains: &mut Domains,
) -> Result<bool, Stop>
    requires may { MayStep graphs.now (lent O.known session.old) domains.old }
    ensures steps { Steps graphs.now (lent O.known session.old) (lent O.known session.new) domains.new result }
    ensures less { OnOk result (left domains.new ≤ left domains.old) }
{
    let outputs = domains.ports(PortKind::Output);
    if let Some(output) = session.heuristics.guide.next_output(outputs) {
        ask_output(graphs, session, domains, output)?;
        return Ok(true);
    }
    let Some(pair) = next_assigned(domains, session.heuristics.guide.asked) else {
        return Ok(false);
    };
    let more = ask_assigned(graphs, session, domains, pair)?;
    if more {
        return Ok(true);
    }
    session.heuristics.guide.asked = session.heuristics.guide.asked.saturating_add(1);
    delete_beside(graphs, session, domains, pair)?;
    Ok(true)
}

/// The assigned pair of a place.
pub(crate) fn next_assigned(domains: &Domains, place: usize) -> Option<Pair>
    ensures { IfSome result (Contains (assigned_in domains.now.entries)) }
{
    domains.pairs().get(place).copied()
}

// Deletes the ways that decided claims exclude beside an assigned pair.
fn delete_beside<O: Oracle>(
    graphs: &PairableGraphs<'_>,
    session: &mut Session<'_, O>,
    domains: &mut Domains,
    pair: Pair,
) -> Result<(), Stop>
    requires may { MayStep graphs.now (lent O.known session.old) domains.old }
    requires assigned { Contains (assigned_in domains.old.entries) pair }
    ensures steps { Steps graphs.now (lent O.known session.old) (lent O.known session.new) domains.new result }
    ensures deletes { OnOk result (Deletes pair domains.old domains.new) }
{
    let again = session.heuristics.guide.mark_compared(pair);
    let ways = ways_beside(&session.asker, domains, pair, again)?;
    delete_unlike(graphs, session, domains, pair, &ways)
}

// The ways that claims may exclude beside an assigned pair, by what vectors show.
fn ways_beside<O: Oracle>(
    asker: &Asker<'_, O>,
    domains: &Domains,
    pair: Pair,
    again: bool,
) -> Result<Vec<Pair>, AllocError> {
    list_unlike(asker.alloc, domains, asker.broken, pair, again)
}
