//! The search, step by step.

ghost use Rattle.std.specs.Prelude.{◌≡◌, ◌<◌, false, IfNone, IfOk, IfSome, map};
ghost use Rattle.account_core.specs.Given.{decided_by};
ghost use Rattle.account_core.specs.Shown.{IsShownMatch};
ghost use Rattle.match_search.specs.Founds.{IsDecidedFound};
ghost use Rattle.account_core.specs.Assigned.{IsWhole};
ghost use Rattle.pair_domains.specs.Trails.{assigned_in};
ghost use Rattle.pair_search.specs.Progress.{left};
ghost use Rattle.match_search.specs.States.{Explores, IsAhead, IsFoundBy, MaySearch, MayStep, SearchesBy, Steps, lent};

use crate::ahead::{Ahead, WholeCompared};
use crate::candidate::compare_whole;
use crate::following::follow;
use crate::found::Found;
use crate::next_port;
use crate::session::Session;
use crate::trail::PairTrail;
use account_core::PairableGraphs;
use class_refine::{Domains, Refined, refine};
use cnf_core::{Log, Stop};
use items::Items;
use net_core::Matching;
use oracle_core::Oracle;
use pair_search::{Conflict, branch, start_over, turn_back};
use watch_core::Stage;

/// Searches from nothing, with the bans that are kept, for this many rounds, or until the bans take all their room, and
/// answers what that came to, if it came to anything. Rounds end early once this many lines are learned in the run.
///
/// # Errors
///
/// `Spent` where a line had to be learned and the ledger's budget was spent. `Memory` when out of memory.
pub(crate) fn explore_rounds<O: Oracle>(
    graphs: &PairableGraphs<'_>,
    session: &mut Session<'_, O>,
    rounds: u64,
    lines: u64,
) -> Result<Option<Found>, Stop>
    requires may { MaySearch graphs.now (lent O.known session.old) }
    ensures explores { Explores graphs.now (lent O.known session.old) (lent O.known session.new) result }
    ensures found { IfOk result (λ found. IfSome found (IsFoundBy graphs.now (lent O.known session.new))) }
{
    let mut trail = PairTrail::new(session.asker.alloc, graphs)?;
    session.heuristics.guide.begin(lines);
    run_rounds(graphs, session, &mut trail, rounds)
}

// Searches for this many rounds, or until something is found, or the bans take all their room.
fn run_rounds<O: Oracle>(
    graphs: &PairableGraphs<'_>,
    session: &mut Session<'_, O>,
    trail: &mut PairTrail,
    rounds: u64,
) -> Result<Option<Found>, Stop>
    requires may { MayStep graphs.now (lent O.known session.old) trail.old.domains }
    ensures steps { Steps graphs.now (lent O.known session.old) (lent O.known session.new) trail.new.domains result }
    ensures found { IfOk result (λ found. IfSome found (IsFoundBy graphs.now (lent O.known session.new))) }
{
    for _round in 0..rounds {
        if let Some(found) = explore_round(graphs, session, trail, true)? {
            return Ok(Some(found));
        }
        if session.heuristics.guide.is_full() {
            return Ok(None);
        }
        start_over(&mut trail.domains, &mut trail.queue);
        session
            .heuristics
            .guide
            .begin_round(trail.domains.pairs().len());
    }
    Ok(None)
}

/// Searches from nothing, with the bans that are kept, and doesn't start over.
///
/// # Errors
///
/// As for `explore_rounds`.
pub(crate) fn explore_whole<O: Oracle>(
    graphs: &PairableGraphs<'_>,
    session: &mut Session<'_, O>,
) -> Result<Found, Stop>
    requires may { MaySearch graphs.now (lent O.known session.old) }
    ensures searches { SearchesBy graphs.now (lent O.known session.old) (lent O.known session.new) result }
    ensures decided { IfOk result
        (IsDecidedFound graphs.now (map decided_by (O.known session.new.asker.oracle.now).facts)) }
{
    let mut trail = PairTrail::new(session.asker.alloc, graphs)?;
    match explore_round(graphs, session, &mut trail, false)? {
        Some(found) => Ok(found),
        None => unreachable!(),
    }
}

// Searches until a round is over, if it is one that ends. Else it searches on until something is found.
fn explore_round<O: Oracle>(
    graphs: &PairableGraphs<'_>,
    session: &mut Session<'_, O>,
    trail: &mut PairTrail,
    ends: bool,
) -> Result<Option<Found>, Stop>
    requires may { MayStep graphs.now (lent O.known session.old) trail.old.domains }
    ensures steps { Steps graphs.now (lent O.known session.old) (lent O.known session.new) trail.new.domains result }
    ensures found { IfOk result (λ found. IfSome found (IsFoundBy graphs.now (lent O.known session.new))) }
    ensures ends { ends ≡ false → IfOk result (λ found. IfNone found ⊥) }
{
    while !(ends & is_round_over(session)) {
        if let Some(found) = turn(graphs, session, trail)? {
            return Ok(Some(found));
        }
    }
    Ok(None)
}

fn is_round_over<O: Oracle>(session: &Session<'_, O>) -> bool {
    let learned = session.learned();
    session.heuristics.guide.is_round_over(learned)
}

// Goes one step ahead, and back after a conflict. None: the search isn't over, and less is left than before.
fn turn<O: Oracle>(
    graphs: &PairableGraphs<'_>,
    session: &mut Session<'_, O>,
    trail: &mut PairTrail,
) -> Result<Option<Found>, Stop>
    requires may { MayStep graphs.now (lent O.known session.old) trail.old.domains }
    ensures steps { Steps graphs.now (lent O.known session.old) (lent O.known session.new) trail.new.domains result }
    ensures less { IfOk result (λ found. IfNone found (left trail.new.domains < left trail.old.domains)) }
    ensures found { IfOk result (λ found. IfSome found (IsFoundBy graphs.now (lent O.known session.new))) }
{
    let bans = session.book.bans().len() as u64;
    session.at(Stage::Banning { bans });
    let conflict = match ahead(graphs, session, trail)? {
        Ahead::Deeper => return Ok(None),
        Ahead::Match(matching, logs) => return Ok(Some(Found::Match(matching, logs))),
        Ahead::Conflict(conflict) => conflict,
    };
    let before = session.book.bans().len();
    let dead = conflict.ban();
    session.heuristics.guide.note_conflict(&conflict);
    let refusal = turn_back(
        session.asker.alloc,
        graphs,
        &mut trail.domains,
        &mut trail.queue,
        conflict,
        session.book,
    )?;
    session
        .heuristics
        .guide
        .learn(session.book.bans(), before, dead);
    session
        .heuristics
        .guide
        .go_back_to(trail.domains.pairs().len());
    match refusal {
        None => Ok(None),
        Some(ban) => Ok(Some(Found::None(ban))),
    }
}

// One step ahead: what follows is assigned and deleted, then the next port is decided.
fn ahead<O: Oracle>(
    graphs: &PairableGraphs<'_>,
    session: &mut Session<'_, O>,
    trail: &mut PairTrail,
) -> Result<Ahead, Stop>
    requires may { MayStep graphs.now (lent O.known session.old) trail.old.domains }
    ensures steps { Steps graphs.now (lent O.known session.old) (lent O.known session.new) trail.new.domains result }
    ensures ahead { IfOk result (IsAhead graphs.now (lent O.known session.new) trail.old.domains trail.new.domains) }
{
    if let Some(conflict) = follow(graphs, session, trail)? {
        return Ok(Ahead::Conflict(conflict));
    }
    go_on(graphs, session, &mut trail.domains)
}

// Decides the next port, and where no port is left compares the outputs.
fn go_on<O: Oracle>(
    graphs: &PairableGraphs<'_>,
    session: &mut Session<'_, O>,
    domains: &mut Domains,
) -> Result<Ahead, Stop>
    requires may { MayStep graphs.now (lent O.known session.old) domains.old }
    ensures steps { Steps graphs.now (lent O.known session.old) (lent O.known session.new) domains.new result }
    ensures ahead { IfOk result (IsAhead graphs.now (lent O.known session.new) domains.old domains.new) }
{
    let Some(port) = next_port(session.asker.alloc, &session.heuristics.guide, domains)? else {
        return compare_assigned(graphs, session, domains);
    };
    session.heuristics.guide.decide(port);
    match branch(domains, port)? {
        None => Ok(Ahead::Deeper),
        Some(conflict) => Ok(Ahead::Conflict(conflict)),
    }
}

// Compares the outputs under the pairs that are assigned, one of each port.
fn compare_assigned<O: Oracle>(
    graphs: &PairableGraphs<'_>,
    session: &mut Session<'_, O>,
    domains: &mut Domains,
) -> Result<Ahead, Stop>
    requires may { MayStep graphs.now (lent O.known session.old) domains.old }
    requires whole { IsWhole graphs.now (assigned_in domains.old.entries) }
    ensures steps { Steps graphs.now (lent O.known session.old) (lent O.known session.new) domains.new result }
    ensures ahead { IfOk result (IsAhead graphs.now (lent O.known session.new) domains.old domains.new) }
{
    match compare_whole(graphs, session, domains)? {
        WholeCompared::Match(matching, logs) => confirm(graphs, session, domains, matching, logs),
        WholeCompared::Ban(ban) => Ok(Ahead::Conflict(Conflict::Ban(ban))),
    }
}

// Answers a match, once the claims of one input of all outputs are decided. Neither claims nor bans exclude the pairs
// of a match, so refining isn't expected to find a ban; if it does, that is a conflict like any other.
fn confirm<O: Oracle>(
    graphs: &PairableGraphs<'_>,
    session: &mut Session<'_, O>,
    domains: &mut Domains,
    matching: Matching,
    logs: Items<Log>,
) -> Result<Ahead, Stop>
    requires may { MayStep graphs.now (lent O.known session.old) domains.old }
    requires shown { IsShownMatch graphs.now matching logs }
    ensures steps { Steps graphs.now (lent O.known session.old) (lent O.known session.new) domains.new result }
    ensures ahead { IfOk result (IsAhead graphs.now (lent O.known session.new) domains.old domains.new) }
{
    match refine(graphs, &mut session.asker, domains, session.book)? {
        Refined::Stable => Ok(Ahead::Match(matching, logs)),
        Refined::Dead(ban) => Ok(Ahead::Conflict(Conflict::Ban(ban))),
    }
}
