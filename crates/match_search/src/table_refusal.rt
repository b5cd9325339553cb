//! Refusals by tables of outputs that reach few inputs.

ghost use Rattle.std.specs.Prelude.{◌≡◌, ◌<◌, [], IfOk, IfSome, List, OnOk};
ghost use Rattle.account_core.specs.declared.step.Ban.{Ban as AnyBan};
ghost use Rattle.account_core.specs.Shown.{IsEmptyBan};
ghost use Rattle.pair_domains.specs.Trails.{IsFreePort, assigned_in, ports_of};
ghost use Rattle.pair_search.specs.Justified.{IsJustifiedTrail};
ghost use Rattle.pair_search.specs.Progress.{IsTrail, StaysJustified};
ghost use Rattle.match_search.specs.States.{Excludes, Explores, IsTableAhead, IsTurnEnd};
ghost use Rattle.match_search.specs.States.{MaySearch, MayStep, Steps, lent};

use crate::choosing::is_free;
use crate::following::next_assigned;
use crate::session::Session;
use crate::step_back::step_back;
use crate::swap_bans::exclude_by_swaps;
use account_core::{PairableGraphs, Port};
use circuits::PortKind;
use class_refine::Domains;
use cnf_core::Stop;
use cube_tables::{Exclusion, Plan};
use oracle_core::Oracle;
use pair_search::{Conflict, Mismatches, branch};
use std::alloc::{AllocError, Global};
use vector_bans::{Suspicion, ban_suspected};
use watch_core::Stage;

/// How many turns a refusal may take for each ban that is foreseen. A ban takes one, an input that is paired another,
/// and ways that share a port with an assigned pair one each.
const TURNS: u64 = 4;

/// How many turns it may take beside these, since an estimate of few bans may err by more: some 20 ms.
const MORE_TURNS: u64 = 10_000;

/// The pairs that are assigned and deleted, and the bans that were made of mismatches.
#[derive(Drop)]
struct TableTrail {
    domains: Domains,
    made: Mismatches,
}

impl TableTrail {
    // All pairs are open, and no ban was made.
    fn new(alloc: Global, graphs: &PairableGraphs<'_>) -> Result<TableTrail, AllocError>
        ensures trail { IfOk result (λ trail. (bans : List AnyBan) → IsTrail graphs.now bans trail.domains) }
        ensures none { IfOk result (λ trail. trail.domains.entries ≡ []) }
    {
        // both circuits have as many ports
        let _ports = graphs.graphs();
        let inputs = graphs.ports(PortKind::Input);
        let outputs = graphs.ports(PortKind::Output);
        let domains = Domains::new(alloc, inputs, outputs)?;
        Ok(TableTrail {
            domains,
            made: Mismatches::new(alloc),
        })
    }
}

/// What a step ahead comes to.
#[derive(Drop)]
pub(crate) enum TableAhead {
    /// The search goes on.
    Advanced,
    /// Tables say of no other port.
    NoPort,
    /// The search can't go on.
    Conflict(Conflict),
}

/// What a turn comes to.
#[derive(Drop)]
pub(crate) enum TurnEnd {
    /// The turn isn't over.
    Open,
    /// Tables don't refuse a match.
    Over,
    /// The ban of this number has no pairs.
    Refusal(u64),
}

/// Makes a ban without pairs, and answers its number, where tables of outputs that reach few inputs foresee that this
/// takes no more than some bans. Pairs of an output are assigned, and then pairs of the inputs that it reaches; each
/// way that a table excludes is a ban, and each port without a way a cover.
///
/// # Errors
///
/// `Spent` where a line had to be learned and the ledger's budget was spent. `Memory` when out of memory.
pub(crate) fn refuse_by_tables<O: Oracle>(
    graphs: &PairableGraphs<'_>,
    session: &mut Session<'_, O>,
    most: u64,
) -> Result<Option<u64>, Stop>
    requires may { MaySearch graphs.now (lent O.known session.old) }
    ensures explores { Explores graphs.now (lent O.known session.old) (lent O.known session.new) result }
    ensures empty { IfOk result (λ found. IfSome found (IsEmptyBan session.new.book.now)) }
{
    let Some(mut plan) = Plan::new(session.asker.alloc, graphs, most)? else {
        return Ok(None);
    };
    explore_tables(graphs, session, &mut plan)
}

fn explore_tables<O: Oracle>(
    graphs: &PairableGraphs<'_>,
    session: &mut Session<'_, O>,
    plan: &mut Plan,
) -> Result<Option<u64>, Stop>
    requires may { MaySearch graphs.now (lent O.known session.old) }
    ensures explores { Explores graphs.now (lent O.known session.old) (lent O.known session.new) result }
    ensures empty { IfOk result (λ found. IfSome found (IsEmptyBan session.new.book.now)) }
{
    let mut trail = TableTrail::new(session.asker.alloc, graphs)?;
    take_turns(graphs, session, plan, &mut trail)
}

// Takes turns until it is over, or they are more than the plan foresees.
fn take_turns<O: Oracle>(
    graphs: &PairableGraphs<'_>,
    session: &mut Session<'_, O>,
    plan: &mut Plan,
    trail: &mut TableTrail,
) -> Result<Option<u64>, Stop>
    requires may { MayStep graphs.now (lent O.known session.old) trail.old.domains }
    ensures steps { Steps graphs.now (lent O.known session.old) (lent O.known session.new) trail.new.domains result }
    ensures empty { IfOk result (λ found. IfSome found (IsEmptyBan session.new.book.now)) }
{
    let turns = plan.bans.saturating_mul(TURNS).saturating_add(MORE_TURNS);
    for _turn in 0..turns {
        match turn(graphs, session, plan, trail)? {
            TurnEnd::Open => {}
            TurnEnd::Over => return Ok(None),
            TurnEnd::Refusal(ban) => return Ok(Some(ban)),
        }
    }
    Ok(None)
}

// Goes one step ahead, and back after a conflict.
fn turn<O: Oracle>(
    graphs: &PairableGraphs<'_>,
    session: &mut Session<'_, O>,
    plan: &mut Plan,
    trail: &mut TableTrail,
) -> Result<TurnEnd, Stop>
    requires may { MayStep graphs.now (lent O.known session.old) trail.old.domains }
    ensures steps { Steps graphs.now (lent O.known session.old) (lent O.known session.new) trail.new.domains result }
    ensures ends { IfOk result (IsTurnEnd session.new.book.now) }
{
    let bans = session.book.bans().len() as u64;
    session.at(Stage::Banning { bans });
    let conflict = match step_ahead(graphs, session, plan, &mut trail.domains)? {
        TableAhead::Advanced => return Ok(TurnEnd::Open),
        TableAhead::NoPort => return Ok(TurnEnd::Over),
        TableAhead::Conflict(conflict) => conflict,
    };
    let refusal = step_back(
        session.asker.alloc,
        graphs,
        &mut trail.domains,
        &mut trail.made,
        conflict,
        session.book,
    )?;
    plan.go_back_to(trail.domains.pairs().len());
    match refusal {
        None => Ok(TurnEnd::Open),
        Some(ban) => Ok(TurnEnd::Refusal(ban)),
    }
}

// One step ahead: tables are looked up for the latest pair, and where they show nothing the next port is decided.
fn step_ahead<O: Oracle>(
    graphs: &PairableGraphs<'_>,
    session: &mut Session<'_, O>,
    plan: &mut Plan,
    domains: &mut Domains,
) -> Result<TableAhead, Stop>
    requires may { MayStep graphs.now (lent O.known session.old) domains.old }
    ensures steps { Steps graphs.now (lent O.known session.old) (lent O.known session.new) domains.new result }
    ensures ahead { IfOk result (IsTableAhead session.new.book.now domains.new) }
{
    let alloc = session.asker.alloc;
    let Some(exclusion) = plan.next_exclusion(alloc, domains.pairs())? else {
        let next = decide_next(alloc, plan, domains)?;
        return Ok(next);
    };
    match exclude_shown(graphs, session, domains, &exclusion, plan.place())? {
        Some(ban) => Ok(TableAhead::Conflict(Conflict::Ban(ban))),
        None => Ok(TableAhead::Advanced),
    }
}

// Decides the port that the plan decides next.
fn decide_next(
    alloc: Global,
    plan: &mut Plan,
    domains: &mut Domains,
) -> Result<TableAhead, AllocError>
    ensures stays { (bans : List AnyBan)
        → IsJustifiedTrail bans domains.old
        → OnOk result (StaysJustified bans domains.old domains.new) }
    ensures ahead { (bans : List AnyBan) → IfOk result (IsTableAhead bans domains.new) }
{
    let Some(port) = free_port(alloc, plan, domains)? else {
        return Ok(TableAhead::NoPort);
    };
    match branch(domains, port)? {
        None => Ok(TableAhead::Advanced),
        Some(conflict) => Ok(TableAhead::Conflict(conflict)),
    }
}

// Makes a ban of assigned pairs that tables show to exclude each other, and answers its number. The place is that of
// the pair that tables were looked up for.
fn exclude_shown<O: Oracle>(
    graphs: &PairableGraphs<'_>,
    session: &mut Session<'_, O>,
    domains: &Domains,
    exclusion: &Exclusion,
    place: usize,
) -> Result<Option<u64>, Stop>
    requires may { MayStep graphs.now (lent O.known session.old) domains.now }
    ensures { Excludes graphs.now (lent O.known session.old) (lent O.known session.new)
        (assigned_in domains.now.entries) result }
{
    if exclusion.by_swaps {
        return exclude_by_swaps_at(graphs, session, domains, place);
    }
    exclude_by_cubes(graphs, session, domains, exclusion)
}

// By claims of two inputs, of the pair at a place.
fn exclude_by_swaps_at<O: Oracle>(
    graphs: &PairableGraphs<'_>,
    session: &mut Session<'_, O>,
    domains: &Domains,
    place: usize,
) -> Result<Option<u64>, Stop>
    requires may { MayStep graphs.now (lent O.known session.old) domains.now }
    ensures { Excludes graphs.now (lent O.known session.old) (lent O.known session.new)
        (assigned_in domains.now.entries) result }
{
    // assigned pairs are of ports that exist, and share none
    let _lawful = domains.entries();
    let Some(latest) = next_assigned(domains, place) else {
        return Ok(None);
    };
    exclude_by_swaps(graphs, session, domains.pairs(), latest)
}

// By claims of one input, or else by a vector.
fn exclude_by_cubes<O: Oracle>(
    graphs: &PairableGraphs<'_>,
    session: &mut Session<'_, O>,
    domains: &Domains,
    exclusion: &Exclusion,
) -> Result<Option<u64>, Stop>
    requires may { MayStep graphs.now (lent O.known session.old) domains.now }
    ensures { Excludes graphs.now (lent O.known session.old) (lent O.known session.new)
        (assigned_in domains.now.entries) result }
{
    // assigned pairs are of ports that exist, and share none
    let _lawful = domains.entries();
    let suspicion = Suspicion {
        output: exclusion.output,
        pairs: &exclusion.pairs,
        vector: &exclusion.vector,
    };
    ban_suspected(
        graphs,
        &mut session.asker,
        domains.pairs(),
        suspicion,
        session.book,
    )
}

// The port that the plan decides next, if it is in no pair.
fn free_port(alloc: Global, plan: &mut Plan, domains: &Domains) -> Result<Option<Port>, AllocError>
    ensures port { IfOk result (λ next. IfSome next
        (λ port. port.number < ports_of domains.now.inputs domains.now.outputs port.kind)) }
    ensures free { IfOk result (λ next. IfSome next
        (λ port. IsFreePort domains.now.entries port.side port.kind port.number)) }
{
    let Some(port) = plan.next_port(alloc, domains.pairs())? else {
        return Ok(None);
    };
    if is_free(domains, port) {
        return Ok(Some(port));
    }
    Ok(None)
}
