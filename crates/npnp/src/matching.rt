//! A match of two netlists, sought and proved.

ghost use Rattle.std.specs.Prelude.{◌≡◌, ℕ, Err, IfOk, map};
ghost use Rattle.cnf_core.specs.declared.stop.Stop.TheVariants.{Spent};
ghost use Rattle.account_core.specs.Given.{decided_by};
ghost use Rattle.account_core.specs.Facts.{AreFacts};
ghost use Rattle.account_core.specs.Ports.{HaveAsMany};
ghost use Rattle.account_core.specs.Steps.{AreValidBans};
ghost use Rattle.account_core.specs.Shown.{IsEmptyBan, IsShownMatch};
ghost use Rattle.match_search.specs.Founds.{IsFound};
ghost use Rattle.shelf_core.specs.State.{Closed};
ghost use Rattle.npnp.specs.Solving.{IsSolved, Solves};
ghost use Rattle.run_steps.specs.Info.{IsSpentOf};
ghost use Rattle.run_steps.specs.Steps.{Decides, Finds, IsNew};
ghost use Rattle.run_steps.specs.Commands.{asked_match};

use crate::naming::paired_by_names;
use account_core::{Ban, Fact, PairableGraphs};
use account_write::Account;
use ban_book::BanBook;
use check_steps::{Ending, Match, Outcome, Which, read_netlist, report_named};
use cnf_core::{Log, Stop};
use fact_tests::FactBook;
use items::Items;
use match_search::{Found, SearchStart, decide};
use net_core::{Graphs, Matching};
use net_file::Named;
use query_core::Ledger;
use refusal_core::{Core, trim};
use run_steps::conclude;
use shelf_core::Shelf;
use std::alloc::{AllocError, Global};
use watch_core::Watch;

/// What came of a search, and the account that proves it.
#[derive(Drop)]
pub struct Solved {
    pub outcome: Outcome,
    pub account: Account,
}

/// Looks for a match of the two netlists that the words name, and writes the account of the answer. The error is an
/// outcome whose report is one line: a file is no netlist, the budget was spent, or there was a fault.
pub fn match_files<S: Shelf, W: Watch>(
    alloc: Global,
    asked: &Match<'_>,
    shelf: &mut S,
    watch: &W,
) -> Result<Ending, Outcome>
    requires { (S.state shelf.old).mode ≡ Closed }
    ensures { Decides S.tells (asked_match asked.now) (S.state shelf.old) (S.state shelf.new) result }
{
    let first = read_netlist(alloc, shelf, Which::First, asked.first, watch)?;
    let second = read_netlist(alloc, shelf, Which::Second, asked.second, watch)?;
    find_of(alloc, asked, &first, &second, shelf, watch)
}

/// Looks for a match of two netlists, and writes the account once it is whole.
fn find_of<S: Shelf, W: Watch>(
    alloc: Global,
    asked: &Match<'_>,
    first: &Named,
    second: &Named,
    shelf: &mut S,
    watch: &W,
) -> Result<Ending, Outcome>
    requires { (S.state shelf.old).mode ≡ Closed }
    ensures { Finds S.tells first.now second.now asked.now.account.now asked.now.budget
        (S.state shelf.old) (S.state shelf.new) result }
{
    let graphs = Graphs::new(&first.graph, &second.graph);
    let candidates = paired_by_names(alloc, first, second)?;
    let solved = solve(alloc, asked, &graphs, &candidates, watch)?;
    let report = report_named(alloc, first, second, &solved.outcome)?;
    let Solved { outcome, account } = solved;
    conclude(
        alloc,
        shelf,
        asked.account,
        &account,
        Ending { outcome, report },
    )
}

/// Looks for a match of two graphs, for which some matchings are candidates. Where they have other numbers of ports
/// there is nothing to search.
fn solve<W: Watch>(
    alloc: Global,
    asked: &Match<'_>,
    graphs: &Graphs<'_>,
    candidates: &[Matching],
    watch: &W,
) -> Result<Solved, Outcome>
    ensures { Solves graphs.now asked.now.budget result }
{
    let start = SearchStart {
        seed: asked.seed,
        candidates,
    };
    match PairableGraphs::new(graphs) {
        Some(pairable) => solve_by_search(alloc, &pairable, &start, asked.budget, watch),
        None => Ok(other_ports(alloc, graphs)?),
    }
}

/// Searches two graphs with as many ports, with at most `budget` learned clauses.
pub(crate) fn solve_by_search<W: Watch>(
    alloc: Global,
    graphs: &PairableGraphs<'_>,
    start: &SearchStart<'_>,
    budget: u64,
    watch: &W,
) -> Result<Solved, Outcome>
    ensures { Solves graphs.now budget result }
{
    let mut ledger = Ledger::new(alloc, budget);
    match search_in(alloc, graphs, start, &mut ledger, watch) {
        Ok(solved) => Ok(solved),
        Err(Stop::Spent(_)) => Err(Outcome::Spent(ledger)),
        Err(Stop::Memory) => Err(Outcome::Memory),
    }
}

/// Searches two graphs with as many ports, and asks in a new ledger.
fn search_in<'a, W: Watch>(
    alloc: Global,
    graphs: &'a PairableGraphs<'a>,
    start: &SearchStart<'_>,
    ledger: &mut Ledger,
    watch: &'a W,
) -> Result<Solved, Stop>
    requires new { IsNew ledger.old }
    ensures answer { IfOk result (IsSolved graphs.now) }
    ensures spent { (learned : ℕ) → result ≡ Err (Spent learned) → IsSpentOf graphs.now ledger.old.budget ledger.new }
{
    let mut book = FactBook::watched(alloc, graphs.graphs(), start.seed, watch)?;
    let mut bans = BanBook::new(alloc);
    let found = decide(alloc, graphs, &mut book, &mut bans, start, ledger)?;
    Ok(answered(alloc, graphs, found, book.into_facts(), bans.into_bans())?)
}

/// The answer that a search came to by facts and bans, with its account.
fn answered(
    alloc: Global,
    graphs: &PairableGraphs<'_>,
    found: Found,
    facts: Items<Fact>,
    bans: Items<Ban>,
) -> Result<Solved, AllocError>
    requires facts { AreFacts graphs.now facts }
    requires bans { AreValidBans graphs.now (map decided_by facts) bans }
    requires found { IsFound graphs.now bans found }
    ensures { IfOk result (IsSolved graphs.now) }
{
    match found {
        Found::Match(matching, logs) => matched(alloc, graphs, matching, logs),
        Found::None(ban) => refused(alloc, graphs, facts, bans, ban),
    }
}

/// The answer that a matching is a match, with its account.
fn matched(
    alloc: Global,
    graphs: &PairableGraphs<'_>,
    matching: Matching,
    logs: Items<Log>,
) -> Result<Solved, AllocError>
    requires { IsShownMatch graphs.now matching logs }
    ensures { IfOk result (IsSolved graphs.now) }
{
    // a graph's ports are numbers of 32 bits
    let _first = graphs.first();
    let account = Account::of_match(alloc, &matching, logs)?;
    Ok(Solved {
        outcome: Outcome::Matched(matching),
        account,
    })
}

/// The answer that there is no match, by a ban without pairs, with its account.
fn refused(
    alloc: Global,
    graphs: &PairableGraphs<'_>,
    facts: Items<Fact>,
    bans: Items<Ban>,
    number: u64,
) -> Result<Solved, AllocError>
    requires facts { AreFacts graphs.now facts }
    requires bans { AreValidBans graphs.now (map decided_by facts) bans }
    requires empty { IsEmptyBan bans number }
    ensures { IfOk result (IsSolved graphs.now) }
{
    // both circuits have as many ports
    let _ports = graphs.graphs();
    // the gates of a graph are in order, and its ports fewer than 2^32
    let _first = graphs.first();
    let _second = graphs.second();
    let Core {
        facts,
        bans,
        number,
    } = trim(alloc, facts, bans, number)?;
    Ok(Solved {
        outcome: Outcome::NoMatching,
        account: Account::of_refusal(alloc, facts, bans, number)?,
    })
}

/// The answer that there is no match, since the graphs have other numbers of ports, with its account.
fn other_ports(alloc: Global, graphs: &Graphs<'_>) -> Result<Solved, AllocError>
    requires { HaveAsMany graphs.now.first graphs.now.second → ⊥ }
    ensures { IfOk result (IsSolved graphs.now) }
{
    // the gates of a graph are in order, and its ports fewer than 2^32
    let _first = graphs.first();
    let _second = graphs.second();
    Ok(Solved {
        outcome: Outcome::NoMatching,
        account: Account::of_other_ports(alloc)?,
    })
}
