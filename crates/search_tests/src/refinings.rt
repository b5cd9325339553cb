//! Refining whose answers are known.

ghost use Rattle.std.specs.Prelude.{◌≡◌, [], IfOk, IsTrue, List, OnOk, false};
ghost use Rattle.account_core.specs.Given.{Decided as AnyFact};
ghost use Rattle.pair_domains.specs.Trails.{IsFreePort, IsOpen, IsPairOf};
ghost use Rattle.pair_search.specs.Grounded.{AreGrounded};
ghost use Rattle.pair_search.specs.Justified.{IsTrail};
ghost use Rattle.net_core.specs.declared.graphs.Side.TheVariants as AnySide;
ghost use Rattle.oracle_core.specs.Oracles.{Suits};
ghost use Rattle.query_core.specs.Ledgers.{Ledgered};

use crate::sample_circuits::{
    AND, Sample, WIRE_OF_ONE, XOR, ZERO_OF_ONE, are_small, pair, port_pair,
};
use account_core::{Ban, PairableGraphs};
use ban_book::BanBook;
use broken_claims::BrokenClaims;
use circuits::{Pair, PortKind};
use class_refine::{Cause, Domains, Refined, refine};
use cnf_core::Stop;
use fact_bans::Asker;
use net_core::{Graphs, Side};
use oracle_core::Oracle;
use pair_search::{Deletion, Mismatches, deletion_of, is_open};
use query_core::Ledger;
use std::alloc::{AllocError, Global};
use std::test::Fail;
use table_oracle::TableOracle;

/// What refining comes to.
#[derive(Clone, Copy, Debug, PartialEq, Eq)]
enum Outcome {
    /// It is stable, and this many pairs are assigned or deleted.
    Stable(usize),
    /// A ban of this many pairs is within the assigned ones.
    Dead(usize),
    /// Of another kind.
    Other,
}

fn outcome_of(answer: &Result<Refined, Stop>, entries: usize, bans: &[Ban]) -> Outcome {
    match answer {
        Ok(Refined::Stable) => Outcome::Stable(entries),
        Ok(Refined::Dead(number)) => dead_by(bans.get(*number as usize)),
        Err(_) => Outcome::Other,
    }
}

fn dead_by(ban: Option<&Ban>) -> Outcome {
    match ban {
        Some(ban) => Outcome::Dead(ban.pairs.len()),
        None => Outcome::Other,
    }
}

/// All pairs of two circuits are open.
fn all_open(alloc: Global, graphs: &PairableGraphs<'_>) -> Result<Domains, AllocError>
    ensures trail { IfOk result (λ domains. IsTrail graphs.now [] domains) }
    ensures shown { IfOk result (λ domains. (facts : List AnyFact) → AreGrounded graphs.now facts domains.entries) }
{
    // both circuits have as many ports
    let _ports = graphs.graphs();
    Domains::new(
        alloc,
        graphs.ports(PortKind::Input),
        graphs.ports(PortKind::Output),
    )
}

/// Whether a pair is open, and no pair of its ports is assigned.
fn is_free(domains: &Domains, pair: Pair) -> bool
    ensures known { IsTrue result → IsPairOf domains.now.inputs domains.now.outputs pair }
    ensures open { IsTrue result → IsOpen domains.now.entries pair }
    ensures from { IsTrue result → IsFreePort domains.now.entries AnySide.First pair.kind pair.from }
    ensures to { IsTrue result → IsFreePort domains.now.entries AnySide.Second pair.kind pair.to }
{
    if !is_open(domains, pair) {
        return false;
    }
    if domains
        .assigned(Side::First, pair.kind, pair.from)
        .is_some()
    {
        return false;
    }
    domains.assigned(Side::Second, pair.kind, pair.to).is_none()
}

/// Assigns a pair, if it is free.
fn assign(graphs: &PairableGraphs<'_>, domains: &mut Domains, pair: Pair) -> Result<(), AllocError>
    requires trail { IsTrail graphs.now [] domains.old }
    requires shown { (facts : List AnyFact) → AreGrounded graphs.now facts domains.old.entries }
    ensures trail { OnOk result (IsTrail graphs.now [] domains.new) }
    ensures shown { OnOk result ((facts : List AnyFact) → AreGrounded graphs.now facts domains.new.entries) }
{
    // its contract alone speaks of the circuits
    let _ = graphs;
    if !is_free(domains, pair) {
        return Ok(());
    }
    domains.assign(pair, Cause::Choice)?;
    Ok(())
}

/// Assigns some pairs, each if it is free.
fn assign_all(
    graphs: &PairableGraphs<'_>,
    domains: &mut Domains,
    pairs: &[Pair],
) -> Result<(), AllocError>
    requires trail { IsTrail graphs.now [] domains.old }
    requires shown { (facts : List AnyFact) → AreGrounded graphs.now facts domains.old.entries }
    ensures trail { OnOk result (IsTrail graphs.now [] domains.new) }
    ensures shown { OnOk result ((facts : List AnyFact) → AreGrounded graphs.now facts domains.new.entries) }
{
    for pair in pairs.iter() {
        assign(graphs, domains, *pair)?;
    }
    Ok(())
}

/// What refining over a new oracle comes to, and what becomes of a pair by it.
fn refined_by<O: Oracle>(
    alloc: Global,
    graphs: &PairableGraphs<'_>,
    oracle: &mut O,
    domains: &mut Domains,
    asked: Pair,
) -> Result<(Outcome, Fate), AllocError>
    requires graphs { graphs.now ≡ (O.known oracle.old).graphs }
    requires suits { (ledger : Ledgered)
        → ledger.asked ≡ []
        → ledger.spent ≡ false
        → Suits (O.known oracle.old) ledger }
    requires trail { IsTrail graphs.now [] domains.old }
    requires shown { (facts : List AnyFact) → AreGrounded graphs.now facts domains.old.entries }
{
    // the facts of an oracle are of its circuits
    let _facts = oracle.facts();
    let mut broken = BrokenClaims::new(alloc, graphs, 1)?;
    let mut book = BanBook::new(alloc);
    let mut ledger = Ledger::new(alloc, 1_000_000);
    let mut asker = Asker {
        alloc,
        oracle,
        broken: &mut broken,
        ledger: &mut ledger,
    };
    let answer = refine(graphs, &mut asker, domains, &mut book);
    let outcome = outcome_of(&answer, domains.entries().len(), book.bans());
    let fate = fate_of(alloc, graphs, domains, asked, &mut book)?;
    Ok((outcome, fate))
}

/// What became of a pair.
#[derive(Clone, Copy, Debug, PartialEq, Eq)]
enum Fate {
    /// It isn't deleted.
    Left,
    /// It clashes with this assigned pair.
    Clashes(Pair),
    /// A ban of this many pairs excludes it.
    Banned(usize),
    /// It isn't of these circuits.
    Unknown,
}

/// What became of a pair, by what excludes it.
fn fate_of(
    alloc: Global,
    graphs: &PairableGraphs<'_>,
    domains: &Domains,
    pair: Pair,
    book: &mut BanBook,
) -> Result<Fate, AllocError>
    requires { IsTrail graphs.now book.old domains.now }
{
    if !is_of(domains, pair) {
        return Ok(Fate::Unknown);
    }
    let mut made = Mismatches::new(alloc);
    let deletion = deletion_of(alloc, graphs, domains, pair, &mut made, book)?;
    Ok(match deletion {
        None => Fate::Left,
        Some(Deletion::Clash(with)) => Fate::Clashes(with),
        Some(Deletion::Ban(number)) => banned_by(book.bans().get(number as usize)),
    })
}

/// Whether a pair is of ports that exist.
fn is_of(domains: &Domains, pair: Pair) -> bool
    ensures { IsTrue result → IsPairOf domains.now.inputs domains.now.outputs pair }
{
    let count = domains.ports(pair.kind);
    (pair.from < count) & (pair.to < count)
}

fn banned_by(ban: Option<&Ban>) -> Fate {
    match ban {
        Some(ban) => Fate::Banned(ban.pairs.len()),
        None => Fate::Unknown,
    }
}

/// What refining by all vectors comes to where pairs are assigned, and what becomes of a pair by it.
fn refined_beside(
    alloc: Global,
    graphs: &PairableGraphs<'_>,
    assigned: &[Pair],
    asked: Pair,
) -> Result<(Outcome, Fate), AllocError> {
    if !are_small(graphs) {
        return Ok((Outcome::Other, Fate::Unknown));
    }
    let mut oracle = TableOracle::new(alloc, graphs)?;
    let mut domains = all_open(alloc, graphs)?;
    assign_all(graphs, &mut domains, assigned)?;
    refined_by(alloc, graphs, &mut oracle, &mut domains, asked)
}

fn refined_of(
    alloc: Global,
    graphs: &Graphs<'_>,
    assigned: &[Pair],
    asked: Pair,
) -> Result<(Outcome, Fate), AllocError> {
    match PairableGraphs::new(graphs) {
        Some(graphs) => refined_beside(alloc, &graphs, assigned, asked),
        None => Ok((Outcome::Other, Fate::Unknown)),
    }
}

fn refined(
    alloc: Global,
    first: Sample,
    second: Sample,
    assigned: &[Pair],
    asked: Pair,
) -> Result<(Outcome, Fate), Fail> {
    let both = pair(alloc, first, second)?;
    let graphs = both.graphs();
    Ok(refined_of(alloc, &graphs, assigned, asked)?)
}

/// The only outputs of two circuits, as they are.
const OUTPUT: Pair = port_pair!(Output, 0, 0, false);

/// The only outputs, inverted.
const OUTPUT_NEGATED: Pair = port_pair!(Output, 0, 0, true);

/// The first inputs, as they are.
const ONE_TO_ONE: Pair = port_pair!(Input, 0, 0, false);

/// The first inputs, inverted.
const ONE_TO_ONE_NEGATED: Pair = port_pair!(Input, 0, 0, true);

/// The second inputs, as they are.
const OTHER_TO_OTHER: Pair = port_pair!(Input, 1, 1, false);

/// The first circuit's first input and the second one's second.
const ONE_TO_OTHER: Pair = port_pair!(Input, 0, 1, false);

/// The first circuit's second input and the second one's first.
const OTHER_TO_ONE: Pair = port_pair!(Input, 1, 0, false);

/// A third input, which circuits of two inputs don't have.
const NO_INPUT: Pair = port_pair!(Input, 2, 0, false);

/// Two circuits by name, the pairs that are assigned, and what refining comes to.
static REFININGS: [(&str, Sample, Sample, &[Pair], Outcome); 7] = [
    // both ways of the output are deleted: the one output depends on its input, and the other one doesn't
    (
        "a constant, an input",
        ZERO_OF_ONE,
        WIRE_OF_ONE,
        &[],
        Outcome::Dead(0),
    ),
    (
        "with their outputs paired",
        ZERO_OF_ONE,
        WIRE_OF_ONE,
        &[OUTPUT],
        Outcome::Dead(1),
    ),
    // of the ten signed pairs three are assigned, and the others clash with them
    (
        "AND, AND",
        AND,
        AND,
        &[ONE_TO_ONE, OTHER_TO_OTHER, OUTPUT],
        Outcome::Stable(10),
    ),
    (
        "XOR, XOR with its inputs exchanged",
        XOR,
        XOR,
        &[ONE_TO_OTHER, OTHER_TO_ONE, OUTPUT],
        Outcome::Stable(10),
    ),
    // the output's other way clashes, and rising outputs have no input negated
    (
        "AND, AND with the outputs paired",
        AND,
        AND,
        &[OUTPUT],
        Outcome::Stable(6),
    ),
    (
        "AND, AND with an input negated",
        AND,
        AND,
        &[ONE_TO_ONE_NEGATED, OUTPUT],
        Outcome::Dead(2),
    ),
    ("AND, AND, all open", AND, AND, &[], Outcome::Stable(0)),
];

#[test]
fn refines_small_circuits(rt: HostRuntime) -> Result<(), Fail> {
    for (name, first, second, assigned, outcome) in REFININGS.iter() {
        let (found, _) = refined(rt.alloc(), *first, *second, assigned, OUTPUT)?;
        assert_eq!(rt; (*name, found), (*name, *outcome));
    }
    Ok(())
}

/// Pairs of the ports of two ANDs whose outputs are paired, and what becomes of them: the output's other way clashes,
/// and an input that is inverted would make the output fall where the other one rises.
static FATES: [(Pair, Fate); 6] = [
    (OUTPUT, Fate::Left),
    (OUTPUT_NEGATED, Fate::Clashes(OUTPUT)),
    (ONE_TO_ONE, Fate::Left),
    (ONE_TO_OTHER, Fate::Left),
    (ONE_TO_ONE_NEGATED, Fate::Banned(2)),
    (NO_INPUT, Fate::Unknown),
];

#[test]
fn gives_the_reasons_of_deleted_pairs(rt: HostRuntime) -> Result<(), Fail> {
    for (asked, fate) in FATES.iter() {
        let (_, found) = refined(rt.alloc(), AND, AND, &[OUTPUT], *asked)?;
        assert_eq!(rt; (*asked, found), (*asked, *fate));
    }
    Ok(())
}
