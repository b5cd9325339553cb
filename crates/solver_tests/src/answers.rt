//! Questions whose answers are known, or found by trying all vectors.

ghost use Rattle.std.specs.Prelude.{◌≡◌, ◌<◌, All, IsTrue, false, length};
ghost use Rattle.claim_core.specs.Queries.{IsCone, IsQuery, IsWired};

use crate::refutation::{count_taken, is_refutation, takes_lines};
use crate::truth_tables::outputs;
use ask_core::{Answer, ask};
use claim_core::{Cone, Feed, Feeds, Query};
use cnf_core::Stop;
use items::Items;
use joint_hash::merge;
use net_core::{Graphs, Side};
use query_core::{ConeClauses, Ledger, QueryBase};
use rand_pcg::Pcg32;
use refute_check::Refuter;
use samples::{GraphPair, drawn};
use std::alloc::{AllocError, Global};
use std::test::Fail;

fn is_wired(inputs: u32, feed: Feed) -> bool
    ensures { IsTrue result → IsWired inputs feed }
{
    match feed {
        Feed::Fixed(_) => true,
        Feed::Wire { place, flip: _ } => place < inputs,
    }
}

fn are_wired(inputs: u32, feeds: &Feeds) -> bool
    ensures { IsTrue result → All (IsWired inputs) feeds.now }
{
    for input in 0..feeds.len() {
        if !is_wired(inputs, feeds.get(input)) {
            return false;
        }
    }
    true
}

fn is_cone(graphs: &Graphs<'_>, inputs: u32, cone: &Cone) -> bool
    ensures { IsTrue result → IsCone graphs.now inputs cone.now }
{
    let graph = graphs.side(cone.side);
    if graph.inputs() != inputs || cone.feed.len() != inputs as usize {
        return false;
    }
    if cone.output as usize >= graph.outputs().len() {
        return false;
    }
    are_wired(inputs, &cone.feed)
}

pub fn is_query(graphs: &Graphs<'_>, query: &Query) -> bool
    ensures { IsTrue result → IsQuery graphs.now query.now }
{
    let inputs = graphs.side(query.left.side).inputs();
    is_cone(graphs, inputs, &query.left) && is_cone(graphs, inputs, &query.right)
}

/// Each input gets its own bit, but for the first ones, which get fixed ones.
fn cone_of(alloc: Global, side: Side, inputs: u32, fixed: &[bool]) -> Result<Cone, AllocError> {
    let mut feed = Items::new(alloc);
    for place in 0..inputs {
        match fixed.get(place as usize) {
            Some(bit) => feed.push(Feed::Fixed(*bit))?,
            None => feed.push(Feed::Wire { place, flip: false })?,
        }
    }
    Ok(Cone {
        side,
        output: 0,
        feed: Feeds::from_items(feed),
    })
}

/// Whether the output of the first circuit falls where input 0 rises.
pub fn falls(alloc: Global, inputs: u32) -> Result<Query, AllocError> {
    Ok(Query {
        left: cone_of(alloc, Side::First, inputs, &[false])?,
        left_value: true,
        right: cone_of(alloc, Side::First, inputs, &[true])?,
        right_value: false,
    })
}

/// Whether the first circuit's output can be true where the second one's is false.
pub fn exceeds(alloc: Global, inputs: u32) -> Result<Query, AllocError> {
    Ok(Query {
        left: cone_of(alloc, Side::First, inputs, &[])?,
        left_value: true,
        right: cone_of(alloc, Side::Second, inputs, &[])?,
        right_value: false,
    })
}

/// What a question comes to: the vector's number, or how many lines refute it.
#[derive(Clone, Copy, Debug, PartialEq, Eq)]
enum Outcome {
    Vector(u64),
    Refuted(u64),
    Spent(u64),
    Wrong,
}

fn number_of(bits: &[bool]) -> u64 {
    let mut number = 0;
    for bit in bits.iter() {
        number = number / 2;
        if *bit {
            number |= 1 << 62;
        }
    }
    number >> (63u64.saturating_sub(bits.len() as u64).min(62))
}

/// What an answer to a question comes to, once its log was taken line by line.
fn outcome_of(
    alloc: Global,
    graphs: &Graphs<'_>,
    query: &Query,
    answer: &Answer,
    learned: u64,
) -> Result<Outcome, AllocError>
    requires { IsQuery graphs.now query.now }
{
    match answer {
        Answer::Vector(bits) => Ok(Outcome::Vector(number_of(bits))),
        Answer::Refuted(log) => {
            let base = QueryBase::new(alloc, graphs, query)?;
            if is_refutation(alloc, base, log)? {
                return Ok(Outcome::Refuted(learned));
            }
            Ok(Outcome::Wrong)
        }
    }
}

fn outcome_in(
    alloc: Global,
    graphs: &Graphs<'_>,
    query: &Query,
    ledger: &mut Ledger,
) -> Result<Outcome, AllocError>
    requires { ledger.old.spent ≡ false }
{
    if !is_query(graphs, query) {
        return Ok(Outcome::Wrong);
    }
    match ask(alloc, graphs, query, ledger) {
        Ok(answer) => outcome_of(alloc, graphs, query, &answer, ledger.learned()),
        Err(Stop::Spent(learned)) => Ok(spent_outcome(ledger, learned)),
        Err(Stop::Memory) => Err(AllocError),
    }
}

/// What a spent budget comes to: the ledger says so, and has the one query that was asked.
fn spent_outcome(ledger: &Ledger, learned: u64) -> Outcome {
    if ledger.spent() & (learned == ledger.budget()) & (ledger.asked().len() == 1) {
        Outcome::Spent(learned)
    } else {
        Outcome::Wrong
    }
}

fn asked(
    alloc: Global,
    graphs: &Graphs<'_>,
    query: &Query,
    budget: u64,
) -> Result<Outcome, AllocError> {
    let mut ledger = Ledger::new(alloc, budget);
    outcome_in(alloc, graphs, query, &mut ledger)
}

/// A question about two circuits of two inputs, whose gates and output are given as literals.
struct Row<'a> {
    first: (&'a [(u32, u32)], u32),
    second: (&'a [(u32, u32)], u32),
    falls: bool,
    budget: u64,
    outcome: Outcome,
}

fn query_of(alloc: Global, row: &Row<'_>) -> Result<Query, AllocError> {
    if row.falls {
        falls(alloc, 2)
    } else {
        exceeds(alloc, 2)
    }
}

fn outcome_of_row(alloc: Global, row: &Row<'_>) -> Result<Outcome, Fail> {
    let both = GraphPair::new(alloc, 2, row.first, row.second)?;
    let query = query_of(alloc, row)?;
    Ok(asked(alloc, &both.graphs(), &query, row.budget)?)
}

/// The AND of two inputs: its gate, and its output.
const AND: (&[(u32, u32)], u32) = (&[(2, 4)], 6);

/// Questions that are refuted, have a vector, or take more than the budget.
static ROWS: [Row<'static>; 6] = [
    // the AND doesn't fall where input 0 rises
    Row {
        first: AND,
        second: AND,
        falls: true,
        budget: 0,
        outcome: Outcome::Spent(0),
    },
    Row {
        first: AND,
        second: AND,
        falls: true,
        budget: 1,
        outcome: Outcome::Refuted(1),
    },
    // gate 0 is outside of both cones
    Row {
        first: (&[(3, 5), (2, 4)], 8),
        second: AND,
        falls: true,
        budget: 9,
        outcome: Outcome::Refuted(1),
    },
    // the exclusive or falls where input 1 is 1
    Row {
        first: (&[(2, 5), (3, 4), (7, 9)], 11),
        second: AND,
        falls: true,
        budget: 9,
        outcome: Outcome::Vector(2),
    },
    // an AND is below an OR, and is not below a constant
    Row {
        first: AND,
        second: (&[(3, 5)], 7),
        falls: false,
        budget: 9,
        outcome: Outcome::Refuted(1),
    },
    Row {
        first: AND,
        second: (&[], 0),
        falls: false,
        budget: 9,
        outcome: Outcome::Vector(3),
    },
];

#[test]
fn asks_of_small_circuits(rt: HostRuntime) -> Result<(), Fail> {
    for row in ROWS.iter() {
        assert_eq!(rt; outcome_of_row(rt.alloc(), row)?, row.outcome);
    }
    Ok(())
}

/// Inputs 1 to 4, each with the AND of input 0 and one of inputs 5 to 8 or instead, and of these four either the first
/// two or the last two: it can't fall where input 0 rises, but neither half of it says so alone.
static UNATE: [(u32, u32); 11] = [
    (2, 12),
    (2, 14),
    (2, 16),
    (2, 18),
    (21, 5),
    (23, 7),
    (25, 9),
    (27, 11),
    (29, 31),
    (33, 35),
    (37, 39),
];

fn unate_outcome(alloc: Global, budget: u64) -> Result<Outcome, Fail> {
    let both = GraphPair::new(alloc, 9, (&UNATE, 41), (&[], 0))?;
    let query = falls(alloc, 9)?;
    Ok(asked(alloc, &both.graphs(), &query, budget)?)
}

#[test]
fn polarity_takes_one_line(rt: HostRuntime) -> Result<(), Fail> {
    assert_eq!(rt; unate_outcome(rt.alloc(), 1)?, Outcome::Refuted(1));
    Ok(())
}

/// How many lines an entry has after the lemmas of joint hashing, where a refuter takes all of them.
fn charged_for(
    alloc: Global,
    graphs: &Graphs<'_>,
    query: &Query,
    ledger: &Ledger,
) -> Result<Option<u64>, AllocError>
    requires { IsQuery graphs.now query.now }
{
    let cones = ConeClauses::new(alloc, graphs, query)?;
    let lemmas = merge(alloc, &cones)?;
    let mut refuter = Refuter::new(alloc, QueryBase::new(alloc, graphs, query)?)?;
    if !takes_lines(&mut refuter, &lemmas)? {
        return Ok(None);
    }
    let mut lines = ledger.charged_lines();
    count_taken(alloc, &mut refuter, &mut lines)
}

fn unate_lines(alloc: Global, budget: u64) -> Result<Option<u64>, Fail> {
    let both = GraphPair::new(alloc, 9, (&UNATE, 41), (&[], 0))?;
    let query = falls(alloc, 9)?;
    let graphs = both.graphs();
    let mut ledger = Ledger::new(alloc, budget);
    if !is_query(&graphs, &query) {
        return Ok(None);
    }
    let _ = outcome_in(alloc, &graphs, &query, &mut ledger)?;
    Ok(charged_for(alloc, &graphs, &query, &ledger)?)
}

#[test]
fn lines_stand_after_lemmas(rt: HostRuntime) -> Result<(), Fail> {
    assert_eq!(rt; unate_lines(rt.alloc(), 0)?, Some(1));
    assert_eq!(rt; unate_lines(rt.alloc(), 1)?, Some(1));
    Ok(())
}

fn drawn_graphs(alloc: Global, numbers: &mut Pcg32) -> Result<GraphPair, Fail> {
    Ok(GraphPair {
        first: drawn(alloc, numbers)?,
        second: drawn(alloc, numbers)?,
    })
}

/// Whether the first output is true on some vector where the second one is false.
fn exceeds_somewhere(first: &[bool], second: &[bool]) -> bool {
    first.iter().zip(second.iter()).any(|(a, b)| *a & !*b)
}

/// Whether the answer is what all vectors say.
fn is_right(alloc: Global, graphs: &Graphs<'_>) -> Result<bool, Fail> {
    let first = outputs(alloc, graphs.first())?;
    let second = outputs(alloc, graphs.second())?;
    let query = exceeds(alloc, 3)?;
    match asked(alloc, graphs, &query, 1000)? {
        Outcome::Vector(_) => Ok(exceeds_somewhere(&first, &second)),
        Outcome::Refuted(_) => Ok(!exceeds_somewhere(&first, &second)),
        _ => Ok(false),
    }
}

#[test]
fn agrees_with_all_vectors(rt: HostRuntime) -> Result<(), Fail> {
    let mut numbers = Pcg32::new(7, 54);
    for round in 0..40 {
        let both = drawn_graphs(rt.alloc(), &mut numbers)?;
        assert!(rt; is_right(rt.alloc(), &both.graphs())?, "in round {round}");
    }
    Ok(())
}
