//! Claims whose answers are known, or found by trying all vectors.

ghost use Rattle.std.specs.Prelude.{IsTrue};
ghost use Rattle.claim_core.specs.Claims.{IsClaim, IsPlaced};

use crate::sample_circuits::{AND, AND_OF_THREE, Sample, WIRE, are_small, drawn_pair, pair};
use account_core::{Evidence, Fact, PairableGraphs};
use claim_core::{Claim, Shape};
use cnf_core::Stop;
use fact_tests::FactBook;
use net_core::{Graph, Graphs, Side};
use oracle_core::Oracle;
use query_core::Ledger;
use samples::output_on;
use std::alloc::{AllocError, Global};
use std::test::Fail;
use table_oracle::TableOracle;

/// What an oracle says of a claim, with the number of lines that were learned for it.
#[derive(Clone, Copy, Debug, PartialEq, Eq)]
enum Outcome {
    Fails(u64),
    Holds(u64),
    Spent(u64),
    Memory,
    Unfit,
}

fn is_placed(inputs: u32, shape: Shape) -> bool
    ensures { IsTrue result → IsPlaced inputs shape }
{
    match shape {
        Shape::Up(i) => i < inputs,
        Shape::Down(i) => i < inputs,
        Shape::Swap { i, j, a: _, b: _ } => (i < j) & (j < inputs),
    }
}

fn is_claim(graphs: &Graphs<'_>, claim: Claim) -> bool
    ensures { IsTrue result → IsClaim graphs.now claim }
{
    let graph = graphs.side(claim.side);
    let there = (claim.output as usize) < graph.outputs().len();
    there & is_placed(graph.inputs(), claim.shape)
}

/// A claim about output 0 of the first circuit.
fn of_first(shape: Shape) -> Claim {
    Claim {
        side: Side::First,
        output: 0,
        shape,
    }
}

fn told(answer: &Result<u64, Stop>, facts: &[Fact], learned: u64) -> Outcome {
    match answer {
        Ok(number) => told_by(facts.get(*number as usize), learned),
        Err(Stop::Spent(learned)) => Outcome::Spent(*learned),
        Err(Stop::Memory) => Outcome::Memory,
    }
}

fn told_by(fact: Option<&Fact>, learned: u64) -> Outcome {
    match fact {
        Some(fact) => match fact.evidence {
            Evidence::Fails(_) => Outcome::Fails(learned),
            Evidence::Holds(_) => Outcome::Holds(learned),
        },
        None => Outcome::Unfit,
    }
}

/// What a new book of facts says of a claim.
fn by_book(
    alloc: Global,
    graphs: &Graphs<'_>,
    shape: Shape,
    budget: u64,
) -> Result<Outcome, AllocError> {
    let claim = of_first(shape);
    if !is_claim(graphs, claim) {
        return Ok(Outcome::Unfit);
    }
    let mut book = FactBook::new(alloc, graphs, 1)?;
    let mut ledger = Ledger::new(alloc, budget);
    let answer = book.claim(alloc, claim, &mut ledger);
    Ok(told(&answer, book.facts(), ledger.learned()))
}

/// What a new oracle that tries all vectors says of a claim.
fn by_table(
    alloc: Global,
    graphs: &Graphs<'_>,
    shape: Shape,
    budget: u64,
) -> Result<Outcome, AllocError> {
    let claim = of_first(shape);
    let Some(pairable) = PairableGraphs::new(graphs) else {
        return Ok(Outcome::Unfit);
    };
    if !(are_small(&pairable) & is_claim(graphs, claim)) {
        return Ok(Outcome::Unfit);
    }
    let mut oracle = TableOracle::new(alloc, &pairable)?;
    let mut ledger = Ledger::new(alloc, budget);
    let answer = oracle.claim(alloc, claim, &mut ledger);
    Ok(told(&answer, oracle.facts(), ledger.learned()))
}

/// Claims of an AND gate, each with a budget and with what a book says of it.
static OF_AND_GATE: [(Shape, u64, Outcome); 7] = [
    // it rises with input 0: that is asked
    (Shape::Up(0), 0, Outcome::Spent(0)),
    (Shape::Up(0), 9, Outcome::Holds(1)),
    // it falls with input 0: a vector was seen
    (Shape::Down(0), 0, Outcome::Fails(0)),
    // it doesn't reach input 2, and that costs a line
    (Shape::Up(2), 0, Outcome::Spent(0)),
    (Shape::Up(2), 9, Outcome::Holds(1)),
    (Shape::Down(2), 9, Outcome::Holds(1)),
    (Shape::Up(3), 9, Outcome::Unfit),
];

fn of_and_gate(alloc: Global, shape: Shape, budget: u64) -> Result<Outcome, Fail> {
    let both = pair(alloc, AND_OF_THREE, WIRE)?;
    let graphs = both.graphs();
    Ok(by_book(alloc, &graphs, shape, budget)?)
}

#[test]
fn decides_claims_of_an_and_gate(rt: HostRuntime) -> Result<(), Fail> {
    for (shape, budget, outcome) in OF_AND_GATE.iter() {
        assert_eq!(rt; of_and_gate(rt.alloc(), *shape, *budget)?, *outcome);
    }
    Ok(())
}

/// Claims of the first of two circuits, each with a budget and with what the oracle that tries all vectors says of it.
static CHARGED: [(Sample, Sample, Shape, u64, Outcome); 6] = [
    // four vectors, two values of the first input, and the empty line
    (AND, WIRE, Shape::Up(0), 7, Outcome::Holds(7)),
    (AND, WIRE, Shape::Up(0), 6, Outcome::Spent(6)),
    (AND, WIRE, Shape::Down(0), 0, Outcome::Fails(0)),
    // the clauses of the outputs exclude each vector, and cost nothing
    (WIRE, AND, Shape::Up(0), 9, Outcome::Holds(3)),
    // one of them reads the constant, and so excludes no vector by itself
    (WIRE, AND, Shape::Up(1), 9, Outcome::Holds(7)),
    (WIRE, AND, Shape::Up(2), 9, Outcome::Unfit),
];

fn charged(
    alloc: Global,
    first: Sample,
    second: Sample,
    shape: Shape,
    budget: u64,
) -> Result<Outcome, Fail> {
    let both = pair(alloc, first, second)?;
    let graphs = both.graphs();
    Ok(by_table(alloc, &graphs, shape, budget)?)
}

#[test]
fn charges_each_line(rt: HostRuntime) -> Result<(), Fail> {
    for (first, second, shape, budget, outcome) in CHARGED.iter() {
        let told = charged(rt.alloc(), *first, *second, *shape, *budget)?;
        assert_eq!(rt; told, *outcome);
    }
    Ok(())
}

/// Claims about three inputs, each with a mask of its inputs and with their values.
static SHAPES: [(Shape, u32, u32); 8] = [
    (Shape::Up(0), 1, 0),
    (Shape::Down(1), 2, 2),
    (Shape::Up(2), 4, 0),
    (Shape::Down(2), 4, 4),
    (
        Shape::Swap {
            i: 0,
            j: 1,
            a: false,
            b: true,
        },
        3,
        2,
    ),
    (
        Shape::Swap {
            i: 0,
            j: 2,
            a: true,
            b: true,
        },
        5,
        5,
    ),
    (
        Shape::Swap {
            i: 1,
            j: 2,
            a: true,
            b: false,
        },
        6,
        2,
    ),
    (
        Shape::Swap {
            i: 1,
            j: 2,
            a: false,
            b: false,
        },
        6,
        0,
    ),
];

/// Whether the output of a circuit of three inputs falls where the masked bits of a vector are inverted.
fn falls_at(alloc: Global, graph: &Graph, code: u32, mask: u32) -> Result<bool, Fail> {
    let before = output_on(alloc, graph, code)?;
    let after = output_on(alloc, graph, code ^ mask)?;
    Ok(before & !after)
}

/// Whether the output falls somewhere where the masked inputs go from the values to the opposite ones.
fn falls_somewhere(alloc: Global, graph: &Graph, mask: u32, values: u32) -> Result<bool, Fail> {
    for code in 0..8u32 {
        if (code & mask == values) & falls_at(alloc, graph, code, mask)? {
            return Ok(true);
        }
    }
    Ok(false)
}

/// Whether an outcome is right of a claim about an output that falls somewhere, or nowhere.
fn is_right(outcome: Outcome, falls: bool) -> bool {
    match outcome {
        Outcome::Fails(_) => falls,
        Outcome::Holds(_) => !falls,
        _ => false,
    }
}

/// The first claim that a book decides otherwise than all vectors do.
fn wrong_claim(alloc: Global, graphs: &Graphs<'_>) -> Result<Option<Shape>, Fail> {
    for (shape, mask, values) in SHAPES.iter() {
        let falls = falls_somewhere(alloc, graphs.first(), *mask, *values)?;
        if !is_right(by_book(alloc, graphs, *shape, 999)?, falls) {
            return Ok(Some(*shape));
        }
    }
    Ok(None)
}

fn wrong_claim_of_drawn(alloc: Global, number: u64) -> Result<Option<Shape>, Fail> {
    let both = drawn_pair(alloc, number)?;
    let graphs = both.graphs();
    wrong_claim(alloc, &graphs)
}

#[test]
fn decides_as_all_vectors_do(rt: HostRuntime) -> Result<(), Fail> {
    for number in 0..12u64 {
        assert_eq!(rt;
            (number, wrong_claim_of_drawn(rt.alloc(), number)?),
            (number, None)
        );
    }
    Ok(())
}
