//! Outputs that are compared with those that a matching sends them to.

ghost use Rattle.std.specs.Prelude.{◌≡◌, IsTrue, length};
ghost use Rattle.circuits.specs.Matches.{HavePorts};

use crate::sample_circuits::{AND, OR, Sample, pair};
use cnf_core::Stop;
use fact_tests::FactBook;
use net_core::{Graphs, Matching};
use oracle_core::{Compared, Oracle};
use query_core::Ledger;
use samples::matching;
use std::alloc::{AllocError, Global};
use std::test::Fail;

/// What a book says of two outputs.
#[derive(Clone, Copy, Debug, PartialEq, Eq)]
enum Comparison {
    Same,
    Differs,
    Spent(u64),
    Memory,
    Unfit,
}

fn told(answer: &Result<Compared, Stop>) -> Comparison {
    match answer {
        Ok(Compared::Same(_, _)) => Comparison::Same,
        Ok(Compared::Differs(_)) => Comparison::Differs,
        Err(Stop::Spent(learned)) => Comparison::Spent(*learned),
        Err(Stop::Memory) => Comparison::Memory,
    }
}

/// Whether a matching is of the ports of two circuits of this many outputs each.
fn are_ports(graphs: &Graphs<'_>, matching: &Matching, outputs: u32) -> bool
    ensures ports { IsTrue result
        → HavePorts graphs.now.first graphs.now.second matching.now.inputs matching.now.outputs }
    ensures outputs { IsTrue result → length graphs.now.first.outputs ≡ outputs }
{
    let inputs = graphs.first().inputs();
    let alike = inputs == graphs.second().inputs();
    let count = outputs as usize;
    let all = (graphs.first().outputs().len() == count)
        & (graphs.second().outputs().len() == count);
    alike & all & matching.check_shape(inputs, outputs)
}

/// What a new book says of output 0 and its partner.
fn compared(
    alloc: Global,
    graphs: &Graphs<'_>,
    matching: &Matching,
    budget: u64,
) -> Result<Comparison, AllocError> {
    if !are_ports(graphs, matching, 1) {
        return Ok(Comparison::Unfit);
    }
    let mut book = FactBook::new(alloc, graphs, 1)?;
    let mut ledger = Ledger::new(alloc, budget);
    let answer = book.compare(alloc, matching, 0, &mut ledger);
    Ok(told(&answer))
}

/// What a new book says where each port goes to the one of its number, or to its inverse.
fn with_all_signs(
    alloc: Global,
    graphs: &Graphs<'_>,
    flip: bool,
    budget: u64,
) -> Result<Comparison, AllocError> {
    let matching = matching(alloc, &[(0, flip), (1, flip)], &[(0, flip)])?;
    compared(alloc, graphs, &matching, budget)
}

fn and_with_or(alloc: Global, flip: bool, budget: u64) -> Result<Comparison, Fail> {
    let both = pair(alloc, AND, OR)?;
    let graphs = both.graphs();
    Ok(with_all_signs(alloc, &graphs, flip, budget)?)
}

/// Whether all signs are inverted; with a budget, what a book says of an AND and an OR.
static COMPARED: [(bool, u64, Comparison); 3] = [
    (true, 0, Comparison::Spent(0)),
    (true, 99, Comparison::Same),
    (false, 99, Comparison::Differs),
];

#[test]
fn compares_an_and_with_an_or(rt: HostRuntime) -> Result<(), Fail> {
    for (flip, budget, comparison) in COMPARED.iter() {
        assert_eq!(rt; and_with_or(rt.alloc(), *flip, *budget)?, *comparison);
    }
    Ok(())
}

/// The exclusive or and the AND of two inputs.
const HALF_ADDER: Sample = Sample {
    inputs: 2,
    gates: &[(4, 2), (5, 3), (9, 7)],
    outputs: &[10, 6],
};

/// The same two functions, the exclusive or by the OR of two other products, and the AND by a gate of its own.
const OTHER_HALF_ADDER: Sample = Sample {
    inputs: 2,
    gates: &[(5, 2), (4, 3), (9, 7), (4, 2)],
    outputs: &[11, 12],
};

/// What one book says of output 0, and then of output 1.
fn compared_in_turn(
    alloc: Global,
    graphs: &Graphs<'_>,
    matching: &Matching,
) -> Result<(Comparison, Comparison), AllocError> {
    if !are_ports(graphs, matching, 2) {
        return Ok((Comparison::Unfit, Comparison::Unfit));
    }
    let mut book = FactBook::new(alloc, graphs, 1)?;
    let mut ledger = Ledger::new(alloc, 99);
    let Ok(first) = book.compare(alloc, matching, 0, &mut ledger) else {
        return Ok((Comparison::Unfit, Comparison::Unfit));
    };
    let second = book.compare(alloc, matching, 1, &mut ledger);
    Ok((told(&Ok(first)), told(&second)))
}

/// Whether what one book says of both outputs, the second by what it learned of the first, is what is expected.
fn are_compared(
    alloc: Global,
    outputs: &[(u32, bool); 2],
    expected: (Comparison, Comparison),
) -> Result<bool, Fail> {
    let both = pair(alloc, HALF_ADDER, OTHER_HALF_ADDER)?;
    let graphs = both.graphs();
    let matching = matching(alloc, &[(0, false), (1, false)], outputs)?;
    let told = compared_in_turn(alloc, &graphs, &matching)?;
    Ok(told == expected)
}

#[test]
fn compares_the_outputs_of_one_table(rt: HostRuntime) -> Result<(), Fail> {
    let alloc = rt.alloc();
    let same = (Comparison::Same, Comparison::Same);
    let differ = (Comparison::Differs, Comparison::Differs);
    let both = are_compared(alloc, &[(0, false), (1, false)], same)?;
    let exchanged = are_compared(alloc, &[(1, false), (0, false)], differ)?;
    assert!(rt; both & exchanged);
    Ok(())
}
