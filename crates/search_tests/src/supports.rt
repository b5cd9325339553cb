//! Supports of outputs, and how many claims are decided for them.

use crate::sample_circuits::{AND_OF_THREE, Sample, WIRE, pair};
use claim_core::{OutputInfo, Unate};
use fact_tests::{FactBook, info};
use net_core::Graphs;
use oracle_core::Oracle;
use query_core::Ledger;
use std::alloc::{AllocError, Global};
use std::test::Fail;

/// A constant of three inputs.
const CONSTANT: Sample = Sample {
    inputs: 3,
    gates: &[],
    outputs: &[1],
};

/// Input 3, inverted where input 0 chooses a 1 from inputs 1 and 4.
const CHOICE: Sample = Sample {
    inputs: 5,
    gates: &[(2, 4), (3, 10), (13, 15), (17, 8), (16, 9), (19, 21)],
    outputs: &[22],
};

/// A circuit of one output; with a budget, how many claims `info` decides of it, and the output's support.
static INFORMED: [(Sample, u64, usize, &[(u32, Unate)]); 3] = [
    // a constant reaches no input
    (CONSTANT, 0, 0, &[]),
    // two claims of either of two inputs; that they may be exchanged is seen at the gate that both feed, and both are
    // positive, so that inverted they may not
    (
        AND_OF_THREE,
        99,
        4,
        &[(0, Unate::Positive), (1, Unate::Positive)],
    ),
    // each claim of the four inputs fails, and each first swap of the six pairs
    (
        CHOICE,
        0,
        20,
        &[
            (0, Unate::Binate),
            (1, Unate::Binate),
            (3, Unate::Binate),
            (4, Unate::Binate),
        ],
    ),
];

fn is_support(rows: &[OutputInfo], support: &[(u32, Unate)]) -> bool {
    match rows {
        [row] => row.support.as_slice() == support,
        _ => false,
    }
}

/// How many claims were decided of a circuit where its one output has this support; None where the answer is otherwise.
fn claims_of(
    alloc: Global,
    graphs: &Graphs<'_>,
    budget: u64,
    support: &[(u32, Unate)],
) -> Result<Option<usize>, AllocError> {
    let mut book = FactBook::new(alloc, graphs, 1)?;
    let mut ledger = Ledger::new(alloc, budget);
    let told = match info(alloc, graphs, &mut book, &mut ledger) {
        Ok(rows) => is_support(rows.as_slice(), support),
        Err(_) => false,
    };
    Ok(told.then_some(book.facts().len()))
}

fn claims_of_sample(
    alloc: Global,
    sample: Sample,
    budget: u64,
    support: &[(u32, Unate)],
) -> Result<Option<usize>, Fail> {
    let both = pair(alloc, sample, WIRE)?;
    let graphs = both.graphs();
    Ok(claims_of(alloc, &graphs, budget, support)?)
}

#[test]
fn asks_of_reached_inputs_alone(rt: HostRuntime) -> Result<(), Fail> {
    for (sample, budget, claims, support) in INFORMED.iter() {
        let decided = claims_of_sample(rt.alloc(), *sample, *budget, support)?;
        assert_eq!(rt; decided, Some(*claims));
    }
    Ok(())
}
