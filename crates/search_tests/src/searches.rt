//! Searches whose answers are known, over both oracles.

ghost use Rattle.std.specs.Prelude.{◌≡◌, [], false};
ghost use Rattle.oracle_core.specs.Oracles.{Suits};
ghost use Rattle.query_core.specs.Ledgers.{Ledgered};

use crate::sample_circuits::{AND, OR, Sample, WIRE_OF_ONE, XOR, ZERO_OF_ONE, are_small, pair};
use account_core::{Ban, Fact, PairableGraphs, Step};
use ban_book::BanBook;
use claim_core::Shape;
use cnf_core::Stop;
use fact_tests::FactBook;
use match_search::{Found, search};
use net_core::Graphs;
use oracle_core::Oracle;
use query_core::Ledger;
use std::alloc::{AllocError, Global};
use std::test::Fail;
use table_oracle::TableOracle;

/// The AND of two inputs, and one of them.
const AND_AND_INPUT: Sample = Sample {
    inputs: 2,
    gates: &[(4, 2)],
    outputs: &[6, 2],
};

/// `AND_AND_INPUT` with its outputs crossed and inverted, and an input inverted.
const CROSSED: Sample = Sample {
    inputs: 2,
    gates: &[(5, 2)],
    outputs: &[5, 7],
};

/// An output that is always 0, without inputs.
const ZERO: Sample = Sample {
    inputs: 0,
    gates: &[],
    outputs: &[0],
};

/// An output that is always 1, without inputs.
const ONE: Sample = Sample {
    inputs: 0,
    gates: &[],
    outputs: &[1],
};

/// Whether exactly two of four inputs are 1.
const TWO_OF_FOUR: Sample = Sample {
    inputs: 4,
    gates: &[
        (4, 2),
        (5, 3),
        (13, 11),
        (8, 6),
        (9, 7),
        (19, 17),
        (18, 10),
        (16, 12),
        (20, 14),
        (25, 23),
        (28, 27),
    ],
    outputs: &[31],
};

/// Whether an odd number of four inputs are 1.
const ODD_OF_FOUR: Sample = Sample {
    inputs: 4,
    gates: &[
        (4, 2),
        (5, 3),
        (13, 11),
        (8, 6),
        (9, 7),
        (19, 17),
        (20, 14),
        (21, 15),
        (25, 23),
    ],
    outputs: &[26],
};

/// The eight products of three inputs, plain or negated: no two outputs are equal.
const DECODER: Sample = Sample {
    inputs: 3,
    gates: &[
        (5, 3),
        (5, 2),
        (4, 3),
        (4, 2),
        (8, 7),
        (10, 7),
        (12, 7),
        (14, 7),
        (8, 6),
        (10, 6),
        (12, 6),
        (14, 6),
    ],
    outputs: &[16, 18, 20, 22, 24, 26, 28, 30],
};

/// The decoder with one product twice, in place of another.
const DECODER_ONE_TWICE: Sample = Sample {
    outputs: &[16, 18, 20, 22, 24, 26, 28, 28],
    ..DECODER
};

/// What a search comes to, with what it leaves.
#[derive(Clone, Copy, Debug, PartialEq, Eq)]
pub(crate) enum Answer {
    /// A match, and how many claims of one input are decided: of both circuits two of each output at each input.
    Match(usize),
    /// No match, and whether a ban is by a vector.
    NoMatch { by_vector: bool },
    Stopped,
}

fn answer_of(found: &Result<Found, Stop>, facts: &[Fact], bans: &[Ban]) -> Answer {
    match found {
        Ok(Found::Match(_, _)) => Answer::Match(of_one_input(facts)),
        Ok(Found::None(_)) => Answer::NoMatch {
            by_vector: bans.iter().any(|ban| is_vector(&ban.step)),
        },
        Err(_) => Answer::Stopped,
    }
}

fn of_one_input(facts: &[Fact]) -> usize {
    facts
        .iter()
        .filter(|fact| has_one_input(fact.claim.shape))
        .count()
}

fn has_one_input(shape: Shape) -> bool {
    match shape {
        Shape::Up(_) | Shape::Down(_) => true,
        Shape::Swap { .. } => false,
    }
}

fn is_vector(step: &Step) -> bool {
    match step {
        Step::Vector { .. } => true,
        _ => false,
    }
}

/// What a search over a new oracle comes to.
fn found_by<O: Oracle>(alloc: Global, graphs: &PairableGraphs<'_>, oracle: &mut O) -> Answer
    requires graphs { graphs.now ≡ (O.known oracle.old).graphs }
    requires suits { (ledger : Ledgered)
        → ledger.asked ≡ []
        → ledger.spent ≡ false
        → Suits (O.known oracle.old) ledger }
{
    let mut book = BanBook::new(alloc);
    let mut ledger = Ledger::new(alloc, 1_000_000);
    let found = search(alloc, graphs, oracle, &mut book, 1, &mut ledger);
    answer_of(&found, oracle.facts(), book.bans())
}

/// What a search over the oracle that tries all vectors finds.
fn by_table(alloc: Global, graphs: &PairableGraphs<'_>) -> Result<Answer, AllocError> {
    if !are_small(graphs) {
        return Ok(Answer::Stopped);
    }
    let mut oracle = TableOracle::new(alloc, graphs)?;
    Ok(found_by(alloc, graphs, &mut oracle))
}

/// What a search over the book of facts finds.
pub(crate) fn by_book(alloc: Global, graphs: &PairableGraphs<'_>) -> Result<Answer, AllocError> {
    let mut oracle = FactBook::new(alloc, graphs.graphs(), 1)?;
    Ok(found_by(alloc, graphs, &mut oracle))
}

/// What is found over both oracles.
fn by_both(alloc: Global, graphs: &Graphs<'_>) -> Result<(Answer, Answer), AllocError> {
    match PairableGraphs::new(graphs) {
        Some(graphs) => Ok((by_table(alloc, &graphs)?, by_book(alloc, &graphs)?)),
        None => Ok((Answer::Stopped, Answer::Stopped)),
    }
}

fn found(alloc: Global, first: Sample, second: Sample) -> Result<(Answer, Answer), Fail> {
    let both = pair(alloc, first, second)?;
    let graphs = both.graphs();
    Ok(by_both(alloc, &graphs)?)
}

/// Two circuits by name, and what a search of them comes to.
static SEARCHES: [(&str, Sample, Sample, Answer); 7] = [
    ("AND, OR", AND, OR, Answer::Match(8)),
    ("two outputs", AND_AND_INPUT, CROSSED, Answer::Match(16)),
    ("constants", ZERO, ONE, Answer::Match(0)),
    ("AND, XOR", AND, XOR, Answer::NoMatch { by_vector: false }),
    (
        "a constant, an input",
        ZERO_OF_ONE,
        WIRE_OF_ONE,
        Answer::NoMatch { by_vector: false },
    ),
    (
        "two or odd of four",
        TWO_OF_FOUR,
        ODD_OF_FOUR,
        Answer::NoMatch { by_vector: false },
    ),
    (
        "a decoder, one product twice",
        DECODER,
        DECODER_ONE_TWICE,
        Answer::NoMatch { by_vector: true },
    ),
];

#[test]
fn both_oracles_find_the_same(rt: HostRuntime) -> Result<(), Fail> {
    for (name, first, second, answer) in SEARCHES.iter() {
        let (by_table, by_book) = found(rt.alloc(), *first, *second)?;
        assert_eq!(rt; (*name, by_table, by_book), (*name, *answer, *answer));
    }
    Ok(())
}
