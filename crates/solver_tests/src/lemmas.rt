//! Lemmas that merge gates of one structure.

ghost use Rattle.claim_core.specs.Queries.{IsQuery};

use crate::answers::{exceeds, falls, is_query};
use crate::queries::{are_literals, match_query};
use claim_core::Query;
use cnf_core::LogLine;
use joint_hash::{merge, refute};
use net_core::{Graphs, Matching};
use query_core::ConeClauses;
use samples::{GraphPair, matching};
use std::alloc::{AllocError, Global};
use std::test::Fail;

fn lemmas_of(alloc: Global, graphs: &Graphs<'_>, query: &Query) -> Result<Vec<LogLine>, AllocError>
    requires { IsQuery graphs.now query.now }
{
    let cones = ConeClauses::new(alloc, graphs, query)?;
    merge(alloc, &cones)
}

fn are_clauses(lines: &[LogLine], expected: &[[u64; 2]]) -> bool {
    for (line, numbers) in lines.iter().zip(expected.iter()) {
        if !are_literals(line.clause.as_slice(), numbers) {
            return false;
        }
    }
    lines.len() == expected.len()
}

fn has_lemmas(
    alloc: Global,
    graphs: &Graphs<'_>,
    query: &Query,
    expected: &[[u64; 2]],
) -> Result<bool, AllocError> {
    if !is_query(graphs, query) {
        return Ok(false);
    }
    let lines = lemmas_of(alloc, graphs, query)?;
    Ok(are_clauses(&lines, expected))
}

/// Gates of two circuits of two inputs, with their outputs, and the lemmas: the literals of each clause.
struct Row<'a> {
    first: (&'a [(u32, u32)], u32),
    second: (&'a [(u32, u32)], u32),
    lemmas: &'a [[u64; 2]],
}

/// That the only gates of two circuits are equal: a clause for each direction.
const BOTH_WAYS: &[[u64; 2]] = &[[7, 8], [6, 9]];

/// Variables 1 and 2 are the inputs, those of the first circuit's gates and then of the second one's follow.
static ROWS: [Row<'static>; 8] = [
    // an AND, and one with its operands exchanged
    Row {
        first: (&[(2, 4)], 6),
        second: (&[(4, 2)], 6),
        lemmas: BOTH_WAYS,
    },
    Row {
        first: (&[(2, 4)], 6),
        second: (&[(3, 4)], 6),
        lemmas: &[],
    },
    // of an operand twice, of the constant, and of a signal and its opposite
    Row {
        first: (&[(2, 2)], 6),
        second: (&[(2, 2)], 6),
        lemmas: BOTH_WAYS,
    },
    Row {
        first: (&[(1, 2)], 6),
        second: (&[(2, 1)], 7),
        lemmas: BOTH_WAYS,
    },
    Row {
        first: (&[(4, 5)], 6),
        second: (&[(5, 4)], 7),
        lemmas: BOTH_WAYS,
    },
    // gates of gates, one of them read inverted
    Row {
        first: (&[(2, 4), (7, 3)], 8),
        second: (&[(4, 2), (3, 7)], 8),
        lemmas: &[[7, 10], [6, 11], [9, 12], [8, 13]],
    },
    // two gates of one circuit, and a gate of both
    Row {
        first: (&[(2, 4), (4, 2), (6, 8)], 10),
        second: (&[], 0),
        lemmas: BOTH_WAYS,
    },
    // a gate outside of the cone
    Row {
        first: (&[(2, 4), (2, 5)], 8),
        second: (&[(4, 2)], 6),
        lemmas: &[],
    },
];

fn row_holds(alloc: Global, row: &Row<'_>) -> Result<bool, Fail> {
    let both = GraphPair::new(alloc, 2, row.first, row.second)?;
    let query = exceeds(alloc, 2)?;
    Ok(has_lemmas(alloc, &both.graphs(), &query, row.lemmas)?)
}

#[test]
fn merges_gates_of_one_structure(rt: HostRuntime) -> Result<(), Fail> {
    for (place, row) in ROWS.iter().enumerate() {
        assert!(rt; row_holds(rt.alloc(), row)?, "in row {place}");
    }
    Ok(())
}

/// Gates of a circuit of three inputs and its output, and the lemmas where input 0 is 0 in the left cone and 1 in the
/// right one.
static RISES: [(&[(u32, u32)], u32, &[[u64; 2]]); 5] = [
    // an OR of two ANDs: each AND implies its copy, and the copy of the gate that is read inverted implies it
    (
        &[(2, 4), (2, 6), (9, 11)],
        13,
        &[[9, 14], [11, 16], [19, 12]],
    ),
    // propagation goes down from the output to that gate
    (
        &[(2, 4), (2, 6), (9, 11), (13, 4)],
        14,
        &[[9, 16], [11, 18], [21, 12]],
    ),
    // and where no gate has two such operands, to the inputs
    (&[(2, 4), (9, 7)], 11, &[]),
    // the OR inverted falls
    (&[(2, 4), (2, 6), (9, 11)], 12, &[]),
    // an exclusive or rises and falls
    (&[(2, 5), (3, 4), (9, 11)], 13, &[]),
];

fn rise_holds(
    alloc: Global,
    gates: &[(u32, u32)],
    output: u32,
    lemmas: &[[u64; 2]],
) -> Result<bool, Fail> {
    let both = GraphPair::new(alloc, 3, (gates, output), (&[], 0))?;
    let query = falls(alloc, 3)?;
    Ok(has_lemmas(alloc, &both.graphs(), &query, lemmas)?)
}

#[test]
fn implies_copies_by_polarity(rt: HostRuntime) -> Result<(), Fail> {
    for (gates, output, lemmas) in RISES.iter() {
        assert!(rt;
            rise_holds(rt.alloc(), gates, *output, lemmas)?,
            "at {gates:?} {output}"
        );
    }
    Ok(())
}

/// Whether the query of a match for its one output, where it is true, has these lemmas.
fn has_match_lemmas(
    alloc: Global,
    graphs: &Graphs<'_>,
    matching: &Matching,
    expected: &[[u64; 2]],
) -> Result<bool, AllocError> {
    let Some(query) = match_query(alloc, graphs, matching, true)? else {
        return Ok(false);
    };
    let lines = lemmas_of(alloc, graphs, &query)?;
    Ok(are_clauses(&lines, expected))
}

#[test]
fn merges_what_a_match_asks(rt: HostRuntime) -> Result<(), Fail> {
    let both = GraphPair::new(rt.alloc(), 2, (&[(2, 4)], 6), (&[(4, 2)], 6))?;
    let identity = matching(rt.alloc(), &[(0, false), (1, false)], &[(0, false)])?;
    assert!(rt; has_match_lemmas(rt.alloc(), &both.graphs(), &identity, BOTH_WAYS)?);
    Ok(())
}

/// How many lemmas a refutation by structure needs, if there is one.
fn needed_for(
    alloc: Global,
    graphs: &Graphs<'_>,
    query: &Query,
) -> Result<Option<usize>, AllocError>
    requires { IsQuery graphs.now query.now }
{
    let cones = ConeClauses::new(alloc, graphs, query)?;
    let Some(refutation) = refute(alloc, &cones)? else {
        return Ok(None);
    };
    Ok(Some(refutation.lemmas.len()))
}

/// Whether the query of a match for its one output, where it is true, is refuted by structure with so many lemmas.
fn needs_lemmas(
    alloc: Global,
    both: &GraphPair,
    matching: &Matching,
    expected: Option<usize>,
) -> Result<bool, AllocError> {
    let graphs = both.graphs();
    let Some(query) = match_query(alloc, &graphs, matching, true)? else {
        return Ok(false);
    };
    let found = needed_for(alloc, &graphs, &query)?;
    Ok(found == expected)
}

/// Gates of two circuits of two inputs, with their outputs, and how many lemmas their comparison needs.
struct Compared<'a> {
    first: (&'a [(u32, u32)], u32),
    second: (&'a [(u32, u32)], u32),
    lemmas: Option<usize>,
}

/// Comparisons that need no lemmas, that need one, and that lemmas don't settle.
static COMPARED: [Compared<'static>; 4] = [
    // propagation goes through one pair of gates
    Compared {
        first: (&[(2, 4)], 6),
        second: (&[(4, 2)], 6),
        lemmas: Some(0),
    },
    // an exclusive or: of the two pairs below the topmost one goes by a lemma
    Compared {
        first: (&[(2, 5), (3, 4), (7, 9)], 11),
        second: (&[(4, 3), (2, 5), (7, 9)], 11),
        lemmas: Some(1),
    },
    // another tree
    Compared {
        first: (&[(2, 4)], 6),
        second: (&[(2, 5)], 6),
        lemmas: None,
    },
    // an output that is an input
    Compared {
        first: (&[], 2),
        second: (&[(2, 4)], 2),
        lemmas: Some(0),
    },
];

#[test]
fn refutes_by_structure(rt: HostRuntime) -> Result<(), Fail> {
    let identity = matching(rt.alloc(), &[(0, false), (1, false)], &[(0, false)])?;
    for row in COMPARED.iter() {
        let both = GraphPair::new(rt.alloc(), 2, row.first, row.second)?;
        assert!(rt; needs_lemmas(rt.alloc(), &both, &identity, row.lemmas)?);
    }
    Ok(())
}
