//! Covers that are exclusive ors.

use crate::answers::{exceeds, is_query};
use ask_core::agenda_of;
use net_core::Graphs;
use query_core::{ConeClauses, QueryBase};
use samples::GraphPair;
use std::alloc::{AllocError, Global};
use std::test::Fail;

/// More than the inputs that are decided first.
const INPUTS: u32 = 11;

/// Which literals a cover's rows negate: it is the sum of three.
const SUM: [[u32; 3]; 4] = [[0, 1, 1], [1, 0, 1], [1, 1, 0], [0, 0, 0]];

/// The same with another last row.
const NO_SUM: [[u32; 3]; 4] = [[0, 1, 1], [1, 0, 1], [1, 1, 0], [1, 0, 0]];

/// The literals of inputs that are added to the first one, two by each cover.
const FORWARD: [(u32, u32); 5] = [(4, 6), (8, 10), (12, 14), (16, 18), (20, 22)];

/// The same in another order.
const BACKWARD: [(u32, u32); 5] = [(22, 20), (18, 16), (14, 12), (10, 8), (6, 4)];

/// Adds a gate, and answers its literal. There are fewer than 1,000.
fn push_gate(gates: &mut Vec<(u32, u32)>, a: u32, b: u32) -> Result<u32, AllocError> {
    gates.push((a, b))?;
    Ok(2 * (INPUTS + (gates.len() % 1000) as u32))
}

/// Adds the gates of a row over three literals.
fn push_row(
    gates: &mut Vec<(u32, u32)>,
    literals: (u32, u32, u32),
    row: &[u32; 3],
) -> Result<u32, AllocError> {
    let (a, b, c) = literals;
    let [i, j, k] = *row;
    let both = push_gate(gates, a ^ i, b ^ j)?;
    push_gate(gates, both, c ^ k)
}

/// Adds the gates of a cover of four rows over three literals, as a BLIF file is read.
fn push_cover(
    gates: &mut Vec<(u32, u32)>,
    literals: (u32, u32, u32),
    rows: &[[u32; 3]; 4],
) -> Result<u32, AllocError> {
    let first = push_row(gates, literals, &rows[0])?;
    let second = push_row(gates, literals, &rows[1])?;
    let none = push_gate(gates, first ^ 1, second ^ 1)?;
    let third = push_row(gates, literals, &rows[2])?;
    let none = push_gate(gates, none, third ^ 1)?;
    let fourth = push_row(gates, literals, &rows[3])?;
    let none = push_gate(gates, none, fourth ^ 1)?;
    Ok(none ^ 1)
}

/// Adds a chain of covers that begins with the first input, and answers its output.
fn push_chain(
    gates: &mut Vec<(u32, u32)>,
    added: &[(u32, u32)],
    rows: &[[u32; 3]; 4],
) -> Result<u32, AllocError> {
    let mut sum = 2;
    for (a, b) in added.iter() {
        sum = push_cover(gates, (sum, *a, *b), rows)?;
    }
    Ok(sum)
}

/// Two chains of such covers, in different orders.
fn chains(alloc: Global, rows: &[[u32; 3]; 4]) -> Result<GraphPair, Fail> {
    let mut forward = Vec::new(alloc);
    let first = push_chain(&mut forward, &FORWARD, rows)?;
    let mut backward = Vec::new(alloc);
    let second = push_chain(&mut backward, &BACKWARD, rows)?;
    let first = (forward.as_slice(), first);
    let second = (backward.as_slice(), second);
    Ok(GraphPair::new(alloc, INPUTS, first, second)?)
}

/// Whether parts are looked at before the outputs of two circuits, since these are sums of the same inputs.
fn has_parts(alloc: Global, graphs: &Graphs<'_>) -> Result<bool, AllocError> {
    let query = exceeds(alloc, INPUTS)?;
    if !is_query(graphs, &query) {
        return Ok(false);
    }
    let cones = ConeClauses::new(alloc, graphs, &query)?;
    let base = QueryBase::new(alloc, graphs, &query)?;
    let agenda = agenda_of(alloc, &base, cones.ids())?;
    Ok(!agenda.parts.is_empty())
}

#[test]
fn adds_covers_that_are_exclusive_ors(rt: HostRuntime) -> Result<(), Fail> {
    let sums = chains(rt.alloc(), &SUM)?;
    assert!(rt; has_parts(rt.alloc(), &sums.graphs())?);
    Ok(())
}

#[test]
fn adds_no_other_covers(rt: HostRuntime) -> Result<(), Fail> {
    let others = chains(rt.alloc(), &NO_SUM)?;
    assert!(rt; !has_parts(rt.alloc(), &others.graphs())?);
    Ok(())
}
