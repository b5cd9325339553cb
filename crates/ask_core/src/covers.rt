//! Which gates are covers that are exclusive ors, and of what.
//!
//! A cover's gates are a chain of ANDs over the literals of each row, and a chain of ANDs over the opposites of the
//! rows. An exclusive or of k operands has a row for each of the 2^(k - 1) vectors of one parity.

use crate::gates::LitGate;
use cnf_core::SatLit;
use indexmap::IndexMap;
use std::alloc::{AllocError, Global};

/// The most operands of an exclusive or that is found as a cover: as many as the largest lookup tables have inputs.
const MOST_OPERANDS: usize = 6;

/// How many sets of these operands there are, each a number below it: so many that one word has a bit for each.
const CODES: u64 = 1 << MOST_OPERANDS;

/// The literals of one row of a cover whose last gate joins the opposites of n rows, if these are all vectors of one
/// parity of three to six operands. The gate is the sum of these literals, and of 1 where they are odd in number.
///
/// # Errors
///
/// Only when out of memory.
pub(crate) fn operands_of_cover(
    alloc: Global,
    gates: &IndexMap<u64, LitGate>,
    gate: LitGate,
    rows: usize,
) -> Result<Option<Vec<SatLit>>, AllocError> {
    let Some(count) = operands_by_rows(rows) else {
        return Ok(None);
    };
    let opposites = joined_by(alloc, gates, gate, rows)?;
    let operands = first_row(alloc, gates, &opposites, count)?;
    if are_of_one_parity(alloc, gates, &opposites, &operands)? {
        return Ok(Some(operands));
    }
    Ok(None)
}

// How many operands an exclusive or of n rows has, up to `MOST_OPERANDS`. One of two operands is found without this.
fn operands_by_rows(rows: usize) -> Option<usize> {
    match rows {
        4 => Some(3),
        8 => Some(4),
        16 => Some(5),
        32 => Some(MOST_OPERANDS),
        _ => None,
    }
}

// The n literals that a chain of gates joins, the last one first; none where it joins fewer.
fn joined_by(
    alloc: Global,
    gates: &IndexMap<u64, LitGate>,
    gate: LitGate,
    count: usize,
) -> Result<Vec<SatLit>, AllocError> {
    let mut literals = Vec::new(alloc);
    let mut last = gate;
    for _ in 2..count {
        literals.push(last.second)?;
        let Some(before) = gate_of(gates, last.first) else {
            return Ok(Vec::new(alloc));
        };
        last = before;
    }
    literals.push(last.second)?;
    literals.push(last.first)?;
    Ok(literals)
}

// The n literals of the first of some rows whose opposites are given; none where it has fewer.
fn first_row(
    alloc: Global,
    gates: &IndexMap<u64, LitGate>,
    opposites: &[SatLit],
    count: usize,
) -> Result<Vec<SatLit>, AllocError> {
    let Some(opposite) = opposites.get(0) else {
        return Ok(Vec::new(alloc));
    };
    row_of(alloc, gates, *opposite, count)
}

// The n literals of a row whose opposite is given; none where it has fewer.
fn row_of(
    alloc: Global,
    gates: &IndexMap<u64, LitGate>,
    opposite: SatLit,
    count: usize,
) -> Result<Vec<SatLit>, AllocError> {
    let Some(row) = gate_of(gates, opposite.opposite()) else {
        return Ok(Vec::new(alloc));
    };
    joined_by(alloc, gates, row, count)
}

// The gate that a literal is the output of.
fn gate_of(gates: &IndexMap<u64, LitGate>, literal: SatLit) -> Option<LitGate> {
    let gate = gates.get(&literal.variable()).copied()?;
    if gate.output == literal {
        return Some(gate);
    }
    None
}

// Whether rows, given by their opposites, each negate another even set of the n operands. With 2^(n - 1) rows these are
// all vectors of one parity.
fn are_of_one_parity(
    alloc: Global,
    gates: &IndexMap<u64, LitGate>,
    opposites: &[SatLit],
    operands: &[SatLit],
) -> Result<bool, AllocError> {
    let mut met: u64 = 0;
    for opposite in opposites.iter() {
        let row = row_of(alloc, gates, *opposite, operands.len())?;
        let Some(code) = code_of(operands, &row) else {
            return Ok(false);
        };
        if (met >> (code % CODES)) % 2 == 1 {
            return Ok(false);
        }
        met |= 1 << (code % CODES);
    }
    Ok(!operands.is_empty())
}

// Which of up to `MOST_OPERANDS` operands a row negates, as a number below `CODES`, if it is over these and negates an
// even number.
fn code_of(operands: &[SatLit], row: &[SatLit]) -> Option<u64> {
    if operands.len() != row.len() {
        return None;
    }
    let mut code: u64 = 0;
    let mut is_odd = false;
    for (operand, literal) in operands.iter().zip(row.iter()) {
        if operand.variable() != literal.variable() {
            return None;
        }
        let is_negated = *operand != *literal;
        code = (code % (CODES / 2)) * 2 + is_negated as u64;
        is_odd ^= is_negated;
    }
    if is_odd {
        return None;
    }
    Some(code)
}
