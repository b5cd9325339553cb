//! Refutations, without the lines that their empty line doesn't rest on.

ghost use Rattle.std.specs.Prelude.{◌≡◌, ◌<◌, ◌^◌, [], IfOk, IfSome, None, length, replicate};
ghost use Rattle.ask_core.specs.Answers.{IsAnswer};
ghost use Rattle.shared_lemmas.specs.Parts.{ArePlaced, GoesOn, IsLastOf, Trims};

use crate::common::Common;
use crate::marking::mark_hinted;
use crate::numbering::renumbered;
use crate::taking::take_marked;
use ask_core::Answer;
use claim_core::Query;
use cnf_core::{Log, LogLine};
use items::Items;
use net_core::Graphs;
use query_core::count_of;
use std::alloc::{AllocError, Global};

/// An answer to a query: of a refutation what its last line rests on, and that line.
///
/// # Errors
///
/// Only when out of memory.
pub fn trim_answer(
    alloc: Global,
    graphs: &Graphs<'_>,
    query: &Query,
    answer: Answer,
) -> Result<Answer, AllocError>
    requires { IsAnswer graphs.now query.now answer }
    ensures { IfOk result (IsAnswer graphs.now query.now) }
{
    match answer {
        Answer::Vector(vector) => Ok(Answer::Vector(vector)),
        Answer::Refuted(log) => {
            let part = trim(alloc, count_of(graphs, query), &log.lines)?;
            Ok(Answer::Refuted(part))
        }
    }
}

// What the last line of a refutation rests on, and that line. The formula has n clauses.
fn trim(alloc: Global, count: u64, lines: &[LogLine]) -> Result<Log, AllocError>
    requires few { count < 2 ^ 62 }
    ensures refutes { IfOk result (λ log. Trims count lines.now log.lines) }
{
    if let Some(part) = closed_part(alloc, count, lines)? {
        return Ok(Log {
            lines: Items::from_vec(part),
        });
    }
    let lines = lines.to_vec(alloc)?;
    Ok(Log {
        lines: Items::from_vec(lines),
    })
}

// What the last line rests on, and that line, where it is empty.
fn closed_part(
    alloc: Global,
    count: u64,
    lines: &[LogLine],
) -> Result<Option<Vec<LogLine>>, AllocError>
    requires few { count < 2 ^ 62 }
    ensures { IfOk result (λ found. IfSome found (λ part. Trims count lines.now part.items)) }
{
    let Some(last) = lines.last() else {
        return Ok(None);
    };
    let common = Common { count, same: count };
    let marked = rested_on(alloc, count, lines)?;
    let mut numbers = unplaced(alloc, lines.len())?;
    let mut part = Vec::new(alloc);
    take_marked(alloc, common, lines, &marked, &mut numbers, &mut part)?;
    close(alloc, common, lines, last, &numbers, part)
}

// The part with the last line of the log, where that is empty.
fn close(
    alloc: Global,
    common: Common,
    lines: &[LogLine],
    last: &LogLine,
    numbers: &[Option<u64>],
    part: Vec<LogLine>,
) -> Result<Option<Vec<LogLine>>, AllocError>
    requires whole { common.same ≡ common.count }
    requires last { IsLastOf lines.now last.now }
    requires placed { ArePlaced common.count lines.now part.items numbers.now }
    requires goes_on { GoesOn common lines.now [] part.items }
    ensures { IfOk result (λ found. IfSome found (λ closed. Trims common.count lines.now closed.items)) }
{
    if !last.clause.is_empty() {
        return Ok(None);
    }
    let Some(own) = renumbered(alloc, common, numbers, last)? else {
        return Ok(None);
    };
    let mut closed = part;
    closed.push(own)?;
    Ok(Some(closed))
}

// Marks of the last line and of those that it rests on.
fn rested_on(alloc: Global, count: u64, lines: &[LogLine]) -> Result<Vec<bool>, AllocError>
    ensures { IfOk result (λ marked. length marked.items ≡ length lines.now) }
{
    let mut marked = vec![in alloc; false; lines.len()]?;
    if let Some(last) = marked.last_mut() {
        *last = true;
    }
    mark_hinted(count, lines, &mut marked);
    Ok(marked)
}

/// No number for any of n lines.
pub fn unplaced(alloc: Global, lines: usize) -> Result<Vec<Option<u64>>, AllocError>
    ensures { IfOk result (λ numbers. numbers.items ≡ replicate lines None) }
{
    vec![in alloc; None; lines]
}
