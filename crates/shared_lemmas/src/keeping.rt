//! What is kept of a question.

ghost use Rattle.std.specs.Prelude.{◌≡◌, OnOk, length};
ghost use Rattle.cnf_core.specs.Derivations.{AreDerived};
ghost use Rattle.claim_core.specs.Formulas.{formula_of, query_clauses};
ghost use Rattle.shared_lemmas.specs.Parts.{ArePlaced, AreWritten};
ghost use Rattle.shared_lemmas.specs.Shared.{HoldUnder};

use crate::stock::Stock;
use crate::{Common, note, take_marked, unplaced};
use cnf_core::LogLine;
use query_core::ConeClauses;
use std::alloc::{AllocError, Global};
use std::mem;

/// Adds to a stock those lines of a question's log that don't rest on the clauses of the outputs. Where lines of the
/// stock stand in the log is listed. Out of memory, the stock may have no line.
pub(crate) fn keep(
    alloc: Global,
    cones: &ConeClauses<'_>,
    lines: &[LogLine],
    listed: &[Option<u64>],
    stock: &mut Stock,
) -> Result<(), AllocError>
    requires derived { AreDerived (formula_of cones.now.graphs cones.now.query) lines.now }
    requires hold { HoldUnder cones.now.graphs cones.now.query stock.old.lines.items }
    ensures last_query { stock.new.last_query ≡ stock.old.last_query }
    ensures hold { HoldUnder cones.now.graphs cones.now.query stock.new.lines.items }
    ensures written { OnOk result (AreWritten (length (query_clauses cones.now.graphs cones.now.query))
        lines.now stock.old.lines.items stock.new.lines.items) }
{
    let mut kept = mem::replace(&mut stock.lines, Vec::new(alloc));
    let before = kept.len();
    add_kept(alloc, cones, lines, listed, &mut kept)?;
    stock.twins.add_all(&kept, before)?;
    stock.lines = kept;
    Ok(())
}

// Adds the lines of a log that don't rest on the last two clauses.
fn add_kept(
    alloc: Global,
    cones: &ConeClauses<'_>,
    lines: &[LogLine],
    listed: &[Option<u64>],
    kept: &mut Vec<LogLine>,
) -> Result<(), AllocError>
    requires derived { AreDerived (formula_of cones.now.graphs cones.now.query) lines.now }
    requires hold { HoldUnder cones.now.graphs cones.now.query kept.old.items }
    ensures hold { OnOk result (HoldUnder cones.now.graphs cones.now.query kept.new.items) }
    ensures written { OnOk result (AreWritten (length (query_clauses cones.now.graphs cones.now.query))
        lines.now kept.old.items kept.new.items) }
{
    let count = cones.count();
    let common = Common {
        count,
        same: count.saturating_sub(2),
    };
    let mut numbers = unplaced(alloc, lines.len())?;
    note_back(count, lines, kept, listed, &mut numbers);
    let all = vec![in alloc; true; lines.len()]?;
    take_marked(alloc, common, lines, &all, &mut numbers, kept)?;
    Ok(())
}

// Lists where the lines of a log stand among those that are kept, by where these stand in the log.
fn note_back(
    count: u64,
    lines: &[LogLine],
    kept: &[LogLine],
    listed: &[Option<u64>],
    numbers: &mut Vec<Option<u64>>,
)
    requires placed { ArePlaced count lines.now kept.now numbers.old.items }
    ensures size { length numbers.new.items ≡ length numbers.old.items }
    ensures placed { ArePlaced count lines.now kept.now numbers.new.items }
{
    for (own, number) in listed.iter().enumerate() {
        note_one(count, lines, kept, own, *number, numbers);
    }
}

// Lists where the line of a number stands among those that are kept.
fn note_one(
    count: u64,
    lines: &[LogLine],
    kept: &[LogLine],
    own: usize,
    number: Option<u64>,
    numbers: &mut Vec<Option<u64>>,
)
    requires placed { ArePlaced count lines.now kept.now numbers.old.items }
    ensures size { length numbers.new.items ≡ length numbers.old.items }
    ensures placed { ArePlaced count lines.now kept.now numbers.new.items }
{
    let Some(number) = number else {
        return;
    };
    let place = number.saturating_sub(count);
    if place < numbers.len() as u64 {
        note(
            count,
            lines,
            kept,
            place as usize,
            count.saturating_add(own as u64),
            numbers,
        );
    }
}
