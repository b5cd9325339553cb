//! Lines with the numbers that clauses have in another log.

ghost use Rattle.std.specs.Prelude.{◌≡◌, IfOk, IfSome, None, Some, map, slice_index_or};
ghost use Rattle.shared_lemmas.specs.Parts.{IsRenumbered, number_in};

use crate::common::Common;
use cnf_core::LogLine;
use items::Items;
use std::alloc::{AllocError, Global};

/// A line with the numbers that its hints have in another log. None where one of them has none.
pub(crate) fn renumbered(
    alloc: Global,
    common: Common,
    numbers: &[Option<u64>],
    line: &LogLine,
) -> Result<Option<LogLine>, AllocError>
    ensures { IfOk result (λ found. IfSome found (IsRenumbered common numbers.now line.now)) }
{
    let Some(hints) = renumbered_hints(alloc, common, numbers, &line.hints)? else {
        return Ok(None);
    };
    let clause = Items::from_slice(alloc, &line.clause)?;
    Ok(Some(LogLine { clause, hints }))
}

// The numbers that hints have in another log. None where one of them has none.
fn renumbered_hints(
    alloc: Global,
    common: Common,
    numbers: &[Option<u64>],
    hints: &[u64],
) -> Result<Option<Items<u64>>, AllocError>
    ensures { IfOk result (λ found. IfSome found (λ own. map (number_in common numbers.now) hints.now ≡ map Some own)) }
{
    let mut own = Items::with_capacity(alloc, hints.len())?;
    for hint in hints.iter() {
        let Some(number) = number_of(common, numbers, *hint) else {
            return Ok(None);
        };
        own.push(number)?;
    }
    Ok(Some(own))
}

// The number in another log of a clause of a formula and of its log.
fn number_of(common: Common, numbers: &[Option<u64>], id: u64) -> Option<u64>
    ensures { result ≡ number_in common numbers.now id }
{
    if id < common.same {
        return Some(id);
    }
    if id < common.count {
        return None;
    }
    entry_at(numbers, id - common.count)
}

// The entry of a place, or None after the last one.
fn entry_at(numbers: &[Option<u64>], place: u64) -> Option<u64>
    ensures { result ≡ slice_index_or numbers.now place None }
{
    if place < numbers.len() as u64 {
        return numbers[place as usize];
    }
    None
}
