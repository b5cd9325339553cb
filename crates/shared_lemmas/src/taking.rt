//! Lines of a log, written into another one.

ghost use Rattle.std.specs.Prelude.{◌≡◌, ◌<◌, ◌^◌, IsTrue, OnOk, length};
ghost use Rattle.shared_lemmas.specs.Parts.{ArePlaced, AreWritten, GoesOn, IsThere};

use crate::common::Common;
use crate::numbering::renumbered;
use cnf_core::LogLine;
use std::alloc::{AllocError, Global};

/// Writes those lines of a log that are marked at the end of another log, each where all its hints stand there, and
/// lists the numbers that they have there. A line that is listed already, and an empty one, is passed over.
///
/// # Errors
///
/// Only when out of memory. Some of the lines may have been written then.
pub fn take_marked(
    alloc: Global,
    common: Common,
    source: &[LogLine],
    marked: &[bool],
    numbers: &mut Vec<Option<u64>>,
    target: &mut Vec<LogLine>,
) -> Result<(), AllocError>
    requires few { common.count < 2 ^ 62 }
    requires marks { length marked.now ≡ length source.now }
    requires size { length numbers.old.items ≡ length source.now }
    requires placed { ArePlaced common.count source.now target.old.items numbers.old.items }
    ensures size { length numbers.new.items ≡ length source.now }
    ensures placed { OnOk result (ArePlaced common.count source.now target.new.items numbers.new.items) }
    ensures goes_on { OnOk result (GoesOn common source.now target.old.items target.new.items) }
    ensures written { OnOk result (AreWritten common.count source.now target.old.items target.new.items) }
{
    for place in 0..source.len() {
        if !marked[place] {
            continue;
        }
        take(alloc, common, source, place, numbers, target)?;
    }
    Ok(())
}

// Writes one line of a log at the end of another one, where all its hints stand there.
fn take(
    alloc: Global,
    common: Common,
    source: &[LogLine],
    place: usize,
    numbers: &mut Vec<Option<u64>>,
    target: &mut Vec<LogLine>,
) -> Result<(), AllocError>
    requires few { common.count < 2 ^ 62 }
    requires there { place < length source.now }
    requires size { length numbers.old.items ≡ length source.now }
    requires placed { ArePlaced common.count source.now target.old.items numbers.old.items }
    ensures size { length numbers.new.items ≡ length numbers.old.items }
    ensures placed { OnOk result (ArePlaced common.count source.now target.new.items numbers.new.items) }
    ensures goes_on { OnOk result (GoesOn common source.now target.old.items target.new.items) }
    ensures written { OnOk result (AreWritten common.count source.now target.old.items target.new.items) }
{
    let line = &source[place];
    if numbers[place].is_some() {
        return Ok(());
    }
    if line.clause.is_empty() {
        return Ok(());
    }
    let Some(own) = renumbered(alloc, common, numbers, line)? else {
        return Ok(());
    };
    let number = common.count + target.len() as u64;
    target.push(own)?;
    numbers[place] = Some(number);
    Ok(())
}

/// Lists the number of a line of another log as that of a line of this one, where the two have the same clause.
pub fn note(
    count: u64,
    source: &[LogLine],
    target: &[LogLine],
    place: usize,
    number: u64,
    numbers: &mut Vec<Option<u64>>,
)
    requires placed { ArePlaced count source.now target.now numbers.old.items }
    ensures size { length numbers.new.items ≡ length numbers.old.items }
    ensures placed { ArePlaced count source.now target.now numbers.new.items }
{
    if is_copy(count, source, target, place, number) & (place < numbers.len()) {
        numbers[place] = Some(number);
    }
}

// Whether the line of a number in another log has the clause of the line of a place.
fn is_copy(count: u64, source: &[LogLine], target: &[LogLine], place: usize, number: u64) -> bool
    ensures { IsTrue result → IsThere count source.now target.now place number }
{
    if number < count {
        return false;
    }
    let own = number - count;
    if (place >= source.len()) | (own >= target.len() as u64) {
        return false;
    }
    source[place].clause == target[own as usize].clause
}
