//! The literals on a line.

ghost use Rattle.std.specs.Prelude.{◌≡◌, ℕ, ◌%◌, ◌^◌, ◌<◌, ◌≤◌, ◌↔◌, min, List, length, map, All, IsTrue, Some, IfOk};
ghost use Rattle.std.specs.Prelude.{IfErr, IfNone, OnSome, OnOk};
ghost use Rattle.std.specs.Option.{option_map};
ghost use Rattle.text_core.specs.Numbers.{number};
ghost use Rattle.net_file.specs.Stops.{IsStopBy};
ghost use Rattle.aiger_reader.specs.Reading.{capped_on, IsRowOn, IsLineRead, IsRowFault, IsNextFault};

use crate::words::has_no_word;
use net_file::{NetFault, NetKind, NetStop};
use text_core::{Cursor, NumberFault, Span, decimal, next_word};

// The number that a word writes, or the limit where it is greater. `None` where the word is no number.
fn capped_number(word: Span<'_>, limit: u32) -> Option<u32>
    ensures { result ≡ option_map (λ n. min n limit) (number word.entry.bytes) }
{
    match decimal(word) {
        Ok(number) => Some(number.min(u64::from(limit)) as u32),
        Err(NumberFault::NotDigit) => None,
        Err(NumberFault::TooLarge) => Some(limit),
    }
}

// Fills the row with the numbers on a line, if the line has that many and nothing else, with the limit for each
// that is greater.
fn read_capped(line: &mut Span<'_>, row: &mut [u32], limit: u32) -> Option<()>
    ensures row { OnSome result (capped_on limit line.old.bytes ≡ map Some row.new) }
    ensures none { IfNone result ((numbers : List ℕ) → length numbers ≡ length row.old
        → capped_on limit line.old.bytes ≡ map Some numbers → ⊥) }
{
    for number in row.iter_mut() {
        let word = next_word(line)?;
        *number = capped_number(word, limit)?;
    }
    if !has_no_word(line) {
        return None;
    }
    Some(())
}

// Whether all literals are up to the greatest.
fn are_in_range(row: &[u32], greatest: u32) -> bool
    ensures { IsTrue result ↔ All (λ literal. literal ≤ greatest) row.now }
{
    row.iter().all(|literal| *literal <= greatest)
}

// Whether a literal is plain and not the constant.
fn is_plain(literal: u32) -> bool
    ensures { IsTrue result ↔ (literal % 2 ≡ 0) × (2 ≤ literal) }
{
    (literal % 2 == 0) & (literal >= 2)
}

// Fills the row with the literals on a line, up to the greatest, of which the first is plain if it is defined.
fn read_literals(
    line: &mut Span<'_>,
    row: &mut [u32],
    greatest: u32,
    defining: bool,
) -> Result<(), NetKind>
    requires some { 0 < length row.old }
    requires small { greatest < 2 ^ 31 }
    ensures row { OnOk result (IsRowOn line.old.bytes greatest defining row.new) }
    ensures fault { IfErr result (IsRowFault line.old.bytes greatest defining (length row.old)) }
{
    // one above the greatest: a number that is too large, even for 64 bits, is a bad literal and no bad line
    let Some(()) = read_capped(line, row, greatest + 1) else {
        return Err(NetKind::BadLine);
    };
    if !are_in_range(row, greatest) {
        return Err(NetKind::BadLiteral);
    }
    if !defining {
        return Ok(());
    }
    if !is_plain(row[0]) {
        return Err(NetKind::BadLiteral);
    }
    Ok(())
}

/// Fills the row with the literals on the next line, up to the greatest, of which the first is plain and not the
/// constant if it is defined, and moves past the line. Gives the line's offset.
pub(crate) fn read_line(
    cursor: &mut Cursor<'_>,
    row: &mut [u32],
    greatest: u32,
    defining: bool,
) -> Result<u64, NetStop>
    requires some { 0 < length row.old }
    requires small { greatest < 2 ^ 31 }
    ensures read { IfOk result (IsLineRead cursor.old greatest defining row.new cursor.new) }
    ensures stop { IfErr result (IsStopBy (λ kind at.
        IsNextFault cursor.old greatest defining (length row.old) kind × (at ≡ cursor.old.at))) }
{
    let at = cursor.at();
    let Some(mut line) = cursor.next_line() else {
        return Err(NetStop::Fault(NetFault {
            kind: NetKind::Truncated,
            at,
        }));
    };
    read_literals(&mut line, row, greatest, defining).map_err(|kind| NetStop::Fault(NetFault {
        kind,
        at,
    }))?;
    Ok(at)
}
