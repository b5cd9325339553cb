//! Lines of a log, read from their bytes. What was written reads back. Bytes that are missing read as 0, a number that
//! has more than 64 bits as the greatest of those, and a delta that leads below 0 as 0.

ghost use Rattle.std.specs.Prelude.{◌≡◌, ◌+◌, ◌<◌, ◌≤◌, ◌∷◌, [], ⊤, All, IfNone, IfOk, IfSome, drop, length, nat_le};
ghost use Rattle.std.specs.Prelude.{if◌then◌else◌, ◌-◌};
ghost use Rattle.text_core.specs.Groups.{groups};
ghost use Rattle.line_codec.specs.LineBytes.{AreWords, IsOfWords, IsWord, ReadsBack, clause_bytes, line_bytes};
ghost use Rattle.line_codec.specs.LineBytes.{literal_numbers, low_of, number_bytes, numbers_bytes, delta_bytes};
ghost use Rattle.line_codec.specs.LineBytes.{deltas_bytes, signed_rest};

use crate::layout::{GROUP_VALUES, LOW_VALUES, MORE, MORE_GROUPS, NEGATIVE};
use cnf_core::{LogLine, SatLit};
use items::Items;
use std::alloc::{AllocError, Global};
use text_core::Cursor;

/// Reads the line at the front of bytes, and says how many bytes it has.
pub fn first_line(alloc: Global, bytes: &[u8]) -> Result<(LogLine, usize), AllocError>
    ensures reads { IfOk result (λ read. ReadsBack IsOfWords line_bytes bytes.now (drop read.1 bytes.now) read.0) }
    ensures within { IfOk result (λ read. read.1 ≤ length bytes.now) }
{
    let mut cursor = Cursor::new(bytes);
    let line = next_line(alloc, &mut cursor)?;
    Ok((line, cursor.at() as usize))
}

// Reads a line, and moves past it.
fn next_line(alloc: Global, cursor: &mut Cursor<'_>) -> Result<LogLine, AllocError>
    ensures reads { IfOk result (ReadsBack IsOfWords line_bytes cursor.old.bytes cursor.new.bytes) }
    ensures end { cursor.new.at + length cursor.new.bytes ≡ cursor.old.at + length cursor.old.bytes }
{
    let clause = next_clause(alloc, cursor)?;
    let hints = next_hints(alloc, cursor)?;
    Ok(LogLine {
        clause: Items::from_vec(clause),
        hints: Items::from_vec(hints),
    })
}

// Reads how many literals there are, and these.
fn next_clause(alloc: Global, cursor: &mut Cursor<'_>) -> Result<Vec<SatLit>, AllocError>
    ensures reads { IfOk result
        (λ read. ReadsBack (λ clause. AreWords (literal_numbers clause)) clause_bytes
        cursor.old.bytes cursor.new.bytes read.items) }
    ensures end { cursor.new.at + length cursor.new.bytes ≡ cursor.old.at + length cursor.old.bytes }
{
    let count = next_number(cursor);
    next_literals(alloc, cursor, count)
}

fn next_literals(
    alloc: Global,
    cursor: &mut Cursor<'_>,
    count: u64,
) -> Result<Vec<SatLit>, AllocError>
    ensures reads { IfOk result
        (λ read. ReadsBack (λ clause. (length clause ≡ count) × All IsWord (literal_numbers clause))
        (λ clause. deltas_bytes 0 (literal_numbers clause)) cursor.old.bytes cursor.new.bytes read.items) }
    ensures end { cursor.new.at + length cursor.new.bytes ≡ cursor.old.at + length cursor.old.bytes }
{
    let mut literals = Vec::new(alloc);
    let mut from = 0;
    for _literal in 0..count {
        from = next_delta(cursor, from);
        literals.push(SatLit(from))?;
    }
    Ok(literals)
}

// Reads how many hints there are, and these.
fn next_hints(alloc: Global, cursor: &mut Cursor<'_>) -> Result<Vec<u64>, AllocError>
    ensures reads { IfOk result
        (λ read. ReadsBack AreWords numbers_bytes cursor.old.bytes cursor.new.bytes read.items) }
    ensures end { cursor.new.at + length cursor.new.bytes ≡ cursor.old.at + length cursor.old.bytes }
{
    let count = next_number(cursor);
    next_deltas(alloc, cursor, count)
}

fn next_deltas(alloc: Global, cursor: &mut Cursor<'_>, count: u64) -> Result<Vec<u64>, AllocError>
    ensures reads { IfOk result
        (λ read. ReadsBack (λ numbers. (length numbers ≡ count) × All IsWord numbers) (deltas_bytes 0)
        cursor.old.bytes cursor.new.bytes read.items) }
    ensures end { cursor.new.at + length cursor.new.bytes ≡ cursor.old.at + length cursor.old.bytes }
{
    let mut numbers = Vec::new(alloc);
    let mut from = 0;
    for _number in 0..count {
        from = next_delta(cursor, from);
        numbers.push(from)?;
    }
    Ok(numbers)
}

// Reads the delta from a number, and answers the number to which it leads.
fn next_delta(cursor: &mut Cursor<'_>, from: u64) -> u64
    ensures reads { ReadsBack IsWord (delta_bytes from) cursor.old.bytes cursor.new.bytes result }
    ensures end { cursor.new.at + length cursor.new.bytes ≡ cursor.old.at + length cursor.old.bytes }
{
    let first = next_byte(cursor);
    let short = without(first, MORE);
    let magnitude = next_magnitude(cursor, first >= MORE, without(short, NEGATIVE));
    if short >= NEGATIVE {
        from.saturating_sub(magnitude)
    } else {
        from.saturating_add(magnitude)
    }
}

// The magnitude of a delta, of which the low six bits were read, and whether there are more.
fn next_magnitude(cursor: &mut Cursor<'_>, more: bool, low: u8) -> u64
    ensures reads { ReadsBack
        (λ magnitude. IsWord magnitude × (more ≡ nat_le 64 magnitude) × (low ≡ low_of magnitude)) signed_rest
        cursor.old.bytes cursor.new.bytes result }
    ensures end { cursor.new.at + length cursor.new.bytes ≡ cursor.old.at + length cursor.old.bytes }
{
    if !more {
        return u64::from(low);
    }
    let high = next_number(cursor);
    high.saturating_mul(LOW_VALUES)
        .saturating_add(u64::from(low))
}

// A byte less a bit, where it has at least so much.
fn without(byte: u8, bit: u8) -> u8
    ensures { result ≡ if nat_le bit byte then byte - bit else byte }
{
    if byte >= bit { byte - bit } else { byte }
}

fn next_number(cursor: &mut Cursor<'_>) -> u64
    ensures reads { ReadsBack IsWord number_bytes cursor.old.bytes cursor.new.bytes result }
    ensures end { cursor.new.at + length cursor.new.bytes ≡ cursor.old.at + length cursor.old.bytes }
{
    next_groups(cursor, MORE_GROUPS)
}

// Reads a number that has this many groups after its first one at most.
fn next_groups(cursor: &mut Cursor<'_>, more: u32) -> u64
    ensures reads { ReadsBack IsWord (groups more) cursor.old.bytes cursor.new.bytes result }
    ensures end { cursor.new.at + length cursor.new.bytes ≡ cursor.old.at + length cursor.old.bytes }
{
    let group = next_byte(cursor);
    if group < MORE {
        return u64::from(group);
    }
    if more == 0 {
        return u64::from(group);
    }
    let high = next_groups(cursor, more - 1);
    high.saturating_mul(GROUP_VALUES)
        .saturating_add(u64::from(group - MORE))
}

fn next_byte(cursor: &mut Cursor<'_>) -> u8
    ensures reads { ReadsBack (λ byte. ⊤) (λ byte. byte ∷ []) cursor.old.bytes cursor.new.bytes result }
    ensures end { cursor.new.at + length cursor.new.bytes ≡ cursor.old.at + length cursor.old.bytes }
{
    take_byte(cursor).unwrap_or(0)
}

// The next byte, and moves past it.
fn take_byte(cursor: &mut Cursor<'_>) -> Option<u8>
    ensures byte { IfSome result (λ byte. cursor.old.bytes ≡ byte ∷ cursor.new.bytes) }
    ensures none { IfNone result (cursor.old.bytes ≡ []) }
    ensures end { cursor.new.at + length cursor.new.bytes ≡ cursor.old.at + length cursor.old.bytes }
{
    let piece = cursor.take(1)?;
    piece.bytes().first().copied()
}
