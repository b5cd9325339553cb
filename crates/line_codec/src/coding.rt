//! Lines of a log as bytes.

ghost use Rattle.std.specs.Prelude.{◌≡◌, ◌++◌, ◌<◌, ◌≤◌, All, OnOk};
ghost use Rattle.text_core.specs.Extends.{Extends};
ghost use Rattle.line_codec.specs.LineBytes.{AreWords, IsOfWords, IsWord, clause_bytes, line_bytes, literal_numbers};
ghost use Rattle.line_codec.specs.LineBytes.{low_of, mark_if, number_bytes, numbers_bytes, delta_bytes, deltas_bytes};
ghost use Rattle.line_codec.specs.LineBytes.{signed_bytes, signed_first};

use crate::layout::{LOW_VALUES, MORE, MORE_GROUPS, NEGATIVE};
use cnf_core::{LogLine, SatLit};
use std::alloc::AllocError;
use text_core::put_leb128;

/// Writes a line after other bytes: one or two bytes for most literals and hints, which are near the ones before.
pub fn put_line(line: &LogLine, out: &mut Vec<u8>) -> Result<(), AllocError>
    ensures ok { OnOk result (out.new.items ≡ out.old.items ++ line_bytes line.now) }
    ensures kept { Extends out.old.items out.new.items }
    ensures words { OnOk result (IsOfWords line.now) }
{
    put_clause(&line.clause, out)?;
    put_hints(&line.hints, out)
}

// Writes how many literals there are, and these.
fn put_clause(clause: &[SatLit], out: &mut Vec<u8>) -> Result<(), AllocError>
    ensures ok { OnOk result (out.new.items ≡ out.old.items ++ clause_bytes clause.now) }
    ensures kept { Extends out.old.items out.new.items }
    ensures words { OnOk result (AreWords (literal_numbers clause.now)) }
{
    put_number(clause.len() as u64, out)?;
    put_literals(clause, out)
}

fn put_literals(clause: &[SatLit], out: &mut Vec<u8>) -> Result<(), AllocError>
    ensures ok { OnOk result (out.new.items ≡ out.old.items ++ deltas_bytes 0 (literal_numbers clause.now)) }
    ensures kept { Extends out.old.items out.new.items }
    ensures words { OnOk result (All IsWord (literal_numbers clause.now)) }
{
    let mut from = 0;
    for literal in clause.iter() {
        let to = literal.0;
        put_delta(from, to, out)?;
        from = to;
    }
    Ok(())
}

// Writes how many hints there are, and these.
fn put_hints(hints: &[u64], out: &mut Vec<u8>) -> Result<(), AllocError>
    ensures ok { OnOk result (out.new.items ≡ out.old.items ++ numbers_bytes hints.now) }
    ensures kept { Extends out.old.items out.new.items }
    ensures words { OnOk result (AreWords hints.now) }
{
    put_number(hints.len() as u64, out)?;
    put_deltas(hints, out)
}

fn put_deltas(numbers: &[u64], out: &mut Vec<u8>) -> Result<(), AllocError>
    ensures ok { OnOk result (out.new.items ≡ out.old.items ++ deltas_bytes 0 numbers.now) }
    ensures kept { Extends out.old.items out.new.items }
    ensures words { OnOk result (All IsWord numbers.now) }
{
    let mut from = 0;
    for number in numbers.iter() {
        let to = *number;
        put_delta(from, to, out)?;
        from = to;
    }
    Ok(())
}

// Writes the delta from one number to another.
fn put_delta(from: u64, to: u64, out: &mut Vec<u8>) -> Result<(), AllocError>
    ensures ok { OnOk result (out.new.items ≡ out.old.items ++ delta_bytes from to) }
    ensures kept { Extends out.old.items out.new.items }
    ensures word { IsWord to }
{
    if from <= to {
        put_signed(false, to - from, out)
    } else {
        put_signed(true, from - to, out)
    }
}

// Writes a delta: its sign and six bits in the first byte, and then the others.
fn put_signed(negative: bool, magnitude: u64, out: &mut Vec<u8>) -> Result<(), AllocError>
    ensures ok { OnOk result (out.new.items ≡ out.old.items ++ signed_bytes negative magnitude) }
    ensures kept { Extends out.old.items out.new.items }
{
    out.push(first_byte(negative, magnitude))?;
    if magnitude >= LOW_VALUES {
        put_number(magnitude / LOW_VALUES, out)
    } else {
        Ok(())
    }
}

fn first_byte(negative: bool, magnitude: u64) -> u8
    ensures { result ≡ signed_first negative magnitude }
{
    mark_if(magnitude >= LOW_VALUES, MORE) + mark_if(negative, NEGATIVE) + low_of(magnitude)
}

fn mark_if(is_so: bool, bit: u8) -> u8
    ensures value { result ≡ mark_if is_so bit }
    ensures most { result ≤ bit }
{
    if is_so { bit } else { 0 }
}

// The low six bits.
fn low_of(magnitude: u64) -> u8
    ensures value { result ≡ low_of magnitude }
    ensures small { result < 64 }
{
    if magnitude >= LOW_VALUES {
        (magnitude % LOW_VALUES) as u8
    } else {
        magnitude as u8
    }
}

fn put_number(number: u64, out: &mut Vec<u8>) -> Result<(), AllocError>
    ensures ok { OnOk result (out.new.items ≡ out.old.items ++ number_bytes number) }
    ensures kept { Extends out.old.items out.new.items }
    ensures word { IsWord number }
{
    put_leb128(number, MORE_GROUPS, out)
}
