//! The AND gates of the binary AIGER form, each as two deltas.

ghost use Rattle.std.specs.Prelude.{◌≡◌, ℕ, ◌+◌, ◌-◌, ◌^◌, ◌<◌, ◌≤◌, List, [], ◌∷◌, length, IfSome, IfNone, IfOk};
ghost use Rattle.std.specs.Prelude.{IfErr, vec_len};
ghost use Rattle.std.specs.Option.{SomeIff};
ghost use Rattle.aiger_reader.specs.Deltas.{BeginsGroups, BeginsDelta, BeginsNoDelta, BeginsOperand, BeginsFirst};
ghost use Rattle.aiger_reader.specs.Deltas.{BeginsSecond, BeginsGates, IsBadPair, IsPairStop};

use net_file::{NetFault, NetKind, NetStop};
use std::alloc::Global;
use text_core::Cursor;

// The groups that a delta has at most: it is below 2 to the 35.
const MOST_GROUPS: u32 = 5;

// The next byte, and moves past it.
fn next_byte(cursor: &mut Cursor<'_>) -> Option<u8>
    ensures byte { IfSome result (λ byte. cursor.old.bytes ≡ byte ∷ cursor.new.bytes) }
    ensures none { IfNone result (cursor.old.bytes ≡ []) }
    ensures end { cursor.new.at + length cursor.new.bytes ≡ cursor.old.at + length cursor.old.bytes }
{
    let piece = cursor.take(1)?;
    piece.bytes().first().copied()
}

// The number that the next bytes write in at most n groups of seven bits, and moves past them.
fn next_groups(cursor: &mut Cursor<'_>, most: u32) -> Option<u64>
    requires { most ≤ 5 }
    ensures number { IfSome result (λ n. BeginsGroups most cursor.old.bytes n cursor.new.bytes) }
    ensures range { IfSome result (λ n. n < 128 ^ most) }
    ensures none { IfNone result ((n : ℕ) (rest : List ℕ) → BeginsGroups most cursor.old.bytes n rest → ⊥) }
    ensures end { cursor.new.at + length cursor.new.bytes ≡ cursor.old.at + length cursor.old.bytes }
{
    if most == 0 {
        return None;
    }
    let byte = next_byte(cursor)?;
    if byte < 128 {
        return Some(u64::from(byte));
    }
    let high = next_groups(cursor, most - 1)?;
    Some(u64::from(byte - 128) + 128 * high)
}

// The next delta, and moves past it.
fn next_delta(cursor: &mut Cursor<'_>) -> Option<u64>
    ensures delta { IfSome result (λ delta. BeginsDelta cursor.old.bytes delta cursor.new.bytes) }
    ensures range { IfSome result (λ delta. delta < 2 ^ 35) }
    ensures none { IfNone result (BeginsNoDelta cursor.old.bytes) }
    ensures end { cursor.new.at + length cursor.new.bytes ≡ cursor.old.at + length cursor.old.bytes }
{
    next_groups(cursor, MOST_GROUPS)
}

// The literal that lies so far below another, which is at least so far.
fn literal_below(literal: u32, least: u64, delta: u64) -> Option<u32>
    ensures { SomeIff result ((least ≤ delta) × (delta ≤ literal)) (literal - delta) }
{
    if delta < least {
        return None;
    }
    if delta > u64::from(literal) {
        return None;
    }
    Some(literal - delta as u32)
}

// An operand, which lies at least so far below the literal, and moves past its delta.
fn next_operand(cursor: &mut Cursor<'_>, least: u64, literal: u32) -> Option<u32>
    ensures operand { IfSome result (λ a. BeginsOperand least literal cursor.old.bytes a cursor.new.bytes) }
    ensures none { IfNone result ((a : ℕ) (rest : List ℕ) → BeginsOperand least literal cursor.old.bytes a rest → ⊥) }
    ensures end { cursor.new.at + length cursor.new.bytes ≡ cursor.old.at + length cursor.old.bytes }
{
    let delta = next_delta(cursor)?;
    literal_below(literal, least, delta)
}

// The operands of the gate with this literal, and moves past their deltas; or the offset of the first delta that
// is bad.
fn next_pair(cursor: &mut Cursor<'_>, literal: u32) -> Result<(u32, u32), u64>
    ensures first { IfOk result (λ pair. (middle : List ℕ) × BeginsFirst literal cursor.old.bytes pair.0 middle
        × BeginsSecond pair.0 middle pair.1 cursor.new.bytes) }
    ensures bad { IfErr result (λ at. IsBadPair literal cursor.old.bytes
        (cursor.old.at + length cursor.old.bytes) at) }
    ensures end { cursor.new.at + length cursor.new.bytes ≡ cursor.old.at + length cursor.old.bytes }
{
    let at = cursor.at();
    let Some(first) = next_operand(cursor, 1, literal) else {
        return Err(at);
    };
    let second_at = cursor.at();
    let Some(second) = next_operand(cursor, 0, first) else {
        return Err(second_at);
    };
    Ok((first, second))
}

// The fault of a bad delta.
fn bad_delta(at: u64) -> NetStop
    ensures { result ≡ NetStop.Fault (record { kind = NetKind.Delta; at = at }) }
{
    NetStop::Fault(NetFault {
        kind: NetKind::Delta,
        at,
    })
}

/// The operands of n gates, as literals, and moves past them. The variables of the inputs come first, then
/// those of the gates, and each gate's operands are below its own literal, the second at most the first.
///
/// # Errors
///
/// A fault of the kind [`NetKind::Delta`] at the first delta that is cut off, longer than five bytes or out of
/// range, and [`NetStop::Memory`] only when out of memory.
pub(crate) fn read_gates(
    alloc: Global,
    cursor: &mut Cursor<'_>,
    inputs: u32,
    count: u32,
) -> Result<Vec<(u32, u32)>, NetStop>
    requires { inputs + count < 2 ^ 31 }
    ensures count { IfOk result (λ gates. vec_len gates ≡ count) }
    ensures gates { IfOk result (λ gates. BeginsGates (inputs + 1) cursor.old.bytes gates.items cursor.new.bytes) }
    ensures stop { IfErr result (IsPairStop (inputs + 1) count cursor.old) }
    ensures end { cursor.new.at + length cursor.new.bytes ≡ cursor.old.at + length cursor.old.bytes }
{
    let mut gates = Vec::new(alloc);
    for t in 0..count {
        let pair = next_pair(cursor, 2 * (inputs + 1 + t)).map_err(bad_delta)?;
        gates.push(pair)?;
    }
    Ok(gates)
}
