//! What the lines of the body read, and the netlist's own numbers for it.

ghost use Rattle.std.specs.Prelude.{◌≡◌, ℕ, ◌/◌, ◌^◌, ◌<◌, ◌≤◌, List, [], length, map, All, IfOk, IfNone, IfSome};
ghost use Rattle.std.specs.List.{prefix_len};
ghost use Rattle.text_core.specs.Lines.{lines};
ghost use Rattle.aiger_reader.specs.Numbers.{header_of};
ghost use Rattle.aiger_reader.specs.Bodies.{line_offset, roles_of, AreLines, IsKnownRow, IsUndefined};
ghost use Rattle.aiger_reader.specs.Reading.{rows_of};
ghost use Rattle.aiger_reader.specs.Numbered.{AreWithin, IsSound, has_place, have_places, lit_in, def_in};

use crate::body::{AndLine, Body, gate_lines, input_lines};
use crate::limits::Header;
use circuits::{Def, Lit};
use std::alloc::{AllocError, Global};
use text_core::Cursor;

// Whether a literal is of the constant or of a variable that has a place.
fn has_place(signals: &[u32], literal: u32) -> bool
    requires { literal / 2 < length signals.now }
    ensures { result ≡ has_place signals.now literal }
{
    let variable = (literal / 2) as usize;
    variable == 0 || signals[variable] > 0
}

// How many outputs stand before the first of a variable without a place, or all where there is none.
fn known_outputs(signals: &[u32], outputs: &[u32]) -> usize
    requires { All (λ literal. literal / 2 < length signals.now) outputs.now }
    ensures count { result ≡ prefix_len (has_place signals.now) outputs.now }
    ensures within { result ≤ length outputs.now }
{
    outputs
        .iter()
        .take_while(|literal| has_place(signals, **literal))
        .count()
}

// How many gates stand before the first with an operand of a variable without a place, or all where there is none.
fn known_gates(signals: &[u32], gates: &[AndLine]) -> usize
    requires { All (AreWithin signals.now) gates.now }
    ensures count { result ≡ prefix_len (have_places signals.now) gates.now }
    ensures within { result ≤ length gates.now }
{
    gates
        .iter()
        .take_while(|line| has_place(signals, line.a) && has_place(signals, line.b))
        .count()
}

// How many lines of the body stand before the first that reads what no line defines, or all where there is none.
fn known_lines(header: Header, body: &Body<'_>) -> usize
    requires { IsSound (header_of header []) body.now.literals body.now.signals.items }
    ensures within { result ≤ length (rows_of body.now.literals) }
    ensures known { (k : ℕ) → k < result
        → IsKnownRow (header_of header []) (rows_of body.now.literals) k }
    ensures unknown { result < length (rows_of body.now.literals)
        → IsKnownRow (header_of header []) (rows_of body.now.literals) result → ⊥ }
{
    let inputs = input_lines(header) as usize;
    let outputs = known_outputs(&body.signals, &body.literals.outputs);
    if outputs < header.outputs as usize {
        return inputs + outputs;
    }
    inputs + outputs + known_gates(&body.signals, &body.literals.gates)
}

// How many lines the body has.
fn line_count(header: Header) -> usize
    ensures { result ≡ length (roles_of (header_of header [])) }
{
    input_lines(header) as usize + header.outputs as usize + gate_lines(header) as usize
}

/// The offset of a line of a text. It reads the text again: offsets are needed for faults alone, and are not kept.
pub(crate) fn offset_of_line(input: &[u8], line: usize) -> u64
    requires { line < length (lines input.now) }
    ensures { result ≡ line_offset input.now line }
{
    let mut cursor = Cursor::new(input);
    for _ in 0..line {
        let _ = cursor.next_line();
    }
    cursor.at()
}

/// Where the first line of the body stands that reads a variable which no line defines: an output, or an operand
/// of a gate. The constant is always there.
pub(crate) fn find_undefined(input: &[u8], header: Header, body: &Body<'_>) -> Option<u64>
    requires read { AreLines input.now (header_of header []) (rows_of body.now.literals) }
    requires sound { IsSound (header_of header []) body.now.literals body.now.signals.items }
    ensures known { IfNone result ((properties : List ℕ) (k : ℕ)
        → k < length (rows_of body.now.literals)
        → IsKnownRow (header_of header properties) (rows_of body.now.literals) k) }
    ensures undefined { IfSome result (λ at. (properties : List ℕ)
        → IsUndefined input.now (header_of header properties) (rows_of body.now.literals) at) }
{
    let line = known_lines(header, body);
    if line == line_count(header) {
        return None;
    }
    Some(offset_of_line(input, line + 1))
}

// The netlist's literal for a literal of the file.
fn lit_of(signals: &[u32], literal: u32) -> Lit
    requires within { literal / 2 < length signals.now }
    requires small { All (λ place. place < 2 ^ 31) signals.now }
    ensures { result ≡ lit_in signals.now literal }
{
    let variable = (literal / 2) as usize;
    if variable == 0 {
        return Lit(literal % 2);
    }
    Lit(2 * signals[variable] + literal % 2)
}

/// The netlist's outputs, in numbers of its own: signal 0 is the constant, input i is signal i + 1, and then come the
/// definitions, in the order of the file.
pub(crate) fn number_outputs(
    alloc: Global,
    signals: &[u32],
    outputs: &[u32],
) -> Result<Vec<Lit>, AllocError>
    requires within { All (λ literal. literal / 2 < length signals.now) outputs.now }
    requires small { All (λ place. place < 2 ^ 31) signals.now }
    ensures { IfOk result (λ lits. lits.items ≡ map (lit_in signals.now) outputs.now) }
{
    let lits = outputs.iter().map(|literal| lit_of(signals, *literal));
    lits.collect(alloc)
}

/// The netlist's definitions, in the same numbers.
pub(crate) fn number_gates(
    alloc: Global,
    signals: &[u32],
    gates: &[AndLine],
) -> Result<Vec<Def>, AllocError>
    requires within { All (AreWithin signals.now) gates.now }
    requires small { All (λ place. place < 2 ^ 31) signals.now }
    ensures { IfOk result (λ defs. defs.items ≡ map (def_in signals.now) gates.now) }
{
    let defs = gates.iter().map(|line| Def::And {
        a: lit_of(signals, line.a),
        b: lit_of(signals, line.b),
    });
    defs.collect(alloc)
}
