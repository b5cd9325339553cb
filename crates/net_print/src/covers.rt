//! The covers of a BLIF file: one for each gate and for each output.

ghost use Rattle.std.specs.Prelude.{◌≡◌, ℕ, ◌+◌, ◌<◌, ◌^◌, List, [], ◌∷◌, ◌++◌, length, OnOk};
ghost use Rattle.std.specs.Fmt.{decimal};
ghost use Rattle.circuits.specs.Literals.{signal_of};
ghost use Rattle.text_core.specs.Extends.{Extends};
ghost use Rattle.net_print.specs.BlifLines.{covers_from, gate_lines, operands_text, output_lines, row_byte};
ghost use Rattle.net_print.specs.BlifLines.{signal_name, words_text};

use crate::ports::put_name;
use net_core::{Gate, Lit};
use std::alloc::AllocError;
use text_core::{Parts, put_last_number, put_text};

/// What a BLIF file has a cover of.
pub(crate) trait Covered {
    /// The lines of its cover in a netlist of n inputs, by its number among the gates, or among the outputs.
    ghost lines: { ℕ → ℕ → Self → List (List (List ℕ)) };

    /// Writes its cover.
    fn put_cover(&self, inputs: u32, number: u64, out: &mut Vec<u8>) -> Result<(), AllocError>
        ensures ok { OnOk result (out.new.items ≡ out.old.items ++ words_text (lines inputs number self.now)) }
        ensures kept { Extends out.old.items out.new.items };
}

/// The cover of each gate, or of each output.
#[derive(Drop)]
pub(crate) struct Covers<'a, T> {
    inputs: u32,
    next: u64,
    covered: &'a [T],
    ghost few: { next + length covered.now < 2 ^ 64 },
}

impl<'a, T: Covered> Covers<'a, T> {
    pub(crate) fn new(inputs: u32, covered: &'a [T]) -> Covers<'a, T>
        ensures { ⟦<Covers<'a, T> as Parts>⟧.left result ≡ words_text (covers_from T.lines inputs 0 covered.now) }
    {
        // it brings in that they can be counted
        let _few = covered.len();
        Covers {
            inputs,
            next: 0,
            covered,
        }
    }
}

impl<'a, T: Covered> Parts for Covers<'a, T> {
    ghost left = { λ covers. words_text (covers_from T.lines covers.inputs covers.next covers.covered.now) };

    ghost steps = { λ covers. length covers.covered.now };

    fn is_done(&self) -> bool {
        self.covered.is_empty()
    }

    fn put_next(&mut self, out: &mut Vec<u8>) -> Result<(), AllocError> {
        let [first, rest @ ..] = self.covered else {
            return Ok(());
        };
        first.put_cover(self.inputs, self.next, out)?;
        self.next += 1;
        self.covered = rest;
        Ok(())
    }
}

// A gate's cover: its operands, its own name, and a row.
impl Covered for Gate {
    ghost lines = { gate_lines };

    fn put_cover(&self, inputs: u32, number: u64, out: &mut Vec<u8>) -> Result<(), AllocError> {
        put_operands(inputs, *self, out)?;
        put_text(b"g", out)?;
        put_last_number(number, out)?;
        put_row(*self, out)
    }
}

// An output: its signal, its own name, and a row.
impl Covered for Lit {
    ghost lines = { output_lines };

    fn put_cover(&self, inputs: u32, number: u64, out: &mut Vec<u8>) -> Result<(), AllocError> {
        put_text(b".names ", out)?;
        put_operand(inputs, *self, out)?;
        put_output_name(number, out)?;
        put_output_row(*self, out)
    }
}

// Writes the directive of a gate's cover and its operands.
fn put_operands(inputs: u32, gate: Gate, out: &mut Vec<u8>) -> Result<(), AllocError>
    ensures ok { OnOk result (out.new.items ≡ out.old.items ++ operands_text inputs gate) }
    ensures kept { Extends out.old.items out.new.items }
{
    put_text(b".names ", out)?;
    put_operand(inputs, gate.a, out)?;
    put_operand(inputs, gate.b, out)
}

// Writes the row of a gate's cover.
fn put_row(gate: Gate, out: &mut Vec<u8>) -> Result<(), AllocError>
    ensures ok { OnOk result (out.new.items ≡ out.old.items ++ row_byte gate.a ∷ row_byte gate.b ∷ 32 ∷ 49 ∷ 10 ∷ []) }
    ensures kept { Extends out.old.items out.new.items }
{
    let row = [row_byte(gate.a), row_byte(gate.b), b' ', b'1', b'\n'];
    put_text(&row, out)
}

// Writes the name of an output at the end of a line.
fn put_output_name(k: u64, out: &mut Vec<u8>) -> Result<(), AllocError>
    ensures ok { OnOk result (out.new.items ≡ out.old.items ++ (111 ∷ decimal k ++ 10 ∷ [])) }
    ensures kept { Extends out.old.items out.new.items }
{
    put_text(b"o", out)?;
    put_last_number(k, out)
}

// Writes the row of an output's cover.
fn put_output_row(output: Lit, out: &mut Vec<u8>) -> Result<(), AllocError>
    ensures ok { OnOk result (out.new.items ≡ out.old.items ++ row_byte output ∷ 32 ∷ 49 ∷ 10 ∷ []) }
    ensures kept { Extends out.old.items out.new.items }
{
    let row = [row_byte(output), b' ', b'1', b'\n'];
    put_text(&row, out)
}

// Writes the name of a literal's signal, with a blank after it.
fn put_operand(inputs: u32, literal: Lit, out: &mut Vec<u8>) -> Result<(), AllocError>
    ensures ok { OnOk result (out.new.items ≡ out.old.items ++ (signal_name inputs (signal_of literal) ++ 32 ∷ [])) }
    ensures kept { Extends out.old.items out.new.items }
{
    put_signal(inputs, literal.signal(), out)?;
    put_text(b" ", out)
}

fn put_signal(inputs: u32, signal: u32, out: &mut Vec<u8>) -> Result<(), AllocError>
    ensures ok { OnOk result (out.new.items ≡ out.old.items ++ signal_name inputs signal) }
    ensures kept { Extends out.old.items out.new.items }
{
    if signal == 0 {
        put_text(b"z", out)
    } else if signal > inputs {
        put_name(b'g', (signal - 1 - inputs) as u64, out)
    } else {
        put_name(b'i', (signal - 1) as u64, out)
    }
}

// What a row requires of a literal's signal.
fn row_byte(literal: Lit) -> u8
    ensures { result ≡ row_byte literal }
{
    if literal.is_negated() { b'0' } else { b'1' }
}
