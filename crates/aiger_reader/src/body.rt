//! The lines after the header: of the ASCII form the inputs, outputs and gates, of the binary form the outputs.

ghost use Rattle.std.specs.Prelude.{true, ◌≡◌, ℕ, ◌+◌, ◌<◌, ◌++◌, List, [], ◌∷◌, length, IfOk, IfErr, OnOk, vec_len};
ghost use Rattle.std.specs.Prelude.{slice_index_or, slice_set};
ghost use Rattle.std.specs.Bool.{OnTrue, OnFalse};
ghost use Rattle.aiger_reader.specs.Numbers.{header_of};
ghost use Rattle.aiger_reader.specs.Bodies.{line_offset, AreLines};
ghost use Rattle.aiger_reader.specs.Numbered.{IsSound};
ghost use Rattle.aiger_reader.specs.Reading.{rows_of, input_lines_of, gate_lines_of, IsAtLine, IsReading};
ghost use Rattle.aiger_reader.specs.Reading.{IsBodyReading, IsNextLine, HasCounts, IsRowRead, IsStop};

use crate::limits::Header;
use crate::literals::read_line;
use net_file::{NetFault, NetKind, NetStop};
use std::alloc::Global;
use text_core::Cursor;

/// The line of a gate: the literal that it defines, and the two literals that it is the AND of.
#[derive(Clone, Copy)]
pub(crate) struct AndLine {
    pub(crate) lhs: u32,
    pub(crate) a: u32,
    pub(crate) b: u32,
}

/// The literals on the lines of the body, line by line.
#[derive(Drop)]
pub(crate) struct Literals {
    pub(crate) inputs: Vec<u32>,
    pub(crate) outputs: Vec<u32>,
    pub(crate) gates: Vec<AndLine>,
}

/// What is read of the lines after the header.
#[derive(Drop)]
pub(crate) struct Body<'a> {
    pub(crate) literals: Literals,
    /// For each variable its place among those that are defined, counted from 1, and 0 where it is not defined.
    pub(crate) signals: Vec<u32>,
    /// How many variables are defined.
    pub(crate) count: u32,
    /// What is left after the lines.
    pub(crate) rest: Cursor<'a>,
}

impl<'a> Body<'a> {
    // Fills the row with the literals on the next line, and moves past it. Gives the line's offset.
    fn next_row(
        &mut self,
        input: &[u8],
        header: Header,
        row: &mut [u32],
        defining: bool,
    ) -> Result<u64, NetStop>
        requires reading { IsBodyReading input.now header self.old }
        requires next_line { IsNextLine (header_of header []) (rows_of self.old.literals)
            (length row.old) defining }
        ensures literals { self.new.literals ≡ self.old.literals }
        ensures signals { self.new.signals ≡ self.old.signals }
        ensures count { self.new.count ≡ self.old.count }
        ensures row { IfOk result (λ _. IsRowRead input.now (header_of header [])
            (rows_of self.old.literals) defining row.new self.new.rest) }
        ensures at { IfOk result (λ at. at
            ≡ line_offset input.now (length (rows_of self.old.literals) + 1)) }
        ensures stop { IfErr result (IsStop input.now (header_of header [])) }
    {
        let greatest = 2 * header.variables + 1;
        read_line(&mut self.rest, row, greatest, defining)
    }

    // Fills the row with the literals on the next line, which defines a variable, and notes that.
    fn next_definition(
        &mut self,
        input: &[u8],
        header: Header,
        row: &mut [u32],
    ) -> Result<(), NetStop>
        requires reading { IsBodyReading input.now header self.old }
        requires next_line { IsNextLine (header_of header []) (rows_of self.old.literals)
            (length row.old) true }
        ensures literals { self.new.literals ≡ self.old.literals }
        ensures reading { OnOk result (IsReading input.now (header_of header [])
            (rows_of self.old.literals ++ row.new ∷ [])
            self.new.rest self.new.signals.items self.new.count) }
        ensures stop { IfErr result (IsStop input.now (header_of header [])) }
    {
        let at = self.next_row(input, header, row, true)?;
        if !define(&mut self.signals, row[0] / 2, self.count + 1) {
            return Err(NetStop::Fault(NetFault {
                kind: NetKind::Redefined,
                at,
            }));
        }
        self.count += 1;
        Ok(())
    }

    // Reads the lines of the inputs.
    fn read_inputs(&mut self, input: &[u8], header: Header) -> Result<(), NetStop>
        requires reading { IsBodyReading input.now header self.old }
        requires start { HasCounts self.old.literals 0 0 0 }
        ensures reading { OnOk result (IsBodyReading input.now header self.new) }
        ensures counts { OnOk result (HasCounts self.new.literals
            (input_lines_of (header_of header [])) 0 0) }
        ensures stop { IfErr result (IsStop input.now (header_of header [])) }
    {
        for _ in 0..input_lines(header) {
            let mut row = [0; 1];
            self.next_definition(input, header, &mut row)?;
            self.literals.inputs.push(row[0])?;
        }
        Ok(())
    }

    // Reads the lines of the outputs.
    fn read_outputs(&mut self, input: &[u8], header: Header) -> Result<(), NetStop>
        requires reading { IsBodyReading input.now header self.old }
        requires start { HasCounts self.old.literals (input_lines_of (header_of header [])) 0 0 }
        ensures reading { OnOk result (IsBodyReading input.now header self.new) }
        ensures counts { OnOk result (HasCounts self.new.literals
            (input_lines_of (header_of header [])) header.outputs 0) }
        ensures stop { IfErr result (IsStop input.now (header_of header [])) }
    {
        for _ in 0..header.outputs {
            let mut row = [0; 1];
            self.next_row(input, header, &mut row, false)?;
            self.literals.outputs.push(row[0])?;
        }
        Ok(())
    }

    // Reads the lines of the gates.
    fn read_gates(&mut self, input: &[u8], header: Header) -> Result<(), NetStop>
        requires reading { IsBodyReading input.now header self.old }
        requires start { HasCounts self.old.literals (input_lines_of (header_of header []))
            header.outputs 0 }
        ensures reading { OnOk result (IsBodyReading input.now header self.new) }
        ensures counts { OnOk result (HasCounts self.new.literals
            (input_lines_of (header_of header [])) header.outputs
            (gate_lines_of (header_of header []))) }
        ensures stop { IfErr result (IsStop input.now (header_of header [])) }
    {
        for _ in 0..gate_lines(header) {
            let mut row = [0; 3];
            self.next_definition(input, header, &mut row)?;
            let [lhs, a, b] = row;
            self.literals.gates.push(AndLine { lhs, a, b })?;
        }
        Ok(())
    }
}

/// Reads the lines after the header's, in their order: of the ASCII form a line for each input, output and gate,
/// of the binary form one for each output. A line of an input or an output has one literal, a line of a gate the
/// literal that it defines and the two that it is the AND of. The literals are numbers in base ten, up to that of
/// the greatest variable, negated; what an input or a gate defines is a plain literal, not the constant's, and of
/// a variable that no earlier line defines (AIGER 1.9).
///
/// # Errors
///
/// [`NetStop::Fault`] with the first fault: [`NetKind::BadLine`], [`NetKind::BadLiteral`] or
/// [`NetKind::Redefined`] at the first byte of the first line that isn't as it should be, the first of them that
/// applies to it, or [`NetKind::Truncated`] at the file's end where a line is missing. [`NetStop::Memory`]
/// only when out of memory.
#[tactic(auto, using(crate::proofs::ReadingLemmas::body_read, crate::proofs::ReadingLemmas::body_sound))]
pub(crate) fn read_body<'a>(
    alloc: Global,
    input: &'a [u8],
    header: Header,
) -> Result<Body<'a>, NetStop>
    ensures body { IfOk result (λ body.
        AreLines input.now (header_of header []) (rows_of body.literals)) }
    ensures sound { IfOk result (λ body.
        IsSound (header_of header []) body.literals body.signals.items) }
    ensures rest { IfOk result (λ body.
        IsAtLine input.now (length (rows_of body.literals) + 1) body.rest) }
    ensures stop { IfErr result (IsStop input.now (header_of header [])) }
{
    let mut body = start(alloc, input, header)?;
    body.read_inputs(input, header)?;
    body.read_outputs(input, header)?;
    body.read_gates(input, header)?;
    Ok(body)
}

// After the header's line, with nothing read of the body.
fn start<'a>(alloc: Global, input: &'a [u8], header: Header) -> Result<Body<'a>, NetStop>
    ensures reading { IfOk result (IsBodyReading input.now header) }
    ensures counts { IfOk result (λ body. HasCounts body.literals 0 0 0) }
    ensures memory { IfErr result (λ stop. stop ≡ NetStop.Memory) }
{
    let signals = vec![in alloc; 0; header.variables as usize + 1]?;
    let mut rest = Cursor::new(input);
    let _ = rest.next_line();
    let literals = Literals {
        inputs: Vec::new(alloc),
        outputs: Vec::new(alloc),
        gates: Vec::new(alloc),
    };
    Ok(Body {
        literals,
        signals,
        count: 0,
        rest,
    })
}

/// How many lines of inputs there are: none in the binary form.
pub(crate) fn input_lines(header: Header) -> u32
    ensures { result ≡ input_lines_of (header_of header []) }
{
    if header.binary { 0 } else { header.inputs }
}

/// How many lines of gates there are: none in the binary form.
pub(crate) fn gate_lines(header: Header) -> u32
    ensures { result ≡ gate_lines_of (header_of header []) }
{
    if header.binary { 0 } else { header.gates }
}

// Gives a variable its place, where it has none.
fn define(signals: &mut Vec<u32>, variable: u32, place: u32) -> bool
    requires { variable < vec_len signals.old }
    ensures free { OnTrue result (slice_index_or signals.old.items variable 0 ≡ 0) }
    ensures placed { OnTrue result
        (signals.new.items ≡ slice_set signals.old.items variable place) }
    ensures taken { OnFalse result (0 < slice_index_or signals.old.items variable 0) }
{
    let variable = variable as usize;
    if signals[variable] != 0 {
        return false;
    }
    signals[variable] = place;
    true
}
