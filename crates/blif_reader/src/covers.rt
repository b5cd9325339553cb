//! A second pass over the lines: the covers and the outputs, by the numbers of their names.

ghost use Rattle.std.specs.Prelude.{◌≡◌, ◌≢◌, ◌+◌, ◌-◌, ◌<◌, ◌^◌, ◌==◌, ◌&&◌, ◌∷◌, [], ◌++◌, length, map, All, None};
ghost use Rattle.std.specs.Prelude.{false, slice_index_or, MatchOption, IsOk, OnOk, IfOk, IfErr};
ghost use Rattle.std.specs.List.{list_any, position_or_len};
ghost use Rattle.std.specs.Str.{bytes_eq};
ghost use Rattle.circuits.specs.declared.netlist.Lit.{Lit};
ghost use Rattle.net_file.specs.Stops.{IsStopBy};
ghost use Rattle.blif_reader.specs.JoinedLines.{word_of};
ghost use Rattle.blif_reader.specs.Directives.{directive_of};
ghost use Rattle.blif_reader.specs.Names.{read_on};
ghost use Rattle.blif_reader.specs.Faults.{AreDefinedOnce, IsUndefinedFault};
ghost use Rattle.blif_reader.specs.Reading.{words_left, lines_left, line_from};
ghost use Rattle.blif_reader.specs.Covers.{trit_of, trits_of, signal_names, signal_named, literal_named};
ghost use Rattle.blif_reader.specs.Numbers.{names_of};
ghost use Rattle.blif_reader.specs.Building.{but_last, closed, with_row, IsKnownIn, IsUnknownFault, Builds, IsBuilt};
ghost use Rattle.blif_reader.specs.Blif.{blif_lines};

use crate::directive::Directive;
use crate::lines::JoinedLines;
use crate::names::find_name;
use circuits::{Def, Lit, Trit};
use indexmap::IndexSet;
use items::Items;
use net_file::{NetFault, NetKind, NetStop};
use std::alloc::{AllocError, Global};
use text_core::Span;

/// A `.names` line and the rows after it, so far.
#[derive(Drop)]
pub(crate) struct CoverSoFar {
    /// The signals of its operands.
    pub(crate) names: Items<u32>,
    pub(crate) rows: Items<Items<Trit>>,
    /// Whether the rows list the on-set, which is so where there are none.
    pub(crate) on: bool,
}

/// What is read of the covers and the outputs.
#[derive(Drop)]
pub(crate) struct Covers {
    /// The definitions of the covers that are closed, in the order of the text.
    pub(crate) defs: Items<Def>,
    /// The offset of each `.names` line, for a cycle, which is seen only when the definitions are put in order.
    pub(crate) places: Items<u64>,
    /// The literals of the outputs.
    pub(crate) outputs: Items<Lit>,
    /// The cover to which rows are added.
    pub(crate) current: Option<CoverSoFar>,
}

/// Reads the covers and the outputs of a file, by the numbers of the names that are known. The fault is at the first
/// word that reads a name which isn't known.
pub(crate) fn read_covers(
    alloc: Global,
    input: &[u8],
    names: &IndexSet<&[u8]>,
) -> Result<Covers, NetStop>
    requires once { AreDefinedOnce (blif_lines input.now) }
    requires names { names_of names.now ≡ signal_names (blif_lines input.now) }
    requires few { length (names_of names.now) < 2 ^ 30 }
    ensures built { IfOk result
        (λ covers. IsBuilt (signal_names (blif_lines input.now)) (blif_lines input.now) covers) }
    ensures stop { IfErr result (IsStopBy (IsUndefinedFault (blif_lines input.now))) }
{
    let mut covers = Covers::new(alloc);
    covers.read_all(alloc, input, names)?;
    Ok(covers)
}

impl Covers {
    fn new(alloc: Global) -> Covers
        ensures { result ≡ record { defs = []; places = []; outputs = []; current = None } }
    {
        Covers {
            defs: Items::new(alloc),
            places: Items::new(alloc),
            outputs: Items::new(alloc),
            current: None,
        }
    }

    // Reads all lines of a file where nothing is read so far.
    fn read_all(
        &mut self,
        alloc: Global,
        input: &[u8],
        names: &IndexSet<&[u8]>,
    ) -> Result<(), NetStop>
        requires once { AreDefinedOnce (blif_lines input.now) }
        requires names { names_of names.now ≡ signal_names (blif_lines input.now) }
        requires few { length (names_of names.now) < 2 ^ 30 }
        requires nothing { self.old ≡ record { defs = []; places = []; outputs = []; current = None } }
        ensures built { OnOk result (IsBuilt (signal_names (blif_lines input.now)) (blif_lines input.now) self.new) }
        ensures stop { IfErr result (IsStopBy (IsUndefinedFault (blif_lines input.now))) }
    {
        let mut lines = JoinedLines::new(input);
        while let Some(first) = lines.next_line() {
            self.read_line(alloc, first, &mut lines, names)?;
        }
        self.close()?;
        Ok(())
    }

    // Reads one line, of which `first` is the first word.
    fn read_line(
        &mut self,
        alloc: Global,
        first: Span<'_>,
        lines: &mut JoinedLines<'_>,
        names: &IndexSet<&[u8]>,
    ) -> Result<(), NetStop>
        requires { length (names_of names.now) < 2 ^ 30 }
        ensures builds { OnOk result (Builds (names_of names.now)
            (directive_of (line_from first.entry lines.old)) (line_from first.entry lines.old) self.old self.new) }
        ensures stop { IfErr result (IsStopBy (IsUnknownFault (names_of names.now)
            (read_on (directive_of (line_from first.entry lines.old)) (line_from first.entry lines.old)))) }
        ensures lines { OnOk result (lines_left lines.new ≡ lines_left lines.old) }
    {
        match Directive::from_word(first.bytes()) {
            Directive::Row => Ok(self.read_row(alloc, first, lines)?),
            Directive::Names => self.read_names(alloc, first, lines, names),
            Directive::Outputs => self.read_output_line(first, lines, names),
            _ => Ok(self.close()?),
        }
    }

    // Reads a `.names` line.
    fn read_names(
        &mut self,
        alloc: Global,
        first: Span<'_>,
        lines: &mut JoinedLines<'_>,
        names: &IndexSet<&[u8]>,
    ) -> Result<(), NetStop>
        requires { length (names_of names.now) < 2 ^ 30 }
        ensures builds { OnOk result
            (Builds (names_of names.now) Directive.Names (line_from first.entry lines.old) self.old self.new) }
        ensures stop { IfErr result (IsStopBy (IsUnknownFault (names_of names.now)
            (read_on Directive.Names (line_from first.entry lines.old)))) }
        ensures lines { OnOk result (lines_left lines.new ≡ lines_left lines.old) }
    {
        self.close()?;
        self.places.push(first.at())?;
        self.current = Some(CoverSoFar {
            names: operand_signals(alloc, lines, names)?,
            rows: Items::new(alloc),
            on: true,
        });
        Ok(())
    }

    // Reads an `.outputs` line.
    fn read_output_line(
        &mut self,
        first: Span<'_>,
        lines: &mut JoinedLines<'_>,
        names: &IndexSet<&[u8]>,
    ) -> Result<(), NetStop>
        requires { length (names_of names.now) < 2 ^ 30 }
        ensures builds { OnOk result
            (Builds (names_of names.now) Directive.Outputs (line_from first.entry lines.old) self.old self.new) }
        ensures stop { IfErr result (IsStopBy (IsUnknownFault (names_of names.now)
            (read_on Directive.Outputs (line_from first.entry lines.old)))) }
        ensures lines { OnOk result (lines_left lines.new ≡ lines_left lines.old) }
    {
        self.close()?;
        read_outputs(&mut self.outputs, lines, names)
    }

    // Closes the open cover, if there is one.
    fn close(&mut self) -> Result<(), AllocError>
        ensures defs { OnOk result (self.new.defs ≡ self.old.defs ++ closed self.old.current) }
        ensures current { OnOk result (self.new.current ≡ None) }
        ensures places { self.new.places ≡ self.old.places }
        ensures outputs { self.new.outputs ≡ self.old.outputs }
        ensures nothing_open { self.old.current ≡ None → IsOk result }
    {
        let Some(cover) = self.current.take() else {
            return Ok(());
        };
        let CoverSoFar { names, rows, on } = cover;
        self.defs.push(Def::Cover { names, rows, on })?;
        Ok(())
    }

    // Adds a row to the open cover, if there is one.
    fn read_row(
        &mut self,
        alloc: Global,
        first: Span<'_>,
        lines: &mut JoinedLines<'_>,
    ) -> Result<(), AllocError>
        ensures builds { OnOk result (self.new.current ≡ with_row self.old.current (line_from first.entry lines.old)) }
        ensures defs { self.new.defs ≡ self.old.defs }
        ensures places { self.new.places ≡ self.old.places }
        ensures outputs { self.new.outputs ≡ self.old.outputs }
        ensures lines { lines_left lines.new ≡ lines_left lines.old }
        ensures nothing_open { self.old.current ≡ None → IsOk result }
    {
        let output = last_word(lines);
        let Some(cover) = self.current.take() else {
            return Ok(());
        };
        let added = match &output {
            Some(output) => cover.with_row(alloc, first.bytes(), output.bytes()),
            None => cover.with_row(alloc, b"".as_slice(), first.bytes()),
        };
        self.current = Some(added?);
        Ok(())
    }
}

impl CoverSoFar {
    // The cover with a row more, by its bytes for the operands and for the output.
    fn with_row(
        self,
        alloc: Global,
        literals: &[u8],
        output: &[u8],
    ) -> Result<CoverSoFar, AllocError>
        ensures { IfOk result (λ cover. cover ≡ record {
          names = self.names;
          rows = self.rows ++ map trit_of literals.now ∷ [];
          on = self.on && (slice_index_or output.now 0 0 == 49);
        }) }
    {
        let CoverSoFar {
            names,
            mut rows,
            on,
        } = self;
        let trits = trits_of(alloc, literals)?;
        rows.push(trits)?;
        Ok(CoverSoFar {
            names,
            rows,
            // The first pass saw that all rows of a cover are of one set.
            on: on & is_on(output),
        })
    }
}

/// What the bytes of a row require of their operands.
pub fn trits_of(alloc: Global, literals: &[u8]) -> Result<Items<Trit>, AllocError>
    ensures { IfOk result (λ trits. trits ≡ map trit_of literals.now) }
{
    Ok(Items::from_vec(collect_trits(alloc, literals)?))
}

fn collect_trits(alloc: Global, literals: &[u8]) -> Result<Vec<Trit>, AllocError>
    ensures { IfOk result (λ trits. trits.items ≡ map trit_of literals.now) }
{
    literals.iter().map(|byte| trit_of(*byte)).collect(alloc)
}

// Adds the literals of the words that are left of a line.
fn read_outputs(
    outputs: &mut Items<Lit>,
    lines: &mut JoinedLines<'_>,
    names: &IndexSet<&[u8]>,
) -> Result<(), NetStop>
    requires { length (names_of names.now) < 2 ^ 30 }
    ensures outputs { OnOk result (outputs.new ≡ outputs.old
        ++ map (literal_named (names_of names.now)) (words_left lines.old)) }
    ensures known { OnOk result (All (IsKnownIn (names_of names.now))
        (words_left lines.old)) }
    ensures lines { OnOk result (lines_left lines.new ≡ lines_left lines.old) }
    ensures stop { IfErr result (IsStopBy (IsUnknownFault (names_of names.now) (words_left lines.old))) }
{
    while let Some(word) = lines.next_word() {
        let signal = signal_of(names, &word)?;
        outputs.push(Lit(2 * signal))?;
    }
    Ok(())
}

// The signals of the words that are left of a line but for the last, which is the name that it defines.
fn operand_signals(
    alloc: Global,
    lines: &mut JoinedLines<'_>,
    names: &IndexSet<&[u8]>,
) -> Result<Items<u32>, NetStop>
    requires { length (names_of names.now) < 2 ^ 30 }
    ensures signals { IfOk result (λ signals. signals ≡ map (signal_named (names_of names.now))
        (but_last (words_left lines.old))) }
    ensures known { OnOk result (All (IsKnownIn (names_of names.now))
        (but_last (words_left lines.old))) }
    ensures lines { OnOk result (lines_left lines.new ≡ lines_left lines.old) }
    ensures stop { IfErr result (IsStopBy (IsUnknownFault (names_of names.now) (but_last (words_left lines.old)))) }
{
    let mut signals = Items::new(alloc);
    // A word is an operand only if another stands after it, so it is looked up one word later.
    let Some(mut operand) = lines.next_word() else {
        return Ok(signals);
    };
    while let Some(word) = lines.next_word() {
        let signal = signal_of(names, &operand)?;
        signals.push(signal)?;
        operand = word;
    }
    Ok(signals)
}

// The signal of a name that is read. There are so few names that a literal, which is twice a signal, has 32 bits.
fn signal_of(names: &IndexSet<&[u8]>, word: &Span<'_>) -> Result<u32, NetStop>
    requires { length (names_of names.now) < 2 ^ 30 }
    ensures signal { IfOk result (λ signal. signal ≡ signal_named (names_of names.now) word.now) }
    ensures small { IfOk result (λ signal. signal < 2 ^ 30 + 1) }
    ensures known { OnOk result (IsKnownIn (names_of names.now) word.now) }
    ensures stop { IfErr result (IsStopBy (λ kind at. (kind ≡ NetKind.NameUndefined) × (at ≡ word.now.at)
        × (list_any (bytes_eq word.now.bytes) (names_of names.now) ≡ false))) }
    ensures no_memory { result ≢ Err NetStop.Memory }
{
    match find_name(names, word.bytes()) {
        Some(place) => Ok(place as u32 + 1),
        None => Err(NetStop::Fault(NetFault {
            kind: NetKind::NameUndefined,
            at: word.at(),
        })),
    }
}

// What a byte of a row requires of its operand.
fn trit_of(byte: u8) -> Trit
    ensures { result ≡ trit_of byte }
{
    match byte {
        b'0' => Trit::Zero,
        b'1' => Trit::One,
        _ => Trit::Dash,
    }
}

// Whether a word for the output is of the on-set.
fn is_on(output: &[u8]) -> bool
    ensures { result ≡ (slice_index_or output.now 0 0 == 49) }
{
    match output {
        [first, ..] => *first == b'1',
        [] => false,
    }
}

// The last of the words that are left of a line, if there is one.
fn last_word<'a>(lines: &mut JoinedLines<'a>) -> Option<Span<'a>>
    ensures word { MatchOption result (words_left lines.old ≡ [])
        (λ word. (0 < length (words_left lines.old))
        × (word ≡ word_of (words_left lines.old) (length (words_left lines.old) - 1))) }
    ensures lines { lines_left lines.new ≡ lines_left lines.old }
{
    let mut last = None;
    while let Some(word) = lines.next_word() {
        last = Some(word);
    }
    last
}
