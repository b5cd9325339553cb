//! A first pass over the lines: their faults, the ports, and the names that covers define.

ghost use Rattle.std.specs.Prelude.{◌≡◌, ◌≢◌, ℕ, ◌∷◌, ◌++◌, List, [], length, map, true, false, None, Some, OnOk, IsOk};
ghost use Rattle.std.specs.Prelude.{IfOk, IfErr};
ghost use Rattle.text_core.specs.Piece.{Piece};
ghost use Rattle.net_file.specs.Stops.{IsStopBy};
ghost use Rattle.blif_reader.specs.Blif.{blif_lines};
ghost use Rattle.blif_reader.specs.Directives.{directive_of};
ghost use Rattle.blif_reader.specs.Faults.{fault_after_end, IsLineFault};
ghost use Rattle.blif_reader.specs.Names.{named_ports};
ghost use Rattle.blif_reader.specs.Reading.{words_left, lines_left, line_from};
ghost use Rattle.blif_reader.specs.Surveys.{fault_of, IsStopAt, Advances, IsSurveyed};

use crate::directive::Directive;
use crate::lines::JoinedLines;
use crate::rows::{OpenCover, words_of_row};
use circuits::PortKind;
use net_file::{NetFault, NetKind, NetStop};
use std::alloc::{AllocError, Global};
use text_core::Span;

/// A word that names a port.
#[derive(Drop)]
pub struct PortWord<'a> {
    pub kind: PortKind,
    pub word: Span<'a>,
}

/// What is known of the lines that were read.
#[derive(Drop)]
pub(crate) struct Survey<'a> {
    /// The words that name ports, in the order of the text.
    pub(crate) ports: Vec<PortWord<'a>>,
    /// The names that covers define, in the order of the text.
    pub(crate) defined: Vec<Span<'a>>,
    pub(crate) has_model: bool,
    pub(crate) has_inputs: bool,
    pub(crate) has_outputs: bool,
    /// Whether there was an `.end` line.
    pub(crate) ended: bool,
    /// The cover in which a row would stand.
    pub(crate) cover: Option<OpenCover>,
}

impl<'a> Survey<'a> {
    /// What is known where no line was read.
    fn new(alloc: Global) -> Survey<'a>
        ensures { IsSurveyed [] result }
    {
        Survey {
            ports: Vec::new(alloc),
            defined: Vec::new(alloc),
            has_model: false,
            has_inputs: false,
            has_outputs: false,
            ended: false,
            cover: None,
        }
    }

    // Reads one line, of which `first` is the first word.
    fn read_line(
        &mut self,
        alloc: Global,
        first: Span<'a>,
        lines: &mut JoinedLines<'a>,
    ) -> Result<(), NetStop>
        ensures advances { OnOk result (Advances (directive_of (line_from first.entry lines.old))
            (line_from first.entry lines.old) self.old self.new) }
        ensures stop { IfErr result (IsStopAt first.entry (fault_of self.old (line_from first.entry lines.old)
            (directive_of (line_from first.entry lines.old)))) }
        ensures lines { OnOk result (lines_left lines.new ≡ lines_left lines.old) }
    {
        let directive = Directive::from_word(first.bytes());
        let at = first.at();
        if self.ended {
            return Err(fault_at(at, kind_after_end(directive)));
        }
        match directive {
            Directive::Row => self.read_row(first, lines),
            Directive::Names => self.read_names(alloc, first, lines),
            Directive::Inputs => self.read_inputs(first, lines),
            Directive::Outputs => self.read_outputs(first, lines),
            Directive::Model => self.read_model(first),
            Directive::End => {
                self.read_end();
                Ok(())
            }
            Directive::PassedOver => {
                self.pass_over();
                Ok(())
            }
            // Instances are for whoever reads several models.
            Directive::Subckt => Err(fault_at(at, NetKind::Directive)),
            Directive::Latch => Err(fault_at(at, NetKind::Latch)),
            Directive::DontCares => Err(fault_at(at, NetKind::DontCare)),
            Directive::Unknown => Err(fault_at(at, NetKind::Directive)),
        }
    }

    // Reads a row.
    fn read_row(&mut self, first: Span<'a>, lines: &mut JoinedLines<'a>) -> Result<(), NetStop>
        requires { self.old.ended ≡ false }
        ensures advances { OnOk result (Advances Directive.Row (line_from first.entry lines.old) self.old self.new) }
        ensures stop { IfErr result
            (IsStopAt first.entry (fault_of self.old (line_from first.entry lines.old) Directive.Row)) }
        ensures no_memory { result ≢ Err NetStop.Memory }
        ensures lines { lines_left lines.new ≡ lines_left lines.old }
    {
        let at = first.at();
        // Only the cover says how wide a row should be, so that a row is in one is asked first.
        let Some(cover) = self.cover else {
            return Err(fault_at(at, NetKind::RowOutside));
        };
        let Some(row) = words_of_row(first, lines) else {
            return Err(fault_at(at, NetKind::RowWidth));
        };
        let output = cover.check_row(&row).map_err(|kind| fault_at(at, kind))?;
        self.cover = Some(OpenCover {
            operands: cover.operands,
            output: Some(output),
        });
        Ok(())
    }

    // Reads a `.names` line.
    fn read_names(
        &mut self,
        alloc: Global,
        first: Span<'a>,
        lines: &mut JoinedLines<'a>,
    ) -> Result<(), NetStop>
        requires { self.old.ended ≡ false }
        ensures advances { OnOk result (Advances Directive.Names (line_from first.entry lines.old) self.old self.new) }
        ensures stop { IfErr result
            (IsStopAt first.entry (fault_of self.old (line_from first.entry lines.old) Directive.Names)) }
        ensures lines { OnOk result (lines_left lines.new ≡ lines_left lines.old) }
    {
        let mut words = take_words(alloc, lines)?;
        let Some(name) = words.pop() else {
            return Err(fault_at(first.at(), NetKind::Directive));
        };
        self.defined.push(name)?;
        self.cover = Some(OpenCover {
            operands: words.len(),
            output: None,
        });
        Ok(())
    }

    // Reads an `.inputs` line.
    fn read_inputs(&mut self, first: Span<'a>, lines: &mut JoinedLines<'a>) -> Result<(), NetStop>
        requires { self.old.ended ≡ false }
        ensures advances { OnOk result (Advances Directive.Inputs (line_from first.entry lines.old) self.old self.new) }
        ensures stop { IfErr result
            (IsStopAt first.entry (fault_of self.old (line_from first.entry lines.old) Directive.Inputs)) }
        ensures lines { OnOk result (lines_left lines.new ≡ lines_left lines.old) }
    {
        self.has_inputs = true;
        self.cover = None;
        Ok(take_ports(PortKind::Input, lines, &mut self.ports)?)
    }

    // Reads an `.outputs` line.
    fn read_outputs(&mut self, first: Span<'a>, lines: &mut JoinedLines<'a>) -> Result<(), NetStop>
        requires { self.old.ended ≡ false }
        ensures advances { OnOk result
            (Advances Directive.Outputs (line_from first.entry lines.old) self.old self.new) }
        ensures stop { IfErr result
            (IsStopAt first.entry (fault_of self.old (line_from first.entry lines.old) Directive.Outputs)) }
        ensures lines { OnOk result (lines_left lines.new ≡ lines_left lines.old) }
    {
        self.has_outputs = true;
        self.cover = None;
        Ok(take_ports(PortKind::Output, lines, &mut self.ports)?)
    }

    // Reads a `.model` line, of which there may be one.
    fn read_model(&mut self, first: Span<'a>) -> Result<(), NetStop>
        requires { self.old.ended ≡ false }
        ensures advances { (line : List Piece) → OnOk result (Advances Directive.Model line self.old self.new) }
        ensures stop { (line : List Piece)
            → IfErr result (IsStopAt first.entry (fault_of self.old line Directive.Model)) }
    {
        if self.has_model {
            return Err(fault_at(first.at(), NetKind::SecondModel));
        }
        self.has_model = true;
        self.cover = None;
        Ok(())
    }

    // Reads an `.end` line, after which no other may stand.
    fn read_end(&mut self)
        requires { self.old.ended ≡ false }
        ensures { (line : List Piece) → Advances Directive.End line self.old self.new }
    {
        self.ended = true;
        self.cover = None;
    }

    // Passes over a line that says nothing of the function; but it closes the cover.
    fn pass_over(&mut self)
        requires { self.old.ended ≡ false }
        ensures { (line : List Piece) → Advances Directive.PassedOver line self.old self.new }
    {
        self.cover = None;
    }
}

/// The words that are left of a line.
pub fn take_words<'a>(
    alloc: Global,
    lines: &mut JoinedLines<'a>,
) -> Result<Vec<Span<'a>>, AllocError>
    ensures words { IfOk result (λ words. words.items ≡ words_left lines.old) }
    ensures lines { OnOk result (lines_left lines.new ≡ lines_left lines.old) }
{
    let mut words = Vec::new(alloc);
    while let Some(word) = lines.next_word() {
        words.push(word)?;
    }
    Ok(words)
}

// Notes the words that are left of a line as ports.
fn take_ports<'a>(
    kind: PortKind,
    lines: &mut JoinedLines<'a>,
    ports: &mut Vec<PortWord<'a>>,
) -> Result<(), AllocError>
    ensures ports { OnOk result (ports.new.items ≡ ports.old.items
        ++ named_ports kind (words_left lines.old)) }
    ensures lines { OnOk result (lines_left lines.new ≡ lines_left lines.old) }
{
    while let Some(word) = lines.next_word() {
        ports.push(PortWord { kind, word })?;
    }
    Ok(())
}

/// Reads all lines of a file. The fault is that of the first line that has one, at its first word.
pub(crate) fn survey_lines<'a>(alloc: Global, input: &'a [u8]) -> Result<Survey<'a>, NetStop>
    ensures surveyed { IfOk result (λ survey. IsSurveyed (blif_lines input.now) survey) }
    ensures stop { IfErr result (IsStopBy (IsLineFault (blif_lines input.now))) }
{
    let mut lines = JoinedLines::new(input);
    let mut survey = Survey::new(alloc);
    while let Some(first) = lines.next_line() {
        survey.read_line(alloc, first, &mut lines)?;
    }
    Ok(survey)
}

// The stop for what is wrong with a line, at its first word.
fn fault_at(at: u64, kind: NetKind) -> NetStop
    ensures { result ≡ NetStop.Fault (record { kind = kind; at = at }) }
{
    NetStop::Fault(NetFault { kind, at })
}

// What is wrong with a line after `.end`.
fn kind_after_end(directive: Directive) -> NetKind
    ensures { fault_after_end directive ≡ Some result }
{
    match directive {
        Directive::Model => NetKind::SecondModel,
        _ => NetKind::Directive,
    }
}
