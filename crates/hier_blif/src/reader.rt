//! The models of a file, read line by line.

ghost use Rattle.std.specs.Prelude.{◌≡◌, ◌==◌, ◌&&◌, ◌||◌, not, ℕ, [], ◌∷◌, ◌++◌};
ghost use Rattle.std.specs.Prelude.{List, true, false, None, Some, length, OnOk, IfOk, IfErr, if◌then◌else◌};
ghost use Rattle.text_core.specs.Piece.{Piece};
ghost use Rattle.blif_reader.specs.Blif.{blif_lines};
ghost use Rattle.blif_reader.specs.Directives.{directive_of, is_model};
ghost use Rattle.blif_reader.specs.Reading.{words_left, lines_left, line_from};
ghost use Rattle.blif_reader.specs.Numbers.{names_of};
ghost use Rattle.blif_reader.specs.Rows.{literal_bytes, output_byte};
ghost use Rattle.blif_reader.specs.Surveys.{words_in_row};
ghost use Rattle.blif_reader.specs.declared.directive.Directive.{Directive as AnyDirective};
ghost use Rattle.hier_blif.specs.Kinds.{kind_of_row};
ghost use Rattle.hier_blif.specs.Stops.{IsStopBy};
ghost use Rattle.hier_blif.specs.Models.{models_of, no_name, empty_model};
ghost use Rattle.hier_blif.specs.LineFaults.{IsLineFault, AreSound};
ghost use Rattle.hier_blif.specs.Reading.{Advances, IsReading, closed, fault_of, with_lines, with_row};

use crate::bindings::find_malformed_binding;
use crate::fault::{HierKind, HierStop, fault_at};
use crate::model::{BlifModel, CoverLine, InstanceLine, ModelLine};
use blif_reader::{
    Directive, JoinedLines, OpenCover, RowWords, add_name, take_words, trits_of, words_of_row,
};
use indexmap::IndexSet;
use items::Items;
use net_file::NetKind;
use std::alloc::{AllocError, Global};
use std::mem;
use text_core::{Cursor, Span};

/// What is known of the lines that were read.
#[derive(Drop)]
pub(crate) struct Reader<'a> {
    /// The models that are whole.
    pub(crate) models: Items<BlifModel<'a>>,
    /// The names on `.model` lines.
    pub(crate) names: IndexSet<&'a [u8]>,
    /// The model that is being read, without the cover that is open.
    pub(crate) current: BlifModel<'a>,
    /// Whether that model has begun, by a `.model` line or by another one that isn't passed over.
    pub(crate) begun: bool,
    /// The last `.names` line, with the rows so far.
    pub(crate) cover: Option<CoverLine<'a>>,
    /// The cover in which a row would stand.
    pub(crate) in_cover: Option<OpenCover>,
    /// Whether the model's `.end` was read.
    pub(crate) ended: bool,
}

impl<'a> Reader<'a> {
    /// What is known where no line was read.
    fn new(alloc: Global, input: &'a [u8]) -> Reader<'a>
        ensures models { result.models ≡ [] }
        ensures current { result.current ≡ empty_model 0 no_name }
        ensures begun { result.begun ≡ false }
        ensures cover { result.cover ≡ None }
        ensures in_cover { result.in_cover ≡ None }
        ensures ended { result.ended ≡ false }
        ensures names { names_of result.names ≡ [] }
    {
        // The first model has no `.model` line until one is read.
        let no_name = Cursor::new(input).take(0).unwrap();
        Reader {
            models: Items::new(alloc),
            names: IndexSet::new(alloc),
            current: BlifModel::empty(alloc, 0, no_name),
            begun: false,
            cover: None,
            in_cover: None,
            ended: false,
        }
    }

    // Reads all lines of a file.
    fn read_lines(&mut self, alloc: Global, input: &'a [u8]) -> Result<(), HierStop>
        requires { IsReading (blif_lines input.now) (blif_lines input.now) self.old }
        ensures read { OnOk result (IsReading (blif_lines input.now) [] self.new) }
        ensures stop { IfErr result (IsStopBy (IsLineFault (blif_lines input.now))) }
    {
        let mut lines = JoinedLines::new(input);
        while let Some(first) = lines.next_line() {
            self.read_line(alloc, first, &mut lines)?;
        }
        Ok(())
    }

    // Reads one line, of which `first` is the first word.
    fn read_line(
        &mut self,
        alloc: Global,
        first: Span<'a>,
        lines: &mut JoinedLines<'a>,
    ) -> Result<(), HierStop>
        ensures advances { OnOk result (Advances (directive_of (line_from first.entry lines.old))
            (line_from first.entry lines.old) self.old self.new) }
        ensures stop { IfErr result (IsStopBy (λ fault. fault_of self.old (line_from first.entry lines.old)
            (directive_of (line_from first.entry lines.old)) ≡ Some fault)) }
        ensures lines { OnOk result (lines_left lines.new ≡ lines_left lines.old) }
    {
        let directive = Directive::from_word(first.bytes());
        let at = first.at();
        if !is_model(directive) & self.ended {
            return Err(fault_at(at, HierKind::Directive));
        }
        match directive {
            Directive::Row => self.read_row(alloc, first, lines),
            Directive::Names => self.read_names(alloc, first, lines),
            Directive::Subckt => self.read_instance(alloc, first, lines),
            Directive::Inputs => self.read_inputs(alloc, first, lines),
            Directive::Outputs => self.read_outputs(alloc, first, lines),
            Directive::Model => self.read_model(alloc, first, lines),
            Directive::End => self.read_end(),
            Directive::PassedOver => self.pass_over(),
            Directive::Latch => Err(fault_at(at, HierKind::Sequential)),
            Directive::DontCares => Err(fault_at(at, HierKind::DontCare)),
            Directive::Unknown => Err(fault_at(at, HierKind::Directive)),
        }
    }

    // Reads a row.
    fn read_row(
        &mut self,
        alloc: Global,
        first: Span<'a>,
        lines: &mut JoinedLines<'a>,
    ) -> Result<(), HierStop>
        requires { self.old.ended ≡ false }
        ensures advances { OnOk result (Advances Directive.Row (line_from first.entry lines.old) self.old self.new) }
        ensures stop { IfErr result (IsStopBy (λ fault.
            fault_of self.old (line_from first.entry lines.old) Directive.Row ≡ Some fault)) }
        ensures lines { OnOk result (lines_left lines.new ≡ lines_left lines.old) }
    {
        let at = first.at();
        // Only the cover says how wide a row should be, so that a row is in one is asked first.
        let Some(open) = self.in_cover else {
            return Err(fault_at(at, HierKind::RowOutside));
        };
        let Some(row) = words_of_row(first, lines) else {
            return Err(fault_at(at, HierKind::RowWidth));
        };
        let output = open.check_row(&row).map_err(|kind| row_fault(at, kind))?;
        self.add_row(alloc, &row, output)?;
        self.in_cover = Some(OpenCover {
            operands: open.operands,
            output: Some(output),
        });
        self.begun = true;
        Ok(())
    }

    // Reads a `.names` line, which opens a cover.
    fn read_names(
        &mut self,
        alloc: Global,
        first: Span<'a>,
        lines: &mut JoinedLines<'a>,
    ) -> Result<(), HierStop>
        requires { self.old.ended ≡ false }
        ensures advances { OnOk result (Advances Directive.Names (line_from first.entry lines.old) self.old self.new) }
        ensures stop { IfErr result (IsStopBy (λ fault.
            fault_of self.old (line_from first.entry lines.old) Directive.Names ≡ Some fault)) }
        ensures lines { OnOk result (lines_left lines.new ≡ lines_left lines.old) }
    {
        let at = first.at();
        let mut words = take_words(alloc, lines)?;
        let Some(defined) = words.pop() else {
            return Err(fault_at(at, HierKind::Directive));
        };
        self.close_cover()?;
        self.in_cover = Some(OpenCover {
            operands: words.len(),
            output: None,
        });
        self.cover = Some(CoverLine {
            at,
            operands: Items::from_vec(words),
            defined,
            rows: Items::new(alloc),
            on: true,
        });
        self.begun = true;
        Ok(())
    }

    // Reads a `.subckt` line.
    fn read_instance(
        &mut self,
        alloc: Global,
        first: Span<'a>,
        lines: &mut JoinedLines<'a>,
    ) -> Result<(), HierStop>
        requires { self.old.ended ≡ false }
        ensures advances { OnOk result (Advances Directive.Subckt (line_from first.entry lines.old) self.old self.new) }
        ensures stop { IfErr result (IsStopBy (λ fault.
            fault_of self.old (line_from first.entry lines.old) Directive.Subckt ≡ Some fault)) }
        ensures lines { OnOk result (lines_left lines.new ≡ lines_left lines.old) }
    {
        let at = first.at();
        let Some(model) = lines.next_word() else {
            return Err(fault_at(at, HierKind::Directive));
        };
        let words = take_words(alloc, lines)?;
        if let Some(word) = find_malformed_binding(&words) {
            return Err(fault_at(word, HierKind::Binding));
        }
        let bindings = Items::from_vec(words);
        self.add_line(ModelLine::Instance(InstanceLine {
            at,
            model,
            bindings,
        }))?;
        Ok(())
    }

    // Reads an `.inputs` line.
    fn read_inputs(
        &mut self,
        alloc: Global,
        first: Span<'a>,
        lines: &mut JoinedLines<'a>,
    ) -> Result<(), HierStop>
        requires { self.old.ended ≡ false }
        ensures advances { OnOk result (Advances Directive.Inputs (line_from first.entry lines.old) self.old self.new) }
        ensures stop { IfErr result (IsStopBy (λ fault.
            fault_of self.old (line_from first.entry lines.old) Directive.Inputs ≡ Some fault)) }
        ensures lines { OnOk result (lines_left lines.new ≡ lines_left lines.old) }
    {
        let words = take_words(alloc, lines)?;
        self.add_line(ModelLine::Inputs(Items::from_vec(words)))?;
        Ok(())
    }

    // Reads an `.outputs` line.
    fn read_outputs(
        &mut self,
        alloc: Global,
        first: Span<'a>,
        lines: &mut JoinedLines<'a>,
    ) -> Result<(), HierStop>
        requires { self.old.ended ≡ false }
        ensures advances { OnOk result
            (Advances Directive.Outputs (line_from first.entry lines.old) self.old self.new) }
        ensures stop { IfErr result (IsStopBy (λ fault.
            fault_of self.old (line_from first.entry lines.old) Directive.Outputs ≡ Some fault)) }
        ensures lines { OnOk result (lines_left lines.new ≡ lines_left lines.old) }
    {
        let words = take_words(alloc, lines)?;
        self.add_line(ModelLine::Outputs(Items::from_vec(words)))?;
        Ok(())
    }

    // Reads a `.model` line, which ends the model before.
    fn read_model(
        &mut self,
        alloc: Global,
        first: Span<'a>,
        lines: &mut JoinedLines<'a>,
    ) -> Result<(), HierStop>
        ensures advances { OnOk result (Advances Directive.Model (line_from first.entry lines.old) self.old self.new) }
        ensures stop { IfErr result (IsStopBy (λ fault.
            fault_of self.old (line_from first.entry lines.old) Directive.Model ≡ Some fault)) }
        ensures lines { OnOk result (lines_left lines.new ≡ lines_left lines.old) }
    {
        let at = first.at();
        let Some(name) = lines.next_word() else {
            return Err(fault_at(at, HierKind::ModelName));
        };
        if !add_name(&mut self.names, name.bytes())? {
            return Err(fault_at(at, HierKind::ModelName));
        }
        self.begin_model(BlifModel::empty(alloc, at, name))?;
        self.in_cover = None;
        self.ended = false;
        Ok(())
    }

    // Reads an `.end` line, after which only a model may begin.
    fn read_end(&mut self) -> Result<(), HierStop>
        requires { self.old.ended ≡ false }
        ensures advances { (line : List Piece) → OnOk result (Advances Directive.End line self.old self.new) }
        ensures stop { (line : List Piece)
            → IfErr result (IsStopBy (λ fault. fault_of self.old line Directive.End ≡ Some fault)) }
    {
        self.close_cover()?;
        self.in_cover = None;
        self.begun = true;
        self.ended = true;
        Ok(())
    }

    // Passes over a line that says nothing of the function; but it closes the cover.
    fn pass_over(&mut self) -> Result<(), HierStop>
        requires { self.old.ended ≡ false }
        ensures advances { (line : List Piece) → OnOk result (Advances Directive.PassedOver line self.old self.new) }
        ensures stop { (line : List Piece)
            → IfErr result (IsStopBy (λ fault. fault_of self.old line Directive.PassedOver ≡ Some fault)) }
    {
        self.close_cover()?;
        self.in_cover = None;
        Ok(())
    }

    // Adds a line to the model that is being read.
    #[tactic(auto, using(crate::proofs::ModelLemmas::line_added))]
    fn add_line(&mut self, line: ModelLine<'a>) -> Result<(), AllocError>
        ensures current { OnOk result
            (self.new.current ≡ with_lines self.old.current (closed self.old.cover ++ line.entry ∷ [])) }
        ensures rest { OnOk result (self.new ≡ record {
          models = self.old.models;
          names = self.old.names;
          current = self.new.current;
          begun = true;
          cover = None;
          in_cover = None;
          ended = self.old.ended;
        }) }
    {
        self.close_cover()?;
        self.current.lines.push(line)?;
        self.in_cover = None;
        self.begun = true;
        Ok(())
    }

    // Closes the open cover, if there is one.
    #[tactic(auto, using(crate::proofs::ModelLemmas::nothing_closed))]
    fn close_cover(&mut self) -> Result<(), AllocError>
        ensures current { OnOk result (self.new.current ≡ with_lines self.old.current (closed self.old.cover)) }
        ensures rest { OnOk result (self.new ≡ record {
          models = self.old.models;
          names = self.old.names;
          current = self.new.current;
          begun = self.old.begun;
          cover = None;
          in_cover = self.old.in_cover;
          ended = self.old.ended;
        }) }
    {
        let Some(cover) = self.cover.take() else {
            return Ok(());
        };
        self.current.lines.push(ModelLine::Cover(cover))?;
        Ok(())
    }

    // Adds a row to the open cover, if there is one.
    fn add_row(&mut self, alloc: Global, row: &RowWords<'_>, output: u8) -> Result<(), AllocError>
        requires { output ≡ output_byte (words_in_row row.now) }
        ensures cover { OnOk result (self.new.cover ≡ with_row self.old.cover (words_in_row row.now)) }
        ensures rest { OnOk result (self.new ≡ record {
          models = self.old.models;
          names = self.old.names;
          current = self.old.current;
          begun = self.old.begun;
          cover = self.new.cover;
          in_cover = self.old.in_cover;
          ended = self.old.ended;
        }) }
    {
        let Some(cover) = self.cover.take() else {
            return Ok(());
        };
        self.cover = Some(cover.with_row(alloc, row, output)?);
        Ok(())
    }

    // Begins a model. The one before is whole, if there is one.
    fn begin_model(&mut self, next: BlifModel<'a>) -> Result<(), AllocError>
        ensures models { OnOk result (self.new.models ≡ self.old.models
            ++ (if self.old.begun then with_lines self.old.current (closed self.old.cover) ∷ [] else [])) }
        ensures rest { OnOk result (self.new ≡ record {
          models = self.new.models;
          names = self.old.names;
          current = next.entry;
          begun = true;
          cover = None;
          in_cover = self.old.in_cover;
          ended = self.old.ended;
        }) }
    {
        self.close_cover()?;
        let whole = mem::replace(&mut self.current, next);
        if !mem::replace(&mut self.begun, true) {
            return Ok(());
        }
        self.models.push(whole)?;
        Ok(())
    }

    // The models, once the last line was read.
    fn finish(self) -> Result<Items<BlifModel<'a>>, AllocError>
        ensures { IfOk result
            (λ models. models ≡ self.entry.models ++ with_lines self.entry.current (closed self.entry.cover) ∷ []) }
    {
        let mut reader = self;
        reader.close_cover()?;
        let Reader {
            mut models,
            names: _,
            current,
            begun: _,
            cover: _,
            in_cover: _,
            ended: _,
        } = reader;
        models.push(current)?;
        Ok(models)
    }
}

impl<'a> BlifModel<'a> {
    // A model without lines.
    fn empty(alloc: Global, at: u64, name: Span<'a>) -> BlifModel<'a>
        ensures { result ≡ empty_model at name.entry }
    {
        BlifModel {
            at,
            name,
            lines: Items::new(alloc),
        }
    }
}

impl<'a> CoverLine<'a> {
    // The cover with a row more, whose byte for the output is given.
    fn with_row(
        self,
        alloc: Global,
        row: &RowWords<'_>,
        output: u8,
    ) -> Result<CoverLine<'a>, AllocError>
        requires { output ≡ output_byte (words_in_row row.now) }
        ensures { IfOk result (λ cover. Some cover ≡ with_row (Some self.entry) (words_in_row row.now)) }
    {
        let CoverLine {
            at,
            operands,
            defined,
            mut rows,
            on,
        } = self;
        let trits = trits_of(alloc, literals_of(row))?;
        rows.push(trits)?;
        Ok(CoverLine {
            at,
            operands,
            defined,
            rows,
            // All rows of a cover are of one set.
            on: on & (output == b'1'),
        })
    }
}

// The bytes of a row for the operands.
fn literals_of<'a>(row: &RowWords<'a>) -> &'a [u8]
    ensures { result.now ≡ literal_bytes (words_in_row row.now) }
{
    match &row.literals {
        Some(literals) => literals.bytes(),
        None => b"".as_slice(),
    }
}

// Whether a line begins a model.
fn is_model(directive: Directive) -> bool
    ensures { result ≡ is_model directive }
{
    matches!(directive, Directive::Model)
}

/// Reads the models of a file, of which the first is the top.
///
/// # Errors
///
/// [`HierStop::Fault`] with the fault of the first line that has one. [`HierStop::Memory`] when out of memory.
pub fn read_models<'a>(alloc: Global, input: &'a [u8]) -> Result<Items<BlifModel<'a>>, HierStop>
    ensures sound { IfOk result (λ _. AreSound (blif_lines input.now)) }
    ensures models { IfOk result (λ models. models ≡ models_of (blif_lines input.now)) }
    ensures stop { IfErr result (IsStopBy (IsLineFault (blif_lines input.now))) }
{
    let mut reader = Reader::new(alloc, input);
    reader.read_lines(alloc, input)?;
    let models = reader.finish()?;
    Ok(models)
}

// The stop for what is wrong with a row.
fn row_fault(at: u64, kind: NetKind) -> HierStop
    ensures { result ≡ HierStop.Fault (record { kind = kind_of_row kind; at = at }) }
{
    fault_at(at, HierKind::of_row(kind))
}
