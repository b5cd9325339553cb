//! Instances of models, and the signals of their names.

ghost use Rattle.std.specs.Prelude.{◌≡◌, ◌+◌, ◌<◌, ◌≤◌, ◌^◌, true, Some, None, All, length, map, slice_get};
ghost use Rattle.std.specs.Prelude.{if◌then◌else◌, IfOk, OnOk, IfSome, IfNone};
ghost use Rattle.hier_blif.specs.Bindings.{formal_of, actual_of};
ghost use Rattle.hier_blif.specs.Flattening.{own_cover, flat_def};
ghost use Rattle.hier_blif.specs.Scopes.{with_number};
ghost use Rattle.hier_blif.specs.Sizes.{covers_listed};
ghost use Rattle.hier_blif.specs.Frames.{most_signals, models_in, frame_model, AreBlocks, IsFrame, IsNameOf};
ghost use Rattle.hier_blif.specs.Frames.{own_signal, frame_signal};
ghost use Rattle.hier_blif.specs.Frames.{next_frame, inner_frame, AreInputs, KnowsInputs};

use crate::bindings::{actual_of, formal_of};
use crate::model::{CoverLine, InstanceLine, ModelLine};
use crate::names::Scope;
use crate::numbers::NameNumbers;
use crate::sizes::Size;
use circuits::{Def, Trit};
use items::Items;
use std::alloc::{AllocError, Global};
use text_core::Span;

/// Models in which no name is refused, of which one is flattened.
#[derive(Drop)]
pub(crate) struct Blocks<'b, 'm, 'a> {
    pub(crate) scope: &'b Scope<'m, 'a>,
    /// How many covers each model makes.
    pub(crate) sizes: &'b [Size],
    /// For each model which of the covers that it makes defines a name.
    pub(crate) drivers: &'b [NameNumbers<'a>],
}

/// An instance whose covers are being added.
#[derive(Drop)]
pub(crate) struct Frame<'a> {
    pub(crate) model: usize,
    /// The next of its model's lines.
    pub(crate) next: usize,
    /// The signal of the first of its covers.
    pub(crate) first: u64,
    /// The signal of the first cover that the next line makes.
    pub(crate) at: u64,
    /// A depth that the models of its instances are within. It falls from an instance to those in it.
    pub(crate) depth: usize,
    /// The signals of its inputs, by their names.
    pub(crate) inputs: NameNumbers<'a>,
}

impl<'a> Frame<'a> {
    /// The instance after its next line, which makes so many covers.
    pub(crate) fn after(self, covers: u64) -> Frame<'a>
        requires next { self.next + 1 < 2 ^ 64 }
        requires at { self.at + covers < 2 ^ 64 }
        ensures { result ≡ next_frame self.entry (self.entry.at + covers) }
    {
        Frame {
            model: self.model,
            next: self.next + 1,
            first: self.first,
            at: self.at + covers,
            depth: self.depth,
            inputs: self.inputs,
        }
    }

    /// An instance of its next line.
    pub(crate) fn inner(&self, model: usize, inputs: NameNumbers<'a>) -> Frame<'a>
        requires { 0 < self.now.depth }
        ensures { result ≡ inner_frame self.now model inputs.entry }
    {
        Frame {
            model,
            next: 0,
            first: self.at,
            at: self.at,
            depth: self.depth - 1,
            inputs,
        }
    }
}

impl<'b, 'm, 'a> Blocks<'b, 'm, 'a> {
    /// How many covers the model at a place makes.
    pub(crate) fn covers_of(&self, place: usize) -> u64
        requires { place < length self.now.sizes.now }
        ensures { result ≡ covers_listed self.now.sizes.now place }
    {
        self.sizes[place].covers
    }

    /// The next line of an instance, unless none is left.
    pub(crate) fn next_line(&self, frame: &Frame<'a>) -> Option<&ModelLine<'a>>
        requires { frame.now.model < length (models_in self.now) }
        ensures line { IfSome result (λ line.
            slice_get (frame_model (models_in self.now) frame.now).lines frame.now.next ≡ Some line.now) }
        ensures next { IfSome result (λ _. frame.now.next + 1 < 2 ^ 64) }
        ensures none { IfNone result
            (slice_get (frame_model (models_in self.now) frame.now).lines frame.now.next ≡ None) }
    {
        let lines = self.scope.lines_at(frame.model);
        if frame.next < lines.len() {
            return Some(&lines[frame.next]);
        }
        None
    }

    /// The signal of a name of an instance.
    pub(crate) fn signal_of(&self, frame: &Frame<'a>, name: &[u8]) -> u64
        requires blocks { AreBlocks self.now }
        requires frame { IsFrame (models_in self.now) frame.now }
        requires name { IsNameOf (models_in self.now) frame.now name.now }
        ensures is { result ≡ own_signal (models_in self.now) frame.now name.now }
        ensures small { result ≤ most_signals }
    {
        match frame.inputs.get(name) {
            Some(signal) => signal,
            None => frame.first + self.drivers[frame.model].number(name),
        }
    }

    /// A cover over the signals of an instance's names.
    pub(crate) fn definition(
        &self,
        alloc: Global,
        frame: &Frame<'a>,
        line: &CoverLine<'a>,
    ) -> Result<Def, AllocError>
        requires blocks { AreBlocks self.now }
        requires frame { IsFrame (models_in self.now) frame.now }
        requires names { All (λ word. IsNameOf (models_in self.now) frame.now word.bytes) line.now.operands }
        ensures { IfOk result
            (λ def. def ≡ flat_def (frame_signal (models_in self.now) frame.now) (own_cover line.now)) }
    {
        let names = self.operand_signals(alloc, frame, &line.operands)?;
        let rows = copy_rows(alloc, &line.rows)?;
        Ok(Def::Cover {
            names,
            rows,
            on: line.on,
        })
    }

    fn operand_signals(
        &self,
        alloc: Global,
        frame: &Frame<'a>,
        operands: &[Span<'a>],
    ) -> Result<Items<u32>, AllocError>
        requires blocks { AreBlocks self.now }
        requires frame { IsFrame (models_in self.now) frame.now }
        requires names { All (λ word. IsNameOf (models_in self.now) frame.now word.bytes) operands.now }
        ensures { IfOk result
            (λ signals. signals ≡ map (λ word. own_signal (models_in self.now) frame.now word.bytes) operands.now) }
    {
        let mut signals = Items::new(alloc);
        for word in operands.iter() {
            signals.push(self.signal_of(frame, word.bytes()) as u32)?;
        }
        Ok(signals)
    }

    /// The signals of the inputs of an instance in an instance.
    pub(crate) fn inputs_of(
        &self,
        alloc: Global,
        frame: &Frame<'a>,
        line: &InstanceLine<'a>,
    ) -> Result<NameNumbers<'a>, AllocError>
        requires blocks { AreBlocks self.now }
        requires frame { IsFrame (models_in self.now) frame.now }
        requires names { KnowsInputs (models_in self.now) frame.now line.now }
        ensures { IfOk result (AreInputs (models_in self.now) frame.now line.now) }
    {
        let place = self.scope.place_of(line);
        let mut inputs = NameNumbers::new(alloc);
        for word in line.bindings.iter() {
            let is_input = self.scope.is_input(place, word);
            self.add_input(frame, is_input, word, &mut inputs)?;
        }
        Ok(inputs)
    }

    // The signal of an input, if a word binds one.
    fn add_input(
        &self,
        frame: &Frame<'a>,
        is_input: bool,
        word: &Span<'a>,
        inputs: &mut NameNumbers<'a>,
    ) -> Result<(), AllocError>
        requires blocks { AreBlocks self.now }
        requires frame { IsFrame (models_in self.now) frame.now }
        requires name { is_input ≡ true → IsNameOf (models_in self.now) frame.now (actual_of word.now.bytes) }
        ensures { OnOk result (inputs.new ≡ (if is_input then with_number inputs.old (formal_of word.now.bytes)
            (own_signal (models_in self.now) frame.now (actual_of word.now.bytes)) else inputs.old)) }
    {
        if is_input {
            let signal = self.signal_of(frame, actual_of(word.bytes()));
            inputs.put(formal_of(word.bytes()), signal)?;
        }
        Ok(())
    }
}

fn copy_rows(alloc: Global, rows: &[Items<Trit>]) -> Result<Items<Items<Trit>>, AllocError>
    ensures { IfOk result (λ copy. copy ≡ rows.now) }
{
    let mut copy = Items::new(alloc);
    for row in rows.iter() {
        copy.push(Items::from_slice(alloc, row)?)?;
    }
    Ok(copy)
}
