//! The covers of all instances of the first model, over signals.

ghost use Rattle.std.specs.Prelude.{◌≡◌, ◌+◌, ◌<◌, ◌^◌, ℕ, List, Some, All, map, position, option_map, slice_get};
ghost use Rattle.std.specs.Prelude.{IfOk, OnOk};
ghost use Rattle.std.specs.Str.{bytes_eq};
ghost use Rattle.circuits.specs.Literals.{plain_literal};
ghost use Rattle.hier_blif.specs.declared.model.ModelLine.{ModelLine as AnyLine};
ghost use Rattle.hier_blif.specs.Scopes.{number_of};
ghost use Rattle.hier_blif.specs.Widths.{HasWideCovers};
ghost use Rattle.hier_blif.specs.Frames.{models_in, AreBlocks, frame_model, own_signal, IsNameOf, IsFrame};
ghost use Rattle.hier_blif.specs.Frames.{defs_of, places_of, frame_left, Takes, IsTop, IsTopFrame, IsFlatOf};

use crate::frames::{Blocks, Frame};
use crate::model::{CoverLine, InstanceLine, ModelLine};
use crate::numbers::NameNumbers;
use circuits::{Def, Lit};
use indexmap::IndexSet;
use items::Items;
use net_core::PlainNet;
use std::alloc::{AllocError, Global};

/// A flat circuit, with the offset of the `.names` line of each definition.
#[derive(Drop)]
pub(crate) struct Flat {
    pub(crate) net: PlainNet,
    pub(crate) places: Items<u64>,
}

/// The covers so far, and the instances whose covers are being added, each within the one before. The stack is a list
/// and not the program's own, since models may be as deep as a file is long.
#[derive(Drop)]
pub(crate) struct Flattening<'a> {
    pub(crate) defs: Items<Def>,
    /// Where the `.names` line of each definition stands.
    pub(crate) places: Items<u64>,
    pub(crate) frames: Items<Frame<'a>>,
}

/// The first model as one flat circuit. All models are within this depth.
pub(crate) fn flatten(
    alloc: Global,
    blocks: &Blocks<'_, '_, '_>,
    depth: usize,
) -> Result<Flat, AllocError>
    requires blocks { AreBlocks blocks.now }
    requires wide { All HasWideCovers (models_in blocks.now) }
    requires top { IsTop (models_in blocks.now) depth }
    ensures { IfOk result (IsFlatOf (models_in blocks.now) depth) }
{
    let top = top_frame(alloc, blocks, depth)?;
    let outputs = output_literals(alloc, blocks, &top, blocks.scope.output_names(0))?;
    let flattening = flatten_from(alloc, blocks, top)?;
    let Flattening {
        defs,
        places,
        frames: _,
    } = flattening;
    let inputs = blocks.scope.input_names(0).len() as u32;
    Ok(Flat {
        net: PlainNet::new(inputs, defs, outputs),
        places,
    })
}

// The top, whose inputs are the first signals.
fn top_frame<'a>(
    alloc: Global,
    blocks: &Blocks<'_, '_, 'a>,
    depth: usize,
) -> Result<Frame<'a>, AllocError>
    requires blocks { AreBlocks blocks.now }
    requires top { IsTop (models_in blocks.now) depth }
    ensures { IfOk result (IsTopFrame (models_in blocks.now) depth) }
{
    let names = blocks.scope.input_names(0);
    let inputs = input_numbers(alloc, names)?;
    let first = 1 + names.len() as u64;
    Ok(Frame {
        model: 0,
        next: 0,
        first,
        at: first,
        depth,
        inputs,
    })
}

// The signals of inputs with these names.
fn input_numbers<'a>(
    alloc: Global,
    names: &IndexSet<&'a [u8]>,
) -> Result<NameNumbers<'a>, AllocError>
    ensures { IfOk result (λ numbers. (name : List ℕ) → number_of numbers name
        ≡ option_map (λ k. 1 + k) (position (λ key. bytes_eq name key.now) names.now.keys)) }
{
    let mut numbers = NameNumbers::new(alloc);
    for (place, name) in names.as_slice().iter().enumerate() {
        numbers.put(*name, 1 + place as u64)?;
    }
    Ok(numbers)
}

// The literals of outputs with these names.
fn output_literals<'a>(
    alloc: Global,
    blocks: &Blocks<'_, '_, 'a>,
    top: &Frame<'a>,
    names: &IndexSet<&'a [u8]>,
) -> Result<Items<Lit>, AllocError>
    requires blocks { AreBlocks blocks.now }
    requires frame { IsFrame (models_in blocks.now) top.now }
    requires names { All (λ key. IsNameOf (models_in blocks.now) top.now key.now) names.now.keys }
    ensures { IfOk result (λ literals. literals
        ≡ map (λ key. plain_literal (own_signal (models_in blocks.now) top.now key.now)) names.now.keys) }
{
    let mut literals = Items::new(alloc);
    for name in names.as_slice().iter() {
        literals.push(Lit(2 * blocks.signal_of(top, *name) as u32))?;
    }
    Ok(literals)
}

// All covers of an instance.
fn flatten_from<'a>(
    alloc: Global,
    blocks: &Blocks<'_, '_, 'a>,
    top: Frame<'a>,
) -> Result<Flattening<'a>, AllocError>
    requires blocks { AreBlocks blocks.now }
    requires frame { IsFrame (models_in blocks.now) top }
    ensures defs { IfOk result (λ whole. whole.defs ≡ defs_of (frame_left (models_in blocks.now) top.entry)) }
    ensures places { IfOk result (λ whole. whole.places ≡ places_of (frame_left (models_in blocks.now) top.entry)) }
{
    let mut flattening = Flattening {
        defs: Items::new(alloc),
        places: Items::new(alloc),
        frames: Items::new(alloc),
    };
    flattening.frames.push(top)?;
    while let Some(frame) = flattening.frames.pop() {
        flattening.take_line(alloc, blocks, frame)?;
    }
    Ok(flattening)
}

impl<'a> Flattening<'a> {
    // Takes the next line of an instance that stood above those that are there; it is put back unless no line is left.
    fn take_line(
        &mut self,
        alloc: Global,
        blocks: &Blocks<'_, '_, 'a>,
        frame: Frame<'a>,
    ) -> Result<(), AllocError>
        requires blocks { AreBlocks blocks.now }
        requires frame { IsFrame (models_in blocks.now) frame }
        ensures { OnOk result (Takes (models_in blocks.now) frame.entry self.old self.new) }
    {
        match blocks.next_line(&frame) {
            Some(line) => self.take(alloc, blocks, frame, line),
            None => Ok(()),
        }
    }

    fn take(
        &mut self,
        alloc: Global,
        blocks: &Blocks<'_, '_, 'a>,
        frame: Frame<'a>,
        line: &ModelLine<'a>,
    ) -> Result<(), AllocError>
        requires blocks { AreBlocks blocks.now }
        requires frame { IsFrame (models_in blocks.now) frame }
        requires next { frame.next + 1 < 2 ^ 64 }
        requires line { slice_get (frame_model (models_in blocks.now) frame).lines frame.next ≡ Some line.now }
        ensures { OnOk result (Takes (models_in blocks.now) frame.entry self.old self.new) }
    {
        match line {
            ModelLine::Cover(cover) => self.add_cover(alloc, blocks, frame, cover),
            ModelLine::Instance(instance) => self.enter(alloc, blocks, frame, instance),
            _ => Ok(self.frames.push(frame.after(0))?),
        }
    }

    fn add_cover(
        &mut self,
        alloc: Global,
        blocks: &Blocks<'_, '_, 'a>,
        frame: Frame<'a>,
        line: &CoverLine<'a>,
    ) -> Result<(), AllocError>
        requires blocks { AreBlocks blocks.now }
        requires frame { IsFrame (models_in blocks.now) frame }
        requires next { frame.next + 1 < 2 ^ 64 }
        requires line { slice_get (frame_model (models_in blocks.now) frame).lines frame.next
            ≡ Some (AnyLine.Cover line.now) }
        ensures { OnOk result (Takes (models_in blocks.now) frame.entry self.old self.new) }
    {
        let definition = blocks.definition(alloc, &frame, line)?;
        self.defs.push(definition)?;
        self.places.push(line.at)?;
        self.frames.push(frame.after(1))?;
        Ok(())
    }

    fn enter(
        &mut self,
        alloc: Global,
        blocks: &Blocks<'_, '_, 'a>,
        frame: Frame<'a>,
        line: &InstanceLine<'a>,
    ) -> Result<(), AllocError>
        requires blocks { AreBlocks blocks.now }
        requires frame { IsFrame (models_in blocks.now) frame }
        requires next { frame.next + 1 < 2 ^ 64 }
        requires line { slice_get (frame_model (models_in blocks.now) frame).lines frame.next
            ≡ Some (AnyLine.Instance line.now) }
        ensures { OnOk result (Takes (models_in blocks.now) frame.entry self.old self.new) }
    {
        let place = blocks.scope.place_of(line);
        let inputs = blocks.inputs_of(alloc, &frame, line)?;
        let inner = frame.inner(place, inputs);
        self.frames.push(frame.after(blocks.covers_of(place)))?;
        self.frames.push(inner)?;
        Ok(())
    }
}
