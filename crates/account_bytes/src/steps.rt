//! Bans and their steps.

ghost use Rattle.std.specs.Prelude.{◌≡◌, ◌++◌, OnOk};
ghost use Rattle.byte_form.specs.Codes.{ListFits, list_bytes};
ghost use Rattle.account_bytes.specs.Bodies.{IsPort, IsReference, port_bytes, reference_bytes};
ghost use Rattle.account_bytes.specs.Bodies.{BanFits, StepFits, ban_bytes, cover_tag, step_bytes, step_fields};
ghost use Rattle.account_bytes.specs.Bodies.{step_tag};
ghost use Rattle.account_bytes.specs.Bodies.{tally_tag};
ghost use Rattle.account_bytes.specs.PrefixCodes.{ban_code, step_code};
ghost use Rattle.account_bytes.specs.Reading.{OfTag, Reads};

use crate::form::{ByteForm, FormStop};
use crate::lists::put_list;
use crate::values::{put_byte, read_byte};
use account_core::{Ban, Step, Tallied};
use byte_form::ByteReader;
use circuits::{Pair, PortKind};
use items::{Few, Items};
use std::alloc::{AllocError, Global};
use word_sim::Tri;

impl ByteForm for Step {
    ghost bytes = { step_bytes };

    ghost fits = { StepFits };

    ghost code = { step_code };

    fn put(&self, out: &mut Vec<u8>) -> Result<(), AllocError> {
        match self {
            Step::Vector { output, bits } => {
                put_byte(0, out)?;
                output.put(out)?;
                bits.put(out)
            }
            Step::Mismatch { fails, holds } => {
                put_byte(1, out)?;
                fails.put(out)?;
                holds.put(out)
            }
            Step::Tally { kind, have, lack } => {
                put_byte(tally_tag(*kind), out)?;
                have.put(out)?;
                lack.put(out)
            }
            Step::Cover {
                kind,
                from,
                to,
                refs,
            } => {
                put_byte(cover_tag(*kind), out)?;
                put_cover(from, to, refs, out)
            }
        }
    }

    fn read(alloc: Global, text: &mut ByteReader<'_>) -> Result<Step, FormStop> {
        let tag = read_byte(text)?;
        read_step(tag, alloc, text)
    }
}

// Writes the fields of a cover.
fn put_cover(
    from: &[u32],
    to: &[u32],
    refs: &[Option<u64>],
    out: &mut Vec<u8>,
) -> Result<(), AllocError>
    ensures fits { OnOk result (ListFits IsPort from.now × (ListFits IsPort to.now × ListFits IsReference refs.now)) }
    ensures bytes { OnOk result (out.new.items ≡ out.old.items
        ++ (list_bytes port_bytes from.now ++ (list_bytes port_bytes to.now ++ list_bytes reference_bytes refs.now))) }
{
    put_list(from, out)?;
    put_list(to, out)?;
    put_list(refs, out)
}

fn tally_tag(kind: Tallied) -> u8
    ensures { result ≡ tally_tag kind }
{
    match kind {
        Tallied::Support => 2,
        Tallied::Binate => 3,
    }
}

fn cover_tag(kind: PortKind) -> u8
    ensures { result ≡ cover_tag kind }
{
    match kind {
        PortKind::Input => 4,
        PortKind::Output => 5,
    }
}

// The step whose tag was read.
fn read_step(tag: u8, alloc: Global, text: &mut ByteReader<'_>) -> Result<Step, FormStop>
    ensures { Reads step_fields (OfTag step_tag StepFits tag) text.old result text.new }
{
    match tag {
        0 => read_vector(alloc, text),
        1 => read_mismatch(alloc, text),
        2 => read_tally(Tallied::Support, alloc, text),
        3 => read_tally(Tallied::Binate, alloc, text),
        4 => read_cover(PortKind::Input, alloc, text),
        5 => read_cover(PortKind::Output, alloc, text),
        _ => Err(FormStop::Malformed),
    }
}

/// A vector step's fields.
type VectorFields = (u32, Items<Tri>);

fn read_vector(alloc: Global, text: &mut ByteReader<'_>) -> Result<Step, FormStop>
    ensures { Reads step_fields (OfTag step_tag StepFits 0) text.old result text.new }
{
    let (output, bits) = VectorFields::read(alloc, text)?;
    Ok(Step::Vector { output, bits })
}

fn read_mismatch(alloc: Global, text: &mut ByteReader<'_>) -> Result<Step, FormStop>
    ensures { Reads step_fields (OfTag step_tag StepFits 1) text.old result text.new }
{
    let (fails, holds) = <(u64, u64)>::read(alloc, text)?;
    Ok(Step::Mismatch { fails, holds })
}

/// A tally's fields.
type TallyFields = (Items<u64>, Items<u64>);

fn read_tally(kind: Tallied, alloc: Global, text: &mut ByteReader<'_>) -> Result<Step, FormStop>
    ensures { Reads step_fields (OfTag step_tag StepFits (tally_tag kind)) text.old result text.new }
{
    let (have, lack) = TallyFields::read(alloc, text)?;
    Ok(Step::Tally { kind, have, lack })
}

/// A cover's fields.
type CoverFields = (Items<u32>, (Items<u32>, Items<Option<u64>>));

fn read_cover(kind: PortKind, alloc: Global, text: &mut ByteReader<'_>) -> Result<Step, FormStop>
    ensures { Reads step_fields (OfTag step_tag StepFits (cover_tag kind)) text.old result text.new }
{
    let (from, (to, refs)) = CoverFields::read(alloc, text)?;
    Ok(Step::Cover {
        kind,
        from,
        to,
        refs,
    })
}

/// A ban's fields.
type BanFields = (Items<Pair>, Step);

impl ByteForm for Ban {
    ghost bytes = { ban_bytes };

    ghost fits = { BanFits };

    ghost code = { ban_code };

    fn put(&self, out: &mut Vec<u8>) -> Result<(), AllocError> {
        put_list(&self.pairs, out)?;
        self.step.put(out)
    }

    fn read(alloc: Global, text: &mut ByteReader<'_>) -> Result<Ban, FormStop> {
        let (pairs, step) = BanFields::read(alloc, text)?;
        Ok(Ban {
            pairs: Few::from_slice(alloc, &pairs)?,
            step,
        })
    }
}
