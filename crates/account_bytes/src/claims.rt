//! Pairs of ports, claims, and lines of logs.

ghost use Rattle.std.specs.Prelude.{◌≡◌};
ghost use Rattle.byte_form.specs.Codes.{number_bytes};
ghost use Rattle.byte_form.proofs.CodeLemmas.{number_code};
ghost use Rattle.account_bytes.specs.Bodies.{ClaimHasPorts, HasPorts, IsLiteral, IsReference, LineFits, ShapeHasPorts};
ghost use Rattle.account_bytes.specs.Bodies.{claim_bytes, line_bytes, literal_bytes, pair_bytes, reference_bytes};
ghost use Rattle.account_bytes.specs.Bodies.{shape_bytes, shape_fields, shape_tag};
ghost use Rattle.account_bytes.specs.Bodies.{reference_fields, reference_tag};
ghost use Rattle.account_bytes.specs.PrefixCodes.{claim_code, line_code, literal_code, pair_code, reference_code};
ghost use Rattle.account_bytes.specs.PrefixCodes.{shape_code};
ghost use Rattle.account_bytes.specs.Reading.{Reads, OfTag};

use crate::form::{ByteForm, FormStop};
use crate::lists::put_list;
use crate::values::{put_byte, read_byte};
use byte_form::ByteReader;
use circuits::{Pair, PortKind};
use claim_core::{Claim, Shape};
use cnf_core::{LogLine, SatLit};
use items::Items;
use net_core::Side;
use std::alloc::{AllocError, Global};

impl ByteForm for SatLit {
    ghost bytes = { literal_bytes };

    ghost fits = { IsLiteral };

    ghost code = { literal_code };

    fn put(&self, out: &mut Vec<u8>) -> Result<(), AllocError> {
        self.0.put(out)
    }

    fn read(alloc: Global, text: &mut ByteReader<'_>) -> Result<SatLit, FormStop> {
        Ok(SatLit(u64::read(alloc, text)?))
    }
}

/// A pair's fields, in the order in which they stand.
type PairFields = (PortKind, (u32, (u32, bool)));

impl ByteForm for Pair {
    ghost bytes = { pair_bytes };

    ghost fits = { HasPorts };

    ghost code = { pair_code };

    fn put(&self, out: &mut Vec<u8>) -> Result<(), AllocError> {
        self.kind.put(out)?;
        self.from.put(out)?;
        self.to.put(out)?;
        self.flip.put(out)
    }

    fn read(alloc: Global, text: &mut ByteReader<'_>) -> Result<Pair, FormStop> {
        let (kind, (from, (to, flip))) = PairFields::read(alloc, text)?;
        Ok(Pair {
            kind,
            from,
            to,
            flip,
        })
    }
}

impl ByteForm for Option<u64> {
    ghost bytes = { reference_bytes };

    ghost fits = { IsReference };

    ghost code = { reference_code };

    fn put(&self, out: &mut Vec<u8>) -> Result<(), AllocError> {
        match self {
            None => put_byte(0, out),
            Some(ban) => {
                put_byte(1, out)?;
                ban.put(out)
            }
        }
    }

    fn read(alloc: Global, text: &mut ByteReader<'_>) -> Result<Option<u64>, FormStop> {
        let tag = read_byte(text)?;
        read_reference(tag, alloc, text)
    }
}

// The reference whose tag was read.
fn read_reference(
    tag: u8,
    alloc: Global,
    text: &mut ByteReader<'_>,
) -> Result<Option<u64>, FormStop>
    ensures { Reads reference_fields (OfTag reference_tag IsReference tag) text.old result text.new }
{
    match tag {
        0 => Ok(None),
        1 => Ok(Some(u64::read(alloc, text)?)),
        _ => Err(FormStop::Malformed),
    }
}

/// The fields of a claim of two inputs.
type SwapFields = (u32, (u32, (bool, bool)));

impl ByteForm for Shape {
    ghost bytes = { shape_bytes };

    ghost fits = { ShapeHasPorts };

    ghost code = { shape_code };

    fn put(&self, out: &mut Vec<u8>) -> Result<(), AllocError> {
        match self {
            Shape::Up(i) => {
                put_byte(0, out)?;
                i.put(out)
            }
            Shape::Down(i) => {
                put_byte(1, out)?;
                i.put(out)
            }
            Shape::Swap { i, j, a, b } => {
                put_byte(2, out)?;
                (*i, (*j, (*a, *b))).put(out)
            }
        }
    }

    fn read(alloc: Global, text: &mut ByteReader<'_>) -> Result<Shape, FormStop> {
        let tag = read_byte(text)?;
        read_shape(tag, alloc, text)
    }
}

// The shape whose tag was read.
fn read_shape(tag: u8, alloc: Global, text: &mut ByteReader<'_>) -> Result<Shape, FormStop>
    ensures { Reads shape_fields (OfTag shape_tag ShapeHasPorts tag) text.old result text.new }
{
    match tag {
        0 => Ok(Shape::Up(u32::read(alloc, text)?)),
        1 => Ok(Shape::Down(u32::read(alloc, text)?)),
        2 => {
            let (i, (j, (a, b))) = SwapFields::read(alloc, text)?;
            Ok(Shape::Swap { i, j, a, b })
        }
        _ => Err(FormStop::Malformed),
    }
}

/// A claim's fields, in the order in which they stand.
type ClaimFields = (Side, (u32, Shape));

impl ByteForm for Claim {
    ghost bytes = { claim_bytes };

    ghost fits = { ClaimHasPorts };

    ghost code = { claim_code };

    fn put(&self, out: &mut Vec<u8>) -> Result<(), AllocError> {
        self.side.put(out)?;
        self.output.put(out)?;
        self.shape.put(out)
    }

    fn read(alloc: Global, text: &mut ByteReader<'_>) -> Result<Claim, FormStop> {
        let (side, (output, shape)) = ClaimFields::read(alloc, text)?;
        Ok(Claim {
            side,
            output,
            shape,
        })
    }
}

/// A log line's fields.
type LineFields = (Items<SatLit>, Items<u64>);

impl ByteForm for LogLine {
    ghost bytes = { line_bytes };

    ghost fits = { LineFits };

    ghost code = { line_code };

    fn put(&self, out: &mut Vec<u8>) -> Result<(), AllocError> {
        put_list(&self.clause, out)?;
        put_list(&self.hints, out)
    }

    fn read(alloc: Global, text: &mut ByteReader<'_>) -> Result<LogLine, FormStop> {
        let (clause, hints) = LineFields::read(alloc, text)?;
        Ok(LogLine { clause, hints })
    }
}
