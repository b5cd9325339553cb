//! Numbers, and what is one byte.

ghost use Rattle.std.specs.Prelude.{◌≡◌, ◌≢◌, ℕ, ◌∷◌, [], ◌++◌, IfNone, IfSome, OnOk};
ghost use Rattle.byte_form.specs.Codes.{number_bytes};
ghost use Rattle.byte_form.proofs.CodeLemmas.{number_code};
ghost use Rattle.account_bytes.specs.Bodies.{Always, IsNumber, IsPort, bit_byte, kind_byte, side_byte, tri_byte};
ghost use Rattle.account_bytes.specs.Bodies.{bit_bytes, kind_bytes, side_bytes, tri_bytes};
ghost use Rattle.account_bytes.specs.Reading.{Reads, one_byte};
ghost use Rattle.account_bytes.specs.PrefixCodes.{bit_code, kind_code, side_code, tri_code};

use crate::form::{ByteForm, FormStop};
use byte_form::{ByteReader, put_u32, put_u64};
use circuits::PortKind;
use net_core::Side;
use std::alloc::{AllocError, Global};
use word_sim::Tri;

impl ByteForm for u64 {
    ghost bytes = { number_bytes 8 };

    ghost fits = { IsNumber };

    ghost code = { number_code 8 };

    fn put(&self, out: &mut Vec<u8>) -> Result<(), AllocError> {
        put_u64(*self, out)
    }

    fn read(_alloc: Global, text: &mut ByteReader<'_>) -> Result<u64, FormStop> {
        text.next_u64().ok_or(FormStop::Malformed)
    }
}

impl ByteForm for u32 {
    ghost bytes = { number_bytes 4 };

    ghost fits = { IsPort };

    ghost code = { number_code 4 };

    fn put(&self, out: &mut Vec<u8>) -> Result<(), AllocError> {
        put_u32(*self, out)
    }

    fn read(_alloc: Global, text: &mut ByteReader<'_>) -> Result<u32, FormStop> {
        text.next_u32().ok_or(FormStop::Malformed)
    }
}

/// Writes a byte.
pub(crate) fn put_byte(byte: u8, out: &mut Vec<u8>) -> Result<(), AllocError>
    ensures { OnOk result (out.new.items ≡ out.old.items ++ byte ∷ []) }
{
    out.push(byte)?;
    Ok(())
}

/// Takes a byte.
pub(crate) fn read_byte(text: &mut ByteReader<'_>) -> Result<u8, FormStop>
    ensures { Reads one_byte Always text.old result text.new }
{
    text.next_byte().ok_or(FormStop::Malformed)
}

// What is one byte.
trait OneByte: Sized {
    // The byte of a value.
    ghost byte: { Self → ℕ };

    // The value of a byte.
    fn of_byte(given: u8) -> Option<Self>
        ensures some { IfSome result (λ x. byte x ≡ given) }
        ensures none { IfNone result ((x : Self) → byte x ≢ given) };
}

// Takes the value of a byte.
fn read_one<T: OneByte>(text: &mut ByteReader<'_>) -> Result<T, FormStop>
    ensures { Reads (λ (x : T). T.byte x ∷ []) Always text.old result text.new }
{
    let byte = read_byte(text)?;
    T::of_byte(byte).ok_or(FormStop::Malformed)
}

impl OneByte for bool {
    ghost byte = { bit_byte };

    fn of_byte(given: u8) -> Option<bool> {
        match given {
            0 => Some(false),
            1 => Some(true),
            _ => None,
        }
    }
}

impl ByteForm for bool {
    ghost bytes = { bit_bytes };

    ghost fits = { Always };

    ghost code = { bit_code };

    fn put(&self, out: &mut Vec<u8>) -> Result<(), AllocError> {
        put_byte(u8::from(*self), out)
    }

    fn read(_alloc: Global, text: &mut ByteReader<'_>) -> Result<bool, FormStop> {
        read_one(text)
    }
}

impl OneByte for PortKind {
    ghost byte = { kind_byte };

    fn of_byte(given: u8) -> Option<PortKind> {
        match given {
            0 => Some(PortKind::Input),
            1 => Some(PortKind::Output),
            _ => None,
        }
    }
}

impl ByteForm for PortKind {
    ghost bytes = { kind_bytes };

    ghost fits = { Always };

    ghost code = { kind_code };

    fn put(&self, out: &mut Vec<u8>) -> Result<(), AllocError> {
        match self {
            PortKind::Input => put_byte(0, out),
            PortKind::Output => put_byte(1, out),
        }
    }

    fn read(_alloc: Global, text: &mut ByteReader<'_>) -> Result<PortKind, FormStop> {
        read_one(text)
    }
}

impl OneByte for Side {
    ghost byte = { side_byte };

    fn of_byte(given: u8) -> Option<Side> {
        match given {
            0 => Some(Side::First),
            1 => Some(Side::Second),
            _ => None,
        }
    }
}

impl ByteForm for Side {
    ghost bytes = { side_bytes };

    ghost fits = { Always };

    ghost code = { side_code };

    fn put(&self, out: &mut Vec<u8>) -> Result<(), AllocError> {
        match self {
            Side::First => put_byte(0, out),
            Side::Second => put_byte(1, out),
        }
    }

    fn read(_alloc: Global, text: &mut ByteReader<'_>) -> Result<Side, FormStop> {
        read_one(text)
    }
}

impl OneByte for Tri {
    ghost byte = { tri_byte };

    fn of_byte(given: u8) -> Option<Tri> {
        match given {
            0 => Some(Tri::Zero),
            1 => Some(Tri::One),
            2 => Some(Tri::X),
            _ => None,
        }
    }
}

impl ByteForm for Tri {
    ghost bytes = { tri_bytes };

    ghost fits = { Always };

    ghost code = { tri_code };

    fn put(&self, out: &mut Vec<u8>) -> Result<(), AllocError> {
        match self {
            Tri::Zero => put_byte(0, out),
            Tri::One => put_byte(1, out),
            Tri::X => put_byte(2, out),
        }
    }

    fn read(_alloc: Global, text: &mut ByteReader<'_>) -> Result<Tri, FormStop> {
        read_one(text)
    }
}
