//! Lists.

ghost use Rattle.std.specs.Prelude.{◌≡◌, ◌<◌, ◌^◌, ◌++◌, OnOk, length, map};
ghost use Rattle.byte_form.specs.Codes.{ListFits, list_bytes, number_bytes};
ghost use Rattle.byte_form.proofs.CodeLemmas.{list_code};
ghost use Rattle.account_bytes.specs.Bodies.{Always, bit_byte, bit_bytes};
ghost use Rattle.account_bytes.specs.PrefixCodes.{bit_code};
ghost use Rattle.account_bytes.specs.Reading.{ReadsItems};

use crate::form::{ByteForm, FormStop};
use bit_list::Bits;
use byte_form::{ByteReader, put_u64};
use items::Items;
use std::alloc::{AllocError, Global};

/// Writes how many values a list has, and then its values.
pub(crate) fn put_list<T: ByteForm>(list: &[T], out: &mut Vec<u8>) -> Result<(), AllocError>
    ensures fits { OnOk result (ListFits T.fits list.now) }
    ensures bytes { OnOk result (out.new.items ≡ out.old.items ++ list_bytes T.bytes list.now) }
{
    put_count(list, out)?;
    for item in list.iter() {
        item.put(out)?;
    }
    Ok(())
}

// Writes how many values a list has.
fn put_count<T>(list: &[T], out: &mut Vec<u8>) -> Result<(), AllocError>
    ensures few { OnOk result (length list.now < 2 ^ 64) }
    ensures bytes { OnOk result (out.new.items ≡ out.old.items ++ number_bytes 8 (length list.now)) }
{
    put_u64(list.len() as u64, out)
}

// How many values a list of `count` can have at most: each has a byte, so that a wrong count takes no more memory
// than a small multiple of the bytes.
fn most_items(count: u64, text: &ByteReader<'_>) -> usize {
    count.min(text.left().len() as u64) as usize
}

// Takes `count` values.
fn read_items<T: ByteForm + Drop>(
    alloc: Global,
    count: u64,
    text: &mut ByteReader<'_>,
) -> Result<Items<T>, FormStop>
    ensures { ReadsItems T.bytes T.fits count text.old result text.new }
{
    let mut items = Items::with_capacity(alloc, most_items(count, text))?;
    for _item in 0..count {
        let item = T::read(alloc, text)?;
        items.push(item)?;
    }
    Ok(items)
}

impl<T: ByteForm + Drop> ByteForm for Items<T> {
    ghost bytes = { list_bytes T.bytes };

    ghost fits = { ListFits T.fits };

    ghost code = { list_code T.bytes T.fits T.code };

    fn put(&self, out: &mut Vec<u8>) -> Result<(), AllocError> {
        put_list(self, out)
    }

    fn read(alloc: Global, text: &mut ByteReader<'_>) -> Result<Items<T>, FormStop> {
        let count = u64::read(alloc, text)?;
        read_items(alloc, count, text)
    }
}

impl ByteForm for Bits {
    ghost bytes = { list_bytes bit_bytes };

    ghost fits = { ListFits Always };

    ghost code = { list_code bit_bytes Always bit_code };

    fn put(&self, out: &mut Vec<u8>) -> Result<(), AllocError> {
        put_bits(self, out)?;
        Ok(())
    }

    fn read(alloc: Global, text: &mut ByteReader<'_>) -> Result<Bits, FormStop> {
        let bits = Items::<bool>::read(alloc, text)?;
        Ok(Bits::from_slice(alloc, &bits)?)
    }
}

fn bit_byte(bit: bool) -> u8
    ensures { result ≡ bit_byte bit }
{
    u8::from(bit)
}

// Writes how many bits there are, and a byte for each.
fn put_bits(bits: &Bits, out: &mut Vec<u8>) -> Result<(), AllocError>
    ensures fits { OnOk result (length bits.now < 2 ^ 64) }
    ensures bytes { OnOk result (out.new.items
        ≡ out.old.items ++ (number_bytes 8 (length bits.now) ++ map bit_byte bits.now)) }
{
    put_u64(bits.len() as u64, out)?;
    for k in 0..bits.len() {
        out.push(bit_byte(bits.get(k)))?;
    }
    Ok(())
}
