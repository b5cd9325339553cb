//! Numbers, written.

ghost use Rattle.std.specs.Prelude.{◌≡◌, ◌++◌, OnOk, OnErr};
ghost use Rattle.byte_form.specs.Codes.{number_bytes};

use byteorder::{BigEndian, ByteOrder};
use std::alloc::AllocError;

/// Writes a number of 64 bits at the end of `out`, as eight bytes, the highest first. `out` is unchanged where memory
/// is refused.
pub fn put_u64(number: u64, out: &mut Vec<u8>) -> Result<(), AllocError>
    ensures ok { OnOk result (out.new.items ≡ out.old.items ++ number_bytes 8 number) }
    ensures refused { OnErr result (out.new.items ≡ out.old.items) }
{
    let mut bytes = [0; 8];
    BigEndian::write_u64(&mut bytes, number);
    out.extend_from_slice(&bytes)
}

/// Writes a number of 32 bits at the end of `out`, as four bytes, the highest first. `out` is unchanged where memory is
/// refused.
pub fn put_u32(number: u32, out: &mut Vec<u8>) -> Result<(), AllocError>
    ensures ok { OnOk result (out.new.items ≡ out.old.items ++ number_bytes 4 number) }
    ensures refused { OnErr result (out.new.items ≡ out.old.items) }
{
    let mut bytes = [0; 4];
    BigEndian::write_u32(&mut bytes, number);
    out.extend_from_slice(&bytes)
}
