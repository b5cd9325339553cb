//! Numbers as bytes, worked out by hand, and bytes that end too early.

use byte_form::{ByteReader, put_u32, put_u64};
use std::alloc::AllocError;
use std::test::Fail;

/// Numbers of 64 bits, and their eight bytes.
static LONG: [(u64, [u8; 8]); 4] = [
    (0, [0, 0, 0, 0, 0, 0, 0, 0]),
    (258, [0, 0, 0, 0, 0, 0, 1, 2]),
    (1 << 32, [0, 0, 0, 1, 0, 0, 0, 0]),
    (u64::MAX, [255, 255, 255, 255, 255, 255, 255, 255]),
];

fn is_written_long(number: u64, bytes: &[u8], out: &mut Vec<u8>) -> Result<bool, AllocError> {
    out.clear();
    put_u64(number, out)?;
    Ok(out.as_slice() == bytes)
}

#[test]
fn long_numbers_are_eight_bytes(rt: HostRuntime) -> Result<(), Fail> {
    let mut out = Vec::new(rt.alloc());
    for (number, bytes) in LONG.iter() {
        assert!(rt; is_written_long(*number, bytes, &mut out)?, "{number}");
        assert_eq!(rt; ByteReader::new(bytes).next_u64(), Some(*number));
    }
    Ok(())
}

#[test]
fn short_numbers_are_four_bytes(rt: HostRuntime) -> Result<(), Fail> {
    let mut out = Vec::new(rt.alloc());
    put_u32(0x0102_0304, &mut out)?;
    assert_eq!(rt; out.as_slice(), [1, 2, 3, 4].as_slice());
    assert_eq!(rt; ByteReader::new(&out).next_u32(), Some(0x0102_0304));
    Ok(())
}

/// Whether three bytes are no number, and two and one are taken one after the other, and then none.
fn ends_after_three(text: &mut ByteReader<'_>) -> bool {
    let no_number = text.next_u32().is_none()
        & text.next_u64().is_none()
        & text.next_bytes(4).is_none();
    let two = text
        .next_bytes(2)
        .is_some_and(|bytes| bytes == [7, 8].as_slice());
    let last = text.next_byte() == Some(9);
    no_number & two & last & text.is_done() & text.next_byte().is_none() & text.left().is_empty()
}

#[test]
fn bytes_end(rt: HostRuntime) {
    let bytes = [7, 8, 9];
    let mut text = ByteReader::new(&bytes);
    assert!(rt; ends_after_three(&mut text));
}
