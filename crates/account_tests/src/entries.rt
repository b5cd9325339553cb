//! Entries in bytes, worked out by hand.

use account_bytes::{EntryStop, put_entry, read_entry};
use byte_form::ByteReader;
use std::alloc::{AllocError, Global};
use std::test::Fail;

/// That the port counts differ; the end; that fact 258 is dropped; that the claim of the first circuit's output 0 and
/// its input 10, which is 1, holds; the empty clause, by clauses 0 and 1; that no match has output 0 go to output 0
/// plain, by a mismatch of facts 0 and 1.
static ENTRIES: [&[u8]; 6] = [
    &[5, 0, 0, 0, 0, 0, 0, 0, 0],
    &[8, 0, 0, 0, 0, 0, 0, 0, 0],
    &[9, 0, 0, 0, 0, 0, 0, 0, 8, 0, 0, 0, 0, 0, 0, 1, 2],
    &[2, 0, 0, 0, 0, 0, 0, 0, 10, 0, 0, 0, 0, 0, 1, 0, 0, 0, 10],
    &[
        3, 0, 0, 0, 0, 0, 0, 0, 32, 0, 0, 0, 0, 0, 0, 0, 0, 0, 0, 0, 0, 0, 0, 0, 2, 0, 0, 0, 0, 0,
        0, 0, 0, 0, 0, 0, 0, 0, 0, 0, 1,
    ],
    &[
        4, 0, 0, 0, 0, 0, 0, 0, 35, 0, 0, 0, 0, 0, 0, 0, 1, 1, 0, 0, 0, 0, 0, 0, 0, 0, 0, 1, 0, 0,
        0, 0, 0, 0, 0, 0, 0, 0, 0, 0, 0, 0, 0, 1,
    ],
];

/// Bytes that begin with no entry: too short for a length, or for a body also of a tag that no entry has; and of a tag
/// that no entry has, of a body where there should be none, of a number that ends too early, of a third circuit.
static NO_ENTRIES: [(&[u8], EntryStop); 8] = [
    (&[], EntryStop::Cut),
    (&[5, 0, 0, 0, 0, 0, 0, 0], EntryStop::Cut),
    (&[5, 0, 0, 0, 0, 0, 0, 0, 1], EntryStop::Cut),
    (&[12, 0, 0, 0, 0, 0, 0, 0, 1], EntryStop::Cut),
    (&[12, 0, 0, 0, 0, 0, 0, 0, 0], EntryStop::Malformed),
    (&[5, 0, 0, 0, 0, 0, 0, 0, 1, 0], EntryStop::Malformed),
    (
        &[6, 0, 0, 0, 0, 0, 0, 0, 7, 0, 0, 0, 0, 0, 0, 0],
        EntryStop::Malformed,
    ),
    (
        &[2, 0, 0, 0, 0, 0, 0, 0, 10, 2, 0, 0, 0, 0, 1, 0, 0, 0, 10],
        EntryStop::Malformed,
    ),
];

/// Whether the entry that the bytes are is written as these bytes.
fn is_written_so(alloc: Global, bytes: &[u8]) -> Result<bool, AllocError> {
    let mut text = ByteReader::new(bytes);
    let Ok(entry) = read_entry(alloc, &mut text) else {
        return Ok(false);
    };
    let mut out = Vec::new(alloc);
    put_entry(&entry, &mut out)?;
    Ok((out.as_slice() == bytes) & text.is_done())
}

/// Why the bytes begin with no entry, if they don't.
fn stop_of(alloc: Global, bytes: &[u8]) -> Option<EntryStop> {
    read_entry(alloc, &mut ByteReader::new(bytes)).err()
}

#[test]
fn entries_are_written_as_they_are_read(rt: HostRuntime) -> Result<(), Fail> {
    for bytes in ENTRIES.iter() {
        assert!(rt; is_written_so(rt.alloc(), bytes)?, "{bytes:?}");
    }
    Ok(())
}

#[test]
fn what_is_no_entry_is_refused(rt: HostRuntime) {
    for (bytes, why) in NO_ENTRIES.iter() {
        assert_eq!(rt; stop_of(rt.alloc(), bytes), Some(*why), "{bytes:?}");
    }
}
