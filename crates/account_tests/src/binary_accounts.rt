//! Accounts of version 2, worked out by hand.

use crate::accounts::put_refusal_with;
use crate::graphs::{and_or, zero_wire};
use account_check::{CheckStop, Verdict, check};
use account_file::{FileStop, Reader, Record, RecordFault, put_record2};
use net_core::Graphs;
use std::alloc::{AllocError, Global};
use std::test::Fail;

/// That the port counts differ, and the end.
pub const NONE_PORTS: [u8; 26] = [
    78, 80, 78, 80, 65, 67, 67, 50, 5, 0, 0, 0, 0, 0, 0, 0, 0, 8, 0, 0, 0, 0, 0, 0, 0, 0,
];

/// That fact 258 is dropped, that the port counts differ, and the end.
const DROPS: [u8; 43] = [
    78, 80, 78, 80, 65, 67, 67, 50, 9, 0, 0, 0, 0, 0, 0, 0, 8, 0, 0, 0, 0, 0, 0, 1, 2, 5, 0, 0, 0,
    0, 0, 0, 0, 0, 8, 0, 0, 0, 0, 0, 0, 0, 0,
];

/// How an account ends: its fault, and the number of the last record.
pub type Ending = (Option<RecordFault>, u64);

/// A drop that is put after a record, which is named by its number: of a fact, or else of a ban, and of which.
pub type Placed = (u64, bool, u64);

/// Writes the drops that are put after a record.
fn put_drops(drops: &[Placed], record: u64, out: &mut Vec<u8>) -> Result<(), AllocError> {
    for (after, is_of_fact, number) in drops.iter() {
        if *after == record {
            put_record2(&drop_of(*is_of_fact, *number), out)?;
        }
    }
    Ok(())
}

fn drop_of(is_of_fact: bool, number: u64) -> Record {
    if is_of_fact {
        Record::DropFact(number)
    } else {
        Record::DropBan(number)
    }
}

/// Reads a short account, and writes its records as they are read, with drops between them.
pub fn rewrite(
    alloc: Global,
    account: &[u8],
    drops: &[Placed],
    out: &mut Vec<u8>,
) -> Result<Ending, AllocError> {
    if account.len() > 1000 {
        return Err(AllocError);
    }
    let mut reader = Reader::new(alloc);
    reader.feed(account)?;
    reader.finish();
    for _ in 0..100 {
        match reader.next(alloc) {
            Ok(Some(entry)) => {
                put_record2(&entry, out)?;
                put_drops(drops, reader.line(), out)?;
            }
            Ok(None) => return Ok((None, reader.line())),
            Err(FileStop::Fault(fault)) => return Ok((Some(fault), reader.line())),
            Err(FileStop::Memory) => return Err(AllocError),
        }
    }
    Err(AllocError)
}

/// Whether an account is read whole, and written as it is.
fn is_read_back(alloc: Global, account: &[u8], records: u64) -> Result<bool, AllocError> {
    let mut out = Vec::new(alloc);
    let ending = rewrite(alloc, account, &[], &mut out)?;
    Ok((out.as_slice() == account) & (ending == (None, records)))
}

#[test]
fn binary_accounts_are_written_as_they_are_read(rt: HostRuntime) -> Result<(), Fail> {
    assert!(rt; is_read_back(rt.alloc(), &NONE_PORTS, 3)?);
    assert!(rt; is_read_back(rt.alloc(), &DROPS, 4)?);
    Ok(())
}

/// Accounts with a fault, and the record that has it: a first part of the signature; the signature alone; a record that
/// is cut; a tag that no record has; a body where none should be; the end before the conclusion; a byte after the end.
static BAD_ACCOUNTS: [(&[u8], RecordFault, u64); 7] = [
    (&[78, 80, 78, 80, 65, 67, 67], RecordFault::Truncated, 1),
    (&[78, 80, 78, 80, 65, 67, 67, 50], RecordFault::Truncated, 2),
    (
        &[78, 80, 78, 80, 65, 67, 67, 50, 5, 0, 0, 0, 0, 0, 0, 0],
        RecordFault::Truncated,
        2,
    ),
    (
        &[78, 80, 78, 80, 65, 67, 67, 50, 12, 0, 0, 0, 0, 0, 0, 0, 0],
        RecordFault::Word,
        2,
    ),
    (
        &[78, 80, 78, 80, 65, 67, 67, 50, 5, 0, 0, 0, 0, 0, 0, 0, 1, 0],
        RecordFault::Word,
        2,
    ),
    (
        &[78, 80, 78, 80, 65, 67, 67, 50, 8, 0, 0, 0, 0, 0, 0, 0, 0],
        RecordFault::Order,
        2,
    ),
    (
        &[
            78, 80, 78, 80, 65, 67, 67, 50, 5, 0, 0, 0, 0, 0, 0, 0, 0, 8, 0, 0, 0, 0, 0, 0, 0, 0, 0,
        ],
        RecordFault::Trailing,
        4,
    ),
];

/// How a short account ends.
fn ending_of(alloc: Global, account: &[u8]) -> Result<Ending, AllocError> {
    let mut out = Vec::new(alloc);
    rewrite(alloc, account, &[], &mut out)
}

#[test]
fn finds_the_first_fault_of_bytes(rt: HostRuntime) -> Result<(), Fail> {
    for (account, fault, record) in BAD_ACCOUNTS.iter() {
        let ending = ending_of(rt.alloc(), account)?;
        assert_eq!(rt; ending, (Some(*fault), *record), "{account:?}");
    }
    Ok(())
}

/// The version of an account of which some bytes came.
fn version_of(alloc: Global, bytes: &[u8]) -> Result<Option<u8>, AllocError> {
    if bytes.len() > 1000 {
        return Err(AllocError);
    }
    let mut reader = Reader::new(alloc);
    reader.feed(bytes)?;
    Ok(reader.version())
}

#[test]
fn finds_the_version_by_the_first_bytes(rt: HostRuntime) -> Result<(), Fail> {
    assert_eq!(rt; version_of(rt.alloc(), b"NPNPACC")?, None);
    assert_eq!(rt; version_of(rt.alloc(), b"NPNPACC2")?, Some(2));
    assert_eq!(rt; version_of(rt.alloc(), b"NPNPACD")?, Some(1));
    assert_eq!(rt; version_of(rt.alloc(), b"npnp 1")?, Some(1));
    Ok(())
}

/// The first bad record of an account, and the word for it.
fn bad_record(alloc: Global, graphs: &Graphs<'_>, account: &[u8]) -> Option<(u64, &'static str)> {
    match check(alloc, graphs, account) {
        Err(CheckStop::Rejected { line, why }) => Some((line, why.word())),
        _ => None,
    }
}

#[test]
fn checks_binary_accounts(rt: HostRuntime) -> Result<(), Fail> {
    let both = and_or(rt.alloc())?;
    let graphs = both.graphs();
    let none_ports = bad_record(rt.alloc(), &graphs, &NONE_PORTS);
    let drops = bad_record(rt.alloc(), &graphs, &DROPS);
    assert_eq!(rt;
        (none_ports, drops),
        (Some((2, "conclusion")), Some((2, "id")))
    );
    Ok(())
}

/// Drops of all facts and bans of the refusal, each after the last record that names it.
pub static GOOD_DROPS: [Placed; 8] = [
    (8, true, 0),
    (8, true, 1),
    (9, false, 0),
    (9, false, 1),
    (10, false, 2),
    (10, false, 3),
    (11, false, 4),
    (11, false, 5),
];

/// Drops in the refusal, the first bad record, and the word for it: a fact that is dropped twice; one that wasn't given
/// yet; one that a mismatch names afterwards; a ban that is dropped twice; one that a cover names afterwards; one that
/// the conclusion names; a drop after the conclusion.
static BAD_DROPS: [(&[Placed], u64, &str); 7] = [
    (&[(8, true, 0), (10, true, 0)], 12, "id"),
    (&[(2, true, 1)], 3, "id"),
    (&[(5, true, 1)], 9, "id"),
    (&[(9, false, 1), (9, false, 1)], 11, "id"),
    (&[(6, false, 0)], 10, "id"),
    (&[(11, false, 6)], 13, "id"),
    (&[(12, false, 0)], 13, "order"),
];

/// Writes the refusal in bytes, with drops between its records.
pub fn put_refusal(alloc: Global, drops: &[Placed], out: &mut Vec<u8>) -> Result<(), AllocError> {
    let mut text = String::new(alloc);
    put_refusal_with(0, "", &mut text)?;
    rewrite(alloc, text.as_bytes(), drops, out)?;
    Ok(())
}

/// Whether the refusal with drops proves that there is no match.
fn proves_with(alloc: Global, graphs: &Graphs<'_>, drops: &[Placed]) -> bool {
    let mut account = Vec::new(alloc);
    if put_refusal(alloc, drops, &mut account).is_err() {
        return false;
    }
    match check(alloc, graphs, &account) {
        Ok(Verdict::None) => true,
        _ => false,
    }
}

/// The first bad record of the refusal with drops; none when out of memory.
fn bad_record_with(
    alloc: Global,
    graphs: &Graphs<'_>,
    drops: &[Placed],
) -> Option<(u64, &'static str)> {
    let mut account = Vec::new(alloc);
    if put_refusal(alloc, drops, &mut account).is_err() {
        return None;
    }
    bad_record(alloc, graphs, &account)
}

#[test]
fn what_is_dropped_is_named_no_more(rt: HostRuntime) -> Result<(), Fail> {
    let both = zero_wire(rt.alloc())?;
    let graphs = both.graphs();
    assert!(rt; proves_with(rt.alloc(), &graphs, &[]));
    assert!(rt; proves_with(rt.alloc(), &graphs, &GOOD_DROPS));
    for (drops, record, word) in BAD_DROPS.iter() {
        let found = bad_record_with(rt.alloc(), &graphs, drops);
        assert_eq!(rt; found, Some((*record, *word)), "{drops:?}");
    }
    Ok(())
}
