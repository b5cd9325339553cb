//! Records of accounts of version 2, in bytes.

ghost use Rattle.std.specs.Prelude.{◌≡◌, ◌≢◌, ◌++◌, true, OnOk, OnErr};
ghost use Rattle.account_file.specs.declared.place.Place.TheVariants.{Start, Ended};
ghost use Rattle.account_file.specs.Accounts.{may_be_binary};
ghost use Rattle.account_file.specs.Binary.{HasBytes, is_binary, record_bytes, record_with};
ghost use Rattle.account_file.specs.NextRecords.{EntryFound, FindsNext, cut_off, entry_next};
ghost use Rattle.account_file.specs.Order.{next_place};

use crate::fault::{FileStop, RecordFault};
use crate::next_record::{NextRecord, next_at_end, next_place};
use crate::place::Place;
use crate::record::Record;
use account_bytes::{Entry, EntryStop, put_entry, read_entry};
use byte_form::ByteReader;
use std::alloc::{AllocError, Global};

/// Writes a record of an account of version 2 at the end of `out`: of the header `NPNPACC2`, and of every other one the
/// entry of `account_bytes`. Running out of memory leaves `out` as it was.
pub fn put_record2(entry: &Record, out: &mut Vec<u8>) -> Result<(), AllocError>
    ensures bytes { OnOk result (out.new.items ≡ out.old.items ++ record_bytes entry.now) }
    ensures fits { OnOk result (HasBytes entry.now) }
    ensures refused { OnErr result (out.new.items ≡ out.old.items) }
{
    match entry {
        Record::Header => out.extend_from_slice(b"NPNPACC2"),
        Record::Fact(head) => account_bytes::put_fact(head, out),
        Record::Line(line) => account_bytes::put_log_line(line, out),
        Record::Ban(ban) => account_bytes::put_ban(ban, out),
        Record::Conclusion(conclusion) => account_bytes::put_conclusion(conclusion, out),
        Record::DropFact(fact) => put_entry(&Entry::DropFact(*fact), out),
        Record::DropBan(ban) => put_entry(&Entry::DropBan(*ban), out),
        Record::End => put_entry(&Entry::End, out),
    }
}

/// Whether bytes begin as an account of version 2 does.
pub fn is_binary(bytes: &[u8]) -> bool
    ensures { result ≡ is_binary bytes.now }
{
    bytes.starts_with(b"NPNPACC2")
}

/// Whether bytes are a first part of what an account of version 2 begins with.
pub(crate) fn may_be_binary(bytes: &[u8]) -> bool
    ensures { result ≡ may_be_binary bytes.now }
{
    b"NPNPACC2".as_slice().starts_with(bytes)
}

/// What is done with the bytes left of an account of version 2, at this place of it.
pub(crate) fn next_entry(
    alloc: Global,
    left: &[u8],
    finished: bool,
    place: Place,
) -> Result<NextRecord, FileStop>
    requires { place ≡ Start → is_binary left.now ≡ true }
    ensures { FindsNext true left.now finished place result }
{
    match place {
        Place::Start => Ok(NextRecord::Read {
            entry: Record::Header,
            place: Place::Headed,
            used: 8,
        }),
        Place::Ended => Ok(next_at_end(place, left)),
        _ => next_between(alloc, left, finished, place),
    }
}

// What is done with the bytes that are left after the header and before the end.
fn next_between(
    alloc: Global,
    left: &[u8],
    finished: bool,
    place: Place,
) -> Result<NextRecord, FileStop>
    requires begun { place ≢ Start }
    requires not_ended { place ≢ Ended }
    ensures { FindsNext true left.now finished place result }
{
    match entry_found(alloc, left) {
        Ok((entry, used)) => Ok(entry_next(place, entry, used)),
        Err(EntryStop::Cut) => Ok(cut_off(finished)),
        Err(EntryStop::Malformed) => Ok(NextRecord::Refuse(RecordFault::Word)),
        Err(EntryStop::Memory) => Err(FileStop::Memory),
    }
}

// The record of the entry that the bytes begin with, and how many bytes it has.
fn entry_found(alloc: Global, left: &[u8]) -> Result<(Record, usize), EntryStop>
    ensures { EntryFound left.now result }
{
    let mut text = ByteReader::new(left);
    let entry = read_entry(alloc, &mut text)?;
    let used = left.len() - text.left().len();
    Ok((record_with(entry), used))
}

// What is done with a record that was read.
fn entry_next(place: Place, entry: Record, used: usize) -> NextRecord
    ensures { result ≡ entry_next entry used (next_place place entry) }
{
    match next_place(place, &entry) {
        Some(place) => NextRecord::Read { entry, place, used },
        None => NextRecord::Refuse(RecordFault::Order),
    }
}

// What is done where the bytes end within a record.
fn cut_off(finished: bool) -> NextRecord
    ensures { result ≡ cut_off finished }
{
    if finished {
        NextRecord::Refuse(RecordFault::Truncated)
    } else {
        NextRecord::Wait
    }
}

// The record of an entry.
fn record_with(entry: Entry) -> Record
    ensures { result ≡ record_with entry }
{
    match entry {
        Entry::Fact(head) => Record::Fact(head),
        Entry::Line(line) => Record::Line(line),
        Entry::Ban(ban) => Record::Ban(ban),
        Entry::Conclusion(conclusion) => Record::Conclusion(conclusion),
        Entry::DropFact(fact) => Record::DropFact(fact),
        Entry::DropBan(ban) => Record::DropBan(ban),
        Entry::End => Record::End,
    }
}
