//! The next record of an account.

ghost use Rattle.std.specs.Prelude.{◌≡◌, ◌≤◌, length, count_by};
ghost use Rattle.std.specs.List.{position_or_len};
ghost use Rattle.text_core.specs.Bytes.{is_line_feed};
ghost use Rattle.account_file.specs.Order.{is_output, logs_asked, next_place, place_in_log};
ghost use Rattle.account_file.specs.Binary.{is_binary};
ghost use Rattle.account_file.specs.NextRecords.{FindsNext, line_at, placed, next_of, next_at_end, next_at_line};
ghost use Rattle.account_file.specs.Texts.{Answers, AnswersNext};

use crate::binary::next_entry;
use crate::fault::{FileStop, RecordFault};
use crate::forms::read_line;
use crate::place::Place;
use crate::record::Record;
use account_core::{Conclusion, FactHead};
use circuits::{Pair, PortKind};
use cnf_core::LogLine;
use std::alloc::Global;
use text_core::line_length;

/// What is done with the bytes that are left.
#[derive(Drop)]
pub enum NextRecord {
    /// Nothing.
    Wait,
    /// A record is read: n bytes are used, and the account stands there.
    Read {
        entry: Record,
        place: Place,
        used: usize,
    },
    /// A line is refused.
    Refuse(RecordFault),
}

/// What is done with the bytes left of an account of this version, at this place of it. No line feed is among the first
/// `looked`.
pub(crate) fn next_in(
    alloc: Global,
    binary: bool,
    left: &[u8],
    looked: usize,
    finished: bool,
    place: Place,
) -> Result<NextRecord, FileStop>
    requires looked { looked ≤ position_or_len is_line_feed left.now }
    requires form { place ≡ Place.Start → is_binary left.now ≡ binary }
    ensures { FindsNext binary left.now finished place result }
{
    if binary {
        return next_entry(alloc, left, finished, place);
    }
    next_of(alloc, left, looked, finished, place)
}

// What is done with the bytes left of an account of version 1.
fn next_of(
    alloc: Global,
    left: &[u8],
    looked: usize,
    finished: bool,
    place: Place,
) -> Result<NextRecord, FileStop>
    requires { looked ≤ position_or_len is_line_feed left.now }
    ensures { AnswersNext result (next_of left.now finished place) }
{
    let end = line_end_after(left, looked);
    if end < left.len() {
        return next_at_line(alloc, place, &left[..end]);
    }
    if finished {
        return Ok(next_at_end(place, left));
    }
    Ok(NextRecord::Wait)
}

// How many bytes stand before the first line feed, where none is among the first `looked`.
fn line_end_after(bytes: &[u8], looked: usize) -> usize
    requires { looked ≤ position_or_len is_line_feed bytes.now }
    ensures { result ≡ position_or_len is_line_feed bytes.now }
{
    let count = bytes.len();
    if looked >= count {
        return count;
    }
    looked + line_length(&bytes[looked..])
}

/// What is done where the bytes end.
pub(crate) fn next_at_end(place: Place, left: &[u8]) -> NextRecord
    ensures { result ≡ next_at_end place left.now }
{
    match place {
        Place::Ended => {
            if left.is_empty() {
                NextRecord::Wait
            } else {
                NextRecord::Refuse(RecordFault::Trailing)
            }
        }
        _ => NextRecord::Refuse(RecordFault::Truncated),
    }
}

// What is done at a whole line.
fn next_at_line(alloc: Global, place: Place, line: &[u8]) -> Result<NextRecord, FileStop>
    ensures { AnswersNext result (next_at_line place line.now) }
{
    if let Place::Ended = place {
        return Ok(NextRecord::Refuse(RecordFault::Trailing));
    }
    match line_at(alloc, place, line) {
        Ok((entry, place)) => Ok(NextRecord::Read {
            entry,
            place,
            used: line.len() + 1,
        }),
        Err(FileStop::Fault(fault)) => Ok(NextRecord::Refuse(fault)),
        Err(FileStop::Memory) => Err(FileStop::Memory),
    }
}

// The record of a line, and where the account stands after it.
fn line_at(alloc: Global, place: Place, line: &[u8]) -> Result<(Record, Place), FileStop>
    ensures { Answers (λ found. found) result (line_at place line.now) }
{
    if let Place::Start = place {
        return Ok(first_line(line)?);
    }
    let entry = read_line(alloc, line)?;
    Ok(in_place(place, entry)?)
}

// The first line, which names the format.
fn first_line(line: &[u8]) -> Result<(Record, Place), RecordFault>
    ensures { result ≡ line_at Place.Start line.now }
{
    if line == b"npnp 1".as_slice() {
        Ok((Record::Header, Place::Headed))
    } else {
        Err(RecordFault::Header)
    }
}

// A record, where it may stand there.
fn in_place(place: Place, entry: Record) -> Result<(Record, Place), RecordFault>
    ensures { result ≡ placed entry (next_place place entry) }
{
    let place = next_place(place, &entry).ok_or(RecordFault::Order)?;
    Ok((entry, place))
}

/// Where the account stands after a record, if the record may stand there.
pub(crate) fn next_place(place: Place, entry: &Record) -> Option<Place>
    ensures { result ≡ next_place place entry.now }
{
    match (place, entry) {
        (Place::Start, Record::Header) => Some(Place::Headed),
        (Place::Headed, Record::Fact(FactHead::Fails { .. })) => Some(Place::Headed),
        (Place::Headed, Record::Fact(FactHead::Holds { .. })) => Some(Place::FactLog),
        (Place::Headed, Record::Ban(_)) => Some(Place::Headed),
        (Place::Headed, Record::DropFact(_) | Record::DropBan(_)) => Some(Place::Headed),
        (Place::Headed, Record::Conclusion(conclusion)) => {
            Some(Place::Logs(logs_asked(conclusion)))
        }
        (Place::FactLog, Record::Line(line)) => Some(place_in_log(line)),
        (Place::Logs(logs), Record::Line(line)) => place_in_logs(logs, line),
        (Place::Logs(0), Record::End) => Some(Place::Ended),
        _ => None,
    }
}

// Where the account stands after a line of a fact's log, which the empty clause ends.
fn place_in_log(line: &LogLine) -> Place
    ensures { result ≡ place_in_log line.now.clause }
{
    if line.clause.is_empty() {
        Place::Headed
    } else {
        Place::FactLog
    }
}

// Where the account stands after a line of a conclusion's logs, of which n are left.
fn place_in_logs(logs: u64, line: &LogLine) -> Option<Place>
    ensures { result ≡ next_place (Place.Logs logs) (Record.Line line.now) }
{
    if logs == 0 {
        return None;
    }
    if line.clause.is_empty() {
        return Some(Place::Logs(logs - 1));
    }
    Some(Place::Logs(logs))
}

// How many logs a conclusion asks for.
fn logs_asked(conclusion: &Conclusion) -> u64
    ensures { result ≡ logs_asked conclusion.now }
{
    match conclusion {
        Conclusion::NonePorts | Conclusion::NoneBan(_) => 0,
        Conclusion::Match(pairs) => 2 * outputs_in(pairs) as u64,
    }
}

// How many pairs are of outputs.
fn outputs_in(pairs: &[Pair]) -> usize
    ensures count { result ≡ count_by is_output pairs.now }
    ensures within { result ≤ length pairs.now }
{
    let mut count = 0;
    for pair in pairs.iter() {
        if pair.kind == PortKind::Output {
            count += 1;
        }
    }
    count
}
