ghost use Rattle.std.specs.Prelude.{ℕ, ◌≡◌, ◌+◌, ◌<◌, ◌≤◌, ◌^◌, ◌++◌, [], List, true, false, None, Some, Ok, Err};
ghost use Rattle.std.specs.Prelude.{OnOk, OnErr, length, drop};
ghost use Rattle.account_file.specs.declared.record.Record.{Record as Entry};
ghost use Rattle.account_file.specs.declared.fault.RecordFault.{RecordFault as AnyFault};
ghost use Rattle.account_file.specs.Accounts.{SaysNext, version_of};
ghost use Rattle.account_file.specs.Reading.{HasRead, given_by};
ghost use Rattle.account_file.specs.NextRecords.{StepsFrom, form_at, looked_after, known_version};
ghost use Rattle.account_file.specs.Texts.{Says};

use crate::binary::{is_binary, may_be_binary};
use crate::fault::{FileStop, RecordFault};
use crate::next_record::{NextRecord, next_in};
use crate::place::Place;
use crate::record::Record;
use std::alloc::{AllocError, Global};
use std::marker::Model;

/// Reads an account record by record, as its bytes come, in whatever pieces: one of version 2 where the first eight
/// bytes are `NPNPACC2`, and else one of version 1.
#[derive(Debug, Drop)]
pub struct Reader {
    bytes: Vec<u8>,
    /// How many of these bytes were read.
    start: usize,
    /// In how many bytes after them a line feed was sought, and there was none.
    looked: usize,
    finished: bool,
    line: u64,
    place: Place,
    /// Whether the account is of version 2, once a record was read.
    binary: bool,
    fault: Option<RecordFault>,
    total: u64,
}

impl Model for Reader {
    ghost use Rattle.std.specs.Prelude.{◌≤◌, drop, length};
    ghost use Rattle.account_file.specs.Reading.{Reading, IsReader};

    ghost Value = { Reading };

    ghost view = { λ a. record {
      left = drop a.start a.bytes.items;
      finished = a.finished;
      line = a.line;
      place = a.place;
      binary = a.binary;
      fault = a.fault;
      total = a.total;
    } };

    ghost invariant = { λ a. IsReader a.bytes.items a.start a.looked a.line a.fault a.total };
}

impl Reader {
    /// Nothing came yet.
    pub fn new(alloc: Global) -> Reader
        ensures begun { HasRead result [] [] }
        ensures more { result.finished ≡ false }
        ensures no_fault { result.fault ≡ None }
    {
        Reader {
            bytes: Vec::new(alloc),
            start: 0,
            looked: 0,
            finished: false,
            line: 0,
            place: Place::Start,
            binary: false,
            fault: None,
            total: 0,
        }
    }

    /// Takes the next bytes of the text. A refusal changes nothing.
    pub fn feed(&mut self, piece: &[u8]) -> Result<(), AllocError>
        requires more { self.old.finished ≡ false }
        requires fits { self.old.total + length piece.now < 2 ^ 64 }
        ensures reads { (bytes : List ℕ) (records : List Entry) → HasRead self.old bytes records
            → OnOk result (HasRead self.new (bytes ++ piece.now) records) }
        ensures ok { OnOk result (self.new ≡ record self.old {
          left = self.old.left ++ piece.now;
          total = self.old.total + length piece.now;
        }) }
        ensures refused { OnErr result (self.new ≡ self.old) }
    {
        self.drop_read();
        self.bytes.extend_from_slice(piece)?;
        self.total += piece.len() as u64;
        Ok(())
    }

    /// No more bytes come.
    pub fn finish(&mut self)
        ensures reads { (bytes : List ℕ) (records : List Entry) → HasRead self.old bytes records
            → HasRead self.new bytes records }
        ensures finished { self.new ≡ record self.old { finished = true } }
    {
        self.finished = true;
    }

    /// The number of the line that was given or refused last, from 1; 0 where there was none.
    pub fn line(&self) -> u64
        ensures { result ≡ self.now.line }
    {
        self.line
    }

    /// The version of the account. It is None where no more bytes came than the first of `NPNPACC2`, and more may come.
    pub fn version(&self) -> Option<u8>
        ensures { (bytes : List ℕ) (records : List Entry) → HasRead self.now bytes records
            → result ≡ version_of bytes self.now.finished }
    {
        match self.place {
            Place::Start => first_version(&self.bytes[self.start..], self.finished),
            _ => known_version(self.binary),
        }
    }

    /// What the account says after the records that were given: the next record, or the first fault. It is None where
    /// no whole record is left and more may come, and after the end where nothing is left. After a fault it is that
    /// fault again; running out of memory changes nothing.
    pub fn next(&mut self, alloc: Global) -> Result<Option<Record>, FileStop>
        ensures answer { (bytes : List ℕ) (records : List Entry) → HasRead self.old bytes records
            → Says result (SaysNext bytes self.old.finished records) }
        ensures reads { (bytes : List ℕ) (records : List Entry) → HasRead self.old bytes records
            → HasRead self.new bytes (records ++ given_by result) }
        ensures refused { result ≡ Err FileStop.Memory → self.new ≡ self.old }
        ensures shrinks { (entry : Entry) → result ≡ Ok (Some entry) → length self.new.left < length self.old.left }
        ensures fault { (fault : AnyFault) → result ≡ Err (FileStop.Fault fault) → self.new.fault ≡ Some fault }
        ensures no_fault { OnOk result (self.new.fault ≡ None) }
        ensures finished { self.new.finished ≡ self.old.finished }
        ensures total { self.new.total ≡ self.old.total }
    {
        self.take_next(alloc)
    }

    // The next record, or the first fault, by the bytes that are left.
    fn take_next(&mut self, alloc: Global) -> Result<Option<Record>, FileStop>
        ensures steps { StepsFrom self.old.fault self.old result self.new }
        ensures refused { result ≡ Err FileStop.Memory → self.new ≡ self.old }
        ensures shrinks { (entry : Entry) → result ≡ Ok (Some entry) → length self.new.left < length self.old.left }
        ensures fault { (fault : AnyFault) → result ≡ Err (FileStop.Fault fault) → self.new.fault ≡ Some fault }
        ensures no_fault { OnOk result (self.new.fault ≡ None) }
        ensures finished { self.new.finished ≡ self.old.finished }
        ensures total { self.new.total ≡ self.old.total }
    {
        if let Some(fault) = self.fault {
            return Err(FileStop::Fault(fault));
        }
        let left = &self.bytes[self.start..];
        let count = left.len();
        let binary = form_at(self.place, left, self.binary);
        match next_in(alloc, binary, left, self.looked, self.finished, self.place)? {
            NextRecord::Wait => {
                self.looked = looked_after(binary, count);
                Ok(None)
            }
            NextRecord::Read { entry, place, used } => {
                self.start += used;
                self.looked = 0;
                self.line += 1;
                self.place = place;
                self.binary = binary;
                Ok(Some(entry))
            }
            NextRecord::Refuse(fault) => {
                self.line += 1;
                self.fault = Some(fault);
                Err(FileStop::Fault(fault))
            }
        }
    }

    // Drops the bytes that were read where they are more than half, so that in all fewer are moved than were read.
    fn drop_read(&mut self)
        ensures { self.new ≡ self.old }
    {
        if self.start > self.bytes.len() / 2 {
            drop_front(&mut self.bytes, self.start);
            self.start = 0;
        }
    }
}

// Whether an account is of version 2: by its first bytes, where no record was read.
fn form_at(place: Place, left: &[u8], binary: bool) -> bool
    ensures { result ≡ form_at place left.now binary }
{
    match place {
        Place::Start => is_binary(left),
        _ => binary,
    }
}

// In how many of the bytes that are left a line feed was sought.
fn looked_after(binary: bool, count: usize) -> usize
    ensures { result ≡ looked_after binary count }
{
    if binary { 0 } else { count }
}

// The version of an account whose first bytes are these.
fn first_version(bytes: &[u8], finished: bool) -> Option<u8>
    ensures { result ≡ version_of bytes.now finished }
{
    if is_binary(bytes) {
        return Some(2);
    }
    if finished {
        return Some(1);
    }
    if may_be_binary(bytes) { None } else { Some(1) }
}

// The version of an account of which a record was read.
fn known_version(binary: bool) -> Option<u8>
    ensures { result ≡ known_version binary }
{
    if binary { Some(2) } else { Some(1) }
}

// Drops the first bytes.
fn drop_front(bytes: &mut Vec<u8>, count: usize)
    requires { count ≤ length bytes.old.items }
    ensures { bytes.new.items ≡ drop count bytes.old.items }
{
    let left = bytes.len() - count;
    bytes.copy_within(count.., 0);
    bytes.truncate(left);
}
