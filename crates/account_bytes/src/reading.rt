//! Entries, read.

ghost use Rattle.std.specs.Prelude.{◌≡◌, IfNone, IfSome};
ghost use Rattle.byte_form.specs.Codes.{BeginsNone, BeginsWith};
ghost use Rattle.account_bytes.specs.Entries.{BodyFits, FrameFits, GivesEntry, ReadsBody, ReadsEntry};
ghost use Rattle.account_bytes.specs.Entries.{entry_body, entry_tag, frame_bytes};
ghost use Rattle.account_bytes.specs.Reading.{OfTag, Reads};

use crate::entry::Entry;
use crate::form::{ByteForm, FormStop};
use account_core::{Ban, Conclusion, FactHead};
use bit_list::Bits;
use byte_form::ByteReader;
use circuits::Pair;
use claim_core::Claim;
use cnf_core::LogLine;
use items::Items;
use std::alloc::Global;

/// Why no entry is read.
#[derive(Clone, Copy, Debug, Drop, PartialEq, Eq)]
pub enum EntryStop {
    /// The bytes end before the last byte of the frame, whatever its tag.
    Cut,
    /// No entry begins with this byte, or its body has another form or hasn't the length that is said.
    Malformed,
    /// Out of memory.
    Memory,
}

/// Takes the entry that the bytes begin with, and moves past it.
pub fn read_entry(alloc: Global, text: &mut ByteReader<'_>) -> Result<Entry, EntryStop>
    ensures { ReadsEntry text.old result text.new }
{
    let Some((tag, body)) = next_frame(text) else {
        return Err(EntryStop::Cut);
    };
    entry_of(alloc, tag, body)
}

// The entry of a tag and a whole body.
fn entry_of(alloc: Global, tag: u8, body: &[u8]) -> Result<Entry, EntryStop>
    ensures { GivesEntry tag body.now result }
{
    match read_body(alloc, tag, body) {
        Ok(entry) => Ok(entry),
        Err(FormStop::Malformed) => Err(EntryStop::Malformed),
        Err(FormStop::Memory) => Err(EntryStop::Memory),
    }
}

// Takes a tag and a body of the length that stands between them.
fn next_frame<'a>(text: &mut ByteReader<'a>) -> Option<(u8, &'a [u8])>
    ensures frame { IfSome result (λ frame. BeginsWith frame_bytes FrameFits text.old (frame.0, frame.1.now) text.new) }
    ensures none { IfNone result (BeginsNone frame_bytes FrameFits text.old) }
{
    let tag = text.next_byte()?;
    let length = text.next_u64()?;
    let body = text.next_bytes(length)?;
    Some((tag, body))
}

// The entry of a tag and body, or why there is none.
fn read_body(alloc: Global, tag: u8, body: &[u8]) -> Result<Entry, FormStop>
    ensures { ReadsBody tag body.now result }
{
    let mut text = ByteReader::new(body);
    let entry = read_fields(alloc, tag, &mut text)?;
    let done = text.is_done();
    if done {
        Ok(entry)
    } else {
        Err(FormStop::Malformed)
    }
}

// The entry whose tag was read.
fn read_fields(alloc: Global, tag: u8, text: &mut ByteReader<'_>) -> Result<Entry, FormStop>
    ensures { Reads entry_body (OfTag entry_tag BodyFits tag) text.old result text.new }
{
    match tag {
        1 => read_fails(alloc, text),
        2 => read_holds(alloc, text),
        3 => read_line(alloc, text),
        4 => read_ban(alloc, text),
        5 => Ok(Entry::Conclusion(Conclusion::NonePorts)),
        6 => read_none_ban(alloc, text),
        7 => read_match(alloc, text),
        8 => Ok(Entry::End),
        9 => read_drop_fact(alloc, text),
        10 => read_drop_ban(alloc, text),
        _ => Err(FormStop::Malformed),
    }
}

fn read_fails(alloc: Global, text: &mut ByteReader<'_>) -> Result<Entry, FormStop>
    ensures { Reads entry_body (OfTag entry_tag BodyFits 1) text.old result text.new }
{
    let (claim, bits) = <(Claim, Bits)>::read(alloc, text)?;
    Ok(Entry::Fact(FactHead::Fails { claim, bits }))
}

fn read_holds(alloc: Global, text: &mut ByteReader<'_>) -> Result<Entry, FormStop>
    ensures { Reads entry_body (OfTag entry_tag BodyFits 2) text.old result text.new }
{
    let claim = Claim::read(alloc, text)?;
    Ok(Entry::Fact(FactHead::Holds { claim }))
}

fn read_line(alloc: Global, text: &mut ByteReader<'_>) -> Result<Entry, FormStop>
    ensures { Reads entry_body (OfTag entry_tag BodyFits 3) text.old result text.new }
{
    Ok(Entry::Line(LogLine::read(alloc, text)?))
}

fn read_ban(alloc: Global, text: &mut ByteReader<'_>) -> Result<Entry, FormStop>
    ensures { Reads entry_body (OfTag entry_tag BodyFits 4) text.old result text.new }
{
    Ok(Entry::Ban(Ban::read(alloc, text)?))
}

fn read_none_ban(alloc: Global, text: &mut ByteReader<'_>) -> Result<Entry, FormStop>
    ensures { Reads entry_body (OfTag entry_tag BodyFits 6) text.old result text.new }
{
    let ban = u64::read(alloc, text)?;
    Ok(Entry::Conclusion(Conclusion::NoneBan(ban)))
}

fn read_match(alloc: Global, text: &mut ByteReader<'_>) -> Result<Entry, FormStop>
    ensures { Reads entry_body (OfTag entry_tag BodyFits 7) text.old result text.new }
{
    let pairs = Items::<Pair>::read(alloc, text)?;
    Ok(Entry::Conclusion(Conclusion::Match(pairs)))
}

fn read_drop_fact(alloc: Global, text: &mut ByteReader<'_>) -> Result<Entry, FormStop>
    ensures { Reads entry_body (OfTag entry_tag BodyFits 9) text.old result text.new }
{
    Ok(Entry::DropFact(u64::read(alloc, text)?))
}

fn read_drop_ban(alloc: Global, text: &mut ByteReader<'_>) -> Result<Entry, FormStop>
    ensures { Reads entry_body (OfTag entry_tag BodyFits 10) text.old result text.new }
{
    Ok(Entry::DropBan(u64::read(alloc, text)?))
}
