//! Entries, written.

ghost use Rattle.std.specs.Prelude.{◌≡◌, ◌++◌, OnErr, OnOk};
ghost use Rattle.account_bytes.specs.Entries.{BodyFits, EntryFits, FrameFits, entry_body, entry_bytes, entry_tag};
ghost use Rattle.account_bytes.specs.Entries.{frame_bytes};
ghost use Rattle.account_bytes.specs.Bodies.{IsNumber};
ghost use Rattle.byte_form.specs.Codes.{number_bytes};

use crate::entry::Entry;
use crate::form::ByteForm;
use crate::lists::put_list;
use account_core::{Ban, Conclusion, FactHead};
use bit_list::Bits;
use byte_form::put_u64;
use claim_core::Claim;
use cnf_core::LogLine;
use std::alloc::AllocError;

/// Writes an entry at the end of `out`: a byte that says which kind of entry it is, how many bytes its body has, and
/// the body. Running out of memory leaves `out` as it was, here and below.
pub fn put_entry(entry: &Entry, out: &mut Vec<u8>) -> Result<(), AllocError>
    ensures bytes { OnOk result (out.new.items ≡ out.old.items ++ entry_bytes entry.now) }
    ensures fits { OnOk result (EntryFits entry.now) }
    ensures refused { OnErr result (out.new.items ≡ out.old.items) }
{
    match entry {
        Entry::Fact(head) => put_fact(head, out),
        Entry::Line(line) => put_log_line(line, out),
        Entry::Ban(ban) => put_ban(ban, out),
        Entry::Conclusion(conclusion) => put_conclusion(conclusion, out),
        Entry::DropFact(fact) => put_number(9, *fact, out),
        Entry::DropBan(ban) => put_number(10, *ban, out),
        Entry::End => put_whole_frame(8, &[], out),
    }
}

/// Writes the entry of a fact.
pub fn put_fact(head: &FactHead, out: &mut Vec<u8>) -> Result<(), AllocError>
    ensures bytes { OnOk result (out.new.items ≡ out.old.items ++ entry_bytes (Entry.Fact head.now)) }
    ensures fits { OnOk result (EntryFits (Entry.Fact head.now)) }
    ensures refused { OnErr result (out.new.items ≡ out.old.items) }
{
    let mut body = Vec::new(*out.allocator());
    put_head(head, &mut body)?;
    put_whole_frame(head_tag(head), &body, out)
}

/// Writes the entry of a line of a log.
pub fn put_log_line(line: &LogLine, out: &mut Vec<u8>) -> Result<(), AllocError>
    ensures bytes { OnOk result (out.new.items ≡ out.old.items ++ entry_bytes (Entry.Line line.now)) }
    ensures fits { OnOk result (EntryFits (Entry.Line line.now)) }
    ensures refused { OnErr result (out.new.items ≡ out.old.items) }
{
    let mut body = Vec::new(*out.allocator());
    line.put(&mut body)?;
    put_whole_frame(3, &body, out)
}

/// Writes the entry of a ban.
pub fn put_ban(ban: &Ban, out: &mut Vec<u8>) -> Result<(), AllocError>
    ensures bytes { OnOk result (out.new.items ≡ out.old.items ++ entry_bytes (Entry.Ban ban.now)) }
    ensures fits { OnOk result (EntryFits (Entry.Ban ban.now)) }
    ensures refused { OnErr result (out.new.items ≡ out.old.items) }
{
    let mut body = Vec::new(*out.allocator());
    ban.put(&mut body)?;
    put_whole_frame(4, &body, out)
}

/// Writes the entry of a conclusion.
pub fn put_conclusion(conclusion: &Conclusion, out: &mut Vec<u8>) -> Result<(), AllocError>
    ensures bytes { OnOk result (out.new.items ≡ out.old.items ++ entry_bytes (Entry.Conclusion conclusion.now)) }
    ensures fits { OnOk result (EntryFits (Entry.Conclusion conclusion.now)) }
    ensures refused { OnErr result (out.new.items ≡ out.old.items) }
{
    let mut body = Vec::new(*out.allocator());
    put_conclusion_body(conclusion, &mut body)?;
    put_whole_frame(conclusion_tag(conclusion), &body, out)
}

// Writes an entry whose body is a number.
fn put_number(tag: u8, number: u64, out: &mut Vec<u8>) -> Result<(), AllocError>
    ensures number { IsNumber number }
    ensures bytes { OnOk result (out.new.items ≡ out.old.items ++ frame_bytes (tag, number_bytes 8 number)) }
    ensures fits { OnOk result (FrameFits (tag, number_bytes 8 number)) }
    ensures refused { OnErr result (out.new.items ≡ out.old.items) }
{
    let mut body = Vec::new(*out.allocator());
    put_u64(number, &mut body)?;
    put_whole_frame(tag, &body, out)
}

// Writes a tag, the length of a body, and the body; or nothing, where memory runs out.
fn put_whole_frame(tag: u8, body: &[u8], out: &mut Vec<u8>) -> Result<(), AllocError>
    ensures bytes { OnOk result (out.new.items ≡ out.old.items ++ frame_bytes (tag, body.now)) }
    ensures fits { OnOk result (FrameFits (tag, body.now)) }
    ensures refused { OnErr result (out.new.items ≡ out.old.items) }
{
    let mut frame = Vec::new(*out.allocator());
    put_frame(tag, body, &mut frame)?;
    out.extend_from_slice(&frame)
}

// Writes a tag, the length of a body, and the body.
fn put_frame(tag: u8, body: &[u8], out: &mut Vec<u8>) -> Result<(), AllocError>
    ensures fits { OnOk result (FrameFits (tag, body.now)) }
    ensures bytes { OnOk result (out.new.items ≡ out.old.items ++ frame_bytes (tag, body.now)) }
{
    out.push(tag)?;
    put_u64(body.len() as u64, out)?;
    out.extend_from_slice(body)
}

fn head_tag(head: &FactHead) -> u8
    ensures { result ≡ entry_tag (Entry.Fact head.now) }
{
    match head {
        FactHead::Fails { .. } => 1,
        FactHead::Holds { .. } => 2,
    }
}

fn put_head(head: &FactHead, out: &mut Vec<u8>) -> Result<(), AllocError>
    ensures fits { OnOk result (BodyFits (Entry.Fact head.now)) }
    ensures bytes { OnOk result (out.new.items ≡ out.old.items ++ entry_body (Entry.Fact head.now)) }
{
    match head {
        FactHead::Fails { claim, bits } => put_fails(claim, bits, out),
        FactHead::Holds { claim } => claim.put(out),
    }
}

fn conclusion_tag(conclusion: &Conclusion) -> u8
    ensures { result ≡ entry_tag (Entry.Conclusion conclusion.now) }
{
    match conclusion {
        Conclusion::NonePorts => 5,
        Conclusion::NoneBan(_) => 6,
        Conclusion::Match(_) => 7,
    }
}

fn put_conclusion_body(conclusion: &Conclusion, out: &mut Vec<u8>) -> Result<(), AllocError>
    ensures fits { OnOk result (BodyFits (Entry.Conclusion conclusion.now)) }
    ensures bytes { OnOk result (out.new.items ≡ out.old.items ++ entry_body (Entry.Conclusion conclusion.now)) }
{
    match conclusion {
        Conclusion::NonePorts => Ok(()),
        Conclusion::NoneBan(ban) => ban.put(out),
        Conclusion::Match(pairs) => put_list(pairs, out),
    }
}

fn put_fails(claim: &Claim, bits: &Bits, out: &mut Vec<u8>) -> Result<(), AllocError>
    ensures fits { OnOk result (BodyFits (Entry.Fact (FactHead.Fails claim.now bits.now))) }
    ensures bytes { OnOk result (out.new.items
        ≡ out.old.items ++ entry_body (Entry.Fact (FactHead.Fails claim.now bits.now))) }
{
    claim.put(out)?;
    bits.put(out)
}
