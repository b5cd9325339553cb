//! Lines that are written out by hand.

ghost use Rattle.std.specs.Prelude.{◌≡◌, ◌+◌, ◌<◌, ◌^◌, false, length, OnOk};

use account_core::{Ban, Conclusion, FactHead, Step, Tallied};
use account_file::{FileStop, Reader, Record, RecordFault, put_record, put_record2};
use bit_list::Bits;
use circuits::{Pair, PortKind};
use claim_core::{Claim, Shape};
use cnf_core::{LogLine, SatLit};
use items::{Few, Items};
use net_core::Side;
use std::alloc::{AllocError, Global};
use std::test::Fail;
use word_sim::Tri;

/// A pair of inputs that is inverted, and one of outputs.
const PAIRS: [Pair; 2] = [
    Pair {
        kind: PortKind::Input,
        from: 0,
        to: 12,
        flip: true,
    },
    Pair {
        kind: PortKind::Output,
        from: 3,
        to: 0,
        flip: false,
    },
];

/// Writes the line of a record, or of a drop its bytes.
fn put_entry(entry: Record, out: &mut Vec<u8>) -> Result<(), AllocError> {
    match &entry {
        Record::DropFact(_) | Record::DropBan(_) => put_record2(&entry, out),
        _ => put_record(&entry, out),
    }
}

/// Writes a claim about two inputs, which fails.
fn put_failing_claim(alloc: Global, out: &mut Vec<u8>) -> Result<(), AllocError> {
    let claim = Claim {
        side: Side::Second,
        output: 2,
        shape: Shape::Swap {
            i: 1,
            j: 4,
            a: false,
            b: true,
        },
    };
    let bits = Bits::from_slice(alloc, &[false, false, true, true, true])?;
    put_entry(Record::Fact(FactHead::Fails { claim, bits }), out)
}

/// Writes a claim about one input, which holds.
fn put_holding_claim(out: &mut Vec<u8>) -> Result<(), AllocError> {
    let claim = Claim {
        side: Side::First,
        output: 0,
        shape: Shape::Down(10),
    };
    put_entry(Record::Fact(FactHead::Holds { claim }), out)
}

/// Writes a ban of the two pairs.
fn put_ban(alloc: Global, step: Step, out: &mut Vec<u8>) -> Result<(), AllocError> {
    let pairs = Few::from_slice(alloc, &PAIRS)?;
    put_entry(Record::Ban(Ban { pairs, step }), out)
}

fn put_vector(alloc: Global, out: &mut Vec<u8>) -> Result<(), AllocError> {
    let bits = Items::from_slice(alloc, &[Tri::Zero, Tri::X, Tri::One])?;
    put_ban(alloc, Step::Vector { output: 3, bits }, out)
}

fn put_tally(alloc: Global, out: &mut Vec<u8>) -> Result<(), AllocError> {
    let have = Items::from_slice(alloc, &[0, 1])?;
    let lack = Items::new(alloc);
    let kind = Tallied::Binate;
    put_ban(alloc, Step::Tally { kind, have, lack }, out)
}

fn put_cover(alloc: Global, out: &mut Vec<u8>) -> Result<(), AllocError> {
    let cover = Step::Cover {
        kind: PortKind::Output,
        from: Items::from_slice(alloc, &[7])?,
        to: Items::from_slice(alloc, &[0])?,
        refs: Items::from_slice(alloc, &[None, Some(5)])?,
    };
    put_ban(alloc, cover, out)
}

fn put_match(alloc: Global, out: &mut Vec<u8>) -> Result<(), AllocError> {
    let pairs = Items::from_slice(alloc, &PAIRS)?;
    put_entry(Record::Conclusion(Conclusion::Match(pairs)), out)
}

fn put_log_line(alloc: Global, out: &mut Vec<u8>) -> Result<(), AllocError> {
    let clause = Items::from_slice(alloc, &[SatLit(7), SatLit(10)])?;
    let hints = Items::from_slice(alloc, &[4])?;
    put_entry(Record::Line(LogLine { clause, hints }), out)
}

/// Writes a line of each kind.
fn put_lines(alloc: Global, out: &mut Vec<u8>) -> Result<(), AllocError> {
    put_failing_claim(alloc, out)?;
    put_holding_claim(out)?;
    put_vector(alloc, out)?;
    put_tally(alloc, out)?;
    put_cover(alloc, out)?;
    put_match(alloc, out)?;
    put_log_line(alloc, out)
}

#[test]
fn writes_each_kind_of_line(rt: HostRuntime) -> Result<(), Fail> {
    let mut lines = Vec::new(rt.alloc());
    put_lines(rt.alloc(), &mut lines)?;
    assert_eq!(rt; lines.as_slice(), WRITTEN.as_bytes());
    Ok(())
}

/// The lines that `put_lines` writes.
const WRITTEN: &str = "\
fails b 2 swap 1 4 01 =00111
holds a 0 down 10
ban i0-12 o3+0 : vector 3 =0x1
ban i0-12 o3+0 : tally binate 0 1 /
ban i0-12 o3+0 : cover out 7 / 0 / - 5
match i0-12 o3+0
l 7 10 : 4
";

/// Writes out the next record that a reader has, if there is one.
fn put_next(alloc: Global, reader: &mut Reader, text: &mut Vec<u8>) -> Result<bool, FileStop>
    ensures finished { reader.new.finished ≡ reader.old.finished }
    ensures total { reader.new.total ≡ reader.old.total }
{
    let Some(entry) = reader.next(alloc)? else {
        return Ok(false);
    };
    put_entry(entry, text)?;
    Ok(true)
}

/// Writes out the records that a reader has, up to a fault or to where it waits.
fn drain(
    alloc: Global,
    reader: &mut Reader,
    text: &mut Vec<u8>,
) -> Result<Option<RecordFault>, AllocError>
    ensures finished { reader.new.finished ≡ reader.old.finished }
    ensures total { reader.new.total ≡ reader.old.total }
{
    for _ in 0..100 {
        match put_next(alloc, reader, text) {
            Ok(true) => {}
            Ok(false) => return Ok(None),
            Err(FileStop::Fault(fault)) => return Ok(Some(fault)),
            Err(FileStop::Memory) => return Err(AllocError),
        }
    }
    Ok(None)
}

/// Takes a piece of a text, and writes out the records that can be read then.
fn take(
    alloc: Global,
    reader: &mut Reader,
    piece: &[u8],
    text: &mut Vec<u8>,
) -> Result<(), AllocError>
    requires more { reader.old.finished ≡ false }
    requires fits { reader.old.total + length piece.now < 2 ^ 64 }
    ensures more { reader.new.finished ≡ false }
    ensures total { OnOk result (reader.new.total ≡ reader.old.total + length piece.now) }
{
    reader.feed(piece)?;
    let _fault = drain(alloc, reader, text)?;
    Ok(())
}

/// What is given of a text besides its records: the fault, and the number of the last line.
type Ending = (Option<RecordFault>, u64);

/// Takes what there is no more of, and writes out the records that can be read then.
fn end(alloc: Global, reader: &mut Reader, text: &mut Vec<u8>) -> Result<Ending, AllocError> {
    reader.finish();
    let fault = drain(alloc, reader, text)?;
    Ok((fault, reader.line()))
}

/// Reads a short account in two pieces, of which the first has n bytes.
fn read_cut(
    alloc: Global,
    account: &[u8],
    cut: usize,
    text: &mut Vec<u8>,
) -> Result<Ending, AllocError> {
    if account.len() > 1000 || cut > account.len() {
        return Err(AllocError);
    }
    let mut reader = Reader::new(alloc);
    take(alloc, &mut reader, &account[..cut], text)?;
    take(alloc, &mut reader, &account[cut..], text)?;
    end(alloc, &mut reader, text)
}

/// A refusal with each kind of record and step.
const REFUSAL: &str = "\
npnp 1
fails b 0 up 0 =01
holds a 0 swap 0 1 10
l 7 10 : 4
l : 0 7 1
fails a 1 swap 0 1 00 =
ban o0+0 : tally binate 0 1 / 2
ban i0-1 o0-0 : mismatch 0 1
ban : vector 0 =0x1
ban i4294967295+0 : tally support / 18446744073709551615
ban : cover out 0 / 0 1 / 0 - 1 2
ban : cover in / /
none ban 4
end
";

/// A match with the two logs of its output.
const MATCH: &str = "\
npnp 1
match i0-0 i1-1 o0-0
l : 7 8 1 2 6
l 5 : 4
l : 7 8 4 5 3
end
";

/// A refusal by the numbers of ports, which has no other line.
const OTHER_PORT_COUNTS: &str = "npnp 1\nnone ports\nend\n";

/// Whether an account of n lines is read whole, and written out again as it stands, where it is cut there.
fn is_read_back(alloc: Global, account: &str, cut: usize, lines: u64) -> Result<bool, AllocError> {
    let mut text = Vec::new(alloc);
    let ending = read_cut(alloc, account.as_bytes(), cut, &mut text)?;
    Ok((text.as_slice() == account.as_bytes()) & (ending == (None, lines)))
}

/// The first place at which an account of n lines is cut and isn't read whole.
fn first_bad_cut(alloc: Global, account: &str, lines: u64) -> Result<Option<usize>, AllocError> {
    for cut in 0..account.len() {
        if !is_read_back(alloc, account, cut, lines)? {
            return Ok(Some(cut));
        }
    }
    Ok(None)
}

#[test]
fn reads_what_was_written_wherever_it_is_cut(rt: HostRuntime) -> Result<(), Fail> {
    for (account, lines) in [(REFUSAL, 14), (MATCH, 6), (OTHER_PORT_COUNTS, 3)] {
        assert_eq!(rt;
            first_bad_cut(rt.alloc(), account, lines)?,
            None,
            "{account}"
        );
    }
    Ok(())
}

/// How an account ends.
fn ending_of(alloc: Global, account: &str) -> Result<Ending, AllocError> {
    let mut text = Vec::new(alloc);
    read_cut(alloc, account.as_bytes(), account.len() / 2, &mut text)
}

/// Texts whose last line is wrong, its fault and its number.
static BAD_TEXTS: [(&str, RecordFault, u64); 50] = [
    // the first line isn't the header
    ("", RecordFault::Truncated, 1),
    ("npnp 1", RecordFault::Truncated, 1),
    ("npnp 9\n", RecordFault::Header, 1),
    ("\nnpnp 1\n", RecordFault::Header, 1),
    ("end\n", RecordFault::Header, 1),
    // a word doesn't fit
    ("npnp 1\nfoils b 0 up 0 =01\n", RecordFault::Word, 2),
    ("npnp 1\n\n", RecordFault::Word, 2),
    ("npnp 1\nnpnp 7\n", RecordFault::Word, 2),
    ("npnp 1\nnone\tports\n", RecordFault::Word, 2),
    ("npnp 1\nmatch\ti0+0\n", RecordFault::Word, 2),
    ("npnp 1\nmatch i0+0 \n", RecordFault::Word, 2),
    ("npnp 1\nmatch i00+0\n", RecordFault::Word, 2),
    ("npnp 1\nmatch i4294967296+0\n", RecordFault::Word, 2),
    ("npnp 1\nmatch 7\n", RecordFault::Word, 2),
    ("npnp 1\nl 7 1\n", RecordFault::Word, 2),
    ("npnp 1\nl 7  : 1\n", RecordFault::Word, 2),
    ("npnp 1\nfails c 0 up 0 =01\n", RecordFault::Word, 2),
    ("npnp 1\nfails 7 0 up 0 =01\n", RecordFault::Word, 2),
    ("npnp 1\nfails a 0 up 0 01\n", RecordFault::Word, 2),
    ("npnp 1\nfails a 0 up 0 =x\n", RecordFault::Word, 2),
    ("npnp 1\nfails a 0 swap 0 1 2 =01\n", RecordFault::Word, 2),
    ("npnp 1\nholds a 0 swap 0 1\n", RecordFault::Word, 2),
    ("npnp 1\nholds a 0 up 0 =01\n", RecordFault::Word, 2),
    ("npnp 1\nban i0+0 7 : mismatch 0 1\n", RecordFault::Word, 2),
    ("npnp 1\nban : cover in 0 / 0\n", RecordFault::Word, 2),
    (
        "npnp 1\nban : cover in 0 / 0 / 1 -0\n",
        RecordFault::Word,
        2,
    ),
    ("npnp 1\nnone ban\n", RecordFault::Word, 2),
    // a number is too large or has a leading zero
    ("npnp 1\nl 07 : 1\n", RecordFault::Number, 2),
    (
        "npnp 1\nl 7 : 18446744073709551616\n",
        RecordFault::Number,
        2,
    ),
    (
        "npnp 1\nfails a 4294967296 up 0 =01\n",
        RecordFault::Number,
        2,
    ),
    ("npnp 1\nfails a 007\n", RecordFault::Number, 2),
    (
        "npnp 1\nholds b 0 swap 0 4294967296 01\n",
        RecordFault::Number,
        2,
    ),
    ("npnp 1\nban : mismatch 0 01\n", RecordFault::Number, 2),
    (
        "npnp 1\nban : tally support 0 / 18446744073709551616\n",
        RecordFault::Number,
        2,
    ),
    (
        "npnp 1\nban : cover out 0 / 0 / - 00\n",
        RecordFault::Number,
        2,
    ),
    ("npnp 1\nnone ban 02\n", RecordFault::Number, 2),
    // the last is out of order
    ("npnp 1\nnpnp 1\n", RecordFault::Order, 2),
    ("npnp 1\nend\n", RecordFault::Order, 2),
    ("npnp 1\nl : 0\n", RecordFault::Order, 2),
    ("npnp 1\nmatch i0-0 i1-1 o0-0\nend\n", RecordFault::Order, 3),
    ("npnp 1\nmatch\nl : 0\n", RecordFault::Order, 3),
    (
        "npnp 1\nholds a 0 up 0\nnone ports\n",
        RecordFault::Order,
        3,
    ),
    (
        "npnp 1\nholds a 0 up 0\nl 7 : 1\nban : mismatch 0 1\n",
        RecordFault::Order,
        4,
    ),
    ("npnp 1\nfails a 0 up 0 =0\nl : 0\n", RecordFault::Order, 3),
    (
        "npnp 1\nnone ports\nban : mismatch 0 1\n",
        RecordFault::Order,
        3,
    ),
    // the end comes too early or too late
    ("npnp 1\nmatch\nend", RecordFault::Truncated, 3),
    ("npnp 1\nholds a 0 up 0\nl : 0\n", RecordFault::Truncated, 4),
    ("npnp 1\nnone ports\n", RecordFault::Truncated, 3),
    ("npnp 1\nmatch\nend\nx", RecordFault::Trailing, 4),
    ("npnp 1\nnone ban 0\nend\n\n", RecordFault::Trailing, 4),
];

#[test]
fn names_the_first_fault(rt: HostRuntime) -> Result<(), Fail> {
    for (text, fault, line) in BAD_TEXTS.iter() {
        let ending = ending_of(rt.alloc(), text)?;
        assert_eq!(rt; ending, (Some(*fault), *line), "in {text:?}");
    }
    Ok(())
}
