use crate::compared::{FaultRow, expect_faults, has_names, is_graph};
use aiger_reader::read;
use net_core::Lit;
use net_file::{Named, NetKind, NetStop};
use std::alloc::Global;
use std::test::Fail;

// The reader as a function of this crate, since the contract of one that is passed on has to stand here.
fn read_text(alloc: Global, text: &[u8]) -> Result<Named, NetStop> {
    read(alloc, text)
}

// A file, how many inputs it has, its gates, its outputs, and the names of the inputs and of the outputs.
type File = (
    &'static [u8],
    u32,
    &'static [(u32, u32)],
    &'static [Lit],
    &'static [u8],
    &'static [u8],
);

// Netlists in both forms of AIGER.
static NETLISTS: [File; 10] = [
    // an AND gate in both forms
    (
        b"aag 3 2 0 1 1\n2\n4\n6\n6 2 4\n",
        2,
        &[(2, 4)],
        &[Lit(6)],
        b"i0,i1,",
        b"o0,",
    ),
    (
        b"aig 3 2 0 1 1\n6\n\x02\x02",
        2,
        &[(4, 2)],
        &[Lit(6)],
        b"i0,i1,",
        b"o0,",
    ),
    // symbols, a comment, and a name with blanks
    (
        b"aig 3 2 0 1 1\n6\n\x02\x02i1 b 1\r\n\no0 f\nc\nx\n",
        2,
        &[(4, 2)],
        &[Lit(6)],
        b"i0,b 1,",
        b"f,",
    ),
    // gates out of order, with gaps among the variables
    (
        b"aag 9 1 0 1 2 0 0\n4\n9\n8 18 5\n18 4 1\n",
        1,
        &[(2, 1), (4, 3)],
        &[Lit(7)],
        b"i0,",
        b"o0,",
    ),
    // gates after those that read them: the first is of level 2
    (
        b"aag 4 2 0 1 2\n2\n4\n8\n8 6 2\n6 2 4\n",
        2,
        &[(2, 4), (6, 2)],
        &[Lit(8)],
        b"i0,i1,",
        b"o0,",
    ),
    (
        b"aag 5 2 0 1 3\n2\n4\n10\n10 7 9\n8 3 5\n6 2 4\n",
        2,
        &[(3, 5), (2, 4), (9, 7)],
        &[Lit(10)],
        b"i0,i1,",
        b"o0,",
    ),
    // six NAND gates of five inputs, each numbered after its operands
    (
        b"aig 11 5 0 2 6\n23\n21\n\x04\x03\x08\x01\x03\x03\x05\x0b\x03\x02\x03\x02",
        5,
        &[(8, 5), (6, 5), (13, 10), (13, 2), (17, 15), (19, 17)],
        &[Lit(23), Lit(21)],
        b"i0,i1,i2,i3,i4,",
        b"o0,o1,",
    ),
    // blanks between the words, a carriage return, leading zeros, and no line feed at the end
    (
        b"aag  \t3 2\t 0 1   1 \r\n 2\r\n\t4\n0006 \n6  2 \t4",
        2,
        &[(2, 4)],
        &[Lit(6)],
        b"i0,i1,",
        b"o0,",
    ),
    // constants, and a delta of two bytes
    (
        b"aag 0 0 0 2 0\n0\n1\n",
        0,
        &[],
        &[Lit(0), Lit(1)],
        b"",
        b"o0,o1,",
    ),
    (b"aig 1 0 0 0 1\n\x82\x00\x00", 0, &[(0, 0)], &[], b"", b""),
];

// Whether a file is read as its row says.
fn reads_as(alloc: Global, file: &File) -> Result<bool, NetStop> {
    let (text, inputs, gates, outputs, input_names, output_names) = *file;
    let named = read(alloc, text)?;
    let is_net = (named.graph.inputs() == inputs) & is_graph(&named.graph, gates, outputs);
    Ok(is_net & has_names(alloc, &named, input_names, output_names)?)
}

#[test]
fn reads_netlists(rt: HostRuntime) -> Result<(), Fail> {
    for file in NETLISTS.iter() {
        assert!(rt; reads_as(rt.alloc(), file)?, "at {:?}", file.0);
    }
    Ok(())
}

// A file, and the names of its inputs and of its outputs.
type Names = (&'static [u8], &'static [u8], &'static [u8]);

// Names of ports in the symbols of either form, and beside comments.
static NAMES: [Names; 7] = [
    // a name with a blank, and a comment
    (
        b"aag 1 1 0 1 0\n2\n2\ni0 in put\no0 q\nc\nx",
        b"in put,",
        b"q,",
    ),
    // a name that begins with a blank; of two carriage returns at the end only the last goes
    (b"aag 1 1 0 1 0\n2\n2\ni0  x\no0 q\r\r\n", b" x,", b"q\r,"),
    // blank lines among the symbols, and no line feed at the end
    (b"aag 1 1 0 1 0\n2\n2\n\ni0 a\n \t\r\n\no0\tb", b"a,", b"b,"),
    // outputs first, positions with leading zeros, and ports that have no name
    (b"aag 2 2 0 1 0\n2\n4\n2\no00 f\ni01 i0\n", b"i0,i0,", b"f,"),
    // names of the binary form
    (
        b"aig 3 2 0 1 1\n6\n\x02\x02i0 a\ni1 b\no0 c\n",
        b"a,b,",
        b"c,",
    ),
    // whatever begins with `c` opens the comment
    (b"aag 1 1 0 1 0\n2\n2\ncomment\ni9 x\n", b"i0,", b"o0,"),
    // bytes of no alphabet
    (b"aag 1 1 0 1 0\n2\n2\ni0 \xff\x00\n", b"\xff\x00,", b"o0,"),
];

// Whether a file gives its ports the names of its row.
fn gives_names(alloc: Global, file: &Names) -> Result<bool, NetStop> {
    let (text, input_names, output_names) = *file;
    let named = read(alloc, text)?;
    Ok(has_names(alloc, &named, input_names, output_names)?)
}

#[test]
fn reads_names(rt: HostRuntime) -> Result<(), Fail> {
    for file in NAMES.iter() {
        assert!(rt; gives_names(rt.alloc(), file)?, "at {:?}", file.0);
    }
    Ok(())
}

// Files that are refused, by what is wrong with them first.
static FAULTS: [FaultRow; 65] = [
    // no header of either form
    (b"", NetKind::Header, 0),
    (b"aag", NetKind::Header, 0),
    (b"aag ", NetKind::Header, 0),
    (b" aag 0 0 0 0 0\n", NetKind::Header, 0),
    (b"aag\t0 0 0 0 0\n", NetKind::Header, 0),
    (b"aig 0 0 0 0\n", NetKind::Header, 0),
    (b"aag 0 0 0 0 0 0 0 0 0 0\n", NetKind::Header, 0),
    (b"aag 0 0 0 0 -0\n", NetKind::Header, 0),
    (b"aag 0 0 0 0 0\0\n", NetKind::Header, 0),
    (b"aag 4294967296 0 0 0 0\n", NetKind::Header, 0),
    // variables too few, or in the binary form too many
    (b"aag 1 1 0 0 1\n2\n4 2 2\n", NetKind::Header, 0),
    (b"aag 1 1 1 0 0\n2\n", NetKind::Header, 0),
    (b"aig 4 2 0 1 1\n6\n\x02\x02", NetKind::Header, 0),
    (b"aig 0 0 0 0 1\n", NetKind::Header, 0),
    // latches come before properties, and these before limits
    (b"aag 1 0 1 0 0\n2 3\n", NetKind::Sequential, 0),
    (b"aag 1 0 1 0 0 1\n2 3\n2\n", NetKind::Sequential, 0),
    (b"aag 0 0 0 0 0 1\n0\n", NetKind::Property, 0),
    (b"aag 4097 4097 0 0 0 0 0 0 1\n", NetKind::Property, 0),
    (b"aag 4097 4097 0 0 0\n", NetKind::TooManyInputs, 0),
    (b"aag 4097 4097 0 4097 0\n", NetKind::TooManyInputs, 0),
    (b"aag 0 0 0 4097 0\n", NetKind::TooManyOutputs, 0),
    (b"aag 4000001 0 0 0 4000001\n", NetKind::TooManyGates, 0),
    (b"aag 16000001 0 0 0 0\n", NetKind::TooManyGates, 0),
    (b"aag 4294967295 0 0 0 0\n", NetKind::TooManyGates, 0),
    // lines that aren't what the header announces
    (b"aag 0 0 0 1 0\nx\n", NetKind::BadLine, 14),
    (b"aag 0 0 0 1 0\n\n", NetKind::BadLine, 14),
    (b"aag 1 1 0 1 0\n2\n2 2\n", NetKind::BadLine, 16),
    (b"aag 1 1 0 0 0\n+2\n", NetKind::BadLine, 14),
    (b"aag 1 0 0 0 1\n2 0\n", NetKind::BadLine, 14),
    (b"aag 1 0 0 0 1\n2 0 0 0\n", NetKind::BadLine, 14),
    (b"aag 1 0 0 1 0\n4\n", NetKind::BadLiteral, 14),
    (b"aag 1 1 0 0 0\n0\n", NetKind::BadLiteral, 14),
    (b"aag 1 1 0 0 0\n3\n", NetKind::BadLiteral, 14),
    (b"aag 1 0 0 0 1\n3 0 0\n", NetKind::BadLiteral, 14),
    (b"aag 1 0 0 0 1\n1 0 0\n", NetKind::BadLiteral, 14),
    (b"aag 1 0 0 0 1\n2 0 4\n", NetKind::BadLiteral, 14),
    (b"aag 1 1 0 0 0\n4294967298\n", NetKind::BadLiteral, 14),
    (
        b"aag 1 1 0 0 0\n18446744073709551618\n",
        NetKind::BadLiteral,
        14,
    ),
    (b"aag 2 2 0 0 0\n2\n2\n", NetKind::Redefined, 16),
    (b"aag 2 1 0 0 1\n2\n2 0 0\n", NetKind::Redefined, 16),
    (b"aag 0 0 0 1 0\n", NetKind::Truncated, 14),
    (b"aag 1 1 0 1 0\n2\n", NetKind::Truncated, 16),
    (b"aag 1 1 0 1 0\n2", NetKind::Truncated, 15),
    (b"aig 1 1 0 2 0\n2\n", NetKind::Truncated, 16),
    // a literal that is bad stands before a variable that is defined twice, and both before one of no line
    (b"aag 2 1 0 0 1\n2\n2 0 9\n", NetKind::BadLiteral, 16),
    (b"aag 3 2 0 1 0\n2\n4\n6\n", NetKind::Undefined, 18),
    (b"aag 1 0 0 1 0\n2\n", NetKind::Undefined, 14),
    (b"aag 3 2 0 1 1\n2\n2\n7\n6 2 4\n", NetKind::Redefined, 16),
    (b"aag 3 1 0 0 1\n2\n6 2 4\n", NetKind::Undefined, 16),
    // deltas that are cut off, too long or out of range
    (b"aig 3 2 0 1 1\n6\n", NetKind::Delta, 16),
    (b"aig 3 2 0 1 1\n6\n\x82", NetKind::Delta, 16),
    (b"aig 3 2 0 1 1\n6\n\x02", NetKind::Delta, 17),
    (b"aig 3 2 0 1 1\n6\n\x07\x00", NetKind::Delta, 16),
    (b"aig 3 2 0 1 1\n6\n\x00\x00", NetKind::Delta, 16),
    (b"aig 3 2 0 1 1\n6\n\x02\x05", NetKind::Delta, 17),
    (b"aig 1 0 0 0 1\n\x82\x82\x82\x82\x82", NetKind::Delta, 14),
    (
        b"aig 1 0 0 0 1\n\x82\x80\x80\x80\x80\x00\x00",
        NetKind::Delta,
        14,
    ),
    // cycles, at the first definition that is on one or above one
    (
        b"aag 4 2 0 1 2\n2\n4\n8\n8 6 2\n6 8 4\n",
        NetKind::Cycle,
        20,
    ),
    (b"aag 3 1 0 0 2\n2\n4 2 2\n6 6 2\n", NetKind::Cycle, 22),
    // symbols
    (b"aag 1 1 0 1 0\n2\n2\ni1 x\n", NetKind::BadSymbol, 18),
    (b"aag 1 1 0 0 0\n2\ni0 x\ni0 y\n", NetKind::BadSymbol, 21),
    (b"aag 1 1 0 0 0\n2\ni0 \n", NetKind::BadSymbol, 16),
    (b"aag 1 1 0 0 0\n2\ni0\n", NetKind::BadSymbol, 16),
    (b"aag 1 1 0 0 0\n2\n i0 x\n", NetKind::BadSymbol, 16),
    (
        b"aig 3 2 0 1 1\n6\n\x02\x02\no1 x\n",
        NetKind::BadSymbol,
        19,
    ),
];

#[test]
fn finds_the_first_fault(rt: HostRuntime) {
    expect_faults(&rt, rt.alloc(), &FAULTS, read_text)
}
