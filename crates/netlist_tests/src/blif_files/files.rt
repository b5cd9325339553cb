//! Whole tables of files, with the truth tables of their netlists.

use super::read_text;
use crate::compared::{FaultRow, expect_faults, has_names};
use net_core::{Graph, lit_value};
use net_file::{NetFault, NetKind, NetStop};
use std::alloc::{AllocError, Global};
use std::test::Fail;
use text_core::put_decimal;

/// A file, the names of its inputs and of its outputs, how many gates its graph has, and its truth table.
type FileRow = (
    &'static [u8],
    &'static [u8],
    &'static [u8],
    usize,
    &'static [u8],
);

/// Netlists in BLIF, in all forms of lines and covers.
static FILES: [FileRow; 16] = [
    // NAND by the off-set and by the on-set
    (
        b".model nand\n.inputs a b\n.outputs y\n.names a b y\n11 0\n.end\n",
        b"a,b,",
        b"y,",
        1,
        b"1110",
    ),
    (
        b".inputs a b\n.outputs y\n.names a b y\n0- 1\n-0 1\n",
        b"a,b,",
        b"y,",
        1,
        b"1110",
    ),
    // exclusive or, and its complement by the same rows
    (
        b".inputs a b\n.outputs y\n.names a b y\n10 1\n01 1\n",
        b"a,b,",
        b"y,",
        3,
        b"0110",
    ),
    (
        b".inputs a b\n.outputs y\n.names a b y\n10 0\n01 0\n",
        b"a,b,",
        b"y,",
        3,
        b"1001",
    ),
    // a row without literals fits every vector; without rows a cover is false
    (
        b".inputs a b\n.outputs y\n.names a b y\n-- 1\n",
        b"a,b,",
        b"y,",
        0,
        b"1111",
    ),
    (
        b".inputs a b\n.outputs y\n.names a b y\n-- 0\n",
        b"a,b,",
        b"y,",
        0,
        b"0000",
    ),
    (b".inputs\n.outputs y\n.names y\n", b"", b"y,", 0, b"0"),
    (b".inputs\n.outputs y\n.names y\n1\n", b"", b"y,", 0, b"1"),
    (b".inputs\n.outputs y\n.names y\n0\n", b"", b"y,", 0, b"0"),
    // an operand twice, and a cover that stands before what it names and before the ports
    (
        b".names a a y\n10 1\n.inputs a\n.outputs y\n",
        b"a,",
        b"y,",
        1,
        b"00",
    ),
    (
        b".names t y\n0 1\n.names a t\n0 1\n.inputs a\n.outputs y\n",
        b"a,",
        b"y,",
        0,
        b"01",
    ),
    // lines that go on, comments, blanks, ports on several lines, an output that is an input
    (
        b".names a b y\n11 0\n.names one\n1\n.names zero\n.inputs a \\ # more\nb\n.outputs y one zero\n",
        b"a,b,",
        b"y,one,zero,",
        1,
        b"110110110010",
    ),
    (
        b"# head\n\n .inputs a # x \\\r\n.inputs b\r\n.outputs b \\\n# nothing\n.outputs a\n",
        b"a,b,",
        b"b,a,",
        0,
        b"00011011",
    ),
    (b".inputs a\n.outputs a\\", b"a,", b"a,", 0, b"01"),
    // what is passed over, and words after `.end`
    (
        b".inputs a\n.outputs y\n.names $false\n.names a y\n1 1\n.cname n\n.area 3\n.end x\n# rest\n",
        b"a,",
        b"y,",
        0,
        b"01",
    ),
    // exactly two of four
    (
        b".inputs a b c d\n.outputs y\n.names a b c d y\n1100 1\n1010 1\n1001 1\n0110 1\n0101 1\n0011 1\n",
        b"a,b,c,d,",
        b"y,",
        23,
        b"0001011001101000",
    ),
];

/// Files that are refused, by what is wrong with them first.
static FAULTS: [FaultRow; 42] = [
    (b"", NetKind::NoPortLine, 0),
    (b".inputs a\n", NetKind::NoPortLine, 10),
    (b".outputs", NetKind::NoPortLine, 8),
    // lines
    (b".gate nand2 a=x\n", NetKind::Directive, 0),
    (b".names\n", NetKind::Directive, 0),
    (b".end\n x\n", NetKind::Directive, 6),
    (b".end\n.area 3\n", NetKind::Directive, 5),
    (b".latch x y\n", NetKind::Latch, 0),
    (b".exdc\n", NetKind::DontCare, 0),
    (b".model m\n.model n\n", NetKind::SecondModel, 9),
    (b".end\n.model m\n", NetKind::SecondModel, 5),
    // rows
    (b"1 1\n", NetKind::RowOutside, 0),
    (b".names a y\n.area 3\n1 1\n", NetKind::RowOutside, 19),
    (b".names a y\n1\n", NetKind::RowWidth, 11),
    (b".names a y\n11 1\n", NetKind::RowWidth, 11),
    (b".names a y\n1 11\n", NetKind::RowWidth, 11),
    (b".names a y\n1 1 1\n", NetKind::RowWidth, 11),
    (b".names y\n1 1\n", NetKind::RowWidth, 9),
    (b".names a y\n2 1\n", NetKind::RowChar, 11),
    (b".names a y\n1 -\n", NetKind::RowChar, 11),
    (b".names a y\n \\\n- 1\n0 0\n", NetKind::MixedCover, 18),
    (
        b".inputs a\n.outputs y\n.names a y\n1 1\n0 0\n",
        NetKind::MixedCover,
        36,
    ),
    // a line is refused before a name, wherever it stands
    (b".inputs a a\n.outputs a\n1 1\n", NetKind::RowOutside, 23),
    // names
    (b".inputs a a\n.outputs a\n", NetKind::DuplicatePort, 10),
    (b".inputs a\n.outputs b b\n", NetKind::DuplicatePort, 21),
    (
        b".inputs a\n.outputs a\n.names a\n",
        NetKind::NameRedefined,
        28,
    ),
    (
        b".names a y\n.names a y\n.inputs a\n.outputs y\n",
        NetKind::NameRedefined,
        20,
    ),
    (
        b".names a\n.inputs a\n.outputs a\n",
        NetKind::NameRedefined,
        7,
    ),
    (
        b".inputs a\n.outputs y\n.names a b y\n11 1\n",
        NetKind::NameUndefined,
        30,
    ),
    (b".inputs a\n.outputs y\n", NetKind::NameUndefined, 19),
    // what is defined twice is named before what isn't defined
    (
        b".inputs a\n.outputs z\n.names a y\n.names y\n",
        NetKind::NameRedefined,
        39,
    ),
    // cycles, at the first definition on one or above one
    (
        b".inputs a\n.outputs y\n.names a y y\n11 1\n",
        NetKind::CoverCycle,
        21,
    ),
    (
        b".inputs a\n.outputs y\n.names a t\n.names y z\n.names z y\n",
        NetKind::CoverCycle,
        32,
    ),
    (
        b".inputs a\n.outputs y\n.names a y y\n1- 1\n",
        NetKind::CoverCycle,
        21,
    ),
    (b".inputs a\n .gate and\n", NetKind::Directive, 11),
    (b".names # y\n", NetKind::Directive, 0),
    (b".inputs\n.end\n1 1\n", NetKind::Directive, 13),
    (b"# nothing\n.exdc\n", NetKind::DontCare, 10),
    (
        b".outputs y\n.inputs a b\n.inputs c a\n",
        NetKind::DuplicatePort,
        33,
    ),
    (b".outputs y y\n.inputs a\n", NetKind::DuplicatePort, 11),
    (
        b".names a\n.names b\n.outputs\n.inputs a\n",
        NetKind::NameRedefined,
        7,
    ),
    (
        b".inputs\n.outputs\n.names y\n.names y\n",
        NetKind::NameRedefined,
        33,
    ),
];

// Adds the bits of the outputs on a vector.
fn put_outputs(
    alloc: Global,
    graph: &Graph,
    vector: &[bool],
    table: &mut Vec<u8>,
) -> Result<(), AllocError> {
    if vector.len() != graph.inputs() as usize {
        return Ok(());
    }
    let mut values = vec![in alloc; false; graph.signals()]?;
    graph.eval_into(vector, &mut values);
    for output in graph.outputs().iter() {
        let bit = if lit_value(&values, *output) {
            b'1'
        } else {
            b'0'
        };
        table.push(bit)?;
    }
    Ok(())
}

// Adds the bits of all outputs on each vector, where input i is bit i of the vector's number.
fn put_table(alloc: Global, graph: &Graph, table: &mut Vec<u8>) -> Result<(), AllocError> {
    let inputs = graph.inputs().min(12);
    for code in 0..1u32 << inputs {
        let vector: Vec<bool> = (0..inputs)
            .map(|input| code >> input & 1 == 1)
            .collect(alloc)?;
        put_outputs(alloc, graph, &vector, table)?;
    }
    Ok(())
}

fn has_table(alloc: Global, graph: &Graph, bits: &[u8]) -> Result<bool, AllocError> {
    let mut table = Vec::new(alloc);
    put_table(alloc, graph, &mut table)?;
    Ok(table.as_slice() == bits)
}

// Whether a file is read as its row says.
fn reads_as(alloc: Global, file: &FileRow) -> Result<bool, NetStop> {
    let (text, inputs, outputs, gates, table) = *file;
    let named = read_text(alloc, text)?;
    let is_graph = (named.graph.gates().len() == gates) & has_table(alloc, &named.graph, table)?;
    Ok(is_graph & has_names(alloc, &named, inputs, outputs)?)
}

#[test]
fn reads_covers_of_either_kind(rt: HostRuntime) -> Result<(), Fail> {
    for file in FILES.iter() {
        assert!(rt; reads_as(rt.alloc(), file)?, "at {:?}", file.0);
    }
    Ok(())
}

#[test]
fn names_the_first_fault(rt: HostRuntime) {
    expect_faults(&rt, rt.alloc(), &FAULTS, read_text)
}

// A line of `.inputs` or `.outputs` with n names of one letter and a number.
fn put_ports(word: &[u8], count: u64, out: &mut Vec<u8>) -> Result<(), AllocError> {
    out.extend_from_slice(word)?;
    for port in 0..count {
        out.extend_from_slice(b" i")?;
        put_decimal(port, out)?;
    }
    out.extend_from_slice(b"\n")
}

// Adds lines of n inputs and outputs, and covers after them.
fn put_file(inputs: u64, outputs: u64, covers: &[u8], out: &mut Vec<u8>) -> Result<(), AllocError> {
    put_ports(b".inputs", inputs, out)?;
    put_ports(b".outputs", outputs, out)?;
    out.extend_from_slice(covers)
}

// Why such a file isn't read, if it isn't.
fn stop_by_ports(
    alloc: Global,
    inputs: u64,
    outputs: u64,
    covers: &[u8],
) -> Result<Option<NetStop>, AllocError> {
    let mut text = Vec::new(alloc);
    put_file(inputs, outputs, covers, &mut text)?;
    Ok(read_text(alloc, &text).err())
}

#[test]
fn counts_ports(rt: HostRuntime) -> Result<(), Fail> {
    // ten names of two bytes, ninety of three, nine hundred of four and 3,096 of five, each with a blank before it
    let names = 10 * 3 + 90 * 4 + 900 * 5 + 3_096 * 6;
    let last_output = 8 + names + 9 + names;
    let rows: [(u64, u64, &[u8], Option<(NetKind, u64)>); 6] = [
        (4_096, 4_096, b"", None),
        (4_096, 4_096, b".names i4096\n", None),
        (4_097, 4_097, b"", Some((NetKind::TooManyInputs, 8 + names))),
        (
            4_096,
            4_097,
            b"",
            Some((NetKind::NameUndefined, last_output)),
        ),
        // the output beyond the limit is defined after the ports
        (
            4_096,
            4_097,
            b".names i4096\n",
            Some((NetKind::TooManyOutputs, last_output)),
        ),
        (
            4_096,
            4_098,
            b".names i4096\n.names i4097\n",
            Some((NetKind::TooManyOutputs, last_output)),
        ),
    ];
    for (inputs, outputs, covers, fault) in rows {
        let stop = fault.map(|(kind, at)| NetStop::Fault(NetFault { kind, at }));
        let found = stop_by_ports(rt.alloc(), inputs, outputs, covers)?;
        assert_eq!(rt; found, stop, "at {inputs} {outputs} {covers:?}");
    }
    Ok(())
}

// The cover of a signal y by rows that have a literal for each operand, which is a each time.
fn put_cover(
    alloc: Global,
    operands: usize,
    rows: usize,
    out: &mut Vec<u8>,
) -> Result<(), AllocError> {
    let literals = vec![in alloc; b'1'; operands]?;
    put_operands(operands, out)?;
    for _ in 0..rows {
        out.extend_from_slice(&literals)?;
        out.extend_from_slice(b" 1\n")?;
    }
    Ok(())
}

fn put_operands(count: usize, out: &mut Vec<u8>) -> Result<(), AllocError> {
    out.extend_from_slice(b".names")?;
    for _ in 0..count {
        out.extend_from_slice(b" a")?;
    }
    out.extend_from_slice(b" y\n")
}

// Adds a file with an output of 4,000,000 gates, and a cover after it.
fn put_gates(alloc: Global, cover: &[u8], out: &mut Vec<u8>) -> Result<(), AllocError> {
    out.extend_from_slice(b".inputs a\n.outputs y\n")?;
    // each row has a gate less than literals, and each row but one a gate that joins it
    put_cover(alloc, 41, 97_561, out)?;
    out.extend_from_slice(cover)
}

// The length of such a file, and how many gates its graph has, or why it isn't read.
fn gates_with(alloc: Global, cover: &[u8]) -> Result<(u64, Result<usize, NetStop>), AllocError> {
    let mut text = Vec::new(alloc);
    put_gates(alloc, cover, &mut text)?;
    let gates = read_text(alloc, &text).map(|named| named.graph.gates().len());
    Ok((text.len() as u64, gates))
}

#[test]
fn counts_gates(rt: HostRuntime) -> Result<(), Fail> {
    let (_, gates) = gates_with(rt.alloc(), b"")?;
    assert_eq!(rt; gates, Ok(4_000_000));
    // one gate more; that no output needs it makes no difference
    let (length, gates) = gates_with(rt.alloc(), b".names a a z\n11 1\n")?;
    let fault = NetFault {
        kind: NetKind::TooManyGates,
        at: length,
    };
    assert_eq!(rt; gates, Err(NetStop::Fault(fault)));
    Ok(())
}
