//! Texts that are written out by hand.

ghost use Rattle.std.specs.Prelude.{◌<◌, ◌↔◌, All, IsTrue};
ghost use Rattle.port_report.specs.Infos.{IsInRange};

use crate::named_circuits::named;
use claim_core::{OutputInfo, Sym, Unate};
use items::Items;
use net_core::Matching;
use net_file::Named;
use port_report::{put_info, put_match, put_rejected};
use samples::{SampleFault, graph, matching};
use std::alloc::{AllocError, Global};
use std::test::Fail;

/// A circuit without gates, whose ports have these names, at most nine of each kind.
fn circuit(alloc: Global, inputs: &[&[u8]], outputs: &[&[u8]]) -> Result<Named, SampleFault> {
    if inputs.len() > 9 {
        return Err(SampleFault::TooLarge);
    }
    let zeros = vec![in alloc; 0; outputs.len()]?;
    let wires = graph(alloc, inputs.len() as u32, &[], &zeros)?;
    Ok(named(alloc, wires, inputs, outputs)?)
}

// Whether the port table is written as this text, after a byte that stands there before.
fn is_table_written(
    alloc: Global,
    first: &Named,
    second: &Named,
    matching: &Matching,
    text: &[u8],
) -> Result<bool, AllocError> {
    let outputs = first.graph.outputs().len();
    if outputs > 9 || !matching.check_shape(first.graph.inputs(), outputs as u32) {
        return Ok(false);
    }
    if second.graph.inputs() != first.graph.inputs() || second.graph.outputs().len() != outputs {
        return Ok(false);
    }
    let mut out = b">".to_vec(alloc)?;
    put_match(first, second, matching, &mut out)?;
    Ok(out.as_slice() == text)
}

// Whether the table of a matching with these entries is the text.
fn is_written(
    alloc: Global,
    first: &Named,
    second: &Named,
    inputs: &[(u32, bool)],
    outputs: &[(u32, bool)],
    text: &[u8],
) -> Result<bool, AllocError> {
    let table = matching(alloc, inputs, outputs)?;
    is_table_written(alloc, first, second, &table, text)
}

fn first(alloc: Global) -> Result<Named, SampleFault> {
    circuit(alloc, &[b"a b", b"\xff"], &[b""])
}

fn second(alloc: Global) -> Result<Named, SampleFault> {
    circuit(alloc, &[b"i0", b"= not "], &[b"y"])
}

// Whether the port table of both circuits is written well, in either direction.
fn are_written(alloc: Global, first: &Named, second: &Named) -> Result<bool, AllocError> {
    let inputs = [(1, true), (0, false)];
    let outputs = [(0, true)];
    let forth = is_written(
        alloc,
        first,
        second,
        inputs.as_slice(),
        outputs.as_slice(),
        b">input 0 a b = not input 1 = not \ninput 1 \xff = input 0 i0\noutput 0  = not output 0 y\n",
    )?;
    let back = is_written(
        alloc,
        second,
        first,
        inputs.as_slice(),
        outputs.as_slice(),
        b">input 0 i0 = not input 1 \xff\ninput 1 = not  = input 0 a b\noutput 0 y = not output 0 \n",
    )?;
    Ok(forth & back)
}

#[test]
fn writes_port_tables(rt: HostRuntime) -> Result<(), Fail> {
    let first = first(rt.alloc())?;
    let second = second(rt.alloc())?;
    assert!(rt; are_written(rt.alloc(), &first, &second)?);
    Ok(())
}

#[test]
fn writes_nothing_of_no_ports(rt: HostRuntime) -> Result<(), Fail> {
    let empty = circuit(rt.alloc(), &[], &[])?;
    assert!(rt; is_written(rt.alloc(), &empty, &empty, &[], &[], b">")?);
    Ok(())
}

fn put_two_rejected(out: &mut Vec<u8>) -> Result<(), AllocError> {
    put_rejected(7, "refutation", out)?;
    put_rejected(u64::MAX, "id", out)
}

#[test]
fn writes_rejected_lines(rt: HostRuntime) -> Result<(), Fail> {
    let mut out = Vec::new(rt.alloc());
    put_two_rejected(&mut out)?;
    assert_eq!(rt;
        out.as_slice(),
        b"rejected line 7 refutation\nrejected line 18446744073709551615 id\n".as_slice()
    );
    Ok(())
}

fn is_in_range(inputs: u32, row: &OutputInfo) -> bool
    ensures { IsTrue result ↔ IsInRange inputs row.now }
{
    row.support.iter().all(|entry| entry.0 < inputs)
}

fn are_in_range(inputs: u32, rows: &[OutputInfo]) -> bool
    ensures { IsTrue result ↔ All (IsInRange inputs) rows.now }
{
    rows.iter().all(|row| is_in_range(inputs, row))
}

fn put_row(
    alloc: Global,
    support: &[(u32, Unate)],
    pairs: &[(u32, u32, Sym)],
    rows: &mut Vec<OutputInfo>,
) -> Result<(), Fail> {
    let support = Items::from_slice(alloc, support)?;
    let pairs = Items::from_slice(alloc, pairs)?;
    rows.push(OutputInfo { support, pairs })?;
    Ok(())
}

fn put_rows(alloc: Global, rows: &mut Vec<OutputInfo>) -> Result<(), Fail> {
    put_row(
        alloc,
        &[(0, Unate::Negative), (1, Unate::Negative)],
        &[(0, 1, Sym::Symmetric)],
        rows,
    )?;
    put_row(alloc, &[], &[], rows)?;
    put_row(
        alloc,
        &[(0, Unate::Positive), (1, Unate::Binate)],
        &[(0, 1, Sym::Skew), (0, 1, Sym::Both)],
        rows,
    )?;
    put_row(alloc, &[], &[], rows)
}

// Whether the rows are written as this text, after a byte that stands there before.
fn are_told(
    alloc: Global,
    circuit: &Named,
    rows: &[OutputInfo],
    text: &[u8],
) -> Result<bool, AllocError> {
    if rows.len() != circuit.graph.outputs().len() {
        return Ok(false);
    }
    if !are_in_range(circuit.graph.inputs(), rows) {
        return Ok(false);
    }
    let mut out = b">".to_vec(alloc)?;
    put_info(circuit, rows, &mut out)?;
    Ok(out.as_slice() == text)
}

fn four_outputs(alloc: Global) -> Result<Named, SampleFault> {
    let gate = graph(alloc, 2, &[(2, 4)], &[7, 1, 6, 0])?;
    Ok(named(alloc, gate, &[b"a", b"b"], &[b"y", b"one", b"z", b"zero"])?)
}

#[test]
fn writes_what_is_known_of_outputs(rt: HostRuntime) -> Result<(), Fail> {
    let circuit = four_outputs(rt.alloc())?;
    let mut rows = Vec::new(rt.alloc());
    put_rows(rt.alloc(), &mut rows)?;
    assert!(rt; are_told(rt.alloc(), &circuit, &rows, FOUR_OUTPUTS.as_bytes())?);
    Ok(())
}

/// What is reported of `four_outputs`.
const FOUR_OUTPUTS: &str = "\
>inputs 2
outputs 4
gates 1
output 0 y support 2
input 0 a negative
input 1 b negative
pair 0 1 symmetric
output 1 one support 0
output 2 z support 2
input 0 a positive
input 1 b binate
pair 0 1 skew
pair 0 1 both
output 3 zero support 0
";
