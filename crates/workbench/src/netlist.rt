//! Netlists from files.

ghost use Rattle.std.specs.Prelude.{◌≤◌, length};

use anyhow::{Result, ensure};
use net_core::Graph;
use net_file::{Named, NetStop};
use std::alloc::Global;
use std::fs;
use std::rt::Files;

/// The most bytes that a netlist may have.
const MOST_BYTES: usize = 67_108_864;

/// The netlists of two files.
pub(crate) fn read_pair<R: Files + AllocGlobal>(
    rt: &R,
    first: &str,
    second: &str,
) -> Result<(Graph, Graph)> {
    let first = read(rt, first)?;
    Ok((first, read(rt, second)?))
}

/// The netlist of a file.
pub(crate) fn read<R: Files + AllocGlobal>(rt: &R, name: &str) -> Result<Graph> {
    let bytes = fs::read(rt, name)?;
    ensure!(bytes.len() <= MOST_BYTES, "the file is too long");
    let Named {
        graph,
        input_names: _,
        output_names: _,
    } = read_circuit(rt.alloc(), &bytes)?;
    Ok(graph)
}

/// The netlist that bytes are: AIGER where the first four are `aag ` or `aig `, else BLIF.
fn read_circuit(alloc: Global, bytes: &[u8]) -> std::result::Result<Named, NetStop>
    requires { length bytes.now ≤ 67108864 }
{
    if bytes.starts_with(b"aag ") || bytes.starts_with(b"aig ") {
        aiger_reader::read(alloc, bytes)
    } else {
        blif_reader::read(alloc, bytes)
    }
}
