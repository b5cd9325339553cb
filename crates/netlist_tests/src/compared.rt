//! What the tests compare of netlists.

use items::Items;
use net_core::{Gate, Graph, Lit};
use net_file::{Name, Named, NetFault, NetKind, NetStop};
use std::alloc::{AllocError, Global};
use std::process::Abort;

/// Whether the gates have these operands.
pub(crate) fn have_operands(gates: &[Gate], operands: &[(u32, u32)]) -> bool {
    for (gate, (a, b)) in gates.iter().zip(operands.iter()) {
        if (gate.a != Lit(*a)) | (gate.b != Lit(*b)) {
            return false;
        }
    }
    gates.len() == operands.len()
}

/// Whether a graph has gates with these operands, and these outputs.
pub(crate) fn is_graph(graph: &Graph, operands: &[(u32, u32)], outputs: &[Lit]) -> bool {
    have_operands(graph.gates(), operands) & (graph.outputs() == outputs)
}

/// Whether the ports have these names, written one after another, each with a comma after it.
pub(crate) fn has_names(
    alloc: Global,
    named: &Named,
    inputs: &[u8],
    outputs: &[u8],
) -> Result<bool, AllocError> {
    let has_inputs = are_names(alloc, &named.input_names, inputs)?;
    let has_outputs = are_names(alloc, &named.output_names, outputs)?;
    Ok(has_inputs & has_outputs)
}

fn are_names(alloc: Global, names: &Items<Name>, text: &[u8]) -> Result<bool, AllocError> {
    let mut joined = Vec::new(alloc);
    put_names(names, &mut joined)?;
    Ok(joined.as_slice() == text)
}

fn put_names(names: &Items<Name>, text: &mut Vec<u8>) -> Result<(), AllocError> {
    for name in names.iter() {
        text.extend_from_slice(name.as_slice())?;
        text.extend_from_slice(b",")?;
    }
    Ok(())
}

/// A file, its first fault, and where that stands.
pub(crate) type FaultRow = (&'static [u8], NetKind, u64);

/// Reads each file, and expects its fault.
pub(crate) fn expect_faults<F: Fn(Global, &[u8]) -> Result<Named, NetStop>>(
    rt: &impl Abort,
    alloc: Global,
    rows: &[FaultRow],
    read: F,
)
    requires { F.IsAlwaysCallable read }
{
    for (text, kind, at) in rows {
        let stop = NetStop::Fault(NetFault {
            kind: *kind,
            at: *at,
        });
        assert_eq!(rt; read(alloc, *text).err(), Some(stop), "at {text:?}");
    }
}
