//! Files whose netlists and faults are worked out by hand.

mod files;

use crate::compared::is_graph;
use blif_reader::read;
use net_core::Lit;
use net_file::{Named, NetStop};
use std::alloc::Global;
use std::test::Fail;

/// Reads a text, which no test makes longer than a file may be.
pub(crate) fn read_text(alloc: Global, text: &[u8]) -> Result<Named, NetStop> {
    if text.len() > 67_108_864 {
        return Err(NetStop::Memory);
    }
    read(alloc, text)
}

#[test]
fn reads_rows_of_the_on_set(rt: HostRuntime) -> Result<(), Fail> {
    // y is (a AND NOT c) OR b: signals 1 to 3 are a, b and c
    let named = read_text(
        rt.alloc(),
        b".model m of n\n.inputs a b\n.inputs c\r\n.outputs y a\n.names a b c y\n1-0 1\n-1- 1\n.cname n\n.end all\n",
    )?;
    assert!(rt; is_graph(&named.graph, &[(2, 7), (9, 5)], &[Lit(11), Lit(2)]));
    Ok(())
}
