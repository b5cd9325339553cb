//! Netlists that are reduced: the texts, as worked out by hand.

use aiger_reader::read;
use net_file::NetStop;
use net_print::put_aag;
use std::alloc::Global;
use std::test::Fail;
use sweep::reduce;

/// A netlist that is reduced.
struct Row {
    netlist: &'static [u8],
    allowance: u64,
    /// What it is then.
    reduced: &'static [u8],
    /// Whether all its signals were compared.
    is_whole: bool,
}

/// An AND, and the AND of that with one of its inputs, which is the same; the same with nothing allowed; an AND, and the
/// AND of that with the complement of one of its inputs, which is never true; and an XOR and its complement, each of
/// other gates.
static ROWS: [Row; 4] = [
    Row {
        netlist: b"aag 4 2 0 2 2\n2\n4\n6\n8\n6 2 4\n8 6 2\n",
        allowance: 1_000_000,
        reduced: b"aag 3 2 0 2 1\n2\n4\n6\n6\n6 2 4\ni0 i0\ni1 i1\no0 o0\no1 o1\n",
        is_whole: true,
    },
    Row {
        netlist: b"aag 4 2 0 2 2\n2\n4\n6\n8\n6 2 4\n8 6 2\n",
        allowance: 0,
        reduced: b"aag 4 2 0 2 2\n2\n4\n6\n8\n6 2 4\n8 6 2\ni0 i0\ni1 i1\no0 o0\no1 o1\n",
        is_whole: false,
    },
    Row {
        netlist: b"aag 4 2 0 1 2\n2\n4\n8\n6 2 4\n8 6 3\n",
        allowance: 1_000_000,
        reduced: b"aag 2 2 0 1 0\n2\n4\n0\ni0 i0\ni1 i1\no0 o0\n",
        is_whole: true,
    },
    Row {
        netlist: b"aag 8 2 0 2 6\n2\n4\n10\n16\n6 2 4\n8 3 5\n10 7 9\n12 2 5\n14 3 4\n16 13 15\n",
        allowance: 1_000_000,
        reduced: b"aag 5 2 0 2 3\n2\n4\n10\n11\n6 2 4\n8 3 5\n10 7 9\ni0 i0\ni1 i1\no0 o0\no1 o1\n",
        is_whole: true,
    },
];

// Whether a netlist is reduced to the text.
fn is_reduced(alloc: Global, row: &Row) -> Result<bool, NetStop> {
    let netlist = read(alloc, row.netlist)?;
    let swept = reduce(alloc, &netlist, row.allowance, 1)?;
    let mut text = Vec::new(alloc);
    put_aag(&swept.net, &mut text)?;
    Ok((text.as_slice() == row.reduced) & (swept.left.is_none() == row.is_whole))
}

#[test]
fn reduces_netlists(rt: HostRuntime) -> Result<(), Fail> {
    for row in ROWS.iter() {
        assert!(rt; is_reduced(rt.alloc(), row)?);
    }
    Ok(())
}
