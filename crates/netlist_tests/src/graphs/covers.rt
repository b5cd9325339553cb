//! Netlists with covers, worked out by hand from the way in which their rows are expanded.

use super::nets::Part::{And, OffSet, OnSet};
use super::nets::{Part, is_ordered_as, net};
use net_core::{Lit, OrderFault, order};
use std::alloc::Global;
use std::test::Fail;

// Whether two inputs, signals 1 and 2, and a cover, signal 3, are put in order as these gates and an output.
fn expands_to(
    alloc: Global,
    cover: Part<'_>,
    gates: &[(u32, u32)],
    output: u32,
) -> Result<bool, Fail> {
    let net = net(alloc, 2, &[cover], &[Lit(6)])?;
    Ok(is_ordered_as(alloc, &net, gates, &[Lit(output)])?)
}

// The names and rows of a cover, whether they are of the on-set, the gates, and the output.
type CoverRow = (
    &'static [u32],
    &'static [&'static str],
    bool,
    &'static [(u32, u32)],
    u32,
);

// Covers of two inputs: of one row, of several, and of none, by the on-set and by the off-set.
static COVERS: [CoverRow; 9] = [
    (&[1, 2], &["11"], true, &[(2, 4)], 6),
    (&[1, 2], &["11"], false, &[(2, 4)], 7),
    (&[2, 2], &["11"], true, &[(4, 4)], 6),
    (&[1, 2], &["1-", "-1"], true, &[(3, 5)], 7),
    (&[1, 2], &["1-", "-1"], false, &[(3, 5)], 6),
    (&[1, 2], &["--"], true, &[], 1),
    (&[1, 2], &["--"], false, &[], 0),
    (&[1, 2], &[], true, &[], 0),
    (&[1, 2], &[], false, &[], 0),
];

// Whether the cover is put in order as its row says. The first gate is signal 3, as the cover was.
fn expands(alloc: Global, row: &CoverRow) -> Result<bool, Fail> {
    let (names, rows, on, gates, output) = *row;
    let cover = if on {
        OnSet(names, rows)
    } else {
        OffSet(names, rows)
    };
    expands_to(alloc, cover, gates, output)
}

#[test]
fn expands_rows_of_two_names(rt: HostRuntime) -> Result<(), Fail> {
    for row in COVERS.iter() {
        assert!(rt; expands(rt.alloc(), row)?, "at {row:?}");
    }
    Ok(())
}

#[test]
fn joins_each_row_after_its_gates(rt: HostRuntime) -> Result<(), Fail> {
    // three inputs, signals 1 to 3; the first row's gates are signals 4 and 5, the second row's is 6, which 7
    // joins to the first, and 8 joins the row without literals to both
    let cover = OnSet(&[1, 2, 3], &["101", "-10", "---"]);
    let net = net(rt.alloc(), 3, &[cover], &[Lit(8), Lit(9)])?;
    let gates = [(2, 5), (8, 6), (4, 7), (11, 13), (14, 0)];
    assert!(rt; is_ordered_as(rt.alloc(), &net, gates.as_slice(), &[Lit(17), Lit(16)])?);
    Ok(())
}

#[test]
fn stands_in_for_literals(rt: HostRuntime) -> Result<(), Fail> {
    // two inputs; signal 3 is the inverse of signal 4, which is an AND, signal 5 is the inverse of input 0,
    // and signal 6 is an AND that reads both
    let not_later = OnSet(&[4], &["0"]);
    let not_input = OffSet(&[1], &["1"]);
    let parts = [not_later, And(2, 4), not_input, And(6, 11)];
    let outputs = [Lit(6), Lit(9), Lit(10), Lit(13)];
    let net = net(rt.alloc(), 2, parts.as_slice(), outputs.as_slice())?;
    let new_outputs = [Lit(7), Lit(7), Lit(3), Lit(9)];
    assert!(rt; is_ordered_as(rt.alloc(), &net, &[(2, 4), (7, 2)], new_outputs.as_slice())?);
    Ok(())
}

#[test]
fn counts_unused_names_to_the_level(rt: HostRuntime) -> Result<(), Fail> {
    // two inputs; signal 3 names signal 4 in a column of dashes, so its gate comes after those of 4 and 5
    let unused = OnSet(&[4, 1, 2], &["-11"]);
    let net = net(rt.alloc(), 2, &[unused, And(3, 5), And(2, 2)], &[Lit(6)])?;
    let gates = [(3, 5), (2, 2), (2, 4)];
    assert!(rt; is_ordered_as(rt.alloc(), &net, gates.as_slice(), &[Lit(10)])?);
    Ok(())
}

#[test]
fn names_the_first_cover_without_a_level(rt: HostRuntime) -> Result<(), Fail> {
    // one input; signal 3 names itself in a column of dashes, and signal 4 is above it
    let own = OnSet(&[1, 3], &["1-"]);
    let above = OnSet(&[1, 1, 3], &["1-1"]);
    let net = net(rt.alloc(), 1, &[And(2, 3), own, above], &[Lit(2)])?;
    let fault = order(rt.alloc(), &net).err();
    assert_eq!(rt; fault, Some(OrderFault::Cycle(1)));
    Ok(())
}
