//! Accounts that say that no match exists, and the nearest ones that aren't good.

use crate::alterations::{Altered, check_altered};
use crate::files::{
    A, AND, AND_OR, AND_XOR, B, EMPTY, NONE_PORTS, OR, TABLE, THREE, TWO, WIRE, XOR, ZERO,
    ZERO_WIRE,
};
use crate::runs::{CHECK, expect};
use std::test::Fail;

/// The same netlists, by the numbers of inputs that their outputs depend on.
const BY_SUPPORT: &[u8] = b"npnp 1\n\
      fails b 0 down 0 =1\n\
      holds a 0 up 0\n\
      l : 0 1\n\
      holds a 0 down 0\n\
      l : 0 1\n\
      ban o0+0 : tally support 0 / 1 2\n\
      ban o0-0 : tally support 0 / 1 2\n\
      ban : cover out 0 / 0 / 0 1\n\
      none ban 2\n\
      end\n";

/// Netlists that have no match, and an account of that.
static REFUSALS: [[&[u8]; 3]; 4] = [
    [THREE, TWO, NONE_PORTS],
    [AND, XOR, AND_XOR],
    [ZERO, WIRE, ZERO_WIRE],
    [ZERO, WIRE, BY_SUPPORT],
];

#[test]
fn accepts_refusals(rt: HostRuntime) -> Result<(), Fail> {
    for files in REFUSALS.iter() {
        expect(&rt, rt.alloc(), CHECK, *files, 1, b"accepted refusal\n")?;
    }
    Ok(())
}

/// Alterations of the refusal of AND and exclusive or.
static LINES: [Altered; 23] = [
    (1, b"", b"2 truncated"),
    (2, b"", b"3 truncated"),
    (3, b"", b"4 truncated"),
    (4, b"", b"5 truncated"),
    (5, b"", b"6 truncated"),
    (6, b"", b"7 truncated"),
    (7, b"", b"8 truncated"),
    (8, b"", b"9 truncated"),
    (9, b"", b"10 truncated"),
    (10, b"", b"11 truncated"),
    (11, b"", b"12 truncated"),
    (12, b"x", b"13 trailing"),
    (0, b"npnp 9\n", b"1 header"),
    (1, b"foils b 0 up 0 =01\n", b"2 word"),
    (1, b"fails b 0 up 0 =11\n", b"2 vector"),
    (6, b"l : 0 7\n", b"7 refutation"),
    // the log is missing
    (6, b"ban o0+0 : tally binate 0 1 2 3 / 4\n", b"7 order"),
    (9, b"ban : cover out 0 / 0 / 0 0\n", b"10 rule"),
    (9, b"ban : cover out 0 / 0 / 0\n", b"10 rule"),
    (9, b"ban : cover out 0 / 0 / 0 9\n", b"10 id"),
    (10, b"none ban 0\n", b"11 conclusion"),
    (10, b"none ban 02\n", b"11 number"),
    (10, b"none ban 3\n", b"11 id"),
];

/// Facts of AND and exclusive or that aren't there, or aren't shown.
static FACTS: [Altered; 11] = [
    (1, b"fails b 1 up 0 =01\n", b"2 id"),
    (1, b"fails b 0 up 2 =01\n", b"2 id"),
    // one more than a number may be
    (1, b"fails b 0 up 18446744073709551616 =01\n", b"2 number"),
    (1, b"fails b 0 swap 1 0 01 =01\n", b"2 rule"),
    (1, b"fails b 0 up 0 =0\n", b"2 vector"),
    (1, b"fails b 0 up 0 =011\n", b"2 vector"),
    // the output is 0 before, or 1 after
    (1, b"fails b 0 up 0 =00\n", b"2 vector"),
    (1, b"fails b 0 swap 0 1 01 =01\n", b"2 vector"),
    (1, b"holds a 1 up 0\n", b"2 id"),
    // a literal of no variable
    (1, b"holds a 0 up 0\nl 99999 : 0\n", b"3 refutation"),
    (1, b"holds a 0 swap 0 0 01\n", b"2 rule"),
];

/// Pairs and vectors of AND and exclusive or. Where all is paired plainly, the vector 11 gives 1 and 0.
static VECTORS: [Altered; 14] = [
    (1, b"ban i0+0 i1+1 o0+0 : vector 0 =11\n", b"3 truncated"),
    // the pairs
    (1, b"ban i0+0 i1+1 o0+1 : vector 0 =11\n", b"2 id"),
    (1, b"ban i0+0 i2+1 o0+0 : vector 0 =11\n", b"2 id"),
    (1, b"ban o0+0 i0+0 i1+1 : vector 0 =11\n", b"2 rule"),
    (1, b"ban i1+1 i0+0 o0+0 : vector 0 =11\n", b"2 rule"),
    (1, b"ban i0+1 i1+1 o0+0 : vector 0 =11\n", b"2 rule"),
    // the vector
    (1, b"ban i0+0 i1+1 o0+0 : vector 1 =11\n", b"2 id"),
    (1, b"ban i0+0 i1+1 : vector 0 =11\n", b"2 rule"),
    (1, b"ban i0+0 i1+1 o0+0 : vector 0 =1\n", b"2 vector"),
    // either output isn't known
    (1, b"ban i0+0 i1+1 o0+0 : vector 0 =1x\n", b"2 vector"),
    (1, b"ban i0+0 i1+1 o0+0 : vector 0 =0x\n", b"2 vector"),
    (1, b"ban i0+0 o0+0 : vector 0 =11\n", b"2 vector"),
    // the signs
    (1, b"ban i0-0 i1+1 o0+0 : vector 0 =11\n", b"2 vector"),
    (1, b"ban i0+0 i1+1 o0-0 : vector 0 =11\n", b"2 vector"),
];

/// Facts of AND and exclusive or that are set against one another. The last of them is of the AND.
static MISMATCHES: [Altered; 9] = [
    (7, b"ban i0+0 o0+0 : mismatch 0 4\n", b"9 truncated"),
    (7, b"ban i0-0 o0-0 : mismatch 0 4\n", b"9 truncated"),
    (7, b"ban i0+0 o0+0 : mismatch 0 5\n", b"8 id"),
    (7, b"ban i0+0 o0+0 : mismatch 4 0\n", b"8 rule"),
    (7, b"ban i0+0 o0+0 : mismatch 0 1\n", b"8 rule"),
    (7, b"ban i0-0 o0+0 : mismatch 0 4\n", b"8 rule"),
    (7, b"ban i0+0 o0-0 : mismatch 0 4\n", b"8 rule"),
    (7, b"ban i0+1 o0+0 : mismatch 0 4\n", b"8 rule"),
    (7, b"ban o0+0 : mismatch 0 4\n", b"8 rule"),
];

/// Inputs of AND and exclusive or that are counted.
static BINATES: [Altered; 10] = [
    (7, b"ban o0+0 : tally binate 0 1 2 3 / 5\n", b"8 id"),
    (7, b"ban o0+0 : tally binate 0 1 0 1 / 4\n", b"8 rule"),
    (7, b"ban o0+0 : tally binate 0 0 1 1 2 3 / 4\n", b"8 rule"),
    (7, b"ban o0+0 : tally binate 1 0 2 3 / 4\n", b"8 rule"),
    (7, b"ban o0+0 : tally binate 0 1 2 3 / 0\n", b"8 rule"),
    (7, b"ban o0+0 : tally binate 0 1 / 4\n", b"8 rule"),
    (7, b"ban o0+0 : tally binate 0 1 2 3 /\n", b"8 rule"),
    (7, b"ban o0+0 : tally support 0 2 / 4\n", b"8 rule"),
    // the outputs aren't paired
    (7, b"ban : tally binate 0 1 2 3 / 4\n", b"8 rule"),
    (7, b"ban i0+0 : tally binate 0 1 2 3 / 4\n", b"8 rule"),
];

/// Inputs of constant 0 and the wire.
static SUPPORTS: [Altered; 4] = [
    (6, b"ban o0+0 : tally support 0 0 / 1 2\n", b"7 rule"),
    (6, b"ban o0+0 : tally support 0 / 2 1\n", b"7 rule"),
    (6, b"ban o0+0 : tally support 0 / 1\n", b"7 rule"),
    (6, b"ban o0+0 : tally binate 0 / 1\n", b"7 rule"),
];

/// Ports of AND and exclusive or that are to be paired with one another, after bans of either pair of outputs.
static COVERS: [Altered; 13] = [
    (9, b"ban o0+0 : cover out 0 / 0 / 0 -\n", b"11 truncated"),
    (
        9,
        b"ban o0+0 : cover in 0 1 / 0 / 0 0 0 0\n",
        b"11 truncated",
    ),
    (9, b"ban : cover out 0 / 1 / 0 1\n", b"10 id"),
    (9, b"ban : cover out 0 / 0 / 0 2\n", b"10 id"),
    (9, b"ban : cover out 0 / 0 / 1 0\n", b"10 rule"),
    (9, b"ban : cover out 0 / 0 / 0 -\n", b"10 rule"),
    (9, b"ban o0+0 : cover out 0 / 0 / 0 1\n", b"10 rule"),
    (9, b"ban : cover out 0 0 / 0 / 0 1 0 1\n", b"10 rule"),
    (9, b"ban : cover out / 0 /\n", b"10 rule"),
    // a port is missing, or what excludes its pairs
    (9, b"ban o0+0 : cover in 0 / 0 / 0 0\n", b"10 rule"),
    (9, b"ban o0+0 : cover in 0 1 / 0 / 0 0\n", b"10 rule"),
    (9, b"ban o0+0 : cover in 1 0 / 0 / 0 0 0 0\n", b"10 rule"),
    // the ban that is named has another pair
    (9, b"ban : cover in 0 1 / 0 / 0 0 0 0\n", b"10 rule"),
];

/// The first line after the header is none for these netlists.
static NOT_EXCLUDED: [Altered; 3] = [
    (1, b"ban : cover out 0 / 0 / - -\n", b"2 rule"),
    (1, b"ban : cover out 0 / 0 / 0 0\n", b"2 id"),
    (1, b"none ban 0\n", b"2 id"),
];

/// A mismatch by facts that agree for the pairs, and a vector that leaves the input open.
static ALTERED_ZERO_WIRE: [Altered; 2] = [
    (6, b"ban i0+0 o0-0 : mismatch 0 1\n", b"7 rule"),
    (5, b"ban i0-0 o0+0 : vector 0 =x\n", b"6 vector"),
];

/// The OR stays 1 where one of two inputs that are 1 falls.
static OF_OR: [Altered; 1] = [(1, b"fails b 0 down 0 =11\n", b"2 vector")];

/// Where there is no port, a cover of no port excludes nothing.
static OF_NOTHING: [Altered; 1] = [(1, b"ban : cover in / /\n", b"2 rule")];

/// Netlists with as many ports aren't refused by their numbers.
static AGREE: [Altered; 1] = [(1, b"none ports\nend\n", b"2 conclusion")];

/// Netlists of other numbers of ports have no facts, no bans, and no conclusion but that one.
static DIFFER: [Altered; 4] = [
    (1, b"fails a 0 up 0 =000\n", b"2 conclusion"),
    (1, b"holds a 0 up 0\n", b"2 conclusion"),
    (1, b"ban : cover in 0 1 2 / 0 1 / - -\n", b"2 conclusion"),
    (1, b"none ban 0\n", b"2 conclusion"),
];

#[test]
fn rejects_each_kind_of_line(rt: HostRuntime) -> Result<(), Fail> {
    let (alloc, files) = (rt.alloc(), [AND, XOR, AND_XOR]);
    check_altered(&rt, alloc, files, &LINES)?;
    check_altered(&rt, alloc, files, &FACTS)?;
    check_altered(&rt, alloc, files, &VECTORS)?;
    check_altered(&rt, alloc, files, &MISMATCHES)?;
    check_altered(&rt, alloc, files, &BINATES)?;
    check_altered(&rt, alloc, files, &COVERS)?;
    check_altered(&rt, alloc, files, &NOT_EXCLUDED)
}

#[test]
fn rejects_refusals_of_other_netlists(rt: HostRuntime) -> Result<(), Fail> {
    let alloc = rt.alloc();
    check_altered(&rt, alloc, [ZERO, WIRE, BY_SUPPORT], &SUPPORTS)?;
    check_altered(&rt, alloc, [ZERO, WIRE, ZERO_WIRE], &ALTERED_ZERO_WIRE)?;
    check_altered(&rt, alloc, [AND, OR, AND_OR], &OF_OR)?;
    check_altered(&rt, alloc, [EMPTY, EMPTY, NONE_PORTS], &OF_NOTHING)?;
    check_altered(&rt, alloc, [A, B, TABLE], &AGREE)?;
    check_altered(&rt, alloc, [THREE, TWO, NONE_PORTS], &DIFFER)
}
