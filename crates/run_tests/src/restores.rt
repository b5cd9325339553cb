//! Netlists that get the ports of others back. What is to be written was worked out by hand, by the AIGER format.

use crate::files::{A, AND, AND_OR, B, EMPTY, OR, TABLE, THREE, TWO};
use crate::runs::{FourFiles, OLD, new_files, run_new};
use std::test::Fail;

/// The words that ask for it.
const RESTORE: &[&str] = &["restore", "A", "B", "t", "n"];

/// The AND as BLIF, with names.
const NAMED_AND: &[u8] = b".inputs a b\n.outputs y\n.names a b y\n11 1\n";

/// The OR as BLIF, with other names.
const NAMED_OR: &[u8] = b".inputs p q\n.outputs z\n.names p q z\n00 0\n";

/// The OR as binary AIGER, without names.
const BINARY_OR: &[u8] = b"aig 3 2 0 1 1\n7\n\x01\x02";

/// The AND with names that end in a carriage return, or have one within.
const RETURNS: &[u8] = b"aag 3 2 0 1 1\n2\n4\n6\n6 2 4\ni0 a\r\r\ni1 b\r\no0 y\rz\n";

/// Circuits that are written by a match, and accounts and files from which none is.
static RESTORED: [FourFiles; 18] = [
    // input 0 of the first is input 1 of the second, inverted, and so is output 0 output 1
    (
        RESTORE,
        [A, B, TABLE],
        0,
        b"restored 1\n",
        b"aig 3 2 0 2 1\n6\n2\n\x02\x02i0 i0\ni1 i1\no0 o0\no1 o1\n",
    ),
    (
        RESTORE,
        [AND, OR, AND_OR],
        0,
        b"restored 1\n",
        b"aig 3 2 0 1 1\n6\n\x02\x02i0 i0\ni1 i1\no0 o0\n",
    ),
    (
        RESTORE,
        [NAMED_AND, NAMED_OR, AND_OR],
        0,
        b"restored 1\n",
        b"aig 3 2 0 1 1\n6\n\x02\x02i0 a\ni1 b\no0 y\n",
    ),
    (
        RESTORE,
        [NAMED_AND, BINARY_OR, AND_OR],
        0,
        b"restored 1\n",
        b"aig 3 2 0 1 1\n6\n\x02\x02i0 a\ni1 b\no0 y\n",
    ),
    // a carriage return at the end of a name becomes `_`
    (
        RESTORE,
        [RETURNS, OR, AND_OR],
        0,
        b"restored 1\n",
        b"aig 3 2 0 1 1\n6\n\x02\x02i0 a_\ni1 b\no0 y\rz\n",
    ),
    (
        RESTORE,
        [
            b"aag 0 0 0 1 0\n0\no0 zero\n",
            b"aag 0 0 0 1 0\n1\no0 one\n",
            b"npnp 1\nmatch o0-0\nl : 0 1\nl : 0 2\nend\n",
        ],
        0,
        b"restored 0\n",
        b"aig 0 0 0 1 0\n0\no0 zero\n",
    ),
    (
        RESTORE,
        [EMPTY, EMPTY, b"npnp 1\nmatch\nend\n"],
        0,
        b"restored 0\n",
        b"aig 0 0 0 0 0\n",
    ),
    (
        RESTORE,
        [THREE, TWO, b"npnp 1\nnone ports\nend\n"],
        1,
        b"accepted refusal\n",
        OLD,
    ),
    // the sign of an input is another one
    (
        RESTORE,
        [
            A,
            B,
            b"npnp 1\nmatch i0+1 i1+0 o0-1 o1+0\nl : 7 8 1 2 6\nl : 7 8 4 5 3\nl : 7 8\nl : 7 8\nend\n",
        ],
        2,
        b"rejected line 3 refutation\n",
        OLD,
    ),
    (
        RESTORE,
        [AND, OR, b"npnp 2\n"],
        2,
        b"rejected line 1 header\n",
        OLD,
    ),
    (
        &["restore", "z", "B", "t", "n"],
        [A, B, TABLE],
        5,
        b"absent first\n",
        OLD,
    ),
    (
        &["restore", "A", "z", "t", "n"],
        [A, B, TABLE],
        5,
        b"absent second\n",
        OLD,
    ),
    (
        &["restore", "A", "B", "z", "n"],
        [A, B, TABLE],
        5,
        b"absent account\n",
        OLD,
    ),
    (
        RESTORE,
        [A, b"aag 1 1 0 1 0\n2\n", TABLE],
        5,
        b"malformed second 14 16\n",
        OLD,
    ),
    (
        &["restore", "A", "n", "t", "n"],
        [A, B, TABLE],
        4,
        b"usage\n",
        OLD,
    ),
    (
        &["restore", "A", "B", "n", "n"],
        [A, B, TABLE],
        4,
        b"usage\n",
        OLD,
    ),
    (
        &["restore", "A", "B", "t"],
        [A, B, TABLE],
        4,
        b"usage\n",
        OLD,
    ),
    (
        &["restore", "A", "B", "t", "n", "5"],
        [A, B, TABLE],
        4,
        b"usage\n",
        OLD,
    ),
];

#[test]
fn restores_or_leaves_the_file(rt: HostRuntime) -> Result<(), Fail> {
    new_files(&rt, rt.alloc(), &RESTORED)
}

/// What stands under `n` where a call fails: the open of the account, the create, the append and the close.
static FAILING: [(u64, &[u8], &[u8]); 4] = [
    (6, b"read fault\n", OLD),
    (9, b"", OLD),
    (10, b"", b""),
    (11, b"", b"aig 0 0 0 0 0\n"),
];

#[test]
fn leaves_a_first_part_of_the_netlist(rt: HostRuntime) -> Result<(), Fail> {
    for (call, report, new) in FAILING.iter() {
        let files: [&[u8]; 3] = [EMPTY, EMPTY, b"npnp 1\nmatch\nend\n"];
        let ended = run_new(rt.alloc(), RESTORE, files, *call)?;
        assert_eq!(rt;
            (ended.outcome(), ended.calls),
            ((6, *report, Some(*new)), call + 1)
        );
    }
    Ok(())
}
