//! Accounts that are trimmed, or converted to the other version, and netlists that are flattened, and netlists that are swept. What is to be written was
//! worked out by hand, by the forms of accounts and of AIGER.

use crate::files::{
    A, AND, AND_OR, AND_XOR, B, EMPTY, NONE_PORTS, OR, SAME_TWICE, TABLE, WIRE, XOR, ZERO,
    ZERO_WIRE,
};
use crate::runs::{
    CHECK, FourFiles, MATCH, NEVER, OLD, Row, check_rows, expect, new_files, run_new,
};
use std::alloc::{AllocError, Global};
use std::test::Fail;

/// The words that ask for an account to be trimmed.
const TRIM: &[&str] = &["trim", "A", "B", "t", "n"];

/// The words that ask for an account to be converted.
const CONVERT: &[&str] = &["convert", "t", "n"];

/// The words that ask for a file of models to be flattened.
const FLATTEN: &[&str] = &["flatten", "t", "n"];

/// The AND of two inputs, by two instances of a NAND.
const TWO_NANDS: &[u8] =
    b".model top\n.inputs a b\n.outputs y\n.subckt nd p=a q=b r=t\n.subckt nd p=t q=t r=y\n.end\n\
      .model nd\n.inputs p q\n.outputs r\n.names p q r\n11 0\n.end\n";

/// It as one netlist.
const TWO_NANDS_FLAT: &[u8] = b"aag 4 2 0 1 2\n2\n4\n9\n6 2 4\n8 7 7\ni0 a\ni1 b\no0 y\n";

/// The words that ask for a netlist to be swept.
const SWEEP: &[&str] = &["sweep", "A", "n"];

/// `AND_XOR` with a claim that stands there twice.
const FACT_TWICE: &[u8] = b"npnp 1\n\
      fails b 0 up 0 =01\n\
      fails b 0 down 0 =10\n\
      fails b 0 up 1 =10\n\
      fails b 0 down 1 =01\n\
      fails b 0 down 1 =01\n\
      holds a 0 up 0\n\
      l : 0 7 1\n\
      ban o0+0 : tally binate 0 1 2 3 / 5\n\
      ban o0-0 : tally binate 0 1 2 3 / 5\n\
      ban : cover out 0 / 0 / 0 1\n\
      none ban 2\n\
      end\n";

/// `AND_OR` with a line of a log that no later one names.
const LINE_MORE: &[u8] =
    b"npnp 1\nmatch i0-0 i1-1 o0-0\nl 7 2 : 1\nl : 7 8 1 2 6\nl : 7 8 4 5 3\nend\n";

/// `AND_OR` without its last line.
const CUT: &[u8] = b"npnp 1\nmatch i0-0 i1-1 o0-0\nl : 7 8 1 2 6\nl : 7 8 4 5 3\n";

/// `AND_XOR` in version 2: drops of the facts 0 to 4 after ban 1, which names them last, and of the bans 0 and 1 after
/// ban 2.
const AND_XOR_BYTES: &[u8] = b"NPNPACC2\
      \x01\0\0\0\0\0\0\0\x14\x01\0\0\0\0\0\0\0\0\0\0\0\0\0\0\0\0\x02\0\x01\
      \x01\0\0\0\0\0\0\0\x14\x01\0\0\0\0\x01\0\0\0\0\0\0\0\0\0\0\0\x02\x01\0\
      \x01\0\0\0\0\0\0\0\x14\x01\0\0\0\0\0\0\0\0\x01\0\0\0\0\0\0\0\x02\x01\0\
      \x01\0\0\0\0\0\0\0\x14\x01\0\0\0\0\x01\0\0\0\x01\0\0\0\0\0\0\0\x02\0\x01\
      \x02\0\0\0\0\0\0\0\n\0\0\0\0\0\0\0\0\0\0\
      \x03\0\0\0\0\0\0\0(\0\0\0\0\0\0\0\0\0\0\0\0\0\0\0\x03\0\0\0\0\0\0\0\0\0\0\0\0\0\0\0\x07\0\0\0\0\0\0\0\x01\
      \x04\0\0\0\0\0\0\0K\0\0\0\0\0\0\0\x01\x01\0\0\0\0\0\0\0\0\0\x03\0\0\0\0\0\0\0\x04\0\0\0\0\0\0\0\0\0\0\0\0\0\
      \0\0\x01\0\0\0\0\0\0\0\x02\0\0\0\0\0\0\0\x03\0\0\0\0\0\0\0\x01\0\0\0\0\0\0\0\x04\
      \x04\0\0\0\0\0\0\0K\0\0\0\0\0\0\0\x01\x01\0\0\0\0\0\0\0\0\x01\x03\0\0\0\0\0\0\0\x04\0\0\0\0\0\0\0\0\0\0\0\0\
      \0\0\0\x01\0\0\0\0\0\0\0\x02\0\0\0\0\0\0\0\x03\0\0\0\0\0\0\0\x01\0\0\0\0\0\0\0\x04\
      \x09\0\0\0\0\0\0\0\x08\0\0\0\0\0\0\0\0\
      \x09\0\0\0\0\0\0\0\x08\0\0\0\0\0\0\0\x01\
      \x09\0\0\0\0\0\0\0\x08\0\0\0\0\0\0\0\x02\
      \x09\0\0\0\0\0\0\0\x08\0\0\0\0\0\0\0\x03\
      \x09\0\0\0\0\0\0\0\x08\0\0\0\0\0\0\0\x04\
      \x04\0\0\0\0\0\0\0;\0\0\0\0\0\0\0\0\x05\0\0\0\0\0\0\0\x01\0\0\0\0\0\0\0\0\0\0\0\x01\0\0\0\0\0\0\0\0\0\0\0\
      \x02\x01\0\0\0\0\0\0\0\0\x01\0\0\0\0\0\0\0\x01\
      \n\0\0\0\0\0\0\0\x08\0\0\0\0\0\0\0\0\
      \n\0\0\0\0\0\0\0\x08\0\0\0\0\0\0\0\x01\
      \x06\0\0\0\0\0\0\0\x08\0\0\0\0\0\0\0\x02\
      \x08\0\0\0\0\0\0\0\0";

/// Where ban 2 begins in it, record 15.
const BAN_2: usize = 445;

/// A drop of ban 0.
const DROP_BAN_0: &[u8] = b"\x0a\0\0\0\0\0\0\0\x08\0\0\0\0\0\0\0\0";

/// `NONE_PORTS` in version 2.
const NONE_PORTS_BYTES: &[u8] = b"NPNPACC2\x05\0\0\0\0\0\0\0\0\x08\0\0\0\0\0\0\0\0";

/// Accounts that are trimmed, and files and words by which none is.
static TRIMMED: [FourFiles; 15] = [
    (TRIM, [AND, XOR, FACT_TWICE], 0, b"trimmed 13 12\n", AND_XOR),
    (TRIM, [AND, XOR, AND_XOR], 0, b"trimmed 12 12\n", AND_XOR),
    (
        TRIM,
        [ZERO, WIRE, ZERO_WIRE],
        0,
        b"trimmed 13 13\n",
        ZERO_WIRE,
    ),
    (TRIM, [AND, OR, LINE_MORE], 0, b"trimmed 6 5\n", AND_OR),
    // of an account of version 2 a text is left, without the drops
    (
        TRIM,
        [AND, XOR, AND_XOR_BYTES],
        0,
        b"trimmed 19 12\n",
        AND_XOR,
    ),
    (TRIM, [AND, OR, CUT], 2, b"rejected line 5 truncated\n", OLD),
    (
        TRIM,
        [AND, OR, AND_XOR],
        2,
        b"rejected line 2 vector\n",
        OLD,
    ),
    (
        &["trim", "z", "B", "t", "n"],
        [A, B, TABLE],
        5,
        b"absent first\n",
        OLD,
    ),
    (
        &["trim", "A", "z", "t", "n"],
        [A, B, TABLE],
        5,
        b"absent second\n",
        OLD,
    ),
    (
        &["trim", "A", "B", "z", "n"],
        [A, B, TABLE],
        5,
        b"absent account\n",
        OLD,
    ),
    (
        TRIM,
        [A, b"aag 1 1 0 1 0\n2\n", TABLE],
        5,
        b"malformed second 14 16\n",
        OLD,
    ),
    (
        &["trim", "n", "B", "t", "n"],
        [A, B, TABLE],
        4,
        b"usage\n",
        OLD,
    ),
    (
        &["trim", "A", "B", "n", "n"],
        [A, B, TABLE],
        4,
        b"usage\n",
        OLD,
    ),
    (&["trim", "A", "B", "t"], [A, B, TABLE], 4, b"usage\n", OLD),
    (
        &["trim", "A", "B", "t", "n", "5"],
        [A, B, TABLE],
        4,
        b"usage\n",
        OLD,
    ),
];

#[test]
fn trims_or_leaves_the_file(rt: HostRuntime) -> Result<(), Fail> {
    new_files(&rt, rt.alloc(), &TRIMMED)
}

/// Accounts that are converted, and files and words by which none is.
static CONVERTED: [FourFiles; 12] = [
    (
        CONVERT,
        [A, B, NONE_PORTS],
        0,
        b"converted 1 2 3\n",
        NONE_PORTS_BYTES,
    ),
    (
        CONVERT,
        [A, B, NONE_PORTS_BYTES],
        0,
        b"converted 2 1 3\n",
        NONE_PORTS,
    ),
    (
        CONVERT,
        [A, B, AND_XOR],
        0,
        b"converted 1 2 12\n",
        AND_XOR_BYTES,
    ),
    (
        CONVERT,
        [A, B, AND_XOR_BYTES],
        0,
        b"converted 2 1 19\n",
        AND_XOR,
    ),
    // no check accepts it, and it has no fault of form
    (
        CONVERT,
        [A, B, b"npnp 1\nnone ban 7\nend\n"],
        0,
        b"converted 1 2 3\n",
        b"NPNPACC2\x06\0\0\0\0\0\0\0\x08\0\0\0\0\0\0\0\x07\x08\0\0\0\0\0\0\0\0",
    ),
    (CONVERT, [A, B, CUT], 2, b"rejected line 5 truncated\n", OLD),
    (
        CONVERT,
        [A, B, b"npnp 2\n"],
        2,
        b"rejected line 1 header\n",
        OLD,
    ),
    (
        &["convert", "z", "n"],
        [A, B, TABLE],
        5,
        b"absent account\n",
        OLD,
    ),
    (&["convert", "n", "n"], [A, B, TABLE], 4, b"usage\n", OLD),
    (&["convert", "", "n"], [A, B, TABLE], 4, b"usage\n", OLD),
    (&["convert", "t"], [A, B, TABLE], 4, b"usage\n", OLD),
    (
        &["convert", "t", "n", "5"],
        [A, B, TABLE],
        4,
        b"usage\n",
        OLD,
    ),
];

#[test]
fn converts_or_leaves_the_file(rt: HostRuntime) -> Result<(), Fail> {
    new_files(&rt, rt.alloc(), &CONVERTED)
}

/// Files of models that are flattened, and files and words by which none is.
static FLATTENED: [FourFiles; 12] = [
    (
        FLATTEN,
        [A, B, TWO_NANDS],
        0,
        b"flattened 2 3 2\n",
        TWO_NANDS_FLAT,
    ),
    // one model is a file of models too
    (
        FLATTEN,
        [A, B, b".inputs a b\n.outputs y\n.names a b y\n11 1\n"],
        0,
        b"flattened 1 1 1\n",
        b"aag 3 2 0 1 1\n2\n4\n6\n6 2 4\ni0 a\ni1 b\no0 y\n",
    ),
    // an input isn't bound
    (
        FLATTEN,
        [
            A,
            B,
            b".model top\n.inputs a\n.outputs y\n.subckt nd p=a r=y\n.end\n\
              .model nd\n.inputs p q\n.outputs r\n.names p q r\n11 0\n",
        ],
        5,
        b"malformed first 45 32\n",
        OLD,
    ),
    // a model has an instance of itself
    (
        FLATTEN,
        [
            A,
            B,
            b".model t\n.inputs a\n.outputs y\n.subckt t a=a y=y\n",
        ],
        5,
        b"malformed first 46 30\n",
        OLD,
    ),
    // no model, in either form of AIGER
    (FLATTEN, [A, B, AND], 5, b"malformed first 27 0\n", OLD),
    (
        &["flatten", "z", "n"],
        [A, B, TWO_NANDS],
        5,
        b"absent first\n",
        OLD,
    ),
    (
        &["flatten", "n", "n"],
        [A, B, TWO_NANDS],
        4,
        b"usage\n",
        OLD,
    ),
    (&["flatten", "", "n"], [A, B, TWO_NANDS], 4, b"usage\n", OLD),
    (&["flatten", "t", ""], [A, B, TWO_NANDS], 4, b"usage\n", OLD),
    (&["flatten", "t"], [A, B, TWO_NANDS], 4, b"usage\n", OLD),
    (
        &["flatten", "t", "n", "5"],
        [A, B, TWO_NANDS],
        4,
        b"usage\n",
        OLD,
    ),
    (
        &["flattened", "t", "n"],
        [A, B, TWO_NANDS],
        4,
        b"usage\n",
        OLD,
    ),
];

#[test]
fn flattens_or_leaves_the_file(rt: HostRuntime) -> Result<(), Fail> {
    new_files(&rt, rt.alloc(), &FLATTENED)
}

#[test]
fn matches_what_is_flattened(rt: HostRuntime) -> Result<(), Fail> {
    let files: [&[u8]; 3] = [AND, TWO_NANDS_FLAT, TABLE];
    let ended = run_new(rt.alloc(), MATCH, files, NEVER)?;
    assert_eq!(rt; ended.status, 0);
    Ok(())
}

/// Netlists that are swept, and files and words by which none is.
static SWEPT: [FourFiles; 14] = [
    (
        SWEEP,
        [SAME_TWICE, B, TABLE],
        0,
        b"swept 2 1 whole\n",
        b"aag 3 2 0 2 1\n2\n4\n6\n6\n6 2 4\ni0 i0\ni1 i1\no0 o0\no1 o1\n",
    ),
    (
        &["sweep", "A", "n", "0"],
        [SAME_TWICE, B, TABLE],
        0,
        b"swept 2 2 spent\n",
        b"aag 4 2 0 2 2\n2\n4\n6\n8\n6 2 4\n8 6 2\ni0 i0\ni1 i1\no0 o0\no1 o1\n",
    ),
    // as many learned clauses are known to be enough
    (
        &["sweep", "A", "n", "218700"],
        [SAME_TWICE, B, TABLE],
        0,
        b"swept 2 1 whole\n",
        b"aag 3 2 0 2 1\n2\n4\n6\n6\n6 2 4\ni0 i0\ni1 i1\no0 o0\no1 o1\n",
    ),
    // the output is always false
    (
        SWEEP,
        [b"aag 4 2 0 1 2\n2\n4\n8\n6 2 4\n8 6 3\n", B, TABLE],
        0,
        b"swept 2 0 whole\n",
        b"aag 2 2 0 1 0\n2\n4\n0\ni0 i0\ni1 i1\no0 o0\n",
    ),
    // one output is the complement of the other, by covers; names stay
    (
        SWEEP,
        [
            b".inputs a b\n.outputs y z\n.names a b y\n11 1\n.names a b z\n0- 1\n-0 1\n",
            B,
            TABLE,
        ],
        0,
        b"swept 2 1 whole\n",
        b"aag 3 2 0 2 1\n2\n4\n6\n7\n6 2 4\ni0 a\ni1 b\no0 y\no1 z\n",
    ),
    (
        &["sweep", "z", "n"],
        [A, B, TABLE],
        5,
        b"absent first\n",
        OLD,
    ),
    (
        SWEEP,
        [b"aag 1 1 0 1 0\n2\n", B, TABLE],
        5,
        b"malformed first 14 16\n",
        OLD,
    ),
    (&["sweep", "n", "n"], [A, B, TABLE], 4, b"usage\n", OLD),
    (&["sweep", "", "n"], [A, B, TABLE], 4, b"usage\n", OLD),
    (&["sweep", "A", ""], [A, B, TABLE], 4, b"usage\n", OLD),
    (&["sweep", "A"], [A, B, TABLE], 4, b"usage\n", OLD),
    (&["sweep", "A", "n", "x"], [A, B, TABLE], 4, b"usage\n", OLD),
    (
        &["sweep", "A", "n", "18446744073709551616"],
        [A, B, TABLE],
        4,
        b"usage\n",
        OLD,
    ),
    (
        &["sweep", "A", "n", "5", "5"],
        [A, B, TABLE],
        4,
        b"usage\n",
        OLD,
    ),
];

#[test]
fn sweeps_or_leaves_the_file(rt: HostRuntime) -> Result<(), Fail> {
    new_files(&rt, rt.alloc(), &SWEPT)
}

/// The account in version 2, which a check accepts as it does the text.
static IN_BYTES: [Row; 1] = [Row {
    files: [AND, XOR, AND_XOR_BYTES],
    status: 1,
    report: b"accepted refusal\n",
}];

/// It with a drop of ban 0 before ban 2, which names ban 0, and is record 16 then.
fn dropped_early(alloc: Global) -> Result<Vec<u8>, AllocError> {
    let (front, back) = AND_XOR_BYTES.split_at(BAN_2);
    let mut account = front.to_vec(alloc)?;
    account.extend_from_slice(DROP_BAN_0)?;
    account.extend_from_slice(back)?;
    Ok(account)
}

#[test]
fn checks_what_is_converted(rt: HostRuntime) -> Result<(), Fail> {
    check_rows(&rt, rt.alloc(), &IN_BYTES)?;
    let account = dropped_early(rt.alloc())?;
    let files: [&[u8]; 3] = [AND, XOR, account.as_slice()];
    expect(&rt, rt.alloc(), CHECK, files, 2, b"rejected line 16 id\n")?;
    let cut = &AND_XOR_BYTES[..AND_XOR_BYTES.len() - 1];
    let files: [&[u8]; 3] = [AND, XOR, cut];
    expect(
        &rt,
        rt.alloc(),
        CHECK,
        files,
        2,
        b"rejected line 19 truncated\n",
    )
}

/// Words and an account, the number of the call that fails, the report, and what stands under `n` then. It is the open
/// of the account or of a file of models or of a netlist, the create, the append of what comes before the last record or of a netlist,
/// that of
/// the last record, or the close.
type Failed = (
    &'static [&'static str],
    &'static [u8],
    u64,
    &'static [u8],
    &'static [u8],
);

/// The account of a match of circuits without ports.
const NO_PORTS: &[u8] = b"npnp 1\nmatch\nend\n";

static FAILING: [Failed; 18] = [
    (TRIM, NO_PORTS, 6, b"read fault\n", OLD),
    (TRIM, NO_PORTS, 9, b"", OLD),
    (TRIM, NO_PORTS, 10, b"", b""),
    (TRIM, NO_PORTS, 11, b"", b"npnp 1\nmatch\n"),
    (TRIM, NO_PORTS, 12, b"", NO_PORTS),
    (CONVERT, NONE_PORTS, 0, b"read fault\n", OLD),
    (CONVERT, NONE_PORTS, 3, b"", OLD),
    (CONVERT, NONE_PORTS, 4, b"", b""),
    (CONVERT, NONE_PORTS, 5, b"", b"NPNPACC2\x05\0\0\0\0\0\0\0\0"),
    (CONVERT, NONE_PORTS, 6, b"", NONE_PORTS_BYTES),
    (FLATTEN, TWO_NANDS, 0, b"read fault\n", OLD),
    (FLATTEN, TWO_NANDS, 5, b"", OLD),
    (FLATTEN, TWO_NANDS, 6, b"", b""),
    (FLATTEN, TWO_NANDS, 7, b"", TWO_NANDS_FLAT),
    (SWEEP, TABLE, 0, b"read fault\n", OLD),
    (SWEEP, TABLE, 3, b"", OLD),
    (SWEEP, TABLE, 4, b"", b""),
    (SWEEP, TABLE, 5, b"", EMPTY),
];

#[test]
fn leaves_a_first_part_of_the_file(rt: HostRuntime) -> Result<(), Fail> {
    for (words, account, call, report, new) in FAILING.iter() {
        let files: [&[u8]; 3] = [EMPTY, EMPTY, *account];
        let ended = run_new(rt.alloc(), *words, files, *call)?;
        // the call that fails is the last
        let calls = call.saturating_add(1);
        assert_eq!(rt;
            (ended.outcome(), ended.calls),
            ((6, *report, Some(*new)), calls)
        );
    }
    Ok(())
}
