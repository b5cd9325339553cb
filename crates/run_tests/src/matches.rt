//! Matches that are sought, and the accounts that are written of them.

use crate::files::{A, AND, B, C17, C17_MOVED, EMPTY, OR, THREE, TWO, WIRE, XOR, ZERO};
use crate::runs::{CHECK, MATCH, expect, line, run_on};
use std::alloc::{AllocError, Global};
use std::process::Abort;
use std::test::Fail;
use text_core::put_decimal;

/// The match of two netlists: the words, and what is printed of it after the first words, where there is one.
struct Sought {
    files: [&'static [u8]; 2],
    words: &'static [&'static str],
    table: Option<&'static [u8]>,
}

/// Seeks a match, and checks the account that was written, nothing where there is none.
fn seek(rt: &impl Abort, alloc: Global, row: &Sought) -> Result<(), Fail> {
    let (status, found, checked): (u8, &[u8], &[u8]) = match row.table {
        Some(_) => (0, b"matched", b"accepted match"),
        None => (1, b"no matching", b"accepted refusal"),
    };
    let table = row.table.unwrap_or(b"");
    let ended = run_on(alloc, row.words, row.files, None)?;
    let report = line(alloc, found, table)?;
    assert_eq!(rt;
        (ended.status, ended.report.as_slice()),
        (status, report.as_slice())
    );
    let account = ended.account.as_deref().unwrap_or(b"");
    let [first, second] = row.files;
    let files = [first, second, account];
    let report = line(alloc, checked, table)?;
    expect(rt, alloc, CHECK, files, status, report.as_slice())
}

/// Nothing may be learned.
const WITHOUT_BUDGET: &[&str] = &["match", "A", "B", "t", "0"];

/// Whether exactly two of four inputs are 1.
const TWO_OF_FOUR: &[u8] =
    b".inputs a b c d\n.outputs y\n.names a b c d y\n1100 1\n1010 1\n1001 1\n0110 1\n0101 1\n0011 1\n";

/// Whether an odd number of four inputs are 1.
const ODD_OF_FOUR: &[u8] =
    b".inputs a b c d\n.outputs y\n.names a b c d y\n1000 1\n0100 1\n0010 1\n0001 1\n1110 1\n1101 1\n1011 1\n0111 1\n";

/// An AND of four inputs with names.
const FOUR_NAMES: &[u8] = b".inputs a b c d\n.outputs y\n.names a b c d y\n1111 1\n";

/// The same AND and the same names, the inputs in another order.
const FOUR_NAMES_REVERSED: &[u8] = b".inputs d c b a\n.outputs y\n.names d c b a y\n1111 1\n";

/// Two outputs over three inputs with names.
const THREE_NAMES: &[u8] =
    b".inputs a b c\n.outputs y z\n.names a b c y\n11- 1\n1-1 1\n.names b c z\n10 1\n";

/// The same two outputs, where each name stands for another input.
const THREE_NAMES_LIE: &[u8] =
    b".inputs a b c\n.outputs y z\n.names c a b y\n11- 1\n1-1 1\n.names a b z\n10 1\n";

/// One input is missing in the second output.
const THREE_NAMES_MISS: &[u8] =
    b".inputs a b c\n.outputs y z\n.names a b c y\n11- 1\n1-1 1\n.names b z\n1 1\n";

/// Netlists with a match, by names and against them, and netlists without, by small budgets as well.
static SOUGHT: [Sought; 12] = [
    // by names, though places and the order of the gates say otherwise
    Sought {
        files: [FOUR_NAMES, FOUR_NAMES_REVERSED],
        words: MATCH,
        table: Some(
            b"\n\
              input 0 a = input 3 a\n\
              input 1 b = input 2 b\n\
              input 2 c = input 1 c\n\
              input 3 d = input 0 d\n\
              output 0 y = output 0 y",
        ),
    },
    // names that lie
    Sought {
        files: [THREE_NAMES, THREE_NAMES_LIE],
        words: MATCH,
        table: Some(
            b"\n\
              input 0 a = input 2 c\n\
              input 1 b = input 0 a\n\
              input 2 c = input 1 b\n\
              output 0 y = output 0 y\n\
              output 1 z = output 1 z",
        ),
    },
    Sought {
        files: [THREE_NAMES, THREE_NAMES_MISS],
        words: MATCH,
        table: None,
    },
    Sought {
        files: [A, B],
        words: MATCH,
        table: Some(
            b"\n\
              input 0 i0 = not input 1 i1\n\
              input 1 i1 = input 0 i0\n\
              output 0 o0 = not output 1 o1\n\
              output 1 o1 = output 0 o0",
        ),
    },
    Sought {
        files: [THREE, TWO],
        words: WITHOUT_BUDGET,
        table: None,
    },
    Sought {
        files: [AND, XOR],
        words: MATCH,
        table: None,
    },
    // constant 0 and constant 1
    Sought {
        files: [b"aag 0 0 0 1 0\n0\n", b"aag 0 0 0 1 0\n1\n"],
        words: &["match", "A", "B", "t", "18446744073709551615", "0"],
        table: Some(b"\noutput 0 o0 = not output 0 o0"),
    },
    Sought {
        files: [EMPTY, EMPTY],
        words: WITHOUT_BUDGET,
        table: Some(b""),
    },
    // a budget that is enough for all that can be asked of the two
    Sought {
        files: [ZERO, WIRE],
        words: &["match", "A", "B", "t", "108"],
        table: None,
    },
    // inputs alone
    Sought {
        files: [THREE, THREE],
        words: WITHOUT_BUDGET,
        table: Some(b"\ninput 0 i0 = input 0 i0\ninput 1 i1 = input 1 i1\ninput 2 i2 = input 2 i2"),
    },
    Sought {
        files: [TWO_OF_FOUR, ODD_OF_FOUR],
        words: MATCH,
        table: None,
    },
    Sought {
        files: [C17, C17_MOVED],
        words: &["match", "A", "B", "t", "1000000", "7"],
        table: Some(
            b"\n\
              input 0 1 = input 2 i2\n\
              input 1 2 = input 4 i4\n\
              input 2 3 = not input 1 i1\n\
              input 3 6 = input 3 i3\n\
              input 4 7 = input 0 i0\n\
              output 0 22 = output 1 o1\n\
              output 1 23 = output 0 o0",
        ),
    },
];

#[test]
fn finds_matches_or_that_there_is_none(rt: HostRuntime) -> Result<(), Fail> {
    for row in SOUGHT.iter() {
        seek(&rt, rt.alloc(), row)?;
    }
    Ok(())
}

/// Words and netlists, the status, the report and the whole account, where one is written.
type Written = (
    &'static [&'static str],
    [&'static [u8]; 2],
    u8,
    &'static [u8],
    Option<&'static [u8]>,
);

/// A search's ends, a match, a refusal and a spent budget, with all that is written.
static WRITTEN: [Written; 8] = [
    (
        MATCH,
        [EMPTY, EMPTY],
        0,
        b"matched\n",
        Some(b"npnp 1\nmatch\nend\n"),
    ),
    (
        MATCH,
        [THREE, TWO],
        1,
        b"no matching\n",
        Some(b"npnp 1\nnone ports\nend\n"),
    ),
    (WITHOUT_BUDGET, [A, B], 3, b"spent 0\n", None),
    (&["match", "A", "B", "A"], [A, B], 4, b"usage\n", None),
    (
        &["match", "A", "B", "t", "18446744073709551616"],
        [A, B],
        4,
        b"usage\n",
        None,
    ),
    (
        &["match", "A", "B", "t", "1", "2", "3"],
        [A, B],
        4,
        b"usage\n",
        None,
    ),
    (
        &["match", "A", "z", "t"],
        [A, B],
        5,
        b"absent second\n",
        None,
    ),
    (
        MATCH,
        [A, b"aag 1 1 0 1 0\n2\n"],
        5,
        b"malformed second 14 16\n",
        None,
    ),
];

#[test]
fn writes_whole_accounts_or_none(rt: HostRuntime) -> Result<(), Fail> {
    for (words, files, status, report, account) in WRITTEN.iter() {
        let ended = run_on(rt.alloc(), *words, *files, None)?;
        assert_eq!(rt; ended.outcome(), (*status, *report, *account));
    }
    Ok(())
}

/// The two matchings under which the AND is the OR.
static AND_IS_OR: [&[u8]; 2] = [
    b"matched\ninput 0 i0 = not input 0 i0\ninput 1 i1 = not input 1 i1\noutput 0 o0 = not output 0 o0\n",
    b"matched\ninput 0 i0 = not input 1 i1\ninput 1 i1 = not input 0 i0\noutput 0 o0 = not output 0 o0\n",
];

#[test]
fn finds_either_of_two_matches(rt: HostRuntime) -> Result<(), Fail> {
    let ended = run_on(rt.alloc(), MATCH, [AND, OR], None)?;
    let [plain, crossed] = AND_IS_OR;
    let report = ended.report.as_slice();
    assert!(rt; (ended.status == 0) & ((report == plain) | (report == crossed)));
    Ok(())
}

/// Many inputs, and nothing else.
const INPUTS: &[u8] = b"aig 1024 1024 0 0 0\n";

/// As many inputs as a netlist may have, and nothing else.
const MOST_INPUTS: &[u8] = b"aig 4096 4096 0 0 0\n";

#[test]
fn pairs_many_inputs(rt: HostRuntime) -> Result<(), Fail> {
    let ended = run_on(rt.alloc(), WITHOUT_BUDGET, [INPUTS, INPUTS], None)?;
    let account = ended.account.as_deref();
    let checked = run_on(rt.alloc(), CHECK, [INPUTS, INPUTS], account)?;
    assert_eq!(rt; (ended.status, checked.status), (0, 0));
    Ok(())
}

/// The account that so many inputs of two netlists without outputs are paired in order.
fn identity_of(alloc: Global, inputs: u64) -> Result<Vec<u8>, AllocError> {
    let mut text = Vec::from_slice(alloc, b"npnp 1\nmatch")?;
    for input in 0..inputs {
        text.extend_from_slice(b" i")?;
        put_decimal(input, &mut text)?;
        text.push(b'+')?;
        put_decimal(input, &mut text)?;
    }
    text.extend_from_slice(b"\nend\n")?;
    Ok(text)
}

#[test]
fn accepts_the_most_inputs(rt: HostRuntime) -> Result<(), Fail> {
    let account = identity_of(rt.alloc(), 4_096)?;
    let checked = run_on(
        rt.alloc(),
        CHECK,
        [MOST_INPUTS, MOST_INPUTS],
        Some(&account),
    )?;
    assert_eq!(rt; checked.status, 0);
    Ok(())
}

/// The inputs of a netlist of 30 inputs.
const THIRTY: &[u8] =
    b".inputs x0 x1 x2 x3 x4 x5 x6 x7 x8 x9 x10 x11 x12 x13 x14 x15 x16 x17 x18 x19 x20 x21 x22 x23 x24 x25 x26 x27 \
      x28 x29";

/// The same inputs in another order.
const THIRTY_SHUFFLED: &[u8] =
    b".inputs x4 x26 x13 x2 x10 x9 x29 x24 x12 x17 x28 x6 x15 x18 x21 x3 x5 x1 x7 x14 x0 x16 x20 x27 x22 x25 x11 \
      x23 x8 x19";

/// What both netlists have beside inputs: a chain of covers, each of which reads three inputs more.
const CHAIN: &[u8] =
    b"\n.outputs y\n.names x5 x24 x25 s0\n1-1 1\n-10 1\n.names s0 x2 x4 x19 s1\n11-- 1\n0-01 1\n\
      .names s1 x28 x14 x27 s2\n11-- 1\n0-01 1\n.names s2 x21 x0 x23 s3\n11-- 1\n0-01 1\n.names s3 x6 x17 x29 s4\n\
      11-- 1\n0-01 1\n.names s4 x13 x26 x20 s5\n11-- 1\n0-01 1\n.names s5 x15 x3 x8 s6\n11-- 1\n0-01 1\n\
      .names s6 x10 x22 x11 s7\n11-- 1\n0-01 1\n.names s7 x1 x9 x7 s8\n11-- 1\n0-01 1\n.names s8 x18 x16 x12 y\n\
      11-- 1\n0-01 1\n";

/// The names pair the inputs, so that one learned line for each value of the output is enough.
#[test]
fn pairs_equal_names_at_once(rt: HostRuntime) -> Result<(), Fail> {
    let first = line(rt.alloc(), THIRTY, CHAIN)?;
    let second = line(rt.alloc(), THIRTY_SHUFFLED, CHAIN)?;
    let ended = run_on(
        rt.alloc(),
        &["match", "A", "B", "t", "2"],
        [&first, &second],
        None,
    )?;
    let named = ended
        .report
        .strip_prefix(b"matched\ninput 0 x0 = input 20 x0\n".as_slice());
    assert!(rt; (ended.status == 0) & named.is_some());
    Ok(())
}
