//! Small accounts, whose logs are worked out by hand.

use crate::graphs::{and_or, zero_wire};
use account_check::{CheckStop, Verdict, check};
use net_core::{Graphs, Matching};
use std::alloc::{AllocError, Global};
use std::test::Fail;

/// The first bad record of an account, and the word for it.
fn bad_line(alloc: Global, graphs: &Graphs<'_>, account: &str) -> Option<(u64, &'static str)> {
    match check(alloc, graphs, account.as_bytes()) {
        Err(CheckStop::Rejected { line, why }) => Some((line, why.word())),
        _ => None,
    }
}

/// Whether a matching is that of the inputs in order, and all inverted.
fn is_inverting(matching: &Matching) -> bool {
    (matching.inputs.as_slice() == [(0, true), (1, true)].as_slice())
        & (matching.outputs.as_slice() == [(0, true)].as_slice())
}

/// Whether an account proves this matching.
fn proves_inverting(alloc: Global, graphs: &Graphs<'_>, account: &str) -> bool {
    match check(alloc, graphs, account.as_bytes()) {
        Ok(Verdict::Match(matching)) => is_inverting(&matching),
        _ => false,
    }
}

/// Accounts of a match of the AND and the OR, the first bad record of each, and the word for it.
static BAD_MATCHES: [(&str, u64, &str); 12] = [
    ("", 1, "truncated"),
    ("npnp 2\n", 1, "header"),
    ("npnp 1\nmatch i0-0 i1-1 o0\n", 2, "word"),
    ("npnp 1\nend\n", 2, "order"),
    ("npnp 1\nmatch i0-0 i1-1 o0-1\n", 2, "id"),
    ("npnp 1\nmatch i0-0 i1-0 o0-0\n", 2, "conclusion"),
    ("npnp 1\nmatch i0-0 i1-1 o0-0\nl : 07\n", 3, "number"),
    (
        "npnp 1\nmatch i0-0 i1-1 o0-0\nl : 7 8 1 2\n",
        3,
        "refutation",
    ),
    // the lines of the log for the other value
    (
        "npnp 1\nmatch i0-0 i1-1 o0-0\nl : 7 8 4 5 3\n",
        3,
        "refutation",
    ),
    // one log is left
    (
        "npnp 1\nmatch i0-0 i1-1 o0-0\nl : 7 8 1 2 6\nend\n",
        4,
        "order",
    ),
    (
        "npnp 1\nmatch i0-0 i1-1 o0-0\nl : 7 8 1 2 6\nl : 7 8 4 5 3\nend",
        5,
        "truncated",
    ),
    (
        "npnp 1\nmatch i0-0 i1-1 o0-0\nl : 7 8 1 2 6\nl : 7 8 4 5 3\nend\nx",
        6,
        "trailing",
    ),
];

#[test]
fn accepts_a_match_and_finds_bad_lines(rt: HostRuntime) -> Result<(), Fail> {
    let both = and_or(rt.alloc())?;
    let graphs = both.graphs();
    let good = "npnp 1\nmatch i0-0 i1-1 o0-0\nl : 7 8 1 2 6\nl : 7 8 4 5 3\nend\n";
    assert!(rt; proves_inverting(rt.alloc(), &graphs, good));
    for (account, line, word) in BAD_MATCHES.iter() {
        let found = bad_line(rt.alloc(), &graphs, account);
        assert_eq!(rt; found, Some((*line, *word)), "in {account:?}");
    }
    Ok(())
}

/// The second output falls where its input goes from 1 to 0, and the first one never does; so the input can go neither
/// plain nor inverted.
static REFUSAL: [&str; 13] = [
    "npnp 1",
    "fails b 0 down 0 =1",
    "holds a 0 down 0",
    "l : 0 1",
    "ban i0+0 o0+0 : mismatch 0 1",
    "ban i0-0 o0+0 : vector 0 =0",
    "ban i0+0 o0-0 : vector 0 =0",
    "ban i0-0 o0-0 : mismatch 0 1",
    "ban o0+0 : cover in 0 / 0 / 0 1",
    "ban o0-0 : cover in 0 / 0 / 2 3",
    "ban : cover out 0 / 0 / 4 5",
    "none ban 6",
    "end",
];

fn put_line(line: &str, account: &mut String) -> Result<(), AllocError> {
    account.push_str(line)?;
    account.push_str("\n")
}

/// Writes the refusal with another line in the place of one, counted from 1; with none for 0.
pub fn put_refusal_with(line: usize, text: &str, account: &mut String) -> Result<(), AllocError> {
    for (k, old) in REFUSAL.iter().enumerate() {
        if k + 1 == line {
            put_line(text, account)?;
        } else {
            put_line(old, account)?;
        }
    }
    Ok(())
}

/// Whether the refusal proves that there is no match.
fn proves_refusal(alloc: Global, graphs: &Graphs<'_>) -> bool {
    let mut account = String::new(alloc);
    if put_refusal_with(0, "", &mut account).is_err() {
        return false;
    }
    match check(alloc, graphs, account.as_bytes()) {
        Ok(Verdict::None) => true,
        _ => false,
    }
}

/// The first bad record of the refusal with another line in the place of one; none when out of memory.
fn bad_line_with(
    alloc: Global,
    graphs: &Graphs<'_>,
    line: usize,
    text: &str,
) -> Option<(u64, &'static str)> {
    let mut account = String::new(alloc);
    if put_refusal_with(line, text, &mut account).is_err() {
        return None;
    }
    bad_line(alloc, graphs, account.as_str())
}

/// Lines in the place of one of the refusal, and the word for what is wrong with each.
static BAD_LINES: [(usize, &str, &str); 14] = [
    (2, "fails b 0 down 0 =0", "vector"),
    (2, "fails b 0 down 1 =1", "id"),
    (3, "holds a 0 swap 0 0 01", "rule"),
    (4, "l : 0", "refutation"),
    (5, "ban i0+0 o0+0 : mismatch 1 0", "rule"),
    (5, "ban i0+0 o0+0 : mismatch 0 2", "id"),
    (6, "ban i0-0 o0+0 : vector 0 =x", "vector"),
    (6, "ban o0+0 i0-0 : vector 0 =0", "rule"),
    // where the output is inverted, its rises and falls are exchanged
    (7, "ban i0+0 o0-0 : mismatch 0 1", "rule"),
    (9, "ban o0+0 : cover in 0 / 0 / 0", "rule"),
    (9, "ban o0+0 : cover in 0 / / ", "word"),
    (9, "ban o0+0 : cover in 0 / 0 / 0 4", "id"),
    (12, "none ban 5", "conclusion"),
    (12, "none ports", "conclusion"),
];

#[test]
fn accepts_a_refusal_and_finds_bad_lines(rt: HostRuntime) -> Result<(), Fail> {
    let both = zero_wire(rt.alloc())?;
    let graphs = both.graphs();
    assert!(rt; proves_refusal(rt.alloc(), &graphs));
    for (line, text, word) in BAD_LINES.iter() {
        let found = bad_line_with(rt.alloc(), &graphs, *line, text);
        assert_eq!(rt; found, Some((*line as u64, *word)), "at {text}");
    }
    Ok(())
}
