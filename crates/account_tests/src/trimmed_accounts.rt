//! Accounts without what their conclusions don't rest on, worked out by hand.

use crate::accounts::put_refusal_with;
use crate::binary_accounts::{GOOD_DROPS, put_refusal};
use crate::graphs::{and_or, and_xor, zero_wire};
use account_check::CheckStop;
use account_trim::{Trimmed, trim};
use net_core::Graphs;
use std::alloc::{AllocError, Global};
use std::test::Fail;

/// The account whose lines these are, with a bar at the end of each.
fn text_of(alloc: Global, bars: &str) -> Result<Vec<u8>, AllocError> {
    let mut text = bars.as_bytes().to_vec(alloc)?;
    for place in 0..text.len() {
        if text[place] == b'|' {
            text[place] = b'\n';
        }
    }
    Ok(text)
}

/// Whether an account was trimmed to these lines, of which there were so many, and are so many.
fn is(alloc: Global, trimmed: &Trimmed, bars: &str, before: u64, after: u64) -> bool {
    match text_of(alloc, bars) {
        Ok(text) => {
            (trimmed.bytes.as_slice() == text.as_slice())
                & (trimmed.before == before)
                & (trimmed.after == after)
        }
        Err(_) => false,
    }
}

/// Whether an account of these lines is trimmed so.
fn trims_to(alloc: Global, graphs: &Graphs<'_>, old: &str, new: &str, counts: (u64, u64)) -> bool {
    let Ok(account) = text_of(alloc, old) else {
        return false;
    };
    match trim(alloc, graphs, &account) {
        Ok(trimmed) => is(alloc, &trimmed, new, counts.0, counts.1),
        Err(_) => false,
    }
}

/// The AND and the XOR: the claims of the XOR's inputs fail, and one of the AND's holds.
static BINATE: &str = "npnp 1|fails b 0 up 0 =01|fails b 0 down 0 =10|fails b 0 up 1 =10|\
    fails b 0 down 1 =01|holds a 0 up 0|l : 0 7 1|ban o0+0 : tally binate 0 1 2 3 / 4|\
    ban o0-0 : tally binate 0 1 2 3 / 4|ban : cover out 0 / 0 / 0 1|none ban 2|end|";

/// A claim of the XOR stands there twice.
static FACT_TWICE: &str = "npnp 1|fails b 0 up 0 =01|fails b 0 down 0 =10|fails b 0 up 1 =10|\
    fails b 0 down 1 =01|fails b 0 down 1 =01|holds a 0 up 0|l : 0 7 1|\
    ban o0+0 : tally binate 0 1 2 3 / 5|ban o0-0 : tally binate 0 1 2 3 / 5|\
    ban : cover out 0 / 0 / 0 1|none ban 2|end|";

#[test]
fn leaves_out_facts(rt: HostRuntime) -> Result<(), Fail> {
    let both = and_xor(rt.alloc())?;
    let graphs = both.graphs();
    assert!(rt; trims_to(rt.alloc(), &graphs, FACT_TWICE, BINATE, (13, 12)));
    assert!(rt; trims_to(rt.alloc(), &graphs, BINATE, BINATE, (12, 12)));
    Ok(())
}

/// Constant 0 and a wire.
static MISMATCHES: &str = "npnp 1|fails b 0 down 0 =1|holds a 0 down 0|l : 0 1|\
    ban i0+0 o0+0 : mismatch 0 1|ban i0-0 o0+0 : vector 0 =0|ban i0+0 o0-0 : vector 0 =0|\
    ban i0-0 o0-0 : mismatch 0 1|ban o0+0 : cover in 0 / 0 / 0 1|ban o0-0 : cover in 0 / 0 / 2 3|\
    ban : cover out 0 / 0 / 4 5|none ban 6|end|";

/// A ban stands before its facts, a claim holds that no ban names, and a log has a line that its last one doesn't name.
static MORE: &str = "npnp 1|ban i0-0 o0+0 : vector 0 =0|fails b 0 down 0 =1|holds a 0 up 0|l : 0 1|\
    holds a 0 down 0|l 2 : 1 0|l : 0 1|ban i0+0 o0+0 : mismatch 0 2|ban i0-0 o0+0 : vector 0 =0|\
    ban i0+0 o0-0 : vector 0 =0|ban i0-0 o0-0 : mismatch 0 2|ban o0+0 : cover in 0 / 0 / 1 2|\
    ban o0-0 : cover in 0 / 0 / 3 4|ban : cover out 0 / 0 / 5 6|none ban 7|end|";

#[test]
fn leaves_out_bans_and_lines(rt: HostRuntime) -> Result<(), Fail> {
    let both = zero_wire(rt.alloc())?;
    let graphs = both.graphs();
    assert!(rt; trims_to(rt.alloc(), &graphs, MORE, MISMATCHES, (17, 13)));
    assert!(rt; trims_to(rt.alloc(), &graphs, MISMATCHES, MISMATCHES, (13, 13)));
    Ok(())
}

/// A match, by the two logs of its output.
static MATCH: &str = "npnp 1|match i0-0 i1-1 o0-0|l : 7 8 1 2 6|l : 7 8 4 5 3|end|";

/// The same with a line in the first log that none names.
static LONG_MATCH: &str = "npnp 1|match i0-0 i1-1 o0-0|l 7 2 : 1|l : 7 8 1 2 6|l : 7 8 4 5 3|end|";

/// Its second log line is named by the third one.
static TWO_LINES: &str =
    "npnp 1|match i0-0 i1-1 o0-0|l 7 2 : 1|l 2 : 7 1|l : 7 8 10 2 6|l : 7 8 4 5 3|end|";

/// What is left of it.
static ONE_LINE: &str = "npnp 1|match i0-0 i1-1 o0-0|l 2 : 7 1|l : 7 8 9 2 6|l : 7 8 4 5 3|end|";

#[test]
fn leaves_out_lines_of_a_match(rt: HostRuntime) -> Result<(), Fail> {
    let both = and_or(rt.alloc())?;
    let graphs = both.graphs();
    assert!(rt; trims_to(rt.alloc(), &graphs, LONG_MATCH, MATCH, (6, 5)));
    assert!(rt; trims_to(rt.alloc(), &graphs, MATCH, MATCH, (5, 5)));
    assert!(rt; trims_to(rt.alloc(), &graphs, TWO_LINES, ONE_LINE, (7, 6)));
    Ok(())
}

/// Whether the refusal in bytes, which has 13 records, with 8 drops between them, is trimmed to its text.
fn drops_go(alloc: Global, graphs: &Graphs<'_>) -> Result<bool, AllocError> {
    let mut account = Vec::new(alloc);
    put_refusal(alloc, &GOOD_DROPS, &mut account)?;
    let mut text = String::new(alloc);
    put_refusal_with(0, "", &mut text)?;
    match trim(alloc, graphs, &account) {
        Ok(trimmed) => Ok(
            (trimmed.bytes.as_slice() == text.as_bytes())
                & (trimmed.before == 21)
                & (trimmed.after == 13),
        ),
        Err(_) => Ok(false),
    }
}

#[test]
fn leaves_out_drops(rt: HostRuntime) -> Result<(), Fail> {
    let both = zero_wire(rt.alloc())?;
    let graphs = both.graphs();
    assert!(rt; drops_go(rt.alloc(), &graphs)?);
    Ok(())
}

#[test]
fn refuses_as_the_checker_does(rt: HostRuntime) -> Result<(), Fail> {
    let both = and_or(rt.alloc())?;
    let graphs = both.graphs();
    let account = text_of(
        rt.alloc(),
        "npnp 1|match i0-0 i1-1 o0-0|l : 7 8 1 2 6|l : 7 8 4 5 3|",
    )?;
    let line = match trim(rt.alloc(), &graphs, &account) {
        Err(CheckStop::Rejected { line, why }) => Some((line, why.word())),
        _ => None,
    };
    assert_eq!(rt; line, Some((5, "truncated")));
    Ok(())
}
