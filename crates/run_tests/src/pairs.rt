//! Pairs of netlists that a number gives: made, matched, checked and tried.

use crate::files::{A, B, EMPTY, TABLE};
use crate::runs::{CHECK, Failing, MATCH, NONE, expect, run_failing, run_on, status_of};
use shelf_core::{DiskShelf, SafeSink};
use std::alloc::Global;
use std::process::Abort;
use std::test::Fail;

/// Makes the pair of 7, whose first file is called `t`.
const FIRST: &[&str] = &["make", "7", "t", "B"];

/// Makes the pair of 7, whose second file is called `t`.
const SECOND: &[&str] = &["make", "7", "A", "t"];

/// Makes the pair of 7, and gives the file of it that is called `t`.
fn made(rt: &impl Abort, alloc: Global, words: &[&str]) -> Result<Vec<u8>, Fail> {
    let ended = run_on(alloc, words, [EMPTY, EMPTY], None)?;
    assert_eq!(rt;
        (ended.status, ended.report.as_slice()),
        (0, b"made 64 32 2000\n".as_slice())
    );
    Ok(ended.account.unwrap_or(Vec::new(alloc)))
}

/// Seeks a match of two netlists, and checks the account of it: the status of both, and what is printed after the first
/// words.
fn seek(rt: &impl Abort, alloc: Global, netlists: [&[u8]; 2]) -> Result<(), Fail> {
    let found = run_on(alloc, MATCH, netlists, None)?;
    let account = found.account.as_deref().unwrap_or(b"");
    let checked = run_on(alloc, CHECK, netlists, Some(account))?;
    let same = found.report.strip_prefix(b"matched\n".as_slice())
        == checked.report.strip_prefix(b"accepted match\n".as_slice());
    assert_eq!(rt; (found.status, checked.status, same), (0, 0, true));
    Ok(())
}

#[test]
fn makes_a_pair_that_matches(rt: HostRuntime) -> Result<(), Fail> {
    let first = made(&rt, rt.alloc(), FIRST)?;
    let second = made(&rt, rt.alloc(), SECOND)?;
    let front = (
        first.starts_with(b"aig 2064 64 0 32 2000\n"),
        second.starts_with(b".model npnp\n.inputs i0 i1 "),
    );
    assert_eq!(&rt; front, (true, true));
    seek(&rt, rt.alloc(), [&first, &second])
}

/// Runs over the machine's files, each of which reads what the ones before it wrote.
static ON_DISK: [&[&str]; 3] = [
    &["make", "7", "first", "second"],
    &["match", "first", "second", "account"],
    &["check", "first", "second", "account"],
];

#[test]
fn checks_what_another_run_wrote_on_the_disk(rt: HostRuntime) -> Result<(), Fail> {
    for words in ON_DISK.iter() {
        let mut shelf = DiskShelf::new(rt);
        let mut sink = SafeSink::new(rt.alloc());
        let status = status_of(rt.alloc(), words, &mut shelf, &mut sink)?;
        assert_eq!(rt; status, 0);
    }
    Ok(())
}

#[test]
fn tries_a_pair(rt: HostRuntime) -> Result<(), Fail> {
    expect(
        &rt,
        rt.alloc(),
        &["trial", "007"],
        [A, B, TABLE],
        0,
        b"trial 7 matched accepted 64 32 2000\n",
    )
}

/// How many bytes stand under `t` where a call of `make` fails: create, append and close of either file. The first text
/// has n bytes.
fn lengths(first: usize, second: usize) -> [[Option<usize>; 2]; 6] {
    [
        [None, None],
        [Some(0), None],
        [Some(first), None],
        [Some(first), None],
        [Some(first), Some(0)],
        [Some(first), Some(second)],
    ]
}

/// The length of what stands under `t` where a call fails. Nothing is printed, and no further call made.
fn failing(
    rt: &impl Abort,
    alloc: Global,
    words: &[&str],
    call: u64,
) -> Result<Option<usize>, Fail> {
    let failing = Failing { call, ..NONE };
    let ended = run_failing(alloc, words, [EMPTY, EMPTY], None, failing)?;
    assert_eq!(rt;
        (ended.status, ended.report.is_empty(), ended.calls),
        (6, true, call.saturating_add(1))
    );
    Ok(ended.account.as_deref().map(|bytes| bytes.len()))
}

#[test]
fn leaves_first_parts_of_a_pair(rt: HostRuntime) -> Result<(), Fail> {
    let first = made(&rt, rt.alloc(), FIRST)?;
    let second = made(&rt, rt.alloc(), SECOND)?;
    let rows = lengths(first.len(), second.len());
    for (call, row) in rows.iter().enumerate() {
        let call = call as u64;
        let one = failing(&rt, rt.alloc(), FIRST, call)?;
        let other = failing(&rt, rt.alloc(), SECOND, call)?;
        assert_eq!(&rt; [one, other], *row);
    }
    Ok(())
}
