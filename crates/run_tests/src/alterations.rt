//! Accounts of which the first lines stay, and what a check says of them.

use crate::runs::{CHECK, expect, line};
use std::alloc::{AllocError, Global};
use std::process::Abort;
use std::test::Fail;
use text_core::Cursor;

/// How many lines of an account stay, what stands after them, and the number of the bad line with the word for it.
pub(crate) type Altered = (usize, &'static [u8], &'static [u8]);

/// Writes the first lines of an account.
fn put_lines(text: &mut Vec<u8>, account: &[u8], lines: usize) -> Result<(), AllocError> {
    let mut cursor = Cursor::new(account);
    for _ in 0..lines {
        if let Some(line) = cursor.next_line() {
            text.extend_from_slice(line.bytes())?;
            text.extend_from_slice(b"\n")?;
        }
    }
    Ok(())
}

/// The first lines of an account, and a text after them.
fn altered(
    alloc: Global,
    account: &[u8],
    lines: usize,
    then: &[u8],
) -> Result<Vec<u8>, AllocError> {
    let mut text = Vec::new(alloc);
    put_lines(&mut text, account, lines)?;
    text.extend_from_slice(then)?;
    Ok(text)
}

/// Checks an altered account, which has a bad line.
fn check_one(
    rt: &impl Abort,
    alloc: Global,
    files: [&[u8]; 3],
    lines: usize,
    then: &[u8],
    bad: &[u8],
) -> Result<(), Fail> {
    let [first, second, account] = files;
    let account = altered(alloc, account, lines, then)?;
    let report = line(alloc, b"rejected line ", bad)?;
    let files = [first, second, account.as_slice()];
    expect(rt, alloc, CHECK, files, 2, report.as_slice())
}

/// Checks each altered account of two netlists.
pub(crate) fn check_altered(
    rt: &impl Abort,
    alloc: Global,
    files: [&[u8]; 3],
    rows: &[Altered],
) -> Result<(), Fail> {
    for (lines, then, bad) in rows {
        check_one(rt, alloc, files, *lines, *then, *bad)?;
    }
    Ok(())
}
