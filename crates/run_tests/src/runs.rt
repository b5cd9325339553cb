//! Runs over files in memory: how they end, what they print, and what they leave.

ghost use Rattle.std.specs.Prelude.{◌≡◌, ◌≢◌, ◌≤◌, AllPairs, IfOk, string_bytes};
ghost use Rattle.shelf_core.specs.State.{Closed};

use npnp::run::run;
use shelf_core::{MemShelf, MemSink, SafeShelf, SafeSink, Shelf, Sink};
use std::alloc::{AllocError, Global};
use std::process::Abort;
use std::test::Fail;

/// The words of a check.
pub(crate) const CHECK: &[&str] = &["check", "A", "B", "t"];

/// The words of a match, by the default budget and seed.
pub(crate) const MATCH: &[&str] = &["match", "A", "B", "t"];

/// No call has this number.
pub(crate) const NEVER: u64 = u64::MAX;

/// How a run ended: its status, what it printed, what stood under the account's name then, and how many calls of the
/// shelf it made.
#[derive(Drop)]
pub(crate) struct Ended {
    pub(crate) status: u8,
    pub(crate) report: Vec<u8>,
    pub(crate) account: Option<Vec<u8>>,
    pub(crate) calls: u64,
}

impl Ended {
    /// Its status, what it printed, and what stood under the account's name.
    pub(crate) fn outcome(&self) -> (u8, &[u8], Option<&[u8]>) {
        (self.status, self.report.as_slice(), self.account.as_deref())
    }
}

/// What is noted of a run, copied.
pub(crate) fn note(
    alloc: Global,
    status: u8,
    report: &[u8],
    account: Option<&[u8]>,
    calls: u64,
) -> Result<Ended, AllocError> {
    let report = report.to_vec(alloc)?;
    let account = match account {
        Some(bytes) => Some(bytes.to_vec(alloc)?),
        None => None,
    };
    Ok(Ended {
        status,
        report,
        account,
        calls,
    })
}

pub(crate) fn words_of(alloc: Global, words: &[&str]) -> Result<Vec<String>, AllocError> {
    let mut list = Vec::new(alloc);
    for word in words {
        list.push(String::from_str(alloc, word)?)?;
    }
    Ok(list)
}

pub(crate) fn file(alloc: Global, name: &str, bytes: &[u8]) -> Result<(String, Vec<u8>), AllocError>
    ensures { IfOk result (λ file. string_bytes file.0 ≡ name.now) }
{
    let name = String::from_str(alloc, name)?;
    let bytes = bytes.to_vec(alloc)?;
    Ok((name, bytes))
}

/// Two netlists, named `A` and `B`, and an account, named `t`, where there is one.
pub(crate) fn files_of(
    alloc: Global,
    netlists: [&[u8]; 2],
    account: Option<&[u8]>,
) -> Result<Vec<(String, Vec<u8>)>, AllocError>
    ensures { IfOk result (λ files. AllPairs (λ a b. string_bytes a.0 ≢ string_bytes b.0) files.items) }
{
    let [first, second] = netlists;
    let mut held = Vec::new(alloc);
    held.push(file(alloc, "A", first)?)?;
    held.push(file(alloc, "B", second)?)?;
    if let Some(account) = account {
        held.push(file(alloc, "t", account)?)?;
    }
    Ok(held)
}

/// The status with which a run ends.
pub(crate) fn status_of<S: Shelf, K: Sink>(
    alloc: Global,
    words: &[&str],
    shelf: &mut S,
    sink: &mut K,
) -> Result<u8, AllocError>
    requires { (S.state shelf.old).mode ≡ Closed }
{
    let words = words_of(alloc, words)?;
    Ok(run(alloc, words.as_slice(), shelf, sink).status())
}

/// Runs on two netlists, and an account where there is one.
pub(crate) fn run_on(
    alloc: Global,
    words: &[&str],
    netlists: [&[u8]; 2],
    account: Option<&[u8]>,
) -> Result<Ended, AllocError> {
    let mut shelf = SafeShelf::new(alloc, files_of(alloc, netlists, account)?, 65_536)?;
    let mut sink = SafeSink::new(alloc);
    let status = status_of(alloc, words, &mut shelf, &mut sink)?;
    note(
        alloc,
        status,
        sink.written(),
        shelf.file("t"),
        shelf.calls(),
    )
}

/// Runs on two netlists and an account, and expects this status and this report.
pub(crate) fn expect(
    rt: &impl Abort,
    alloc: Global,
    words: &[&str],
    files: [&[u8]; 3],
    status: u8,
    report: &[u8],
) -> Result<(), Fail> {
    let [first, second, account] = files;
    let ended = run_on(alloc, words, [first, second], Some(account))?;
    assert_eq!(rt; (ended.status, ended.report.as_slice()), (status, report));
    Ok(())
}

/// A line of a report, by its first words and what stands after them.
pub(crate) fn line(alloc: Global, front: &[u8], rest: &[u8]) -> Result<Vec<u8>, AllocError> {
    let mut line = front.to_vec(alloc)?;
    line.extend_from_slice(rest)?;
    line.extend_from_slice(b"\n")?;
    Ok(line)
}

/// The check of two netlists by an account: the files, how it ends, and what it prints.
pub(crate) struct Row {
    pub(crate) files: [&'static [u8]; 3],
    pub(crate) status: u8,
    pub(crate) report: &'static [u8],
}

pub(crate) fn check_rows(rt: &impl Abort, alloc: Global, rows: &[Row]) -> Result<(), Fail> {
    for row in rows {
        expect(rt, alloc, CHECK, row.files, row.status, row.report)?;
    }
    Ok(())
}

/// Which calls fail, of the shelf and of the sink, and how many bytes a call of the shelf reads.
#[derive(Clone, Copy)]
pub(crate) struct Failing {
    pub(crate) call: u64,
    pub(crate) put: u64,
    pub(crate) cut: usize,
}

/// No call fails, and each reads up to 64 bytes.
pub(crate) const NONE: Failing = Failing {
    call: NEVER,
    put: NEVER,
    cut: 64,
};

pub(crate) fn shelf_failing(
    alloc: Global,
    files: Vec<(String, Vec<u8>)>,
    failing: Failing,
) -> Result<MemShelf, AllocError>
    requires distinct { AllPairs (λ a b. string_bytes a.0 ≢ string_bytes b.0) files.items }
    requires cuts { 1 ≤ failing.cut }
    ensures { IfOk result (λ shelf. (⟦<MemShelf as Shelf>⟧.state shelf).mode ≡ Closed) }
{
    let calls = vec![in alloc; failing.call; 1]?;
    MemShelf::new(alloc, files, failing.cut, calls)
}

/// Runs on two netlists, and an account where there is one, where calls fail.
pub(crate) fn run_failing(
    alloc: Global,
    words: &[&str],
    netlists: [&[u8]; 2],
    account: Option<&[u8]>,
    failing: Failing,
) -> Result<Ended, AllocError>
    requires { 1 ≤ failing.cut }
{
    let puts = vec![in alloc; failing.put; 1]?;
    let mut sink = MemSink::new(alloc, puts);
    let mut shelf = shelf_failing(alloc, files_of(alloc, netlists, account)?, failing)?;
    let status = status_of(alloc, words, &mut shelf, &mut sink)?;
    note(
        alloc,
        status,
        sink.written(),
        shelf.file("t"),
        shelf.calls(),
    )
}

/// What stands under the new file's name before.
pub(crate) const OLD: &[u8] = b"old";

/// Netlists `A` and `B`, an account `t`, and a file `n`.
fn four_files(alloc: Global, files: [&[u8]; 3]) -> Result<Vec<(String, Vec<u8>)>, AllocError>
    ensures { IfOk result (λ files. AllPairs (λ a b. string_bytes a.0 ≢ string_bytes b.0) files.items) }
{
    let [first, second, account] = files;
    let mut held = Vec::new(alloc);
    held.push(file(alloc, "A", first)?)?;
    held.push(file(alloc, "B", second)?)?;
    held.push(file(alloc, "t", account)?)?;
    held.push(file(alloc, "n", OLD)?)?;
    Ok(held)
}

/// How a run ends where this call of the shelf fails, and what stands under `n` then.
pub(crate) fn run_new(
    alloc: Global,
    words: &[&str],
    files: [&[u8]; 3],
    call: u64,
) -> Result<Ended, AllocError> {
    let failing = Failing { call, ..NONE };
    let mut sink = SafeSink::new(alloc);
    let mut shelf = shelf_failing(alloc, four_files(alloc, files)?, failing)?;
    let status = status_of(alloc, words, &mut shelf, &mut sink)?;
    note(
        alloc,
        status,
        sink.written(),
        shelf.file("n"),
        shelf.calls(),
    )
}

/// Words and files `A`, `B` and `t`, the status, the report, and what stands under `n` then.
pub(crate) type FourFiles = (
    &'static [&'static str],
    [&'static [u8]; 3],
    u8,
    &'static [u8],
    &'static [u8],
);

/// Runs on four files each, and expects what the rows say.
pub(crate) fn new_files(rt: &impl Abort, alloc: Global, rows: &[FourFiles]) -> Result<(), Fail> {
    for (words, files, status, report, new) in rows {
        let ended = run_new(alloc, *words, *files, NEVER)?;
        assert_eq!(rt; ended.outcome(), (*status, *report, Some(*new)));
    }
    Ok(())
}
