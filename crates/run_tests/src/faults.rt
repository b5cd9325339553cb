//! Calls of the outside that fail in turn.

ghost use Rattle.std.specs.Prelude.{◌≤◌};

use crate::files::{A, AND, B, EMPTY, XOR};
use crate::runs::{CHECK, Ended, Failing, MATCH, NEVER, NONE, run_failing};
use std::alloc::{AllocError, Global};
use std::process::Abort;
use std::test::Fail;

/// Seeks a match where a call of the shelf fails.
fn seek(alloc: Global, netlists: [&[u8]; 2], call: u64) -> Result<Ended, AllocError> {
    run_failing(alloc, MATCH, netlists, None, Failing { call, ..NONE })
}

/// What is printed and what stands under the account's name where a call fails: open, read and close of either netlist;
/// create; the lines, the last line, and the close.
static OF_NOTHING: [(&[u8], Option<&[u8]>); 10] = [
    (b"read fault\n", None),
    (b"read fault\n", None),
    (b"read fault\n", None),
    (b"read fault\n", None),
    (b"read fault\n", None),
    (b"read fault\n", None),
    (b"", None),
    (b"", Some(b"")),
    (b"", Some(b"npnp 1\nmatch\n")),
    (b"", Some(b"npnp 1\nmatch\nend\n")),
];

/// Seeks a match where the first calls fail in turn, each the last one of its run.
fn expect_in_turn(
    rt: &impl Abort,
    alloc: Global,
    netlists: [&[u8]; 2],
    rows: &[(&[u8], Option<&[u8]>)],
) -> Result<(), Fail> {
    for (call, (report, account)) in rows.iter().enumerate() {
        let call = call as u64;
        let ended = seek(alloc, netlists, call)?;
        assert_eq!(rt;
            (ended.outcome(), ended.calls),
            ((6, *report, *account), call + 1)
        );
    }
    Ok(())
}

/// The first calls of a run with a longer account, up to the one that creates it.
#[test]
fn leaves_a_first_part_of_the_account(rt: HostRuntime) -> Result<(), Fail> {
    expect_in_turn(&rt, rt.alloc(), [EMPTY, EMPTY], &OF_NOTHING)?;
    expect_in_turn(&rt, rt.alloc(), [A, B], &OF_NOTHING[..7])
}

/// The third read, of five bytes, is that of the first netlist's last bytes.
#[test]
fn fails_at_the_third_read(rt: HostRuntime) -> Result<(), Fail> {
    let failing = Failing {
        call: 3,
        cut: 5,
        ..NONE
    };
    let ended = run_failing(rt.alloc(), MATCH, [EMPTY, EMPTY], None, failing)?;
    assert_eq!(rt;
        (ended.outcome(), ended.calls),
        ((6, b"read fault\n".as_slice(), None), 4)
    );
    Ok(())
}

/// How many bytes of the account don't stand where a call fails: all of them, the last line, or none.
static LEFT_OUT: [(u64, usize); 3] = [(7, usize::MAX), (8, 4), (9, 0)];

#[test]
fn leaves_first_parts_of_longer_accounts(rt: HostRuntime) -> Result<(), Fail> {
    let whole = seek(rt.alloc(), [A, B], NEVER)?;
    let account = whole.account.as_deref().unwrap_or(b"");
    assert!(rt; (whole.status == 0) & !account.is_empty());
    for (call, left_out) in LEFT_OUT.iter() {
        let ended = seek(rt.alloc(), [A, B], *call)?;
        let count = account.len().saturating_sub(*left_out);
        assert_eq!(rt;
            ended.outcome(),
            (6, b"".as_slice(), Some(&account[..count]))
        );
    }
    Ok(())
}

#[test]
fn writes_the_account_where_nothing_can_be_printed(rt: HostRuntime) -> Result<(), Fail> {
    let failing = Failing { put: 0, ..NONE };
    let ended = run_failing(rt.alloc(), MATCH, [EMPTY, EMPTY], None, failing)?;
    assert_eq!(rt;
        ended.outcome(),
        (6, b"".as_slice(), Some(b"npnp 1\nmatch\nend\n".as_slice()))
    );
    Ok(())
}

/// The account of a match of two netlists without ports.
const OF_EMPTY: &[u8] = b"npnp 1\nmatch\nend\n";

/// What is known of the first netlist.
const INFO: &[&str] = &["info", "A"];

/// Words that ask for files to be read, and how many calls that makes: open, read and close of each.
static READING: [(&[&str], u64); 2] = [(CHECK, 9), (INFO, 3)];

/// Runs on two netlists without ports and their account where a call fails: the run ends with status 6 and this report,
/// by so many calls of the shelf, and leaves the account.
fn expect_fault(
    rt: &impl Abort,
    alloc: Global,
    words: &[&str],
    failing: Failing,
    report: &[u8],
    calls: u64,
) -> Result<(), Fail>
    requires { 1 ≤ failing.cut }
{
    let ended = run_failing(alloc, words, [EMPTY, EMPTY], Some(OF_EMPTY), failing)?;
    assert_eq!(rt;
        (ended.status, ended.report.as_slice(), ended.calls),
        (6, report, calls)
    );
    assert!(rt; ended.account.as_deref() == Some(OF_EMPTY));
    Ok(())
}

/// The calls that read fail in turn, each the last one of its run.
fn expect_read_faults(
    rt: &impl Abort,
    alloc: Global,
    words: &[&str],
    calls: u64,
) -> Result<(), Fail> {
    for call in 0..calls {
        let failing = Failing { call, ..NONE };
        let calls = call.saturating_add(1);
        expect_fault(rt, alloc, words, failing, b"read fault\n", calls)?;
    }
    Ok(())
}

#[test]
fn calls_nothing_after_a_fault(rt: HostRuntime) -> Result<(), Fail> {
    for (words, calls) in READING.iter() {
        expect_read_faults(&rt, rt.alloc(), *words, *calls)?;
    }
    Ok(())
}

/// A refusal of the AND and the exclusive or, of which line 2 has a vector that breaks nothing.
const BAD_LINE: &[u8] = b"npnp 1\n\
      fails b 0 up 0 =11\n\
      fails b 0 down 0 =10\n\
      fails b 0 up 1 =10\n\
      fails b 0 down 1 =01\n\
      holds a 0 up 0\n\
      l : 0 7 1\n\
      ban o0+0 : tally binate 0 1 2 3 / 4\n\
      ban o0-0 : tally binate 0 1 2 3 / 4\n\
      ban : cover out 0 / 0 / 0 1\n\
      none ban 2\n\
      end\n";

/// A call that fails, and how the check ends then. Of 16 bytes a read, calls 0 to 3 and 4 to 8 are those of the
/// netlists; 9 opens the account, 10 and 11 read its first two lines, and 12 closes it.
static AROUND_THE_CLOSE: [(u64, u8, &[u8]); 2] = [
    (12, 6, b"read fault\n"),
    (13, 2, b"rejected line 2 vector\n"),
];

#[test]
fn reads_no_more_than_the_first_bad_line(rt: HostRuntime) -> Result<(), Fail> {
    for (call, status, report) in AROUND_THE_CLOSE.iter() {
        let failing = Failing {
            call: *call,
            cut: 16,
            ..NONE
        };
        let ended = run_failing(rt.alloc(), CHECK, [AND, XOR], Some(BAD_LINE), failing)?;
        assert_eq!(rt;
            (ended.status, ended.report.as_slice(), ended.calls),
            (*status, *report, 13)
        );
    }
    Ok(())
}

/// Words of which the report can't be printed, with how many calls of the shelf they make.
static UNPRINTED: [(&[&str], u64); 3] = [(CHECK, 9), (INFO, 3), (&["make", "7", "A", "B"], 6)];

#[test]
fn ends_where_nothing_can_be_printed(rt: HostRuntime) -> Result<(), Fail> {
    for (words, calls) in UNPRINTED.iter() {
        let failing = Failing { put: 0, ..NONE };
        expect_fault(&rt, rt.alloc(), *words, failing, b"", *calls)?;
    }
    Ok(())
}
