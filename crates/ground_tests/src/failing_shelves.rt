//! Shelves and sinks that fail at the calls that are given to them.

ghost use Rattle.std.specs.Prelude.{◌≡◌, IfOk};
ghost use Rattle.shelf_core.specs.State.{Closed};

use shelf_core::{MemShelf, MemSink, Shelf, ShelfStop, Sink};
use std::alloc::Global;
use std::test::Fail;

/// A shelf with one file, `letter`, which has `seven`, and that fails at these calls.
fn shelf_failing_at(alloc: Global, calls: &[u64]) -> Result<MemShelf, Fail>
    ensures { IfOk result (λ shelf. (⟦<MemShelf as Shelf>⟧.state shelf).mode ≡ Closed) }
{
    let mut files = Vec::new(alloc);
    files.push((String::from_str(alloc, "letter")?, b"seven".to_vec(alloc)?))?;
    Ok(MemShelf::new(alloc, files, 3, calls.to_vec(alloc)?)?)
}

/// Reads the start of the letter into a buffer, and writes a report of two pieces: seven calls, up to the first that
/// fails.
fn read_and_write(shelf: &mut MemShelf, buf: &mut [u8]) -> Result<(), ShelfStop>
    requires { (⟦<MemShelf as Shelf>⟧.state shelf.old).mode ≡ Closed }
{
    let Some(_) = shelf.open("letter")? else {
        return Ok(());
    };
    shelf.read(buf)?;
    shelf.close()?;
    shelf.create("report")?;
    shelf.append(b"one")?;
    shelf.append(b"two")?;
    shelf.close()
}

/// Whether the calls come to the one that fails, and what was read and written before it stands.
fn stops_at(shelf: &mut MemShelf, call: u64, read: &[u8], report: Option<&[u8]>) -> bool
    requires { (⟦<MemShelf as Shelf>⟧.state shelf.old).mode ≡ Closed }
{
    let mut buf = [b'-'; 5];
    let answer = read_and_write(shelf, &mut buf);
    (answer == Err(ShelfStop::Failed))
        & (buf.as_slice() == read)
        & (shelf.calls() == call.saturating_add(1))
        & (shelf.file("report") == report)
        & (shelf.file("letter") == Some(b"seven".as_slice()))
}

/// A call that fails, what is read before it, and what stands in the report then.
static FAILURES: [(u64, &[u8], Option<&[u8]>); 7] = [
    (0, b"-----", None),
    (1, b"-----", None),
    (2, b"sev--", None),
    (3, b"sev--", None),
    (4, b"sev--", Some(b"")),
    (5, b"sev--", Some(b"one")),
    (6, b"sev--", Some(b"onetwo")),
];

/// Each call fails in turn: what was written before it stands, and none is made after it.
#[test]
fn fails_at_each_call(rt: HostRuntime) -> Result<(), Fail> {
    for (call, read, report) in FAILURES.iter() {
        let mut shelf = shelf_failing_at(rt.alloc(), &[*call])?;
        assert!(rt;
            stops_at(&mut shelf, *call, read, *report),
            "at call {call}"
        );
    }
    Ok(())
}

/// The calls 1 and 4 of these are made to fail.
fn reads_on(shelf: &mut MemShelf) -> Result<bool, ShelfStop>
    requires { (⟦<MemShelf as Shelf>⟧.state shelf.old).mode ≡ Closed }
{
    let mut buf = [b'-'; 5];
    let Some(len) = shelf.open("letter")? else {
        return Ok(false);
    };
    let unread = shelf.read(&mut buf);
    let first = shelf.read(&mut buf)?;
    let second = shelf.read(&mut buf)?;
    let unclosed = shelf.close();
    let absent = shelf.open("report")?;
    Ok(
        (len == 5)
            & (unread == Err(ShelfStop::Failed))
            & (first == 3)
            & (second == 2)
            & (buf.as_slice() == b"env--".as_slice())
            & (unclosed == Err(ShelfStop::Failed))
            & absent.is_none(),
    )
}

/// A call that isn't made to fail does what it does elsewhere, also after one that failed.
#[test]
fn goes_on_after_a_failure(rt: HostRuntime) -> Result<(), Fail> {
    let mut shelf = shelf_failing_at(rt.alloc(), &[9, 1, 4])?;
    let answer = reads_on(&mut shelf);
    assert_eq!(rt; (answer, shelf.calls()), (Ok(true), 6));
    Ok(())
}

/// A sink writes nothing of a piece where it is made to fail.
#[test]
fn fails_at_a_put(rt: HostRuntime) -> Result<(), Fail> {
    let mut sink = MemSink::new(rt.alloc(), [1].to_vec(rt.alloc())?);
    let answers = (sink.put(b"one, "), sink.put(b"two, "), sink.put(b"three"));
    assert_eq!(rt;
        (answers, sink.written()),
        (
            (Ok(()), Err(ShelfStop::Failed), Ok(())),
            b"one, three".as_slice()
        )
    );
    Ok(())
}
