ghost use Rattle.std.specs.Prelude.{◌≡◌, ◌≢◌, Err, IfOk, OnOk, string_bytes};
ghost use Rattle.shelf_core.specs.State.{Closed, Reading};

use shelf_core::{
    DiskShelf, FileStop, SafeShelf, SafeSink, Shelf, ShelfStop, Sink, StdSink, Stream,
};
use std::alloc::{AllocError, Global};
use std::fs;
use std::fs::File;
use std::io::Read;
use std::test::Fail;

fn file_of(alloc: Global, name: &str, bytes: &[u8]) -> Result<(String, Vec<u8>), AllocError>
    ensures { IfOk result (λ file. string_bytes file.0 ≡ name.now) }
{
    let bytes = bytes.to_vec(alloc)?;
    Ok((String::from_str(alloc, name)?, bytes))
}

/// A shelf of two files, `letter` and `other`, of which at most three bytes are read at once.
fn shelf_of_two(alloc: Global) -> Result<SafeShelf, AllocError>
    ensures { IfOk result (λ shelf. (⟦<SafeShelf as Shelf>⟧.state shelf).mode ≡ Closed) }
{
    let mut files = Vec::new(alloc);
    files.push(file_of(alloc, "letter", b"seven!!")?)?;
    files.push(file_of(alloc, "other", b"no")?)?;
    SafeShelf::new(alloc, files, 3)
}

/// Whether a read takes n bytes, and the buffer has these then.
fn reads_so(
    shelf: &mut SafeShelf,
    buf: &mut [u8],
    count: usize,
    want: &[u8],
) -> Result<bool, ShelfStop>
    requires { (⟦<SafeShelf as Shelf>⟧.state shelf.old).mode ≡ Reading }
    ensures { (⟦<SafeShelf as Shelf>⟧.state shelf.new).mode ≡ Reading }
{
    let answer = shelf.read(buf)?;
    Ok((answer == count) & (&*buf == want))
}

/// Whether the letter is read as the cut and the buffer have it: six calls.
fn reads_the_letter(shelf: &mut SafeShelf) -> Result<bool, ShelfStop>
    requires { (⟦<SafeShelf as Shelf>⟧.state shelf.old).mode ≡ Closed }
    ensures { OnOk result ((⟦<SafeShelf as Shelf>⟧.state shelf.new).mode ≡ Closed) }
{
    let mut buf = [b'-'; 5];
    let Some(len) = shelf.open("letter")? else {
        return Ok(false);
    };
    let first = reads_so(shelf, &mut buf, 3, b"sev--")?;
    let second = reads_so(shelf, &mut buf[..2], 2, b"en")?;
    let third = reads_so(shelf, &mut buf, 2, b"!!v--")?;
    let end = reads_so(shelf, &mut buf, 0, b"!!v--")?;
    shelf.close()?;
    Ok((len == 7) & first & second & third & end)
}

/// Makes a report, which wasn't there, and the letter again: seven calls.
fn writes_two_files(shelf: &mut SafeShelf) -> Result<bool, ShelfStop>
    requires { (⟦<SafeShelf as Shelf>⟧.state shelf.old).mode ≡ Closed }
{
    let None = shelf.open("report")? else {
        return Ok(false);
    };
    shelf.create("report")?;
    shelf.close()?;
    shelf.create("letter")?;
    shelf.append(b"on")?;
    shelf.append(b"ce")?;
    shelf.close()?;
    Ok(true)
}

/// A file is read in pieces of at most three bytes, an absent one is not found, and what is written reads back.
#[test]
fn keeps_files_in_memory(rt: HostRuntime) -> Result<(), Fail> {
    let mut shelf = shelf_of_two(rt.alloc())?;
    shelf.never_fails();
    assert!(rt; reads_the_letter(&mut shelf)?);
    assert!(rt; writes_two_files(&mut shelf)?);
    assert_eq!(rt;
        (shelf.file("report"), shelf.file("letter")),
        (Some(b"".as_slice()), Some(b"once".as_slice()))
    );
    assert_eq!(rt;
        (shelf.file("other"), shelf.file("none"), shelf.calls()),
        (Some(b"no".as_slice()), None, 13)
    );
    Ok(())
}

/// What is written to a sink in memory stays there in order.
#[test]
fn keeps_what_is_written(rt: HostRuntime) -> Result<(), Fail> {
    let mut sink = SafeSink::new(rt.alloc());
    sink.put(b"one, ")?;
    sink.put(b"")?;
    put_in_memory(&mut sink, b"two")?;
    assert_eq!(rt; sink.written(), b"one, two".as_slice());
    Ok(())
}

/// A caller knows that a sink in memory has no failures.
fn put_in_memory(sink: &mut SafeSink, piece: &[u8]) -> Result<(), ShelfStop>
    ensures { result ≢ Err ShelfStop.Failed }
{
    sink.put(piece)
}

/// Writes a file in two pieces.
fn write_letter(shelf: &mut DiskShelf<HostRuntime>, name: &str) -> Result<(), ShelfStop>
    requires { (⟦<DiskShelf<HostRuntime> as Shelf>⟧.state shelf.old).mode ≡ Closed }
    ensures { OnOk result ((⟦<DiskShelf<HostRuntime> as Shelf>⟧.state shelf.new).mode ≡ Closed) }
{
    shelf.create(name)?;
    shelf.append(b"seven")?;
    shelf.append(b"!!")?;
    shelf.close()
}

/// Whether the letter is read in other pieces than it was written in.
fn reads_back(shelf: &mut DiskShelf<HostRuntime>, name: &str) -> Result<bool, ShelfStop>
    requires { (⟦<DiskShelf<HostRuntime> as Shelf>⟧.state shelf.old).mode ≡ Closed }
    ensures { OnOk result ((⟦<DiskShelf<HostRuntime> as Shelf>⟧.state shelf.new).mode ≡ Closed) }
{
    let mut front = [b'-'; 4];
    let mut rest = [b'-'; 5];
    let Some(len) = shelf.open(name)? else {
        return Ok(false);
    };
    let first = shelf.read(&mut front)?;
    let second = shelf.read(&mut rest)?;
    let end = shelf.read(&mut front)?;
    shelf.close()?;
    Ok(
        (len == 7)
            & (first == 4)
            & (second == 3)
            & (end == 0)
            & (front.as_slice() == b"seve".as_slice())
            & (rest.as_slice() == b"n!!--".as_slice()),
    )
}

/// Whether a file isn't found, and a folder opens but can't be read.
fn finds_no_file(shelf: &mut DiskShelf<HostRuntime>, name: &str) -> Result<bool, ShelfStop>
    requires { (⟦<DiskShelf<HostRuntime> as Shelf>⟧.state shelf.old).mode ≡ Closed }
{
    let None = shelf.open(name)? else {
        return Ok(false);
    };
    let Some(_) = shelf.open(".")? else {
        return Ok(false);
    };
    let mut buf = [b'-'; 9];
    let unread = shelf.read(&mut buf);
    shelf.close()?;
    Ok(unread == Err(ShelfStop::Failed))
}

/// Over the machine's files: what is written reads back, an absent file is not found, and a directory can't be read.
#[test]
fn reaches_the_disk(rt: HostRuntime) -> Result<(), Fail> {
    let name = "shelf_core_written_by_a_test";
    let mut shelf = DiskShelf::new(rt);
    write_letter(&mut shelf, name)?;
    assert!(rt; reads_back(&mut shelf, name)?);
    fs::remove_file(&rt, name)?;
    assert!(rt; finds_no_file(&mut shelf, name)?);
    Ok(())
}

/// The length with which a file opens, and what its first read comes to.
fn first_read(
    shelf: &mut DiskShelf<HostRuntime>,
    name: &str,
) -> Result<Option<(u64, Result<usize, ShelfStop>)>, ShelfStop>
    requires { (⟦<DiskShelf<HostRuntime> as Shelf>⟧.state shelf.old).mode ≡ Closed }
    ensures { OnOk result ((⟦<DiskShelf<HostRuntime> as Shelf>⟧.state shelf.new).mode ≡ Closed) }
{
    let Some(len) = shelf.open(name)? else {
        return Ok(None);
    };
    let mut buf = [b'-'; 3];
    let count = shelf.read(&mut buf);
    shelf.close()?;
    Ok(Some((len, count)))
}

/// What the machine's null device has is an empty file. A device that never ends opens as a file that is longer than a
/// netlist may be, and fails at its first read.
#[test]
fn reads_devices(rt: HostRuntime) -> Result<(), Fail> {
    let mut shelf = DiskShelf::new(rt);
    let empty = first_read(&mut shelf, "/dev/null")?;
    let endless = first_read(&mut shelf, "/dev/zero")?;
    assert_eq!(rt; empty, Some((0, Ok(0))));
    assert_eq!(rt; endless, Some((67_108_865, Err(ShelfStop::Failed))));
    Ok(())
}

/// Whether five bytes are read in two pieces, of four and one, and then none.
fn reads_five(stream: &mut Stream<Global>) -> bool {
    let mut buf = [b'-'; 4];
    let mut same = stream.left() == 5;
    same = same & (stream.read(&mut buf) == 4) & (buf.as_slice() == b"seve".as_slice());
    same = same & (stream.read(&mut buf) == 1) & (buf.as_slice() == b"neve".as_slice());
    same & (stream.read(&mut buf) == 0)
}

/// A stream is kept whole where it ends within the bound.
#[test]
fn holds_a_stream_within_its_bound(rt: HostRuntime) -> Result<(), Fail> {
    let mut five = b"seven".as_slice();
    let mut found = Stream::read_from(rt.alloc(), &mut five, 5)?;
    let held = found.as_mut().is_some_and(reads_five);
    assert!(rt; held);
    Ok(())
}

/// Whether a stream goes on past a bound.
fn goes_on_past<F: Read>(alloc: Global, file: &mut F, bound: usize) -> Result<bool, FileStop> {
    Ok(Stream::read_from(alloc, file, bound)?.is_none())
}

/// Of a stream that goes on past its bound nothing is kept.
#[test]
fn holds_no_stream_past_its_bound(rt: HostRuntime) -> Result<(), Fail> {
    let mut six = b"eleven".as_slice();
    assert!(rt; goes_on_past(rt.alloc(), &mut six, 5)?);
    let mut endless = File::open(&rt, "/dev/zero")?;
    assert!(rt; goes_on_past(rt.alloc(), &mut endless, 100_000)?);
    Ok(())
}

/// The standard output takes a piece, and an empty one.
#[test]
fn prints(rt: HostRuntime) -> Result<(), Fail> {
    let mut sink = StdSink::new(rt);
    sink.put(b"printed by a test\n")?;
    sink.put(b"")?;
    Ok(())
}
