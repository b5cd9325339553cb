//! What the machine's files refuse, and how that is reported.

ghost use Rattle.std.specs.Prelude.{◌≡◌, OnOk};
ghost use Rattle.shelf_core.specs.State.{Closed};

use shelf_core::{DiskShelf, Shelf, ShelfStop, size_in};
use std::alloc::{AllocError, Global};
use std::fs;
use std::test::Fail;

/// Tables of limits, and the limit on the size of a file. The soft limit is the first column after the name of its
/// line. A table without such a line sets no limit, nor does one whose column is no number of 64 bits.
static LIMITS: [(&str, Option<u64>); 8] = [
    (
        "Limit  Soft Limit  Hard Limit  Units\nMax cpu time  7  8  seconds\nMax file size  1024  2048  bytes\n",
        Some(1024),
    ),
    (
        "Max file size             unlimited            unlimited            bytes",
        None,
    ),
    (
        "Max file size             0                    unlimited            bytes",
        Some(0),
    ),
    (
        "Max file size\t18446744073709551615 unlimited bytes",
        Some(u64::MAX),
    ),
    (
        "Max file size             18446744073709551616 unlimited            bytes",
        None,
    ),
    (
        "Max data size             1024                 unlimited            bytes",
        None,
    ),
    ("Max file size", None),
    ("", None),
];

#[test]
fn reads_the_limit_on_the_size_of_a_file(rt: HostRuntime) {
    for (limits, want) in LIMITS.iter() {
        assert_eq!(rt; size_in(limits), *want, "of {limits:?}");
    }
}

/// Writes a file of one letter.
fn write_letter(shelf: &mut DiskShelf<HostRuntime>, name: &str) -> Result<(), ShelfStop>
    requires { (⟦<DiskShelf<HostRuntime> as Shelf>⟧.state shelf.old).mode ≡ Closed }
    ensures { OnOk result ((⟦<DiskShelf<HostRuntime> as Shelf>⟧.state shelf.new).mode ≡ Closed) }
{
    shelf.create(name)?;
    shelf.append(b"m")?;
    shelf.close()
}

/// Whether the last failure of a shelf is of this name, and is reported so.
fn says(
    alloc: Global,
    shelf: &DiskShelf<HostRuntime>,
    name: &str,
    why: &str,
) -> Result<bool, AllocError> {
    let Some(error) = shelf.last_error() else {
        return Ok(false);
    };
    let text = format!(in alloc; "{error}")?;
    Ok((error.name == name) & (text.as_str() == why))
}

/// Whether a file that was made or read is refused to a writer by a name that leads to it, and has what it had.
fn keeps_it(
    rt: HostRuntime,
    shelf: &mut DiskShelf<HostRuntime>,
    name: &str,
    other: &str,
) -> Result<bool, Fail>
    requires { (⟦<DiskShelf<HostRuntime> as Shelf>⟧.state shelf.old).mode ≡ Closed }
    ensures { OnOk result ((⟦<DiskShelf<HostRuntime> as Shelf>⟧.state shelf.new).mode ≡ Closed) }
{
    let Err(refused) = shelf.create(other) else {
        shelf.close()?;
        return Ok(false);
    };
    let kept = fs::read_to_string(&rt, name)?;
    Ok((refused == ShelfStop::Failed) & (kept.as_str() == "m"))
}

/// Why a name is refused to a writer.
const USED: &str = "this run has read or made it already, by this name or another";

/// Whether a file that was made or read is refused to a writer by its name, a path and a link, and that is reported.
fn refuses_each_name(
    rt: HostRuntime,
    shelf: &mut DiskShelf<HostRuntime>,
    name: &str,
    path: &str,
    link: &str,
) -> Result<bool, Fail>
    requires { (⟦<DiskShelf<HostRuntime> as Shelf>⟧.state shelf.old).mode ≡ Closed }
{
    let by_name = keeps_it(rt, shelf, name, name)?;
    let by_path = keeps_it(rt, shelf, name, path)?;
    let by_link = keeps_it(rt, shelf, name, link)?;
    Ok(by_name & by_path & by_link & says(rt.alloc(), shelf, link, USED)?)
}

/// Writes a file of one letter in another run.
fn write_in_another_run(rt: HostRuntime, name: &str) -> Result<(), ShelfStop> {
    let mut shelf = DiskShelf::new(rt);
    write_letter(&mut shelf, name)
}

/// Reads a file of one letter.
fn read_letter(shelf: &mut DiskShelf<HostRuntime>, name: &str) -> Result<bool, ShelfStop>
    requires { (⟦<DiskShelf<HostRuntime> as Shelf>⟧.state shelf.old).mode ≡ Closed }
    ensures { OnOk result ((⟦<DiskShelf<HostRuntime> as Shelf>⟧.state shelf.new).mode ≡ Closed) }
{
    let Some(len) = shelf.open(name)? else {
        return Ok(false);
    };
    let count = shelf.read(&mut [b'-'; 9])?;
    shelf.close()?;
    Ok((len == 1) & (count == 1))
}

/// Whether another run that has read a file is refused it as a writer.
fn refuses_what_it_read(rt: HostRuntime, names: [&str; 3]) -> Result<bool, Fail> {
    let mut shelf = DiskShelf::new(rt);
    let read = read_letter(&mut shelf, names[0])?;
    Ok(read & refuses_each_name(rt, &mut shelf, names[0], names[1], names[2])?)
}

/// A file that was made or read isn't made again, by whatever name. Another run may write it.
#[test]
fn makes_no_file_that_it_used(rt: HostRuntime) -> Result<(), Fail> {
    let name = "shelf_core_made_by_a_test";
    let path = "./shelf_core_made_by_a_test";
    let link = "shelf_core_made_and_linked_by_a_test";
    let mut shelf = DiskShelf::new(rt);
    write_letter(&mut shelf, name)?;
    let made = shelf.last_error().is_none();
    fs::hard_link(&rt, name, link)?;
    assert!(rt; made & refuses_each_name(rt, &mut shelf, name, path, link)?);
    assert!(rt; refuses_what_it_read(rt, [name, path, link])?);
    write_in_another_run(rt, link)?;
    fs::remove_file(&rt, name)?;
    fs::remove_file(&rt, link)?;
    Ok(())
}

/// Whether a file can't be read, though it opens.
fn is_unreadable(shelf: &mut DiskShelf<HostRuntime>, name: &str) -> Result<bool, ShelfStop>
    requires { (⟦<DiskShelf<HostRuntime> as Shelf>⟧.state shelf.old).mode ≡ Closed }
    ensures { OnOk result ((⟦<DiskShelf<HostRuntime> as Shelf>⟧.state shelf.new).mode ≡ Closed) }
{
    let None = shelf.open(name)? else {
        let unread = shelf.read(&mut [b'-'; 9]);
        shelf.close()?;
        return Ok(unread == Err(ShelfStop::Failed));
    };
    Ok(false)
}

/// A failure has the system's words for it, and the file's name as it was given.
#[test]
fn says_why_a_call_failed(rt: HostRuntime) -> Result<(), Fail> {
    let mut shelf = DiskShelf::new(rt);
    assert!(rt; is_unreadable(&mut shelf, ".")?);
    let folder = "Is a directory (os error 21)";
    assert!(rt; says(rt.alloc(), &shelf, ".", folder)?);
    let absent = "shelf_core_absent_folder/file";
    assert!(rt; shelf.create(absent).is_err());
    let nowhere = "No such file or directory (os error 2)";
    assert!(rt; says(rt.alloc(), &shelf, absent, nowhere)?);
    Ok(())
}
