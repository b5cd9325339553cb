ghost use Rattle.std.specs.Prelude.{◌≡◌, ◌+◌, ◌≤◌, ◌<◌, length, false, IfOk, IfSome, OnErr};
ghost use Rattle.shelf_core.specs.State.{Closed, Writing};
ghost use Rattle.shelf_core.specs.Disk.{IsOpenToRead, disk_mode};

use crate::file_error::{Faults, FileError, FileFault, FileStop};
use crate::file_id::{FileId, output_file};
use crate::file_limit::file_size_limit;
use crate::outside::{Shelf, ShelfStop};
use crate::stream::{Stream, read_next};
use std::alloc::{Alloc, AllocError, Allocator};
use std::fs::{File, OpenFile, OpenOptions};
use std::io::{ErrorKind, Read, Write};
use std::mem;
use std::rt::{Files, Runtime};

/// The most bytes that are taken from a pipe or a device, unless more are expected: as many as a netlist may have.
const STREAM_BOUND: usize = 67_108_864;

/// The most bytes that are taken from one of which more are expected, as an account: 1 GiB, since accounts of hard
/// matches have hundreds of megabytes.
const LONG_STREAM_BOUND: usize = 1 << 30;

/// The machine's files, by their paths. It does not tell their bytes. What is neither a file nor a directory, as a
/// pipe or a device, is read to its end when it is opened, since its length isn't known before. One that goes on past
/// 67,108,864 bytes, or where more are expected past 1 GiB, opens with a length of one byte more than that, and fails
/// at its first read. A directory opens, and fails at its first read. A regular file that was read or made isn't made
/// again, nor is the file that standard output goes to, whatever names lead to them: to create one is a fault, and
/// leaves it as it is. A file that would grow past the limit that the system sets to the size of a file is a fault. A
/// file that was written is closed once it is on its device. Each error of the machine is a fault, but that a path to
/// be read leads to nothing.
#[derive(Drop)]
pub struct DiskShelf<R: Runtime> {
    rt: R,
    opened: Opened<R::File, R::A>,
    /// The regular files that were read or made.
    used: Vec<FileId, R::A>,
    /// The name that the last `open` or `create` was given.
    name: String<R::A>,
    /// The name under which a long pipe is expected; empty where none is.
    long: String<R::A>,
    faults: Faults,
}

/// The file that is open, if any.
enum Opened<F, A: Allocator> {
    No,
    Reading { file: F, left: u64 },
    Held(Stream<A>),
    /// A pipe or a device that goes on past the most that is taken from it, with a length past that.
    Endless { left: u64 },
    Writing { file: F, room: Room },
}

/// How much a file that is written may take.
#[derive(Clone, Copy, Debug)]
enum Room {
    /// A regular file takes so many bytes more, by the limit on its size.
    Left(u64),
    /// A pipe or a device takes what it can, and needn't be synced.
    Unbounded,
}

// By hand, so that each exit of a function has one call for it (docs/IDIOMS.md).
impl<F: Drop, A: Allocator> Drop for Opened<F, A> {
    fn drop(self) {
        match self {
            Opened::No => {}
            Opened::Reading {
                file: _file,
                left: _left,
            } => {}
            Opened::Held(_stream) => {}
            Opened::Endless { left: _left } => {}
            Opened::Writing {
                file: _file,
                room: _room,
            } => {}
        }
    }
}

impl<R: Runtime> DiskShelf<R> {
    /// The files of the runtime, none of them open.
    pub fn new(rt: R) -> DiskShelf<R>
        ensures closed { (⟦<DiskShelf<R> as Shelf>⟧.state result).mode ≡ Closed }
        ensures faults { (⟦<DiskShelf<R> as Shelf>⟧.state result).faults ≡ 0 }
    {
        let used = Vec::new(rt.alloc());
        let name = String::new(rt.alloc());
        let long = String::new(rt.alloc());
        DiskShelf {
            rt,
            opened: Opened::No,
            used,
            name,
            long,
            faults: Faults::none(),
        }
    }

    /// Takes up to 1 GiB from a pipe or a device of this name, as an account may be.
    pub fn expect_long(&mut self, name: &str) -> Result<(), AllocError>
        ensures { (⟦<DiskShelf<R> as Shelf>⟧.state self.new) ≡ (⟦<DiskShelf<R> as Shelf>⟧.state self.old) }
    {
        self.long = String::from_str(self.rt.alloc(), name)?;
        Ok(())
    }

    /// The last call that failed, with the name that the last `open` or `create` was given; `None` where none failed.
    pub fn last_error(&self) -> Option<FileError<'_>> {
        let fault = self.faults.last?;
        let name = self.name.as_str();
        Some(FileError { name, fault })
    }
}

impl<R: Runtime> Shelf for DiskShelf<R> {
    ghost use Rattle.shelf_core.specs.Disk.{disk_state};

    ghost tells = { false };

    ghost state = { λ shelf. disk_state shelf.opened shelf.faults };

    fn open(&mut self, name: &str) -> Result<Option<u64>, ShelfStop> {
        let copy = String::from_str(self.rt.alloc(), name).map_err(FileStop::from);
        self.name = self.faults.note(copy)?;
        let bound = if name == self.long.as_str() {
            LONG_STREAM_BOUND
        } else {
            STREAM_BOUND
        };
        let found = open_to_read(&self.rt, name, bound, &mut self.used);
        let Some((opened, left)) = self.faults.note(found)? else {
            return Ok(None);
        };
        self.opened = opened;
        Ok(Some(left))
    }

    fn read(&mut self, buf: &mut [u8]) -> Result<usize, ShelfStop> {
        let answer = match &mut self.opened {
            Opened::Reading { file, left } => read_some(file, buf, left),
            Opened::Held(stream) => Ok(stream.read(buf)),
            Opened::Endless { .. } => Err(FileStop::Failed(FileFault::TooLong)),
            _ => unreachable!(),
        };
        self.faults.note(answer)
    }

    fn create(&mut self, name: &str) -> Result<(), ShelfStop> {
        let copy = String::from_str(self.rt.alloc(), name).map_err(FileStop::from);
        self.name = self.faults.note(copy)?;
        let opened = open_to_write(&self.rt, name, &mut self.used);
        self.opened = self.faults.note(opened)?;
        Ok(())
    }

    fn append(&mut self, piece: &[u8]) -> Result<(), ShelfStop> {
        let Opened::Writing { file, room } = &mut self.opened else {
            unreachable!()
        };
        let answer = append_within(file, room, piece);
        self.faults.note(answer)
    }

    fn close(&mut self) -> Result<(), ShelfStop> {
        let file = mem::replace(&mut self.opened, Opened::No);
        self.faults.note(sync_written(&file))
    }
}

/// The file of a path, open for reading, with the number of its bytes; `None` where the path leads to nothing. A
/// regular file is noted as one that is used. Of a pipe or a device at most `bound` bytes are kept.
fn open_to_read<R: Files + Alloc>(
    rt: &R,
    name: &str,
    bound: usize,
    used: &mut Vec<FileId, R::A>,
) -> Result<Option<(Opened<R::File, R::A>, u64)>, FileStop>
    ensures { IfOk result (λ found. IfSome found (λ sized. IsOpenToRead sized.0 sized.1)) }
{
    let mut file = match File::open(rt, name) {
        Err(error) if error.kind() == ErrorKind::NotFound => return Ok(None),
        opened => opened?,
    };
    let metadata = file.metadata()?;
    if !metadata.is_file() && !metadata.is_dir() {
        return Ok(Some(open_stream(rt.alloc(), &mut file, bound)?));
    }
    if metadata.is_file() {
        used.push(FileId::of(&metadata))?;
    }
    // a directory has no bytes: it is to fail at its first read, also where its length is 0
    let left = metadata.len().max(u64::from(metadata.is_dir()));
    Ok(Some((Opened::Reading { file, left }, left)))
}

/// A pipe or a device, read to its end, with the number of its bytes; one that goes on past `bound` has one byte more
/// than that, and nothing of it is kept.
fn open_stream<F: Read, A: Allocator>(
    alloc: A,
    file: &mut F,
    bound: usize,
) -> Result<(Opened<F, A>, u64), FileStop>
    ensures { IfOk result (λ sized. IsOpenToRead sized.0 sized.1) }
{
    match Stream::read_from(alloc, file, bound)? {
        Some(stream) => {
            let left = stream.left() as u64;
            Ok((Opened::Held(stream), left))
        }
        None => {
            let left = (bound as u64).saturating_add(1);
            Ok((Opened::Endless { left }, left))
        }
    }
}

/// The file of a path, empty and open for writing; it is made where the path leads to nothing. A regular file that is
/// used already is an error, and so is the file of standard output; either is left as it is. So the file is opened with
/// its bytes, and emptied once it is known to be none of those.
fn open_to_write<R: Files + Alloc>(
    rt: &R,
    name: &str,
    used: &mut Vec<FileId, R::A>,
) -> Result<Opened<R::File, R::A>, FileStop>
    ensures { IfOk result (λ opened. disk_mode opened ≡ Writing) }
{
    // where standard output is closed, the file that is opened next may take its number
    let output = output_file(rt);
    let file = OpenOptions::new().write(true).create(true).open(rt, name)?;
    let metadata = file.metadata()?;
    let id = FileId::of(&metadata);
    if output == Some(id) {
        return Err(FileStop::Failed(FileFault::Output));
    }
    if !metadata.is_file() {
        let room = Room::Unbounded;
        return Ok(Opened::Writing { file, room });
    }
    note_once(id, used)?;
    file.set_len(0)?;
    let room = Room::Left(file_size_limit(rt));
    Ok(Opened::Writing { file, room })
}

/// Notes a file as one that is used; that it is so already is an error.
fn note_once<A: Allocator>(id: FileId, used: &mut Vec<FileId, A>) -> Result<(), FileStop> {
    // a run uses four files at most, so that a scan is good enough
    if used.contains(&id) {
        return Err(FileStop::Failed(FileFault::Used));
    }
    used.push(id)?;
    Ok(())
}

/// Writes a piece at the end of a file, where there is room for it.
fn append_within<F: Write>(file: &mut F, room: &mut Room, piece: &[u8]) -> Result<(), FileStop> {
    if let Room::Left(left) = room {
        let len = piece.len() as u64;
        if len > *left {
            return Err(FileStop::Failed(FileFault::SizeLimit));
        }
        *left -= len;
    }
    file.write_all(piece).map_err(FileStop::from)
}

/// Waits until what was written to a regular file is on its device, so that a write which fails late is an error.
fn sync_written<F: OpenFile, A: Allocator>(opened: &Opened<F, A>) -> Result<(), FileStop> {
    match opened {
        Opened::Writing {
            file,
            room: Room::Left(_),
        } => file.sync_all().map_err(FileStop::from),
        _ => Ok(()),
    }
}

/// Reads at most `left` bytes, and at least one if there is any and room for it. A file that ends before is an error.
fn read_some<F: Read>(file: &mut F, buf: &mut [u8], left: &mut u64) -> Result<usize, FileStop>
    ensures within { IfOk result (λ count. count ≤ length buf.old) }
    ensures left { IfOk result (λ count. count + left.new ≡ left.old) }
    ensures some { IfOk result (λ count. 0 < left.old → 0 < length buf.old → 0 < count) }
    ensures refused { OnErr result (left.new ≡ left.old) }
{
    let room = (*left).min(buf.len() as u64) as usize;
    if room == 0 {
        return Ok(0);
    }
    let count = read_next(file, &mut buf[..room])?;
    if count == 0 {
        return Err(FileStop::Failed(FileFault::Shorter));
    }
    *left -= count as u64;
    Ok(count)
}
