ghost use Rattle.std.specs.Prelude.{◌≡◌, [], false};

use crate::file_error::{Faults, FileError, FileFault, FileStop};
use crate::file_id::OUTPUT;
use crate::file_limit::file_size_limit;
use crate::outside::{ShelfStop, Sink};
use std::alloc::Alloc;
use std::io::Write;
use std::rt::{Files, Runtime};
use std::{fs, io};
use watch_core::{Silent, Stage, Watch};

/// What a failure of the standard output names.
const NAME: &str = "standard output";

/// The machine's standard output. It does not tell what was written. A piece that would take a regular file past the
/// limit that the system sets to its size is a fault. What the run is at goes to its watcher.
#[derive(Drop)]
pub struct StdSink<R: Runtime, W: Watch = Silent> {
    rt: R,
    watch: W,
    faults: Faults,
}

impl<R: Runtime> StdSink<R> {
    /// The standard output of the runtime; nobody watches.
    pub fn new(rt: R) -> StdSink<R>
        ensures { (⟦<StdSink<R> as Sink>⟧.state result).faults ≡ 0 }
    {
        StdSink::watched(rt, Silent)
    }
}

impl<R: Runtime, W: Watch> StdSink<R, W> {
    /// The standard output of the runtime, and a watcher that gets what the run is at.
    pub fn watched(rt: R, watch: W) -> StdSink<R, W>
        ensures { (⟦<StdSink<R, W> as Sink>⟧.state result).faults ≡ 0 }
    {
        StdSink {
            rt,
            watch,
            faults: Faults::none(),
        }
    }

    /// The last call that failed; `None` where none did.
    pub fn last_error(&self) -> Option<FileError<'_>> {
        let fault = self.faults.last?;
        Some(FileError { name: NAME, fault })
    }
}

impl<R: Runtime, W: Watch> Watch for StdSink<R, W> {
    fn at(&self, stage: Stage) {
        self.watch.at(stage)
    }
}

impl<R: Runtime, W: Watch> Sink for StdSink<R, W> {
    ghost use Rattle.shelf_core.specs.Disk.{latest_of};

    ghost tells = { false };

    ghost state = { λ sink. record { written = []; faults = sink.faults.count; latest = latest_of sink.faults } };

    fn put(&mut self, piece: &[u8]) -> Result<(), ShelfStop> {
        self.faults.note(print_all(&self.rt, piece))
    }
}

/// Writes all of a piece to the standard output, and leaves nothing of it in a buffer.
fn print_all<R: Runtime>(rt: &R, piece: &[u8]) -> Result<(), FileStop> {
    if piece.len() as u64 > room_for_output(rt) {
        return Err(FileStop::Failed(FileFault::SizeLimit));
    }
    let mut output = io::writer(rt);
    output.write_all(piece)?;
    output.flush().map_err(FileStop::from)
}

/// How many bytes standard output may take: what goes to a regular file stands at its end, and the limit on the size of
/// a file leaves room for so many.
fn room_for_output<R: Files + Alloc>(rt: &R) -> u64 {
    match fs::metadata(rt, OUTPUT) {
        Ok(metadata) if metadata.is_file() => file_size_limit(rt).saturating_sub(metadata.len()),
        _ => u64::MAX,
    }
}
