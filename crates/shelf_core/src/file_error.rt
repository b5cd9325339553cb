//! Why a call on the machine's files failed.

ghost use Rattle.std.specs.Prelude.{◌≡◌, ◌≤◌, Ok, Err, IfOk, IsErr, OnErr, OnOk};
ghost use Rattle.shelf_core.specs.Fault.{Rose};
ghost use Rattle.shelf_core.specs.declared.file_error.FileStop.TheVariants.{Memory};

use crate::outside::ShelfStop;
use std::alloc::{AllocError, AllocFailed};
use std::{fmt, io};
use thiserror::Error;

/// Why a file, or standard output, couldn't be read or written.
#[derive(Clone, Copy, Debug, Drop, Error)]
pub enum FileFault {
    /// The system refused a call.
    #[error("{0}")]
    System(io::Error),
    /// A file ended before the length that it had when it was opened.
    #[error("it ended before its length")]
    Shorter,
    /// A pipe or a device goes on past the most that is taken from one.
    #[error("it goes on past the most that is taken from a pipe")]
    TooLong,
    /// The file that is to be made is one that was read or made, by this name or another.
    #[error("this run has read or made it already, by this name or another")]
    Used,
    /// The file that is to be made is the one that standard output goes to.
    #[error("standard output goes to it")]
    Output,
    /// The write would pass the limit that the system sets to the size of a file.
    #[error("the limit on the size of a file would be passed")]
    SizeLimit,
}

/// Why a call on the machine's files or its standard output was refused.
#[derive(Clone, Copy, Debug, Drop, Error)]
pub enum FileStop {
    /// The machine failed.
    #[error("{0}")]
    Failed(FileFault),
    /// There was no memory for the call.
    #[error("out of memory")]
    Memory,
}

/// A failed call, which is displayed as why it failed.
#[derive(Clone, Copy, Debug)]
pub struct FileError<'a> {
    /// The file's name, as it was given.
    pub name: &'a str,
    /// Why the call failed.
    pub fault: FileFault,
}

/// Why the call failed, in words, as `Permission denied (os error 13)`.
impl fmt::Display for FileError<'_> {
    fn fmt<W: fmt::Write>(&self, f: &mut fmt::Formatter<W>) -> fmt::Result {
        write!(f, "{}", self.fault)
    }
}

/// The failures of the outside: how many there were, up to 2^64 - 1, and before the last call; and the last one.
#[derive(Clone, Copy, Debug)]
pub(crate) struct Faults {
    pub(crate) count: u64,
    pub(crate) before: u64,
    pub(crate) last: Option<FileFault>,
}

impl Faults {
    /// There were none.
    pub(crate) fn none() -> Faults
        ensures none { result.count ≡ 0 }
        ensures before { result.before ≡ 0 }
    {
        Faults {
            count: 0,
            before: 0,
            last: None,
        }
    }

    /// The answer of the outside. A failure is counted and kept.
    pub(crate) fn note<T>(&mut self, answer: Result<T, FileStop>) -> Result<T, ShelfStop>
        ensures ok { IfOk result (λ value. answer ≡ Ok value) }
        ensures err { OnErr result (IsErr answer) }
        ensures kept { self.old.count ≤ self.new.count }
        ensures before { self.new.before ≡ self.old.count }
        ensures clean { OnOk result (self.new.count ≡ self.old.count) }
        ensures no_memory { result ≡ Err ShelfStop.Memory → self.new.count ≡ self.old.count }
        ensures failed { result ≡ Err ShelfStop.Failed → Rose self.old.count self.new.count }
    {
        self.before = self.count;
        match answer {
            Ok(value) => Ok(value),
            Err(FileStop::Memory) => Err(ShelfStop::Memory),
            Err(FileStop::Failed(fault)) => {
                self.count = self.count.saturating_add(1);
                self.last = Some(fault);
                Err(ShelfStop::Failed)
            }
        }
    }
}

impl From<io::Error> for FileStop {
    fn from(error: io::Error) -> FileStop {
        FileStop::Failed(FileFault::System(error))
    }
}

impl From<AllocError> for FileStop {
    ghost from_gives = { λ _ stop. stop ≡ Memory };

    fn from(_refused: AllocError) -> FileStop {
        FileStop::Memory
    }
}

impl<T: Drop> From<AllocFailed<T>> for FileStop {
    ghost from_gives = { λ _ stop. stop ≡ Memory };

    fn from(_refused: AllocFailed<T>) -> FileStop {
        FileStop::Memory
    }
}
