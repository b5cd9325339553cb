ghost use Rattle.std.specs.Prelude.{◌≡◌, ◌≢◌, Bool, Err};
ghost use Rattle.shelf_core.specs.Fault.{Rose};
ghost use Rattle.shelf_core.specs.State.{ShelfState, SinkState, Closed, Reading, Writing};
ghost use Rattle.shelf_core.specs.Calls.{Opens, Reads, Creates, Appends, Closes};
ghost use Rattle.shelf_core.specs.Puts.{Puts};
ghost use Rattle.shelf_core.specs.declared.outside.ShelfStop.TheVariants.{Failed, Memory};

use std::alloc::{AllocError, AllocFailed};
use thiserror::Error;
use watch_core::Watch;

/// Why a call of a shelf or a sink was refused.
#[derive(Clone, Copy, Debug, PartialEq, Eq, Error)]
pub enum ShelfStop {
    /// The outside failed. Its count of faults rose over the call, or stood at its last value, 2^64 - 1.
    #[error("a file or the output failed")]
    Failed,
    /// There was no memory for the call.
    #[error("out of memory")]
    Memory,
}

/// A place for files, each a name and its bytes, of which at most one is open at a time. `ShelfStop::Memory` may come
/// from any call.
pub trait Shelf {
    /// Whether the shelf tells its files. Where it doesn't, as a disk, nothing is claimed of names and bytes, and
    /// `held`, `name` and `unread` of its state mean nothing.
    ghost tells: { Bool };

    /// The files, which of them is open, and the counts of faults: all of them, which never falls, and those of the
    /// last call.
    ghost state: { Self → ShelfState };

    /// Opens a file for reading, and answers its length in bytes, or `None` where there is no such file. None is open
    /// after `None` or a refusal.
    fn open(&mut self, name: &str) -> Result<Option<u64>, ShelfStop>
        requires { (state self.old).mode ≡ Closed }
        ensures { Opens tells name.now (state self.old) (state self.new) result };

    /// Moves the next unread bytes of the open file to the front of `buf`, and answers how many: at least one where
    /// any is unread and `buf` has room, and else 0. A file that ends before its length is a failure. After a refusal
    /// the file is still open, as much of it unread as before.
    fn read(&mut self, buf: &mut [u8]) -> Result<usize, ShelfStop>
        requires { (state self.old).mode ≡ Reading }
        ensures { Reads tells (state self.old) (state self.new) buf.old buf.new result };

    /// Makes a file, empty, and opens it for writing. After a refusal none is open, and the file is as it was or
    /// empty.
    fn create(&mut self, name: &str) -> Result<(), ShelfStop>
        requires { (state self.old).mode ≡ Closed }
        ensures { Creates tells name.now (state self.old) (state self.new) result };

    /// Writes a piece at the end of the open file. A refused call may have written some first part of it, and the file
    /// is still open.
    fn append(&mut self, piece: &[u8]) -> Result<(), ShelfStop>
        requires { (state self.old).mode ≡ Writing }
        ensures { Appends tells piece.now (state self.old) (state self.new) result };

    /// Closes the open file. None is open afterwards, whatever the answer.
    fn close(&mut self) -> Result<(), ShelfStop>
        requires { (state self.old).mode ≢ Closed }
        ensures { Closes tells (state self.old) (state self.new) result };
}

/// A stream of bytes that goes out of the program, as its standard output. It gets what the run is at, too; that
/// changes nothing of what it is to contracts.
pub trait Sink: Watch {
    /// Whether the sink tells the bytes that it took. Where it doesn't, `written` of its state means nothing.
    ghost tells: { Bool };

    /// The bytes that were written, and the counts of faults: all of them, which never falls, and those of the last
    /// call.
    ghost state: { Self → SinkState };

    /// Writes a piece after all that was written. A refused call may have written some first part of it.
    fn put(&mut self, piece: &[u8]) -> Result<(), ShelfStop>
        ensures { Puts tells piece.now (state self.old) (state self.new) result };
}

impl From<AllocError> for ShelfStop {
    ghost from_gives = { λ _ stop. stop ≡ Memory };

    fn from(_refused: AllocError) -> ShelfStop {
        ShelfStop::Memory
    }
}

impl<T: Drop> From<AllocFailed<T>> for ShelfStop {
    ghost from_gives = { λ _ stop. stop ≡ Memory };

    fn from(_refused: AllocFailed<T>) -> ShelfStop {
        ShelfStop::Memory
    }
}
