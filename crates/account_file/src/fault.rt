//! What is wrong with the form of an account's records.

ghost use Rattle.std.specs.Prelude.{◌≡◌};

use std::alloc::{AllocError, AllocFailed};
use thiserror::Error;

/// What is wrong with a record's form: with a line of an account of version 1, or with an entry of version 2.
#[derive(Clone, Copy, Debug, Drop, PartialEq, Eq, Error)]
pub enum RecordFault {
    /// The first line isn't `npnp 1`. Of version 1 alone.
    #[error("the account does not begin with the line `npnp 1`")]
    Header,
    /// A word doesn't fit the line's form, or one is missing, or a blank is; or an entry's tag is of no record, or its
    /// fields have a byte without a meaning or end elsewhere than its body.
    #[error("it has the form of no record")]
    Word,
    /// A word of digits, where a number may stand, isn't one: it has a leading zero, or is too large. Of version 1
    /// alone.
    #[error("a number with a leading zero, or one that is too large")]
    Number,
    /// The record may not stand there.
    #[error("such a record may not stand here")]
    Order,
    /// The file ends before a line feed, or within an entry, or before the record `end`.
    #[error("the account ends before its last record")]
    Truncated,
    /// Something stands after `end`.
    #[error("something stands after the record `end`")]
    Trailing,
}

/// Why no record is read.
#[derive(Clone, Copy, Debug, Drop, PartialEq, Eq, Error)]
pub enum FileStop {
    /// The record's form is wrong.
    #[error("{0}")]
    Fault(RecordFault),
    /// Out of memory.
    #[error("out of memory")]
    Memory,
}

impl From<RecordFault> for FileStop {
    ghost use Rattle.account_file.specs.declared.fault.FileStop.TheVariants.{Fault};

    ghost from_gives = { λ fault stop. stop ≡ Fault fault };

    fn from(fault: RecordFault) -> FileStop {
        FileStop::Fault(fault)
    }
}

impl From<AllocError> for FileStop {
    ghost use Rattle.account_file.specs.declared.fault.FileStop.TheVariants.{Memory};

    ghost from_gives = { λ _ stop. stop ≡ Memory };

    fn from(_error: AllocError) -> FileStop {
        FileStop::Memory
    }
}

impl<T: Drop> From<AllocFailed<T>> for FileStop {
    ghost use Rattle.account_file.specs.declared.fault.FileStop.TheVariants.{Memory};

    ghost from_gives = { λ _ stop. stop ≡ Memory };

    fn from(_error: AllocFailed<T>) -> FileStop {
        FileStop::Memory
    }
}
