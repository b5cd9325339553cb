//! Why an account isn't converted.

ghost use Rattle.std.specs.Prelude.{◌≡◌};

use account_file::RecordFault;
use std::alloc::{AllocError, AllocFailed};
use thiserror::Error;

/// Why an account isn't converted.
#[derive(Clone, Copy, Debug, Drop, PartialEq, Eq, Error)]
pub enum ConvertStop {
    /// A record has a fault of form, the first one of the account: its number, from 1, and the fault.
    #[error("record {record_number}: {fault}")]
    Fault {
        record_number: u64,
        fault: RecordFault,
    },
    /// Out of memory.
    #[error("out of memory")]
    Memory,
}

impl From<AllocError> for ConvertStop {
    ghost use Rattle.account_convert.specs.declared.stop.ConvertStop.TheVariants.{Memory};

    ghost from_gives = { λ _ stop. stop ≡ Memory };

    fn from(_error: AllocError) -> ConvertStop {
        ConvertStop::Memory
    }
}

impl<T: Drop> From<AllocFailed<T>> for ConvertStop {
    ghost use Rattle.account_convert.specs.declared.stop.ConvertStop.TheVariants.{Memory};

    ghost from_gives = { λ _ stop. stop ≡ Memory };

    fn from(_error: AllocFailed<T>) -> ConvertStop {
        ConvertStop::Memory
    }
}
