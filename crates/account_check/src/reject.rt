use cnf_core::LineFault;
use std::alloc::{AllocError, AllocFailed};

/// What is wrong with a record.
#[derive(Clone, Copy, Debug, PartialEq, Eq)]
pub enum Reject {
    /// The record names a port that doesn't exist.
    UnknownId,
    /// A vector doesn't break its claim, or two paired outputs don't differ on it.
    VectorFails,
    /// A log's line isn't derived.
    Refutation(LineFault),
    /// The rule of a step isn't kept; or pairs, or the two inputs of a swap, are out of order.
    Rule,
    /// It is `none ports` where the circuits have the same numbers of ports, or another record where they differ; or
    /// what it concludes in is no matching, or a ban with pairs.
    Conclusion,
}

/// Why a record isn't taken: it is refused, or memory ran out.
#[derive(Clone, Copy, Debug, Drop, PartialEq, Eq)]
pub enum RecordStop {
    Reject(Reject),
    Memory,
}

impl From<AllocError> for RecordStop {
    ghost use Rattle.std.specs.Prelude.{◌≡◌};
    ghost use Rattle.account_check.specs.declared.reject.RecordStop.TheVariants.{Memory};

    ghost from_gives = { λ _ stop. stop ≡ Memory };

    fn from(_error: AllocError) -> RecordStop {
        RecordStop::Memory
    }
}

impl From<LineFault> for RecordStop {
    ghost use Rattle.std.specs.Prelude.{◌≡◌};
    ghost use Rattle.account_check.specs.declared.reject.RecordStop.TheVariants as stop;
    ghost use Rattle.account_check.specs.declared.reject.Reject.TheVariants as reject;

    ghost from_gives = { λ fault refusal. refusal ≡ stop.Reject (reject.Refutation fault) };

    fn from(fault: LineFault) -> RecordStop {
        RecordStop::Reject(Reject::Refutation(fault))
    }
}

impl<T: Drop> From<AllocFailed<T>> for RecordStop {
    ghost use Rattle.std.specs.Prelude.{◌≡◌};
    ghost use Rattle.account_check.specs.declared.reject.RecordStop.TheVariants.{Memory};

    ghost from_gives = { λ _ stop. stop ≡ Memory };

    fn from(_failed: AllocFailed<T>) -> RecordStop {
        RecordStop::Memory
    }
}
