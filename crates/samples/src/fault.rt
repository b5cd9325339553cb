ghost use Rattle.std.specs.Prelude.{◌≡◌};

use std::alloc::{AllocError, AllocFailed};
use thiserror::Error;

/// Why a sample isn't made.
#[derive(Clone, Copy, Debug, Drop, PartialEq, Eq, Error)]
pub enum SampleFault {
    /// There are more than 1,000 inputs, gates or outputs.
    #[error("a sample of more than 1,000 inputs, gates or outputs")]
    TooLarge,
    /// A gate doesn't stand after its operands, or an output's signal isn't there.
    #[error("a literal that is out of place")]
    OutOfPlace,
    /// Out of memory.
    #[error("out of memory")]
    Memory,
}

impl From<AllocError> for SampleFault {
    ghost use Rattle.samples.specs.declared.fault.SampleFault.TheVariants.{Memory};

    ghost from_gives = { λ _ fault. fault ≡ Memory };

    fn from(_error: AllocError) -> SampleFault {
        SampleFault::Memory
    }
}

impl<T: Drop> From<AllocFailed<T>> for SampleFault {
    ghost use Rattle.samples.specs.declared.fault.SampleFault.TheVariants.{Memory};

    ghost from_gives = { λ _ fault. fault ≡ Memory };

    fn from(_error: AllocFailed<T>) -> SampleFault {
        SampleFault::Memory
    }
}
