ghost use Rattle.std.specs.Prelude.{◌≡◌};

use std::alloc::{AllocError, AllocFailed};
use thiserror::Error;

/// Why a netlist isn't put in order.
#[derive(Clone, Copy, Debug, Drop, PartialEq, Eq, Error)]
pub enum OrderFault {
    /// The first definition, by its position, that is on a cycle or above one.
    #[error("definition {0} is on a cycle or above one")]
    Cycle(u32),
    /// There is no cycle, but the definitions have more than [`MAX_GATES`](crate::MAX_GATES) gates.
    #[error("more than 4,000,000 gates")]
    TooManyGates,
    /// Out of memory.
    #[error("out of memory")]
    Memory,
}

impl From<AllocError> for OrderFault {
    ghost use Rattle.net_core.specs.declared.order_fault.OrderFault.TheVariants.{Memory};

    ghost from_gives = { λ _ fault. fault ≡ Memory };

    fn from(_error: AllocError) -> OrderFault {
        OrderFault::Memory
    }
}

impl<T: Drop> From<AllocFailed<T>> for OrderFault {
    ghost use Rattle.net_core.specs.declared.order_fault.OrderFault.TheVariants.{Memory};

    ghost from_gives = { λ _ fault. fault ≡ Memory };

    fn from(_error: AllocFailed<T>) -> OrderFault {
        OrderFault::Memory
    }
}
