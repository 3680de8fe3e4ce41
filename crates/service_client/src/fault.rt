//! Why the bytes of a service are not taken.
ghost use Rattle.std.specs.Prelude.{◌≡◌};

use std::alloc::{AllocError, AllocFailed};

/// Why the bytes of a service are not taken.
#[derive(Clone, Copy)]
pub enum TakeFault {
    /// Out of memory.
    Memory,
    /// A reply came, and no command waits for one.
    Unasked,
}

impl From<AllocError> for TakeFault {
    ghost use Rattle.service_client.specs.declared.fault.TakeFault.TheVariants.{Memory};

    ghost from_gives = { λ _ fault. fault ≡ Memory };

    fn from(_error: AllocError) -> TakeFault {
        TakeFault::Memory
    }
}

impl<T: Drop> From<AllocFailed<T>> for TakeFault {
    ghost use Rattle.service_client.specs.declared.fault.TakeFault.TheVariants.{Memory};

    ghost from_gives = { λ _ fault. fault ≡ Memory };

    fn from(_error: AllocFailed<T>) -> TakeFault {
        TakeFault::Memory
    }
}
