//! Why a service ends.
ghost use Rattle.std.specs.Prelude.{◌≡◌};

use std::alloc::AllocError;
use thiserror::Error;

/// Why a service ends without a `shutdown`.
#[derive(Clone, Copy, Debug, Drop, Error, PartialEq, Eq)]
pub enum ServiceFault {
    /// Memory ran out for the service's own data.
    #[error("memory")]
    Memory,
    /// The disk has failed.
    #[error("disk")]
    Disk,
    /// The wait for readiness has failed.
    #[error("socket")]
    Socket,
}

impl From<AllocError> for ServiceFault {
    ghost use Rattle.service_loop.specs.declared.fault.ServiceFault.TheVariants.{Memory};

    ghost from_gives = { λ _ e. e ≡ Memory };

    fn from(_error: AllocError) -> ServiceFault {
        ServiceFault::Memory
    }
}
