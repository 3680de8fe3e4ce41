//! Errors that end reading.

use spool_types::WarningKind;
use std::alloc::{AllocError, AllocFailed};

/// Why reading a line ended early.
#[derive(Clone, Copy, PartialEq, Eq)]
pub(crate) enum Stop {
    /// Out of memory.
    Memory,
    /// The line is invalid.
    Fault(WarningKind),
}

impl From<AllocError> for Stop {
    ghost use Rattle.std.specs.Prelude.{◌≡◌};
    ghost use Rattle.mime_rules.specs.declared.stop.Stop.TheVariants.{Memory};

    ghost from_gives = { λ _ e. e ≡ Memory };

    fn from(_error: AllocError) -> Stop {
        Stop::Memory
    }
}

impl<T: Drop> From<AllocFailed<T>> for Stop {
    ghost use Rattle.std.specs.Prelude.{◌≡◌};
    ghost use Rattle.mime_rules.specs.declared.stop.Stop.TheVariants.{Memory};

    ghost from_gives = { λ _ e. e ≡ Memory };

    fn from(_error: AllocFailed<T>) -> Stop {
        Stop::Memory
    }
}
