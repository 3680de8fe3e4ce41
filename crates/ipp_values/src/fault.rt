//! Why a value was not made.

use std::alloc::AllocError;

/// Why a value was not made.
#[derive(Clone, Copy, PartialEq, Eq)]
pub enum ValueFault {
    /// The value is outside the limits of its syntax (RFC 8011, 5.1).
    Bad,
    /// Memory ran out.
    Memory,
}

impl From<AllocError> for ValueFault {
    ghost use Rattle.std.specs.Prelude.{◌≡◌};
    ghost use Rattle.ipp_values.specs.declared.fault.ValueFault.TheVariants.{Memory};

    ghost from_gives = { λ _ e. e ≡ Memory };

    fn from(_error: AllocError) -> ValueFault {
        ValueFault::Memory
    }
}
