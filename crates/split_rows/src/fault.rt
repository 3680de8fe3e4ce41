//! Why a half was not made.
ghost use Rattle.std.specs.Prelude.{◌≡◌};
ghost use Rattle.split_rows.specs.declared.fault.HalfFault.TheVariants.{Memory};

use std::alloc::AllocError;

/// Why a half was not made. The whole spool is as before.
#[derive(Clone, Copy, PartialEq, Eq)]
pub enum HalfFault {
    /// Memory ran out.
    Memory,
    /// The rows of the half do not fit into half of the new disk.
    Full,
    /// A disk failed, or the rows read back differ from those written.
    Disk,
}

impl From<AllocError> for HalfFault {
    ghost from_gives = { λ _ fault. fault ≡ Memory };

    fn from(_error: AllocError) -> HalfFault {
        HalfFault::Memory
    }
}
