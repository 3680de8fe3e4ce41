//! How a session ends.
use std::alloc::AllocError;

/// How a session ended without an error.
#[derive(Clone, Copy, Debug, PartialEq, Eq)]
pub enum Ending {
    /// The packet FF 00 00 00, which has no answer, arrived. The bytes after it were not read.
    End,
    /// The input ended between packets.
    Stopped,
}

/// Why a packet or a session was not completely read or written.
#[derive(Clone, Copy, Debug, PartialEq, Eq)]
pub enum SideFault {
    /// The reader failed, or did not end within the maximum number of reads.
    Read,
    /// The writer failed, or accepted no byte.
    Write,
    /// The input ended inside a packet.
    Cut,
    /// Out of memory for the data of a packet. Its first four bytes were read.
    Memory,
}

impl From<AllocError> for SideFault {
    ghost use Rattle.std.specs.Prelude.{◌≡◌};
    ghost use Rattle.side_channel.specs.declared.endings.SideFault.TheVariants.{Memory};

    ghost from_gives = { λ _ e. e ≡ Memory };

    fn from(_error: AllocError) -> SideFault {
        SideFault::Memory
    }
}
