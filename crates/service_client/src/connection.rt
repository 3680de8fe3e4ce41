//! A connection to a service.
ghost use Rattle.std.specs.Prelude.{◌≡◌, ◌++◌, List, ℕ, Option, OnOk, OnErr};
ghost use Rattle.service_client.specs.Traces.{Adds};

use crate::fault::TakeFault;
use std::alloc::{AllocError, AllocFailed};

/// Why a connection sends or receives nothing more.
#[derive(Clone, Copy)]
pub enum ConnectionFault {
    /// The connection is lost, or the service has closed it.
    Lost,
    /// Out of memory.
    Memory,
}

/// A connection to a service. A call waits until it is done.
///
/// Its contract is about its trace: the bytes that were sent and the bytes that have come, in order. A connection may report neither, as that
/// of a socket; the clauses then say nothing of them.
pub trait Connection: Drop {
    /// The bytes that were sent, or none if it does not report them.
    ghost sent: { Self → Option (List ℕ) };

    /// The bytes that have come, or none if it does not report them.
    ghost came: { Self → Option (List ℕ) };

    /// Sends all of these bytes. After an error it is unknown which were sent.
    fn send(&mut self, text: &[u8]) -> Result<(), ConnectionFault>
        ensures sent { OnOk result (Adds (sent self.old) text.now (sent self.new)) }
        ensures came { came self.new ≡ came self.old };

    /// Waits for the next bytes and appends them. An error appends nothing.
    fn receive(&mut self, piece: &mut Vec<u8>) -> Result<(), ConnectionFault>
        ensures came { OnOk result ((more : List ℕ) × (piece.new.items ≡ piece.old.items ++ more) × Adds (came self.old) more (came self.new)) }
        ensures sent { sent self.new ≡ sent self.old }
        ensures err { OnErr result (piece.new.items ≡ piece.old.items) };
}

impl From<AllocError> for ConnectionFault {
    ghost use Rattle.service_client.specs.declared.connection.ConnectionFault.TheVariants.{Memory};

    ghost from_gives = { λ _ fault. fault ≡ Memory };

    fn from(_error: AllocError) -> ConnectionFault {
        ConnectionFault::Memory
    }
}

impl<T: Drop> From<AllocFailed<T>> for ConnectionFault {
    ghost use Rattle.service_client.specs.declared.connection.ConnectionFault.TheVariants.{Memory};

    ghost from_gives = { λ _ fault. fault ≡ Memory };

    fn from(_error: AllocFailed<T>) -> ConnectionFault {
        ConnectionFault::Memory
    }
}

impl From<TakeFault> for ConnectionFault {
    ghost use Rattle.service_client.specs.Faults.{fault_of};

    ghost from_gives = { λ error fault. fault ≡ fault_of error };

    fn from(error: TakeFault) -> ConnectionFault {
        match error {
            TakeFault::Memory => ConnectionFault::Memory,
            TakeFault::Unasked => ConnectionFault::Lost,
        }
    }
}
