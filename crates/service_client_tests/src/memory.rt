//! A connection in memory.
ghost use Rattle.std.specs.Prelude.{◌≡◌};

use service_client::{Connection, ConnectionFault};
use std::alloc::{AllocError, Global};

/// A connection to a service whose bytes are known before. It brings them in pieces of one length, and is lost after the last one.
#[derive(Drop)]
pub struct MemoryConnection {
    sent: Vec<u8>,
    came: Vec<u8>,
    // The bytes that will still come, and the length of a piece.
    left: Vec<u8>,
    piece: usize,
}

impl MemoryConnection {
    pub fn new(alloc: Global, text: &[u8], piece: usize) -> Result<MemoryConnection, AllocError> {
        Ok(MemoryConnection {
            sent: Vec::new(alloc),
            came: Vec::new(alloc),
            left: Vec::from_slice(alloc, text)?,
            piece,
        })
    }

    /// Returns the bytes that were sent.
    pub fn sent(&self) -> &[u8]
        ensures { result.now ≡ self.now.sent.items }
    {
        &self.sent
    }

    /// Returns the bytes that have come.
    pub fn came(&self) -> &[u8]
        ensures { result.now ≡ self.now.came.items }
    {
        &self.came
    }
}

impl Connection for MemoryConnection {
    ghost use Rattle.std.specs.Prelude.{Some};

    ghost sent = { λ it. Some it.sent.items };

    ghost came = { λ it. Some it.came.items };

    fn send(&mut self, text: &[u8]) -> Result<(), ConnectionFault> {
        self.sent.extend_from_slice(text)?;
        Ok(())
    }

    fn receive(&mut self, piece: &mut Vec<u8>) -> Result<(), ConnectionFault> {
        let count = self.piece.min(self.left.len());
        if count == 0 {
            return Err(ConnectionFault::Lost);
        }
        self.came.reserve(count)?;
        piece.extend_from_slice(&self.left[..count])?;
        self.came.extend_from_slice(&self.left[..count])?;
        self.left.drain(..count);
        Ok(())
    }
}
