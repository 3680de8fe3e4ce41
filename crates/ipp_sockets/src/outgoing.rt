//! Bytes that wait to be written.
ghost use Rattle.std.specs.Prelude.{◌≡◌, ◌≤◌, ◌==◌, ◌++◌, [], drop, length, OnErr, OnOk};

use std::alloc::{AllocError, Global};

/// Bytes that wait to be written to a connection.
#[derive(Drop)]
pub struct Outgoing {
    bytes: Vec<u8>,
    written: usize,
    ghost within: { written ≤ length bytes.items },
}

impl Outgoing {
    ghost use Rattle.ipp_sockets.specs.UnwrittenBytes.{unwritten};

    /// No bytes.
    pub fn new(alloc: Global) -> Outgoing
        ensures { unwritten result ≡ [] }
    {
        Outgoing {
            bytes: Vec::new(alloc),
            written: 0,
        }
    }

    /// Returns whether all bytes are written.
    pub fn is_empty(&self) -> bool
        ensures { result ≡ (length (unwritten self.now) == 0) }
    {
        self.rest().is_empty()
    }

    /// Returns the bytes that are not written yet.
    pub fn rest(&self) -> &[u8]
        ensures { result.now ≡ unwritten self.now }
    {
        &self.bytes[self.written..]
    }

    /// Appends bytes. An error appends nothing.
    pub fn push(&mut self, bytes: &[u8]) -> Result<(), AllocError>
        ensures ok { OnOk result (unwritten self.new ≡ unwritten self.old ++ bytes.now) }
        ensures err { OnErr result (unwritten self.new ≡ unwritten self.old) }
    {
        self.compact();
        self.bytes.extend_from_slice(bytes)
    }

    // Drops the written bytes, if all are.
    #[tactic(auto, using(std::proofs::lemmas::List::drop_all))]
    fn compact(&mut self)
        ensures { unwritten self.new ≡ unwritten self.old }
    {
        if self.written == self.bytes.len() {
            self.clear();
        }
    }

    /// Notes that so many bytes are written.
    #[tactic(auto, using(crate::proofs::Drops::drop_twice, crate::proofs::Drops::length_of_drop))]
    pub fn advance(&mut self, count: usize)
        requires { count ≤ length (unwritten self.old) }
        ensures { unwritten self.new ≡ drop count (unwritten self.old) }
    {
        self.written += count;
    }

    /// Drops all bytes.
    pub fn clear(&mut self)
        ensures { unwritten self.new ≡ [] }
    {
        self.bytes.clear();
        self.written = 0;
    }
}
