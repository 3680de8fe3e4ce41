//! Readers and writers over memory, with a pace.
ghost use Rattle.std.specs.Prelude.{◌≡◌, ◌<◌, [], Some};

use crate::limits::Limits;
use std::alloc::Global;
use std::io;
use std::io::{ErrorKind, Read, Write};

/// How much a reader yields and a writer takes at once.
#[derive(Clone, Copy)]
pub struct Pace {
    /// The greatest number of bytes at once.
    piece: usize,
    /// Whether every other call is interrupted.
    interrupted: bool,
    ghost positive: { 0 < piece },
}

impl Pace {
    /// All bytes at once.
    pub const WHOLE: Pace = Pace {
        piece: usize::MAX,
        interrupted: false,
    };

    /// At most `piece` bytes at once.
    pub fn pieces(piece: usize) -> Pace
        requires { 0 < piece }
        ensures piece { result.piece ≡ piece }
    {
        Pace {
            piece,
            interrupted: false,
        }
    }

    /// At most `piece` bytes at once, and every other call is interrupted.
    pub fn interrupted(piece: usize) -> Pace
        requires { 0 < piece }
    {
        Pace {
            piece,
            interrupted: true,
        }
    }
}

/// A reader of bytes with a pace, which may fail after them.
#[derive(Drop)]
pub struct PacedReader<'a> {
    rest: &'a [u8],
    pace: Pace,
    interrupts: bool,
    fails: bool,
}

impl<'a> PacedReader<'a> {
    pub fn new(bytes: &'a [u8], pace: Pace, fails: bool) -> PacedReader<'a>
        ensures { result.rest.now ≡ bytes.now }
    {
        PacedReader {
            rest: bytes,
            pace,
            interrupts: false,
            fails,
        }
    }
}

impl Read for PacedReader<'_> {
    ghost remaining = { λ r. Some r.rest.now };

    fn read(&mut self, buf: &mut [u8]) -> io::Result<usize> {
        self.interrupts = self.pace.interrupted && !self.interrupts;
        if self.interrupts {
            return Err(io::Error::from(ErrorKind::Interrupted));
        }
        if self.fails && self.rest.is_empty() {
            return Err(io::Error::from(ErrorKind::Other));
        }
        let most = self.pace.piece.min(buf.len());
        self.rest.read(&mut buf[..most])
    }
}

/// A writer with a pace, which stores the bytes that it takes. When its room is used up, it fails or takes no more
/// bytes.
#[derive(Drop)]
pub struct PacedWriter {
    bytes: Vec<u8>,
    pace: Pace,
    interrupts: bool,
    room: usize,
    fails: bool,
}

impl PacedWriter {
    pub fn new(alloc: Global, pace: Pace, limits: Limits) -> PacedWriter
        ensures { result.bytes.items ≡ [] }
    {
        PacedWriter {
            bytes: Vec::new(alloc),
            pace,
            interrupts: false,
            room: limits.room,
            fails: limits.writer_fails,
        }
    }

    /// Removes the limit of the room.
    pub fn lift(&mut self)
        ensures { self.new.bytes ≡ self.old.bytes }
    {
        self.room = usize::MAX;
    }

    /// Returns the bytes that were written.
    pub fn into_bytes(self) -> Vec<u8>
        ensures { result ≡ self.bytes }
    {
        let PacedWriter { bytes, .. } = self;
        bytes
    }
}

impl Write for PacedWriter {
    ghost contents = { λ w. Some w.bytes.items };

    fn write(&mut self, buf: &[u8]) -> io::Result<usize> {
        self.interrupts = self.pace.interrupted && !self.interrupts;
        if self.interrupts {
            return Err(io::Error::from(ErrorKind::Interrupted));
        }
        if self.room == 0 && self.fails {
            return Err(io::Error::from(ErrorKind::Other));
        }
        let most = self.pace.piece.min(buf.len()).min(self.room);
        self.bytes.extend_from_slice(&buf[..most])?;
        self.room -= most;
        Ok(most)
    }

    fn flush(&mut self) -> io::Result<()> {
        Ok(())
    }
}
