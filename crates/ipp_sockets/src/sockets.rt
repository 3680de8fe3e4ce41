//! Sockets and clocks.
ghost use Rattle.std.specs.Io.{ReadsAtMost, WritesAtMost};

use ipp_access::Place;
use std::alloc::AllocError;
use std::io;

/// A connection. A call that would wait fails with `WouldBlock`.
pub trait Stream: Drop {
    /// Reads the bytes that have arrived, up to the length of `piece`. No bytes mean that the peer has closed its side.
    fn read(&mut self, piece: &mut [u8]) -> io::Result<usize>
        ensures { ReadsAtMost result piece.new };

    /// Writes part of a text, from its beginning.
    fn write(&mut self, text: &[u8]) -> io::Result<usize>
        ensures { WritesAtMost result text.now };

    /// The socket that accepted the peer.
    fn place(&self) -> Place;
}

/// A connection that a wait has found ready.
#[derive(Clone, Copy, Debug)]
pub enum Readiness {
    /// A new client is connecting.
    NewClient,
    /// The client under this key.
    Client { key: usize },
    /// The service.
    Service,
}

/// The sockets. Only `wait` waits.
pub trait Sockets {
    /// The connection to a client or to the service.
    type Stream: Stream;

    /// Waits until something is ready, or for this number of milliseconds.
    fn wait(&mut self, millis: u64) -> io::Result<()>;

    /// The next readiness that the last wait found.
    fn next_readiness(&mut self) -> Option<Readiness>;

    /// Accepts the next client.
    fn accept(&mut self) -> Option<Self::Stream>;

    /// Reports the readiness of this client from now on, under a key. Returns whether it can.
    fn watch(&mut self, stream: &mut Self::Stream, key: usize) -> bool;

    /// Connects to the service, and reports its readiness from now on.
    fn connect(&mut self) -> Option<Self::Stream>;

    /// Whether the program is to end.
    fn is_ending(&mut self) -> bool;
}

/// The clocks.
pub trait Times {
    /// Milliseconds of a steady clock.
    fn millis(&mut self) -> u64;

    /// Seconds since 1970.
    fn seconds(&mut self) -> u64;

    /// A token that nobody can guess, of 32 hexadecimal digits. The system may have none.
    fn token(&mut self) -> Result<Option<String>, AllocError>;
}
