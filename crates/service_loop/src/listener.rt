//! The listening socket.
ghost use Rattle.service_loop.specs.ConnectionViews.{IsUntouched};

use crate::connection::Connection;
use std::io;

/// A connection that a wait has found ready.
#[derive(Clone, Copy, Debug)]
pub enum Readiness {
    /// A new client is connecting.
    NewClient,
    /// The client under this key may have sent something, or may take more (`writable`), or has hung up and reads nothing any more
    /// (`gone`).
    Client {
        key: usize,
        writable: bool,
        gone: bool,
    },
}

/// The result of accepting a client.
#[derive(Drop)]
pub enum AcceptOutcome<L> {
    Client(L),
    Nobody,
    /// A client is connecting but cannot be accepted now.
    Failed,
}

/// The listening socket. Only `wait` waits; no other call does, nor does a call of a connection.
pub trait Listener {
    /// The connection to a client.
    type Stream: Connection;

    /// Waits until something is ready, or for this number of milliseconds; with `None` until something is ready.
    fn wait(&mut self, millis: Option<u64>) -> io::Result<()>;

    /// The next readiness that the last wait found.
    fn next_readiness(&mut self) -> Option<Readiness>;

    /// Accepts the next client.
    fn accept(&mut self) -> AcceptOutcome<Self::Stream>;

    /// Reports the readiness of this connection from now on, under a key. Returns whether it can.
    fn watch(&mut self, connection: &mut Self::Stream, key: usize) -> bool
        ensures { IsUntouched Self.Stream.view connection.old connection.new };
}
