//! Sockets over mio.
ghost use Rattle.std.specs.Prelude.{◌≡◌, true, OnOk};
ghost use Rattle.std.specs.Io.{WritesAtMost};
ghost use Rattle.mio.specs.Interest.{is_readable, is_writable};
ghost use Rattle.spool_ipp.specs.Writes.{takes_later};

use crate::fault::{StartFault, taken, unopened};
use crate::names::free_name;
use crate::words::{Words, owned};
use ipp_access::Place;
use ipp_loop::MOST_CLIENTS;
use ipp_sockets::{Readiness, Sockets, Stream};
use mio::net::{TcpListener, TcpStream, UnixListener, UnixStream};
use mio::{Events, Interest, Poll, Registry, Token};
use std::alloc::Global;
use std::fs::Permissions;
use std::io::{ErrorKind, Read, Write};
use std::net::SocketAddr;
use std::os::unix::fs::PermissionsExt;
use std::time::Duration;
use std::{fs, io};

// The tokens of the listening sockets and of the service. A client has its key plus four.
const NETWORK: usize = 0;

const LOCAL: usize = 1;

const OPERATORS: usize = 2;

const SERVICE: usize = 3;

const FIRST_CLIENT: usize = 4;

/// A connection of the system.
#[derive(Drop)]
pub enum Peer {
    Network(TcpStream),
    Local(UnixStream),
    Operators(UnixStream),
}

impl Peer {
    fn write(&mut self, text: &[u8]) -> io::Result<usize>
        ensures { WritesAtMost result text.now }
    {
        match self {
            Peer::Network(stream) => stream.write(text),
            Peer::Local(stream) => stream.write(text),
            Peer::Operators(stream) => stream.write(text),
        }
    }

    // Reports the readiness of the connection from now on, under a token.
    fn register(&mut self, registry: &Registry, token: Token) -> io::Result<()> {
        let interest = interest(false);
        match self {
            Peer::Network(stream) => registry.register(stream, token, interest),
            Peer::Local(stream) => registry.register(stream, token, interest),
            Peer::Operators(stream) => registry.register(stream, token, interest),
        }
    }

    fn reregister(
        &mut self,
        registry: &Registry,
        token: Token,
        interest: Interest,
    ) -> io::Result<()> {
        match self {
            Peer::Network(stream) => registry.reregister(stream, token, interest),
            Peer::Local(stream) => registry.reregister(stream, token, interest),
            Peer::Operators(stream) => registry.reregister(stream, token, interest),
        }
    }
}

/// A connection. That it can be written is reported only while output waits, because each read of the peer makes it writable.
#[derive(Drop)]
pub struct MioStream<'a> {
    peer: Peer,
    registry: &'a Registry,
    token: Token,
    // Whether the last write could take nothing, so that it is reported once one can.
    waits: bool,
}

impl<'a> MioStream<'a> {
    // Reports the readiness of the connection from now on, under a token.
    fn watch(&mut self, token: Token) -> io::Result<()> {
        self.token = token;
        self.peer.register(self.registry, token)
    }

    // Notes whether output waits, so that it is reported once it can be written.
    fn note(&mut self, waits: bool) -> io::Result<()>
        ensures { OnOk result (self.new.waits ≡ waits) }
    {
        if waits != self.waits {
            self.peer
                .reregister(self.registry, self.token, interest(waits))?;
            self.waits = waits;
        }
        Ok(())
    }
}

impl<'a> Stream for MioStream<'a> {
    fn read(&mut self, piece: &mut [u8]) -> io::Result<usize> {
        match &mut self.peer {
            Peer::Network(stream) => stream.read(piece),
            Peer::Local(stream) => stream.read(piece),
            Peer::Operators(stream) => stream.read(piece),
        }
    }

    fn write(&mut self, text: &[u8]) -> io::Result<usize>
        ensures bound { WritesAtMost result text.now }
        // A connection whose output waits is reported once it can be written.
        ensures waits { takes_later result ≡ true → self.new.waits ≡ true }
    {
        let written = self.peer.write(text);
        let waits = takes_later(&written);
        if self.note(waits).is_err() && waits {
            // Nothing would report it, so it is given up as a connection that takes no more.
            return Ok(0);
        }
        written
    }

    fn place(&self) -> Place {
        match &self.peer {
            Peer::Network(_) => Place::Network,
            Peer::Local(_) => Place::Socket,
            Peer::Operators(_) => Place::Operators,
        }
    }
}

// Returns whether a write could take nothing now.
fn takes_later(written: &io::Result<usize>) -> bool
    ensures { result ≡ takes_later written.now }
{
    match written {
        Ok(_) => false,
        Err(error) => error.kind() == ErrorKind::WouldBlock,
    }
}

// Returns the events that are reported: that a connection can be written only if output waits.
fn interest(waits: bool) -> Interest
    ensures readable { is_readable result ≡ true }
    ensures writable { is_writable result ≡ waits }
{
    if waits {
        Interest::READABLE | Interest::WRITABLE
    } else {
        Interest::READABLE
    }
}

/// The sockets of the program.
#[derive(Drop)]
pub struct MioSockets<'a> {
    rt: &'a HostRuntime,
    registry: &'a Registry,
    service: String,
    end: Option<String>,
    network: Option<TcpListener>,
    local: Option<UnixListener>,
    operators: Option<UnixListener>,
    poll: Poll,
    events: Events<Global>,
    ready: Vec<Readiness>,
}

impl<'a> MioSockets<'a> {
    /// Listens on the sockets of the arguments. `registry` is that of `poll`.
    pub fn new(
        rt: &'a HostRuntime,
        words: &Words<'_>,
        poll: Poll,
        registry: &'a Registry,
    ) -> Result<MioSockets<'a>, StartFault> {
        let alloc = rt.alloc();
        let room = MOST_CLIENTS + FIRST_CLIENT;
        let mut sockets = MioSockets {
            rt,
            registry,
            service: String::from_str(alloc, words.service)?,
            end: owned(alloc, words.end)?,
            network: None,
            local: None,
            operators: None,
            poll,
            events: Events::with_capacity(alloc, room)?,
            ready: Vec::with_capacity(alloc, room)?,
        };
        if let Some(address) = words.listen {
            if let Err(error) = sockets.listen_on(address) {
                let place = format!(in alloc; "{address}")?;
                return Err(unopened(alloc, place.as_str(), error));
            }
        }
        if let Some(path) = words.socket {
            sockets.local = Some(sockets.listen_at(path, 0o666, LOCAL)?);
        }
        if let Some(path) = words.operators_socket {
            sockets.operators = Some(sockets.listen_at(path, 0o660, OPERATORS)?);
        }
        Ok(sockets)
    }

    fn listen_on(&mut self, address: SocketAddr) -> io::Result<()> {
        let mut listener = TcpListener::bind(self.rt, address)?;
        self.registry
            .register(&mut listener, Token(NETWORK), Interest::READABLE)?;
        self.network = Some(listener);
        Ok(())
    }

    // Listens on a socket of the file system, whose name must be free.
    fn listen_at(&self, path: &str, mode: u32, token: usize) -> Result<UnixListener, StartFault> {
        match free_name(self.rt, path) {
            Ok(None) => {}
            Ok(Some(holder)) => return Err(taken(self.rt.alloc(), path, holder)),
            Err(error) => return Err(unopened(self.rt.alloc(), path, error)),
        }
        match self.open(path, mode, token) {
            Ok(listener) => Ok(listener),
            Err(error) => Err(unopened(self.rt.alloc(), path, error)),
        }
    }

    fn open(&self, path: &str, mode: u32, token: usize) -> io::Result<UnixListener> {
        let mut listener = UnixListener::bind(self.rt, path)?;
        fs::set_permissions(self.rt, path, Permissions::from_mode(mode))?;
        self.registry
            .register(&mut listener, Token(token), Interest::READABLE)?;
        Ok(listener)
    }

    // Returns a connection whose readiness is not reported yet.
    fn stream(&self, peer: Peer) -> MioStream<'a> {
        MioStream {
            peer,
            registry: self.registry,
            token: Token(SERVICE),
            waits: false,
        }
    }

    fn accept_network(&self) -> Option<MioStream<'a>> {
        let listener = self.network.as_ref()?;
        match listener.accept() {
            Ok((stream, _)) => {
                let _ = stream.set_nodelay(true);
                Some(self.stream(Peer::Network(stream)))
            }
            Err(_) => None,
        }
    }

    fn accept_local(&self) -> Option<MioStream<'a>> {
        let listener = self.local.as_ref()?;
        match listener.accept() {
            Ok((stream, _)) => Some(self.stream(Peer::Local(stream))),
            Err(_) => None,
        }
    }

    fn accept_operator(&self) -> Option<MioStream<'a>> {
        let listener = self.operators.as_ref()?;
        match listener.accept() {
            Ok((stream, _)) => Some(self.stream(Peer::Operators(stream))),
            Err(_) => None,
        }
    }

    // Notes the readiness of the events of the last wait.
    fn note_events(&mut self) -> io::Result<()> {
        for event in self.events.iter() {
            let Token(token) = event.token();
            let readiness = match token {
                NETWORK | LOCAL | OPERATORS => Readiness::NewClient,
                SERVICE => Readiness::Service,
                _ => Readiness::Client {
                    key: token.saturating_sub(FIRST_CLIENT),
                },
            };
            self.ready.push(readiness)?;
        }
        Ok(())
    }
}

impl<'a> Sockets for MioSockets<'a> {
    type Stream = MioStream<'a>;

    fn wait(&mut self, millis: u64) -> io::Result<()> {
        self.ready.clear();
        let timeout = Some(Duration::from_millis(millis));
        self.poll.poll(&mut self.events, timeout)?;
        self.note_events()
    }

    fn next_readiness(&mut self) -> Option<Readiness> {
        self.ready.pop()
    }

    fn accept(&mut self) -> Option<MioStream<'a>> {
        if let Some(stream) = self.accept_operator() {
            return Some(stream);
        }
        if let Some(stream) = self.accept_local() {
            return Some(stream);
        }
        self.accept_network()
    }

    fn watch(&mut self, stream: &mut MioStream<'a>, key: usize) -> bool {
        let token = Token(key.saturating_add(FIRST_CLIENT));
        stream.watch(token).is_ok()
    }

    fn connect(&mut self) -> Option<MioStream<'a>> {
        let stream = UnixStream::connect(self.rt, self.service.as_str()).ok()?;
        let mut stream = self.stream(Peer::Local(stream));
        match stream.watch(Token(SERVICE)) {
            Ok(()) => Some(stream),
            Err(_) => None,
        }
    }

    fn is_ending(&mut self) -> bool {
        match &self.end {
            Some(path) => fs::exists(self.rt, path.as_str()).unwrap_or(false),
            None => false,
        }
    }
}
