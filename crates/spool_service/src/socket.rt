//! The listening sockets, the clients' connections, and the wait for both, over `mio`.
ghost use Rattle.std.specs.Prelude.{◌≡◌, ◌++◌, [], IfOk, OnOk, map, true};
ghost use Rattle.mio.specs.Events.{items};
ghost use Rattle.spool_service.specs.Socket.{accept_outcome_of, has_socket, proved_by, readiness_of, without_client};

use crate::proving::Proofs;
use client_standing::{Proved, RoleRules};
use mio::event::Event;
use mio::net::{UnixListener, UnixStream};
use mio::{Events, Interest, Poll, Token};
use service_loop::{AcceptOutcome, Connection, Listener, Readiness};
use service_rules::bounds::MOST_CLIENTS;
use std::alloc::{AllocError, Global};
use std::fs::Permissions;
use std::io::{ErrorKind, Read, Write};
use std::os::unix::fs::{PermissionsExt, chown};
use std::rc::Rc;
use std::time::Duration;
use std::{fs, io};
use user_proofs::Identity;

// The tokens of the clients' and the operators' sockets. A client has its key plus two.
const CLIENTS: usize = 0;

const OPERATORS: usize = 1;

const FIRST_CLIENT: usize = 2;

/// A client's connection. No clause knows its bytes or its proofs, so it reports nothing of them.
#[derive(Drop)]
pub struct SocketConnection {
    line: UnixStream,
    rules: RoleRules,
    is_operators: bool,
    proofs: Rc<Proofs>,
    // The path of the last challenge, until it is used.
    challenge: Option<String>,
}

impl Connection for SocketConnection {
    ghost use Rattle.service_loop.specs.ConnectionViews.{silent};

    ghost view = { silent (λ connection. connection.rules) (λ connection. connection.is_operators) };

    fn read(&mut self, piece: &mut [u8]) -> io::Result<usize> {
        self.line.read(piece)
    }

    fn write(&mut self, text: &[u8]) -> io::Result<usize> {
        self.line.write(text)
    }

    fn rules(&self) -> RoleRules {
        self.rules
    }

    fn is_operators(&self) -> bool {
        self.is_operators
    }

    fn challenge(&mut self) -> Result<Option<String>, AllocError> {
        if let Some(path) = self.challenge.take() {
            self.proofs.withdraw(path.as_str());
        }
        let Some(path) = self.proofs.challenge()? else {
            return Ok(None);
        };
        self.challenge = Some(path.clone()?);
        Ok(Some(path))
    }

    fn prove(&mut self) -> Result<Option<Proved>, AllocError> {
        let Some(path) = self.challenge.take() else {
            return Ok(None);
        };
        match self.proofs.prove(path.as_str())? {
            Some(identity) => Ok(Some(proved_by(identity, self.is_operators))),
            None => Ok(None),
        }
    }
}

// Returns what a client has proved, by whether it came by the operators' socket.
fn proved_by(identity: Identity, is_operators: bool) -> Proved
    ensures value { result ≡ proved_by identity is_operators }
    ensures operators { is_operators ≡ true → result.is_operator ≡ true }
{
    Proved {
        name: identity.name,
        is_operator: identity.is_operator || is_operators,
    }
}

/// Creates the clients' socket with these permissions. Its name must be free.
pub fn open_socket(rt: &HostRuntime, path: &str, mode: u32) -> io::Result<UnixListener> {
    let listener = UnixListener::bind(rt, path)?;
    fs::set_permissions(rt, path, Permissions::from_mode(mode))?;
    Ok(listener)
}

/// Creates the operators' socket in the same way, for this group if there is one. A client that connected before the permissions were set
/// is disconnected.
pub fn open_operators_socket(
    rt: &HostRuntime,
    path: &str,
    mode: u32,
    group: Option<u32>,
) -> io::Result<UnixListener> {
    let listener = UnixListener::bind(rt, path)?;
    if group.is_some() {
        chown(rt, path, None, group)?;
    }
    fs::set_permissions(rt, path, Permissions::from_mode(mode))?;
    for _ in 0..u32::MAX {
        if listener.accept().is_err() {
            break;
        }
    }
    Ok(listener)
}

/// The listening sockets in the file system.
#[derive(Drop)]
pub struct SocketListener {
    clients: UnixListener,
    operators: Option<UnixListener>,
    rules: RoleRules,
    proofs: Rc<Proofs>,
    poll: Poll,
    events: Events<Global>,
    ready: Vec<Readiness>,
}

impl SocketListener {
    /// Listens on these sockets. The rules are for the clients of both.
    pub fn new(
        rt: &HostRuntime,
        sockets: (UnixListener, Option<UnixListener>),
        rules: RoleRules,
        proofs: Proofs,
    ) -> io::Result<SocketListener>
        ensures ready { IfOk result (λ listener. listener.ready.items ≡ []) }
        ensures rules { IfOk result (λ listener. listener.rules ≡ rules) }
    {
        let (mut clients, mut operators) = sockets;
        let room = MOST_CLIENTS + 2;
        let proofs = Rc::new(rt.alloc(), proofs)?;
        let poll = Poll::new(rt)?;
        let events = Events::with_capacity(rt.alloc(), room)?;
        let ready = Vec::with_capacity(rt.alloc(), room)?;
        register(&poll, &mut clients, CLIENTS)?;
        register_operators(&poll, &mut operators)?;
        Ok(SocketListener {
            clients,
            operators,
            rules,
            proofs,
            poll,
            events,
            ready,
        })
    }

    /// Removes the folder of proofs, when the service has ended.
    pub fn close(&self) {
        self.proofs.close();
    }

    // Accepts the next client of the operators' socket.
    fn accept_operator(&mut self) -> AcceptOutcome<UnixStream> {
        match &self.operators {
            Some(listener) => accept_outcome_of(listener.accept().map(|(line, _)| line)),
            None => AcceptOutcome::Nobody,
        }
    }

    // Accepts the next client of the clients' socket.
    fn accept_client(&mut self) -> AcceptOutcome<UnixStream> {
        accept_outcome_of(self.clients.accept().map(|(line, _)| line))
    }

    // Returns the outcome with the connection of the client. Memory may be short.
    fn connected(
        &self,
        accepted: AcceptOutcome<UnixStream>,
        is_operators: bool,
    ) -> AcceptOutcome<SocketConnection>
        ensures { has_socket self.now.rules is_operators result }
    {
        match accepted {
            AcceptOutcome::Client(line) => self.connection(line, is_operators),
            AcceptOutcome::Nobody => AcceptOutcome::Nobody,
            AcceptOutcome::Failed => AcceptOutcome::Failed,
        }
    }

    fn connection(&self, line: UnixStream, is_operators: bool) -> AcceptOutcome<SocketConnection>
        ensures { has_socket self.now.rules is_operators result }
    {
        match self.proofs.clone() {
            Ok(proofs) => AcceptOutcome::Client(SocketConnection {
                line,
                rules: self.rules,
                is_operators,
                proofs,
                challenge: None,
            }),
            Err(_) => AcceptOutcome::Failed,
        }
    }
}

impl Listener for SocketListener {
    type Stream = SocketConnection;

    fn wait(&mut self, millis: Option<u64>) -> io::Result<()>
        ensures { OnOk result (self.new.ready.items ≡ map readiness_of (items self.new.events)) }
    {
        self.ready.clear();
        let longest = match millis {
            Some(millis) => Some(Duration::from_millis(millis)),
            None => None,
        };
        self.poll.poll(&mut self.events, longest)?;
        push_readiness(&self.events, &mut self.ready)?;
        Ok(())
    }

    fn next_readiness(&mut self) -> Option<Readiness> {
        self.ready.pop()
    }

    fn accept(&mut self) -> AcceptOutcome<SocketConnection> {
        match self.accept_operator() {
            AcceptOutcome::Nobody => {
                let accepted = self.accept_client();
                self.connected(accepted, false)
            }
            accepted => self.connected(accepted, true),
        }
    }

    fn watch(&mut self, line: &mut SocketConnection, key: usize) -> bool {
        let both = Interest::READABLE | Interest::WRITABLE;
        match key.checked_add(FIRST_CLIENT) {
            Some(token) => self
                .poll
                .registry()
                .register(&mut line.line, Token(token), both)
                .is_ok(),
            None => false,
        }
    }
}

// Has the clients that connect to a socket reported under this token.
fn register(poll: &Poll, listener: &mut UnixListener, token: usize) -> io::Result<()> {
    poll.registry()
        .register(listener, Token(token), Interest::READABLE)
}

fn register_operators(poll: &Poll, operators: &mut Option<UnixListener>) -> io::Result<()> {
    match operators {
        Some(listener) => register(poll, listener, OPERATORS),
        None => Ok(()),
    }
}

// Adds the readiness of each event, in order.
fn push_readiness(events: &Events<Global>, ready: &mut Vec<Readiness>) -> Result<(), AllocError>
    ensures { OnOk result (ready.new.items ≡ ready.old.items ++ map readiness_of (items events.now)) }
{
    for event in events.iter() {
        ready.push(readiness_of(event))?;
    }
    Ok(())
}

// Returns the readiness that an event reports.
fn readiness_of(event: &Event) -> Readiness
    ensures { result ≡ readiness_of event.now }
{
    let Token(token) = event.token();
    if token < FIRST_CLIENT {
        return Readiness::NewClient;
    }
    Readiness::Client {
        key: token - FIRST_CLIENT,
        writable: event.is_writable(),
        gone: event.is_write_closed(),
    }
}

// Returns the outcome of an accept.
fn accept_outcome_of<L: Drop>(accepted: io::Result<L>) -> AcceptOutcome<L>
    ensures { result ≡ accept_outcome_of accepted }
{
    match accepted {
        Ok(line) => AcceptOutcome::Client(line),
        Err(error) => without_client(error.kind()),
    }
}

// Returns the outcome of an accept that failed with this kind of error.
fn without_client<L>(kind: ErrorKind) -> AcceptOutcome<L>
    ensures { result ≡ without_client kind }
{
    match kind {
        ErrorKind::WouldBlock => AcceptOutcome::Nobody,
        _ => AcceptOutcome::Failed,
    }
}
