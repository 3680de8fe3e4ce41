//! A connection to a service over its socket.
ghost use Rattle.std.specs.Prelude.{◌≡◌, ◌≤◌, [], IfOk, OnOk, Some, length, option_copied, string_bytes};
ghost use Rattle.std.specs.IoError.{error_kind};
ghost use Rattle.spool_front.specs.TaskFaults.{lost_by};

use crate::client::Answer;
use front_proof::Caller;
pub use service_client::ConnectionFault;
use service_client::{Answered, Reply, Session};
use std::alloc::Global;
use std::fs;
use std::io::{self, ErrorKind, Read, Write};
use std::os::unix::fs::MetadataExt;
use std::os::unix::net::UnixStream;

// The bytes of one read.
const PIECE: usize = 8_192;

// Returns the fault of a failed call on the socket.
fn lost_by(error: io::Error) -> ConnectionFault
    ensures { result ≡ lost_by (error_kind error) }
{
    match error.kind() {
        ErrorKind::OutOfMemory => ConnectionFault::Memory,
        _ => ConnectionFault::Lost,
    }
}

// Returns the owner of the socket, without following a link.
fn owner_of(rt: &HostRuntime, socket: &str) -> Option<u32> {
    match fs::symlink_metadata(rt, socket) {
        Ok(about) => Some(about.uid()),
        Err(_) => None,
    }
}

/// The socket of a service, which reports nothing of its bytes.
#[derive(Drop)]
pub struct Socket {
    stream: UnixStream,
    buffer: Vec<u8>,
    // The bytes to be sent before the next ones are received.
    unsent: Vec<u8>,
}

impl service_client::Connection for Socket {
    ghost use Rattle.std.specs.Prelude.{None};

    ghost sent = { λ _. None };

    ghost came = { λ _. None };

    // Commands that are sent together leave in one write, before their replies are waited for.
    fn send(&mut self, text: &[u8]) -> Result<(), ConnectionFault> {
        self.unsent.extend_from_slice(text)?;
        Ok(())
    }

    fn receive(&mut self, piece: &mut Vec<u8>) -> Result<(), ConnectionFault> {
        write_unsent(&mut self.stream, &mut self.unsent)?;
        let count = read_some(&mut self.stream, &mut self.buffer)?;
        piece.extend_from_slice(&self.buffer[..count])?;
        Ok(())
    }
}

// Writes all bytes, and leaves none.
fn write_unsent(stream: &mut UnixStream, unsent: &mut Vec<u8>) -> Result<(), ConnectionFault>
    ensures { OnOk result (unsent.new.items ≡ []) }
{
    if unsent.is_empty() {
        return Ok(());
    }
    match stream.write_all(unsent) {
        Ok(()) => {
            unsent.clear();
            Ok(())
        }
        Err(error) => Err(lost_by(error)),
    }
}

// Reads the bytes that have come, at least one. An interrupted read is repeated.
fn read_some(stream: &mut UnixStream, buffer: &mut [u8]) -> Result<usize, ConnectionFault>
    ensures { IfOk result (λ count. count ≤ length buffer.new) }
{
    for _ in 0..u32::MAX {
        match stream.read(buffer) {
            Ok(0) => return Err(ConnectionFault::Lost),
            Ok(count) => return Ok(count),
            Err(error) if error.kind() == ErrorKind::Interrupted => {}
            Err(error) => return Err(lost_by(error)),
        }
    }
    Err(ConnectionFault::Lost)
}

/// A connection to a service.
#[derive(Drop)]
pub struct Connection {
    session: Session<Socket, ()>,
    // The owner of the socket.
    owner: Option<u32>,
    // The identity of the client for the service. `None`: the service was not asked.
    caller: Option<Caller>,
}

impl Connection {
    pub fn open(rt: &HostRuntime, socket: &str) -> Result<Connection, ConnectionFault> {
        let owner = owner_of(rt, socket);
        let buffer = vec![in rt.alloc(); 0; PIECE]?;
        match UnixStream::connect(rt, socket) {
            Ok(stream) => Ok(Connection {
                session: session_over(rt.alloc(), stream, buffer),
                owner,
                caller: None,
            }),
            Err(error) => Err(lost_by(error)),
        }
    }

    /// Returns the owner of the service's socket.
    pub fn owner(&self) -> Option<u32>
        ensures { result ≡ self.now.owner }
    {
        self.owner
    }

    /// Returns the identity of the client for the service, if it was asked.
    pub fn caller(&self) -> Option<&Caller>
        ensures { option_copied result ≡ self.now.caller }
    {
        self.caller.as_ref()
    }

    /// Sends a command and returns its reply. After an error the connection must be given up.
    pub fn exchange(&mut self, alloc: Global, text: &[u8]) -> Result<Answer, ConnectionFault> {
        if !self.session.is_settled() {
            return Err(ConnectionFault::Lost);
        }
        answer_of(alloc, self.session.exchange((), text)?)
    }

    /// Stores the identity of the client for the service.
    pub fn note_caller(&mut self, caller: Caller)
        ensures { self.new ≡ record self.old { caller = Some caller } }
    {
        self.caller = Some(caller);
    }

    /// Sends two commands together and returns their replies, in the same order. After an error the connection must be given up.
    pub fn exchange_both(
        &mut self,
        alloc: Global,
        first: &[u8],
        second: &[u8],
    ) -> Result<(Answer, Answer), ConnectionFault> {
        let mut answers = Vec::new(alloc);
        self.session.send((), first, &mut answers)?;
        self.session.send((), second, &mut answers)?;
        self.session.settle(&mut answers)?;
        let (Some(last), Some(before)) = (answers.pop(), answers.pop()) else {
            return Err(ConnectionFault::Lost);
        };
        let before = answer_of(alloc, before.reply)?;
        let last = answer_of(alloc, last.reply)?;
        Ok((before, last))
    }

    /// Sends commands together and returns their replies, in the same order. After an error the connection must be given up.
    pub fn exchange_all(
        &mut self,
        alloc: Global,
        texts: &[Vec<u8>],
    ) -> Result<Vec<Answer>, ConnectionFault> {
        let mut answers = Vec::new(alloc);
        for text in texts {
            self.session.send((), text, &mut answers)?;
        }
        self.session.settle(&mut answers)?;
        answers_of(alloc, answers)
    }

    /// Waits for lines that the service sends without a command.
    pub fn receive_lines(&mut self) -> Result<Vec<Vec<u8>>, ConnectionFault> {
        if !self.session.is_settled() {
            return Err(ConnectionFault::Lost);
        }
        self.session.receive_lines()
    }
}

fn session_over(alloc: Global, stream: UnixStream, buffer: Vec<u8>) -> Session<Socket, ()> {
    let unsent = Vec::new(alloc);
    Session::new(
        alloc,
        Socket {
            stream,
            buffer,
            unsent,
        },
    )
}

fn answers_of(alloc: Global, replies: Vec<Answered<()>>) -> Result<Vec<Answer>, ConnectionFault> {
    let mut answers = Vec::new(alloc);
    for answered in replies {
        answers.push(answer_of(alloc, answered.reply)?)?;
    }
    Ok(answers)
}

// Returns a reply with its last line as text. A last line that is no text is no reply.
fn answer_of(alloc: Global, reply: Reply) -> Result<Answer, ConnectionFault>
    ensures { IfOk result (λ answer. (answer.rows ≡ reply.rows) × (string_bytes answer.last ≡ reply.last.items)) }
{
    let Reply { rows, last } = reply;
    match std::str::from_utf8(&last) {
        Ok(text) => Ok(Answer {
            rows,
            last: String::from_str(alloc, text)?,
        }),
        Err(_) => Err(ConnectionFault::Lost),
    }
}
