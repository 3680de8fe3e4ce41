//! The connection to the service, with commands that wait for their replies.
ghost use Rattle.std.specs.Prelude.{◌≡◌, ◌↔◌, ◌++◌, ◌∷◌, [], is_some, length, map, true, false, IfOk, IsTrue, OnErr};
ghost use Rattle.service_client.specs.Pipelines.{Ends, standing};
ghost use Rattle.ipp_sockets.specs.UnwrittenBytes.{IsRest, unwritten};

use crate::outgoing::Outgoing;
use crate::sockets::Stream;
use service_client::{Answered, Asked, Pipeline};
use std::alloc::{AllocError, Global};
use std::collections::VecDeque;
use std::io::ErrorKind;

/// The client of a command: its key, and the number of its connection.
#[derive(Clone, Copy)]
pub struct Tag {
    pub key: usize,
    pub serial: u64,
}

/// The connection, if there is one.
#[derive(Drop)]
pub struct Link<S: Stream> {
    alloc: Global,
    stream: Option<S>,
    pipeline: Pipeline<Tag>,
    output: Outgoing,
    // Whether bytes may have come.
    readable: bool,
    // Whether a command waits for a reply whose text could not be sent, because memory ran out.
    broken: bool,
    // Commands wait only on a connection, and a reply is never begun on one and continued on another.
    ghost idle: { is_some stream ≡ false → (standing pipeline).tags ≡ [] },
    ghost unbegun: { is_some stream ≡ false → (standing pipeline).rest ≡ [] },
}

impl<S: Stream> Link<S> {
    ghost use Rattle.ipp_sockets.specs.LinkStates.{AreOnce, CanAsk, IsAsked, IsGivenUp, IsNew, IsNotAsked, IsQuiet, IsSame, Stands, waiting};

    /// No connection.
    pub fn new(alloc: Global) -> Link<S>
        ensures { IsGivenUp result }
    {
        Link {
            alloc,
            stream: None,
            pipeline: Pipeline::new(alloc),
            output: Outgoing::new(alloc),
            readable: false,
            broken: false,
        }
    }

    /// Notes that bytes may have come.
    pub fn note_ready(&mut self)
        ensures { self.new ≡ record self.old { readable = true } }
    {
        self.readable = true;
    }

    /// Returns whether there is a connection.
    pub fn is_connected(&self) -> bool
        ensures { result ≡ is_some self.now.stream }
    {
        self.stream.is_some()
    }

    /// Returns whether each command has its reply.
    pub fn is_settled(&self) -> bool
        ensures { IsTrue result ↔ (waiting self.now ≡ []) }
    {
        self.pipeline.is_settled()
    }

    /// Takes a new connection, if there is none.
    pub fn connected(&mut self, stream: S)
        requires { is_some self.old.stream ≡ false }
        ensures { IsNew stream self.new }
    {
        self.stream = Some(stream);
        self.output.clear();
        self.readable = true;
        self.broken = false;
    }

    // Returns whether there is a connection with room for a command of this length. One that lacks the text of a command takes no other one.
    fn can_ask(&self, length: usize) -> bool
        ensures { IsTrue result ↔ CanAsk self.now length }
    {
        self.stream.is_some() && !self.broken && self.pipeline.has_room(length)
    }

    /// Sends a command. Returns whether there is a connection that takes it. After an error the connection may be given up at the next
    /// exchange.
    pub fn ask(&mut self, tag: Tag, text: &[u8]) -> Result<bool, AllocError>
        ensures answer { IfOk result (λ sent. IsTrue sent ↔ CanAsk self.old (length text.now)) }
        ensures sent { IfOk result (λ sent. sent ≡ true → IsAsked tag text.now self.old self.new) }
        ensures none { IfOk result (λ sent. sent ≡ false → self.new ≡ self.old) }
        ensures err { OnErr result (IsNotAsked tag self.old self.new) }
    {
        if !self.can_ask(text.len()) {
            return Ok(false);
        }
        self.pipeline.ask(tag, text.len())?;
        // Without its text the command would take the reply of another one.
        self.broken = true;
        self.output.push(text)?;
        self.broken = false;
        Ok(true)
    }

    /// Reads and writes what can be read and written now. Returns the commands without a reply if the connection is lost.
    pub fn pump(&mut self, answers: &mut Vec<Answered<Tag>>) -> VecDeque<Asked<Tag>>
        ensures once { AreOnce (waiting self.old) answers.old.items answers.new.items result.items (waiting self.new) }
        // A connection that lacks the text of a command is given up.
        ensures broken { self.old.broken ≡ true → is_some self.new.stream ≡ false }
        ensures stands { is_some self.new.stream ≡ true → (Stands self.old self.new) × (result.items ≡ []) }
        ensures lost { is_some self.new.stream ≡ false → IsGivenUp self.new }
        // A connection with nothing to exchange is not lost.
        ensures quiet { IsQuiet self.old → (IsSame self.old self.new) × (answers.new.items ≡ answers.old.items) × (result.items ≡ []) }
    {
        if self.stands(answers) {
            VecDeque::new(self.alloc)
        } else {
            self.lose()
        }
    }

    // Reads and writes. Returns whether the connection is still open.
    fn stands(&mut self, answers: &mut Vec<Answered<Tag>>) -> bool
        ensures ends { Ends (standing self.old.pipeline) answers.old.items answers.new.items (standing self.new.pipeline) }
        ensures stands { result ≡ true → Stands self.old self.new }
        ensures quiet { IsQuiet self.old → (IsSame self.old self.new) × (answers.new.items ≡ answers.old.items) × (result ≡ true) }
    {
        let Some(stream) = &mut self.stream else {
            return false;
        };
        if self.broken {
            return false;
        }
        if !self.output.is_empty() && !write_out(stream, &mut self.output) {
            return false;
        }
        if !self.readable {
            return true;
        }
        self.readable = false;
        read_in(stream, &mut self.pipeline, answers)
    }

    /// Gives up the connection. Returns the commands without a reply.
    pub fn lose(&mut self) -> VecDeque<Asked<Tag>>
        ensures lost { map (λ asked. asked.tag) result.items ≡ waiting self.old }
        ensures given_up { IsGivenUp self.new }
    {
        self.stream = None;
        self.output.clear();
        self.readable = false;
        self.broken = false;
        self.pipeline.lose()
    }
}

// Writes until the connection takes no more bytes. Returns whether it is still open.
fn write_out<S: Stream>(stream: &mut S, output: &mut Outgoing) -> bool
    ensures { IsRest (unwritten output.old) (unwritten output.new) }
{
    for _ in 0..u32::MAX {
        if output.is_empty() {
            return true;
        }
        match stream.write(output.rest()) {
            Ok(0) => return false,
            Ok(count) => output.advance(count),
            Err(error) if error.kind() == ErrorKind::WouldBlock => return true,
            Err(error) if error.kind() == ErrorKind::Interrupted => {}
            Err(_) => return false,
        }
    }
    true
}

// The end of a read.
#[derive(Clone, Copy)]
enum Reading {
    /// More bytes may have arrived.
    More,
    /// All bytes that have arrived are read.
    All,
    /// The connection is lost.
    Lost,
}

// Reads the bytes that have arrived. Returns whether the connection is still open.
fn read_in<S: Stream>(
    stream: &mut S,
    pipeline: &mut Pipeline<Tag>,
    answers: &mut Vec<Answered<Tag>>,
) -> bool
    ensures { Ends (standing pipeline.old) answers.old.items answers.new.items (standing pipeline.new) }
{
    for _ in 0..u32::MAX {
        match read_piece(stream, pipeline, answers) {
            Reading::More => {}
            Reading::All => return true,
            Reading::Lost => return false,
        }
    }
    true
}

// Reads once.
fn read_piece<S: Stream>(
    stream: &mut S,
    pipeline: &mut Pipeline<Tag>,
    answers: &mut Vec<Answered<Tag>>,
) -> Reading
    ensures { Ends (standing pipeline.old) answers.old.items answers.new.items (standing pipeline.new) }
{
    let mut piece = [0u8; 16_384];
    match stream.read(&mut piece) {
        Ok(0) => Reading::Lost,
        Ok(count) => take(pipeline, &piece[..count], answers),
        Err(error) if error.kind() == ErrorKind::WouldBlock => Reading::All,
        Err(error) if error.kind() == ErrorKind::Interrupted => Reading::More,
        Err(_) => Reading::Lost,
    }
}

// Takes a piece of the replies.
fn take(pipeline: &mut Pipeline<Tag>, piece: &[u8], answers: &mut Vec<Answered<Tag>>) -> Reading
    ensures { Ends (standing pipeline.old) answers.old.items answers.new.items (standing pipeline.new) }
{
    match pipeline.take(piece, answers) {
        Ok(()) => Reading::More,
        Err(_) => Reading::Lost,
    }
}
