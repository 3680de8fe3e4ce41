//! A connection with commands that wait for their replies.
ghost use Rattle.std.specs.Prelude.{◌≡◌, ◌≢◌, ◌++◌, ◌∷◌, [], ◌↔◌, ◌⊎◌, IfOk, IsTrue, List, OnErr, OnOk, map};
ghost use Rattle.std.specs.List.{All};
ghost use Rattle.service_client.specs.Lines.{IsLine};
ghost use Rattle.service_client.specs.Pipelines.{Ends, HasRoom, Standing, standing};
ghost use Rattle.service_client.specs.Replies.{IsRow, told};
ghost use Rattle.service_client.specs.Traces.{Adds, Exchange, Hears, IsTalk, Receives, Sends};

use crate::connection::{Connection, ConnectionFault};
use crate::pipeline::{Answered, Asked, Pipeline};
use crate::reply::Reply;
use std::alloc::Global;
use std::collections::VecDeque;

/// A connection to a service, and the commands that wait for their replies.
#[derive(Drop)]
pub struct Session<C: Connection, T> {
    connection: C,
    pipeline: Pipeline<T>,
    // The bytes that have come last.
    piece: Vec<u8>,
}

impl<C: Connection, T: Drop> Session<C, T> {
    /// A session over a new connection. Does not allocate.
    pub fn new(alloc: Global, connection: C) -> Session<C, T>
        ensures tags { (standing result.pipeline).tags ≡ [] }
        ensures rest { (standing result.pipeline).rest ≡ [] }
        ensures connection { result.connection ≡ connection }
    {
        Session {
            connection,
            pipeline: Pipeline::new(alloc),
            piece: Vec::new(alloc),
        }
    }

    /// Returns the connection.
    pub fn connection(&self) -> &C
        ensures { result.now ≡ self.now.connection }
    {
        &self.connection
    }

    /// Returns whether each command has its reply.
    pub fn is_settled(&self) -> bool
        ensures { IsTrue result ↔ ((standing self.now.pipeline).tags ≡ []) }
    {
        self.pipeline.is_settled()
    }

    /// Waits for the next bytes, and appends the replies that they complete, each with its command. After an error the connection must be
    /// given up.
    pub fn receive(&mut self, answers: &mut Vec<Answered<T>>) -> Result<(), ConnectionFault>
        ensures receives { OnOk result (Receives (standing self.old.pipeline) (C.came self.old.connection) answers.old.items answers.new.items (standing self.new.pipeline) (C.came self.new.connection)) }
        ensures err { OnErr result (Ends (standing self.old.pipeline) answers.old.items answers.new.items (standing self.new.pipeline)) }
        ensures sent { C.sent self.new.connection ≡ C.sent self.old.connection }
    {
        self.piece.clear();
        self.connection.receive(&mut self.piece)?;
        self.pipeline.take(&self.piece, answers)?;
        Ok(())
    }

    /// Waits until each command has its reply.
    pub fn settle(&mut self, answers: &mut Vec<Answered<T>>) -> Result<(), ConnectionFault>
        ensures receives { OnOk result (Receives (standing self.old.pipeline) (C.came self.old.connection) answers.old.items answers.new.items (standing self.new.pipeline) (C.came self.new.connection)) }
        ensures settled { OnOk result ((standing self.new.pipeline).tags ≡ []) }
        ensures err { OnErr result (Ends (standing self.old.pipeline) answers.old.items answers.new.items (standing self.new.pipeline)) }
        ensures sent { C.sent self.new.connection ≡ C.sent self.old.connection }
    {
        for _ in 0..u64::MAX {
            if self.pipeline.is_settled() {
                return Ok(());
            }
            self.receive(answers)?;
        }
        Err(ConnectionFault::Lost)
    }

    /// Waits until a command of this length, in bytes, may be sent.
    pub fn wait_for_room(
        &mut self,
        length: usize,
        answers: &mut Vec<Answered<T>>,
    ) -> Result<(), ConnectionFault>
        ensures receives { OnOk result (Receives (standing self.old.pipeline) (C.came self.old.connection) answers.old.items answers.new.items (standing self.new.pipeline) (C.came self.new.connection)) }
        ensures room { OnOk result (HasRoom self.new.pipeline length) }
        ensures err { OnErr result (Ends (standing self.old.pipeline) answers.old.items answers.new.items (standing self.new.pipeline)) }
        ensures sent { C.sent self.new.connection ≡ C.sent self.old.connection }
    {
        for _ in 0..u64::MAX {
            if self.pipeline.has_room(length) {
                return Ok(());
            }
            self.receive(answers)?;
        }
        Err(ConnectionFault::Lost)
    }

    /// Sends a command once the commands before it leave room for it, and appends the replies that come meanwhile, each with its command.
    pub fn send(
        &mut self,
        tag: T,
        text: &[u8],
        answers: &mut Vec<Answered<T>>,
    ) -> Result<(), ConnectionFault>
        ensures sends { OnOk result (Sends (standing self.old.pipeline) (C.came self.old.connection) answers.old.items answers.new.items tag (standing self.new.pipeline) (C.came self.new.connection)) }
        ensures err { OnErr result ((mid : Standing T) × Ends (standing self.old.pipeline) answers.old.items answers.new.items mid
            × (((standing self.new.pipeline).tags ≡ mid.tags) ⊎ ((standing self.new.pipeline).tags ≡ mid.tags ++ tag ∷ []))) }
        ensures sent { OnOk result (Adds (C.sent self.old.connection) text.now (C.sent self.new.connection)) }
    {
        self.wait_for_room(text.len(), answers)?;
        self.pipeline.ask(tag, text.len())?;
        self.connection.send(text)
    }

    /// Sends a command and waits for its reply. No other command may wait for one.
    pub fn exchange(&mut self, tag: T, text: &[u8]) -> Result<Reply, ConnectionFault>
        requires { (standing self.old.pipeline).tags ≡ [] }
        ensures settled { OnOk result ((standing self.new.pipeline).tags ≡ []) }
        ensures sent { OnOk result (Adds (C.sent self.old.connection) text.now (C.sent self.new.connection)) }
        ensures talk { (exchanges : List Exchange) → IsTalk (C.sent self.old.connection) (C.came self.old.connection) (standing self.old.pipeline).rest exchanges →
            IfOk result (λ reply. IsTalk (C.sent self.new.connection) (C.came self.new.connection) (standing self.new.pipeline).rest
            (exchanges ++ record { command = text.now; reply = told reply } ∷ [])) }
    {
        let mut answers = Vec::new(*self.piece.allocator());
        self.send(tag, text, &mut answers)?;
        self.settle(&mut answers)?;
        match answers.pop() {
            Some(answered) => Ok(answered.reply),
            None => Err(ConnectionFault::Lost),
        }
    }

    /// Waits for lines that the service sends without a command, as after `watch`, and returns all that have come. No command may wait for
    /// its reply.
    pub fn receive_lines(&mut self) -> Result<Vec<Vec<u8>>, ConnectionFault>
        requires { (standing self.old.pipeline).tags ≡ [] }
        ensures settled { OnOk result ((standing self.new.pipeline).tags ≡ []) }
        ensures lines { IfOk result (λ lines. Hears (standing self.old.pipeline).rest (C.came self.old.connection) lines.items
            (standing self.new.pipeline).rest (C.came self.new.connection)) }
        ensures some { IfOk result (λ lines. lines.items ≢ []) }
        ensures each { IfOk result (λ lines. All (λ line. IsRow line.items) lines.items) }
        ensures part { OnOk result (IsLine (standing self.new.pipeline).rest) }
        ensures sent { C.sent self.new.connection ≡ C.sent self.old.connection }
    {
        let mut answers = Vec::new(*self.piece.allocator());
        for _ in 0..u64::MAX {
            let lines = self.pipeline.take_rows();
            if !lines.is_empty() {
                return Ok(lines);
            }
            self.receive(&mut answers)?;
        }
        Err(ConnectionFault::Lost)
    }

    /// Gives up the connection, and returns the commands without a reply. It is unknown whether they were executed.
    pub fn lose(self) -> VecDeque<Asked<T>>
        ensures { map (λ asked. asked.tag) result.items ≡ (standing self.pipeline).tags }
    {
        let mut pipeline = self.pipeline;
        pipeline.lose()
    }
}
