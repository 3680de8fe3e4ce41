//! Commands that wait for their replies.
ghost use Rattle.std.specs.Prelude.{◌≡◌, ◌++◌, ◌∷◌, [], ◌+◌, ◌↔◌, IsErrOf, IsTrue, OnErr, OnOk, map, sum};

use crate::fault::TakeFault;
use crate::reader::ReplyReader;
use crate::reply::Reply;
use std::alloc::{AllocError, Global};
use std::collections::VecDeque;
use std::mem;

/// The limit for the bytes of commands that wait for their replies. A socket takes them while the service reads nothing, so a client that waits
/// until it may send never waits for a service that waits for the client.
pub const MOST_UNANSWERED: usize = 163_840;

/// A command without a reply.
#[derive(Drop)]
pub struct Asked<T> {
    /// The caller's name for the command.
    pub tag: T,
    /// The length of the command in bytes.
    pub length: usize,
}

/// A command and its reply.
#[derive(Drop)]
pub struct Answered<T> {
    pub tag: T,
    pub reply: Reply,
}

/// The commands of one connection that wait for their replies, in order.
#[derive(Drop)]
pub struct Pipeline<T> {
    unanswered: VecDeque<Asked<T>>,
    // The bytes of these commands.
    bytes: usize,
    reader: ReplyReader,
    ghost counted: { bytes ≡ sum (map (λ asked. asked.length) unanswered.items) },
}

impl<T: Drop> Pipeline<T> {
    ghost use Rattle.std.specs.List.{All};
    ghost use Rattle.service_client.specs.Lines.{IsLine, lines_text};
    ghost use Rattle.service_client.specs.Pipelines.{Ends, EndsUnasked, Grows, HasRoom, IsUnasked, standing, unanswered_bytes};
    ghost use Rattle.service_client.specs.Replies.{IsPartial, IsRow};

    /// A pipeline before the first command. Does not allocate.
    pub fn new(alloc: Global) -> Pipeline<T>
        ensures tags { (standing result).tags ≡ [] }
        ensures rest { (standing result).rest ≡ [] }
    {
        Pipeline {
            unanswered: VecDeque::new(alloc),
            bytes: 0,
            reader: ReplyReader::new(alloc),
        }
    }

    /// Returns whether each command has its reply.
    pub fn is_settled(&self) -> bool
        ensures { IsTrue result ↔ ((standing self.now).tags ≡ []) }
    {
        self.unanswered.is_empty()
    }

    /// Returns whether a command of this length, in bytes, may be sent now.
    pub fn has_room(&self, length: usize) -> bool
        ensures { IsTrue result ↔ HasRoom self.now length }
    {
        self.unanswered.is_empty()
            || self.bytes <= MOST_UNANSWERED && length <= MOST_UNANSWERED - self.bytes
    }

    /// Notes a command of this length that is sent now. An error changes nothing.
    pub fn ask(&mut self, tag: T, length: usize) -> Result<(), AllocError>
        requires { HasRoom self.old length }
        ensures tags { OnOk result ((standing self.new).tags ≡ (standing self.old).tags ++ tag ∷ []) }
        ensures rest { (standing self.new).rest ≡ (standing self.old).rest }
        ensures bytes { OnOk result (unanswered_bytes self.new ≡ unanswered_bytes self.old + length) }
        ensures err { OnErr result (self.new.unanswered.items ≡ self.old.unanswered.items) }
    {
        self.unanswered.push_back(Asked { tag, length })?;
        self.bytes += length;
        Ok(())
    }

    /// Takes the next piece of the stream, and appends each reply that it completes, with its command. After an error the
    /// connection must be given up: nothing is known of the rest of the piece.
    pub fn take(&mut self, piece: &[u8], answers: &mut Vec<Answered<T>>) -> Result<(), TakeFault>
        ensures takes { OnOk result (Grows (standing self.old) piece.now answers.old.items answers.new.items (standing self.new)) }
        ensures err { OnErr result (Ends (standing self.old) answers.old.items answers.new.items (standing self.new)) }
        ensures partial { OnOk result (IsPartial (standing self.new).rest) }
        ensures unasked { IsErrOf result TakeFault.Unasked → EndsUnasked (standing self.old) piece.now answers.old.items answers.new.items }
    {
        for byte in piece {
            self.take_byte(*byte, answers)?;
        }
        self.reader.is_partial();
        Ok(())
    }

    // Does the same for the next byte.
    fn take_byte(&mut self, byte: u8, answers: &mut Vec<Answered<T>>) -> Result<(), TakeFault>
        ensures takes { OnOk result (Grows (standing self.old) (byte ∷ []) answers.old.items answers.new.items (standing self.new)) }
        ensures err { OnErr result ((answers.new.items ≡ answers.old.items) × ((standing self.new).tags ≡ (standing self.old).tags)) }
        ensures unasked { IsErrOf result TakeFault.Unasked → IsUnasked (standing self.old) byte }
    {
        answers.reserve(1)?;
        let Some(reply) = self.reader.take(byte)? else {
            return Ok(());
        };
        let Some(asked) = self.unanswered.pop_front() else {
            return Err(TakeFault::Unasked);
        };
        self.bytes -= asked.length;
        answers.push_reserved(Answered {
            tag: asked.tag,
            reply,
        });
        Ok(())
    }

    /// Takes out all lines that a service has sent without a command, as after `watch`. If a command waits, they may be rows of its reply.
    pub fn take_rows(&mut self) -> Vec<Vec<u8>>
        ensures rows { lines_text result.items ++ (standing self.new).rest ≡ (standing self.old).rest }
        ensures each { All (λ row. IsRow row.items) result.items }
        ensures part { IsLine (standing self.new).rest }
        ensures tags { (standing self.new).tags ≡ (standing self.old).tags }
    {
        self.reader.take_rows()
    }

    /// Gives up the connection, and returns the commands without a reply. It is unknown whether they were executed.
    pub fn lose(&mut self) -> VecDeque<Asked<T>>
        ensures lost { map (λ asked. asked.tag) result.items ≡ (standing self.old).tags }
        ensures tags { (standing self.new).tags ≡ [] }
        ensures rest { (standing self.new).rest ≡ [] }
    {
        let alloc = *self.unanswered.allocator();
        self.reader = ReplyReader::new(alloc);
        self.bytes = 0;
        mem::replace(&mut self.unanswered, VecDeque::new(alloc))
    }
}
