//! A reader of replies.
ghost use Rattle.std.specs.Prelude.{◌≡◌, ◌++◌, ◌∷◌, [], IfNone, IfOk, IfSome};
ghost use Rattle.std.specs.List.{All};
ghost use Rattle.service_client.specs.Replies.{IsPartial, IsReply, IsRow, reply_bytes, told};

use crate::lines::LineReader;
use crate::reply::{Reply, is_last};
use std::alloc::{AllocError, Global};
use std::mem;

/// Cuts the replies from the bytes that a service sends.
#[derive(Drop)]
pub struct ReplyReader {
    rows: Vec<Vec<u8>>,
    lines: LineReader,
    ghost are_rows: { All (λ row. IsRow row.items) rows.items },
}

impl ReplyReader {
    ghost use Rattle.service_client.specs.HeldBytes.{held};
    ghost use Rattle.service_client.specs.Lines.{IsLine, lines_text};

    /// A reader before the first byte. Does not allocate.
    pub fn new(alloc: Global) -> ReplyReader
        ensures { held result ≡ [] }
    {
        ReplyReader {
            rows: Vec::new(alloc),
            lines: LineReader::new(alloc),
        }
    }

    /// Takes the next byte, and returns the reply that it completes. After an error nothing is known of the byte.
    pub fn take(&mut self, byte: u8) -> Result<Option<Reply>, AllocError>
        ensures more { IfOk result (λ reply. IfNone reply (held self.new ≡ held self.old ++ byte ∷ [])) }
        ensures reply { IfOk result (λ reply. IfSome reply (λ reply. reply_bytes (told reply) ≡ held self.old ++ byte ∷ [])) }
        ensures whole { IfOk result (λ reply. IfSome reply (λ reply. IsReply (told reply))) }
        ensures empty { IfOk result (λ reply. IfSome reply (λ reply. held self.new ≡ [])) }
    {
        let Some(line) = self.lines.take(byte)? else {
            return Ok(None);
        };
        if !is_last(&line) {
            self.rows.push(line)?;
            return Ok(None);
        }
        let alloc = *self.rows.allocator();
        let rows = mem::replace(&mut self.rows, Vec::new(alloc));
        Ok(Some(Reply { rows, last: line }))
    }

    /// Takes out all rows of the incomplete reply, such as lines that a service sends without a command. Part of a line stays.
    pub fn take_rows(&mut self) -> Vec<Vec<u8>>
        ensures rows { lines_text result.items ++ held self.new ≡ held self.old }
        ensures each { All (λ row. IsRow row.items) result.items }
        ensures part { IsLine (held self.new) }
    {
        let alloc = *self.rows.allocator();
        mem::replace(&mut self.rows, Vec::new(alloc))
    }

    /// The bytes of an incomplete reply are less than a reply.
    pub fn is_partial(&self)
        ensures { IsPartial (held self.now) }
    {}
}
