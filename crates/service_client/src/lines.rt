//! A reader of lines.
ghost use Rattle.std.specs.Prelude.{◌≡◌, ◌++◌, ◌∷◌, [], IfNone, IfOk, IfSome, OnErr, OnOk};
ghost use Rattle.std.specs.List.{All};
ghost use Rattle.service_client.specs.Lines.{IsLine, lines_text, with_feed};

use std::alloc::{AllocError, Global};
use std::mem;

const LINE_FEED: u8 = b'\n';

/// Cuts the lines from bytes that come in pieces.
#[derive(Drop)]
pub struct LineReader {
    // The front of the next line.
    part: Vec<u8>,
    ghost is_part: { IsLine part.items },
}

impl LineReader {
    /// A reader before the first byte. Does not allocate.
    pub fn new(alloc: Global) -> LineReader
        ensures { result.part.items ≡ [] }
    {
        LineReader {
            part: Vec::new(alloc),
        }
    }

    /// Takes the next byte, and returns the line that it ends, without its line feed. An error changes nothing.
    pub fn take(&mut self, byte: u8) -> Result<Option<Vec<u8>>, AllocError>
        ensures more { IfOk result (λ line. IfNone line (self.new.part.items ≡ self.old.part.items ++ byte ∷ [])) }
        ensures line { IfOk result (λ line. IfSome line (λ line. with_feed line.items ≡ self.old.part.items ++ byte ∷ [])) }
        ensures whole { IfOk result (λ line. IfSome line (λ line. IsLine line.items)) }
        ensures empty { IfOk result (λ line. IfSome line (λ line. self.new.part.items ≡ [])) }
        ensures err { OnErr result (self.new.part.items ≡ self.old.part.items) }
    {
        if byte == LINE_FEED {
            let alloc = *self.part.allocator();
            return Ok(Some(mem::replace(&mut self.part, Vec::new(alloc))));
        }
        self.part.push(byte)?;
        Ok(None)
    }

    /// Takes the next piece, and appends the lines that it ends. After an error nothing is known of the rest of the piece.
    pub fn take_all(&mut self, piece: &[u8], lines: &mut Vec<Vec<u8>>) -> Result<(), AllocError>
        ensures stream { OnOk result (lines_text lines.new.items ++ self.new.part.items ≡ (lines_text lines.old.items ++ self.old.part.items) ++ piece.now) }
        ensures whole { All (λ line. IsLine line.items) lines.old.items → All (λ line. IsLine line.items) lines.new.items }
    {
        for byte in piece {
            self.take_into(*byte, lines)?;
        }
        Ok(())
    }

    // Does the same for the next byte.
    fn take_into(&mut self, byte: u8, lines: &mut Vec<Vec<u8>>) -> Result<(), AllocError>
        ensures stream { OnOk result (lines_text lines.new.items ++ self.new.part.items ≡ (lines_text lines.old.items ++ self.old.part.items) ++ byte ∷ []) }
        ensures whole { All (λ line. IsLine line.items) lines.old.items → All (λ line. IsLine line.items) lines.new.items }
    {
        match self.take(byte)? {
            Some(line) => {
                lines.push(line)?;
                Ok(())
            }
            None => Ok(()),
        }
    }
}
