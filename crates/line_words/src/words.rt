//! A word in memory.
ghost use Rattle.std.specs.Prelude.{◌≡◌, IfOk};
ghost use Rattle.line_words.specs.WordFields.{bytes_of};

use std::alloc::{AllocError, Global};

/// A word of a line, without its quotes.
#[derive(Drop)]
pub enum Word<'a> {
    /// A word as it is in the line.
    Borrowed(&'a [u8]),
    /// A word that contains backslashes in the line.
    Owned(Vec<u8>),
}

impl<'a> Word<'a> {
    /// Returns the bytes of the word.
    pub fn bytes(&self) -> &[u8]
        ensures value { result.now ≡ bytes_of self.now }
    {
        match self {
            Word::Borrowed(bytes) => bytes,
            Word::Owned(bytes) => bytes,
        }
    }

    /// Returns the bytes in memory of their own. A borrowed word is copied.
    pub fn into_bytes(self, alloc: Global) -> Result<Vec<u8>, AllocError>
        ensures value { IfOk result (λ bytes. bytes.items ≡ bytes_of self.entry) }
    {
        match self {
            Word::Borrowed(bytes) => Ok(Vec::from_slice(alloc, bytes)?),
            Word::Owned(bytes) => Ok(bytes),
        }
    }
}
