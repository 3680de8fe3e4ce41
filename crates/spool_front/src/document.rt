//! A document that is sent in pieces.
ghost use Rattle.std.specs.Prelude.{◌≡◌, ◌≢◌, ◌<◌, ◌≤◌, IfOk, OnOk, [], false, length, take, true};
ghost use Rattle.std.specs.Io.KnownBytes.{Consumes, IsAtEnd, prepend_known};
ghost use Rattle.spool_front.specs.PieceBounds.{ahead_in, piece_in};

use std::alloc::{AllocError, Global};
use std::io;
use std::io::Read;

// The greatest length of a piece, in bytes. It is sent by two commands, and the second one has fewer bytes than the first one.
const PIECE: usize = 131_071;

/// A document. Its last piece is stored until the next one is read, so that it can be sent again. The byte after a long piece is read with it, so
/// that it is known whether the piece is the document's last one.
#[derive(Drop)]
pub struct Document<S> {
    source: S,
    // A piece, and the byte after it.
    buffer: Vec<u8>,
    // The number of bytes read.
    filled: usize,
    ended: bool,
    ghost room: { length buffer.items ≡ 131072 },
    ghost in_buffer: { filled ≤ 131072 },
}

impl<S: Read + Drop> Document<S> {
    ghost use Rattle.spool_front.specs.DocumentPieces.{ahead_of, is_last, piece_of, rest_of};

    pub fn new(alloc: Global, source: S) -> Result<Document<S>, AllocError>
        ensures piece { IfOk result (λ document. piece_of document ≡ []) }
        ensures ahead { IfOk result (λ document. ahead_of document ≡ []) }
        ensures source { IfOk result (λ document. document.source ≡ source) }
    {
        let buffer = vec![in alloc; 0; PIECE + 1]?;
        Ok(Document {
            source,
            buffer,
            filled: 0,
            ended: false,
        })
    }

    /// Returns the piece that was read last.
    pub fn piece(&self) -> &[u8]
        ensures { result.now ≡ piece_of self.now }
    {
        &self.buffer[..self.filled.min(PIECE)]
    }

    /// Returns whether the document ends with the piece that was read last.
    pub fn is_last(&self) -> bool
        ensures { result ≡ is_last self.now }
    {
        self.ended
    }

    /// Reads the next piece and returns its length, which is 0 at the document's end.
    pub fn next_piece(&mut self) -> io::Result<u32>
        ensures bytes { OnOk result (Consumes (rest_of (S.remaining self.old.source) self.old) (rest_of (S.remaining self.new.source) self.new) (piece_of self.new)) }
        ensures count { IfOk result (λ count. count ≡ length (piece_of self.new)) }
        ensures end { OnOk result (is_last self.new ≡ true → IsAtEnd (rest_of (S.remaining self.new.source) self.new)) }
        ensures more { OnOk result (is_last self.new ≡ false → ahead_of self.new ≢ []) }
        ensures long { OnOk result (is_last self.new ≡ false → length (piece_of self.new) ≡ 131071) }
    {
        self.filled = read_on(&mut self.source, &mut self.buffer, self.filled)?;
        self.ended = self.filled <= PIECE;
        Ok(self.filled.min(PIECE) as u32)
    }
}

// Reads the next piece into the buffer, and the byte after it. Returns the number of bytes in the buffer.
fn read_on<S: Read>(source: &mut S, buffer: &mut [u8], filled: usize) -> io::Result<usize>
    requires room { length buffer.old ≡ 131072 }
    requires in_buffer { filled ≤ 131072 }
    ensures room { length buffer.new ≡ 131072 }
    ensures bound { IfOk result (λ read. read ≤ 131072) }
    ensures bytes { IfOk result (λ read. Consumes (prepend_known (ahead_in filled buffer.old) (S.remaining source.old))
        (prepend_known (ahead_in read buffer.new) (S.remaining source.new)) (piece_in read buffer.new)) }
    ensures end { IfOk result (λ read. read < 131072 → IsAtEnd (S.remaining source.new)) }
{
    let kept = keep_ahead(buffer, filled);
    let count = fill(source, &mut buffer[kept..])?;
    Ok(kept + count)
}

// Moves the byte after a piece to the front, if it was read. Returns the number of bytes moved.
fn keep_ahead(buffer: &mut [u8], filled: usize) -> usize
    requires room { length buffer.old ≡ 131072 }
    requires in_buffer { filled ≤ 131072 }
    ensures room { length buffer.new ≡ 131072 }
    ensures count { result ≡ length (ahead_in filled buffer.old) }
    ensures bytes { take result buffer.new ≡ ahead_in filled buffer.old }
{
    if filled <= PIECE {
        return 0;
    }
    buffer[0] = buffer[PIECE];
    1
}

// Reads until the buffer is full or the source ends. Returns the number of bytes read.
fn fill<S: Read>(source: &mut S, buffer: &mut [u8]) -> io::Result<usize>
    ensures bound { IfOk result (λ filled. filled ≤ length buffer.new) }
    ensures bytes { IfOk result (λ filled. Consumes (S.remaining source.old) (S.remaining source.new) (take filled buffer.new)) }
    ensures end { IfOk result (λ filled. filled < length buffer.old → IsAtEnd (S.remaining source.new)) }
{
    let mut filled = 0;
    while filled < buffer.len() {
        let count = source.read(&mut buffer[filled..])?;
        if count == 0 {
            break;
        }
        filled += count;
    }
    Ok(filled)
}
