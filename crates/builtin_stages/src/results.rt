//! Writes the result of a document.
ghost use Rattle.std.specs.Prelude.{◌≡◌, ◌+◌, ◌^◌, ◌≤◌, List, None, Option, ℕ, true, IfErr, IfOk, OnOk};
ghost use Rattle.whole_writes.specs.Writes.{WroteSome};
ghost use Rattle.std.specs.List.{flat_map};
ghost use Rattle.std.specs.Io.KnownBytes.{Appends};
ghost use Rattle.builtin_stages.specs.Results.{Copied, IsOfResult, IsUnwritten, WroteResult, end_of, form_feeds, is_read, piece_of, printed_byte};

use crate::fault::ToolFault;
use std::alloc::{AllocError, Global};
use std::io;
use std::io::{ErrorKind, Read, Write};
use whole_writes::write_whole;

// The number of bytes that one read takes.
const PIECE: usize = 65_536;

const LINE_FEED: u8 = 10;

const FORM_FEED: u8 = 12;

const CARRIAGE_RETURN: u8 = 13;

/// The form in which a document is written.
#[derive(Clone, Copy)]
pub enum Form {
    /// Unchanged.
    Plain,
    /// For a line printer: CR LF for each LF, and a form feed at the end.
    Lines,
}

/// A document that is read from its start each time it is opened.
pub trait Source {
    type Reader: Read + Drop;

    // Its bytes, if they are known.
    ghost known: { Self → Option (List ℕ) } = { λ _. None };

    fn open(&self) -> Result<Self::Reader, ToolFault>
        ensures whole { IfOk result (λ reader. Self.Reader.remaining reader ≡ known self.now) }
        ensures fault { IfErr result (λ fault. is_read fault ≡ true) };
}

/// Writes `copies` copies of the document's result, and returns the number of form feeds written.
pub fn write_copies<S: Source, W: Write>(
    alloc: Global,
    form: Form,
    source: &S,
    copies: u32,
    writer: &mut W,
) -> Result<u64, ToolFault>
    ensures copied { IfOk result (Copied form copies (S.known source.now) (W.contents writer.old) (W.contents writer.new)) }
    ensures fault { IfErr result (IsOfResult form) }
{
    let mut feeds = 0;
    'copies: for _ in 0..copies {
        let mut reader = source.open()?;
        let count = write_result(alloc, form, &mut reader, writer)?;
        feeds = total(feeds, count)?;
    }
    Ok(feeds)
}

// Writes the result of the reader's bytes, and returns the number of form feeds written.
fn write_result<R: Read, W: Write>(
    alloc: Global,
    form: Form,
    reader: &mut R,
    writer: &mut W,
) -> Result<u64, ToolFault>
    ensures wrote { IfOk result (WroteResult form (R.remaining reader.old) (R.remaining reader.new)
        (W.contents writer.old) (W.contents writer.new)) }
    ensures fault { IfErr result (IsOfResult form) }
{
    let mut piece = [0u8; PIECE];
    let mut lines = Vec::new(alloc);
    let mut feeds = 0;
    'pieces: for _ in 0..u64::MAX {
        match reader.read(&mut piece) {
            Ok(0) => return Ok(total(feeds, write_end(form, writer)?)?),
            Ok(n) => {
                let count = write_piece(form, &piece[..n], &mut lines, writer)?;
                feeds = total(feeds, count)?;
            }
            Err(error) => {
                if error.kind() != ErrorKind::Interrupted {
                    return Err(ToolFault::Read(error));
                }
            }
        }
    }
    Err(ToolFault::Read(io::Error::from(ErrorKind::Interrupted)))
}

// Writes the result of a piece, and returns its number of form feeds. The content of `lines` is overwritten.
fn write_piece<W: Write>(
    form: Form,
    piece: &[u8],
    lines: &mut Vec<u8>,
    writer: &mut W,
) -> Result<u64, ToolFault>
    ensures wrote { OnOk result (Appends (W.contents writer.old) (W.contents writer.new) (piece_of form piece.now)) }
    ensures feeds { IfOk result (λ feeds. feeds ≡ form_feeds (piece_of form piece.now)) }
    ensures fault { IfErr result (IsUnwritten form (piece_of form piece.now) (W.contents writer.old) (W.contents writer.new)) }
{
    match form {
        Form::Plain => write_bytes(piece, writer),
        Form::Lines => {
            print_lines(piece, lines)?;
            write_bytes(lines.as_slice(), writer)
        }
    }
}

// Writes the end of the result, after all pieces, and returns its number of form feeds.
fn write_end<W: Write>(form: Form, writer: &mut W) -> Result<u64, ToolFault>
    ensures wrote { OnOk result (Appends (W.contents writer.old) (W.contents writer.new) (end_of form)) }
    ensures feeds { IfOk result (λ feeds. feeds ≡ form_feeds (end_of form)) }
    ensures fault { IfErr result (λ fault. (fault ≡ ToolFault.Write)
        × WroteSome (W.contents writer.old) (W.contents writer.new) (end_of form)) }
{
    match form {
        Form::Plain => Ok(0),
        Form::Lines => write_bytes(&[FORM_FEED], writer),
    }
}

// Writes the bytes, and returns their number of form feeds.
fn write_bytes<W: Write>(bytes: &[u8], writer: &mut W) -> Result<u64, ToolFault>
    ensures wrote { OnOk result (Appends (W.contents writer.old) (W.contents writer.new) bytes.now) }
    ensures feeds { IfOk result (λ feeds. feeds ≡ form_feeds bytes.now) }
    ensures fault { IfErr result (λ fault. (fault ≡ ToolFault.Write)
        × WroteSome (W.contents writer.old) (W.contents writer.new) bytes.now) }
{
    write_whole(writer, bytes)?;
    Ok(form_feeds(bytes))
}

// Sets `lines` to the piece with a carriage return before each line feed.
fn print_lines(piece: &[u8], lines: &mut Vec<u8>) -> Result<(), AllocError>
    ensures { OnOk result (lines.new.items ≡ flat_map printed_byte piece.now) }
{
    lines.clear();
    for b in piece {
        if *b == LINE_FEED {
            lines.push(CARRIAGE_RETURN)?;
        }
        lines.push(*b)?;
    }
    Ok(())
}

// Counts the form feeds.
fn form_feeds(bytes: &[u8]) -> u64
    ensures { result ≡ form_feeds bytes.now }
{
    bytes.iter().filter(|b| **b == FORM_FEED).count() as u64
}

// Returns the sum of two counts. A sum above 64 bits is a fault, because it cannot be reported.
fn total(a: u64, b: u64) -> Result<u64, ToolFault>
    ensures sum { IfOk result (λ sum. sum ≡ a + b) }
    ensures fault { IfErr result (λ fault. (fault ≡ ToolFault.Write) × (2 ^ 64 ≤ a + b)) }
{
    a.checked_add(b).ok_or(ToolFault::Write)
}
