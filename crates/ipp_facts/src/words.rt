//! The fields of rows.
ghost use Rattle.std.specs.Prelude.{◌≡◌, ◌≤◌, ◌<◌, ◌^◌};
ghost use Rattle.ipp_facts.specs.QueueReports.{number_of, value_in, value_of};

use line_words::{decimal, first_word, is_quote, read_quoted};
use spool_types::{Message, Note, Text, TextKind};
use std::alloc::{AllocError, Global};

/// Returns what follows the name of a field.
pub fn value_of<'a>(rows: &'a [Vec<u8>], name: &[u8]) -> &'a [u8]
    ensures { result.now ≡ value_of rows.now name.now }
{
    for row in rows {
        if first_word(row.as_slice()).0 == name {
            return value_in(row.as_slice(), name);
        }
    }
    b""
}

fn value_in<'a>(row: &'a [u8], name: &[u8]) -> &'a [u8]
    ensures { result.now ≡ value_in row.now name.now }
{
    row.get(name.len() + 1..).unwrap_or(b"")
}

// Returns a quoted text without its quotes, if such a text may be of this kind.
fn unquoted<K: TextKind>(alloc: Global, word: &[u8]) -> Result<Option<Text<K>>, AllocError> {
    let Some((b, inside)) = word.split_first() else {
        return Ok(None);
    };
    if !is_quote(*b) {
        return Ok(None);
    }
    match read_quoted(alloc, inside)? {
        Some((text, _)) => Text::from_word(alloc, text.bytes()),
        None => Ok(None),
    }
}

/// Returns a quoted note, or the empty one.
pub fn note_in(alloc: Global, word: &[u8]) -> Result<Note, AllocError> {
    match unquoted(alloc, word)? {
        Some(note) => Ok(note),
        None => Ok(Note::empty(alloc)),
    }
}

/// Returns a quoted message, or the empty one.
pub fn message_in(alloc: Global, word: &[u8]) -> Result<Message, AllocError> {
    match unquoted(alloc, word)? {
        Some(message) => Ok(message),
        None => Ok(Message::empty(alloc)),
    }
}

/// Returns the number of a field, up to this one.
pub fn number_of(rows: &[Vec<u8>], name: &[u8], most: u64) -> u64
    requires { most < 2 ^ 60 }
    ensures value { result ≡ number_of rows.now name.now most }
    ensures bound { result ≤ most }
{
    match decimal(value_of(rows, name), most) {
        Some(number) => number,
        None => 0,
    }
}
