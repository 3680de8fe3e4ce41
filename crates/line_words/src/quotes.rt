//! Texts in quotes.
ghost use Rattle.std.specs.Prelude.{◌≡◌, ◌++◌, false, IfOk, IsOk, OnOk};
ghost use Rattle.std.specs.List.{list_any};
ghost use Rattle.std.specs.Option.{option_map};
ghost use Rattle.line_words.specs.Quotes.{is_quote, is_backslash, escape_of, with_bytes, quoted};
ghost use Rattle.line_words.specs.WordFields.{bytes_of};

use crate::words::Word;
use std::alloc::{AllocError, Global};

const QUOTE: u8 = b'"';

const BACKSLASH: u8 = b'\\';

/// Returns whether a byte is `"`.
pub fn is_quote(b: u8) -> bool
    ensures value { result ≡ is_quote b }
{
    b == QUOTE
}

/// Returns whether the bytes contain a quote.
pub fn has_quote(bytes: &[u8]) -> bool
    ensures value { result ≡ list_any is_quote bytes.now }
{
    bytes.iter().any(|b| is_quote(*b))
}

/// Returns whether a byte is `\`.
pub fn is_backslash(b: u8) -> bool
    ensures value { result ≡ is_backslash b }
{
    b == BACKSLASH
}

/// Reads a text after its opening quote. Returns it and the bytes after its closing quote, or `None` if no quote closes it. Only a text
/// with a backslash is allocated.
pub fn read_quoted<'a>(
    alloc: Global,
    line: &'a [u8],
) -> Result<Option<(Word<'a>, &'a [u8])>, AllocError>
    ensures value { IfOk result (λ found. option_map (λ p. (bytes_of p.0, p.1.now)) found ≡ quoted false line.now) }
    ensures lent { list_any is_backslash line.now ≡ false → IsOk result }
{
    for (i, b) in line.iter().enumerate() {
        if is_quote(*b) {
            return Ok(Some((Word::Borrowed(&line[..i]), &line[i + 1..])));
        }
        if is_backslash(*b) {
            return read_escaped(alloc, &line[..i], &line[i..]);
        }
    }
    Ok(None)
}

// Reads the rest of such a text, after the bytes `seen`.
fn read_escaped<'a>(
    alloc: Global,
    seen: &[u8],
    line: &'a [u8],
) -> Result<Option<(Word<'a>, &'a [u8])>, AllocError>
    ensures { IfOk result (λ found. option_map (λ p. (bytes_of p.0, p.1.now)) found ≡ with_bytes seen.now (quoted false line.now)) }
{
    let mut text = Vec::from_slice(alloc, seen)?;
    let mut escaped = false;
    for (i, b) in line.iter().enumerate() {
        if escaped {
            push_escaped(&mut text, *b)?;
            escaped = false;
        } else if is_quote(*b) {
            return Ok(Some((Word::Owned(text), &line[i + 1..])));
        } else if is_backslash(*b) {
            escaped = true;
        } else {
            text.push(*b)?;
        }
    }
    Ok(None)
}

/// Appends the meaning of a backslash and this byte.
pub fn push_escaped(text: &mut Vec<u8>, b: u8) -> Result<(), AllocError>
    ensures value { OnOk result (text.new.items ≡ text.old.items ++ escape_of b) }
{
    if !is_quote(b) && !is_backslash(b) {
        text.push(BACKSLASH)?;
    }
    text.push(b)?;
    Ok(())
}
