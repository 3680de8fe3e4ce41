//! The lines of a file.
ghost use Rattle.std.specs.Prelude.{◌≡◌, ◌<◌, ◌∷◌, ◌++◌, [], IfOk, IfSome, MatchOption, map, length};
ghost use Rattle.std.specs.Option.{option_map};
ghost use Rattle.mime_lines.specs.JoinedLines.{is_silent, is_continued, with_line, left_open, without_last, without_cr, lines_of, joined_lines};
ghost use Rattle.mime_lines.specs.LineFields.{text_of, line_of};

use line_words::after_blanks;
use std::alloc::{AllocError, Global};

const LINE_FEED: u8 = b'\n';

const CARRIAGE_RETURN: u8 = b'\r';

const BACKSLASH: u8 = b'\\';

/// The text of a line, without its line feed.
#[derive(Drop)]
pub enum LineText<'a> {
    /// A line as it is in the file.
    Lent(&'a [u8]),
    /// A line to which others were joined.
    Joined(Vec<u8>),
}

impl<'a> LineText<'a> {
    /// Returns the bytes of the line.
    pub fn bytes(&self) -> &[u8]
        ensures value { result.now ≡ text_of self.now }
    {
        match self {
            LineText::Lent(bytes) => bytes,
            LineText::Joined(bytes) => bytes,
        }
    }
}

/// A line and the lines that backslashes join to it.
#[derive(Drop)]
pub struct JoinedLine<'a> {
    /// The number of its first line, from 1.
    pub number: usize,
    pub text: LineText<'a>,
}

/// Returns the lines of a file without blank lines and comments.
pub fn joined_lines<'a>(alloc: Global, text: &'a str) -> Result<Vec<JoinedLine<'a>>, AllocError>
    ensures value { IfOk result (λ lines. map line_of lines.items ≡ joined_lines text.now) }
{
    let mut lines = Vec::new(alloc);
    let mut open = None;
    let mut number = 0;
    let mut rest = text.as_bytes();
    while let Some((line, behind)) = next_line(rest) {
        number += 1;
        rest = behind;
        if open.is_some() || !is_silent(line) {
            let joined = with_line(alloc, open, number, line)?;
            open = None;
            if is_continued(line) {
                open = Some(left_open(joined));
            } else {
                lines.push(joined)?;
            }
        }
    }
    if let Some(line) = open {
        lines.push(line)?;
    }
    Ok(lines)
}

// Returns the first line, without a carriage return before its line feed, and the rest of the text.
fn next_line(text: &[u8]) -> Option<(&[u8], &[u8])>
    ensures lines { MatchOption result (text.now ≡ []) (λ p. lines_of text.now ≡ p.0.now ∷ lines_of p.1.now) }
    ensures shorter { IfSome result (λ p. length p.1.now < length text.now) }
{
    if text.is_empty() {
        return None;
    }
    for (i, b) in text.iter().enumerate() {
        if *b == LINE_FEED {
            return Some((without_cr(&text[..i]), &text[i + 1..]));
        }
    }
    Some((text, &[]))
}

// Returns the bytes without a carriage return at their end.
fn without_cr(line: &[u8]) -> &[u8]
    ensures { result.now ≡ without_cr line.now }
{
    match line.split_last() {
        Some((b, before)) if *b == CARRIAGE_RETURN => before,
        _ => line,
    }
}

// Returns whether a line is blank or a comment.
fn is_silent(line: &[u8]) -> bool
    ensures { result ≡ is_silent line.now }
{
    match after_blanks(line).split_first() {
        Some((b, _)) => *b == b'#',
        None => true,
    }
}

// Returns whether a backslash at the end of the line joins the next line.
fn is_continued(line: &[u8]) -> bool
    ensures { result ≡ is_continued line.now }
{
    match line.split_last() {
        Some((b, _)) => *b == BACKSLASH,
        None => false,
    }
}

// Returns this text as a line, or appends it to the open line.
fn with_line<'a>(
    alloc: Global,
    begun: Option<JoinedLine<'a>>,
    number: usize,
    text: &'a [u8],
) -> Result<JoinedLine<'a>, AllocError>
    ensures { IfOk result (λ line. line_of line ≡ with_line (option_map line_of begun.entry) number text.now) }
{
    match begun {
        None => Ok(JoinedLine {
            number,
            text: LineText::Lent(text),
        }),
        Some(line) => Ok(JoinedLine {
            number: line.number,
            text: LineText::Joined(join(alloc, line.text, text)?),
        }),
    }
}

// Returns the text, a blank and the next text.
fn join(alloc: Global, text: LineText<'_>, next: &[u8]) -> Result<Vec<u8>, AllocError>
    ensures { IfOk result (λ bytes. bytes.items ≡ text_of text.entry ++ 32 ∷ next.now) }
{
    let mut joined = match text {
        LineText::Joined(bytes) => bytes,
        LineText::Lent(bytes) => Vec::from_slice(alloc, bytes)?,
    };
    joined.push(b' ')?;
    joined.extend_from_slice(next)?;
    Ok(joined)
}

// Returns the line without its last byte.
fn left_open<'a>(line: JoinedLine<'a>) -> JoinedLine<'a>
    ensures { line_of result ≡ left_open (line_of line.entry) }
{
    let JoinedLine { number, text } = line;
    JoinedLine {
        number,
        text: shortened(text),
    }
}

// Returns the text without its last byte.
fn shortened<'a>(text: LineText<'a>) -> LineText<'a>
    ensures { text_of result ≡ without_last (text_of text.entry) }
{
    match text {
        LineText::Lent(bytes) => LineText::Lent(front(bytes)),
        LineText::Joined(mut bytes) => {
            bytes.pop();
            LineText::Joined(bytes)
        }
    }
}

// Returns all bytes except the last.
fn front(bytes: &[u8]) -> &[u8]
    ensures { result.now ≡ without_last bytes.now }
{
    match bytes.split_last() {
        Some((_, before)) => before,
        None => bytes,
    }
}
