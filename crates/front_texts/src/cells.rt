//! Texts that fit into a number of terminal columns.
ghost use Rattle.std.specs.Prelude.{◌≡◌, ◌≤◌, IfOk, false, length, take, string_bytes};
ghost use Rattle.clean_texts.specs.CleanTexts.{is_steered};
ghost use Rattle.front_texts.specs.Cells.{Fits, IsLine};

use clean_texts::clean_text;
use std::alloc::{AllocError, Global};
use unicode_width::{UnicodeWidthChar, UnicodeWidthStr};

// The mark at the end of a text that was cut.
const CUT: &str = "…";

/// Returns the text if it takes at most this number of columns, or else its beginning and `…`. It is cut between characters.
pub fn fitted(alloc: Global, text: &str, columns: usize) -> Result<String, AllocError>
    requires { 1 ≤ columns }
    ensures fits { IfOk result (λ cell. Fits columns (string_bytes cell)) }
    ensures whole { Fits columns text.now → IfOk result (λ cell. string_bytes cell ≡ text.now) }
    ensures clean { is_steered text.now ≡ false → IfOk result (λ cell. is_steered (string_bytes cell) ≡ false) }
{
    if text.width() <= columns {
        return String::from_str(alloc, text);
    }
    let mut cut = String::from_str(alloc, beginning(text, columns - 1))?;
    cut.push_str(CUT)?;
    if cut.as_str().width() <= columns {
        return Ok(cut);
    }
    Ok(String::new(alloc))
}

/// Returns a line for a terminal: the clean text without blanks at its end, cut to this number of columns.
pub(crate) fn clean_line(alloc: Global, text: &str, columns: usize) -> Result<String, AllocError>
    requires { 1 ≤ columns }
    ensures { IfOk result (λ line. IsLine columns (string_bytes line)) }
{
    let cleaned = clean_text(alloc, text.trim_end())?;
    fitted(alloc, cleaned.as_str(), columns)
}

// Returns the first characters of a text that take at most this number of columns, if each is counted alone.
fn beginning(text: &str, columns: usize) -> &str
    ensures { result.now ≡ take (length result.now) text.now }
{
    let mut used: usize = 0;
    for (at, c) in text.char_indices() {
        used = used.saturating_add(columns_of(c));
        if columns < used {
            return front(text, at);
        }
    }
    text
}

fn front(text: &str, end: usize) -> &str
    ensures { result.now ≡ take (length result.now) text.now }
{
    match text.get(..end) {
        Some(front) => front,
        None => "",
    }
}

// Returns the columns of a character. The emoji variation selector may widen the character before it.
fn columns_of(c: char) -> usize {
    match c {
        '\u{fe0f}' => 1,
        _ => c.width().unwrap_or(0),
    }
}

/// Appends a text, blanks up to the end of its column, and two more blanks. A text that is wider than the column is cut.
pub(crate) fn push_cell(
    alloc: Global,
    line: &mut String,
    text: &str,
    columns: usize,
) -> Result<(), AllocError>
    requires { 1 ≤ columns }
{
    let cell = fitted(alloc, text, columns)?;
    let used = cell.as_str().width();
    line.push_str(cell.as_str())?;
    push_blanks(line, columns.saturating_sub(used))?;
    push_blanks(line, 2)
}

/// Appends the clean text as a cell.
pub(crate) fn push_clean_cell(
    alloc: Global,
    line: &mut String,
    text: &str,
    columns: usize,
) -> Result<(), AllocError>
    requires { 1 ≤ columns }
{
    let cleaned = clean_text(alloc, text)?;
    push_cell(alloc, line, cleaned.as_str(), columns)
}

/// Appends a number, aligned to the right of its column, and two blanks.
pub(crate) fn push_right(line: &mut String, text: &str, columns: usize) -> Result<(), AllocError> {
    push_blanks(line, columns.saturating_sub(text.width()))?;
    line.push_str(text)?;
    push_blanks(line, 2)
}

fn push_blanks(line: &mut String, count: usize) -> Result<(), AllocError> {
    for _ in 0..count {
        line.push(' ')?;
    }
    Ok(())
}
