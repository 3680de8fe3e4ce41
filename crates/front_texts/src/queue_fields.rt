//! One queue with all its fields, for a terminal.
ghost use Rattle.std.specs.Prelude.{◌≡◌, ◌≤◌, IfOk, OnOk};
ghost use Rattle.front_texts.specs.Cells.{AreLines};
ghost use Rattle.front_texts.specs.Lpstat.{device_in};

use crate::fields::{is_end, is_word, moment, quoted_text};
use crate::job_fields::push_line;
use crate::sizes::moment_text;
use line_words::{after_blanks, first_word};
use std::alloc::{AllocError, Global};

/// Returns the rows of a reply to `queue NAME` as lines of a name and a value, of at most `width` columns. A row that is not UTF-8 is left
/// out.
pub fn queue_page(alloc: Global, rows: &[Vec<u8>], width: usize) -> Result<Vec<String>, AllocError>
    requires { 1 ≤ width }
    ensures fits { IfOk result (λ lines. AreLines width lines.items) }
{
    let mut lines = Vec::new(alloc);
    for row in rows {
        push_row(alloc, &mut lines, row.as_slice(), width)?;
    }
    Ok(lines)
}

/// Returns the device in the rows of a reply to `queue NAME`. It is empty if the service does not show it.
pub fn device_in(rows: &[Vec<u8>]) -> &[u8]
    ensures value { result.now ≡ device_in (λ row. row.items) rows.now }
{
    for row in rows {
        let (name, device) = first_word(row.as_slice());
        if is_word(name, b"uri") {
            return after_blanks(device);
        }
    }
    &[]
}

fn push_row(
    alloc: Global,
    lines: &mut Vec<String>,
    row: &[u8],
    width: usize,
) -> Result<(), AllocError>
    requires there { 1 ≤ width }
    requires fit { AreLines width lines.old.items }
    ensures { OnOk result (AreLines width lines.new.items) }
{
    let (name, rest) = first_word(row);
    let value = value_text(alloc, name, after_blanks(rest))?;
    match (std::str::from_utf8(name), value) {
        (Ok(name), Some(value)) => push_line(alloc, lines, name, value.as_str(), width),
        _ => Ok(()),
    }
}

// Returns the value without its quotes, and a moment as a date.
fn value_text(alloc: Global, name: &[u8], value: &[u8]) -> Result<Option<String>, AllocError> {
    if is_word(name, b"changed") {
        if let Some(moment) = moment(value) {
            return Ok(Some(moment_text(alloc, moment)?));
        }
    }
    let (text, rest) = quoted_text(alloc, value)?;
    if !is_end(rest) {
        drop(text);
        return text_of(alloc, value);
    }
    match text {
        Some(text) => text_of(alloc, text.bytes()),
        None => text_of(alloc, value),
    }
}

fn text_of(alloc: Global, bytes: &[u8]) -> Result<Option<String>, AllocError> {
    match std::str::from_utf8(bytes) {
        Ok(text) => Ok(Some(String::from_str(alloc, text)?)),
        Err(_) => Ok(None),
    }
}
