//! The meaning of a line.
ghost use Rattle.std.specs.Prelude.{◌≡◌, ◌&&◌, ◌==◌, true, IfOk};
ghost use Rattle.spool_types.specs.Values.{is_queue_name, text_in};
ghost use Rattle.ipp_printers.specs.PrinterLines.{uncommented, queue_line, property_line, worded_line, line_in};

use crate::fault::LineFault;
use crate::kind::PropertyKind;
use crate::property::Property;
use line_words::{first_word, is_blank, trim};
use spool_types::QueueName;
use std::alloc::{AllocError, Global};

/// The meaning of a line.
#[derive(Drop)]
pub enum Line {
    /// The line has no words.
    Blank,
    /// The line begins the section of this queue.
    Queue(QueueName),
    Property(Property),
    Invalid(LineFault),
}

/// Reads a line.
pub fn read_line(alloc: Global, line: &[u8]) -> Result<Line, AllocError>
    ensures { IfOk result (λ meaning. meaning ≡ line_in line.now) }
{
    let (word, rest) = first_word(uncommented(line));
    let value = trim(rest);
    if word.is_empty() {
        Ok(Line::Blank)
    } else if word == b"queue".as_slice() {
        read_queue(alloc, value)
    } else {
        read_property(alloc, PropertyKind::named(word), value)
    }
}

// Returns the bytes before the comment.
fn uncommented(line: &[u8]) -> &[u8]
    ensures { result.now ≡ uncommented true line.now }
{
    let mut fresh = true;
    for (i, b) in line.iter().enumerate() {
        if begins_comment(fresh, *b) {
            return &line[..i];
        }
        fresh = is_blank(*b);
    }
    line
}

fn begins_comment(fresh: bool, b: u8) -> bool
    ensures { result ≡ (fresh && b == 35) }
{
    fresh && b == b'#'
}

fn read_queue(alloc: Global, value: &[u8]) -> Result<Line, AllocError>
    ensures { IfOk result (λ line. line ≡ queue_line (text_in is_queue_name value.now)) }
{
    match QueueName::from_word(alloc, value)? {
        Some(name) => Ok(Line::Queue(name)),
        None => Ok(Line::Invalid(LineFault::BadQueue)),
    }
}

fn read_property(
    alloc: Global,
    kind: Option<PropertyKind>,
    value: &[u8],
) -> Result<Line, AllocError>
    ensures { IfOk result (λ line. line ≡ property_line kind value.now) }
{
    let Some(kind) = kind else {
        return Ok(Line::Invalid(LineFault::UnknownWord));
    };
    match Property::read(alloc, kind, value)? {
        Some(property) => Ok(Line::Property(property)),
        None => Ok(Line::Invalid(LineFault::BadValue(kind))),
    }
}
