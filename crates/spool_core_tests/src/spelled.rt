//! Events and rows in hexadecimal.
//!
//! These functions hold owned values across few calls that may fail, because the proof must show for each such call that they are
//! dropped.

use event_codec::{decode, encode_job_onto, encode_queue_onto, encode_row_onto};
use job_table::Table;
use spool_types::{Event, Row};
use std::alloc::{AllocError, Global};
use std::test::Fail;

/// A queue q.
pub const QUEUE: &str = "01 000171 0003733a2f 0003612f62 00 0000001e 0005";
/// Its job 1.
pub const CREATE: &str = "05 000171 00000001 000175 0000 0001 32 0000";
/// The end of the job's document.
pub const CLOSE: &str = "07 00000001 0003612f62 01 00";

/// Decodes a text in hexadecimal, which may have blanks between bytes.
pub fn bytes_of(alloc: Global, text: &str) -> Result<Vec<u8>, Fail> {
    let mut bytes = Vec::new(alloc);
    push_bytes(&mut bytes, alloc, text)?;
    Ok(bytes)
}

fn push_bytes(bytes: &mut Vec<u8>, alloc: Global, text: &str) -> Result<(), Fail> {
    for word in text.split_whitespace() {
        push_word(bytes, alloc, word)?;
    }
    Ok(())
}

fn push_word(bytes: &mut Vec<u8>, alloc: Global, word: &str) -> Result<(), Fail> {
    let decoded = hex::decode(alloc, word)?;
    Ok(bytes.extend_from_slice(&decoded)?)
}

/// Decodes an event.
pub fn event(alloc: Global, text: &str) -> Result<Event, Fail> {
    Ok(decode(alloc, &bytes_of(alloc, text)?)?)
}

/// Decodes events.
pub fn events(alloc: Global, texts: &[&str]) -> Result<Vec<Event>, Fail> {
    let mut events = Vec::new(alloc);
    push_events(&mut events, alloc, texts)?;
    Ok(events)
}

fn push_events(events: &mut Vec<Event>, alloc: Global, texts: &[&str]) -> Result<(), Fail> {
    for text in texts {
        push_event(events, alloc, text)?;
    }
    Ok(())
}

// Decodes an event and adds it.
fn push_event(events: &mut Vec<Event>, alloc: Global, text: &str) -> Result<(), Fail> {
    let event = event(alloc, text)?;
    Ok(events.push(event)?)
}

fn add_head(table: &Table, bytes: &mut Vec<u8>) -> Result<(), AllocError> {
    let row = Row::Head(table.head());
    encode_row_onto(&row, bytes)
}

/// Encodes the rows of a table, without their documents.
pub fn listing(alloc: Global, table: &Table) -> Result<Vec<u8>, AllocError> {
    let mut bytes = Vec::new(alloc);
    add_rows(table, &mut bytes)?;
    Ok(bytes)
}

fn add_rows(table: &Table, bytes: &mut Vec<u8>) -> Result<(), AllocError> {
    add_head(table, bytes)?;
    for queue in table.queues() {
        encode_queue_onto(queue, bytes)?;
    }
    for row in table.jobs().iter() {
        encode_job_onto(&row.job, bytes)?;
    }
    Ok(())
}

/// Returns whether the encoded rows of a table are these bytes.
pub fn lists(alloc: Global, table: &Table, rows: &[u8]) -> Result<bool, Fail> {
    Ok(listing(alloc, table)?.as_slice() == rows)
}
