//! Events and rows of a listing, decoded and encoded again.
use event_codec::*;
use spool_types::{Row, Version};
use std::alloc::{AllocError, Global};
use std::test::Fail;

// Events in hexadecimal, one on each line.
const EVENTS: &str = "\
0A 00 00 00 01\n\
01 00 01 71 00 03 73 3A 2F 00 03 61 2F 62 00 00 00 00 1E 00 05\n\
05 00 01 71 00 00 00 01 00 01 75 00 00 00 01 32 00 00\n\
07 00 00 00 01 00 03 61 2F 62 01 00\n\
06 00 00 00 01 00 00 00 02 61 62\n\
0B 00 00 00 00 00 00 03 E8\n\
09 00 00 00 01\n\
08 00 00 00 01 01\n\
08 00 00 00 01 02 00 00 00 00 00 00 00 64\n\
03 00 01 71 01\n\
04 00 01 71 00\n\
02 00 01 71 00 00 00 01 61\n\
0C 00 00 00 01\n\
0E 00 00 00 01\n\
0F\n\
10 00 00 00 01\n\
11 00 01 71 00 00 00 01 00 01 75 00 00 00 01 32 00 00 00 00 00 00 00 00 07 D0\n\
0D 00 00 00 01 00 00 00 01 01 00 00 00 00 00 00 00 00\n\
0D 00 00 00 01 00 00 00 01 01 01 00 00 00 00 00 00\n\
0D 00 00 00 01 00 00 00 01 01 00 00 00 00 00 00 00 01 02 00 00 00 09\n\
0D 00 00 00 01 00 00 00 01 01 00 00 00 00 00 00 00 01 01 00 00 00 03 00 00 00 02\n\
0D 00 00 00 01 00 00 00 01 01 00 00 00 00 00 00 00 01 02 00 00 00 09\n\
0D 00 00 00 01 00 00 00 01 01 00 00 00 00 00 00 00 01 03 00 00\n\
0D 00 00 00 01 00 00 00 01 01 00 00 00 00 00 00 00 01 03 00 02 00 03 61 2E 62 00 01 63\n\
0D 00 00 00 01 00 00 00 01 01 00 00 00 00 00 00 00 01 04 00 01 00 01 61\n\
0D 00 00 00 01 00 00 00 01 01 00 00 00 00 00 00 00 01 05 00 01 00 01 61\n\
0D 00 00 00 01 00 00 00 01 01 00 00 00 00 00 00 00 01 06 00 03 61 2D 31 00 03 78 20 79\n\
0D 00 00 00 01 00 00 00 01 01 00 00 00 00 00 00 00 01 06 00 01 61 00 00\n\
0D 00 00 00 01 00 00 00 01 01 00 00 00 00 00 00 00 01 07 00 00 00\n\
0D 00 00 00 01 00 00 00 01 01 00 00 00 00 00 00 00 01 07 01 00 01 61\n\
0D 00 00 00 01 00 00 00 01 01 00 00 00 00 00 00 00 01 07 02 00 01 61\n\
0D 00 00 00 01 00 00 00 01 01 00 00 00 00 00 00 00 01 07 03 00 01 61\n\
0D 00 00 00 01 00 00 00 01 01 00 00 00 00 00 00 00 01 07 04 00 01 61\n\
0D 00 00 00 01 00 00 00 01 01 00 00 00 00 00 00 00 01 07 05 00 01 61\n\
0D 00 00 00 01 00 00 00 01 01 00 00 00 00 00 00 00 01 07 06 00 02 61 7E";

// Rows of a listing, in version 2.
const ROWS: &str = "\
40 00 00 00 00 00 00 00 00 00 00 00 00\n\
40 7F FF FF FF 00 00 03 A3 52 94 40 00\n\
41 00 01 71 00 03 73 3A 2F 00 03 61 2F 62 00 00 00 00 1E 00 05 00 00 00 00 01 00 00 00 00 00\n\
41 00 01 71 00 03 73 3A 2F 00 03 61 2F 62 03 00 00 00 00 00 00 00 01 61 00 01 62 00 01 00 01 6D 02 00 01 61 00 03 62 2E 63 02 00 03 61 2D 31 00 03 78 20 79 00 01 62 00 00\n\
42 00 00 00 01 00 01 71 00 01 75 00 00 00 01 32 00 00 01 00 03 61 2F 62 00 00 00 00 00 00 00 00 00 00 00 00 00 01 00 00 00 00 00 00 00 00 00 00 00\n\
42 00 00 00 01 00 01 71 00 01 75 00 00 00 01 32 00 00 01 00 03 61 2F 62 00 00 00 00 00 00 00 00 00 00 00 00 00 01 00 00 00 00 00 00 00 00 00 00 01 00 00 00 00 00 00 07 D0\n\
43 00 00 00 01 00 00 00 02 61 62\n\
42 00 00 00 01 00 01 71 00 01 75 00 00 00 01 32 00 00 00 01 00 01 66 00 00 00 02 00 00 00 03 01 00 00 00 00 00 00\n\
42 00 00 00 01 00 01 71 00 01 75 00 00 00 01 32 00 00 00 01 00 01 66 00 00 00 02 00 00 00 03 01 00 00 00 00 01 00 00\n\
42 00 00 00 01 00 01 71 00 01 75 00 00 00 01 32 00 00 00 01 00 01 66 00 00 00 02 00 00 00 03 01 00 00 00 00 01 01 00\n\
42 00 00 00 01 00 01 71 00 01 75 00 00 00 01 32 00 00 00 01 00 01 66 00 00 00 02 00 00 00 03 01 00 00 00 00 01 02 00\n\
42 00 00 00 01 00 01 71 00 01 75 00 00 00 01 32 00 00 00 01 00 01 66 00 00 00 02 00 00 00 03 01 00 00 00 00 02 00 00 00 00 00 00 00 64 00\n\
42 00 00 00 01 00 01 71 00 01 75 00 00 00 01 32 00 00 00 01 00 01 66 00 00 00 02 00 00 00 03 01 00 00 00 01 00 00 00 00 00 00 00 00 00 00 00\n\
42 00 00 00 01 00 01 71 00 01 75 00 00 00 01 32 00 00 00 01 00 01 66 00 00 00 02 00 00 00 03 01 00 00 00 01 01 02 00 00 00 00 00 00 00 05 01 00\n\
42 00 00 00 01 00 01 71 00 01 75 00 00 00 01 32 00 00 00 01 00 01 66 00 00 00 02 00 00 00 03 01 00 00 00 02 01 00\n\
42 00 00 00 01 00 01 71 00 01 75 00 00 00 01 32 00 00 00 01 00 01 66 00 00 00 02 00 00 00 03 01 00 00 00 02 10 00\n\
42 00 00 00 01 00 01 71 00 01 75 00 00 00 01 32 00 00 00 01 00 01 66 00 00 00 02 00 00 00 03 01 00 00 00 03 00\n\
42 00 00 00 01 00 01 71 00 01 75 00 00 00 01 32 00 00 00 01 00 01 66 00 00 00 02 00 00 00 03 01 00 00 00 04 00\n\
42 00 00 00 01 00 01 71 00 01 75 00 00 00 01 32 00 00 00 01 00 01 66 00 00 00 02 00 00 00 03 01 00 00 00 05 00 00\n\
42 00 00 00 01 00 01 71 00 01 75 00 00 00 01 32 00 00 00 01 00 01 66 00 00 00 02 00 00 00 03 01 00 00 00 05 01 00\n\
42 00 00 00 01 00 01 71 00 01 75 00 00 00 01 32 00 00 00 01 00 01 66 00 00 00 02 00 00 00 03 01 00 00 00 05 02 00\n\
42 00 00 00 01 00 01 71 00 01 75 00 00 00 01 32 00 00 00 01 00 01 66 00 00 00 02 00 00 00 03 01 00 00 00 05 03 00\n\
42 00 00 00 01 00 01 71 00 01 75 00 00 00 01 32 00 00 00 01 00 01 66 00 00 00 02 00 00 00 03 01 00 00 00 05 04 00";

// Appends the bytes of a text in hexadecimal.
fn push_bytes(bytes: &mut Vec<u8>, text: &str) -> Result<(), Fail> {
    for word in text.split_whitespace() {
        match u8::from_str_radix(word, 16) {
            Ok(byte) => bytes.push(byte)?,
            Err(_) => return Err(Fail::from("not hexadecimal")),
        }
    }
    Ok(())
}

fn bytes_of(alloc: Global, text: &str) -> Result<Vec<u8>, Fail> {
    let mut bytes = Vec::new(alloc);
    push_bytes(&mut bytes, text)?;
    Ok(bytes)
}

// The encoding of the event in these bytes.
fn event_spelled(alloc: Global, bytes: &[u8]) -> Result<Vec<u8>, Fail> {
    let event = decode(alloc, bytes)?;
    let spelled = encode(alloc, &event);
    // Explicitly: dropped at the end of its scope, it would split the proof into a case for each kind of event.
    drop(event);
    Ok(spelled?)
}

// Appends the encoding of that event.
fn add_event(alloc: Global, bytes: &[u8], added: &mut Vec<u8>) -> Result<(), Fail> {
    let event = decode(alloc, bytes)?;
    let add = encode_onto(&event, added);
    drop(event);
    Ok(add?)
}

// The same after another byte.
fn event_added(alloc: Global, bytes: &[u8]) -> Result<Vec<u8>, Fail> {
    let mut added = Vec::from_slice(alloc, &[7])?;
    add_event(alloc, bytes, &mut added)?;
    Ok(added)
}

// Whether the event in these bytes is encoded by them, also after another byte.
fn event_is_spelled_again(alloc: Global, bytes: &[u8]) -> Result<bool, Fail> {
    let spelled = event_spelled(alloc, bytes)?;
    let added = event_added(alloc, bytes)?;
    Ok(spelled.as_slice() == bytes && added.split_first() == Some((&7, bytes)))
}

// The encoding of the row in these bytes, in this version.
fn row_spelled(alloc: Global, bytes: &[u8], version: Version) -> Result<Vec<u8>, Fail> {
    let row = decode_row(alloc, bytes, version)?;
    let spelled = encode_row(alloc, &row);
    drop(row);
    Ok(spelled?)
}

fn encode_any(row: &Row, added: &mut Vec<u8>) -> Result<(), AllocError> {
    match row {
        Row::Queue(queue) => encode_queue_onto(queue, added),
        _ => encode_row_onto(row, added),
    }
}

// Appends the encoding of that row.
fn add_row(alloc: Global, bytes: &[u8], added: &mut Vec<u8>) -> Result<(), Fail> {
    let row = decode_row(alloc, bytes, Version::Two)?;
    let add = encode_any(&row, added);
    drop(row);
    Ok(add?)
}

fn row_added(alloc: Global, bytes: &[u8]) -> Result<Vec<u8>, Fail> {
    let mut added = Vec::from_slice(alloc, &[7])?;
    add_row(alloc, bytes, &mut added)?;
    Ok(added)
}

// The same for a row.
fn row_is_spelled_again(alloc: Global, bytes: &[u8]) -> Result<bool, Fail> {
    let spelled = row_spelled(alloc, bytes, Version::Two)?;
    let added = row_added(alloc, bytes)?;
    Ok(spelled.as_slice() == bytes && added.split_first() == Some((&7, bytes)))
}

// Whether the event of a line is encoded by it.
fn is_event(alloc: Global, line: &str) -> Result<bool, Fail> {
    let bytes = bytes_of(alloc, line)?;
    event_is_spelled_again(alloc, &bytes)
}

fn is_row(alloc: Global, line: &str) -> Result<bool, Fail> {
    let bytes = bytes_of(alloc, line)?;
    row_is_spelled_again(alloc, &bytes)
}

#[test]
fn events_are_spelled_again(rt: HostRuntime) -> Result<(), Fail> {
    for line in EVENTS.lines() {
        assert!(rt; is_event(rt.alloc(), line)?, "{line}");
    }
    Ok(())
}

#[test]
fn rows_are_spelled_again(rt: HostRuntime) -> Result<(), Fail> {
    for line in ROWS.lines() {
        assert!(rt; is_row(rt.alloc(), line)?, "{line}");
    }
    Ok(())
}

// A job in version 1.
const FIRST: &str =
    "42 00 00 00 01 00 01 71 00 01 75 00 00 00 01 32 00 00 01 00 03 61 2F 62 00 00 00 00 00 00 00 00 00 00 00 00 00 01 00 00 00 00 00 00 00 00 00 00";

// Whether a line's row of version 1 is encoded in version 2 without a moment.
fn has_no_moment(alloc: Global, line: &str) -> Result<bool, Fail> {
    let mut bytes = bytes_of(alloc, line)?;
    let spelled = row_spelled(alloc, &bytes, Version::One)?;
    bytes.push(0)?;
    Ok(spelled.as_slice() == bytes.as_slice())
}

#[test]
fn a_job_of_the_first_version_has_no_moment(rt: HostRuntime) -> Result<(), Fail> {
    assert!(rt; has_no_moment(rt.alloc(), FIRST)?);
    Ok(())
}

fn push_times(stage: &mut Vec<u8>, effect: &[u8], count: usize) -> Result<(), AllocError> {
    for _ in 0..count {
        stage.extend_from_slice(effect)?;
    }
    Ok(())
}

// Appends a stage with 1,820 effects of nine bytes each and one of four, 16,384 bytes in all.
fn push_stage(stage: &mut Vec<u8>) -> Result<(), AllocError> {
    stage.extend_from_slice(&[0x0D, 0, 0, 0, 1, 0, 0, 0, 1, 1, 1, 0, 0, 0, 0, 0x07, 0x1D])?;
    push_times(stage, &[1, 0, 0, 0, 1, 0, 0, 0, 1], 1_820)?;
    stage.extend_from_slice(&[7, 6, 0, 0])
}

fn full_stage(alloc: Global) -> Result<Vec<u8>, AllocError> {
    let mut stage = Vec::new(alloc);
    push_stage(&mut stage)?;
    Ok(stage)
}

#[test]
fn a_full_stage_is_spelled_again(rt: HostRuntime) -> Result<(), Fail> {
    let stage = full_stage(rt.alloc())?;
    assert!(rt; event_is_spelled_again(rt.alloc(), &stage)?);
    Ok(())
}
