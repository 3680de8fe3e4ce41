//! The room of the spool, which a submission asks for before it sends.
ghost use Rattle.std.specs.Prelude.{◌≡◌, IfOk, string_bytes};
ghost use Rattle.std.specs.List.{after_first, before_first};
ghost use Rattle.std.specs.Option.{option_map};
ghost use Rattle.front_texts.specs.ReplyLines.{is_space};
ghost use Rattle.spool_front.specs.DocumentRoom.{lacking_text, room_in, too_long_text};

use front_texts::{LastLine, read_last_line};
use line_words::decimal;
use std::alloc::{AllocError, Global};

// The greatest room that is read, in bytes.
const GREATEST_ROOM: u64 = 1 << 40;

/// Returns why a document of this length is not sent, if the reply to `room` reports less room.
pub fn lacking_text(alloc: Global, size: u64, reply: &str) -> Result<Option<String>, AllocError>
    ensures { IfOk result (λ text. option_map string_bytes text ≡ lacking_text size (room_in reply.now)) }
{
    let Some(room) = room_in(reply) else {
        return Ok(None);
    };
    if size <= room {
        return Ok(None);
    }
    let text = too_long_text(alloc, size, room)?;
    Ok(Some(text))
}

fn too_long_text(alloc: Global, size: u64, room: u64) -> Result<String, AllocError>
    ensures { IfOk result (λ text. string_bytes text ≡ too_long_text size room) }
{
    let text = format!(in alloc;
        "the document has {size} bytes, and the spool has room for {room}"
    )?;
    Ok(text)
}

// Returns the number after `ok room`.
fn room_in(reply: &str) -> Option<u64>
    ensures { result ≡ room_in reply.now }
{
    let Some(LastLine::Done { words }) = read_last_line(reply) else {
        return None;
    };
    let (word, rest) = parted(words);
    if word == "room" {
        decimal(rest.as_bytes(), GREATEST_ROOM)
    } else {
        None
    }
}

// Splits the line at its first blank, which is dropped.
fn parted(line: &str) -> (&str, &str)
    ensures word { result.0.now ≡ before_first is_space line.now }
    ensures rest { result.1.now ≡ after_first is_space line.now }
{
    match line.split_once(' ') {
        Some(parts) => parts,
        None => (line, ""),
    }
}
