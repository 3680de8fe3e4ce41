//! The bytes that a reader yields and a writer takes before they fail.
ghost use Rattle.std.specs.Prelude.{◌≡◌, ◌^◌, ◌-◌, [], false, IfOk};

use crate::fault::CaseFault;

/// How much of the first part of a script is read, and how many bytes of its replies are taken.
#[derive(Clone, Copy)]
pub struct Limits {
    /// Whether the reader fails after the last byte.
    pub reader_fails: bool,
    /// The number of bytes that the writer takes.
    pub room: usize,
    /// Whether the writer fails after them. Otherwise it takes no more bytes.
    pub writer_fails: bool,
}

impl Limits {
    /// A reader that ends, and a writer that takes all bytes.
    pub const NONE: Limits = Limits {
        reader_fails: false,
        room: usize::MAX,
        writer_fails: false,
    };
}

/// Reads limits from a text: `reader fails`, `writer fails ROOM` or `writer takes ROOM`. If the text is empty, there
/// are none.
pub fn read_limits(text: &str) -> Result<Limits, CaseFault>
    ensures none { text.now ≡ [] → IfOk result (λ l. l ≡ record { reader_fails = false; room = 2 ^ 64 - 1; writer_fails = false }) }
{
    if text.is_empty() {
        return Ok(Limits::NONE);
    }
    match text.trim_end() {
        "reader fails" => Ok(Limits {
            reader_fails: true,
            ..Limits::NONE
        }),
        line => writer_limits(line),
    }
}

fn writer_limits(text: &str) -> Result<Limits, CaseFault> {
    let Some((kind, room)) = text.rsplit_once(' ') else {
        return Err(CaseFault::NoLimits);
    };
    let room = room_of(room)?;
    match kind {
        "writer fails" => Ok(Limits {
            room,
            writer_fails: true,
            ..Limits::NONE
        }),
        "writer takes" => Ok(Limits {
            room,
            ..Limits::NONE
        }),
        _ => Err(CaseFault::NoLimits),
    }
}

// Returns a number of bytes.
fn room_of(text: &str) -> Result<usize, CaseFault> {
    match text.parse::<usize>() {
        Ok(room) => Ok(room),
        Err(_) => Err(CaseFault::NoLimits),
    }
}
