//! A session whose bytes arrive in pieces.
ghost use Rattle.std.specs.Prelude.{◌≡◌, [], ◌∷◌, List, ℕ};
ghost use Rattle.side_channel.specs.SessionBytes.{Comes, IsOn, Reaches, after_head};
ghost use Rattle.side_channel.specs.SessionPieces.{Feeds, answer_for, to_come};
ghost use Rattle.side_channel.specs.SideSessions.{after, ends, session};
ghost use Rattle.side_channel.specs.declared.devices.Device.{Device as AnyDevice};

use crate::answers::answer_to;
use crate::devices::Device;
use crate::endings::{Ending, SideFault};
use crate::replies::Answer;
use std::marker::Model;

/// The result of feeding a piece.
#[derive(Clone, Copy)]
pub enum Fed<'a> {
    /// The first `count` bytes of the piece complete a request, and this is the answer. The bytes after them were not taken.
    Answer { count: usize, answer: Answer<'a> },
    /// The whole piece was taken, and completes no request.
    Wants,
    /// The first `count` bytes of the piece end the session. The bytes after them do not belong to it.
    End { count: usize },
}

/// The state between two pieces.
#[derive(Clone, Copy)]
pub(crate) enum Held {
    /// No byte of a request.
    Nothing,
    One { command: u8 },
    Two { command: u8, status: u8 },
    Three { command: u8, status: u8, high: u8 },
    /// A request with `left` bytes of data missing.
    Data { command: u8, length: u16, left: u16 },
    /// The session has ended.
    Over,
}

// The result of the bytes so far.
#[derive(Clone, Copy)]
enum Came {
    // No request is complete.
    Part,
    // A request with `length` bytes of data is complete.
    Request { command: u8, length: u16 },
    // The session ends.
    End,
}

// The state after the first bytes of a piece, and their result.
#[derive(Clone, Copy)]
struct Reached {
    held: Held,
    count: usize,
    came: Came,
}

/// A session that is fed its bytes in pieces of any length as they arrive. Never waits and allocates nothing. It stores the first bytes
/// of a request, and then only the number of bytes of its data that are missing.
#[derive(Drop)]
pub struct Session {
    held: Held,
}

impl Model for Session {
    ghost use Rattle.side_channel.specs.declared.pieces.Held.{Held as AnyHeld};
    ghost use Rattle.side_channel.specs.SessionBytes.{IsHeld};

    ghost Value = { AnyHeld };

    ghost view = { λ a. a.held };

    ghost invariant = { λ a. IsHeld a.held };
}

impl Session {
    /// Returns a session before any byte.
    pub fn new() -> Session
        ensures { (d : AnyDevice) (bytes : List ℕ) → to_come d result bytes ≡ session d bytes }
    {
        Session {
            held: Held::Nothing,
        }
    }

    /// Takes the bytes of a piece up to the end of its first request, and returns the answer. The caller then feeds the bytes after them.
    /// Once the session has ended, it takes no byte.
    pub fn feed<'a>(&mut self, piece: &[u8], device: &'a Device) -> Fed<'a>
        ensures { Feeds device.now self.old piece.now result self.new }
    {
        if let Held::Over = self.held {
            return Fed::End { count: 0 };
        }
        let reached = reach(self.held, piece);
        self.held = reached.held;
        let count = reached.count;
        match reached.came {
            Came::Part => Fed::Wants,
            Came::Request { command, length } => Fed::Answer {
                count,
                answer: answer_to(device, command, length),
            },
            Came::End => Fed::End { count },
        }
    }

    /// Returns how the session ends if no further byte arrives. It has no further answer then.
    pub fn ending(&self) -> Result<Ending, SideFault>
        ensures { (d : AnyDevice) → to_come d self.now [] ≡ ends result [] }
    {
        match self.held {
            Held::Nothing => Ok(Ending::Stopped),
            Held::Over => Ok(Ending::End),
            _ => Err(SideFault::Cut),
        }
    }
}

// Takes bytes of a piece until a request is complete or the session ends.
fn reach(held: Held, piece: &[u8]) -> Reached
    requires { IsOn held }
    ensures { Reaches held piece.now result.count result.came result.held }
{
    let mut held = held;
    let mut count = 0;
    'bytes: while count < piece.len() {
        let (next, came) = take_byte(held, piece[count]);
        held = next;
        count += 1;
        match came {
            Came::Part => {}
            came => return Reached { held, count, came },
        }
    }
    Reached {
        held,
        count,
        came: Came::Part,
    }
}

// Takes a byte.
fn take_byte(held: Held, byte: u8) -> (Held, Came)
    requires { IsOn held }
    ensures { Comes (λ d more. to_come d held (byte ∷ more)) result.1 result.0 }
{
    match held {
        Held::Nothing => (Held::One { command: byte }, Came::Part),
        Held::One { command } => {
            let status = byte;
            (Held::Two { command, status }, Came::Part)
        }
        Held::Two { command, status } => {
            let high = byte;
            (
                Held::Three {
                    command,
                    status,
                    high,
                },
                Came::Part,
            )
        }
        Held::Three {
            command,
            status,
            high,
        } => take_head(command, status, u16::from_be_bytes([high, byte])),
        Held::Data {
            command,
            length,
            left,
        } => take_data(command, length, left - 1),
        Held::Over => (Held::Over, Came::End),
    }
}

// Takes a request's first four bytes.
fn take_head(command: u8, status: u8, length: u16) -> (Held, Came)
    ensures { Comes (after_head command status length) result.1 result.0 }
{
    if length != 0 {
        let left = length;
        (
            Held::Data {
                command,
                length,
                left,
            },
            Came::Part,
        )
    } else if command == 0xFF && status == 0 {
        (Held::Over, Came::End)
    } else {
        (Held::Nothing, Came::Request { command, length })
    }
}

// Takes a byte of a request's data. `left` bytes are still missing.
fn take_data(command: u8, length: u16, left: u16) -> (Held, Came)
    ensures { Comes (λ d more. to_come d (Held.Data command length left) more) result.1 result.0 }
{
    if left == 0 {
        (Held::Nothing, Came::Request { command, length })
    } else {
        (
            Held::Data {
                command,
                length,
                left,
            },
            Came::Part,
        )
    }
}
