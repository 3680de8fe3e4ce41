//! A line of standard error that arrives in pieces.
//!
//! # Promises
//!
//! - [`hold_piece`]: appends the bytes of the next piece to the bytes of the line that were read before, up to the 1,023 bytes of a line
//!   that are read (`ok`). An error changes nothing (`err`).
//!
//! # Errors
//!
//! The only error is out of memory.
#![tactic(auto)]

ghost use Rattle.std.specs.Prelude.{◌≡◌, ◌≤◌, ◌-◌, ◌++◌, length, take, OnOk, OnErr};

use std::alloc::AllocError;

const LONGEST_LINE: usize = 1_023;

/// Appends the bytes of a piece, up to the maximum length of a line.
pub fn hold_piece(line: &mut Vec<u8>, piece: &[u8]) -> Result<(), AllocError>
    requires { length line.old.items ≤ 1023 }
    ensures ok { OnOk result (line.new.items ≡ line.old.items ++ take (1023 - length line.old.items) piece.now) }
    ensures err { OnErr result (line.new.items ≡ line.old.items) }
{
    let room = LONGEST_LINE - line.len();
    let end = room.min(piece.len());
    line.extend_from_slice(&piece[..end])
}
