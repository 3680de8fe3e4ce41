//! The command that appends a piece of a document to a job.
ghost use Rattle.std.specs.Prelude.{◌≡◌, IfOk};
ghost use Rattle.service_client.specs.DocumentSends.{send_text};

use std::alloc::{AllocError, Global};
use std::io::Write;

// Room for the line before a piece, and for the line feed after it.
const AROUND_PIECE: usize = 32;

/// Returns the command that appends a piece to a job.
pub fn send_text(alloc: Global, job: u32, piece: &[u8]) -> Result<Vec<u8>, AllocError>
    ensures { IfOk result (λ line. line.items ≡ send_text job piece.now) }
{
    let count = piece.len();
    let mut line = Vec::with_capacity(alloc, count.saturating_add(AROUND_PIECE))?;
    write!(line, "send {job} {count}\n").map_err(|_| AllocError)?;
    line.extend_from_slice(piece)?;
    line.extend_from_slice(b"\n")?;
    Ok(line)
}
