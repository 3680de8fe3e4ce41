//! Writes all of some bytes.
//!
//! [`write_whole`] writes replies of commands and answers on a side channel, and [`write_zeros`] fills a new file.
//!
//! # Promises
//!
//! - *ExactWrites*: after Ok all bytes were written once, in order (`ok`). After an error a proper prefix of them was written (`err`, by
//!   `WroteSome`). A writer whose bytes are unknown is written to in the same way.
//! - *Zeros*: after Ok `write_zeros` has written exactly that number of zeros.
//! - `write_whole` returns: it makes at most 18,446,744,073,709,551,615 writes. If the writer has not accepted all bytes by then, the call
//!   fails.
//!
//! # Errors
//!
//! [`WriteFault`]: the writer failed, or accepted no byte. An interrupted write is repeated. The calls allocate nothing.
#![tactic(auto)]

ghost use Rattle.std.specs.Prelude.{OnOk, OnErr, replicate};
ghost use Rattle.std.specs.Io.KnownBytes.{Appends};
ghost use Rattle.whole_writes.specs.Writes.{WroteSome};

use std::io;
use std::io::{ErrorKind, Write};

// The number of zeros that are written at once.
const BLOCK: usize = 65_536;

/// The bytes were not all written.
#[derive(Clone, Copy, PartialEq, Eq)]
pub struct WriteFault;

/// Writes all the bytes, or after an error a proper prefix of them.
pub fn write_whole<W: Write>(writer: &mut W, bytes: &[u8]) -> Result<(), WriteFault>
    ensures ok { OnOk result (Appends (W.contents writer.old) (W.contents writer.new) bytes.now) }
    ensures err { OnErr result (WroteSome (W.contents writer.old) (W.contents writer.new) bytes.now) }
{
    let mut at = 0;
    'writes: for _ in 0..u64::MAX {
        if bytes.len() <= at {
            return Ok(());
        }
        match writer.write(&bytes[at..]) {
            Ok(0) => return Err(WriteFault),
            Ok(n) => at += n,
            Err(e) => {
                if e.kind() != ErrorKind::Interrupted {
                    return Err(WriteFault);
                }
            }
        }
    }
    if bytes.len() <= at {
        Ok(())
    } else {
        Err(WriteFault)
    }
}

/// Writes `count` zeros. After an error a part of them may be written.
pub fn write_zeros<W: Write>(writer: &mut W, count: u64) -> io::Result<()>
    ensures { OnOk result (Appends (W.contents writer.old) (W.contents writer.new) (replicate count 0)) }
{
    let zeros = [0u8; BLOCK];
    let block = BLOCK as u64;
    for _ in 0..count / block {
        writer.write_all(&zeros)?;
    }
    writer.write_all(&zeros[..(count % block) as usize])
}
