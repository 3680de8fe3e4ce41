//! Reading whole pieces. An interrupted read is repeated.
ghost use Rattle.std.specs.Prelude.{◌≡◌, ℕ, ◌<◌, ◌≤◌, ◌+◌, List, length, take};
ghost use Rattle.std.specs.Prelude.{IfOk, OnOk, OnErr, IfErr};
ghost use Rattle.std.specs.Io.KnownBytes.{Consumes, IsAtEnd};
ghost use Rattle.side_channel.specs.Streams.{ReadFewer};
ghost use Rattle.side_channel.specs.Packets.{kept, most_data};

use crate::endings::SideFault;
use std::alloc::Global;
use std::io::{ErrorKind, Read};

/// The maximum number of data bytes that a packet stores.
pub const MOST_DATA: usize = 2048;

/// Reads until the buffer is full or the input ends, and returns the number of bytes in the buffer. `reads` is the number of reads that
/// may still be made.
pub fn fill<R: Read>(reader: &mut R, buf: &mut [u8], reads: &mut u32) -> Result<usize, SideFault>
    ensures bound { IfOk result (λ n. n ≤ length buf.new) }
    ensures bytes { IfOk result (λ n. Consumes (R.remaining reader.old) (R.remaining reader.new) (take n buf.new)) }
    ensures end { IfOk result (λ n. n < length buf.old → IsAtEnd (R.remaining reader.new)) }
    ensures err { IfErr result (λ fault. (fault ≡ SideFault.Read) ×
        ReadFewer (R.remaining reader.old) (R.remaining reader.new) (length buf.old)) }
    ensures reads { reads.new ≤ reads.old }
    ensures counted { OnOk result (0 < length buf.old → reads.new < reads.old) }
{
    let mut at = 0;
    'reads: while at < buf.len() {
        if *reads == 0 {
            return Err(SideFault::Read);
        }
        *reads -= 1;
        match reader.read(&mut buf[at..]) {
            Ok(0) => return Ok(at),
            Ok(n) => at += n,
            Err(e) => {
                if e.kind() != ErrorKind::Interrupted {
                    return Err(SideFault::Read);
                }
            }
        }
    }
    Ok(at)
}
