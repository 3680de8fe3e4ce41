//! A session.
ghost use Rattle.side_channel.specs.Streams.{AnswersWhatItRead, HoldsSession};

use crate::answers::answer;
use crate::devices::Device;
use crate::endings::{Ending, SideFault};
use crate::packets::read_packet;
use std::alloc::Global;
use std::io::{Read, Write};

// The maximum number of reads of a session.
const SESSION_READS: u32 = 1_048_576;

/// Answers each request before it reads the next, until the session ends. Returns Read if the reader has not ended after 1,048,576 reads.
pub fn serve<R: Read, W: Write>(
    alloc: Global,
    reader: &mut R,
    writer: &mut W,
    device: &Device,
) -> Result<Ending, SideFault>
    ensures session { HoldsSession device.now (R.remaining reader.old) (R.remaining reader.new)
        (W.contents writer.old) (W.contents writer.new) result }
    ensures answered { AnswersWhatItRead device.now (R.remaining reader.old) (R.remaining reader.new)
        (W.contents writer.old) (W.contents writer.new) result }
{
    let mut reads = SESSION_READS;
    'packets: loop {
        match read_packet(alloc, reader, &mut reads) {
            Ok(Some(packet)) => {
                if packet.is_end() {
                    return Ok(Ending::End);
                }
                match answer(device, &packet).write(writer) {
                    Ok(()) => {}
                    Err(fault) => return Err(fault),
                }
            }
            Ok(None) => return Ok(Ending::Stopped),
            Err(fault) => return Err(fault),
        }
    }
}
