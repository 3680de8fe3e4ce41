//! The answer to a request.
ghost use Rattle.side_channel.specs.SideAnswers.{reply_bytes};
ghost use Rattle.side_channel.specs.Streams.{WritesPacket};

use crate::codes::Status;
use crate::devices::DeviceId;
use crate::endings::SideFault;
use crate::packets::write_packet;
use std::io::Write;

/// The data of an answer.
#[derive(Clone, Copy)]
pub enum AnswerBody<'a> {
    Empty,
    One(u8),
    /// The device's id.
    Id(&'a DeviceId),
}

/// An answer. It repeats the command of its request.
#[derive(Clone, Copy)]
pub struct Answer<'a> {
    pub command: u8,
    pub status: Status,
    pub body: AnswerBody<'a>,
}

impl Answer<'_> {
    ghost use Rattle.side_channel.specs.AnswerFields.{reply_of};

    /// Writes the answer as a packet, in one write if the writer accepts it whole.
    pub fn write<W: Write>(&self, writer: &mut W) -> Result<(), SideFault>
        ensures { WritesPacket (W.contents writer.old) (W.contents writer.new)
            (reply_bytes (reply_of self.now)) result }
    {
        let status = self.status.byte();
        match self.body {
            AnswerBody::Empty => write_packet(writer, self.command, status, &[]),
            AnswerBody::One(byte) => write_packet(writer, self.command, status, &[byte]),
            AnswerBody::Id(id) => write_packet(writer, self.command, status, id.as_slice()),
        }
    }
}
