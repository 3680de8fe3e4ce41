//! The answers of a device.
ghost use Rattle.std.specs.Prelude.{◌≡◌, ℕ, List};
ghost use Rattle.side_channel.specs.SideAnswers.{answer_of, row_of};
ghost use Rattle.side_channel.specs.AnswerFields.{reply_of, content_of};

use crate::codes::{Command, Status};
use crate::devices::Device;
use crate::packets::Packet;
use crate::replies::{Answer, AnswerBody};
use crate::streams::MOST_DATA;

/// Returns the answer to a request. Allocates nothing: a device's id is borrowed.
pub fn answer<'a>(device: &'a Device, packet: &Packet) -> Answer<'a>
    ensures { reply_of result ≡ answer_of device.now packet.now }
{
    answer_to(device, packet.command, packet.length)
}

/// Returns the answer to a request with this command and this number of data bytes, which determine it.
pub(crate) fn answer_to(device: &Device, command: u8, length: u16) -> Answer<'_>
    ensures { (status : ℕ) (body : List ℕ) → reply_of result ≡
        answer_of device.now (record { command = command; status = status; length = length; body = body }) }
{
    let (status, body) = if usize::from(length) <= MOST_DATA {
        row(device, Command::from_byte(command))
    } else {
        (Status::TooBig, AnswerBody::Empty)
    };
    Answer {
        command,
        status,
        body,
    }
}

// Returns the status and the data of the answer to a command, or to a number without a command.
fn row(device: &Device, command: Option<Command>) -> (Status, AnswerBody<'_>)
    ensures { (result.0, content_of result.1) ≡ row_of device.now command }
{
    let Some(command) = command else {
        return (Status::BadMessage, AnswerBody::Empty);
    };
    match command {
        Command::None => (Status::BadMessage, AnswerBody::Empty),
        Command::SoftReset | Command::DrainOutput => (Status::Ok, AnswerBody::Empty),
        Command::GetBidi => (Status::Ok, AnswerBody::One(u8::from(device.bidi))),
        Command::GetDeviceId => (Status::Ok, AnswerBody::Id(&device.id)),
        Command::GetState => (Status::Ok, AnswerBody::One(device.state)),
        Command::SnmpGet | Command::SnmpGetNext => (Status::NotImplemented, AnswerBody::Empty),
        Command::GetConnected => (Status::Ok, AnswerBody::One(u8::from(device.connected))),
    }
}
