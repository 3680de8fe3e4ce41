//! The client of the side channel.
ghost use Rattle.std.specs.Prelude.{◌≡◌, [], ◌∷◌, IfErr, IfOk, OnOk};
ghost use Rattle.whole_writes.specs.Writes.{WroteSome};
ghost use Rattle.std.specs.Option.{option_map};
ghost use Rattle.std.specs.Io.KnownBytes.{Appends};
ghost use Rattle.side_channel.specs.Streams.{ReadWhole};
ghost use Rattle.builtin_stages.specs.Side.{id_in};

use crate::fault::ToolFault;
use side_channel::{Command, Packet, Status};
use std::alloc::Global;
use std::io::{Read, Write};

// The longest data of a packet that are stored.
const MOST_DATA: u16 = 2_048;

/// Requests the device id, and returns the first packet received.
pub fn ask_id<R: Read, W: Write>(
    alloc: Global,
    reader: &mut R,
    writer: &mut W,
) -> Result<Packet, ToolFault>
    ensures asked { OnOk result (Appends (W.contents writer.old) (W.contents writer.new) (4 ∷ 0 ∷ 0 ∷ 0 ∷ [])) }
    ensures read { IfOk result (ReadWhole (R.remaining reader.old) (R.remaining reader.new)) }
    ensures fault { IfErr result (λ fault. fault ≡ ToolFault.Side) }
{
    write_empty(alloc, Command::GetDeviceId.byte(), writer)?;
    match Packet::read(alloc, reader) {
        Ok(Some(packet)) => Ok(packet),
        _ => Err(ToolFault::Side),
    }
}

/// Returns the id in the packet, if it is an answer with one.
pub fn id_in(packet: &Packet) -> Option<&[u8]>
    ensures { option_map (λ id. id.now) result ≡ id_in packet.now }
{
    if packet.command == Command::GetDeviceId.byte()
        && packet.status == Status::Ok.byte()
        && packet.length <= MOST_DATA
    {
        Some(packet.body.as_slice())
    } else {
        None
    }
}

/// Ends the session.
pub fn end_session<W: Write>(alloc: Global, writer: &mut W) -> Result<(), ToolFault>
    ensures wrote { OnOk result (Appends (W.contents writer.old) (W.contents writer.new) (255 ∷ 0 ∷ 0 ∷ 0 ∷ [])) }
    ensures fault { IfErr result (λ fault. (fault ≡ ToolFault.Side)
        × WroteSome (W.contents writer.old) (W.contents writer.new) (255 ∷ 0 ∷ 0 ∷ 0 ∷ [])) }
{
    write_empty(alloc, 0xFF, writer)
}

// Writes a packet without data.
fn write_empty<W: Write>(alloc: Global, command: u8, writer: &mut W) -> Result<(), ToolFault>
    ensures wrote { OnOk result (Appends (W.contents writer.old) (W.contents writer.new) (command ∷ 0 ∷ 0 ∷ 0 ∷ [])) }
    ensures fault { IfErr result (λ fault. (fault ≡ ToolFault.Side)
        × WroteSome (W.contents writer.old) (W.contents writer.new) (command ∷ 0 ∷ 0 ∷ 0 ∷ [])) }
{
    let packet = Packet {
        command,
        status: 0,
        length: 0,
        body: Vec::new(alloc),
    };
    match packet.write(writer) {
        Ok(()) => Ok(()),
        Err(_) => Err(ToolFault::Side),
    }
}
