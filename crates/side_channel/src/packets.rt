//! Packets: requests and answers.
ghost use Rattle.std.specs.Prelude.{◌≡◌, ◌≢◌, ℕ, ◌+◌, ◌<◌, ◌≤◌, ◌^◌, List};
ghost use Rattle.std.specs.Prelude.{length, take, Option, IfOk, OnOk, IfErr, OnSome, map};
ghost use Rattle.std.specs.Io.KnownBytes.{Consumes, IsAtEnd};
ghost use Rattle.side_channel.specs.Packets.{is_end, kept, most_data, spelling};
ghost use Rattle.side_channel.specs.Streams.{ReadsPacket, WritesPacket, ReadFewer, TakesData, SkipsData, FailsData};

use crate::endings::SideFault;
use crate::streams::{MOST_DATA, fill};
use std::alloc::{AllocError, Global};
use std::io::{Read, Write};
use std::marker::Model;
use whole_writes::write_whole;

/// A packet. Data of more than 2,048 bytes are not stored: the body is empty then. Otherwise it has the stated length.
#[derive(Drop)]
pub struct Packet {
    pub command: u8,
    pub status: u8,
    pub length: u16,
    pub body: Vec<u8>,
}

impl Model for Packet {
    ghost use Rattle.std.specs.Prelude.{◌≡◌, vec_len};
    ghost use Rattle.side_channel.specs.Packets.{Message, kept_len};

    ghost Value = { Message };

    ghost view = { λ a. record { command = a.command; status = a.status; length = a.length; body = a.body.items } };

    ghost invariant = { λ a. vec_len a.body ≡ kept_len a.length };
}

impl Packet {
    /// Reads the next packet. Returns `None` if the input ends between packets. Returns Read if the reader has not ended after
    /// 4,294,967,295 reads.
    pub fn read<R: Read>(alloc: Global, reader: &mut R) -> Result<Option<Packet>, SideFault>
        ensures { ReadsPacket (R.remaining reader.old) (R.remaining reader.new) result }
    {
        let mut reads = u32::MAX;
        read_packet(alloc, reader, &mut reads)
    }

    /// Writes the packet, in one write if the writer accepts it whole.
    pub fn write<W: Write>(&self, writer: &mut W) -> Result<(), SideFault>
        requires { self.now.length ≤ most_data }
        ensures { WritesPacket (W.contents writer.old) (W.contents writer.new)
            (spelling self.now.command self.now.status self.now.body) result }
    {
        write_packet(writer, self.command, self.status, &self.body)
    }

    /// Returns whether the packet ends a session. Only FF 00 00 00 does.
    pub fn is_end(&self) -> bool
        ensures { result ≡ is_end self.now }
    {
        self.command == 0xFF && self.status == 0 && self.length == 0
    }
}

/// Reads the next packet. `reads` is the number of reads that may still be made.
pub fn read_packet<R: Read>(
    alloc: Global,
    reader: &mut R,
    reads: &mut u32,
) -> Result<Option<Packet>, SideFault>
    ensures packet { ReadsPacket (R.remaining reader.old) (R.remaining reader.new) result }
    ensures reads { reads.new ≤ reads.old }
    ensures counted { IfOk result (λ found. OnSome found (reads.new < reads.old)) }
{
    let mut head = [0u8; 4];
    let count = fill(reader, &mut head, reads)?;
    if count == 0 {
        return Ok(None);
    }
    if count < 4 {
        return Err(SideFault::Cut);
    }
    let length = u16::from_be_bytes([head[2], head[3]]);
    let body = read_body(alloc, reader, length, reads)?;
    Ok(Some(Packet {
        command: head[0],
        status: head[1],
        length,
        body,
    }))
}

// Reads the data of a packet, and returns the stored data.
fn read_body<R: Read>(
    alloc: Global,
    reader: &mut R,
    length: u16,
    reads: &mut u32,
) -> Result<Vec<u8>, SideFault>
    ensures ok { IfOk result (λ body. TakesData (R.remaining reader.old) (R.remaining reader.new) length body.items) }
    ensures err { IfErr result (FailsData (R.remaining reader.old) (R.remaining reader.new) length) }
    ensures reads { reads.new ≤ reads.old }
{
    let length = usize::from(length);
    if MOST_DATA < length {
        skip(reader, length, reads)?;
        Ok(Vec::new(alloc))
    } else if length == 0 {
        Ok(Vec::new(alloc))
    } else {
        read_data(alloc, reader, length, reads)
    }
}

// Reads and stores this many bytes, at least one.
fn read_data<R: Read>(
    alloc: Global,
    reader: &mut R,
    length: usize,
    reads: &mut u32,
) -> Result<Vec<u8>, SideFault>
    requires some { 0 < length }
    requires most { length ≤ most_data }
    ensures ok { IfOk result (λ body. TakesData (R.remaining reader.old) (R.remaining reader.new) length body.items) }
    ensures err { IfErr result (FailsData (R.remaining reader.old) (R.remaining reader.new) length) }
    ensures reads { reads.new ≤ reads.old }
{
    let mut body = vec![in alloc; 0u8; length]?;
    let count = fill(reader, body.as_mut_slice(), reads)?;
    if count < length {
        return Err(SideFault::Cut);
    }
    Ok(body)
}

// Reads and discards this many bytes.
fn skip<R: Read>(reader: &mut R, length: usize, reads: &mut u32) -> Result<(), SideFault>
    ensures ok { OnOk result (SkipsData (R.remaining reader.old) (R.remaining reader.new) length) }
    ensures err { IfErr result (FailsData (R.remaining reader.old) (R.remaining reader.new) length) }
    ensures memory { IfErr result (λ fault. fault ≢ SideFault.Memory) }
    ensures reads { reads.new ≤ reads.old }
{
    let mut left = length;
    'pieces: while 0 < left {
        let wanted = left.min(MOST_DATA);
        skip_piece(reader, wanted, reads)?;
        left -= wanted;
    }
    Ok(())
}

// The same for at most 2,048 bytes.
fn skip_piece<R: Read>(reader: &mut R, length: usize, reads: &mut u32) -> Result<(), SideFault>
    requires { length ≤ most_data }
    ensures ok { OnOk result (SkipsData (R.remaining reader.old) (R.remaining reader.new) length) }
    ensures err { IfErr result (FailsData (R.remaining reader.old) (R.remaining reader.new) length) }
    ensures memory { IfErr result (λ fault. fault ≢ SideFault.Memory) }
    ensures reads { reads.new ≤ reads.old }
{
    let mut piece = [0u8; MOST_DATA];
    let skipped = fill(reader, &mut piece[..length], reads)?;
    if skipped < length {
        return Err(SideFault::Cut);
    }
    Ok(())
}

/// Writes a packet with these data, in one write if the writer accepts it whole.
pub fn write_packet<W: Write>(
    writer: &mut W,
    command: u8,
    status: u8,
    content: &[u8],
) -> Result<(), SideFault>
    requires { length content.now ≤ most_data }
    ensures { WritesPacket (W.contents writer.old) (W.contents writer.new)
        (spelling command status content.now) result }
{
    let mut text = [0u8; MOST_PACKET];
    let count = put_packet(&mut text, command, status, content);
    match write_whole(writer, &text[..count]) {
        Ok(()) => Ok(()),
        Err(_) => Err(SideFault::Write),
    }
}

// The maximum number of bytes of a packet that is written.
const MOST_PACKET: usize = 2052;

// Puts a packet at the front of a buffer, and returns its number of bytes.
fn put_packet(buffer: &mut [u8], command: u8, status: u8, content: &[u8]) -> usize
    requires most { length content.now ≤ most_data }
    requires room { length content.now + 4 ≤ length buffer.old }
    ensures count { result ≤ length buffer.new }
    ensures bytes { take result buffer.new ≡ spelling command status content.now }
{
    let [high, low] = (content.len() as u16).to_be_bytes();
    let count = content.len() + 4;
    buffer[..4].copy_from_slice(&[command, status, high, low]);
    buffer[4..count].copy_from_slice(content);
    count
}
