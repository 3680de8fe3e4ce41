//! The backends (backend(7)).
ghost use Rattle.std.specs.Prelude.{◌≡◌, IfErr, IfOk, Ok, OnOk};
ghost use Rattle.builtin_stages.specs.Backends.{Spooled, device_line};
ghost use Rattle.builtin_stages.specs.BackendOptions.{exit_of};

use crate::device::{Device, read_device};
use crate::fault::ToolFault;
use crate::options::{exit_of, partner_of, replaces_in_place, turns_of};
use crate::results::{Form, Source, write_copies};
use crate::side::{ask_id, end_session, id_in};
use crate::targets::{Draft, open_in_place};
use crate::words::Backend;
use std::alloc::Global;
use std::env::VarError;
use std::fs::{File, Files};
use std::io::Write;
use std::net::Net;
use std::os::unix::net::UnixStream;
use std::rt::{Clock, Env};
use std::time::Duration;
use std::{env, fs, thread};
use whole_writes::write_whole;

/// Returns the device line of the backend, with its line feed.
pub fn device_line(backend: Backend) -> &'static str
    ensures { result.now ≡ device_line backend }
{
    match backend {
        Backend::SpoolFile => "file spoolfile \"Unknown\" \"spoolfile\"\n",
        Backend::Meet => "file meet \"Unknown\" \"meet\"\n",
        Backend::SideAsk => "file sideask \"Unknown\" \"sideask\"\n",
        Backend::AppSocket => "network appsocket \"Unknown\" \"appsocket\"\n",
    }
}

/// Writes the copies to the device's file, and returns the exit status.
pub fn spool_file<H: Files<File = File> + Env + AllocGlobal, S: Source>(
    rt: &H,
    source: &S,
    copies: u32,
) -> Result<u8, ToolFault>
    ensures { IfErr result (λ fault. fault ≡ ToolFault.Write) }
{
    match write_file(rt, source, copies) {
        Ok(status) => Ok(status),
        Err(_) => Err(ToolFault::Write),
    }
}

// The same, with the original fault.
fn write_file<H: Files<File = File> + Env + AllocGlobal, S: Source>(
    rt: &H,
    source: &S,
    copies: u32,
) -> Result<u8, ToolFault> {
    let device = given_device(rt)?;
    let path = device.path.as_str();
    if replaces_in_place(&device.options) {
        let mut file = open_in_place(rt, path)?;
        return write_spooled(rt.alloc(), &device, source, copies, &mut file);
    }
    let mut draft = Draft::open(rt, path)?;
    let written = write_spooled(rt.alloc(), &device, source, copies, &mut draft.file);
    publish(rt, &draft, written)
}

// Gives the new file the target's name if it was written whole, and otherwise removes it.
fn publish<H: Files<File = File>, T: Drop>(
    rt: &H,
    draft: &Draft,
    written: Result<T, ToolFault>,
) -> Result<T, ToolFault>
    ensures ok { IfOk result (λ value. written ≡ Ok value) }
{
    let ended = match written {
        Ok(value) => draft.publish(rt).map(|_| value),
        Err(fault) => Err(fault),
    };
    if ended.is_err() {
        draft.discard(rt);
    }
    ended
}

// Writes the copies unchanged, and returns the status that the device's options request.
fn write_spooled<S: Source, W: Write>(
    alloc: Global,
    device: &Device,
    source: &S,
    copies: u32,
    writer: &mut W,
) -> Result<u8, ToolFault>
    ensures status { IfOk result (λ status. status ≡ exit_of device.now.options.items) }
    ensures wrote { OnOk result (Spooled copies (S.known source.now) (W.contents writer.old) (W.contents writer.new)) }
{
    write_copies(alloc, Form::Plain, source, copies, writer)?;
    Ok(exit_of(&device.options))
}

/// Creates the device's file as a mark, and checks for the partner's. If that is not found, removes the own mark.
pub fn meet<H: Files<File = File> + Env + Clock + AllocGlobal>(rt: &H) -> Result<(), ToolFault> {
    let device = given_device(rt)?;
    let mark = device.path.as_str();
    make_mark(rt, mark)?;
    if finds_partner(rt, &device) {
        return Ok(());
    }
    let _ = fs::remove_file(rt, mark);
    Err(ToolFault::Partner)
}

/// Requests the device id on the side channel, and writes it to the device's file.
pub fn side_ask<H: Files<File = File> + Env + Net + AllocGlobal>(rt: &H) -> Result<(), ToolFault> {
    let device = given_device(rt)?;
    let stream = connect(rt, variable(rt, "SPOOL_SIDE")?.as_str())?;
    let answer = ask_id(rt.alloc(), &mut &stream, &mut &stream)?;
    let Some(id) = id_in(&answer) else {
        return Err(ToolFault::Side);
    };
    let mut draft = Draft::open(rt, device.path.as_str())?;
    let written = write_whole(&mut draft.file, id).map_err(|fault| ToolFault::from(fault));
    publish(rt, &draft, written)
}

/// Ends the session on a socket.
pub fn side_end<H: Net + AllocGlobal>(rt: &H, socket: &str) -> Result<(), ToolFault> {
    let stream = connect(rt, socket)?;
    end_session(rt.alloc(), &mut &stream)
}

// Returns the device that the environment names.
fn given_device<H: Env + AllocGlobal>(rt: &H) -> Result<Device, ToolFault> {
    read_device(rt.alloc(), variable(rt, "DEVICE_URI")?.as_str())
}

/// Returns a variable, which must exist and be a text.
pub(crate) fn variable<H: Env + AllocGlobal>(rt: &H, name: &str) -> Result<String, ToolFault> {
    match env::var(rt, name) {
        Ok(value) => Ok(value),
        Err(VarError::OutOfMemory) => Err(ToolFault::Memory),
        Err(_) => Err(ToolFault::Device),
    }
}

// Creates the mark. An existing one is not changed.
fn make_mark<H: Files<File = File> + Env + AllocGlobal>(
    rt: &H,
    path: &str,
) -> Result<(), ToolFault> {
    let draft = Draft::open(rt, path)?;
    if draft.replaces() {
        draft.discard(rt);
        return Ok(());
    }
    publish(rt, &draft, Ok(()))
}

// Checks for the partner's mark several times, with a second between two checks. Returns whether it was found.
fn finds_partner<H: Files + Clock>(rt: &H, device: &Device) -> bool {
    let Some(partner) = partner_of(&device.options) else {
        return false;
    };
    for turn in 0..turns_of(&device.options) {
        if turn != 0 {
            thread::sleep(rt, Duration::from_secs(1));
        }
        if let Ok(true) = fs::exists(rt, partner) {
            return true;
        }
    }
    false
}

// Connects to the socket. An empty name is refused.
fn connect<H: Net>(rt: &H, socket: &str) -> Result<UnixStream, ToolFault> {
    if socket.is_empty() {
        return Err(ToolFault::Side);
    }
    UnixStream::connect(rt, socket).ok().ok_or(ToolFault::Side)
}
