//! Finds the device lines in the output of a backend.
ghost use Rattle.std.specs.Prelude.{◌≡◌, false, map, IfErr, IfOk, IsTrue, OnOk};
ghost use Rattle.std.specs.Io.KnownBytes.{Appends};
ghost use Rattle.spool_runtime.specs.DeviceLines.{HasFields, IsDevice, IsOfPrinting, IsUnprinted, PrintsDevices, PrintsIfDevice, lines_of, with_feed};

use crate::fault::ShellFault;
use device_uri::{LineFault, read_device_line};
use std::alloc::{AllocError, Global};
use std::io::Write;
use std::str;

/// Prints each line that parses as a device line, unchanged and followed by a line feed.
pub(crate) fn print_lines<W: Write>(
    alloc: Global,
    text: &[u8],
    writer: &mut W,
) -> Result<(), ShellFault>
    ensures lines { OnOk result (PrintsDevices (lines_of text.now) (W.contents writer.old) (W.contents writer.new)) }
    ensures fault { IfErr result IsOfPrinting }
{
    let lines = lines_of(alloc, text)?;
    for line in &lines {
        print_if_device(alloc, line, writer)?;
    }
    Ok(())
}

fn print_if_device<W: Write>(alloc: Global, line: &[u8], writer: &mut W) -> Result<(), ShellFault>
    ensures line { OnOk result (PrintsIfDevice line.now (W.contents writer.old) (W.contents writer.new)) }
    ensures fault { IfErr result (IsUnprinted line.now (W.contents writer.old) (W.contents writer.new)) }
{
    if is_device(alloc, line)? {
        print_line(line, writer)
    } else {
        Ok(())
    }
}

/// Returns the lines of a text without their line feeds.
pub(crate) fn lines_of(alloc: Global, text: &[u8]) -> Result<Vec<&[u8]>, AllocError>
    ensures { IfOk result (λ lines. map (λ line. line.now) lines.items ≡ lines_of text.now) }
{
    text.split(|b| *b == b'\n').collect(alloc)
}

// Returns whether the line parses as a device line.
fn is_device(alloc: Global, line: &[u8]) -> Result<bool, AllocError>
    ensures yes { IfOk result (λ is. IsTrue is → IsDevice line.now) }
    ensures no { IfOk result (λ is. is ≡ false → ¬ (IsDevice line.now)) }
{
    match str::from_utf8(line) {
        Ok(line) => is_device_text(alloc, line),
        Err(_) => Ok(false),
    }
}

fn is_device_text(alloc: Global, line: &str) -> Result<bool, AllocError>
    ensures yes { IfOk result (λ is. IsTrue is → HasFields line.now) }
    ensures no { IfOk result (λ is. is ≡ false → ¬ (HasFields line.now)) }
{
    let Err(fault) = read_device_line(alloc, line) else {
        return Ok(true);
    };
    match fault {
        LineFault::BadLine => Ok(false),
        LineFault::Memory => Err(AllocError),
    }
}

fn print_line<W: Write>(line: &[u8], writer: &mut W) -> Result<(), ShellFault>
    ensures wrote { OnOk result (Appends (W.contents writer.old) (W.contents writer.new) (with_feed line.now)) }
    ensures fault { IfErr result (λ fault. fault ≡ ShellFault.Write) }
{
    match writer.write_all(line) {
        Ok(()) => {}
        Err(_) => return Err(ShellFault::Write),
    }
    match writer.write_all(b"\n") {
        Ok(()) => Ok(()),
        Err(_) => Err(ShellFault::Write),
    }
}
