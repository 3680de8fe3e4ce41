//! The service's files, whose names are in the environment or are the defaults.
ghost use Rattle.std.specs.Prelude.{IfOk};
ghost use Rattle.std.specs.IoError.{error_kind};
ghost use Rattle.spool_front.specs.TaskFaults.{IsUnreadBy};

use crate::fault::Fault;
use crate::host::variable_or;
use std::alloc::{AllocError, Global};
use std::fs::OpenOptions;
use std::io::{ErrorKind, Write};
use std::{fs, io};
use system_reasons::reason_of;

/// Returns the text of the file that the variable names.
pub fn file_text(rt: &HostRuntime, of_name: &str, usual: &str) -> Result<String, Fault> {
    let name = variable_or(rt, of_name, usual)?;
    match fs::read_to_string(rt, name.as_str()) {
        Ok(text) => Ok(text),
        Err(error) => Err(unread(rt.alloc(), &error, name)?),
    }
}

// Returns why the file cannot be read.
pub fn unread(alloc: Global, error: &io::Error, name: String) -> Result<Fault, AllocError>
    ensures { IfOk result (IsUnreadBy (error_kind error.now) name) }
{
    match error.kind() {
        ErrorKind::OutOfMemory => Ok(Fault::Memory),
        _ => Ok(Fault::File(name, reason_of(alloc, error)?)),
    }
}

/// Writes a new file and gives it the name, so that a reader never sees half a file. A file that was left under the name of the new one is
/// removed, and a link of that name is not followed.
pub fn write_as(rt: &HostRuntime, file: &str, text: &[u8]) -> Result<(), Fault> {
    let alloc = rt.alloc();
    let unfinished = format!(in alloc; "{file}.new")?;
    let _ = fs::remove_file(rt, unfinished.as_str());
    match write_and_rename(rt, unfinished.as_str(), file, text) {
        Ok(()) => Ok(()),
        Err(error) => Err(not_written(alloc, &error, file)?),
    }
}

fn not_written(alloc: Global, error: &io::Error, file: &str) -> Result<Fault, AllocError> {
    let why = reason_of(alloc, error)?;
    Ok(Fault::NotWritten(String::from_str(alloc, file)?, why))
}

fn write_and_rename(rt: &HostRuntime, unfinished: &str, file: &str, text: &[u8]) -> io::Result<()> {
    write_new(rt, unfinished, text)?;
    fs::rename(rt, unfinished, file)
}

// Writes a file. Fails if the name is taken.
fn write_new(rt: &HostRuntime, file: &str, text: &[u8]) -> io::Result<()> {
    OpenOptions::new()
        .write(true)
        .create_new(true)
        .open(rt, file)?
        .write_all(text)
}
