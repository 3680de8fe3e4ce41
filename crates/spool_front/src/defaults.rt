//! The default queue, which `lpoptions -d` stores in a file of the user.
ghost use Rattle.std.specs.Prelude.{◌≡◌, IfOk};
ghost use Rattle.std.specs.List.{before_first};
ghost use Rattle.spool_front.specs.QueueChoice.{is_line_feed};

use crate::commands::has_control;
use crate::fault::{Fault, unknown_queue};
use crate::files::{unread, write_as};
use crate::host::variable;
use crate::services::{Services, all_queues, has_queue};
use std::alloc::{AllocError, Global};
use std::io::ErrorKind;
use std::{fs, io};

// The default queue of all users.
const SYSTEM_FILE: &str = "/etc/cegmandi/default";

/// Makes a queue the default of the user.
pub fn store_queue(rt: &HostRuntime, services: Services<'_, '_>, queue: &str) -> Result<u8, Fault>
    ensures { IfOk result (λ status. status ≡ 0) }
{
    let queues = all_queues(rt, services)?;
    let known = has_queue(&queues, queue);
    drop(queues);
    if !known {
        return Err(unknown_queue(rt.alloc(), queue)?);
    }
    let Some(file) = user_file(rt)? else {
        return Err(Fault::Words("HOME is not set, so no default queue can be stored"));
    };
    let text = format!(in rt.alloc(); "{queue}\n")?;
    write_as(rt, file.as_str(), text.as_bytes())?;
    Ok(0)
}

/// Returns the default queue of the user, or else that of the system.
pub fn stored_queue(rt: &HostRuntime) -> Result<Option<String>, Fault> {
    if let Some(file) = user_file(rt)? {
        if let Some(queue) = queue_at(rt, file.as_str())? {
            return Ok(Some(queue));
        }
    }
    queue_at(rt, SYSTEM_FILE)
}

fn user_file(rt: &HostRuntime) -> Result<Option<String>, AllocError> {
    match variable(rt, "HOME")? {
        Some(home) => Ok(Some(format!(in rt.alloc(); "{home}/.cegmandi-default")?)),
        None => Ok(None),
    }
}

// Returns the queue in a file, or `None` if there is no file or its first line is empty.
fn queue_at(rt: &HostRuntime, file: &str) -> Result<Option<String>, Fault> {
    let alloc = rt.alloc();
    match fs::read_to_string(rt, file) {
        Ok(text) => queue_in_text(alloc, text.as_str(), file),
        Err(error) => no_queue(alloc, &error, file),
    }
}

fn queue_in_text(alloc: Global, text: &str, file: &str) -> Result<Option<String>, Fault> {
    let queue = first_line(text);
    if has_control(queue) {
        return Err(Fault::Named("a control character is in", String::from_str(alloc, file)?));
    }
    if queue.is_empty() {
        return Ok(None);
    }
    Ok(Some(String::from_str(alloc, queue)?))
}

// A file that does not exist has no queue.
fn no_queue(alloc: Global, error: &io::Error, file: &str) -> Result<Option<String>, Fault> {
    if error.kind() == ErrorKind::NotFound {
        return Ok(None);
    }
    Err(unread(alloc, error, String::from_str(alloc, file)?)?)
}

fn first_line(text: &str) -> &str
    ensures { result.now ≡ before_first is_line_feed text.now }
{
    match text.split_once('\n') {
        Some((line, _)) => line,
        None => text,
    }
}
