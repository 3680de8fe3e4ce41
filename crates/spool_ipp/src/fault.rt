//! Why the program cannot start or go on.
use std::alloc::{AllocError, Global};
use std::io;
use std::io::ErrorKind;
use system_reasons::reason_of;

/// Why the program cannot start or go on.
#[derive(Drop)]
pub enum StartFault {
    /// A call of the system failed, or memory ran out.
    System(io::Error),
    /// The failed action, its path or address, and the reason.
    Told(String),
}

impl From<io::Error> for StartFault {
    fn from(error: io::Error) -> StartFault {
        StartFault::System(error)
    }
}

impl From<AllocError> for StartFault {
    fn from(error: AllocError) -> StartFault {
        StartFault::System(io::Error::from(error))
    }
}

/// Returns the fault of a file that cannot be read.
pub fn unread(alloc: Global, path: &str, error: io::Error) -> StartFault {
    told(read_text(alloc, path, &error))
}

fn read_text(alloc: Global, path: &str, error: &io::Error) -> Result<String, AllocError> {
    let reason = reason_of(alloc, error)?;
    let reason = reason.as_str();
    format!(in alloc; "cannot read {path}: {reason}")
}

/// Returns the fault of a file with an invalid line.
pub fn invalid_line(alloc: Global, path: &str, number: usize, reason: &str) -> StartFault {
    told(format!(in alloc; "cannot read {path}, line {number}: {reason}"))
}

/// Returns the fault of a socket that cannot be opened at a path or an address.
pub fn unopened(alloc: Global, place: &str, error: io::Error) -> StartFault {
    told(listen_text(alloc, place, &error))
}

fn listen_text(alloc: Global, place: &str, error: &io::Error) -> Result<String, AllocError> {
    let reason = reason_of(alloc, error)?;
    let reason = reason.as_str();
    let hint = hint_for(error.kind());
    format!(in alloc; "cannot listen on {place}: {reason}{hint}")
}

/// Returns the fault of a socket whose name belongs to something else.
pub fn taken(alloc: Global, path: &str, holder: &str) -> StartFault {
    told(format!(in alloc; "cannot listen on {path}: {holder}"))
}

fn told(text: Result<String, AllocError>) -> StartFault {
    match text {
        Ok(text) => StartFault::Told(text),
        Err(error) => StartFault::from(error),
    }
}

// Returns what to do about an error of a socket.
fn hint_for(kind: ErrorKind) -> &'static str {
    match kind {
        ErrorKind::AddrInUse => " (which program listens there? ss -lntp)",
        ErrorKind::NotFound => " (does the folder of the socket exist?)",
        ErrorKind::InvalidInput => " (the path of a socket has at most 107 bytes)",
        _ => "",
    }
}
