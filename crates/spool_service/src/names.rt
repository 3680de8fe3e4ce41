//! The names of sockets: the service removes the socket that a killed service left, and nothing else.
ghost use Rattle.std.specs.Prelude.{◌≡◌, IfOk};
ghost use Rattle.std.specs.IoError.{error_kind};
ghost use Rattle.spool_service.specs.SocketNames.{holder_by};

use mio::net::UnixStream;
use spool_runtime::remove_if_there;
use std::io::ErrorKind;
use std::os::unix::fs::FileTypeExt;
use std::path::Path;
use std::{fs, io};

/// Who has the name of a socket.
#[derive(Clone, Copy)]
pub enum Holder {
    Nobody,
    /// A socket that no program serves.
    LeftSocket,
    /// A socket that a program serves, or that this program may not connect to.
    ServedSocket,
    /// A file, a folder, a link or anything else.
    Other,
}

/// Returns who has a name. Follows no link, and does not wait for a program that serves the socket.
pub fn holder_of(rt: &HostRuntime, path: &str) -> io::Result<Holder> {
    match fs::symlink_metadata(rt, path) {
        Ok(found) if found.file_type().is_socket() => Ok(holder_by(refusal_at(rt, path))),
        Ok(_) => Ok(Holder::Other),
        Err(error) if error.kind() == ErrorKind::NotFound => Ok(Holder::Nobody),
        Err(error) => Err(error),
    }
}

// Returns the kind of the error of connecting to a socket, if it fails.
fn refusal_at(rt: &HostRuntime, path: &str) -> Option<ErrorKind> {
    match UnixStream::connect(rt, path) {
        Ok(_) => None,
        Err(error) => Some(error.kind()),
    }
}

// Returns who has the name of a socket, by the error of connecting to it.
fn holder_by(refusal: Option<ErrorKind>) -> Holder
    ensures { result ≡ holder_by refusal }
{
    match refusal {
        Some(ErrorKind::ConnectionRefused) => Holder::LeftSocket,
        _ => Holder::ServedSocket,
    }
}

/// Removes the socket of this name, if no program serves it.
pub fn remove_left_socket(rt: &HostRuntime, path: &str) -> io::Result<()> {
    match holder_of(rt, path)? {
        Holder::LeftSocket => remove_if_there(rt, Path::new(path)),
        _ => Ok(()),
    }
}
