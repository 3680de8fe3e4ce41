//! The names of sockets: the program removes the socket that a killed one left, and nothing else.
use mio::net::UnixStream;
use std::io::ErrorKind;
use std::os::unix::fs::FileTypeExt;
use std::{fs, io};

/// Frees the name of a socket, if a program that was killed has left it. Follows no link. Returns who else holds the name, if anybody does.
pub fn free_name(rt: &HostRuntime, path: &str) -> io::Result<Option<&'static str>> {
    match fs::symlink_metadata(rt, path) {
        Ok(found) if found.file_type().is_socket() => free_socket(rt, path),
        Ok(_) => Ok(Some("it exists and is no socket")),
        Err(error) if error.kind() == ErrorKind::NotFound => Ok(None),
        Err(error) => Err(error),
    }
}

// Removes a socket that no program serves.
fn free_socket(rt: &HostRuntime, path: &str) -> io::Result<Option<&'static str>> {
    match UnixStream::connect(rt, path) {
        Err(error) if error.kind() == ErrorKind::ConnectionRefused => {
            fs::remove_file(rt, path)?;
            Ok(None)
        }
        _ => Ok(Some("another program serves this socket")),
    }
}
