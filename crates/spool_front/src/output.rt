//! Standard output.

use std::io;
use std::io::Write;

pub fn print_lines(rt: &HostRuntime, lines: &[String]) -> io::Result<()> {
    for line in lines {
        println!(rt; "{line}")?;
    }
    Ok(())
}

pub fn print_bytes(rt: &HostRuntime, bytes: &[u8]) -> io::Result<()> {
    io::writer(rt).write_all(bytes)
}
