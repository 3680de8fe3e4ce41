//! Checks whether a program of the file can be run.
//!
//! The system runs files that begin with `#!`, and ELF programs. `env` would run any other file in a shell. An empty file then does
//! nothing and exits with 0, as if the job had been printed. So such a file is not run.
//!
//! # Promises
//!
//! - The beginning of a file is accepted exactly if its first bytes are those of a script or of an ELF program (`begins_right`). A line
//!   of the list that ends with a carriage return, as in a file from another system, is reported as such (`ends_with_return`).
//!
//! # Not proved
//!
//! - The system's reports about a file. `tests/test_children.py` tests them.
#![tactic(auto)]

ghost use Rattle.std.specs.Prelude.{◌≡◌, IsTrue, Some};
ghost use Rattle.program_fitness.specs.Fitness.{begins_right, ends_with_return};
ghost use Rattle.program_fitness.specs.declared.Obstacle.TheVariants.{Return};

use program_lists::ListedProgram;
use std::fs::{File, Files};
use std::io::{ErrorKind, Read};
use std::os::unix::fs::PermissionsExt;
use std::{fs, io};
use thiserror::Error;

// The first bytes of a script, and of an ELF program.
const SCRIPT: &[u8] = b"#!";

const ELF: &[u8] = b"\x7fELF";

/// Why a program cannot be run.
#[derive(Clone, Copy, Debug, Drop, Error, PartialEq, Eq)]
pub enum Obstacle {
    #[error("file not found")]
    Absent,
    #[error("not a regular file")]
    NoFile,
    #[error("not executable")]
    NotExecutable,
    #[error("neither a script nor an ELF program")]
    NoProgram,
    #[error("the line ends with a carriage return")]
    Return,
}

/// Returns the reason why a program of the list cannot be run, if any. Returns `None` if the system cannot check it.
pub fn obstacle_of_program<R: Files<File = File>>(
    rt: &R,
    program: &ListedProgram,
) -> Option<Obstacle>
    ensures { IsTrue (ends_with_return program.now) → result ≡ Some Return }
{
    if ends_with_return(program) {
        return Some(Obstacle::Return);
    }
    match obstacle_of(rt, program.path.as_str()) {
        Ok(obstacle) => obstacle,
        Err(_) => None,
    }
}

/// Returns the reason why a program's file cannot be run, if any. The error is the system's, if it cannot check the file.
pub fn obstacle_of<R: Files<File = File>>(rt: &R, path: &str) -> io::Result<Option<Obstacle>> {
    let found = match fs::metadata(rt, path) {
        Ok(found) => found,
        Err(_) => return Ok(Some(Obstacle::Absent)),
    };
    if !found.is_file() {
        return Ok(Some(Obstacle::NoFile));
    }
    if found.permissions().mode() & 0o111 == 0 {
        return Ok(Some(Obstacle::NotExecutable));
    }
    let obstacle = if can_begin(rt, path)? {
        None
    } else {
        Some(Obstacle::NoProgram)
    };
    Ok(obstacle)
}

// Returns whether the file begins as a file that the system runs. A file that is executable but not readable passes, since a shell cannot
// read it either.
fn can_begin<R: Files<File = File>>(rt: &R, path: &str) -> io::Result<bool> {
    let file = match File::open(rt, path) {
        Err(error) if error.kind() == ErrorKind::PermissionDenied => return Ok(true),
        opened => opened?,
    };
    let mut file = file;
    let mut head = [0u8; 4];
    let count = file.read(&mut head)?;
    Ok(begins_right(&head[..count]))
}

// Returns whether a file with these first bytes is a script or an ELF program.
fn begins_right(head: &[u8]) -> bool
    ensures { result ≡ begins_right head.now }
{
    head.starts_with(SCRIPT) || head.starts_with(ELF)
}

// Returns whether the line of a program ends with a carriage return, as in a file from another system.
fn ends_with_return(program: &ListedProgram) -> bool
    ensures { result ≡ ends_with_return program.now }
{
    let last = match &program.word {
        Some(word) => word.as_str(),
        None => program.path.as_str(),
    };
    last.as_bytes().ends_with(b"\r")
}
