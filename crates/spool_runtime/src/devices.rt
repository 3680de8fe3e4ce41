//! Lists the devices that the backends report.
//!
//! A backend that is run without the arguments of a job prints a line for each device that it finds, or a line for the
//! devices that it could serve (backend(7)). The lines that parse as device lines are printed unchanged.
//! `/usr/bin/env -i` runs the backend, so a program without `#!` runs as it does for a job.
//!
//! There is no time limit: the user must stop a backend that hangs. Processes that a backend leaves running are not
//! waited for. Its standard error is discarded, and so is everything that it prints after its first 1,048,576 bytes.

ghost use Rattle.std.specs.Prelude.{◌≡◌, ◌≢◌, ◌≤◌, ℕ, ◌∷◌, List, None, Option, Some, Err, IfErr, IfOk, IsOk, OnErr, OnOk, codes, length, true};
ghost use Rattle.std.specs.IoError.{error_kind};
ghost use Rattle.std.specs.Process.{clears_env, command_args, command_program};
ghost use Rattle.spool_runtime.specs.DeviceLines.{IsOfPrinting, Knows, PrintsDevices, PrintsTold, lines_of};
ghost use Rattle.program_lists.specs.declared.line.ListedProgram.{ListedProgram};
ghost use Rattle.spool_runtime.specs.ChildScript.{program_words};

use crate::child_files::read_at_most;
use crate::device_lines::print_lines;
use crate::fault::ShellFault;
use crate::script::push_program;
use program_lists::{ListedProgram, ProgramList};
use std::alloc::{AllocError, Global};
use std::io::{ErrorKind, PipeReader, Read, Write};
use std::os::fd::OwnedFd;
use std::os::unix::net::UnixStream;
use std::process::{Child, ChildStdout, Command, Stdio};
use std::time::Duration;
use std::{io, thread};

// Runs a backend without environment variables.
const ENV: &str = "/usr/bin/env";

// The number of bytes of a backend's output that are read.
const MOST_LINES: usize = 1_048_576;

// The time between two checks of a backend that prints nothing, in milliseconds.
const TURN: u64 = 10;

/// Asks a backend for its devices.
pub trait Discovery {
    // The output of a program, if it is known: a text, or none if the program cannot be run or read.
    ghost tells: { Self → ListedProgram → Option (Option (List ℕ)) } = { λ _ _. None };

    /// Returns the output of the program. Only an out-of-memory error ends the listing. After any other error the
    /// program reports no devices.
    fn ask(&self, program: &ListedProgram) -> io::Result<Vec<u8>>
        ensures text { IfOk result (λ text. Knows (tells self.now program.now) (Some text.items)) }
        ensures none { IfErr result (λ error. error_kind error ≢ ErrorKind.OutOfMemory → Knows (tells self.now program.now) None) };
}

/// Prints the devices of each backend, in the order of the file. A backend that cannot be run or read reports none.
pub fn print_devices<D: Discovery, W: Write>(
    alloc: Global,
    discovery: &D,
    list: &ProgramList,
    writer: &mut W,
) -> Result<(), ShellFault>
    ensures told { OnOk result (PrintsTold (D.tells discovery.now) list.now.backends (W.contents writer.old) (W.contents writer.new)) }
    ensures fault { IfErr result IsOfPrinting }
{
    for backend in list.backends() {
        let told = discovery.ask(&backend.program);
        print_told(alloc, told, writer)?;
    }
    Ok(())
}

// Prints the device lines in a backend's output. An error of the backend counts only if memory ran out.
fn print_told<W: Write>(
    alloc: Global,
    told: io::Result<Vec<u8>>,
    writer: &mut W,
) -> Result<(), ShellFault>
    ensures lines { OnOk result (IfOk told (λ text. PrintsDevices (lines_of text.items) (W.contents writer.old) (W.contents writer.new))) }
    ensures nothing { OnOk result (OnErr told (W.contents writer.new ≡ W.contents writer.old)) }
    ensures memory { IfErr told (λ error. error_kind error ≡ ErrorKind.OutOfMemory → result ≡ Err ShellFault.Memory) }
    ensures passed { IfErr told (λ error. error_kind error ≢ ErrorKind.OutOfMemory → IsOk result) }
    ensures fault { IfErr result IsOfPrinting }
{
    match told {
        Ok(text) => print_lines(alloc, &text, writer),
        Err(error) if error.kind() == ErrorKind::OutOfMemory => Err(ShellFault::Memory),
        Err(_) => Ok(()),
    }
}

/// Runs each backend as a child process. Nothing is known of its output before it runs.
#[derive(Clone, Copy)]
pub struct ChildDiscovery<'a> {
    pub rt: &'a HostRuntime,
}

impl<'a> Discovery for ChildDiscovery<'a> {
    fn ask(&self, program: &ListedProgram) -> io::Result<Vec<u8>> {
        let alloc = self.rt.alloc();
        let (reader, writer) = io::pipe(self.rt)?;
        let mut command = command_of(alloc, program)?;
        command.stdin(Stdio::null());
        command.stdout(Stdio::from(writer));
        command.stderr(Stdio::null());
        let child = command.spawn(self.rt)?;
        // This closes the program's copy of the end of the pipe that the child has.
        drop(command);
        let telling = Telling {
            rt: self.rt,
            pipe: impatient(reader)?,
            child,
            ended: false,
        };
        let (told, child) = telling.all(alloc);
        let mut child = child;
        let _ = child.wait();
        told
    }
}

// Returns the pipe as a stream that is read without waiting.
fn impatient(reader: PipeReader) -> io::Result<ChildStdout> {
    let stream = UnixStream::from(OwnedFd::from(reader));
    stream.set_nonblocking(true)?;
    Ok(ChildStdout::from(OwnedFd::from(stream)))
}

// A running backend and its output. Processes that it left may keep the pipe open. So once the backend has ended, its
// output is complete with the bytes in the pipe.
#[derive(Drop)]
struct Telling<'a> {
    rt: &'a HostRuntime,
    pipe: ChildStdout,
    child: Child,
    ended: bool,
}

impl<'a> Telling<'a> {
    // Returns its output up to the limit, and the backend, which must be waited for. The closed pipe ends a backend
    // that continues to print.
    fn all(self, alloc: Global) -> (io::Result<Vec<u8>>, Child)
        ensures { IfOk result.0 (λ text. length text.items ≤ 1048576) }
    {
        let mut telling = self;
        let told = read_at_most(alloc, &mut telling, MOST_LINES);
        let Telling { child, .. } = telling;
        (told, child)
    }
}

impl<'a> Read for Telling<'a> {
    fn read(&mut self, buf: &mut [u8]) -> io::Result<usize> {
        match self.pipe.read(buf) {
            Err(error) if error.kind() == ErrorKind::WouldBlock => {
                if self.ended {
                    return Ok(0);
                }
                if matches!(self.child.try_wait(), Ok(None)) {
                    thread::sleep(self.rt, Duration::from_millis(TURN));
                } else {
                    self.ended = true;
                }
                Err(io::Error::from(ErrorKind::Interrupted))
            }
            read => read,
        }
    }
}

// Returns the command that runs a backend to list its devices.
fn command_of(alloc: Global, program: &ListedProgram) -> Result<Command, AllocError>
    ensures program { IfOk result (λ command. command_program command ≡ codes "/usr/bin/env") }
    ensures arguments { IfOk result (λ command. command_args command ≡ codes "-i" ∷ program_words program.now) }
    ensures cleared { IfOk result (λ command. clears_env command ≡ true) }
{
    let mut command = Command::new(alloc, ENV)?;
    command.env_clear();
    command.arg("-i")?;
    push_program(&mut command, program)?;
    Ok(command)
}
