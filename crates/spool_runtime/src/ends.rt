//! How a program of a spool begins and ends: its arguments, its errors on standard error, and its exit status.
ghost use Rattle.std.specs.Prelude.{◌≡◌, ◌≢◌};
ghost use Rattle.std.specs.Process.{exit_status};
ghost use Rattle.std.specs.IoError.{error_kind};
ghost use Rattle.clap.specs.Words.{kind_of};
ghost use Rattle.spool_runtime.specs.ProgramEnding.{IsRefusal, IsWordsStatus};

use crate::fault::ShellFault;
use crate::options::WordsFault;
use std::io::ErrorKind;
use std::process::ExitCode;
use std::rt::Env;
use std::{env, io};

/// Returns the command-line arguments, the program's name first.
pub fn given_words<R: Env + AllocGlobal>(rt: &R) -> io::Result<Vec<String>> {
    let words = env::args(rt)?.collect(rt.alloc())?;
    Ok(words)
}

// Reports a fault that has no cause. If the report cannot be written, only the status shows it.
fn fail<R: Eprint>(rt: &R, fault: &ShellFault) -> ExitCode
    ensures { exit_status result ≡ 1 }
{
    let _ = eprintln!(rt; "spool: {fault}");
    ExitCode::FAILURE
}

// Prints why the arguments are refused, or the help that they ask for.
fn refuse<R: Print + Eprint>(rt: &R, error: &clap::Error) -> ExitCode
    ensures { IsRefusal (kind_of error.now) (exit_status result) }
{
    let _ = error.print(rt);
    ExitCode::from(error.exit_code() as u8)
}

/// Prints why the arguments cannot be used, or the help that they ask for, and returns the exit status.
pub fn report_words_fault<R: Print + Eprint>(rt: &R, fault: &WordsFault) -> ExitCode
    ensures { IsWordsStatus fault.now (exit_status result) }
{
    match fault {
        WordsFault::Refused(error) => refuse(rt, error),
        WordsFault::Memory => fail(rt, &ShellFault::Memory),
    }
}

/// Reports that the arguments cannot be read: they are not UTF-8, or memory ran out.
pub fn no_words<R: Eprint>(rt: &R, error: &io::Error) -> ExitCode
    ensures no_text { error_kind error.now ≡ ErrorKind.InvalidData → exit_status result ≡ 2 }
    ensures memory { error_kind error.now ≢ ErrorKind.InvalidData → exit_status result ≡ 1 }
{
    if error.kind() != ErrorKind::InvalidData {
        return fail(rt, &ShellFault::Memory);
    }
    let _ = eprintln!(rt; "error: invalid UTF-8 was detected in one or more arguments");
    ExitCode::from(2)
}
