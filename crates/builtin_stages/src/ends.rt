//! The arguments of a tool, its error message and its exit status.
ghost use Rattle.std.specs.Prelude.{◌≡◌, ◌⊎◌, IfErr, IfOk, OnErr, OnOk, string_bytes};
ghost use Rattle.std.specs.Process.{exit_status};
ghost use Rattle.std.specs.Io.KnownBytes.{Keeps};
ghost use Rattle.builtin_stages.specs.ToolEnding.{SendingEnds, Tells, TellsLine, TellsNameless, TellsUnread, named_line, status_of, unread_line};

use crate::connection_ends::end_line;
use crate::fault::{ToolFault, UNREAD};
use crate::network::Sending;
use clean_texts::clean_text;
use std::alloc::{AllocError, Global};
use std::io::Write;
use std::process::ExitCode;
use std::rt::Env;
use std::{env, io};
use system_reasons::reason_of;
use whole_writes::write_whole;

/// Returns the arguments, starting with the program's name.
pub fn given_words<H: Env + AllocGlobal>(rt: &H) -> io::Result<Vec<String>> {
    let words = env::args(rt)?.collect(rt.alloc())?;
    Ok(words)
}

/// Reports a fault on standard error, and returns the exit status. `name` is that of the file or of the stream that the tool reads. If the
/// line cannot be written, only the status reports the fault.
pub(crate) fn report_end<E: Write>(
    alloc: Global,
    errors: &mut E,
    name: &str,
    ended: Result<u8, ToolFault>,
) -> ExitCode
    ensures status { exit_status result ≡ status_of ended }
    ensures ok { OnOk ended (Keeps (E.contents errors.old) (E.contents errors.new)) }
    ensures fault { IfErr ended (λ fault. Tells fault name.now (E.contents errors.old) (E.contents errors.new)) }
{
    match ended {
        Ok(status) => ExitCode::from(status),
        Err(fault) => {
            report_fault(alloc, errors, name, fault);
            ExitCode::from(fault.status())
        }
    }
}

// Reports a fault.
fn report_fault<E: Write>(alloc: Global, errors: &mut E, name: &str, fault: ToolFault)
    ensures { Tells fault name.now (E.contents errors.old) (E.contents errors.new) }
{
    match fault {
        ToolFault::Read(error) => report_unread(alloc, errors, name, &error),
        ToolFault::ChainFile(error) => report_unread(alloc, errors, name, &error),
        _ => write_line(errors, fault.error_line()),
    }
}

// Reports that the file of this name cannot be read, with the system's reason. If memory for the line runs out, it has neither.
fn report_unread<E: Write>(alloc: Global, errors: &mut E, name: &str, error: &io::Error)
    ensures { TellsUnread name.now (E.contents errors.old) (E.contents errors.new) ⊎ TellsNameless (E.contents errors.old) (E.contents errors.new) }
{
    match reason_of(alloc, error) {
        Ok(reason) => report_reason(alloc, errors, name, reason.as_str()),
        Err(_) => write_line(errors, UNREAD),
    }
}

// Reports that the file of this name cannot be read, with this reason.
fn report_reason<E: Write>(alloc: Global, errors: &mut E, name: &str, reason: &str)
    ensures { TellsLine (unread_line name.now reason.now) (E.contents errors.old) (E.contents errors.new)
        ⊎ TellsNameless (E.contents errors.old) (E.contents errors.new) }
{
    match unread_line(alloc, name, reason) {
        Ok(line) => write_line(errors, line.as_str()),
        Err(_) => write_line(errors, UNREAD),
    }
}

// Writes a line, or a part of it if the writer fails.
fn write_line<E: Write>(errors: &mut E, line: &str)
    ensures { TellsLine line.now (E.contents errors.old) (E.contents errors.new) }
{
    let _ = write_whole(errors, line.as_bytes());
}

// Returns the line for a file that cannot be read.
fn unread_line(alloc: Global, name: &str, reason: &str) -> Result<String, AllocError>
    ensures { IfOk result (λ line. string_bytes line ≡ unread_line name.now reason.now) }
{
    let name = clean_text(alloc, name)?;
    named_line(alloc, name.as_str(), reason)
}

fn named_line(alloc: Global, name: &str, reason: &str) -> Result<String, AllocError>
    ensures { IfOk result (λ line. string_bytes line ≡ named_line name.now reason.now) }
{
    format!(in alloc; "ERROR: cannot read {name}: {reason}\n")
}

/// Reports the end of a connection, or a fault of the document of this name, on standard error, and returns the exit status. If the line
/// cannot be made or written, only the status reports the end.
pub(crate) fn report_sending<E: Write>(
    alloc: Global,
    errors: &mut E,
    name: &str,
    ended: Result<Sending, ToolFault>,
) -> ExitCode
    ensures { SendingEnds ended name.now (E.contents errors.old) (E.contents errors.new) (exit_status result) }
{
    match ended {
        Ok(sending) => {
            let end = sending.end;
            if let Ok(line) = end_line(alloc, end, sending.peer.as_str(), sending.sent) {
                let _ = write_whole(errors, line.as_bytes());
            }
            ExitCode::from(end.status())
        }
        Err(fault) => report_end(alloc, errors, name, Err(fault)),
    }
}

/// Returns the exit status of a tool that writes no error message.
pub(crate) fn end_silently(ended: Result<(), ToolFault>) -> ExitCode
    ensures ok { OnOk ended (exit_status result ≡ 0) }
    ensures fault { OnErr ended (exit_status result ≡ 1) }
{
    match ended {
        Ok(()) => ExitCode::SUCCESS,
        Err(_) => ExitCode::FAILURE,
    }
}
