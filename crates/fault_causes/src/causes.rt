//! The causes of faults.
ghost use Rattle.std.specs.Prelude.{◌≡◌, IfOk, None, Some, string_bytes};
ghost use Rattle.std.specs.Option.{option_map};
ghost use Rattle.fault_causes.specs.PlainCauses.{plain_cause};
ghost use Rattle.fault_causes.specs.StreamCauses.{stream_cause, stream_error};

use crate::disk::disk_cause;
use crate::files::file_cause;
use crate::streams::StreamErrors;
use crate::versions::version_cause;
use spool_runtime::ShellFault;
use std::alloc::{AllocError, Global};
use std::io;
use system_reasons::reason_of;

const IGNORED: &str =
    "the signal SIGCHLD is ignored, so the ends of children cannot be known (start the program with env --default-signal=CHLD)";

const READ: &str = "standard input cannot be read (commands without a reply were not executed)";

const WRITE: &str = "standard output cannot be written";

/// The names that the arguments of a program give.
#[derive(Clone, Copy)]
pub struct GivenNames<'a> {
    /// The folder of the spool, unless the spool is in memory.
    pub dir: Option<&'a str>,
    /// The file of types.
    pub types: Option<&'a str>,
    /// The file of conversions.
    pub convs: Option<&'a str>,
    /// The programs file.
    pub programs: Option<&'a str>,
}

impl<'a> GivenNames<'a> {
    /// Returns the names of a program that reads no files but those of a folder.
    pub fn of_folder(dir: &'a str) -> GivenNames<'a>
        ensures dir { result.dir ≡ Some dir.entry }
        ensures files { (result.types ≡ None) × (result.convs ≡ None) × (result.programs ≡ None) }
    {
        GivenNames {
            dir: Some(dir),
            types: None,
            convs: None,
            programs: None,
        }
    }
}

/// Returns the cause of a fault, if it is known.
pub fn cause_of(
    rt: &HostRuntime,
    names: GivenNames<'_>,
    errors: StreamErrors,
    fault: &ShellFault,
) -> Result<Option<String>, AllocError> {
    // A spool in memory is neither damaged nor something else.
    let dir = names.dir.unwrap_or("DIR");
    if let Some(error) = stream_error(errors, fault) {
        let reason = reason_of(rt.alloc(), &error)?;
        return stream_cause(rt.alloc(), fault, reason.as_str());
    }
    match fault {
        ShellFault::File(name) => file_cause(rt, names, name.as_str()),
        ShellFault::Disk(cause) => Ok(Some(disk_cause(rt, names.dir, *cause)?)),
        ShellFault::Damaged(place) => match version_cause(rt, names.dir, *place)? {
            Some(cause) => Ok(Some(cause)),
            None => plain_cause(rt.alloc(), dir, fault),
        },
        _ => plain_cause(rt.alloc(), dir, fault),
    }
}

// Returns the error of the stream that a fault is about.
fn stream_error(errors: StreamErrors, fault: &ShellFault) -> Option<io::Error>
    ensures { result ≡ stream_error errors fault.now }
{
    match fault {
        ShellFault::Read => errors.input,
        ShellFault::Write => errors.output,
        _ => None,
    }
}

// Returns the cause of the fault of a stream, for this reason.
fn stream_cause(
    alloc: Global,
    fault: &ShellFault,
    reason: &str,
) -> Result<Option<String>, AllocError>
    ensures { IfOk result (λ cause. option_map string_bytes cause ≡ stream_cause fault.now reason.now) }
{
    let cause = match fault {
        ShellFault::Read => format!(in alloc;
            "standard input cannot be read: {reason} (commands without a reply were not executed)"
        )?,
        ShellFault::Write => format!(in alloc; "standard output cannot be written: {reason}")?,
        _ => return Ok(None),
    };
    Ok(Some(cause))
}

// Returns the cause that the fault alone shows, over the spool in this folder.
fn plain_cause(alloc: Global, dir: &str, fault: &ShellFault) -> Result<Option<String>, AllocError>
    ensures { IfOk result (λ cause. option_map string_bytes cause ≡ plain_cause dir.now fault.now) }
{
    let cause = match fault {
        ShellFault::NotASpool => format!(in alloc;
            "{dir}/spool.disk is not a spool (restore it, or move it away to start with a new one)"
        )?,
        ShellFault::Damaged(place) => format!(in alloc;
            "{dir}/spool.disk has data at byte {place} that no spooler writes (restore it from a copy)"
        )?,
        ShellFault::Ignored => String::from_str(alloc, IGNORED)?,
        ShellFault::Read => String::from_str(alloc, READ)?,
        ShellFault::Write => String::from_str(alloc, WRITE)?,
        _ => return Ok(None),
    };
    Ok(Some(cause))
}
