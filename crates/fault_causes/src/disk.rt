//! The causes of a disk that cannot be used.
ghost use Rattle.std.specs.Prelude.{◌≡◌, IfOk, string_bytes};
ghost use Rattle.fault_causes.specs.DiskReasons.{is_cause, is_told_again, usual_reason};

use spool_runtime::DiskCause;
use std::alloc::{AllocError, Global};
use std::fs::{File, OpenOptions, TryLockError};
use std::io;
use std::io::ErrorKind;
use system_reasons::reason_of;

/// Returns the word of a cause, and what failed in the folder, if there is one.
pub fn disk_cause(
    rt: &HostRuntime,
    dir: Option<&str>,
    cause: DiskCause,
) -> Result<String, AllocError> {
    let alloc = rt.alloc();
    let Some(dir) = dir else {
        return format!(in alloc; "{cause}");
    };
    let reason = match refused_name(rt, dir, cause)? {
        Some(reason) => reason,
        None => usual_reason(alloc, dir, cause)?,
    };
    let reason = reason.as_str();
    format!(in alloc; "{cause}: {reason}")
}

// Opens the names of the folder and locks its files again, and returns the first that the system refuses for this cause, with its reason.
fn refused_name(
    rt: &HostRuntime,
    dir: &str,
    cause: DiskCause,
) -> Result<Option<String>, AllocError> {
    if !is_told_again(cause) {
        return Ok(None);
    }
    if let Err(error) = open_folder(rt, dir) {
        return Ok(Some(refusal(rt.alloc(), "open", dir, &error)?));
    }
    match refused_file(rt, dir, "spool.lock", cause)? {
        Some(reason) => Ok(Some(reason)),
        None => refused_file(rt, dir, "spool.disk", cause),
    }
}

// Returns why this file of the folder is refused, if that is the cause.
fn refused_file(
    rt: &HostRuntime,
    dir: &str,
    name: &str,
    cause: DiskCause,
) -> Result<Option<String>, AllocError> {
    let path = format!(in rt.alloc(); "{dir}/{name}")?;
    let (failed, error) = match open_file(rt, path.as_str()) {
        Err(error) => ("open", error),
        Ok(file) => match file.try_lock() {
            Err(TryLockError::Error(error)) => ("lock", error),
            // The lock ends as the file is closed.
            _ => return Ok(None),
        },
    };
    if !is_cause(error.kind(), cause) {
        return Ok(None);
    }
    Ok(Some(refusal(rt.alloc(), failed, path.as_str(), &error)?))
}

// By this name only a folder can be opened.
fn open_folder(rt: &HostRuntime, dir: &str) -> io::Result<File> {
    let itself = format!(in rt.alloc(); "{dir}/.")?;
    File::open(rt, itself.as_str())
}

fn open_file(rt: &HostRuntime, path: &str) -> io::Result<File> {
    OpenOptions::new().read(true).write(true).open(rt, path)
}

// Returns what failed, its path and the system's reason.
fn refusal(
    alloc: Global,
    failed: &str,
    path: &str,
    error: &io::Error,
) -> Result<String, AllocError> {
    let reason = reason_of(alloc, error)?;
    let reason = reason.as_str();
    format!(in alloc; "cannot {failed} {path}: {reason}")
}

// Returns whether the system may say again why a name is refused.
fn is_told_again(cause: DiskCause) -> bool
    ensures { result ≡ is_told_again cause }
{
    match cause {
        DiskCause::Absent
        | DiskCause::NotAllowed
        | DiskCause::ReadOnly
        | DiskCause::NoFile
        | DiskCause::Failed => true,
        _ => false,
    }
}

// Returns whether an error of opening a file belongs to this cause. A file that is missing does only if the cause is that a name is absent.
fn is_cause(kind: ErrorKind, cause: DiskCause) -> bool
    ensures { result ≡ is_cause kind cause }
{
    match (kind, cause) {
        (ErrorKind::NotFound, DiskCause::Absent) => true,
        (ErrorKind::NotFound, _) => false,
        (_, DiskCause::Absent) => false,
        _ => true,
    }
}

// Returns the reason of a cause in this folder, if all its names can be opened.
fn usual_reason(alloc: Global, dir: &str, cause: DiskCause) -> Result<String, AllocError>
    ensures { IfOk result (λ reason. string_bytes reason ≡ usual_reason dir.now cause) }
{
    match cause {
        DiskCause::Owned => format!(in alloc;
            "another program has the spool in {dir} open (is cegmandi running? systemctl status cegmandi)"
        ),
        DiskCause::OwnerUnknown => format!(in alloc;
            "the file system of {dir} grants its locks to every program (use another file system, or enable its locks)"
        ),
        DiskCause::Absent => format!(in alloc; "cannot open {dir}: No such file or directory"),
        DiskCause::NotAllowed => format!(in alloc;
            "cannot make a file in {dir}: Permission denied"
        ),
        DiskCause::ReadOnly => {
            format!(in alloc; "cannot make a file in {dir}: Read-only file system")
        }
        DiskCause::NoRoom => {
            format!(in alloc; "cannot make a file in {dir}: No space left on device")
        }
        DiskCause::NoFile => {
            format!(in alloc; "{dir}/spool.disk is not a regular file, or has a second name")
        }
        DiskCause::Failed => format!(in alloc;
            "the device of {dir} failed, or its file system has no locks (see the system's log)"
        ),
    }
}
