//! Why the program ends with status 1.
ghost use Rattle.std.specs.Prelude.{◌≡◌, OnErr, OnOk};
ghost use Rattle.std.specs.Process.{exit_status};
ghost use Rattle.spool_runtime.specs.ProgramFaults.{of_opening};
ghost use Rattle.spool_runtime.specs.declared.fault.ShellFault.TheVariants.{Memory};
ghost use Rattle.spool_admin.specs.AdminFaults.{at_target, of_checkpoint, of_edit, of_half, of_refusal};
ghost use Rattle.spool_admin.specs.declared.fault.AdminFault.TheVariants.{Shell};

use crate::causes::admin_cause;
use crate::words::Asked;
use fault_causes::{GivenNames, StreamErrors, report_fault};
use queue_edits::EditRefusal;
use spool_core::{CheckpointFault, OpenFault};
use spool_halves::{EditFault, HalfFault};
use spool_runtime::{DiskCause, ShellFault};
use std::alloc::AllocError;
use std::process::ExitCode;
use thiserror::Error;

/// Why the program ends with status 1. Its text follows `spool: ` on standard error.
#[derive(Debug, Drop, Error)]
pub enum AdminFault {
    /// A fault that the spooler may also have.
    #[error("{0}")]
    Shell(ShellFault),
    /// The new file would be smaller than the old one.
    #[error("smaller")]
    Smaller,
    /// The table, or a half of it, does not fit into an area of the new file.
    #[error("full")]
    Full,
    /// The spool has the greatest epoch, so no further listing is possible.
    #[error("epoch-end")]
    EpochEnd,
    /// A fault of the folder for the part.
    #[error("{0}")]
    Target(ShellFault),
    /// The disk of the whole spool or that of a half failed while the halves were written.
    #[error("disk")]
    Halves,
    /// The spool has no queue with the name of the edit.
    #[error("queue")]
    Queue,
    /// The spool has no queue with this name.
    #[error("queue")]
    Missing(String),
    /// A job of the queue has not ended.
    #[error("jobs of the queue have not ended")]
    Unended,
    /// A job of the queue has ended and would be removed.
    #[error("the queue has ended jobs, which --purge removes")]
    Ended,
    /// The URI is not that of a device.
    #[error("the URI is not that of a device")]
    BadUri,
    /// The media type is not one.
    #[error("the type is not a media type")]
    BadMedia,
    /// The folder for the part already has a spool.
    #[error("taken")]
    Taken,
    /// Another split of this spool was begun and is not finished.
    #[error("unfinished")]
    Unfinished,
}

impl From<ShellFault> for AdminFault {
    ghost from_gives = { λ fault told. told ≡ Shell fault };

    fn from(fault: ShellFault) -> AdminFault {
        AdminFault::Shell(fault)
    }
}

impl From<AllocError> for AdminFault {
    ghost from_gives = { λ _ told. told ≡ Shell Memory };

    fn from(_error: AllocError) -> AdminFault {
        AdminFault::Shell(ShellFault::Memory)
    }
}

impl From<HalfFault> for AdminFault {
    ghost from_gives = { λ fault told. told ≡ of_half fault };

    fn from(fault: HalfFault) -> AdminFault {
        match fault {
            HalfFault::Memory => AdminFault::Shell(ShellFault::Memory),
            HalfFault::Full => AdminFault::Full,
            HalfFault::Disk => AdminFault::Shell(ShellFault::Disk(DiskCause::Failed)),
        }
    }
}

impl From<EditRefusal> for AdminFault {
    ghost from_gives = { λ refusal told. told ≡ of_refusal refusal };

    fn from(refusal: EditRefusal) -> AdminFault {
        match refusal {
            EditRefusal::NoQueue => AdminFault::Queue,
            EditRefusal::Unended => AdminFault::Unended,
            EditRefusal::Ended => AdminFault::Ended,
        }
    }
}

impl From<EditFault> for AdminFault {
    ghost from_gives = { λ fault told. told ≡ of_edit fault };

    fn from(fault: EditFault) -> AdminFault {
        match fault {
            EditFault::Refused(refusal) => AdminFault::from(refusal),
            EditFault::Memory => AdminFault::Shell(ShellFault::Memory),
            EditFault::Full => AdminFault::Full,
            EditFault::Disk => AdminFault::Shell(ShellFault::Disk(DiskCause::Failed)),
        }
    }
}

impl From<OpenFault> for AdminFault {
    ghost from_gives = { λ fault told. told ≡ Shell (of_opening fault) };

    fn from(fault: OpenFault) -> AdminFault {
        AdminFault::Shell(ShellFault::from(fault))
    }
}

impl From<CheckpointFault> for AdminFault {
    ghost from_gives = { λ fault told. told ≡ of_checkpoint fault };

    fn from(fault: CheckpointFault) -> AdminFault {
        match fault {
            CheckpointFault::EpochEnd => AdminFault::EpochEnd,
            CheckpointFault::Memory => AdminFault::Shell(ShellFault::Memory),
            CheckpointFault::Full => AdminFault::Full,
            CheckpointFault::Dead | CheckpointFault::Disk => {
                AdminFault::Shell(ShellFault::Disk(DiskCause::Failed))
            }
        }
    }
}

/// Converts the result of a call on the folder for the part.
pub fn at_target<T: Drop>(outcome: Result<T, ShellFault>) -> Result<T, AdminFault>
    ensures { result ≡ at_target outcome }
{
    match outcome {
        Ok(value) => Ok(value),
        Err(fault) => Err(AdminFault::Target(fault)),
    }
}

/// Reports how the program ended, on standard error and by its status.
pub fn report_admin_end(
    rt: &HostRuntime,
    asked: &Asked<'_>,
    errors: StreamErrors,
    ended: Result<(), AdminFault>,
) -> ExitCode
    ensures ok { OnOk ended (exit_status result ≡ 0) }
    ensures fault { OnErr ended (exit_status result ≡ 1) }
{
    match ended {
        Ok(()) => ExitCode::SUCCESS,
        Err(fault) => {
            report_admin_fault(rt, asked, errors, &fault);
            ExitCode::FAILURE
        }
    }
}

// Reports a fault, and its cause on the next line.
fn report_admin_fault(
    rt: &HostRuntime,
    asked: &Asked<'_>,
    errors: StreamErrors,
    fault: &AdminFault,
) {
    match fault {
        AdminFault::Shell(fault) => {
            report_fault(rt, GivenNames::of_folder(asked.dir()), errors, fault)
        }
        AdminFault::Target(fault) => report_fault(
            rt,
            GivenNames::of_folder(asked.into_dir()),
            errors,
            fault,
        ),
        _ => {
            let _ = eprintln!(rt; "spool: {fault}");
            if let Ok(Some(cause)) = admin_cause(rt.alloc(), asked, fault) {
                let cause = cause.as_str();
                let _ = eprintln!(rt; "spool: cause: {cause}");
            }
        }
    }
}
