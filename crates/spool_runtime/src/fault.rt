//! The errors that end the program with status 1.
ghost use Rattle.std.specs.Prelude.{◌≡◌};
ghost use Rattle.std.specs.IoError.{error_kind};
ghost use Rattle.spool_runtime.specs.ProgramFaults.{IsOfFolder, cause_of, of_error, of_opening, of_run};
ghost use Rattle.spool_runtime.specs.declared.fault.ShellFault.TheVariants.{Memory};

use spool_core::OpenFault;
use spool_engine::RunFault;
use std::alloc::AllocError;
use std::io;
use std::io::ErrorKind;
use thiserror::Error;

/// An error that ends the program with status 1. Its text follows `spool: ` on standard error.
#[derive(Debug, Drop, Error)]
pub enum ShellFault {
    /// The file of this name cannot be read, is not UTF-8, or is a file of programs with an invalid line.
    #[error("file {0}")]
    File(String),
    /// The disk contains no spool.
    #[error("not-a-spool")]
    NotASpool,
    /// The spool is damaged at this byte offset of the disk.
    #[error("damaged {0}")]
    Damaged(u64),
    /// Out of memory.
    #[error("memory")]
    Memory,
    /// The disk failed, another program owns it, or its file cannot be opened or made.
    #[error("disk")]
    Disk(DiskCause),
    /// The commands cannot be read.
    #[error("read")]
    Read,
    /// The replies cannot be written.
    #[error("write")]
    Write,
    /// The clients' socket cannot be made or waited on.
    #[error("socket")]
    Socket,
    /// There are programs to run, but SIGCHLD is ignored, so their ends cannot be known.
    #[error("sigchld-ignored")]
    Ignored,
    /// The children cannot run as the users of the arguments.
    #[error("children-user")]
    Users,
}

/// Why the spool's disk, its file or its folder cannot be used.
#[derive(Clone, Copy, Debug, Drop, Error, PartialEq, Eq)]
pub enum DiskCause {
    /// Another program owns it.
    #[error("owned")]
    Owned,
    /// Its lock excludes nobody, so another program may own it.
    #[error("owner unknown")]
    OwnerUnknown,
    #[error("absent")]
    Absent,
    #[error("not allowed")]
    NotAllowed,
    #[error("read-only")]
    ReadOnly,
    #[error("no room")]
    NoRoom,
    /// The name belongs to something other than a folder or a file, or the file has several names.
    #[error("no file")]
    NoFile,
    /// The device, or a call on it, failed.
    #[error("failed")]
    Failed,
}

impl From<AllocError> for ShellFault {
    ghost from_gives = { λ _ fault. fault ≡ Memory };

    fn from(_error: AllocError) -> ShellFault {
        ShellFault::Memory
    }
}

/// Converts an error of the spool's folder or of its file.
impl From<io::Error> for ShellFault {
    ghost from_gives = { λ error fault. (fault ≡ of_error (error_kind error)) × IsOfFolder fault };

    fn from(error: io::Error) -> ShellFault {
        if error.kind() == ErrorKind::OutOfMemory {
            ShellFault::Memory
        } else {
            ShellFault::Disk(cause_of(error.kind()))
        }
    }
}

// Returns the cause that the kind of an error shows, of the folder or of its file.
fn cause_of(kind: ErrorKind) -> DiskCause
    ensures { result ≡ cause_of kind }
{
    match kind {
        ErrorKind::NotFound => DiskCause::Absent,
        ErrorKind::PermissionDenied => DiskCause::NotAllowed,
        ErrorKind::ReadOnlyFilesystem => DiskCause::ReadOnly,
        ErrorKind::StorageFull | ErrorKind::QuotaExceeded => DiskCause::NoRoom,
        ErrorKind::NotADirectory | ErrorKind::IsADirectory | ErrorKind::FilesystemLoop => {
            DiskCause::NoFile
        }
        _ => DiskCause::Failed,
    }
}

impl From<OpenFault> for ShellFault {
    ghost from_gives = { λ fault told. told ≡ of_opening fault };

    fn from(fault: OpenFault) -> ShellFault {
        match fault {
            OpenFault::NotASpool => ShellFault::NotASpool,
            OpenFault::Damaged(place) => ShellFault::Damaged(place),
            OpenFault::Memory => ShellFault::Memory,
            OpenFault::Disk => ShellFault::Disk(DiskCause::Failed),
        }
    }
}

impl From<RunFault> for ShellFault {
    ghost from_gives = { λ fault told. told ≡ of_run fault };

    fn from(fault: RunFault) -> ShellFault {
        match fault {
            RunFault::Read => ShellFault::Read,
            RunFault::Write => ShellFault::Write,
            RunFault::Memory => ShellFault::Memory,
        }
    }
}
