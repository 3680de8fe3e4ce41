//! Why a task fails.
ghost use Rattle.std.specs.Prelude.{◌≡◌, ◌==◌, IfOk, codes, cond};
ghost use Rattle.std.specs.IoError.{error_kind};
ghost use Rattle.spool_front.specs.TaskFaults.{IsNamed, gone_by, status_of, unwritten_by};

use crate::connection::ConnectionFault;
use clean_texts::clean;
use refusal_sentences::sentence_of;
use std::alloc::{AllocError, AllocFailed, Global};
use std::io::{self, ErrorKind};
use thiserror::Error;

/// Why a task fails. Its message is clean: the texts of a service and of files are printed with U+FFFD for each character that steers a
/// terminal.
#[derive(Debug, Drop, Error)]
pub enum Fault {
    #[error("out of memory")]
    Memory,
    /// No service can be reached at this socket. The second text is the system's reason.
    #[error("cannot connect to {socket}: {why}", socket = clean(.0.as_str()), why = .1.as_str())]
    Nobody(String, String),
    /// The service at this socket had no place for the client, as often as it was asked.
    #[error("the service at {0} is busy")]
    Busy(String),
    /// The connection was lost while waiting for lines from the service.
    #[error("the connection to the service was lost")]
    Gone,
    /// The connection was lost before the service replied to a command that changes something.
    #[error("the connection was lost before the service replied; the command may have been executed")]
    Unknown,
    /// The service refused the command. The text is its reply, and the message the sentence about it.
    #[error("{text}", text = clean(sentence_of(.0.as_str())))]
    Refused(String),
    /// The service refused the command. The text names its object, and explains why.
    #[error("{text}", text = clean(.0.as_str()))]
    Explained(String),
    /// Standard output or standard error cannot be written.
    #[error("cannot write the output")]
    Write,
    /// A file cannot be read. The second text is the system's reason.
    #[error("cannot read {file}: {why}", file = clean(.0.as_str()), why = .1.as_str())]
    File(String, String),
    /// A file cannot be written. The second text is the system's reason.
    #[error("cannot write {file}: {why}", file = clean(.0.as_str()), why = .1.as_str())]
    NotWritten(String, String),
    /// A line of a file is invalid.
    #[error("{file} is invalid", file = clean(.0.as_str()))]
    Invalid(String),
    /// The task cannot be done for this queue.
    #[error("{what} {name}", what = .0, name = clean(.1.as_str()))]
    Named(&'static str, String),
    /// The task cannot be done as requested.
    #[error("{0}")]
    Words(&'static str),
}

impl Fault {
    /// Returns the exit status of the program.
    pub fn status(&self) -> u8
        ensures { result ≡ status_of self.now }
    {
        match self {
            Fault::Unknown => 3,
            _ => 1,
        }
    }
}

/// Returns the status of several actions, which is that of the first one that failed. `status` is that of the actions so far, `next` that
/// of the next one.
pub fn first_failure(status: u8, next: u8) -> u8
    ensures { result ≡ cond (status == 0) next status }
{
    if status == 0 { next } else { status }
}

/// Returns the fault of a queue that does not exist.
pub fn unknown_queue(alloc: Global, name: &str) -> Result<Fault, AllocError>
    ensures { IfOk result (λ fault. IsNamed (codes "no such queue:") name.now fault) }
{
    Ok(Fault::Named("no such queue:", String::from_str(alloc, name)?))
}

impl From<AllocError> for Fault {
    ghost use Rattle.spool_front.specs.declared.fault.Fault.TheVariants.{Memory};

    ghost from_gives = { λ _ fault. fault ≡ Memory };

    fn from(_error: AllocError) -> Fault {
        Fault::Memory
    }
}

impl<T: Drop> From<AllocFailed<T>> for Fault {
    ghost use Rattle.spool_front.specs.declared.fault.Fault.TheVariants.{Memory};

    ghost from_gives = { λ _ fault. fault ≡ Memory };

    fn from(_error: AllocFailed<T>) -> Fault {
        Fault::Memory
    }
}

impl From<ConnectionFault> for Fault {
    ghost from_gives = { λ fault told. told ≡ gone_by fault };

    fn from(fault: ConnectionFault) -> Fault {
        match fault {
            ConnectionFault::Lost => Fault::Gone,
            ConnectionFault::Memory => Fault::Memory,
        }
    }
}

/// An error on standard output or standard error.
impl From<io::Error> for Fault {
    ghost from_gives = { λ error fault. fault ≡ unwritten_by (error_kind error) };

    fn from(error: io::Error) -> Fault {
        if error.kind() == ErrorKind::OutOfMemory {
            Fault::Memory
        } else {
            Fault::Write
        }
    }
}
