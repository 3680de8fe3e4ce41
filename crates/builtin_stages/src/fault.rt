//! The faults of the tools.
ghost use Rattle.std.specs.Prelude.{◌≡◌};
ghost use Rattle.builtin_stages.specs.ToolEnding.{error_line, fault_status};
ghost use Rattle.builtin_stages.specs.declared.fault.ToolFault.TheVariants.{Memory, Write};

use std::alloc::AllocError;
use std::io;
use whole_writes::WriteFault;

/// The line for a file that cannot be read, without its name.
pub(crate) const UNREAD: &str = "ERROR: cannot read\n";

/// Why a tool fails.
#[derive(Clone, Copy)]
pub enum ToolFault {
    /// The document cannot be read.
    Read(io::Error),
    /// The output cannot be written.
    Write,
    /// A required variable is missing, or DEVICE_URI names no file.
    Device,
    /// The side channel does not answer.
    Side,
    /// The partner was not found.
    Partner,
    /// The printer cannot be reached, or its host is unknown.
    Connect,
    /// The printer reset the connection at once.
    Reset,
    /// The option `waiteof` is neither `true` nor `false`.
    WaitEof,
    /// The option `afterlast` is neither `done` nor `retry`.
    AfterLast,
    /// The file of a chain cannot be read.
    ChainFile(io::Error),
    /// The file of a chain is no chain.
    Chain,
    /// Memory ran out.
    Memory,
}

impl ToolFault {
    /// Returns the line that reports the fault on standard error (filter(7)), with its line feed. It names no file.
    pub fn error_line(self) -> &'static str
        ensures { result.now ≡ error_line self }
    {
        match self {
            ToolFault::Read(_) | ToolFault::ChainFile(_) => UNREAD,
            ToolFault::Write => "ERROR: cannot write\n",
            ToolFault::Device => "ERROR: no device\n",
            ToolFault::Side => "ERROR: no answer\n",
            ToolFault::Partner => "ERROR: no partner\n",
            ToolFault::Connect => "ERROR: cannot connect\n",
            ToolFault::Reset => "ERROR: connection reset\n",
            ToolFault::WaitEof => "ERROR: waiteof is not true or false\n",
            ToolFault::AfterLast => "ERROR: afterlast is not done or retry\n",
            ToolFault::Chain => "ERROR: no chain of programs\n",
            ToolFault::Memory => "ERROR: out of memory\n",
        }
    }
}

impl ToolFault {
    /// Returns the exit status (backend(7)): 6 if a later attempt may reach the printer, 4 if an option of the URI or a chain must be corrected
    /// first, otherwise 1.
    pub fn status(self) -> u8
        ensures { result ≡ fault_status self }
    {
        match self {
            ToolFault::Connect => 6,
            ToolFault::WaitEof
            | ToolFault::AfterLast
            | ToolFault::ChainFile(_)
            | ToolFault::Chain => 4,
            _ => 1,
        }
    }
}

impl From<AllocError> for ToolFault {
    ghost from_gives = { λ _ fault. fault ≡ Memory };

    fn from(_error: AllocError) -> ToolFault {
        ToolFault::Memory
    }
}

impl From<WriteFault> for ToolFault {
    ghost from_gives = { λ _ fault. fault ≡ Write };

    fn from(_fault: WriteFault) -> ToolFault {
        ToolFault::Write
    }
}
