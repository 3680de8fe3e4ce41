//! The outcome of a round.
ghost use Rattle.std.specs.Prelude.{◌≡◌, ◌≤◌};
ghost use Rattle.print_rounds.specs.Counts.{answer_fault, fault_of, launch_fault, report_fault, result_of, started_by, told_by};

use spool_core::ApplyFault;
use spool_types::Reply;

/// The number of children that a round started, and of ends of stages that were acknowledged.
#[derive(Clone, Copy, PartialEq, Eq)]
pub struct Round {
    pub started: usize,
    pub finished: usize,
}

/// The first fault of a round.
#[derive(Clone, Copy, PartialEq, Eq)]
pub enum RoundFault {
    /// An earlier call met a device error, and nothing was done.
    Dead,
    /// A step ran out of memory. The next round makes it.
    Memory,
    /// The area has no room for an event. The next round applies it again.
    Full,
    /// The device failed.
    Disk,
}

/// The outcome of starting the stage of a processing job.
#[derive(Clone, Copy, PartialEq, Eq)]
pub enum Launch {
    /// It was not started: its child's finish is stored.
    Unlaunched,
    /// Whether its child was started.
    Launched(bool),
    /// Memory ran out, and nothing was started.
    NoMemory,
    /// The device failed while the document was read, and nothing was started.
    Disk,
    /// The device had failed before, and nothing was done.
    Dead,
}

/// The outcome of the end of a job's stage.
#[derive(Clone, Copy, PartialEq, Eq)]
pub enum Report {
    /// No stage of the job has ended.
    Silent,
    /// The event ran out of memory. The finish stays in the slot.
    NoMemory,
    /// The answer to the event. If it was not acknowledged, the finish stays in the slot.
    Answered(Result<Reply, ApplyFault>),
}

impl Launch {
    pub(crate) fn fault(&self) -> Option<RoundFault>
        ensures { result ≡ launch_fault self.now }
    {
        match self {
            Launch::NoMemory => Some(RoundFault::Memory),
            Launch::Disk => Some(RoundFault::Disk),
            Launch::Dead => Some(RoundFault::Dead),
            _ => None,
        }
    }

    // The number of children that were started.
    pub(crate) fn started(&self) -> usize
        ensures value { result ≡ started_by self.now }
        ensures at_most { result ≤ 1 }
    {
        match self {
            Launch::Launched(started) => usize::from(*started),
            _ => 0,
        }
    }
}

impl Report {
    pub(crate) fn fault(&self) -> Option<RoundFault>
        ensures { result ≡ report_fault self.now }
    {
        match self {
            Report::Silent => None,
            Report::NoMemory => Some(RoundFault::Memory),
            Report::Answered(answer) => answer_fault(answer),
        }
    }

    // The number of ends that were acknowledged.
    pub(crate) fn told(&self) -> usize
        ensures value { result ≡ told_by self.now }
        ensures at_most { result ≤ 1 }
    {
        match self {
            Report::Answered(answer) => usize::from(answer.is_ok()),
            _ => 0,
        }
    }
}

// The fault in an answer, if any.
pub(crate) fn answer_fault(answer: &Result<Reply, ApplyFault>) -> Option<RoundFault>
    ensures { result ≡ answer_fault answer.now }
{
    match answer {
        Ok(_) => None,
        Err(fault) => fault_of(*fault),
    }
}

// A refusal is no fault of a round, since the pass asks the table first.
fn fault_of(fault: ApplyFault) -> Option<RoundFault>
    ensures { result ≡ fault_of fault }
{
    match fault {
        ApplyFault::Dead => Some(RoundFault::Dead),
        ApplyFault::Refused(_) => None,
        ApplyFault::Memory => Some(RoundFault::Memory),
        ApplyFault::Full => Some(RoundFault::Full),
        ApplyFault::Disk => Some(RoundFault::Disk),
    }
}

impl Round {
    pub(crate) const NONE: Round = Round {
        started: 0,
        finished: 0,
    };

    // Returns the counts, or the fault if there is one.
    pub(crate) fn unless(self, fault: Option<RoundFault>) -> Result<Round, RoundFault>
        ensures { result ≡ result_of self fault }
    {
        match fault {
            None => Ok(self),
            Some(fault) => Err(fault),
        }
    }
}
