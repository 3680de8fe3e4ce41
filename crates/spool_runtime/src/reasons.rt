//! Logs why a stage failed, as far as the launcher knows: a line for each failure that the child did not explain
//! itself.
ghost use Rattle.std.specs.Prelude.{◌≡◌, ◌<◌, ◌≤◌, IfOk, IfSome, Some, false, length};
ghost use Rattle.std.specs.List.{list_any};
ghost use Rattle.stderr_lines.specs.Reports.{report_of};
ghost use Rattle.spool_types.specs.Limits.{longest_document};
ghost use Rattle.spool_runtime.specs.FailureReasons.{bad_end, is_filter, is_message, may_pass, name_of};

use crate::shortage::Shortage;
use child_pipeline::{Finish, Program};
use log::{Log, error};
use program_fitness::Obstacle;
use spool_types::{AttemptNumber, Effect, Exit, JobId, LONGEST_DOCUMENT, StageNumber};
use std::alloc::{AllocError, Global};
use stderr_lines::Lines;
use thiserror::Error;

/// Why a stage failed. Its text is the end of the line that is logged.
#[derive(Clone, Copy, Debug, Drop, Error, PartialEq, Eq)]
pub(crate) enum Reason {
    #[error("not listed in the programs file")]
    Unlisted,
    #[error("{0}")]
    Unfit(Obstacle),
    #[error("not started: out of {0}")]
    Short(Shortage),
    #[error("not started: refused by the system")]
    Refused,
    #[error("not started: the outcome of an earlier child is unknown")]
    Blind,
    #[error("outcome unknown")]
    NoEnd,
    #[error("output cannot be read")]
    Unread,
    #[error("no space left in the folder, output may be truncated")]
    Cut,
    #[error("no space left in the folder when it ended")]
    NoRoom,
    #[error("its folder cannot be removed")]
    LeftFolder,
    #[error("output exceeds {0} bytes")]
    LongOutput(usize),
    #[error("ended with status {0}, no error message")]
    Status(u8),
    #[error("killed by a signal, no error message")]
    Signal,
}

impl Reason {
    /// Returns whether the reason may pass in a moment.
    pub fn may_pass(self) -> bool
        ensures { result ≡ may_pass self }
    {
        matches!(self, Reason::Short(_))
    }
}

/// A stage that is run, as the log names it.
#[derive(Drop)]
pub(crate) struct StageRun {
    pub job: JobId,
    pub attempt: AttemptNumber,
    pub stage: StageNumber,
    pub program: Program,
}

impl StageRun {
    /// Logs why the stage failed.
    pub fn log_reason<L: Log>(&self, log: &L, reason: Reason) {
        let job = self.job.get();
        let attempt = self.attempt.get();
        let stage = self.stage.get();
        let name = self.name();
        error!(log; "job {job} attempt {attempt} stage {stage} {name}: {reason}");
    }

    pub fn is_filter(&self) -> bool
        ensures { result ≡ is_filter self.now.program }
    {
        matches!(self.program, Program::Filter(_))
    }

    // Returns the name of its program in the file of programs.
    fn name(&self) -> &str
        ensures { result.now ≡ name_of self.now.program }
    {
        match &self.program {
            Program::Filter(name) => name.as_str(),
            Program::Backend(scheme) => scheme.as_str(),
        }
    }
}

/// Returns why the stage with this finish failed, if only the launcher can report it. If memory runs out while its
/// standard error is read, it counts as without a message.
pub(crate) fn reason_of(alloc: Global, finish: &Finish) -> Option<Reason>
    ensures long { longest_document < length finish.now.output → result ≡ Some (Reason.LongOutput longest_document) }
    ensures silent { length finish.now.output ≤ longest_document → list_any is_message (report_of finish.now.errors).effects ≡ false → result ≡ bad_end finish.now.exit }
    ensures bad { length finish.now.output ≤ longest_document → IfSome result (λ reason. bad_end finish.now.exit ≡ Some reason) }
{
    if LONGEST_DOCUMENT < finish.output.as_slice().len() {
        return Some(Reason::LongOutput(LONGEST_DOCUMENT));
    }
    let reason = bad_end(finish.exit)?;
    match says_why(alloc, finish.errors.as_slice()) {
        Ok(true) => None,
        _ => Some(reason),
    }
}

// Returns the reason to report for an exit that is not a success.
fn bad_end(exit: Exit) -> Option<Reason>
    ensures { result ≡ bad_end exit }
{
    match exit {
        Exit::Code(0) => None,
        Exit::Code(code) => Some(Reason::Status(code)),
        Exit::Signal => Some(Reason::Signal),
        Exit::NoStart | Exit::Lost => None,
    }
}

// Returns whether standard error has a message for the queue.
fn says_why(alloc: Global, errors: &[u8]) -> Result<bool, AllocError>
    ensures { IfOk result (λ says. says ≡ list_any is_message (report_of errors.now).effects) }
{
    let mut lines = Lines::new(alloc);
    lines.feed(errors)?;
    let report = lines.finish()?;
    Ok(report.effects.iter().any(is_message))
}

fn is_message(effect: &Effect) -> bool
    ensures { result ≡ is_message effect.now }
{
    matches!(effect, Effect::Message { .. })
}
