//! Changes of a job by a client that may change it.
ghost use Rattle.std.specs.Prelude.{◌≡◌, true, false, IfOk};
ghost use Rattle.ipp_tasks.specs.Answers.{MayAnswer, is_no_change, is_success, prints};

use crate::tasks::{Outcome, Task, Work, done, is_of};
use filter_args::Options;
use front_texts::JobShown;
use ipp_access::{Place, may_change, place_of};
use ipp_facts::shown_in;
use ipp_names::Status;
use ipp_options::Hold;
use ipp_printing::{hold_line, job_line};
use std::alloc::{AllocError, Global};

/// A change of a job.
#[derive(Drop)]
pub enum ChangeKind {
    Cancel,
    Hold(Hold),
    /// The job takes no document.
    Nothing,
}

impl ChangeKind {
    // Returns the status of the answer to a client that may change the job.
    fn status(&self) -> Status
        ensures { is_no_change self.now ≡ true → is_success result ≡ false }
    {
        match self {
            ChangeKind::Nothing => Status::NotPossible,
            _ => Status::SuccessfulOk,
        }
    }
}

/// A job that is changed.
#[derive(Drop)]
pub struct JobChange {
    pub job: u32,
    /// The queue whose job it must be.
    pub queue: Option<String>,
    pub kind: ChangeKind,
    /// Whether the client may change the job.
    pub is_allowed: bool,
}

impl Task {
    /// Takes the fields of the job, and then the reply to the change.
    pub(crate) fn heard_change(
        &mut self,
        alloc: Global,
        rows: &[Vec<u8>],
    ) -> Result<Outcome, AllocError>
        ensures { prints self.old ≡ true → IfOk result (MayAnswer self.new) }
    {
        let Work::ChangeJob(change) = &mut self.work else {
            return Ok(Outcome::Going);
        };
        if change.is_allowed {
            return Ok(done(alloc, change.kind.status()));
        }
        let Some(shown) = shown_in(alloc, rows)? else {
            return Ok(done(alloc, Status::InternalError));
        };
        if !is_of(&change.queue, shown.asked.queue.as_str()) {
            return Ok(done(alloc, Status::NotFound));
        }
        if !may_be_changed(alloc, self.place, self.user.as_str(), &shown)? {
            return Ok(done(alloc, Status::NotAuthorized));
        }
        drop(shown);
        change.is_allowed = true;
        let command = match &change.kind {
            ChangeKind::Cancel => job_line(alloc, "stop", change.job)?,
            ChangeKind::Hold(hold) => hold_line(alloc, change.job, hold)?,
            ChangeKind::Nothing => return Ok(done(alloc, Status::NotPossible)),
        };
        self.going(command)
    }
}

/// Returns whether a client of this place, which names this user, may change a job.
pub fn may_be_changed(
    alloc: Global,
    place: Place,
    user: &str,
    job: &JobShown,
) -> Result<bool, AllocError> {
    let is_named = job.asked.user.as_str() == user;
    let made = place_in(alloc, job.asked.options.as_str())?;
    Ok(may_change(place, is_named, made))
}

// Returns the place of the client that made the job with these options, if the front has made it.
fn place_in(alloc: Global, options: &str) -> Result<Option<Place>, AllocError> {
    match Options::parse(alloc, options) {
        Ok(options) => match options.get("submission") {
            Some(token) => Ok(place_of(token)),
            None => Ok(None),
        },
        Err(filter_args::OptionFault::Memory) => Err(AllocError),
        Err(_) => Ok(None),
    }
}
