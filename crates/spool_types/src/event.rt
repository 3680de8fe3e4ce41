//! Events, and the replies to them.
use crate::effect::Exit;
use crate::effects::Effects;
use crate::items::{Filters, Piece};
use crate::kinds::{Note, OptionText, QueueName, Title, Uri, UserName};
use crate::media::MediaType;
use crate::numbers::{JobId, Moment};
use crate::phase::{Phase, Policy};
use crate::ranged::{AttemptNumber, Copies, Interval, Priority, StageNumber};

/// A queue to be added.
#[derive(Drop)]
pub struct NewQueue {
    pub name: QueueName,
    pub uri: Uri,
    pub target: MediaType,
    pub policy: Policy,
    pub interval: Interval,
    pub limit: u16,
}

/// Descriptions of a queue (printer-info and printer-location, RFC 8011).
#[derive(Drop)]
pub struct QueueNotes {
    pub queue: QueueName,
    pub info: Note,
    pub location: Note,
}

/// A job to be created.
#[derive(Drop)]
pub struct NewJob {
    pub queue: QueueName,
    pub job: JobId,
    pub user: UserName,
    pub title: Title,
    pub copies: Copies,
    pub priority: Priority,
    pub options: OptionText,
}

/// The end of a document: its media type, and the filters that convert it to the queue's target, or `None` if no
/// filters do.
#[derive(Drop)]
pub struct Closing {
    pub job: JobId,
    pub media: MediaType,
    pub filters: Option<Filters>,
}

/// The end of a stage of a job's attempt.
#[derive(Drop)]
pub struct StageEnd {
    pub job: JobId,
    pub attempt: AttemptNumber,
    pub stage: StageNumber,
    pub exit: Exit,
    /// The number of effects of standard error that were dropped because the codes of one stage's effects have a
    /// maximum size (`Effects::MOST_BYTES`).
    pub dropped: u32,
    /// The effects of the child's standard error on the job and its queue.
    pub effects: Effects,
}

/// A change of the table.
#[derive(Drop)]
pub enum Event {
    AddQueue(NewQueue),
    /// Sets the descriptions of a queue.
    Info(QueueNotes),
    /// Makes a queue accept or reject new jobs (cupsaccept(8)).
    SetAccept { queue: QueueName, accepting: bool },
    /// Stops a queue, or starts it again (cupsenable(8)).
    SetStop { queue: QueueName, stopped: bool },
    Create(NewJob),
    /// Creates a job that must start by a moment. A `Clock` event after that moment cancels the job if it is still
    /// waiting.
    CreateBy { job: NewJob, by: Moment },
    Send { job: JobId, bytes: Piece },
    Close(Closing),
    /// Holds a job until a moment, or with `None` until it is released.
    Hold { job: JobId, until: Option<Moment> },
    Release(JobId),
    Cancel(JobId),
    Clock(Moment),
    /// Begins a job's next attempt.
    Start(JobId),
    /// Reports the end of a stage.
    Stage(StageEnd),
    /// Abandons an attempt. The queue's error policy decides what happens to the job (ErrorPolicy, cupsd.conf(5)).
    Abandon(JobId),
    /// Abandons every attempt, because the spooler was restarted.
    Reopen,
    /// Removes the row of an ended job. Its number is not assigned again.
    Purge(JobId),
}

/// The reply to an accepted event.
#[derive(Clone, Copy, Debug, PartialEq, Eq)]
pub enum Reply {
    Done,
    /// The number of a new job.
    Number(JobId),
    /// The size of a document in bytes.
    Size(u32),
    /// The job's phase after the event.
    Phase(Phase),
}
