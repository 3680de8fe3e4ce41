//! What an accepted event did to a job or to a queue.
ghost use Rattle.std.specs.Prelude.{◌≡◌, cond, IfOk, Ok, Some};
ghost use Rattle.event_records.specs.Deeds.{deed_of, moves_queue};

use spool_types::{Event, JobId, QueueName};
use std::alloc::AllocError;

/// What an accepted event did to its job.
#[derive(Clone, Copy)]
pub enum JobDeed {
    Created,
    /// A part of its document was sent.
    Sent,
    Closed,
    Held,
    Released,
    /// It was canceled, and was not processing.
    Canceled,
    /// It was canceled while it was processing.
    Interrupted,
    /// An attempt was started.
    Started,
    /// A stage of its attempt has ended.
    Ended,
    /// Its attempt was abandoned.
    Abandoned,
    /// The clock has canceled it, because it should have started by then, or has ended its hold.
    Due,
    /// Its row was removed.
    Purged,
}

/// What an accepted event did to its queue.
#[derive(Clone, Copy)]
pub enum QueueDeed {
    Added,
    /// Its descriptions were set.
    Described,
    /// It accepts jobs from now on.
    Accepts,
    /// It rejects jobs from now on.
    Rejects,
    Stopped,
    /// It was started again.
    Resumed,
}

/// What an accepted event did.
#[derive(Drop)]
pub enum Deed {
    Job(JobId, JobDeed),
    Queue(QueueName, QueueDeed),
}

/// Returns what an event does if it is accepted, or `None` for a Clock, which changes any number of jobs, and for Reopen. `processing` is
/// whether the event is about a job that is processing.
pub fn deed_of(event: &Event, processing: bool) -> Result<Option<Deed>, AllocError>
    ensures { IfOk result (λ deed. deed ≡ deed_of processing event.now) }
{
    match event {
        Event::AddQueue(queue) => of_queue(&queue.name, QueueDeed::Added),
        Event::Info(notes) => of_queue(&notes.queue, QueueDeed::Described),
        Event::SetAccept { queue, accepting } => of_queue(queue, accept(*accepting)),
        Event::SetStop { queue, stopped } => of_queue(queue, stop(*stopped)),
        Event::Create(job) | Event::CreateBy { job, .. } => of_job(job.job, JobDeed::Created),
        Event::Send { job, .. } => of_job(*job, JobDeed::Sent),
        Event::Close(closing) => of_job(closing.job, JobDeed::Closed),
        Event::Hold { job, .. } => of_job(*job, JobDeed::Held),
        Event::Release(job) => of_job(*job, JobDeed::Released),
        Event::Cancel(job) => of_job(*job, cancel(processing)),
        Event::Start(job) => of_job(*job, JobDeed::Started),
        Event::Stage(end) => of_job(end.job, JobDeed::Ended),
        Event::Abandon(job) => of_job(*job, JobDeed::Abandoned),
        Event::Purge(job) => of_job(*job, JobDeed::Purged),
        Event::Clock(_) | Event::Reopen => Ok(None),
    }
}

fn of_queue(name: &QueueName, deed: QueueDeed) -> Result<Option<Deed>, AllocError>
    ensures { IfOk result (λ of. of ≡ Some (Deed.Queue name.now deed)) }
{
    Ok(Some(Deed::Queue(name.clone()?, deed)))
}

fn of_job(job: JobId, deed: JobDeed) -> Result<Option<Deed>, AllocError>
    ensures { result ≡ Ok (Some (Deed.Job job deed)) }
{
    Ok(Some(Deed::Job(job, deed)))
}

fn accept(accepting: bool) -> QueueDeed
    ensures { result ≡ cond accepting QueueDeed.Accepts QueueDeed.Rejects }
{
    if accepting {
        QueueDeed::Accepts
    } else {
        QueueDeed::Rejects
    }
}

fn stop(stopped: bool) -> QueueDeed
    ensures { result ≡ cond stopped QueueDeed.Stopped QueueDeed.Resumed }
{
    if stopped {
        QueueDeed::Stopped
    } else {
        QueueDeed::Resumed
    }
}

fn cancel(processing: bool) -> JobDeed
    ensures { result ≡ cond processing JobDeed.Interrupted JobDeed.Canceled }
{
    if processing {
        JobDeed::Interrupted
    } else {
        JobDeed::Canceled
    }
}

impl JobDeed {
    /// Returns whether the event also changes how the job's queue is shown.
    pub fn moves_queue(self) -> bool
        ensures { result ≡ moves_queue self }
    {
        matches!(
            self,
            JobDeed::Interrupted | JobDeed::Started | JobDeed::Ended | JobDeed::Abandoned
        )
    }
}
