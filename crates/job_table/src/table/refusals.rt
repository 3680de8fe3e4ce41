//! The reasons for refusing an event. The causes are checked in order, and the first that applies decides.
ghost use Rattle.std.specs.Prelude.{◌≡◌, Bool, true, false, not, List, [], ◌∷◌, Some, IfOk, IfErr};
ghost use Rattle.std.specs.Result.{result_err};
ghost use Rattle.spool_types.specs.declared.event.Closing.{Closing};
ghost use Rattle.spool_types.specs.declared.refusal.Refusal.{Refusal};
ghost use Rattle.spool_types.specs.Phases.{has_ended, is_incoming, is_processing, is_waiting};
ghost use Rattle.spool_types.specs.State.{job_at};
ghost use Rattle.job_table.specs.Shapes.{about_job, about_queue, where_it};
ghost use Rattle.job_table.specs.Step.{creation, first_cause, refusal_of};

use super::Table;
use crate::store::is_in_stage;
use spool_types::{
    Event, Job, JobId, LONGEST_DOCUMENT, MOST_QUEUES, Moment, NewJob, NewQueue, Piece, QueueName,
    QueueNotes, Refusal, StageEnd, Version,
};

impl Table {
    // Returns why the event is refused, if it is.
    pub(super) fn refusal(&self, event: &Event) -> Option<Refusal>
        ensures { result ≡ refusal_of self.now.state event.now }
    {
        match event {
            Event::AddQueue(queue) => self.add_queue_refusal(queue),
            Event::Info(notes) => self.info_refusal(notes),
            Event::SetAccept { queue, accepting } => self.set_accept_refusal(queue, *accepting),
            Event::SetStop { queue, stopped } => self.set_stop_refusal(queue, *stopped),
            Event::Create(job) => self.create_refusal(job, None),
            Event::CreateBy { job, by } => self.create_refusal(job, Some(*by)),
            Event::Send { job, bytes } => self.send_refusal(*job, bytes),
            Event::Close(closing) => self.close_refusal(closing.job),
            Event::Hold { job, .. } => self.idle_job(*job).err(),
            Event::Release(job) => self.release_refusal(*job),
            Event::Cancel(job) => self.live_job(*job).err(),
            Event::Clock(_) | Event::Reopen => None,
            Event::Start(job) => self.start_refusal(*job),
            Event::Stage(end) => self.stage_refusal(end),
            Event::Abandon(job) => self.processing_job(*job).err(),
            Event::Purge(job) => self.purge_refusal(*job),
        }
    }

    fn add_queue_refusal(&self, queue: &NewQueue) -> Option<Refusal>
        ensures { result ≡ refusal_of self.now.state (Event.AddQueue queue.now) }
    {
        if self.queue(&queue.name).is_some() {
            return Some(Refusal::QueueExists);
        }
        if MOST_QUEUES <= self.queue_count() {
            return Some(Refusal::TooManyQueues);
        }
        None
    }

    fn info_refusal(&self, notes: &QueueNotes) -> Option<Refusal>
        ensures { result ≡ refusal_of self.now.state (Event.Info notes.now) }
    {
        self.no_queue_refusal(&notes.queue)
    }

    fn set_accept_refusal(&self, queue: &QueueName, accepting: bool) -> Option<Refusal>
        ensures { result ≡ refusal_of self.now.state (Event.SetAccept queue.now accepting) }
    {
        self.no_queue_refusal(queue)
    }

    fn set_stop_refusal(&self, queue: &QueueName, stopped: bool) -> Option<Refusal>
        ensures { result ≡ refusal_of self.now.state (Event.SetStop queue.now stopped) }
    {
        self.no_queue_refusal(queue)
    }

    // For events about a queue that are refused only if the queue does not exist.
    fn no_queue_refusal(&self, queue: &QueueName) -> Option<Refusal>
        ensures { result ≡ first_cause (about_queue self.now.state queue.now []) }
    {
        match self.queue(queue) {
            Some(_) => None,
            None => Some(Refusal::NoQueue),
        }
    }

    fn create_refusal(&self, job: &NewJob, by: Option<Moment>) -> Option<Refusal>
        ensures { result ≡ refusal_of self.now.state (creation job.now by) }
    {
        if by.is_some() && self.version() == Version::One {
            return Some(Refusal::NeedsCheckpoint);
        }
        let Some(queue) = self.queue(&job.queue) else {
            return Some(Refusal::NoQueue);
        };
        if !queue.accepting {
            return Some(Refusal::NotAccepting);
        }
        if JobId::GREATEST <= self.highest() {
            return Some(Refusal::NoNumberLeft);
        }
        if job.job.get() <= self.highest() {
            return Some(Refusal::OldNumber);
        }
        None
    }

    fn send_refusal(&self, job: JobId, bytes: &Piece) -> Option<Refusal>
        ensures { result ≡ refusal_of self.now.state (Event.Send job bytes.now) }
    {
        match self.incoming_job(job) {
            Ok(row) if LONGEST_DOCUMENT < row.size as usize + bytes.as_slice().len() => {
                Some(Refusal::TooLong)
            }
            Ok(_) => None,
            Err(refusal) => Some(refusal),
        }
    }

    /// Returns why a Close of this job would be refused whatever its media type and filters are, or None if it would be
    /// accepted.
    pub fn close_refusal(&self, job: JobId) -> Option<Refusal>
        ensures { (c : Closing) → c.job ≡ job → result ≡ refusal_of self.now.state (Event.Close c) }
    {
        self.incoming_job(job).err()
    }

    fn release_refusal(&self, job: JobId) -> Option<Refusal>
        ensures { result ≡ refusal_of self.now.state (Event.Release job) }
    {
        match self.idle_job(job) {
            Ok(row) if row.phase.hold().is_in_force(self.now()) => None,
            Ok(_) => Some(Refusal::NotHeld),
            Err(refusal) => Some(refusal),
        }
    }

    fn start_refusal(&self, job: JobId) -> Option<Refusal>
        ensures { result ≡ refusal_of self.now.state (Event.Start job) }
    {
        match self.waiting_job(job) {
            Ok(row) if !self.is_next(row) => Some(Refusal::NotNext),
            Ok(_) => None,
            Err(refusal) => Some(refusal),
        }
    }

    fn stage_refusal(&self, end: &StageEnd) -> Option<Refusal>
        ensures { result ≡ refusal_of self.now.state (Event.Stage end.now) }
    {
        match self.processing_job(end.job) {
            Ok(row) if !is_in_stage(row.phase, end.attempt, end.stage) => Some(Refusal::WrongStage),
            Ok(_) => None,
            Err(refusal) => Some(refusal),
        }
    }

    fn purge_refusal(&self, job: JobId) -> Option<Refusal>
        ensures { result ≡ refusal_of self.now.state (Event.Purge job) }
    {
        if self.version() == Version::One {
            return Some(Refusal::NeedsCheckpoint);
        }
        match self.job(job) {
            None => Some(Refusal::NoJob),
            Some(row) if row.job.phase.has_ended() => None,
            Some(_) => Some(Refusal::NotEnded),
        }
    }

    // Returns the row of a job that is still incoming, or the refusal.
    fn incoming_job(&self, job: JobId) -> Result<&Job, Refusal>
        ensures found { IfOk result (λ r. job_at self.now.state job ≡ Some r.now) }
        ensures live { IfOk result (λ r. has_ended r.now.phase ≡ false) }
        ensures incoming { IfOk result (λ r. is_incoming r.now.phase ≡ true) }
        ensures refused { (rest : List (Bool × Refusal)) → IfErr result (λ x. first_cause (about_job self.now.state job (
            where_it (job_at self.now.state job) (λ r. not (is_incoming r.phase)) Refusal.NotIncoming ∷ rest)) ≡ Some x) }
        ensures told { result_err result ≡ first_cause (about_job self.now.state job (where_it (job_at self.now.state job) (λ r. not (is_incoming r.phase)) Refusal.NotIncoming ∷ [])) }
    {
        match self.live_job(job) {
            Ok(row) if !row.phase.is_incoming() => Err(Refusal::NotIncoming),
            found => found,
        }
    }

    // Returns the row of a job that is waiting or still incoming, or the refusal.
    fn idle_job(&self, job: JobId) -> Result<&Job, Refusal>
        ensures found { IfOk result (λ r. job_at self.now.state job ≡ Some r.now) }
        ensures live { IfOk result (λ r. has_ended r.now.phase ≡ false) }
        ensures idle { IfOk result (λ r. is_processing r.now.phase ≡ false) }
        ensures refused { (rest : List (Bool × Refusal)) → IfErr result (λ x. first_cause (about_job self.now.state job (
            where_it (job_at self.now.state job) (λ r. is_processing r.phase) Refusal.NotWaiting ∷ rest)) ≡ Some x) }
        ensures told { result_err result ≡ first_cause (about_job self.now.state job (where_it (job_at self.now.state job) (λ r. is_processing r.phase) Refusal.NotWaiting ∷ [])) }
    {
        match self.live_job(job) {
            Ok(row) if row.phase.is_processing() => Err(Refusal::NotWaiting),
            found => found,
        }
    }

    // Returns the row of a waiting job, or the refusal.
    fn waiting_job(&self, job: JobId) -> Result<&Job, Refusal>
        ensures found { IfOk result (λ r. job_at self.now.state job ≡ Some r.now) }
        ensures live { IfOk result (λ r. has_ended r.now.phase ≡ false) }
        ensures waiting { IfOk result (λ r. is_waiting r.now.phase ≡ true) }
        ensures refused { (rest : List (Bool × Refusal)) → IfErr result (λ x. first_cause (about_job self.now.state job (
            where_it (job_at self.now.state job) (λ r. not (is_waiting r.phase)) Refusal.NotWaiting ∷ rest)) ≡ Some x) }
    {
        match self.live_job(job) {
            Ok(row) if !row.phase.is_waiting() => Err(Refusal::NotWaiting),
            found => found,
        }
    }

    // Returns the row of a processing job, or the refusal.
    fn processing_job(&self, job: JobId) -> Result<&Job, Refusal>
        ensures found { IfOk result (λ r. job_at self.now.state job ≡ Some r.now) }
        ensures live { IfOk result (λ r. has_ended r.now.phase ≡ false) }
        ensures processing { IfOk result (λ r. is_processing r.now.phase ≡ true) }
        ensures refused { (rest : List (Bool × Refusal)) → IfErr result (λ x. first_cause (about_job self.now.state job (
            where_it (job_at self.now.state job) (λ r. not (is_processing r.phase)) Refusal.NotProcessing ∷ rest)) ≡ Some x) }
        ensures told { result_err result ≡ first_cause (about_job self.now.state job (where_it (job_at self.now.state job) (λ r. not (is_processing r.phase)) Refusal.NotProcessing ∷ [])) }
    {
        match self.live_job(job) {
            Ok(row) if !row.phase.is_processing() => Err(Refusal::NotProcessing),
            found => found,
        }
    }

    // Returns the row of a job that has not ended, or the refusal.
    fn live_job(&self, job: JobId) -> Result<&Job, Refusal>
        ensures found { IfOk result (λ r. job_at self.now.state job ≡ Some r.now) }
        ensures live { IfOk result (λ r. has_ended r.now.phase ≡ false) }
        ensures refused { (rest : List (Bool × Refusal)) → IfErr result (λ x. first_cause (about_job self.now.state job rest) ≡ Some x) }
        ensures told { result_err result ≡ first_cause (about_job self.now.state job []) }
    {
        match self.job(job) {
            None => Err(Refusal::NoJob),
            Some(row) if row.job.phase.has_ended() => Err(Refusal::JobEnded),
            Some(row) => Ok(&row.job),
        }
    }
}
