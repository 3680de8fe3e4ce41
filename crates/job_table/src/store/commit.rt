//! The changes that an accepted event makes to the rows.
ghost use Rattle.std.specs.Prelude.{◌≡◌, ◌+◌, ◌<◌, ◌^◌, true, None, Some, Ok};
ghost use Rattle.job_table.specs.EventChanges.{change_job};
ghost use Rattle.job_table.specs.Step.{creation, refusal_of, step, after, reply_to};
ghost use Rattle.job_table.specs.RowChanges.{meant, EndsInEnd, IsAsked, IsOfRows};
ghost use Rattle.job_table.specs.Contents.{IsPrepared, HasNoMore, HasPlace, KeepsPlaces, AddsPlaces, document_room};
ghost use Rattle.spool_types.specs.Phases.{has_ended};
ghost use Rattle.spool_types.specs.Sent.{bytes_behind, sent_by};
ghost use Rattle.spool_types.specs.State.{job_at};

use super::Store;
use super::lookup::queue_position;
use super::row_changes::{
    RowChange, add_bytes, change_row, new_job_row, new_queue_row, set_accepting, set_notes,
    set_stopped,
};
use spool_types::{
    Event, Hold, JobId, JobRow, Moment, NewJob, NewQueue, Phase, Piece, QueueName, QueueNotes,
    Reply,
};

impl Store {
    /// Changes the rows by the event just prepared. Does not allocate and always succeeds. `at` is the place of the
    /// event's payload.
    #[tactic(auto, using(crate::proofs::RowChanges::asked))]
    pub(crate) fn commit(&mut self, event: Event, at: u64) -> Reply
        requires prepared { IsPrepared self.old event }
        requires one { IsOfRows event }
        requires at { HasPlace at (sent_by event) }
        ensures step { step self.old.state event ≡ Ok (self.new.state, result) }
        ensures places { AddsPlaces at (sent_by event) self.old self.new }

        // Uses at most the reserved room.
        ensures room { HasNoMore self.old.room self.new.room }
    {
        match event {
            Event::AddQueue(queue) => self.add_queue(queue),
            Event::Info(notes) => self.info(notes),
            Event::SetAccept { queue, accepting } => self.set_accept(queue, accepting),
            Event::SetStop { queue, stopped } => self.set_stop(queue, stopped),
            Event::Create(job) => self.create(job, None),
            Event::CreateBy { job, by } => self.create(job, Some(by)),
            Event::Send { job, bytes } => Reply::Size(self.send(job, bytes, at)),
            Event::Close(closing) => self.change_row(closing.job, RowChange::Close(closing)),
            Event::Hold { job, until } => {
                self.change_row(job, RowChange::Hold(Hold::until(until)))
            }
            Event::Release(job) => self.change_row(job, RowChange::Hold(Hold::Free)),
            Event::Cancel(job) => self.change_row(job, RowChange::End(Phase::Canceled)),
            Event::Start(job) => Reply::Phase(self.start(job)),
            Event::Stage(end) => Reply::Phase(self.end_stage(end)),
            Event::Abandon(job) => Reply::Phase(self.abandon(job)),
            // The table turns the first two into several events, and the last removes a row.
            Event::Clock(_) | Event::Reopen | Event::Purge(_) => unreachable!(),
        }
    }

    fn add_queue(&mut self, queue: NewQueue) -> Reply
        requires accepted { refusal_of self.old.state (Event.AddQueue queue) ≡ None }
        requires room { 0 < self.old.room.queues }
        ensures state { self.new.state ≡ after self.old.state (Event.AddQueue queue) }
        ensures reply { result ≡ reply_to self.old.state (Event.AddQueue queue) }
        ensures room { HasNoMore self.old.room self.new.room }
        ensures places { KeepsPlaces self.old self.new }
    {
        let alloc = *self.queues.allocator();
        match queue_position(&self.queues, &queue.name) {
            Ok(_) => unreachable!(),
            Err(at) => {
                let row = new_queue_row(alloc, queue);
                self.queues.insert(at, row).unwrap();
            }
        }
        Reply::Done
    }

    fn info(&mut self, notes: QueueNotes) -> Reply
        requires { refusal_of self.old.state (Event.Info notes) ≡ None }
        ensures state { self.new.state ≡ after self.old.state (Event.Info notes) }
        ensures reply { result ≡ reply_to self.old.state (Event.Info notes) }
        ensures room { HasNoMore self.old.room self.new.room }
        ensures places { KeepsPlaces self.old self.new }
    {
        let Ok(at) = queue_position(&self.queues, &notes.queue) else {
            unreachable!()
        };
        set_notes(&mut self.queues[at], notes);
        Reply::Done
    }

    fn set_accept(&mut self, queue: QueueName, accepting: bool) -> Reply
        requires { refusal_of self.old.state (Event.SetAccept queue accepting) ≡ None }
        ensures state { self.new.state ≡ after self.old.state (Event.SetAccept queue accepting) }
        ensures reply { result ≡ reply_to self.old.state (Event.SetAccept queue accepting) }
        ensures room { HasNoMore self.old.room self.new.room }
        ensures places { KeepsPlaces self.old self.new }
    {
        let Ok(at) = queue_position(&self.queues, &queue) else {
            unreachable!()
        };
        set_accepting(&mut self.queues[at], accepting);
        Reply::Done
    }

    fn set_stop(&mut self, queue: QueueName, stopped: bool) -> Reply
        requires { refusal_of self.old.state (Event.SetStop queue stopped) ≡ None }
        ensures state { self.new.state ≡ after self.old.state (Event.SetStop queue stopped) }
        ensures reply { result ≡ reply_to self.old.state (Event.SetStop queue stopped) }
        ensures room { HasNoMore self.old.room self.new.room }
        ensures places { KeepsPlaces self.old self.new }
    {
        let Ok(at) = queue_position(&self.queues, &queue) else {
            unreachable!()
        };
        set_stopped(&mut self.queues[at], stopped);
        Reply::Done
    }

    /// Adds a new job. It must start by the moment `by`, if one is given.
    pub(crate) fn create(&mut self, job: NewJob, by: Option<Moment>) -> Reply
        requires accepted { refusal_of self.old.state (creation job by) ≡ None }
        requires room { 0 < self.old.room.jobs }
        ensures state { self.new.state ≡ after self.old.state (creation job by) }
        ensures reply { result ≡ reply_to self.old.state (creation job by) }
        ensures room { HasNoMore self.old.room self.new.room }
        ensures places { KeepsPlaces self.old self.new }
    {
        let alloc = *self.queues.allocator();
        let number = job.job;
        self.jobs.push(new_job_row(alloc, job, by));
        self.highest = number.get();
        Reply::Number(number)
    }

    // Returns the new size of the document in bytes.
    fn send(&mut self, job: JobId, bytes: Piece, at: u64) -> u32
        requires accepted { refusal_of self.old.state (Event.Send job bytes) ≡ None }
        requires room { 0 < document_room self.old.room job }
        requires at { at + bytes_behind < 2 ^ 64 }
        ensures places { AddsPlaces at (Some (job, bytes)) self.old self.new }
        ensures state { self.new.state ≡ after self.old.state (Event.Send job bytes) }
        ensures reply { Reply.Size result ≡ reply_to self.old.state (Event.Send job bytes) }
        ensures room { HasNoMore self.old.room self.new.room }
    {
        add_bytes(self.jobs.row_mut(job), bytes, at)
    }

    // Applies an event that changes only the row of its job and is not refused.
    fn change_row(&mut self, job: JobId, change: RowChange) -> Reply
        requires asked { IsAsked self.old.state job change }
        requires ends { EndsInEnd change }
        ensures state { self.new.state ≡ change_job self.old.state job (meant change) }
        ensures reply { result ≡ Reply.Done }
        ensures room { HasNoMore self.old.room self.new.room }
        ensures places { KeepsPlaces self.old self.new }
    {
        change_row(self.jobs.row_mut(job), change);
        Reply::Done
    }

    /// Removes the row of a job that has ended, and returns the row. The job's number is not assigned again.
    pub(crate) fn purge(&mut self, job: JobId) -> JobRow
        requires { refusal_of self.old.state (Event.Purge job) ≡ None }
        ensures state { self.new.state ≡ after self.old.state (Event.Purge job) }
        ensures row { job_at self.old.state job ≡ Some result.job }
        ensures ended { has_ended result.job.phase ≡ true }
        ensures places { KeepsPlaces self.old self.new }

        // Only the room for jobs may grow.
        ensures room { HasNoMore self.old.room (record self.new.room { jobs = 0 }) }
    {
        self.jobs.remove(job)
    }

    /// Sets the current moment.
    pub(crate) fn advance(&mut self, moment: Moment)
        ensures state { self.new.state ≡ record self.old.state { moment = moment } }
        ensures places { self.new.places ≡ self.old.places }
        ensures room { self.new.room ≡ self.old.room }
    {
        self.moment = moment;
    }
}
