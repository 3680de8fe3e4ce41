//! The lane of a queue: its waiting jobs in order, its processing job, and the number of its jobs that have not ended.
ghost use Rattle.std.specs.Prelude.{◌≡◌, ℕ, ◌+◌, ◌<◌, ◌≤◌, ◌↔◌, ◌⊎◌, true, false, List, length, slice_index_or, None, Some, IfSome, OnOk};
ghost use Rattle.std.specs.Option.{IsNone};
ghost use Rattle.std.specs.List.{Contains};
ghost use Rattle.queue_sched.specs.WaitingIndex.{IsFirstStartable, NoneIsStartable};
ghost use Rattle.queue_sched.specs.declared.entry.Entry.{Entry};
ghost use Rattle.job_table.specs.Lanes.{lane_state_of, is_live, live_count, IsLane, IsReseated, HasSeat, IsSameLane, IsAdvanced};
ghost use Rattle.job_table.specs.declared.lane.LaneState.{LaneState};
ghost use Rattle.job_table.specs.declared.lane.Lane.{Lane};

use queue_sched::{Entry, Index};
use spool_types::{Job, JobId, Moment, Phase};
use std::alloc::{AllocError, Global};

mod draft;

pub(crate) use draft::Draft;

/// The state of a job in the lane of its queue.
#[derive(Clone, Copy)]
pub(crate) enum LaneState {
    /// The job has ended or does not exist.
    Ended,
    Incoming,
    Waiting(Entry),
    Processing,
}

pub(crate) fn lane_state_of(job: &Job) -> LaneState
    ensures { result ≡ lane_state_of job.now }
{
    match job.phase {
        Phase::Incoming(_) => LaneState::Incoming,
        Phase::Waiting { .. } => match Entry::of_job(job) {
            Some(entry) => LaneState::Waiting(entry),
            None => unreachable!(),
        },
        Phase::Processing { .. } => LaneState::Processing,
        Phase::Completed | Phase::Canceled | Phase::Aborted(_) => LaneState::Ended,
    }
}

#[derive(Drop)]
pub(crate) struct Lane {
    pub index: Index,
    processing: Option<JobId>,
    // The number of jobs that have not ended. Each of them may become a waiting job.
    live: usize,
    // The index has room for this number of waiting jobs.
    reserved: usize,
}

impl Lane {
    /// Returns the lane of a queue without jobs. Does not allocate.
    pub(crate) fn new(alloc: Global, moment: Moment) -> Lane
        ensures lane { (seats : ℕ → LaneState) → ((j : ℕ) → seats j ≡ LaneState.Ended) → IsLane seats result }
        ensures moment { result.index.moment ≡ moment }
        ensures live { result.live ≡ 0 }
    {
        let mut index = Index::new(alloc);
        index.advance(moment);
        Lane {
            index,
            processing: None,
            live: 0,
            reserved: 0,
        }
    }

    /// Reserves room for one more job.
    pub(crate) fn reserve(&mut self) -> Result<(), AllocError>
        ensures room { OnOk result (self.old.live + 1 ≤ self.new.reserved) }
        ensures lane { (seats : ℕ → LaneState) → IsLane seats self.old → IsLane seats self.new }
        ensures live { self.new.live ≡ self.old.live }
        ensures moment { self.new.index.moment ≡ self.old.index.moment }
        ensures kept { self.old.reserved ≤ self.new.reserved }
    {
        let count = self.live.checked_add(1).ok_or(AllocError)?;
        self.index.reserve(count)?;
        self.reserved = self.reserved.max(count);
        Ok(())
    }

    /// Returns the job to start next, if the queue is not stopped.
    pub(crate) fn next(&self) -> Option<JobId>
        ensures chosen { IfSome result (λ j. (self.now.processing ≡ None) × ((e : Entry) × (e.id ≡ j) × IsFirstStartable self.now.index e)) }
        ensures none { IsNone result → (self.now.processing ≡ None) → NoneIsStartable self.now.index }
    {
        match self.processing {
            Some(_) => None,
            None => self.index.next(),
        }
    }

    /// Returns the job that is processing, if any.
    pub(crate) fn processing(&self) -> Option<JobId>
        ensures { result ≡ self.now.processing }
    {
        self.processing
    }

    /// Sets the current moment, which must not be earlier than the previous one.
    pub(crate) fn advance(&mut self, moment: Moment)
        requires { self.old.index.moment ≤ moment }
        ensures lane { (seats : ℕ → LaneState) → IsLane seats self.old → IsLane seats self.new }
        ensures moment { self.new.index.moment ≡ moment }
        ensures live { self.new.live ≡ self.old.live }
        ensures reserved { self.new.reserved ≡ self.old.reserved }
    {
        self.index.advance(moment);
    }

    /// Changes the lane state of a job. A waiting job that stays in the same order keeps its slot in the index. Does
    /// not allocate.
    pub(crate) fn reseat(&mut self, job: JobId, from: LaneState, to: LaneState)
        requires there { HasSeat self.old job from }
        requires own { (e : Entry) → to ≡ LaneState.Waiting e → e.id ≡ job }
        requires room { is_live to ≡ true → is_live from ≡ false → self.old.live < self.old.reserved }
        requires alone { to ≡ LaneState.Processing → (k : ℕ) → self.old.processing ≡ Some k → k ≡ job }
        ensures lane { (old new : ℕ → LaneState) → IsLane old self.old → old job ≡ from → IsReseated old new job to → IsLane new self.new }
        ensures live { self.new.live + live_count from ≡ self.old.live + live_count to }
        ensures moment { self.new.index.moment ≡ self.old.index.moment }
        ensures reserved { self.new.reserved ≡ self.old.reserved }
    {
        match (from, to) {
            (LaneState::Waiting(before), LaneState::Waiting(entry)) => {
                self.index.replace(before, entry)
            }
            _ => {
                self.leave(job, from);
                self.enter(job, to);
            }
        }
    }

    // Removes a job from the lane.
    fn leave(&mut self, _job: JobId, from: LaneState)
        requires { HasSeat self.old _job from }
        ensures lane { (old new : ℕ → LaneState) → IsLane old self.old → old _job ≡ from → IsReseated old new _job LaneState.Ended → IsLane new self.new }
        ensures live { self.new.live + live_count from ≡ self.old.live }
        ensures processing { (k : ℕ) → self.new.processing ≡ Some k → self.old.processing ≡ Some k }
        ensures moment { self.new.index.moment ≡ self.old.index.moment }
        ensures reserved { self.new.reserved ≡ self.old.reserved }
    {
        match from {
            LaneState::Ended => {}
            LaneState::Incoming => self.live -= 1,
            LaneState::Waiting(entry) => {
                self.index.remove(entry);
                self.live -= 1;
            }
            LaneState::Processing => {
                self.processing = None;
                self.live -= 1;
            }
        }
    }

    // Adds a job that is not in the lane.
    fn enter(&mut self, job: JobId, to: LaneState)
        requires there { HasSeat self.old job LaneState.Ended }
        requires own { (e : Entry) → to ≡ LaneState.Waiting e → e.id ≡ job }
        requires room { is_live to ≡ true → self.old.live < self.old.reserved }
        requires alone { to ≡ LaneState.Processing → self.old.processing ≡ None }
        ensures lane { (old new : ℕ → LaneState) → IsLane old self.old → old job ≡ LaneState.Ended → IsReseated old new job to → IsLane new self.new }
        ensures live { self.new.live ≡ self.old.live + live_count to }
        ensures moment { self.new.index.moment ≡ self.old.index.moment }
        ensures reserved { self.new.reserved ≡ self.old.reserved }
    {
        match to {
            LaneState::Ended => {}
            LaneState::Incoming => self.live += 1,
            LaneState::Waiting(entry) => {
                self.list(entry);
                self.live += 1;
            }
            LaneState::Processing => {
                self.processing = Some(job);
                self.live += 1;
            }
        }
    }

    // Adds a waiting job to the index. The index has room for every job of the queue that has not ended.
    fn list(&mut self, entry: Entry)
        requires there { HasSeat self.old entry.id LaneState.Ended }
        requires room { self.old.live < self.old.reserved }
        ensures items { (e : Entry) → Contains self.new.index.items e ↔ (Contains self.old.index.items e ⊎ (e ≡ entry)) }
        ensures moment { self.new.index.moment ≡ self.old.index.moment }
        ensures room { self.new.index.room ≡ self.old.index.room }
        ensures rest { (self.new.processing ≡ self.old.processing) × (self.new.live ≡ self.old.live) × (self.new.reserved ≡ self.old.reserved) }
    {
        let waiting = self.index.len();
        let has_room = waiting < self.reserved;
        prove!(has_room);
        self.index.insert(entry);
    }
}

/// Reserves room for one more job in each lane.
pub(crate) fn reserve_each(lanes: &mut [Lane]) -> Result<(), AllocError>
    ensures count { length lanes.new ≡ length lanes.old }
    ensures each { (i : ℕ) (d : Lane) → i < length lanes.new → IsSameLane (slice_index_or lanes.old i d) (slice_index_or lanes.new i d) }
    ensures room { OnOk result ((i : ℕ) (d : Lane) → i < length lanes.new → (slice_index_or lanes.new i d).live + 1 ≤ (slice_index_or lanes.new i d).reserved) }
{
    for at in 0..lanes.len() {
        lanes[at].reserve()?;
    }
    Ok(())
}

/// Sets the current moment in each lane. It must not be earlier than the previous one.
pub(crate) fn advance_each(lanes: &mut [Lane], moment: Moment)
    requires { (i : ℕ) (d : Lane) → i < length lanes.old → (slice_index_or lanes.old i d).index.moment ≤ moment }
    ensures count { length lanes.new ≡ length lanes.old }
    ensures each { (i : ℕ) (d : Lane) → i < length lanes.new → IsAdvanced moment (slice_index_or lanes.old i d) (slice_index_or lanes.new i d) }
{
    for at in 0..lanes.len() {
        lanes[at].advance(moment);
    }
}
