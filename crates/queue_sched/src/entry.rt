//! The order of waiting jobs, and when they may be started.
ghost use Rattle.std.specs.Prelude.{◌≡◌, ◌↔◌, ℕ, false, nat_le, IsTrue, IsSome, IfSome, MatchOption};
ghost use Rattle.std.specs.Ordering.{is_lt};
ghost use Rattle.spool_types.specs.Phases.{is_waiting};
ghost use Rattle.queue_sched.specs.WaitingIndex.{entry_of, goes_before, is_startable};

use spool_types::{Hold, Job, JobId, Moment, Phase, Priority};
use std::cmp::Ordering;

/// The fields of a waiting job that determine its order and its start.
#[derive(Clone, Copy, PartialEq, Eq)]
pub struct Entry {
    pub id: JobId,
    /// Whether it comes before all jobs that are not marked.
    pub first: bool,
    pub priority: Priority,
    pub hold: Hold,
    pub not_before: Moment,
}

impl Entry {
    /// Returns the entry of a waiting job, and None for any other job.
    pub fn of_job(job: &Job) -> Option<Entry>
        ensures waiting { IsSome result ↔ IsTrue (is_waiting job.now.phase) }
        ensures value { IfSome result (λ e. e ≡ entry_of job.now) }
    {
        match job.phase {
            Phase::Waiting {
                hold,
                not_before,
                first,
            } => Some(Entry {
                id: job.id,
                first,
                priority: job.priority,
                hold,
                not_before,
            }),
            _ => None,
        }
    }

    /// Returns whether this job comes before the other: by the mark, then by the priority, then by the number.
    pub fn goes_before(&self, other: &Entry) -> bool
        ensures { result ≡ goes_before self.now other.now }
    {
        if self.first != other.first {
            self.first
        } else if self.priority != other.priority {
            other.priority < self.priority
        } else {
            self.id < other.id
        }
    }

    // Returns whether the two have the same mark and priority.
    pub(crate) fn has_turn_of(&self, other: &Entry) -> bool
        ensures { IsTrue result ↔ ((self.now.first ≡ other.now.first) × (self.now.priority ≡ other.now.priority)) }
    {
        self.first == other.first && self.priority == other.priority
    }

    // Compares two entries by the order. Only entries of the same job are equal.
    pub(crate) fn turn(&self, other: &Entry) -> Ordering
        ensures { is_lt result ≡ goes_before self.now other.now }
    {
        if self.goes_before(other) {
            Ordering::Less
        } else if other.goes_before(self) {
            Ordering::Greater
        } else {
            Ordering::Equal
        }
    }

    /// Returns whether the job may be started at this moment: no hold is in force, and its not-before moment has
    /// passed.
    pub fn is_startable(&self, now: Moment) -> bool
        ensures { result ≡ is_startable now self.now }
    {
        !self.hold.is_in_force(now) && self.not_before <= now
    }

    // Returns the moment from which the job may be started, or None for a job that is held until it is released.
    pub(crate) fn start(&self) -> Option<Moment>
        ensures { MatchOption result ((m : ℕ) → is_startable m self.now ≡ false) (λ start. (m : ℕ) → is_startable m self.now ≡ nat_le start m) }
    {
        match self.hold {
            Hold::Free => Some(self.not_before),
            Hold::Indefinite(_) => None,
            Hold::Until(moment) => Some(moment.max(self.not_before)),
        }
    }
}
