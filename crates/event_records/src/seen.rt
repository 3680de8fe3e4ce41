//! When jobs and queues changed, as far as this was seen.
ghost use Rattle.std.specs.Prelude.{◌≡◌, ◌⊎◌, ℕ, List, None, Some};
ghost use Rattle.std.specs.Option.{option_copied};
ghost use Rattle.event_records.specs.SeenTimes.{HasSeen, HasSeenQueue, if_so, is_first, is_over, job_times, nothing_seen, queue_time, queue_time_by, times_after};

use crate::deeds::JobDeed;
use spool_types::{Job, JobId, Moment, QueueName};
use std::alloc::Global;
use std::collections::BTreeMap;

/// When a job was created, closed, first started and ended: `None` if that was not seen.
#[derive(Clone, Copy)]
pub struct JobTimes {
    pub created: Option<Moment>,
    pub closed: Option<Moment>,
    pub started: Option<Moment>,
    pub ended: Option<Moment>,
}

impl JobTimes {
    /// The times of a job of which nothing was seen.
    pub const UNSEEN: JobTimes = JobTimes {
        created: None,
        closed: None,
        started: None,
        ended: None,
    };

    // Returns the times after an event at a moment, if it is known, which left this row. A start is the first one if it begins the first attempt.
    fn after(self, deed: JobDeed, row: Option<&Job>, now: Option<Moment>) -> JobTimes
        ensures { result ≡ times_after self deed (option_copied row.entry) now }
    {
        if matches!(deed, JobDeed::Purged) {
            return JobTimes::UNSEEN;
        }
        let is_first = matches!(deed, JobDeed::Started) && is_first(row);
        JobTimes {
            created: if_so(matches!(deed, JobDeed::Created), now, self.created),
            closed: if_so(matches!(deed, JobDeed::Closed), now, self.closed),
            started: if_so(is_first, now, self.started),
            ended: if_so(is_over(row), now, self.ended),
        }
    }
}

// Returns this moment if something is so, otherwise the one before.
fn if_so(yes: bool, now: Option<Moment>, before: Option<Moment>) -> Option<Moment>
    ensures { result ≡ if_so yes now before }
{
    if yes { now } else { before }
}

// Returns whether the row is that of a first attempt.
fn is_first(row: Option<&Job>) -> bool
    ensures { result ≡ is_first (option_copied row.entry) }
{
    match row {
        Some(job) => job.attempts == 1,
        None => false,
    }
}

fn is_over(row: Option<&Job>) -> bool
    ensures { result ≡ is_over (option_copied row.entry) }
{
    match row {
        Some(job) => job.phase.has_ended(),
        None => false,
    }
}

/// The times of the jobs and queues that were seen to change. A job is removed by its purge, so there are no more jobs than rows.
#[derive(Drop)]
pub struct Seen {
    jobs: BTreeMap<JobId, JobTimes>,
    queues: BTreeMap<QueueName, Moment>,
}

impl Seen {
    /// Nothing was seen yet. Does not allocate.
    pub fn new(alloc: Global) -> Seen
        ensures jobs { (job : ℕ) → job_times result job ≡ nothing_seen }
        ensures queues { (name : List ℕ) → queue_time result name ≡ None }
    {
        Seen {
            jobs: BTreeMap::new(alloc),
            queues: BTreeMap::new(alloc),
        }
    }

    /// Returns the times of a job.
    pub fn job(&self, job: JobId) -> JobTimes
        ensures { result ≡ job_times self.now job }
    {
        match self.jobs.get(&job) {
            Some(times) => *times,
            None => JobTimes::UNSEEN,
        }
    }

    /// Returns when the state of a queue last changed, if that was seen.
    pub fn queue(&self, name: &QueueName) -> Option<Moment>
        ensures { result ≡ queue_time self.now name.now }
    {
        self.queues.get(name).copied()
    }

    /// Records an accepted event about a job, which left this row, at a moment. If memory runs out, its times stay unknown.
    pub fn see_job(&mut self, job: JobId, deed: JobDeed, row: Option<&Job>, now: Option<Moment>)
        ensures { HasSeen self.old (record { job = job; deed = deed; row = option_copied row.entry; now = now }) self.new }
    {
        if matches!(deed, JobDeed::Purged) {
            self.jobs.remove(&job);
            return;
        }
        let times = self.job(job).after(deed, row, now);
        let _ = self.jobs.insert(job, times);
    }

    /// Records that the state of a queue changed at a moment. If memory runs out, or the moment is not known, it is unknown from then on.
    pub fn see_queue(&mut self, name: &QueueName, now: Option<Moment>)
        ensures { HasSeenQueue self.old name.now now self.new }
    {
        self.forget_queue(name);
        if let Some(now) = now {
            self.put_queue(name, now);
        }
    }

    fn forget_queue(&mut self, name: &QueueName)
        ensures { (q : List ℕ) → queue_time self.new q ≡ queue_time_by (queue_time self.old q) q name.now None }
    {
        self.queues.remove(name);
    }

    // Puts the moment of a queue, unless memory runs out.
    fn put_queue(&mut self, name: &QueueName, now: Moment)
        ensures { ((q : List ℕ) → queue_time self.new q ≡ queue_time_by (queue_time self.old q) q name.now (Some now)) ⊎ ((q : List ℕ) → queue_time self.new q ≡ queue_time self.old q) }
    {
        let Ok(key) = name.clone() else {
            return;
        };
        let _ = self.queues.insert(key, now);
    }
}
