//! When the next job falls due, the jobs that a clock event changes, and the jobs that have ended. No row is read.
ghost use Rattle.std.specs.Prelude.{◌≡◌, ◌↔◌, ◌⊎◌, ℕ, List, true, false, cond, None, Some, length, IfOk, OnOk};
ghost use Rattle.std.specs.FinMap as finite;
ghost use Rattle.std.specs.List.{Contains, slice_get};
ghost use Rattle.queue_sched.specs.Next.{is_eligible};
ghost use Rattle.spool_types.specs.State.{Job, queue_at, job_at};
ghost use Rattle.spool_types.specs.declared.rows.QueueRow.{QueueRow};
ghost use Rattle.job_table.specs.DueTimes.{earlier, ended_numbers, is_at_once, late_from, next_due, next_moment, IsChangedJob, IsNumberAt, IsNumberWithin};
ghost use Rattle.job_table.specs.Legal.{IsLegal};

use super::Table;
use crate::agenda::{first, first_after};
use queue_sched::Deadlines;
use spool_types::{JobId, Moment};
use std::alloc::{AllocError, Global};

impl Table {
    /// Returns the earliest moment at which a clock event changes something about a job or starts one, if there is one.
    /// Reads the first dates, and the lanes of the queues.
    pub fn next_due(&self) -> Option<Moment>
        ensures { result ≡ next_due self.now.state }
    {
        let now = self.now();
        let start = start_of(self.goes_on(), now);
        let late = late_from(first(&self.timetable.deadlines));
        let hold = first_after(&self.agenda.holds, now);
        let retry = first_after(&self.agenda.retries, now);
        earlier(earlier(start, late), earlier(hold, retry))
    }

    /// Returns the numbers of the jobs that a clock event of this moment cancels or whose hold it ends. Reads only their
    /// dates. A job may be listed twice.
    pub fn changed_by(&self, alloc: Global, moment: Moment) -> Result<Vec<JobId>, AllocError>
        ensures { IfOk result (λ jobs. (j : ℕ) → Contains jobs.items j ↔ IsChangedJob self.now.state moment j) }
    {
        // The proof takes from this that the moment is at most the greatest one.
        let _ = moment.get();
        let mut jobs = Vec::new(alloc);
        let holds = &self.agenda.holds;
        let over = holds.count_until(self.now());
        list(holds, over, holds.count_until(moment), &mut jobs)?;
        let deadlines = &self.timetable.deadlines;
        list(deadlines, 0, deadlines.count_before(moment), &mut jobs)?;
        Ok(jobs)
    }

    /// Returns the number of jobs that have ended.
    pub fn ended_count(&self) -> usize
        ensures { result ≡ length (ended_numbers self.now.state) }
    {
        self.agenda.ended.len()
    }

    /// Returns the number of the ended job at this position. They are in ascending order of number, from 0.
    pub fn ended_job(&self, at: usize) -> Option<JobId>
        ensures { result ≡ slice_get (ended_numbers self.now.state) at }
    {
        match self.agenda.ended.get(at) {
            Some(date) => Some(date.id),
            None => None,
        }
    }

    // Returns whether a job is processing or may be started now.
    fn goes_on(&self) -> bool
        ensures none { result ≡ false → (j : ℕ) (r : Job) → job_at self.now.state j ≡ Some r → is_at_once self.now.state r ≡ false }
        ensures some { result ≡ true → ¬ ((j : ℕ) (r : Job) → job_at self.now.state j ≡ Some r → is_at_once self.now.state r ≡ false) }
    {
        if self.is_idle() {
            self.starts_any()
        } else {
            true
        }
    }

    // Returns whether a queue has a next job.
    fn starts_any(&self) -> bool
        ensures none { result ≡ false → (name : List ℕ) (q : QueueRow) → queue_at self.now.state name ≡ Some q → (j : ℕ) (r : Job) → job_at self.now.state j ≡ Some r → is_eligible (finite.values self.now.state.jobs) name q.stopped self.now.state.moment r ≡ false }
        ensures some { result ≡ true → (name : List ℕ) × (q : QueueRow) × (j : ℕ) × (r : Job) × (queue_at self.now.state name ≡ Some q) × (job_at self.now.state j ≡ Some r) × (is_eligible (finite.values self.now.state.jobs) name q.stopped self.now.state.moment r ≡ true) }
        ensures legal { IsLegal self.now.state }
    {
        for queue in self.queues() {
            if self.next(&queue.name).is_some() {
                return true;
            }
        }
        false
    }
}

// Lists the jobs of the dates from one position up to another.
fn list(
    dates: &Deadlines,
    first: usize,
    last: usize,
    jobs: &mut Vec<JobId>,
) -> Result<(), AllocError>
    ensures { OnOk result ((j : ℕ) → Contains jobs.new.items j ↔ (Contains jobs.old.items j ⊎ IsNumberWithin dates.now.items first last j)) }
{
    for at in first..last {
        list_at(dates, at, jobs)?;
    }
    Ok(())
}

// Lists the job of the date at a position, if there is one.
fn list_at(dates: &Deadlines, at: usize, jobs: &mut Vec<JobId>) -> Result<(), AllocError>
    ensures { OnOk result ((j : ℕ) → Contains jobs.new.items j ↔ (Contains jobs.old.items j ⊎ IsNumberAt dates.now.items at j)) }
{
    let Some(date) = dates.get(at) else {
        return Ok(());
    };
    jobs.push(date.id)?;
    Ok(())
}

// Returns the next moment if a job goes on now.
fn start_of(goes_on: bool, now: Moment) -> Option<Moment>
    ensures { result ≡ cond goes_on (next_moment now) None }
{
    if goes_on { next_moment(now) } else { None }
}

fn earlier(one: Option<Moment>, other: Option<Moment>) -> Option<Moment>
    ensures { result ≡ earlier one other }
{
    match (one, other) {
        (Some(one), Some(other)) => Some(one.min(other)),
        (None, other) => other,
        (one, None) => one,
    }
}

// Returns the first moment when a job with this latest start is late.
fn late_from(by: Option<Moment>) -> Option<Moment>
    ensures { result ≡ late_from by }
{
    match by {
        Some(by) => next_moment(by),
        None => None,
    }
}

fn next_moment(moment: Moment) -> Option<Moment>
    ensures { result ≡ next_moment moment }
{
    Moment::new(moment.get() + 1)
}
