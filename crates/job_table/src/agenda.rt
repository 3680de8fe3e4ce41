//! The dates of the jobs of all queues: the ends of their holds, their retries, and which of them have ended. So the next
//! moment at which something falls due, and the oldest ended jobs, are found without a search of the rows.
ghost use Rattle.std.specs.Prelude.{◌≡◌, ℕ, ◌+◌, ◌<◌, ◌≤◌, ◌↔◌, ◌⊎◌, Option, Some, true, false, cond, None, length, IfOk, OnOk};
ghost use Rattle.std.specs.List.{Contains};
ghost use Rattle.queue_sched.specs.Deadlines.{HasEachDeadlineOnce};
ghost use Rattle.queue_sched.specs.declared.deadlines.Deadline.{Deadline as AnyDeadline};
ghost use Rattle.spool_types.specs.State.{Job as AnyJob};
ghost use Rattle.job_table.specs.Agendas.{AreDates, IsAgenda, IsRedated, MayList, MayRedate, date_found, dates_found, dates_of, end_of, ended_date, hold_date, no_dates, retry_date, unsorted_agenda};
ghost use Rattle.job_table.specs.DueTimes.{IsLeastOf};

use queue_sched::{Deadline, Deadlines};
use spool_types::{Hold, Job, JobId, Moment, Phase};
use std::alloc::{AllocError, Global};

/// The dates of one job. There are none if the job does not exist.
#[derive(Clone, Copy)]
pub(crate) struct Dates {
    exists: bool,
    hold: Option<Deadline>,
    retry: Option<Deadline>,
    ended: Option<Deadline>,
}

impl Dates {
    /// Returns the dates of a job that does not exist.
    pub(crate) fn none() -> Dates
        ensures { result ≡ no_dates }
    {
        Dates {
            exists: false,
            hold: None,
            retry: None,
            ended: None,
        }
    }

    pub(crate) fn of_job(job: &Job) -> Dates
        ensures { result ≡ dates_of job.now }
    {
        Dates {
            exists: true,
            hold: hold_date(job),
            retry: retry_date(job),
            ended: ended_date(job),
        }
    }
}

/// Returns the end of a job's hold, if the hold has one.
pub(crate) fn hold_date(job: &Job) -> Option<Deadline>
    ensures { result ≡ hold_date job.now }
{
    match job.phase {
        Phase::Incoming(hold) => end_of(hold, job.id),
        Phase::Waiting { hold, .. } => end_of(hold, job.id),
        _ => None,
    }
}

fn end_of(hold: Hold, id: JobId) -> Option<Deadline>
    ensures { result ≡ end_of id hold }
{
    match hold {
        Hold::Until(by) => Some(Deadline { by, id }),
        _ => None,
    }
}

/// Returns the moment before which a waiting job is not tried, unless it is the first one.
pub(crate) fn retry_date(job: &Job) -> Option<Deadline>
    ensures { result ≡ retry_date job.now }
{
    match job.phase {
        Phase::Waiting { not_before, .. } => {
            if Moment::ZERO < not_before {
                Some(Deadline {
                    by: not_before,
                    id: job.id,
                })
            } else {
                None
            }
        }
        _ => None,
    }
}

/// Returns the entry of a job that has ended. All have the moment 0, so they are in the order of their numbers.
pub(crate) fn ended_date(job: &Job) -> Option<Deadline>
    ensures { result ≡ ended_date job.now }
{
    if job.phase.has_ended() {
        Some(Deadline {
            by: Moment::ZERO,
            id: job.id,
        })
    } else {
        None
    }
}

/// The dates of all jobs of a table, in three lists.
#[derive(Drop)]
pub(crate) struct Agenda {
    pub holds: Deadlines,
    pub retries: Deadlines,
    pub ended: Deadlines,
    // The number of jobs.
    jobs: usize,
    // Each list has room for this number of jobs.
    room: usize,
}

impl Agenda {
    /// Returns the agenda of no jobs. Does not allocate.
    pub(crate) fn new(alloc: Global) -> Agenda
        ensures agenda { (jobs : ℕ → Option AnyJob) → ((j : ℕ) → jobs j ≡ None) → IsAgenda jobs result }
        ensures jobs { result.jobs ≡ 0 }
    {
        Agenda {
            holds: Deadlines::new(alloc),
            retries: Deadlines::new(alloc),
            ended: Deadlines::new(alloc),
            jobs: 0,
            room: 0,
        }
    }

    /// Returns the agenda of `jobs` jobs with these dates. Each list is sorted once.
    pub(crate) fn of_dates(
        holds: Vec<Deadline>,
        retries: Vec<Deadline>,
        ended: Vec<Deadline>,
        jobs: usize,
    ) -> Result<Agenda, AllocError>
        requires holds { HasEachDeadlineOnce holds.items × (length holds.items ≤ jobs) }
        requires retries { HasEachDeadlineOnce retries.items × (length retries.items ≤ jobs) }
        requires ended { HasEachDeadlineOnce ended.items × (length ended.items ≤ jobs) }
        ensures { IfOk result (λ a. (all : ℕ → Option AnyJob) → IsAgenda all (unsorted_agenda holds.items retries.items ended.items jobs) → IsAgenda all a) }
    {
        Ok(Agenda {
            holds: sorted(holds, jobs)?,
            retries: sorted(retries, jobs)?,
            ended: sorted(ended, jobs)?,
            jobs,
            room: jobs,
        })
    }

    /// Reserves room for one more job.
    pub(crate) fn make_room(&mut self) -> Result<(), AllocError>
        ensures room { OnOk result (self.old.jobs + 1 ≤ self.new.room) }
        ensures agenda { (jobs : ℕ → Option AnyJob) → IsAgenda jobs self.old → IsAgenda jobs self.new }
        ensures jobs { self.new.jobs ≡ self.old.jobs }
        ensures kept { self.old.room ≤ self.new.room }
    {
        let count = self.jobs.checked_add(1).ok_or(AllocError)?;
        self.holds.reserve(count)?;
        self.retries.reserve(count)?;
        self.ended.reserve(count)?;
        self.room = self.room.max(count);
        Ok(())
    }

    /// Replaces the dates of a job, which may appear or disappear. Does not allocate.
    pub(crate) fn redate(&mut self, job: JobId, from: Dates, to: Dates)
        requires { MayRedate self.old job from to }
        ensures agenda { (old new : ℕ → Option AnyJob) → IsAgenda old self.old → dates_found (old job) ≡ from → IsRedated old new job to → IsAgenda new self.new }
        ensures jobs { self.new.jobs + cond from.exists 1 0 ≡ self.old.jobs + cond to.exists 1 0 }
        ensures room { self.new.room ≡ self.old.room }
    {
        relist(&mut self.holds, job, from.hold, to.hold);
        relist(&mut self.retries, job, from.retry, to.retry);
        relist(&mut self.ended, job, from.ended, to.ended);
        match (from.exists, to.exists) {
            (false, true) => self.jobs += 1,
            (true, false) => self.jobs -= 1,
            (false, false) => {}
            (true, true) => {}
        }
    }
}

// Sorts dates into a list with room for `count`.
fn sorted(mut dates: Vec<Deadline>, count: usize) -> Result<Deadlines, AllocError>
    requires once { HasEachDeadlineOnce dates.items }
    requires few { length dates.items ≤ count }
    ensures dates { IfOk result (λ list. (d : AnyDeadline) → Contains list.items d ↔ Contains dates.items d) }
    ensures room { IfOk result (λ list. count ≤ list.room) }
{
    dates.reserve(count - dates.len())?;
    Ok(Deadlines::of_items(dates))
}

// Replaces the date of a job in a list.
fn relist(list: &mut Deadlines, job: JobId, from: Option<Deadline>, to: Option<Deadline>)
    requires { MayList list.old job from to }
    ensures dates { (date : AnyJob → Option AnyDeadline) (old new : ℕ → Option AnyJob) → AreDates date old list.old.items →
        date_found date (old job) ≡ from → date_found date (new job) ≡ to → ((k : ℕ) → ¬ (k ≡ job) → new k ≡ old k) → AreDates date new list.new.items }
    ensures room { list.new.room ≡ list.old.room }
{
    match (from, to) {
        (Some(before), Some(after)) => {
            if before != after {
                replace(list, job, before, after);
            }
        }
        (Some(before), None) => list.remove(before),
        (None, Some(after)) => add(list, job, after),
        (None, None) => {}
    }
}

// Replaces the date of a job by another one.
fn replace(list: &mut Deadlines, job: JobId, before: Deadline, after: Deadline)
    requires { MayList list.old job (Some before) (Some after) }
    ensures items { (d : AnyDeadline) → Contains list.new.items d ↔ ((Contains list.old.items d × ¬ (d ≡ before)) ⊎ (d ≡ after)) }
    ensures room { list.new.room ≡ list.old.room }
{
    let fits = list.len() <= list.room();
    prove!(fits);
    list.remove(before);
    list.insert(after);
}

// Adds the date of a job that has none. The list has room for each job.
fn add(list: &mut Deadlines, job: JobId, date: Deadline)
    requires { MayList list.old job None (Some date) }
    ensures items { (d : AnyDeadline) → Contains list.new.items d ↔ (Contains list.old.items d ⊎ (d ≡ date)) }
    ensures room { list.new.room ≡ list.old.room }
{
    let has_room = list.len() < list.room();
    prove!(has_room);
    list.insert(date);
}

/// Returns the first date.
pub(crate) fn first(list: &Deadlines) -> Option<Moment>
    ensures { IsLeastOf (λ d. 0 ≤ d.by) list.now.items result }
{
    Some(list.get(0)?.by)
}

/// Returns the first date after `moment`.
pub(crate) fn first_after(list: &Deadlines, moment: Moment) -> Option<Moment>
    ensures { IsLeastOf (λ d. moment < d.by) list.now.items result }
{
    Some(list.get(list.count_until(moment))?.by)
}
