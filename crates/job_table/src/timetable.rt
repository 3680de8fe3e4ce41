//! The deadlines of the waiting jobs of all queues. A clock event cancels the jobs whose deadline has passed, and
//! inspects no other job.
ghost use Rattle.std.specs.Prelude.{◌≡◌, ℕ, ◌+◌, ◌<◌, ◌≤◌, ◌↔◌, ◌⊎◌, Option, Some, IfSome, IfOk, OnOk, None, cond, length};
ghost use Rattle.std.specs.Option.{IsNone};
ghost use Rattle.std.specs.List.{Contains};
ghost use Rattle.queue_sched.specs.Deadlines.{HasEachDeadlineOnce};
ghost use Rattle.queue_sched.specs.declared.deadlines.Deadline.{Deadline as AnyDeadline};
ghost use Rattle.spool_types.specs.State.{Job as AnyJob};
ghost use Rattle.job_table.specs.Timely.{deadline_of, deadline_found, unsorted, IsAdmitted, IsDismissed, IsTimely, IsRetimed, MayDismiss, MayRetime};

use queue_sched::{Deadline, Deadlines};
use spool_types::{Job, JobId, Moment, Phase};
use std::alloc::{AllocError, Global};

/// The deadlines of the waiting jobs that must start by a moment.
#[derive(Drop)]
pub(crate) struct Timetable {
    pub deadlines: Deadlines,
    // The number of jobs that must start by a moment, whatever their phase. Each of them may become a waiting job.
    timed: usize,
}

impl Timetable {
    /// Returns the timetable of no jobs. Does not allocate.
    pub(crate) fn new(alloc: Global) -> Timetable
        ensures timely { (jobs : ℕ → Option AnyJob) → ((j : ℕ) → jobs j ≡ None) → IsTimely jobs result }
        ensures timed { result.timed ≡ 0 }
    {
        Timetable {
            deadlines: Deadlines::new(alloc),
            timed: 0,
        }
    }

    /// Returns the timetable with these deadlines. `timed` is the number of jobs that must start by a moment. The
    /// deadlines are sorted once.
    pub(crate) fn of_deadlines(
        mut deadlines: Vec<Deadline>,
        timed: usize,
    ) -> Result<Timetable, AllocError>
        requires once { HasEachDeadlineOnce deadlines.items }
        requires few { length deadlines.items ≤ timed }
        ensures { IfOk result (λ t. (jobs : ℕ → Option AnyJob) → IsTimely jobs (unsorted deadlines.items timed) → IsTimely jobs t) }
    {
        deadlines.reserve(timed - deadlines.len())?;
        Ok(Timetable {
            deadlines: Deadlines::of_items(deadlines),
            timed,
        })
    }

    /// Reserves room for one more job.
    pub(crate) fn reserve(&mut self) -> Result<(), AllocError>
        ensures room { OnOk result (self.old.timed + 1 ≤ self.new.deadlines.room) }
        ensures timely { (jobs : ℕ → Option AnyJob) → IsTimely jobs self.old → IsTimely jobs self.new }
        ensures timed { self.new.timed ≡ self.old.timed }
    {
        let count = self.timed.checked_add(1).ok_or(AllocError)?;
        self.deadlines.reserve(count)
    }

    /// Returns the waiting job with the earliest deadline, if that deadline is before `moment`. Inspects no other job.
    pub(crate) fn first_before(&self, moment: Moment) -> Option<JobId>
        ensures found { IfSome result (λ j. (d : AnyDeadline) × Contains self.now.deadlines.items d × (d.id ≡ j) × (d.by < moment)) }
        ensures none { IsNone result → (d : AnyDeadline) → Contains self.now.deadlines.items d → moment ≤ d.by }
    {
        self.deadlines.first_before(moment)
    }

    /// Counts a new job that is not waiting yet. `timed` says whether it must start by a moment. Does not allocate.
    pub(crate) fn admit(&mut self, timed: bool)
        requires room { self.old.timed < self.old.deadlines.room }
        ensures timely { (old new : ℕ → Option AnyJob) (j : ℕ) → IsTimely old self.old → IsAdmitted old new j timed → IsTimely new self.new }
        ensures timed { self.new.timed ≤ self.old.timed + 1 }
        ensures room { self.new.deadlines.room ≡ self.old.deadlines.room }
    {
        if timed {
            let has_room = self.timed < self.deadlines.room();
            prove!(has_room);
            self.timed += 1;
        }
    }

    /// Removes a job without a deadline from the count. `timed` says whether it had to start by a moment. Does not
    /// allocate.
    pub(crate) fn dismiss(&mut self, timed: bool)
        requires { MayDismiss self.old timed }
        ensures timely { (old new : ℕ → Option AnyJob) (j : ℕ) → IsTimely old self.old → IsDismissed old new j timed → IsTimely new self.new }
        ensures timed { self.new.timed + cond timed 1 0 ≡ self.old.timed }
        ensures room { self.new.deadlines.room ≡ self.old.deadlines.room }
    {
        if timed {
            self.timed -= 1;
        }
    }

    /// Replaces the deadline of a job. Does not allocate.
    pub(crate) fn change(&mut self, job: JobId, from: Option<Deadline>, to: Option<Deadline>)
        requires { MayRetime self.old job from to }
        ensures timely { (old new : ℕ → Option AnyJob) → IsTimely old self.old → deadline_found (old job) ≡ from → IsRetimed old new job to → IsTimely new self.new }
        ensures timed { self.new.timed ≡ self.old.timed }
        ensures room { self.new.deadlines.room ≡ self.old.deadlines.room }
    {
        match (from, to) {
            (Some(deadline), None) => self.deadlines.remove(deadline),
            (None, Some(deadline)) => self.list(deadline),
            // Both are the same deadline.
            (Some(_), Some(_)) => {}
            (None, None) => {}
        }
    }

    // Adds a deadline. There is room for every job that must start by a moment.
    fn list(&mut self, deadline: Deadline)
        requires { MayRetime self.old deadline.id None (Some deadline) }
        ensures items { (d : AnyDeadline) → Contains self.new.deadlines.items d ↔ (Contains self.old.deadlines.items d ⊎ (d ≡ deadline)) }
        ensures timed { self.new.timed ≡ self.old.timed }
        ensures room { self.new.deadlines.room ≡ self.old.deadlines.room }
    {
        let has_room = self.deadlines.len() < self.timed;
        prove!(has_room);
        self.deadlines.insert(deadline);
    }
}

/// Returns the deadline of a job that is waiting and must start by a moment.
pub(crate) fn deadline_of(job: &Job) -> Option<Deadline>
    ensures { result ≡ deadline_of job.now }
{
    let by = job.by?;
    match job.phase {
        Phase::Waiting { .. } => Some(Deadline { by, id: job.id }),
        _ => None,
    }
}
