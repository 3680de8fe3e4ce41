//! The incoming jobs whose clients have disconnected.
ghost use Rattle.std.specs.Prelude.{◌≡◌, ◌++◌, nat_eq, length, IfOk, OnErr, OnOk};
ghost use Rattle.std.specs.FinMap as finite;
ghost use Rattle.spool_types.specs.State.{State};
ghost use Rattle.service_texts.specs.LeftJobs.{all_left, earlier_of, has_left, incoming_text, is_incoming_at, left_until, oldest_of, still_incoming, still_line, touched, touched_one, with_left};

use command_lines::push_count;
use job_table::Table;
use spool_types::JobId;
use std::alloc::{AllocError, Global};
use std::io::Write;
use std::marker::Model;

const SECOND: u64 = 1_000;

/// A job, and the moment at which its client disconnected, in milliseconds.
#[derive(Clone, Copy)]
pub struct LeftJob {
    pub job: JobId,
    pub since: u64,
}

/// Jobs whose clients have disconnected. Those that are not incoming any more are removed before the list grows.
#[derive(Drop)]
pub struct LeftJobs {
    jobs: Vec<LeftJob>,
}

impl Model for LeftJobs {
    ghost use Rattle.std.specs.Prelude.{List};
    ghost use Rattle.service_texts.specs.declared.left_jobs.LeftJob.{LeftJob};

    ghost Value = { List LeftJob };

    ghost view = { λ a. a.jobs.items };
}

impl LeftJobs {
    /// The incoming jobs of a table, all left at this moment in milliseconds: a service that starts has no clients.
    pub fn of_table(alloc: Global, table: &Table, since: u64) -> Result<LeftJobs, AllocError>
        ensures { IfOk result (λ left. left ≡ all_left since (finite.values table.now.state.jobs)) }
    {
        let mut jobs = Vec::new(alloc);
        for row in table.jobs().iter() {
            if row.job.phase.is_incoming() {
                jobs.push(LeftJob {
                    job: row.job.id,
                    since,
                })?;
            }
        }
        Ok(LeftJobs { jobs })
    }

    /// Notes that the client of a job has disconnected. A job that is not incoming, or was left before, is not added.
    pub fn note(&mut self, table: &Table, job: JobId, since: u64) -> Result<(), AllocError>
        ensures ok { OnOk result (still_incoming table.now.state self.new ≡ with_left table.now.state (still_incoming table.now.state self.old) job since) }
        ensures err { OnErr result (still_incoming table.now.state self.new ≡ still_incoming table.now.state self.old) }
    {
        if !is_incoming_at(table, job) || self.has(job) {
            return Ok(());
        }
        self.make_room(table);
        self.jobs.push(LeftJob { job, since })?;
        Ok(())
    }

    // Removes the jobs that are not incoming any more, if the list is full.
    fn make_room(&mut self, table: &Table)
        ensures { still_incoming table.now.state self.new ≡ still_incoming table.now.state self.old }
    {
        if self.jobs.len() == self.jobs.capacity() {
            self.keep_incoming(table);
        }
    }

    /// Removes the jobs that are not incoming any more.
    pub fn keep_incoming(&mut self, table: &Table)
        ensures { self.new ≡ still_incoming table.now.state self.old }
    {
        self.jobs.retain(|left| is_incoming_at(table, left.job));
    }

    /// Returns whether no job was left.
    pub fn is_empty(&self) -> bool
        ensures { result ≡ nat_eq (length self.now) 0 }
    {
        self.jobs.is_empty()
    }

    /// Returns the first job that is still incoming and to which nothing was sent after a moment in milliseconds.
    pub fn left_until(&self, table: &Table, until: u64) -> Option<JobId>
        ensures { result ≡ left_until until (still_incoming table.now.state self.now) }
    {
        for left in &self.jobs {
            if is_incoming_at(table, left.job) && left.since <= until {
                return Some(left.job);
            }
        }
        None
    }

    /// Returns when the job that waits longest was left or sent to, in milliseconds.
    pub fn oldest(&self) -> Option<u64>
        ensures { result ≡ oldest_of self.now }
    {
        let mut oldest = None;
        for left in &self.jobs {
            oldest = Some(earlier_of(oldest, left.since));
        }
        oldest
    }

    pub fn has(&self, job: JobId) -> bool
        ensures { result ≡ has_left self.now job }
    {
        self.jobs.iter().any(|left| left.job == job)
    }

    /// Notes that a client sent to a job at a moment in milliseconds. If the job was left, its age restarts.
    pub fn touch(&mut self, job: JobId, since: u64)
        ensures { self.new ≡ touched self.old job since }
    {
        for left in self.jobs.iter_mut() {
            touch_one(left, job, since);
        }
    }

    /// A line for each of these jobs that is still incoming, with its age in seconds at a moment in milliseconds, then `ok K`.
    pub fn text(&self, alloc: Global, table: &Table, now: u64) -> Result<Vec<u8>, AllocError>
        ensures { IfOk result (λ text. text.items ≡ incoming_text now table.now.state self.now) }
    {
        let mut text = Vec::new(alloc);
        let mut count = 0;
        for left in &self.jobs {
            let incoming = is_incoming_at(table, left.job);
            push_still(&mut text, left, now, incoming)?;
            count += usize::from(incoming);
        }
        push_count(&mut text, count)?;
        Ok(text)
    }
}

// The earlier of two moments, if there is a first one.
fn earlier_of(oldest: Option<u64>, since: u64) -> u64
    ensures { result ≡ earlier_of oldest since }
{
    match oldest {
        Some(oldest) => oldest.min(since),
        None => since,
    }
}

// Restarts the age of a left job, if it has this number.
fn touch_one(left: &mut LeftJob, job: JobId, since: u64)
    ensures { left.new ≡ touched_one job since left.old }
{
    if left.job == job {
        left.since = since;
    }
}

// Returns whether the job is incoming.
fn is_incoming_at(table: &Table, job: JobId) -> bool
    ensures { result ≡ is_incoming_at table.now.state job }
{
    match table.job(job) {
        Some(row) => row.job.phase.is_incoming(),
        None => false,
    }
}

// Appends the line of a job, if it is still incoming.
fn push_still(
    text: &mut Vec<u8>,
    left: &LeftJob,
    now: u64,
    incoming: bool,
) -> Result<(), AllocError>
    ensures { (s : State) → incoming ≡ is_incoming_at s left.now.job → OnOk result (text.new.items ≡ text.old.items ++ still_line now s left.now) }
{
    if !incoming {
        return Ok(());
    }
    let job = left.job.get();
    let age = now.saturating_sub(left.since) / SECOND;
    write!(text, "incoming {job} {age}\n").map_err(|_| AllocError)
}
