//! Jobs with their ages.
ghost use Rattle.std.specs.Prelude.{◌≡◌, ◌++◌, IfOk, OnOk};
ghost use Rattle.front_texts.specs.AgedJobs.{age_at, age_of, age_words, aged, aged_in, aged_jobs, counted, ended_before, fields_with, first_left, is_first, kept, left_of, left_until, line_of};

use crate::fields::is_word;
use crate::job_line::JobLine;
use crate::job_shown::{JobAsked, JobShown, JobStatus, read_job_shown};
use crate::job_times::TimeShown;
use line_words::first_word;
use spool_types::Moment;
use std::alloc::{AllocError, Global};
use std::io::Write;

// The greatest numbers of seconds that are shown as seconds, as minutes and as hours.
const MOST_IN_SECONDS: u64 = 59;

const MOST_IN_MINUTES: u64 = 3_599;

const MOST_IN_HOURS: u64 = 172_799;

/// A job of a listing, and times in seconds.
#[derive(Drop)]
pub struct AgedJob {
    pub line: JobLine,
    /// Its age, if the service knows when the job was created.
    pub age: Option<u64>,
    /// How long it is still held, or how long it still waits for its next attempt.
    pub left: Option<u64>,
}

/// Reads the jobs in the rows of a reply to `list`, with their ages at a time of the service. A job whose rows are invalid is left out.
pub fn read_aged_jobs(
    alloc: Global,
    rows: &[Vec<u8>],
    now: Option<u64>,
) -> Result<Vec<AgedJob>, AllocError>
    ensures value { IfOk result (λ jobs. jobs.items ≡ aged_jobs now rows.now) }
{
    let mut jobs = Vec::new(alloc);
    let mut fields = Vec::new(alloc);
    for row in rows {
        end_job(alloc, &mut jobs, &fields, row, now)?;
        push_row(&mut fields, row)?;
    }
    push_aged(alloc, &mut jobs, &fields, now)?;
    Ok(jobs)
}

// Appends the job in the rows before this one, if this is the first row of another job.
fn end_job(
    alloc: Global,
    jobs: &mut Vec<AgedJob>,
    fields: &Vec<u8>,
    row: &Vec<u8>,
    now: Option<u64>,
) -> Result<(), AllocError>
    ensures { OnOk result (jobs.new.items ≡ jobs.old.items ++ ended_before now fields.now.items row.now.items) }
{
    if is_first(row.as_slice()) {
        push_aged(alloc, jobs, fields, now)
    } else {
        Ok(())
    }
}

// Returns whether a row is the first one of a job.
fn is_first(row: &[u8]) -> bool
    ensures { result ≡ is_first row.now }
{
    let (name, _) = first_word(row);
    is_word(name, b"job")
}

// Appends a row to those of its job, and drops those of the job before.
fn push_row(fields: &mut Vec<u8>, row: &Vec<u8>) -> Result<(), AllocError>
    ensures { OnOk result (fields.new.items ≡ fields_with fields.old.items row.now.items) }
{
    keep_own(fields, row.as_slice());
    fields.extend_from_slice(row.as_slice())?;
    fields.extend_from_slice(b"\n")
}

fn keep_own(fields: &mut Vec<u8>, row: &[u8])
    ensures { fields.new.items ≡ kept fields.old.items row.now }
{
    if is_first(row) {
        fields.clear();
    }
}

// Appends the job in these rows, if they are those of a job.
#[tactic(auto, unfolding(crate::specs::AgedJobs::aged_in))]
fn push_aged(
    alloc: Global,
    jobs: &mut Vec<AgedJob>,
    fields: &Vec<u8>,
    now: Option<u64>,
) -> Result<(), AllocError>
    ensures { OnOk result (jobs.new.items ≡ jobs.old.items ++ aged_in now fields.now.items) }
{
    match read_job_shown(alloc, fields.as_slice())? {
        Some(job) => {
            jobs.push(aged(job, now))?;
            Ok(())
        }
        None => Ok(()),
    }
}

fn aged(job: JobShown, now: Option<u64>) -> AgedJob
    ensures { result ≡ aged now job }
{
    let JobShown {
        asked,
        job_status,
        times,
    } = job;
    let left = left_of(now, &job_status);
    AgedJob {
        line: line_of(asked, job_status),
        age: age_of(now, times.created),
        left,
    }
}

fn age_of(now: Option<u64>, created: Option<TimeShown>) -> Option<u64>
    ensures { result ≡ age_of now created }
{
    let (Some(now), Some(created)) = (now, created) else {
        return None;
    };
    age_at(now, created)
}

fn age_at(now: u64, created: TimeShown) -> Option<u64>
    ensures { result ≡ age_at now created }
{
    match created {
        TimeShown::At(moment) => Some(now.saturating_sub(moment.get())),
        TimeShown::Unknown => None,
    }
}

// Returns the seconds until the hold of a job ends, or else until its next attempt is due.
fn left_of(now: Option<u64>, job_status: &JobStatus) -> Option<u64>
    ensures { result ≡ left_of now job_status.now }
{
    first_left(
        left_until(now, job_status.hold_until),
        left_until(now, job_status.not_before),
    )
}

fn first_left(hold: Option<u64>, attempt: Option<u64>) -> Option<u64>
    ensures { result ≡ first_left hold attempt }
{
    match hold {
        Some(hold) => Some(hold),
        None => attempt,
    }
}

// Returns the seconds from a time to a later moment.
fn left_until(now: Option<u64>, moment: Option<Moment>) -> Option<u64>
    ensures { result ≡ left_until now moment }
{
    let (Some(now), Some(moment)) = (now, moment) else {
        return None;
    };
    if now < moment.get() {
        Some(moment.get() - now)
    } else {
        None
    }
}

fn line_of(asked: JobAsked, job_status: JobStatus) -> JobLine
    ensures { result ≡ line_of asked job_status }
{
    JobLine {
        number: asked.number,
        queue: asked.queue,
        state: job_status.state,
        reason: job_status.reason,
        user: asked.user,
        size: job_status.size,
        pages: job_status.pages,
        title: asked.title,
    }
}

/// Appends an age in words: in seconds, minutes, hours or days, rounded down.
pub(crate) fn push_age_words(page: &mut Vec<u8>, seconds: u64) -> Result<(), AllocError>
    ensures { OnOk result (page.new.items ≡ page.old.items ++ age_words seconds) }
{
    if seconds <= MOST_IN_SECONDS {
        push_counted(page, seconds, "s")
    } else if seconds <= MOST_IN_MINUTES {
        push_counted(page, seconds / 60, "min")
    } else if seconds <= MOST_IN_HOURS {
        push_counted(page, seconds / 3_600, "h")
    } else {
        push_counted(page, seconds / 86_400, "d")
    }
}

fn push_counted(page: &mut Vec<u8>, count: u64, unit: &str) -> Result<(), AllocError>
    ensures { OnOk result (page.new.items ≡ page.old.items ++ counted count unit.now) }
{
    write!(page, "{count} {unit}").map_err(|_| AllocError)
}
