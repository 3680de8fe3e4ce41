//! The rows of jobs.
ghost use Rattle.std.specs.Prelude.{◌≡◌, None, Some, IfOk, IfSome};
ghost use Rattle.std.specs.Option.{option_and_then};
ghost use Rattle.spool_types.specs.Values.{is_media_type, text_in};
ghost use Rattle.front_texts.specs.JobPage.{shown_job};
ghost use Rattle.ipp_facts.specs.JobReports.{IsReportOf, in_time, reached_at, reached_by, reason_of, rows_text, seconds_of, stamp_of};

use front_texts::{JobShown, TimeShown, read_job_shown};
use ipp_answers::{JobFacts, JobReason, Reached, Timestamp};
use spool_types::{MediaName, MediaType, Moment, Reason, UserName};
use std::alloc::{AllocError, Global};

// Joins the lines of a reply, each with its line feed.
#[tactic(auto, using(std::proofs::lemmas::List::flat_map_more))]
fn joined(alloc: Global, rows: &[Vec<u8>]) -> Result<Vec<u8>, AllocError>
    ensures { IfOk result (λ text. text.items ≡ rows_text rows.now) }
{
    let mut text = Vec::new(alloc);
    for row in rows {
        text.extend_from_slice(row.as_slice())?;
        text.extend_from_slice(b"\n")?;
    }
    Ok(text)
}

/// Reads the lines of `job N`.
pub fn shown_in(alloc: Global, rows: &[Vec<u8>]) -> Result<Option<JobShown>, AllocError>
    ensures { IfOk result (λ shown. shown ≡ shown_job (rows_text rows.now)) }
{
    let text = joined(alloc, rows)?;
    read_job_shown(alloc, text.as_slice())
}

/// Returns the facts of a job, or `None` if its reason is none that an answer has.
pub fn job_facts(alloc: Global, job: JobShown) -> Result<Option<JobFacts>, AllocError>
    ensures none { IfOk result (λ facts. facts ≡ None → reason_of job.job_status.reason ≡ None) }
    ensures some { IfOk result (λ facts. IfSome facts (IsReportOf job)) }
{
    match reason_of(&job.job_status.reason) {
        Some(reason) => Ok(Some(facts_with(alloc, job, reason)?)),
        None => Ok(None),
    }
}

fn reason_of(reason: &Option<Reason>) -> Option<JobReason>
    ensures { result ≡ reason_of reason.now }
{
    match reason {
        Some(reason) => JobReason::from_word(reason.as_str()),
        None => JobReason::from_word("none"),
    }
}

// Returns the facts of a job with this reason.
fn facts_with(alloc: Global, job: JobShown, reason: JobReason) -> Result<JobFacts, AllocError>
    requires { Some reason ≡ reason_of job.job_status.reason }
    ensures { IfOk result (IsReportOf job) }
{
    let JobShown {
        asked,
        job_status,
        times,
    } = job;
    let user = UserName::from_word(alloc, asked.user.as_str().as_bytes())?;
    let format = format_of(alloc, &job_status.media)?;
    Ok(JobFacts {
        id: asked.number,
        queue: asked.queue,
        user,
        title: asked.title,
        reason,
        held_until: stamp(job_status.hold_until),
        copies: asked.copies,
        priority: asked.priority,
        size: job_status.size,
        impressions: job_status.pages,
        format,
        created: reached(times.created),
        started: reached(times.started),
        ended: reached(times.ended),
    })
}

fn format_of(alloc: Global, media: &Option<MediaType>) -> Result<Option<MediaName>, AllocError>
    ensures { IfOk result (λ format. format ≡ option_and_then (text_in is_media_type) media.now) }
{
    match media {
        Some(media) => MediaName::from_word(alloc, media.as_str().as_bytes()),
        None => Ok(None),
    }
}

fn stamp(moment: Option<Moment>) -> Option<Timestamp>
    ensures { seconds_of result ≡ stamp_of moment }
{
    match moment {
        Some(moment) => timestamp_at(moment.get()),
        None => None,
    }
}

/// Returns a time, unless it is of the year 10,000 or later.
pub fn timestamp_at(seconds: u64) -> Option<Timestamp>
    ensures { seconds_of result ≡ in_time seconds }
{
    Timestamp::of_seconds(seconds)
}

fn reached(time: Option<TimeShown>) -> Reached
    ensures { reached_at result ≡ reached_by time }
{
    match time {
        Some(time) => reached_in(time),
        None => Reached::NotYet,
    }
}

fn reached_in(time: TimeShown) -> Reached
    ensures { reached_at result ≡ reached_by (Some time) }
{
    match time {
        TimeShown::At(moment) => known(timestamp_at(moment.get())),
        TimeShown::Unknown => Reached::Unknown,
    }
}

fn known(stamp: Option<Timestamp>) -> Reached
    ensures { reached_at result ≡ Some (seconds_of stamp) }
{
    match stamp {
        Some(stamp) => Reached::At(stamp),
        None => Reached::Unknown,
    }
}

/// Reads the jobs of a listing, each of which begins with a line `job N`.
pub fn jobs_shown_in(alloc: Global, rows: &[Vec<u8>]) -> Result<Vec<JobShown>, AllocError> {
    let mut found = Vec::new(alloc);
    let mut fields = Vec::new(alloc);
    for row in rows {
        if row.as_slice().starts_with(b"job ") {
            push_shown(alloc, &mut found, fields.as_slice())?;
            fields.clear();
        }
        fields.extend_from_slice(row.as_slice())?;
        fields.extend_from_slice(b"\n")?;
    }
    push_shown(alloc, &mut found, fields.as_slice())?;
    Ok(found)
}

fn push_shown(alloc: Global, found: &mut Vec<JobShown>, fields: &[u8]) -> Result<(), AllocError> {
    if let Some(shown) = read_job_shown(alloc, fields)? {
        found.push(shown)?;
    }
    Ok(())
}
