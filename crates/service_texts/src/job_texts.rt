//! The replies about one job.
ghost use Rattle.std.specs.Prelude.{◌≡◌, ◌++◌, IfOk, OnOk, option_copied, map};
ghost use Rattle.spool_types.specs.State.{job_of};
ghost use Rattle.std.specs.Option.{option_map};
ghost use Rattle.event_records.specs.SeenTimes.{job_times};
ghost use Rattle.service_texts.specs.Shown.{by_text, first_times, has_other_size, has_settled, hold_text, job_counts, job_fields, job_marks, job_names, job_progress, job_ranks, job_request, job_row, job_times_text, job_wishes, last_times, media_text, phase_text, seen, seen_text, shown_job, shown_line, shown_lines, state_and_phase_text, state_text, time_line, time_word, told_job};

use client_standing::Standing;
use command_lines::{push_job_as, push_quoted};
use event_records::{JobTimes, Seen};
use job_rows::Rows;
use job_table::Table;
use spool_types::{Hold, Job, JobId, MediaType, Moment, Phase};
use std::alloc::{AllocError, Global};
use std::io::Write;

/// The job with all its fields and times, each on a line `NAME VALUE`, as the client sees it, then `ok 1`; `error job` if it does not exist.
pub fn shown_job(
    alloc: Global,
    table: &Table,
    seen: &Seen,
    client: &Standing,
    id: JobId,
) -> Result<Vec<u8>, AllocError>
    ensures { IfOk result (λ text. text.items ≡ shown_job client.now (job_times seen.now) table.now.state id) }
{
    let Some(row) = table.job(id) else {
        return Vec::from_slice(alloc, b"error job\n");
    };
    let times = seen.job(id);
    let mut text = Vec::new(alloc);
    let hidden = !client.shows(&row.job);
    push_fields(&mut text, &row.job, &table.now(), hidden, &times)?;
    text.extend_from_slice(b"ok 1\n")?;
    Ok(text)
}

/// The line of the listing that shows this job as the client sees it, then `ok 1`; `error job` if it does not exist.
pub fn job_told(
    alloc: Global,
    table: &Table,
    client: &Standing,
    id: JobId,
) -> Result<Vec<u8>, AllocError>
    ensures { IfOk result (λ text. text.items ≡ told_job client.now table.now.state id) }
{
    let Some(row) = table.job(id) else {
        return Vec::from_slice(alloc, b"error job\n");
    };
    let mut text = Vec::new(alloc);
    push_shown_line(&mut text, &row.job, client, &table.now())?;
    text.extend_from_slice(b"ok 1\n")?;
    Ok(text)
}

/// Whether a wait for the end of this job is over: it has ended or does not exist.
pub fn has_settled(table: &Table, id: JobId) -> bool
    ensures { result ≡ has_settled table.now.state id }
{
    let ended = table.job(id).map(|row| row.job.phase.has_ended());
    ended_jobs::has_settled(ended)
}

/// Whether a job is incoming and its document has another size than this.
pub fn has_other_size(table: &Table, id: JobId, size: u64) -> bool
    ensures { result ≡ has_other_size table.now.state id size }
{
    match table.job(id) {
        Some(row) => row.job.phase.is_incoming() && u64::from(row.job.size) != size,
        None => false,
    }
}

/// Appends the fields and times of a job at the moment `now`. If `hidden`, its user, its title and its options are shown as empty texts. If
/// memory runs out, a part of them may have been appended.
pub(crate) fn push_fields(
    text: &mut Vec<u8>,
    job: &Job,
    now: &Moment,
    hidden: bool,
    times: &JobTimes,
) -> Result<(), AllocError>
    ensures { OnOk result (text.new.items ≡ text.old.items ++ job_fields now.now hidden times.now job.now) }
{
    push_row(text, job, now, hidden)?;
    push_times(text, job, times)
}

fn push_row(text: &mut Vec<u8>, job: &Job, now: &Moment, hidden: bool) -> Result<(), AllocError>
    ensures { OnOk result (text.new.items ≡ text.old.items ++ job_row now.now hidden job.now) }
{
    push_request(text, job, hidden)?;
    push_progress(text, job, now)
}

/// Appends the line of the listing that shows a job at the moment `now`, as the client sees it. If memory runs out, a part of it may have been
/// appended.
pub fn push_shown_line(
    text: &mut Vec<u8>,
    job: &Job,
    client: &Standing,
    now: &Moment,
) -> Result<(), AllocError>
    ensures { OnOk result (text.new.items ≡ text.old.items ++ shown_line client.now now.now job.now) }
{
    let hidden = !client.shows(job);
    let user = seen_text(hidden, job.user.as_str());
    let title = seen_text(hidden, job.title.as_str());
    push_job_as(text, job, now, user, title)
}

/// Appends the lines of the listing of these jobs, as the client sees them. If memory runs out, a part of them may have been appended.
pub fn push_shown_jobs(
    text: &mut Vec<u8>,
    rows: &Rows,
    client: &Standing,
    now: Moment,
) -> Result<(), AllocError>
    ensures { OnOk result (text.new.items ≡ text.old.items ++ shown_lines client.now now (map job_of rows.now.items)) }
{
    for row in rows.iter() {
        push_shown_line(text, &row.job, client, &now)?;
    }
    Ok(())
}

/// Returns the text, or an empty one if it is hidden.
pub(crate) fn seen_text(hidden: bool, text: &str) -> &str
    ensures { result.now ≡ seen_text hidden text.now }
{
    if hidden { "" } else { text }
}

// Appends the fields of the job's request.
fn push_request(text: &mut Vec<u8>, job: &Job, hidden: bool) -> Result<(), AllocError>
    ensures { OnOk result (text.new.items ≡ text.old.items ++ job_request (seen hidden job.now)) }
{
    push_names(text, job, hidden)?;
    push_wishes(text, job, hidden)?;
    push_ranks(text, job)
}

fn push_names(text: &mut Vec<u8>, job: &Job, hidden: bool) -> Result<(), AllocError>
    ensures { OnOk result (text.new.items ≡ text.old.items ++ job_names (seen hidden job.now)) }
{
    let number = job.id.get();
    let queue = job.queue.as_str();
    write!(text, "job {number}\nqueue {queue}\nuser ").map_err(|_| AllocError)?;
    push_quoted(text, seen_text(hidden, job.user.as_str()))?;
    text.extend_from_slice(b"\n")
}

fn push_wishes(text: &mut Vec<u8>, job: &Job, hidden: bool) -> Result<(), AllocError>
    ensures { OnOk result (text.new.items ≡ text.old.items ++ job_wishes (seen hidden job.now)) }
{
    text.extend_from_slice(b"title ")?;
    push_quoted(text, seen_text(hidden, job.title.as_str()))?;
    text.extend_from_slice(b"\noptions ")?;
    push_quoted(text, seen_text(hidden, job.options.as_str()))?;
    text.extend_from_slice(b"\n")
}

fn push_ranks(text: &mut Vec<u8>, job: &Job) -> Result<(), AllocError>
    ensures { OnOk result (text.new.items ≡ text.old.items ++ job_ranks job.now) }
{
    let copies = job.copies.get();
    let priority = job.priority.get();
    write!(text, "copies {copies}\npriority {priority}\n").map_err(|_| AllocError)
}

// Appends the fields of the job's progress, at the moment `now`.
fn push_progress(text: &mut Vec<u8>, job: &Job, now: &Moment) -> Result<(), AllocError>
    ensures { OnOk result (text.new.items ≡ text.old.items ++ job_progress now.now job.now) }
{
    push_counts(text, job)?;
    push_marks(text, job)?;
    push_state_and_phase(text, &job.phase, now)
}

fn push_counts(text: &mut Vec<u8>, job: &Job) -> Result<(), AllocError>
    ensures { OnOk result (text.new.items ≡ text.old.items ++ job_counts job.now) }
{
    let size = job.size;
    let pages = job.pages;
    let attempts = job.attempts;
    write!(text, "size {size}\npages {pages}\nattempts {attempts}\n").map_err(|_| AllocError)
}

fn push_marks(text: &mut Vec<u8>, job: &Job) -> Result<(), AllocError>
    ensures { OnOk result (text.new.items ≡ text.old.items ++ job_marks job.now) }
{
    push_media(text, job.media.as_ref())?;
    push_by(text, job.by)
}

fn push_media(text: &mut Vec<u8>, media: Option<&MediaType>) -> Result<(), AllocError>
    ensures { OnOk result (text.new.items ≡ text.old.items ++ media_text (option_copied media.entry)) }
{
    let Some(media) = media else {
        return Ok(());
    };
    let media = media.as_str();
    write!(text, "type {media}\n").map_err(|_| AllocError)
}

fn push_by(text: &mut Vec<u8>, by: Option<Moment>) -> Result<(), AllocError>
    ensures { OnOk result (text.new.items ≡ text.old.items ++ by_text by) }
{
    let Some(by) = by else {
        return Ok(());
    };
    let moment = by.get();
    write!(text, "by {moment}\n").map_err(|_| AllocError)
}

fn push_state_and_phase(text: &mut Vec<u8>, phase: &Phase, now: &Moment) -> Result<(), AllocError>
    ensures { OnOk result (text.new.items ≡ text.old.items ++ state_and_phase_text now.now phase.now) }
{
    push_state(text, phase, now)?;
    push_hold(text, phase.hold())?;
    push_phase(text, *phase)
}

fn push_state(text: &mut Vec<u8>, phase: &Phase, now: &Moment) -> Result<(), AllocError>
    ensures { OnOk result (text.new.items ≡ text.old.items ++ state_text now.now phase.now) }
{
    let state = phase.job_state(*now);
    let reason = phase.job_reason(now);
    write!(text, "state {state}\nreason {reason}\n").map_err(|_| AllocError)
}

fn push_hold(text: &mut Vec<u8>, hold: Hold) -> Result<(), AllocError>
    ensures { OnOk result (text.new.items ≡ text.old.items ++ hold_text hold) }
{
    match hold {
        Hold::Until(moment) => {
            let moment = moment.get();
            write!(text, "hold-until {moment}\n").map_err(|_| AllocError)
        }
        Hold::Free | Hold::Indefinite(_) => Ok(()),
    }
}

fn push_phase(text: &mut Vec<u8>, phase: Phase) -> Result<(), AllocError>
    ensures { OnOk result (text.new.items ≡ text.old.items ++ phase_text phase) }
{
    match phase {
        Phase::Waiting { not_before, .. } => {
            let moment = not_before.get();
            write!(text, "not-before {moment}\n").map_err(|_| AllocError)
        }
        Phase::Processing {
            attempt,
            stage,
            stages,
        } => {
            write!(text, "stage {stage} of {stages} attempt {attempt}\n").map_err(|_| AllocError)
        }
        _ => Ok(()),
    }
}

// Appends the times of the states that the job has reached.
fn push_times(text: &mut Vec<u8>, job: &Job, times: &JobTimes) -> Result<(), AllocError>
    ensures { OnOk result (text.new.items ≡ text.old.items ++ job_times_text times.now job.now) }
{
    push_first_times(text, job, times)?;
    push_last_times(text, job, times)
}

fn push_first_times(text: &mut Vec<u8>, job: &Job, times: &JobTimes) -> Result<(), AllocError>
    ensures { OnOk result (text.new.items ≡ text.old.items ++ first_times times.now job.now) }
{
    push_time(text, "created", true, times.created)?;
    push_time(text, "closed", job.media.is_some(), times.closed)
}

fn push_last_times(text: &mut Vec<u8>, job: &Job, times: &JobTimes) -> Result<(), AllocError>
    ensures { OnOk result (text.new.items ≡ text.old.items ++ last_times times.now job.now) }
{
    push_time(text, "started", 1 <= job.attempts, times.started)?;
    push_time(text, "ended", job.phase.has_ended(), times.ended)
}

// Appends the time of a state, if the job has reached it.
fn push_time(
    text: &mut Vec<u8>,
    name: &str,
    reached: bool,
    time: Option<Moment>,
) -> Result<(), AllocError>
    ensures { OnOk result (text.new.items ≡ text.old.items ++ time_line name.now reached time) }
{
    if !reached {
        return Ok(());
    }
    text.extend_from_slice(name.as_bytes())?;
    text.extend_from_slice(b" ")?;
    push_time_word(text, time)?;
    text.extend_from_slice(b"\n")
}

/// Appends a moment, or `unknown`.
pub(crate) fn push_time_word(text: &mut Vec<u8>, time: Option<Moment>) -> Result<(), AllocError>
    ensures { OnOk result (text.new.items ≡ text.old.items ++ time_word time) }
{
    let Some(moment) = time else {
        return text.extend_from_slice(b"unknown");
    };
    let moment = moment.get();
    write!(text, "{moment}").map_err(|_| AllocError)
}
