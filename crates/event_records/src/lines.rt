//! The lines of the log about accepted events.
ghost use Rattle.std.specs.Prelude.{◌≡◌, ◌++◌, codes, OnOk};
ghost use Rattle.std.specs.Fmt.{decimal};
ghost use Rattle.spool_types.specs.Phases.{abort_reason_word};
ghost use Rattle.std.specs.Option.{option_copied};
ghost use Rattle.event_records.specs.EventLines.{aborted_text, again_text, because, clear_byte, clear_name, closed_text, due_text, ended_text, has_line, held_text, is_clear, job_event_line, octal, outcome_text, purge_event_line, queue_event_line, queue_outcome, subject_text};

use crate::deeds::{JobDeed, QueueDeed};
use spool_types::{AbortReason, Hold, Job, JobId, MediaType, Phase, QueueName};
use std::alloc::AllocError;
use std::io::Write;

/// Returns whether an event about a job that is now in this phase has a line.
pub fn has_line(deed: JobDeed, phase: Phase) -> bool
    ensures { result ≡ has_line deed phase }
{
    match deed {
        JobDeed::Sent => false,
        JobDeed::Ended | JobDeed::Abandoned => !phase.is_processing(),
        _ => true,
    }
}

/// Appends the line about an event of a job, which left this row, as `job 17 on office by ana: aborted (backend-failed)`. If memory runs out,
/// a part of it may have been appended.
pub fn push_job_event(text: &mut Vec<u8>, deed: JobDeed, row: &Job) -> Result<(), AllocError>
    ensures { OnOk result (text.new.items ≡ text.old.items ++ job_event_line deed row.now) }
{
    push_subject(text, row)?;
    push_outcome(text, deed, row)
}

/// Appends the line about a job whose row was removed. If memory runs out, a part of it may have been appended.
pub fn push_purge_event(text: &mut Vec<u8>, job: JobId) -> Result<(), AllocError>
    ensures { OnOk result (text.new.items ≡ text.old.items ++ purge_event_line job) }
{
    let number = job.get();
    write!(text, "job {number}: purged").map_err(|_| AllocError)
}

/// Appends the line about an event of a queue. If memory runs out, a part of it may have been appended.
pub fn push_queue_event(
    text: &mut Vec<u8>,
    deed: QueueDeed,
    name: &QueueName,
) -> Result<(), AllocError>
    ensures { OnOk result (text.new.items ≡ text.old.items ++ queue_event_line deed name.now) }
{
    let name = name.as_str();
    let outcome = queue_outcome(deed);
    write!(text, "queue {name}: {outcome}").map_err(|_| AllocError)
}

fn queue_outcome(deed: QueueDeed) -> &'static str
    ensures { result.now ≡ queue_outcome deed }
{
    match deed {
        QueueDeed::Added => "added",
        QueueDeed::Described => "described",
        QueueDeed::Accepts => "accepts jobs",
        QueueDeed::Rejects => "rejects jobs",
        QueueDeed::Stopped => "stopped",
        QueueDeed::Resumed => "started",
    }
}

// Appends the job, its queue and its user.
fn push_subject(text: &mut Vec<u8>, row: &Job) -> Result<(), AllocError>
    ensures { OnOk result (text.new.items ≡ text.old.items ++ subject_text row.now) }
{
    let number = row.id.get();
    let queue = row.queue.as_str();
    write!(text, "job {number} on {queue} by ").map_err(|_| AllocError)?;
    push_clear(text, row.user.as_str())?;
    text.extend_from_slice(b": ")
}

// Appends a name as one word without control characters.
fn push_clear(text: &mut Vec<u8>, name: &str) -> Result<(), AllocError>
    ensures { OnOk result (text.new.items ≡ text.old.items ++ clear_name name.now) }
{
    for byte in name.as_bytes() {
        push_byte(text, *byte)?;
    }
    Ok(())
}

fn push_byte(text: &mut Vec<u8>, byte: u8) -> Result<(), AllocError>
    ensures { OnOk result (text.new.items ≡ text.old.items ++ clear_byte byte) }
{
    if is_clear(byte) {
        text.push(byte)?;
        return Ok(());
    }
    text.push(b'\\')?;
    text.extend_from_slice(&octal(byte))
}

fn is_clear(byte: u8) -> bool
    ensures { result ≡ is_clear byte }
{
    byte.is_ascii_graphic() && byte != b'\\'
}

// Returns the three octal digits of a byte.
fn octal(byte: u8) -> [u8; 3]
    ensures { result ≡ octal byte }
{
    [byte / 64 + 48, byte / 8 % 8 + 48, byte % 8 + 48]
}

// Appends the outcome of an event.
fn push_outcome(text: &mut Vec<u8>, deed: JobDeed, row: &Job) -> Result<(), AllocError>
    ensures { OnOk result (text.new.items ≡ text.old.items ++ outcome_text deed row.now) }
{
    match deed {
        JobDeed::Created => text.extend_from_slice(b"created"),
        JobDeed::Sent => Ok(()),
        JobDeed::Closed => push_closed(text, row.media.as_ref(), row.phase),
        JobDeed::Held => push_held(text, row.phase.hold()),
        JobDeed::Released => text.extend_from_slice(b"released"),
        JobDeed::Canceled => text.extend_from_slice(b"canceled"),
        JobDeed::Interrupted => text.extend_from_slice(b"canceled (processing)"),
        JobDeed::Started => push_started(text, row.attempts),
        JobDeed::Ended | JobDeed::Abandoned => push_ended(text, row.attempts, row.phase),
        JobDeed::Due => text.extend_from_slice(due_text(row.phase)),
        JobDeed::Purged => text.extend_from_slice(b"purged"),
    }
}

fn push_started(text: &mut Vec<u8>, attempt: u32) -> Result<(), AllocError>
    ensures { OnOk result (text.new.items ≡ text.old.items ++ because (codes "started") (codes "attempt " ++ decimal attempt)) }
{
    write!(text, "started (attempt {attempt})").map_err(|_| AllocError)
}

fn push_closed(
    text: &mut Vec<u8>,
    media: Option<&MediaType>,
    phase: Phase,
) -> Result<(), AllocError>
    ensures { OnOk result (text.new.items ≡ text.old.items ++ closed_text (option_copied media.entry) phase) }
{
    match (phase, media) {
        (Phase::Aborted(reason), _) => push_aborted(text, reason),
        (_, None) => text.extend_from_slice(b"closed"),
        (_, Some(media)) => {
            let media = media.as_str();
            write!(text, "closed ({media})").map_err(|_| AllocError)
        }
    }
}

fn push_aborted(text: &mut Vec<u8>, reason: AbortReason) -> Result<(), AllocError>
    ensures { OnOk result (text.new.items ≡ text.old.items ++ aborted_text (abort_reason_word reason)) }
{
    let reason = reason.word();
    write!(text, "aborted ({reason})").map_err(|_| AllocError)
}

fn push_held(text: &mut Vec<u8>, hold: Hold) -> Result<(), AllocError>
    ensures { OnOk result (text.new.items ≡ text.old.items ++ held_text hold) }
{
    match hold {
        Hold::Free => text.extend_from_slice(b"held"),
        Hold::Indefinite(reason) => {
            let reason = reason.word();
            write!(text, "held ({reason})").map_err(|_| AllocError)
        }
        Hold::Until(moment) => {
            let moment = moment.get();
            write!(text, "held (until {moment})").map_err(|_| AllocError)
        }
    }
}

// Appends the end of an attempt, by the phase after it.
fn push_ended(text: &mut Vec<u8>, attempts: u32, phase: Phase) -> Result<(), AllocError>
    ensures { OnOk result (text.new.items ≡ text.old.items ++ ended_text attempts phase) }
{
    match phase {
        Phase::Incoming(_) | Phase::Processing { .. } => Ok(()),
        Phase::Waiting { hold, .. } => push_again(text, attempts, hold),
        Phase::Completed => text.extend_from_slice(b"completed"),
        Phase::Canceled => text.extend_from_slice(b"canceled (backend)"),
        Phase::Aborted(reason) => push_aborted(text, reason),
    }
}

fn push_again(text: &mut Vec<u8>, attempt: u32, hold: Hold) -> Result<(), AllocError>
    ensures { OnOk result (text.new.items ≡ text.old.items ++ again_text attempt hold) }
{
    match hold {
        Hold::Indefinite(_) => push_held(text, hold),
        Hold::Free | Hold::Until(_) => {
            write!(text, "attempt {attempt} failed").map_err(|_| AllocError)
        }
    }
}

fn due_text(phase: Phase) -> &'static [u8]
    ensures { result.now ≡ due_text phase }
{
    match phase {
        Phase::Canceled => b"canceled (not started in time)",
        _ => b"released (hold ended)",
    }
}
