//! Answers to commands, and their text.
ghost use Rattle.std.specs.Prelude.{◌≡◌, ◌++◌, OnOk, map};
ghost use Rattle.spool_types.specs.State.{job_of};
ghost use Rattle.command_lines.specs.Replies.{answer_line, quoted, job_line, job_head, job_sizes, jobs_lines, queue_head, queue_rules, reasons_word, queue_text, refusal_line, created_line, sent_line, closed_line, rounded_line, drained_line, counted_line};

use job_rows::Rows;
use line_words::{is_backslash, is_quote};
use spool_types::{Job, JobId, MediaType, Moment, QueueRow, Reason, Refusal};
use std::alloc::AllocError;
use std::io::Write;

/// The answer to a command, as a value. Its text is its line, after the rows if it is a listing.
#[derive(Drop)]
pub enum Answer {
    Done,
    Created(JobId),
    /// The size of the document so far, in bytes.
    Sent(u32),
    /// The media type of a closed job, and the number of its stages, or `None` if it cannot be printed.
    Closed {
        media: MediaType,
        stages: Option<u8>,
    },
    /// The listing of the jobs, in ascending order of number: how many there are. The rows are those of the table.
    Jobs(usize),
    /// The listing of the queues, in ascending order of name: how many there are. The rows are those of the table.
    Queues(usize),
    /// The number of children that a round started, and the number of ends of stages that were acknowledged in it.
    Rounded {
        started: usize,
        finished: usize,
    },
    /// The number of rounds that were run.
    Drained(u32),
    Refused(Refusal),
    /// The line is not a command.
    Malformed,
    /// The URI of a queue is not that of a device.
    BadUri,
    /// The options of a job are invalid, or their printed form is too long.
    BadOptions,
    /// The spool has failed and must be opened again.
    Dead,
    NoMemory,
    /// The area has no room for the event, or for a listing of the table.
    Full,
    /// The device has failed.
    Disk,
    /// Checkpoints are numbered, and no number is left.
    EpochEnd,
}

/// Appends the line of an answer. Of a listing this is the last line, which counts the rows. If memory runs out, a part of the line may have
/// been appended.
pub fn push_answer(text: &mut Vec<u8>, answer: &Answer) -> Result<(), AllocError>
    ensures { OnOk result (text.new.items ≡ text.old.items ++ answer_line answer.now) }
{
    match answer {
        Answer::Done => text.extend_from_slice(b"ok\n"),
        Answer::Created(job) => push_created(text, *job),
        Answer::Sent(size) => push_sent(text, *size),
        Answer::Closed { media, stages } => push_closed(text, media, *stages),
        Answer::Jobs(count) | Answer::Queues(count) => push_count(text, *count),
        Answer::Rounded { started, finished } => push_rounded(text, *started, *finished),
        Answer::Drained(rounds) => push_drained(text, *rounds),
        Answer::Refused(refusal) => push_refusal(text, *refusal),
        Answer::Malformed => text.extend_from_slice(b"error syntax\n"),
        Answer::BadUri => text.extend_from_slice(b"error uri\n"),
        Answer::BadOptions => text.extend_from_slice(b"error options\n"),
        Answer::Dead => text.extend_from_slice(b"error dead\n"),
        Answer::NoMemory => text.extend_from_slice(b"error memory\n"),
        Answer::Full => text.extend_from_slice(b"error full\n"),
        Answer::Disk => text.extend_from_slice(b"error disk\n"),
        Answer::EpochEnd => text.extend_from_slice(b"error epoch\n"),
    }
}

fn push_created(text: &mut Vec<u8>, job: JobId) -> Result<(), AllocError>
    ensures { OnOk result (text.new.items ≡ text.old.items ++ created_line job) }
{
    let number = job.get();
    write!(text, "ok job {number}\n").map_err(|_| AllocError)
}

fn push_sent(text: &mut Vec<u8>, size: u32) -> Result<(), AllocError>
    ensures { OnOk result (text.new.items ≡ text.old.items ++ sent_line size) }
{
    write!(text, "ok bytes {size}\n").map_err(|_| AllocError)
}

fn push_closed(text: &mut Vec<u8>, media: &MediaType, stages: Option<u8>) -> Result<(), AllocError>
    ensures { OnOk result (text.new.items ≡ text.old.items ++ closed_line media.now stages) }
{
    let media = media.as_str();
    match stages {
        Some(stages) => {
            write!(text, "ok type {media} stages {stages}\n").map_err(|_| AllocError)
        }
        None => write!(text, "ok type {media} unprintable\n").map_err(|_| AllocError),
    }
}

fn push_rounded(text: &mut Vec<u8>, started: usize, finished: usize) -> Result<(), AllocError>
    ensures { OnOk result (text.new.items ≡ text.old.items ++ rounded_line started finished) }
{
    write!(text, "ok started {started} finished {finished}\n").map_err(|_| AllocError)
}

fn push_drained(text: &mut Vec<u8>, rounds: u32) -> Result<(), AllocError>
    ensures { OnOk result (text.new.items ≡ text.old.items ++ drained_line rounds) }
{
    write!(text, "ok rounds {rounds}\n").map_err(|_| AllocError)
}

fn push_refusal(text: &mut Vec<u8>, refusal: Refusal) -> Result<(), AllocError>
    ensures { OnOk result (text.new.items ≡ text.old.items ++ refusal_line refusal) }
{
    let number = refusal.number();
    let name = refusal.name();
    write!(text, "error {number} {name}\n").map_err(|_| AllocError)
}

/// Appends the lines of a listing that show these jobs at the moment `now`. If memory runs out, a part of them may have been appended.
pub fn push_jobs(text: &mut Vec<u8>, rows: &Rows, now: Moment) -> Result<(), AllocError>
    ensures { OnOk result (text.new.items ≡ text.old.items ++ jobs_lines now (map job_of rows.now.items)) }
{
    for row in rows.iter() {
        push_job(text, &row.job, &now)?;
    }
    Ok(())
}

/// Appends the line of a listing that shows this job at the moment `now`. If memory runs out, a part of the line may have been appended.
pub fn push_job(text: &mut Vec<u8>, row: &Job, now: &Moment) -> Result<(), AllocError>
    ensures { OnOk result (text.new.items ≡ text.old.items ++ job_line now.now row.now) }
{
    push_job_as(text, row, now, row.user.as_str(), row.title.as_str())
}

/// Appends the same line with another user and another title.
pub fn push_job_as(
    text: &mut Vec<u8>,
    row: &Job,
    now: &Moment,
    user: &str,
    title: &str,
) -> Result<(), AllocError>
    ensures { OnOk result (text.new.items ≡ text.old.items ++ job_line now.now (record row.now { user = user.now; title = title.now })) }
{
    push_head(text, row, now)?;
    push_quoted(text, user)?;
    push_sizes(text, row)?;
    push_quoted(text, title)?;
    text.push(b'\n')?;
    Ok(())
}

fn push_head(text: &mut Vec<u8>, row: &Job, now: &Moment) -> Result<(), AllocError>
    ensures { OnOk result (text.new.items ≡ text.old.items ++ job_head now.now row.now) }
{
    let number = row.id.get();
    let queue = row.queue.as_str();
    let state = row.phase.job_state(*now);
    let reason = row.phase.job_reason(now);
    write!(text, "job {number} {queue} {state} {reason} ").map_err(|_| AllocError)
}

fn push_sizes(text: &mut Vec<u8>, row: &Job) -> Result<(), AllocError>
    ensures { OnOk result (text.new.items ≡ text.old.items ++ job_sizes row.now) }
{
    let size = row.size;
    let pages = row.pages;
    write!(text, " {size} {pages} ").map_err(|_| AllocError)
}

/// Appends the line of a listing that shows this queue. `busy` states whether a job of it is processing. If memory runs out, a part of the
/// line may have been appended.
pub fn push_queue(text: &mut Vec<u8>, row: &QueueRow, busy: bool) -> Result<(), AllocError>
    ensures { OnOk result (text.new.items ≡ text.old.items ++ queue_text busy row.now) }
{
    push_queue_head(text, row, busy)?;
    push_rules(text, row)?;
    push_reasons(text, row.reasons.as_slice())?;
    text.push(b' ')?;
    push_quoted(text, row.message.as_str())?;
    text.push(b'\n')?;
    Ok(())
}

fn push_queue_head(text: &mut Vec<u8>, row: &QueueRow, busy: bool) -> Result<(), AllocError>
    ensures { OnOk result (text.new.items ≡ text.old.items ++ queue_head busy row.now) }
{
    let name = row.name.as_str();
    let state = row.printer_state(busy);
    let accepting = if row.accepting {
        "accepting"
    } else {
        "rejecting"
    };
    let target = row.target.as_str();
    write!(text, "queue {name} {state} {accepting} {target} ").map_err(|_| AllocError)
}

fn push_rules(text: &mut Vec<u8>, row: &QueueRow) -> Result<(), AllocError>
    ensures { OnOk result (text.new.items ≡ text.old.items ++ queue_rules row.now) }
{
    let policy = row.policy.word();
    let interval = row.interval.get();
    let limit = row.limit;
    write!(text, "{policy} {interval} {limit} ").map_err(|_| AllocError)
}

/// Appends the reasons, joined by commas, or `none`. If memory runs out, a part of them may have been appended.
pub fn push_reasons(text: &mut Vec<u8>, reasons: &[Reason]) -> Result<(), AllocError>
    ensures { OnOk result (text.new.items ≡ text.old.items ++ reasons_word reasons.now) }
{
    let [first, others @ ..] = reasons else {
        return text.extend_from_slice(b"none");
    };
    text.extend_from_slice(first.as_str().as_bytes())?;
    for reason in others {
        text.push(b',')?;
        text.extend_from_slice(reason.as_str().as_bytes())?;
    }
    Ok(())
}

/// Appends the line that ends a listing of this many rows. If memory runs out, a part of the line may have been appended.
pub fn push_count(text: &mut Vec<u8>, count: usize) -> Result<(), AllocError>
    ensures { OnOk result (text.new.items ≡ text.old.items ++ counted_line count) }
{
    write!(text, "ok {count}\n").map_err(|_| AllocError)
}

/// Appends a text in quotes, with its quotes and backslashes escaped. If memory runs out, a part of it may have been appended.
pub fn push_quoted(text: &mut Vec<u8>, value: &str) -> Result<(), AllocError>
    ensures { OnOk result (text.new.items ≡ text.old.items ++ quoted value.now) }
{
    text.push(b'"')?;
    for byte in value.as_bytes() {
        if is_quote(*byte) || is_backslash(*byte) {
            text.push(b'\\')?;
        }
        text.push(*byte)?;
    }
    text.push(b'"')?;
    Ok(())
}
