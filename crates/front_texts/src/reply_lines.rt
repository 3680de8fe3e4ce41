//! The last lines of replies, and the lines of `watch`.
ghost use Rattle.std.specs.Prelude.{◌≡◌, IfOk};
ghost use Rattle.std.specs.List.{before_first, after_first};
ghost use Rattle.std.specs.Option.{option_map};
ghost use Rattle.front_texts.specs.ReplyLines.{is_space, last_of, last_line, error_line, now_in, next_in, job_news, queue_news, watch_line, gone_line, gone_job, gone_queue};

use crate::fields::{count, is_end, is_word};
use crate::job_line::{JobLine, read_job_line};
use crate::queue_line::{QueueLine, read_queue_line};
use command_lines::job_number;
use line_words::{decimal, first_word};
use spool_types::{JobId, QueueName};
use std::alloc::{AllocError, Global};

// The greatest moment that a service reports, in seconds.
const GREATEST_MOMENT: u64 = 4_000_000_000_000;

// The greatest number of a job.
const GREATEST_NUMBER: u64 = 2_147_483_647;

/// The last line of a reply.
#[derive(Clone, Copy, Debug)]
pub enum LastLine<'a> {
    /// `ok` and the words after it.
    Done { words: &'a str },
    /// `error N NAME`: a refusal with a number.
    Refused { number: u32, name: &'a str },
    /// `error WORD`: an error without a number.
    Failed { word: &'a str },
}

/// A line of `watch`.
#[derive(Drop)]
pub enum WatchLine {
    Job(JobLine),
    Queue(QueueLine),
    GoneJob(JobId),
    GoneQueue(QueueName),
    /// Lines were omitted, so the client must query the state again.
    Missed,
}

/// Reads the last line of a reply, without its line feed. Returns `None` for a row and for any line that does not end a reply.
pub fn read_last_line(line: &str) -> Option<LastLine<'_>>
    ensures value { option_map last_of result ≡ last_line line.now }
{
    let (word, words) = parted(line);
    if word == "ok" {
        return Some(LastLine::Done { words });
    }
    if word == "error" {
        return Some(error_line(words));
    }
    None
}

// Reads the words after `error`.
fn error_line(words: &str) -> LastLine<'_>
    ensures { last_of result ≡ error_line words.now }
{
    let (number, name) = parted(words);
    match count(number.as_bytes()) {
        Some(number) => LastLine::Refused { number, name },
        None => LastLine::Failed { word: words },
    }
}

// Splits the line at its first blank, which is dropped.
fn parted(line: &str) -> (&str, &str)
    ensures word { result.0.now ≡ before_first is_space line.now }
    ensures rest { result.1.now ≡ after_first is_space line.now }
{
    match line.split_once(' ') {
        Some(parts) => parts,
        None => (line, ""),
    }
}

/// Returns the time in the last line of a reply to `now`, in seconds since 1970.
pub fn now_in(line: &str) -> Option<u64>
    ensures value { result ≡ now_in line.now }
{
    let Some(LastLine::Done { words }) = read_last_line(line) else {
        return None;
    };
    let (word, seconds) = words.split_once(' ')?;
    if word == "now" {
        decimal(seconds.as_bytes(), GREATEST_MOMENT)
    } else {
        None
    }
}

/// Returns the number from which a listing goes on, from the last line of a reply to `list`.
pub fn next_in(line: &str) -> Option<u64>
    ensures value { result ≡ next_in line.now }
{
    let Some(LastLine::Done { words }) = read_last_line(line) else {
        return None;
    };
    let (_, rest) = words.split_once(' ')?;
    let (word, number) = rest.split_once(' ')?;
    if word == "more" {
        decimal(number.as_bytes(), GREATEST_NUMBER)
    } else {
        None
    }
}

/// Reads a line of `watch`, without its line feed. Returns `None` if it is invalid.
pub fn read_watch_line(alloc: Global, line: &[u8]) -> Result<Option<WatchLine>, AllocError>
    ensures value { IfOk result (λ news. news ≡ watch_line line.now) }
{
    let (name, rest) = first_word(line);
    if is_word(name, b"job") {
        return Ok(job_news(read_job_line(alloc, line)?));
    }
    if is_word(name, b"queue") {
        return Ok(queue_news(read_queue_line(alloc, line)?));
    }
    if is_word(name, b"gone") {
        return gone_line(alloc, rest);
    }
    if is_word(name, b"missed") && is_end(rest) {
        return Ok(Some(WatchLine::Missed));
    }
    Ok(None)
}

fn job_news(job: Option<JobLine>) -> Option<WatchLine>
    ensures { result ≡ job_news job }
{
    Some(WatchLine::Job(job?))
}

fn queue_news(queue: Option<QueueLine>) -> Option<WatchLine>
    ensures { result ≡ queue_news queue }
{
    Some(WatchLine::Queue(queue?))
}

// Reads which job or queue was removed.
fn gone_line(alloc: Global, line: &[u8]) -> Result<Option<WatchLine>, AllocError>
    ensures { IfOk result (λ news. news ≡ gone_line line.now) }
{
    let (kind, rest) = first_word(line);
    let (name, rest) = first_word(rest);
    if !is_end(rest) {
        return Ok(None);
    }
    if is_word(kind, b"job") {
        return Ok(gone_job(job_number(name)));
    }
    if is_word(kind, b"queue") {
        return Ok(gone_queue(QueueName::from_word(alloc, name)?));
    }
    Ok(None)
}

fn gone_job(job: Option<JobId>) -> Option<WatchLine>
    ensures { result ≡ gone_job job }
{
    Some(WatchLine::GoneJob(job?))
}

fn gone_queue(name: Option<QueueName>) -> Option<WatchLine>
    ensures { result ≡ gone_queue name }
{
    Some(WatchLine::GoneQueue(name?))
}
