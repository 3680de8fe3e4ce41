//! The meaning of a service's replies for a submission.
ghost use Rattle.std.specs.Prelude.{◌≡◌};
ghost use Rattle.std.specs.List.{after_first, before_first};
ghost use Rattle.front_texts.specs.ReplyLines.{is_space};
ghost use Rattle.service_replies.specs.ServiceReplies.{bytes_as, closed_as, closing_reply, done_as, failed_as, has_reason, is_gone, job_as, reply_as, reply_in, shown_as, shown_of, type_as};

use command_lines::job_number;
use front_submission::{Reply, Shown};
use front_texts::{JobShown, JobState, LastLine, read_last_line};
use line_words::decimal;
use spool_types::Reason;

// The greatest size of a job that is read, in bytes.
const GREATEST_SIZE: u64 = 1 << 40;

/// Returns the meaning of the last line of a reply.
pub fn reply_in(line: &str) -> Reply
    ensures { result ≡ reply_in line.now }
{
    match read_last_line(line) {
        Some(LastLine::Done { words }) => done_as(words),
        Some(LastLine::Refused { number, .. }) => {
            if number == 6 {
                Reply::NotIncoming
            } else {
                Reply::Denied
            }
        }
        Some(LastLine::Failed { word }) => failed_as(word),
        None => Reply::Unclear,
    }
}

// Returns the meaning of the words after `ok`.
fn done_as(words: &str) -> Reply
    ensures { result ≡ done_as words.now }
{
    if words.is_empty() {
        return Reply::Done;
    }
    let (word, rest) = parted(words);
    if word == "job" {
        return job_as(rest);
    }
    if word == "bytes" {
        return bytes_as(rest);
    }
    if word == "type" {
        return type_as(rest);
    }
    Reply::Unclear
}

// Splits the line at its first blank, which is dropped.
fn parted(line: &str) -> (&str, &str)
    ensures word { result.0.now ≡ before_first is_space line.now }
    ensures rest { result.1.now ≡ after_first is_space line.now }
{
    match line.split_once(' ') {
        Some(parts) => parts,
        None => (line, ""),
    }
}

fn job_as(text: &str) -> Reply
    ensures { result ≡ job_as text.now }
{
    match job_number(text.as_bytes()) {
        Some(job) => Reply::Created { job: job.get() },
        None => Reply::Unclear,
    }
}

fn bytes_as(text: &str) -> Reply
    ensures { result ≡ bytes_as text.now }
{
    match decimal(text.as_bytes(), GREATEST_SIZE) {
        Some(size) => Reply::Sent { size },
        None => Reply::Unclear,
    }
}

// Returns the meaning of the words after `ok type`: the type, followed by the stages or by `unprintable`.
fn type_as(text: &str) -> Reply
    ensures { result ≡ type_as text.now }
{
    let (_, rest) = parted(text);
    let (word, _) = parted(rest);
    if word == "stages" {
        return Reply::Closed { printable: true };
    }
    if word == "unprintable" {
        return Reply::Closed { printable: false };
    }
    Reply::Unclear
}

// Returns the meaning of a word after `error`.
fn failed_as(word: &str) -> Reply
    ensures { result ≡ failed_as word.now }
{
    if word == "job" {
        return Reply::Gone;
    }
    if word == "memory" || word == "full" {
        return Reply::Later;
    }
    if word == "disk" || word == "dead" || word == "busy" {
        return Reply::Unclear;
    }
    Reply::Denied
}

/// Returns the reply to the last piece of a document, which is sent together with a close on the condition that the job has all bytes. `sent`
/// is the reply to the piece, and `closed` that to the close.
pub fn closing_reply(sent: Reply, closed: Reply) -> Reply
    ensures { result ≡ closing_reply sent closed }
{
    match (sent, closed) {
        (_, Reply::Closed { .. }) => closed,
        (Reply::Sent { .. }, Reply::Unclear) => closed,
        _ => sent,
    }
}

/// Returns whether the last line of a reply states that the job does not exist.
pub fn is_gone(line: &str) -> bool
    ensures { result ≡ is_gone line.now }
{
    matches!(reply_in(line), Reply::Gone)
}

/// Returns the current state of a job. A job that was closed has a type.
pub fn shown_of(job: &JobShown) -> Shown
    ensures { result ≡ shown_of job.now }
{
    let job_status = &job.job_status;
    shown_as(
        job_status.media.is_some(),
        job_status.state,
        has_reason(&job_status.reason, "no-filter"),
        has_reason(&job_status.reason, "job-incoming"),
        job_status.size,
    )
}

// Returns the state of a job from whether it was closed, its state, and whether its reason is `no-filter` or `job-incoming`.
fn shown_as(closed: bool, state: JobState, no_filter: bool, incoming: bool, size: u32) -> Shown
    ensures { result ≡ shown_as closed state no_filter incoming size }
{
    if closed {
        return match state {
            JobState::Aborted if no_filter => Shown::NoFilters,
            _ => Shown::WasClosed,
        };
    }
    if incoming {
        let size = u64::from(size);
        return Shown::Arriving { size };
    }
    Shown::NeverClosed
}

/// Returns whether the reason of a state is this word.
pub fn has_reason(reason: &Option<Reason>, word: &str) -> bool
    ensures { result ≡ has_reason word.now reason.now }
{
    match reason {
        Some(reason) => reason.as_str() == word,
        None => false,
    }
}
