//! Rows of `jobs`.
ghost use Rattle.std.specs.Prelude.{◌≡◌, IfOk, option_copied};
ghost use Rattle.line_words.specs.Blanks.{first_word, after_word};
ghost use Rattle.front_texts.specs.JobRows.{job_row, job_words, head_row, tail_row, joined};
ghost use Rattle.front_texts.specs.StateWords.{is_arriving, is_ended, shown_word};

use crate::fields::{count, is_end, is_word, job_state, quoted_text, reason, text_of_word};
use crate::shown_user::ShownUser;
use crate::states::JobState;
use command_lines::job_number;
use line_words::first_word;
use spool_types::{JobId, QueueName, Reason, Title};
use std::alloc::{AllocError, Global};

/// A row of `jobs`, of `wait` or of `watch`.
#[derive(Drop)]
pub struct JobLine {
    pub number: JobId,
    pub queue: QueueName,
    pub state: JobState,
    /// The reason of the state, if it has one.
    pub reason: Option<Reason>,
    pub user: ShownUser,
    /// The size of the document in bytes.
    pub size: u32,
    /// The number of printed pages.
    pub pages: u32,
    pub title: Title,
}

// The first fields of a row, before the user.
#[derive(Drop)]
pub(crate) struct JobHead {
    pub number: JobId,
    pub queue: QueueName,
    pub state: JobState,
    pub reason: Option<Reason>,
}

// The fields of a row from the user on.
#[derive(Drop)]
pub(crate) struct JobTail {
    pub user: ShownUser,
    pub size: u32,
    pub pages: u32,
    pub title: Title,
}

/// Reads a row `job N QUEUE STATE REASON "USER" SIZE PAGES "TITLE"` without its line feed. Returns `None` if it is invalid.
pub fn read_job_line(alloc: Global, line: &[u8]) -> Result<Option<JobLine>, AllocError>
    ensures value { IfOk result (λ job. job ≡ job_row line.now) }
{
    let (name, rest) = first_word(line);
    if !is_word(name, b"job") {
        return Ok(None);
    }
    job_words(alloc, rest)
}

// Reads the words of a row after `job`.
fn job_words(alloc: Global, line: &[u8]) -> Result<Option<JobLine>, AllocError>
    ensures { IfOk result (λ job. job ≡ job_words line.now) }
{
    let (number, rest) = first_word(line);
    let (queue, rest) = first_word(rest);
    let (state, rest) = first_word(rest);
    let (reason, rest) = first_word(rest);
    let head = job_head(alloc, number, queue, state, reason)?;
    let tail = job_tail(alloc, rest)?;
    Ok(joined(head, tail))
}

fn joined(head: Option<JobHead>, tail: Option<JobTail>) -> Option<JobLine>
    ensures { result ≡ joined head tail }
{
    match (head, tail) {
        (Some(head), Some(tail)) => Some(JobLine {
            number: head.number,
            queue: head.queue,
            state: head.state,
            reason: head.reason,
            user: tail.user,
            size: tail.size,
            pages: tail.pages,
            title: tail.title,
        }),
        _ => None,
    }
}

fn job_head(
    alloc: Global,
    number: &[u8],
    queue: &[u8],
    state: &[u8],
    word: &[u8],
) -> Result<Option<JobHead>, AllocError>
    ensures { IfOk result (λ head. head ≡ head_row number.now queue.now state.now word.now) }
{
    let queue = QueueName::from_word(alloc, queue)?;
    let reason = reason(alloc, word)?;
    match (job_number(number), queue, job_state(state), reason) {
        (Some(number), Some(queue), Some(state), Some(reason)) => Ok(Some(JobHead {
            number,
            queue,
            state,
            reason,
        })),
        _ => Ok(None),
    }
}

fn job_tail(alloc: Global, line: &[u8]) -> Result<Option<JobTail>, AllocError>
    ensures { IfOk result (λ tail. tail ≡ tail_row line.now) }
{
    let (user, rest) = quoted_text(alloc, line)?;
    let (size, rest) = first_word(rest);
    let (pages, rest) = first_word(rest);
    let (title, rest) = quoted_text(alloc, rest)?;
    if !is_end(rest) {
        return Ok(None);
    }
    let user = text_of_word(alloc, user)?;
    let title = text_of_word(alloc, title)?;
    match (user, count(size), count(pages), title) {
        (Some(user), Some(size), Some(pages), Some(title)) => Ok(Some(JobTail {
            user,
            size,
            pages,
            title,
        })),
        _ => Ok(None),
    }
}

impl JobLine {
    /// Returns the state for a user: `arriving` while the document is incoming, or else the name of the state.
    pub fn state_word(&self) -> &'static str
        ensures { result.now ≡ shown_word self.now.state self.now.reason }
    {
        if is_arriving(self.reason.as_ref()) {
            "arriving"
        } else {
            self.state.word()
        }
    }

    /// Returns whether the job has ended.
    pub fn has_ended(&self) -> bool
        ensures { result ≡ is_ended self.now.state }
    {
        matches!(
            self.state,
            JobState::Canceled | JobState::Aborted | JobState::Completed
        )
    }
}

/// Returns whether the reason states that the document is still incoming.
pub(crate) fn is_arriving(reason: Option<&Reason>) -> bool
    ensures { result ≡ is_arriving (option_copied reason.entry) }
{
    match reason {
        Some(reason) => reason.as_str() == "job-incoming",
        None => false,
    }
}
