//! One job with all its fields, as `job N` returns it.
ghost use Rattle.std.specs.Prelude.{◌≡◌, IfOk, option_copied};
ghost use Rattle.front_texts.specs.StateWords.{shown_word};
ghost use Rattle.front_texts.specs.JobPage.{copies_in, priority_in, line_here, behind_line, field, after_field, whole_text, names_in, wishes_in, asked_of, asked_in, after_asked, counts_in, media_of, moment_of, marks_in, state_and_reason_in, stage_of, moments_in, moments_of, after_moments, after_status, job_status_of, job_status_in, shown_job};

use crate::fields::{count, is_end, is_word, job_state, moment, quoted_text, reason, text_of_word};
use crate::job_line::is_arriving;
use crate::job_times::{JobTimes, read_times};
use crate::shown_user::ShownUser;
use crate::states::JobState;
use command_lines::job_number;
use line_words::{after_blanks, first_word};
use spool_types::{
    Copies, JobId, MediaType, Moment, OptionText, Priority, QueueName, Reason, Text, TextKind,
    Title,
};
use std::alloc::{AllocError, Global};

/// One job with all its fields.
#[derive(Drop)]
pub struct JobShown {
    pub asked: JobAsked,
    pub job_status: JobStatus,
    pub times: JobTimes,
}

/// The fields that were given when the job was created.
#[derive(Drop)]
pub struct JobAsked {
    pub number: JobId,
    pub queue: QueueName,
    pub user: ShownUser,
    pub title: Title,
    pub options: OptionText,
    pub copies: Copies,
    pub priority: Priority,
}

/// The fields that change while the job is processed.
#[derive(Drop)]
pub struct JobStatus {
    pub size: u32,
    pub pages: u32,
    pub attempts: u32,
    /// The media type, once the job is closed.
    pub media: Option<MediaType>,
    /// The moment by which the job must have started.
    pub by: Option<Moment>,
    pub state: JobState,
    pub reason: Option<Reason>,
    /// The moment until which the job is held.
    pub hold_until: Option<Moment>,
    /// The moment before which no attempt starts.
    pub not_before: Option<Moment>,
    /// The running stage.
    pub stage: Option<StageShown>,
}

/// A running stage: its number, the number of stages, and the attempt.
#[derive(Clone, Copy, Debug)]
pub struct StageShown {
    pub stage: u32,
    pub stages: u32,
    pub attempt: u32,
}

// Parts of the two types above.
#[derive(Drop)]
pub(crate) struct JobNames {
    pub number: JobId,
    pub queue: QueueName,
    pub user: ShownUser,
}

#[derive(Drop)]
pub(crate) struct JobWishes {
    pub title: Title,
    pub options: OptionText,
    pub copies: Copies,
    pub priority: Priority,
}

#[derive(Clone, Copy)]
pub(crate) struct JobCounts {
    pub size: u32,
    pub pages: u32,
    pub attempts: u32,
}

#[derive(Drop)]
pub(crate) struct JobMarks {
    pub media: Option<MediaType>,
    pub by: Option<Moment>,
}

#[derive(Drop)]
pub(crate) struct StateAndReason {
    pub state: JobState,
    pub reason: Option<Reason>,
}

#[derive(Clone, Copy)]
pub(crate) struct JobMoments {
    pub hold_until: Option<Moment>,
    pub not_before: Option<Moment>,
    pub stage: Option<StageShown>,
}

/// Reads the job in the lines `NAME VALUE` of a reply to `job N`, each with its line feed and without the final `ok 1`. Returns `None` if
/// they are invalid.
pub fn read_job_shown(alloc: Global, text: &[u8]) -> Result<Option<JobShown>, AllocError>
    ensures value { IfOk result (λ job. job ≡ shown_job text.now) }
{
    let (asked, rest) = asked(alloc, text)?;
    let (job_status, rest) = job_status(alloc, rest)?;
    match (asked, job_status, read_times(rest)) {
        (Some(asked), Some(job_status), Some(times)) => Ok(Some(JobShown {
            asked,
            job_status,
            times,
        })),
        _ => Ok(None),
    }
}

// Reads the fields that were given at the start, and returns the rest of the text.
fn asked(alloc: Global, text: &[u8]) -> Result<(Option<JobAsked>, &[u8]), AllocError>
    ensures value { IfOk result (λ found. found.0 ≡ asked_in text.now) }
    ensures rest { IfOk result (λ found. found.1.now ≡ after_asked text.now) }
{
    let (number, rest) = field(text, b"job");
    let (queue, rest) = field(rest, b"queue");
    let (user, rest) = field(rest, b"user");
    let (title, rest) = field(rest, b"title");
    let (options, rest) = field(rest, b"options");
    let (copies, rest) = field(rest, b"copies");
    let (priority, rest) = field(rest, b"priority");
    let names = names(alloc, number, queue, user)?;
    let wishes = wishes(alloc, title, options, copies, priority)?;
    Ok((asked_of(names, wishes), rest))
}

fn asked_of(names: Option<JobNames>, wishes: Option<JobWishes>) -> Option<JobAsked>
    ensures { result ≡ asked_of names wishes }
{
    match (names, wishes) {
        (Some(names), Some(wishes)) => Some(JobAsked {
            number: names.number,
            queue: names.queue,
            user: names.user,
            title: wishes.title,
            options: wishes.options,
            copies: wishes.copies,
            priority: wishes.priority,
        }),
        _ => None,
    }
}

fn names(
    alloc: Global,
    number: Option<&[u8]>,
    queue: Option<&[u8]>,
    user: Option<&[u8]>,
) -> Result<Option<JobNames>, AllocError>
    ensures { IfOk result (λ names. names ≡ names_in (option_copied number.entry) (option_copied queue.entry) (option_copied user.entry)) }
{
    let (Some(number), Some(queue), Some(user)) = (number, queue, user) else {
        return Ok(None);
    };
    let queue = QueueName::from_word(alloc, queue)?;
    let user = whole_text(alloc, user)?;
    match (job_number(number), queue, user) {
        (Some(number), Some(queue), Some(user)) => Ok(Some(JobNames {
            number,
            queue,
            user,
        })),
        _ => Ok(None),
    }
}

fn wishes(
    alloc: Global,
    title: Option<&[u8]>,
    options: Option<&[u8]>,
    copies: Option<&[u8]>,
    priority: Option<&[u8]>,
) -> Result<Option<JobWishes>, AllocError>
    ensures { IfOk result (λ wishes. wishes ≡ wishes_in (option_copied title.entry) (option_copied options.entry) (option_copied copies.entry) (option_copied priority.entry)) }
{
    let (Some(title), Some(options), Some(copies), Some(priority)) = (
        title, options, copies, priority,
    ) else {
        return Ok(None);
    };
    let title = whole_text(alloc, title)?;
    let options = whole_text(alloc, options)?;
    match (title, options, copies_of(copies), priority_of(priority)) {
        (Some(title), Some(options), Some(copies), Some(priority)) => Ok(Some(JobWishes {
            title,
            options,
            copies,
            priority,
        })),
        _ => Ok(None),
    }
}

// Reads the fields that change, and returns the rest of the text.
fn job_status(alloc: Global, text: &[u8]) -> Result<(Option<JobStatus>, &[u8]), AllocError>
    ensures value { IfOk result (λ found. found.0 ≡ job_status_in text.now) }
    ensures rest { IfOk result (λ found. found.1.now ≡ after_status text.now) }
{
    let (size, rest) = field(text, b"size");
    let (pages, rest) = field(rest, b"pages");
    let (attempts, rest) = field(rest, b"attempts");
    let (media, rest) = field(rest, b"type");
    let (by, rest) = field(rest, b"by");
    let (state, rest) = field(rest, b"state");
    let (reason, rest) = field(rest, b"reason");
    let counts = counts(size, pages, attempts);
    let marks = marks(alloc, media, by)?;
    let state_and_reason = state_and_reason(alloc, state, reason)?;
    let (moments, rest) = moments(rest);
    Ok((
        job_status_of(counts, marks, state_and_reason, moments),
        rest,
    ))
}

fn counts(size: Option<&[u8]>, pages: Option<&[u8]>, attempts: Option<&[u8]>) -> Option<JobCounts>
    ensures { result ≡ counts_in (option_copied size.entry) (option_copied pages.entry) (option_copied attempts.entry) }
{
    Some(JobCounts {
        size: count(size?)?,
        pages: count(pages?)?,
        attempts: count(attempts?)?,
    })
}

fn marks(
    alloc: Global,
    media: Option<&[u8]>,
    by: Option<&[u8]>,
) -> Result<Option<JobMarks>, AllocError>
    ensures { IfOk result (λ marks. marks ≡ marks_in (option_copied media.entry) (option_copied by.entry)) }
{
    let media = media_of(alloc, media)?;
    match (media, moment_of(by)) {
        (Some(media), Some(by)) => Ok(Some(JobMarks { media, by })),
        _ => Ok(None),
    }
}

// Reads a media type, which is `None` if its line is missing.
fn media_of(alloc: Global, word: Option<&[u8]>) -> Result<Option<Option<MediaType>>, AllocError>
    ensures { IfOk result (λ media. media ≡ media_of (option_copied word.entry)) }
{
    let Some(word) = word else {
        return Ok(Some(None));
    };
    match MediaType::from_word(alloc, word)? {
        Some(media) => Ok(Some(Some(media))),
        None => Ok(None),
    }
}

// Reads a moment, which is `None` if its line is missing.
fn moment_of(word: Option<&[u8]>) -> Option<Option<Moment>>
    ensures { result ≡ moment_of (option_copied word.entry) }
{
    let Some(word) = word else {
        return Some(None);
    };
    Some(Some(moment(word)?))
}

fn state_and_reason(
    alloc: Global,
    state: Option<&[u8]>,
    word: Option<&[u8]>,
) -> Result<Option<StateAndReason>, AllocError>
    ensures { IfOk result (λ state_and_reason. state_and_reason ≡ state_and_reason_in (option_copied state.entry) (option_copied word.entry)) }
{
    let (Some(state), Some(word)) = (state, word) else {
        return Ok(None);
    };
    match (job_state(state), reason(alloc, word)?) {
        (Some(state), Some(reason)) => Ok(Some(StateAndReason { state, reason })),
        _ => Ok(None),
    }
}

// Reads the moments that a job waits for and the running stage, and returns the rest of the text.
fn moments(text: &[u8]) -> (Option<JobMoments>, &[u8])
    ensures value { result.0 ≡ moments_in text.now }
    ensures rest { result.1.now ≡ after_moments text.now }
{
    let (until, rest) = field(text, b"hold-until");
    let (before, rest) = field(rest, b"not-before");
    let (stage, rest) = field(rest, b"stage");
    (moments_of(until, before, stage), rest)
}

fn moments_of(
    until: Option<&[u8]>,
    before: Option<&[u8]>,
    stage: Option<&[u8]>,
) -> Option<JobMoments>
    ensures { result ≡ moments_of (moment_of (option_copied until.entry)) (moment_of (option_copied before.entry)) (stage_of (option_copied stage.entry)) }
{
    match (moment_of(until), moment_of(before), stage_of(stage)) {
        (Some(hold_until), Some(not_before), Some(stage)) => Some(JobMoments {
            hold_until,
            not_before,
            stage,
        }),
        _ => None,
    }
}

// Reads `S of N attempt A`, which is `None` if its line is missing.
fn stage_of(words: Option<&[u8]>) -> Option<Option<StageShown>>
    ensures { result ≡ stage_of (option_copied words.entry) }
{
    let Some(words) = words else {
        return Some(None);
    };
    let (stage, rest) = first_word(words);
    let (of, rest) = first_word(rest);
    let (stages, rest) = first_word(rest);
    let (word, rest) = first_word(rest);
    let (attempt, rest) = first_word(rest);
    if !is_word(of, b"of") || !is_word(word, b"attempt") || !is_end(rest) {
        return None;
    }
    Some(Some(StageShown {
        stage: count(stage)?,
        stages: count(stages)?,
        attempt: count(attempt)?,
    }))
}

fn job_status_of(
    counts: Option<JobCounts>,
    marks: Option<JobMarks>,
    state_and_reason: Option<StateAndReason>,
    moments: Option<JobMoments>,
) -> Option<JobStatus>
    ensures { result ≡ job_status_of counts marks state_and_reason moments }
{
    match (counts, marks, state_and_reason, moments) {
        (Some(counts), Some(marks), Some(state_and_reason), Some(moments)) => Some(JobStatus {
            size: counts.size,
            pages: counts.pages,
            attempts: counts.attempts,
            media: marks.media,
            by: marks.by,
            state: state_and_reason.state,
            reason: state_and_reason.reason,
            hold_until: moments.hold_until,
            not_before: moments.not_before,
            stage: moments.stage,
        }),
        _ => None,
    }
}

// Reads a text in quotes that ends the line.
fn whole_text<K: TextKind>(alloc: Global, line: &[u8]) -> Result<Option<Text<K>>, AllocError>
    ensures { IfOk result (λ text. text ≡ whole_text K.allowed line.now) }
{
    let (word, rest) = quoted_text(alloc, line)?;
    if !is_end(rest) {
        return Ok(None);
    }
    text_of_word(alloc, word)
}

fn copies_of(word: &[u8]) -> Option<Copies>
    ensures { result ≡ copies_in word.now }
{
    Copies::new(count(word)?)
}

fn priority_of(word: &[u8]) -> Option<Priority>
    ensures { result ≡ priority_in word.now }
{
    Priority::new(count(word)?)
}

// Returns the value of the first line and the rest of the text if the line has this name. Otherwise returns no value and the same text.
#[tactic(auto, unfolding(crate::specs::JobPage::field, crate::specs::JobPage::after_field))]
pub(crate) fn field<'a>(text: &'a [u8], name: &[u8]) -> (Option<&'a [u8]>, &'a [u8])
    ensures value { option_copied result.0 ≡ field text.now name.now }
    ensures rest { result.1.now ≡ after_field text.now name.now }
{
    let (line, rest) = first_line(text);
    let (word, value) = first_word(line);
    if is_word(word, name) {
        (Some(after_blanks(value)), rest)
    } else {
        (None, text)
    }
}

// Splits a text at its first line feed, which is dropped.
fn first_line(text: &[u8]) -> (&[u8], &[u8])
    ensures line { result.0.now ≡ line_here text.now }
    ensures rest { result.1.now ≡ behind_line text.now }
{
    for (i, b) in text.iter().enumerate() {
        if *b == b'\n' {
            return (&text[..i], &text[i + 1..]);
        }
    }
    (text, &[])
}

impl JobStatus {
    /// Returns the state for a user.
    pub fn state_word(&self) -> &'static str
        ensures { result.now ≡ shown_word self.now.state self.now.reason }
    {
        if is_arriving(self.reason.as_ref()) {
            "arriving"
        } else {
            self.state.word()
        }
    }
}
