//! Rows of `queues`.
ghost use Rattle.std.specs.Prelude.{◌≡◌, IfOk, map};
ghost use Rattle.std.specs.Option.{option_map};
ghost use Rattle.line_words.specs.Blanks.{first_word, after_word};
ghost use Rattle.front_texts.specs.QueueRows.{queue_row, queue_words, head_row, rules_row, notes_row, joined, reasons_in, texts_in, now_of};
ghost use Rattle.spool_types.specs.Values.{is_reason};
ghost use Rattle.front_texts.specs.StateWords.{yes_or_no};
ghost use Rattle.std.specs.List.{slice_split};
ghost use Rattle.front_texts.specs.QueueRows.{is_comma};

use crate::fields::{
    accepting, interval, is_end, is_word, limit, policy, printer_state, quoted_text, text_of_word,
};
use crate::states::PrinterState;
use line_words::first_word;
use spool_types::{Interval, MediaType, Message, Policy, QueueName, Reason, Reasons};
use std::alloc::{AllocError, Global};

/// A row of `queues` or of `watch`.
#[derive(Drop)]
pub struct QueueLine {
    pub name: QueueName,
    pub state: PrinterState,
    /// Whether the queue accepts jobs.
    pub accepting: bool,
    /// The media type that the device takes.
    pub target: MediaType,
    pub policy: Policy,
    /// The interval between attempts, in seconds.
    pub interval: Interval,
    /// The number of attempts at a job. 0 means no limit.
    pub limit: u16,
    pub reasons: Reasons,
    pub message: Message,
}

// The first fields of a row, up to the media type.
#[derive(Drop)]
pub(crate) struct QueueHead {
    pub name: QueueName,
    pub state: PrinterState,
    pub accepting: bool,
    pub target: MediaType,
}

// The fields about failed jobs.
#[derive(Drop)]
pub(crate) struct QueueRules {
    pub policy: Policy,
    pub interval: Interval,
    pub limit: u16,
}

// The reasons and the message.
#[derive(Drop)]
pub(crate) struct QueueNotes {
    pub reasons: Reasons,
    pub message: Message,
}

/// Reads a row `queue NAME STATE accepting TYPE POLICY INTERVAL LIMIT REASONS "MESSAGE"` without its line feed. Returns `None` if it is
/// invalid.
pub fn read_queue_line(alloc: Global, line: &[u8]) -> Result<Option<QueueLine>, AllocError>
    ensures value { IfOk result (λ queue. queue ≡ queue_row line.now) }
{
    let (name, rest) = first_word(line);
    if !is_word(name, b"queue") {
        return Ok(None);
    }
    queue_words(alloc, rest)
}

// Reads the words of a row after `queue`.
fn queue_words(alloc: Global, line: &[u8]) -> Result<Option<QueueLine>, AllocError>
    ensures { IfOk result (λ queue. queue ≡ queue_words line.now) }
{
    let (name, rest) = first_word(line);
    let (state, rest) = first_word(rest);
    let (takes, rest) = first_word(rest);
    let (target, rest) = first_word(rest);
    let head = queue_head(alloc, name, state, takes, target)?;
    let (policy, rest) = first_word(rest);
    let (interval, rest) = first_word(rest);
    let (limit, rest) = first_word(rest);
    let rules = queue_rules(policy, interval, limit);
    let notes = queue_notes(alloc, rest)?;
    Ok(joined(head, rules, notes))
}

fn joined(
    head: Option<QueueHead>,
    rules: Option<QueueRules>,
    notes: Option<QueueNotes>,
) -> Option<QueueLine>
    ensures { result ≡ joined head rules notes }
{
    match (head, rules, notes) {
        (Some(head), Some(rules), Some(notes)) => Some(QueueLine {
            name: head.name,
            state: head.state,
            accepting: head.accepting,
            target: head.target,
            policy: rules.policy,
            interval: rules.interval,
            limit: rules.limit,
            reasons: notes.reasons,
            message: notes.message,
        }),
        _ => None,
    }
}

fn queue_head(
    alloc: Global,
    name: &[u8],
    state: &[u8],
    takes: &[u8],
    target: &[u8],
) -> Result<Option<QueueHead>, AllocError>
    ensures { IfOk result (λ head. head ≡ head_row name.now state.now takes.now target.now) }
{
    let name = QueueName::from_word(alloc, name)?;
    let target = MediaType::from_word(alloc, target)?;
    match (name, printer_state(state), accepting(takes), target) {
        (Some(name), Some(state), Some(accepting), Some(target)) => Ok(Some(QueueHead {
            name,
            state,
            accepting,
            target,
        })),
        _ => Ok(None),
    }
}

fn queue_rules(word: &[u8], seconds: &[u8], most: &[u8]) -> Option<QueueRules>
    ensures { result ≡ rules_row word.now seconds.now most.now }
{
    match (policy(word), interval(seconds), limit(most)) {
        (Some(policy), Some(interval), Some(limit)) => Some(QueueRules {
            policy,
            interval,
            limit,
        }),
        _ => None,
    }
}

fn queue_notes(alloc: Global, line: &[u8]) -> Result<Option<QueueNotes>, AllocError>
    ensures { IfOk result (λ notes. notes ≡ notes_row line.now) }
{
    let (word, rest) = first_word(line);
    let (message, rest) = quoted_text(alloc, rest)?;
    if !is_end(rest) {
        return Ok(None);
    }
    let reasons = reasons(alloc, word)?;
    let message = text_of_word(alloc, message)?;
    match (reasons, message) {
        (Some(reasons), Some(message)) => Ok(Some(QueueNotes { reasons, message })),
        _ => Ok(None),
    }
}

// Reads the reasons in a word, which are separated by commas, or `none`.
fn reasons(alloc: Global, word: &[u8]) -> Result<Option<Reasons>, AllocError>
    ensures { IfOk result (λ reasons. reasons ≡ reasons_in word.now) }
{
    if is_word(word, b"none") {
        return Ok(Some(Reasons::empty(alloc)));
    }
    let parts = parts(alloc, word)?;
    match reason_list(alloc, &parts)? {
        Some(list) => Ok(Reasons::new(list).ok()),
        None => Ok(None),
    }
}

// Splits a word at its commas.
fn parts(alloc: Global, word: &[u8]) -> Result<Vec<&[u8]>, AllocError>
    ensures { IfOk result (λ parts. map now_of parts.items ≡ slice_split is_comma word.now) }
{
    word.split(|b| *b == b',').collect(alloc)
}

fn reason_list(alloc: Global, parts: &[&[u8]]) -> Result<Option<Vec<Reason>>, AllocError>
    ensures { IfOk result (λ list. option_map (λ v. v.items) list ≡ texts_in is_reason (map now_of parts.now)) }
{
    let mut list = Vec::new(alloc);
    for part in parts {
        let Some(reason) = Reason::from_word(alloc, part)? else {
            return Ok(None);
        };
        list.push(reason)?;
    }
    Ok(Some(list))
}

impl QueueLine {
    /// Returns whether the queue accepts jobs, as `yes` or `no`.
    pub fn accepting_word(&self) -> &'static str
        ensures { result.now ≡ yes_or_no self.now.accepting }
    {
        if self.accepting { "yes" } else { "no" }
    }
}
