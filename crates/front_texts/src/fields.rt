//! The fields of a row: words, numbers, reasons and texts in quotes.
ghost use Rattle.std.specs.Prelude.{◌≡◌, IfOk};
ghost use Rattle.std.specs.Option.{option_map, option_and_then};
ghost use Rattle.spool_types.specs.Values.{text_in};
ghost use Rattle.line_words.specs.WordFields.{bytes_of};
ghost use Rattle.line_words.specs.DecimalNumbers.{decimal};
ghost use Rattle.front_texts.specs.ReplyFields.{is_word, quoted_text, after_quoted, is_end, count_in, limit_in, interval_in, moment_in, job_state_of, printer_state_of, reason_in, policy_in, accepting_in};

use crate::states::{JobState, PrinterState};
use line_words::{Word, after_blanks, decimal, is_quote, read_quoted};
use spool_types::{Interval, Moment, Policy, Reason, Text, TextKind};
use std::alloc::{AllocError, Global};

/// Returns whether a word equals `name`.
pub(crate) fn is_word(word: &[u8], name: &[u8]) -> bool
    ensures { result ≡ is_word word.now name.now }
{
    word == name
}

/// Returns the text in quotes at the front of a line and the rest of the line, or no text and an empty rest if there is none.
pub(crate) fn quoted_text<'a>(
    alloc: Global,
    line: &'a [u8],
) -> Result<(Option<Word<'a>>, &'a [u8]), AllocError>
    ensures text { IfOk result (λ found. option_map bytes_of found.0 ≡ quoted_text line.now) }
    ensures rest { IfOk result (λ found. found.1.now ≡ after_quoted line.now) }
{
    let Some((b, behind)) = after_blanks(line).split_first() else {
        return Ok((None, &[]));
    };
    if !is_quote(*b) {
        return Ok((None, &[]));
    }
    match read_quoted(alloc, behind)? {
        Some((text, rest)) => Ok((Some(text), rest)),
        None => Ok((None, &[])),
    }
}

/// Returns the word as a text of the type `K`, if it is a valid one.
pub(crate) fn text_of_word<K: TextKind>(
    alloc: Global,
    word: Option<Word<'_>>,
) -> Result<Option<Text<K>>, AllocError>
    ensures { IfOk result (λ text. text ≡ option_and_then (text_in K.allowed) (option_map bytes_of word.entry)) }
{
    match word {
        Some(word) => Text::from_word(alloc, word.bytes()),
        None => Ok(None),
    }
}

/// Returns whether only blanks are left of a row.
pub(crate) fn is_end(rest: &[u8]) -> bool
    ensures { result ≡ is_end rest.now }
{
    after_blanks(rest).is_empty()
}

/// Reads a number of at most 32 bits.
pub(crate) fn count(word: &[u8]) -> Option<u32>
    ensures { result ≡ count_in word.now }
{
    u32::try_from(decimal(word, 4_294_967_295)?).ok()
}

/// Reads a number of at most 16 bits.
pub(crate) fn limit(word: &[u8]) -> Option<u16>
    ensures { result ≡ limit_in word.now }
{
    u16::try_from(decimal(word, 65_535)?).ok()
}

/// Reads the state of a job.
pub(crate) fn job_state(word: &[u8]) -> Option<JobState>
    ensures { result ≡ job_state_of word.now }
{
    JobState::from_number(decimal(word, 9)?)
}

/// Reads the state of a queue.
pub(crate) fn printer_state(word: &[u8]) -> Option<PrinterState>
    ensures { result ≡ printer_state_of word.now }
{
    PrinterState::from_number(decimal(word, 9)?)
}

/// Reads the reason of a state: a reason or `none`.
pub(crate) fn reason(alloc: Global, word: &[u8]) -> Result<Option<Option<Reason>>, AllocError>
    ensures { IfOk result (λ found. found ≡ reason_in word.now) }
{
    if is_word(word, b"none") {
        return Ok(Some(None));
    }
    match Reason::from_word(alloc, word)? {
        Some(reason) => Ok(Some(Some(reason))),
        None => Ok(None),
    }
}

/// Reads the policy of a queue for failed jobs.
pub(crate) fn policy(word: &[u8]) -> Option<Policy>
    ensures { result ≡ policy_in word.now }
{
    if is_word(word, b"abort-job") {
        return Some(Policy::AbortJob);
    }
    if is_word(word, b"retry-job") {
        return Some(Policy::RetryJob);
    }
    if is_word(word, b"retry-current-job") {
        return Some(Policy::RetryCurrentJob);
    }
    if is_word(word, b"stop-printer") {
        return Some(Policy::StopPrinter);
    }
    None
}

/// Reads whether a queue accepts jobs.
pub(crate) fn accepting(word: &[u8]) -> Option<bool>
    ensures { result ≡ accepting_in word.now }
{
    if is_word(word, b"accepting") {
        return Some(true);
    }
    if is_word(word, b"rejecting") {
        return Some(false);
    }
    None
}

/// Reads the interval of a queue between attempts, in seconds.
pub(crate) fn interval(word: &[u8]) -> Option<Interval>
    ensures { result ≡ interval_in word.now }
{
    Interval::new(u32::try_from(decimal(word, 86_400)?).ok()?)
}

/// Reads a moment, in seconds.
pub(crate) fn moment(word: &[u8]) -> Option<Moment>
    ensures { result ≡ moment_in word.now }
{
    Moment::new(decimal(word, Moment::GREATEST)?)
}
