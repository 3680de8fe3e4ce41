//! The sentence for people about why a job does not print, from the reply of a service to `why`.
//!
//! # Promises
//!
//! - [`cause_sentence`] returns the sentence of the reply's cause, by a table with one row for each word (`CauseSentences`). A reply that names
//!   no cause, or one of a job that prints or has ended, has no sentence.
//!
//! # Errors
//!
//! The only error is out of memory.
#![tactic(auto)]

ghost use Rattle.std.specs.Prelude.{◌≡◌, IfOk, OnOk, ◌++◌, option_copied};
ghost use Rattle.std.specs.Option.{option_map};
ghost use Rattle.cause_sentences.specs.CauseSentences.{ahead_of, cause_sentence, count_of, is_word, order_sentence, order_text, plain_sentence, sentence_of};

use line_words::first_word;
use std::alloc::{AllocError, Global};

/// Returns the sentence about the last line of a reply to `why`, without its line feed, if it names a cause for which the job does not print.
pub fn cause_sentence(alloc: Global, line: &[u8]) -> Result<Option<Vec<u8>>, AllocError>
    ensures { IfOk result (λ sentence. option_map (λ text. text.items) sentence ≡ cause_sentence line.now) }
{
    let (ok, rest) = first_word(line);
    let (why, rest) = first_word(rest);
    if is_word(ok, b"ok") && is_word(why, b"why") {
        sentence_of(alloc, rest)
    } else {
        Ok(None)
    }
}

fn is_word(word: &[u8], name: &[u8]) -> bool
    ensures { result ≡ is_word word.now name.now }
{
    word == name
}

fn sentence_of(alloc: Global, rest: &[u8]) -> Result<Option<Vec<u8>>, AllocError>
    ensures { IfOk result (λ sentence. option_map (λ text. text.items) sentence ≡ sentence_of rest.now) }
{
    let (word, rest) = first_word(rest);
    match plain_sentence(word) {
        Some(sentence) => Ok(Some(Vec::from_slice(alloc, sentence)?)),
        None => order_sentence(alloc, word, rest),
    }
}

fn plain_sentence(word: &[u8]) -> Option<&'static [u8]>
    ensures { option_copied result ≡ plain_sentence word.now }
{
    if is_word(word, b"arriving") {
        return Some(b"its document is being sent");
    }
    if is_word(word, b"abandoned") {
        return Some(b"its client has disconnected before the document was complete");
    }
    if is_word(word, b"held") {
        return Some(b"it is held until it is released");
    }
    if is_word(word, b"held-until") {
        return Some(b"it is held");
    }
    if is_word(word, b"retry") {
        return Some(b"an attempt failed, and the next one is not due yet");
    }
    if is_word(word, b"stopped") {
        return Some(b"its queue is stopped");
    }
    if is_word(word, b"children") {
        return Some(b"the limit of running filters and backends is reached");
    }
    if is_word(word, b"full") {
        return Some(b"the spool is short of room");
    }
    if is_word(word, b"next") {
        return Some(b"it is next, and starts as soon as the printer and the system are free");
    }
    None
}

fn order_sentence(alloc: Global, word: &[u8], rest: &[u8]) -> Result<Option<Vec<u8>>, AllocError>
    ensures { IfOk result (λ sentence. option_map (λ text. text.items) sentence ≡ order_sentence word.now rest.now) }
{
    if is_word(word, b"taken") {
        return Ok(Some(order_text(alloc, b"its queue prints job ", b"", rest)?));
    }
    if is_word(word, b"behind") {
        return Ok(Some(order_text(alloc, b"its queue starts job ", b" first", rest)?));
    }
    Ok(None)
}

// Returns the sentence about the words `J ahead N`, with a text before the job and one after it.
#[tactic(auto, unfolding(crate::specs::CauseSentences::order_text))]
fn order_text(
    alloc: Global,
    before: &[u8],
    after: &[u8],
    rest: &[u8],
) -> Result<Vec<u8>, AllocError>
    ensures { IfOk result (λ text. text.items ≡ order_text before.now after.now rest.now) }
{
    let mut text = Vec::from_slice(alloc, before)?;
    let (job, _) = first_word(rest);
    text.extend_from_slice(job)?;
    text.extend_from_slice(after)?;
    push_ahead(&mut text, rest)?;
    Ok(text)
}

fn push_ahead(text: &mut Vec<u8>, rest: &[u8]) -> Result<(), AllocError>
    ensures { OnOk result (text.new.items ≡ text.old.items ++ ahead_of rest.now) }
{
    push_both(text, b"; waiting jobs before it: ", count_of(rest))
}

fn push_both(text: &mut Vec<u8>, first: &[u8], second: &[u8]) -> Result<(), AllocError>
    ensures { OnOk result (text.new.items ≡ text.old.items ++ (first.now ++ second.now)) }
{
    text.extend_from_slice(first)?;
    text.extend_from_slice(second)
}

// Returns N of the words `J ahead N`.
fn count_of(rest: &[u8]) -> &[u8]
    ensures { result.now ≡ count_of rest.now }
{
    let (_, rest) = first_word(rest);
    let (_, rest) = first_word(rest);
    let (count, _) = first_word(rest);
    count
}
