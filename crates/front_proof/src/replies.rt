//! The replies to `i-am` and `made`.
ghost use Rattle.std.specs.Prelude.{◌≡◌, IfOk, None, Some, cond, false, string_bytes};
ghost use Rattle.std.specs.List.{list_any};
ghost use Rattle.std.specs.Option.{option_map};
ghost use Rattle.line_words.specs.Quotes.{quoted};
ghost use Rattle.line_words.specs.WordFields.{bytes_of};
ghost use Rattle.front_proof.specs.ProofReplies.{IsNameOf, IsOfferedIn, IsPathIn, IsStandingIn, alone, granted, grants, is_control, is_end, is_name, offered_text, quoted_line};
ghost use Rattle.front_proof.specs.Standings.{operator, standing_of, user};

use crate::caller::Caller;
use crate::path::ProofPath;
use line_words::{Word, after_blanks, first_word, is_quote, read_quoted};
use std::alloc::{AllocError, Global};

/// Returns the path that a reply to `i-am` offers.
pub(crate) fn offered_path(alloc: Global, line: &[u8]) -> Result<Option<ProofPath>, AllocError>
    ensures { IfOk result (λ found. IsOfferedIn line.now (option_map (λ path. string_bytes path.text) found)) }
{
    let text = offered_text(alloc, line)?;
    let path = path_of(alloc, &text);
    drop(text);
    path
}

fn path_of(alloc: Global, text: &Option<Word<'_>>) -> Result<Option<ProofPath>, AllocError>
    ensures { IfOk result (λ found. IsPathIn (option_map bytes_of text.now) (option_map (λ path. string_bytes path.text) found)) }
{
    match text {
        Some(text) => ProofPath::from_bytes(alloc, text.bytes()),
        None => Ok(None),
    }
}

// Returns the text PATH in `ok proof "PATH"`.
fn offered_text<'a>(alloc: Global, line: &'a [u8]) -> Result<Option<Word<'a>>, AllocError>
    ensures { IfOk result (λ text. option_map bytes_of text ≡ offered_text line.now) }
{
    if !grants(b"proof", line) {
        return Ok(None);
    }
    quoted_line(alloc, granted(line))
}

/// Returns the identity of a client after this reply to `made`.
pub(crate) fn caller_in(alloc: Global, line: &[u8]) -> Result<Caller, AllocError>
    ensures { IfOk result (λ caller. IsStandingIn line.now (standing_of caller)) }
{
    let is_user = grants(b"user", line);
    if !is_user && !grants(b"operator", line) {
        return Ok(Caller::Unproved);
    }
    match text_of_name(alloc, granted(line))? {
        Some(name) => Ok(identified(is_user, name)),
        None => Ok(Caller::Unproved),
    }
}

fn identified(is_user: bool, name: String) -> Caller
    ensures { standing_of result ≡ cond is_user (user (string_bytes name)) (operator (string_bytes name)) }
{
    if is_user {
        Caller::User(name)
    } else {
        Caller::Operator(name)
    }
}

// Returns whether the line begins with the words `ok` and `word`.
fn grants(word: &[u8], line: &[u8]) -> bool
    ensures { result ≡ grants word.now line.now }
{
    let (ok, rest) = first_word(line);
    let (granted, _) = first_word(rest);
    ok == b"ok".as_slice() && granted == word
}

// Returns what follows these two words.
fn granted(line: &[u8]) -> &[u8]
    ensures { result.now ≡ granted line.now }
{
    let (_, rest) = first_word(line);
    let (_, rest) = first_word(rest);
    after_blanks(rest)
}

// Returns the text of a line that consists of one text in quotes.
fn quoted_line<'a>(alloc: Global, line: &'a [u8]) -> Result<Option<Word<'a>>, AllocError>
    ensures { IfOk result (λ text. option_map bytes_of text ≡ quoted_line line.now) }
{
    match line.split_first() {
        Some((b, behind)) if is_quote(*b) => read_alone(alloc, behind),
        _ => Ok(None),
    }
}

// Reads a text after its opening quote, if nothing follows it.
fn read_alone<'a>(alloc: Global, line: &'a [u8]) -> Result<Option<Word<'a>>, AllocError>
    ensures { IfOk result (λ text. option_map bytes_of text ≡ alone (quoted false line.now)) }
{
    match read_quoted(alloc, line)? {
        Some((text, rest)) => Ok(text_before(text, rest)),
        None => Ok(None),
    }
}

fn text_before<'a>(text: Word<'a>, rest: &[u8]) -> Option<Word<'a>>
    ensures { option_map bytes_of result ≡ cond (is_end rest.now) (Some (bytes_of text.entry)) None }
{
    if is_end(rest) {
        Some(text)
    } else {
        drop(text);
        None
    }
}

fn is_end(rest: &[u8]) -> bool
    ensures { result ≡ is_end rest.now }
{
    after_blanks(rest).is_empty()
}

// Returns the name as a text, if it is one.
fn text_of_name(alloc: Global, name: &[u8]) -> Result<Option<String>, AllocError>
    ensures { IfOk result (λ found. IsNameOf name.now (option_map string_bytes found)) }
{
    if !is_name(name) {
        return Ok(None);
    }
    match std::str::from_utf8(name) {
        Ok(text) => Ok(Some(String::from_str(alloc, text)?)),
        Err(_) => Ok(None),
    }
}

fn is_name(text: &[u8]) -> bool
    ensures { result ≡ is_name text.now }
{
    !text.is_empty() && !has_control(text)
}

fn has_control(text: &[u8]) -> bool
    ensures { result ≡ list_any is_control text.now }
{
    text.iter().any(|b| is_control(*b))
}

fn is_control(b: u8) -> bool
    ensures { result ≡ is_control b }
{
    b < 32 || b == 127
}
