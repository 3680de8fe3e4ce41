//! The reasons of the system for an error, in its own words.
//!
//! # Promises
//!
//! - [`reason_of`] returns the words of an error without its number, which the standard library adds in brackets: no bracket is left
//!   (`no_number`). The words before the first bracket of a text are exact (`words_of`).
//!
//! # Not proved
//!
//! - The words themselves, which are those of the C library. `tests/test_faults.py` shows them.
//!
//! # Errors
//!
//! The only error is out of memory.
#![tactic(auto)]

ghost use Rattle.std.specs.Prelude.{◌≡◌, IfOk, string_bytes};
ghost use Rattle.std.specs.List.{before_first};
ghost use Rattle.std.specs.Str.{trim_end};
ghost use Rattle.system_reasons.specs.SystemReasons.{HasNoBracket, is_bracket};

use std::alloc::{AllocError, Global};
use std::io;

/// Returns the system's words for an error, without its number.
pub fn reason_of(alloc: Global, error: &io::Error) -> Result<String, AllocError>
    ensures no_number { IfOk result (λ reason. HasNoBracket (string_bytes reason)) }
{
    let text = format!(in alloc; "{error}")?;
    String::from_str(alloc, words_of(text.as_str()))
}

// Returns the text before the first bracket, without the blanks at its end.
fn words_of(text: &str) -> &str
    ensures words { result.now ≡ trim_end (before_first is_bracket text.now) }
    ensures no_bracket { HasNoBracket result.now }
{
    before_bracket(text).trim_end()
}

// Returns the text before the first bracket.
fn before_bracket(text: &str) -> &str
    ensures { result.now ≡ before_first is_bracket text.now }
{
    match text.split_once('(') {
        Some((words, _)) => words,
        None => text,
    }
}
