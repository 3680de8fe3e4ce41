//! The reasons that a line names.
ghost use Rattle.std.specs.Prelude.{◌≡◌, ◌+◌, ◌<◌, ◌≤◌, ◌∷◌, ◌++◌, true, length, IfOk, IfSome};
ghost use Rattle.std.specs.Option.{option_map, option_copied, option_to_list};
ghost use Rattle.std.specs.List.{slice_split};
ghost use Rattle.spool_types.specs.Values.{is_reason};
ghost use Rattle.spool_types.specs.Effects.{texts_size};
ghost use Rattle.stderr_lines.specs.ReasonLines.{is_separator, reasons_of, unless_none, state_effect};
ghost use Rattle.stderr_lines.specs.Rests.{pieces_behind, reasons_from, rest_weight};
ghost use Rattle.stderr_lines.specs.EffectDrafts.{changed, effect_of, IsLineText, IsSound};

use crate::draft::{Change, Draft};
use crate::texts::{copy_of, text_in};
use line_words::is_blank;
use spool_types::{Reason, ReasonKind, Words};
use std::alloc::{AllocError, Global};

/// Returns the effect of `STATE: word,..`, if the text has one.
pub fn state_draft(text: &[u8]) -> Option<Draft<'_>>
    requires { IsLineText text.now }
    ensures effect { option_map effect_of result ≡ state_effect text.now }
    ensures sound { IfSome result (λ draft. IsSound draft) }
{
    let set = Draft::Reasons {
        change: Change::Set,
        words: text,
    };
    let Some((sign, words)) = text.split_first() else {
        return Some(set);
    };
    if *sign == b'+' {
        return changed(Change::Add, words);
    }
    if *sign == b'-' {
        return changed(Change::Remove, words);
    }
    Some(set)
}

// Returns a change of at least one reason.
fn changed(change: Change, words: &[u8]) -> Option<Draft<'_>>
    requires { IsLineText words.now }
    ensures effect { option_map effect_of result ≡ unless_none (changed change) (reasons_of words.now) }
    ensures sound { IfSome result (λ draft. IsSound draft) }
{
    if reasons_size(words) == 0 {
        return None;
    }
    Some(Draft::Reasons { change, words })
}

/// Returns the number of bytes of the code of a text's reasons.
pub fn reasons_size(text: &[u8]) -> usize
    requires { length text.now ≤ 1023 }
    ensures value { result ≡ texts_size (reasons_of text.now) }
    ensures small { result ≤ 4096 }
{
    let mut size = 0;
    let mut rest = Some(text);
    while let Some(here) = rest {
        let (reason, behind) = next_reason(here);
        if let Some(reason) = reason {
            size += 2 + reason.len();
        }
        rest = behind;
    }
    size
}

/// Returns the reasons of a text.
pub fn read_reasons(alloc: Global, text: &[u8]) -> Result<Words, AllocError>
    requires { length text.now ≤ 1023 }
    ensures { IfOk result (λ words. words ≡ reasons_of text.now) }
{
    let mut reasons: Vec<Reason> = Vec::new(alloc);
    let mut rest = Some(text);
    while let Some(here) = rest {
        let (reason, behind) = next_reason(here);
        if let Some(reason) = reason {
            reasons.push(copy_of(alloc, reason)?)?;
        }
        rest = behind;
    }
    match Words::new(reasons) {
        Ok(words) => Ok(words),
        Err(_) => unreachable!(),
    }
}

// Splits at the first separator. The first part is returned if it is a reason. The second part is `None` if there is no separator.
fn next_reason(text: &[u8]) -> (Option<&str>, Option<&[u8]>)
    ensures reasons { reasons_of text.now ≡ option_to_list (option_copied result.0) ++ reasons_from (option_copied result.1) }
    ensures allowed { IfSome (option_copied result.0) (λ reason. is_reason reason ≡ true) }
    ensures shorter { rest_weight (option_copied result.1) < length text.now + 1 }
{
    let (word, behind) = split_word(text);
    (text_in::<ReasonKind>(word), behind)
}

// Splits at the first separator. The second part is `None` if there is no separator.
fn split_word(text: &[u8]) -> (&[u8], Option<&[u8]>)
    ensures words { slice_split is_separator text.now ≡ result.0.now ∷ pieces_behind (option_copied result.1) }
    ensures shorter { rest_weight (option_copied result.1) < length text.now + 1 }
{
    for (i, b) in text.iter().enumerate() {
        if is_separator(*b) {
            return (&text[..i], Some(&text[i + 1..]));
        }
    }
    (text, None)
}

fn is_separator(b: u8) -> bool
    ensures { result ≡ is_separator b }
{
    b == b',' || is_blank(b)
}
