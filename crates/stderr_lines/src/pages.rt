//! The pages that a line reports.
ghost use Rattle.std.specs.Prelude.{◌≡◌, IfSome};
ghost use Rattle.std.specs.Option.{option_map};
ghost use Rattle.stderr_lines.specs.PageLines.{number_of, page_effect, two_words};
ghost use Rattle.stderr_lines.specs.EffectDrafts.{effect_of, IsSound};

use crate::draft::Draft;
use line_words::{after_blanks, decimal, first_word};

/// Returns the effect of `PAGE: page copies` or `PAGE: total pages`, if the text is one of them.
pub fn page_draft(text: &[u8]) -> Option<Draft<'_>>
    ensures effect { option_map effect_of result ≡ page_effect text.now }
    ensures sound { IfSome result (λ draft. IsSound draft) }
{
    let (first, rest) = first_word(text);
    let (second, rest) = first_word(rest);
    if !after_blanks(rest).is_empty() {
        return None;
    }
    two_words(first, second)
}

fn two_words<'a>(first: &[u8], second: &[u8]) -> Option<Draft<'a>>
    ensures effect { option_map effect_of result ≡ two_words first.now second.now }
    ensures sound { IfSome result (λ draft. IsSound draft) }
{
    if first == b"total".as_slice() {
        return Some(Draft::TotalPages(number_of(second)?));
    }
    Some(Draft::Pages {
        page: number_of(first)?,
        copies: number_of(second)?,
    })
}

// Returns the number in a word of any number of digits, if it has at most 32 bits.
fn number_of(word: &[u8]) -> Option<u32>
    ensures { result ≡ number_of word.now }
{
    Some(decimal(word, u64::from(u32::MAX))? as u32)
}
