//! Quotes and backslashes among the pairs of `ATTR:`.
ghost use Rattle.std.specs.Prelude.{◌≡◌, ◌+◌, ◌<◌, ◌≤◌, ◌∷◌, length, IfOk, IfSome};
ghost use Rattle.std.specs.Option.{option_copied};
ghost use Rattle.line_words.specs.Quoting.{pieces, said};
ghost use Rattle.stderr_lines.specs.Rests.{words_behind, rest_weight};
ghost use Rattle.stderr_lines.specs.EffectDrafts.{IsLineText};

use line_words::Quoting;
use std::alloc::{AllocError, Global};

/// Splits at the first blank that ends a word. The second part, without that blank, is `None` if no blank does.
pub fn split_word(text: &[u8]) -> (&[u8], Option<&[u8]>)
    requires { IsLineText text.now }
    ensures words { pieces Quoting.Bare text.now ≡ result.0.now ∷ words_behind (option_copied result.1) }
    ensures shorter { rest_weight (option_copied result.1) < length text.now + 1 }
    ensures word { IsLineText result.0.now }
    ensures rest { IfSome (option_copied result.1) (λ r. IsLineText r) }
{
    let mut quote_state = Quoting::Bare;
    for (i, b) in text.iter().enumerate() {
        if quote_state.is_cut(*b) {
            return (&text[..i], Some(&text[i + 1..]));
        }
        quote_state = quote_state.next(char::from(*b));
    }
    (text, None)
}

/// Returns the number of bytes of a text without its quotes.
pub fn unquoted_len(text: &[u8]) -> usize
    requires { IsLineText text.now }
    ensures value { result ≡ length (said Quoting.Bare text.now) }
    ensures small { result ≤ 1023 }
{
    let mut quote_state = Quoting::Bare;
    let mut count = 0;
    for b in text {
        if quote_state.keeps(char::from(*b)) {
            count += 1;
        }
        quote_state = quote_state.next(char::from(*b));
    }
    count
}

/// Returns a text without its quotes.
pub fn unquoted(alloc: Global, text: &[u8]) -> Result<Vec<u8>, AllocError>
    ensures { IfOk result (λ bytes. bytes.items ≡ said Quoting.Bare text.now) }
{
    let mut quote_state = Quoting::Bare;
    let mut bytes = Vec::new(alloc);
    for b in text {
        if quote_state.keeps(char::from(*b)) {
            bytes.push(*b)?;
        }
        quote_state = quote_state.next(char::from(*b));
    }
    Ok(bytes)
}
