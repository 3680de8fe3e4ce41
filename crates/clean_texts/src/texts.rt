//! Texts in which no character steers.
ghost use Rattle.std.specs.Prelude.{◌≡◌, IfOk, false, string_bytes};
ghost use Rattle.clean_texts.specs.CleanTexts.{clean_bytes, clean_text, is_steered};

use crate::steering::clean_char;
use std::alloc::{AllocError, Global};

/// Returns the text with U+FFFD for each character that steers.
pub fn clean_text(alloc: Global, text: &str) -> Result<String, AllocError>
    ensures value { IfOk result (λ cleaned. string_bytes cleaned ≡ clean_text text.now) }
    ensures clean { IfOk result (λ cleaned. is_steered (string_bytes cleaned) ≡ false) }
{
    text.chars().map(|c| clean_char(c)).collect(alloc)
}

/// Returns the bytes as a text with U+FFFD for each character that steers, and for each sequence of bytes that is not UTF-8.
pub fn clean_bytes(alloc: Global, bytes: &[u8]) -> Result<String, AllocError>
    ensures value { IfOk result (λ cleaned. string_bytes cleaned ≡ clean_bytes bytes.now) }
    ensures clean { IfOk result (λ cleaned. is_steered (string_bytes cleaned) ≡ false) }
{
    let text = String::from_utf8_lossy(alloc, bytes)?;
    clean_text(alloc, text.as_str())
}
