//! The text of options.
ghost use Rattle.std.specs.Prelude.{◌≡◌, ◌++◌, ◌∷◌, if◌then◌else◌, encode_utf8, OnOk};
ghost use Rattle.std.specs.String.{string_bytes};
ghost use Rattle.filter_args.specs.Printing.{printed_pair, printed_value, is_special};

use crate::reading::opens_collection;
use std::alloc::AllocError;

/// Appends a pair.
pub(crate) fn push_pair(text: &mut String, name: &str, value: &str) -> Result<(), AllocError>
    ensures { OnOk result (string_bytes text.new ≡ string_bytes text.old ++ printed_pair (name.now, value.now)) }
{
    text.push_str(name)?;
    text.push('=')?;
    push_value(text, value)?;
    Ok(())
}

// Appends a value, with a backslash before each byte that would end it, quote it or make it a collection.
fn push_value(text: &mut String, value: &str) -> Result<(), AllocError>
    ensures { OnOk result (string_bytes text.new ≡ string_bytes text.old ++ printed_value value.now) }
{
    if opens_collection(value) {
        text.push('\\')?;
    }
    for c in value.chars() {
        push_escaped(text, c)?;
    }
    Ok(())
}

// Appends a character, after a backslash if it is special.
fn push_escaped(text: &mut String, c: char) -> Result<(), AllocError>
    ensures { OnOk result (string_bytes text.new ≡ string_bytes text.old ++ (if is_special c then 92 ∷ encode_utf8 c else encode_utf8 c)) }
{
    if is_special(c) {
        text.push('\\')?;
    }
    text.push(c)
}

fn is_special(c: char) -> bool
    ensures { result ≡ is_special c }
{
    c == ' ' || c == '\t' || c == '\\' || c == '\'' || c == '"'
}
