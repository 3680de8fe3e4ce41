//! Reading a text of options.
ghost use Rattle.std.specs.Prelude.{◌≡◌, ◌++◌, [], cond, if◌then◌else◌, encode_utf8, None, Some, Ok, IfOk, OnOk};
ghost use Rattle.std.specs.List.{list_all, list_any};
ghost use Rattle.std.specs.String.{string_bytes};
ghost use Rattle.std.specs.Cow.{cow_str_bytes};
ghost use Rattle.std.specs.Result.{result_err};
ghost use Rattle.spool_types.specs.Values.{is_word_byte};
ghost use Rattle.filter_args.specs.Pairs.{is_option_name};
ghost use Rattle.line_words.specs.Quoting.{keeps, is_quoting, is_bare, said, place_after};
ghost use Rattle.filter_args.specs.OptionTexts.{is_collection, pair_in, value_in, bare_pair, word_here, after_word};
ghost use Rattle.filter_args.specs.OptionFields.{pair_of};

use crate::fault::OptionFault;
use line_words::Quoting;
use std::alloc::{AllocError, Global};
use std::borrow::CowStr;

/// Splits at the first blank that is neither in quotes nor escaped. The second part begins after that blank.
pub(crate) fn split_word(text: &str) -> (&str, &str)
    ensures word { result.0.now ≡ word_here Quoting.Bare text.now }
    ensures rest { result.1.now ≡ after_word Quoting.Bare text.now }
{
    let bytes = text.as_bytes();
    let mut place = Quoting::Bare;
    for (i, b) in bytes.iter().enumerate() {
        if place.is_cut(*b) {
            return (&text[..i], &text[i + 1..]);
        }
        place = place.next(char::from(*b));
    }
    (text, "")
}

/// Returns the error of the pair in a word, if any.
pub(crate) fn pair_fault(word: &str) -> Option<OptionFault>
    ensures { result ≡ result_err (pair_in word.now) }
{
    match word.split_once('=') {
        None => name_fault(word),
        Some((name, raw)) => name_fault(name).or(value_fault(raw)),
    }
}

fn name_fault(name: &str) -> Option<OptionFault>
    ensures { result ≡ cond (is_option_name name.now) None (Some OptionFault.BadName) }
{
    if is_option_name(name) {
        None
    } else {
        Some(OptionFault::BadName)
    }
}

// Returns the error of the value after `=`, if any.
fn value_fault(raw: &str) -> Option<OptionFault>
    ensures { result ≡ result_err (value_in raw.now) }
{
    if opens_collection(raw) {
        return Some(OptionFault::Collection);
    }
    if is_closed(raw) {
        None
    } else {
        Some(OptionFault::Unclosed)
    }
}

// Returns whether each quote of a value is closed, and no backslash is at its end.
fn is_closed(raw: &str) -> bool
    ensures { result ≡ is_bare (place_after Quoting.Bare raw.now) }
{
    let mut place = Quoting::Bare;
    for c in raw.chars() {
        place = place.next(c);
    }
    place.is_bare()
}

/// Returns the pair in a word: a name alone, or a name, `=` and a value.
pub(crate) fn read_pair<'a>(
    alloc: Global,
    word: &'a str,
) -> Result<(&'a str, CowStr<'a, Global>), AllocError>
    requires { result_err (pair_in word.now) ≡ None }
    ensures { IfOk result (λ pair. pair_in word.now ≡ Ok (pair_of pair)) }
{
    match word.split_once('=') {
        None => {
            let (name, value) = bare_pair(word);
            Ok((name, CowStr::Borrowed(value)))
        }
        Some((name, raw)) => {
            let value = read_value(alloc, raw)?;
            Ok((name, value))
        }
    }
}

/// Returns whether a text is the name of an option.
pub fn is_option_name(text: &str) -> bool
    ensures value { result ≡ is_option_name text.now }
{
    1 <= text.len() && has_only_name_bytes(text)
}

fn has_only_name_bytes(text: &str) -> bool
    ensures { result ≡ list_all is_word_byte text.now }
{
    text.as_bytes().iter().all(|b| is_name_byte(*b))
}

fn is_name_byte(b: u8) -> bool
    ensures { result ≡ is_word_byte b }
{
    b.is_ascii_alphanumeric() || b == b'-' || b == b'_' || b == b'.'
}

// A name alone is true, and false after `no`.
fn bare_pair(name: &str) -> (&str, &'static str)
    ensures { (result.0.now, result.1.now) ≡ bare_pair name.now }
{
    if 2 < name.len() && name.starts_with("no") {
        (&name[2..], "false")
    } else {
        (name, "true")
    }
}

// Returns the value after `=`. A value without quotes and backslashes is borrowed.
fn read_value<'a>(alloc: Global, raw: &'a str) -> Result<CowStr<'a, Global>, AllocError>
    ensures { IfOk result (λ value. cow_str_bytes value ≡ said Quoting.Bare raw.now) }
{
    if has_marks(raw) {
        let value = unquoted(alloc, raw)?;
        return Ok(CowStr::Owned(value));
    }
    Ok(CowStr::Borrowed(raw))
}

/// Returns whether the value begins with `{`, which opens a collection.
pub(crate) fn opens_collection(raw: &str) -> bool
    ensures { result ≡ is_collection raw.now }
{
    raw.starts_with('{')
}

// Returns whether a value contains a quote or a backslash.
fn has_marks(raw: &str) -> bool
    ensures { result ≡ list_any is_quoting raw.now }
{
    raw.as_bytes().iter().any(|b| is_mark(*b))
}

fn is_mark(b: u8) -> bool
    ensures { result ≡ is_quoting b }
{
    b == b'\\' || b == b'\'' || b == b'"'
}

// Returns the value without its quotes and backslashes.
fn unquoted(alloc: Global, raw: &str) -> Result<String, AllocError>
    ensures { IfOk result (λ value. string_bytes value ≡ said Quoting.Bare raw.now) }
{
    let mut value = String::with_capacity(alloc, raw.len())?;
    let mut place = Quoting::Bare;
    for c in raw.chars() {
        push_kept(&mut value, place, c)?;
        place = place.next(c);
    }
    Ok(value)
}

// Appends a character that belongs to the value.
fn push_kept(value: &mut String, place: Quoting, c: char) -> Result<(), AllocError>
    ensures { OnOk result (string_bytes value.new ≡ string_bytes value.old ++ (if keeps place c then encode_utf8 c else [])) }
{
    if place.keeps(c) {
        value.push(c)?;
    }
    Ok(())
}
