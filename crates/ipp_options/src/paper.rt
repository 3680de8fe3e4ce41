//! Sizes of paper.
ghost use Rattle.std.specs.Prelude.{◌≡◌, ◌<◌, ◌^◌};
ghost use Rattle.std.specs.List.{list_any, find};
ghost use Rattle.std.specs.Option.{option_map, option_and_then};
ghost use Rattle.ipp_options.specs.AttributeWords.{integer_of, word_of};
ghost use Rattle.ipp_options.specs.PaperValues.{names, is_media, is_member, after_name, member, are_near, is_near, size_near, size_by_name, size_between, size_in, is_size_member, is_usual, is_honored, honors, are_honored, is_word};

use crate::words;
use crate::words::{integer_of, word_of};
use ipp_printers::MediaSize;
use ipp_values::Value;

/// Returns whether a word names one of the sizes, by its name or by the middle part of its name in any case.
pub(crate) fn is_media(sizes: &[MediaSize], word: &str) -> bool
    ensures { result ≡ is_media sizes.now word.now }
{
    sizes.iter().any(|size| names(word, size))
}

fn names(word: &str, size: &MediaSize) -> bool
    ensures { result ≡ names word.now size.now }
{
    size.name.as_str() == word || size.short_name().eq_ignore_ascii_case(word.as_bytes())
}

/// Returns the name of the size that the values of media-col describe.
pub(crate) fn size_in<'a>(sizes: &'a [MediaSize], values: &[Value]) -> Option<&'a str>
    ensures { option_map (λ name. name.now) result ≡ size_in sizes.now values.now }
{
    let size = after_name("media-size", values);
    if size.is_empty() {
        size_by_name(sizes, word_of(member("media-size-name", values)?)?)
    } else {
        size_between(sizes, size)
    }
}

// Returns the name of the size with the dimensions among these values.
fn size_between<'a>(sizes: &'a [MediaSize], values: &[Value]) -> Option<&'a str>
    ensures { option_map (λ name. name.now) result ≡ size_between sizes.now values.now }
{
    let width = integer_of(member("x-dimension", values)?)?;
    let height = integer_of(member("y-dimension", values)?)?;
    size_near(sizes, width, height)
}

// Returns the first value of the first member with this name.
fn member<'a>(name: &str, values: &'a [Value]) -> Option<&'a Value>
    ensures { option_map (λ value. value.now) result ≡ member name.now values.now }
{
    after_name(name, values).first()
}

// Returns the values after the name of the first such member.
fn after_name<'a>(name: &str, values: &'a [Value]) -> &'a [Value]
    ensures { result.now ≡ after_name name.now values.now }
{
    let mut rest = values;
    while let Some((value, others)) = rest.split_first() {
        if is_member(name, value) {
            return others;
        }
        rest = others;
    }
    rest
}

fn is_member(name: &str, value: &Value) -> bool
    ensures { result ≡ is_member name.now value.now }
{
    match value {
        Value::MemberName(member) => member.as_str() == name,
        _ => false,
    }
}

fn size_near(sizes: &[MediaSize], width: u32, height: u32) -> Option<&str>
    ensures { option_map (λ name. name.now) result ≡ size_near sizes.now (Some width) (Some height) }
{
    let size = sizes.iter().find(|size| is_near(width, height, size))?;
    Some(size.name.as_str())
}

fn is_near(width: u32, height: u32, size: &MediaSize) -> bool
    ensures { result ≡ is_near width height size.now }
{
    are_near(width, size.width) && are_near(height, size.height)
}

// Returns whether two lengths are at most half a millimetre apart.
fn are_near(a: u32, b: u32) -> bool
    ensures { result ≡ are_near a b }
{
    a.abs_diff(b) <= 50
}

fn size_by_name<'a>(sizes: &'a [MediaSize], word: &str) -> Option<&'a str>
    ensures { option_map (λ name. name.now) result ≡ size_by_name sizes.now (Some word.now) }
{
    let size = sizes.iter().find(|size| size.name.as_str() == word)?;
    Some(size.name.as_str())
}

/// Returns whether all members of the values of media-col are honored.
pub(crate) fn are_honored(values: &[Value]) -> bool
    ensures { result ≡ are_honored values.now }
{
    let mut rest = values;
    while let Some((value, others)) = rest.split_first() {
        if !honors(value, others.first()) {
            return false;
        }
        rest = others;
    }
    true
}

fn honors(value: &Value, next: Option<&Value>) -> bool
    ensures { result ≡ honors value.now (option_map (λ value. value.now) next.entry) }
{
    match value {
        Value::MemberName(name) => is_honored(name.as_str(), next),
        _ => true,
    }
}

fn is_honored(name: &str, next: Option<&Value>) -> bool
    ensures { result ≡ is_honored name.now (option_map (λ value. value.now) next.entry) }
{
    is_size_member(name)
        || is_usual("media-source", "auto", name, next)
        || is_usual("media-type", "stationery", name, next)
}

// Returns whether a member has this name, and this word is its value.
fn is_usual(member: &str, word: &str, name: &str, next: Option<&Value>) -> bool
    ensures { result ≡ is_usual member.now word.now name.now (option_map (λ value. value.now) next.entry) }
{
    name == member && is_word(word, next)
}

fn is_size_member(name: &str) -> bool
    ensures { result ≡ is_size_member name.now }
{
    name == "media-size"
        || name == "x-dimension"
        || name == "y-dimension"
        || name == "media-size-name"
        || name == "media-bottom-margin"
        || name == "media-left-margin"
        || name == "media-right-margin"
        || name == "media-top-margin"
}

fn is_word(word: &str, value: Option<&Value>) -> bool
    ensures { result ≡ is_word word.now (option_map (λ value. value.now) value.entry) }
{
    match value {
        Some(value) => words::is_word(word, value),
        None => false,
    }
}
