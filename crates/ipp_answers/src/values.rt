//! Values of attributes, and lists of values.
ghost use Rattle.std.specs.Prelude.{◌≡◌, ◌∷◌, ◌↔◌, [], map, take, IfOk, OnOk, IsOk};
ghost use Rattle.std.specs.Option.{option_copied, option_map};
ghost use Rattle.ipp_answers.specs.AnswerValues.{charset_value, date_or_unknown, dots, enum_of, fits, integer_of, keyword_value, language_value, name_value, of_option, range_from, seconds_of, string_value, text_value, type_value, uri_value};

use crate::timestamps::Timestamp;
use ipp_values::{
    Charset, Items, Keyword, MimeMediaType, NameString, NaturalLanguage, RangeOfInteger,
    Resolution, TextString, Uri, Value, ValueFault,
};
use spool_types::{Text, TextKind};
use std::alloc::{AllocError, Global};

/// The syntax of a character string (RFC 8011, 5.1).
#[derive(Clone, Copy)]
pub enum Syntax {
    Text,
    Name,
    Keyword,
    Uri,
    Charset,
    NaturalLanguage,
    MimeMediaType,
}

/// Returns the text as a value of the syntax, or `NoValue` if the text is outside the limits of the syntax.
pub fn string(alloc: Global, syntax: Syntax, text: &str) -> Result<Value, AllocError>
    ensures { IfOk result (λ value. value ≡ string_value syntax text.now) }
{
    match syntax {
        Syntax::Text => text_string(alloc, text),
        Syntax::Name => name_string(alloc, text),
        Syntax::Keyword => keyword(alloc, text),
        Syntax::Uri => uri(alloc, text),
        Syntax::Charset => charset(alloc, text),
        Syntax::NaturalLanguage => language(alloc, text),
        Syntax::MimeMediaType => media_type(alloc, text),
    }
}

fn text_string(alloc: Global, text: &str) -> Result<Value, AllocError>
    ensures { IfOk result (λ value. value ≡ text_value text.now) }
{
    match TextString::read(alloc, text) {
        Ok(text) => Ok(Value::Text(text)),
        Err(ValueFault::Bad) => Ok(Value::NoValue),
        Err(ValueFault::Memory) => Err(AllocError),
    }
}

fn name_string(alloc: Global, text: &str) -> Result<Value, AllocError>
    ensures { IfOk result (λ value. value ≡ name_value text.now) }
{
    match NameString::read(alloc, text) {
        Ok(name) => Ok(Value::Name(name)),
        Err(ValueFault::Bad) => Ok(Value::NoValue),
        Err(ValueFault::Memory) => Err(AllocError),
    }
}

fn keyword(alloc: Global, text: &str) -> Result<Value, AllocError>
    ensures { IfOk result (λ value. value ≡ keyword_value text.now) }
{
    match Keyword::read(alloc, text) {
        Ok(keyword) => Ok(Value::Keyword(keyword)),
        Err(ValueFault::Bad) => Ok(Value::NoValue),
        Err(ValueFault::Memory) => Err(AllocError),
    }
}

fn uri(alloc: Global, text: &str) -> Result<Value, AllocError>
    ensures { IfOk result (λ value. value ≡ uri_value text.now) }
{
    match Uri::read(alloc, text) {
        Ok(uri) => Ok(Value::Uri(uri)),
        Err(ValueFault::Bad) => Ok(Value::NoValue),
        Err(ValueFault::Memory) => Err(AllocError),
    }
}

fn charset(alloc: Global, text: &str) -> Result<Value, AllocError>
    ensures { IfOk result (λ value. value ≡ charset_value text.now) }
{
    match Charset::read(alloc, text) {
        Ok(charset) => Ok(Value::Charset(charset)),
        Err(ValueFault::Bad) => Ok(Value::NoValue),
        Err(ValueFault::Memory) => Err(AllocError),
    }
}

fn language(alloc: Global, text: &str) -> Result<Value, AllocError>
    ensures { IfOk result (λ value. value ≡ language_value text.now) }
{
    match NaturalLanguage::read(alloc, text) {
        Ok(language) => Ok(Value::NaturalLanguage(language)),
        Err(ValueFault::Bad) => Ok(Value::NoValue),
        Err(ValueFault::Memory) => Err(AllocError),
    }
}

fn media_type(alloc: Global, text: &str) -> Result<Value, AllocError>
    ensures { IfOk result (λ value. value ≡ type_value text.now) }
{
    match MimeMediaType::read(alloc, text) {
        Ok(media) => Ok(Value::MimeMediaType(media)),
        Err(ValueFault::Bad) => Ok(Value::NoValue),
        Err(ValueFault::Memory) => Err(AllocError),
    }
}

/// Returns the text as the only value.
pub fn one_string(alloc: Global, syntax: Syntax, text: &str) -> Result<Items<Value>, AllocError>
    ensures { IfOk result (λ values. values ≡ string_value syntax text.now ∷ []) }
{
    Items::one(alloc, string(alloc, syntax, text)?)
}

/// Returns the texts as values.
pub fn strings(alloc: Global, syntax: Syntax, texts: &[&str]) -> Result<Items<Value>, AllocError>
    ensures { IfOk result (λ values. values ≡ map (λ text. string_value syntax text.now) texts.now) }
{
    let mut values = Items::empty(alloc);
    for text in texts {
        values.push(string(alloc, syntax, text)?)?;
    }
    Ok(values)
}

/// Returns the words as keywords.
pub fn keywords(alloc: Global, words: &[&str]) -> Result<Items<Value>, AllocError>
    ensures { IfOk result (λ values. values ≡ map keyword_value (map (λ word. word.now) words.now)) }
{
    strings(alloc, Syntax::Keyword, words)
}

/// Returns texts of the service as values.
pub fn texts<K: TextKind>(
    alloc: Global,
    syntax: Syntax,
    texts: &[Text<K>],
) -> Result<Items<Value>, AllocError>
    ensures { IfOk result (λ values. values ≡ map (string_value syntax) texts.now) }
{
    let mut values = Items::empty(alloc);
    for text in texts {
        values.push(string(alloc, syntax, text.as_str())?)?;
    }
    Ok(values)
}

/// Returns a text of the service as the only value, or no values if there is none.
pub fn optional_text<K: TextKind>(
    alloc: Global,
    syntax: Syntax,
    text: Option<&Text<K>>,
) -> Result<Items<Value>, AllocError>
    ensures { IfOk result (λ values. values ≡ of_option (string_value syntax) (option_copied text.entry)) }
{
    match text {
        Some(text) => one_string(alloc, syntax, text.as_str()),
        None => Ok(Items::empty(alloc)),
    }
}

// ## Numbers

// The greatest integer.
const MOST_INTEGER: u64 = 2_147_483_647;

/// Returns the number as an integer, or `NoValue` if it is greater than any integer.
pub fn integer(number: u64) -> Value
    ensures { result ≡ integer_of number }
{
    if number <= MOST_INTEGER {
        Value::Integer(number as i32)
    } else {
        Value::NoValue
    }
}

/// Returns the number as an enum, or `NoValue` if it is greater than any integer.
pub fn enumerated(number: u64) -> Value
    ensures { result ≡ enum_of number }
{
    if number <= MOST_INTEGER {
        Value::Enum(number as i32)
    } else {
        Value::NoValue
    }
}

/// Returns the range of integers from one number to another.
pub fn range(lower: u64, upper: u64) -> Value
    ensures { result ≡ range_from lower upper }
{
    if lower <= MOST_INTEGER && upper <= MOST_INTEGER {
        Value::RangeOfInteger(RangeOfInteger {
            lower: lower as i32,
            upper: upper as i32,
        })
    } else {
        Value::NoValue
    }
}

/// Returns a resolution in dots per inch, in both directions.
pub fn dots(number: u32) -> Value
    ensures { result ≡ dots number }
{
    if u64::from(number) <= MOST_INTEGER {
        Value::Resolution(Resolution {
            cross_feed: number as i32,
            feed: number as i32,
            units: Resolution::DOTS_PER_INCH,
        })
    } else {
        Value::NoValue
    }
}

/// Returns the numbers as integers.
pub fn integers(alloc: Global, numbers: &[u32]) -> Result<Items<Value>, AllocError>
    ensures { IfOk result (λ values. values ≡ map integer_of numbers.now) }
{
    let mut values = Items::empty(alloc);
    for number in numbers {
        values.push(integer(u64::from(*number)))?;
    }
    Ok(values)
}

/// Returns the numbers as enums.
pub fn enums(alloc: Global, numbers: &[u32]) -> Result<Items<Value>, AllocError>
    ensures { IfOk result (λ values. values ≡ map enum_of numbers.now) }
{
    let mut values = Items::empty(alloc);
    for number in numbers {
        values.push(enumerated(u64::from(*number)))?;
    }
    Ok(values)
}

// ## Moments

/// Returns the seconds since 1970, or `NoValue` for an unknown moment.
pub fn seconds(timestamp: Option<Timestamp>) -> Value
    ensures { result ≡ seconds_of timestamp }
{
    match timestamp {
        Some(timestamp) => integer(timestamp.seconds),
        None => Value::NoValue,
    }
}

/// Returns the date, or `Unknown` for an unknown moment.
pub fn date(timestamp: Option<Timestamp>) -> Value
    ensures { result ≡ date_or_unknown timestamp }
{
    match timestamp {
        Some(timestamp) => Value::DateTime(timestamp.date),
        None => Value::Unknown,
    }
}
