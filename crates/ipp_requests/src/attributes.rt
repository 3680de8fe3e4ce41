//! The attributes of a group, each by its name.
//!
//! A reader returns None without the attribute, and `BadRequest` if it has a wrong syntax or number of values.
ghost use Rattle.std.specs.Prelude.{◌≡◌, option_copied};
ghost use Rattle.std.specs.List.{list_all};
ghost use Rattle.ipp_requests.specs.IppAttributes.{boolean_at, boolean_in, from_least, is_keyword, is_number, keywords_at, named, number_at, number_in, numbers_at, one_of, only, text_at, values_at};

use crate::borrowed::{MessageText, MessageValues};
use crate::syntax::{Syntax, keyword_in};
use ipp_names::Status;
use ipp_values::{Attribute, Value};

/// Returns the text of this attribute.
pub fn text_at<'m>(
    syntax: Syntax,
    name: &str,
    attributes: &'m [Attribute],
) -> Result<Option<MessageText<'m>>, Status>
    ensures { result ≡ text_at syntax name.now attributes.now }
{
    let Some(attribute) = named(name, attributes) else {
        return Ok(None);
    };
    match only(attribute.values.as_slice()) {
        Some(value) => one_of(syntax.text(value)),
        None => Err(Status::BadRequest),
    }
}

/// Returns the value of this boolean attribute.
pub fn boolean_at(name: &str, attributes: &[Attribute]) -> Result<Option<bool>, Status>
    ensures { result ≡ boolean_at name.now attributes.now }
{
    let Some(attribute) = named(name, attributes) else {
        return Ok(None);
    };
    match only(attribute.values.as_slice()) {
        Some(value) => one_of(boolean_in(value)),
        None => Err(Status::BadRequest),
    }
}

/// Returns the value of this integer attribute, which must be at least `least`.
pub fn number_at(least: u32, name: &str, attributes: &[Attribute]) -> Result<Option<u32>, Status>
    ensures { result ≡ number_at least name.now attributes.now }
{
    let Some(attribute) = named(name, attributes) else {
        return Ok(None);
    };
    match only(attribute.values.as_slice()) {
        Some(value) => one_of(number_in(least, value)),
        None => Err(Status::BadRequest),
    }
}

/// Returns the values of this attribute, of whatever syntax.
pub fn values_at<'m>(name: &str, attributes: &'m [Attribute]) -> Option<MessageValues<'m>>
    ensures { result ≡ values_at name.now attributes.now }
{
    match named(name, attributes) {
        Some(attribute) => Some(MessageValues::new(attribute.values.as_slice())),
        None => None,
    }
}

/// Returns the values of this attribute, which must be keywords.
pub fn keywords_at<'m>(
    name: &str,
    attributes: &'m [Attribute],
) -> Result<Option<MessageValues<'m>>, Status>
    ensures { result ≡ keywords_at name.now attributes.now }
{
    let Some(attribute) = named(name, attributes) else {
        return Ok(None);
    };
    let values = attribute.values.as_slice();
    if are_keywords(values) {
        Ok(Some(MessageValues::new(values)))
    } else {
        Err(Status::BadRequest)
    }
}

/// Returns the values of this attribute, which must be integers from 1.
pub fn numbers_at<'m>(
    name: &str,
    attributes: &'m [Attribute],
) -> Result<Option<MessageValues<'m>>, Status>
    ensures { result ≡ numbers_at name.now attributes.now }
{
    let Some(attribute) = named(name, attributes) else {
        return Ok(None);
    };
    let values = attribute.values.as_slice();
    if are_numbers(values) {
        Ok(Some(MessageValues::new(values)))
    } else {
        Err(Status::BadRequest)
    }
}

/// Returns the first attribute with this name.
pub fn named<'m>(name: &str, attributes: &'m [Attribute]) -> Option<&'m Attribute>
    ensures { option_copied result ≡ named name.now attributes.now }
{
    attributes
        .iter()
        .find(|attribute| attribute.name.as_str() == name)
}

/// Returns the value if there is exactly one.
pub fn only(values: &[Value]) -> Option<&Value>
    ensures { option_copied result ≡ only values.now }
{
    match values {
        [value] => Some(value),
        _ => None,
    }
}

fn one_of<T>(found: Option<T>) -> Result<Option<T>, Status>
    ensures { result ≡ one_of found }
{
    match found {
        Some(x) => Ok(Some(x)),
        None => Err(Status::BadRequest),
    }
}

fn boolean_in(value: &Value) -> Option<bool>
    ensures { result ≡ boolean_in value.now }
{
    match value {
        Value::Boolean(value) => Some(*value),
        _ => None,
    }
}

fn number_in(least: u32, value: &Value) -> Option<u32>
    ensures { result ≡ number_in least value.now }
{
    match value {
        Value::Integer(number) => from_least(least, *number),
        _ => None,
    }
}

fn from_least(least: u32, number: i32) -> Option<u32>
    ensures { result ≡ from_least least number }
{
    match u32::try_from(number) {
        Ok(number) if least <= number => Some(number),
        _ => None,
    }
}

fn are_keywords(values: &[Value]) -> bool
    ensures { result ≡ list_all is_keyword values.now }
{
    values.iter().all(|value| is_keyword(value))
}

fn are_numbers(values: &[Value]) -> bool
    ensures { result ≡ list_all is_number values.now }
{
    values.iter().all(|value| is_number(value))
}

fn is_keyword(value: &Value) -> bool
    ensures { result ≡ is_keyword value.now }
{
    keyword_in(value).is_some()
}

fn is_number(value: &Value) -> bool
    ensures { result ≡ is_number value.now }
{
    number_in(1, value).is_some()
}
