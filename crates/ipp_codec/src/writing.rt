//! Spelling messages.
ghost use Rattle.std.specs.Prelude.{◌≡◌, ◌≢◌, ◌<◌, ◌≤◌, ◌↔◌, ◌^◌, ◌++◌, ◌∷◌, [], IfOk, OnOk, IsErrOf, IsTrue, length, FitsSigned};
ghost use Rattle.std.specs.Int.{w32};
ghost use Rattle.std.specs.List.{flat_map, AllByRecursion};
ghost use Rattle.ipp_values.specs.Tags.{HasOwnNumber};
ghost use Rattle.ipp_values.specs.ValueTexts.{tag_of};
ghost use Rattle.ipp_codec.specs.Collections.{AreWhole};
ghost use Rattle.ipp_codec.specs.Octets.{clock_octets, counted, day_octets, integer_octets, octets_of, IsClock, IsDay, IsText, IsValue};
ghost use Rattle.ipp_codec.specs.MessageSpelling.{attribute_spelling, group_spelling, header_spelling, message_spelling, value_spelling, IsAttribute, IsGroup, IsHeader, IsMessage, Spells};

use crate::fault::EncodeFault;
use crate::place::Place;
use ipp_values::{
    Attribute, AttributeName, DateTime, Group, Message, NaturalLanguage, Octets, RangeOfInteger,
    Resolution, Text, Value,
};
use std::alloc::{AllocError, Global};

/// The tag at the end of the attributes (RFC 8010, 3.5.1).
const END_OF_ATTRIBUTES: u8 = 3;

/// The length of a value without octets.
const NO_OCTETS: [u8; 2] = [0, 0];

fn put(out: &mut Vec<u8>, octets: &[u8]) -> Result<(), AllocError>
    ensures { OnOk result (out.new.items ≡ out.old.items ++ octets.now) }
{
    out.extend_from_slice(octets)
}

/// Appends octets after their length.
fn put_counted(out: &mut Vec<u8>, octets: &[u8]) -> Result<(), AllocError>
    requires { length octets.now < 2 ^ 16 }
    ensures { OnOk result (out.new.items ≡ out.old.items ++ counted octets.now) }
{
    put(out, &(octets.len() as u16).to_be_bytes())?;
    put(out, octets)
}

fn put_counted_integer(out: &mut Vec<u8>, number: i32) -> Result<(), AllocError>
    ensures written { OnOk result (out.new.items ≡ out.old.items ++ counted (integer_octets number)) }
    ensures legal { FitsSigned w32 number }
{
    put_counted(out, &number.to_be_bytes())
}

fn put_text<const LEAST: usize, const MOST: usize, const HIGHEST: u8>(
    out: &mut Vec<u8>,
    text: &Text<LEAST, MOST, HIGHEST>,
) -> Result<(), AllocError>
    requires { MOST < 2 ^ 16 }
    ensures written { OnOk result (out.new.items ≡ out.old.items ++ counted text.now) }
    ensures legal { IsText LEAST MOST HIGHEST text.now }
{
    put_counted(out, text.as_str().as_bytes())
}

fn put_octets<const MOST: usize>(out: &mut Vec<u8>, octets: &Octets<MOST>) -> Result<(), AllocError>
    requires { MOST < 2 ^ 16 }
    ensures written { OnOk result (out.new.items ≡ out.old.items ++ counted octets.now) }
    ensures legal { length octets.now ≤ MOST }
{
    put_counted(out, octets.as_slice())
}

/// Returns the number, which fits an octet.
fn octet(number: u8) -> u8
    ensures value { result ≡ number }
    ensures fits { number < 256 }
{
    number
}

fn day_octets(date: &DateTime) -> [u8; 6]
    ensures value { result ≡ day_octets date.now }
    ensures legal { IsDay date.now }
{
    let year = date.year.to_be_bytes();
    let month = octet(date.month);
    let day = octet(date.day);
    let hour = octet(date.hour);
    let minute = octet(date.minute);
    [year[0], year[1], month, day, hour, minute]
}

fn clock_octets(date: &DateTime) -> [u8; 5]
    ensures value { result ≡ clock_octets date.now }
    ensures legal { IsClock date.now }
{
    let second = octet(date.second);
    let deciseconds = octet(date.deciseconds);
    let utc_direction = octet(date.utc_direction);
    let utc_hours = octet(date.utc_hours);
    let utc_minutes = octet(date.utc_minutes);
    [second, deciseconds, utc_direction, utc_hours, utc_minutes]
}

fn put_date(out: &mut Vec<u8>, date: &DateTime) -> Result<(), AllocError>
    ensures written { OnOk result (out.new.items ≡ out.old.items ++ counted (octets_of (Value.DateTime date.now))) }
    ensures legal { IsValue (Value.DateTime date.now) }
{
    let day = day_octets(date);
    let clock = clock_octets(date);
    put(out, &11u16.to_be_bytes())?;
    put(out, &day)?;
    put(out, &clock)
}

fn put_resolution(out: &mut Vec<u8>, resolution: &Resolution) -> Result<(), AllocError>
    ensures written { OnOk result (out.new.items ≡ out.old.items ++ counted (octets_of (Value.Resolution resolution.now))) }
    ensures legal { IsValue (Value.Resolution resolution.now) }
{
    let cross = resolution.cross_feed.to_be_bytes();
    let feed = resolution.feed.to_be_bytes();
    let units = octet(resolution.units);
    put_counted(
        out,
        &[
            cross[0], cross[1], cross[2], cross[3], feed[0], feed[1], feed[2], feed[3], units,
        ],
    )
}

fn put_range(out: &mut Vec<u8>, range: &RangeOfInteger) -> Result<(), AllocError>
    ensures written { OnOk result (out.new.items ≡ out.old.items ++ counted (octets_of (Value.RangeOfInteger range.now))) }
    ensures legal { IsValue (Value.RangeOfInteger range.now) }
{
    let lower = range.lower.to_be_bytes();
    let upper = range.upper.to_be_bytes();
    put_counted(
        out,
        &[
            lower[0], lower[1], lower[2], lower[3], upper[0], upper[1], upper[2], upper[3],
        ],
    )
}

/// Appends a natural language and a text, after the length of both.
fn put_localized<const MOST: usize>(
    out: &mut Vec<u8>,
    language: &NaturalLanguage,
    text: &Text<0, MOST, 255>,
) -> Result<(), AllocError>
    requires { MOST < 2 ^ 15 }
    ensures written { OnOk result (out.new.items ≡ out.old.items ++ counted (counted language.now ++ counted text.now)) }
    ensures language { IsText 0 63 127 language.now }
    ensures text { IsText 0 MOST 255 text.now }
{
    let length = 4 + language.as_str().len() + text.as_str().len();
    put(out, &(length as u16).to_be_bytes())?;
    put_text(out, language)?;
    put_text(out, text)
}

/// Appends the octets of a value after their length.
fn put_value_octets(out: &mut Vec<u8>, value: &Value) -> Result<(), AllocError>
    requires { HasOwnNumber (tag_of value.now) }
    ensures written { OnOk result (out.new.items ≡ out.old.items ++ counted (octets_of value.now)) }
    ensures legal { IsValue value.now }
{
    match value {
        Value::Unsupported | Value::Unknown | Value::NoValue => put(out, &NO_OCTETS),
        Value::BeginCollection | Value::EndCollection => put(out, &NO_OCTETS),
        Value::Integer(number) | Value::Enum(number) => put_counted_integer(out, *number),
        Value::Boolean(flag) => put_counted(out, &[u8::from(*flag)]),
        Value::OctetString(octets) => put_octets(out, octets),
        Value::DateTime(date) => put_date(out, date),
        Value::Resolution(resolution) => put_resolution(out, resolution),
        Value::RangeOfInteger(range) => put_range(out, range),
        Value::TextWithLanguage(value) => put_localized(out, &value.language, &value.text),
        Value::NameWithLanguage(value) => put_localized(out, &value.language, &value.name),
        Value::Text(text) => put_text(out, text),
        Value::Name(text) => put_text(out, text),
        Value::Keyword(text) => put_text(out, text),
        Value::Uri(text) => put_text(out, text),
        Value::UriScheme(text) => put_text(out, text),
        Value::Charset(text) => put_text(out, text),
        Value::NaturalLanguage(text) => put_text(out, text),
        Value::MimeMediaType(text) => put_text(out, text),
        Value::MemberName(name) => put_text(out, name),
        Value::Opaque(value) => put_octets(out, &value.octets),
    }
}

/// Appends a value under a name.
fn put_value(out: &mut Vec<u8>, name: &str, value: &Value) -> Result<(), AllocError>
    requires { length name.now < 2 ^ 16 }
    ensures written { OnOk result (out.new.items ≡ out.old.items ++ value_spelling name.now value.now) }
    ensures legal { OnOk result (IsValue value.now) }
{
    put(out, &[value.tag().number()])?;
    put_counted(out, name.as_bytes())?;
    put_value_octets(out, value)?;
    Ok(())
}

/// Appends an additional value. Its tag and the length of its name, which is 0, are appended together.
fn put_additional(out: &mut Vec<u8>, value: &Value) -> Result<(), AllocError>
    ensures written { OnOk result (out.new.items ≡ out.old.items ++ value_spelling [] value.now) }
    ensures legal { OnOk result (IsValue value.now) }
{
    put(out, &[value.tag().number(), 0, 0])?;
    put_value_octets(out, value)?;
    Ok(())
}

/// Appends additional values.
fn put_values(out: &mut Vec<u8>, values: &[Value]) -> Result<(), AllocError>
    ensures written { OnOk result (out.new.items ≡ out.old.items ++ flat_map (value_spelling []) values.now) }
    ensures legal { OnOk result (AllByRecursion IsValue values.now) }
{
    for value in values {
        put_additional(out, value)?;
    }
    Ok(())
}

/// Returns whether each collection among the values is whole.
fn are_whole(values: &[Value]) -> bool
    ensures { IsTrue result ↔ AreWhole values.now }
{
    let mut place = Place::Outside;
    for value in values {
        match place.after(&value.tag()) {
            Ok(next) => place = next,
            Err(_) => return false,
        }
    }
    place.is_outside()
}

/// Appends the first value of an attribute, under its name.
fn put_first(out: &mut Vec<u8>, name: &AttributeName, value: &Value) -> Result<(), AllocError>
    ensures written { OnOk result (out.new.items ≡ out.old.items ++ value_spelling name.now value.now) }
    ensures name { IsText 1 255 127 name.now }
    ensures legal { OnOk result (IsValue value.now) }
{
    put_value(out, name.as_str(), value)
}

fn put_attribute(out: &mut Vec<u8>, attribute: &Attribute) -> Result<(), EncodeFault>
    ensures written { OnOk result (out.new.items ≡ out.old.items ++ attribute_spelling attribute.now) }
    ensures legal { OnOk result (IsAttribute attribute.now) }
    ensures malformed { IsErrOf result EncodeFault.Malformed → ¬ IsAttribute attribute.now }
{
    let values = attribute.values.as_slice();
    let Some((first, others)) = values.split_first() else {
        return Err(EncodeFault::Malformed);
    };
    if !are_whole(values) {
        return Err(EncodeFault::Malformed);
    }
    put_first(out, &attribute.name, first)?;
    put_values(out, others)?;
    Ok(())
}

fn put_attributes(out: &mut Vec<u8>, attributes: &[Attribute]) -> Result<(), EncodeFault>
    ensures written { OnOk result (out.new.items ≡ out.old.items ++ flat_map attribute_spelling attributes.now) }
    ensures legal { OnOk result (AllByRecursion IsAttribute attributes.now) }
    ensures malformed { IsErrOf result EncodeFault.Malformed → ¬ AllByRecursion IsAttribute attributes.now }
{
    for attribute in attributes {
        put_attribute(out, attribute)?;
    }
    Ok(())
}

fn put_group(out: &mut Vec<u8>, group: &Group) -> Result<(), EncodeFault>
    ensures written { OnOk result (out.new.items ≡ out.old.items ++ group_spelling group.now) }
    ensures legal { OnOk result (IsGroup group.now) }
    ensures malformed { IsErrOf result EncodeFault.Malformed → ¬ IsGroup group.now }
{
    put(out, &[group.tag.number()])?;
    put_attributes(out, group.attributes.as_slice())
}

fn put_groups(out: &mut Vec<u8>, groups: &[Group]) -> Result<(), EncodeFault>
    ensures written { OnOk result (out.new.items ≡ out.old.items ++ flat_map group_spelling groups.now) }
    ensures legal { OnOk result (AllByRecursion IsGroup groups.now) }
    ensures malformed { IsErrOf result EncodeFault.Malformed → ¬ AllByRecursion IsGroup groups.now }
{
    for group in groups {
        put_group(out, group)?;
    }
    Ok(())
}

fn put_header(out: &mut Vec<u8>, message: &Message) -> Result<(), AllocError>
    ensures written { OnOk result (out.new.items ≡ out.old.items ++ header_spelling message.now) }
    ensures legal { IsHeader message.now }
{
    let major = octet(message.version.major);
    let minor = octet(message.version.minor);
    let code = message.code.to_be_bytes();
    let number = message.request_id.to_be_bytes();
    put(
        out,
        &[
            major, minor, code[0], code[1], number[0], number[1], number[2], number[3],
        ],
    )
}

fn put_message(out: &mut Vec<u8>, message: &Message) -> Result<(), EncodeFault>
    ensures written { OnOk result (out.new.items ≡ out.old.items ++ message_spelling message.now) }
    ensures legal { OnOk result (IsMessage message.now) }
    ensures malformed { IsErrOf result EncodeFault.Malformed → ¬ IsMessage message.now }
{
    put_header(out, message)?;
    put_groups(out, message.groups.as_slice())?;
    put(out, &[END_OF_ATTRIBUTES])?;
    Ok(())
}

/// Returns the spelling of the message. A document may follow it.
pub fn encode(alloc: Global, message: &Message) -> Result<Vec<u8>, EncodeFault>
    ensures spelled { IfOk result (λ octets. Spells message.now octets.items) }
    ensures malformed { IsErrOf result EncodeFault.Malformed → ¬ IsMessage message.now }
{
    let mut out = Vec::new(alloc);
    put_message(&mut out, message)?;
    Ok(out)
}
