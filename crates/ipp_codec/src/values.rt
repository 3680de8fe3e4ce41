//! Reading the octets of values.
ghost use Rattle.std.specs.Prelude.{◌≡◌, ◌≤◌, IsTrue, IfOk, Ok, length};
ghost use Rattle.ipp_codec.specs.Octets.{is_length, may_begin};
ghost use Rattle.ipp_codec.specs.Reading.{boolean_of, counted_at, date_of, first_passes, integer_of, localized_of, number_at, part_at, range_of, resolution_of, text_of, value_at, value_of, value_tag_of};
ghost use Rattle.ipp_codec.specs.ReadSteps.{Gives};
ghost use Rattle.std.specs.Int.{w8, w16, w32};
ghost use Rattle.ipp_codec.specs.declared.fault.DecodeFault.TheVariants.{NeedMore};

use crate::fault::DecodeFault;
use ipp_values::{
    DateTime, NameWithLanguage, NaturalLanguage, Octets, OpaqueTag, OpaqueValue, RangeOfInteger,
    Resolution, Text, TextWithLanguage, Value, ValueFault, ValueTag,
};
use std::alloc::Global;

/// Returns the first `count` octets.
#[tactic(auto, unfolding(crate::specs::Reading::part_at))]
pub(crate) fn part_at(count: usize, octets: &[u8]) -> Result<(&[u8], &[u8]), DecodeFault>
    ensures read { Gives (λ x. (x.0.now, x.1.now)) result (part_at NeedMore count octets.now) }
    ensures length { IfOk result (λ x. length x.0.now ≡ count) }
{
    if octets.len() < count {
        return Err(DecodeFault::NeedMore);
    }
    Ok(octets.split_at(count))
}

#[tactic(auto, unfolding(crate::specs::Reading::number_at))]
pub(crate) fn u8_at(octets: &[u8]) -> Result<(u8, &[u8]), DecodeFault>
    ensures { Gives (λ x. (x.0, x.1.now)) result (number_at NeedMore w8 octets.now) }
{
    let (part, rest) = part_at(1, octets)?;
    Ok((part[0], rest))
}

#[tactic(auto, unfolding(crate::specs::Reading::number_at))]
pub(crate) fn u16_at(octets: &[u8]) -> Result<(u16, &[u8]), DecodeFault>
    ensures { Gives (λ x. (x.0, x.1.now)) result (number_at NeedMore w16 octets.now) }
{
    let (part, rest) = part_at(2, octets)?;
    Ok((u16::from_be_bytes([part[0], part[1]]), rest))
}

#[tactic(auto, unfolding(crate::specs::Reading::number_at))]
pub(crate) fn u32_at(octets: &[u8]) -> Result<(u32, &[u8]), DecodeFault>
    ensures { Gives (λ x. (x.0, x.1.now)) result (number_at NeedMore w32 octets.now) }
{
    let (part, rest) = part_at(4, octets)?;
    Ok((
        u32::from_be_bytes([part[0], part[1], part[2], part[3]]),
        rest,
    ))
}

#[tactic(auto, unfolding(crate::specs::Reading::value_tag_of))]
pub(crate) fn value_tag_of(number: u8) -> Result<ValueTag, DecodeFault>
    ensures { Gives (λ tag. tag) result (value_tag_of number) }
{
    match ValueTag::from_number(number) {
        Some(tag) => Ok(tag),
        None => Err(DecodeFault::Delimiter),
    }
}

/// Returns a character string of this kind. It is copied once.
#[tactic(auto, unfolding(crate::specs::Reading::text_of))]
pub(crate) fn text_of<const LEAST: usize, const MOST: usize, const HIGHEST: u8>(
    alloc: Global,
    octets: &[u8],
) -> Result<Text<LEAST, MOST, HIGHEST>, DecodeFault>
    ensures { Gives (λ text. text) result (text_of LEAST MOST HIGHEST octets.now) }
{
    let Ok(text) = str::from_utf8(octets) else {
        return Err(DecodeFault::Text);
    };
    match Text::read(alloc, text) {
        Ok(text) => Ok(text),
        Err(ValueFault::Bad) => Err(DecodeFault::Text),
        Err(ValueFault::Memory) => Err(DecodeFault::Memory),
    }
}

fn octets_of<const MOST: usize>(alloc: Global, octets: &[u8]) -> Result<Octets<MOST>, DecodeFault>
    requires { length octets.now ≤ MOST }
    ensures { Gives (λ copy. copy) result (Ok octets.now) }
{
    match Octets::read(alloc, octets) {
        Ok(copy) => Ok(copy),
        Err(ValueFault::Bad) => Err(DecodeFault::Length),
        Err(ValueFault::Memory) => Err(DecodeFault::Memory),
    }
}

#[tactic(auto, unfolding(crate::specs::Reading::integer_of))]
fn integer_of(octets: &[u8]) -> i32
    requires { length octets.now ≡ 4 }
    ensures { result ≡ integer_of octets.now }
{
    i32::from_be_bytes([octets[0], octets[1], octets[2], octets[3]])
}

#[tactic(auto, unfolding(crate::specs::Reading::boolean_of))]
fn boolean_of(number: u8) -> Result<bool, DecodeFault>
    ensures { Gives (λ b. b) result (boolean_of number) }
{
    match number {
        0 => Ok(false),
        1 => Ok(true),
        _ => Err(DecodeFault::Boolean),
    }
}

/// Returns the octets that follow their length, within a value.
#[tactic(auto, unfolding(crate::specs::Reading::counted_at, crate::specs::Reading::number_at, crate::specs::Reading::part_at))]
fn counted_at(octets: &[u8]) -> Result<(&[u8], &[u8]), DecodeFault>
    ensures { Gives (λ x. (x.0.now, x.1.now)) result (counted_at octets.now) }
{
    if octets.len() < 2 {
        return Err(DecodeFault::Length);
    }
    let (front, rest) = octets.split_at(2);
    let count = u16::from_be_bytes([front[0], front[1]]) as usize;
    if rest.len() < count {
        return Err(DecodeFault::Length);
    }
    Ok(rest.split_at(count))
}

/// Returns a natural language and a text of at most `MOST` octets.
#[tactic(auto, unfolding(crate::specs::Reading::localized_of, crate::specs::Reading::checked))]
fn localized_of<const MOST: usize>(
    alloc: Global,
    octets: &[u8],
) -> Result<(NaturalLanguage, Text<0, MOST, 255>), DecodeFault>
    ensures { Gives (λ x. (x.0, x.1)) result (localized_of MOST octets.now) }
{
    let (language, rest) = counted_at(octets)?;
    let (text, rest) = counted_at(rest)?;
    if !rest.is_empty() {
        return Err(DecodeFault::Length);
    }
    let language = text_of(alloc, language)?;
    let text = text_of(alloc, text)?;
    Ok((language, text))
}

fn date_of(octets: &[u8]) -> DateTime
    requires { length octets.now ≡ 11 }
    ensures { result ≡ date_of octets.now }
{
    DateTime {
        year: u16::from_be_bytes([octets[0], octets[1]]),
        month: octets[2],
        day: octets[3],
        hour: octets[4],
        minute: octets[5],
        second: octets[6],
        deciseconds: octets[7],
        utc_direction: octets[8],
        utc_hours: octets[9],
        utc_minutes: octets[10],
    }
}

fn resolution_of(octets: &[u8]) -> Resolution
    requires { length octets.now ≡ 9 }
    ensures { result ≡ resolution_of octets.now }
{
    Resolution {
        cross_feed: integer_of(&octets[..4]),
        feed: integer_of(&octets[4..8]),
        units: octets[8],
    }
}

fn range_of(octets: &[u8]) -> RangeOfInteger
    requires { length octets.now ≡ 8 }
    ensures { result ≡ range_of octets.now }
{
    RangeOfInteger {
        lower: integer_of(&octets[..4]),
        upper: integer_of(&octets[4..8]),
    }
}

#[tactic(auto, unfolding(crate::specs::Reading::value_of))]
fn text_with_language_of(alloc: Global, octets: &[u8]) -> Result<Value, DecodeFault>
    ensures { Gives (λ v. v) result (value_of ValueTag.TextWithLanguage octets.now) }
{
    let (language, text) = localized_of(alloc, octets)?;
    Ok(Value::TextWithLanguage(TextWithLanguage { language, text }))
}

#[tactic(auto, unfolding(crate::specs::Reading::value_of))]
fn name_with_language_of(alloc: Global, octets: &[u8]) -> Result<Value, DecodeFault>
    ensures { Gives (λ v. v) result (value_of ValueTag.NameWithLanguage octets.now) }
{
    let (language, name) = localized_of(alloc, octets)?;
    Ok(Value::NameWithLanguage(NameWithLanguage { language, name }))
}

#[tactic(auto, unfolding(crate::specs::Reading::value_of))]
fn value_of(alloc: Global, tag: &ValueTag, octets: &[u8]) -> Result<Value, DecodeFault>
    requires { IsTrue (is_length tag.now (length octets.now)) }
    ensures { Gives (λ v. v) result (value_of tag.now octets.now) }
{
    match tag {
        ValueTag::Unsupported => Ok(Value::Unsupported),
        ValueTag::Unknown => Ok(Value::Unknown),
        ValueTag::NoValue => Ok(Value::NoValue),
        ValueTag::Integer => Ok(Value::Integer(integer_of(octets))),
        ValueTag::Boolean => Ok(Value::Boolean(boolean_of(octets[0])?)),
        ValueTag::Enum => Ok(Value::Enum(integer_of(octets))),
        ValueTag::OctetString => Ok(Value::OctetString(octets_of(alloc, octets)?)),
        ValueTag::DateTime => Ok(Value::DateTime(date_of(octets))),
        ValueTag::Resolution => Ok(Value::Resolution(resolution_of(octets))),
        ValueTag::RangeOfInteger => Ok(Value::RangeOfInteger(range_of(octets))),
        ValueTag::BeginCollection => Ok(Value::BeginCollection),
        ValueTag::EndCollection => Ok(Value::EndCollection),
        ValueTag::Opaque(tag) => Ok(Value::Opaque(OpaqueValue {
            tag: *tag,
            octets: octets_of(alloc, octets)?,
        })),
        ValueTag::TextWithLanguage => text_with_language_of(alloc, octets),
        ValueTag::NameWithLanguage => name_with_language_of(alloc, octets),
        ValueTag::MemberName => Ok(Value::MemberName(text_of(alloc, octets)?)),
        ValueTag::Text => Ok(Value::Text(text_of(alloc, octets)?)),
        ValueTag::Name => Ok(Value::Name(text_of(alloc, octets)?)),
        ValueTag::Keyword => Ok(Value::Keyword(text_of(alloc, octets)?)),
        ValueTag::Uri => Ok(Value::Uri(text_of(alloc, octets)?)),
        ValueTag::UriScheme => Ok(Value::UriScheme(text_of(alloc, octets)?)),
        ValueTag::Charset => Ok(Value::Charset(text_of(alloc, octets)?)),
        ValueTag::NaturalLanguage => Ok(Value::NaturalLanguage(text_of(alloc, octets)?)),
        ValueTag::MimeMediaType => Ok(Value::MimeMediaType(text_of(alloc, octets)?)),
    }
}

/// Returns whether the octets of a value with this tag may have this length.
fn is_length(tag: &ValueTag, length: usize) -> bool
    ensures { result ≡ is_length tag.now length }
{
    match tag {
        ValueTag::Unsupported => length == 0,
        ValueTag::Unknown => length == 0,
        ValueTag::NoValue => length == 0,
        ValueTag::Integer => length == 4,
        ValueTag::Boolean => length == 1,
        ValueTag::Enum => length == 4,
        ValueTag::OctetString => length <= 1_023,
        ValueTag::DateTime => length == 11,
        ValueTag::Resolution => length == 9,
        ValueTag::RangeOfInteger => length == 8,
        ValueTag::BeginCollection => length == 0,
        ValueTag::TextWithLanguage => 4 <= length && length <= 1_090,
        ValueTag::NameWithLanguage => 4 <= length && length <= 322,
        ValueTag::EndCollection => length == 0,
        ValueTag::Text => length <= 1_023,
        ValueTag::Name => length <= 255,
        ValueTag::Keyword => 1 <= length && length <= 255,
        ValueTag::Uri => length <= 1_023,
        ValueTag::UriScheme => length <= 63,
        ValueTag::Charset => length <= 63,
        ValueTag::NaturalLanguage => length <= 63,
        ValueTag::MimeMediaType => length <= 255,
        ValueTag::MemberName => 1 <= length && length <= 255,
        ValueTag::Opaque(_) => length <= 32_767,
    }
}

/// Returns whether the length of a value with this tag may begin with this octet.
fn may_begin(tag: &ValueTag, high: u8) -> bool
    ensures { result ≡ may_begin tag.now high }
{
    high == 0 || is_length(tag, high as usize * 256)
}

/// Returns whether the first octet of a length, if it has arrived, is one of a length of the tag.
fn length_begins(tag: &ValueTag, octets: &[u8]) -> bool
    ensures { result ≡ first_passes (may_begin tag.now) octets.now }
{
    match octets {
        [high, ..] => may_begin(tag, *high),
        [] => true,
    }
}

/// Returns the value after its length. Each octet of the length is examined before the next one has arrived.
#[tactic(auto, unfolding(crate::specs::Reading::value_at, crate::specs::Reading::checked))]
pub(crate) fn value_at<'a>(
    alloc: Global,
    tag: &ValueTag,
    octets: &'a [u8],
) -> Result<(Value, &'a [u8]), DecodeFault>
    ensures { Gives (λ x. (x.0, x.1.now)) result (value_at tag.now octets.now) }
{
    if !length_begins(tag, octets) {
        return Err(DecodeFault::Length);
    }
    let (length, rest) = u16_at(octets)?;
    let length = length as usize;
    if !is_length(tag, length) {
        return Err(DecodeFault::Length);
    }
    let (part, rest) = part_at(length, rest)?;
    let value = value_of(alloc, tag, part)?;
    Ok((value, rest))
}
