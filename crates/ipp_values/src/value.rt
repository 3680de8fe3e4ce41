//! Values (RFC 8011, 5.1).
ghost use Rattle.std.specs.Prelude.{◌≡◌, option_map};
ghost use Rattle.ipp_values.specs.ValueTexts.{tag_of, text_of};

use crate::items::Octets;
use crate::tags::{OpaqueTag, ValueTag};
use crate::text::{
    AttributeName, Charset, Keyword, MimeMediaType, NameString, NaturalLanguage, TextString, Uri,
    UriScheme,
};

/// A date and time (RFC 8011, 5.1.15; DateAndTime of RFC 2579). The fields may have any number: the octets are kept as they came.
#[derive(Clone, Copy)]
pub struct DateTime {
    pub year: u16,
    pub month: u8,
    pub day: u8,
    pub hour: u8,
    pub minute: u8,
    pub second: u8,
    /// Tenths of a second.
    pub deciseconds: u8,
    /// `b'+'` or `b'-'`.
    pub utc_direction: u8,
    pub utc_hours: u8,
    pub utc_minutes: u8,
}

/// A resolution (RFC 8011, 5.1.16).
#[derive(Clone, Copy)]
pub struct Resolution {
    /// Units in the cross-feed direction.
    pub cross_feed: i32,
    /// Units in the feed direction.
    pub feed: i32,
    /// 3 for dots per inch, 4 for dots per centimeter.
    pub units: u8,
}

impl Resolution {
    /// The units of a resolution in dots per inch.
    pub const DOTS_PER_INCH: u8 = 3;
    /// The units of a resolution in dots per centimeter.
    pub const DOTS_PER_CENTIMETER: u8 = 4;
}

/// A range of integers with both bounds in it (RFC 8011, 5.1.14).
#[derive(Clone, Copy)]
pub struct RangeOfInteger {
    pub lower: i32,
    pub upper: i32,
}

/// A text with its natural language (RFC 8011, 5.1.2).
#[derive(Drop)]
pub struct TextWithLanguage {
    pub language: NaturalLanguage,
    pub text: TextString,
}

/// A name with its natural language (RFC 8011, 5.1.3).
#[derive(Drop)]
pub struct NameWithLanguage {
    pub language: NaturalLanguage,
    pub name: NameString,
}

/// A value with a tag that no document assigns.
#[derive(Drop)]
pub struct OpaqueValue {
    pub tag: OpaqueTag,
    pub octets: Octets<32_767>,
}

/// A value, or a mark of a collection.
///
/// The values of an attribute are a flat list, as they are spelled (RFC 8010, 3.1.6 and 3.1.7): a collection is `BeginCollection`,
/// then for each member its `MemberName` and one or more values, then `EndCollection`. A member's value may be a collection.
#[derive(Drop)]
pub enum Value {
    /// The attribute or value is not supported (RFC 8011, 4.1.7).
    Unsupported,
    /// The value is unknown.
    Unknown,
    /// The attribute has no value.
    NoValue,
    /// RFC 8011, 5.1.12.
    Integer(i32),
    /// RFC 8011, 5.1.13.
    Boolean(bool),
    /// RFC 8011, 5.1.5.
    Enum(i32),
    /// RFC 8011, 5.1.11.
    OctetString(Octets<1_023>),
    DateTime(DateTime),
    Resolution(Resolution),
    RangeOfInteger(RangeOfInteger),
    TextWithLanguage(TextWithLanguage),
    NameWithLanguage(NameWithLanguage),
    Text(TextString),
    Name(NameString),
    Keyword(Keyword),
    Uri(Uri),
    UriScheme(UriScheme),
    Charset(Charset),
    NaturalLanguage(NaturalLanguage),
    MimeMediaType(MimeMediaType),
    /// A collection begins (RFC 8010, 3.1.6).
    BeginCollection,
    /// A member of the collection begins (RFC 8010, 3.1.7). Its values follow.
    MemberName(AttributeName),
    /// The collection ends.
    EndCollection,
    /// A value of a syntax that no document defines.
    Opaque(OpaqueValue),
}

impl Value {
    /// Returns the tag of the value.
    pub fn tag(&self) -> ValueTag
        ensures { result ≡ tag_of self.now }
    {
        match self {
            Value::Unsupported => ValueTag::Unsupported,
            Value::Unknown => ValueTag::Unknown,
            Value::NoValue => ValueTag::NoValue,
            Value::Integer(_) => ValueTag::Integer,
            Value::Boolean(_) => ValueTag::Boolean,
            Value::Enum(_) => ValueTag::Enum,
            Value::OctetString(_) => ValueTag::OctetString,
            Value::DateTime(_) => ValueTag::DateTime,
            Value::Resolution(_) => ValueTag::Resolution,
            Value::RangeOfInteger(_) => ValueTag::RangeOfInteger,
            Value::TextWithLanguage(_) => ValueTag::TextWithLanguage,
            Value::NameWithLanguage(_) => ValueTag::NameWithLanguage,
            Value::Text(_) => ValueTag::Text,
            Value::Name(_) => ValueTag::Name,
            Value::Keyword(_) => ValueTag::Keyword,
            Value::Uri(_) => ValueTag::Uri,
            Value::UriScheme(_) => ValueTag::UriScheme,
            Value::Charset(_) => ValueTag::Charset,
            Value::NaturalLanguage(_) => ValueTag::NaturalLanguage,
            Value::MimeMediaType(_) => ValueTag::MimeMediaType,
            Value::BeginCollection => ValueTag::BeginCollection,
            Value::MemberName(_) => ValueTag::MemberName,
            Value::EndCollection => ValueTag::EndCollection,
            Value::Opaque(value) => ValueTag::Opaque(value.tag),
        }
    }

    /// Returns the text of a character string, without its natural language. Of all other values, and of a member's name, it
    /// returns `None`.
    pub fn as_str(&self) -> Option<&str>
        ensures { option_map (λ text. text.now) result ≡ text_of self.now }
    {
        match self {
            Value::TextWithLanguage(value) => Some(value.text.as_str()),
            Value::NameWithLanguage(value) => Some(value.name.as_str()),
            Value::Text(text) => Some(text.as_str()),
            Value::Name(text) => Some(text.as_str()),
            Value::Keyword(text) => Some(text.as_str()),
            Value::Uri(text) => Some(text.as_str()),
            Value::UriScheme(text) => Some(text.as_str()),
            Value::Charset(text) => Some(text.as_str()),
            Value::NaturalLanguage(text) => Some(text.as_str()),
            Value::MimeMediaType(text) => Some(text.as_str()),
            _ => None,
        }
    }
}
