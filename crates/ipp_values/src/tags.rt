//! The tags of RFC 8010, 3.5: each with its number.
ghost use Rattle.std.specs.Prelude.{◌≡◌, ◌<◌, ◌↔◌, IfSome, IsNone, IsTrue, is_some};
ghost use Rattle.ipp_values.specs.Opaque.{is_opaque};
ghost use Rattle.ipp_values.specs.Tags.{assigned_tag, group_number, group_of, tag_number, tag_of_number, HasOwnNumber};

use std::marker::Model;

/// The tag that begins a group of attributes (RFC 8010, 3.5.1).
#[derive(Clone, Copy, PartialEq, Eq)]
pub enum GroupTag {
    /// 0x01, operation attributes (RFC 8010).
    Operation,
    /// 0x02, job attributes (RFC 8010).
    Job,
    /// 0x04, printer attributes (RFC 8010).
    Printer,
    /// 0x05, unsupported attributes (RFC 8010).
    Unsupported,
    /// 0x06, subscription attributes (RFC 3995).
    Subscription,
    /// 0x07, event notification attributes (RFC 3995).
    EventNotification,
    /// 0x08, resource attributes (PWG 5100.22).
    Resource,
    /// 0x09, document attributes (PWG 5100.5).
    Document,
    /// 0x0a, system attributes (PWG 5100.22).
    System,
}

impl GroupTag {
    /// Returns the number of the tag.
    pub fn number(self) -> u8
        ensures { result ≡ group_number self }
    {
        match self {
            GroupTag::Operation => 0x01,
            GroupTag::Job => 0x02,
            GroupTag::Printer => 0x04,
            GroupTag::Unsupported => 0x05,
            GroupTag::Subscription => 0x06,
            GroupTag::EventNotification => 0x07,
            GroupTag::Resource => 0x08,
            GroupTag::Document => 0x09,
            GroupTag::System => 0x0a,
        }
    }

    /// Returns the tag with this number, if one is assigned.
    pub fn from_number(number: u8) -> Option<GroupTag>
        ensures { result ≡ group_of number }
    {
        match number {
            0x01 => Some(GroupTag::Operation),
            0x02 => Some(GroupTag::Job),
            0x04 => Some(GroupTag::Printer),
            0x05 => Some(GroupTag::Unsupported),
            0x06 => Some(GroupTag::Subscription),
            0x07 => Some(GroupTag::EventNotification),
            0x08 => Some(GroupTag::Resource),
            0x09 => Some(GroupTag::Document),
            0x0a => Some(GroupTag::System),
            _ => None,
        }
    }
}

/// The tag of a value, or of a mark that begins, divides or ends a collection (RFC 8010, 3.5.2).
#[derive(Clone, Copy, PartialEq, Eq)]
pub enum ValueTag {
    /// 0x10, unsupported.
    Unsupported,
    /// 0x12, unknown.
    Unknown,
    /// 0x13, no-value.
    NoValue,
    /// 0x21, integer.
    Integer,
    /// 0x22, boolean.
    Boolean,
    /// 0x23, enum.
    Enum,
    /// 0x30, octetString with an unspecified format.
    OctetString,
    /// 0x31, dateTime.
    DateTime,
    /// 0x32, resolution.
    Resolution,
    /// 0x33, rangeOfInteger.
    RangeOfInteger,
    /// 0x34, begCollection.
    BeginCollection,
    /// 0x35, textWithLanguage.
    TextWithLanguage,
    /// 0x36, nameWithLanguage.
    NameWithLanguage,
    /// 0x37, endCollection.
    EndCollection,
    /// 0x41, textWithoutLanguage.
    Text,
    /// 0x42, nameWithoutLanguage.
    Name,
    /// 0x44, keyword.
    Keyword,
    /// 0x45, uri.
    Uri,
    /// 0x46, uriScheme.
    UriScheme,
    /// 0x47, charset.
    Charset,
    /// 0x48, naturalLanguage.
    NaturalLanguage,
    /// 0x49, mimeMediaType.
    MimeMediaType,
    /// 0x4a, memberAttrName.
    MemberName,
    /// Each other number from 0x10.
    Opaque(OpaqueTag),
}

impl ValueTag {
    /// Returns the number of the tag.
    pub fn number(self) -> u8
        ensures value { result ≡ tag_number self }
        ensures own { HasOwnNumber self }
    {
        match self {
            ValueTag::Unsupported => 0x10,
            ValueTag::Unknown => 0x12,
            ValueTag::NoValue => 0x13,
            ValueTag::Integer => 0x21,
            ValueTag::Boolean => 0x22,
            ValueTag::Enum => 0x23,
            ValueTag::OctetString => 0x30,
            ValueTag::DateTime => 0x31,
            ValueTag::Resolution => 0x32,
            ValueTag::RangeOfInteger => 0x33,
            ValueTag::BeginCollection => 0x34,
            ValueTag::TextWithLanguage => 0x35,
            ValueTag::NameWithLanguage => 0x36,
            ValueTag::EndCollection => 0x37,
            ValueTag::Text => 0x41,
            ValueTag::Name => 0x42,
            ValueTag::Keyword => 0x44,
            ValueTag::Uri => 0x45,
            ValueTag::UriScheme => 0x46,
            ValueTag::Charset => 0x47,
            ValueTag::NaturalLanguage => 0x48,
            ValueTag::MimeMediaType => 0x49,
            ValueTag::MemberName => 0x4a,
            ValueTag::Opaque(tag) => tag.number(),
        }
    }

    /// Returns the tag with this number, or `None` for the number of a delimiter, which is below 0x10.
    pub fn from_number(number: u8) -> Option<ValueTag>
        ensures { result ≡ tag_of_number number }
    {
        match OpaqueTag::new(number) {
            Some(tag) => Some(ValueTag::Opaque(tag)),
            None => assigned_tag(number),
        }
    }
}

fn assigned_tag(number: u8) -> Option<ValueTag>
    ensures { result ≡ assigned_tag number }
{
    match number {
        0x10 => Some(ValueTag::Unsupported),
        0x12 => Some(ValueTag::Unknown),
        0x13 => Some(ValueTag::NoValue),
        0x21 => Some(ValueTag::Integer),
        0x22 => Some(ValueTag::Boolean),
        0x23 => Some(ValueTag::Enum),
        0x30 => Some(ValueTag::OctetString),
        0x31 => Some(ValueTag::DateTime),
        0x32 => Some(ValueTag::Resolution),
        0x33 => Some(ValueTag::RangeOfInteger),
        0x34 => Some(ValueTag::BeginCollection),
        0x35 => Some(ValueTag::TextWithLanguage),
        0x36 => Some(ValueTag::NameWithLanguage),
        0x37 => Some(ValueTag::EndCollection),
        0x41 => Some(ValueTag::Text),
        0x42 => Some(ValueTag::Name),
        0x44 => Some(ValueTag::Keyword),
        0x45 => Some(ValueTag::Uri),
        0x46 => Some(ValueTag::UriScheme),
        0x47 => Some(ValueTag::Charset),
        0x48 => Some(ValueTag::NaturalLanguage),
        0x49 => Some(ValueTag::MimeMediaType),
        0x4a => Some(ValueTag::MemberName),
        _ => None,
    }
}

/// The number of a tag of values that no document assigns, from 0x10. Its value in contracts is the number.
#[derive(Clone, Copy, PartialEq, Eq)]
pub struct OpaqueTag {
    number: u8,
}

impl Model for OpaqueTag {
    ghost use Rattle.std.specs.Prelude.{ℕ, IsTrue};
    ghost use Rattle.ipp_values.specs.Opaque.{is_opaque};

    ghost Value = { ℕ };

    ghost view = { λ a. a.number };

    ghost invariant = { λ a. IsTrue (is_opaque a.number) };

    ghost inverse = { λ n. record { number = n } };
}

impl OpaqueTag {
    /// Returns the tag, or `None` if the number is that of a delimiter or of another value tag.
    pub fn new(number: u8) -> Option<OpaqueTag>
        ensures value { IfSome result (λ tag. tag ≡ number) }
        ensures opaque { is_some result ≡ is_opaque number }
    {
        if is_opaque(number) {
            Some(OpaqueTag { number })
        } else {
            None
        }
    }

    /// Returns the number, which is that of no other tag.
    pub fn number(self) -> u8
        ensures value { result ≡ self }
        ensures opaque { IsTrue (is_opaque result) }
    {
        self.number
    }
}

fn is_opaque(number: u8) -> bool
    ensures { result ≡ is_opaque number }
{
    !matches!(
        number,
        0x00..=0x10
            | 0x12..=0x13
            | 0x21..=0x23
            | 0x30..=0x37
            | 0x41..=0x42
            | 0x44..=0x4a
    )
}
