//! Messages, groups, attributes and values of the Internet Printing Protocol (RFC 8010, RFC 8011).
//!
//! A [`Message`] is a version, an operation or status, a request-id, and groups. A [`Group`] is a tag and attributes, an
//! [`Attribute`] a name and values. `ipp_codec` reads and writes them.
//!
//! The values of an attribute are a flat list, as they are spelled (RFC 8010, 3.1.6 and 3.1.7): a collection is `BeginCollection`,
//! for each member its `MemberName` and one or more values, and `EndCollection`. The types do not ensure that collections are
//! whole, or that an attribute has a value: `ipp_codec::encode` refuses such a message.
//!
//! # Promises
//!
//! - A [`Text`] is UTF-8 within the limits of its syntax (`allowed`), an [`Octets`] has at most `MOST` octets. [`Text::read`] and
//!   [`Octets::read`] copy exactly what is within the limits (`value`, `bad`).
//! - [`Items`], [`Text`] and [`Octets`] are lists in contracts, so two messages are equal if they have the same version, code,
//!   request-id, groups, attributes and values.
//! - [`GroupTag::number`], [`GroupTag::from_number`], [`ValueTag::number`] and [`ValueTag::from_number`] are the tables of
//!   `specs/Tags`. An [`OpaqueTag`] has a number that no other tag has (`opaque`, `own`).
//! - [`Value::tag`] and [`Value::as_str`] return the tag and the text of a value (`tag_of`, `text_of`).
//! - [`Message::group`] and [`Group::attribute`] return the first group with a tag and the first attribute with a name.
//!
//! # Errors
//!
//! [`ValueFault::Bad`] is returned exactly for a value outside its limits, [`ValueFault::Memory`] if a copy fails. A push that fails
//! changes nothing (`err`).
#![tactic(auto)]

mod fault;
mod items;
mod message;
mod tags;
mod text;
mod value;

pub use fault::ValueFault;
pub use items::{Items, Octets};
pub use message::{Attribute, Group, Message, Version};
pub use tags::{GroupTag, OpaqueTag, ValueTag};
pub use text::{
    AttributeName, Charset, Keyword, MimeMediaType, NameString, NaturalLanguage, Text, TextString,
    Uri, UriScheme,
};
pub use value::{
    DateTime, NameWithLanguage, OpaqueValue, RangeOfInteger, Resolution, TextWithLanguage, Value,
};
