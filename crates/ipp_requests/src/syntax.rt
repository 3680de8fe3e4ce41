//! The syntaxes of texts.
ghost use Rattle.std.specs.Prelude.{◌≡◌};
ghost use Rattle.ipp_requests.specs.IppSyntaxes.{charset_in, keyword_in, language_in, media_type_in, name_in, text_in, text_of_syntax, uri_in};

use crate::borrowed::MessageText;
use ipp_values::Value;

/// The syntax of an attribute whose value is a text (RFC 8011 5.1).
#[derive(Clone, Copy)]
pub enum Syntax {
    Charset,
    Keyword,
    MimeMediaType,
    Name,
    NaturalLanguage,
    Text,
    Uri,
}

impl Syntax {
    /// Returns the text of a value of this syntax, and None for any other value.
    pub fn text<'m>(self, value: &'m Value) -> Option<MessageText<'m>>
        ensures { result ≡ text_of_syntax self value.now }
    {
        match self {
            Syntax::Charset => charset_in(value),
            Syntax::Keyword => keyword_in(value),
            Syntax::MimeMediaType => media_type_in(value),
            Syntax::Name => name_in(value),
            Syntax::NaturalLanguage => language_in(value),
            Syntax::Text => text_in(value),
            Syntax::Uri => uri_in(value),
        }
    }
}

fn charset_in(value: &Value) -> Option<MessageText<'_>>
    ensures { result ≡ charset_in value.now }
{
    match value {
        Value::Charset(text) => Some(MessageText::new(text.as_str())),
        _ => None,
    }
}

/// Returns the text of a keyword.
pub fn keyword_in(value: &Value) -> Option<MessageText<'_>>
    ensures { result ≡ keyword_in value.now }
{
    match value {
        Value::Keyword(text) => Some(MessageText::new(text.as_str())),
        _ => None,
    }
}

fn media_type_in(value: &Value) -> Option<MessageText<'_>>
    ensures { result ≡ media_type_in value.now }
{
    match value {
        Value::MimeMediaType(text) => Some(MessageText::new(text.as_str())),
        _ => None,
    }
}

fn name_in(value: &Value) -> Option<MessageText<'_>>
    ensures { result ≡ name_in value.now }
{
    match value {
        Value::Name(text) => Some(MessageText::new(text.as_str())),
        Value::NameWithLanguage(value) => Some(MessageText::new(value.name.as_str())),
        _ => None,
    }
}

fn language_in(value: &Value) -> Option<MessageText<'_>>
    ensures { result ≡ language_in value.now }
{
    match value {
        Value::NaturalLanguage(text) => Some(MessageText::new(text.as_str())),
        _ => None,
    }
}

fn text_in(value: &Value) -> Option<MessageText<'_>>
    ensures { result ≡ text_in value.now }
{
    match value {
        Value::Text(text) => Some(MessageText::new(text.as_str())),
        Value::TextWithLanguage(value) => Some(MessageText::new(value.text.as_str())),
        _ => None,
    }
}

fn uri_in(value: &Value) -> Option<MessageText<'_>>
    ensures { result ≡ uri_in value.now }
{
    match value {
        Value::Uri(text) => Some(MessageText::new(text.as_str())),
        _ => None,
    }
}
