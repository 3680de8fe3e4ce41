//! The kinds of texts, with the bytes that each may contain. Lengths are in bytes of UTF-8.
ghost use Rattle.std.specs.Prelude.{◌≡◌};
ghost use Rattle.std.specs.List.{list_all};
ghost use Rattle.std.specs.Str.{str_to_ascii_lowercase};
ghost use Rattle.spool_types.specs.Values.{is_plain, is_printable, is_graphic, is_lower_or_digit, is_letter_or_digit, is_attribute_byte, is_queue_byte, is_word_byte, is_media_byte, is_text_of, is_user_name, is_title, is_options, is_note, is_message, is_file_name, is_uri, is_queue_name, is_filter_name, is_reason, is_attribute_name};

use crate::text::{Text, TextKind};

/// The kind of a user's name: 1 to 255 bytes, no control characters.
pub struct UserNameKind;

/// The user who printed a job.
pub type UserName = Text<UserNameKind>;

impl TextKind for UserNameKind {
    ghost allowed = { is_user_name };

    fn allows(text: &str) -> bool {
        1 <= text.len() && text.len() <= 255 && has_only_plain_bytes(text)
    }
}

/// The kind of a title: up to 255 bytes, no control characters.
pub struct TitleKind;

/// The title of a job.
pub type Title = Text<TitleKind>;

impl TextKind for TitleKind {
    ghost allowed = { is_title };

    fn allows(text: &str) -> bool {
        text.len() <= 255 && has_only_plain_bytes(text)
    }
}

/// The kind of a job's options: up to 2,048 bytes, no control characters.
pub struct OptionTextKind;

/// A job's options as one text, the fifth argument of a filter (filter(7)).
pub type OptionText = Text<OptionTextKind>;

impl TextKind for OptionTextKind {
    ghost allowed = { is_options };

    fn allows(text: &str) -> bool {
        text.len() <= 2_048 && has_only_plain_bytes(text)
    }
}

/// The kind of a note: up to 127 bytes, no control characters.
pub struct NoteKind;

/// A description of a queue: its printer-info or its printer-location.
pub type Note = Text<NoteKind>;

impl TextKind for NoteKind {
    ghost allowed = { is_note };

    fn allows(text: &str) -> bool {
        text.len() <= 127 && has_only_plain_bytes(text)
    }
}

/// The kind of a message: up to 1,023 bytes of printable ASCII.
pub struct MessageKind;

/// A queue's message, or the value of an attribute.
pub type Message = Text<MessageKind>;

impl TextKind for MessageKind {
    ghost allowed = { is_message };

    fn allows(text: &str) -> bool {
        text.len() <= 1_023 && has_only_printable_bytes(text)
    }
}

/// The kind of a document's name: up to 4,096 bytes, no control characters.
pub struct FileNameKind;

/// The name of a document, from which its media type is detected.
pub type FileName = Text<FileNameKind>;

impl TextKind for FileNameKind {
    ghost allowed = { is_file_name };

    fn allows(text: &str) -> bool {
        text.len() <= 4_096 && has_only_plain_bytes(text)
    }
}

/// The kind of a device's URI: 1 to 1,023 bytes of printable ASCII without spaces.
pub struct UriKind;

/// A device's URI, unchanged.
pub type Uri = Text<UriKind>;

impl TextKind for UriKind {
    ghost allowed = { is_uri };

    fn allows(text: &str) -> bool {
        1 <= text.len() && text.len() <= 1_023 && has_only_graphic_bytes(text)
    }
}

/// The kind of a queue's name: 1 to 127 letters, digits, `-` and `_`.
pub struct QueueNameKind;

/// The name of a queue.
pub type QueueName = Text<QueueNameKind>;

impl TextKind for QueueNameKind {
    ghost allowed = { is_queue_name };

    fn allows(text: &str) -> bool {
        1 <= text.len() && text.len() <= 127 && has_only_queue_bytes(text)
    }
}

/// The kind of a filter's name: 1 to 127 letters, digits, `-`, `_` and `.`.
pub struct FilterNameKind;

/// The name of a filter program.
pub type FilterName = Text<FilterNameKind>;

impl TextKind for FilterNameKind {
    ghost allowed = { is_filter_name };

    fn allows(text: &str) -> bool {
        is_word(text)
    }
}

/// The kind of a reason: 1 to 127 letters, digits, `-`, `_` and `.`, except `none`.
pub struct ReasonKind;

/// A word of a queue's printer-state-reasons.
pub type Reason = Text<ReasonKind>;

impl TextKind for ReasonKind {
    ghost allowed = { is_reason };

    fn allows(text: &str) -> bool {
        is_word(text) && text != "none"
    }
}

/// The kind of an attribute's name: 1 to 127 letters, digits and hyphens.
pub struct AttributeNameKind;

/// The name of a queue's attribute.
pub type AttributeName = Text<AttributeNameKind>;

impl TextKind for AttributeNameKind {
    ghost allowed = { is_attribute_name };

    fn allows(text: &str) -> bool {
        1 <= text.len() && text.len() <= 127 && has_only_attribute_bytes(text)
    }
}

fn is_word(text: &str) -> bool
    ensures { result ≡ is_text_of is_word_byte 1 127 text.now }
{
    1 <= text.len() && text.len() <= 127 && has_only_word_bytes(text)
}

fn has_only_plain_bytes(text: &str) -> bool
    ensures { result ≡ list_all is_plain text.now }
{
    text.as_bytes().iter().all(|b| is_plain(*b))
}

fn is_plain(byte: u8) -> bool
    ensures { result ≡ is_plain byte }
{
    32 <= byte && byte != 127
}

fn is_printable(byte: u8) -> bool
    ensures { result ≡ is_printable byte }
{
    32 <= byte && byte <= 126
}

fn is_graphic(byte: u8) -> bool
    ensures { result ≡ is_graphic byte }
{
    33 <= byte && byte <= 126
}

fn is_lower_or_digit(byte: u8) -> bool
    ensures { result ≡ is_lower_or_digit byte }
{
    (b'a' <= byte && byte <= b'z') || (b'0' <= byte && byte <= b'9')
}

fn is_letter_or_digit(byte: u8) -> bool
    ensures { result ≡ is_letter_or_digit byte }
{
    is_lower_or_digit(byte) || (b'A' <= byte && byte <= b'Z')
}

fn is_attribute_byte(byte: u8) -> bool
    ensures { result ≡ is_attribute_byte byte }
{
    is_letter_or_digit(byte) || byte == b'-'
}

fn is_queue_byte(byte: u8) -> bool
    ensures { result ≡ is_queue_byte byte }
{
    is_attribute_byte(byte) || byte == b'_'
}

fn is_word_byte(byte: u8) -> bool
    ensures { result ≡ is_word_byte byte }
{
    is_queue_byte(byte) || byte == b'.'
}

fn is_media_byte(byte: u8) -> bool
    ensures { result ≡ is_media_byte byte }
{
    is_lower_or_digit(byte)
        || byte == b'!'
        || byte == b'#'
        || byte == b'$'
        || byte == b'&'
        || byte == b'^'
        || byte == b'_'
        || byte == b'.'
        || byte == b'+'
        || byte == b'-'
}

fn has_only_printable_bytes(text: &str) -> bool
    ensures { result ≡ list_all is_printable text.now }
{
    text.as_bytes().iter().all(|b| is_printable(*b))
}

fn has_only_graphic_bytes(text: &str) -> bool
    ensures { result ≡ list_all is_graphic text.now }
{
    text.as_bytes().iter().all(|b| is_graphic(*b))
}

fn has_only_queue_bytes(text: &str) -> bool
    ensures { result ≡ list_all is_queue_byte text.now }
{
    text.as_bytes().iter().all(|b| is_queue_byte(*b))
}

fn has_only_attribute_bytes(text: &str) -> bool
    ensures { result ≡ list_all is_attribute_byte text.now }
{
    text.as_bytes().iter().all(|b| is_attribute_byte(*b))
}

fn has_only_word_bytes(text: &str) -> bool
    ensures { result ≡ list_all is_word_byte text.now }
{
    text.as_bytes().iter().all(|b| is_word_byte(*b))
}

/// Returns whether a text consists of lower-case letters, digits and `!#$&^_.+-`.
pub fn has_only_media_bytes(text: &str) -> bool
    ensures { result ≡ list_all is_media_byte text.now }
{
    text.as_bytes().iter().all(|b| is_media_byte(*b))
}

/// Returns whether a text consists of these bytes after its capitals are converted to lower case.
pub fn folds_to_media_bytes(text: &str) -> bool
    ensures { result ≡ list_all is_media_byte (str_to_ascii_lowercase text.now) }
{
    text.as_bytes()
        .iter()
        .all(|b| is_media_byte(b.to_ascii_lowercase()))
}
