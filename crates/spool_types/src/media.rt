//! Media types.
ghost use Rattle.std.specs.Prelude.{◌≡◌, ◌↔◌, ◌&&◌, nat_le, length, false, IfOk, OnOk, IsTrue, IsErr, IsErrOf};
ghost use Rattle.std.specs.List.{list_any, before_first, after_first};
ghost use Rattle.std.specs.Str.{str_to_ascii_lowercase};
ghost use Rattle.spool_types.specs.Values.{is_media_part, is_media_type, is_slash, media_in};

use crate::kinds::{folds_to_media_bytes, has_only_media_bytes};
use crate::text::{Text, TextFault, TextKind};
use std::alloc::{AllocError, Global};
use std::marker::Model;

/// The kind of a media type in lower case: a type, a slash and a subtype, at most 255 bytes. Each part consists of
/// lower-case letters, digits and `!#$&^_.+-` (RFC 6838).
pub struct MediaTypeKind;

/// The text of a media type.
pub type MediaName = Text<MediaTypeKind>;

impl TextKind for MediaTypeKind {
    ghost allowed = { is_media_type };

    fn allows(text: &str) -> bool {
        if 255 < text.len() {
            return false;
        }
        match text.split_once('/') {
            Some((kind, subtype)) => is_part(kind) && is_part(subtype),
            None => false,
        }
    }
}

fn is_part(text: &str) -> bool
    ensures { result ≡ is_media_part text.now }
{
    1 <= text.len() && text.len() <= 255 && has_only_media_bytes(text)
}

// Returns whether a text is a media type after its capitals are converted to lower case.
fn folds_to_media_type(text: &str) -> bool
    ensures { result ≡ is_media_type (str_to_ascii_lowercase text.now) }
{
    folds_to_two_parts(text)
}

// The conversion does not move the slash.
fn folds_to_two_parts(text: &str) -> bool
    ensures { result ≡ (nat_le (length text.now) 255
        && list_any is_slash text.now
        && is_media_part (str_to_ascii_lowercase (before_first is_slash text.now))
        && is_media_part (str_to_ascii_lowercase (after_first is_slash text.now))) }
{
    if 255 < text.len() {
        return false;
    }
    match text.split_once('/') {
        Some((kind, subtype)) => folds_to_part(kind) && folds_to_part(subtype),
        None => false,
    }
}

fn folds_to_part(text: &str) -> bool
    ensures { result ≡ is_media_part (str_to_ascii_lowercase text.now) }
{
    1 <= text.len() && text.len() <= 255 && folds_to_media_bytes(text)
}

/// A media type, in lower case.
#[derive(Clone, PartialEq, Eq, PartialOrd, Ord, Drop)]
pub struct MediaType {
    name: MediaName,
}

impl Model for MediaType {
    ghost use Rattle.std.specs.Prelude.{List, ℕ};

    ghost Value = { List ℕ };

    ghost view = { λ a. a.name };

    ghost inverse = { λ name. record { name = name } };
}

impl MediaType {
    /// Reads a media type, and converts capitals to lower case. It allocates nothing if the text is not a media type.
    pub fn read(alloc: Global, text: &str) -> Result<MediaType, TextFault>
        ensures value { IfOk result (λ media. media ≡ str_to_ascii_lowercase text.now) }
        ensures allowed { OnOk result (IsTrue (is_media_type (str_to_ascii_lowercase text.now))) }
        ensures bad { IsErrOf result TextFault.Bad ↔ (is_media_type (str_to_ascii_lowercase text.now) ≡ false) }
    {
        if !folds_to_media_type(text) {
            return Err(TextFault::Bad);
        }
        Ok(MediaType {
            name: MediaName::from_string(text.to_ascii_lowercase(alloc)?),
        })
    }

    /// Returns the media type that the word is, or `None` if it is not a media type. Capitals are converted to lower
    /// case.
    pub fn from_word(alloc: Global, word: &[u8]) -> Result<Option<MediaType>, AllocError>
        ensures { IfOk result (λ media. media ≡ media_in word.now) }
    {
        let Ok(text) = str::from_utf8(word) else {
            return Ok(None);
        };
        match MediaType::read(alloc, text) {
            Ok(media) => Ok(Some(media)),
            Err(TextFault::Bad) => Ok(None),
            Err(TextFault::Memory) => Err(AllocError),
        }
    }

    /// Converts a text that is already in lower case.
    pub fn from_name(name: MediaName) -> MediaType
        ensures { result ≡ name }
    {
        MediaType { name }
    }

    /// Returns the media type in lower case.
    pub fn as_str(&self) -> &str
        ensures value { result.now ≡ self.now }
        ensures allowed { IsTrue (is_media_type self.now) }
    {
        self.name.as_str()
    }
}
