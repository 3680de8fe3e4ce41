//! Character strings with limits.
ghost use Rattle.std.specs.Prelude.{◌≡◌, ◌↔◌, IfOk, OnOk, IsTrue, IsErrOf, false};
ghost use Rattle.std.specs.List.{list_all};
ghost use Rattle.ipp_values.specs.TextLimits.{is_text, is_up_to};

use crate::fault::ValueFault;
use std::alloc::Global;
use std::marker::Model;

/// A character string of `LEAST` to `MOST` octets of UTF-8, each at most `HIGHEST`: 127 for US-ASCII, 255 for all. Its value in
/// contracts is the list of its octets.
#[derive(Drop)]
pub struct Text<const LEAST: usize, const MOST: usize, const HIGHEST: u8> {
    text: String,
}

impl<const LEAST: usize, const MOST: usize, const HIGHEST: u8> Model
    for Text<LEAST, MOST, HIGHEST> {
    ghost use Rattle.std.specs.Prelude.{List, ℕ, IsTrue};
    ghost use Rattle.std.specs.String.{string_bytes};
    ghost use Rattle.ipp_values.specs.TextLimits.{is_text};

    ghost Value = { List ℕ };

    ghost view = { λ a. string_bytes a.text };

    ghost invariant = { λ a. IsTrue (is_text LEAST MOST HIGHEST (string_bytes a.text)) };
}

impl<const LEAST: usize, const MOST: usize, const HIGHEST: u8> Text<LEAST, MOST, HIGHEST> {
    /// Copies a text within these limits.
    pub fn read(alloc: Global, text: &str) -> Result<Text<LEAST, MOST, HIGHEST>, ValueFault>
        ensures value { IfOk result (λ copy. copy ≡ text.now) }
        ensures allowed { OnOk result (IsTrue (is_text LEAST MOST HIGHEST text.now)) }
        ensures bad { IsErrOf result ValueFault.Bad ↔ (is_text LEAST MOST HIGHEST text.now ≡ false) }
    {
        if !is_text(LEAST, MOST, HIGHEST, text) {
            return Err(ValueFault::Bad);
        }
        Ok(Text {
            text: String::from_str(alloc, text)?,
        })
    }

    /// Returns the text.
    pub fn as_str(&self) -> &str
        ensures value { result.now ≡ self.now }
        ensures allowed { IsTrue (is_text LEAST MOST HIGHEST self.now) }
    {
        self.text.as_str()
    }
}

fn is_text(least: usize, most: usize, highest: u8, text: &str) -> bool
    ensures { result ≡ is_text least most highest text.now }
{
    least <= text.len() && text.len() <= most && has_no_octet_above(highest, text)
}

fn has_no_octet_above(highest: u8, text: &str) -> bool
    ensures { result ≡ list_all (is_up_to highest) text.now }
{
    text.bytes().all(|b| b <= highest)
}

/// The name of an attribute or of a member of a collection (RFC 8011, 5.1.4).
pub type AttributeName = Text<1, 255, 127>;

/// A text without a natural language (RFC 8011, 5.1.2).
pub type TextString = Text<0, 1023, 255>;

/// A name without a natural language (RFC 8011, 5.1.3).
pub type NameString = Text<0, 255, 255>;

/// A keyword (RFC 8011, 5.1.4).
pub type Keyword = Text<1, 255, 127>;

/// A URI (RFC 8011, 5.1.6).
pub type Uri = Text<0, 1023, 127>;

/// The scheme of a URI (RFC 8011, 5.1.7).
pub type UriScheme = Text<0, 63, 127>;

/// A charset (RFC 8011, 5.1.8).
pub type Charset = Text<0, 63, 127>;

/// A natural language (RFC 8011, 5.1.9).
pub type NaturalLanguage = Text<0, 63, 127>;

/// A media type (RFC 8011, 5.1.10).
pub type MimeMediaType = Text<0, 255, 127>;
