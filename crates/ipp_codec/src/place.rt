//! Places in the values of an attribute (RFC 8010, 3.1.6 and 3.1.7).
ghost use Rattle.std.specs.Prelude.{◌≡◌};
ghost use Rattle.ipp_codec.specs.Collections.{after_begin, after_end, after_name, after_plain, after_tag, begun_in, ended_in, is_outside};

use crate::fault::DecodeFault;
use ipp_values::ValueTag;

/// The greatest number of collections in one another.
const DEEPEST: u8 = 8;

/// A place after a value or a mark. The number is that of the collections around it.
#[derive(Clone, Copy)]
pub(crate) enum Place {
    /// In no collection.
    Outside,
    /// A collection began.
    Begun(u8),
    /// The name of a member came.
    Named(u8),
    /// A value of a member came.
    Filled(u8),
}

impl Place {
    pub(crate) fn is_outside(self) -> bool
        ensures { result ≡ is_outside self }
    {
        match self {
            Place::Outside => true,
            Place::Begun(_) | Place::Named(_) | Place::Filled(_) => false,
        }
    }

    /// Returns the place after a value or a mark with this tag.
    pub(crate) fn after(self, tag: &ValueTag) -> Result<Place, DecodeFault>
        ensures { result ≡ after_tag self tag.now }
    {
        match tag {
            ValueTag::BeginCollection => self.after_begin(),
            ValueTag::EndCollection => self.after_end(),
            ValueTag::MemberName => self.after_name(),
            ValueTag::Unsupported
            | ValueTag::Unknown
            | ValueTag::NoValue
            | ValueTag::Integer
            | ValueTag::Boolean
            | ValueTag::Enum
            | ValueTag::OctetString
            | ValueTag::DateTime
            | ValueTag::Resolution
            | ValueTag::RangeOfInteger
            | ValueTag::TextWithLanguage
            | ValueTag::NameWithLanguage
            | ValueTag::Text
            | ValueTag::Name
            | ValueTag::Keyword
            | ValueTag::Uri
            | ValueTag::UriScheme
            | ValueTag::Charset
            | ValueTag::NaturalLanguage
            | ValueTag::MimeMediaType
            | ValueTag::Opaque(_) => self.after_plain(),
        }
    }

    fn after_begin(self) -> Result<Place, DecodeFault>
        ensures { result ≡ after_begin self }
    {
        match self {
            Place::Outside => begun_in(0),
            Place::Begun(_) => Err(DecodeFault::Collection),
            Place::Named(depth) | Place::Filled(depth) => begun_in(depth),
        }
    }

    fn after_name(self) -> Result<Place, DecodeFault>
        ensures { result ≡ after_name self }
    {
        match self {
            Place::Outside | Place::Named(_) => Err(DecodeFault::Collection),
            Place::Begun(depth) | Place::Filled(depth) => Ok(Place::Named(depth)),
        }
    }

    fn after_end(self) -> Result<Place, DecodeFault>
        ensures { result ≡ after_end self }
    {
        match self {
            Place::Outside | Place::Named(_) => Err(DecodeFault::Collection),
            Place::Begun(depth) | Place::Filled(depth) => Ok(ended_in(depth)),
        }
    }

    fn after_plain(self) -> Result<Place, DecodeFault>
        ensures { result ≡ after_plain self }
    {
        match self {
            Place::Outside => Ok(Place::Outside),
            Place::Begun(_) => Err(DecodeFault::Collection),
            Place::Named(depth) | Place::Filled(depth) => Ok(Place::Filled(depth)),
        }
    }
}

fn begun_in(depth: u8) -> Result<Place, DecodeFault>
    ensures { result ≡ begun_in depth }
{
    if depth < DEEPEST {
        Ok(Place::Begun(depth + 1))
    } else {
        Err(DecodeFault::TooLarge)
    }
}

fn ended_in(depth: u8) -> Place
    ensures { result ≡ ended_in depth }
{
    if depth == 1 {
        Place::Outside
    } else {
        Place::Filled(depth.saturating_sub(1))
    }
}
