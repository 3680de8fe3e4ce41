//! The conversion on a line of the file.
ghost use Rattle.std.specs.Prelude.{◌≡◌};
ghost use Rattle.std.specs.List.{list_all};
ghost use Rattle.spool_types.specs.Values.{is_media_byte};
ghost use Rattle.mime_costs.specs.Conversions.{every_type, is_super_source, is_source};

use spool_types::{FilterName, MediaType, MediaTypeKind, Ranged, Text, TextKind};

/// `*/*`, the source that accepts every type.
pub const EVERY_TYPE: &str = "*/*";

/// `-`, the filter that runs no program.
pub const NO_FILTER: &str = "-";

/// The kind of a source: a media type, a super type and `/*`, or `*/*`, in lower case.
#[derive(Clone, Copy)]
pub struct SourceKind;

/// The source of a conversion.
pub type Source = Text<SourceKind>;

/// The cost of a conversion.
pub type Cost = Ranged<0, 10000>;

impl TextKind for SourceKind {
    ghost allowed = { is_source };

    fn allows(text: &str) -> bool {
        text == EVERY_TYPE || is_super_source(text) || MediaTypeKind::allows(text)
    }
}

// Returns whether a text is a super type and `/*`.
fn is_super_source(text: &str) -> bool
    ensures { result ≡ is_super_source text.now }
{
    match text.split_once('/') {
        Some((kind, rest)) => 1 <= kind.len() && has_only_media_bytes(kind) && rest == "*",
        None => false,
    }
}

fn has_only_media_bytes(text: &str) -> bool
    ensures { result ≡ list_all is_media_byte text.now }
{
    text.as_bytes().iter().all(|b| is_media_byte(*b))
}

// Returns whether `b` is a lower-case letter, a digit or one of `!#$&^_.+-`.
fn is_media_byte(b: u8) -> bool
    ensures { result ≡ is_media_byte b }
{
    matches!(b, b'a'..=b'z' | b'0'..=b'9' | b'!' | b'#' | b'$' | b'&' | b'^' | b'_' | b'.' | b'+' | b'-')
}

/// A conversion from a source to a type.
#[derive(Drop)]
pub struct Conversion {
    /// The number of its line, from 1. Joined lines have the number of the first.
    pub line: usize,
    pub source: Source,
    pub destination: MediaType,
    pub cost: Cost,
    /// The program that converts, or `-` for none.
    pub filter: FilterName,
}
