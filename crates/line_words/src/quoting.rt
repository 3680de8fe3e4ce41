//! Quotes and backslashes in a text whose words may contain them, such as a job's options (filter(7)).
ghost use Rattle.std.specs.Prelude.{◌≡◌};
ghost use Rattle.line_words.specs.Quoting.{next, keeps, is_bare, is_cut};

use crate::blanks::is_blank;

/// The position of a character in such a text. Single and double quotes quote, and a backslash takes the next character literally, in
/// quotes too.
#[derive(Clone, Copy, PartialEq, Eq)]
pub enum Quoting {
    Bare,
    Single,
    Double,
    /// Directly after a backslash.
    BareEscaped,
    SingleEscaped,
    DoubleEscaped,
}

impl Quoting {
    /// Returns whether it is neither in quotes nor after a backslash.
    pub fn is_bare(self) -> bool
        ensures { result ≡ is_bare self }
    {
        matches!(self, Quoting::Bare)
    }

    /// Returns whether a byte is a blank that ends a word.
    pub fn is_cut(self, b: u8) -> bool
        ensures { result ≡ is_cut self b }
    {
        is_blank(b) && self.is_bare()
    }

    /// Returns the position of the character after this one.
    pub fn next(self, c: char) -> Quoting
        ensures { result ≡ next self c }
    {
        match (self, c) {
            (Quoting::BareEscaped, _) => Quoting::Bare,
            (Quoting::SingleEscaped, _) => Quoting::Single,
            (Quoting::DoubleEscaped, _) => Quoting::Double,
            (Quoting::Bare, '\\') => Quoting::BareEscaped,
            (Quoting::Single, '\\') => Quoting::SingleEscaped,
            (Quoting::Double, '\\') => Quoting::DoubleEscaped,
            (Quoting::Bare, '\'') => Quoting::Single,
            (Quoting::Bare, '"') => Quoting::Double,
            (Quoting::Single, '\'') | (Quoting::Double, '"') => Quoting::Bare,
            (same, _) => same,
        }
    }

    /// Returns whether the character belongs to the text's value: it is escaped, or neither a backslash nor a quote that opens or closes.
    pub fn keeps(self, c: char) -> bool
        ensures { result ≡ keeps self c }
    {
        match self {
            Quoting::Bare => c != '\\' && c != '\'' && c != '"',
            Quoting::Single => c != '\\' && c != '\'',
            Quoting::Double => c != '\\' && c != '"',
            _ => true,
        }
    }
}
