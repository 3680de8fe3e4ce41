//! Rules: a tree of tests.

use crate::pattern::Piece;

/// The `count` bytes of a document from `offset` on, or fewer if it ends before.
#[derive(Clone, Copy)]
pub(crate) struct Window {
    pub offset: u32,
    pub count: u32,
}

/// A test of mime.types(5).
#[derive(Drop)]
pub(crate) enum Test {
    /// The name ends with these bytes, a dot and a word.
    Suffix(Vec<u8>),
    /// The name matches a pattern.
    Match(Vec<Piece>),
    /// The bytes are ASCII text.
    Ascii(Window),
    /// The bytes are printable.
    Printable(Window),
    /// The text is at this offset: `string`, and also `char`, `short` and `int`.
    Text(u32, Vec<u8>),
    /// The same without regard to case.
    FoldedText(u32, Vec<u8>),
    /// The text occurs in the bytes.
    Contains(Window, Vec<u8>),
    /// The locale is this text.
    Locale(Vec<u8>),
}

#[derive(Drop)]
pub(crate) enum Rule {
    Leaf(Test),
    Not(Box<Rule>),
    /// All of them are true.
    All(Vec<Rule>),
    /// Any of them is true.
    Any(Vec<Rule>),
}
