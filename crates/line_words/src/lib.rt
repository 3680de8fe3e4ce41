//! The rules for blanks, words, quoted texts and decimal numbers that all files and scripts of lines share.
//!
//! # The rules
//!
//! A blank is a space or a tab. A word ends before the first blank or at the line's end. A quoted text ends with its closing quote. In it
//! `\"` and `\\` represent a quote and a backslash, any other backslash represents itself, and every other byte is literal. Each caller
//! specifies whether a word may contain a quote, and what may follow a closing quote.
//!
//! # Promises
//!
//! *ExactWords*:
//!
//! - [`is_blank`], [`is_quote`] and [`is_backslash`] test a byte, and [`has_quote`] returns whether bytes contain a quote (`value`).
//! - [`after_blanks`] drops the blanks at a line's front, and [`trim`] the blanks at both ends (`value`). The result of [`after_blanks`]
//!   is at most as long as the line (`bound`).
//! - [`split_at_blank`] splits at the first blank (`word`), which begins the second part (`rest`). [`first_word`] does the same after the
//!   blanks at the front.
//! - [`read_quoted`] returns exactly the text after an opening quote and the bytes after its closing quote, or `None` if no quote closes
//!   it (`value`, by `quoted`). It cannot fail if the line contains no backslash (`lent`). [`push_escaped`] appends the meaning of a
//!   backslash and the byte after it (`value`, by `escape_of`).
//! - [`decimal`] returns exactly the number of a word of decimal digits, at least one and any number of them, if it is at most the given
//!   maximum (`value`, `bound`).
//! - [`Quoting`] is a position in a text whose words may contain quotes and backslashes. [`Quoting::next`] is the position of the next
//!   character, [`Quoting::keeps`] returns whether a character belongs to the text's value, and [`Quoting::is_cut`] whether it ends a
//!   word.
//! - [`Word::bytes`] and [`Word::into_bytes`] return the bytes of a [`Word`] (`value`).
//!
//! # Errors
//!
//! The only error is out of memory.
//!
//! # Cost
//!
//! Each line is read once. A quoted text without a backslash is borrowed. Only one with a backslash is allocated.
#![tactic(auto)]

mod blanks;
mod numbers;
mod quotes;
mod quoting;
mod words;

pub use blanks::{after_blanks, first_word, is_blank, split_at_blank, trim};
pub use numbers::decimal;
pub use quotes::{has_quote, is_backslash, is_quote, push_escaped, read_quoted};
pub use quoting::Quoting;
pub use words::Word;
