//! Cleans texts that users and printers choose, before they reach a terminal, a log or a page.
//!
//! A terminal obeys some characters: ESC begins a command, and so does U+009B; U+202E writes what follows from right to left. Others show
//! nothing, or end a line. Such a character *steers*. The titles, users and options of jobs and the standard error of filters and backends
//! may contain any of them. The programs store them as they are, and clean them where they print them.
//!
//! # The characters
//!
//! `SteeringCharacters` lists them, in groups:
//!
//! - control characters: U+0000 to U+001F, U+007F and U+0080 to U+009F (ECMA-48);
//! - those that set the direction of text (UAX 9), and those that end a line or a paragraph, U+2028 and U+2029;
//! - those that Unicode defines to be invisible (Default_Ignorable_Code_Point), and annotation characters.
//!
//! Characters that only choose the shape of their neighbors do not steer, since languages and emoji need them: U+200C, U+200D and the
//! variation selectors.
//!
//! # Promises
//!
//! - [`steers`] and [`clean_char`] return exactly the values of the table.
//! - [`clean_text`] returns the text with U+FFFD for each character that steers (`value`), and its result contains none (`clean`).
//!   [`clean_bytes`] returns the same for bytes, with U+FFFD for each sequence that is not UTF-8. [`Printed`] prints the same as
//!   [`clean_text`] returns, without memory (`output`).
//! - [`plain_texts_are_unchanged`]: a text in which no character steers stays as it is. [`clean_texts_stay_clean`]: a text that was cleaned
//!   is not changed again. [`clean_texts_are_bounded`]: the text has as many characters as before, and at most three times the bytes.
//! - [`clean_json`] returns a text with the escape `\uXXXX` of JSON for each character that steers, or two of them for a character above
//!   U+FFFF (RFC 8259, section 7; `value`). The result contains no such character (`clean`). [`escapes_are_read_back`]: the escape of a
//!   character denotes this character.
//!
//! # Not proved
//!
//! - That a reader of JSON returns the same value for both texts. It is tested.
//! - That no other character has an effect on some terminal.
//!
//! # Errors
//!
//! The only error is out of memory.
#![tactic(auto)]

mod json_escapes;
mod laws;
mod printed;
mod steering;
mod texts;

pub use json_escapes::clean_json;
pub use laws::{
    clean_texts_are_bounded, clean_texts_stay_clean, escapes_are_read_back,
    plain_texts_are_unchanged,
};
pub use printed::{Printed, clean};
pub use steering::{clean_char, steers};
pub use texts::{clean_bytes, clean_text};
