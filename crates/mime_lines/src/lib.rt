//! The lines of the files of mime.types(5) and mime.convs(5), and the numbers in them.
//!
//! # The lines
//!
//! A line ends with a line feed. A carriage return directly before the line feed belongs to the line end. The last line needs no line
//! feed. A line of blanks (spaces and tabs) only is skipped, and so is a line whose first other byte is `#`. A backslash at the end of
//! any other line joins the next line to it, whatever the next line is, and a blank replaces the backslash. At the end of the last line
//! the backslash is dropped. Joined lines have the number of the first, counted from 1 over all lines of the file. A joined line is not
//! examined again: if it contains only blanks, it is an invalid line.
//!
//! # Promises
//!
//! - [`joined_lines`] returns exactly the lines of a text that are not skipped (`value`), in order, with their numbers.
//! - [`read_number`] returns the number of a word, or that it is above 4,294,967,295, or that the word does not have the form of a number
//!   (`value`). The forms are decimal digits, `0x` and hexadecimal digits, and `0` and octal digits.
//!
//! # Errors
//!
//! The only error is out of memory, and only [`joined_lines`] returns it.
//!
//! # Cost
//!
//! Each text is read once. A line without joined lines is borrowed, and a joined line is copied. [`read_number`] allocates nothing.
#![tactic(auto)]

mod lines;
mod numbers;

pub use lines::{JoinedLine, LineText, joined_lines};
pub use numbers::{Number, read_number};
