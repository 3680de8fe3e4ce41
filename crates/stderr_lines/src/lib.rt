//! Reads the effects of a child from its standard error, which arrives in pieces of any size.
//!
//! A filter or a backend reports its progress and its needs on standard error, one per line (filter(7)). [`Lines`] reads that text: its
//! caller feeds it the pieces as they arrive, and at the end takes the [`Report`] with [`Lines::finish`].
//!
//! # The lines
//!
//! `specs/` defines their effects over whole texts, as lists of bytes:
//!
//! - `LineEffects`: a line ends with its line feed, and the last line needs none. The first 1,023 bytes of a line are read, and then one
//!   carriage return at their end is dropped. The bytes before the first colon are its prefix, in capitals. A line with another word
//!   there has no effect, and neither has a line with DEBUG, DEBUG2 or PPD. Its text follows the prefix and blanks, with `?` for each
//!   byte that is not printable ASCII.
//! - `PageLines`: `PAGE: page copies` and `PAGE: total pages`, with numbers of any length and values of at most 4,294,967,295.
//! - `ReasonLines`: `STATE: word,..`. A `+` or `-` at the front adds or removes the reasons. Commas and blanks separate. A word that is
//!   no reason is left out, and a list without a reason to add or remove has no effect.
//! - `AttributeLines`, and `Quoting` of `line_words`: `ATTR: name=value ..`. Blanks outside quotes separate, single and double quotes
//!   quote, and a backslash takes the next byte literally. A word that is no pair is skipped as a whole.
//! - The levels EMERG, ALERT, CRIT, ERROR, WARNING, NOTICE and INFO yield a message, which may be empty.
//! - `Reports`: effects are retained while their codes (`Effects` of `spool_types`) fit in 16,384 bytes. From the first that does not fit
//!   on, effects are dropped and counted, up to 4,294,967,295.
//!
//! # Promises
//!
//! - *ExactEffects*: the report is `report_of` the whole text, whatever the pieces. `Pending` is the state of a reader, and `to_come` is
//!   its future report as a function of the text that follows. A new reader has `report_of` all of it to come (`whole`). `feed` moves a
//!   piece from the text that follows to the text that was read (`Takes`). `finish` reports what `to_come` yields for no further text
//!   (`ok`). [`any_pieces`] states it for every list of pieces at once.
//! - [`effects_fit`]: the reported effects may be the effects of one stage (`AreEffects` of `spool_types`).
//! - An error loses nothing: `feed` leaves the reader unchanged, and `finish` returns it (`err`). The call may be repeated.
//!
//! # Invariants
//!
//! 1. A reader stores the front of one line, at most 1,023 bytes, and the reported effects. It reads a piece with a line feed with a
//!    second current line and a second list of effects, which it appends to the others at the end of the piece. So an error leaves no
//!    trace.
//! 2. An effect is first a `Draft`, whose texts are borrowed from the line. Its size is known before it allocates, and a dropped effect
//!    allocates nothing.
//!
//! # Errors
//!
//! The only error is out of memory.
//!
//! # Cost
//!
//! Each byte is moved at most twice, and each line is scanned a fixed number of times. So a text is read in time linear in its length,
//! whatever the pieces.
#![tactic(auto)]

mod attributes;
mod cuts;
mod draft;
mod laws;
mod line;
mod lines;
mod pages;
mod prefix;
mod quoting;
mod reasons;
mod tally;
mod texts;

pub use laws::{any_pieces, effects_fit};
pub use lines::{Lines, Report};
