//! Reads the requests of a client of the service: commands of the engine, and words of the service itself.
//!
//! [`Reader`] takes a client's text in pieces of any size and returns its requests in order. It recognizes a word of the service at the
//! beginning of a line, never inside a document: the reader of commands (`command_lines`) gets a line only after it was found to be no such
//! word, and of a send it gets at most its bytes.
//!
//! # Promises
//!
//! - `Asks` defines the requests of a text (`asks_of`): line by line its commands, or a word of the service (`own_of`) on a line of at most
//!   4,096 bytes, the limit for commands too. [`asks_are_commands`]: these are the text's commands, one for one, with a word of the service
//!   in the position of a malformed command. So no word of the service is found inside a document.
//! - `AwaitedRequests` defines the requests that a reader awaits (`Awaits`): the remaining ones, as a function of the text that follows. A
//!   new [`Reader`] awaits exactly the requests of the text (`asks_of`). [`Reader::take`] moves a piece from the text that follows.
//!   [`Reader::is_in_send`]: whether it waits for the bytes of a send.
//!   [`Reader::next`] returns the first awaited request, or none yet (`Gives`); if memory runs out it loses nothing.
//! - [`Reader::next`] makes progress: less of the text is left than before, or only part of a line or nothing is left (`further`).
//! - [`asks_come_in_order`]: over any list of calls, whatever the pieces, the returned requests are the first of the requests in the text
//!   so far (`so_far`), and also in each longer text that begins with it (`whatever_follows`). So a line without its line feed is never
//!   returned, unless no further text can change its request, as for a line that is too long.
//!
//! # Invariants
//!
//! 1. The reader of commands gets a whole line, the front of a line that is too long, the rest of such a line, or bytes of a send, never
//!    bytes of two of these. So when it waits for a line, the text is at the beginning of a line or in the rest of one.
//! 2. `within` distinguishes these two: whether the last byte that the reader of commands got was no line feed.
//!
//! # Not proved
//!
//! - That memory has run out when a call reports it.
//!
//! # Errors
//!
//! The only error is out of memory. [`Reader::next`] loses nothing then. After an error of [`Reader::take`] nothing is known of the piece.
#![tactic(auto)]

mod ask;
mod laws;
mod reader;

pub use ask::{Ask, Next};
pub use laws::{asks_are_commands, asks_come_in_order};
pub use reader::Reader;
