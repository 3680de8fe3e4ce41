//! A client of the service, over any connection.
//!
//! A client sends commands, and the service answers each with one reply, in the order of the commands. A reply is rows and a last line, whose
//! first word is `ok` or `error`. So several commands can be sent before the first reply has come. This crate cuts the replies from the bytes
//! of a connection and gives each to its command, and keeps a mirror of the jobs and queues. It opens no connection and reads no clock.
//!
//! | Layer | Types | Input and output |
//! |---|---|---|
//! | lines, replies | [`LineReader`], [`ReplyReader`] | none: bytes and values |
//! | commands in order | [`Pipeline`] | none: for a caller with its own loop, that never waits |
//! | a connection | [`Session`] | a [`Connection`] whose calls wait |
//! | the mirror | [`Mirror`] | none: lines and values |
//!
//! # Promises
//!
//! - `Replies` defines the replies in the bytes of a connection (`Cuts`). [`one_reading`]: the bytes have one reading. [`ReplyReader::take`]
//!   takes a byte and returns the reply that it completes, so that the pieces of a stream do not matter.
//! - *InOrder*: [`Pipeline::take`] gives each reply to the first of the commands without one (`Takes`), and [`Pipeline::lose`] returns the
//!   commands that have no reply when a connection is lost. [`in_order`], over every list of calls: each command has exactly one outcome, its
//!   reply or its loss, in the order of the commands, or still waits (`outcomes`); and over one connection the replies are
//!   those of the bytes that have come (`replies`). So reply k belongs to command k, no lost command is answered, and none is answered twice.
//! - [`Pipeline::has_room`]: at most [`MOST_UNANSWERED`] bytes of commands wait for replies, so that a client whose connection takes these
//!   bytes at once never waits for a service that waits for the client. [`Session::send`] reads replies until there is room.
//! - [`Session::exchange`]: the sent bytes are the commands and the received bytes the replies, in pairs (`talk`).
//! - [`Session::receive_lines`] returns exactly the whole lines that have come (`lines`, `each`, `part`), at least one (`some`).
//! - [`Pipeline::take`] fails with [`TakeFault::Unasked`] only if a reply came after each command had its own (`unasked`).
//! - [`send_text`]: the command that appends a piece of a document has exactly its job, its length and its bytes.
//! - [`LineReader::take_all`]: the lines of a stream, whatever its pieces. [`Mirror::tell_all`]: the rows of the mirror are the fold of the
//!   lines (`jobs`, `queues`). After `missed` they must be listed again (`known`).
//!
//! # Not proved
//!
//! - That a socket takes [`MOST_UNANSWERED`] bytes while nobody reads: the default of Linux for a socket of the file system is more.
//! - That the service sends no notice between the rows of a reply. It writes each reply as a whole.
//! - That [`Session::receive`] waits: no clause sees a moment, and a connection may return no bytes. A body that returns at once, without
//!   bytes, meets its clauses.
//!
//! # Errors
//!
//! Out of memory, and a connection that is lost. After an error of [`Pipeline::take`] or of a [`Session`] the connection must be given up,
//! and [`Pipeline::lose`] or [`Session::lose`] returns the commands without a reply: it is unknown whether they were executed. After an error
//! a [`Mirror`] is not whole.
//!
//! # Cost
//!
//! Each byte of a reply is read once. A queue's row is found by a walk of all queues.
#![tactic(auto)]

mod connection;
mod document;
mod fault;
mod laws;
mod lines;
mod mirror;
mod notices;
mod pipeline;
mod reader;
mod reply;
mod rows;
mod session;

pub use connection::{Connection, ConnectionFault};
pub use document::send_text;
pub use fault::TakeFault;
pub use laws::{in_order, one_reading};
pub use lines::LineReader;
pub use mirror::Mirror;
pub use notices::{Notice, read_notice};
pub use pipeline::{Answered, Asked, MOST_UNANSWERED, Pipeline};
pub use reader::ReplyReader;
pub use reply::{Reply, is_last};
pub use rows::NamedRow;
pub use session::Session;
