//! The sockets and clocks of the IPP front as traits, and its connection to the service.
//!
//! | Part | Meaning |
//! |---|---|
//! | [`Stream`], [`Sockets`], [`Times`] | the system: connections, waiting, clocks, tokens |
//! | [`Outgoing`] | bytes that wait to be written to a connection |
//! | [`Link`] | the connection to the service, with the commands that wait for their replies |
//!
//! A connection is read and written only by calls that do not wait. [`Link::pump`] exchanges what can be exchanged now, and returns the
//! commands whose reply will not come if the connection is lost.
//!
//! # Promises
//!
//! - *WrittenOnce*: the bytes that wait are the appended bytes without the written ones, in their order ([`Outgoing::push`]:
//!   `ok`, `err`; [`Outgoing::advance`]). An exchange removes only the first of them ([`Link::pump`]: `stands`).
//! - *AnsweredOnce*: the text of a command follows the texts of the commands before it, and each command is answered, is lost, or waits
//!   still: once, in the order in which they were sent ([`Link::ask`]: `sent`; [`Link::pump`]: `once`; [`Link::lose`]: `lost`). Its reply is
//!   the one that the service gave to it (*InOrder* of `service_client`).
//! - *Whole*: a command is sent exactly if there is a connection with room for it that has the text of each command before it
//!   ([`Link::ask`]: `answer`; otherwise `none`: nothing changes). If memory runs out after a command was noted, its connection takes no other
//!   command and is given up at the next exchange ([`Link::ask`]: `err`; [`Link::pump`]: `broken`).
//! - *NothingLeft*: after a connection is lost, no command, no text and no part of a reply is left, so that the next one begins without them
//!   ([`Link::lose`]: `given_up`; [`Link::pump`]: `lost`; [`Link::connected`]). A connection with nothing to exchange is not lost
//!   ([`Link::pump`]: `quiet`), and one that is kept loses no command (`stands`).
//!
//! # Not proved
//!
//! - The behavior of the system's connections. No contract speaks of a socket, so a connection with something to exchange may be lost at any
//!   time.
//!
//! # Errors
//!
//! Out of memory, or a connection that is lost. A command whose text does not fit into memory is never sent in part.
#![tactic(auto)]

mod link;
mod outgoing;
mod sockets;

pub use link::{Link, Tag};
pub use outgoing::Outgoing;
pub use sockets::{Readiness, Sockets, Stream, Times};
