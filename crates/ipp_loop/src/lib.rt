//! The loop of the IPP front, over traits for sockets and clocks.
//!
//! One turn waits for readiness, takes replies of the service, and gives each client a turn. A client never waits for another one.
//!
//! # Rules
//!
//! - Each request whose head was read is answered, or its connection is lost. Out of memory has a fixed answer.
//! - At most [`MOST_CLIENTS`] clients are connected, and what waits for each is bounded. A new client is accepted after the turns of all others.
//! - A job whose client is lost before its last document is whole is canceled.
//!
//! # Promises
//!
//! - *Apart*: a turn of a client, a reply to its command and the loss of its command leave all other clients as they are (`others` of
//!   `Front::serve_client`, `Front::heard` and `Front::lose`). A reply to a client that had the place before changes nothing (`Client::heard`,
//!   `Client::lost`).
//! - *Canceled*: a job that is given up is the last of the lost jobs (`Shared::give_up`, `LostJobs::push`). It leaves them only as the first
//!   one, after nothing more happens to it or while the service is away (`LostJobs::forget_ended`): replies and losses remove none, and leave
//!   all but the first one as they are (`kept` of `Shared::lost_heard` and `Shared::lost_lost`).
//! - *OnceForAll*: each command that waits for its reply is answered, is lost or waits still: once and in order (`Shared::exchange`: `once`).
//!   A connection that is kept loses none (`stands`), and of one that is given up nothing is left (`lost`). It is given up if the service has
//!   not answered for 30 seconds, or if the text of a command is missing (`away`, `broken`).
//!
//! # Not proved
//!
//! - That each request is answered, and when. `tests/test_ipp.py` shows the rules.
#![tactic(auto)]

mod client;
mod front;
mod lost;
mod pages;
mod shared;

pub use front::{Front, MOST_CLIENTS};
