//! One connection to an IPP client, as requests of HTTP/1.1 and their bodies.
//!
//! [`Http`] reads requests from bytes that have come, in any pieces, and appends answers to bytes that are to be written. It reads no socket. A
//! body comes in parts of a bounded size, so that a document is never held as a whole.
//!
//! # Promises
//!
//! `State` is the state of a connection: its server of the library http1, the bytes that wait, and its flags. Each call that changes a
//! connection states the whole state after it.
//!
//! - *Bounded*: a connection holds less than 80 KiB that wait to be read as requests, and less than 144 KiB of a body, whatever comes
//!   ([`Http::receive`], [`Http::pull`]: `bounded`). No more is received while 64 KiB of a message wait, or 48 KiB of a document
//!   ([`Http::has_room`]).
//! - *ReadOnce*: bytes that come are appended to the input ([`Http::receive`]: `ok`), and leave it as the server reads them, by RFC 9112: a
//!   head begins a request, and the data of its body is appended to the body ([`Http::pull`]: `read`). Input that is no request is reported
//!   with its status, and while 64 KiB of a body wait, nothing is read (`full`). [`Http::skip`] drops the body, and all input after the last
//!   answer.
//! - *OnlyOwnHosts*: a message of IPP is read only if its request names this machine or came over its own socket, and has the type of IPP
//!   ([`Http::pull`]: `read`).
//! - [`Http::take_body`] and [`Http::drop_body`] take the bytes of a body in their order, each once. A document follows only the dropped
//!   message.
//! - *ExactAnswers*: an answer has the status, the fields and the content that are given, is the last to be written, and ends the connection if
//!   that is asked ([`Http::answer`]: `ok`). The answer to HEAD has no content. Without memory no part of an answer is appended (`err`).
//!   [`Http::want_body`] asks a client for its body only if it waits for that.
//!
//! # Not proved
//!
//! - How many bytes an answer has: as many as the jobs and printers that it lists.
//! - The target and the host of a request, from which its page and its URIs are made.
//!
//! # Errors
//!
//! Out of memory. Requests that are not HTTP/1.1, or exceed its limits, are reported with the status of their answer ([`Came::Fault`]).
#![tactic(auto)]

mod connection;
mod heads;

pub use connection::{Answer, Asked, Came, Http};
