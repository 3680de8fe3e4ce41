//! The rights of clients of the IPP front.
//!
//! Nobody can prove who it is over IPP, so the rights of a client are those of its place: TCP, or one of two sockets.
//!
//! | Right | over TCP | socket of all users | socket of operators |
//! |---|---|---|---|
//! | print a document, show printers and jobs | yes | yes | yes |
//! | cancel, hold or release a job | a job that came over TCP, of the user whom the client names | a job that came by TCP or this socket, likewise | each job |
//! | change jobs of others, change printers | no | no | yes |
//!
//! The token of a job begins with its place.
//!
//! # Promises
//!
//! - *ExactAccess*: [`may`] and [`may_change`] return exactly the rows of the table (`value`), and [`place_of`] reads the place of a token
//!   that begins with [`prefix`].
//! - *ApartPlaces*: over TCP a client changes no job that came by a socket, and at a socket of all users none of operators
//!   ([`may_change`], `network`, `socket`), and neither changes a job of another user (`owner`).
//!
//! # Errors
//!
//! None: no call allocates memory, and none fails.
#![tactic(auto)]

mod access;
mod places;
mod rights;

pub use access::{may, may_change};
pub use places::{Place, place_of, prefix};
pub use rights::Right;
