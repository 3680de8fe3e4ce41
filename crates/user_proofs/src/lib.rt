//! The decisions about the user of a client: the user whom a folder proves, the user's name, and whether the user is an operator.
//!
//! The reports of the system are arguments, so this crate calls no file, process or clock. `spool_service` calls these functions.
//!
//! # The proof
//!
//! The service makes the name of a folder that cannot be guessed, and the client makes the folder with mode 0700. The owner of the folder
//! is then the user of the client, because nobody else can have put it there: mkdir(2) makes a folder of the caller, a folder has no
//! further links, and rename(2) moves a folder to another parent only for a user who can write to the folder itself. A proof fails if the
//! name belongs to a link or to anything else, if the mode is another one, if a file system is mounted there, and for the user 65534, who
//! represents unknown users.
//!
//! # Promises
//!
//! - [`challenge_of`] returns the path with the bytes in hexadecimal digits, two for each byte (`value`).
//! - [`Found::of`] returns the kind and the mode that the metadata reports (`folder`, `link`, `mode`). [`judged`] returns the owner exactly
//!   if the name is a folder with mode 0700 on the device of the folder of proofs, and the owner is not 65534 (`value`).
//!   [`is_of_service`] returns true exactly for a folder of the service, as the folder of proofs must be (`value`).
//! - [`user_in`] returns the name in a line of passwd(5) exactly if the line has seven fields and is that of the requested user, and the
//!   name is a valid one of a job's user (`value`). [`group_in`] returns the number in a line of group(5) exactly if the line has four
//!   fields and is that of the requested group (`value`). [`numbers_in`] returns the numbers in a line of passwd(5) exactly if the line
//!   has seven fields and is that of the requested user, by its name or number (`value`).
//! - [`is_operator`] returns true exactly for `root`, for the user of the service, and for a member of the group of operators, by the
//!   output of `id -G`. [`is_always_operator`] returns true for the first two. [`usual_operators`] returns the group of the socket exactly
//!   if its permissions let the group connect.
//! - [`KnownUsers::find`] returns the first answer for a user that is younger than 10 minutes, or than 10 seconds if it has no name
//!   (`value`). [`KnownUsers::note`] adds an answer, and drops the oldest of 1,024 (`value`); if memory runs out, nothing changes
//!   (`kept`). [`Identity::try_clone`] returns the same identity.
//!
//! # Not proved
//!
//! - That the system reports the owner and the device of a folder: `std` has no word for them. `tests/test_service_proof.py` shows it.
//!
//! # Errors
//!
//! The only error is out of memory.
//!
//! # Cost
//!
//! Each line is read once. [`KnownUsers::find`] reads up to 1,024 users.
#![tactic(auto)]

mod challenges;
mod folders;
mod known;
mod lines;
mod operators;

pub use challenges::challenge_of;
pub use folders::{Found, FoundKind, is_of_service, judged};
pub use known::{Identity, KnownUser, KnownUsers};
pub use lines::{UserNumbers, group_in, numbers_in, user_in};
pub use operators::{is_always_operator, is_operator, usual_operators};
