//! The proof of a client's identity to a service, and the explanation of denied requests.
//!
//! A service that takes proofs replies to `i-am` with the path of a folder that does not exist. The client makes the folder and sends
//! `made`. The service examines the owner of the folder, removes it, and identifies the client as that user: nobody else can make a folder
//! with that owner. [`Step`] has the decisions over one connection. Its caller sends, makes the folder and removes it.
//!
//! # Promises
//!
//! - [`Step::after_offer`]: the folder is made only if the reply is `ok proof "PATH"`, in the quoting of `line_words`, and PATH is accepted
//!   (`IsAfterOffer`). After any other reply, such as that of a service without proofs, the client continues unproved.
//! - [`ProofPath::from_bytes`] accepts an absolute path whose last part consists of 32 hexadecimal digits and that has no part `..`
//!   (`IsPathOf`). Each [`ProofPath`] is such a path (`checked`), and [`ProofPath::parent`] is the part before its name.
//! - [`Step::after_making`]: `made` is sent exactly if the folder was made.
//! - [`Caller::from_reply`]: the name of the client is NAME in `ok user NAME` or `ok operator NAME`, up to the end of the line, if it is
//!   not empty and contains no control character. After any other reply the client is unproved (`IsStandingIn`). [`Caller::is_proved`] and
//!   [`Caller::user`] return whether it is proved, and the name of a user who is no operator.
//! - [`denied_job`] and [`denied_to_all`] return exactly the messages in `Denials`.
//!
//! # Not proved
//!
//! - The folder itself: `spool_front` makes and removes it. A hostile service chooses its parent. So it can learn whether the user may make
//!   a folder there, and cause an empty folder with a random name and mode 0700, which remains only if the client is killed. It can use no
//!   name that exists, and can make no file.
//! - A hostile service can pass on the path of another service, which then takes it for the client. `spool_front` refuses a parent whose
//!   owner is not the owner of the socket. This stops a service that only names such a folder, and not one that exchanges its own folder
//!   for a link between that test and the next call.
//!
//! # Errors
//!
//! The only error is out of memory. A text that is not UTF-8 counts as none.
//!
//! # Cost
//!
//! A reply is read a few times. The path and the name are allocated.
#![tactic(auto)]

mod caller;
mod denial;
mod path;
mod replies;
mod step;

pub use caller::Caller;
pub use denial::{denied_job, denied_to_all};
pub use path::ProofPath;
pub use step::Step;
