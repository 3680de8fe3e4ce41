//! The meaning of a service's replies for a submission (`front_submission`).
//!
//! A reply has rows and a last line, `ok ...` or `error ...` (cegmandi_protocol(5)). [`reply_in`] reads the last line, and [`shown_of`] the
//! rows of `job N`, which `front_texts` reads as a [`front_texts::JobShown`]. `spool_front` and `ipp_printing` pass what they return to their
//! submissions.
//!
//! # Promises
//!
//! - *ExactMeanings*: exactly the last lines of the protocol have a meaning. A line that is not understood has the meaning `Unclear`, after
//!   which it is unknown whether the command was executed ([`reply_in`], [`is_gone`]).
//! - [`closing_reply`]: the last piece of a document is sent together with a close, and both have one reply. If the job was closed, it is that
//!   of the close. If the piece was not executed, or this is unknown, it is that of the piece. Otherwise it is that of the piece, unless it is
//!   unknown whether the close was executed.
//! - [`shown_of`], [`has_reason`]: exactly the state of the job.
#![tactic(auto)]

mod replies;

pub use replies::{closing_reply, has_reason, is_gone, reply_in, shown_of};
