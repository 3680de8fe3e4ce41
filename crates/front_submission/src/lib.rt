//! The decisions of a submission, which turns one document into exactly one job over connections that may be lost at any moment.
//!
//! A job is submitted in steps: `create`, one `send` or two for each piece of the document, and `close`. If the caller knows which piece is the
//! last one, `closeat` follows that piece at once: a `close` on the condition that the document has its whole size. Nothing is printed before
//! the close. If a reply is lost, the submission first determines the state of the job on a new connection, and only then repeats a request.
//! [`Step`] is a state machine without a socket or a document. Its caller does what [`Step::request`] returns, and passes the result to the
//! machine.
//!
//! | Lost reply to | Query | Next step |
//! |---|---|---|
//! | `create` | which incoming jobs have the token | continue with the job that has it, or repeat `create` |
//! | `send` | `job N` | continue at SIZE, which is the size before the piece, after it, or after its first command |
//! | the last `send` and `closeat` | `job N` | see below: the job may have been closed |
//! | `close` | `job N` | repeat `close` if the job is still incoming; otherwise the reply states how the job ended |
//!
//! The two commands of a piece are sent together. The first one has up to 65,536 bytes and the second one fewer, so the size of the job tells
//! which of them were executed. If it was only the second one, the job is canceled. `closeat` closes the job only if both were executed.
//!
//! [`Step::heard`] takes one reply for all commands of [`Request::Send`]: [`Reply::Closed`] if `closeat` was accepted. Otherwise it is the reply
//! to the piece, but [`Reply::Unclear`] if the piece was taken and `closeat` was not clearly refused. If the piece was taken and `closeat` was
//! refused, `close` is sent.
//!
//! | After the last piece, `job N` states | Next step |
//! |---|---|
//! | incoming, with the size before the piece | send the piece again, with `closeat` |
//! | incoming, with the size after its first command | send the rest of it, with `closeat` |
//! | incoming, with the size after the piece | `close` |
//! | incoming, with another size | cancel the job |
//! | closed | accepted |
//! | closed, without filters | accepted, and unprintable |
//! | ended and never closed | refused |
//! | no such job, or a refusal | unknown: the job may have been closed, printed and purged |
//!
//! The state is queried also if the last piece is refused because the job is no longer incoming: commands of a lost connection may have closed it.
//! If no service is reachable in this state, the end is unknown too. A job that must be held is held before it is closed, so no `closeat` follows
//! its last piece.
//!
//! Any other reply, or a job that someone else has ended, ends the submission. Its job is canceled first if it may still be incoming.
//!
//! # Promises
//!
//! - [`Step`]: its transitions are exactly the rows of the tables in `SubmissionSteps` (`request`, `heard`, `lost`, `supplied`, `unread`,
//!   `deserted`), and [`End::status`] is the program's exit status (`status`).
//! - [`acts_once`] holds for every sequence of events (`SubmissionRuns`): each request is executed or not, or any of the commands of a piece and
//!   its close are executed, its reply is received, lost or unclear, it is put off or refused, a piece is read, alone or with the end, or cannot
//!   be read, no service is reachable, and others cancel, purge and create jobs meanwhile. No piece has more than 131,071 bytes. No two jobs of
//!   the submission are ever closed (`at_most_once`). With status 0 exactly one was closed, with the document's bytes, and filters convert it for
//!   the printer (`accepted`). With status 4 the same holds for a job that no filters convert (`unprintable`). With either status no job of the
//!   submission is left incoming (`alone`). With status 1 no job was ever closed (`refused`).
//!
//! # Not proved
//!
//! - The law requires a service that executes each command completely or not at all (`Service`), and that executes nothing more from a lost
//!   connection. That `spool_service` is such a service was read in the code.
//! - That `spool_front` follows the decisions: see its page.
//!
//! # Errors
//!
//! None: no call allocates memory, and none fails.
#![tactic(auto)]

mod laws;
mod moves;
mod reply;
mod step;

pub use laws::acts_once;
pub use reply::{Found, Own, Reply, Shown};
pub use step::{Cause, End, Request, Step};
