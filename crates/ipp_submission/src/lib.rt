//! The submission of an IPP job whose documents arrive in turn, over requests of a client and connections to the service.
//!
//! A job of IPP may have several documents (Send-Document, RFC 8011 4.3.1), and a job of the service has one. So each document is a part: a
//! job of the service with a token of its own, submitted by the decisions of `front_submission`. Between two requests of the client the parts
//! wait: nothing is printed before the client has sent the end of its last document. Then the jobs are closed in order. If a part fails, or
//! the client is lost before that, the jobs of all parts are canceled.
//!
//! | Request of the client | Calls |
//! |---|---|
//! | Create-Job | [`Submission::new`] |
//! | Send-Document | [`Submission::next_document`], but not for the first; [`Submission::supplied`] for each piece; [`Submission::finish`] after the last |
//! | the last piece, if [`Submission::closes_with_last`] | [`Submission::supplied_last`], and no [`Submission::finish`] |
//! | Print-Job | as Create-Job and the last Send-Document |
//! | Close-Job | [`Submission::finish`] |
//! | Cancel-Job, a lost connection, a time-out | [`Submission::give_up`] |
//!
//! The job of the only document is closed together with its last piece (`closeat`), if it need not be held and its end is known with the piece.
//!
//! [`Submission`] is a state machine without a socket or a document. Its caller does what [`Submission::request`] returns, for the part that
//! it names, and reports the reply ([`Submission::heard`]), its loss ([`Submission::lost`]) or that no service was reachable for too long
//! ([`Submission::deserted`]).
//!
//! # Model
//!
//! `JobParts` has the transitions: a row for each stage and step. `JobRuns` has whole runs: a client, a service as each part observes it, and
//! what may happen to them.
//!
//! # Promises
//!
//! - [`Submission`]: its transitions are exactly those of `JobParts`.
//! - [`submits_once`] holds for every sequence of events. *Once*: no two jobs of a document are ever closed (`once`). *Accepted*: if
//!   [`Submission::is_accepted`], exactly one job of each document was closed, with its bytes, and filters convert it (`accepted`). *All*: no
//!   job is closed before the client has sent the end of its last document (`unclosed`), and then each document is whole (`whole`).
//! - [`runs_follow_calls`]: in these runs each event changes the submission as a call of [`Submission`] does. The last piece of the only document,
//!   with its end, is an event of its own (`supplied_last`).
//!
//! # Not proved
//!
//! - That the service executes each command completely or not at all, as in `front_submission`, and that a token belongs to one part.
//! - That a caller follows the decisions.
//!
//! # Errors
//!
//! Out of memory: [`Submission::new`] and [`Submission::next_document`] have room for one part more. No other call allocates.
//!
//! # Cost
//!
//! A call reads one or two parts. [`Submission::is_accepted`] and [`Submission::is_closed`] read all.
#![tactic(auto)]

mod laws;
mod stage;
mod submission;

pub use laws::{runs_follow_calls, submits_once};
pub use stage::Stage;
pub use submission::{PartRequest, Submission};
