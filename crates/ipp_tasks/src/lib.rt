//! The work of IPP requests: the commands that each sends to the service, and its answer.
//!
//! [`begin`] reads a message and returns an answer, or a [`Task`] with its first command. The caller sends the commands of the task together
//! ([`Task::unsent`], [`Task::note_sent`]). It passes the reply to each on, in their order ([`Task::heard`]), or reports that they are lost
//! ([`Task::lost`]), until the task is done. A task that takes a document takes its parts from the connection ([`Task::go_on`]).
//!
//! The last piece of an only document has three commands: the piece, its close, and one that shows the job for the answer. All others are
//! sent alone.
//!
//! # Promises
//!
//! - *Accepted*: a request that creates a job, sends a document or closes a job is answered with success only if another document may follow,
//!   or if the service has accepted the job of each document ([`Task::heard`], [`Task::go_on`]: `accepted`).
//! - [`Task::lost`], [`Task::deserted`]: only a lost reply, or a service that is away for too long, changes the submission of a request
//!   (`submission`). Of a loss of several commands only the first report changes anything ([`Task::lost`]: `again`).
//! - [`Task::unsent`], [`Task::note_sent`]: the commands are sent in their order, each once, and not before their time.
//!
//! - *Waiting*: at most [`MOST_PARKED`] jobs wait for their next request ([`Parked::put`]: `bounded`), each is found by its number (`added`,
//!   `others`, [`Parked::take`]), and only a job that no client has used for more than [`TIME_OUT`] seconds is removed for its age
//!   ([`Parked::take_late`]: `late`).
//! - An answer has the number of its request, and its version if that is known ([`begin`]: `version`, `request_id`).
//!
//! # Not proved
//!
//! - That only replies and what the client has sent change the submission ([`Task::heard`], [`Task::go_on`]): read in the code.
//! - That [`begin`] begins the work of the message's operation, and that the commands and the attributes of answers are the right ones.
//!   `tests/test_ipp.py` shows both with the programs of CUPS, and `tests/test_ipp_closes.py` which commands are sent together.
//!
//! # Errors
//!
//! Out of memory. A refusal of the service becomes the status of the answer.
#![tactic(auto)]

mod answers;
mod job_changes;
mod listing;
mod new_jobs;
mod parked;
mod requests;
mod submitting;
mod tasks;
mod world;

pub use answers::{Header, answer};
pub use listing::list_line;
pub use parked::{MOST_PARKED, Parked};
pub use requests::{Begun, Caller, begin};
pub use tasks::{Outcome, Task};
pub use world::{TIME_OUT, World};
