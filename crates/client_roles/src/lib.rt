//! The roles of clients: which requests of a client the service serves, and which it answers with `error denied`.
//!
//! The crate has values alone. `service_loop` asks it before it serves a request.
//!
//! # Model
//!
//! `RoleTable` has the table: the role of a client (`role_of`), the request (`request_of`), and whether it is permitted (`is_permitted`).
//!
//! | Request | Stranger | User | Operator |
//! |---|---|---|---|
//! | `create`, `createby` | yes | under its own name | yes |
//! | `send`, `close`, `cancel`, `stop`, `hold`, `release`, `end`, `wait` | jobs that it created over its connection | also jobs of its name | yes |
//! | `jobs`, `queues`, `printers`, `job`, `queue`, `list`, `why`, `find`, `incoming`, `room`, `now`, `watch`, `i-am`, `made`, malformed lines | yes | yes | yes |
//! | all others | no | no | yes |
//!
//! A stranger is a client that has proved nothing, unless each such client is trusted: then it is an operator. A job that does not exist may
//! be named by anybody, since the engine refuses the command. Which fields of others' jobs are shown is a matter of `client_standing`.
//!
//! # Promises
//!
//! - [`is_allowed`] is exactly the table.
//! - [`others_jobs_are_kept`]: a client that is no operator changes only jobs of its own, and a stranger only jobs that it created over
//!   its connection. A user creates jobs under its own name alone. Only operators change queues, the time and the service.
//! - [`operators_are_denied_nothing`].
//!
//! # Not proved
//!
//! - That a client is who it has proved to be: see the program that implements the proof.
//!
//! # Errors
//!
//! No call fails or allocates.
#![tactic(auto)]

mod laws;
mod table;

pub use laws::{operators_are_denied_nothing, others_jobs_are_kept};
pub use table::is_allowed;
