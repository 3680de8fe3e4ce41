//! The client of a service, as far as its rights depend on it: the rules, who it is, and which jobs are its own.
//!
//! The crate has values alone. `client_roles` decides by them which requests are allowed, and `service_texts` which fields a listing shows.
//!
//! # Model
//!
//! `ClientStanding` defines a client's standing: the rules for its socket, the caller, and the jobs that it created over its connection. A
//! [`Caller`] is unproved, a user, or an operator. Contracts see [`Standing`] and [`MadeJobs`] as these values.
//!
//! # Promises
//!
//! - [`Standing::new`] and [`Standing::note_proof`] alone determine the caller, so it is proved and never claimed.
//! - [`Standing::is_operator`]: an operator may do everything, and so may an unproved client if each is trusted ([`Trust::All`]).
//! - [`Standing::owns`]: a job is a client's own if it is of the user that the client has proved to be, or if the client created it over its
//!   connection. Of these [`Standing::note_job`] keeps the newest 64.
//! - [`Standing::shows`]: title, user and options of a job are shown to operators, to its owner, and to all if the rules say so
//!   ([`Standing::sees_all`]). [`Standing::shows_uri`]: the URI of a queue is shown to operators alone.
//! - Laws: [`users_own_by_proof`], [`strangers_see_nothing`].
//!
//! # Errors
//!
//! Only [`Standing::note_job`] may fail, if memory runs out. The standing is then unchanged.
//!
//! # Cost
//!
//! Each call takes time in the number of the jobs that are kept, at most 64.
#![tactic(auto)]

mod caller;
mod laws;
mod made_jobs;
mod rules;
mod standing;

pub use caller::{Caller, Proved};
pub use laws::{strangers_see_nothing, users_own_by_proof};
pub use made_jobs::MadeJobs;
pub use rules::{RoleRules, Trust};
pub use standing::Standing;
