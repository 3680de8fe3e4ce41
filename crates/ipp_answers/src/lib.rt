//! The attributes of jobs that are returned to clients of the Internet Printing Protocol, and the values of attributes.
//!
//! An answer is computed from facts: what the service reports of a job ([`JobFacts`]), and the server with its clock ([`Server`]). Nothing
//! else is answered. The caller reads the facts and encodes the groups.
//!
//! # The table
//!
//! `JobRows` has a row for each attribute of a job: its name, its group, and its values as a function of the facts. A row without values is
//! absent from the answer. The code has the same table as data, in which each row names a source.
//!
//! | Values | Source |
//! |---|---|
//! | state, its reasons and its message | the word that the service shows with the job ([`JobReason`]) |
//! | `time-at-..`, `job-printer-up-time` | seconds since 1970, as CUPS has them |
//! | `job-uuid` | the hash of the spool's name and the job's path (version 5 of RFC 9562), the same after a restart |
//! | all others | the service |
//!
//! Facts that nobody knows are not answered. A time that the service did not see is `no-value`, or `unknown` as a date. Who canceled a job,
//! and how many sheets it took, have no attribute. If the service hides the owner of a job, the answer has neither the owner nor the title.
//!
//! # Promises
//!
//! - [`job_group`] returns exactly the rows that are asked for, in the order of the table, as attributes (`attributes`, by `answered` of
//!   `requested_attributes`). [`JobSelection`] does the same for the jobs of a request: it looks up once what is asked for.
//! - [`select_jobs`] returns exactly the jobs of a list that match a [`JobQuery`], from its first index on, up to its limit, in their order
//!   (`JobQueries`, `selected`). [`WhichJobs::takes`]: which states each value of `which-jobs` takes.
//! - [`reasons_follow_phases`]: the state and the reasons of a job follow from the word of the service, for each phase of `spool_types`.
//! - [`hidden_titles_are_not_answered`]: the answer about a job whose owner is hidden does not depend on its title.
//! - [`Timestamp::of_seconds`]: a [`Timestamp`] has the date of its seconds by the Gregorian calendar (`IsDateOf`).
//! - [`values`] makes exactly the values of `AnswerValues`, and [`uris`] the texts of `AnswerUris`.
//! - [`examples_of_job_requests`]: the attributes that are returned to `lpstat`.
//!
//! # Not stated
//!
//! The order of the jobs is that of the list. RFC 8011, 4.2.6.2, asks for jobs that have ended with the newest first, and for others in the
//! order in which they will print: the caller sorts the list.
//!
//! # Errors
//!
//! The only error is out of memory. A text outside the limits of its syntax, such as a URI of more than 1,023 bytes, and a number beyond an
//! integer, such as the seconds after the year 2038, become `no-value`.
//!
//! # Cost
//!
//! A selection compares each value of `requested-attributes` with each row. An answer computes the values of the selected rows alone.
//! [`select_jobs`] examines each job of the list once.
#![tactic(auto)]

mod facts;
mod job_sources;
mod job_table;
mod job_values;
mod jobs;
mod laws;
mod queries;
mod states;
mod timestamps;
pub mod uris;
pub mod values;
mod which_jobs;

pub use facts::{JobFacts, Reached, Server};
pub use jobs::{JobSelection, job_group};
pub use laws::{examples_of_job_requests, hidden_titles_are_not_answered, reasons_follow_phases};
pub use queries::{JobQuery, select_jobs};
pub use states::JobReason;
pub use timestamps::Timestamp;
pub use which_jobs::WhichJobs;
