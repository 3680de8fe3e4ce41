//! The jobs of the service that the documents of an IPP client become.
//!
//! A [`PrintingJob`] has the decisions of a submission (`ipp_submission`) and what its commands need: names, options, the piece that is sent.
//! Its caller sends [`PrintingJob::command`], and reports the reply ([`PrintingJob::heard`]) or its loss ([`PrintingJob::lost`]).
//!
//! # Promises
//!
//! - [`PrintingJob::heard`]: exactly the transition of the submission for the reply, whose meaning `service_replies` defines (`heard`). A
//!   search for a job has two replies, of which the first may only state the number (`hears`). The last piece of a document and its close have
//!   one meaning together: the reply to the piece is kept until that to the close has come (`heard_last`, `kept_last`).
//! - [`PrintingJob::command`]: exactly the command of the submission's request, with the names, the options, the hold and the piece of the job
//!   (`command_of`). The text of each command about a job is exact ([`job_line`], [`hold_line`]).
//! - [`PrintingJob::follower`]: exactly the close on the condition that the document has all bytes, if the request is the last piece and its
//!   reply has not come (`follower_of`). It may be sent together with the piece.
//! - [`PrintingJob::lost`], [`PrintingJob::give_up`], [`PrintingJob::is_over`]: exactly the transition and the test of the submission.
//!
//! # Errors
//!
//! Out of memory.
#![tactic(auto)]

mod printing;

pub use printing::{DocumentName, PrintingJob, RAW, hold_line, job_line};
