//! The reports of the service about jobs and queues, as the facts of IPP answers.
//!
//! The service answers commands by rows and a last line. This crate reads the rows of `job N`, `list` and `queue NAME`, and the errors of last
//! lines. The rows of a job are read by `front_texts`, and the answers are made by `ipp_answers` and `printer_answers`.
//!
//! # Promises
//!
//! - [`error_in`], [`is_done`]: exactly the error of a last line, and whether it is a success.
//! - [`shown_in`], [`job_facts`]: the facts are those of the rows (`some`). A job has none only if its reason is none that an answer has
//!   (`none`).
//! - [`printer_facts`]: the name, the marks, the counts and the time are those of the rows, and so is the device's URI, without the name and
//!   the password in it (`some`, `none`). The formats are the type of the queue and those of which a chain of filters makes it (`formats`).
//!   [`queue_target`], [`is_accepting`]: exactly those of the rows.
//!
//! # Not proved
//!
//! - The texts and the reasons of a queue, and which jobs a listing has. `tests/test_ipp.py` compares the answers of the program with the
//!   queues and jobs of the service.
//!
//! # Errors
//!
//! Out of memory. Rows that are not understood have no facts.
#![tactic(auto)]

mod errors;
mod shown_jobs;
mod shown_queues;
mod shown_uris;
mod words;

pub use errors::{error_in, is_done};
pub use shown_jobs::{job_facts, jobs_shown_in, shown_in};
pub use shown_queues::{is_accepting, printer_facts, queue_target};
