//! Reads the replies of the service and formats them for users: tables for a terminal, JSON, an HTML page, and the output of `lpstat` and
//! `lpq`.
//!
//! All functions map texts and values to texts and values. They use no file, socket or clock. Lines are passed without their line feeds.
//! The fields of a row are those of cegmandi_protocol(5), with values that the types of `spool_types` allow. Any other row is `None`, also
//! if something follows its last field.
//!
//! # Promises
//!
//! - [`read_job_line`], [`read_queue_line`], [`read_watch_line`], [`read_last_line`]: return exactly the value of a line (`value`;
//!   `JobRows`, `QueueRows`, `ReplyLines`). [`read_job_shown`]: returns exactly the value of the lines `NAME VALUE` of a job (`value`,
//!   `JobPage`). Lines that a job need not have are optional.
//! - [`now_in`], [`next_in`]: return exactly the time in a reply to `now`, and the number from which a listing goes on (`value`,
//!   `ReplyLines`).
//! - [`read_aged_jobs`]: returns exactly the jobs of a reply to `list`, each with its own age, from its creation to a time of the service
//!   (`value`, `AgedJobs`).
//! - [`job_rows_read_back`]: each row that the spooler prints for a job reads as that job at that moment (`ReadBack`).
//! - [`jobs_table`], [`queues_table`], [`job_page`], [`queue_page`]: no line takes more columns than allowed, as Unicode counts them, and
//!   no character of it steers a terminal (`fits`, `clean_texts`). A table has a line of column names and one for each row (`count`).
//! - [`fitted`]: cuts a text between characters and appends `…`, and leaves a text that fits as it is (`fits`, `whole`, `clean`).
//! - [`job_json`], [`jobs_json`], [`queue_json`], [`queues_json`], [`job_shown_json`]: return exactly their values (`value`, `Json`).
//!   [`json_text`] returns the text of such a value, in which a character that steers is an escape (`value`, `clean`).
//! - [`page`], [`aged_page`]: return exactly their bytes (`value`, `Page`): the page's own texts, and every other text appended by
//!   [`push_escaped`]. A text that a user or a printer chose is cleaned before, and isolated by the element `bdi`. A job has a note that says
//!   what it waits for, as far as the rows of the jobs and queues say (`note_text`). [`page`] shows all queues and jobs, and no age.
//!   [`aged_page`] shows the queues and jobs of the [`PageView`] and no others (`is_shown`, `is_job_shown`), each job with its age in words
//!   (`age_words`) and with how long it still waits for a moment (`left_html`).
//!   [`escaped_texts_have_no_markup`]: an escaped text contains no `<`, `>`, `"` or `'`, so it cannot open or close anything. [`escape`]
//!   returns an escaped text.
//! - [`lpstat_printers`], [`lpstat_accepting`], [`lpstat_jobs`], [`lpstat_names`], [`lpstat_device`], [`lpq`]: return exactly their bytes
//!   (`value`; `Lpstat`, `Lpq`).
//! - [`size_text`], [`moment_text`]: return sizes, and moments in UTC (`value`, `Sizes`). The names of states are those of the tables in
//!   `StateWords`.
//!
//! # Not proved
//!
//! - The contents of a table's cells, which are only tested.
//!
//! # Differences from CUPS
//!
//! - `lpstat -p`, `-a` and `-o` print `-` in place of dates, since the service's rows do not contain them. A processing queue whose job is
//!   unknown is `now printing` without a job.
//! - The size in `lpstat -o` and `lpq` is the document's size in bytes, not in kilobytes times 1,024. `lpq` cuts no text, so a long one
//!   moves the following columns to the right.
//!
//! # Errors
//!
//! The only error is out of memory. A part of a text may then have been appended.
#![tactic(auto)]

mod aged_jobs;
mod cells;
mod escaping;
mod fields;
mod job_fields;
mod job_line;
mod job_shown;
mod job_times;
mod json;
mod laws;
mod lpq_form;
mod lpstat;
mod queue_fields;
mod queue_line;
mod reply_lines;
mod shown_user;
mod sizes;
mod states;
mod tables;
mod web_page;

pub use aged_jobs::{AgedJob, read_aged_jobs};
pub use cells::fitted;
pub use escaping::{escape, push_escaped};
pub use job_fields::job_page;
pub use job_line::{JobLine, read_job_line};
pub use job_shown::{JobAsked, JobShown, JobStatus, StageShown, read_job_shown};
pub use job_times::{JobTimes, TimeShown};
pub use json::{job_json, job_shown_json, jobs_json, json_text, queue_json, queues_json};
pub use laws::{escaped_texts_have_no_markup, job_rows_read_back};
pub use lpq_form::lpq;
pub use lpstat::{lpstat_accepting, lpstat_device, lpstat_jobs, lpstat_names, lpstat_printers};
pub use queue_fields::{device_in, queue_page};
pub use queue_line::{QueueLine, read_queue_line};
pub use reply_lines::{LastLine, WatchLine, next_in, now_in, read_last_line, read_watch_line};
pub use shown_user::{ShownUser, ShownUserKind};
pub use sizes::{moment_text, size_text};
pub use states::{JobState, PrinterState};
pub use tables::{jobs_table, queues_table};
pub use web_page::{PageView, aged_page, page};
