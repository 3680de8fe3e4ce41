//! The words and replies of the service itself, in addition to the commands of its engine.
//!
//! | Line | Reply |
//! |---|---|
//! | `job N` | the job with all its fields and times, one on each line, then `ok 1`; `error job` if it does not exist |
//! | `wait N` | after the job has ended, its line of the listing, then `ok 1`; `error job` if it does not exist or was purged |
//! | `end N` | made by the service, which terminates the job's running child: first SIGTERM, later SIGKILL |
//! | `stop N` | the reply to `cancel N`; the service also terminates the job's running child |
//! | `queue NAME` | the queue with all its fields, one on each line, then `ok 1`; `error queue` if it does not exist |
//! | `list [queue Q] [state S] [user U] [from N] [most M]` | the next selected jobs, each as in `job N`, then `ok K` or `ok K more N` |
//! | `find TOKEN` | `ok job N`, or `error job` |
//! | `incoming` | a line `incoming N AGE` for each incoming job whose client has disconnected, then `ok K` |
//! | `room` | `ok room BYTES`: the length of the greatest document that is accepted now, 0 if none is |
//! | `now` | `ok now SECONDS`: the moment of the service |
//! | `printers` | the queues as `queues` lists them, but only with what lasts of attempts that have ended, then `ok K` |
//! | `why N` | `ok why` and why the job does not print; `error job` if it does not exist |
//! | `close N NAME TYPE` | the reply to `close N NAME`; the job has this media type |
//! | `closeat N SIZE NAME [TYPE]` | the reply to `close N NAME [TYPE]`; `error size` if the job is incoming and its document has another size |
//! | `watch` | from then on a line for each job and each queue that changes |
//! | `watch N` | what changed after the change of this number, and from then on as `watch` |
//! | `i-am`, `made` | made by the service: a client proves who it is |
//! | `shutdown` | made by the service, which accepts no client any more and ends |
//!
//! The words after `queue`, `list`, `find`, `close` and `closeat` may be quoted. A line with anything after its last word is none of these. The
//! command `queue` has four words or more, and the command `close` two.
//!
//! A client that may not see a job is shown empty texts for its user, its title and its options (`client_standing`). It finds no job by a user
//! that it does not see. The URI of a queue is shown to operators alone. What a queue shows of its attempts is decided by `queue_sayings`, and
//! why a job does not print by `wait_causes`.
//!
//! # Promises
//!
//! - [`own_word`] returns the word of the service on a line, if any (`ServiceWords`, `own_word`). [`own_words_are_no_commands`]: the engine
//!   finds each such line malformed, so no command of the engine is lost. A [`Selection`] has each key at most once (`Selections`).
//! - [`shown_job`], [`job_told`]: the text of one job, or `error job` exactly if it does not exist (`Shown`: `shown_job`, `told_job`). The time
//!   of a state that the job has reached is that which was seen, or `unknown` (`event_records`). A state that it has not reached has no line.
//!   [`has_settled`]: whether a `wait` is over. [`has_other_size`]: whether `closeat` closes nothing. [`push_shown_line`], [`push_shown_jobs`]: lines of the listing (`shown_line`).
//! - [`shown_queue`]: the text of one queue, or `error queue` exactly if it does not exist (`QueueShown`, `IsShownQueue`). It counts all
//!   waiting jobs of the queue, and those of the first 1,000 in the order of printing that are held (`AreCounts`).
//! - [`listed_text`]: a piece of the listing (`Listings`, `listed_text`). [`pieces_make_the_listing`]: the pieces, each from the number that
//!   the one before it names, have each selected job once and no other. [`shown_texts_are_read_back`]: a text in quotes cannot imitate what
//!   follows it.
//! - [`Tokens`] has the job that was noted last for each token (`SubmissionTokens`, `entry_for`). [`Tokens::of_table`] notes all jobs of a table. A found
//!   job has the token, whatever the entries are (`found`). The token of a job is the last word of its options, if that is
//!   `submission=TOKEN` ([`token_of`]).
//! - [`LeftJobs`] has the jobs whose clients have disconnected. Its text has exactly those that are still incoming (`LeftJobs`,
//!   `incoming_text`).
//! - [`push_room`], [`push_now`]: the replies to `room` and `now` (`MeasuredTexts`).
//! - [`Notes`] are the jobs and queues that changed after a change, each once, in order, up to 256, and then that some were missed
//!   (`noted_since`, `Notices`). [`Notes::lines`] returns their lines as the table has them then (`told`).
//! - `job_number` reads a job's number as every command does.
//!
//! # Not proved
//!
//! - Which client gets which text, and when: see `service_loop`.
//! - That [`Tokens`] has no entries but those of the table's jobs.
//!
//! # Errors
//!
//! The only error is out of memory. Tokens and left jobs are then as before.
//!
//! # Cost
//!
//! - A piece examines at most 1,000 jobs, each found by binary search. The first one is found without a walk of those before it, except that
//!   numbers of purged jobs before it may be passed over (`job_rows`).
//! - The text of a queue examines at most 1,000 of its waiting jobs. Their number is stored with the index.
//! - A token is found by binary search.
//! - `incoming` examines each job that was left.
#![tactic(auto)]

mod job_texts;
mod laws;
mod left_jobs;
mod listing;
mod measured;
mod notes;
mod own_words;
mod queue_texts;
mod selection;
mod token;
mod tokens;

pub use job_texts::{
    has_other_size, has_settled, job_told, push_shown_jobs, push_shown_line, shown_job,
};
pub use laws::{own_words_are_no_commands, pieces_make_the_listing, shown_texts_are_read_back};
pub use left_jobs::{LeftJob, LeftJobs};
pub use listing::listed_text;
pub use measured::{push_now, push_room};
pub use notes::{Notes, push_change};
pub use own_words::{OwnWord, own_word};
pub use queue_texts::{QueueCounts, shown_queue};
pub use selection::{PieceLength, Selection, StateNumber};
pub use token::{TokenKind, TokenText};
pub use tokens::{Tokens, token_of};
