//! Why a job does not print.
//!
//! # Model
//!
//! `WaitCauses` is a table with one row for each cause. The first cause that applies is shown: first those of the job, then those of its
//! queue, then those of the service.
//!
//! | Words | The job |
//! |---|---|
//! | `ended` | has ended |
//! | `abandoned` | is incoming, and its client has disconnected |
//! | `arriving` | is incoming: its document is being sent |
//! | `held` | is held until it is released |
//! | `held-until M` | is held until the moment M |
//! | `retry M` | failed, and its next attempt starts at the moment M |
//! | `stopped` | waits for its queue, which is stopped |
//! | `taken J ahead N` | waits for the job J of its queue, which is processing; N waiting jobs are before it |
//! | `behind J ahead N` | waits for the job J of its queue, which is started first; N waiting jobs are before it |
//! | `children` | is to be started, but the limit of running children is reached |
//! | `full` | is to be started, but the journal is short of room |
//! | `next` | is to be started: in the next turn, or after the child of a canceled job has ended, or when the system has room for a child |
//! | `prints` | has a running child |
//!
//! Of the waiting jobs before it at most 1,000 are counted.
//!
//! # Promises
//!
//! - [`cause_of`] is the table. [`why_text`]: the reply about a job, or `error job` exactly if it does not exist (`IsWhy`).
//! - [`to_be_started_is_ready`]: a waiting job waits for the service alone only if it is not held, its next attempt is due, its queue is not
//!   stopped, and no job of the queue is processing.
//!
//! # Errors
//!
//! The only error is out of memory.
//!
//! # Cost
//!
//! A reply reads the queue's lane, and examines at most 1,000 entries of its index.
#![tactic(auto)]

mod cause;
mod laws;
mod reply;

pub use cause::{Cause, ServiceFacts, cause_of};
pub use laws::to_be_started_is_ready;
pub use reply::why_text;
