//! The verdict on a job whose child ended.
//!
//! A job runs in stages: its filters in order, then the backend. Each stage is a child process. When a child has ended,
//! [`verdict`] decides by its exit how the job continues. [`lost_verdict`] decides for an attempt without a recorded
//! end.
//!
//! # The table
//!
//! | Exit | A filter | The backend |
//! |---|---|---|
//! | status 0 | the next stage | completed |
//! | status 1, 8 to 255, a signal, not started, lost | aborted as `filter-failed` | by the queue's error policy |
//! | status 2, 3 | aborted as `filter-failed` | held for authentication, held by the backend |
//! | status 4 | aborted as `filter-failed` | the queue stops |
//! | status 5 | aborted as `filter-failed` | canceled |
//! | status 6, 7 | aborted as `filter-failed` | tried again later, tried again first |
//!
//! The statuses are named as in backend(7), the policies as in ErrorPolicy of cupsd.conf(5). Two rules apply
//! afterwards, in this order:
//!
//! 1. A job that would be tried again is aborted as `retry-limit` if the limit of its queue is not 0 and has been
//!    reached.
//! 2. A job that would wait for any reason is aborted as `retry-limit` if it was started 4,294,967,295 times.
//!
//! # Promises
//!
//! - *ExactChoice* for verdicts: [`verdict`] is exactly `verdict_of`, by the exit, the stage, the policy, the attempts
//!   and the limit. [`lost_verdict`] is exactly the definition of the same name: the policy for an attempt without a
//!   recorded end, with the same two rules.
//!
//! # Errors
//!
//! None. Neither function takes an allocator.
#![tactic(auto)]

mod exits;
mod verdicts;

pub use exits::{lost_verdict, verdict};
pub use verdicts::Verdict;
