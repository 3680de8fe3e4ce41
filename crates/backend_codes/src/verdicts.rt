//! The verdict on a job whose child ended.
use spool_types::{AbortReason, HoldReason};

/// The verdict on a job whose child ended.
#[derive(Clone, Copy, PartialEq, Eq)]
pub enum Verdict {
    /// The next stage of the job will run.
    NextStage,
    Completed,
    Aborted(AbortReason),
    Canceled,
    /// The job waits until it is released.
    Held(HoldReason),
    /// The queue stops, and the job waits.
    StopQueue,
    /// The job waits for the queue's interval.
    RetryAt,
    /// The job waits, and comes before all others.
    RetryFirst,
}
