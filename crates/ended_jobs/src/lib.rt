//! What the end of a job permits: to purge it, and to answer the clients that wait for it.
//!
//! # Promises
//!
//! - [`is_purgeable`]: a job may be purged exactly if it has ended and no child of it runs. A queue whose job is purged looks free, and
//!   would start the next job next to that child.
//! - [`has_settled`]: a wait for the end of a job is over exactly if the job has ended or does not exist.
//!
//! # Errors
//!
//! No call fails or allocates.
#![tactic(auto)]

ghost use Rattle.std.specs.Prelude.{◌≡◌};
ghost use Rattle.ended_jobs.specs.EndedJobs.{has_settled, is_purgeable};

/// Returns whether a job may be purged, given whether it has ended and whether its child runs.
pub fn is_purgeable(ended: bool, runs: bool) -> bool
    ensures { result ≡ is_purgeable ended runs }
{
    ended && !runs
}

/// Returns whether a wait for the end of a job is over, given whether the job has ended, or `None` if it does not exist.
pub fn has_settled(ended: Option<bool>) -> bool
    ensures { result ≡ has_settled ended }
{
    match ended {
        Some(ended) => ended,
        None => true,
    }
}
