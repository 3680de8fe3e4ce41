//! The jobs that Get-Jobs selects.
ghost use Rattle.std.specs.Prelude.{◌≡◌};
ghost use Rattle.ipp_requests.specs.IppActions.{which_jobs_in, which_jobs_of};

use crate::attributes::text_at;
use crate::syntax::Syntax;
use ipp_names::Status;
use ipp_values::Attribute;

/// The states of the jobs that Get-Jobs selects (RFC 8011 4.2.6.1, PWG 5100.11).
#[derive(Clone, Copy)]
pub enum WhichJobs {
    Aborted,
    All,
    Canceled,
    Completed,
    NotCompleted,
    Pending,
    PendingHeld,
    Processing,
    ProcessingStopped,
}

/// Returns the value of `which-jobs`, or `not-completed` without it.
pub fn which_jobs_of(attributes: &[Attribute]) -> Result<WhichJobs, Status>
    ensures { result ≡ which_jobs_of attributes.now }
{
    let Some(keyword) = text_at(Syntax::Keyword, "which-jobs", attributes)? else {
        return Ok(WhichJobs::NotCompleted);
    };
    match which_jobs_in(keyword.as_str()) {
        Some(which) => Ok(which),
        None => Err(Status::AttributesOrValuesNotSupported),
    }
}

fn which_jobs_in(keyword: &str) -> Option<WhichJobs>
    ensures { result ≡ which_jobs_in keyword.now }
{
    match keyword {
        "aborted" => Some(WhichJobs::Aborted),
        "all" => Some(WhichJobs::All),
        "canceled" => Some(WhichJobs::Canceled),
        "completed" => Some(WhichJobs::Completed),
        "not-completed" => Some(WhichJobs::NotCompleted),
        "pending" => Some(WhichJobs::Pending),
        "pending-held" => Some(WhichJobs::PendingHeld),
        "processing" => Some(WhichJobs::Processing),
        "processing-stopped" => Some(WhichJobs::ProcessingStopped),
        _ => None,
    }
}
