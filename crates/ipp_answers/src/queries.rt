//! The jobs that a request Get-Jobs asks for.
ghost use Rattle.std.specs.Prelude.{◌≡◌, drop, filter, map, IfOk};
ghost use Rattle.std.specs.Option.{option_copied, option_map};
ghost use Rattle.ipp_answers.specs.JobQueries.{is_asked, is_from, is_of_queue, is_of_user, limited, page_of, selected, skipped_by};

use crate::facts::JobFacts;
use crate::which_jobs::WhichJobs;
use spool_types::UserName;
use std::alloc::{AllocError, Global};

/// The jobs that a request Get-Jobs asks for (RFC 8011, 4.2.6.1). Without an attribute there is no such condition.
#[derive(Clone, Copy)]
pub struct JobQuery<'a> {
    /// The queue, if the target is a printer.
    pub queue: Option<&'a str>,
    /// `which-jobs`; without it, `not-completed`.
    pub which: WhichJobs,
    /// The user who asks, with `my-jobs`.
    pub user: Option<&'a str>,
    /// `first-job-id` of CUPS: the least number of a job.
    pub first_id: Option<u32>,
    /// `first-index` (PWG 5100.13): the place of the first job of the answer among the jobs that match, from 1.
    pub first_index: Option<u32>,
    /// The greatest number of jobs in the answer.
    pub limit: Option<u32>,
}

/// Returns the jobs that are asked for, in the order of the given ones: those that match, from the first index on, up to the limit.
#[tactic(auto, using(crate::proofs::PagedJobs::paged))]
pub fn select_jobs<'a>(
    alloc: Global,
    query: JobQuery<'_>,
    jobs: &[&'a JobFacts],
) -> Result<Vec<&'a JobFacts>, AllocError>
    ensures { IfOk result (λ found. map (λ job. job.now) found.items ≡ selected query.entry (map (λ job. job.now) jobs.now)) }
{
    let found = matching(alloc, query, jobs)?;
    let page = Vec::from_slice(alloc, page_of(query, found.as_slice()));
    drop(found);
    page
}

fn matching<'a>(
    alloc: Global,
    query: JobQuery<'_>,
    jobs: &[&'a JobFacts],
) -> Result<Vec<&'a JobFacts>, AllocError>
    ensures { IfOk result (λ found. found.items ≡ filter (λ job. is_asked query.entry job.now) jobs.now) }
{
    let mut found = Vec::new(alloc);
    for job in jobs {
        if is_asked(query, *job) {
            found.push(*job)?;
        }
    }
    Ok(found)
}

fn is_asked(query: JobQuery<'_>, job: &JobFacts) -> bool
    ensures { result ≡ is_asked query.entry job.now }
{
    is_of_queue(query.queue, job.queue.as_str())
        && query.which.takes(job.reason.state())
        && is_of_user(query.user, job.user.as_ref())
        && is_from(query.first_id, job.id.get())
}

fn is_of_queue(wanted: Option<&str>, queue: &str) -> bool
    ensures { result ≡ is_of_queue (option_map (λ queue. queue.now) wanted.entry) queue.now }
{
    match wanted {
        Some(wanted) => wanted == queue,
        None => true,
    }
}

fn is_of_user(wanted: Option<&str>, user: Option<&UserName>) -> bool
    ensures { result ≡ is_of_user (option_map (λ user. user.now) wanted.entry) (option_copied user.entry) }
{
    match (wanted, user) {
        (None, _) => true,
        (Some(_), None) => false,
        (Some(wanted), Some(user)) => wanted == user.as_str(),
    }
}

fn is_from(first: Option<u32>, id: u32) -> bool
    ensures { result ≡ is_from first id }
{
    match first {
        Some(first) => first <= id,
        None => true,
    }
}

// Returns the jobs from the first index on, up to the limit.
fn page_of<'a, 'b>(query: JobQuery<'_>, jobs: &'b [&'a JobFacts]) -> &'b [&'a JobFacts]
    ensures { result.now ≡ page_of query.entry jobs.now }
{
    up_to(query.limit, from_index(query.first_index, jobs))
}

fn from_index<'a, 'b>(first: Option<u32>, jobs: &'b [&'a JobFacts]) -> &'b [&'a JobFacts]
    ensures { result.now ≡ drop (skipped_by first) jobs.now }
{
    let skipped = match first {
        Some(index) if 0 < index => index as usize - 1,
        _ => 0,
    };
    if skipped < jobs.len() {
        &jobs[skipped..]
    } else {
        &[]
    }
}

fn up_to<'a, 'b>(limit: Option<u32>, jobs: &'b [&'a JobFacts]) -> &'b [&'a JobFacts]
    ensures { result.now ≡ limited limit jobs.now }
{
    match limit {
        Some(limit) if (limit as usize) < jobs.len() => &jobs[..limit as usize],
        _ => jobs,
    }
}
