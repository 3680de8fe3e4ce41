//! Canceling all jobs of queues, and the current jobs of queues.
ghost use Rattle.std.specs.Prelude.{◌≡◌, IfOk, filter_map};
ghost use Rattle.std.specs.List.{list_any};
ghost use Rattle.std.specs.Option.{option_map};
ghost use Rattle.command_lines.specs.CommandGrammar.{is_word};
ghost use Rattle.spool_front.specs.Acts.{active_job, current_job, is_active, is_by, is_cleared, number_of};

use crate::client::Client;
use crate::fault::{Fault, first_failure, unknown_queue};
use crate::services::{Services, all_queues, client_at, has_queue, only_socket, queue_of};
use crate::tasks::act_by;
use front_texts::{JobLine, JobState};
use front_words::{Clear, JobAct, PlainAct, Removal};
use std::alloc::{AllocError, Global};

/// Cancels the jobs of queues that have not ended.
pub fn clear(rt: &HostRuntime, services: Services<'_, '_>, asked: &Clear<'_>) -> Result<u8, Fault> {
    if asked.usual {
        let (_, queue) = queue_of(rt, services, None)?;
        let names = [queue.as_str()];
        return clear_queues(rt, services, &names, asked.user, asked.purge);
    }
    let names = asked.queues.as_slice();
    clear_queues(rt, services, names, asked.user, asked.purge)
}

/// Cancels all jobs of these queues, or of all queues, and of this user, or of all users, that have not ended. With `purge` they are removed
/// too.
pub fn clear_queues(
    rt: &HostRuntime,
    services: Services<'_, '_>,
    names: &[&str],
    user: Option<&str>,
    purge: bool,
) -> Result<u8, Fault> {
    let queues = all_queues(rt, services)?;
    let missing = names.iter().find(|name| !has_queue(&queues, name));
    drop(queues);
    if let Some(name) = missing {
        return Err(unknown_queue(rt.alloc(), name)?);
    }
    let mut status = 0;
    for socket in services.sockets {
        let mut client = client_at(rt, services, socket);
        let ended = clear_by(rt, &mut client, names, user, purge);
        drop(client);
        status = first_failure(status, ended?);
    }
    Ok(status)
}

fn clear_by(
    rt: &HostRuntime,
    client: &mut Client<'_>,
    names: &[&str],
    user: Option<&str>,
    purge: bool,
) -> Result<u8, Fault> {
    let jobs = client.jobs()?;
    let numbers = numbers_of(rt.alloc(), &jobs, names, user);
    drop(jobs);
    stop_all(rt, client, numbers?.as_slice(), purge)
}

// Cancels these jobs, and with `purge` removes them.
fn stop_all(
    rt: &HostRuntime,
    client: &mut Client<'_>,
    numbers: &[u32],
    purge: bool,
) -> Result<u8, Fault> {
    let status = act_by(rt, client, JobAct::Cancel, numbers)?;
    if !purge {
        return Ok(status);
    }
    let purged = act_by(rt, client, JobAct::Plain(PlainAct::Purge), numbers)?;
    Ok(first_failure(status, purged))
}

// Returns the numbers of the jobs of these queues, or of all queues, and of the user that have not ended.
fn numbers_of(
    alloc: Global,
    jobs: &[JobLine],
    names: &[&str],
    user: Option<&str>,
) -> Result<Vec<u32>, AllocError>
    ensures { IfOk result (λ numbers. numbers.items
        ≡ filter_map (number_of names.now (λ name. name.now) (option_map (λ user. user.now) user.entry)) jobs.now) }
{
    let mut numbers = Vec::new(alloc);
    for job in jobs {
        if is_cleared(names, user, job) {
            numbers.push(job.number.get())?;
        }
    }
    Ok(numbers)
}

fn is_cleared(names: &[&str], user: Option<&str>, job: &JobLine) -> bool
    ensures { result ≡ is_cleared names.now (λ name. name.now) (option_map (λ user. user.now) user.entry) job.now }
{
    (names.is_empty() || is_among(names, job.queue.as_str()))
        && is_by(user, job)
        && !job.has_ended()
}

fn is_by(user: Option<&str>, job: &JobLine) -> bool
    ensures { result ≡ is_by (option_map (λ user. user.now) user.entry) job.now }
{
    match user {
        Some(user) => job.user.as_str() == user,
        None => true,
    }
}

fn is_among(names: &[&str], queue: &str) -> bool
    ensures { result ≡ list_any (λ name. is_word name.now queue.now) names.now }
{
    names.iter().any(|name| *name == queue)
}

/// Cancels jobs, and the current job of each queue. With `purge` they are removed too.
pub fn remove_jobs(
    rt: &HostRuntime,
    services: Services<'_, '_>,
    asked: &Removal<'_>,
) -> Result<u8, Fault> {
    let mut client = client_at(rt, services, only_socket(services)?);
    let ended = remove_by(rt, services, &mut client, asked);
    drop(client);
    ended
}

fn remove_by(
    rt: &HostRuntime,
    services: Services<'_, '_>,
    client: &mut Client<'_>,
    asked: &Removal<'_>,
) -> Result<u8, Fault> {
    if asked.jobs.is_empty() && asked.queues.is_empty() {
        let (_, queue) = queue_of(rt, services, None)?;
        let names = [queue.as_str()];
        return stop_current(rt, client, &[], &names, asked.purge);
    }
    let (jobs, names) = (asked.jobs.as_slice(), asked.queues.as_slice());
    if names.is_empty() {
        return stop_all(rt, client, jobs, asked.purge);
    }
    stop_current(rt, client, jobs, names, asked.purge)
}

// Cancels these jobs, and the current job of each of these queues.
fn stop_current(
    rt: &HostRuntime,
    client: &mut Client<'_>,
    numbers: &[u32],
    names: &[&str],
    purge: bool,
) -> Result<u8, Fault> {
    let jobs = client.jobs()?;
    let all = with_current(rt.alloc(), numbers, names, &jobs);
    drop(jobs);
    stop_all(rt, client, all?.as_slice(), purge)
}

// Returns these numbers, and that of the current job of each queue. Fails if a queue has none.
fn with_current(
    alloc: Global,
    numbers: &[u32],
    names: &[&str],
    jobs: &[JobLine],
) -> Result<Vec<u32>, Fault> {
    let mut all = Vec::from_slice(alloc, numbers)?;
    for name in names {
        match current_job(jobs, name) {
            Some(job) => all.push(job)?,
            None => {
                drop(all);
                return Err(Fault::Named(
                    "no job waits or prints in queue",
                    String::from_str(alloc, name)?,
                ));
            }
        }
    }
    Ok(all)
}

// Returns the job of a queue that prints, or else its first job that has not ended.
fn current_job(jobs: &[JobLine], queue: &str) -> Option<u32>
    ensures { result ≡ current_job queue.now jobs.now }
{
    match active_job(jobs, queue, true) {
        Some(job) => Some(job),
        None => active_job(jobs, queue, false),
    }
}

fn active_job(jobs: &[JobLine], queue: &str, printing: bool) -> Option<u32>
    ensures { result ≡ active_job printing queue.now jobs.now }
{
    for job in jobs {
        if is_active(job, queue, printing) {
            return Some(job.number.get());
        }
    }
    None
}

fn is_active(job: &JobLine, queue: &str, printing: bool) -> bool
    ensures { result ≡ is_active printing queue.now job.now }
{
    if job.queue.as_str() != queue {
        return false;
    }
    if printing {
        job.state == JobState::Processing
    } else {
        !job.has_ended()
    }
}
