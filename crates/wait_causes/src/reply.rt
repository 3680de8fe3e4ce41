//! The reply to the question why a job does not print.
ghost use Rattle.std.specs.Prelude.{◌≡◌, ◌++◌, IfOk, OnOk, length, map, take};
ghost use Rattle.queue_sched.specs.WaitingIndex.{InOrder};
ghost use Rattle.spool_types.specs.State.{queue_at};
ghost use Rattle.wait_causes.specs.WaitCauses.{IsAheadBy, IsWhy, before, cause_words, why_line};

use crate::cause::{Cause, ServiceFacts, cause_of};
use job_table::Table;
use queue_sched::Index;
use spool_types::{JobId, QueueName};
use std::alloc::{AllocError, Global};
use std::io::Write;

// How many waiting jobs are counted at most.
const MOST_COUNTED: usize = 1_000;

/// The reply about a job of the table: `ok why` and the words of its cause, or `error job` if it does not exist.
pub fn why_text(
    alloc: Global,
    table: &Table,
    job: JobId,
    facts: ServiceFacts,
) -> Result<Vec<u8>, AllocError>
    ensures { IfOk result (λ text. IsWhy facts table.now.state job text.items) }
{
    let Some(row) = table.job(job) else {
        return Vec::from_slice(alloc, b"error job\n");
    };
    let cause = cause_of(table, &row.job, facts);
    let count = ahead(table, &row.job.queue, row.job.id);
    let text = why_line(alloc, cause, count)?;
    Ok(text)
}

// Counts the jobs of the queue that are before this one.
fn ahead(table: &Table, name: &QueueName, job: JobId) -> usize
    ensures { IsAheadBy table.now.state name.now job (queue_at table.now.state name.now) result }
{
    match table.index(name) {
        Some(index) => count_before(index, job),
        None => 0,
    }
}

// Counts the jobs before this one among the first 1,000 of an index.
fn count_before(index: &Index, job: JobId) -> usize
    ensures count { result ≡ length (before job (take 1000 (map (λ e. e.id) index.now.items))) }
    ensures order { InOrder index.now.items }
{
    let mut jobs = index.jobs();
    let mut count = 0;
    for _ in 0..MOST_COUNTED {
        let Some(other) = jobs.next() else {
            return count;
        };
        if other == job {
            return count;
        }
        count += 1;
    }
    count
}

fn why_line(alloc: Global, cause: Cause, count: usize) -> Result<Vec<u8>, AllocError>
    ensures { IfOk result (λ text. text.items ≡ why_line cause count) }
{
    let mut text = Vec::new(alloc);
    text.extend_from_slice(b"ok why ")?;
    push_cause(&mut text, cause, count)?;
    text.extend_from_slice(b"\n")?;
    Ok(text)
}

fn push_cause(text: &mut Vec<u8>, cause: Cause, count: usize) -> Result<(), AllocError>
    ensures { OnOk result (text.new.items ≡ text.old.items ++ cause_words cause count) }
{
    match cause {
        Cause::Ended => text.extend_from_slice(b"ended"),
        Cause::Arriving => text.extend_from_slice(b"arriving"),
        Cause::Abandoned => text.extend_from_slice(b"abandoned"),
        Cause::Held => text.extend_from_slice(b"held"),
        Cause::HeldUntil(moment) => {
            let moment = moment.get();
            write!(text, "held-until {moment}").map_err(|_| AllocError)
        }
        Cause::Retry(moment) => {
            let moment = moment.get();
            write!(text, "retry {moment}").map_err(|_| AllocError)
        }
        Cause::Stopped => text.extend_from_slice(b"stopped"),
        Cause::Taken(job) => {
            let number = job.get();
            write!(text, "taken {number} ahead {count}").map_err(|_| AllocError)
        }
        Cause::Behind(job) => {
            let number = job.get();
            write!(text, "behind {number} ahead {count}").map_err(|_| AllocError)
        }
        Cause::Full => text.extend_from_slice(b"full"),
        Cause::Children => text.extend_from_slice(b"children"),
        Cause::Next => text.extend_from_slice(b"next"),
        Cause::Prints => text.extend_from_slice(b"prints"),
    }
}
