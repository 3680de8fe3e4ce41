//! Why a queue may not be edited.
ghost use Rattle.std.specs.Prelude.{◌≡◌, ◌&&◌, not};
ghost use Rattle.std.specs.FinMap as finite;
ghost use Rattle.std.specs.List.{list_any};
ghost use Rattle.spool_types.specs.Busy.{is_of};
ghost use Rattle.spool_types.specs.Phases.{has_ended};
ghost use Rattle.queue_edits.specs.EditRefusals.{change_refusal, changes_media, has_job, has_unended, is_unended_of, removal_refusal};

use crate::change::QueueChange;
use job_table::Table;
use spool_types::{Job, QueueName, QueueRow};

/// Why a queue may not be edited.
#[derive(Clone, Copy, Debug, PartialEq, Eq)]
pub enum EditRefusal {
    /// The table has no such queue.
    NoQueue,
    /// A job of the queue has not ended.
    Unended,
    /// A job of the queue has ended and would be removed.
    Ended,
}

/// Returns why the queue may not be changed, if it may not.
pub fn refusal_of_change(
    table: &Table,
    name: &QueueName,
    change: &QueueChange,
) -> Option<EditRefusal>
    ensures { result ≡ change_refusal name.now change.now table.now.state }
{
    let Some(row) = table.queue(name) else {
        return Some(EditRefusal::NoQueue);
    };
    if changes_media(change, row) && has_unended(table, name) {
        Some(EditRefusal::Unended)
    } else {
        None
    }
}

/// Returns why the queue may not be removed, if it may not. `purge` is whether its ended jobs may be removed.
pub fn refusal_of_removal(table: &Table, name: &QueueName, purge: bool) -> Option<EditRefusal>
    ensures { result ≡ removal_refusal name.now purge table.now.state }
{
    if table.queue(name).is_none() {
        Some(EditRefusal::NoQueue)
    } else if has_unended(table, name) {
        Some(EditRefusal::Unended)
    } else if !purge && has_job(table, name) {
        Some(EditRefusal::Ended)
    } else {
        None
    }
}

// Returns whether the row gets another media type.
fn changes_media(change: &QueueChange, row: &QueueRow) -> bool
    ensures { result ≡ changes_media change.now row.now }
{
    match &change.media {
        Some(media) => *media != row.target,
        None => false,
    }
}

// Returns whether a job of the queue has not ended.
fn has_unended(table: &Table, name: &QueueName) -> bool
    ensures { result ≡ has_unended name.now table.now.state }
{
    let jobs = table.jobs();
    jobs.iter().any(|row| is_unended_of(&row.job, name))
}

// Returns whether the queue has a job.
fn has_job(table: &Table, name: &QueueName) -> bool
    ensures { result ≡ has_job name.now table.now.state }
{
    let jobs = table.jobs();
    jobs.iter().any(|row| is_of(&row.job, name))
}

fn is_unended_of(job: &Job, name: &QueueName) -> bool
    ensures { result ≡ is_unended_of name.now job.now }
{
    is_of(job, name) && !job.phase.has_ended()
}

fn is_of(job: &Job, name: &QueueName) -> bool
    ensures { result ≡ is_of name.now job.now }
{
    job.queue == *name
}
