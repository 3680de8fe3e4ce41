//! Comparing a table with a half of another.
ghost use Rattle.std.specs.Prelude.{◌≡◌, IfOk, IsSome, IsTrue, Some};
ghost use Rattle.spool_types.specs.State.{queue_at};
ghost use Rattle.event_codec.specs.RowSpelling.{IsOrderedQueue};
ghost use Rattle.queue_edits.specs.QueueEdits.{with_row};
ghost use Rattle.spool_halves.specs.Halves.{IsHalf};

use job_table::{Table, listings_are_loaded};
use split_rows::{Half, are_jobs, are_queues, are_queues_with};
use spool_types::{QueueRow, Version};
use std::alloc::{AllocError, Global};

/// Returns whether the part is that half of the whole table.
pub(crate) fn is_half(
    alloc: Global,
    whole: &Table,
    part: &Table,
    half: Half<'_>,
) -> Result<bool, AllocError>
    ensures { IfOk result (λ is. IsTrue is → IsHalf half.entry.named half.entry.names.now whole.now.state part.now.state) }
{
    listings_are_loaded();
    let highest = whole.highest();
    let part_highest = part.highest();
    let same_moment = part.now() == whole.now();
    if part.version() != Version::Two || part_highest != highest || !same_moment {
        return Ok(false);
    }
    let queues = whole.queues();
    let part_queues = part.queues();
    let has_queues = are_queues(alloc, queues, part_queues, half)?;
    let jobs = whole.jobs();
    let part_jobs = part.jobs();
    let has_jobs = are_jobs(alloc, jobs, part_jobs, half)?;
    Ok(has_queues && has_jobs)
}

/// Returns whether the other table is the given one with this row in place of the one with its name.
pub(crate) fn is_with_row(
    alloc: Global,
    table: &Table,
    other: &Table,
    row: &QueueRow,
) -> Result<bool, AllocError>
    requires there { IsSome (queue_at table.now.state row.now.name) }
    requires ordered { IsOrderedQueue row.now }
    ensures { IfOk result (λ is. IsTrue is → other.now.state ≡ with_row (Some row.now) table.now.state) }
{
    listings_are_loaded();
    let highest = table.highest();
    let other_highest = other.highest();
    let same_moment = other.now() == table.now();
    if other.version() != Version::Two || other_highest != highest || !same_moment {
        return Ok(false);
    }
    let queues = table.queues();
    let other_queues = other.queues();
    let has_queues = are_queues_with(alloc, queues, other_queues, row)?;
    let jobs = table.jobs();
    let other_jobs = other.jobs();
    let all = Half {
        names: &[],
        named: false,
    };
    let has_jobs = are_jobs(alloc, jobs, other_jobs, all)?;
    Ok(has_queues && has_jobs)
}
