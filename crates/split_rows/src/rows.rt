//! Comparing rows with those of a half. Each row is encoded, and the bytes are compared.
ghost use Rattle.std.specs.Prelude.{◌≡◌, filter, map, IfOk, IsTrue};
ghost use Rattle.std.specs.List.{AllByRecursion};
ghost use Rattle.spool_types.specs.State.{Job as JobOf, job_of};
ghost use Rattle.spool_types.specs.declared.rows.QueueRow.{QueueRow as QueueOf};
ghost use Rattle.spool_types.specs.declared.listing.Row.{Row as RowOf};
ghost use Rattle.spool_types.specs.declared.version.Version.TheVariants.{Two};
ghost use Rattle.event_codec.specs.RowSpelling.{row_spelling, IsOrderedQueue, IsRowSpellable};
ghost use Rattle.split_rows.specs.Half.{takes};
ghost use Rattle.split_rows.specs.Replaced.{replaced};
ghost use Rattle.split_rows.specs.Tellable.{IsTellable, jobs_in};

use crate::half::Half;
use event_codec::{encode_job_onto, encode_queue_onto, one_row};
use job_rows::Rows;
use spool_types::{Job, JobRow, QueueRow};
use std::alloc::{AllocError, Global};

/// Returns whether the part has exactly the queues of the half, in order.
pub fn are_queues(
    alloc: Global,
    whole: &[QueueRow],
    part: &[QueueRow],
    half: Half<'_>,
) -> Result<bool, AllocError>
    requires whole { AllByRecursion IsOrderedQueue whole.now }
    requires part { AllByRecursion IsOrderedQueue part.now }
    ensures { IfOk result (λ are. IsTrue are → part.now ≡ filter (λ (q : QueueOf). takes half.entry.named half.entry.names.now q.name) whole.now) }
{
    let mut at = 0;
    for queue in whole {
        if half.takes(&queue.name) {
            if at == part.len() {
                return Ok(false);
            }
            let other = &part[at];
            if !is_same_queue(alloc, queue, other)? {
                return Ok(false);
            }
            at += 1;
        }
    }
    Ok(at == part.len())
}

/// Returns whether the part has exactly the queues of the whole, in order, with this row in place of the one with its name.
pub fn are_queues_with(
    alloc: Global,
    whole: &[QueueRow],
    part: &[QueueRow],
    row: &QueueRow,
) -> Result<bool, AllocError>
    requires whole { AllByRecursion IsOrderedQueue whole.now }
    requires part { AllByRecursion IsOrderedQueue part.now }
    requires row { IsOrderedQueue row.now }
    ensures { IfOk result (λ are. IsTrue are → part.now ≡ map (replaced row.now) whole.now) }
{
    if whole.len() != part.len() {
        return Ok(false);
    }
    for at in 0..whole.len() {
        let same = is_replaced(alloc, &whole[at], &part[at], row)?;
        if !same {
            return Ok(false);
        }
    }
    Ok(true)
}

// Returns whether the other row is the queue's, or the given one if that has its name.
fn is_replaced(
    alloc: Global,
    queue: &QueueRow,
    other: &QueueRow,
    row: &QueueRow,
) -> Result<bool, AllocError>
    requires queue { IsOrderedQueue queue.now }
    requires other { IsOrderedQueue other.now }
    requires row { IsOrderedQueue row.now }
    ensures { IfOk result (λ same. IsTrue same → other.now ≡ replaced row.now queue.now) }
{
    if queue.name == row.name {
        is_same_queue(alloc, row, other)
    } else {
        is_same_queue(alloc, queue, other)
    }
}

/// Returns whether the part has exactly the jobs of the half, in order. Documents are not compared.
pub fn are_jobs(
    alloc: Global,
    whole: &Rows,
    part: &Rows,
    half: Half<'_>,
) -> Result<bool, AllocError>
    requires whole { AllByRecursion IsTellable (map job_of whole.now.items) }
    requires part { AllByRecursion IsTellable (map job_of part.now.items) }
    ensures { IfOk result (λ are. IsTrue are → map job_of part.now.items ≡ filter (λ (r : JobOf). takes half.entry.named half.entry.names.now r.queue) (map job_of whole.now.items)) }
{
    let whole = borrowed(alloc, whole)?;
    let part = borrowed(alloc, part)?;
    are_jobs_in(alloc, &whole, &part, half)
}

// Returns the rows as a list.
fn borrowed<'a>(alloc: Global, rows: &'a Rows) -> Result<Vec<&'a JobRow>, AllocError>
    ensures { IfOk result (λ list. map (λ row. row.now) list.items ≡ rows.now.items) }
{
    let mut list = Vec::new(alloc);
    for row in rows.iter() {
        list.push(row)?;
    }
    Ok(list)
}

// Does the same for lists of rows.
fn are_jobs_in(
    alloc: Global,
    whole: &[&JobRow],
    part: &[&JobRow],
    half: Half<'_>,
) -> Result<bool, AllocError>
    requires whole { AllByRecursion IsTellable (jobs_in whole.now) }
    requires part { AllByRecursion IsTellable (jobs_in part.now) }
    ensures { IfOk result (λ are. IsTrue are → jobs_in part.now ≡ filter (λ (r : JobOf). takes half.entry.named half.entry.names.now r.queue) (jobs_in whole.now)) }
{
    let mut at = 0;
    for row in whole {
        if half.takes(&row.job.queue) {
            if at == part.len() {
                return Ok(false);
            }
            let other = part[at];
            let same = is_same_job(alloc, &row.job, &other.job)?;
            if !same {
                return Ok(false);
            }
            at += 1;
        }
    }
    Ok(at == part.len())
}

fn is_same_queue(alloc: Global, a: &QueueRow, b: &QueueRow) -> Result<bool, AllocError>
    requires a { IsOrderedQueue a.now }
    requires b { IsOrderedQueue b.now }
    ensures { IfOk result (λ same. IsTrue same → b.now ≡ a.now) }
{
    one_row();
    let queue_a = spelled_queue(alloc, a)?;
    let queue_b = spelled_queue(alloc, b)?;
    Ok(queue_a.as_slice() == queue_b.as_slice())
}

fn is_same_job(alloc: Global, a: &Job, b: &Job) -> Result<bool, AllocError>
    requires a { IsTellable a.now }
    requires b { IsTellable b.now }
    ensures { IfOk result (λ same. IsTrue same → b.now ≡ a.now) }
{
    one_row();
    let job_a = spelled_job(alloc, a)?;
    let job_b = spelled_job(alloc, b)?;
    Ok(job_a.as_slice() == job_b.as_slice())
}

fn spelled_queue(alloc: Global, queue: &QueueRow) -> Result<Vec<u8>, AllocError>
    ensures spelled { IfOk result (λ bytes. bytes.items ≡ row_spelling Two (RowOf.Queue queue.now)) }
    ensures spellable { IfOk result (λ _. IsOrderedQueue queue.now → IsRowSpellable Two (RowOf.Queue queue.now)) }
{
    let mut bytes = Vec::new(alloc);
    encode_queue_onto(queue, &mut bytes)?;
    Ok(bytes)
}

fn spelled_job(alloc: Global, job: &Job) -> Result<Vec<u8>, AllocError>
    ensures spelled { IfOk result (λ bytes. bytes.items ≡ row_spelling Two (RowOf.Job job.now)) }
    ensures spellable { IfOk result (λ _. IsTellable job.now → IsRowSpellable Two (RowOf.Job job.now)) }
{
    // There are at most 15, so a row can represent the stage.
    let _filters = job.filters.as_slice();
    let mut bytes = Vec::new(alloc);
    encode_job_onto(job, &mut bytes)?;
    Ok(bytes)
}
