//! The total length of the records of a listing, in bytes.
ghost use Rattle.std.specs.Prelude.{◌≡◌, ◌≤◌, ◌+◌, ◌++◌, ◌/◌, ℕ, List, length, map, min, IfOk, OnOk, vec_capacity};
ghost use Rattle.spool_types.specs.declared.listing.Row.{Row as RowOf};
ghost use Rattle.spool_types.specs.declared.version.Version.TheVariants.{Two};
ghost use Rattle.spool_types.specs.Limits.{longest_send};
ghost use Rattle.spool_types.specs.State.{job_of};
ghost use Rattle.gate_journal.specs.Entries.{records};
ghost use Rattle.std.specs.List.{flat_map};
ghost use Rattle.spool_areas.specs.AreaFilling.{sum_of};
ghost use Rattle.event_codec.specs.RowSpelling.{row_spelling};
ghost use Rattle.spool_core.specs.Checkpointing.{blank, blank_rows, listed_payloads};
ghost use Rattle.spool_core.specs.Measuring.{IsSumMore};

use event_codec::{encode_job_onto, encode_queue_onto};
use job_rows::Rows;
use job_table::{Table, document_len};
use listing_rows::PIECE_HEAD;
use spool_types::{Job, LONGEST_SEND, QueueRow};
use std::alloc::AllocError;

// Length of a record's head, in bytes.
const RECORD_HEAD: u64 = 5;

// Length of the record of a listing's head, in bytes.
const HEAD_RECORD: u64 = 18;

/// Returns the total length in bytes of the records of a table's listing, or the greatest `u64` if they are longer. Each row is
/// encoded into the block, over the previous one.
pub(super) fn listing_len(table: &Table, block: &mut Vec<u8>) -> Result<u64, AllocError>
    ensures sum { IfOk result (λ sum. sum ≡ sum_of (listed_payloads table.now.state (blank table.now.state))) }
    ensures spare { vec_capacity block.old ≤ vec_capacity block.new }
{
    let sum = queues_len(HEAD_RECORD, table.queues(), block)?;
    jobs_len(sum, table.jobs(), block)
}

// Returns the sum with the records of queues added.
fn queues_len(before: u64, queues: &[QueueRow], block: &mut Vec<u8>) -> Result<u64, AllocError>
    ensures sum { IfOk result (λ sum. IsSumMore (map (λ q. RowOf.Queue q) queues.now) before sum) }
    ensures spare { vec_capacity block.old ≤ vec_capacity block.new }
{
    let mut sum = before;
    for queue in queues {
        block.clear();
        encode_queue_onto(queue, block)?;
        sum = with_record(sum, block.len());
    }
    Ok(sum)
}

// Returns the sum with the records of jobs and of the pieces of their documents added.
fn jobs_len(before: u64, jobs: &Rows, block: &mut Vec<u8>) -> Result<u64, AllocError>
    ensures sum { IfOk result (λ sum. IsSumMore (flat_map blank_rows (map job_of jobs.now.items)) before sum) }
    ensures spare { vec_capacity block.old ≤ vec_capacity block.new }
{
    let mut sum = before;
    for row in jobs.iter() {
        sum = job_len(sum, &row.job, block)?;
    }
    Ok(sum)
}

// Returns the sum with the records of a job and of the pieces of its document added.
fn job_len(before: u64, job: &Job, block: &mut Vec<u8>) -> Result<u64, AllocError>
    ensures sum { IfOk result (λ sum. IsSumMore (blank_rows job.now) before sum) }
    ensures spare { vec_capacity block.old ≤ vec_capacity block.new }
{
    block.clear();
    encode_job_onto(job, block)?;
    let sum = with_record(before, block.len());
    let len = document_len(job);
    let heads = (piece_count(len) as u64).saturating_mul(PIECE_HEAD as u64);
    Ok(sum.saturating_add(len as u64).saturating_add(heads))
}

// Returns the number of pieces of a document of `len` bytes.
fn piece_count(len: usize) -> usize
    ensures { result ≡ (len + 65535) / longest_send }
{
    len.div_ceil(LONGEST_SEND)
}

// Returns the sum with the record of an encoded row of `len` bytes added.
fn with_record(sum: u64, len: usize) -> u64
    ensures { result ≡ min (sum + (5 + len)) 18446744073709551615 }
{
    sum.saturating_add(RECORD_HEAD).saturating_add(len as u64)
}
