//! A block of memory into which rows are encoded.
ghost use Rattle.std.specs.Prelude.{◌≡◌, ◌<◌, ◌≤◌, ◌+◌, ◌^◌, ◌++◌, length, replicate, vec_len, vec_capacity};
ghost use Rattle.spool_types.specs.declared.listing.Row.{Row as RowOf};
ghost use Rattle.spool_types.specs.declared.version.Version.TheVariants.{Two};
ghost use Rattle.spool_types.specs.Limits.{longest_send};
ghost use Rattle.spool_areas.specs.AreaFilling.{block_len};
ghost use Rattle.event_codec.specs.RowSpelling.{IsLegalJob, IsLegalRow, IsOrderedQueue, IsRowSpellable};
ghost use Rattle.listing_rows.specs.RowFilling.{block_room, free_head, IsPut};

use event_codec::{encode_job_onto, encode_queue_onto, encode_row_onto};
use spool_types::{Head, Job, JobId, QueueRow, Row};

/// Size of a block in bytes: the 65,536 that are written at once, a record's head, and the longest encoded row.
pub const BLOCK_ROOM: usize = 65_536 + 5 + (1 << 19);

/// Number of bytes of a piece's record before those of the document.
pub const PIECE_HEAD: usize = 14;

// The byte of an encoded piece that identifies its kind.
const PIECE: u8 = 0x43;

/// Encodes a row into a block, after five free bytes. Returns the index of the first free byte.
pub fn put_row(block: &mut Vec<u8>, row: &Row) -> usize
    requires few { length block.old.items < block_len }
    requires spare { block_room ≤ vec_capacity block.old }
    ensures put { IsPut row.now block.old block.new result }
    ensures spellable { IsLegalRow row.now → IsRowSpellable Two row.now }
{
    let start = begin_record(block);
    match encode_row_onto(row, block) {
        Ok(()) => {}
        Err(_) => unreachable!(),
    }
    start
}

/// Does the same for the head of a listing.
pub fn put_head(block: &mut Vec<u8>, head: Head) -> usize
    requires few { length block.old.items < block_len }
    requires spare { block_room ≤ vec_capacity block.old }
    ensures put { IsPut (RowOf.Head head) block.old block.new result }
    ensures spellable { IsLegalRow (RowOf.Head head) → IsRowSpellable Two (RowOf.Head head) }
{
    let row = Row::Head(head);
    let start = put_row(block, &row);
    drop(row);
    start
}

/// Does the same for a queue.
pub fn put_queue(block: &mut Vec<u8>, queue: &QueueRow) -> usize
    requires few { length block.old.items < block_len }
    requires spare { block_room ≤ vec_capacity block.old }
    ensures put { IsPut (RowOf.Queue queue.now) block.old block.new result }
    ensures spellable { IsOrderedQueue queue.now → IsRowSpellable Two (RowOf.Queue queue.now) }
{
    let start = begin_record(block);
    match encode_queue_onto(queue, block) {
        Ok(()) => {}
        Err(_) => unreachable!(),
    }
    start
}

/// Does the same for a job, without its document.
pub fn put_job(block: &mut Vec<u8>, job: &Job) -> usize
    requires few { length block.old.items < block_len }
    requires spare { block_room ≤ vec_capacity block.old }
    ensures put { IsPut (RowOf.Job job.now) block.old block.new result }
    ensures spellable { IsLegalJob job.now → IsRowSpellable Two (RowOf.Job job.now) }
    ensures few { length job.now.filters ≤ 15 }
{
    // There are at most 15, so a row can represent the stage.
    let _filters = job.filters.as_slice();
    let start = begin_record(block);
    match encode_job_onto(job, block) {
        Ok(()) => {}
        Err(_) => unreachable!(),
    }
    start
}

/// Does the same for a piece of a document with `count` bytes, and writes zeros in their place.
pub fn put_piece(block: &mut Vec<u8>, job: JobId, count: usize) -> usize
    requires few { length block.old.items < block_len }
    requires spare { block_room ≤ vec_capacity block.old }
    requires some { 0 < count }
    requires short { count ≤ longest_send }
    ensures put { IsPut (RowOf.Piece job (replicate count 0)) block.old block.new result }
    ensures spellable { IsRowSpellable Two (RowOf.Piece job (replicate count 0)) }
{
    let start = begin_record(block);
    let number = job.get().to_be_bytes();
    let len = (count as u32).to_be_bytes();
    put(
        block,
        &[
            PIECE, number[0], number[1], number[2], number[3], len[0], len[1], len[2], len[3],
        ],
    );
    put_zeros(block, count);
    start
}

// Adds the free bytes of a record's head. Returns the index of the first one.
fn begin_record(block: &mut Vec<u8>) -> usize
    requires room { vec_len block.old + 5 ≤ vec_capacity block.old }
    ensures start { result ≡ length block.old.items }
    ensures items { block.new.items ≡ block.old.items ++ free_head }
    ensures len { vec_len block.new ≡ vec_len block.old + 5 }
    ensures spare { vec_capacity block.old ≤ vec_capacity block.new }
{
    let start = block.len();
    put(block, &[0; 5]);
    start
}

// Adds bytes. The block must have room for them.
fn put(block: &mut Vec<u8>, bytes: &[u8])
    requires room { vec_len block.old + length bytes.now ≤ vec_capacity block.old }
    ensures items { block.new.items ≡ block.old.items ++ bytes.now }
    ensures len { vec_len block.new ≡ vec_len block.old + length bytes.now }
    ensures spare { vec_capacity block.old ≤ vec_capacity block.new }
{
    match block.extend_from_slice(bytes) {
        Ok(()) => {}
        Err(_) => unreachable!(),
    }
}

// Adds `count` zeros. The block must have room for them.
fn put_zeros(block: &mut Vec<u8>, count: usize)
    requires room { vec_len block.old + count ≤ vec_capacity block.old }
    ensures items { block.new.items ≡ block.old.items ++ replicate count 0 }
    ensures spare { vec_capacity block.old ≤ vec_capacity block.new }
{
    match block.resize(block.len() + count, 0) {
        Ok(()) => {}
        Err(_) => unreachable!(),
    }
}
