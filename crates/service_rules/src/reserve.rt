//! The reserve of the journal: room that no new job and no document may use, so that events which free room always find some.
ghost use Rattle.std.specs.Prelude.{◌≡◌, ℕ, ◌+◌, ◌-◌, ◌*◌, ◌≤◌, true, List, length};
ghost use Rattle.service_rules.specs.Removals.{AreRemovable, AreShort, Filled, IsFilled, KeepsReserve, Removal, checkpointed, freeing_cost, journal_of, removed_all, rows_of, with_other, with_taken};
ghost use Rattle.service_rules.specs.Reserve.{close_cost, create_cost, document_in, document_room, is_let_in, kept_room, reserve_of, row_growth, send_cost, sends_cost};

use crate::bounds::{
    LEAST_RESERVE, LONGEST_DOCUMENT, LONGEST_SEND, LONGEST_TEXTS, MOST_CLOSE, RECORD_COST,
    ROW_GROWTH,
};

/// The state of the journal: the size of its area, how many bytes of it are free, and how many jobs the table has.
#[derive(Clone, Copy)]
pub struct Journal {
    pub area: u64,
    pub free: u64,
    pub jobs: u64,
}

/// The reserve of an area: a hundredth of it, at least 64 KiB, and at most a quarter of the area.
pub fn reserve_of(area: u64) -> u64
    ensures value { result ≡ reserve_of area }
    ensures quarter { 4 * result ≤ area }
{
    (area / 100).max(LEAST_RESERVE).min(area / 4)
}

// The bytes that stay free: the reserve, and the bytes by which a checkpoint may be longer than the records.
fn kept_room(journal: Journal) -> u128
    ensures { result ≡ kept_room journal }
{
    u128::from(reserve_of(journal.area)) + u128::from(journal.jobs) * u128::from(ROW_GROWTH)
}

/// Whether an event that takes room, and needs at most `cost` bytes, is let in: afterwards the reserve is still free.
pub fn is_let_in(journal: Journal, cost: u64) -> bool
    ensures { result ≡ is_let_in journal cost }
{
    u128::from(cost) + kept_room(journal) <= u128::from(journal.free)
}

/// The bytes that an event needs at most which creates a job.
pub fn create_cost() -> u64
    ensures { result ≡ create_cost }
{
    LONGEST_TEXTS + RECORD_COST + ROW_GROWTH
}

/// The bytes that a send of this length needs at most.
pub fn send_cost(bytes: usize) -> u64
    requires { bytes ≤ 65536 }
    ensures { result ≡ send_cost bytes }
{
    bytes as u64 + RECORD_COST
}

/// The bytes that an event needs at most which closes a job.
pub fn close_cost() -> u64
    ensures { result ≡ close_cost }
{
    MOST_CLOSE + RECORD_COST
}

/// The length of the longest document that is let in, with the job that it belongs to. Its sends have 65,536 bytes each, except the last.
pub fn document_room(journal: Journal) -> u64
    ensures { result ≡ document_room journal }
{
    let job = create_cost() + close_cost();
    let needed = kept_room(journal) + u128::from(job);
    document_in(u128::from(journal.free).saturating_sub(needed) as u64)
}

// The length of the longest document whose sends need at most this many bytes.
fn document_in(budget: u64) -> u64
    ensures { result ≡ document_in budget }
{
    let piece = LONGEST_SEND + RECORD_COST;
    let rest = (budget % piece).saturating_sub(RECORD_COST);
    (budget / piece * LONGEST_SEND + rest).min(LONGEST_DOCUMENT)
}

/// The sends of the longest document need no more than they may.
pub fn documents_fit()
    ensures { (budget : ℕ) → sends_cost (document_in budget) ≤ budget }
{}

/// Events keep the reserve.
pub fn events_keep_the_reserve()
    // An event that takes room, if it is let in, its record has at most `cost` bytes, and the checkpoint becomes longer by the record and by
    // what a new row needs.
    ensures taken { (f : Filled) (cost bytes added new : ℕ) → IsFilled f → is_let_in (journal_of f) cost ≡ true → bytes + new * row_growth ≤ cost →
        added ≤ bytes + new * row_growth → KeepsReserve (with_taken bytes added new f) }
    // Any other event whose record fits, and a checkpoint.
    ensures other { (f : Filled) (bytes added : ℕ) → KeepsReserve f → f.used + bytes ≤ f.size → KeepsReserve (with_other bytes added f) }
    ensures checkpoint { (f : Filled) → KeepsReserve f → f.live ≤ f.size → KeepsReserve (checkpointed f) }
{}

/// While the reserve is kept, any jobs can be canceled and purged one after the other, with a checkpoint if a record does not fit; and
/// afterwards, with another checkpoint, events are let in that need as much as was freed.
pub fn jobs_can_be_removed()
    ensures removable { (f : Filled) (jobs : List Removal) → KeepsReserve f → f.others + freeing_cost ≤ reserve_of f.size → AreShort jobs → AreRemovable jobs f }
    ensures again { (f : Filled) (jobs : List Removal) (cost : ℕ) → rows_of jobs ≤ f.live →
        cost + reserve_of f.size + (f.jobs - length jobs) * row_growth + f.live ≤ f.size + rows_of jobs → is_let_in (journal_of (checkpointed (removed_all jobs f))) cost ≡ true }
{}
