//! Slots, and operations on a list of them.
ghost use Rattle.std.specs.Prelude.{◌≡◌, ◌+◌, ◌≤◌, length, map, IsSome, Some, IsTrue, IfOk, IfErr, is_some, option_copied, vec_len, vec_capacity};
ghost use Rattle.std.specs.Borrow.{Lends, sem};
ghost use Rattle.std.specs.FinMap as finite;
ghost use Rattle.std.specs.Ordering.{nat_cmp};
ghost use Rattle.job_rows.specs.RowPositions.{IsPosition, IsGap};
ghost use Rattle.job_rows.specs.RowSlots.{IsParted, number_of, row_of, slot_entry, held, numbers, gone_count, EndsHeld};

use spool_types::{JobId, JobRow};
use std::mem;

/// A number with its row, or a number whose row was removed.
#[derive(Drop)]
pub(crate) enum Slot {
    Held(JobId, JobRow),
    Gone(JobId),
}

impl Slot {
    ghost use Rattle.job_rows.specs.contracts.slot.Slot.{the_row};
    ghost use Rattle.spool_types.specs.contracts.rows.JobRow.{the_row as row_type};

    // Returns a slot with the row under its number.
    pub(crate) fn of_row(row: JobRow) -> Slot
        ensures { result ≡ Slot.Held row.job.id row }
    {
        let number = own_number(&row);
        Slot::Held(number, row)
    }

    pub(crate) fn number(&self) -> JobId
        ensures { result ≡ number_of self.now }
    {
        match self {
            Slot::Held(number, _) | Slot::Gone(number) => *number,
        }
    }

    pub(crate) fn row(&self) -> Option<&JobRow>
        ensures { option_copied result ≡ row_of self.now }
    {
        match self {
            Slot::Held(_, row) => Some(row),
            Slot::Gone(_) => None,
        }
    }

    pub(crate) fn row_mut(&mut self) -> &mut JobRow
        requires { IsSome (row_of self.old) }
        ensures* lends { sem 𝓛 (Lends the_row row_type self.entry result (Slot.Held (number_of self.old))) }
        ensures value { row_of self.old ≡ Some result.now }
    {
        match self {
            Slot::Held(_, row) => row,
            Slot::Gone(_) => unreachable!(),
        }
    }

    // Removes the row from the slot, and marks the slot as gone.
    pub(crate) fn take(&mut self) -> JobRow
        requires { IsSome (row_of self.old) }
        ensures row { row_of self.old ≡ Some result }
        ensures gone { self.new ≡ Slot.Gone (number_of self.old) }
    {
        let number = self.number();
        match mem::replace(self, Slot::Gone(number)) {
            Slot::Held(_, row) => row,
            Slot::Gone(_) => unreachable!(),
        }
    }

    fn is_held(&self) -> bool
        ensures { result ≡ is_some (row_of self.now) }
    {
        matches!(self, Slot::Held(..))
    }
}

fn own_number(row: &JobRow) -> JobId
    ensures { result ≡ row.now.job.id }
{
    row.job.id
}

// Returns the position of the slot of this number, or as an error the position at which it would be inserted.
pub(crate) fn position_of(slots: &[Slot], id: JobId) -> Result<usize, usize>
    requires { IsTrue (finite.is_sorted nat_cmp (map slot_entry slots.now)) }
    ensures found { IfOk result (IsPosition nat_cmp number_of slots.now id) }
    ensures absent { IfErr result (IsGap nat_cmp number_of slots.now id) }
{
    slots.binary_search_by_key(&id, |slot| slot.number())
}

// Returns the number of slots whose number is at most this one.
pub(crate) fn count_up_to(slots: &[Slot], number: u32) -> usize
    requires { IsTrue (finite.is_sorted nat_cmp (map slot_entry slots.now)) }
    ensures { IsParted slots.now number result }
{
    slots.partition_point(|slot| slot.number().get() <= number)
}

// Deletes the gone slots at the end. Deletes all gone slots if more than half are gone. Returns the number of gone
// slots that are left.
pub(crate) fn let_go(slots: &mut Vec<Slot>, gone: usize) -> usize
    requires order { IsTrue (finite.is_sorted nat_cmp (map slot_entry slots.old.items)) }
    requires count { gone ≡ gone_count slots.old.items }
    ensures rows { held slots.new.items ≡ held slots.old.items }
    ensures numbers { numbers slots.new.items ≡ numbers slots.old.items }
    ensures order { IsTrue (finite.is_sorted nat_cmp (map slot_entry slots.new.items)) }
    ensures last { EndsHeld slots.new.items }
    ensures count { result ≡ gone_count slots.new.items }
    ensures half { result + result ≤ length slots.new.items }
    ensures len { vec_len slots.new ≤ vec_len slots.old }
    ensures capacity { vec_capacity slots.new ≡ vec_capacity slots.old }
{
    let left = gone - trim(slots);
    if left <= slots.len() - left {
        return left;
    }
    sweep(slots);
    0
}

// Deletes the gone slots at the end, and returns their number.
fn trim(slots: &mut Vec<Slot>) -> usize
    requires { IsTrue (finite.is_sorted nat_cmp (map slot_entry slots.old.items)) }
    ensures rows { held slots.new.items ≡ held slots.old.items }
    ensures numbers { numbers slots.new.items ≡ numbers slots.old.items }
    ensures order { IsTrue (finite.is_sorted nat_cmp (map slot_entry slots.new.items)) }
    ensures count { gone_count slots.new.items + result ≡ gone_count slots.old.items }
    ensures last { EndsHeld slots.new.items }
    ensures len { vec_len slots.new + result ≡ vec_len slots.old }
    ensures capacity { vec_capacity slots.new ≡ vec_capacity slots.old }
{
    let before = slots.len();
    while let Some(Slot::Gone(_)) = slots.last() {
        slots.pop();
    }
    before - slots.len()
}

// Deletes all gone slots in one pass.
fn sweep(slots: &mut Vec<Slot>)
    requires { IsTrue (finite.is_sorted nat_cmp (map slot_entry slots.old.items)) }
    ensures rows { held slots.new.items ≡ held slots.old.items }
    ensures numbers { numbers slots.new.items ≡ numbers slots.old.items }
    ensures order { IsTrue (finite.is_sorted nat_cmp (map slot_entry slots.new.items)) }
    ensures none { gone_count slots.new.items ≡ 0 }
    ensures last { EndsHeld slots.new.items }
    ensures len { vec_len slots.new ≤ vec_len slots.old }
    ensures capacity { vec_capacity slots.new ≡ vec_capacity slots.old }
{
    slots.retain(|slot| slot.is_held());
}
