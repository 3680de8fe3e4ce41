//! The list of rows.
ghost use Rattle.std.specs.Prelude.{◌≡◌, ◌↔◌, ℕ, ◌+◌, ◌-◌, ◌^◌, ◌<◌, ◌≤◌, ◌++◌, ◌∷◌, [], length, nat_eq, All, Some, IsSome, IsOk, OnOk, OnErr, IfSome, IfNone, option_copied, slice_get};
ghost use Rattle.std.specs.Borrow.{sem};
ghost use Rattle.std.specs.List.Sorted.{IsStrictlyIncreasing};
ghost use Rattle.job_rows.specs.Lent.{LendsRow};
ghost use Rattle.job_rows.specs.RowSlots.{first_number};
ghost use Rattle.job_rows.specs.NumberedRows.{first_above, without_row, HasNumber, HasRow, LacksNumber};

use crate::iter::Iter;
use crate::slot::{Slot, count_up_to, let_go, position_of};
use spool_types::{JobId, JobRow};
use std::alloc::{AllocError, Global};
use std::marker::Model;

#[derive(Drop)]
pub struct Rows {
    // In ascending order of number, without duplicates. The last slot is not gone.
    slots: Vec<Slot>,
    // The number of gone slots: at most half of all slots.
    gone: usize,
}

impl Model for Rows {
    ghost use Rattle.job_rows.specs.NumberedRows.{Listed};

    ghost Value = { Listed };

    ghost use Rattle.job_rows.specs.RowFields.{listed, IsKept};

    ghost view = { listed };

    ghost invariant = { IsKept };
}

impl Rows {
    /// Returns a list without rows. Does not allocate.
    pub fn new(alloc: Global) -> Rows
        ensures numbers { result.numbers ≡ [] }
        ensures items { result.items ≡ [] }
        ensures room { result.room ≡ 0 }
    {
        Rows {
            slots: Vec::new(alloc),
            gone: 0,
        }
    }

    /// Returns the number of rows.
    pub fn len(&self) -> usize
        ensures numbers { result ≡ length self.now.numbers }
        ensures items { result ≡ length self.now.items }
        ensures ascending { IsStrictlyIncreasing self.now.numbers }
    {
        self.slots.len() - self.gone
    }

    /// Returns whether the list is empty.
    pub fn is_empty(&self) -> bool
        ensures { result ≡ nat_eq (length self.now.numbers) 0 }
    {
        self.len() == 0
    }

    /// Reserves room for one more row. A list that grows at least doubles. An error changes nothing.
    pub fn reserve(&mut self) -> Result<(), AllocError>
        ensures room { OnOk result (0 < self.new.room) }
        ensures kept { self.old.room ≤ self.new.room }
        ensures rows { self.new ≡ record self.old { room = self.new.room } }
        ensures same { OnErr result (self.new ≡ self.old) }

        // Allocates only if room is missing.
        ensures ready { 0 < self.old.room → IsOk result }
    {
        self.slots.reserve(1)
    }

    /// Appends a row under its number. Does not allocate.
    pub fn push(&mut self, row: JobRow)
        requires room { 0 < self.old.room }
        requires above { All (λ n. n < row.job.id) self.old.numbers }
        ensures numbers { self.new.numbers ≡ self.old.numbers ++ row.job.id ∷ [] }
        ensures items { self.new.items ≡ self.old.items ++ row ∷ [] }
        ensures room { self.new.room + 1 ≡ self.old.room }
    {
        self.slots.push_reserved(Slot::of_row(row));
    }

    /// Finds the row under this number by binary search.
    pub fn get(&self, id: JobId) -> Option<&JobRow>
        ensures there { IsSome result ↔ HasNumber self.now.numbers id }
        ensures found { IfSome result (λ row. HasRow self.now id row.now) }
        ensures absent { IfNone result (LacksNumber self.now.numbers id) }
    {
        match position_of(&self.slots, id) {
            Ok(at) => self.slots[at].row(),
            Err(_) => None,
        }
    }

    /// Returns the row under an existing number for a change. The caller must not change the number in the row, so that
    /// the row stays under its own number.
    pub fn row_mut(&mut self, id: JobId) -> &mut JobRow
        requires { HasNumber self.old.numbers id }
        ensures* lends { sem 𝓛 (LendsRow self.entry id result) }
        ensures found { HasRow self.old id result.now }
    {
        let Ok(at) = position_of(&self.slots, id) else {
            unreachable!()
        };
        self.slots[at].row_mut()
    }

    /// Removes and returns the row under an existing number. No other row moves, except in the pass that follows when
    /// more than half of the slots are gone. Does not allocate.
    pub fn remove(&mut self, id: JobId) -> JobRow
        requires { HasNumber self.old.numbers id }
        ensures found { HasRow self.old id result }
        ensures rows { self.new ≡ record (without_row self.old id) { room = self.new.room } }
        ensures room { self.old.room ≤ self.new.room }
    {
        let Ok(at) = position_of(&self.slots, id) else {
            unreachable!()
        };
        let row = self.slots[at].take();
        self.gone = let_go(&mut self.slots, self.gone + 1);
        row
    }

    /// Returns the row of the greatest number.
    pub fn last(&self) -> Option<&JobRow>
        ensures { option_copied result ≡ slice_get self.now.items (length self.now.items - 1) }
    {
        self.slots.last()?.row()
    }

    /// Returns the least number.
    pub fn first(&self) -> Option<JobId>
        ensures { result ≡ slice_get self.now.numbers 0 }
    {
        first_number(&self.slots)
    }

    /// Returns the rows, in ascending order of number.
    pub fn iter(&self) -> Iter<'_>
        ensures rows { result ≡ self.now.items }
        ensures fits { length result < 2 ^ 64 }
    {
        Iter {
            slots: self.slots.as_slice(),
        }
    }

    /// Returns the least number above this one. A caller can use it to visit all rows while it changes them.
    pub fn next_above(&self, number: u32) -> Option<JobId>
        ensures value { result ≡ first_above number self.now.numbers }

        // For an existing number the result is the next number.
        ensures behind { (at : ℕ) → slice_get self.now.numbers at ≡ Some number → result ≡ slice_get self.now.numbers (at + 1) }
        ensures above { IfSome result (λ id. number < id) }
        ensures there { IfSome result (HasNumber self.now.numbers) }
    {
        let from = count_up_to(&self.slots, number);
        first_number(&self.slots[from..])
    }
}

// Returns the number of the first slot with a row.
fn first_number(slots: &[Slot]) -> Option<JobId>
    ensures { result ≡ first_number slots.now }
{
    let mut left = slots;
    while let Some((slot, rest)) = left.split_first() {
        if let Slot::Held(number, _) = slot {
            return Some(*number);
        }
        left = rest;
    }
    None
}
