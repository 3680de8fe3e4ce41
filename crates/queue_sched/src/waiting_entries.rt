ghost use Rattle.std.specs.Prelude.{◌≡◌, ◌<◌, ◌≤◌, true, false, [], length, map, slice_get, OnOk, IfOk, IfSome};
ghost use Rattle.std.specs.Option.{IsNone, option_copied};
ghost use Rattle.std.specs.List.{filter, Contains};
ghost use Rattle.queue_sched.specs.WaitingIndex.{is_startable, InOrder, LacksJob};
ghost use Rattle.queue_sched.specs.Lists.{IsSameUntil};
ghost use Rattle.queue_sched.specs.OrderedEntries.{IsExchange, IsMore};

use crate::entry::Entry;
use crate::jobs::Jobs;
use crate::slots::{
    Slot, due_of, exchange_slot, fill_slots, find, free_slot, let_go, pick_ready, put_slot,
    take_slot,
};
use spool_types::{JobId, Moment};
use std::alloc::{AllocError, Global};
use std::collections::VecDeque;
use std::marker::Model;

/// Entries in order. Removing an entry moves no other.
#[derive(Drop)]
pub(crate) struct WaitingEntries {
    // Includes gone slots. At most half of the slots are gone, and the first one is not.
    slots: VecDeque<Slot>,
    // The number of entries.
    len: usize,
}

impl Model for WaitingEntries {
    ghost use Rattle.queue_sched.specs.OrderedEntries.{OrderedEntries};

    ghost Value = { OrderedEntries };

    ghost use Rattle.queue_sched.specs.WaitingOrder.{turned_of, IsKept};

    ghost view = { turned_of };

    ghost invariant = { IsKept };
}

impl WaitingEntries {
    // Returns a list without entries. Does not allocate.
    pub(crate) fn new(alloc: Global) -> WaitingEntries
        ensures { result.items ≡ [] }
    {
        WaitingEntries {
            slots: VecDeque::new(alloc),
            len: 0,
        }
    }

    // Returns a list without entries, with room for `room` entries.
    pub(crate) fn with_room(alloc: Global, room: usize) -> Result<WaitingEntries, AllocError>
        ensures items { IfOk result (λ t. t.items ≡ []) }
        ensures room { IfOk result (λ t. room ≤ t.room) }
    {
        let slots = VecDeque::with_capacity(alloc, with_spare(room))?;
        Ok(WaitingEntries { slots, len: 0 })
    }

    // Replaces the entries by these, which are in order.
    pub(crate) fn fill(&mut self, entries: &[Entry])
        requires order { InOrder entries.now }
        requires room { length entries.now ≤ self.old.room }
        ensures items { self.new.items ≡ entries.now }
        ensures room { self.new.room ≡ self.old.room }
    {
        fill_slots(&mut self.slots, entries);
        self.len = entries.len();
    }

    // Replaces the entries by the entries of another list that may be started now.
    pub(crate) fn fill_ready(&mut self, all: &WaitingEntries, now: Moment)
        requires { length all.now.items ≤ self.old.room }
        ensures items { self.new.items ≡ filter (is_startable now) all.now.items }
        ensures room { self.new.room ≡ self.old.room }
    {
        pick_ready(&mut self.slots, &all.slots, now);
        self.len = self.slots.len();
    }

    // Returns the numbers of the jobs in order.
    pub(crate) fn jobs(&self) -> Jobs<'_>
        ensures { result ≡ map (λ e. e.id) self.now.items }
    {
        Jobs::of_slots(&self.slots)
    }

    // Returns the number of entries.
    pub(crate) fn len(&self) -> usize
        ensures { result ≡ length self.now.items }
    {
        self.len
    }

    // Returns the first entry. Inspects no other.
    pub(crate) fn front(&self) -> Option<&Entry>
        ensures { option_copied result ≡ slice_get self.now.items 0 }
    {
        let slot = self.slots.front()?;
        Some(&slot.entry)
    }

    // Returns the entry of the job of this number, if it is in the list.
    pub(crate) fn find(&self, id: JobId) -> Option<&Entry>
        ensures found { IfSome (option_copied result) (λ e. Contains self.now.items e × (e.id ≡ id)) }
        ensures absent { IsNone result → LacksJob self.now.items id }
    {
        find(&self.slots, id)
    }

    // Returns the moment until which no other entry may be started, or None if no other entry ever will be.
    pub(crate) fn due(&self, now: Moment) -> Option<Moment>
        ensures { IsSameUntil self.now.items now result }
    {
        due_of(&self.slots, now)
    }

    // Reserves room for `count` entries in total, with 50 % more slots. So gone slots are deleted for lack of a free
    // slot only after that many more removals.
    pub(crate) fn reserve(&mut self, count: usize) -> Result<(), AllocError>
        ensures room { OnOk result (count ≤ self.new.room) }
        ensures kept { self.old.room ≤ self.new.room }
        ensures items { self.new.items ≡ self.old.items }
    {
        let missing = with_spare(count).saturating_sub(self.slots.len());
        self.slots.reserve(missing)
    }

    // Adds an entry that is not in the list. Does not allocate: if no slot is free, the gone slots are deleted.
    pub(crate) fn put(&mut self, entry: Entry)
        requires room { length self.old.items < self.old.room }
        requires absent { LacksJob self.old.items entry.id }
        ensures items { IsMore entry self.old.items self.new.items }
        ensures order { InOrder self.new.items }
        ensures room { self.old.room ≤ self.new.room }
    {
        free_slot(&mut self.slots);
        put_slot(&mut self.slots, entry);
        self.len += 1;
    }

    // Removes an existing entry. No other entry moves until more slots are gone than not. Then all gone slots are
    // deleted.
    pub(crate) fn take(&mut self, entry: &Entry)
        requires { Contains self.old.items entry.now }
        ensures items { IsMore entry.now self.new.items self.old.items }
        ensures order { InOrder self.new.items }
        ensures room { self.new.room ≡ self.old.room }
    {
        take_slot(&mut self.slots, entry);
        self.len -= 1;
        let_go(&mut self.slots, self.len);
    }

    // Removes an entry if it may be started now, which means that it is in the list.
    pub(crate) fn take_ready(&mut self, entry: &Entry, now: Moment)
        requires { is_startable now entry.now ≡ true → Contains self.old.items entry.now }
        ensures taken { is_startable now entry.now ≡ true → IsMore entry.now self.new.items self.old.items }
        ensures same { is_startable now entry.now ≡ false → self.new.items ≡ self.old.items }
        ensures order { InOrder self.old.items → InOrder self.new.items }
        ensures room { self.new.room ≡ self.old.room }
    {
        if entry.is_startable(now) {
            self.take(entry);
        }
    }

    // Replaces the entry of a job by one with the same order. No other entry moves.
    pub(crate) fn exchange(&mut self, from: &Entry, to: Entry)
        requires there { Contains self.old.items from.now }
        requires turn { (to.first ≡ from.now.first) × (to.priority ≡ from.now.priority) × (to.id ≡ from.now.id) }
        ensures items { IsExchange from.now to self.old.items self.new.items }
        ensures order { InOrder self.new.items }
        ensures room { self.new.room ≡ self.old.room }
    {
        exchange_slot(&mut self.slots, from, to);
    }
}

// Returns the number of slots for this number of entries.
fn with_spare(count: usize) -> usize
    ensures { count ≤ result }
{
    count.saturating_add(count / 2)
}
