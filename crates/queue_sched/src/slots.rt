//! The slots of a list of entries in order. An entry that was removed keeps its slot until all gone slots are deleted
//! together.
ghost use Rattle.std.specs.Prelude.{◌≡◌, ◌<◌, ◌≤◌, ◌+◌, ◌*◌, ◌&&◌, ◌==◌, true, false, not, length, map, slice_index_or, IfSome};
ghost use Rattle.std.specs.Option.{IsNone, option_copied};
ghost use Rattle.std.specs.List.{filter, AllWithin, Contains};
ghost use Rattle.std.specs.VecDeque.{deque_capacity};
ghost use Rattle.queue_sched.specs.WaitingIndex.{goes_before, is_startable, LacksJob};
ghost use Rattle.queue_sched.specs.Lists.{IsSameUntil};
ghost use Rattle.queue_sched.specs.OrderSlots.{is_there, items_of, there_of, InSlotOrder, IsFirstThere};
ghost use Rattle.queue_sched.specs.OrderedEntries.{IsExchange, IsMore};
ghost use Rattle.queue_sched.specs.declared.slots.Slot.{Slot};
ghost use Rattle.queue_sched.specs.declared.entry.Entry.{Entry};

use crate::entry::Entry;
use crate::lists::sooner;
use spool_types::{JobId, Moment};
use std::collections::VecDeque;

/// An entry at its position.
#[derive(Clone, Copy)]
pub(crate) struct Slot {
    pub entry: Entry,
    /// Whether the entry was removed.
    pub gone: bool,
}

impl Slot {
    // Returns whether the slot is not gone and its entry may be started now.
    fn is_ready(&self, now: Moment) -> bool
        ensures { result ≡ (is_there self.now && is_startable now self.now.entry) }
    {
        !self.gone && self.entry.is_startable(now)
    }

    // Returns whether the slot is not gone and its entry may not be started now.
    fn is_waiting(&self, now: Moment) -> bool
        ensures { result ≡ (is_there self.now && not (is_startable now self.now.entry)) }
    {
        !self.gone && !self.entry.is_startable(now)
    }

    // Returns whether the slot is not gone and its entry is that of this job.
    fn is_of(&self, id: JobId) -> bool
        ensures { result ≡ (is_there self.now && (self.now.entry.id == id)) }
    {
        !self.gone && self.entry.id == id
    }
}

// Returns the position of the entry: the number of slots that come before it.
fn place_of(slots: &VecDeque<Slot>, entry: &Entry) -> usize
    requires { InSlotOrder slots.now.items }
    ensures in_range { result ≤ length slots.now.items }
    ensures before { AllWithin (λ s. goes_before s.entry entry.now ≡ true) slots.now.items 0 result }
    ensures behind { AllWithin (λ s. goes_before s.entry entry.now ≡ false) slots.now.items result (length slots.now.items) }
{
    slots.partition_point(|slot| slot.entry.goes_before(entry))
}

// Returns whether the slot at the position exists and the entry does not come before it.
fn is_held(slots: &VecDeque<Slot>, at: usize, entry: &Entry) -> bool
    ensures held { result ≡ true → (at < length slots.now.items) × ((d : Slot) → goes_before entry.now (slice_index_or slots.now.items at d).entry ≡ false) }
    ensures open { result ≡ false → at < length slots.now.items → (d : Slot) → goes_before entry.now (slice_index_or slots.now.items at d).entry ≡ true }
{
    match slots.get(at) {
        Some(slot) => !entry.goes_before(&slot.entry),
        None => false,
    }
}

// Inserts an entry in order. If a gone slot has the same mark, priority and number, the entry takes that slot again,
// and no other slot moves.
pub(crate) fn put_slot(slots: &mut VecDeque<Slot>, entry: Entry)
    requires order { InSlotOrder slots.old.items }
    requires room { length slots.old.items < deque_capacity slots.old }
    requires absent { LacksJob (items_of slots.old.items) entry.id }
    ensures items { IsMore entry (items_of slots.old.items) (items_of slots.new.items) }
    ensures order { InSlotOrder slots.new.items }
    ensures first { IsFirstThere slots.old.items → IsFirstThere slots.new.items }
    ensures few { length slots.new.items ≤ length slots.old.items + 1 }
    ensures capacity { deque_capacity slots.old ≤ deque_capacity slots.new }
{
    let at = place_of(slots, &entry);
    let slot = Slot { entry, gone: false };
    if is_held(slots, at, &entry) {
        slots[at] = slot;
    } else {
        // The prover passes the entry to the deque only if it sees the type of each field.
        let _hold = entry.hold;
        slots.insert(at, slot).unwrap();
    }
}

// Marks the slot of an existing entry as gone. No slot moves.
pub(crate) fn take_slot(slots: &mut VecDeque<Slot>, entry: &Entry)
    requires order { InSlotOrder slots.old.items }
    requires there { Contains (items_of slots.old.items) entry.now }
    ensures items { IsMore entry.now (items_of slots.new.items) (items_of slots.old.items) }
    ensures order { InSlotOrder slots.new.items }
    ensures count { length slots.new.items ≡ length slots.old.items }
    ensures capacity { deque_capacity slots.new ≡ deque_capacity slots.old }
{
    let at = place_of(slots, entry);
    slots[at] = Slot {
        entry: *entry,
        gone: true,
    };
}

// Replaces an entry by one with the same order. No slot moves.
pub(crate) fn exchange_slot(slots: &mut VecDeque<Slot>, from: &Entry, to: Entry)
    requires order { InSlotOrder slots.old.items }
    requires there { Contains (items_of slots.old.items) from.now }
    requires turn { (to.first ≡ from.now.first) × (to.priority ≡ from.now.priority) × (to.id ≡ from.now.id) }
    ensures items { IsExchange from.now to (items_of slots.old.items) (items_of slots.new.items) }
    ensures order { InSlotOrder slots.new.items }
    ensures first { IsFirstThere slots.old.items → IsFirstThere slots.new.items }
    ensures count { length slots.new.items ≡ length slots.old.items }
    ensures capacity { deque_capacity slots.new ≡ deque_capacity slots.old }
{
    let at = place_of(slots, from);
    slots[at] = Slot {
        entry: to,
        gone: false,
    };
}

// Deletes the gone slots at the front, so that the first slot is not gone.
fn trim(slots: &mut VecDeque<Slot>)
    ensures items { items_of slots.new.items ≡ items_of slots.old.items }
    ensures order { InSlotOrder slots.old.items → InSlotOrder slots.new.items }
    ensures first { IsFirstThere slots.new.items }
    ensures few { length slots.new.items ≤ length slots.old.items }
    ensures capacity { deque_capacity slots.new ≡ deque_capacity slots.old }
{
    while let Some(slot) = slots.front() {
        if !slot.gone {
            return;
        }
        slots.pop_front();
    }
}

// Deletes all gone slots.
fn sweep(slots: &mut VecDeque<Slot>)
    ensures items { slots.new.items ≡ filter is_there slots.old.items }
    ensures capacity { deque_capacity slots.new ≡ deque_capacity slots.old }
{
    slots.retain(|slot| !slot.gone);
}

// Deletes the gone slots if no slot is free. Does not allocate.
pub(crate) fn free_slot(slots: &mut VecDeque<Slot>)
    ensures items { items_of slots.new.items ≡ items_of slots.old.items }
    ensures order { InSlotOrder slots.old.items → InSlotOrder slots.new.items }
    ensures first { IsFirstThere slots.old.items → IsFirstThere slots.new.items }
    ensures few { length slots.new.items ≤ length slots.old.items }
    ensures room { length (items_of slots.old.items) < deque_capacity slots.old → length slots.new.items < deque_capacity slots.new }
    ensures capacity { deque_capacity slots.new ≡ deque_capacity slots.old }
{
    if slots.len() == slots.capacity() {
        sweep(slots);
    }
}

// Deletes the gone slots at the front, and all gone slots if they outnumber the others.
pub(crate) fn let_go(slots: &mut VecDeque<Slot>, len: usize)
    requires { length (items_of slots.old.items) ≡ len }
    ensures items { items_of slots.new.items ≡ items_of slots.old.items }
    ensures order { InSlotOrder slots.old.items → InSlotOrder slots.new.items }
    ensures first { IsFirstThere slots.new.items }
    ensures few { length slots.new.items ≤ 2 * len }
    ensures capacity { deque_capacity slots.new ≡ deque_capacity slots.old }
{
    trim(slots);
    if slots.len() - len > len {
        sweep(slots);
    }
}

// Replaces the slots by those of these entries.
pub(crate) fn fill_slots(slots: &mut VecDeque<Slot>, entries: &[Entry])
    requires { length entries.now ≤ deque_capacity slots.old }
    ensures items { slots.new.items ≡ map there_of entries.now }
    ensures capacity { deque_capacity slots.new ≡ deque_capacity slots.old }
{
    slots.clear();
    for entry in entries {
        slots.push_back_reserved(Slot {
            entry: *entry,
            gone: false,
        });
    }
}

// Replaces the slots by those of the entries that may be started now.
pub(crate) fn pick_ready(slots: &mut VecDeque<Slot>, all: &VecDeque<Slot>, now: Moment)
    requires { length (items_of all.now.items) ≤ deque_capacity slots.old }
    ensures items { slots.new.items ≡ filter (λ s. is_there s && is_startable now s.entry) all.now.items }
    ensures capacity { deque_capacity slots.new ≡ deque_capacity slots.old }
{
    slots.clear();
    for slot in all {
        if slot.is_ready(now) {
            slots.push_back_reserved(*slot);
        }
    }
}

// Returns the moment until which no other entry may be started, or None if no other entry ever will be.
pub(crate) fn due_of(slots: &VecDeque<Slot>, now: Moment) -> Option<Moment>
    ensures { IsSameUntil (items_of slots.now.items) now result }
{
    let mut due = None;
    for slot in slots {
        if slot.is_waiting(now) {
            due = sooner(due, slot.entry.start());
        }
    }
    due
}

// Returns the entry of the job of this number, if it is in the list.
pub(crate) fn find(slots: &VecDeque<Slot>, id: JobId) -> Option<&Entry>
    ensures found { IfSome (option_copied result) (λ e. Contains (items_of slots.now.items) e × (e.id ≡ id)) }
    ensures absent { IsNone result → LacksJob (items_of slots.now.items) id }
{
    for slot in slots {
        if slot.is_of(id) {
            return Some(&slot.entry);
        }
    }
    None
}
