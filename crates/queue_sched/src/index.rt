//! The index of a queue's waiting jobs.
ghost use Rattle.std.specs.Prelude.{◌≡◌, ◌<◌, ◌≤◌, ◌+◌, ◌↔◌, ◌⊎◌, [], length, map, vec_capacity, IsOk, OnOk, OnErr, IfOk, IfSome};
ghost use Rattle.std.specs.Option.{IsNone, option_copied};
ghost use Rattle.std.specs.List.{Contains};
ghost use Rattle.queue_sched.specs.WaitingIndex.{InOrder, LacksJob, HasEachOnce, IsFirstStartable, NoneIsStartable};
ghost use Rattle.queue_sched.specs.declared.entry.Entry.{Entry};

use crate::entry::Entry;
use crate::jobs::Jobs;
use crate::lists::{is_before, sooner, sort};
use crate::waiting_entries::WaitingEntries;
use spool_types::{JobId, Moment};
use std::alloc::{AllocError, Global};
use std::marker::Model;

/// The waiting jobs of one queue in order, at a moment.
#[derive(Drop)]
pub struct Index {
    entries: WaitingEntries,
    // The entries that may be started now.
    ready: WaitingEntries,
    // Each of the two lists has room for this number of entries. All entries may become ready.
    room: usize,
    // Before this moment no other entry may be started.
    due: Option<Moment>,
    moment: Moment,
}

impl Model for Index {
    ghost use Rattle.queue_sched.specs.WaitingIndex.{Waits};

    ghost Value = { Waits };

    ghost use Rattle.queue_sched.specs.Lists.{waits_of, IsInStep};

    ghost view = { waits_of };

    ghost invariant = { IsInStep };
}

impl Index {
    /// Returns an index without jobs, at the moment 0. Does not allocate.
    pub fn new(alloc: Global) -> Index
        ensures items { result.items ≡ [] }
        ensures moment { result.moment ≡ 0 }
        ensures room { result.room ≡ 0 }
    {
        Index {
            entries: WaitingEntries::new(alloc),
            ready: WaitingEntries::new(alloc),
            room: 0,
            due: None,
            moment: Moment::ZERO,
        }
    }

    /// Returns an index of these entries, which may be in any order. It has the room of the given list. Sorts once,
    /// which is faster than adding each entry.
    pub fn of_entries(mut entries: Vec<Entry>, moment: Moment) -> Result<Index, AllocError>
        requires { HasEachOnce entries.items }
        ensures items { IfOk result (λ w. (e : Entry) → Contains w.items e ↔ Contains entries.items e) }
        ensures count { IfOk result (λ w. length w.items ≡ length entries.items) }
        ensures moment { IfOk result (λ w. w.moment ≡ moment) }
        ensures room { IfOk result (λ w. w.room ≡ vec_capacity entries) }
    {
        let alloc = *entries.allocator();
        let room = entries.capacity();
        let mut waiting_entries = WaitingEntries::with_room(alloc, room)?;
        let mut ready = WaitingEntries::with_room(alloc, room)?;
        sort(&mut entries);
        waiting_entries.fill(&entries);
        ready.fill_ready(&waiting_entries, moment);
        let due = waiting_entries.due(moment);
        Ok(Index {
            entries: waiting_entries,
            ready,
            room,
            due,
            moment,
        })
    }

    /// Returns the numbers of the waiting jobs in order.
    pub fn jobs(&self) -> Jobs<'_>
        ensures numbers { result ≡ map (λ e. e.id) self.now.items }
        ensures order { InOrder self.now.items }
    {
        self.entries.jobs()
    }

    /// Returns the number of waiting jobs.
    pub fn len(&self) -> usize
        ensures count { result ≡ length self.now.items }
        ensures order { InOrder self.now.items }
    {
        self.entries.len()
    }

    /// Returns the current moment in seconds.
    pub fn moment(&self) -> Moment
        ensures { result ≡ self.now.moment }
    {
        self.moment
    }

    /// Returns the entry of the job of this number, if it is in the index. Searches all entries.
    pub fn entry(&self, id: JobId) -> Option<&Entry>
        ensures found { IfSome (option_copied result) (λ e. Contains self.now.items e × (e.id ≡ id)) }
        ensures absent { IsNone result → LacksJob self.now.items id }
    {
        self.entries.find(id)
    }

    /// Returns the first job that may be started now. Inspects no other job.
    pub fn next(&self) -> Option<JobId>
        ensures chosen { IfSome result (λ j. (e : Entry) × (e.id ≡ j) × IsFirstStartable self.now e) }
        ensures none { IsNone result → NoneIsStartable self.now }
    {
        let entry = self.ready.front()?;
        Some(entry.id)
    }

    /// Reserves room for `count` jobs in total. A list that grows at least doubles, as in `Vec::reserve`. An error
    /// changes nothing.
    pub fn reserve(&mut self, count: usize) -> Result<(), AllocError>
        ensures room { OnOk result (count ≤ self.new.room) }
        ensures kept { self.old.room ≤ self.new.room }
        ensures items { self.new.items ≡ self.old.items }
        ensures moment { self.new.moment ≡ self.old.moment }
        ensures same { OnErr result (self.new ≡ self.old) }

        // Allocates only if room is missing.
        ensures ready { count ≤ self.old.room → IsOk result }
    {
        if count <= self.room {
            return Ok(());
        }
        self.entries.reserve(count)?;
        self.ready.reserve(count)?;
        self.room = count;
        Ok(())
    }

    /// Adds a job that is not in the index. Its position is found by binary search, and an entry that comes first or
    /// last moves no other. Does not allocate.
    pub fn insert(&mut self, entry: Entry)
        requires room { length self.old.items < self.old.room }
        requires absent { LacksJob self.old.items entry.id }
        ensures there { Contains self.new.items entry }
        ensures items { (e : Entry) → Contains self.new.items e ↔ (Contains self.old.items e ⊎ (e ≡ entry)) }
        ensures count { length self.new.items ≡ length self.old.items + 1 }
        ensures moment { self.new.moment ≡ self.old.moment }
        ensures room { self.new.room ≡ self.old.room }
    {
        self.entries.put(entry);
        if entry.is_startable(self.moment) {
            self.ready.put(entry);
        } else {
            self.due = sooner(self.due, entry.start());
        }
    }

    /// Removes a job that is in the index. It is found by binary search.
    pub fn remove(&mut self, entry: Entry)
        requires there { Contains self.old.items entry }
        ensures gone { ¬ (Contains self.new.items entry) }
        ensures items { (e : Entry) → Contains self.new.items e ↔ (Contains self.old.items e × ¬ (e ≡ entry)) }
        ensures count { length self.new.items + 1 ≡ length self.old.items }
        ensures spare { length self.new.items < self.new.room }
        ensures moment { self.new.moment ≡ self.old.moment }
        ensures room { self.new.room ≡ self.old.room }
    {
        self.entries.take(&entry);
        self.ready.take_ready(&entry, self.moment);
    }

    /// Replaces the entry of a job. If the mark and the priority are the same, only the list of ready entries changes.
    /// Otherwise the old entry is removed and the new one is added. Does not allocate.
    pub fn replace(&mut self, from: Entry, to: Entry)
        requires there { Contains self.old.items from }
        requires only { (e : Entry) → Contains self.old.items e → e.id ≡ from.id → e ≡ from }
        requires own { to.id ≡ from.id }
        ensures there { Contains self.new.items to }
        ensures items { (e : Entry) → Contains self.new.items e ↔ ((Contains self.old.items e × ¬ (e ≡ from)) ⊎ (e ≡ to)) }
        ensures count { length self.new.items ≡ length self.old.items }
        ensures moment { self.new.moment ≡ self.old.moment }
        ensures room { self.new.room ≡ self.old.room }
    {
        if from.has_turn_of(&to) {
            self.put_in_place(from, to);
        } else {
            self.remove(from);
            self.insert(to);
        }
    }

    // Replaces an entry by one with the same mark and priority.
    fn put_in_place(&mut self, from: Entry, to: Entry)
        requires there { Contains self.old.items from }
        requires only { (e : Entry) → Contains self.old.items e → e.id ≡ from.id → e ≡ from }
        requires own { to.id ≡ from.id }
        requires turn { (from.first ≡ to.first) × (from.priority ≡ to.priority) }
        ensures items { (e : Entry) → Contains self.new.items e ↔ ((Contains self.old.items e × ¬ (e ≡ from)) ⊎ (e ≡ to)) }
        ensures count { length self.new.items ≡ length self.old.items }
        ensures moment { self.new.moment ≡ self.old.moment }
        ensures room { self.new.room ≡ self.old.room }
    {
        self.entries.exchange(&from, to);
        self.ready.take_ready(&from, self.moment);
        if to.is_startable(self.moment) {
            self.ready.put(to);
        } else {
            self.due = sooner(self.due, to.start());
        }
    }

    /// Sets the current moment, which must not be earlier than the previous one. If no other job may be started by
    /// then, inspects no job. Does not allocate.
    pub fn advance(&mut self, moment: Moment)
        requires { self.old.moment ≤ moment }
        ensures moment { self.new.moment ≡ moment }
        ensures items { self.new.items ≡ self.old.items }
        ensures room { self.new.room ≡ self.old.room }
    {
        self.moment = moment;
        if !is_before(moment, self.due) {
            self.ready.fill_ready(&self.entries, moment);
            self.due = self.entries.due(moment);
        }
    }
}
