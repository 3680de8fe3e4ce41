//! The deadlines of waiting jobs that must start by a moment.
ghost use Rattle.std.specs.Prelude.{◌≡◌, ◌<◌, ◌≤◌, ◌+◌, ◌↔◌, ◌⊎◌, ℕ, true, false, [], length, slice_index_or, vec_capacity, IsOk, OnOk, OnErr, IfSome};
ghost use Rattle.std.specs.Option.{IsNone};
ghost use Rattle.std.specs.List.{AllWithin, Contains, insert, remove, slice_get};
ghost use Rattle.std.specs.List.Sorted.{IsPermutation};
ghost use Rattle.std.specs.Ordering.{is_lt};
ghost use Rattle.std.specs.VecDeque.{deque_capacity};
ghost use Rattle.queue_sched.specs.Deadlines.{comes_before, HasEachDeadlineOnce, InTurn, LacksDeadline};
ghost use Rattle.queue_sched.specs.declared.deadlines.Deadline.{Deadline as AnyDeadline};

use spool_types::{JobId, Moment};
use std::alloc::{AllocError, Global};
use std::cmp::Ordering;
use std::collections::VecDeque;
use std::marker::Model;

/// A waiting job and its deadline: the moment by which it must start.
#[derive(Clone, Copy, PartialEq, Eq)]
pub struct Deadline {
    pub by: Moment,
    pub id: JobId,
}

impl Deadline {
    // Compares two deadlines. Only equal deadlines compare as equal.
    fn turn(&self, other: &Deadline) -> Ordering
        ensures { is_lt result ≡ comes_before self.now other.now }
    {
        if self.comes_before(other) {
            Ordering::Less
        } else if other.comes_before(self) {
            Ordering::Greater
        } else {
            Ordering::Equal
        }
    }

    // Returns whether this deadline comes before the other: by the moment, then by the number.
    fn comes_before(&self, other: &Deadline) -> bool
        ensures { result ≡ comes_before self.now other.now }
    {
        if self.by == other.by {
            self.id < other.id
        } else {
            self.by < other.by
        }
    }
}

/// The deadlines of the waiting jobs of a table, of all its queues, the earliest first.
#[derive(Drop)]
pub struct Deadlines {
    items: VecDeque<Deadline>,
    // The list has room for this number of deadlines.
    room: usize,
}

impl Model for Deadlines {
    ghost use Rattle.queue_sched.specs.Deadlines.{Limits};

    ghost Value = { Limits };

    ghost use Rattle.queue_sched.specs.DeadlineLists.{limits_of, IsKept};

    ghost view = { limits_of };

    ghost invariant = { IsKept };
}

impl Deadlines {
    /// Returns a list without deadlines. Does not allocate.
    pub fn new(alloc: Global) -> Deadlines
        ensures items { result.items ≡ [] }
        ensures room { result.room ≡ 0 }
    {
        Deadlines {
            items: VecDeque::new(alloc),
            room: 0,
        }
    }

    /// Returns the list of these deadlines, which may be in any order. It has the room of the given list. Sorts once,
    /// and does not allocate.
    pub fn of_items(mut items: Vec<Deadline>) -> Deadlines
        requires { HasEachDeadlineOnce items.items }
        ensures items { (d : AnyDeadline) → Contains result.items d ↔ Contains items.items d }
        ensures count { length result.items ≡ length items.items }
        ensures room { result.room ≡ vec_capacity items }
    {
        let room = items.capacity();
        sort(&mut items);
        let items = VecDeque::from_vec(items);
        Deadlines { items, room }
    }

    /// Returns the number of deadlines.
    pub fn len(&self) -> usize
        ensures count { result ≡ length self.now.items }
        ensures order { InTurn self.now.items }
    {
        self.items.len()
    }

    /// Returns the number of deadlines that fit without allocating.
    pub fn room(&self) -> usize
        ensures { result ≡ self.now.room }
    {
        self.room
    }

    /// Reserves room for `count` deadlines in total. A list that grows at least doubles, as in `VecDeque::reserve`. An
    /// error changes nothing.
    pub fn reserve(&mut self, count: usize) -> Result<(), AllocError>
        ensures room { OnOk result (count ≤ self.new.room) }
        ensures kept { self.old.room ≤ self.new.room }
        ensures items { self.new.items ≡ self.old.items }
        ensures same { OnErr result (self.new ≡ self.old) }

        // Allocates only if room is missing.
        ensures ready { count ≤ self.old.room → IsOk result }
    {
        if count <= self.room {
            return Ok(());
        }
        self.items.reserve(count - self.items.len())?;
        self.room = count;
        Ok(())
    }

    /// Adds the deadline of a job that has none in the list. Does not allocate.
    pub fn insert(&mut self, deadline: Deadline)
        requires room { length self.old.items < self.old.room }
        requires absent { LacksDeadline self.old.items deadline.id }
        ensures items { (d : AnyDeadline) → Contains self.new.items d ↔ (Contains self.old.items d ⊎ (d ≡ deadline)) }
        ensures count { length self.new.items ≡ length self.old.items + 1 }
        ensures room { self.new.room ≡ self.old.room }
    {
        put(&mut self.items, deadline);
    }

    /// Removes an existing deadline.
    pub fn remove(&mut self, deadline: Deadline)
        requires there { Contains self.old.items deadline }
        ensures items { (d : AnyDeadline) → Contains self.new.items d ↔ (Contains self.old.items d × ¬ (d ≡ deadline)) }
        ensures count { length self.new.items + 1 ≡ length self.old.items }
        ensures room { self.new.room ≡ self.old.room }
    {
        take(&mut self.items, &deadline);
    }

    /// Returns the job of the earliest deadline, if that is before `moment`. Inspects no other deadline.
    pub fn first_before(&self, moment: Moment) -> Option<JobId>
        ensures found { IfSome result (λ j. (d : AnyDeadline) × Contains self.now.items d × (d.id ≡ j) × (d.by < moment)) }
        ensures none { IsNone result → (d : AnyDeadline) → Contains self.now.items d → moment ≤ d.by }
    {
        let first = self.items.front()?;
        if first.by < moment {
            Some(first.id)
        } else {
            None
        }
    }

    /// Returns the deadline at this position, if there is one. The earliest is at 0.
    pub fn get(&self, at: usize) -> Option<Deadline>
        ensures item { result ≡ slice_get self.now.items at }
        ensures order { InTurn self.now.items }
    {
        self.items.get(at).copied()
    }

    /// Returns the number of deadlines before `moment`, which are the first ones. Searches by halves.
    pub fn count_before(&self, moment: Moment) -> usize
        ensures in_range { result ≤ length self.now.items }
        ensures before { AllWithin (λ d. d.by < moment) self.now.items 0 result }
        ensures behind { AllWithin (λ d. moment ≤ d.by) self.now.items result (length self.now.items) }
    {
        self.items.partition_point(|deadline| deadline.by < moment)
    }

    /// Returns the number of deadlines that are not after `moment`, which are the first ones. Searches by halves.
    pub fn count_until(&self, moment: Moment) -> usize
        ensures in_range { result ≤ length self.now.items }
        ensures before { AllWithin (λ d. d.by ≤ moment) self.now.items 0 result }
        ensures behind { AllWithin (λ d. moment < d.by) self.now.items result (length self.now.items) }
    {
        self.items.partition_point(|deadline| deadline.by <= moment)
    }
}

// Sorts the deadlines.
fn sort(items: &mut Vec<Deadline>)
    requires { HasEachDeadlineOnce items.old.items }
    ensures order { InTurn items.new.items }
    ensures items { IsPermutation items.old.items items.new.items }
    ensures capacity { vec_capacity items.new ≡ vec_capacity items.old }
{
    items.sort_unstable_by(|deadline, other| deadline.turn(other));
}

// Returns the position of a deadline, or the position for a new one.
fn place_of(items: &VecDeque<Deadline>, deadline: &Deadline) -> usize
    requires { InTurn items.now.items }
    ensures in_range { result ≤ length items.now.items }
    ensures before { AllWithin (λ d. comes_before d deadline.now ≡ true) items.now.items 0 result }
    ensures behind { AllWithin (λ d. comes_before d deadline.now ≡ false) items.now.items result (length items.now.items) }
{
    items.partition_point(|other| other.comes_before(deadline))
}

// Inserts a deadline in order, and returns its position. The list has room.
fn put(items: &mut VecDeque<Deadline>, deadline: Deadline) -> usize
    requires order { InTurn items.old.items }
    requires room { length items.old.items < deque_capacity items.old }
    ensures in_range { result ≤ length items.old.items }
    ensures before { AllWithin (λ d. comes_before d deadline ≡ true) items.old.items 0 result }
    ensures behind { AllWithin (λ d. comes_before d deadline ≡ false) items.old.items result (length items.old.items) }
    ensures items { items.new.items ≡ insert items.old.items result deadline }
    ensures capacity { deque_capacity items.old ≤ deque_capacity items.new }
{
    let at = place_of(items, &deadline);
    items.insert(at, deadline).unwrap();
    at
}

// Removes an existing deadline, and returns its position.
fn take(items: &mut VecDeque<Deadline>, deadline: &Deadline) -> usize
    requires order { InTurn items.old.items }
    requires there { Contains items.old.items deadline.now }
    ensures in_range { result < length items.old.items }
    ensures here { slice_index_or items.old.items result deadline.now ≡ deadline.now }
    ensures items { items.new.items ≡ remove items.old.items result }
    ensures capacity { deque_capacity items.new ≡ deque_capacity items.old }
{
    let at = place_of(items, deadline);
    items.remove(at);
    at
}
