//! The last changes of jobs and queues, by number.
ghost use Rattle.std.specs.Prelude.{◌≡◌, ◌-◌, length, min, IfOk, IfSome, IsSome, ◌↔◌, ◌<◌, slice_index_or, []};
ghost use Rattle.event_records.specs.NumberedChanges.{forgotten, greatest_change, is_known, position_after, with_change, HasNoted};

use spool_types::{JobId, QueueName};
use std::alloc::{AllocError, Global};
use std::collections::VecDeque;
use std::marker::Model;

// At most so many changes are kept.
const MOST_CHANGES: usize = 4_096;

/// The greatest number of a change.
pub const GREATEST_CHANGE: u64 = 9_999_999_999_999;

/// What a change changed.
#[derive(Drop)]
pub enum Subject {
    Job(JobId),
    Queue(QueueName),
}

/// What the last 4,096 changes changed, in order. Each change has a number, one above that of the change before it.
#[derive(Drop)]
pub struct Changes {
    items: VecDeque<Subject>,
    // The number of the last change.
    last: u64,
}

impl Model for Changes {
    ghost use Rattle.std.specs.Prelude.{◌≤◌};
    ghost use Rattle.std.specs.VecDeque.{deque_capacity, deque_len};
    ghost use Rattle.event_records.specs.NumberedChanges.{NumberedChanges, greatest_change, most_changes};

    ghost Value = { NumberedChanges };

    ghost view = { λ c. record { last = c.last; items = c.items.items } };

    ghost invariant = { λ c. (most_changes ≤ deque_capacity c.items) × (deque_len c.items ≤ most_changes) × (c.last ≤ greatest_change) };
}

impl Changes {
    /// Returns no changes. The next one has the number after this one.
    pub fn new(alloc: Global, last: u64) -> Result<Changes, AllocError>
        ensures last { IfOk result (λ changes. changes.last ≡ min last greatest_change) }
        ensures none { IfOk result (λ changes. changes.items ≡ []) }
    {
        Ok(Changes {
            items: VecDeque::with_capacity(alloc, MOST_CHANGES)?,
            last: last.min(GREATEST_CHANGE),
        })
    }

    /// Returns the number of the last change.
    pub fn last(&self) -> u64
        ensures { result ≡ self.now.last }
    {
        self.last
    }

    /// Returns how many changes are kept.
    pub fn len(&self) -> usize
        ensures { result ≡ length self.now.items }
    {
        self.items.len()
    }

    /// Returns what the kept change at this position changed.
    pub fn subject(&self, at: usize) -> Option<&Subject>
        ensures there { IsSome result ↔ (at < length self.now.items) }
        ensures is { IfSome result (λ subject. subject.now ≡ slice_index_or self.now.items at subject.now) }
    {
        self.items.get(at)
    }

    /// Returns whether each change after this number is kept.
    pub fn is_known(&self, number: u64) -> bool
        ensures { result ≡ is_known self.now number }
    {
        number <= self.last && self.last - number <= self.items.len() as u64
    }

    /// Returns the position of the first change after a known number.
    pub fn position_after(&self, number: u64) -> usize
        ensures { result ≡ position_after self.now number }
    {
        self.items
            .len()
            .saturating_sub(self.last.saturating_sub(number) as usize)
    }

    /// Notes a change of a job or a queue.
    pub fn note(&mut self, subject: Subject)
        ensures { self.new ≡ with_change self.old subject }
    {
        if GREATEST_CHANGE <= self.last {
            self.forget();
            return;
        }
        if MOST_CHANGES <= self.items.len() {
            self.items.pop_front();
        }
        self.items.push_back_reserved(subject);
        self.last += 1;
    }

    /// Notes a change of a queue. If memory runs out for its name, all changes are forgotten.
    pub fn note_queue(&mut self, name: &QueueName)
        ensures { HasNoted self.old (Subject.Queue name.now) self.new }
    {
        match name.clone() {
            Ok(name) => self.note(Subject::Queue(name)),
            Err(_) => self.forget(),
        }
    }

    /// Forgets all changes. No number that was given before is known then.
    pub fn forget(&mut self)
        ensures { self.new ≡ forgotten self.old }
    {
        self.items.clear();
        self.last = if self.last < GREATEST_CHANGE {
            self.last + 1
        } else {
            0
        };
    }
}
