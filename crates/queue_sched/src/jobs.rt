ghost use Rattle.std.specs.Prelude.{◌≡◌, map};
ghost use Rattle.std.specs.Iterator.{item_count, YieldsFirst};
ghost use Rattle.queue_sched.specs.OrderSlots.{items_of};

use crate::slots::Slot;
use spool_types::JobId;
use std::collections::VecDeque;
use std::collections::vec_deque::Iter;
use std::marker::Model;

/// An iterator over the numbers of waiting jobs in order.
#[derive(Drop)]
pub struct Jobs<'a> {
    slots: Iter<'a, Slot>,
}

impl<'a> Model for Jobs<'a> {
    ghost use Rattle.std.specs.Prelude.{List, ℕ};

    ghost Value = { List ℕ };

    ghost use Rattle.queue_sched.specs.Jobs.{numbers_left};

    ghost view = { numbers_left };
}

impl<'a> Jobs<'a> {
    pub(crate) fn of_slots(slots: &'a VecDeque<Slot>) -> Jobs<'a>
        ensures { result ≡ map (λ e. e.id) (items_of slots.now.items) }
    {
        Jobs {
            slots: slots.iter(),
        }
    }
}

impl<'a> Iterator for Jobs<'a> {
    type Item = JobId;

    ghost next_gives = { YieldsFirst (λ numbers. numbers) };

    ghost remaining = { item_count (λ numbers. numbers) };

    // Skips the slots that are gone.
    fn next(&mut self) -> Option<JobId> {
        while let Some(slot) = self.slots.next() {
            if !slot.gone {
                return Some(slot.entry.id);
            }
        }
        None
    }
}
