//! Functions that the lists of an index share.
ghost use Rattle.std.specs.Prelude.{◌≡◌, ◌↔◌, ℕ, IsTrue, vec_capacity};
ghost use Rattle.std.specs.List.Sorted.{IsPermutation};
ghost use Rattle.queue_sched.specs.WaitingIndex.{HasEachOnce, InOrder};
ghost use Rattle.queue_sched.specs.Lists.{IsBefore};

use crate::entry::Entry;
use spool_types::Moment;

// Sorts the entries.
pub(crate) fn sort(entries: &mut Vec<Entry>)
    requires { HasEachOnce entries.old.items }
    ensures order { InOrder entries.new.items }
    ensures items { IsPermutation entries.old.items entries.new.items }
    ensures capacity { vec_capacity entries.new ≡ vec_capacity entries.old }
{
    entries.sort_unstable_by(|entry, other| entry.turn(other));
}

// Returns whether the moment is before the due one, or there is no due one.
pub(crate) fn is_before(moment: Moment, due: Option<Moment>) -> bool
    ensures { IsTrue result ↔ IsBefore moment due }
{
    match due {
        Some(due) => moment < due,
        None => true,
    }
}

// Every moment before the result is before both.
pub(crate) fn sooner(due: Option<Moment>, start: Option<Moment>) -> Option<Moment>
    ensures { (m : ℕ) → IsBefore m result → IsBefore m due × IsBefore m start }
{
    match (due, start) {
        (Some(due), Some(start)) => Some(due.min(start)),
        (None, other) | (other, None) => other,
    }
}
