//! The waiting jobs of the tests, as plain numbers.
ghost use Rattle.std.specs.Prelude.{◌≡◌, IfOk};

use queue_sched::Entry;
use spool_types::{Hold, HoldReason, JobId, Moment, Priority};
use std::test::Fail;

/// The hold of a job.
#[derive(Clone, Copy)]
pub(crate) enum Held {
    Free,
    ForGood,
    Until(u64),
}

/// A waiting job: its number, its priority, its hold, its earliest moment, and whether it is marked.
pub(crate) type Waiting = (u32, u32, Held, u64, bool);

pub(crate) fn moment(seconds: u64) -> Result<Moment, Fail> {
    Ok(Moment::new(seconds).ok_or("no moment")?)
}

pub(crate) fn entry(waiting: Waiting) -> Result<Entry, Fail>
    ensures { IfOk result (λ e. e.id ≡ waiting.0) }
{
    let (number, priority, held, seconds, first) = waiting;
    let hold = match held {
        Held::Free => Hold::Free,
        Held::ForGood => Hold::Indefinite(HoldReason::Unspecified),
        Held::Until(seconds) => Hold::Until(moment(seconds)?),
    };
    Ok(Entry {
        id: JobId::new(number).ok_or("no number of a job")?,
        first,
        priority: Priority::new(priority).ok_or("no priority")?,
        hold,
        not_before: moment(seconds)?,
    })
}
