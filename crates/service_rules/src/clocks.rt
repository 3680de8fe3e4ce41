//! When the service sends its engine the time.
ghost use Rattle.std.specs.Prelude.{◌≡◌, ◌<◌, ◌≤◌, ◌+◌, ◌↔◌, true, false, IsSome, IfSome, None, Some};
ghost use Rattle.spool_types.specs.Limits.{greatest_moment};
ghost use Rattle.service_rules.specs.Clocks.{clock_for_retry, clock_to_announce, clock_wait, has_come, is_rested, second_behind, wait_for};

use crate::bounds::{CLOCK_INTERVAL, LONGEST_WAIT};
use spool_types::Moment;

/// The moments that the decision depends on.
#[derive(Clone, Copy)]
pub struct Clocks {
    /// The second of the service's time.
    pub system: Moment,
    /// The table's moment, the greatest of all clocks so far.
    pub table: Moment,
    /// The moment that was sent last, whether or not it was accepted.
    pub told: Option<Moment>,
    /// The least moment that changes something if the clock reaches it: the end of a hold, a retry, or a job that should have started
    /// before.
    pub due: Option<Moment>,
}

/// The moment that the service sends its engine before a tick, if any. If nothing is due, or the table's moment is not before the
/// service's time, it sends none, so that an idle service writes nothing.
pub fn clock_to_announce(clocks: &Clocks) -> Option<Moment>
    ensures value { result ≡ clock_to_announce clocks.now }
    ensures forward { IfSome result (λ moment. clocks.now.table < moment) }
    ensures system { IfSome result (λ moment. moment ≡ clocks.now.system) }
    ensures later { IfSome result (λ moment. IfSome clocks.now.told (λ told. told < moment)) }
    ensures idle { clocks.now.due ≡ None → result ≡ None }
{
    if has_come(clocks.due, clocks.system)
        && clocks.table < clocks.system
        && is_rested(clocks.told, clocks.system)
    {
        Some(clocks.system)
    } else {
        None
    }
}

/// The moment that the service sends its engine before a tick, if a stage runs whose end may lead to a retry (`retries`). So the interval of
/// the retry counts from this second, however long the service was idle before.
pub fn clock_for_retry(clocks: &Clocks, retries: bool) -> Option<Moment>
    ensures value { result ≡ clock_for_retry clocks.now retries }
    // Unless the last clock was sent in this second, the table's moment is no older than the system's second.
    ensures fresh { retries ≡ true → is_rested clocks.now.told clocks.now.system ≡ true → result ≡ None → clocks.now.system ≤ clocks.now.table }
    ensures forward { IfSome result (λ moment. clocks.now.table < moment) }
    ensures later { IfSome result (λ moment. IfSome clocks.now.told (λ told. told < moment)) }
    // If no such stage runs, nothing is written.
    ensures idle { retries ≡ false → result ≡ None }
{
    if !retries {
        return None;
    }
    clock_to_announce(&Clocks {
        due: Some(clocks.system),
        ..*clocks
    })
}

/// The milliseconds until the clock must be sent, if something will be due. `millis` milliseconds of the system's second have passed. A due
/// moment further ahead than the longest wait is checked again then.
pub fn clock_wait(clocks: &Clocks, millis: u64) -> Option<u64>
    ensures value { result ≡ clock_wait clocks.now clocks.now.due millis }

    // It is over exactly if a clock must be sent, so the service does not loop without doing anything.
    ensures over { millis < 1000 → ((result ≡ Some 0) ↔ IsSome (clock_to_announce clocks.now)) }
{
    let due = clocks.due?;
    let behind = (clocks.table.get() + 1).max(second_behind(clocks.told));
    Some(wait_for(due.get().max(behind), clocks.system, millis))
}

fn has_come(due: Option<Moment>, system: Moment) -> bool
    ensures { result ≡ has_come due system }
{
    match due {
        Some(due) => due <= system,
        None => false,
    }
}

fn is_rested(told: Option<Moment>, system: Moment) -> bool
    ensures { result ≡ is_rested told system }
{
    match told {
        Some(told) => told.get() + CLOCK_INTERVAL <= system.get(),
        None => true,
    }
}

// The first second after the last clock that was sent.
fn second_behind(told: Option<Moment>) -> u64
    ensures value { result ≡ second_behind told }
    ensures at_most { result ≤ greatest_moment + 1 }
{
    match told {
        Some(told) => told.get() + CLOCK_INTERVAL,
        None => 0,
    }
}

fn wait_for(second: u64, system: Moment, millis: u64) -> u64
    requires { second ≤ greatest_moment + 1 }
    ensures { result ≡ wait_for second system millis }
{
    let seconds = second.saturating_sub(system.get());
    (seconds * 1000).saturating_sub(millis).min(LONGEST_WAIT)
}
