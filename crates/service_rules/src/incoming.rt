//! When an incoming job is canceled whose client has disconnected (MultipleOperationTimeout, cupsd.conf(5)).
ghost use Rattle.std.specs.Prelude.{◌≡◌, ℕ, ◌+◌, ◌<◌, ◌≤◌, ◌^◌, false, None, Some};
ghost use Rattle.service_rules.specs.Bounds.{check_interval};
ghost use Rattle.service_rules.specs.Incoming.{abandoned_until, check_wait, is_abandoned, is_until, next_check};

use crate::bounds::CHECK_INTERVAL;

/// The moment up to which an incoming job is abandoned at a moment in milliseconds, if nothing was sent to it afterwards: nothing was sent to
/// it for at least `limit` milliseconds.
pub fn abandoned_until(limit: u64, now: u64) -> Option<u64>
    ensures value { result ≡ abandoned_until limit now }
    ensures abandoned { (since : ℕ) → 0 < limit → is_until since result ≡ is_abandoned limit since now }
{
    now.checked_sub(limit)
}

/// The moment of the next check. `oldest`: the moment of the last send to the job that waits longest, if one waits.
pub fn next_check(limit: u64, now: u64, oldest: Option<u64>) -> u64
    ensures { next_check limit now oldest < 2 ^ 64 → result ≡ next_check limit now oldest }
{
    let earliest = now.saturating_add(CHECK_INTERVAL);
    oldest.unwrap_or(now).saturating_add(limit).max(earliest)
}

/// The milliseconds until the next check, if there are jobs to check.
pub fn check_wait(some: bool, next: u64, now: u64) -> Option<u64>
    ensures { result ≡ check_wait some next now }
{
    if some {
        Some(next.saturating_sub(now))
    } else {
        None
    }
}

/// Until the next check no job is abandoned for more than a second: neither one that waits now and is not abandoned yet, nor one that is left
/// later.
pub fn abandoned_jobs_are_found()
    ensures oldest { (limit now oldest since later : ℕ) → oldest ≤ since → is_abandoned limit since now ≡ false → later < next_check limit now (Some oldest) →
        is_abandoned (limit + check_interval) since later ≡ false }
    ensures left { (limit now since later : ℕ) → 0 < limit → now ≤ since → later < next_check limit now None → is_abandoned (limit + check_interval) since later ≡ false }
{}
