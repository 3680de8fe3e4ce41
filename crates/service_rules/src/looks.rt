//! How long the service waits: until its next check of the children, and in its poll.
ghost use Rattle.std.specs.Prelude.{◌≡◌, ℕ, ◌+◌, ◌*◌, ◌/◌, ◌≤◌, ◌↔◌, max, min, IfSome};
ghost use Rattle.std.specs.Option.{IsNone};
ghost use Rattle.service_rules.specs.Bounds.{first_look, last_look, longest_first, look_parts, millisecond};
ghost use Rattle.service_rules.specs.ChildPolling.{first_after, next_look, pause_alone, pause_for, pause_of, poll_wait};

use crate::bounds::{FIRST_LOOK, LAST_LOOK, LONGEST_FIRST, LOOK_PARTS, MILLISECOND};

/// A wait: a nap in microseconds, and then a poll in milliseconds.
#[derive(Clone, Copy)]
pub struct Pause {
    pub nap: u64,
    pub poll: u64,
}

/// The pause before the next check of the children, in microseconds, if `running` children run, the youngest for `ran` microseconds. The
/// previous child ran for `before` microseconds, as far as was seen. Each check takes a little time from the child that it checks, so a
/// child that is alone is not checked before it may have ended.
pub fn next_look(before: u64, ran: u64, running: usize) -> Option<u64>
    ensures value { result ≡ next_look before ran running }
    ensures within { IfSome result (λ pause. (first_look ≤ pause) × (pause ≤ last_look)) }
    ensures none { IsNone result ↔ (running ≡ 0) }
{
    match running {
        0 => None,
        1 => Some(pause_alone(before, ran)),
        _ => Some(pause_of(ran)),
    }
}

// The pause if the only child has run for `ran` microseconds.
fn pause_alone(before: u64, ran: u64) -> u64
    ensures { result ≡ pause_alone before ran }
{
    let first = (before - before / LOOK_PARTS).min(LONGEST_FIRST);
    if ran < first {
        (first - ran).max(FIRST_LOOK)
    } else {
        pause_of(ran)
    }
}

// The pause if the youngest child has run for `ran` microseconds.
fn pause_of(ran: u64) -> u64
    ensures { result ≡ pause_of ran }
{
    (ran / LOOK_PARTS).min(LAST_LOOK).max(FIRST_LOOK)
}

/// How long the poll may wait; without a result it waits until something is ready. `has_more` says whether there is more to do at once,
/// `look` is the pause before the next check of the children, and `clock` the time until the clock is due.
pub fn poll_wait(has_more: bool, look: Option<u64>, clock: Option<u64>) -> Option<u64>
    ensures { result ≡ poll_wait has_more look clock }
{
    if has_more {
        return Some(0);
    }
    match (look, clock) {
        (Some(pause), Some(wait)) => Some(pause.min(wait)),
        (Some(pause), None) => Some(pause),
        (None, wait) => wait,
    }
}

/// Splits a wait in microseconds: a poll counts in milliseconds and rounds up. During a nap no readiness is seen, so a nap is shorter than
/// a millisecond.
pub fn pause_for(wait: u64) -> Pause
    ensures value { result ≡ pause_for wait }
    ensures no_longer { result.nap + result.poll * millisecond ≤ wait }
{
    Pause {
        nap: if wait < MILLISECOND { wait } else { 0 },
        poll: wait / MILLISECOND,
    }
}

/// A child that had run for `ran` at a check, and ran for `all` in total, is seen to have ended at the next check: after at most a
/// sixteenth of the time that it ran, or after the shortest pause. The youngest child has not run longer than it. A child that is alone is
/// seen to have ended then, or at its first check.
pub fn ends_are_seen_soon()
    ensures beside { (youngest ran all : ℕ) → youngest ≤ ran → ran ≤ all →
        ran + pause_of youngest ≤ all + max first_look (min (all / look_parts) last_look) }
    ensures alone { (before ran all : ℕ) → ran ≤ all →
        ran + pause_alone before ran ≤ max (first_after before) (all + max first_look (min (all / look_parts) last_look)) }
    ensures first { (before : ℕ) → first_after before ≤ longest_first }
{}
