//! When the service logs that the system's clock and its time differ.
ghost use Rattle.std.specs.Prelude.{◌≡◌};
ghost use Rattle.service_rules.specs.ClockNews.{clock_state, is_behind, is_news, is_rested};

use crate::bounds::{LEAST_PARTING, NEWS_INTERVAL};
use crate::service_time::ServiceTime;

/// The system's clock, compared with the service's time.
#[derive(Clone, Copy, PartialEq, Eq)]
pub enum ClockState {
    /// They agree.
    Along,
    /// The system's clock is more than two seconds behind.
    Behind,
    /// The system's clock is so far ahead that it is not followed yet.
    Ahead,
}

/// What was logged last, and when by the steady clock, in milliseconds.
#[derive(Clone, Copy)]
pub struct News {
    pub state: ClockState,
    pub steady: u64,
}

/// Compares the system's clock, in milliseconds, with a time of the service.
pub fn clock_state(time: &ServiceTime, system: u64) -> ClockState
    ensures { result ≡ clock_state time.now system }
{
    if time.ahead.is_some() {
        ClockState::Ahead
    } else if is_behind(time.time, system) {
        ClockState::Behind
    } else {
        ClockState::Along
    }
}

fn is_behind(time: u64, system: u64) -> bool
    ensures { result ≡ is_behind time system }
{
    LEAST_PARTING < time.saturating_sub(system)
}

/// Whether to log this state: it is another one than was logged last, at least a minute ago. At first the clocks agree.
pub fn is_news(last: Option<News>, state: ClockState, steady: u64) -> bool
    ensures { result ≡ is_news last state steady }
{
    match last {
        Some(last) => last.state != state && is_rested(last.steady, steady),
        None => state != ClockState::Along,
    }
}

fn is_rested(last: u64, steady: u64) -> bool
    ensures { result ≡ is_rested last steady }
{
    NEWS_INTERVAL <= steady.saturating_sub(last)
}
