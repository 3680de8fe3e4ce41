//! The holds that attributes ask for.
ghost use Rattle.std.specs.Prelude.{◌≡◌, ℕ, Some, IfSome};
ghost use Rattle.std.specs.Option.{option_map};
ghost use Rattle.ipp_options.specs.HoldValues.{until, hold_keyword, hold_word, hold_in, hold_date, hold_of, hold_time_in, is_free, same_hold};

use crate::moments::{day_time, is_date, next_moment, seconds_of};
use crate::words::{only, word_in};
use ipp_values::{DateTime, Value};
use spool_types::Moment;

/// Whether and until when a job is held.
#[derive(Clone, Copy)]
pub enum Hold {
    /// Not held.
    Free,
    /// Held until it is released.
    Indefinite,
    /// Held until this moment, in seconds since 1970.
    Until(Moment),
}

impl Hold {
    /// Returns the keyword of job-hold-until, or `None` for a hold until a moment, which only job-hold-until-time can state.
    pub fn keyword(&self) -> Option<&'static str>
        ensures value { option_map (λ word. word.now) result ≡ hold_keyword self.now }
        ensures read_back { IfSome result (λ word. (now : ℕ) → hold_word now word.now ≡ Some self.now) }
    {
        match self {
            Hold::Free => Some("no-hold"),
            Hold::Indefinite => Some("indefinite"),
            Hold::Until(_) => None,
        }
    }

    pub(crate) fn is_free(&self) -> bool
        ensures { result ≡ is_free self.now }
    {
        matches!(self, Hold::Free)
    }

    pub(crate) fn is_same(&self, other: &Hold) -> bool
        ensures { result ≡ same_hold self.now other.now }
    {
        match self {
            Hold::Free => other.is_free(),
            Hold::Indefinite => matches!(other, Hold::Indefinite),
            Hold::Until(moment) => other.is_until(moment.get()),
        }
    }

    fn is_until(&self, seconds: u64) -> bool
        ensures { result ≡ same_hold self.now (Hold.Until seconds) }
    {
        match self {
            Hold::Until(moment) => moment.get() == seconds,
            _ => false,
        }
    }
}

/// Returns the hold that the values of job-hold-until ask for at the moment `now`: `no-hold`, `indefinite`, or `HH:MM` or `HH:MM:SS` in
/// UTC. Other words, such as `evening`, depend on the local zone, and are not supported.
pub fn hold_in(values: &[Value], now: Moment) -> Option<Hold>
    ensures value { result ≡ hold_in now values.now }
{
    hold_word(word_in(values)?.as_bytes(), now)
}

fn hold_word(word: &[u8], now: Moment) -> Option<Hold>
    ensures { result ≡ hold_word now word.now }
{
    if word == b"no-hold".as_slice() {
        Some(Hold::Free)
    } else if word == b"indefinite".as_slice() {
        Some(Hold::Indefinite)
    } else {
        until(next_moment(now.get(), day_time(word)?))
    }
}

/// Returns the hold that the values of job-hold-until-time ask for.
pub fn hold_time_in(values: &[Value]) -> Option<Hold>
    ensures value { result ≡ hold_time_in values.now }
{
    hold_of(only(values)?)
}

fn hold_of(value: &Value) -> Option<Hold>
    ensures { result ≡ hold_of value.now }
{
    match value {
        Value::DateTime(date) => hold_date(date),
        _ => None,
    }
}

fn hold_date(date: &DateTime) -> Option<Hold>
    ensures { result ≡ hold_date date.now }
{
    if is_date(date) {
        until(seconds_of(date))
    } else {
        None
    }
}

fn until(seconds: u64) -> Option<Hold>
    ensures { result ≡ until seconds }
{
    Some(Hold::Until(Moment::new(seconds)?))
}
