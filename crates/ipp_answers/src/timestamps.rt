//! Moments with their dates.
ghost use Rattle.std.specs.Prelude.{◌≡◌, ◌≤◌, ◌/◌, ◌%◌, ◌↔◌, IsNone, IfSome, pos, ◌≤ℤ◌};
ghost use Rattle.jiff_core.specs.Date.{epoch_day};
ghost use Rattle.jiff_core.specs.Time.{time_seconds};
ghost use Rattle.ipp_answers.specs.Timestamps.{IsDateOf, ShowsDay, ShowsTime};

use ipp_values::DateTime;
use jiff_core::civil::{Date, Time};

// The beginning of the year 10000.
const END: u64 = 253_402_300_800;

const SECONDS_OF_A_DAY: u64 = 86_400;

/// A moment with its date by the Gregorian calendar, in UTC.
#[derive(Clone, Copy)]
pub struct Timestamp {
    /// Seconds since the beginning of 1970.
    pub seconds: u64,
    pub date: DateTime,
    pub ghost calendar: { IsDateOf seconds date },
}

impl Timestamp {
    /// Returns the moment that is this many seconds after the beginning of 1970. There is none after the year 9999.
    pub fn of_seconds(seconds: u64) -> Option<Timestamp>
        ensures late { IsNone result ↔ (253_402_300_800 ≤ seconds) }
        ensures value { IfSome result (λ timestamp. timestamp.seconds ≡ seconds) }
    {
        if seconds >= END {
            return None;
        }
        let day = day_of(seconds / SECONDS_OF_A_DAY);
        let time = Time::from_second((seconds % SECONDS_OF_A_DAY) as u32, 0);
        Some(with_date(seconds, day, time))
    }
}

// Returns the date that is this many days after the beginning of 1970.
#[tactic(auto, using(crate::proofs::Years::no_year_before))]
fn day_of(days: u64) -> Date
    requires { days ≤ 2_932_896 }
    ensures year { pos 0 ≤ℤ result.year }
    ensures day { epoch_day result ≡ pos days }
{
    match Date::from_unix_epoch_day(days as i64) {
        Ok(day) => day,
        Err(_) => unreachable!(),
    }
}

// Returns the moment with the date that the day and the time of day make.
fn with_date(seconds: u64, day: Date, time: Time) -> Timestamp
    requires year { pos 0 ≤ℤ day.year }
    requires day { epoch_day day ≡ pos (seconds / 86400) }
    requires time { time_seconds time ≡ seconds % 86400 }
    ensures { result.seconds ≡ seconds }
{
    let date = date_time(day, time);
    Timestamp { seconds, date }
}

fn date_time(day: Date, time: Time) -> DateTime
    requires { pos 0 ≤ℤ day.year }
    ensures day { ShowsDay day result }
    ensures time { ShowsTime time result }
{
    DateTime {
        year: day.year as u16,
        month: day.month,
        day: day.day,
        hour: time.hour,
        minute: time.minute,
        second: time.second,
        deciseconds: 0,
        utc_direction: b'+',
        utc_hours: 0,
        utc_minutes: 0,
    }
}
