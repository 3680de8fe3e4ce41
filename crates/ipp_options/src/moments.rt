//! Times of the day, and dates.
ghost use Rattle.std.specs.Prelude.{◌≡◌, ◌≤◌, ◌<◌, ◌^◌, IfSome};
ghost use Rattle.spool_types.specs.Limits.{greatest_moment};
ghost use Rattle.ipp_printers.specs.MediaNames.{parted};
ghost use Rattle.ipp_options.specs.HoldMoments.{field, minutes_of, day_time, next_moment, is_leap, is_short, days_in, days_before, leap_days, days_to, is_day, is_time, is_offset, is_date, local_seconds, utc_offset, seconds_of};

use ipp_printers::parted;
use ipp_values::DateTime;
use line_words::decimal;

const SECONDS_OF_A_DAY: u64 = 86_400;

/// Reads HH:MM or HH:MM:SS, in seconds after midnight.
pub(crate) fn day_time(text: &[u8]) -> Option<u64>
    ensures value { result ≡ day_time text.now }
    ensures bound { IfSome result (λ seconds. seconds < 86400) }
{
    let (hours, rest) = parted(text, b':')?;
    let hours = field(hours, 23)?;
    Some(hours * 3_600 + minutes_of(rest)?)
}

// Reads MM or MM:SS, in seconds.
fn minutes_of(text: &[u8]) -> Option<u64>
    ensures value { result ≡ minutes_of text.now (parted 58 text.now) }
    ensures bound { IfSome result (λ seconds. seconds < 3600) }
{
    match parted(text, b':') {
        None => Some(field(text, 59)? * 60),
        Some((minutes, seconds)) => {
            let minutes = field(minutes, 59)?;
            Some(minutes * 60 + field(seconds, 59)?)
        }
    }
}

// Reads one or two digits with a value of at most `most`.
fn field(word: &[u8], most: u64) -> Option<u64>
    requires { most ≤ 59 }
    ensures value { result ≡ field most word.now }
    ensures bound { IfSome result (λ number. number ≤ most) }
{
    if word.len() > 2 {
        return None;
    }
    decimal(word, most)
}

/// Returns the first moment from `now` on that is this many seconds after a midnight.
pub(crate) fn next_moment(now: u64, seconds: u64) -> u64
    requires moment { now ≤ greatest_moment }
    requires seconds { seconds < 86400 }
    ensures { result ≡ next_moment now seconds }
{
    let today = now / SECONDS_OF_A_DAY * SECONDS_OF_A_DAY + seconds;
    if now <= today {
        today
    } else {
        today + SECONDS_OF_A_DAY
    }
}

fn is_leap(year: u64) -> bool
    ensures { result ≡ is_leap year }
{
    year % 4 == 0 && (year % 100 != 0 || year % 400 == 0)
}

fn days_in(year: u64, month: u64) -> u64
    ensures { result ≡ days_in year month }
{
    match month {
        2 => { if is_leap(year) { 29 } else { 28 } }
        4 | 6 | 9 | 11 => 30,
        _ => 31,
    }
}

// Returns the days of a common year before a month.
fn days_before(month: u64) -> u64
    ensures value { result ≡ days_before month }
    ensures bound { result ≤ 334 }
{
    match month {
        1 => 0,
        2 => 31,
        3 => 59,
        4 => 90,
        5 => 120,
        6 => 151,
        7 => 181,
        8 => 212,
        9 => 243,
        10 => 273,
        11 => 304,
        _ => 334,
    }
}

// Returns the leap days up to the end of a year.
fn leap_days(year: u64) -> u64
    requires { year < 2 ^ 16 }
    ensures value { result ≡ leap_days year }
    ensures bound { result ≤ year }
{
    year / 4 - year / 100 + year / 400
}

// Returns the days from the first of January 1970 to a day of a year from 1970 on.
fn days_to(year: u64, month: u64, day: u64) -> u64
    requires year { year < 2 ^ 16 }
    requires day { day < 2 ^ 8 }
    ensures value { result ≡ days_to year month day }
    ensures bound { result < 2 ^ 26 }
{
    let leap_day = if is_leap(year) && 2 < month { 1 } else { 0 };
    let leaps = leap_days(year.saturating_sub(1)).saturating_sub(477);
    let days = 365 * year.saturating_sub(1_970) + leaps + days_before(month) + leap_day;
    days + day.saturating_sub(1)
}

/// Returns whether the fields are in their ranges (RFC 2579, DateAndTime).
pub(crate) fn is_date(date: &DateTime) -> bool
    ensures { result ≡ is_date date.now }
{
    is_day(date) && is_time(date) && is_offset(date)
}

fn is_day(date: &DateTime) -> bool
    ensures { result ≡ is_day date.now }
{
    1 <= date.month
        && date.month <= 12
        && 1 <= date.day
        && u64::from(date.day) <= days_in(u64::from(date.year), u64::from(date.month))
}

// A minute may have 61 seconds.
fn is_time(date: &DateTime) -> bool
    ensures { result ≡ is_time date.now }
{
    date.hour <= 23 && date.minute <= 59 && date.second <= 60
}

fn is_offset(date: &DateTime) -> bool
    ensures { result ≡ is_offset date.now }
{
    (date.utc_direction == b'+' || date.utc_direction == b'-')
        && date.utc_hours <= 14
        && date.utc_minutes <= 59
}

/// Returns the seconds since 1970 of a date. One before 1970 counts as 0.
pub(crate) fn seconds_of(date: &DateTime) -> u64
    ensures { result ≡ seconds_of date.now }
{
    if date.year < 1970 {
        return 0;
    }
    let offset = u64::from(date.utc_hours) * 3_600 + u64::from(date.utc_minutes) * 60;
    let local = local_seconds(date);
    if date.utc_direction == b'+' {
        local.saturating_sub(offset)
    } else {
        local + offset
    }
}

fn local_seconds(date: &DateTime) -> u64
    ensures value { result ≡ local_seconds date.now }
    ensures bound { result < 2 ^ 44 }
{
    let days = days_to(
        u64::from(date.year),
        u64::from(date.month),
        u64::from(date.day),
    );
    let time = u64::from(date.hour) * 3_600 + u64::from(date.minute) * 60 + u64::from(date.second);
    days * SECONDS_OF_A_DAY + time
}
