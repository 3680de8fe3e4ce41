//! The time of the service: it goes on with the steady clock, whatever the system's clock does.
ghost use Rattle.std.specs.Prelude.{◌≡◌, ℕ, ◌+◌, ◌-◌, ◌*◌, ◌^◌, ◌≤◌, ◌<◌, ◌++◌, min, List, [], ◌∷◌, IfSome, None};
ghost use Rattle.service_rules.specs.Bounds.{longest_doubt};
ghost use Rattle.service_rules.specs.ServiceTime.{AreAllAhead, after, base_of, doubted, is_far, next, next_by, read, settled, start};
ghost use Rattle.service_rules.specs.declared.service_time.Reading.{Reading as AnyReading};
ghost use Rattle.service_rules.specs.declared.service_time.ServiceTime.{ServiceTime as AnyTime};

use crate::bounds::{LONGEST_DOUBT, LONGEST_STEP};
use spool_types::Moment;

const SECOND: u64 = 1_000;

/// The clocks at one moment.
#[derive(Clone, Copy)]
pub struct Reading {
    /// The system's clock in milliseconds since 1970, if it can be read.
    pub system: Option<u64>,
    /// The steady clock in milliseconds.
    pub steady: u64,
    /// The table's moment.
    pub table: Moment,
}

/// The time of the service at its last reading of the clocks.
#[derive(Clone, Copy)]
pub struct ServiceTime {
    /// The time in milliseconds since 1970.
    pub time: u64,
    /// The steady clock then, in milliseconds.
    pub steady: u64,
    /// Since when the system's clock has been far ahead of the time, by the steady clock, if it was at the last reading.
    pub ahead: Option<u64>,
}

impl ServiceTime {
    /// The time after a reading of the clocks, if the system's clock could be read once. `last` is the time at the reading before. It goes
    /// on by the steady clock. It follows a system's clock that is ahead by at most a day at once, and one that is further ahead once it
    /// has been so for ten minutes. It is never before the table's moment.
    pub fn read(last: Option<ServiceTime>, clocks: Reading) -> Option<ServiceTime>
        ensures value { result ≡ read last clocks }
        ensures table { IfSome result (λ now. clocks.table * 1000 ≤ now.time) }
    {
        match last {
            Some(last) => Some(last.next(clocks)),
            None => ServiceTime::start(clocks),
        }
    }

    // The time at the first reading: the system's clock, or the table's moment if that is later.
    fn start(clocks: Reading) -> Option<ServiceTime>
        ensures value { result ≡ start clocks }
        ensures table { IfSome result (λ now. clocks.table * 1000 ≤ now.time) }
    {
        let system = clocks.system?;
        let table = clocks.table.get() * SECOND;
        Some(settled(system.max(table), clocks.steady))
    }

    // The time at a later reading.
    fn next(self, clocks: Reading) -> ServiceTime
        ensures value { result ≡ next self clocks }
        ensures table { clocks.table * 1000 ≤ result.time }
    {
        let steady = self.steady.max(clocks.steady);
        let (ahead, system) = (self.ahead, clocks.system);
        next_by(self.base(clocks), steady, ahead, system)
    }

    // The time by the steady clock and the table alone.
    fn base(self, clocks: Reading) -> u64
        ensures { result ≡ base_of self clocks }
    {
        let passed = clocks.steady.saturating_sub(self.steady);
        let table = clocks.table.get() * SECOND;
        self.time.saturating_add(passed).max(table)
    }
}

// The time by the steady clock and the table, or by the system's clock if that is followed.
fn next_by(base: u64, steady: u64, ahead: Option<u64>, system: Option<u64>) -> ServiceTime
    ensures value { result ≡ next_by base steady ahead system }
    ensures on { base ≤ result.time }
{
    let Some(system) = system else {
        return settled(base, steady);
    };
    if is_far(base, system) {
        doubted(base, system, steady, ahead.unwrap_or(steady))
    } else {
        settled(base.max(system), steady)
    }
}

// Whether the system's clock is so far ahead of a time that it may be wrong.
fn is_far(base: u64, system: u64) -> bool
    ensures { result ≡ is_far base system }
{
    LONGEST_STEP < system.saturating_sub(base)
}

// The time if no system's clock is far ahead.
fn settled(time: u64, steady: u64) -> ServiceTime
    ensures { result ≡ settled time steady }
{
    ServiceTime {
        time,
        steady,
        ahead: None,
    }
}

// The time if the system's clock has been far ahead since a moment of the steady clock.
fn doubted(base: u64, system: u64, steady: u64, since: u64) -> ServiceTime
    ensures { result ≡ doubted base system steady since }
{
    if LONGEST_DOUBT <= steady.saturating_sub(since) {
        settled(system, steady)
    } else {
        ServiceTime {
            time: base,
            steady,
            ahead: Some(since),
        }
    }
}

/// The time of the service over any list of readings, whatever the system's clock shows in each. A time has at most 64 bits.
pub fn time_goes_on()
    // It never falls.
    ensures on { (t : AnyTime) (readings : List AnyReading) → min t.time (2 ^ 64 - 1) ≤ (after t readings).time }

    // An interval of n milliseconds is over once the steady clock has counted n milliseconds.
    ensures over { (t : AnyTime) (readings : List AnyReading) (last : AnyReading) (n : ℕ) →
        t.steady + n ≤ last.steady → min (t.time + n) (2 ^ 64 - 1) ≤ (after t (readings ++ last ∷ [])).time }

    // It is not before the table's moment.
    ensures table { (t : AnyTime) (readings : List AnyReading) (last : AnyReading) →
        last.table * 1000 ≤ (after t (readings ++ last ∷ [])).time }

    // A system's clock that is far ahead for less than ten minutes is not followed: the time is that of the steady clock alone.
    ensures held { (t : AnyTime) (readings : List AnyReading) → t.ahead ≡ None → t.time < 2 ^ 64 → AreAllAhead t t.time readings →
        (after t readings).steady < t.steady + longest_doubt →
        (after t readings).time ≡ min (t.time + ((after t readings).steady - t.steady)) (2 ^ 64 - 1) }
{}
