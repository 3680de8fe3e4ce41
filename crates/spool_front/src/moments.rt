//! Moments by the time of the service.
ghost use Rattle.std.specs.Prelude.{◌≡◌};
ghost use Rattle.spool_front.specs.ServiceMoments.{are_apart, clocks_of, hold_moment, is_absolute, second_of, shifted, until_day};

use crate::client::Client;
use crate::fault::Fault;
use front_words::{Hold, JobAct, Moment, Submission};
use std::time::SystemTime;

// The seconds of a day.
const DAY: u64 = 86_400;

// How many seconds the clocks may differ before absolute moments are shifted.
const MOST_APART: u64 = 2;

/// The time of the service and the system's clock, in seconds since 1970.
#[derive(Clone, Copy)]
pub struct Clocks {
    pub service: u64,
    pub system: u64,
}

// What is not read if no moment is given.
const UNREAD: Clocks = Clocks {
    service: 0,
    system: 0,
};

impl Clocks {
    /// Returns a moment by the service's time. A relative moment counts from the service's time. An absolute one, which is a moment of the
    /// system's clock, is shifted by the difference if this is more than two seconds.
    pub fn second_of(self, moment: Moment) -> u64
        ensures { result ≡ second_of self moment }
    {
        match moment {
            Moment::FromNow(seconds) => self.service.saturating_add(seconds),
            Moment::OfDay(second) => self.service.saturating_add(until_day(self.service, second)),
            Moment::Epoch(seconds) if self.are_apart() => self.shifted(seconds),
            Moment::Epoch(seconds) => seconds,
        }
    }

    fn are_apart(self) -> bool
        ensures { result ≡ are_apart self }
    {
        MOST_APART < self.service.abs_diff(self.system)
    }

    fn shifted(self, seconds: u64) -> u64
        ensures { result ≡ shifted self seconds }
    {
        seconds
            .saturating_add(self.service)
            .saturating_sub(self.system)
    }
}

// Returns the seconds until the next moment at this second of a day.
fn until_day(now: u64, second: u32) -> u64
    ensures { result ≡ until_day now second }
{
    (u64::from(second) + DAY - now % DAY) % DAY
}

/// Reads the clocks for the moments of a submission.
pub fn clocks_for_job(
    rt: &HostRuntime,
    client: &mut Client<'_>,
    asked: &Submission<'_>,
) -> Result<Clocks, Fault> {
    clocks_for(rt, client, hold_moment(asked.hold), asked.by)
}

/// Reads the clocks for the moment of an action on jobs.
pub fn clocks_for_act(
    rt: &HostRuntime,
    client: &mut Client<'_>,
    act: JobAct,
) -> Result<Clocks, Fault> {
    match act {
        JobAct::Hold(moment) => clocks_for(rt, client, moment, None),
        _ => Ok(UNREAD),
    }
}

// Returns the moment until which a job is held.
fn hold_moment(hold: Hold) -> Option<Moment>
    ensures { result ≡ hold_moment hold }
{
    match hold {
        Hold::Until(moment) => Some(moment),
        _ => None,
    }
}

// Reads the clocks if a moment is given, and notes that an absolute one is shifted.
fn clocks_for(
    rt: &HostRuntime,
    client: &mut Client<'_>,
    first: Option<Moment>,
    second: Option<Moment>,
) -> Result<Clocks, Fault> {
    if first.is_none() && second.is_none() {
        return Ok(UNREAD);
    }
    let told = client.now()?;
    let clocks = clocks_of(told, now(rt)?);
    if clocks.are_apart() && (is_absolute(first) || is_absolute(second)) {
        note_shift(rt, clocks)?;
    }
    Ok(clocks)
}

// A service that does not know `now` has the system's clock.
fn clocks_of(told: Option<u64>, system: u64) -> Clocks
    ensures { result ≡ clocks_of told system }
{
    Clocks {
        service: told.unwrap_or(system),
        system,
    }
}

fn is_absolute(moment: Option<Moment>) -> bool
    ensures { result ≡ is_absolute moment }
{
    matches!(moment, Some(Moment::Epoch(_)))
}

fn note_shift(rt: &HostRuntime, clocks: Clocks) -> Result<(), Fault> {
    let apart = clocks.service.abs_diff(clocks.system);
    let (first, second) = if clocks.system < clocks.service {
        ("service's time", "system's clock")
    } else {
        ("system's clock", "service's time")
    };
    eprintln!(rt;
        "spool: the {first} is {apart} s ahead of the {second}; the moment is shifted by as much"
    )?;
    Ok(())
}

/// Returns the seconds since 1970, or 0 if the clock is before 1970.
pub fn now(rt: &HostRuntime) -> Result<u64, Fault> {
    let Ok(now) = SystemTime::now(rt) else {
        return Err(Fault::Words("cannot read the clock"));
    };
    match now.duration_since(SystemTime::UNIX_EPOCH) {
        Ok(passed) => Ok(passed.as_secs()),
        Err(_) => Ok(0),
    }
}
