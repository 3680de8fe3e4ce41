//! Job numbers and moments.
ghost use Rattle.std.specs.Prelude.{◌≡◌, ◌+◌, ◌≤◌, ◌↔◌, min, IsSome, IfSome};
ghost use Rattle.spool_types.specs.Limits.{greatest_number, greatest_moment};

use std::marker::Model;

/// The number of a job (job-id, RFC 8011).
#[derive(Clone, Copy, Debug, PartialEq, Eq, PartialOrd, Ord)]
pub struct JobId {
    number: u32,
}

impl Model for JobId {
    ghost use Rattle.std.specs.Prelude.{ℕ, ◌≤◌};
    ghost use Rattle.spool_types.specs.Limits.{greatest_number};

    ghost Value = { ℕ };

    ghost view = { λ a. a.number };

    ghost invariant = { λ a. (1 ≤ a.number) × (a.number ≤ greatest_number) };

    ghost inverse = { λ n. record { number = n } };
}

impl JobId {
    /// The greatest job number.
    pub const GREATEST: u32 = 2_147_483_647;

    /// Returns the number if it is from 1 to 2,147,483,647.
    pub fn new(number: u32) -> Option<JobId>
        ensures in_range { IsSome result ↔ ((1 ≤ number) × (number ≤ greatest_number)) }
        ensures value { IfSome result (λ id. id ≡ number) }
    {
        if 1 <= number && number <= JobId::GREATEST {
            Some(JobId { number })
        } else {
            None
        }
    }

    /// Returns the number.
    pub fn get(self) -> u32
        ensures value { result ≡ self }
        ensures at_least { 1 ≤ result }
        ensures at_most { result ≤ greatest_number }
    {
        self.number
    }
}

/// A point in time: seconds since an origin that the clock of the script defines.
#[derive(Clone, Copy, Debug, PartialEq, Eq, PartialOrd, Ord)]
pub struct Moment {
    seconds: u64,
}

impl Model for Moment {
    ghost use Rattle.std.specs.Prelude.{ℕ, ◌≤◌};
    ghost use Rattle.spool_types.specs.Limits.{greatest_moment};

    ghost Value = { ℕ };

    ghost view = { λ a. a.seconds };

    ghost invariant = { λ a. a.seconds ≤ greatest_moment };

    ghost inverse = { λ n. record { seconds = n } };
}

impl Moment {
    /// The origin.
    pub const ZERO: Moment = Moment { seconds: 0 };

    /// The greatest moment, in seconds.
    pub const GREATEST: u64 = 4_000_000_000_000;

    /// Returns the moment after this number of seconds, if it is at most 4,000,000,000,000.
    pub fn new(seconds: u64) -> Option<Moment>
        ensures in_range { IsSome result ↔ (seconds ≤ greatest_moment) }
        ensures value { IfSome result (λ moment. moment ≡ seconds) }
    {
        if seconds <= Moment::GREATEST {
            Some(Moment { seconds })
        } else {
            None
        }
    }

    /// Returns the moment that is this number of seconds later, or the greatest moment if that is earlier.
    pub fn plus(self, seconds: u64) -> Moment
        ensures { result ≡ min (self + seconds) greatest_moment }
    {
        Moment {
            seconds: self.seconds.saturating_add(seconds).min(Moment::GREATEST),
        }
    }

    /// Returns the number of seconds.
    pub fn get(self) -> u64
        ensures value { result ≡ self }
        ensures at_most { result ≤ greatest_moment }
    {
        self.seconds
    }
}
