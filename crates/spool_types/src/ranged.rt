//! Numbers in a range.
ghost use Rattle.std.specs.Prelude.{◌≡◌, ◌≤◌, ◌↔◌, IsSome, IfSome};

use std::marker::Model;

/// A whole number from `LEAST` to `MOST`.
#[derive(Clone, Copy, Debug, PartialEq, Eq, PartialOrd, Ord)]
pub struct Ranged<const LEAST: u32, const MOST: u32> {
    number: u32,
}

impl<const LEAST: u32, const MOST: u32> Model for Ranged<LEAST, MOST> {
    ghost use Rattle.std.specs.Prelude.{ℕ, ◌≤◌};

    ghost Value = { ℕ };

    ghost view = { λ a. a.number };

    ghost invariant = { λ a. (LEAST ≤ a.number) × (a.number ≤ MOST) };

    ghost inverse = { λ n. record { number = n } };
}

impl<const LEAST: u32, const MOST: u32> Ranged<LEAST, MOST> {
    /// Returns the number if it is in the range.
    pub fn new(number: u32) -> Option<Ranged<LEAST, MOST>>
        ensures in_range { IsSome result ↔ ((LEAST ≤ number) × (number ≤ MOST)) }
        ensures value { IfSome result (λ ranged. ranged ≡ number) }
    {
        if LEAST <= number && number <= MOST {
            Some(Ranged { number })
        } else {
            None
        }
    }

    /// Returns the number.
    pub fn get(self) -> u32
        ensures value { result ≡ self.entry }
        ensures at_least { LEAST ≤ result }
        ensures at_most { result ≤ MOST }
    {
        self.number
    }
}

/// The number of copies of a job, the fourth argument of a filter (filter(7)).
pub type Copies = Ranged<1, 9999>;

/// The priority of a job; 100 is the highest (job-priority, RFC 8011).
pub type Priority = Ranged<1, 100>;

/// The number of seconds that a queue waits before it tries a job again (JobRetryInterval, cupsd.conf(5)).
pub type Interval = Ranged<0, 86400>;

/// The number of an attempt of a job, from 1.
pub type AttemptNumber = Ranged<1, 4294967295>;

/// The number of a stage of an attempt, from 1: at most 15 filters, followed by the backend.
pub type StageNumber = Ranged<1, 16>;
