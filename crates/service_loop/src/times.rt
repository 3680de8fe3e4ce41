//! The clocks of the service.
ghost use Rattle.std.specs.Prelude.{◌≡◌, ◌*◌, ◌≤◌, ℕ, Option, IfSome};

use spool_types::Moment;

/// Reads the clocks.
pub trait Times {
    /// The last time of the service, or none if it is not reported.
    ghost told: { Self → Option (Option ℕ) };

    /// The microseconds since some fixed moment. They never decrease.
    fn micros(&mut self) -> u64
        ensures told { told self.new ≡ told self.old };

    /// The same in whole milliseconds.
    fn millis(&mut self) -> u64
        ensures told { told self.new ≡ told self.old }
    {
        self.micros() / 1_000
    }

    /// The time of the service in milliseconds since 1970, if a clock can be read. It goes on with the microseconds, whatever the system's
    /// clock does, and is not before the table's moment.
    fn system(&mut self, table: Moment) -> Option<u64>
        ensures told { IfSome (told self.new) (λ last. last ≡ result) }
        ensures table { IfSome result (λ now. table * 1000 ≤ now) };

    /// Waits for this number of microseconds. Nothing ends the wait early.
    fn nap(&mut self, micros: u64)
        ensures told { told self.new ≡ told self.old };
}
