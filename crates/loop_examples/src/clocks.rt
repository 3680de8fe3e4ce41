//! Clocks in memory.
ghost use Rattle.std.specs.Prelude.{◌≡◌, None};

use service_loop::Times;
use spool_types::Moment;

/// Clocks that a read moves on: the first by a millisecond, the service's time by a second.
#[derive(Drop)]
pub struct MemTimes {
    micros: u64,
    millis: u64,
    told: Option<Option<u64>>,
}

impl MemTimes {
    /// The service's time begins at this number of milliseconds since 1970.
    pub fn new(millis: u64) -> MemTimes
        ensures { result.told ≡ None }
    {
        MemTimes {
            micros: 0,
            millis,
            told: None,
        }
    }
}

impl Times for MemTimes {
    ghost told = { λ t. t.told };

    fn micros(&mut self) -> u64 {
        self.micros = self.micros.saturating_add(1_000);
        self.micros
    }

    fn system(&mut self, table: Moment) -> Option<u64> {
        self.millis = self.millis.saturating_add(1_000).max(table.get() * 1_000);
        let millis = Some(self.millis);
        self.told = Some(millis);
        millis
    }

    fn nap(&mut self, micros: u64) {
        self.micros = self.micros.saturating_add(micros);
    }
}
