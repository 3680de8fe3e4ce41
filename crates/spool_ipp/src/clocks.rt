//! The clocks of the system.
use ipp_sockets::Times;
use std::alloc::AllocError;
use std::random::RandomSource;
use std::time::{Instant, SystemTime};

/// The clocks of the system, and its random numbers.
#[derive(Drop)]
pub struct SystemTimes<'a> {
    rt: &'a HostRuntime,
    start: Option<Instant>,
    last: u64,
}

impl<'a> SystemTimes<'a> {
    pub fn new(rt: &'a HostRuntime) -> SystemTimes<'a> {
        SystemTimes {
            rt,
            start: Instant::now(rt).ok(),
            last: 0,
        }
    }
}

impl<'a> Times for SystemTimes<'a> {
    fn millis(&mut self) -> u64 {
        if let Some(start) = self.start {
            if let Ok(passed) = start.elapsed(self.rt) {
                let millis = passed.as_millis().min(1 << 60) as u64;
                self.last = self.last.max(millis);
            }
        }
        self.last
    }

    fn seconds(&mut self) -> u64 {
        let Ok(now) = SystemTime::now(self.rt) else {
            return 0;
        };
        match now.duration_since(SystemTime::UNIX_EPOCH) {
            Ok(passed) => passed.as_secs(),
            Err(_) => 0,
        }
    }

    fn token(&mut self) -> Result<Option<String>, AllocError> {
        let mut bytes = [0u8; 8];
        if self.rt.fill_bytes(&mut bytes).is_err() {
            return Ok(None);
        }
        let high = u64::from_be_bytes(bytes);
        if self.rt.fill_bytes(&mut bytes).is_err() {
            return Ok(None);
        }
        let low = u64::from_be_bytes(bytes);
        Ok(Some(format!(in self.rt.alloc(); "{high:016x}{low:016x}")?))
    }
}
