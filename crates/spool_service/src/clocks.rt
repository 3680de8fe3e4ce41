//! The clocks: the steady clock of the system, and the time of the service.
ghost use Rattle.std.specs.Prelude.{◌≡◌, ◌≤◌, ◌^◌, ◌/◌, ◌*◌, ℕ, Option, None, IfSome};
ghost use Rattle.std.specs.Option.{option_map};
ghost use Rattle.service_rules.specs.ServiceTime.{read};

use log::{Log, info, warn};
use service_loop::Times;
use service_rules::{ClockState, News, Reading, ServiceTime, clock_state, is_news};
use spool_types::Moment;
use std::thread;
use std::time::{Clock, Duration, Instant, SystemTime};

// The greatest number of milliseconds or microseconds that is reported.
const MOST: u128 = 1 << 60;

const MILLISECOND: u64 = 1_000;

const SECOND: u64 = 1_000;

/// The clocks, and the time of the service. If the steady clock cannot be read, it keeps its last value.
#[derive(Drop)]
pub struct SystemTimes<'a, L, R> {
    log: &'a L,
    rt: &'a R,
    start: Option<Instant>,
    last: u64,
    // The time at the last reading, and what the log says of the system's clock.
    time: Option<ServiceTime>,
    news: Option<News>,
}

impl<'a, L: Log, R: Clock> SystemTimes<'a, L, R> {
    pub fn new(log: &'a L, rt: &'a R) -> SystemTimes<'a, L, R>
        ensures last { result.last ≡ 0 }
        ensures time { result.time ≡ None }
        ensures news { result.news ≡ None }
    {
        SystemTimes {
            log,
            rt,
            start: Instant::now(rt).ok(),
            last: 0,
            time: None,
            news: None,
        }
    }

    // The microseconds of the steady clock.
    fn steady_clock(&mut self) -> u64
        ensures never_back { self.old.last ≤ result }
        ensures kept { self.new ≡ record self.old { last = result } }
    {
        if let Some(start) = self.start {
            if let Ok(passed) = start.elapsed(self.rt) {
                let micros = passed.as_micros().min(MOST) as u64;
                self.last = self.last.max(micros);
            }
        }
        self.last
    }

    // The system's clock in milliseconds since 1970, and 0 before that, if it can be read.
    fn system_clock(&self) -> Option<u64>
        ensures { IfSome result (λ now. now ≤ 2 ^ 60) }
    {
        let now = SystemTime::now(self.rt).ok()?;
        match now.duration_since(SystemTime::UNIX_EPOCH) {
            Ok(passed) => Some(passed.as_millis().min(MOST) as u64),
            Err(_) => Some(0),
        }
    }

    // Logs whether the system's clock agrees with the time, if it is news.
    fn note_state(&mut self, time: ServiceTime, system: u64)
        ensures { self.new ≡ record self.old { news = self.new.news } }
    {
        let state = clock_state(&time, system);
        let steady = time.steady;
        if is_news(self.news, state, steady) {
            self.log_state(time.time, system, state);
            self.news = Some(News { state, steady });
        }
    }

    fn log_state(&self, time: u64, system: u64, state: ClockState) {
        match state {
            ClockState::Along => info!(self.log; "the service's time follows the system's clock"),
            ClockState::Behind => {
                let ahead = time.saturating_sub(system) / SECOND;
                warn!(self.log;
                    "the service's time is {ahead} s ahead of the system's clock, and continues by the steady clock"
                );
            }
            ClockState::Ahead => {
                let ahead = system.saturating_sub(time) / SECOND;
                warn!(self.log;
                    "the system's clock is {ahead} s ahead of the service's time, which follows it if this lasts for ten minutes"
                );
            }
        }
    }
}

impl<'a, L: Log, R: Clock> Times for SystemTimes<'a, L, R> {
    ghost told = { λ _. None };

    fn micros(&mut self) -> u64
        ensures never_back { self.old.last ≤ result }
        ensures kept { self.new.last ≡ result }
        ensures time { self.new.time ≡ self.old.time }
    {
        self.steady_clock()
    }

    // The time of the service after one more reading: whatever the system's clock shows, the time goes on by the steady clock.
    fn system(&mut self, table: Moment) -> Option<u64>
        ensures read { (system : Option ℕ) × (self.new.time ≡ read self.old.time (record { system = system; steady = self.new.last / 1000; table = table })) }
        ensures value { result ≡ option_map (λ time. time.time) self.new.time }
        ensures table { IfSome result (λ now. table * 1000 ≤ now) }
        ensures steady { self.old.last ≤ self.new.last }
    {
        let steady = self.steady_clock() / MILLISECOND;
        let system = self.system_clock();
        let clocks = Reading {
            system,
            steady,
            table,
        };
        let time = ServiceTime::read(self.time, clocks);
        self.time = time;
        if let (Some(time), Some(system)) = (time, system) {
            self.note_state(time, system);
        }
        Some(time?.time)
    }

    fn nap(&mut self, micros: u64) {
        thread::sleep(self.rt, Duration::from_micros(micros));
    }
}
