//! The loop: serves clients while children run.
ghost use Rattle.std.specs.Prelude.{◌≡◌, ◌↔◌, ◌*◌, ◌-◌, ◌^◌, ◌||◌, ◌<◌, ◌≤◌, ℕ, List, Option, is_some, length, map, min, nat_eq, true, false, None, IfOk, IfSome, IsTrue, OnErr, OnOk, Ok, Err};
ghost use Rattle.slab.specs.Slab.{get};
ghost use Rattle.std.specs.Option.{option_map};
ghost use Rattle.service_rules.specs.Bounds.{millisecond, most_clients};
ghost use Rattle.print_rounds.specs.RoundTicks.{count_running};
ghost use Rattle.service_rules.specs.ChildPolling.{earlier, next_look};
ghost use Rattle.service_loop.specs.Endings.{Sends, signalled, signals_due};
ghost use Rattle.service_loop.specs.declared.endings.Ending.{Ending};
ghost use Rattle.service_loop.specs.LoopWaits.{IsEndedBy, check_bound, clock_bound, lasted_after, longest_end, loop_wait};
ghost use Rattle.service_loop.specs.StagesAtRest.{IsQuiet};
ghost use Rattle.service_loop.specs.ServiceCalls.{GoesWithin};
ghost use Rattle.service_loop.specs.SlotHistories.{GoesByEvents};
ghost use Rattle.service_loop.specs.ServiceTurns.{AreAtRest, HasNoneToPurge, HasTicked, HasTriedAtMost, HasTurned, IsTimely, KeepsTime, has_moved, has_new_client_waiting};

use crate::bounds::{LONGEST_END, LONGEST_IDLE, MOST_ACCEPTED};
use crate::clients::{Clients, Turns};
use crate::events::{EventLine, Records};
use crate::fault::ServiceFault;
use crate::known_jobs::KnownJobs;
use crate::listener::{AcceptOutcome, Listener, Readiness};
use crate::maintenance::Maintenance;
use crate::shared::Shared;
use crate::signals::Signals;
use crate::times::Times;
use child_pipeline::Children;
use log::{Log, debug, error, info};
use print_rounds::{Round, RoundFault};
use service_rules::bounds::MILLISECOND;
use service_rules::{Admission, next_look, pause_for, poll_wait};
use spool_disk::Disk;
use spool_engine::Engine;
use spool_types::Moment;
use std::alloc::{AllocError, Global};
use std::io;

/// The limits of maintenance.
#[derive(Clone, Copy, Debug)]
pub struct Keeping {
    /// How many ended jobs are retained.
    pub jobs: usize,
    /// A checkpoint is made if the free room is below this percentage of the room that the last checkpoint left, before the first one of
    /// the area.
    pub room: u8,
    /// The size of an area of the disk in bytes.
    pub area: u64,
    /// How long an incoming job stays whose client has disconnected, in milliseconds.
    pub incoming: u64,
}

/// The limits on what a service does at once.
#[derive(Clone, Copy, Debug)]
pub struct Limits {
    /// How many children run at once.
    pub children: usize,
    /// How many clients have a place, at most 1,000.
    pub clients: usize,
}

/// The service of one engine, with its clients.
#[derive(Drop)]
pub struct Service<'a, L, D: Disk, C: Children, R: Listener> {
    log: &'a L,
    alloc: Global,
    shared: Shared<D, C>,
    clients: Clients<R::Stream>,
    maintenance: Maintenance,
    // When the youngest child was started, and how long it had run when a child's end was last seen, in microseconds.
    begun: u64,
    lasted: u64,
    // Whether there is more to do at once.
    more: bool,
    // Whether a new client may be connecting, and whether the last one could not be accepted, which is logged once.
    has_new_client: bool,
    barred: bool,
    // When the end was requested. The service then waits for processing jobs.
    ends: Option<u64>,
}

impl<'a, L: Log, D: Disk + Drop, C: Children + Drop, R: Listener> Service<'a, L, D, C, R> {
    /// A service of an engine, within these limits. The first change has the number after `last_change`. If this is greater
    /// than each number that an earlier service gave, none of those is known.
    pub fn new(
        log: &'a L,
        alloc: Global,
        limits: Limits,
        engine: Engine<D, C>,
        keeping: Keeping,
        last_change: u64,
    ) -> Result<Service<'a, L, D, C, R>, AllocError>
        ensures engine { IfOk result (λ service. service.shared.engine ≡ engine) }
        ensures most { IfOk result (λ service. service.shared.most ≡ limits.children) }
        ensures places { IfOk result (λ service. service.clients.places ≡ min limits.clients most_clients) }
        ensures area { IfOk result (λ service. service.shared.area ≡ keeping.area) }
        ensures clients { IfOk result (λ service. (key : ℕ) → get service.clients.slots key ≡ None) }
        ensures maintenance { IfOk result (λ service. (service.maintenance.keep ≡ keeping.jobs) × (service.maintenance.percent ≡ keeping.room) × (service.maintenance.area ≡ keeping.area) × (service.maintenance.limit ≡ keeping.incoming)) }
        ensures starts { IfOk result (λ service. (service.more ≡ true) × (service.has_new_client ≡ true) × (service.barred ≡ false) × (service.ends ≡ None) × (service.begun ≡ 0) × (service.lasted ≡ 0)) }
    {
        let maintenance = Maintenance::new(
            alloc,
            keeping.jobs,
            keeping.room,
            keeping.area,
            keeping.incoming,
        )?;
        let records = Records::new(alloc, last_change)?;
        let known = KnownJobs::of_table(alloc, engine.table(), 0)?;
        let engine = engine.into_staging();
        Ok(Service {
            log,
            alloc,
            shared: Shared::new(alloc, limits.children, keeping.area, engine, records, known),
            clients: Clients::new(alloc, limits.clients)?,
            maintenance,
            begun: 0,
            lasted: 0,
            more: true,
            has_new_client: true,
            barred: false,
            ends: None,
        })
    }

    /// Serves until a client ends the service, or the disk or the wait for readiness fails.
    pub fn serve<T: Times, S: Signals>(
        &mut self,
        listener: &mut R,
        times: &mut T,
        signals: &mut S,
    ) -> Result<(), ServiceFault>
        // However it ends, its engine changed by calls alone.
        ensures calls { GoesWithin D.device self.old.shared.most self.old.shared.engine self.new.shared.most self.new.shared.engine }
        // A client was sent the texts of its own turns and changes alone, and left its slot for one of the listed causes alone. No request
        // was served that the roles do not allow to its client.
        ensures history { GoesByEvents D.device R.Stream.view self.old.shared.engine self.old.clients.slots self.new.shared.engine self.new.clients.slots }
        ensures disk { result ≡ Err ServiceFault.Disk → self.new.shared.engine.run_state.spool.dead ≡ true }
    {
        for _ in 0..u64::MAX {
            if !self.turn(listener, times, signals)? {
                break;
            }
        }
        info!(self.log; "stopped");
        Ok(())
    }

    // One turn of the loop. Returns whether another follows.
    fn turn<T: Times, S: Signals>(
        &mut self,
        listener: &mut R,
        times: &mut T,
        signals: &mut S,
    ) -> Result<bool, ServiceFault>
        ensures calls { GoesWithin D.device self.old.shared.most self.old.shared.engine self.new.shared.most self.new.shared.engine }
        ensures history { GoesByEvents D.device R.Stream.view self.old.shared.engine self.old.clients.slots self.new.shared.engine self.new.clients.slots }
        ensures turned { OnOk result (HasTurned D.device self.old.shared.engine self.new.maintenance (T.told times.new) self.new.more self.new.shared.engine) }
        // Unless there is more to do at once, nothing is left undone, so no client waits for the next wait to end.
        ensures clients { OnOk result (self.new.more ≡ false → AreAtRest self.new.clients.slots) }
        ensures maintenance { OnOk result (self.new.more ≡ false → HasNoneToPurge self.new.maintenance) }
        ensures listener { OnOk result (self.new.more ≡ false → has_new_client_waiting self.new.has_new_client self.new.barred self.new.ends ≡ false) }
        ensures disk { result ≡ Err ServiceFault.Disk → self.new.shared.engine.run_state.spool.dead ≡ true }
        // A fault of the device ends the service, also if no client met it.
        ensures alive { OnOk result (self.new.shared.engine.run_state.spool.dead ≡ false) }
    {
        self.wait(listener, times)?;
        let now = times.millis();
        // Before the clients are served, so that they are sent the changes of the last turn.
        let over = self.is_over(now);
        self.let_in(listener, now)?;
        let turns = self.serve_clients(signals, now);
        let fresh = self.refresh_time(times)?;
        let ticked = self.tick(times);
        let kept = self.maintain(times)?;
        self.note_more(turns, ticked, kept, fresh);
        self.log_events();
        self.notify_changes()?;
        if self.shared.engine.met_fault() {
            return Err(ServiceFault::Disk);
        }
        Ok(!over)
    }

    // Notes whether there is more to do at once. After the end of an attempt the next job of its queue is started. New clients that are
    // already waiting cause no further readiness.
    fn note_more(&mut self, turns: Turns, ticked: bool, kept: bool, fresh: bool)
        ensures more { self.new.more ≡ (turns.more || (turns.served || (ticked || (kept || (fresh || has_new_client_waiting self.old.has_new_client self.old.barred self.old.ends))))) }
        ensures kept { self.new ≡ record self.old { more = self.new.more } }
    {
        let has_new_client = self.has_new_client && !self.barred && self.ends.is_none();
        self.more = turns.more || turns.served || ticked || kept || fresh || has_new_client;
    }

    // Gives each client a turn, and handles the results.
    fn serve_clients<S: Signals>(&mut self, signals: &mut S, now: u64) -> Turns
        ensures calls { GoesWithin D.device self.old.shared.most self.old.shared.engine self.new.shared.most self.new.shared.engine }
        ensures history { GoesByEvents D.device R.Stream.view self.old.shared.engine self.old.clients.slots self.new.shared.engine self.new.clients.slots }
        ensures rests { result.more ≡ false → AreAtRest self.new.clients.slots }
        // The children that must still end were sent the signals that were due.
        ensures ended { (asked : List Ending) × (self.new.shared.endings.list.items ≡ map (signalled now) asked) × Sends (S.sent signals.old) (S.sent signals.new) (signals_due now asked) }
    {
        let turns = self.clients.serve(&mut self.shared, now);
        self.handle_turns(turns, now);
        self.shared.end_children(signals, now);
        turns
    }

    // Waits until something is ready, and notes it.
    fn wait<T: Times>(&mut self, listener: &mut R, times: &mut T) -> Result<(), ServiceFault>
        ensures engine { self.new.shared.engine ≡ self.old.shared.engine }
        ensures most { self.new.shared.most ≡ self.old.shared.most }
        ensures history { GoesByEvents D.device R.Stream.view self.old.shared.engine self.old.clients.slots self.new.shared.engine self.new.clients.slots }
        ensures fault { OnErr result (result ≡ Err ServiceFault.Socket) }
    {
        let millis = match self.pause(times) {
            Some(micros) => {
                let pause = pause_for(micros);
                if 0 < pause.nap {
                    times.nap(pause.nap);
                }
                Some(pause.poll)
            }
            None => None,
        };
        match listener.wait(millis) {
            Ok(()) => {}
            Err(error) if error.kind() == io::ErrorKind::Interrupted => {}
            Err(_) => return Err(ServiceFault::Socket),
        }
        self.note_moment(times);
        self.note_readiness(listener);
        Ok(())
    }

    // Notes the readiness that the wait has found.
    fn note_readiness(&mut self, listener: &mut R)
        ensures engine { self.new.shared.engine ≡ self.old.shared.engine }
        ensures most { self.new.shared.most ≡ self.old.shared.most }
        ensures history { GoesByEvents D.device R.Stream.view self.old.shared.engine self.old.clients.slots self.new.shared.engine self.new.clients.slots }
    {
        for _ in 0..u32::MAX {
            let Some(readiness) = listener.next_readiness() else {
                return;
            };
            self.note_ready(readiness);
        }
    }

    // Notes that a new client may be connecting, or that a client's connection is ready.
    fn note_ready(&mut self, readiness: Readiness)
        ensures engine { self.new.shared.engine ≡ self.old.shared.engine }
        ensures most { self.new.shared.most ≡ self.old.shared.most }
        ensures history { GoesByEvents D.device R.Stream.view self.old.shared.engine self.old.clients.slots self.new.shared.engine self.new.clients.slots }
    {
        match readiness {
            Readiness::NewClient => self.has_new_client = true,
            Readiness::Client {
                key,
                writable,
                gone,
            } => self.clients.signal(key, writable, gone),
        }
    }

    // How long the next wait is at most, in microseconds: until the next check of the children, or until maintenance has something to do.
    fn pause<T: Times>(&self, times: &mut T) -> Option<u64>
        ensures wait { (ran running : ℕ) × (clock : Option ℕ) ×
            (count_running self.now.shared.engine.run_state.slots ≤ self.now.shared.most → running ≡ count_running self.now.shared.engine.run_state.slots) ×
            IfSome (T.told times.new) (λ last. clock ≡ clock_bound self.now.maintenance self.now.shared.active self.now.shared.engine.run_state.spool.state last) ×
            (left : Option ℕ) × ((now : ℕ) × (left ≡ check_bound (nat_eq (length self.now.shared.known.left) 0) self.now.maintenance.check now)) ×
            (result ≡ loop_wait self.now.more (is_some self.now.ends || (self.now.shared.full || self.now.barred)) (next_look self.now.lasted ran running) (earlier clock left)) }
    {
        let ran = times.micros().saturating_sub(self.begun);
        let running = self.shared.running();
        let look = next_look(self.lasted, ran, running);
        let clock = self.clock_bound(times);
        let left = self.check_bound(times);
        loop_wait(self.more, self.wakes(), look, poll_wait(false, clock, left))
    }

    // Whether the next wait is at most a second.
    fn wakes(&self) -> bool
        ensures { result ≡ (is_some self.now.ends || (self.now.shared.full || self.now.barred)) }
    {
        self.ends.is_some() || self.shared.full || self.barred
    }

    // How long it is until maintenance has something to do, in microseconds.
    fn clock_bound<T: Times>(&self, times: &mut T) -> Option<u64>
        ensures { IfSome (T.told times.new) (λ last. result ≡ clock_bound self.now.maintenance self.now.shared.active self.now.shared.engine.run_state.spool.state last) }
    {
        match times.system(self.shared.engine.table().now()) {
            Some(millis) => micros_of(self.maintenance.wait(&self.shared, millis)),
            None => Some(LONGEST_IDLE),
        }
    }

    // How long it is until abandoned jobs are checked, in microseconds.
    fn check_bound<T: Times>(&self, times: &mut T) -> Option<u64>
        ensures bound { (now : ℕ) × (result ≡ check_bound (nat_eq (length self.now.shared.known.left) 0) self.now.maintenance.check now) }
        ensures told { T.told times.new ≡ T.told times.old }
    {
        let now = times.millis();
        micros_of(self.maintenance.check_wait(&self.shared, now))
    }

    // Accepts new clients.
    fn let_in(&mut self, listener: &mut R, now: u64) -> Result<(), AllocError>
        ensures engine { self.new.shared.engine ≡ self.old.shared.engine }
        ensures most { self.new.shared.most ≡ self.old.shared.most }
        ensures history { GoesByEvents D.device R.Stream.view self.old.shared.engine self.old.clients.slots self.new.shared.engine self.new.clients.slots }
    {
        if !self.has_new_client || self.ends.is_some() {
            return Ok(());
        }
        for _ in 0..MOST_ACCEPTED {
            if !self.let_one_in(listener, now)? {
                return Ok(());
            }
        }
        Ok(())
    }

    // Accepts a new client. Returns whether one was there and could be accepted.
    fn let_one_in(&mut self, listener: &mut R, now: u64) -> Result<bool, AllocError>
        ensures engine { self.new.shared.engine ≡ self.old.shared.engine }
        ensures most { self.new.shared.most ≡ self.old.shared.most }
        ensures history { GoesByEvents D.device R.Stream.view self.old.shared.engine self.old.clients.slots self.new.shared.engine self.new.clients.slots }
    {
        match listener.accept() {
            AcceptOutcome::Client(connection) => {
                self.barred = false;
                let admission = self.clients.admit(listener, connection, now)?;
                self.log_admission(admission);
                Ok(true)
            }
            AcceptOutcome::Nobody => {
                self.has_new_client = false;
                Ok(false)
            }
            AcceptOutcome::Failed => {
                self.log_refusal();
                self.barred = true;
                Ok(false)
            }
        }
    }

    // Logs once that clients cannot be accepted.
    fn log_refusal(&self) {
        if !self.barred {
            error!(self.log; "cannot accept a client");
        }
    }

    fn log_admission(&self, admission: Admission) {
        match admission {
            Admission::Free => {}
            Admission::InsteadOf(_) => {
                info!(self.log; "idle client disconnected to admit a new client");
            }
            Admission::Busy => info!(self.log; "client rejected: too many clients"),
        }
        debug!(self.log; "clients: {}", self.clients.len());
    }

    // Handles the result of the clients' turns: logs starved clients, notes a request to end, and whether a client watches.
    fn handle_turns(&mut self, turns: Turns, now: u64)
        ensures engine { self.new.shared.engine ≡ self.old.shared.engine }
        ensures most { self.new.shared.most ≡ self.old.shared.most }
        ensures clients { self.new.clients ≡ self.old.clients }
    {
        self.log_starved(turns.starved);
        if turns.shutdown && self.ends.is_none() {
            info!(self.log; "shutting down: {} children running", self.shared.running());
            self.ends = Some(now);
            self.shared.ends = true;
        }
        self.shared.watched = self.clients.watch();
    }

    fn log_starved(&self, starved: usize) {
        if 0 < starved {
            error!(self.log; "out of memory: {starved} clients disconnected");
        }
    }

    // One tick, and when a child was started in it. Clients have a turn after each tick. Returns whether a stage was started or finished.
    // After a request to end no job is started, and processing jobs continue.
    fn tick<T: Times>(&mut self, times: &mut T) -> bool
        ensures calls { GoesWithin D.device self.old.shared.most self.old.shared.engine self.new.shared.most self.new.shared.engine }
        ensures ticked { HasTicked D.device self.old.shared.engine result self.new.shared.engine }
        ensures kept { self.new ≡ record self.old { shared = self.new.shared; begun = self.new.begun; lasted = self.new.lasted } }
    {
        let looked = times.micros();
        let counts = self.shared.tick();
        self.note_times(times, &counts, looked);
        let moved = has_moved(&counts);
        if let Err(fault) = counts {
            self.log_fault(fault);
        }
        moved
    }

    // Notes how long the youngest child had run at a check that saw a child's end, and when a child was started.
    fn note_times<T: Times>(
        &mut self,
        times: &mut T,
        counts: &Result<Round, RoundFault>,
        looked: u64,
    )
        ensures kept { self.new ≡ record self.old { shared = self.new.shared; begun = self.new.begun; lasted = self.new.lasted } }
        ensures shared { self.new.shared ≡ record self.old.shared { started = self.new.shared.started } }
        ensures lasted { self.new.lasted ≡ lasted_after counts.now (looked - self.old.begun) self.old.lasted }
        ensures begun { self.old.shared.started ≡ false → self.new.begun ≡ self.old.begun }
        ensures noted { self.new.shared.started ≡ false }
    {
        self.lasted = lasted_after(counts, looked.saturating_sub(self.begun), self.lasted);
        if self.shared.started {
            self.shared.started = false;
            self.begun = times.micros();
        }
    }

    // Sends the engine the system's time before a tick that may see the end of a stage which is retried after an interval. Returns whether it
    // did.
    fn refresh_time<T: Times>(&mut self, times: &mut T) -> Result<bool, AllocError>
        ensures calls { GoesWithin D.device self.old.shared.most self.old.shared.engine self.new.shared.most self.new.shared.engine }
        ensures kept { self.new ≡ record self.old { shared = self.new.shared; maintenance = self.new.maintenance } }
    {
        match times.system(self.shared.engine.table().now()) {
            Some(millis) => self.maintenance.refresh_time(&mut self.shared, millis),
            None => Ok(false),
        }
    }

    fn log_fault(&self, fault: RoundFault) {
        match fault {
            RoundFault::Full => {}
            RoundFault::Memory => error!(self.log; "out of memory: the tick will be retried"),
            RoundFault::Dead | RoundFault::Disk => error!(self.log; "disk failed"),
        }
    }

    // Sends the time, purges, and makes a checkpoint, each if it is due. Returns whether it did one of these, so that there may be more to
    // do: a Clock may end a job that a client waits for, or let a job start, and so may a checkpoint that made room.
    fn maintain<T: Times>(&mut self, times: &mut T) -> Result<bool, AllocError>
        ensures calls { GoesWithin D.device self.old.shared.most self.old.shared.engine self.new.shared.most self.new.shared.engine }
        ensures time { OnOk result (KeepsTime D.device self.old.shared.engine self.new.maintenance (T.told times.new) self.new.shared.engine) }
        ensures idle { result ≡ Ok false → HasNoneToPurge self.new.maintenance × HasTriedAtMost D.device self.old.shared.engine self.new.shared.engine }
        ensures kept { self.new ≡ record self.old { shared = self.new.shared; maintenance = self.new.maintenance } }
    {
        // Before the table is asked for further ended jobs: a client that waits for one of these has its row in the next turn.
        let purged = self.maintenance.purge(&mut self.shared)?;
        let canceled = self.cancel_abandoned(times)?;
        let told = self.announce_time(times)?;
        let made = self.make_checkpoint(times)?;
        let left = self.maintenance.has_some_to_purge();
        Ok(told || purged || canceled || made || left)
    }

    // Cancels an incoming job that its client has abandoned, if there is one. Returns whether it did.
    fn cancel_abandoned<T: Times>(&mut self, times: &mut T) -> Result<bool, AllocError>
        ensures calls { GoesWithin D.device self.old.shared.most self.old.shared.engine self.new.shared.most self.new.shared.engine }
        ensures silent { result ≡ Ok false → self.new.shared.engine ≡ self.old.shared.engine }
        ensures kept { self.new ≡ record self.old { shared = self.new.shared; maintenance = record self.old.maintenance { check = self.new.maintenance.check } } }
    {
        let now = times.millis();
        let Some(job) = self.maintenance.cancel_abandoned(&mut self.shared, now)? else {
            return Ok(false);
        };
        info!(self.log; "job {} canceled: its client disconnected before it was closed", job.get());
        Ok(true)
    }

    // Sends the engine the service's time, if a clock can be read and something is due. Returns whether it did.
    fn announce_time<T: Times>(&mut self, times: &mut T) -> Result<bool, AllocError>
        ensures calls { GoesWithin D.device self.old.shared.most self.old.shared.engine self.new.shared.most self.new.shared.engine }
        ensures timely { OnOk result (IfSome (T.told times.new) (λ last. IsTimely self.new.maintenance self.new.shared.engine.run_state.spool.state last)) }
        ensures silent { result ≡ Ok false → self.new.shared.engine ≡ self.old.shared.engine }
        ensures kept { self.new ≡ record self.old { shared = self.new.shared; maintenance = self.new.maintenance } }
    {
        match times.system(self.shared.engine.table().now()) {
            Some(millis) => self.maintenance.announce_time(&mut self.shared, millis),
            None => Ok(false),
        }
    }

    // Makes a checkpoint if one is wanted. Returns whether it was made.
    fn make_checkpoint<T: Times>(&mut self, times: &mut T) -> Result<bool, AllocError>
        ensures calls { GoesWithin D.device self.old.shared.most self.old.shared.engine self.new.shared.most self.new.shared.engine }
        ensures told { T.told times.new ≡ T.told times.old }
        ensures tried { result ≡ Ok false → HasTriedAtMost D.device self.old.shared.engine self.new.shared.engine }
        ensures maintenance { self.new.maintenance ≡ record self.old.maintenance { left = self.new.maintenance.left; last = self.new.maintenance.last } }
        ensures kept { self.new ≡ record self.old { shared = self.new.shared; maintenance = self.new.maintenance } }
    {
        let began = times.millis();
        if !self.maintenance.wants_checkpoint(&self.shared, began) {
            return Ok(false);
        }
        let made = self.maintenance.checkpoint(&mut self.shared)?;
        let ended = times.millis();
        self.maintenance.note_checkpoint(began, ended, made);
        let took = ended.saturating_sub(began);
        if made {
            info!(self.log; "checkpoint took {took} ms");
        } else {
            error!(self.log; "checkpoint failed");
        }
        Ok(made)
    }

    // Writes the lines about the events of the turn to the log.
    fn log_events(&mut self)
        ensures engine { self.new.shared.engine ≡ self.old.shared.engine }
        ensures most { self.new.shared.most ≡ self.old.shared.most }
        ensures kept { self.new ≡ record self.old { shared = self.new.shared } }
    {
        let left_out = self.shared.records.left_out;
        if 0 < left_out {
            error!(self.log; "out of memory: {left_out} events are not logged");
            self.shared.records.left_out = 0;
        }
        for line in &self.shared.records.lines {
            log_line(self.log, line);
        }
        self.shared.records.lines.clear();
    }

    // Notes the moment of the turn, for the times of the jobs and queues that change in it.
    fn note_moment<T: Times>(&mut self, times: &mut T)
        ensures engine { self.new.shared.engine ≡ self.old.shared.engine }
        ensures most { self.new.shared.most ≡ self.old.shared.most }
        ensures kept { self.new ≡ record self.old { shared = self.new.shared } }
    {
        self.shared.records.now = match times.system(self.shared.engine.table().now()) {
            Some(millis) => Moment::new(millis / 1_000),
            None => None,
        };
    }

    // Sends the watching clients what changed.
    fn notify_changes(&mut self) -> Result<(), AllocError>
        ensures engine { self.new.shared.engine ≡ self.old.shared.engine }
        ensures most { self.new.shared.most ≡ self.old.shared.most }
        ensures history { GoesByEvents D.device R.Stream.view self.old.shared.engine self.old.clients.slots self.new.shared.engine self.new.clients.slots }
        ensures still { OnOk result (self.new.more ≡ false → (self.old.more ≡ false) × (self.new.clients ≡ self.old.clients)) }
        ensures kept { self.new ≡ record self.old { shared = self.new.shared; clients = self.new.clients; more = self.new.more } }
    {
        if !self.shared.watched {
            self.shared.skip_changes();
            return Ok(());
        }
        let notes = self.shared.take_changes()?;
        if notes.is_nothing() {
            return Ok(());
        }
        let last = self.shared.records.changes.last();
        let starved = self
            .clients
            .notify(&notes, self.shared.engine.table(), last);
        self.log_starved(starved);
        self.more = true;
        Ok(())
    }

    // Whether the requested end is reached.
    fn is_over(&self, now: u64) -> bool
        ensures late { IsEndedBy self.now.ends now result }
        // Until then it is reached when no job is processing and no child runs.
        ensures quiet { count_running self.now.shared.engine.run_state.slots ≤ self.now.shared.most → IfSome self.now.ends (λ asked. now - asked < longest_end →
            IsTrue result ↔ IsQuiet self.now.shared.engine.run_state.slots self.now.shared.engine.run_state.spool.state) }
    {
        match self.ends {
            Some(asked) => LONGEST_END <= now.saturating_sub(asked) || self.shared.is_quiet(),
            None => false,
        }
    }
}

// Writes a line to the log.
fn log_line<L: Log>(log: &L, line: &EventLine) {
    let Ok(text) = str::from_utf8(&line.text) else {
        return;
    };
    if line.is_detail {
        debug!(log; "{text}");
    } else {
        info!(log; "{text}");
    }
}

// Whether a tick started or finished a stage.
fn has_moved(counts: &Result<Round, RoundFault>) -> bool
    ensures { result ≡ has_moved counts.now }
{
    match counts {
        Ok(round) => 0 < round.started || 0 < round.finished,
        Err(_) => false,
    }
}

// Returns how long the youngest child had run at the last check that saw a child's end. It had run for `ran` at the check of this tick.
fn lasted_after(counts: &Result<Round, RoundFault>, ran: u64, before: u64) -> u64
    ensures { result ≡ lasted_after counts.now ran before }
{
    match counts {
        Ok(round) => { if 0 < round.finished { ran } else { before } }
        Err(_) => before,
    }
}

// Returns how long the next wait is at most: until the next check of the children, or until maintenance has something to do. `wakes`: at most
// a second.
fn loop_wait(more: bool, wakes: bool, look: Option<u64>, clock: Option<u64>) -> Option<u64>
    ensures { result ≡ loop_wait more wakes look clock }
{
    let wait = poll_wait(more, look, clock);
    if wakes {
        poll_wait(false, wait, Some(LONGEST_IDLE))
    } else {
        wait
    }
}

// Converts a wait in milliseconds to microseconds.
fn micros_of(millis: Option<u64>) -> Option<u64>
    ensures { result ≡ option_map (λ m. min (m * millisecond) (2 ^ 64 - 1)) millis }
{
    Some(millis?.saturating_mul(MILLISECOND))
}
