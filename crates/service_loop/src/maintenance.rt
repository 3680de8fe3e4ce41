//! Maintenance: the time, the purge of ended jobs, the cancel of abandoned jobs and the checkpoint, which the service sends to its own engine as commands.
//!
//! The table is asked for the next due moment and the ended jobs to purge at most once a second, and only if something was done since
//! ([`Maintenance::look`]). It finds both without a search of its jobs. So an idle service asks for nothing and sends no command.
ghost use Rattle.std.specs.Prelude.{◌≡◌, ◌≢◌, ◌<◌, ◌≤◌, ◌-◌, ◌/◌, ◌%◌, ◌^◌, ◌&&◌, nat_eq, nat_lt, not, true, false, [], None, Some, cond, length, IfOk, IfSome, OnErr, OnOk, Ok};
ghost use Rattle.spool_types.specs.Limits.{greatest_moment};
ghost use Rattle.service_rules.specs.Checkpoints.{is_wanted, room_in};
ghost use Rattle.service_rules.specs.Clocks.{clock_for_retry, clock_to_announce, clock_wait};
ghost use Rattle.service_rules.specs.Incoming.{abandoned_until, check_wait, next_check};
ghost use Rattle.service_texts.specs.LeftJobs.{oldest_of, still_incoming};
ghost use Rattle.service_loop.specs.AbandonedJobs.{abandoned_in};
ghost use Rattle.service_loop.specs.RetryClocks.{may_retry};
ghost use Rattle.service_rules.specs.Purges.{above, purge_count, purged, swept_to};
ghost use Rattle.spool_engine.specs.EngineRuns.{is_round};
ghost use Rattle.service_loop.specs.ServiceCalls.{GoesWithin, HasAnswered, HasAnsweredAll, purges};
ghost use Rattle.job_table.specs.DueTimes.{ended_numbers, next_due};
ghost use Rattle.service_loop.specs.Due.{AreListed, clocks_found, clocks_of};
ghost use Rattle.service_loop.specs.ServiceTurns.{HasNoneToPurge, IsTimely};

use crate::shared::Shared;
use child_pipeline::Children;
use command_lines::{Answer, Command};
use job_table::Table;
use service_rules::{
    Candidate, Checkpoint, Clocks, abandoned_until, check_wait, clock_for_retry, clock_to_announce,
    clock_wait, is_wanted, jobs_to_purge, next_check, purge_count, room_in, swept_to,
};
use spool_disk::Disk;
use spool_types::{Event, JobId, Moment};
use std::alloc::{AllocError, Global};

// How many of the oldest ended jobs are listed at once.
const MOST_LISTED: usize = 1_024;

const SECOND: u64 = 1_000;

#[derive(Drop)]
pub(crate) struct Maintenance {
    // How many ended jobs are retained.
    keep: usize,
    // How many jobs had ended at the last check, less those purged since, and the oldest of them.
    ended: usize,
    listed: Vec<Candidate>,
    // The second of the last check, the moment that was sent last, and the next due moment.
    looked: Option<Moment>,
    told: Option<Moment>,
    due: Option<Moment>,
    // A checkpoint is made if the free room is below this percentage of the room that the last checkpoint of this service left (`left`),
    // before the first one of the area.
    percent: u8,
    area: u64,
    left: Option<u64>,
    last: Option<Checkpoint>,
    // How long an incoming job stays whose client has disconnected, and when such jobs are checked next, in milliseconds.
    limit: u64,
    check: u64,
}

impl Maintenance {
    /// Maintenance of an engine whose journal is in areas of this number of bytes. An incoming job is canceled if its client has disconnected
    /// and nothing was sent to it for `limit` milliseconds.
    pub fn new(
        alloc: Global,
        keep: usize,
        percent: u8,
        area: u64,
        limit: u64,
    ) -> Result<Maintenance, AllocError>
        ensures keep { IfOk result (λ maintenance. maintenance.keep ≡ keep) }
        ensures percent { IfOk result (λ maintenance. maintenance.percent ≡ percent) }
        ensures area { IfOk result (λ maintenance. maintenance.area ≡ area) }
        ensures left { IfOk result (λ maintenance. maintenance.left ≡ None) }
        ensures last { IfOk result (λ maintenance. maintenance.last ≡ None) }
        ensures times { IfOk result (λ maintenance. (maintenance.looked ≡ None) × (maintenance.told ≡ None) × (maintenance.due ≡ None)) }
        ensures incoming { IfOk result (λ maintenance. (maintenance.limit ≡ limit) × (maintenance.check ≡ 0)) }
        ensures jobs { IfOk result (λ maintenance. (maintenance.ended ≡ 0) × (maintenance.listed.items ≡ [])) }
    {
        Ok(Maintenance {
            keep,
            ended: 0,
            listed: Vec::with_capacity(alloc, MOST_LISTED)?,
            looked: None,
            told: None,
            due: None,
            percent,
            area,
            left: None,
            last: None,
            limit,
            check: 0,
        })
    }

    /// Examines the table and sends the engine the service's time, given in milliseconds, if something is due. Returns whether the time was
    /// sent.
    pub fn announce_time<D: Disk, C: Children>(
        &mut self,
        shared: &mut Shared<D, C>,
        millis: u64,
    ) -> Result<bool, AllocError>
        // If nothing was done since the last check and nothing is due, nothing changes.
        ensures idle { shared.old.active ≡ false → clock_to_announce (clocks_of self.old shared.old.engine.run_state.spool.state (millis / 1000)) ≡ None →
            (shared.new ≡ shared.old) × (self.new ≡ self.old) }
        ensures told { OnOk result (shared.old.active ≡ false → IfSome (clock_to_announce (clocks_of self.old shared.old.engine.run_state.spool.state (millis / 1000)))
            (λ moment. moment ≤ greatest_moment → self.new.told ≡ Some moment)) }
        ensures said { OnOk result (shared.old.active ≡ false → IfSome (clock_to_announce (clocks_of self.old shared.old.engine.run_state.spool.state (millis / 1000)))
            (λ moment. moment ≤ greatest_moment → HasAnswered D.device shared.old.engine (Command.Apply (Event.Clock moment)) shared.new.engine)) }
        // If something was done, the due moment is taken from the table, once a second.
        ensures found { OnOk result (shared.old.active ≡ true → millis / 1000 ≤ greatest_moment → self.old.looked ≢ Some (millis / 1000) →
            IfSome (clock_to_announce (clocks_found self.old shared.old.engine.run_state.spool.state (millis / 1000)))
            (λ moment. moment ≤ greatest_moment → HasAnswered D.device shared.old.engine (Command.Apply (Event.Clock moment)) shared.new.engine)) }
        // Afterwards no due time is left unsent. If it returns false, no command was sent.
        ensures timely { OnOk result (IsTimely self.new shared.new.engine.run_state.spool.state (Some millis)) }
        ensures silent { result ≡ Ok false → shared.new.engine ≡ shared.old.engine }
        ensures calls { GoesWithin D.device shared.old.most shared.old.engine shared.new.most shared.new.engine }
    {
        let Some(system) = Moment::new(millis / SECOND) else {
            return Ok(false);
        };
        self.look_anew(shared, system)?;
        let clocks = self.clocks(shared.engine.table(), system);
        let Some(moment) = clock_to_announce(&clocks) else {
            return Ok(false);
        };
        self.told = Some(moment);
        say(shared, Command::Apply(Event::Clock(moment)))?;
        Ok(true)
    }

    /// Sends the engine the system's time, given in milliseconds, if a stage runs whose end may lead to a retry and the table's moment is
    /// earlier: the interval of the retry counts from the table's moment. Returns whether it was sent.
    pub fn refresh_time<D: Disk, C: Children>(
        &mut self,
        shared: &mut Shared<D, C>,
        millis: u64,
    ) -> Result<bool, AllocError>
        ensures sent { OnOk result (IfSome (clock_for_retry (clocks_of self.old shared.old.engine.run_state.spool.state (millis / 1000)) (may_retry shared.old.engine.run_state.spool.state))
            (λ moment. moment ≤ greatest_moment → HasAnswered D.device shared.old.engine (Command.Apply (Event.Clock moment)) shared.new.engine)) }
        // If no such stage runs, nothing changes.
        ensures idle { may_retry shared.old.engine.run_state.spool.state ≡ false → (shared.new ≡ shared.old) × (self.new ≡ self.old) }
        ensures silent { result ≡ Ok false → shared.new.engine ≡ shared.old.engine }
        ensures kept { self.new ≡ record self.old { told = self.new.told } }
        ensures calls { GoesWithin D.device shared.old.most shared.old.engine shared.new.most shared.new.engine }
    {
        let Some(system) = Moment::new(millis / SECOND) else {
            return Ok(false);
        };
        let clocks = self.clocks(shared.engine.table(), system);
        let Some(second) = clock_for_retry(&clocks, shared.may_retry()) else {
            return Ok(false);
        };
        self.told = Some(second);
        say(shared, Command::Apply(Event::Clock(second)))?;
        Ok(true)
    }

    // Examines the table if something was done since the last check, and the last check was not in this second.
    fn look_anew<D: Disk, C: Children>(
        &mut self,
        shared: &mut Shared<D, C>,
        system: Moment,
    ) -> Result<(), AllocError>
        ensures due { OnOk result (shared.old.active ≡ true → self.old.looked ≢ Some system → self.new.due ≡ next_due shared.old.engine.run_state.spool.state) }
        ensures idle { shared.old.active ≡ false → (shared.new ≡ shared.old) × (self.new ≡ self.old) }
        ensures told { self.new.told ≡ self.old.told }
        ensures engine { shared.new.engine ≡ shared.old.engine }
        ensures most { shared.new.most ≡ shared.old.most }
    {
        if shared.active && self.looked != Some(system) {
            shared.active = false;
            self.looked = Some(system);
            self.look(shared)?;
        }
        Ok(())
    }

    fn clocks(&self, table: &Table, system: Moment) -> Clocks
        ensures { result ≡ record { system = system; table = table.now.state.moment; told = self.now.told; due = self.now.due } }
    {
        Clocks {
            system,
            table: table.now(),
            told: self.told,
            due: self.due,
        }
    }

    /// The milliseconds until the time must be sent or the table examined, if either is due.
    pub fn wait<D: Disk, C: Children>(&self, shared: &Shared<D, C>, millis: u64) -> Option<u64>
        ensures active { shared.now.active ≡ true → result ≡ Some (1000 - millis % 1000) }
        ensures due { shared.now.active ≡ false → millis / 1000 ≤ greatest_moment →
            result ≡ clock_wait (clocks_of self.now shared.now.engine.run_state.spool.state (millis / 1000)) self.now.due (millis % 1000) }
        ensures never { shared.now.active ≡ false → greatest_moment < millis / 1000 → result ≡ None }
    {
        let part = millis % SECOND;
        if shared.active {
            return Some(SECOND - part);
        }
        let system = Moment::new(millis / SECOND)?;
        clock_wait(&self.clocks(shared.engine.table(), system), part)
    }

    // Reads the next due moment and the oldest ended jobs from the table.
    fn look<D: Disk, C: Children>(&mut self, shared: &Shared<D, C>) -> Result<(), AllocError>
        ensures due { OnOk result (self.new.due ≡ next_due shared.now.engine.run_state.spool.state) }
        ensures ended { OnOk result (self.new.ended ≡ length (ended_numbers shared.now.engine.run_state.spool.state)) }
        ensures listed { OnOk result (AreListed 1024 (ended_numbers shared.now.engine.run_state.spool.state) self.new.listed.items) }
        ensures kept { self.new ≡ record self.old { due = self.new.due; ended = self.new.ended; listed = self.new.listed } }
    {
        let table = shared.engine.table();
        self.due = table.next_due();
        self.ended = table.ended_count();
        self.listed.clear();
        for at in 0..MOST_LISTED {
            let Some(id) = table.ended_job(at) else {
                return Ok(());
            };
            let runs = shared.engine.is_running(id);
            self.listed.push(Candidate {
                id,
                ended: true,
                runs,
            })?;
        }
        Ok(())
    }

    /// Purges the oldest ended jobs beyond those to retain, a few at a time. Returns whether some may have been on the list.
    pub fn purge<D: Disk, C: Children>(
        &mut self,
        shared: &mut Shared<D, C>,
    ) -> Result<bool, AllocError>
        // If at most that number has ended, nothing changes.
        ensures within { self.old.ended ≤ self.old.keep → (result ≡ Ok false) × (shared.new ≡ shared.old) × (self.new ≡ self.old) }
        // If it returns false, none is left to purge and no command was sent. The purged jobs, and those before them, are removed from the
        // list.
        ensures none { result ≡ Ok false → HasNoneToPurge self.new × (shared.new.engine ≡ shared.old.engine) }
        ensures crossed { OnOk result (self.old.keep < self.old.ended → self.new.listed.items ≡
            above (swept_to 0 (purge_count self.old.ended self.old.keep) self.old.listed.items) self.old.listed.items) }
        ensures counted { OnOk result (self.old.keep < self.old.ended → self.new.ended ≡
            self.old.ended - length (purged (purge_count self.old.ended self.old.keep) self.old.listed.items)) }
        ensures kept { self.new ≡ record self.old { ended = self.new.ended; listed = self.new.listed } }
        ensures purged { OnOk result (HasAnsweredAll D.device shared.old.engine (purges (purged (purge_count self.old.ended self.old.keep) self.old.listed.items)) shared.new.engine) }
        ensures calls { GoesWithin D.device shared.old.most shared.old.engine shared.new.most shared.new.engine }
    {
        let count = purge_count(self.ended, self.keep);
        if count == 0 || self.listed.is_empty() {
            return Ok(false);
        }
        let swept = swept_to(&self.listed, count, 0);
        let mut ended = self.ended;
        for job in jobs_to_purge(&self.listed, count) {
            ended = ended.saturating_sub(1);
            say(shared, Command::Apply(Event::Purge(job)))?;
        }
        self.ended = ended;
        self.listed.retain(|candidate| swept < candidate.id.get());
        Ok(true)
    }

    /// Whether listed jobs may have to be purged.
    pub fn has_some_to_purge(&self) -> bool
        ensures some { result ≡ (not (nat_eq (length self.now.listed.items) 0) && nat_lt self.now.keep self.now.ended) }
        ensures none { result ≡ false → HasNoneToPurge self.now }
    {
        !self.listed.is_empty() && self.keep < self.ended
    }

    /// Cancels an incoming job whose client has disconnected, if nothing was sent to it for the limit, at a moment in milliseconds. Returns
    /// that job.
    pub fn cancel_abandoned<D: Disk, C: Children>(
        &mut self,
        shared: &mut Shared<D, C>,
        now: u64,
    ) -> Result<Option<JobId>, AllocError>
        // Before the next check nothing changes.
        ensures early { now < self.old.check → (result ≡ Ok None) × (shared.new ≡ shared.old) × (self.new ≡ self.old) }
        // It is the first one that is abandoned. If there is none, the next check is noted.
        ensures found { IfOk result (λ job. self.old.check ≤ now → job ≡ abandoned_in (abandoned_until self.old.limit now) shared.old.engine.run_state.spool.state shared.old.known.left) }
        ensures canceled { IfOk result (λ job. IfSome job (λ j. HasAnswered D.device shared.old.engine (Command.Apply (Event.Cancel j)) shared.new.engine)) }
        ensures next { result ≡ Ok None → self.old.check ≤ now → next_check self.old.limit now (oldest_of (still_incoming shared.old.engine.run_state.spool.state shared.old.known.left)) < 2 ^ 64 →
            self.new.check ≡ next_check self.old.limit now (oldest_of (still_incoming shared.old.engine.run_state.spool.state shared.old.known.left)) }
        ensures silent { result ≡ Ok None → shared.new.engine ≡ shared.old.engine }
        ensures kept { self.new ≡ record self.old { check = self.new.check } }
        ensures calls { GoesWithin D.device shared.old.most shared.old.engine shared.new.most shared.new.engine }
    {
        if now < self.check {
            return Ok(None);
        }
        let Some(job) = abandoned_in(shared, abandoned_until(self.limit, now)) else {
            shared.known.left.keep_incoming(shared.engine.table());
            self.check = next_check(self.limit, now, shared.known.left.oldest());
            return Ok(None);
        };
        let answer = shared.execute(Command::Apply(Event::Cancel(job)))?;
        if !is_done(&answer) {
            // It is tried again a second later.
            self.check = now.saturating_add(SECOND);
        }
        Ok(Some(job))
    }

    /// The milliseconds until abandoned jobs are checked, at a moment in milliseconds.
    pub fn check_wait<D: Disk, C: Children>(&self, shared: &Shared<D, C>, now: u64) -> Option<u64>
        ensures { result ≡ check_wait (not (nat_eq (length shared.now.known.left) 0)) self.now.check now }
    {
        check_wait(!shared.known.left.is_empty(), self.check, now)
    }

    /// Whether a checkpoint is wanted at a moment in milliseconds.
    pub fn wants_checkpoint<D: Disk, C: Children>(&self, shared: &Shared<D, C>, now: u64) -> bool
        ensures { result ≡ is_wanted (room_in self.now.area self.now.left shared.now.engine.run_state.spool.room) self.now.percent shared.now.full self.now.last now }
    {
        let room = room_in(self.area, self.left, shared.engine.room());
        is_wanted(room, self.percent, shared.full, self.last, now)
    }

    /// Makes a checkpoint. Returns whether it was made.
    pub fn checkpoint<D: Disk, C: Children>(
        &mut self,
        shared: &mut Shared<D, C>,
    ) -> Result<bool, AllocError>
        ensures left { IfOk result (λ made. self.new ≡ record self.old { left = cond made (Some shared.new.engine.run_state.spool.room) self.old.left }) }
        ensures err { OnErr result (self.new ≡ self.old) }
        ensures answered { OnOk result (HasAnswered D.device shared.old.engine Command.Checkpoint shared.new.engine) }
        ensures calls { GoesWithin D.device shared.old.most shared.old.engine shared.new.most shared.new.engine }
    {
        shared.full = false;
        let answer = shared.execute(Command::Checkpoint)?;
        let made = is_done(&answer);
        if made {
            self.left = Some(shared.engine.room());
        }
        Ok(made)
    }

    /// Notes that a checkpoint was made or tried between these moments, in milliseconds, and that none of the room that it left is used.
    pub fn note_checkpoint(&mut self, began: u64, ended: u64, made: bool)
        ensures { self.new ≡ record self.old { last = Some (record { began = began; ended = ended; left = cond made (Some 0) None }) } }
    {
        let left = if made { Some(0) } else { None };
        self.last = Some(Checkpoint { began, ended, left });
    }
}

// The first job that is still incoming, and to which nothing was sent after a moment, if there is such a moment.
fn abandoned_in<D: Disk, C: Children>(shared: &Shared<D, C>, until: Option<u64>) -> Option<JobId>
    ensures { result ≡ abandoned_in until shared.now.engine.run_state.spool.state shared.now.known.left }
{
    shared.known.left.left_until(shared.engine.table(), until?)
}

fn is_done(answer: &Answer) -> bool {
    matches!(answer, Answer::Done)
}

// Sends the engine a command.
fn say<D: Disk, C: Children>(shared: &mut Shared<D, C>, command: Command) -> Result<(), AllocError>
    requires { is_round command ≡ false }
    ensures answered { OnOk result (HasAnswered D.device shared.old.engine command shared.new.engine) }
    ensures calls { GoesWithin D.device shared.old.most shared.old.engine shared.new.most shared.new.engine }
{
    shared.execute(command)?;
    Ok(())
}
