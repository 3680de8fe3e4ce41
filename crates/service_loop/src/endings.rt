//! The children that clients want ended: each is sent SIGTERM, and SIGKILL 10 s later.
ghost use Rattle.std.specs.Prelude.{◌≡◌, ◌↔◌, ℕ, ◌+◌, ◌≤◌, true, false, List, [], ◌∷◌, Some, IsNone, IfOk, IfSome, IsTrue, OnOk, OnErr, map, vec_len};
ghost use Rattle.std.specs.FinMap as finite;
ghost use Rattle.std.specs.List.{filter};
ghost use Rattle.child_pipeline.specs.StageSlots.{IsRunning, IsTicketless, group_in};
ghost use Rattle.service_loop.specs.Endings.{AreAmong, Sends, grace, is_current, is_listed, signal_of, signalled, signals_due, with_ending};
ghost use Rattle.service_loop.specs.declared.endings.Ending.{Ending as AnyEnding};

use crate::signals::{Signal, Signals};
use child_pipeline::Children;
use spool_disk::Disk;
use spool_engine::StagingEngine;
use spool_types::JobId;
use std::alloc::{AllocError, Global};

/// How long a child has after SIGTERM before it is killed, in milliseconds.
pub const GRACE: u64 = 10_000;

// A child that must end.
#[derive(Clone, Copy)]
struct Ending {
    job: JobId,
    group: u32,
    // When it was sent the last signal, if any.
    sent: Option<u64>,
}

/// The children that must end, each once.
#[derive(Drop)]
pub(crate) struct Endings {
    list: Vec<Ending>,
}

impl Endings {
    pub fn new(alloc: Global) -> Endings
        ensures { result.list.items ≡ [] }
    {
        Endings {
            list: Vec::new(alloc),
        }
    }

    /// Notes that the child of a job must end. Returns whether one runs.
    pub fn ask<D: Disk, C: Children>(
        &mut self,
        engine: &StagingEngine<D, C>,
        job: JobId,
    ) -> Result<bool, AllocError>
        ensures runs { IfOk result (λ runs. runs ≡ true → (group : ℕ) × (self.new.list.items ≡ with_ending job group self.old.list.items)) }
        ensures none { IfOk result (λ runs. runs ≡ false → self.new.list.items ≡ self.old.list.items) }
        // The group noted is that of the job's child.
        ensures group { IfOk result (λ runs. runs ≡ true → IfSome (group_in C.groups (finite.get engine.now.run_state.slots job)) (λ group. self.new.list.items ≡ with_ending job group self.old.list.items)) }
        // A child of the job runs exactly if the answer says so.
        ensures found { IfOk result (λ runs. runs ≡ true → IsRunning (finite.get engine.now.run_state.slots job)) }
        ensures missed { IfOk result (λ runs. runs ≡ false → IsTicketless (finite.get engine.now.run_state.slots job)) }
        ensures err { OnErr result (self.new.list.items ≡ self.old.list.items) }
    {
        let Some(group) = engine.group_of(job) else {
            return Ok(false);
        };
        self.note(job, group)?;
        Ok(true)
    }

    // Notes a child that must end, unless its group is already noted.
    fn note(&mut self, job: JobId, group: u32) -> Result<(), AllocError>
        ensures ok { OnOk result (self.new.list.items ≡ with_ending job group self.old.list.items) }
        ensures err { OnErr result (self.new.list.items ≡ self.old.list.items) }
    {
        if !self.is_listed(group) {
            let sent = None;
            self.list.push(Ending { job, group, sent })?;
        }
        Ok(())
    }

    fn is_listed(&self, group: u32) -> bool
        ensures { result ≡ is_listed group self.now.list.items }
    {
        self.list.iter().any(|ending| ending.group == group)
    }

    /// Whether no child must end.
    pub fn is_empty(&self) -> bool
        ensures { IsTrue result ↔ (self.now.list.items ≡ []) }
    {
        self.list.is_empty()
    }

    /// Sends SIGTERM to the new ones, kills those whose grace period is over, and forgets those that have ended.
    pub fn act<D: Disk, C: Children, S: Signals>(
        &mut self,
        engine: &StagingEngine<D, C>,
        signals: &mut S,
        now: u64,
    )
        ensures few { vec_len self.new.list ≤ vec_len self.old.list }
        // The children still noted are among those noted before. They were sent their due signals, and nothing else was sent.
        ensures sent { (kept : List AnyEnding) × AreAmong self.old.list.items kept × (self.new.list.items ≡ map (signalled now) kept) × Sends (S.sent signals.old) (S.sent signals.new) (signals_due now kept) }
        // They are those whose group is that of a child that the job runs now.
        ensures kept { self.new.list.items ≡ map (signalled now) (filter (is_current C.groups engine.now.run_state.slots) self.old.list.items) }
        ensures due { Sends (S.sent signals.old) (S.sent signals.new) (signals_due now (filter (is_current C.groups engine.now.run_state.slots) self.old.list.items)) }
    {
        self.list.retain(|ending| is_current(engine, ending));
        self.send_due(signals, now);
    }

    // Sends each child the signal that is due.
    fn send_due<S: Signals>(&mut self, signals: &mut S, now: u64)
        ensures list { self.new.list.items ≡ map (signalled now) self.old.list.items }
        ensures sent { Sends (S.sent signals.old) (S.sent signals.new) (signals_due now self.old.list.items) }
    {
        for ending in self.list.iter_mut() {
            send_one(ending, signals, now);
        }
    }
}

// Whether the job's child runs in the group that was noted.
fn is_current<D: Disk, C: Children>(engine: &StagingEngine<D, C>, ending: &Ending) -> bool
    ensures { result ≡ is_current C.groups engine.now.run_state.slots ending.now }
{
    match engine.group_of(ending.job) {
        Some(group) => group == ending.group,
        None => false,
    }
}

// Sends a child the signal that is due.
fn send_one<S: Signals>(ending: &mut Ending, signals: &mut S, now: u64)
    ensures ending { ending.new ≡ signalled now ending.old }
    ensures sent { Sends (S.sent signals.old) (S.sent signals.new) (signals_due now (ending.old ∷ [])) }
{
    if let Some(signal) = signal_of(ending.sent, now) {
        signals.send(ending.group, signal);
        ending.sent = Some(now);
    }
}

// The signal that is due now for a child whose last signal was sent at `sent`, if any was.
fn signal_of(sent: Option<u64>, now: u64) -> Option<Signal>
    ensures value { result ≡ signal_of sent now }
    ensures asked_first { IsNone sent → result ≡ Some Signal.Terminate }
    ensures patient { result ≡ Some Signal.Kill → (asked : ℕ) × (sent ≡ Some asked) × (asked + grace ≤ now) }
{
    match sent {
        None => Some(Signal::Terminate),
        Some(at) if GRACE <= now.saturating_sub(at) => Some(Signal::Kill),
        Some(_) => None,
    }
}
