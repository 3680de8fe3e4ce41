//! The slots of the jobs' stages.
ghost use Rattle.std.specs.Prelude.{◌≡◌, ◌&&◌, ◌==◌, false, nat_lt, None, Some, IsNone, IsSome, IsTrue, IfOk, OnOk, OnErr, is_some};
ghost use Rattle.std.specs.Option.{option_copied, option_map};
ghost use Rattle.std.specs.FinMap as finite;
ghost use Rattle.slab.specs.Slab.{Updates};
ghost use Rattle.child_pipeline.specs.StageSlots.{numbered, begun_in, bound_behind, IsFirstStage, IsNextJob, IsReady, IsDue, IsReporting, IsTicketless, HasNext, StartsStage, FinishesStage, order_in, end_in, advanced_in, slot_in, input_in, put_progress, numbered_progress, group_in, is_ready, is_running, is_ended, IsRunning, IsEnded};
ghost use Rattle.child_pipeline.specs.Finishes.{kept};
ghost use Rattle.child_pipeline.specs.ChildTraces.{finish_in as finish_told, Looks};

use crate::children::Children;
use crate::order::{ChildFault, Finish, Input, Order};
use crate::orders::{environment, program, words};
use crate::reports::stage_end;
use crate::texts::Content;
use filter_args::Place;
use slab::Slab;
use spool_types::{AttemptNumber, Job, JobId, Phase, QueueRow, StageEnd, StageNumber};
use std::alloc::{AllocError, Global};
use std::collections::BTreeMap;
use std::marker::Model;
use std::mem;
use std::ops::Bound;

/// The progress of a stage.
#[derive(Drop)]
pub enum Progress<T> {
    /// Not started. A later stage has the output of the previous one.
    Ready(Option<Content>),
    /// Its child was started.
    Running(T),
    /// Its child has ended, or could not be started.
    Ended(Finish),
}

/// A stage of an attempt at a job.
#[derive(Drop)]
pub struct Slot<T> {
    pub attempt: AttemptNumber,
    pub stage: StageNumber,
    pub progress: Progress<T>,
}

impl<T> Slot<T> {
    // Whether the slot is for this stage, which was not started.
    fn is_due(&self, attempt: u32, stage: u8) -> bool
        ensures { result ≡ (self.now.attempt == attempt && self.now.stage == stage && is_ready self.now.progress) }
    {
        self.attempt.get() == attempt && self.stage.get() == u32::from(stage) && self.is_ready()
    }

    fn is_ready(&self) -> bool
        ensures { result ≡ is_ready self.now.progress }
    {
        matches!(self.progress, Progress::Ready(_))
    }

    fn is_running(&self) -> bool
        ensures { result ≡ is_running self.now.progress }
    {
        matches!(self.progress, Progress::Running(_))
    }

    // Whether the stage has ended and is not the last possible one.
    fn has_next(&self) -> bool
        ensures { result ≡ (is_ended self.now.progress && nat_lt self.now.stage 16) }
    {
        matches!(self.progress, Progress::Ended(_)) && self.stage.get() < 16
    }
}

/// The slots of jobs, each with the job's current stage. Callers see a ticket as the number of its order.
#[derive(Drop)]
pub struct Runner<C: Children> {
    alloc: Global,
    // The key of each job's slot.
    keys: BTreeMap<JobId, usize>,
    slots: Slab<Slot<C::Ticket>>,
}

impl<C: Children> Model for Runner<C> {
    ghost use Rattle.child_pipeline.specs.RunnerFields.{slots_of, AreKept};
    ghost use Rattle.child_pipeline.specs.StageSlots.{Slots};
    ghost use Rattle.std.specs.Coded.{codes};
    ghost use Rattle.std.specs.FinMap as map;

    ghost Value = { Slots };

    ghost coded = { Prim.hlevel (codes, map.code) };

    ghost view = { λ a. slots_of C.number a.keys.entries a.slots };

    ghost invariant = { λ a. AreKept a.keys.entries a.slots };
}

impl<C: Children> Runner<C> {
    /// No slots. Does not allocate.
    pub fn new(alloc: Global) -> Runner<C>
        ensures { result ≡ finite.empty }
    {
        Runner {
            alloc,
            keys: BTreeMap::new(alloc),
            slots: Slab::new(alloc),
        }
    }

    pub fn slot(&self, job: JobId) -> Option<&Slot<C::Ticket>>
        ensures { option_map (numbered C.number) (option_copied result) ≡ finite.get self.now job }
    {
        let key = self.keys.get(&job)?;
        self.slots.get(*key)
    }

    /// The first job after this one that has a slot, or with `None` the first of all. Iterates over the slots.
    pub fn next_job(&self, behind: Option<JobId>) -> Option<JobId>
        ensures { IsNextJob self.now behind result }
    {
        let start = start_behind(behind);
        match self.keys.range((start, Bound::Unbounded)).next() {
            Some((job, _)) => Some(*job),
            None => None,
        }
    }

    /// Whether a job's slot is for its current stage, which was not started.
    pub fn is_due(&self, row: &Job) -> bool
        ensures yes { IsTrue result → IsDue (finite.get self.now row.now.id) row.now.phase }
        ensures no { result ≡ false → ¬ (IsDue (finite.get self.now row.now.id) row.now.phase) }
    {
        let Phase::Processing { attempt, stage, .. } = row.phase else {
            return false;
        };
        match self.slot(row.id) {
            Some(slot) => slot.is_due(attempt, stage),
            None => false,
        }
    }

    /// Whether the child of a job's stage was started or could not be started.
    pub fn is_reporting(&self, job: JobId) -> bool
        ensures yes { IsTrue result → IsReporting (finite.get self.now job) }
        ensures no { result ≡ false → ¬ (IsReporting (finite.get self.now job)) }
    {
        match self.slot(job) {
            Some(slot) => !slot.is_ready(),
            None => false,
        }
    }

    /// Whether the child of a job's stage is running.
    pub fn is_running(&self, job: JobId) -> bool
        ensures yes { IsTrue result → IsRunning (finite.get self.now job) }
        ensures no { result ≡ false → IsTicketless (finite.get self.now job) }
    {
        match self.slot(job) {
            Some(slot) => slot.is_running(),
            None => false,
        }
    }

    /// The process group of the child of a job's stage, if it is running.
    pub fn group_of(&self, job: JobId) -> Option<u32>
        ensures some { IsSome result → IsRunning (finite.get self.now job) }
        ensures none { IsNone result → IsTicketless (finite.get self.now job) }
        ensures group { result ≡ group_in C.groups (finite.get self.now job) }
    {
        match &self.slot(job)?.progress {
            Progress::Running(ticket) => Some(C::group(ticket)),
            _ => None,
        }
    }

    /// Whether a job's stage has ended and is not the last possible one.
    pub fn has_next(&self, job: JobId) -> bool
        ensures yes { IsTrue result → HasNext (finite.get self.now job) }
        ensures no { result ≡ false → ¬ (HasNext (finite.get self.now job)) }
    {
        match self.slot(job) {
            Some(slot) => slot.has_next(),
            None => false,
        }
    }

    // Replaces the slot of a job, and returns the old one.
    fn exchange(&mut self, job: JobId, slot: Slot<C::Ticket>) -> Slot<C::Ticket>
        requires { IsSome (finite.get self.old job) }
        ensures old { Some (numbered C.number result) ≡ finite.get self.old job }
        ensures new { self.new ≡ finite.insert self.old job (numbered C.number slot) }
    {
        let Some(key) = self.keys.get(&job) else {
            unreachable!()
        };
        match self.slots.get_mut(*key) {
            Some(place) => mem::replace(place, slot),
            None => unreachable!(),
        }
    }

    // Adds a slot, or replaces the job's slot.
    fn insert(&mut self, job: JobId, slot: Slot<C::Ticket>) -> Result<(), AllocError>
        ensures ok { OnOk result (self.new ≡ finite.insert self.old job (numbered C.number slot)) }
        ensures err { OnErr result (self.new ≡ self.old) }
    {
        if self.keys.contains_key(&job) {
            self.exchange(job, slot);
            return Ok(());
        }
        self.slots.reserve(1)?;
        let key = self.slots.vacant_key();
        match self.keys.insert(job, key) {
            Ok(_) => {
                self.slots.insert_reserved(slot);
                Ok(())
            }
            Err(_) => Err(AllocError),
        }
    }

    /// Frees the slot of a job, if it has one. A slot with a ticket must not be freed.
    pub fn release(&mut self, job: JobId)
        requires ticketless { IsTicketless (finite.get self.old job) }
        ensures { self.new ≡ finite.remove self.old job }
    {
        if let Some(key) = self.keys.remove(&job) {
            free(&mut self.slots, key);
        }
    }

    // The attempt and the stage of a job that has a slot.
    fn place_of(&self, job: JobId) -> (AttemptNumber, StageNumber)
        requires { IsSome (finite.get self.now job) }
        ensures attempt { result.0 ≡ (slot_in self.now job).attempt }
        ensures stage { result.1 ≡ (slot_in self.now job).stage }
    {
        match self.slot(job) {
            Some(slot) => (slot.attempt, slot.stage),
            None => unreachable!(),
        }
    }

    // Replaces the progress of a job's stage, and returns the old one.
    fn exchange_progress(
        &mut self,
        job: JobId,
        progress: Progress<C::Ticket>,
    ) -> Progress<C::Ticket>
        requires { IsSome (finite.get self.old job) }
        ensures old { numbered_progress C.number result ≡ (slot_in self.old job).progress }
        ensures new { self.new ≡ put_progress self.old job (numbered_progress C.number progress) }
    {
        let (attempt, stage) = self.place_of(job);
        let slot = Slot {
            attempt,
            stage,
            progress,
        };
        self.exchange(job, slot).progress
    }

    // Takes the input of a job's stage out of its slot.
    fn take_input(&mut self, job: JobId, document: Content) -> Input
        requires { IsReady (finite.get self.old job) }
        ensures input { result ≡ input_in (slot_in self.old job).progress document }
        ensures new { self.new ≡ put_progress self.old job (Progress.Ready None) }
    {
        match self.exchange_progress(job, Progress::Ready(None)) {
            Progress::Ready(None) => Input::Document(document),
            Progress::Ready(Some(output)) => Input::Bytes(output),
            _ => unreachable!(),
        }
    }

    #[tactic(auto, using(crate::proofs::PutLaws::put_twice, crate::proofs::PutLaws::slot_put, crate::proofs::PutLaws::still_there, crate::proofs::PutLaws::insert_twice))]
    /// Waits for the child of a job's stage, and stores its finish in the slot.
    pub fn finish(&mut self, children: &mut C, job: JobId)
        requires { IsRunning (finite.get self.old job) }
        ensures ended { IsEnded (finite.get self.new job) }
        ensures finishes { FinishesStage (C.tells children.old) self.old job self.new (C.tells children.new) }
    {
        let Progress::Running(ticket) = self.exchange_progress(job, Progress::Ready(None)) else {
            unreachable!()
        };
        let answer = children.finish(ticket);
        let finish = kept(self.alloc, answer);
        self.exchange_progress(job, Progress::Ended(finish));
    }

    // A copy of the event of the end of a job's stage.
    fn end(&self, job: JobId) -> Result<StageEnd, AllocError>
        requires { IsEnded (finite.get self.now job) }
        ensures { IfOk result (λ end. end ≡ end_in self.now job) }
    {
        match self.slot(job) {
            Some(slot) => match &slot.progress {
                Progress::Ended(finish) => {
                    stage_end(self.alloc, job, slot.attempt, slot.stage, finish)
                }
                _ => unreachable!(),
            },
            None => unreachable!(),
        }
    }

    /// Reserves a slot for the first stage of an attempt, the job's current stage. A later stage has the slot of the previous one. The new
    /// slot replaces one that remains from an earlier attempt, which must not run a child.
    pub fn begin(&mut self, row: &Job) -> Result<(), AllocError>
        requires first { IsFirstStage row.now.phase }
        requires ticketless { IsTicketless (finite.get self.old row.now.id) }
        ensures ok { OnOk result (self.new ≡ begun_in self.old row.now.id row.now.phase) }
        ensures err { OnErr result (self.new ≡ self.old) }
    {
        let Phase::Processing { attempt, stage, .. } = row.phase else {
            unreachable!()
        };
        let attempt = AttemptNumber::new(attempt).unwrap();
        let stage = StageNumber::new(stage as u32).unwrap();
        let progress = Progress::Ready(None);
        self.insert(
            row.id,
            Slot {
                attempt,
                stage,
                progress,
            },
        )
    }

    #[tactic(auto, using(crate::proofs::PutLaws::put_twice, crate::proofs::PutLaws::slot_put, crate::proofs::PutLaws::still_there, crate::proofs::PutLaws::insert_twice))]
    /// Starts the child of a job's current stage, and returns whether it was started. The input of the first stage is the document, and
    /// that of each later one the output of the previous stage. If memory runs out nothing was started.
    pub fn start_stage(
        &mut self,
        children: &mut C,
        place: &Place,
        row: &Job,
        queue: &QueueRow,
        document: Content,
    ) -> Result<bool, AllocError>
        requires { IsDue (finite.get self.old row.now.id) row.now.phase }
        ensures ok { IfOk result (λ started. StartsStage (C.tells children.old) (order_in place.now self.old row.now queue.now document) started self.old row.now.id self.new (C.tells children.new)) }
        ensures err { OnErr result (self.new ≡ self.old) }
        ensures unstarted { OnErr result (children.new ≡ children.old) }
    {
        let (attempt, stage) = self.place_of(row.id);
        let name = match queue.name.clone() {
            Ok(name) => name,
            Err(fault) => return Err(fault),
        };
        let uri = match queue.uri.clone() {
            Ok(uri) => uri,
            Err(fault) => return Err(fault),
        };
        let program = match program(self.alloc, row, queue, stage) {
            Ok(program) => program,
            Err(fault) => return Err(fault),
        };
        let words = match words(self.alloc, place, row, attempt, stage) {
            Ok(words) => words,
            Err(fault) => return Err(fault),
        };
        let environment = match environment(self.alloc, place, row, queue) {
            Ok(environment) => environment,
            Err(fault) => return Err(fault),
        };
        let input = self.take_input(row.id, document);
        let order = Order {
            job: row.id,
            attempt,
            stage,
            queue: name,
            uri,
            program,
            words,
            environment,
            input,
        };
        match children.start(order) {
            Ok(ticket) => {
                self.exchange_progress(row.id, Progress::Running(ticket));
                Ok(true)
            }
            Err(_) => {
                let finish = Finish::unstarted(self.alloc);
                self.exchange_progress(row.id, Progress::Ended(finish));
                Ok(false)
            }
        }
    }

    #[tactic(auto, using(crate::proofs::PutLaws::put_twice, crate::proofs::PutLaws::slot_put, crate::proofs::PutLaws::still_there, crate::proofs::PutLaws::insert_twice))]
    /// Waits for the child of a job's stage, unless it was finished before, and returns the event of its end. The finish stays in the slot,
    /// even if memory runs out.
    pub fn finish_stage(&mut self, children: &mut C, job: JobId) -> Result<StageEnd, AllocError>
        requires { IsReporting (finite.get self.old job) }
        ensures finishes { FinishesStage (C.tells children.old) self.old job self.new (C.tells children.new) }
        ensures ended { IsEnded (finite.get self.new job) }
        ensures end { IfOk result (λ end. end ≡ end_in self.new job) }
    {
        if self.is_running(job) {
            self.finish(children, job);
        }
        self.end(job)
    }

    #[tactic(auto, using(crate::proofs::PutLaws::put_twice, crate::proofs::PutLaws::still_there, crate::proofs::PutLaws::put_back))]
    /// Checks whether the child of a job's stage has ended, without waiting. The slots do not change.
    pub fn has_ended(&mut self, children: &mut C, job: JobId) -> bool
        requires { IsRunning (finite.get self.old job) }
        ensures slots { self.new ≡ self.old }
        ensures looks { Looks (C.tells children.old) result (C.tells children.new) }
    {
        let Progress::Running(mut ticket) = self.exchange_progress(job, Progress::Ready(None))
        else {
            unreachable!()
        };
        let ended = children.has_ended(&mut ticket);
        self.exchange_progress(job, Progress::Running(ticket));
        ended
    }

    #[tactic(auto, using(crate::proofs::PutLaws::put_twice, crate::proofs::PutLaws::slot_put, crate::proofs::PutLaws::still_there, crate::proofs::PutLaws::insert_twice))]
    /// Moves the slot of a stage that has ended to the next stage, with the output as its input.
    pub fn advance(&mut self, job: JobId)
        requires { HasNext (finite.get self.old job) }
        ensures { self.new ≡ advanced_in self.old job }
    {
        let (attempt, stage) = self.place_of(job);
        let stage = StageNumber::new(stage.get() + 1).unwrap();
        let Progress::Ended(finish) = self.exchange_progress(job, Progress::Ready(None)) else {
            unreachable!()
        };
        let progress = Progress::Ready(Some(finish.output));
        self.exchange(
            job,
            Slot {
                attempt,
                stage,
                progress,
            },
        );
    }
}

// Frees the slot under a key, if it exists.
fn free<T: Drop>(slots: &mut Slab<Slot<T>>, key: usize)
    ensures { Updates slots.old slots.new key None }
{
    slots.try_remove(key);
}

// The lower bound of the jobs after this one, or of all jobs.
fn start_behind(job: Option<JobId>) -> Bound<JobId>
    ensures { result ≡ bound_behind job }
{
    match job {
        Some(job) => Bound::Excluded(job),
        None => Bound::Unbounded,
    }
}

// A finish as it is stored: Lost if the child's end is unknown or its output is too long.
fn kept(alloc: Global, answer: Result<Finish, ChildFault>) -> Finish
    ensures { result ≡ kept (finish_told answer) }
{
    match answer {
        Ok(finish) => finish.within_bounds(alloc),
        Err(_) => Finish::lost(alloc),
    }
}
