//! The second part of a round: it starts one stage of each processing job.
ghost use Rattle.std.specs.Prelude.{◌≡◌, List, Option, ℕ, false, map, None, Some, IfOk, IsSome, OnErr};
ghost use Rattle.std.specs.FinMap as finite;
ghost use Rattle.spool_types.specs.State.{Job, job_at, queue_at};
ghost use Rattle.spool_types.specs.declared.rows.QueueRow.{QueueRow as QueueOf};
ghost use Rattle.job_table.specs.Legal.{Fits};
ghost use Rattle.spool_core.specs.OpenSpools.{IsSettled};
ghost use Rattle.child_pipeline.specs.StageSlots.{IsDue, IsTicketless, slot_in};
ghost use Rattle.print_rounds.specs.Choice.{readiness};
ghost use Rattle.print_rounds.specs.Counts.{launching_fault, started_in};
ghost use Rattle.print_rounds.specs.RunStates.{Launching, IsLaunch, AreLaunchings, IsReadFor, AreReads};
ghost use Rattle.print_rounds.specs.Launches.{IsMade, IsUnmade, IsPrepared, IsUnprepared, IsStarted, IsDocumentFor, has_output};
ghost use Rattle.print_rounds.specs.Finished.{AreDistinct, AllRest};

use crate::outcome::{Launch, RoundFault};
use child_pipeline::{Children, Content, Progress, Runner};
use filter_args::Place;
use job_table::Table;
use spool_core::{Spool, Unread, read_whole};
use spool_disk::Disk;
use spool_types::{Job, JobId, Phase};
use std::alloc::{AllocError, Global};

// The number of children that were started, and the first fault.
#[derive(Clone, Copy)]
pub(crate) struct Launches {
    pub(crate) started: usize,
    pub(crate) fault: Option<RoundFault>,
}

// Returns whether the job's slot is ready to be started, or `None` if the job has no slot for this stage.
fn slot_at<C: Children>(runner: &Runner<C>, job: JobId, attempt: u32, stage: u8) -> Option<bool>
    ensures { result ≡ readiness attempt stage (finite.get runner.now job) }
{
    let slot = runner.slot(job)?;
    if slot.attempt.get() != attempt || slot.stage.get() != u32::from(stage) {
        return None;
    }
    match slot.progress {
        Progress::Ready(_) => Some(true),
        _ => Some(false),
    }
}

// Makes a slot for the job if its stage will be started and has none yet, and returns whether it will be started.
fn make_due<C: Children>(runner: &mut Runner<C>, row: &Job) -> Result<bool, AllocError>
    requires fits { Fits row.now row.now.phase }
    requires rests { IsTicketless (finite.get runner.old row.now.id) }
    ensures ok { IfOk result (λ due. IsMade runner.old row.now due runner.new) }
    ensures err { OnErr result (IsUnmade runner.old row.now runner.new) }
{
    let Phase::Processing { attempt, stage, .. } = row.phase else {
        return Ok(false);
    };
    match slot_at(runner, row.id, attempt, stage) {
        Some(due) => Ok(due),
        None => {
            if stage != 1 {
                return Ok(false);
            }
            match runner.begin(row) {
                Ok(()) => Ok(true),
                Err(fault) => Err(fault),
            }
        }
    }
}

// Does the same as `make_due` for the job with this number.
fn prepare<C: Children>(
    table: &Table,
    runner: &mut Runner<C>,
    job: JobId,
) -> Result<bool, AllocError>
    requires { IsTicketless (finite.get runner.old job) }
    ensures ok { IfOk result (λ due. IsPrepared table.now.state runner.old job due runner.new) }
    ensures err { OnErr result (IsUnprepared table.now.state runner.old job runner.new) }
{
    let _legal = table.jobs();
    let Some(row) = table.job(job) else {
        return Ok(false);
    };
    let Some(_queue) = table.queue(&row.job.queue) else {
        return Ok(false);
    };
    make_due(runner, &row.job)
}

// Returns whether the stage of a job has the output of the previous stage.
fn has_output<C: Children>(runner: &Runner<C>, job: JobId) -> bool
    ensures { result ≡ has_output (slot_in runner.now job).progress }
{
    match runner.slot(job) {
        Some(slot) => matches!(slot.progress, Progress::Ready(Some(_))),
        None => false,
    }
}

// Reads the job's document, or returns an empty one if the stage has the output of the previous stage.
fn document<D: Disk, C: Children>(
    alloc: Global,
    spool: &mut Spool<D>,
    runner: &Runner<C>,
    job: JobId,
) -> Result<Content, Unread>
    requires alive { spool.old.dead ≡ false }
    requires there { IsSome (job_at spool.old.state job) }
    ensures { IsDocumentFor D.device spool.old job (has_output (slot_in runner.now job).progress) result spool.new }
{
    if has_output(runner, job) {
        return Ok(Content::empty(alloc));
    }
    match read_whole(alloc, spool, job) {
        Ok(bytes) => Ok(Content::new(bytes)),
        Err(why) => Err(why),
    }
}

// Starts the child of the stage that a job is in.
fn start<C: Children>(
    place: &Place,
    table: &Table,
    runner: &mut Runner<C>,
    children: &mut C,
    job: JobId,
    document: Content,
) -> Launch
    requires { (r : Job) × (q : QueueOf) × (job_at table.now.state job ≡ Some r) × (queue_at table.now.state r.queue ≡ Some q) × IsDue (finite.get runner.old job) r.phase }
    ensures { (r : Job) (q : QueueOf) → job_at table.now.state job ≡ Some r → queue_at table.now.state r.queue ≡ Some q →
        IsStarted place.now (C.tells children.old) runner.old r q document result runner.new (C.tells children.new) }
{
    let _legal = table.jobs();
    let Some(row) = table.job(job) else {
        unreachable!()
    };
    let Some(queue) = table.queue(&row.job.queue) else {
        unreachable!()
    };
    match runner.start_stage(children, place, &row.job, queue, document) {
        Ok(started) => Launch::Launched(started),
        Err(_) => Launch::NoMemory,
    }
}

// Starts the stage of a job.
fn launch<D: Disk, C: Children>(
    alloc: Global,
    place: &Place,
    spool: &mut Spool<D>,
    runner: &mut Runner<C>,
    children: &mut C,
    job: JobId,
) -> Launch
    requires rests { IsTicketless (finite.get runner.old job) }
    requires settled { IsSettled spool.old }
    ensures { (document : Option (List ℕ)) × IsLaunch place.now spool.old.state runner.old (C.tells children.old) job document result runner.new (C.tells children.new)
        × IsReadFor D.device spool.old job document result spool.new }
{
    if spool.is_dead() {
        return Launch::Dead;
    }
    match prepare(spool.table(), runner, job) {
        Ok(true) => {}
        Ok(false) => return Launch::Unlaunched,
        Err(_) => return Launch::NoMemory,
    }
    match document(alloc, spool, runner, job) {
        Ok(document) => start(place, spool.table(), runner, children, job, document),
        Err(Unread::Memory) => Launch::NoMemory,
        Err(Unread::Disk) => Launch::Disk,
    }
}

// Starts the stages of these jobs, in order.
pub(crate) fn launch_all<D: Disk, C: Children>(
    alloc: Global,
    place: &Place,
    spool: &mut Spool<D>,
    runner: &mut Runner<C>,
    children: &mut C,
    jobs: &[JobId],
) -> Launches
    requires distinct { AreDistinct jobs.now }
    requires rest { AllRest runner.old jobs.now }
    requires settled { IsSettled spool.old }
    ensures { (ts : List Launching) × AreLaunchings place.now spool.old.state runner.old (C.tells children.old) ts runner.new (C.tells children.new) × AreReads D.device spool.old ts spool.new × (map (λ t. t.job) ts ≡ jobs.now)
        × (result.started ≡ started_in ts) × (result.fault ≡ launching_fault ts) }
{
    let _legal = spool.table().jobs();
    let mut started = 0;
    let mut fault = None;
    for job in jobs {
        let launch = launch(alloc, place, spool, runner, children, *job);
        started += launch.started();
        fault = fault.or(launch.fault());
    }
    Launches { started, fault }
}
