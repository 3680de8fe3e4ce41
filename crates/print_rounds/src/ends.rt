//! The third part of a round: it finishes each child and applies the event of its end.
ghost use Rattle.std.specs.Prelude.{◌≡◌, List, ℕ, length, map, nat_lt, vec_capacity};
ghost use Rattle.std.specs.FinMap as finite;
ghost use Rattle.child_pipeline.specs.StageSlots.{IsEnded, slot_in};
ghost use Rattle.spool_types.specs.declared.event.StageEnd.{StageEnd as EndOf};
ghost use Rattle.spool_core.specs.OpenSpools.{IsSettled};
ghost use Rattle.print_rounds.specs.Counts.{acknowledged_by, ending_events, ending_fault, report_events, told_in};
ghost use Rattle.print_rounds.specs.Happenings.{HaveHappened, happenings_of};
ghost use Rattle.print_rounds.specs.RunStates.{RunState, run_state, Ending, IsApplied, IsEnding, AreEndings, is_silent, moved, moved_by};

use crate::happenings::{Happening, note};
use crate::outcome::{Report, RoundFault};
use child_pipeline::{Children, Runner};
use spool_core::{ApplyFault, Spool};
use spool_disk::Disk;
use spool_types::{Event, JobId, Reply, StageEnd};

// The number of ends that were acknowledged, and the first fault.
#[derive(Clone, Copy)]
pub(crate) struct Ends {
    pub(crate) told: usize,
    pub(crate) fault: Option<RoundFault>,
}

// Returns whether a job has neither a child to be finished nor a stored finish.
fn is_silent<C: Children>(runner: &Runner<C>, job: JobId) -> bool
    ensures { result ≡ is_silent (finite.get runner.now job) }
{
    !runner.is_reporting(job)
}

// Returns whether a further stage can follow the stage of a job that has ended.
fn is_early<C: Children>(runner: &Runner<C>, job: JobId) -> bool
    requires { IsEnded (finite.get runner.now job) }
    ensures { result ≡ nat_lt (slot_in runner.now job).stage 16 }
{
    runner.has_next(job)
}

// Moves the slot of a job to its next stage, or frees it.
fn move_on<C: Children>(runner: &mut Runner<C>, job: JobId, reply: Reply)
    requires { IsEnded (finite.get runner.old job) }
    ensures { runner.new ≡ moved_by runner.old job reply }
{
    let goes_on = match reply {
        Reply::Phase(phase) => phase.is_processing() && is_early(runner, job),
        _ => false,
    };
    if goes_on {
        runner.advance(job);
    } else {
        runner.release(job);
    }
}

fn stage(end: StageEnd) -> Event
    ensures { result ≡ Event.Stage end }
{
    Event::Stage(end)
}

// Applies the event of a stage's end.
fn apply_end<D: Disk>(spool: &mut Spool<D>, end: StageEnd) -> Result<Reply, ApplyFault>
    requires settled { IsSettled spool.old }
    ensures { IsApplied D.device spool.old (Event.Stage end) result spool.new }
{
    spool.apply(stage(end))
}

// Moves on the slot of a job after this answer to the event of its end.
fn settle<C: Children>(runner: &mut Runner<C>, job: JobId, answer: &Result<Reply, ApplyFault>)
    requires { IsEnded (finite.get runner.old job) }
    ensures { runner.new ≡ moved runner.old job answer.now }
{
    if let Ok(reply) = answer {
        move_on(runner, job, *reply);
    }
}

// Applies the event of a stage's end, and moves on the slot of its job.
fn report<D: Disk, C: Children>(
    spool: &mut Spool<D>,
    runner: &mut Runner<C>,
    end: StageEnd,
) -> Result<Reply, ApplyFault>
    requires ended { IsEnded (finite.get runner.old end.job) }
    requires settled { IsSettled spool.old }
    ensures answer { IsApplied D.device spool.old (Event.Stage end) result spool.new }
    ensures slots { runner.new ≡ moved runner.old end.job result }
{
    let job = end.job;
    let answer = apply_end(spool, end);
    settle(runner, job, &answer);
    answer
}

// Finishes the child of a job, and applies the event of its end.
fn end_stage<D: Disk, C: Children>(
    spool: &mut Spool<D>,
    runner: &mut Runner<C>,
    children: &mut C,
    job: JobId,
) -> Report
    requires settled { IsSettled spool.old }
    ensures { (kept : RunState D) × IsEnding D.device (run_state spool.old runner.old (C.tells children.old))
        (record { job = job; kept = kept; report = result; next = run_state spool.new runner.new (C.tells children.new) }) }
{
    if is_silent(runner, job) {
        return Report::Silent;
    }
    match runner.finish_stage(children, job) {
        Ok(end) => {
            let answer = report(spool, runner, end);
            Report::Answered(answer)
        }
        Err(_) => Report::NoMemory,
    }
}

// Notes the end of a job's stage, if its event was accepted.
fn note_end(happened: &mut Vec<Happening>, job: JobId, report: &Report)
    ensures noted { (end : EndOf) → end.job ≡ job → HaveHappened (vec_capacity happened.old) 1 happened.old.items happened.new.items (happenings_of (report_events (Event.Stage end) report.now)) }
    ensures capacity { vec_capacity happened.new ≡ vec_capacity happened.old }
{
    match report {
        Report::Silent | Report::NoMemory => {}
        Report::Answered(answer) => note_answer(happened, job, answer),
    }
}

fn note_answer(happened: &mut Vec<Happening>, job: JobId, answer: &Result<Reply, ApplyFault>)
    ensures noted { (end : EndOf) → end.job ≡ job → HaveHappened (vec_capacity happened.old) 1 happened.old.items happened.new.items (happenings_of (acknowledged_by (Event.Stage end) answer.now)) }
    ensures capacity { vec_capacity happened.new ≡ vec_capacity happened.old }
{
    match answer {
        Ok(_) => note(happened, Happening::Ended(job)),
        Err(_) => {}
    }
}

// Finishes the children of these jobs, in order, and applies the events of their ends. The accepted events are noted.
pub(crate) fn end_stages<D: Disk, C: Children>(
    spool: &mut Spool<D>,
    runner: &mut Runner<C>,
    children: &mut C,
    jobs: &[JobId],
    happened: &mut Vec<Happening>,
) -> Ends
    requires settled { IsSettled spool.old }
    ensures ends { (es : List (Ending D)) × AreEndings D.device (run_state spool.old runner.old (C.tells children.old)) es
        (run_state spool.new runner.new (C.tells children.new)) × (map (λ e. e.job) es ≡ jobs.now)
        × (result.told ≡ told_in es) × (result.fault ≡ ending_fault es)
        × HaveHappened (vec_capacity happened.old) (length jobs.now) happened.old.items happened.new.items (happenings_of (ending_events es)) }
    ensures capacity { vec_capacity happened.new ≡ vec_capacity happened.old }
{
    let mut told = 0;
    let mut fault = None;
    for job in jobs {
        let report = end_stage(spool, runner, children, *job);
        note_end(happened, *job, &report);
        told += report.told();
        fault = fault.or(report.fault());
    }
    Ends { told, fault }
}
