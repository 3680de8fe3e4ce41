//! Which slots stay, and which of them have a running child.
ghost use Rattle.std.specs.Prelude.{◌≡◌};
ghost use Rattle.std.specs.FinMap as finite;
ghost use Rattle.spool_types.specs.State.{job_at};
ghost use Rattle.print_rounds.specs.StageChecks.{idle_slots, is_kept, is_stray, runs};
ghost use Rattle.print_rounds.specs.RoundScript.{is_current};

use child_pipeline::{Children, Runner};
use job_table::{Table, is_in_stage};
use spool_types::JobId;

// Returns whether the slot of a job is for the stage that the table has the job in.
fn is_current<C: Children>(table: &Table, runner: &Runner<C>, job: JobId) -> bool
    ensures { result ≡ is_current (job_at table.now.state job) (finite.get runner.now job) }
{
    let Some(row) = table.job(job) else {
        return false;
    };
    let Some(slot) = runner.slot(job) else {
        return false;
    };
    is_in_stage(row.job.phase, slot.attempt, slot.stage)
}

// Returns whether the child of a job's slot is running.
pub(crate) fn has_child<C: Children>(runner: &Runner<C>, job: JobId) -> bool
    ensures { result ≡ runs runner.now job }
{
    runner.is_running(job)
}

// Returns whether the slot of a job is for its current stage or has a running child.
fn is_kept<C: Children>(table: &Table, runner: &Runner<C>, job: JobId) -> bool
    ensures { result ≡ is_kept (job_at table.now.state job) (finite.get runner.now job) }
{
    is_current(table, runner, job) || has_child(runner, job)
}

// Returns whether a child is running in the slot of a job that has left the slot's stage.
pub(crate) fn is_stray<C: Children>(table: &Table, runner: &Runner<C>, job: JobId) -> bool
    ensures { result ≡ is_stray table.now.state runner.now job }
{
    has_child(runner, job) && !is_current(table, runner, job)
}

// Frees each slot whose job has left the slot's stage, unless its child is running. It iterates over the slots only.
pub(crate) fn free_idle<C: Children>(table: &Table, runner: &mut Runner<C>)
    ensures { runner.new ≡ idle_slots table.now.state runner.old }
{
    let mut behind = None;
    while let Some(job) = runner.next_job(behind) {
        if !is_kept(table, runner, job) {
            runner.release(job);
        }
        behind = Some(job);
    }
}
