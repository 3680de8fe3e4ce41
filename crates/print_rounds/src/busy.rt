//! Which queues may start a job, and which jobs have a stage that is run.
ghost use Rattle.std.specs.Prelude.{◌≡◌, ◌≤◌, [], length, vec_capacity, None, Some, IfSome, IsNone};
ghost use Rattle.std.specs.FinMap as finite;
ghost use Rattle.spool_types.specs.State.{Job, job_at};
ghost use Rattle.job_table.specs.QueuePositions.{IsNameAt};
ghost use Rattle.print_rounds.specs.Finished.{AreDistinct, AllRest};
ghost use Rattle.print_rounds.specs.StageChecks.{blocked_flags, free_queues, idle_among, tended_jobs};
ghost use Rattle.print_rounds.specs.Passes.{unblocked};

use crate::slots::{has_child, is_stray};
use child_pipeline::{Children, Runner};
use job_table::Table;
use spool_types::JobId;

// Returns the position of a job's queue among the queues.
fn queue_position(table: &Table, job: JobId) -> Option<usize>
    ensures place { IfSome result (λ at. (r : Job) × (job_at table.now.state job ≡ Some r) × IsNameAt (finite.keys table.now.state.queues) r.queue at) }
    ensures none { IsNone result → job_at table.now.state job ≡ None }
{
    let row = table.job(job)?;
    let name = row.job.queue.as_str();
    let place = table
        .queues()
        .binary_search_by(|queue| queue.name.as_str().cmp(name));
    place.ok()
}

// Marks each queue that has a running child.
pub(crate) fn mark_blocked<C: Children>(table: &Table, runner: &Runner<C>, blocked: &mut Vec<bool>)
    requires empty { blocked.old.items ≡ [] }
    requires room { length (finite.keys table.now.state.queues) ≤ vec_capacity blocked.old }
    ensures count { length blocked.new.items ≡ length (finite.keys table.now.state.queues) }
    ensures flags { blocked.new.items ≡ blocked_flags table.now.state runner.now }
    ensures value { unblocked blocked.new.items (finite.keys table.now.state.queues) ≡ free_queues table.now.state runner.now }
{
    for _ in 0..table.queues().len() {
        blocked.push_reserved(false);
    }
    let mut behind = None;
    while let Some(job) = runner.next_job(behind) {
        if has_child(runner, job) {
            if let Some(place) = queue_position(table, job) {
                blocked[place] = true;
            }
        }
        behind = Some(job);
    }
}

// Lists the processing jobs, in ascending order of their queues' names, except jobs whose child still runs an earlier stage.
pub(crate) fn list_tended<C: Children>(table: &Table, runner: &Runner<C>, jobs: &mut Vec<JobId>)
    requires empty { jobs.old.items ≡ [] }
    requires room { length (finite.keys table.now.state.queues) ≤ vec_capacity jobs.old }
    ensures value { jobs.new.items ≡ tended_jobs table.now.state runner.now (finite.keys table.now.state.queues) }
    ensures distinct { AreDistinct jobs.new.items }
    ensures bound { length jobs.new.items ≤ length (finite.keys table.now.state.queues) }
{
    // Each row is found by its number, so no job is listed twice.
    let _rows = table.jobs();
    for queue in table.queues() {
        if let Some(job) = table.processing(&queue.name) {
            if !is_stray(table, runner, job) {
                jobs.push_reserved(job);
            }
        }
    }
}

// Lists the jobs that have no running child.
pub(crate) fn list_idle<C: Children>(runner: &Runner<C>, jobs: &[JobId], idle: &mut Vec<JobId>)
    requires empty { idle.old.items ≡ [] }
    requires room { length jobs.now ≤ vec_capacity idle.old }
    requires distinct { AreDistinct jobs.now }
    ensures value { idle.new.items ≡ idle_among runner.now jobs.now }
    ensures bound { length idle.new.items ≤ length jobs.now }
    ensures distinct { AreDistinct idle.new.items }
    ensures rest { AllRest runner.now idle.new.items }
{
    for job in jobs {
        if !has_child(runner, *job) {
            idle.push_reserved(*job);
        }
    }
}
