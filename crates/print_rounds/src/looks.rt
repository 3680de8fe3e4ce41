//! Checks of children, and the children whose jobs have left their stages.
ghost use Rattle.std.specs.Prelude.{◌≡◌, ◌≤◌, true, [], length, map, List, vec_capacity};
ghost use Rattle.std.specs.FinMap as finite;
ghost use Rattle.child_pipeline.specs.StageSlots.{IsRunning};
ghost use Rattle.print_rounds.specs.StageChecks.{Look, IsLook, AreLooks, Dropping, IsDropped, AreDroppings, ripe_in, strays};

use crate::slots::{has_child, is_stray};
use child_pipeline::{Children, Runner};
use job_table::Table;
use spool_types::JobId;

// Returns whether the end of a job's stage is reported now: its child is waited for or has ended, or it has none.
fn is_ripe<C: Children>(waits: bool, runner: &mut Runner<C>, children: &mut C, job: JobId) -> bool
    ensures slots { runner.new ≡ runner.old }
    ensures look { IsLook waits runner.old (C.tells children.old) (record { job = job; ripe = result; told = C.tells children.new }) }
{
    if waits || !has_child(runner, job) {
        return true;
    }
    runner.has_ended(children, job)
}

// Lists the jobs whose ends are reported now.
pub(crate) fn list_ripe<C: Children>(
    waits: bool,
    runner: &mut Runner<C>,
    children: &mut C,
    jobs: &[JobId],
    ripe: &mut Vec<JobId>,
)
    requires empty { ripe.old.items ≡ [] }
    requires room { length jobs.now ≤ vec_capacity ripe.old }
    ensures slots { runner.new ≡ runner.old }
    ensures looks { (ls : List Look) × AreLooks waits runner.old (C.tells children.old) ls (C.tells children.new) × (map (λ l. l.job) ls ≡ jobs.now) × (ripe.new.items ≡ ripe_in ls) }
{
    for job in jobs {
        if is_ripe(waits, runner, children, *job) {
            ripe.push_reserved(*job);
        }
    }
}

// Finishes a child whose job has left its stage, and frees its slot.
fn drop_child<C: Children>(runner: &mut Runner<C>, children: &mut C, job: JobId)
    requires { IsRunning (finite.get runner.old job) }
    ensures { IsDropped true runner.old job (C.tells children.old) runner.new (C.tells children.new) }
{
    runner.finish(children, job);
    runner.release(job);
}

// Finishes the children that have ended and whose jobs have left their stages. It iterates over the slots only.
pub(crate) fn drop_strays<C: Children>(
    waits: bool,
    table: &Table,
    runner: &mut Runner<C>,
    children: &mut C,
)
    ensures { (ds : List Dropping) × AreDroppings waits runner.old (C.tells children.old) ds runner.new (C.tells children.new)
        × (map (λ d. d.look.job) ds ≡ strays table.now.state runner.old) }
{
    let mut behind = None;
    while let Some(job) = runner.next_job(behind) {
        if is_stray(table, runner, job) && is_ripe(waits, runner, children, job) {
            drop_child(runner, children, job);
        }
        behind = Some(job);
    }
}
