//! A pass over the queues, the common part of a round and a tick.
ghost use Rattle.std.specs.Prelude.{◌≡◌, ◌≤◌, ◌+◌, [], length, vec_capacity, IfOk};
ghost use Rattle.std.specs.FinMap as finite;
ghost use Rattle.spool_core.specs.OpenSpools.{IsSettled};
ghost use Rattle.print_rounds.specs.RunStates.{run_state};
ghost use Rattle.print_rounds.specs.StageChecks.{idle_slots};
ghost use Rattle.print_rounds.specs.Turns.{AreInTurn};
ghost use Rattle.print_rounds.specs.Happenings.{HaveHappened, IsPassThat, happenings_of};

use crate::busy::{list_idle, list_tended, mark_blocked};
use crate::ends::end_stages;
use crate::happenings::Happening;
use crate::launches::launch_all;
use crate::looks::{drop_strays, list_ripe};
use crate::outcome::{Round, RoundFault};
use crate::slots::free_idle;
use crate::start_room::{StartRoom, choose_jobs, hold_back};
use crate::starts::start_free;
use child_pipeline::{Children, Runner};
use filter_args::Place;
use spool_core::Spool;
use spool_disk::Disk;
use spool_types::JobId;
use std::alloc::{AllocError, Global};

// The lists of a pass, which are reserved before anything else.
#[derive(Drop)]
struct Lists {
    // For each queue, whether it starts nothing.
    blocked: Vec<bool>,
    spare: Vec<bool>,
    // The jobs whose stages are run.
    tended: Vec<JobId>,
    // The jobs in `tended` without a running child.
    idle: Vec<JobId>,
    // The jobs whose stages are started and, after that, the jobs whose ends are reported.
    chosen: Vec<JobId>,
}

impl Lists {
    // Returns empty lists with room for `queues` items each.
    fn reserve(alloc: Global, queues: usize) -> Result<Lists, AllocError>
        ensures blocked { IfOk result (λ l. (l.blocked.items ≡ []) × (queues ≤ vec_capacity l.blocked)) }
        ensures spare { IfOk result (λ l. (l.spare.items ≡ []) × (queues ≤ vec_capacity l.spare)) }
        ensures tended { IfOk result (λ l. (l.tended.items ≡ []) × (queues ≤ vec_capacity l.tended)) }
        ensures idle { IfOk result (λ l. (l.idle.items ≡ []) × (queues ≤ vec_capacity l.idle)) }
        ensures chosen { IfOk result (λ l. (l.chosen.items ≡ []) × (queues ≤ vec_capacity l.chosen)) }
    {
        let blocked = Vec::with_capacity(alloc, queues)?;
        let spare = Vec::with_capacity(alloc, queues)?;
        let tended = Vec::with_capacity(alloc, queues)?;
        let idle = Vec::with_capacity(alloc, queues)?;
        let chosen = Vec::with_capacity(alloc, queues)?;
        Ok(Lists {
            blocked,
            spare,
            tended,
            idle,
            chosen,
        })
    }
}

// Frees the slots that neither are current nor have a running child. Then it starts the next job of each queue without a running child, and
// a stage of each processing job without one, as far as there is room for starts. Then it reports the ends: of all children, which it waits
// for, or of the children that a check found ended. If queues were left out for lack of room, `turn` becomes the position after the last
// queue that was not. The accepted events are appended to `happened`, if it has room for two for each queue.
pub(crate) fn pass<D: Disk, C: Children>(
    alloc: Global,
    place: &Place,
    spool: &mut Spool<D>,
    runner: &mut Runner<C>,
    children: &mut C,
    waits: bool,
    start_room: Option<StartRoom>,
    turn: &mut usize,
    happened: &mut Vec<Happening>,
) -> Result<Round, RoundFault>
    requires settled { IsSettled spool.old }
    ensures pass { IsPassThat (λ events queues. AreInTurn turn.old turn.new spool.old.state (idle_slots spool.old.state runner.old) queues × HaveHappened (vec_capacity happened.old) (length (finite.keys spool.old.state.queues) + length (finite.keys spool.old.state.queues)) happened.old.items happened.new.items (happenings_of events))
        D.device place.now waits start_room (run_state spool.old runner.old (C.tells children.old)) spool.old.dead (run_state spool.new runner.new (C.tells children.new)) result }
    ensures settled { IsSettled spool.new }
{
    if spool.is_dead() {
        return Err(RoundFault::Dead);
    }
    let mut lists = match Lists::reserve(alloc, spool.table().queues().len()) {
        Ok(lists) => lists,
        Err(_) => return Err(RoundFault::Memory),
    };
    let table = spool.table();
    free_idle(table, runner);
    mark_blocked(table, runner, &mut lists.blocked);
    *turn = hold_back(
        start_room,
        *turn,
        table,
        runner,
        &mut lists.blocked,
        &mut lists.spare,
    );
    let fault = start_free(spool, &lists.blocked, happened);
    if spool.is_dead() {
        return Round::NONE.unless(fault);
    }
    list_tended(spool.table(), runner, &mut lists.tended);
    list_idle(runner, &lists.tended, &mut lists.idle);
    choose_jobs(start_room, &lists.idle, &mut lists.chosen);
    let launches = launch_all(alloc, place, spool, runner, children, &lists.chosen);
    lists.chosen.clear();
    list_ripe(waits, runner, children, &lists.tended, &mut lists.chosen);
    let ends = end_stages(spool, runner, children, &lists.chosen, happened);
    drop_strays(waits, spool.table(), runner, children);
    let round = Round {
        started: launches.started,
        finished: ends.told,
    };
    round.unless(fault.or(launches.fault.or(ends.fault)))
}
