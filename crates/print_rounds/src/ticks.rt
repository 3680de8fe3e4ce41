//! A tick: a round that waits for no child.
ghost use Rattle.std.specs.Prelude.{◌≡◌, ◌≤◌, ◌↔◌, List, map, IfSome, IsSome, Some};
ghost use Rattle.spool_core.specs.OpenSpools.{IsSettled};
ghost use Rattle.child_pipeline.specs.Tickets.{HasTickets};
ghost use Rattle.child_pipeline.specs.ChildTraces.{ChildTrace};
ghost use Rattle.print_rounds.specs.RunStates.{run_state};
ghost use Rattle.print_rounds.specs.Finished.{HasNoneRunning};
ghost use Rattle.print_rounds.specs.RoundTicks.{AreFinishings, Finishing, IsFinishedOff, IsTickAsked, count_running, running_jobs};
ghost use Rattle.print_rounds.specs.StartLimits.{IsRoomBy};
ghost use Rattle.print_rounds.specs.Happenings.{IsTickInTurn, IsTickThat, happenings_of};

use crate::happenings::Happening;
use crate::outcome::{Round, RoundFault};
use crate::passes::pass;
use crate::start_room::{TickLimits, room_of};
use child_pipeline::{Children, Runner, tickets_stay};
use filter_args::Place;
use job_table::{legal_tables_stay_legal, spent_stages_stay_spent, versions_rise};
use spool_core::Spool;
use spool_disk::Disk;
use std::alloc::Global;

/// Runs one tick, a round that waits for no child. It starts the next job of each queue without a running child, starts a stage of each
/// processing job without one, and applies the events of the children that have ended. A job that was canceled or abandoned while its child
/// ran keeps its slot, and its queue starts nothing, until that child has ended. It starts no more children than the limits and
/// [`Children::start_room`] allow. Of the queues that could start a job, those from position `turn` on come first; if others were left out,
/// `turn` becomes the position after the last one. It returns the number of children that it started and of ends that were acknowledged, or
/// its first fault. `happened` has its accepted events, in order, and nothing else. Their memory is reserved before anything is done.
pub fn tick<D: Disk, C: Children>(
    alloc: Global,
    place: &Place,
    spool: &mut Spool<D>,
    runner: &mut Runner<C>,
    children: &mut C,
    limits: Option<TickLimits>,
    turn: &mut usize,
    happened: &mut Vec<Happening>,
) -> Result<Round, RoundFault>
    requires settled { IsSettled spool.old }
    ensures tick { IsTickAsked (IsRoomBy (λ answer. (then : C) × C.rooms children.old answer then) limits (count_running runner.old) turn.old) D.device place.now limits (run_state spool.old runner.old (C.tells children.old)) spool.old.dead (run_state spool.new runner.new (C.tells children.new)) result }
    ensures later { D.device.failures spool.old.disk ≤ D.device.failures spool.new.disk }
    ensures told { IsSome (D.device.bytes spool.new.disk) ↔ IsSome (D.device.bytes spool.old.disk) }
    ensures settled { IsSettled spool.new }
    // No more children run than may at once.
    ensures most { IfSome limits (λ l. count_running runner.old ≤ l.most → count_running runner.new ≤ l.most) }
    // If queues were left out, they are first in the next tick. If nothing was done, the turn is the same.
    ensures turn { IsTickInTurn turn.old turn.new D.device place.now limits (run_state spool.old runner.old (C.tells children.old)) spool.old.dead (run_state spool.new runner.new (C.tells children.new)) result }
    // The accepted events, by job and kind.
    ensures happened { IsTickThat (λ events. happened.new.items ≡ happenings_of events) D.device place.now limits (run_state spool.old runner.old (C.tells children.old)) spool.old.dead (run_state spool.new runner.new (C.tells children.new)) result }
{
    // The table is legal and stays legal. No ticket is lost.
    let _legal = spool.table().jobs();
    legal_tables_stay_legal();
    spent_stages_stay_spent();
    versions_rise();
    tickets_stay();
    happened.clear();
    if spool.is_dead() {
        return Err(RoundFault::Dead);
    }
    let queues = spool.table().queues().len();
    match happened.reserve(queues + queues) {
        Ok(()) => {}
        Err(_) => return Err(RoundFault::Memory),
    }
    let start_room = room_of(limits, runner, children, *turn);
    pass(
        alloc, place, spool, runner, children, false, start_room, turn, happened,
    )
}

/// Waits for each running child. Their finishes stay in their slots, and no event is applied. So each child that was started has been
/// finished once before an engine is taken apart or a round begins.
pub fn finish_children<C: Children>(runner: &mut Runner<C>, children: &mut C)
    ensures steps { (fs : List Finishing) × AreFinishings runner.old (C.tells children.old) fs runner.new (C.tells children.new) × (map (λ f. f.job) fs ≡ running_jobs runner.old) }
    ensures rest { HasNoneRunning runner.new }
    ensures finished { (t : ChildTrace) → C.tells children.old ≡ Some t → HasTickets runner.old t → IsFinishedOff t (C.tells children.new) }
{
    // No ticket is lost.
    tickets_stay();
    let mut behind = None;
    while let Some(job) = runner.next_job(behind) {
        if runner.is_running(job) {
            runner.finish(children, job);
        }
        behind = Some(job);
    }
}
