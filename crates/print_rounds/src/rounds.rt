//! A whole round.
ghost use Rattle.std.specs.Prelude.{◌≡◌, ◌≤◌, ◌↔◌, List, ℕ, IsSome, Some, []};
ghost use Rattle.spool_core.specs.OpenSpools.{IsSettled};
ghost use Rattle.child_pipeline.specs.ChildTraces.{ChildTrace};
ghost use Rattle.print_rounds.specs.RunStates.{run_state};
ghost use Rattle.print_rounds.specs.Finished.{EachFinishedOnce, HasNoneRunning};
ghost use Rattle.print_rounds.specs.Rounds.{IsRoundBy};

use crate::outcome::{Round, RoundFault};
use crate::passes::pass;
use child_pipeline::{Children, Runner};
use filter_args::Place;
use job_table::{legal_tables_stay_legal, spent_stages_stay_spent, versions_rise};
use spool_core::Spool;
use spool_disk::Disk;
use std::alloc::Global;

/// Runs one round: frees the slots whose jobs have left their stages, starts the next job of each queue, starts a stage of each processing
/// job, finishes each child and applies the event of its end. It returns the number of children that it started and of ends that were
/// acknowledged, or its first fault.
pub fn round<D: Disk, C: Children>(
    alloc: Global,
    place: &Place,
    spool: &mut Spool<D>,
    runner: &mut Runner<C>,
    children: &mut C,
) -> Result<Round, RoundFault>
    requires rest { HasNoneRunning runner.old }
    requires settled { IsSettled spool.old }

    // The steps and the result. A crash at any moment leaves the table after the first of its events. If the children report, it is a call
    // of a StageHistory, and if nothing failed it is Script's round.
    ensures round { IsRoundBy D.device place.now (run_state spool.old runner.old (C.tells children.old)) spool.old.dead (run_state spool.new runner.new (C.tells children.new)) result }
    ensures later { D.device.failures spool.old.disk ≤ D.device.failures spool.new.disk }
    ensures told { IsSome (D.device.bytes spool.new.disk) ↔ IsSome (D.device.bytes spool.old.disk) }

    // Whatever failed, each child that was started is finished once, and every start came before the first finish.
    ensures finished { (t : ChildTrace) → C.tells children.old ≡ Some t → t.running ≡ [] → (js : List ℕ) × EachFinishedOnce t (C.tells children.new) js }
    ensures rest { HasNoneRunning runner.new }
    ensures settled { IsSettled spool.new }
{
    // The table is legal and stays legal.
    let _legal = spool.table().jobs();
    legal_tables_stay_legal();
    spent_stages_stay_spent();
    versions_rise();
    let mut turn = 0;
    // A list without room: a round reports no events.
    let mut happened = Vec::new(alloc);
    pass(
        alloc,
        place,
        spool,
        runner,
        children,
        true,
        None,
        &mut turn,
        &mut happened,
    )
}
