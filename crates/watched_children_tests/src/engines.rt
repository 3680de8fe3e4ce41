//! Engines over children in memory that are watched.
ghost use Rattle.std.specs.Prelude.{◌≡◌, List, [], ◌∷◌, ◌++◌, Some};
ghost use Rattle.job_table.specs.Attempts.{HasNoProcessing};
ghost use Rattle.spool_core.specs.OpenSpools.{IsSettled};
ghost use Rattle.job_table.specs.TableCalls.{AreOnce};
ghost use Rattle.child_pipeline.specs.Tickets.{HasTickets};
ghost use Rattle.child_pipeline.specs.ChildTraces.{ChildTrace};
ghost use Rattle.child_pipeline.specs.declared.order.Placed.{Placed};
ghost use Rattle.print_rounds.specs.RoundTicks.{IsFinishedOff};
ghost use Rattle.print_rounds.specs.StageHistory.{keys_in};
ghost use Rattle.spool_engine.specs.EngineCalls.{Call, AreCalls, last_by};
ghost use Rattle.spool_engine.specs.EngineInputs.{AreCallsRight};
ghost use Rattle.spool_engine.specs.EventSteps.{setting};

use child_pipeline::MemChildren;
use filter_args::Place;
use log::Log;
use mime_costs::Convs;
use mime_rules::Types;
use spool_core::Spool;
use spool_disk::Disk;
use spool_engine::{Engine, no_stage_is_ordered_twice, stages_have_right_input};
use std::alloc::Global;
use watched_children::WatchedChildren;

/// Makes an engine over watched children in memory, of which none runs.
pub fn watched_engine<'a, L: Log, D: Disk>(
    log: &'a L,
    alloc: Global,
    spool: Spool<D>,
    children: MemChildren,
    rules: (Types, Convs),
    place: Place,
) -> Engine<D, WatchedChildren<'a, L, MemChildren>>
    requires idle { HasNoProcessing spool.state }
    requires settled { IsSettled spool }
    requires quiet { children.running ≡ [] }
    ensures tells { result.run_state.told ≡ Some children }
    // Each later stage gets the output of the stage before it.
    ensures input { (calls : List (Call D)) → AreCalls (setting D.device result.mime result.place) result.run_state calls →
        AreCallsRight (setting D.device result.mime result.place) [] result.run_state calls }
    // No stage of an attempt is ordered twice.
    ensures once { (first : Call D) (later : List (Call D)) (now : ChildTrace) (orders : List Placed) →
        AreCalls (setting D.device result.mime result.place) result.run_state (first ∷ later) →
        (last_by result.run_state (first ∷ later)).told ≡ Some now → now.orders ≡ children.orders ++ orders → AreOnce (keys_in orders) }
{
    // The table is legal.
    let _legal = spool.table().jobs();
    stages_have_right_input::<D>();
    no_stage_is_ordered_twice::<D>();
    let (types, convs) = rules;
    let watched = WatchedChildren::new(log, alloc, children);
    Engine::new(alloc, spool, watched, types, convs, place)
}

/// Waits for the children of such an engine that run.
pub fn end_watched<'a, L: Log, D: Disk>(
    engine: Engine<D, WatchedChildren<'a, L, MemChildren>>,
) -> (Spool<D>, WatchedChildren<'a, L, MemChildren>)
    ensures finished { (t : ChildTrace) → engine.entry.run_state.told ≡ Some t → HasTickets engine.entry.run_state.slots t → IsFinishedOff t (Some result.1.inner) }
{
    engine.into_parts()
}
