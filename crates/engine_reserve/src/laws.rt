//! Laws of runs that keep the reserve.
ghost use Rattle.std.specs.Prelude.{◌≡◌, ℕ, List};
ghost use Rattle.filter_args.specs.declared.place.Place.{Place};
ghost use Rattle.print_rounds.specs.RunStates.{RunState};
ghost use Rattle.spool_engine.specs.Mime.{Mime};
ghost use Rattle.spool_engine.specs.EventSteps.{setting};
ghost use Rattle.spool_engine.specs.EngineRuns.{AreCommandSteps, CommandStep, last_run_state};
ghost use Rattle.engine_reserve.specs.ReservedRuns.{AreReservedSteps, let_in};

use spool_disk::Disk;

/// Commands that are refused for the reserve change nothing: the others are served as the engine serves them alone. So each law of the steps
/// of an engine holds for a run that keeps the reserve, such as `crashes_between_replies`, `calls_are_steps` and `replies_are_scripts` of
/// `spool_engine`.
pub fn refusals_change_nothing<D: Disk>()
    ensures steps { (mime : Mime) (place : Place) (area : ℕ) (s : RunState D) (turns : List (CommandStep D)) →
        AreReservedSteps (setting D.device mime place) area s turns → AreCommandSteps (setting D.device mime place) s (let_in area s turns) }
    ensures last { (mime : Mime) (place : Place) (area : ℕ) (s : RunState D) (turns : List (CommandStep D)) →
        AreReservedSteps (setting D.device mime place) area s turns → last_run_state s (let_in area s turns) ≡ last_run_state s turns }
{}
