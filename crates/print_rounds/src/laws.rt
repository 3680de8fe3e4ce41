//! Laws about consecutive calls.
ghost use Rattle.std.specs.Prelude.{◌≡◌, ℕ, List, [], ◌∷◌, ◌++◌, Option, Result, Some};
ghost use Rattle.std.specs.FinMap as finite;
ghost use Rattle.spool_types.specs.State.{State};
ghost use Rattle.spool_types.specs.declared.event.Event.{Event};
ghost use Rattle.job_table.specs.Attempts.{HasNoProcessing};
ghost use Rattle.job_table.specs.Legal.{IsLegal};
ghost use Rattle.job_table.specs.TableCalls.{AreOnce};
ghost use Rattle.filter_args.specs.declared.place.Place.{Place};
ghost use Rattle.child_pipeline.specs.StageSlots.{Slots};
ghost use Rattle.child_pipeline.specs.Tickets.{HasTickets};
ghost use Rattle.child_pipeline.specs.ChildTraces.{ChildTrace};
ghost use Rattle.child_pipeline.specs.declared.order.Placed.{Placed};
ghost use Rattle.print_rounds.specs.RunStates.{RunState};
ghost use Rattle.print_rounds.specs.TickInputs.{AreHandedOn, AreTicks, FinishesHandOn, RunTheirStages, TickCall, TickHandsOn};
ghost use Rattle.print_rounds.specs.Finished.{HasNoneRunning};
ghost use Rattle.print_rounds.specs.Inputs.{AnsweredOrder, AreKeptFrom, HandsOn};
ghost use Rattle.print_rounds.specs.StageLives.{Life, IsLife, IsStageHistory, end_of, keys_of, keys_of_life, AreStageCalls, life_of, last_left};
ghost use Rattle.print_rounds.specs.Rounds.{IsRoundOf};
ghost use Rattle.print_rounds.specs.RoundScript.{round_of};
ghost use Rattle.print_rounds.specs.RoundTicks.{AreFinishings, Finishing, IsTickOf, tick_of};
ghost use Rattle.print_rounds.specs.StageHistory.{IsStageCall, keys_in};
ghost use Rattle.print_rounds.specs.declared.start_room.TickLimits.{TickLimits as LimitsOf};
ghost use Rattle.print_rounds.specs.declared.outcome.Round.{Round as RoundOf};
ghost use Rattle.print_rounds.specs.declared.outcome.RoundFault.{RoundFault as FaultOf};

use child_pipeline::tickets_stay;
use job_table::{legal_tables_stay_legal, spent_stages_stay_spent, versions_rise};
use spool_disk::Disk;

/// Two consecutive calls are one call of a StageHistory (`IsStageCall`). So no stage of an attempt is started in both.
pub fn calls_join<D: Disk>()
    ensures { (old mid new : RunState D) (t : ChildTrace) (more further : List Event) (one : IsStageCall t old more mid) →
        IsStageCall one.now mid further new → IsStageCall t old (more ++ further) new }
{
    legal_tables_stay_legal();
    spent_stages_stay_spent();
    versions_rise();
}

/// *RightInput* of one round: if the slots retain the outputs of earlier orders (`AreKeptFrom`), each order of the round is passed the
/// right input (`HandsOn`), and after the round the slots retain the outputs of its orders too. So the law applies from round to round.
pub fn rounds_hand_on<D: Disk>()
    ensures { (place : Place) (earlier : List AnsweredOrder) (t : ChildTrace) (old new : RunState D) (result : Result RoundOf FaultOf) →
        IsLegal old.spool.state → old.told ≡ Some t → t.running ≡ [] → HasNoneRunning old.slots → AreKeptFrom earlier old.slots →
        (r : IsRoundOf D.device place old new result) → HandsOn earlier t r.steps.launchings new }
{
    legal_tables_stay_legal();
}

/// *RightInput* over ticks. A child may end in a later tick than it was started in, and children may end in another order than they
/// started.
pub fn ticks_hand_on<D: Disk>()
    // If the slots retain the outputs of earlier orders and their children run the slots' stages, each order of a tick is passed the right
    // input, and both are true again after the tick.
    ensures one { (place : Place) (limits : Option LimitsOf) (earlier : List AnsweredOrder) (t : ChildTrace) (old new : RunState D) (result : Result RoundOf FaultOf) →
        IsLegal old.spool.state → old.told ≡ Some t → HasTickets old.slots t → AreKeptFrom earlier old.slots → RunTheirStages t.orders old.slots →
        (r : IsTickOf D.device place limits old new result) → TickHandsOn earlier t old r.steps new }

    // The same for the end, when all children are waited for.
    ensures finishes { (earlier : List AnsweredOrder) (t : ChildTrace) (slots : Slots) (told : Option ChildTrace) (fs : List Finishing) (new : Slots) (told_then : Option ChildTrace) →
        told ≡ Some t → HasTickets slots t → AreKeptFrom earlier slots → RunTheirStages t.orders slots →
        AreFinishings slots told fs new told_then → FinishesHandOn earlier t slots told fs new told_then }

    // For any number of ticks that begin without slots, each order is right after the answers of the ticks before it.
    ensures many { (place : Place) (t : ChildTrace) (calls : List (TickCall D)) (ticks : AreTicks D.device place finite.empty (Some t) calls) →
        t.running ≡ [] → AreHandedOn D.device place finite.empty (Some t) [] t calls ticks }
{
    legal_tables_stay_legal();
    tickets_stay();
}

/// Finishing children and nothing else, as `finish_children` does, is a call of a StageHistory too: it starts no stage, has no event, and
/// the same stages are held after it.
pub fn finishes_are_a_call<D: Disk>()
    ensures { (t : ChildTrace) (old new : RunState D) (fs : List Finishing) → IsLegal old.spool.state → HasTickets old.slots t → old.told ≡ Some t →
        AreFinishings old.slots old.told fs new.slots new.told → new.spool ≡ old.spool → IsStageCall t old [] new }
{
    legal_tables_stay_legal();
    spent_stages_stay_spent();
    versions_rise();
    tickets_stay();
}

/// *NoStageTwice* over many lives: in every StageHistory no stage of an attempt is started twice.
pub fn no_stage_comes_twice()
    ensures { (lives : List Life) → IsStageHistory lives → AreOnce (keys_of lives) }
{
    legal_tables_stay_legal();
    spent_stages_stay_spent();
    versions_rise();
}

/// One or more consecutive calls, from a table without a processing job and without slots, are a life.
pub fn calls_make_a_life<D: Disk>()
    ensures life { (t : ChildTrace) (old : RunState D) (c : List Event × RunState D) (cs : List (List Event × RunState D)) (calls : AreStageCalls t old (c ∷ cs)) →
        HasNoProcessing old.spool.state → old.slots ≡ finite.empty → IsLife (life_of t old c cs calls) }

    // It ends with the table that the last call leaves, and its stages are those of the orders in the children's trace.
    ensures end { (t : ChildTrace) (old : RunState D) (c : List Event × RunState D) (cs : List (List Event × RunState D)) (calls : AreStageCalls t old (c ∷ cs)) →
        end_of (life_of t old c cs calls) ≡ (last_left c.1 cs).spool.state }
    ensures keys { (t : ChildTrace) (old : RunState D) (c : List Event × RunState D) (cs : List (List Event × RunState D)) (calls : AreStageCalls t old (c ∷ cs)) → old.told ≡ Some t →
        (now : ChildTrace) (orders : List Placed) → (last_left c.1 cs).told ≡ Some now → now.orders ≡ t.orders ++ orders → keys_of_life (life_of t old c cs calls) ≡ keys_in orders }
{}

/// A round is the tick whose checks all report that the child has ended: if no child runs and the trace lists no answers of checks, each
/// check reports an end, and Script's tick is Script's round.
pub fn rounds_are_ticks()
    ensures { (place : Place) (documents : ℕ → List ℕ) (s : State) (slots : Slots) (t : ChildTrace) → IsLegal s → HasNoneRunning slots → t.looks ≡ [] →
        tick_of place documents s slots t ≡ round_of place documents s slots t }
{}
