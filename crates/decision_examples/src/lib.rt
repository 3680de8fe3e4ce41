//! Examples of decisions, stated as facts: each clause is a table that the check computes.
//!
//! The tables are in `specs/`, one file for each subject, and the functions here do nothing. A table states the results of a definition for
//! given values. That the code returns the same is the clause of the function that cites the definition, such as `result ≡ verdict_of ..`.
//! So a table replaces a test of that function if its clause gives the whole value. A table that no clause names promises nothing.
//!
//! # Promises
//!
//! - [`values`]: limits, texts, media types and the size of effects (`spool_types`).
//! - [`states`]: the states, reasons and words of phases, policies, refusals and warnings, and which queue is busy (`spool_types`).
//! - [`verdicts`]: the result of an attempt, by the end of its child (`backend_codes`).
//! - [`effects`]: the result of effects on a job's pages and on its queue (`row_effects`).
//! - [`turns`]: which job is next, and which of two jobs or deadlines precedes the other (`queue_sched`). A fact about `next_in` is a fact
//!   about `next_job` by the clauses `tested` and `only` of `order_law`.
//! - [`events`], [`full_stages`] and [`listings`]: the encoding of events and rows, and the first error of other bytes (`event_codec`, over
//!   the fields of `field_codec`); of rows, in both versions.
//! - [`options`] and [`children`]: the meaning of options, and the arguments and environment of a child (`filter_args`).
//! - [`devices`]: the meaning of a device's bytes as entries of a journal and as areas of a spool (`gate_journal`, `spool_areas`).
//! - [`services`]: the decisions of a service (`service_rules`).
#![tactic(auto)]

ghost use Rattle.decision_examples.specs.ValueExamples.{LimitsRows, LaterRows, QueueNameRows, MediaRows, LongMediaRows, TitleRows, RefusedTexts, EffectSizeRows, EnoughRows};
ghost use Rattle.decision_examples.specs.StateExamples.{StateRows, ReasonWordRows, HoldRows, HeldRows, PolicyWordRows, RefusalRows, NameRows, BusyRows};
ghost use Rattle.decision_examples.specs.VerdictExamples.{FilterRows, BackendRows, PolicyRows, LostRows, LimitRows};
ghost use Rattle.decision_examples.specs.EffectExamples.{PageRows, ReasonRows, SixtyFourReasons, SixtyFourAttributes, AttributeRows, MessageRows};
ghost use Rattle.decision_examples.specs.NextJobExamples.{NextRows, StoppedRows, BeatRows, StartableRows, EntryRows, MarkedEntryRows, DeadlineRows};
ghost use Rattle.decision_examples.specs.Events.{EventRows, EffectRows};
ghost use Rattle.decision_examples.specs.EventFaults.{FaultRows, EffectFaultRows, FullStageRows, LongTypeRows, CutTextRows, RangeRows, IntervalRows, SendRows};
ghost use Rattle.decision_examples.specs.ListedRows.{UnchangedRows, FirstVersionRows, MomentRows, LeastRows, PhaseRows};
ghost use Rattle.decision_examples.specs.ListedFaults.{ListedFaultRows, QueueFaultRows, PhaseFaultRows, FirstVersionFaultRows, MomentFaultRows};
ghost use Rattle.decision_examples.specs.OptionExamples.{OptionRows, OptionFaultRows, LastValueRows};
ghost use Rattle.decision_examples.specs.Children.{FileRows, ArgumentRows, EnvironmentRows};
ghost use Rattle.decision_examples.specs.DiskExamples.{JournalRows, DamagedRows, ClosedRows, LeastAreaRows, MadeRows, MadeAnewRows, AreaRows, VersionRows, HeaderFaultRows, PlanRows};
ghost use Rattle.decision_examples.specs.Services.{ServedRows, LookRows, FirstLookRows, PauseRows, WaitRows, ClockRows, ClockWaitRows, RoomRows, ShortRows, CheckpointRows, PurgeCountRows, PurgeRows, SweptRows};

/// Limits, texts, media types and the size of effects.
pub fn values()
    ensures limits { LimitsRows }
    ensures later { LaterRows }
    ensures queue_names { QueueNameRows }
    ensures media { MediaRows }
    ensures long_media { LongMediaRows }
    ensures titles { TitleRows }
    ensures refused { RefusedTexts }
    ensures effect_sizes { EffectSizeRows }
    ensures enough { EnoughRows }
{}

/// States, reasons and words of phases, policies, refusals and warnings, and which queue is busy.
pub fn states()
    ensures states { StateRows }
    ensures reasons { ReasonWordRows }
    ensures holds { HoldRows }
    ensures held { HeldRows }
    ensures policies { PolicyWordRows }
    ensures refusals { RefusalRows }
    ensures names { NameRows }
    ensures busy { BusyRows }
{}

/// The result of an attempt, by the end of its child.
pub fn verdicts()
    ensures filter { FilterRows }
    ensures backend { BackendRows }
    ensures policy { PolicyRows }
    ensures lost { LostRows }
    ensures limit { LimitRows }
{}

/// The result of effects on a job's pages and on its queue.
pub fn effects()
    ensures pages { PageRows }
    ensures reasons { ReasonRows }
    ensures full { SixtyFourReasons }
    ensures replaced { SixtyFourAttributes }
    ensures attributes { AttributeRows }
    ensures message { MessageRows }
{}

/// The order of jobs.
pub fn turns()
    ensures next { NextRows }
    ensures stopped { StoppedRows }
    ensures beats { BeatRows }
    ensures startable { StartableRows }
    ensures entry { EntryRows }
    ensures marked { MarkedEntryRows }
    ensures deadlines { DeadlineRows }
{}

/// The encoding of events, and bytes that are no event.
#[tactic(auto, unfolding(crate::proofs::Computing::reading_events))]
pub fn events()
    ensures spelled { EventRows }
    ensures effects { EffectRows }
    ensures faults { FaultRows }
    ensures effect_faults { EffectFaultRows }
    ensures long_type { LongTypeRows }
    ensures cut_text { CutTextRows }
    ensures ranges { RangeRows }
    ensures interval { IntervalRows }
    ensures send { SendRows }
{}

/// Bytes that may follow effects that leave four bytes of a stage's room.
#[tactic(auto, unfolding(crate::proofs::Computing::reading_events))]
pub fn full_stages()
    ensures full_stage { FullStageRows }
{}

/// The encoding of the rows of a listing, and bytes that are no row.
#[tactic(auto, unfolding(crate::proofs::Computing::reading_rows))]
pub fn listings()
    ensures unchanged { UnchangedRows }
    ensures first_version { FirstVersionRows }
    ensures moments { MomentRows }
    ensures least { LeastRows }
    ensures phases { PhaseRows }
    ensures faults { ListedFaultRows }
    ensures queue_faults { QueueFaultRows }
    ensures phase_faults { PhaseFaultRows }
    ensures first_version_faults { FirstVersionFaultRows }
    ensures moment_faults { MomentFaultRows }
{}

/// The meaning of options, and how they are printed.
pub fn options()
    ensures printed { OptionRows }
    ensures faults { OptionFaultRows }
    ensures last_value { LastValueRows }
{}

/// The files, arguments and environment of a child.
#[tactic(auto, unfolding(crate::proofs::Computing::printing_numbers))]
pub fn children()
    ensures files { FileRows }
    ensures arguments { ArgumentRows }
    ensures environment { EnvironmentRows }
{}

/// The meaning of a device's bytes.
pub fn devices()
    ensures entries { JournalRows }
    ensures damaged { DamagedRows }
    ensures closed { ClosedRows }
    ensures least { LeastAreaRows }
    ensures made { MadeRows }
    ensures made_anew { MadeAnewRows }
    ensures area { AreaRows }
    ensures versions { VersionRows }
    ensures header_faults { HeaderFaultRows }
    ensures plans { PlanRows }
{}

/// The decisions of a service.
pub fn services()
    ensures served { ServedRows }
    ensures looks { LookRows }
    ensures first_looks { FirstLookRows }
    ensures pauses { PauseRows }
    ensures waits { WaitRows }
    ensures clocks { ClockRows }
    ensures clock_waits { ClockWaitRows }
    ensures room { RoomRows }
    ensures short { ShortRows }
    ensures checkpoints { CheckpointRows }
    ensures purge_counts { PurgeCountRows }
    ensures purges { PurgeRows }
    ensures swept { SweptRows }
{}
