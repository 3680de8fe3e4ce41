//! The engine whose events can be staged.
ghost use Rattle.std.specs.Prelude.{◌≡◌, ◌-◌, ℕ, false, true, not, List, Some, IfOk, IsNone, IsSome, IsTrue};
ghost use Rattle.std.specs.FinMap as finite;
ghost use Rattle.std.specs.String.{string_bytes};
ghost use Rattle.child_pipeline.specs.StageSlots.{Slots, IsRunning, IsTicketless, group_in};
ghost use Rattle.child_pipeline.specs.Tickets.{HasTickets};
ghost use Rattle.child_pipeline.specs.ChildTraces.{ChildTrace};
ghost use Rattle.print_rounds.specs.RunStates.{RunState, run_state};
ghost use Rattle.print_rounds.specs.Happenings.{IsTickInTurn, IsTickThat, happenings_of};
ghost use Rattle.spool_core.specs.OpenSpools.{IsSettled as NoneStaged};
ghost use Rattle.spool_types.specs.State.{State};
ghost use Rattle.spool_types.specs.declared.event.Reply.{Reply};
ghost use Rattle.spool_engine.specs.Script.{closing_as, closing_line};
ghost use Rattle.print_rounds.specs.Finished.{HasNoneRunning};
ghost use Rattle.print_rounds.specs.RoundTicks.{IsFinishedOff, count_running};
ghost use Rattle.spool_types.specs.declared.event.Event.{Event};
ghost use Rattle.spool_engine.specs.AnswerTexts.{answer_text};
ghost use Rattle.spool_engine.specs.EventSteps.{setting};
ghost use Rattle.spool_engine.specs.StagedSteps.{AreSettled, IsPlainIfSettled, SettlesTo, StagesStep, TakesStagingStep, is_staged};
ghost use Rattle.spool_engine.specs.EngineRounds.{IsRan, IsSettled};
ghost use Rattle.spool_engine.specs.EngineTicks.{IsTicked};
ghost use Rattle.spool_engine.specs.EngineRuns.{CommandStep, IsRun, TakesStep};

use crate::fault::RunFault;
use crate::mime::Mime;
use crate::printer::Printer;
use child_pipeline::Children;
use command_lines::{Answer, Command};
use filter_args::Place;
use job_table::Table;
use mime_costs::Convs;
use mime_rules::Types;
use print_rounds::{Happening, Round, RoundFault, TickLimits};
use spool_core::Spool;
use spool_disk::Disk;
use spool_types::{Closing, JobId, MediaType};
use std::alloc::{AllocError, Global};
use std::io::{Read, Write};
use std::marker::Model;

/// An engine over a spool, whose events can be staged: several commands are executed without a sync, and [`StagingEngine::settle`] makes
/// their events durable together. It types documents by a MIME database and runs children.
#[derive(Drop)]
pub struct StagingEngine<D: Disk, C: Children> {
    types: Types,
    convs: Convs,
    place: Place,
    printer: Printer<D, C>,
    // The position of the queue that is first in the queue order of a tick.
    turn: usize,
}

impl<D: Disk, C: Children> Model for StagingEngine<D, C> {
    ghost use Rattle.spool_engine.specs.Mime.{mime_code};
    ghost use Rattle.spool_engine.specs.EngineRuns.{Engine};
    ghost use Rattle.std.specs.Coded.{codes};
    ghost use Rattle.std.specs.FinMap as map;
    ghost use Rattle.std.specs.String.{string_bytes};

    ghost Value = { Engine D };

    ghost coded = { Prim.hlevel (codes, map.code, D.code, mime_code) };

    ghost view = { λ e. record {
      mime = record { types = e.types; convs = e.convs; locale = string_bytes e.place.lang };
      place = e.place;
      run_state = e.printer;
      turn = e.turn;
    } };
}

impl<D: Disk, C: Children> StagingEngine<D, C> {
    // Returns an engine over this spool, with the children, the MIME rules, the conversions and the `Place` of the children.
    pub(crate) fn new(
        alloc: Global,
        spool: Spool<D>,
        children: C,
        types: Types,
        convs: Convs,
        place: Place,
    ) -> StagingEngine<D, C>
        ensures run_state { result.run_state ≡ run_state spool finite.empty (C.tells children) }
        ensures types { result.mime.types ≡ types }
        ensures convs { result.mime.convs ≡ convs }
        ensures locale { result.mime.locale ≡ string_bytes place.lang }
        ensures place { result.place ≡ place }
    {
        StagingEngine {
            types,
            convs,
            place,
            printer: Printer::new(alloc, spool, children),
            turn: 0,
        }
    }

    /// Waits for each child that runs, and returns the spool and the children. So each child that was started has been finished, also after
    /// a fault of the device. No event is applied.
    pub fn into_parts(self) -> (Spool<D>, C)
        ensures spool { result.0 ≡ self.run_state.spool }
        ensures children { (slots : Slots) × IsSettled self.run_state (run_state result.0 slots (C.tells result.1)) }
        // If the children report, each child that ran has been finished once, and none runs.
        ensures finished { (t : ChildTrace) → self.run_state.told ≡ Some t → HasTickets self.run_state.slots t → IsFinishedOff t (C.tells result.1) }
        ensures quiet { HasNoneRunning self.run_state.slots → C.tells result.1 ≡ self.run_state.told }
    {
        let StagingEngine { printer, .. } = self;
        printer.into_parts()
    }

    /// Returns whether the device has failed. Every event and every round is then answered `error dead`.
    pub fn met_fault(&self) -> bool
        ensures dead { result ≡ self.now.run_state.spool.dead }
        // If nothing is staged, a crash leaves what is shown, until the device has failed.
        ensures plain { IsPlainIfSettled D.device self.now.run_state.spool }
    {
        self.printer.met_fault()
    }

    /// Returns the number of bytes left for records of events until a checkpoint.
    pub fn room(&self) -> u64
        ensures { result ≡ self.now.run_state.spool.room }
    {
        self.printer.room()
    }

    /// Returns the current table.
    pub fn table(&self) -> &Table
        ensures { result.now.state ≡ self.now.run_state.spool.state }
    {
        self.printer.table()
    }

    // Waits for each child that runs, then runs a round.
    pub(crate) fn round(&mut self) -> Result<Round, RoundFault>
        requires settled { NoneStaged self.old.run_state.spool }
        ensures settled { NoneStaged self.new.run_state.spool }
        ensures round { (settled : RunState D) × (tried : List Event) × (documents : ℕ → List ℕ) × IsRan (setting D.device self.old.mime self.old.place) self.old.run_state
            (record { settled = settled; next = self.new.run_state; result = result; tried = tried; documents = documents }) }
        ensures rests { HasNoneRunning self.old.run_state.slots → HasNoneRunning self.new.run_state.slots }
        ensures mime { self.new.mime ≡ self.old.mime }
        ensures place { self.new.place ≡ self.old.place }
        ensures turn { self.new.turn ≡ self.old.turn }
    {
        self.printer.round(&self.place)
    }

    // Runs a tick with nothing staged.
    pub(crate) fn tick_settled(
        &mut self,
        limits: Option<TickLimits>,
        happened: &mut Vec<Happening>,
    ) -> Result<Round, RoundFault>
        requires settled { NoneStaged self.old.run_state.spool }
        ensures settled { NoneStaged self.new.run_state.spool }
        ensures tick { (tried : List Event) × IsTicked (setting D.device self.old.mime self.old.place) self.old.run_state
            (record { limits = limits; next = self.new.run_state; result = result; tried = tried }) }
        // If queues were left out, they are first in the next tick.
        ensures turn { IsTickInTurn self.old.turn self.new.turn D.device self.old.place limits self.old.run_state self.old.run_state.spool.dead self.new.run_state result }
        ensures happened { IsTickThat (λ events. happened.new.items ≡ happenings_of events) D.device self.old.place limits self.old.run_state self.old.run_state.spool.dead self.new.run_state result }
        ensures mime { self.new.mime ≡ self.old.mime }
        ensures place { self.new.place ≡ self.old.place }
    {
        let turn = &mut self.turn;
        self.printer.tick(&self.place, limits, turn, happened)
    }

    /// Returns how many more children may run, if at most `most` may.
    pub fn count_free(&self, most: usize) -> usize
        ensures { result ≡ most - count_running self.now.run_state.slots }
    {
        self.printer.count_free(most)
    }

    /// Returns whether the child of a job runs.
    pub fn is_running(&self, job: JobId) -> bool
        ensures yes { IsTrue result → IsRunning (finite.get self.now.run_state.slots job) }
        ensures no { result ≡ false → IsTicketless (finite.get self.now.run_state.slots job) }
    {
        self.printer.is_running(job)
    }

    /// Returns the process group of a job's child, if one runs.
    pub fn group_of(&self, job: JobId) -> Option<u32>
        ensures some { IsSome result → IsRunning (finite.get self.now.run_state.slots job) }
        ensures none { IsNone result → IsTicketless (finite.get self.now.run_state.slots job) }
        ensures group { result ≡ group_in C.groups (finite.get self.now.run_state.slots job) }
    {
        self.printer.group_of(job)
    }

    /// Returns the event that closes a job as a document of this type, with the filters of the cheapest chain of conversions to the type that
    /// the job's queue takes, and the answer if the event is accepted. Without such a chain the document cannot be printed, as with `close`.
    /// A caller that lets a client name the type executes this event.
    pub fn closing_as(&self, job: JobId, media: MediaType) -> Result<(Closing, Answer), AllocError>
        ensures closing { IfOk result (λ both. both.0 ≡ closing_as self.now.mime self.now.run_state.spool.state job media) }
        ensures answer { IfOk result (λ both. (s : State) (reply : Reply) → answer_text s both.1 ≡ closing_line both.0 reply) }
    {
        let mime = Mime {
            types: &self.types,
            convs: &self.convs,
            locale: self.place.lang.as_str(),
        };
        self.printer.closing_as(&mime, job, media)
    }

    /// Executes a command, and returns the answer. Its event, if it has one, is staged: the table has it, and it becomes durable with
    /// [`StagingEngine::settle`]. Until then the answer may be shown to nobody. A round, a drain or a checkpoint settles the staged events
    /// first.
    pub fn execute(&mut self, command: Command) -> Answer
        ensures executed { (t : CommandStep D) × TakesStagingStep (setting D.device self.old.mime self.old.place)
            self.old.run_state command t self.new.run_state × (answer_text self.new.run_state.spool.state result ≡ t.text) }
        ensures mime { self.new.mime ≡ self.old.mime }
        ensures place { self.new.place ≡ self.old.place }
        ensures turn { self.new.turn ≡ self.old.turn }
    {
        match command {
            Command::Round | Command::Drain(_) | Command::Checkpoint => {
                self.settle();
                self.execute_settled(command)
            }
            command => self.stage(command),
        }
    }

    // Stages a command, and returns the answer.
    fn stage(&mut self, command: Command) -> Answer
        requires plain { is_staged command ≡ true }
        ensures staged { (t : CommandStep D) × StagesStep (setting D.device self.old.mime self.old.place)
            self.old.run_state command t self.new.run_state × (answer_text self.new.run_state.spool.state result ≡ t.text) }
        ensures mime { self.new.mime ≡ self.old.mime }
        ensures place { self.new.place ≡ self.old.place }
        ensures turn { self.new.turn ≡ self.old.turn }
    {
        let mime = Mime {
            types: &self.types,
            convs: &self.convs,
            locale: self.place.lang.as_str(),
        };
        self.printer.stage(&mime, command)
    }

    /// Settles the staged events, and runs a tick, as [`Engine::tick`](crate::Engine::tick) does.
    pub fn tick(
        &mut self,
        limits: Option<TickLimits>,
        happened: &mut Vec<Happening>,
    ) -> Result<Round, RoundFault>
        ensures tick { (mid : RunState D) × SettlesTo D.device self.old.run_state mid × AreSettled mid self.new.run_state
            × ((tried : List Event) × IsTicked (setting D.device self.old.mime self.old.place) mid (record { limits = limits; next = self.new.run_state; result = result; tried = tried }))
            × IsTickInTurn self.old.turn self.new.turn D.device self.old.place limits mid mid.spool.dead self.new.run_state result
            × IsTickThat (λ events. happened.new.items ≡ happenings_of events) D.device self.old.place limits mid mid.spool.dead self.new.run_state result }
        ensures mime { self.new.mime ≡ self.old.mime }
        ensures place { self.new.place ≡ self.old.place }
    {
        self.settle();
        self.tick_settled(limits, happened)
    }

    /// Makes all staged events durable, with two syncs, and returns whether the device works afterwards. If nothing is staged, it calls no
    /// device.
    pub fn settle(&mut self) -> bool
        ensures settles { SettlesTo D.device self.old.run_state self.new.run_state }
        ensures lives { self.new.run_state.spool.dead ≡ not result }
        ensures mime { self.new.mime ≡ self.old.mime }
        ensures place { self.new.place ≡ self.old.place }
        ensures turn { self.new.turn ≡ self.old.turn }
    {
        self.printer.settle()
    }

    // Executes a command with nothing staged, and returns the answer.
    pub(crate) fn execute_settled(&mut self, command: Command) -> Answer
        requires settled { NoneStaged self.old.run_state.spool }
        ensures settled { NoneStaged self.new.run_state.spool }
        ensures executed { (t : CommandStep D) × TakesStep (setting D.device self.old.mime self.old.place)
            self.old.run_state command t self.new.run_state × (answer_text self.new.run_state.spool.state result ≡ t.text) }
        ensures mime { self.new.mime ≡ self.old.mime }
        ensures place { self.new.place ≡ self.old.place }
        ensures turn { self.new.turn ≡ self.old.turn }
    {
        let place = &self.place;
        let mime = Mime {
            types: &self.types,
            convs: &self.convs,
            locale: place.lang.as_str(),
        };
        self.printer.execute(&mime, place, command)
    }

    // Serves the commands of a text.
    pub(crate) fn run<R: Read, W: Write>(
        &mut self,
        reader: &mut R,
        writer: &mut W,
    ) -> Result<(), RunFault>
        requires settled { NoneStaged self.old.run_state.spool }
        ensures settled { NoneStaged self.new.run_state.spool }
        ensures run { (text : List ℕ) × (turns : List (CommandStep D)) ×
            IsRun (setting D.device self.old.mime self.old.place)
            (R.remaining reader.old) self.old.run_state text turns self.new.run_state result
            (W.contents writer.old) (W.contents writer.new) }
        ensures rests { HasNoneRunning self.old.run_state.slots → HasNoneRunning self.new.run_state.slots }
        ensures mime { self.new.mime ≡ self.old.mime }
        ensures place { self.new.place ≡ self.old.place }
        ensures turn { self.new.turn ≡ self.old.turn }
    {
        let place = &self.place;
        let mime = Mime {
            types: &self.types,
            convs: &self.convs,
            locale: place.lang.as_str(),
        };
        self.printer.serve(&mime, place, reader, writer)
    }
}
