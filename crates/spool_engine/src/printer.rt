//! The printer: executes commands, each on the run state that it finds, and serves the commands of a text.
ghost use Rattle.std.specs.Prelude.{◌≡◌, ◌-◌, ℕ, false, true, not, List, [], IfOk, IsNone, IsSome, IsTrue, OnOk};
ghost use Rattle.std.specs.FinMap as finite;
ghost use Rattle.spool_core.specs.OpenSpools.{IsSettled as NoneStaged};
ghost use Rattle.spool_types.specs.declared.event.Event.{Event as EventOf};
ghost use Rattle.command_lines.specs.declared.command.Command.{Command};
ghost use Rattle.child_pipeline.specs.StageSlots.{Slots, IsRunning, IsTicketless, group_in};
ghost use Rattle.print_rounds.specs.RoundTicks.{count_running};
ghost use Rattle.print_rounds.specs.RunStates.{RunState, run_state};
ghost use Rattle.print_rounds.specs.Happenings.{IsTickInTurn, IsTickThat, happenings_of};
ghost use Rattle.spool_types.specs.State.{State};
ghost use Rattle.spool_types.specs.declared.event.Reply.{Reply};
ghost use Rattle.spool_engine.specs.AnswerTexts.{answer_text};
ghost use Rattle.spool_engine.specs.EventSteps.{setting};
ghost use Rattle.spool_engine.specs.StagedSteps.{IsPlainIfSettled, MayApply, SettlesTo, StagesStep, TakesStepAs, is_staged};
ghost use Rattle.spool_engine.specs.Mime.{Mime as MimeDatabase};
ghost use Rattle.spool_engine.specs.EngineTicks.{IsTicked};
ghost use Rattle.spool_engine.specs.EngineRounds.{Ran, IsRan, IsSettled, AreRan, AreAll, AreRun, counts_in, results_of, rounds_run};
ghost use Rattle.filter_args.specs.declared.place.Place.{Place as PlaceOf};
ghost use Rattle.spool_engine.specs.Script.{closing_as, closing_line, is_idle, round_text, drain_text, withholds_event};
ghost use Rattle.spool_engine.specs.EngineRuns.{CommandStep, TakesStep, Serves, IsRun, Drains, DrainsEnd, DrainsPiece};

use crate::answers::{append_answer, drain_answer, round_answer};
use crate::durability::Durability;
use crate::executor::Executor;
use crate::fault::RunFault;
use crate::mime::Mime;
use child_pipeline::{Children, Runner, tickets_stay};
use command_lines::{Answer, Command, Commands, Rounds};
use filter_args::Place;
use job_table::{Table, versions_rise};
use print_rounds::{Happening, Round, RoundFault, TickLimits, count_free, finish_children};
use spool_core::Spool;
use spool_disk::Disk;
use spool_types::{Closing, Event, JobId, MediaType, Refusal};
use std::alloc::{AllocError, Global};
use std::io::{ErrorKind, Read, Write};
use std::marker::Model;
use whole_writes::write_whole;

// The number of bytes requested from the reader at once.
const PIECE: usize = 16_384;

/// An executor, with the slots and the children that rounds and ticks use. Its view is the run state: the spool, the slots, and the trace
/// that the children report.
#[derive(Drop)]
pub(crate) struct Printer<D: Disk, C: Children> {
    alloc: Global,
    executor: Executor<D>,
    runner: Runner<C>,
    children: C,
}

impl<D: Disk, C: Children> Model for Printer<D, C> {
    ghost use Rattle.print_rounds.specs.RunStates.{RunState, run_state};
    ghost use Rattle.std.specs.Coded.{codes};
    ghost use Rattle.std.specs.FinMap as map;

    ghost Value = { RunState D };

    ghost coded = { Prim.hlevel (codes, map.code, D.code) };

    ghost view = { λ p. run_state p.executor p.runner (C.tells p.children) };
}

impl<D: Disk, C: Children> Printer<D, C> {
    /// Returns a printer over this spool.
    pub fn new(alloc: Global, spool: Spool<D>, children: C) -> Printer<D, C>
        ensures { result ≡ run_state spool finite.empty (C.tells children) }
    {
        Printer {
            alloc,
            executor: Executor::new(alloc, spool),
            runner: Runner::new(alloc),
            children,
        }
    }

    /// Waits for each child that runs, and returns the spool and the children.
    pub fn into_parts(self) -> (Spool<D>, C)
        ensures { (slots : Slots) × IsSettled self (run_state result.0 slots (C.tells result.1)) }
    {
        let Printer {
            executor,
            runner,
            children,
            ..
        } = self;
        let mut runner = runner;
        let mut children = children;
        finish_children(&mut runner, &mut children);
        (executor.into_spool(), children)
    }

    /// Returns whether the device has failed. Every event is then answered `error dead`.
    pub fn met_fault(&self) -> bool
        ensures dead { result ≡ self.now.spool.dead }
        // If nothing is staged, a crash leaves what is shown, until the device has failed.
        ensures plain { IsPlainIfSettled D.device self.now.spool }
    {
        self.executor.met_fault()
    }

    /// Returns the number of bytes left for records of events until a checkpoint.
    pub fn room(&self) -> u64
        ensures { result ≡ self.now.spool.room }
    {
        self.executor.room()
    }

    /// Returns the current table.
    pub fn table(&self) -> &Table
        ensures { result.now.state ≡ self.now.spool.state }
    {
        self.executor.table()
    }

    /// Makes all staged events durable, and returns whether the device works afterwards.
    pub fn settle(&mut self) -> bool
        ensures settles { SettlesTo D.device self.old self.new }
        ensures lives { self.new.spool.dead ≡ not result }
    {
        self.executor.settle()
    }

    /// Waits for each child that runs, then runs a round.
    pub fn round(&mut self, place: &Place) -> Result<Round, RoundFault>
        requires settled { NoneStaged self.old.spool }
        ensures settled { NoneStaged self.new.spool }
        ensures round { (m : MimeDatabase) → (settled : RunState D) × (tried : List EventOf) × (documents : ℕ → List ℕ) × IsRan (setting D.device m place.now) self.old
            (record { settled = settled; next = self.new; result = result; tried = tried; documents = documents }) }
    {
        self.executor
            .round(place, &mut self.runner, &mut self.children)
    }

    /// Runs a tick, which waits for no child, within these limits, and reports its accepted events.
    pub fn tick(
        &mut self,
        place: &Place,
        limits: Option<TickLimits>,
        turn: &mut usize,
        happened: &mut Vec<Happening>,
    ) -> Result<Round, RoundFault>
        requires settled { NoneStaged self.old.spool }
        ensures settled { NoneStaged self.new.spool }
        ensures tick { (m : MimeDatabase) → (tried : List EventOf) × IsTicked (setting D.device m place.now) self.old
            (record { limits = limits; next = self.new; result = result; tried = tried }) }
        ensures turn { IsTickInTurn turn.old turn.new D.device place.now limits self.old self.old.spool.dead self.new result }
        ensures happened { IsTickThat (λ events. happened.new.items ≡ happenings_of events) D.device place.now limits self.old self.old.spool.dead self.new result }
    {
        self.executor.tick(
            place,
            &mut self.runner,
            &mut self.children,
            limits,
            turn,
            happened,
        )
    }

    /// Returns the event that closes a job as a document of this type, and the answer if it is accepted.
    pub fn closing_as(
        &self,
        mime: &Mime<'_>,
        job: JobId,
        media: MediaType,
    ) -> Result<(Closing, Answer), AllocError>
        ensures closing { IfOk result (λ both. both.0 ≡ closing_as mime.now self.now.spool.state job media) }
        ensures answer { IfOk result (λ both. (s : State) (reply : Reply) → answer_text s both.1 ≡ closing_line both.0 reply) }
    {
        self.executor.closing_as(mime, job, media)
    }

    /// Returns how many more children may run, if at most `most` may.
    pub fn count_free(&self, most: usize) -> usize
        ensures { result ≡ most - count_running self.now.slots }
    {
        count_free(&self.runner, most)
    }

    /// Returns whether the child of a job runs.
    pub fn is_running(&self, job: JobId) -> bool
        ensures yes { IsTrue result → IsRunning (finite.get self.now.slots job) }
        ensures no { result ≡ false → IsTicketless (finite.get self.now.slots job) }
    {
        self.runner.is_running(job)
    }

    /// Returns the process group of a job's child, if one runs.
    pub fn group_of(&self, job: JobId) -> Option<u32>
        ensures some { IsSome result → IsRunning (finite.get self.now.slots job) }
        ensures none { IsNone result → IsTicketless (finite.get self.now.slots job) }
        ensures group { result ≡ group_in C.groups (finite.get self.now.slots job) }
    {
        self.runner.group_of(job)
    }

    // Runs rounds until one starts and finishes nothing, at most `most`, and returns how many it ran.
    fn drain(&mut self, place: &Place, most: Rounds) -> Result<u32, RoundFault>
        requires settled { NoneStaged self.old.spool }
        ensures settled { NoneStaged self.new.spool }
        ensures ran { (m : MimeDatabase) → (rs : List (Ran D)) × AreRan (setting D.device m place.now) self.old rs self.new
            × AreAll most (results_of rs) × (result ≡ rounds_run (counts_in (results_of rs))) }
    {
        for run in 0..most.get() {
            match self.round(place) {
                Ok(round) => {
                    if is_idle(round) {
                        return Ok(run + 1);
                    }
                }
                Err(fault) => return Err(fault),
            }
        }
        Ok(most.get())
    }

    // Runs a round, and returns the answer.
    fn answer_round(&mut self, place: &Place) -> Answer
        requires settled { NoneStaged self.old.spool }
        ensures settled { NoneStaged self.new.spool }
        ensures answered { (m : MimeDatabase) → (rs : List (Ran D)) × (reply : List ℕ)
            × AreRun (setting D.device m place.now) 1 round_text self.old rs self.new reply
            × (answer_text self.new.spool.state result ≡ reply) }
    {
        let ran = self.round(place);
        round_answer(ran)
    }

    // Runs the rounds of a drain, and returns the answer.
    fn answer_drain(&mut self, place: &Place, most: Rounds) -> Answer
        requires settled { NoneStaged self.old.spool }
        ensures settled { NoneStaged self.new.spool }
        ensures answered { (m : MimeDatabase) → (rs : List (Ran D)) × (reply : List ℕ)
            × AreRun (setting D.device m place.now) most drain_text self.old rs self.new reply
            × (answer_text self.new.spool.state result ≡ reply) }
    {
        let run = self.drain(place, most);
        drain_answer(run)
    }

    // Returns whether the event is a purge of a job whose child runs.
    fn withholds(&self, event: &Event) -> bool
        ensures { result ≡ withholds_event self.now.slots event.now }
    {
        match event {
            Event::Purge(job) => self.runner.is_running(*job),
            _ => false,
        }
    }

    // Takes an event, unless it is a purge of a job whose child runs, and returns the answer.
    fn take(&mut self, event: Event, durability: Durability) -> Answer
        requires may { MayApply durability self.old.spool }
        ensures may { MayApply durability self.new.spool }
        ensures taken { (m : MimeDatabase) (p : PlaceOf) → (t : CommandStep D) ×
            TakesStepAs durability (setting D.device m p) self.old (Command.Apply event) t self.new ×
            (answer_text self.new.spool.state result ≡ t.text) }
    {
        // What a crash leaves if nothing is staged.
        let _plain = self.met_fault();
        if self.withholds(&event) {
            Answer::Refused(Refusal::NotEnded)
        } else {
            self.executor.execute_event(event, durability)
        }
    }

    // Executes a command that runs no round and makes no checkpoint, and returns the answer.
    fn execute_plain(&mut self, mime: &Mime<'_>, command: Command, durability: Durability) -> Answer
        requires plain { is_staged command ≡ true }
        requires may { MayApply durability self.old.spool }
        ensures may { MayApply durability self.new.spool }
        ensures taken { (p : PlaceOf) → (t : CommandStep D) ×
            TakesStepAs durability (setting D.device mime.now p) self.old command t self.new ×
            (answer_text self.new.spool.state result ≡ t.text) }
    {
        // What a crash leaves if nothing is staged.
        let _plain = self.met_fault();
        match command {
            Command::Apply(event) => self.take(event, durability),
            Command::Queue(queue) => self.executor.add_queue(queue, durability),
            Command::Create(creation) => self.executor.create(creation, durability),
            Command::Close { job, name } => {
                self.executor.close(mime, job, name.as_str(), durability)
            }
            Command::OversizedSend => Answer::Refused(Refusal::TooLong),
            Command::Jobs => self.executor.jobs(),
            Command::Queues => self.executor.queues(),
            Command::Malformed => Answer::Malformed,
            Command::Round | Command::Drain(_) | Command::Checkpoint => unreachable!(),
        }
    }

    /// Executes a command that runs no round and makes no checkpoint, and returns the answer. Its event, if it has one, is staged.
    pub fn stage(&mut self, mime: &Mime<'_>, command: Command) -> Answer
        requires plain { is_staged command ≡ true }
        ensures { (p : PlaceOf) → (t : CommandStep D) ×
            StagesStep (setting D.device mime.now p) self.old command t self.new ×
            (answer_text self.new.spool.state result ≡ t.text) }
    {
        self.execute_plain(mime, command, Durability::Staged)
    }

    /// Executes a command, and returns the answer.
    pub fn execute(&mut self, mime: &Mime<'_>, place: &Place, command: Command) -> Answer
        requires settled { NoneStaged self.old.spool }
        ensures settled { NoneStaged self.new.spool }
        ensures executed { (t : CommandStep D) ×
            TakesStep (setting D.device mime.now place.now) self.old command t self.new ×
            (answer_text self.new.spool.state result ≡ t.text) }
    {
        // If nothing is staged, a crash leaves what is shown, until the device has failed.
        let _plain = self.met_fault();
        match command {
            Command::Round => self.answer_round(place),
            Command::Drain(most) => self.answer_drain(place, most),
            Command::Checkpoint => self.executor.checkpoint(),
            command => self.execute_plain(mime, command, Durability::Durable),
        }
    }

    // Serves a command: executes it, and writes the text of the answer.
    fn answer<W: Write>(
        &mut self,
        mime: &Mime<'_>,
        place: &Place,
        command: Command,
        writer: &mut W,
    ) -> Result<(), RunFault>
        requires settled { NoneStaged self.old.spool }
        ensures settled { NoneStaged self.new.spool }
        ensures served { (t : CommandStep D) × Serves (setting D.device mime.now place.now)
            self.old command t self.new result (W.contents writer.old) (W.contents writer.new) }
    {
        let answer = self.execute(mime, place, command);
        match self.text(&answer) {
            Ok(text) => match write_whole(writer, &text) {
                Ok(()) => Ok(()),
                Err(_) => Err(RunFault::Write),
            },
            Err(_) => Err(RunFault::Memory),
        }
    }

    // Returns the text of an answer over the current table.
    fn text(&self, answer: &Answer) -> Result<Vec<u8>, AllocError>
        ensures { IfOk result (λ text. text.items ≡ answer_text self.now.spool.state answer.now) }
    {
        let mut text = Vec::new(self.alloc);
        append_answer(&mut text, self.table(), answer)?;
        Ok(text)
    }

    // Serves the commands that are whole.
    fn serve_whole<W: Write>(
        &mut self,
        mime: &Mime<'_>,
        place: &Place,
        commands: &mut Commands,
        writer: &mut W,
    ) -> Result<(), RunFault>
        requires settled { NoneStaged self.old.spool }
        ensures settled { NoneStaged self.new.spool }
        ensures drains { (turns : List (CommandStep D)) × Drains (setting D.device mime.now place.now)
            self.old commands.old turns self.new commands.new result (W.contents writer.old) (W.contents writer.new) }
    {
        'commands: loop {
            match commands.next() {
                Ok(Some(command)) => match self.answer(mime, place, command, writer) {
                    Ok(()) => {}
                    Err(fault) => return Err(fault),
                },
                Ok(None) => return Ok(()),
                Err(_) => return Err(RunFault::Memory),
            }
        }
    }

    // Serves the commands that remain at the end of the text.
    fn serve_end<W: Write>(
        &mut self,
        mime: &Mime<'_>,
        place: &Place,
        commands: &mut Commands,
        writer: &mut W,
    ) -> Result<(), RunFault>
        requires settled { NoneStaged self.old.spool }
        ensures settled { NoneStaged self.new.spool }
        ensures ends { (turns : List (CommandStep D)) × (rest : List Command) ×
            DrainsEnd (setting D.device mime.now place.now)
            self.old commands.old turns self.new rest result (W.contents writer.old) (W.contents writer.new) ×
            OnOk result (rest ≡ []) }
    {
        'commands: loop {
            match commands.finish() {
                Ok(Some(command)) => match self.answer(mime, place, command, writer) {
                    Ok(()) => {}
                    Err(fault) => return Err(fault),
                },
                Ok(None) => return Ok(()),
                Err(_) => return Err(RunFault::Memory),
            }
        }
    }

    // Takes a piece of the text, and serves the commands that are then whole.
    fn take_piece<W: Write>(
        &mut self,
        mime: &Mime<'_>,
        place: &Place,
        commands: &mut Commands,
        piece: &[u8],
        writer: &mut W,
    ) -> Result<(), RunFault>
        requires settled { NoneStaged self.old.spool }
        ensures settled { NoneStaged self.new.spool }
        ensures drains { (turns : List (CommandStep D)) × DrainsPiece (setting D.device mime.now place.now)
            piece.now self.old commands.old turns self.new commands.new result (W.contents writer.old) (W.contents writer.new) }
    {
        match commands.feed(piece) {
            Ok(()) => self.serve_whole(mime, place, commands, writer),
            Err(_) => Err(RunFault::Memory),
        }
    }

    /// Serves the commands of a text. Writes the reply to each before it takes the next. An interrupted read is repeated.
    pub fn serve<R: Read, W: Write>(
        &mut self,
        mime: &Mime<'_>,
        place: &Place,
        reader: &mut R,
        writer: &mut W,
    ) -> Result<(), RunFault>
        requires settled { NoneStaged self.old.spool }
        ensures settled { NoneStaged self.new.spool }
        ensures run { (text : List ℕ) × (turns : List (CommandStep D)) ×
            IsRun (setting D.device mime.now place.now) (R.remaining reader.old)
            self.old text turns self.new result (W.contents writer.old) (W.contents writer.new) }
    {
        // If nothing is staged, a crash leaves what is shown, until the device has failed.
        let _plain = self.met_fault();
        // No event raises the version.
        versions_rise();
        // No ticket is lost.
        tickets_stay();
        let mut commands = Commands::new(self.alloc);
        let mut piece = [0u8; PIECE];
        'reads: for _ in 0..u32::MAX {
            match reader.read(&mut piece) {
                Ok(0) => return self.serve_end(mime, place, &mut commands, writer),
                Ok(count) => {
                    match self.take_piece(mime, place, &mut commands, &piece[..count], writer) {
                        Ok(()) => {}
                        Err(fault) => return Err(fault),
                    }
                }
                Err(e) => {
                    if e.kind() != ErrorKind::Interrupted {
                        return Err(RunFault::Read);
                    }
                }
            }
        }
        Err(RunFault::Read)
    }
}

// Returns whether a round started and finished nothing.
fn is_idle(round: Round) -> bool
    ensures { result ≡ is_idle round }
{
    round.started == 0 && round.finished == 0
}
