//! State that clients and maintenance share: the engine, and the record of its changes.
ghost use Rattle.std.specs.Prelude.{◌≡◌, ◌↔◌, ◌||◌, ◌≤◌, ◌++◌, ℕ, true, false, codes, length, max, nat_lt, List, Option, [], IfOk, IfSome, IsTrue, OnErr, OnOk, Some, map};
ghost use Rattle.std.specs.List.{filter};
ghost use Rattle.std.specs.FinMap as finite;
ghost use Rattle.std.specs.Option.{option_map};
ghost use Rattle.service_texts.specs.LeftJobs.{has_left};
ghost use Rattle.service_texts.specs.SubmissionTokens.{entry_for};
ghost use Rattle.service_loop.specs.KnownJobs.{HasRoom, entry_after, expected_token, job_sent_to, left_after};
ghost use Rattle.service_loop.specs.Endings.{Sends, is_current, signalled, signals_due};
ghost use Rattle.service_loop.specs.StagesAtRest.{IsQuiet, can_start, limits_of, resting, rests, startable, starts_of};
ghost use Rattle.service_loop.specs.TurnMarks.{has_done, has_met_full, is_full};
ghost use Rattle.print_rounds.specs.StageChecks.{runs};
ghost use Rattle.service_texts.specs.Notices.{change_text, noted_since, watch_text};
ghost use Rattle.spool_engine.specs.Script.{closing_as, closing_line};
ghost use Rattle.service_loop.specs.ClientActions.{closed_answer, closing_command, closing_text};
ghost use Rattle.command_lines.specs.declared.reply.Answer.{Answer as AnswerOf};
ghost use Rattle.print_rounds.specs.RoundTicks.{count_running};
ghost use Rattle.print_rounds.specs.Happenings.{IsTickInTurn, IsTickThat, happenings_of};
ghost use Rattle.print_rounds.specs.declared.start_room.TickLimits.{TickLimits as LimitsOf};
ghost use Rattle.job_table.specs.Attempts.{busy_of};
ghost use Rattle.spool_types.specs.State.{State, job_at};
ghost use Rattle.service_loop.specs.ClientActions.{IsDurable};
ghost use Rattle.spool_types.specs.declared.event.Closing.{Closing};
ghost use Rattle.spool_types.specs.declared.event.Event.{Event};
ghost use Rattle.spool_types.specs.declared.event.Reply.TheVariants.{Done};
ghost use Rattle.service_loop.specs.RecordedEvents.{HasRecordedAll, HasRecordedCommand, happened_deed};
ghost use Rattle.service_loop.specs.RetryClocks.{is_row_in_last_stage, may_end, may_retry};
ghost use Rattle.service_loop.specs.ServiceCalls.{GoesWithin};
ghost use Rattle.service_loop.specs.StagedRoom.{has_many_staged};
ghost use Rattle.spool_engine.specs.EventSteps.{setting};
ghost use Rattle.spool_engine.specs.AnswerTexts.{answer_text};
ghost use Rattle.spool_engine.specs.EngineRuns.{CommandStep, is_round};
ghost use Rattle.spool_engine.specs.StagedSteps.{IsStagingTick, SettlesTo, TakesStagingStep};
ghost use Rattle.print_rounds.specs.RunStates.{RunState};

use crate::bounds::MOST_STAGED;
use crate::endings::Endings;
use crate::events::{Records, expect};
use crate::known_jobs::{ExpectedToken, KnownJobs, job_sent_to};
use crate::signals::Signals;
use child_pipeline::Children;
use client_standing::Standing;
use command_lines::{Answer, Command};
use job_table::Table;
use print_rounds::{Happening, Round, RoundFault, TickLimits};
use service_texts::{Notes, push_change};
use spool_disk::Disk;
use spool_engine::StagingEngine;
use spool_types::{Event, FileName, JobId, MediaType, Phase, QueueName};
use std::alloc::{AllocError, Global};
use wait_causes::ServiceFacts;

/// An engine, the number of children that may run at once, those that must end, and the records of the events that the engine accepted.
#[derive(Drop)]
pub(crate) struct Shared<D: Disk, C: Children> {
    alloc: Global,
    pub engine: StagingEngine<D, C>,
    /// How many children may run at once.
    pub most: usize,
    /// The size of an area of the disk in bytes.
    pub area: u64,
    /// Whether a child was started since the service last noted when one was.
    pub started: bool,
    pub endings: Endings,
    pub records: Records,
    pub known: KnownJobs,
    // The accepted events of the last tick.
    happened: Vec<Happening>,
    /// Whether a client watches.
    pub watched: bool,
    /// Whether an event was refused as Full since the last checkpoint.
    pub full: bool,
    /// Whether something was done since maintenance last checked.
    pub active: bool,
    /// Whether the service must end: no further job is started then.
    pub ends: bool,
    // The room of the journal when the staged events last became durable or, if it is greater, after the last checkpoint.
    settled_room: u64,
}

impl<D: Disk, C: Children> Shared<D, C> {
    pub fn new(
        alloc: Global,
        most: usize,
        area: u64,
        engine: StagingEngine<D, C>,
        records: Records,
        known: KnownJobs,
    ) -> Shared<D, C>
        ensures engine { result.engine ≡ engine }
        ensures most { result.most ≡ most }
        ensures area { result.area ≡ area }
        ensures marks { (result.started ≡ false) × (result.watched ≡ false) × (result.full ≡ false) × (result.active ≡ true) × (result.ends ≡ false) }
        ensures none { (result.endings.list.items ≡ []) × (result.records ≡ records) × (result.known ≡ known) }
        ensures room { result.settled_room ≡ engine.run_state.spool.room }
    {
        let settled_room = engine.room();
        Shared {
            alloc,
            engine,
            most,
            area,
            started: false,
            endings: Endings::new(alloc),
            records,
            known,
            happened: Vec::new(alloc),
            watched: false,
            full: false,
            active: true,
            ends: false,
            settled_room,
        }
    }

    /// Executes a command that runs no round, and returns the answer. Its events are recorded if they were accepted. They are staged: no
    /// client may be shown the answer before [`Shared::settle`].
    pub fn execute(&mut self, command: Command) -> Result<Answer, AllocError>
        requires { is_round command ≡ false }
        ensures executed { IfOk result (λ answer. (t : CommandStep D) × TakesStagingStep (setting D.device self.old.engine.mime self.old.engine.place)
            self.old.engine.run_state command t self.new.engine.run_state × (answer_text self.new.engine.run_state.spool.state answer ≡ t.text)) }
        // Exactly the accepted events are recorded. If memory runs out, nothing was done.
        ensures recorded { IfOk result (λ answer. HasRecordedCommand self.old.engine.run_state.spool.state self.new.engine.run_state.spool.state command answer self.old.records self.new.records) }
        ensures known { IfOk result (λ answer. (token : List ℕ) → entry_for self.new.known.tokens token
            ≡ entry_after self.new.engine.run_state.spool.state (expected_token self.old.engine.run_state.spool.state command) answer token (entry_for self.old.known.tokens token)) }
        // If bytes were sent to a job that its client had left, the job counts as left at this moment.
        ensures left { IfOk result (λ answer. self.new.known ≡ record self.old.known { tokens = self.new.known.tokens; left = left_after self.old.known.now (job_sent_to command) answer self.old.known.left }) }
        ensures err { OnErr result ((self.new.engine ≡ self.old.engine) × (self.new.records ≡ self.old.records)) }
        // Maintenance checks again, and makes a checkpoint if the event did not fit.
        ensures kept { IfOk result (λ answer. self.new ≡ record self.old {
          engine = self.new.engine;
          records = self.new.records;
          known = self.new.known;
          settled_room = self.new.settled_room;
          active = true;
          full = self.old.full || is_full answer;
        }) }
        // A checkpoint makes room. The bytes staged since are counted from there.
        ensures room { OnOk result (self.new.settled_room ≡ max self.old.settled_room self.new.engine.run_state.spool.room) }
        ensures calls { GoesWithin D.device self.old.most self.old.engine self.new.most self.new.engine }
    {
        self.active = true;
        let expected = expect(self.alloc, self.engine.table(), &command)?;
        let token = self.known.expect(self.engine.table(), &command)?;
        let sent_to = job_sent_to(&command);
        let answer = execute(&mut self.engine, command);
        self.full = self.full | is_full(&answer);
        self.records
            .record_command(&expected, &answer, self.engine.table());
        settle_token(&mut self.known, &token, &answer, self.engine.table());
        self.known.note_sent(sent_to, &answer);
        self.settled_room = self.settled_room.max(self.engine.room());
        Ok(answer)
    }

    /// Makes all staged events durable, and returns whether the device works. If it does not, the service ends at the end of the turn.
    pub fn settle(&mut self) -> bool
        ensures settles { SettlesTo D.device self.old.engine.run_state self.new.engine.run_state }
        ensures durable { result ≡ true → IsDurable self.new.engine.run_state.spool }
        ensures fails { result ≡ false → self.new.engine.run_state.spool.dead ≡ true }
        ensures mime { self.new.engine.mime ≡ self.old.engine.mime }
        ensures place { self.new.engine.place ≡ self.old.engine.place }
        ensures room { self.new.settled_room ≡ self.new.engine.run_state.spool.room }
        ensures kept { self.new ≡ record self.old { engine = self.new.engine; settled_room = self.new.settled_room } }
        ensures calls { GoesWithin D.device self.old.most self.old.engine self.new.most self.new.engine }
    {
        let durable = self.engine.settle();
        self.settled_room = self.engine.room();
        durable
    }

    /// Returns whether the records of the staged events are so many that they must become durable before more are staged.
    pub fn has_many_staged(&self) -> bool
        ensures { result ≡ has_many_staged self.now.settled_room self.now.engine.run_state.spool.room }
    {
        MOST_STAGED <= self.settled_room.saturating_sub(self.engine.room())
    }

    /// Cancels a job, and notes in the same step that its running child must end. Returns the answer to the cancel. If memory runs out for
    /// the note, nothing was done.
    pub fn stop(&mut self, job: JobId) -> Result<Answer, AllocError>
        ensures executed { IfOk result (λ answer. (t : CommandStep D) × TakesStagingStep (setting D.device self.old.engine.mime self.old.engine.place)
            self.old.engine.run_state (Command.Apply (Event.Cancel job)) t self.new.engine.run_state × (answer_text self.new.engine.run_state.spool.state answer ≡ t.text)) }
        ensures calls { GoesWithin D.device self.old.most self.old.engine self.new.most self.new.engine }
    {
        // A child that runs for a job that cannot be canceled, because it was canceled before, must end too.
        self.endings.ask(&self.engine, job)?;
        self.execute(Command::Apply(Event::Cancel(job)))
    }

    /// Closes a job as a document of this type, and returns the answer.
    pub fn close_as(&mut self, job: JobId, media: MediaType) -> Result<Answer, AllocError>
        ensures executed { IfOk result (λ given. (t : CommandStep D) × TakesStagingStep (setting D.device self.old.engine.mime self.old.engine.place)
            self.old.engine.run_state (Command.Apply (Event.Close (closing_as self.old.engine.mime self.old.engine.run_state.spool.state job media))) t self.new.engine.run_state
            × (answer : AnswerOf) × (answer_text self.new.engine.run_state.spool.state answer ≡ t.text)
            × (answer_text self.new.engine.run_state.spool.state given ≡ closed_answer (closing_as self.old.engine.mime self.old.engine.run_state.spool.state job media) self.new.engine.run_state.spool.state answer)) }
        ensures calls { GoesWithin D.device self.old.most self.old.engine self.new.most self.new.engine }
    {
        let (closing, closed) = self.engine.closing_as(job, media)?;
        let answer = self.execute(Command::Apply(Event::Close(closing)))?;
        Ok(closing_answer(answer, closed))
    }

    /// Closes a job as a document of this type or, without one, as a document of the detected type. Returns the answer.
    pub fn close(
        &mut self,
        job: JobId,
        name: FileName,
        media: Option<MediaType>,
    ) -> Result<Answer, AllocError>
        ensures executed { IfOk result (λ given. (t : CommandStep D) × TakesStagingStep (setting D.device self.old.engine.mime self.old.engine.place)
            self.old.engine.run_state (closing_command self.old.engine.mime self.old.engine.run_state.spool.state job name media) t self.new.engine.run_state
            × (answer : AnswerOf) × (answer_text self.new.engine.run_state.spool.state answer ≡ t.text)
            × (answer_text self.new.engine.run_state.spool.state given ≡ closing_text self.old.engine.mime self.old.engine.run_state.spool.state self.new.engine.run_state.spool.state job media answer)) }
        ensures calls { GoesWithin D.device self.old.most self.old.engine self.new.most self.new.engine }
    {
        match media {
            Some(media) => {
                drop(name);
                self.close_as(job, media)
            }
            None => self.execute(Command::Close { job, name }),
        }
    }

    /// Settles the staged events, and runs one tick. No more children run after it than may at once.
    pub fn tick(&mut self) -> Result<Round, RoundFault>
        ensures tick { (tried : List Event) × IsStagingTick (setting D.device self.old.engine.mime self.old.engine.place) self.old.engine.run_state
            (record { limits = Some (limits_of self.old.most self.old.ends self.old.engine.run_state); next = self.new.engine.run_state; result = result; tried = tried }) }
        // Exactly the accepted events are recorded.
        ensures recorded { (mid : RunState D) × SettlesTo D.device self.old.engine.run_state mid
            × (events : List Event) × (limits : Option LimitsOf) × IsTickThat (λ es. es ≡ events) D.device self.old.engine.place limits mid mid.spool.dead self.new.engine.run_state result
            × HasRecordedAll self.new.engine.run_state.spool.state self.old.records (map happened_deed (happenings_of events)) self.new.records }
        // A queue that was left out is before each queue that was not in the next tick.
        ensures turn { (mid : RunState D) × SettlesTo D.device self.old.engine.run_state mid
            × (limits : Option LimitsOf) × IsTickInTurn self.old.engine.turn self.new.engine.turn D.device self.old.engine.place limits mid mid.spool.dead self.new.engine.run_state result }
        // Maintenance checks again unless nothing was done, and makes a checkpoint if an event did not fit.
        ensures kept { self.new ≡ record self.old {
          engine = self.new.engine;
          records = self.new.records;
          happened = self.new.happened;
          started = self.new.started;
          full = self.old.full || has_met_full result;
          active = self.old.active || has_done result;
        } }
        ensures started { IfOk result (λ round. self.new.started ≡ (self.old.started || nat_lt 0 round.started)) }
        ensures most { self.new.most ≡ self.old.most }
        ensures calls { GoesWithin D.device self.old.most self.old.engine self.new.most self.new.engine }
    {
        let limits = TickLimits {
            most: self.most,
            starts: self.starts(),
        };
        let before = self.running();
        let counts = self.engine.tick(Some(limits), &mut self.happened);
        self.records
            .record_tick(&self.happened, self.engine.table());
        self.started = self.started | has_started(&counts, before < self.running());
        self.full = self.full | has_met_full(&counts);
        self.active = self.active | has_done(&counts);
        counts
    }

    /// Returns what changed since the last call. The next call begins there.
    pub fn take_changes(&mut self) -> Result<Notes, AllocError>
        ensures notes { IfOk result (λ notes. notes ≡ noted_since self.old.records.changes self.old.records.told) }
        ensures next { OnOk result (self.new.records.told ≡ self.old.records.changes.last) }
        ensures kept { self.new ≡ record self.old { records = record self.old.records { told = self.new.records.told } } }
    {
        let notes = Notes::since(self.alloc, &self.records.changes, self.records.told)?;
        self.skip_changes();
        Ok(notes)
    }

    /// Appends `ok`, a line for each job and each queue that changed after the change of this number, as far as the client may see them, or
    /// `missed` if the number is not known, and the number of the last change.
    pub fn push_changes_since(
        &self,
        text: &mut Vec<u8>,
        number: u64,
        client: &Standing,
    ) -> Result<(), AllocError>
        ensures { OnOk result (text.new.items ≡ text.old.items ++ watch_text client.now self.now.engine.run_state.spool.state self.now.records.changes number) }
    {
        let notes = Notes::since(self.alloc, &self.records.changes, number)?;
        let lines = notes.lines(self.alloc, self.engine.table(), client);
        drop(notes);
        push_watch(text, &lines?, self.records.changes.last())
    }

    /// The changes so far are not sent.
    pub fn skip_changes(&mut self)
        ensures { self.new ≡ record self.old { records = record self.old.records { told = self.old.records.changes.last } } }
    {
        self.records.told = self.records.changes.last();
    }

    /// Sends the signals that are due now to the children that must end.
    pub fn end_children<S: Signals>(&mut self, signals: &mut S, now: u64)
        // Children that have ended are forgotten.
        ensures list { self.new.endings.list.items ≡ map (signalled now) (filter (is_current C.groups self.old.engine.run_state.slots) self.old.endings.list.items) }
        ensures due { Sends (S.sent signals.old) (S.sent signals.new) (signals_due now (filter (is_current C.groups self.old.engine.run_state.slots) self.old.endings.list.items)) }
        ensures kept { self.new ≡ record self.old { endings = self.new.endings } }
    {
        self.endings.act(&self.engine, signals, now);
    }

    /// The number of processing jobs without a running child.
    pub fn at_rest(&self) -> usize
        ensures count { result ≡ resting self.now.engine.run_state.slots self.now.engine.run_state.spool.state }
        ensures few { result ≤ length (finite.values self.now.engine.run_state.spool.state.queues) }
    {
        let mut count = 0;
        for queue in self.engine.table().queues() {
            if self.rests(&queue.name) {
                count += 1;
            }
        }
        count
    }

    // Whether a queue has a processing job without a running child.
    fn rests(&self, queue: &QueueName) -> bool
        ensures { result ≡ rests self.now.engine.run_state.slots (busy_of self.now.engine.run_state.spool.state queue.now) }
    {
        match self.engine.table().processing(queue) {
            Some(job) => !runs(&self.engine, job),
            None => false,
        }
    }

    // How many children the next tick may start: those of the stages at rest and, unless the service must end, of the next job of each queue.
    // If none can be started, the children are not asked for their room, which takes a while.
    fn starts(&self) -> usize
        ensures { result ≡ starts_of self.now.ends self.now.engine.run_state.slots self.now.engine.run_state.spool.state }
    {
        if self.ends {
            self.at_rest()
        } else {
            self.startable()
        }
    }

    // The number of queues with a processing job at rest or, if none is processing, with a next job.
    fn startable(&self) -> usize
        ensures { result ≡ startable self.now.engine.run_state.slots self.now.engine.run_state.spool.state }
    {
        let mut count = 0;
        for queue in self.engine.table().queues() {
            if self.can_start(&queue.name) {
                count += 1;
            }
        }
        count
    }

    // Whether a queue has a processing job at rest or, if none is processing, a next job.
    fn can_start(&self, queue: &QueueName) -> bool
        ensures { result ≡ can_start self.now.engine.run_state.slots self.now.engine.run_state.spool.state queue.now (busy_of self.now.engine.run_state.spool.state queue.now) }
    {
        let table = self.engine.table();
        match table.processing(queue) {
            Some(job) => !runs(&self.engine, job),
            None => table.next(queue).is_some(),
        }
    }

    /// Whether a stage runs or is started whose end may lead to a retry after an interval.
    pub fn may_retry(&self) -> bool
        ensures { result ≡ may_retry self.now.engine.run_state.spool.state }
    {
        let table = self.engine.table();
        for queue in table.queues() {
            if 0 < queue.interval.get() && may_end(table, &queue.name) {
                return true;
            }
        }
        false
    }

    /// The number of running children, if no more run than may at once.
    pub fn running(&self) -> usize
        ensures { count_running self.now.engine.run_state.slots ≤ self.now.most → result ≡ count_running self.now.engine.run_state.slots }
    {
        self.most - self.engine.count_free(self.most)
    }

    /// What the service knows of a job beyond the table.
    pub fn facts_of(&self, job: JobId) -> ServiceFacts
        ensures left { result.left ≡ has_left self.now.known.left job }
        ensures is_full { result.is_full ≡ self.now.full }
    {
        ServiceFacts {
            left: self.known.left.has(job),
            runs: self.engine.is_running(job),
            has_place: self.running() < self.most,
            is_full: self.full,
        }
    }

    /// Whether no job is processing and no child runs.
    pub fn is_quiet(&self) -> bool
        ensures { count_running self.now.engine.run_state.slots ≤ self.now.most → IsTrue result ↔ IsQuiet self.now.engine.run_state.slots self.now.engine.run_state.spool.state }
    {
        self.running() == 0 && self.at_rest() == 0
    }
}

// Whether the child of a job runs.
fn runs<D: Disk, C: Children>(engine: &StagingEngine<D, C>, job: JobId) -> bool
    ensures { result ≡ runs engine.now.run_state.slots job }
{
    engine.is_running(job)
}

// Whether the processing job of a queue is in its last stage or, if none is processing, the next job is started.
fn may_end(table: &Table, queue: &QueueName) -> bool
    ensures { result ≡ may_end table.now.state queue.now (busy_of table.now.state queue.now) }
{
    match table.processing(queue) {
        Some(job) => is_in_last_stage(table, job),
        None => table.next(queue).is_some(),
    }
}

fn is_in_last_stage(table: &Table, job: JobId) -> bool
    ensures { result ≡ is_row_in_last_stage (job_at table.now.state job) }
{
    let Some(row) = table.job(job) else {
        return false;
    };
    match row.job.phase {
        Phase::Processing { stage, stages, .. } => stages <= stage,
        _ => false,
    }
}

// Appends the reply to `watch N`, with these lines and the number of the last change.
fn push_watch(text: &mut Vec<u8>, lines: &[u8], last: u64) -> Result<(), AllocError>
    ensures { OnOk result (text.new.items ≡ text.old.items ++ (codes "ok\n" ++ lines.now ++ change_text last)) }
{
    text.extend_from_slice(b"ok\n")?;
    text.extend_from_slice(lines)?;
    push_change(text, last)
}

// Whether the event of a command did not fit into the journal.
fn is_full(answer: &Answer) -> bool
    ensures { result ≡ is_full answer.now }
{
    matches!(answer, Answer::Full)
}

// The answer to a close with the type that the client gave: that of a close, if the event was accepted.
fn closing_answer(answer: Answer, closed: Answer) -> Answer
    ensures { (closing : Closing) (s : State) → answer_text s closed ≡ closing_line closing Done → answer_text s result ≡ closed_answer closing s answer }
{
    match answer {
        Answer::Done => closed,
        answer => answer,
    }
}

// Notes or forgets the job of a token, by the answer to the command that it was expected of.
fn settle_token(
    known: &mut KnownJobs,
    token: &Option<ExpectedToken>,
    answer: &Answer,
    table: &Table,
)
    ensures known { IfSome token.now (λ e. HasRoom known.old.tokens e.token e.purged) → (other : List ℕ) → entry_for known.new.tokens other
        ≡ entry_after table.now.state (option_map (λ e. (e.token, e.purged)) token.now) answer.now other (entry_for known.old.tokens other) }
    ensures kept { known.new ≡ record known.old { tokens = known.new.tokens } }
{
    if let Some(token) = token {
        known.settle(token, answer, table);
    }
}

// Executes a command of an engine.
fn execute<D: Disk, C: Children>(engine: &mut StagingEngine<D, C>, command: Command) -> Answer
    requires { is_round command ≡ false }
    ensures executed { (t : CommandStep D) × TakesStagingStep (setting D.device engine.old.mime engine.old.place)
        engine.old.run_state command t engine.new.run_state × (answer_text engine.new.run_state.spool.state result ≡ t.text) }
    ensures calls { (most : ℕ) → GoesWithin D.device most engine.old most engine.new }
{
    engine.execute(command)
}

// Whether a tick started a child. After a fault `more` states it: whether more children run than before.
fn has_started(counts: &Result<Round, RoundFault>, more: bool) -> bool
    ensures ok { IfOk counts.now (λ round. result ≡ nat_lt 0 round.started) }
    ensures err { OnErr counts.now (result ≡ more) }
{
    match counts {
        Ok(round) => 0 < round.started,
        Err(_) => more,
    }
}

// Whether an event of a tick did not fit into the journal.
fn has_met_full(counts: &Result<Round, RoundFault>) -> bool
    ensures { result ≡ has_met_full counts.now }
{
    match counts {
        Ok(_) => false,
        Err(fault) => matches!(fault, RoundFault::Full),
    }
}

// Whether a tick started or finished a stage, or failed in another way.
fn has_done(counts: &Result<Round, RoundFault>) -> bool
    ensures { result ≡ has_done counts.now }
{
    match counts {
        Ok(round) => 0 < round.started || 0 < round.finished,
        Err(fault) => !matches!(fault, RoundFault::Full),
    }
}
