//! The executor of commands of one event, of checkpoints and of listings, over the spool alone.
ghost use Rattle.std.specs.Prelude.{◌≡◌, ◌≤◌, ℕ, List, Some, None, Result, false, not, [], IfOk, IsSome};
ghost use Rattle.std.specs.Option.{option_and_then, option_copied};
ghost use Rattle.std.specs.FinMap as finite;
ghost use Rattle.spool_types.specs.State.{State, job_at};
ghost use Rattle.spool_types.specs.declared.event.Closing.{Closing as ClosingOf};
ghost use Rattle.spool_types.specs.declared.event.Reply.{Reply};
ghost use Rattle.job_table.specs.Over.{is_over};
ghost use Rattle.job_table.specs.Step.{creation, refusal_of};
ghost use Rattle.command_lines.specs.Replies.{jobs_text, queues_text};
ghost use Rattle.command_lines.specs.declared.command.Command.{Command};
ghost use Rattle.filter_args.specs.declared.place.Place.{Place as PlaceOf};
ghost use Rattle.print_rounds.specs.RunStates.{RunState, run_state};
ghost use Rattle.spool_core.specs.DocumentReading.{IsFrontRead as IsReadUpTo};
ghost use Rattle.spool_core.specs.OpenSpools.{len_at, IsSettled as NoneStaged};
ghost use Rattle.spool_core.specs.declared.spool.apply_fault.ApplyFault.{ApplyFault};
ghost use Rattle.spool_core.specs.declared.spool.checkpoint_fault.CheckpointFault.{CheckpointFault};
ghost use Rattle.spool_engine.specs.Mime.{Mime as MimeDatabase, IsEnough};
ghost use Rattle.spool_engine.specs.Script.{closing_as, closing_line, closing_of, filters_to, queue_of_job, reply_line, stages_of};
ghost use Rattle.spool_engine.specs.Script.{next_number};
ghost use Rattle.spool_engine.specs.AnswerTexts.{answer_text};
ghost use Rattle.spool_engine.specs.EventSteps.{setting, EventStep};
ghost use Rattle.spool_engine.specs.EventAnswers.{IsApplied, IsRelisted, event_line, checkpoint_line};
ghost use Rattle.spool_engine.specs.StagedSteps.{IsAppliedAs, IsFrontReadAs, IsPlainIfSettled, IsSettling, IsStagedBy, MayApply, TakesAs};
ghost use Rattle.spool_engine.specs.EngineRounds.{IsRan};
ghost use Rattle.spool_engine.specs.EngineTicks.{IsTicked};
ghost use Rattle.print_rounds.specs.Happenings.{IsTickInTurn, IsTickThat, happenings_of};
ghost use Rattle.spool_types.specs.declared.event.Event.{Event as EventOf};

use crate::answers::{checkpoint_answer, event_answer, fault_answer};
use crate::durability::Durability;
use crate::mime::Mime;
use crate::options::job_options;
use child_pipeline::{Children, Content, Runner};
use command_lines::{Answer, Creation};
use device_uri::{DeviceUri, UriFault};
use filter_args::Place;
use job_table::{Table, document_len};
use print_rounds::{Happening, Round, RoundFault, TickLimits, finish_children};
use spool_core::{ApplyFault, CheckpointFault, Spool, Unread, read_front};
use spool_disk::Disk;
use spool_types::{
    Closing, Event, Filters, JobId, MediaType, Moment, NewJob, NewQueue, OptionText, QueueRow,
    Refusal, Reply,
};
use std::alloc::{AllocError, Global};
use std::marker::Model;

/// An executor over a spool. Its view is the spool's.
#[derive(Drop)]
pub(crate) struct Executor<D: Disk> {
    alloc: Global,
    spool: Spool<D>,
}

impl<D: Disk> Model for Executor<D> {
    ghost use Rattle.spool_core.specs.OpenSpools.{OpenSpool};
    ghost use Rattle.spool_engine.specs.StagedSteps.{IsPlainIfSettled};
    ghost use Rattle.std.specs.Coded.{codes};
    ghost use Rattle.std.specs.FinMap as map;

    ghost Value = { OpenSpool D };

    ghost coded = { Prim.hlevel (codes, map.code, D.code) };

    ghost view = { λ e. e.spool };

    ghost invariant = { λ e. IsPlainIfSettled D.device e.spool };
}

impl<D: Disk> Executor<D> {
    /// Returns an executor over this spool.
    pub fn new(alloc: Global, spool: Spool<D>) -> Executor<D>
        ensures { result ≡ spool }
    {
        // `table` states what a crash leaves, which is the executor's invariant.
        let _table = spool.table();
        Executor { alloc, spool }
    }

    /// Returns the spool.
    pub fn into_spool(self) -> Spool<D>
        ensures { result ≡ self }
    {
        let Executor { spool, .. } = self;
        spool
    }

    /// Returns whether the device has failed. Every event is then answered `error dead`.
    pub fn met_fault(&self) -> bool
        ensures dead { result ≡ self.now.dead }
        // If nothing is staged, a crash leaves what is shown, until the device has failed.
        ensures plain { IsPlainIfSettled D.device self.now }
    {
        self.spool.is_dead()
    }

    /// Returns the number of bytes left for records of events until a checkpoint.
    pub fn room(&self) -> u64
        ensures { result ≡ self.now.room }
    {
        self.spool.room()
    }

    /// Returns the current table.
    pub fn table(&self) -> &Table
        ensures { result.now.state ≡ self.now.state }
    {
        self.spool.table()
    }

    /// Makes all staged events durable, and returns whether the device works afterwards.
    pub fn settle(&mut self) -> bool
        ensures settles { IsSettling D.device self.old self.new }
        ensures lives { self.new.dead ≡ not result }
    {
        let done = self.spool.settle();
        // `table` states what a crash leaves, which is the executor's invariant.
        let _table = self.spool.table();
        done.is_ok()
    }

    fn apply(&mut self, event: Event) -> Result<Reply, ApplyFault>
        requires settled { NoneStaged self.old }
        ensures applied { IsApplied D.device self.old event result self.new }
        ensures settled { NoneStaged self.new }
    {
        let applied = self.spool.apply(event);
        // `table` states what a crash leaves, which is the executor's invariant.
        let _table = self.spool.table();
        applied
    }

    fn stage(&mut self, event: Event) -> Result<Reply, ApplyFault>
        ensures { IsStagedBy D.device self.old event result self.new }
    {
        let staged = self.spool.stage(event);
        // `table` states what a crash leaves, which is the executor's invariant.
        let _table = self.spool.table();
        staged
    }

    // Applies or stages an event.
    fn take(&mut self, event: Event, durability: Durability) -> Result<Reply, ApplyFault>
        requires may { MayApply durability self.old }
        ensures taken { IsAppliedAs durability D.device self.old event result self.new }
        ensures may { MayApply durability self.new }
    {
        match durability {
            Durability::Durable => self.apply(event),
            Durability::Staged => self.stage(event),
        }
    }

    /// Takes an event, and returns the answer, which depends only on the spool's reply.
    pub fn execute_event(&mut self, event: Event, durability: Durability) -> Answer
        requires may { MayApply durability self.old }
        ensures taken { (answer : Result Reply ApplyFault) ×
            IsAppliedAs durability D.device self.old event answer self.new ×
            (answer_text self.new.state result ≡ event_line reply_line answer) }
        ensures may { MayApply durability self.new }
    {
        let taken = self.take(event, durability);
        event_answer(taken)
    }

    /// Adds a queue if its URI is that of a device, and returns the answer.
    pub fn add_queue(&mut self, queue: NewQueue, durability: Durability) -> Answer
        requires may { MayApply durability self.old }
        ensures taken { (m : MimeDatabase) (p : PlaceOf) → (t : EventStep D) ×
            TakesAs durability (setting D.device m p) self.old (Command.Queue queue) t self.new ×
            (answer_text self.new.state result ≡ t.text) }
        ensures may { MayApply durability self.new }
    {
        // What a crash leaves if nothing is staged.
        let _plain = self.met_fault();
        match DeviceUri::parse(self.alloc, queue.uri.as_str()) {
            Ok(_) => self.execute_event(Event::AddQueue(queue), durability),
            Err(UriFault::BadUri) => Answer::BadUri,
            Err(UriFault::Memory) => Answer::NoMemory,
        }
    }

    /// Creates a job if its options contain no error and are short enough, and returns the answer.
    pub fn create(&mut self, creation: Creation, durability: Durability) -> Answer
        requires may { MayApply durability self.old }
        ensures taken { (m : MimeDatabase) (p : PlaceOf) → (t : EventStep D) ×
            TakesAs durability (setting D.device m p) self.old (Command.Create creation) t self.new ×
            (answer_text self.new.state result ≡ t.text) }
        ensures may { MayApply durability self.new }
    {
        // What a crash leaves if nothing is staged.
        let _plain = self.met_fault();
        match job_options(self.alloc, creation.options.as_str()) {
            Ok(Some(options)) => {
                let by = creation.by;
                let job = new_job(self.next_number(), creation, options);
                self.execute_event(event_of_creation(job, by), durability)
            }
            Ok(None) => Answer::BadOptions,
            Err(AllocError) => Answer::NoMemory,
        }
    }

    /// Closes a job, and returns the answer. The document is read only if the job can be closed, and only as far as its type
    /// depends on it.
    pub fn close(
        &mut self,
        mime: &Mime<'_>,
        job: JobId,
        name: &str,
        durability: Durability,
    ) -> Answer
        requires may { MayApply durability self.old }
        ensures taken { (p : PlaceOf) → (t : EventStep D) ×
            TakesAs durability (setting D.device mime.now p) self.old (Command.Close job name.now) t self.new ×
            (answer_text self.new.state result ≡ t.text) }
        ensures may { MayApply durability self.new }
    {
        if self.met_fault() {
            return fault_answer(ApplyFault::Dead);
        }
        if let Some(refusal) = self.table().close_refusal(job) {
            return fault_answer(ApplyFault::Refused(refusal));
        }
        let count = self.reach(mime, job);
        match self.front(job, count, durability) {
            Ok(front) => self.close_typed(mime, job, name, front.as_slice(), durability),
            Err(Unread::Memory) => fault_answer(ApplyFault::Memory),
            Err(Unread::Disk) => fault_answer(ApplyFault::Disk),
        }
    }

    // Returns the number of first bytes that determine the type of the job's document.
    fn reach(&self, mime: &Mime<'_>, job: JobId) -> usize
        requires { IsSome (job_at self.now.state job) }
        ensures within { result ≤ len_at self.now.state job }
        ensures enough { IsEnough mime.now (len_at self.now.state job) result }
    {
        match self.table().job(job) {
            Some(row) => mime.reach(document_len(&row.job)),
            None => unreachable!(),
        }
    }

    // Reads the first bytes of the job's document.
    fn front(&mut self, job: JobId, count: usize, durability: Durability) -> Result<Content, Unread>
        requires alive { self.old.dead ≡ false }
        requires there { IsSome (job_at self.old.state job) }
        requires lasts { is_over self.old.state job ≡ false }
        requires inside { count ≤ len_at self.old.state job }
        requires may { MayApply durability self.old }
        ensures read { IsFrontReadAs durability D.device self.old job count result self.new }
        ensures may { MayApply durability self.new }
    {
        let read = read_content(self.alloc, &mut self.spool, job, count);
        // `table` states what a crash leaves, which is the executor's invariant.
        let _table = self.spool.table();
        read
    }

    // Closes a job whose document begins with these bytes, and returns the answer.
    fn close_typed(
        &mut self,
        mime: &Mime<'_>,
        job: JobId,
        name: &str,
        document: &[u8],
        durability: Durability,
    ) -> Answer
        requires alive { self.old.dead ≡ false }
        requires accepted { (c : ClosingOf) → c.job ≡ job → refusal_of self.old.state (Event.Close c) ≡ None }
        requires may { MayApply durability self.old }
        ensures may { MayApply durability self.new }
        ensures taken { (answer : Result Reply ApplyFault) ×
            IsAppliedAs durability D.device
            self.old (Event.Close (closing_of mime.now self.old.state document.now job name.now)) answer self.new ×
            (answer_text self.new.state result ≡ event_line (closing_line (closing_of mime.now self.old.state document.now job name.now)) answer) }
    {
        // What a crash leaves if nothing is staged.
        let _plain = self.met_fault();
        let (closing, closed) = match self.closing_of(mime, job, name, document) {
            Ok(both) => both,
            Err(_) => return fault_answer(ApplyFault::Memory),
        };
        match self.take(Event::Close(closing), durability) {
            Ok(_) => closed,
            Err(fault) => fault_answer(fault),
        }
    }

    // Returns the event that closes the job with this document, and the answer if it is accepted.
    fn closing_of(
        &self,
        mime: &Mime<'_>,
        job: JobId,
        name: &str,
        document: &[u8],
    ) -> Result<(Closing, Answer), AllocError>
        ensures closing { IfOk result (λ both. both.0 ≡ closing_of mime.now self.now.state document.now job name.now) }
        ensures answer { IfOk result (λ both. (s : State) (reply : Reply) → answer_text s both.1 ≡ closing_line both.0 reply) }
    {
        let media = mime.type_of(self.alloc, name, document)?;
        self.closing_as(mime, job, media)
    }

    /// Returns the event that closes the job as a document of this type, and the answer if it is accepted.
    pub fn closing_as(
        &self,
        mime: &Mime<'_>,
        job: JobId,
        media: MediaType,
    ) -> Result<(Closing, Answer), AllocError>
        ensures closing { IfOk result (λ both. both.0 ≡ closing_as mime.now self.now.state job media) }
        ensures answer { IfOk result (λ both. (s : State) (reply : Reply) → answer_text s both.1 ≡ closing_line both.0 reply) }
    {
        let filters = self.filters(mime, job, &media)?;
        let told = media.clone()?;
        let closing = Closing {
            job,
            media,
            filters,
        };
        let stages = stages(&closing);
        Ok((
            closing,
            Answer::Closed {
                media: told,
                stages,
            },
        ))
    }

    // Returns the filters that convert a document of this type into the type that the job's queue takes.
    fn filters(
        &self,
        mime: &Mime<'_>,
        job: JobId,
        media: &MediaType,
    ) -> Result<Option<Filters>, AllocError>
        ensures { IfOk result (λ filters. filters ≡ option_and_then (filters_to mime.now media.now) (queue_of_job self.now.state job)) }
    {
        match self.queue_of_job(job) {
            Some(queue) => mime.filters(media, &queue.target),
            None => Ok(None),
        }
    }

    fn queue_of_job(&self, job: JobId) -> Option<&QueueRow>
        ensures { option_copied result ≡ queue_of_job self.now.state job }
    {
        let row = self.table().job(job)?;
        self.table().queue(&row.job.queue)
    }

    /// Lists the table in the other area, so that the journal has room again, and returns the answer.
    pub fn checkpoint(&mut self) -> Answer
        requires settled { NoneStaged self.old }
        ensures settled { NoneStaged self.new }
        ensures listed { (answer : Result (Unit {0}) CheckpointFault) ×
            IsRelisted D.device self.old answer self.new ×
            (answer_text self.new.state result ≡ checkpoint_line answer) }
    {
        let done = self.relist();
        checkpoint_answer(done)
    }

    fn relist(&mut self) -> Result<(), CheckpointFault>
        requires settled { NoneStaged self.old }
        ensures listed { IsRelisted D.device self.old result self.new }
        ensures settled { NoneStaged self.new }
    {
        let listed = self.spool.checkpoint();
        // `table` states what a crash leaves, which is the executor's invariant.
        let _table = self.spool.table();
        listed
    }

    /// Waits for each child that runs, then runs a round.
    pub fn round<C: Children>(
        &mut self,
        place: &Place,
        runner: &mut Runner<C>,
        children: &mut C,
    ) -> Result<Round, RoundFault>
        requires settled { NoneStaged self.old }
        ensures settled { NoneStaged self.new }
        ensures round { (m : MimeDatabase) → (settled : RunState D) × (tried : List EventOf) × (documents : ℕ → List ℕ) × IsRan (setting D.device m place.now)
            (run_state self.old runner.old (C.tells children.old))
            (record { settled = settled; next = run_state self.new runner.new (C.tells children.new); result = result; tried = tried; documents = documents }) }
    {
        finish_children(runner, children);
        let ran = print_rounds::round(self.alloc, place, &mut self.spool, runner, children);
        // `table` states what a crash leaves, which is the executor's invariant.
        let _table = self.spool.table();
        ran
    }

    /// Runs a tick, which waits for no child, within these limits, and reports its accepted events.
    pub fn tick<C: Children>(
        &mut self,
        place: &Place,
        runner: &mut Runner<C>,
        children: &mut C,
        limits: Option<TickLimits>,
        turn: &mut usize,
        happened: &mut Vec<Happening>,
    ) -> Result<Round, RoundFault>
        requires settled { NoneStaged self.old }
        ensures settled { NoneStaged self.new }
        ensures tick { (m : MimeDatabase) → (tried : List EventOf) × IsTicked (setting D.device m place.now)
            (run_state self.old runner.old (C.tells children.old))
            (record { limits = limits; next = run_state self.new runner.new (C.tells children.new); result = result; tried = tried }) }
        ensures turn { IsTickInTurn turn.old turn.new D.device place.now limits
            (run_state self.old runner.old (C.tells children.old)) self.old.dead (run_state self.new runner.new (C.tells children.new)) result }
        ensures happened { IsTickThat (λ events. happened.new.items ≡ happenings_of events) D.device place.now limits
            (run_state self.old runner.old (C.tells children.old)) self.old.dead (run_state self.new runner.new (C.tells children.new)) result }
    {
        let ran = print_rounds::tick(
            self.alloc,
            place,
            &mut self.spool,
            runner,
            children,
            limits,
            turn,
            happened,
        );
        // `table` states what a crash leaves, which is the executor's invariant.
        let _table = self.spool.table();
        ran
    }

    fn next_number(&self) -> JobId
        ensures { result ≡ next_number self.now.state }
    {
        let next = self.table().highest().saturating_add(1);
        JobId::new(next.min(JobId::GREATEST)).unwrap()
    }

    /// Returns the answer that lists the jobs.
    pub fn jobs(&self) -> Answer
        ensures text { answer_text self.now.state result ≡ jobs_text self.now.state.moment (finite.values self.now.state.jobs) }
        // If nothing is staged, a crash leaves the table that is listed, until the device has failed.
        ensures plain { IsPlainIfSettled D.device self.now }
    {
        Answer::Jobs(self.spool.table().jobs().len())
    }

    /// Returns the answer that lists the queues.
    pub fn queues(&self) -> Answer
        ensures text { answer_text self.now.state result ≡ queues_text (finite.values self.now.state.jobs) (finite.values self.now.state.queues) }
        // If nothing is staged, a crash leaves the table that is listed, until the device has failed.
        ensures plain { IsPlainIfSettled D.device self.now }
    {
        Answer::Queues(self.spool.table().queues().len())
    }
}

// Reads the first bytes of a job's document.
fn read_content<D: Disk>(
    alloc: Global,
    spool: &mut Spool<D>,
    job: JobId,
    count: usize,
) -> Result<Content, Unread>
    requires alive { spool.old.dead ≡ false }
    requires there { IsSome (job_at spool.old.state job) }
    requires inside { count ≤ len_at spool.old.state job }
    ensures { IsReadUpTo D.device spool.old job count result spool.new }
{
    match read_front(alloc, spool, job, count) {
        Ok(bytes) => Ok(Content::new(bytes)),
        Err(why) => Err(why),
    }
}

// Returns the number of stages of a closed job: its filters and the backend. `None` if no chain of conversions exists.
fn stages(closing: &Closing) -> Option<u8>
    ensures { result ≡ stages_of closing.now.filters }
{
    match &closing.filters {
        Some(filters) => Some(filters.as_slice().len() as u8 + 1),
        None => None,
    }
}

// Returns the event that creates the job, which must start by this moment if there is one.
fn event_of_creation(job: NewJob, by: Option<Moment>) -> Event
    ensures { result ≡ creation job by }
{
    match by {
        Some(by) => Event::CreateBy { job, by },
        None => Event::Create(job),
    }
}

fn new_job(job: JobId, creation: Creation, options: OptionText) -> NewJob
    ensures { result ≡ record {
      queue = creation.queue;
      job = job;
      user = creation.user;
      title = creation.title;
      copies = creation.copies;
      priority = creation.priority;
      options = options;
    } }
{
    NewJob {
        queue: creation.queue,
        job,
        user: creation.user,
        title: creation.title,
        copies: creation.copies,
        priority: creation.priority,
        options,
    }
}
