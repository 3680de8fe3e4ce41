//! Loading a table from the rows of a listing.
ghost use Rattle.std.specs.Prelude.{◌≡◌, ℕ, map, ◌+◌, ◌^◌, ◌↔◌, ◌<◌, ◌≤◌, ◌&&◌, ◌==◌, [], false, not, cond, IsTrue, IfOk, IsErrOf, OnOk, OnErr, None, Some};
ghost use Rattle.std.specs.Option.{option_map};
ghost use Rattle.std.specs.FinMap as finite;
ghost use Rattle.spool_types.specs.declared.listing.Row.{Row};
ghost use Rattle.spool_types.specs.Busy.{is_busy};
ghost use Rattle.spool_types.specs.State.{job_of};
ghost use Rattle.spool_types.specs.Phases.{has_ended, is_processing};
ghost use Rattle.row_effects.specs.EffectFold.{IsInOrder};
ghost use Rattle.row_effects.specs.Keys.{is_ascending};
ghost use Rattle.row_effects.specs.QueueReasons.{word_of};
ghost use Rattle.row_effects.specs.QueueAttributes.{name_of};
ghost use Rattle.job_table.specs.Legal.{IsLegal, Fits, IsUntyped, IsStartable, IsStarted};
ghost use Rattle.job_table.specs.Contents.{HasPlace, no_moves, places_at, places_of};
ghost use Rattle.job_table.specs.DocumentLengths.{document_len};
ghost use Rattle.job_table.specs.Loading.{IsWhole, IsPlaced, IsNewQueue, IsNewJob, IsNextQueue, IsNextJob, IsNextPiece, IsPieceOf, begin_loading, loaded, with_job};
ghost use Rattle.job_table.specs.LoadingFields.{AddsPiece, HasSameParts, IsGrown, IsMeasured, MayGrow, part_of, with_last_place};
ghost use Rattle.job_table.specs.TableRows.{IsFreed};
ghost use Rattle.extents.specs.Extents.{size_of};
ghost use Rattle.spool_types.specs.Sent.{bytes_behind, piece_of};

use crate::places::{document_len, extent_behind, piece_count};
use crate::store::Store;
use crate::table::Table;
use job_rows::Rows;
use spool_types::{
    Attribute, Head, Job, JobId, JobRow, LONGEST_DOCUMENT, LONGEST_SEND, MOST_QUEUES, Phase,
    QueueName, QueueRow, Reason, Row, Version,
};
use std::alloc::{AllocError, Global};
use std::marker::Model;

/// The reason why a row was not accepted.
#[derive(Clone, Copy, Debug, PartialEq, Eq)]
pub enum LoadFault {
    /// The row may not come next in a listing.
    Misplaced,
    /// The row may come next, but memory ran out.
    Memory,
}

impl From<AllocError> for LoadFault {
    ghost use Rattle.job_table.specs.declared.loading.LoadFault.TheVariants.{Memory};

    ghost from_gives = { λ _ e. e ≡ Memory };

    fn from(_error: AllocError) -> LoadFault {
        LoadFault::Memory
    }
}

/// A job whose document is not complete yet.
#[derive(Drop)]
struct Partial {
    row: JobRow,
    // The number of bytes of the document that were loaded.
    read: usize,
}

/// A table that is being loaded from the rows of a listing.
#[derive(Drop)]
pub struct Loading {
    // The queues, and the jobs whose documents are complete.
    store: Store,
    // Whether the head was loaded.
    begun: bool,
    // The last job, while its document is not complete.
    partial: Option<Partial>,
    alloc: Global,
}

impl Model for Loading {
    ghost use Rattle.job_table.specs.Loading.{Loaded};
    ghost use Rattle.std.specs.Coded.{codes};
    ghost use Rattle.std.specs.FinMap as map;

    ghost Value = { Loaded };

    ghost coded = { Prim.hlevel (codes, map.code) };

    ghost use Rattle.job_table.specs.LoadingFields.{loaded_of, IsLoading};

    ghost view = { loaded_of };

    ghost invariant = { IsLoading };
}

impl Loading {
    /// Returns a loading without rows, which represents the empty table in this version of the area. Does not allocate.
    pub fn new(alloc: Global, version: Version) -> Loading
        ensures progress { result.progress ≡ begin_loading version }
        ensures places { result.places ≡ [] }
    {
        Loading {
            store: Store::new(alloc, version),
            begun: false,
            partial: None,
            alloc,
        }
    }

    /// Adds the next row of a listing. If the row may not come next, fails with Misplaced. An error changes nothing.
    /// `at` is the place of the row's payload.
    pub fn load(&mut self, row: Row, at: u64) -> Result<(), LoadFault>
        requires { HasPlace at (piece_of row) }
        ensures placed { OnOk result (IsPlaced self.old.progress row) }
        ensures loaded { OnOk result (self.new.progress ≡ loaded self.old.progress row) }
        ensures misplaced { IsErrOf result LoadFault.Misplaced ↔ (¬ (IsPlaced self.old.progress row)) }
        ensures same { OnErr result (self.new ≡ self.old) }

        // The extent of a piece is added to its document, and no other document moves.
        ensures places { OnOk result (AddsPiece at row self.old.places self.new.places) }
    {
        match row {
            Row::Head(head) => self.load_head(head),
            Row::Queue(queue) => self.load_queue(queue),
            Row::Job(job) => self.load_job(job),
            Row::Piece { job, bytes } => self.load_piece(job, bytes.as_slice(), at),
        }
    }

    /// Returns the version of the area that the rows belong to.
    pub fn version(&self) -> Version
        ensures { result ≡ self.now.progress.state.version }
    {
        self.store.version()
    }

    /// Returns whether no document is incomplete, so that the rows are a complete listing.
    pub fn is_whole(&self) -> bool
        ensures { IsTrue result ↔ IsWhole self.now.progress }
    {
        self.partial.is_none()
    }

    /// Turns a complete listing (see [`Loading::is_whole`]) into its table. Builds the lanes of all queues at once,
    /// which allocates.
    pub fn into_table(self) -> Result<Table, AllocError>
        requires { IsWhole self.progress }
        ensures state { IfOk result (λ table. table.state ≡ self.progress.state) }
        ensures places { IfOk result (λ table. table.places ≡ self.places) }
        ensures moves { IfOk result (λ table. table.moves ≡ no_moves) }
    {
        Table::of_rows(self.alloc, self.store)
    }

    fn load_head(&mut self, head: Head) -> Result<(), LoadFault>
        ensures placed { OnOk result (IsPlaced self.old.progress (Row.Head head)) }
        ensures loaded { OnOk result (self.new.progress ≡ loaded self.old.progress (Row.Head head)) }
        ensures misplaced { IsErrOf result LoadFault.Misplaced ↔ (¬ (IsPlaced self.old.progress (Row.Head head))) }
        ensures same { OnErr result (self.new ≡ self.old) }
        ensures places { OnOk result ((j : ℕ) → places_of self.new.places j ≡ places_of self.old.places j) }
    {
        if self.begun || JobId::GREATEST < head.highest {
            return Err(LoadFault::Misplaced);
        }
        self.store.set_head(head);
        self.begun = true;
        Ok(())
    }

    fn load_queue(&mut self, queue: QueueRow) -> Result<(), LoadFault>
        ensures placed { OnOk result (IsPlaced self.old.progress (Row.Queue queue)) }
        ensures loaded { OnOk result (self.new.progress ≡ loaded self.old.progress (Row.Queue queue)) }
        ensures misplaced { IsErrOf result LoadFault.Misplaced ↔ (¬ (IsPlaced self.old.progress (Row.Queue queue))) }
        ensures same { OnErr result (self.new ≡ self.old) }
        ensures places { OnOk result ((j : ℕ) → places_of self.new.places j ≡ places_of self.old.places j) }
    {
        if !self.takes_queue(&queue) {
            return Err(LoadFault::Misplaced);
        }
        self.store.push_queue(queue)?;
        Ok(())
    }

    fn load_job(&mut self, job: Job) -> Result<(), LoadFault>
        ensures placed { OnOk result (IsPlaced self.old.progress (Row.Job job)) }
        ensures loaded { OnOk result (self.new.progress ≡ loaded self.old.progress (Row.Job job)) }
        ensures misplaced { IsErrOf result LoadFault.Misplaced ↔ (¬ (IsPlaced self.old.progress (Row.Job job))) }
        ensures same { OnErr result (self.new ≡ self.old) }
        ensures places { OnOk result ((j : ℕ) → places_of self.new.places j ≡ places_of self.old.places j) }
    {
        if !self.takes_job(&job) {
            return Err(LoadFault::Misplaced);
        }
        self.store.reserve_job()?;
        let row = unlisted_row(self.alloc, job)?;
        self.partial = settle(&mut self.store, Partial { row, read: 0 });
        Ok(())
    }

    fn load_piece(&mut self, job: JobId, bytes: &[u8], at: u64) -> Result<(), LoadFault>
        requires { at + bytes_behind < 2 ^ 64 }
        ensures placed { OnOk result (IsPlaced self.old.progress (Row.Piece job bytes.now)) }
        ensures loaded { OnOk result (self.new.progress ≡ loaded self.old.progress (Row.Piece job bytes.now)) }
        ensures misplaced { IsErrOf result LoadFault.Misplaced ↔ (¬ (IsPlaced self.old.progress (Row.Piece job bytes.now))) }
        ensures same { OnErr result (self.new ≡ self.old) }
        ensures places { OnOk result (AddsPiece at (Row.Piece job bytes.now) self.old.places self.new.places) }
    {
        if !self.takes_piece(job, bytes) {
            return Err(LoadFault::Misplaced);
        }
        self.store.reserve_job()?;
        append_piece(&mut self.partial, bytes.len(), at)?;
        if let Some(partial) = self.partial.take() {
            self.partial = settle(&mut self.store, partial);
        }
        Ok(())
    }

    fn takes_queue(&self, queue: &QueueRow) -> bool
        ensures yes { IsTrue result → IsNextQueue self.now.progress queue.now }
        ensures no { result ≡ false → ¬ (IsNextQueue self.now.progress queue.now) }
    {
        self.begun && self.partial.is_none() && is_new_queue(&self.store, queue)
    }

    fn takes_job(&self, job: &Job) -> bool
        ensures yes { IsTrue result → IsNextJob self.now.progress job.now }
        ensures absent { IsTrue result → places_of self.now.places job.now.id ≡ [] }
        ensures no { result ≡ false → ¬ (IsNextJob self.now.progress job.now) }
    {
        self.begun && self.partial.is_none() && is_new_job(&self.store, job)
    }

    fn takes_piece(&self, job: JobId, bytes: &[u8]) -> bool
        ensures yes { IsTrue result → IsPieceOf self.now.progress.partial job bytes.now }
        ensures no { result ≡ false → ¬ (IsPieceOf self.now.progress.partial job bytes.now) }
    {
        match &self.partial {
            Some(partial) => is_next_piece(partial, job, bytes),
            None => false,
        }
    }
}

// Returns whether the piece continues the document: it has 65,536 bytes, or it is the rest of the document.
fn is_next_piece(last: &Partial, job: JobId, bytes: &[u8]) -> bool
    requires { last.now.read ≤ last.now.row.job.size }
    ensures yes { IsTrue result → IsNextPiece (part_of last.now) job bytes.now }
    ensures no { result ≡ false → ¬ (IsNextPiece (part_of last.now) job bytes.now) }
{
    let short = last.row.job.size as usize - last.read;
    last.row.job.id == job && bytes.len() == short.min(LONGEST_SEND)
}

// Adds a piece of `count` bytes to the document of the last job. `at` is the place of its payload.
fn append_piece(last: &mut Option<Partial>, count: usize, at: u64) -> Result<(), AllocError>
    requires at { at + bytes_behind < 2 ^ 64 }
    requires short { MayGrow count last.old }
    ensures added { OnOk result (IsGrown at count last.old last.new) }
    ensures same { OnErr result (HasSameParts last.old last.new) }
{
    if let Some(partial) = last {
        partial.row.document.push(extent_behind(at, count))?;
        partial.read += count;
    }
    Ok(())
}

// Returns whether the queue may be added to the table, after its queues and before any job.
fn is_new_queue(store: &Store, queue: &QueueRow) -> bool
    ensures yes { IsTrue result → IsNewQueue store.now.state queue.now }
    ensures no { result ≡ false → ¬ (IsNewQueue store.now.state queue.now) }
{
    has_no_jobs(store)
        && store.queue_count() < MOST_QUEUES
        && store.is_above_queues(&queue.name)
        && is_in_order(queue)
}

fn has_no_jobs(store: &Store) -> bool
    ensures yes { IsTrue result → finite.values store.now.state.jobs ≡ [] }
    ensures no { result ≡ false → ¬ (finite.values store.now.state.jobs ≡ []) }
{
    store.jobs().is_empty()
}

// Returns whether the job may be added to the table, after its jobs.
fn is_new_job(store: &Store, job: &Job) -> bool
    ensures yes { IsTrue result → IsNewJob store.now.state job.now }
    ensures absent { IsTrue result → places_at store.now job.now.id ≡ [] }
    ensures no { result ≡ false → ¬ (IsNewJob store.now.state job.now) }
{
    store.is_above_jobs(job.id)
        && job.id.get() <= store.highest()
        && store.queue(&job.queue).is_some()
        && fits(job)
        && job.size as usize <= LONGEST_DOCUMENT
        && is_alone(store, job)
}

// Returns false if the job is processing and another job of its queue is processing too. Searches the jobs only if the
// job is processing.
fn is_alone(store: &Store, job: &Job) -> bool
    ensures { result ≡ not (is_processing job.now.phase && is_busy (finite.values store.now.state.jobs) job.now.queue) }
{
    !(job.phase.is_processing() && is_busy(store.jobs(), &job.queue))
}

// Returns whether a job of the queue is processing.
fn is_busy(rows: &Rows, queue: &QueueName) -> bool
    ensures { result ≡ is_busy (map job_of rows.now.items) queue.now }
{
    rows.iter().any(|row| row.job.queue == *queue && row.job.phase.is_processing())
}

// Returns whether the phase fits the rest of the row.
fn fits(job: &Job) -> bool
    ensures yes { IsTrue result → Fits job.now job.now.phase }
    ensures no { result ≡ false → ¬ (Fits job.now job.now.phase) }
{
    match job.phase {
        Phase::Incoming(_) => is_untyped(job),
        Phase::Waiting { .. } => is_startable(job),
        Phase::Processing {
            attempt,
            stage,
            stages,
        } => is_started(job, attempt, stage, stages),
        Phase::Completed | Phase::Canceled | Phase::Aborted(_) => true,
    }
}

fn is_untyped(job: &Job) -> bool
    ensures yes { IsTrue result → IsUntyped job.now }
    ensures no { result ≡ false → ¬ (IsUntyped job.now) }
{
    job.media.is_none() && job.filters.as_slice().is_empty() && job.attempts < u32::MAX
}

fn is_startable(job: &Job) -> bool
    ensures yes { IsTrue result → IsStartable job.now }
    ensures no { result ≡ false → ¬ (IsStartable job.now) }
{
    job.media.is_some() && job.attempts < u32::MAX
}

fn is_started(job: &Job, attempt: u32, stage: u8, stages: u8) -> bool
    ensures yes { IsTrue result → IsStarted job.now attempt stage stages }
    ensures no { result ≡ false → ¬ (IsStarted job.now attempt stage stages) }
{
    job.media.is_some()
        && 1 <= attempt
        && attempt == job.attempts
        && 1 <= stage
        && stage <= stages
        && usize::from(stages) == job.filters.as_slice().len() + 1
}

// Returns whether the reasons and the attributes are in ascending order. Their types limit their number.
fn is_in_order(queue: &QueueRow) -> bool
    ensures yes { IsTrue result → IsInOrder queue.now }
    ensures no { result ≡ false → ¬ (IsInOrder queue.now) }
{
    reasons_ascend(queue.reasons.as_slice()) && names_ascend(queue.attributes.as_slice())
}

fn reasons_ascend(reasons: &[Reason]) -> bool
    ensures { result ≡ is_ascending word_of reasons.now }
{
    reasons.is_sorted_by(|a, b| a < b)
}

fn names_ascend(attributes: &[Attribute]) -> bool
    ensures { result ≡ is_ascending name_of attributes.now }
{
    attributes.is_sorted_by(|a, b| a.name < b.name)
}

// Returns the row of a listed job, with memory for one extent for each piece of its document.
fn unlisted_row(alloc: Global, job: Job) -> Result<JobRow, AllocError>
    ensures row { IfOk result (λ row. row.job ≡ job) }
    ensures freed { IfOk result IsFreed }
    ensures none { IfOk result (λ row. row.document.items ≡ []) }
{
    let document = Vec::with_capacity(alloc, piece_count(document_len(&job)))?;
    Ok(JobRow { job, document })
}

// Adds the job to the table if its document is complete. Otherwise returns the job.
fn settle(store: &mut Store, last: Partial) -> Option<Partial>
    requires room { 0 < store.old.room.jobs }
    requires legal { IsLegal store.old.state }
    requires new { IsNewJob store.old.state last.row.job }
    requires freed { IsFreed last.row }
    requires measured { size_of last.row.document.items ≡ last.read }
    ensures state { store.new.state ≡ cond (last.read == document_len last.row.job) (with_job store.old.state last.row.job) store.old.state }
    ensures rest { option_map part_of result ≡ cond (last.read == document_len last.row.job) None (Some (part_of last)) }
    ensures measured { IsMeasured result }
    ensures places { (j : ℕ) → places_of (with_last_place result store.new.places) j ≡ places_of (with_last_place (Some last) store.old.places) j }
{
    let Partial { row, read } = last;
    if read == document_len(&row.job) {
        store.push_job(row);
        None
    } else {
        Some(Partial { row, read })
    }
}
