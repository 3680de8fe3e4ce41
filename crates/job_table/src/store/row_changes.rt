//! New rows, and the changes of a row by an event.
ghost use Rattle.std.specs.Prelude.{◌≡◌, ◌+◌, ◌<◌, ◌≤◌, ◌^◌, true, false, cond, [], ◌∷◌, ◌++◌, length, vec_len, vec_capacity};
ghost use Rattle.job_table.specs.Attempts.{started, with_pages, ruled, stops_queue, next_stage};
ghost use Rattle.spool_types.specs.Limits.{longest_document, greatest_attempts};
ghost use Rattle.spool_types.specs.Phases.{has_ended, is_processing};
ghost use Rattle.spool_types.specs.Sent.{bytes_behind, extent_behind};
ghost use Rattle.job_table.specs.Losses.{HasNextStage};
ghost use Rattle.job_table.specs.EventChanges.{new_queue, with_notes, with_accepting, with_stopped, new_job, with_bytes, ended, closed, held};
ghost use Rattle.job_table.specs.RowChanges.{meant, EndsInEnd};
ghost use Rattle.job_table.specs.TableRows.{TakesNone, KeepsDocument};

use crate::places::extent_behind;
use backend_codes::Verdict;
use row_effects::pages_after;
use spool_types::{
    AbortReason, Closing, Effect, Hold, Interval, Items, Job, JobRow, Moment, NewJob, NewQueue,
    Phase, Piece, QueueNotes, QueueRow, Text,
};
use std::alloc::Global;

// Returns the row of a new queue. It accepts jobs, is not stopped, and has empty texts and lists.
pub(super) fn new_queue_row(alloc: Global, queue: NewQueue) -> QueueRow
    ensures { result ≡ new_queue queue }
{
    QueueRow {
        name: queue.name,
        uri: queue.uri,
        target: queue.target,
        policy: queue.policy,
        interval: queue.interval,
        limit: queue.limit,
        info: Text::empty(alloc),
        location: Text::empty(alloc),
        accepting: true,
        stopped: false,
        message: Text::empty(alloc),
        reasons: Items::empty(alloc),
        attributes: Items::empty(alloc),
    }
}

pub(super) fn set_notes(row: &mut QueueRow, notes: QueueNotes)
    ensures { row.new ≡ with_notes notes row.old }
{
    row.info = notes.info;
    row.location = notes.location;
}

pub(super) fn set_accepting(row: &mut QueueRow, accepting: bool)
    ensures { row.new ≡ with_accepting accepting row.old }
{
    row.accepting = accepting;
}

pub(super) fn set_stopped(row: &mut QueueRow, stopped: bool)
    ensures { row.new ≡ with_stopped stopped row.old }
{
    row.stopped = stopped;
}

// Returns the row of a new job, which is incoming, has no hold and no bytes. It must start by the moment `by`, if one
// is given.
pub(super) fn new_job_row(alloc: Global, job: NewJob, by: Option<Moment>) -> JobRow
    ensures row { result.job ≡ new_job job by }
    ensures room { vec_capacity result.document ≡ 0 }
    ensures places { result.document.items ≡ [] }
{
    JobRow {
        job: Job {
            id: job.job,
            queue: job.queue,
            user: job.user,
            title: job.title,
            copies: job.copies,
            priority: job.priority,
            options: job.options,
            media: None,
            filters: Items::empty(alloc),
            attempts: 0,
            pages: 0,
            size: 0,
            phase: Phase::Incoming(Hold::Free),
            by,
        },
        document: Vec::new(alloc),
    }
}

// Adds the bytes of a send to the document. `at` is the place of the payload. Returns the new size of the document.
pub(super) fn add_bytes(row: &mut JobRow, bytes: Piece, at: u64) -> u32
    requires room { vec_len row.old.document < vec_capacity row.old.document }
    requires short { row.old.job.size + length bytes ≤ longest_document }
    requires live { has_ended row.old.job.phase ≡ false }
    requires at { at + bytes_behind < 2 ^ 64 }
    ensures row { row.new.job ≡ with_bytes bytes row.old.job }
    ensures size { result ≡ row.old.job.size + length bytes }
    ensures memory { TakesNone row.old row.new }
    ensures document { row.new.document.items ≡ row.old.document.items ++ extent_behind at (length bytes) ∷ [] }
{
    let count = bytes.as_slice().len();
    row.document.push_reserved(extent_behind(at, count));
    row.job.size += count as u32;
    row.job.size
}

/// The change of an event that changes only the row of its job.
#[derive(Drop)]
pub(crate) enum RowChange {
    /// The job, which is waiting or still incoming, gets this hold.
    Hold(Hold),
    /// The job ends in this phase.
    End(Phase),
    Close(Closing),
}

pub(super) fn change_row(row: &mut JobRow, change: RowChange)
    requires live { has_ended row.old.job.phase ≡ false }
    requires ends { EndsInEnd change }
    ensures row { row.new.job ≡ meant change row.old.job }
    ensures memory { TakesNone row.old row.new }
    ensures document { KeepsDocument row.old row.new }
{
    match change {
        RowChange::Hold(hold) => hold_row(row, hold),
        RowChange::End(phase) => end_row(row, phase),
        RowChange::Close(closing) => close_row(row, closing),
    }
}

// Ends a job and drops its document.
fn end_row(row: &mut JobRow, phase: Phase)
    requires { has_ended phase ≡ true }
    ensures row { row.new.job ≡ ended phase row.old.job }
    ensures memory { TakesNone row.old row.new }
    ensures ended { has_ended row.new.job.phase ≡ true }
{
    let alloc = *row.document.allocator();
    row.job.phase = phase;
    row.document = Vec::new(alloc);
}

// Closes a job. It waits with its current hold, or is aborted if no filters convert its document for the queue.
fn close_row(row: &mut JobRow, closing: Closing)
    requires { has_ended row.old.job.phase ≡ false }
    ensures row { row.new.job ≡ closed closing row.old.job }
    ensures memory { TakesNone row.old row.new }
    ensures document { KeepsDocument row.old row.new }
{
    row.job.media = Some(closing.media);
    match closing.filters {
        Some(filters) => {
            row.job.filters = filters;
            row.job.phase = Phase::Waiting {
                hold: row.job.phase.hold(),
                not_before: Moment::ZERO,
                first: false,
            };
        }
        None => end_row(row, Phase::Aborted(AbortReason::NoFilter)),
    }
}

// Sets the hold of a job that is waiting or still incoming.
fn hold_row(row: &mut JobRow, hold: Hold)
    ensures row { row.new.job ≡ held hold row.old.job }
    ensures memory { TakesNone row.old row.new }
    ensures document { row.new.document ≡ row.old.document }
{
    row.job.phase = row.job.phase.with_hold(hold);
}

// Begins another attempt in its first stage. The stages are the job's filters in order, followed by the backend.
pub(super) fn start_row(row: &mut JobRow) -> Phase
    requires more { row.old.job.attempts < greatest_attempts }
    requires live { has_ended row.old.job.phase ≡ false }
    ensures row { row.new.job ≡ started row.old.job }
    ensures phase { result ≡ row.new.job.phase }
    ensures memory { TakesNone row.old row.new }
    ensures document { row.new.document ≡ row.old.document }
{
    row.job.attempts += 1;
    row.job.pages = 0;
    row.job.phase = Phase::Processing {
        attempt: row.job.attempts,
        stage: 1,
        stages: row.job.filters.as_slice().len() as u8 + 1,
    };
    row.job.phase
}

// Updates the pages by the effects of a stage.
pub(super) fn add_pages(row: &mut JobRow, effects: &[Effect])
    ensures row { row.new.job ≡ with_pages effects.now row.old.job }
    ensures memory { TakesNone row.old row.new }
    ensures document { row.new.document ≡ row.old.document }
{
    row.job.pages = pages_after(row.job.pages, effects);
}

// Stops the queue if the verdict on its job is StopQueue.
pub(super) fn rule_queue_row(row: &mut QueueRow, verdict: Verdict)
    ensures { row.new ≡ cond (stops_queue verdict) (with_stopped true row.old) row.old }
{
    if verdict == Verdict::StopQueue {
        row.stopped = true;
    }
}

// Applies a verdict to a job. A retry waits for `interval` after the moment `now`.
pub(super) fn rule_row(row: &mut JobRow, verdict: Verdict, now: Moment, interval: Interval) -> Phase
    requires next { verdict ≡ Verdict.NextStage → HasNextStage row.old.job.phase }
    requires live { is_processing row.old.job.phase ≡ true }
    ensures row { row.new.job ≡ ruled now interval verdict row.old.job }
    ensures phase { result ≡ row.new.job.phase }
    ensures memory { TakesNone row.old row.new }
    ensures document { KeepsDocument row.old row.new }
{
    match verdict {
        Verdict::NextStage => row.job.phase = next_stage(row.job.phase),
        Verdict::Completed => end_row(row, Phase::Completed),
        Verdict::Aborted(reason) => end_row(row, Phase::Aborted(reason)),
        Verdict::Canceled => end_row(row, Phase::Canceled),
        Verdict::Held(reason) => row.job.phase = waiting(
            Hold::Indefinite(reason),
            Moment::ZERO,
            false,
        ),
        Verdict::StopQueue => row.job.phase = waiting(Hold::Free, Moment::ZERO, false),
        Verdict::RetryAt => {
            let not_before = now.plus(u64::from(interval.get()));
            row.job.phase = waiting(Hold::Free, not_before, false);
        }
        Verdict::RetryFirst => row.job.phase = waiting(Hold::Free, Moment::ZERO, true),
    }
    row.job.phase
}

fn waiting(hold: Hold, not_before: Moment, first: bool) -> Phase
    ensures { result ≡ Phase.Waiting hold not_before first }
{
    Phase::Waiting {
        hold,
        not_before,
        first,
    }
}

// Returns the phase in the next stage. A job has at most 16 stages, so the number of the stage cannot overflow.
fn next_stage(phase: Phase) -> Phase
    requires { HasNextStage phase }
    ensures { result ≡ next_stage phase }
{
    match phase {
        Phase::Processing {
            attempt,
            stage,
            stages,
        } => Phase::Processing {
            attempt,
            stage: stage + 1,
            stages,
        },
        other => other,
    }
}
