//! The first part of a round: it starts the next job of each queue.
ghost use Rattle.std.specs.Prelude.{◌≡◌, ◌<◌, List, ℕ, IfSome, None, length, map, slice_index_or, vec_capacity};
ghost use Rattle.std.specs.FinMap as finite;
ghost use Rattle.job_table.specs.Attempts.{next_of};
ghost use Rattle.job_table.specs.Step.{refusal_of};
ghost use Rattle.spool_core.specs.OpenSpools.{IsSettled};
ghost use Rattle.print_rounds.specs.Counts.{acknowledged_by, start_events, start_fault, starting_events, starting_fault};
ghost use Rattle.print_rounds.specs.Happenings.{HaveHappened, happenings_of};
ghost use Rattle.print_rounds.specs.RunStates.{Starting, AreStartings, IsApplied, IsStarting};
ghost use Rattle.print_rounds.specs.Passes.{unblocked};

use crate::happenings::{Happening, note};
use crate::outcome::{RoundFault, answer_fault};
use job_table::Table;
use spool_core::{ApplyFault, Spool};
use spool_disk::Disk;
use spool_types::{Event, JobId, Reply};

// Returns the next job of the queue at position `at`.
pub(crate) fn next_at(table: &Table, at: usize) -> Option<JobId>
    requires { at < length (finite.keys table.now.state.queues) }
    ensures next { (name : List ℕ) × (name ≡ slice_index_or (finite.keys table.now.state.queues) at name) × (result ≡ next_of table.now.state name) }
    ensures startable { IfSome result (λ j. refusal_of table.now.state (Event.Start j) ≡ None) }
{
    table.next(&table.queues()[at].name)
}

// Starts a job, and notes it if the event was accepted.
fn start_job<D: Disk>(
    spool: &mut Spool<D>,
    job: JobId,
    happened: &mut Vec<Happening>,
) -> Result<Reply, ApplyFault>
    requires settled { IsSettled spool.old }
    ensures answer { IsApplied D.device spool.old (Event.Start job) result spool.new }
    ensures noted { HaveHappened (vec_capacity happened.old) 1 happened.old.items happened.new.items (happenings_of (acknowledged_by (Event.Start job) result)) }
    ensures capacity { vec_capacity happened.new ≡ vec_capacity happened.old }
{
    match spool.apply(Event::Start(job)) {
        Ok(reply) => {
            note(happened, Happening::Started(job));
            Ok(reply)
        }
        Err(fault) => Err(fault),
    }
}

// Starts the next job of the queue at position `at`.
fn start_next<D: Disk>(
    spool: &mut Spool<D>,
    at: usize,
    happened: &mut Vec<Happening>,
) -> Option<Result<Reply, ApplyFault>>
    requires within { at < length (finite.keys spool.old.state.queues) }
    requires settled { IsSettled spool.old }
    ensures start { (name : List ℕ) × (name ≡ slice_index_or (finite.keys spool.old.state.queues) at name)
        × IsStarting D.device spool.old (record { queue = name; answer = result; next = spool.new })
        × HaveHappened (vec_capacity happened.old) 1 happened.old.items happened.new.items (happenings_of (start_events (next_of spool.old.state name) result)) }
    ensures capacity { vec_capacity happened.new ≡ vec_capacity happened.old }
{
    match next_at(spool.table(), at) {
        Some(job) => Some(start_job(spool, job, happened)),
        None => None,
    }
}

// The fault in the answer to a start, if any.
fn start_fault(answer: &Option<Result<Reply, ApplyFault>>) -> Option<RoundFault>
    ensures { result ≡ start_fault answer.now }
{
    match answer {
        Some(answer) => answer_fault(answer),
        None => None,
    }
}

// Starts the next job of each queue that is not blocked, in ascending order of name, and returns the first fault. A fault of one queue does
// not stop the others. After a device error each further answer is `Dead`, and the device is not called.
// The accepted events are noted.
pub(crate) fn start_free<D: Disk>(
    spool: &mut Spool<D>,
    blocked: &[bool],
    happened: &mut Vec<Happening>,
) -> Option<RoundFault>
    requires count { length blocked.now ≡ length (finite.keys spool.old.state.queues) }
    requires settled { IsSettled spool.old }
    ensures starts { (ts : List (Starting D)) × AreStartings D.device spool.old ts spool.new × (map (λ t. t.queue) ts ≡ unblocked blocked.now (finite.keys spool.old.state.queues))
        × (result ≡ starting_fault ts)
        × HaveHappened (vec_capacity happened.old) (length blocked.now) happened.old.items happened.new.items (happenings_of (starting_events spool.old ts)) }
    ensures capacity { vec_capacity happened.new ≡ vec_capacity happened.old }
{
    let mut fault = None;
    for at in 0..spool.table().queues().len() {
        if !blocked[at] {
            let answer = start_next(spool, at, happened);
            fault = fault.or(start_fault(&answer));
        }
    }
    fault
}
