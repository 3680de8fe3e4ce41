//! The cause for which a job does not print.
ghost use Rattle.std.specs.Prelude.{◌≡◌, cond, nat_lt};
ghost use Rattle.spool_types.specs.Phases.{is_in_force};
ghost use Rattle.spool_types.specs.State.{queue_at};
ghost use Rattle.wait_causes.specs.WaitCauses.{cause_of, held_cause, is_stopped_row, order_cause, queue_cause, service_cause, waiting_cause};

use job_table::Table;
use spool_types::{Hold, Job, JobId, Moment, Phase, QueueName};

/// Why a job does not print, or that it does.
#[derive(Clone, Copy)]
pub enum Cause {
    /// It has ended.
    Ended,
    /// Its document is being sent.
    Arriving,
    /// Its document is incomplete, and its client has disconnected.
    Abandoned,
    /// It is held until it is released.
    Held,
    /// It is held until this moment.
    HeldUntil(Moment),
    /// An attempt failed. The next one starts at this moment.
    Retry(Moment),
    /// Its queue is stopped.
    Stopped,
    /// This job of its queue is processing.
    Taken(JobId),
    /// This job of its queue is started first.
    Behind(JobId),
    /// It is to be started, but the limit of running children is reached.
    Children,
    /// It is to be started, but the journal is short of room.
    Full,
    /// It is to be started.
    Next,
    /// A child of it runs.
    Prints,
}

/// What a service knows of a job beyond the table.
#[derive(Clone, Copy)]
pub struct ServiceFacts {
    /// The client that sent its document has disconnected.
    pub left: bool,
    /// A child of the job runs.
    pub runs: bool,
    /// Another child may run.
    pub has_place: bool,
    /// The journal was short of room, and no room was made since.
    pub is_full: bool,
}

/// Returns the cause of a job of the table.
pub fn cause_of(table: &Table, job: &Job, facts: ServiceFacts) -> Cause
    ensures { result ≡ cause_of facts table.now.state job.now }
{
    match &job.phase {
        Phase::Incoming(_) => arriving_cause(facts),
        Phase::Waiting {
            hold,
            not_before,
            ..
        } => waiting_cause(table, job, facts, hold, *not_before),
        Phase::Processing { .. } => running_cause(facts),
        Phase::Completed | Phase::Canceled | Phase::Aborted(_) => Cause::Ended,
    }
}

fn arriving_cause(facts: ServiceFacts) -> Cause
    ensures { result ≡ cond facts.left Cause.Abandoned Cause.Arriving }
{
    if facts.left {
        Cause::Abandoned
    } else {
        Cause::Arriving
    }
}

fn running_cause(facts: ServiceFacts) -> Cause
    ensures { result ≡ cond facts.runs Cause.Prints (service_cause facts) }
{
    if facts.runs {
        Cause::Prints
    } else {
        service_cause(facts)
    }
}

fn waiting_cause(
    table: &Table,
    job: &Job,
    facts: ServiceFacts,
    hold: &Hold,
    not_before: Moment,
) -> Cause
    ensures { result ≡ waiting_cause facts table.now.state job.now hold.now not_before }
{
    if is_held(hold, table.now()) {
        return held_cause(hold);
    }
    if is_later(not_before, table.now()) {
        return Cause::Retry(not_before);
    }
    if is_stopped(table, &job.queue) {
        return Cause::Stopped;
    }
    queue_cause(
        facts,
        job.id,
        table.processing(&job.queue),
        table.next(&job.queue),
    )
}

fn is_later(moment: Moment, now: Moment) -> bool
    ensures { result ≡ nat_lt now moment }
{
    now < moment
}

fn is_held(hold: &Hold, now: Moment) -> bool
    ensures { result ≡ is_in_force now hold.now }
{
    hold.is_in_force(now)
}

fn held_cause(hold: &Hold) -> Cause
    ensures { result ≡ held_cause hold.now }
{
    match hold {
        Hold::Until(moment) => Cause::HeldUntil(*moment),
        Hold::Free | Hold::Indefinite(_) => Cause::Held,
    }
}

fn is_stopped(table: &Table, name: &QueueName) -> bool
    ensures { result ≡ is_stopped_row (queue_at table.now.state name.now) }
{
    match table.queue(name) {
        Some(row) => row.stopped,
        None => false,
    }
}

fn queue_cause(facts: ServiceFacts, job: JobId, taken: Option<JobId>, next: Option<JobId>) -> Cause
    ensures { result ≡ queue_cause facts job taken next }
{
    match taken {
        Some(taken) => Cause::Taken(taken),
        None => order_cause(facts, job, next),
    }
}

fn order_cause(facts: ServiceFacts, job: JobId, next: Option<JobId>) -> Cause
    ensures { result ≡ order_cause facts job next }
{
    match next {
        Some(first) if first != job => Cause::Behind(first),
        _ => service_cause(facts),
    }
}

fn service_cause(facts: ServiceFacts) -> Cause
    ensures { result ≡ service_cause facts }
{
    if !facts.has_place {
        Cause::Children
    } else if facts.is_full {
        Cause::Full
    } else {
        Cause::Next
    }
}
