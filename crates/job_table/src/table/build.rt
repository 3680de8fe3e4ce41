//! Builds a table from its rows. One pass over the jobs adds each to the draft of its queue's lane, and then the
//! waiting jobs of each draft are sorted. The deadlines and the dates of the agenda are collected and sorted once as
//! well. For n jobs this takes n log n steps, whatever the order of the waiting jobs and of the dates.
ghost use Rattle.std.specs.Prelude.{◌≡◌, count_by, is_some, length, IfOk};
ghost use Rattle.std.specs.List.{All, filter_map};
ghost use Rattle.queue_sched.specs.WaitingIndex.{HasEachOnce};
ghost use Rattle.job_table.specs.Agendas.{ended_date, hold_date, retry_date, IsAgenda};
ghost use Rattle.job_table.specs.Contents.{no_moves};
ghost use Rattle.job_table.specs.LaneDrafts.{drafted, AreDrafts, IsBlank};
ghost use Rattle.job_table.specs.Lanes.{AreBeside, IsAdvanced};
ghost use Rattle.job_table.specs.Legal.{IsLegal};
ghost use Rattle.job_table.specs.Timely.{deadline_of, IsTimely};
ghost use Rattle.spool_types.specs.State.{job_at};

use super::Table;
use crate::agenda::{Agenda, ended_date, hold_date, retry_date};
use crate::lane::{Draft, Lane, lane_state_of};
use crate::new_places::NewPlaces;
use crate::store::Store;
use crate::timetable::{Timetable, deadline_of};
use job_rows::Rows;
use queue_sched::Deadline;
use spool_types::Moment;
use std::alloc::{AllocError, Global};

impl Table {
    /// Returns the table that has these rows.
    pub(crate) fn of_rows(alloc: Global, store: Store) -> Result<Table, AllocError>
        ensures state { IfOk result (λ table. table.state ≡ store.state) }
        ensures places { IfOk result (λ table. table.places ≡ store.places) }
        ensures moves { IfOk result (λ table. table.moves ≡ no_moves) }
    {
        let drafts = drafts_of(alloc, &store)?;
        let lanes = lanes_of(alloc, drafts, store.now())?;
        let timetable = timetable_of(alloc, &store)?;
        let agenda = agenda_of(alloc, &store)?;
        Ok(Table {
            store,
            lanes,
            timetable,
            agenda,
            vacant: 0,
            new_places: NewPlaces::none(alloc),
        })
    }
}

// Returns the draft of each queue's lane, in the order of the queues. The queue of each job is found by binary search.
fn drafts_of(alloc: Global, store: &Store) -> Result<Vec<Draft>, AllocError>
    ensures legal { IsLegal store.now.state }
    ensures drafts { IfOk result (λ drafts. AreDrafts store.now.state drafts.items) }
{
    let rows = store.jobs();
    let mut drafts = empty_drafts(alloc, store.queue_count())?;
    for row in rows.iter() {
        let Ok(place) = store.queue_position(&row.job.queue) else {
            unreachable!()
        };
        drafts[place].add(row.job.id, lane_state_of(&row.job))?;
    }
    Ok(drafts)
}

// Returns `count` drafts without jobs.
fn empty_drafts(alloc: Global, count: usize) -> Result<Vec<Draft>, AllocError>
    ensures count { IfOk result (λ drafts. length drafts.items ≡ count) }
    ensures each { IfOk result (λ drafts. All IsBlank drafts.items) }
{
    let mut drafts = Vec::with_capacity(alloc, count)?;
    for _ in 0..count {
        drafts.push(Draft::new(alloc))?;
    }
    Ok(drafts)
}

// Turns the drafts into lanes at this moment.
fn lanes_of(alloc: Global, drafts: Vec<Draft>, moment: Moment) -> Result<Vec<Lane>, AllocError>
    requires { All (λ d. HasEachOnce d.waiting.items) drafts.items }
    ensures { IfOk result (λ lanes. AreBeside (λ d lane. IsAdvanced moment (drafted d) lane) drafts.items lanes.items) }
{
    let mut lanes = Vec::with_capacity(alloc, drafts.len())?;
    for draft in drafts {
        lanes.push(draft.into_lane(moment)?)?;
    }
    Ok(lanes)
}

// Returns the timetable of the jobs, with room for every job that must start by a moment.
fn timetable_of(alloc: Global, store: &Store) -> Result<Timetable, AllocError>
    ensures { IfOk result (IsTimely (job_at store.now.state)) }
{
    let rows = store.jobs();
    let deadlines = deadlines_of(alloc, rows)?;
    Timetable::of_deadlines(deadlines, timed_count(rows))
}

// Returns the deadlines of the waiting jobs.
fn deadlines_of(alloc: Global, rows: &Rows) -> Result<Vec<Deadline>, AllocError>
    ensures { IfOk result (λ deadlines. deadlines.items ≡ filter_map (λ row. deadline_of row.job) rows.now.items) }
{
    rows.iter()
        .filter_map(|row| deadline_of(&row.job))
        .collect(alloc)
}

// Counts the jobs that must start by a moment, whatever their phase.
fn timed_count(rows: &Rows) -> usize
    ensures { result ≡ count_by (λ row. is_some row.job.by) rows.now.items }
{
    rows.iter().filter(|row| row.job.by.is_some()).count()
}

// Returns the agenda of the jobs, with room for every job.
fn agenda_of(alloc: Global, store: &Store) -> Result<Agenda, AllocError>
    ensures { IfOk result (IsAgenda (job_at store.now.state)) }
{
    let rows = store.jobs();
    let holds = holds_of(alloc, rows)?;
    let retries = retries_of(alloc, rows)?;
    let ended = ended_of(alloc, rows)?;
    Agenda::of_dates(holds, retries, ended, rows.len())
}

// Returns the ends of the holds.
fn holds_of(alloc: Global, rows: &Rows) -> Result<Vec<Deadline>, AllocError>
    ensures { IfOk result (λ dates. dates.items ≡ filter_map (λ row. hold_date row.job) rows.now.items) }
{
    rows.iter()
        .filter_map(|row| hold_date(&row.job))
        .collect(alloc)
}

// Returns the retries of the waiting jobs.
fn retries_of(alloc: Global, rows: &Rows) -> Result<Vec<Deadline>, AllocError>
    ensures { IfOk result (λ dates. dates.items ≡ filter_map (λ row. retry_date row.job) rows.now.items) }
{
    rows.iter()
        .filter_map(|row| retry_date(&row.job))
        .collect(alloc)
}

// Returns the entries of the jobs that have ended.
fn ended_of(alloc: Global, rows: &Rows) -> Result<Vec<Deadline>, AllocError>
    ensures { IfOk result (λ dates. dates.items ≡ filter_map (λ row. ended_date row.job) rows.now.items) }
{
    rows.iter()
        .filter_map(|row| ended_date(&row.job))
        .collect(alloc)
}
