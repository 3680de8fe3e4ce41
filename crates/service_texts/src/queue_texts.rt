//! The reply about one queue.
ghost use Rattle.std.specs.Prelude.{◌≡◌, ◌≤◌, ◌++◌, None, IfOk, OnOk, cond, map, take};
ghost use Rattle.std.specs.FinMap as finite;
ghost use Rattle.event_records.specs.SeenTimes.{queue_time};
ghost use Rattle.queue_sayings.specs.QueueSayings.{shown_row};
ghost use Rattle.queue_sched.specs.WaitingIndex.{IsIndexOf};
ghost use Rattle.spool_types.specs.State.{job_at};
ghost use Rattle.service_texts.specs.QueueShown.{AreCounts, IsShownQueue, answer_line, attribute_line, attribute_lines, changed_line, counts_lines, held_among, is_held, printing_line, queue_descriptions, queue_device, queue_fields, queue_policy, queue_progress, queue_reasons, queue_row, queue_state, searched_text, uri_line};

use crate::job_texts::push_time_word;
use client_standing::Standing;
use command_lines::push_quoted;
use event_records::Seen;
use job_table::Table;
use queue_sayings::{has_spoken, push_shown_reasons, shown_message};
use queue_sched::Index;
use spool_types::{Attribute, JobId, Moment, QueueName, QueueRow};
use std::alloc::{AllocError, Global};
use std::io::Write;

// How many waiting jobs are searched at most for those that are held.
const MOST_SEARCHED: usize = 1_000;

/// How many jobs of a queue wait, and how many of the first 1,000 of them are held.
#[derive(Clone, Copy)]
pub struct QueueCounts {
    pub waiting: usize,
    pub held: usize,
}

/// The queue with all its fields, each on a line `NAME VALUE`, as the client sees it, then `ok 1`; `error queue` if it does not exist.
pub fn shown_queue(
    alloc: Global,
    table: &Table,
    seen: &Seen,
    client: &Standing,
    name: &QueueName,
) -> Result<Vec<u8>, AllocError>
    ensures { IfOk result (λ text. IsShownQueue client.now (queue_time seen.now name.now) table.now.state name.now text.items) }
{
    let Some(row) = table.queue(name) else {
        return Vec::from_slice(alloc, b"error queue\n");
    };
    let Some(index) = table.index(name) else {
        unreachable!()
    };
    let counts = counts_of(table, name, index);
    let printing = table.processing(name);
    let spoken = has_spoken(table, name);
    let text = queue_fields(
        alloc,
        row,
        client,
        counts,
        printing,
        seen.queue(name),
        spoken,
    )?;
    Ok(text)
}

// The queue with these counts, the job that prints and the moment of its last change. `spoken` is whether a stage of a running attempt has
// ended.
fn queue_fields(
    alloc: Global,
    row: &QueueRow,
    client: &Standing,
    counts: QueueCounts,
    printing: Option<JobId>,
    changed: Option<Moment>,
    spoken: bool,
) -> Result<Vec<u8>, AllocError>
    ensures { IfOk result (λ text. text.items ≡ queue_fields client.now counts printing changed (shown_row client.now spoken row.now)) }
{
    let mut text = Vec::new(alloc);
    push_row(&mut text, row, client, printing.is_some(), spoken)?;
    push_progress(&mut text, counts, printing, changed)?;
    text.extend_from_slice(b"ok 1\n")?;
    Ok(text)
}

// Counts the waiting jobs of a queue, and the held ones among the first 1,000.
fn counts_of(table: &Table, name: &QueueName, index: &Index) -> QueueCounts
    requires { IsIndexOf (finite.values table.now.state.jobs) name.now index.now.items }
    ensures { AreCounts table.now.state name.now result }
{
    QueueCounts {
        waiting: index.len(),
        held: held_among(table, index),
    }
}

// Counts the held ones of the first waiting jobs of a queue.
fn held_among(table: &Table, index: &Index) -> usize
    ensures { result ≡ held_among table.now.state (take 1000 (map (λ e. e.id) index.now.items)) }
{
    let mut jobs = index.jobs();
    let mut held = 0;
    for _ in 0..MOST_SEARCHED {
        let Some(job) = jobs.next() else {
            return held;
        };
        held += held_count(table, job);
    }
    held
}

// Returns 1 if a hold of this job is in force, otherwise 0.
fn held_count(table: &Table, job: JobId) -> usize
    ensures value { result ≡ cond (is_held table.now.state.moment (job_at table.now.state job)) 1 0 }
    ensures at_most { result ≤ 1 }
{
    usize::from(is_held(table, job))
}

// Returns whether a hold of this job is in force.
fn is_held(table: &Table, job: JobId) -> bool
    ensures { result ≡ is_held table.now.state.moment (job_at table.now.state job) }
{
    match table.job(job) {
        Some(row) => row.job.phase.hold().is_in_force(table.now()),
        None => false,
    }
}

// Appends the fields of the queue's row.
fn push_row(
    text: &mut Vec<u8>,
    row: &QueueRow,
    client: &Standing,
    busy: bool,
    spoken: bool,
) -> Result<(), AllocError>
    ensures { OnOk result (text.new.items ≡ text.old.items ++ queue_row client.now busy (shown_row client.now spoken row.now)) }
{
    push_device(text, row, client)?;
    push_policy(text, row)?;
    push_descriptions(text, row)?;
    push_queue_state(text, row, busy)?;
    push_reasons_and_message(text, row, client, spoken)?;
    push_attributes(text, row.attributes.as_slice())
}

fn push_device(text: &mut Vec<u8>, row: &QueueRow, client: &Standing) -> Result<(), AllocError>
    ensures { OnOk result (text.new.items ≡ text.old.items ++ queue_device client.now row.now) }
{
    let name = row.name.as_str();
    let target = row.target.as_str();
    write!(text, "queue {name}\n").map_err(|_| AllocError)?;
    push_uri(text, row, client)?;
    write!(text, "type {target}\n").map_err(|_| AllocError)
}

// Appends the queue's URI, if it is shown to the client.
fn push_uri(text: &mut Vec<u8>, row: &QueueRow, client: &Standing) -> Result<(), AllocError>
    ensures { OnOk result (text.new.items ≡ text.old.items ++ uri_line client.now row.now) }
{
    if !client.shows_uri() {
        return Ok(());
    }
    let uri = row.uri.as_str();
    write!(text, "uri {uri}\n").map_err(|_| AllocError)
}

fn push_policy(text: &mut Vec<u8>, row: &QueueRow) -> Result<(), AllocError>
    ensures { OnOk result (text.new.items ≡ text.old.items ++ queue_policy row.now) }
{
    let policy = row.policy.word();
    let interval = row.interval.get();
    let limit = row.limit;
    write!(
        text,
        "policy {policy}\ninterval {interval}\nlimit {limit}\n"
    )
    .map_err(|_| AllocError)
}

fn push_descriptions(text: &mut Vec<u8>, row: &QueueRow) -> Result<(), AllocError>
    ensures { OnOk result (text.new.items ≡ text.old.items ++ queue_descriptions row.now) }
{
    text.extend_from_slice(b"info ")?;
    push_quoted(text, row.info.as_str())?;
    text.extend_from_slice(b"\nlocation ")?;
    push_quoted(text, row.location.as_str())?;
    text.extend_from_slice(b"\n")
}

fn push_queue_state(text: &mut Vec<u8>, row: &QueueRow, busy: bool) -> Result<(), AllocError>
    ensures { OnOk result (text.new.items ≡ text.old.items ++ queue_state busy row.now) }
{
    let state = row.printer_state(busy);
    push_answer_line(text, "accepting", row.accepting)?;
    write!(text, "state {state}\n").map_err(|_| AllocError)?;
    push_answer_line(text, "stopped", row.stopped)?;
    push_answer_line(text, "stopping", row.stopped && busy)
}

fn push_answer_line(text: &mut Vec<u8>, name: &str, holds: bool) -> Result<(), AllocError>
    ensures { OnOk result (text.new.items ≡ text.old.items ++ answer_line name.now holds) }
{
    if holds {
        write!(text, "{name} yes\n").map_err(|_| AllocError)
    } else {
        write!(text, "{name} no\n").map_err(|_| AllocError)
    }
}

fn push_reasons_and_message(
    text: &mut Vec<u8>,
    row: &QueueRow,
    client: &Standing,
    spoken: bool,
) -> Result<(), AllocError>
    ensures { OnOk result (text.new.items ≡ text.old.items ++ queue_reasons (shown_row client.now spoken row.now)) }
{
    text.extend_from_slice(b"reasons ")?;
    push_shown_reasons(text, row.reasons.as_slice(), spoken)?;
    text.extend_from_slice(b"\nmessage ")?;
    push_quoted(text, shown_message(client, row, spoken))?;
    text.extend_from_slice(b"\n")
}

fn push_attributes(text: &mut Vec<u8>, attributes: &[Attribute]) -> Result<(), AllocError>
    ensures { OnOk result (text.new.items ≡ text.old.items ++ attribute_lines attributes.now) }
{
    for attribute in attributes {
        push_attribute(text, attribute)?;
    }
    Ok(())
}

fn push_attribute(text: &mut Vec<u8>, attribute: &Attribute) -> Result<(), AllocError>
    ensures { OnOk result (text.new.items ≡ text.old.items ++ attribute_line attribute.now) }
{
    let name = attribute.name.as_str();
    write!(text, "attribute {name} ").map_err(|_| AllocError)?;
    push_quoted(text, attribute.value.as_str())?;
    text.extend_from_slice(b"\n")
}

// Appends the counts of the queue's jobs, the job that prints, and the moment of its last change.
fn push_progress(
    text: &mut Vec<u8>,
    counts: QueueCounts,
    printing: Option<JobId>,
    changed: Option<Moment>,
) -> Result<(), AllocError>
    ensures { OnOk result (text.new.items ≡ text.old.items ++ queue_progress counts printing changed) }
{
    push_queue_counts(text, counts)?;
    push_printing(text, printing)?;
    push_changed(text, changed)
}

fn push_queue_counts(text: &mut Vec<u8>, counts: QueueCounts) -> Result<(), AllocError>
    ensures { OnOk result (text.new.items ≡ text.old.items ++ counts_lines counts) }
{
    let waiting = counts.waiting;
    let held = counts.held;
    write!(text, "waiting {waiting}\nheld {held}").map_err(|_| AllocError)?;
    push_searched(text, waiting)?;
    text.extend_from_slice(b"\n")
}

// Appends how many waiting jobs were searched, if that were not all.
fn push_searched(text: &mut Vec<u8>, waiting: usize) -> Result<(), AllocError>
    ensures { OnOk result (text.new.items ≡ text.old.items ++ searched_text waiting) }
{
    if waiting <= MOST_SEARCHED {
        return Ok(());
    }
    write!(text, " of {MOST_SEARCHED}").map_err(|_| AllocError)
}

fn push_printing(text: &mut Vec<u8>, printing: Option<JobId>) -> Result<(), AllocError>
    ensures { OnOk result (text.new.items ≡ text.old.items ++ printing_line printing) }
{
    let Some(job) = printing else {
        return Ok(());
    };
    let number = job.get();
    write!(text, "printing {number}\n").map_err(|_| AllocError)
}

fn push_changed(text: &mut Vec<u8>, changed: Option<Moment>) -> Result<(), AllocError>
    ensures { OnOk result (text.new.items ≡ text.old.items ++ changed_line changed) }
{
    text.extend_from_slice(b"changed ")?;
    push_time_word(text, changed)?;
    text.extend_from_slice(b"\n")
}
