//! A piece of the listing of jobs, each with all its fields.
ghost use Rattle.std.specs.Prelude.{◌≡◌, ◌≤◌, ◌++◌, cond, length, IfOk, OnOk};
ghost use Rattle.spool_types.specs.State.{job_at};
ghost use Rattle.std.specs.Option.{option_copied};
ghost use Rattle.event_records.specs.SeenTimes.{job_times};
ghost use Rattle.service_texts.specs.Listings.{is_match, is_number, is_row_selected, is_text, listed, listed_fields, listed_text, piece_line, row_fields};
ghost use Rattle.service_texts.specs.Shown.{seen};

use crate::job_texts::{push_fields, seen_text};
use crate::selection::{Selection, StateNumber};
use client_standing::Standing;
use event_records::Seen;
use job_table::Table;
use spool_types::{Job, JobId, Moment, Text, TextKind};
use std::alloc::{AllocError, Global};
use std::io::Write;

// How many jobs are examined at most for a piece, so that the client holds nobody up.
const MOST_EXAMINED: usize = 1_000;

// The number of jobs that were appended, and the next job of the listing, if any.
#[derive(Clone, Copy)]
struct Appended {
    count: u32,
    next: Option<JobId>,
}

/// The next selected jobs, each with all its fields and times, then `ok K`, or `ok K more N` if the job N comes next. At most
/// 1,000 jobs are examined. A job whose user the client does not see is not found by its user.
pub fn listed_text(
    alloc: Global,
    table: &Table,
    seen: &Seen,
    client: &Standing,
    selection: &Selection,
) -> Result<Vec<u8>, AllocError>
    ensures { IfOk result (λ text. text.items ≡ listed_text client.now (job_times seen.now) selection.now table.now.state) }
{
    let mut text = Vec::new(alloc);
    match push_piece(&mut text, table, seen, client, selection) {
        Ok(piece) => {
            push_piece_line(&mut text, piece)?;
            Ok(text)
        }
        Err(error) => Err(error),
    }
}

// Appends the selected jobs of a piece.
fn push_piece(
    text: &mut Vec<u8>,
    table: &Table,
    seen: &Seen,
    client: &Standing,
    selection: &Selection,
) -> Result<Appended, AllocError>
    ensures jobs { OnOk result (text.new.items ≡ text.old.items ++ listed_fields client.now (job_times seen.now) table.now.state.moment (listed client.now selection.now table.now.state).jobs) }
    ensures count { IfOk result (λ piece. piece.count ≡ length (listed client.now selection.now table.now.state).jobs) }
    ensures next { IfOk result (λ piece. piece.next ≡ (listed client.now selection.now table.now.state).next) }
{
    let rows = table.jobs();
    let most = selection.most();
    let mut count = 0;
    let mut next = rows.next_above(selection.from() - 1);
    for _ in 0..MOST_EXAMINED {
        let Some(id) = next else {
            return Ok(Appended { count, next });
        };
        if most <= count {
            return Ok(Appended { count, next });
        }
        let selected = push_selected(text, table, seen, client, selection, id)?;
        count += count_of(selected);
        next = rows.next_above(id.get());
    }
    Ok(Appended { count, next })
}

// Returns 1 for a selected job, otherwise 0.
fn count_of(selected: bool) -> u32
    ensures value { result ≡ cond selected 1 0 }
    ensures at_most { result ≤ 1 }
{
    u32::from(selected)
}

// Appends the fields of a job, if it is selected. Returns whether it is.
fn push_selected(
    text: &mut Vec<u8>,
    table: &Table,
    seen: &Seen,
    client: &Standing,
    selection: &Selection,
    id: JobId,
) -> Result<bool, AllocError>
    ensures selected { IfOk result (λ selected. selected ≡ is_row_selected client.now selection.now table.now.state.moment (job_at table.now.state id)) }
    ensures fields { OnOk result (text.new.items ≡ text.old.items ++ row_fields client.now (job_times seen.now id) selection.now table.now.state.moment (job_at table.now.state id)) }
{
    let Some(row) = table.job(id) else {
        return Ok(false);
    };
    let now = table.now();
    let hidden = !client.shows(&row.job);
    if !is_match(selection, &row.job, &now, hidden) {
        return Ok(false);
    }
    push_fields(text, &row.job, &now, hidden, &seen.job(id))?;
    Ok(true)
}

// Returns whether the job matches the selection. If `hidden`, it has no user.
fn is_match(selection: &Selection, job: &Job, now: &Moment, hidden: bool) -> bool
    ensures { result ≡ is_match selection.now now.now (seen hidden job.now) }
{
    is_text(selection.queue.as_ref(), job.queue.as_str())
        && is_state(selection.state, job.phase.job_state(*now))
        && is_text(
            selection.user.as_ref(),
            seen_text(hidden, job.user.as_str()),
        )
}

// Returns whether the text is the wanted one, if there is one.
fn is_text<K: TextKind>(wanted: Option<&Text<K>>, text: &str) -> bool
    ensures { result ≡ is_text (option_copied wanted.entry) text.now }
{
    match wanted {
        Some(wanted) => text == wanted.as_str(),
        None => true,
    }
}

fn is_state(wanted: Option<StateNumber>, state: u8) -> bool
    ensures { result ≡ is_number wanted state }
{
    match wanted {
        Some(wanted) => u32::from(state) == wanted.get(),
        None => true,
    }
}

// Appends the last line of a piece.
fn push_piece_line(text: &mut Vec<u8>, piece: Appended) -> Result<(), AllocError>
    ensures { OnOk result (text.new.items ≡ text.old.items ++ piece_line piece.count piece.next) }
{
    let count = piece.count;
    let Some(next) = piece.next else {
        return write!(text, "ok {count}\n").map_err(|_| AllocError);
    };
    let number = next.get();
    write!(text, "ok {count} more {number}\n").map_err(|_| AllocError)
}
