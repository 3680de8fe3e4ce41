//! Which queues and jobs are chosen if the children have room for a few starts only.
ghost use Rattle.std.specs.Prelude.{◌≡◌, ◌⊎◌, ◌≤◌, ◌<◌, ◌+◌, ◌-◌, ◌++◌, ℕ, true, false, [], None, IsSome, length, slice_index_or, vec_capacity};
ghost use Rattle.std.specs.FinMap as finite;
ghost use Rattle.print_rounds.specs.StageChecks.{blocked_flags, free_queues};
ghost use Rattle.print_rounds.specs.Passes.{unblocked};
ghost use Rattle.print_rounds.specs.Turns.{AreInTurn, IsTurnAfter};
ghost use Rattle.print_rounds.specs.RoundTicks.{count_running};
ghost use Rattle.print_rounds.specs.StartLimits.{AreChosen, IsRoomBy, IsRoomWithin, can_start, room_within, rotated, opened_in, waiting_jobs};

use crate::slots::has_child;
use crate::starts::next_at;
use child_pipeline::{Children, Runner};
use job_table::Table;
use spool_types::JobId;
use std::mem;

/// The limits of a tick.
#[derive(Clone, Copy)]
pub struct TickLimits {
    /// How many children may run at once.
    pub most: usize,
    /// How many children may be started.
    pub starts: usize,
}

/// How many children may be started, and where the choice begins.
#[derive(Clone, Copy)]
pub struct StartRoom {
    pub count: usize,
    /// The position of the first choice, modulo the number of choices.
    pub first: usize,
}

/// Returns how many more children may run, if at most `most` may.
pub fn count_free<C: Children>(runner: &Runner<C>, most: usize) -> usize
    ensures { result ≡ most - count_running runner.now }
{
    let mut free = most;
    let mut behind = None;
    while let Some(job) = runner.next_job(behind) {
        if has_child(runner, job) {
            free = free.saturating_sub(1);
        }
        behind = Some(job);
    }
    free
}

// Returns how many children a tick may start. The children are asked for their room, which takes a while, unless the limits leave none.
pub(crate) fn room_of<C: Children>(
    limits: Option<TickLimits>,
    runner: &Runner<C>,
    children: &mut C,
    first: usize,
) -> Option<StartRoom>
    ensures told { C.tells children.new ≡ C.tells children.old }
    ensures asked { IsRoomBy (λ answer. (then : C) × C.rooms children.old answer then) limits (count_running runner.now) first result }
    ensures within { IsRoomWithin limits (count_running runner.now) result }
    ensures always { IsSome (C.tells children.old) → result ≡ room_within limits (count_running runner.now) first None }
{
    let Some(limits) = limits else {
        let count = children.start_room()?;
        return Some(StartRoom { count, first });
    };
    let left = limits.starts.min(count_free(runner, limits.most));
    if left == 0 {
        return Some(StartRoom { count: 0, first });
    }
    let count = match children.start_room() {
        Some(count) => left.min(count),
        None => left,
    };
    Some(StartRoom { count, first })
}

// Returns the position after the last queue in the range that is not blocked, or `before` if all are blocked.
fn turn_in(blocked: &[bool], from: usize, to: usize, before: usize) -> usize
    requires order { from ≤ to }
    requires range { to ≤ length blocked.now }
    ensures { IsTurnAfter blocked.now from to before result }
{
    let mut turn = before;
    for at in from..to {
        if !blocked[at] {
            turn = at + 1;
        }
    }
    turn
}

// Returns the number of processing jobs that wait for a child.
fn count_waiting<C: Children>(table: &Table, runner: &Runner<C>) -> usize
    ensures { result ≡ length (waiting_jobs table.now.state runner.now) }
{
    let mut waiting = 0;
    for queue in table.queues() {
        if let Some(job) = table.processing(&queue.name) {
            if !has_child(runner, job) {
                waiting += 1;
            }
        }
    }
    waiting
}

// Returns whether a queue is not blocked and has a next job.
fn can_start(table: &Table, blocked: &[bool], at: usize) -> bool
    requires range { at < length (finite.keys table.now.state.queues) }
    requires count { length blocked.now ≡ length (finite.keys table.now.state.queues) }
    ensures { result ≡ can_start table.now.state blocked.now at }
{
    !blocked[at] && next_at(table, at).is_some()
}

// Opens the queues in the range that can start, as long as there is room. It returns the room that is left.
fn open_some(
    table: &Table,
    blocked: &[bool],
    from: usize,
    to: usize,
    start_room: usize,
    closed: &mut Vec<bool>,
) -> usize
    requires order { from ≤ to }
    requires range { to ≤ length (finite.keys table.now.state.queues) }
    requires blocked { length blocked.now ≡ length (finite.keys table.now.state.queues) }
    requires closed { length closed.old.items ≡ length (finite.keys table.now.state.queues) }
    requires ahead { (i : ℕ) → from ≤ i → i < to → slice_index_or closed.old.items i true ≡ true }
    ensures count { length closed.new.items ≡ length closed.old.items }
    ensures before { (i : ℕ) → i < from → slice_index_or closed.new.items i true ≡ slice_index_or closed.old.items i true }
    ensures behind { (i : ℕ) → to ≤ i → slice_index_or closed.new.items i true ≡ slice_index_or closed.old.items i true }
    ensures opened { (i : ℕ) → slice_index_or closed.old.items i true ≡ false → slice_index_or closed.new.items i true ≡ false }
    ensures start { (i : ℕ) → slice_index_or closed.new.items i true ≡ false → (slice_index_or closed.old.items i true ≡ false) ⊎ (can_start table.now.state blocked.now i ≡ true) }
    ensures taken { opened_in closed.new.items + result ≡ opened_in closed.old.items + start_room }
    ensures less { result ≤ start_room }
    ensures none { start_room ≡ 0 → closed.new.items ≡ closed.old.items }
    ensures in_order { (i j : ℕ) → from ≤ j → j < i → i < to → can_start table.now.state blocked.now j ≡ true → slice_index_or closed.new.items j true ≡ true → slice_index_or closed.new.items i true ≡ true }
    ensures all { 0 < result → (i : ℕ) → from ≤ i → i < to → can_start table.now.state blocked.now i ≡ true → slice_index_or closed.new.items i true ≡ false }
{
    let mut left = start_room;
    for at in from..to {
        if can_start(table, blocked, at) && left > 0 {
            closed[at] = false;
            left -= 1;
        }
    }
    left
}

// Blocks the queues that have no room. If there is room for fewer starts than queues, the jobs that wait for a child come first,
// then queues with a next job, from `turn` on. It returns the position after the last of them, or `turn` if there is none, or room for
// each queue.
pub(crate) fn hold_back<C: Children>(
    start_room: Option<StartRoom>,
    turn: usize,
    table: &Table,
    runner: &Runner<C>,
    blocked: &mut Vec<bool>,
    spare: &mut Vec<bool>,
) -> usize
    requires count { length blocked.old.items ≡ length (finite.keys table.now.state.queues) }
    requires free { unblocked blocked.old.items (finite.keys table.now.state.queues) ≡ free_queues table.now.state runner.now }
    requires flags { blocked.old.items ≡ blocked_flags table.now.state runner.now }
    requires empty { spare.old.items ≡ [] }
    requires room { length (finite.keys table.now.state.queues) ≤ vec_capacity spare.old }
    ensures count { length blocked.new.items ≡ length (finite.keys table.now.state.queues) }
    ensures chosen { AreChosen start_room table.now.state runner.now (unblocked blocked.new.items (finite.keys table.now.state.queues)) }
    ensures turn { AreInTurn turn result table.now.state runner.now (unblocked blocked.new.items (finite.keys table.now.state.queues)) }
{
    let Some(start_room) = start_room else {
        return turn;
    };
    let queues = table.queues().len();
    if queues <= start_room.count {
        return turn;
    }
    for _ in 0..queues {
        spare.push_reserved(true);
    }
    let first = turn % queues;
    let left = start_room
        .count
        .saturating_sub(count_waiting(table, runner));
    let left = open_some(table, blocked, first, queues, left, spare);
    open_some(table, blocked, 0, first, left, spare);
    mem::swap(blocked, spare);
    let behind = turn_in(blocked, first, queues, turn);
    turn_in(blocked, 0, first, behind)
}

// Lists the jobs that have room: all of them, or else `count` jobs from position `first` on and then from the beginning, in the order of
// `jobs`.
pub(crate) fn choose_jobs(start_room: Option<StartRoom>, jobs: &[JobId], chosen: &mut Vec<JobId>)
    requires empty { chosen.old.items ≡ [] }
    requires room { length jobs.now ≤ vec_capacity chosen.old }
    ensures value { chosen.new.items ≡ rotated start_room jobs.now }
    ensures capacity { vec_capacity chosen.new ≡ vec_capacity chosen.old }
{
    match start_room {
        Some(start_room) if start_room.count < jobs.len() => {
            let first = start_room.first % jobs.len();
            let again = start_room.count.saturating_sub(jobs.len() - first);
            list_more(&jobs[..again], chosen);
            list_more(&jobs[first..first + (start_room.count - again)], chosen);
        }
        _ => list_more(jobs, chosen),
    }
}

// Appends these jobs.
fn list_more(jobs: &[JobId], chosen: &mut Vec<JobId>)
    requires { length chosen.old.items + length jobs.now ≤ vec_capacity chosen.old }
    ensures items { chosen.new.items ≡ chosen.old.items ++ jobs.now }
    ensures capacity { vec_capacity chosen.new ≡ vec_capacity chosen.old }
{
    for job in jobs {
        chosen.push_reserved(*job);
    }
}
