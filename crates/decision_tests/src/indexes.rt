//! The index of waiting jobs. Its law states that its next job is the choice among all rows.
ghost use Rattle.std.specs.Prelude.{IfOk};
ghost use Rattle.queue_sched.specs.WaitingIndex.{HasEachOnce};

use crate::samples::{Held, Waiting, entry, moment};
use Change::{Add, Bring, Take};
use Held::{ForGood, Free, Until};
use queue_sched::{Entry, Index};
use spool_types::JobId;
use std::alloc::{AllocError, Global};
use std::test::Fail;

// A change of an index.
#[derive(Clone, Copy)]
enum Change {
    Add(Waiting),
    // Removes the job with this number.
    Take(u32),
    // Advances the clock to this moment.
    Bring(u64),
}

// A change, the jobs in their order after it, and the next one, or 0.
type Row<'a> = (Change, &'a [u32], u32);

const WORKED: [Row; 7] = [
    (Add((1, 50, Free, 0, false)), &[1], 1),
    (Add((2, 80, Free, 0, false)), &[2, 1], 2),
    (Add((3, 80, Until(100), 0, false)), &[2, 3, 1], 2),
    (Take(2), &[3, 1], 1),
    (Bring(100), &[3, 1], 3),
    (Take(1), &[3], 3),
    (Add((1, 50, Free, 0, true)), &[1, 3], 1),
];

// Jobs are inserted at the front, in the middle and at the end, and all are removed.
const PLACES: [Row; 9] = [
    (Add((4, 50, Free, 0, false)), &[4], 4),
    (Add((5, 50, Free, 0, false)), &[4, 5], 4),
    (Add((1, 80, Free, 0, false)), &[1, 4, 5], 1),
    (Add((2, 60, Free, 0, false)), &[1, 2, 4, 5], 1),
    (Take(1), &[2, 4, 5], 2),
    (Take(4), &[2, 5], 2),
    (Take(5), &[2], 2),
    (Take(2), &[], 0),
    (Bring(100), &[], 0),
];

// A job returns to its former position, and others are added after all except one were removed.
const COMING_BACK: [Row; 10] = [
    (Add((1, 50, Free, 0, false)), &[1], 1),
    (Add((2, 50, Free, 0, false)), &[1, 2], 1),
    (Add((3, 50, Free, 0, false)), &[1, 2, 3], 1),
    (Take(2), &[1, 3], 1),
    (Add((2, 50, Until(20), 0, false)), &[1, 2, 3], 1),
    (Take(1), &[2, 3], 3),
    (Take(2), &[3], 3),
    (Add((1, 50, Free, 0, false)), &[1, 3], 1),
    (Add((2, 50, Free, 0, false)), &[1, 2, 3], 1),
    (Take(3), &[1, 2], 1),
];

// A held job keeps its position and is skipped.
const HELD: [Row; 10] = [
    (Add((1, 90, ForGood, 0, false)), &[1], 0),
    (Add((2, 80, Until(20), 10, false)), &[1, 2], 0),
    (Add((3, 70, Free, 15, false)), &[1, 2, 3], 0),
    (Bring(14), &[1, 2, 3], 0),
    (Bring(15), &[1, 2, 3], 3),
    (Bring(19), &[1, 2, 3], 3),
    (Bring(20), &[1, 2, 3], 2),
    (Bring(4_000), &[1, 2, 3], 2),
    (Take(1), &[2, 3], 2),
    (Add((1, 90, Free, 0, false)), &[1, 2, 3], 1),
];

// Adds a job that the index does not have.
fn add(index: &mut Index, entry: Entry) -> Result<(), Fail> {
    let count = index.len().checked_add(1).ok_or("too many jobs")?;
    index.reserve(count)?;
    match index.entry(entry.id) {
        Some(_) => return Err("the job is there")?,
        None => index.insert(entry),
    }
    Ok(())
}

// The entry of a job, if the index has it.
fn find(index: &Index, number: u32) -> Result<Option<Entry>, Fail> {
    let id = JobId::new(number).ok_or("no number of a job")?;
    Ok(index.entry(id).copied())
}

// Removes a job of the index.
fn take(index: &mut Index, number: u32) -> Result<(), Fail> {
    let id = JobId::new(number).ok_or("no number of a job")?;
    let entry = *index.entry(id).ok_or("the job isn't there")?;
    index.remove(entry);
    Ok(())
}

// Makes a change. Returns whether it is seen at once.
fn makes(index: &mut Index, change: Change) -> Result<bool, Fail> {
    match change {
        Add(waiting) => {
            let entry = entry(waiting)?;
            add(index, entry)?;
            Ok(find(index, waiting.0)? == Some(entry))
        }
        Take(number) => {
            take(index, number)?;
            Ok(find(index, number)?.is_none())
        }
        Bring(seconds) => {
            let now = moment(seconds)?;
            if now < index.moment() {
                return Err("the moment is past")?;
            }
            index.advance(now);
            Ok(index.moment() == now)
        }
    }
}

// Whether it has these jobs in this order.
fn lists(index: &Index, numbers: &[u32]) -> bool {
    let mut jobs = index.jobs();
    for number in numbers {
        if jobs.next() != JobId::new(*number) {
            return false;
        }
    }
    jobs.next().is_none() && index.len() == numbers.len()
}

// Whether it has these jobs in this order, and this next one; 0 means none.
fn has(index: &Index, numbers: &[u32], next: u32) -> bool {
    lists(index, numbers) && index.next() == JobId::new(next)
}

// The first row that fails, counted from 1, or 0.
fn first_failure(index: &mut Index, rows: &[Row]) -> Result<usize, Fail> {
    for at in 0..rows.len() {
        let (change, numbers, next) = rows[at];
        if !(makes(index, change)? && has(index, numbers, next)) {
            return Ok(at + 1);
        }
    }
    Ok(0)
}

// The first row that fails, from an index without jobs.
fn first_failure_of(alloc: Global, rows: &[Row]) -> Result<usize, Fail> {
    let mut index = Index::new(alloc);
    first_failure(&mut index, rows)
}

#[test]
fn an_index_follows_its_rows(rt: HostRuntime) -> Result<(), Fail> {
    assert!(rt; first_failure_of(rt.alloc(), &WORKED)? == 0);
    assert!(rt; first_failure_of(rt.alloc(), &PLACES)? == 0);
    assert!(rt; first_failure_of(rt.alloc(), &COMING_BACK)? == 0);
    assert!(rt; first_failure_of(rt.alloc(), &HELD)? == 0);
    Ok(())
}

// An index without jobs and without reserved memory.
fn empty(alloc: Global) -> Result<Index, AllocError> {
    let mut index = Index::new(alloc);
    index.reserve(0)?;
    Ok(index)
}

#[test]
fn an_index_begins_empty(rt: HostRuntime) -> Result<(), Fail> {
    let index = empty(rt.alloc())?;
    assert!(rt; has(&index, &[], 0));
    Ok(())
}

// Unsorted jobs, with moments before 50, at 50 and after it.
fn disordered(alloc: Global) -> Result<Vec<Entry>, Fail>
    ensures { IfOk result (λ entries. HasEachOnce entries.items) }
{
    Ok(vec![in alloc;
        entry((4, 50, Free, 60, false))?,
        entry((2, 70, Until(40), 0, false))?,
        entry((5, 90, Until(51), 10, false))?,
        entry((3, 95, ForGood, 0, false))?,
        entry((1, 70, Free, 50, false))?,
    ]?)
}

// Their index at the moment 50.
fn of_disordered(alloc: Global) -> Result<Index, Fail> {
    let now = moment(50)?;
    Ok(Index::of_entries(disordered(alloc)?, now)?)
}

const DISORDERED: [Row; 7] = [
    (Bring(50), &[3, 5, 1, 2, 4], 1),
    (Bring(51), &[3, 5, 1, 2, 4], 5),
    (Take(5), &[3, 1, 2, 4], 1),
    (Take(1), &[3, 2, 4], 2),
    (Take(2), &[3, 4], 0),
    (Bring(59), &[3, 4], 0),
    (Bring(60), &[3, 4], 4),
];

#[test]
fn an_index_of_a_list_is_that_of_its_jobs(rt: HostRuntime) -> Result<(), Fail> {
    let mut index = of_disordered(rt.alloc())?;
    assert!(rt; has(&index, &[3, 5, 1, 2, 4], 1));
    assert!(rt; first_failure(&mut index, &DISORDERED)? == 0);
    Ok(())
}
