//! Lists of events that are replayed, and driven on a spool.

use crate::spelled::{CLOSE, CREATE, QUEUE, bytes_of, events, listing, lists};
use crate::spools::{Device, closed, driven, made, open};
use spool_core::{Driven, Spool, replay};
use spool_disk::MemDisk;
use std::alloc::Global;
use std::test::*;

// The queue twice, its job, the end of the job's document, and a clock.
const PLAN: [&str; 5] = [QUEUE, QUEUE, CREATE, CLOSE, "0b 0000000000000000"];

// The rows after these events: the head, the queue, and the waiting job.
const LISTED: &str = "40 00000001 0000000000000000 \
    41 000171 0003733a2f 0003612f62 00 0000001e 0005 0000 0000 01 00 0000 00 00 \
    42 00000001 000171 000175 0000 0001 32 0000 01 0003612f62 00 00000000 00000000 00000000 01 00 0000000000000000 00 00";

// Returns the rows after the plan.
fn planned_rows(alloc: Global) -> Result<Vec<u8>, Fail> {
    let table = replay(alloc, events(alloc, &PLAN)?)?;
    let rows = listing(alloc, &table);
    drop(table);
    Ok(rows?)
}

#[test]
fn refused_events_are_skipped(rt: HostRuntime) -> Result<(), Fail> {
    let rows = planned_rows(rt.alloc())?;
    let wanted = bytes_of(rt.alloc(), LISTED)?;
    assert_eq!(rt; rows.as_slice(), wanted.as_slice());
    Ok(())
}

// Returns in words the replies to events on a spool, and why the run ended.
fn told(alloc: Global, spool: &mut Spool<Device>, texts: &[&str]) -> Result<String, Fail> {
    let driven = driven(alloc, spool, texts)?;
    told_of(alloc, &driven)
}

fn told_of(alloc: Global, driven: &Driven) -> Result<String, Fail> {
    let replies = driven.replies.as_slice();
    let ending = driven.ending;
    Ok(format!(in alloc; "{replies:?} {ending:?}")?)
}

// Drives the plan on a new spool of 198 bytes. Its area has no room for the clock. Returns the replies and the disk.
fn full(alloc: Global) -> Result<(String, MemDisk), Fail> {
    let mut spool = open(alloc, made(alloc, 198)?, u64::MAX)?;
    let told = told(alloc, &mut spool, &PLAN);
    let disk = closed(spool);
    Ok((told?, disk))
}

/// Returns whether opening the disk yields these rows, and the disk.
pub fn finds(alloc: Global, disk: MemDisk, rows: &[u8]) -> Result<(bool, MemDisk), Fail> {
    let spool = open(alloc, disk, u64::MAX)?;
    let same = lists(alloc, spool.table(), rows);
    let disk = closed(spool);
    Ok((same?, disk))
}

// Returns whether the next opening does, too.
fn finds_twice(alloc: Global, disk: MemDisk, rows: &[u8]) -> Result<bool, Fail> {
    let (first, disk) = finds(alloc, disk, rows)?;
    let (second, _) = finds(alloc, disk, rows)?;
    Ok(first && second)
}

#[test]
fn driven_until_it_is_full(rt: HostRuntime) -> Result<(), Fail> {
    let (told, disk) = full(rt.alloc())?;
    let wanted = bytes_of(rt.alloc(), LISTED)?;
    assert!(rt; finds_twice(rt.alloc(), disk, &wanted)?);
    assert_eq!(rt;
        told.as_str(),
        "[Ok(Done), Err(QueueExists), Ok(Number(JobId { number: 1 })), Ok(Done)] Full"
    );
    Ok(())
}

// Events in order, each with its reply. Job 2 is more urgent than job 1, and has three stages. Job 3 must start by the moment
// 2000.
const ANSWERED: &str = "\
05 000171 00000001 000175 0000 0001 32 0000 = Err(NoQueue)\n\
11 000171 00000001 000175 0000 0001 32 0000 00000000000007d0 = Err(NoQueue)\n\
01 000171 0003733a2f 0003612f62 00 0000001e 0005 = Ok(Done)\n\
05 000171 00000001 000175 0000 0001 32 0000 = Ok(Number(JobId { number: 1 }))\n\
05 000171 00000001 000175 0000 0001 32 0000 = Err(OldNumber)\n\
06 00000001 00000002 6869 = Ok(Size(2))\n\
0c 00000001 = Err(NotWaiting)\n\
0d 00000001 00000001 01 0000 00000000 0000 = Err(NotProcessing)\n\
07 00000001 0003612f62 01 00 = Ok(Done)\n\
06 00000001 00000002 6869 = Err(NotIncoming)\n\
09 00000001 = Err(NotHeld)\n\
0e 00000001 = Err(NotProcessing)\n\
05 000171 00000002 000175 0000 0001 50 0000 = Ok(Number(JobId { number: 2 }))\n\
07 00000002 0003612f62 01 02 000166 000167 = Ok(Done)\n\
0c 00000001 = Err(NotNext)\n\
0c 00000002 = Ok(Phase(Processing { attempt: 1, stage: 1, stages: 3 }))\n\
0c 00000001 = Err(NotNext)\n\
0c 00000002 = Err(NotWaiting)\n\
08 00000002 01 = Err(NotWaiting)\n\
09 00000002 = Err(NotWaiting)\n\
0d 00000002 00000001 02 0000 00000000 0000 = Err(WrongStage)\n\
0d 00000002 00000002 01 0000 00000000 0000 = Err(WrongStage)\n\
0d 00000002 00000001 01 0000 00000000 0000 = Ok(Phase(Processing { attempt: 1, stage: 2, stages: 3 }))\n\
0d 00000002 00000001 02 0000 00000000 0000 = Ok(Phase(Processing { attempt: 1, stage: 3, stages: 3 }))\n\
0d 00000002 00000001 03 0000 00000000 0000 = Ok(Phase(Completed))\n\
0c 00000002 = Err(JobEnded)\n\
0c 00000001 = Ok(Phase(Processing { attempt: 1, stage: 1, stages: 1 }))\n\
0d 00000001 00000001 01 0007 00000000 0000 = Ok(Phase(Waiting { hold: Free, not_before: Moment { seconds: 0 }, first: true }))\n\
0c 00000001 = Ok(Phase(Processing { attempt: 2, stage: 1, stages: 1 }))\n\
0f = Ok(Done)\n\
0c 00000001 = Err(JobEnded)\n\
0c 00000003 = Err(NoJob)\n\
11 000171 00000002 000175 0000 0001 32 0000 00000000000007d0 = Err(OldNumber)\n\
11 000171 00000003 000175 0000 0001 32 0000 00000000000007d0 = Ok(Number(JobId { number: 3 }))\n\
0b 00000000000007d1 = Ok(Done)\n\
07 00000003 0003612f62 01 00 = Ok(Done)\n\
08 00000003 01 = Ok(Done)\n\
0b 0000000000000000 = Ok(Done)\n\
09 00000003 = Err(JobEnded)\n\
05 000171 7fffffff 000175 0000 0001 32 0000 = Ok(Number(JobId { number: 2147483647 }))\n\
05 000171 7fffffff 000175 0000 0001 32 0000 = Err(NoNumberLeft)\n\
11 000171 7fffffff 000175 0000 0001 32 0000 00000000000007d0 = Err(NoNumberLeft)\n\
05 000171 00000003 000175 0000 0001 32 0000 = Err(NoNumberLeft)";

// Returns the reply to an event in words.
fn answer(alloc: Global, spool: &mut Spool<Device>, spelling: &str) -> Result<String, Fail> {
    let driven = driven(alloc, spool, &[spelling])?;
    first_answer(alloc, &driven)
}

fn first_answer(alloc: Global, driven: &Driven) -> Result<String, Fail> {
    match driven.replies.first() {
        Some(reply) => Ok(format!(in alloc; "{reply:?}")?),
        None => Err(Fail::from("no reply")),
    }
}

// Returns the first line whose event has another reply, if any.
fn other_answer(alloc: Global, spool: &mut Spool<Device>) -> Result<Option<&'static str>, Fail> {
    for line in ANSWERED.lines() {
        let (spelling, wanted) = line.split_once(" = ").ok_or("no answer")?;
        if answer(alloc, spool, spelling)?.as_str() != wanted {
            return Ok(Some(line));
        }
    }
    Ok(None)
}

#[test]
fn each_event_has_its_answer(rt: HostRuntime) -> Result<(), Fail> {
    let mut spool = open(rt.alloc(), made(rt.alloc(), 4_096)?, u64::MAX)?;
    let found = other_answer(rt.alloc(), &mut spool);
    drop(spool);
    assert_eq!(rt; found?, None);
    Ok(())
}
