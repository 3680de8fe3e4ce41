//! Events that are staged and settled together.

use crate::runs::finds;
use crate::spelled::{CLOSE, CREATE, QUEUE, event, events, listing};
use crate::spools::{Device, OPENING, closed, made, open};
use spool_core::{ApplyFault, Spool, replay};
use spool_disk::MemDisk;
use std::alloc::Global;
use std::test::*;

// A queue, its job, and the end of the job's document.
const BATCH: [&str; 3] = [QUEUE, CREATE, CLOSE];

// Stages the events up to the first that is not accepted, and settles. Returns whether all were accepted and settled.
fn settles(alloc: Global, spool: &mut Spool<Device>) -> Result<bool, Fail> {
    for text in BATCH {
        match spool.stage(event(alloc, text)?) {
            Ok(_) => {}
            Err(ApplyFault::Memory) => return Err(Fail::from("memory")),
            Err(_) => return Ok(false),
        }
    }
    Ok(spool.settle() == Ok(()))
}

// Does so on a new spool with a device that fails after `calls` calls from the opening on. Returns the result, and the disk that is left.
fn cut(alloc: Global, calls: u8) -> Result<(bool, MemDisk), Fail> {
    let mut spool = open(alloc, made(alloc, 512)?, OPENING + u64::from(calls))?;
    let settled = settles(alloc, &mut spool);
    let disk = closed(spool);
    Ok((settled?, disk))
}

// Returns the rows after the first events.
fn rows_after(alloc: Global, count: usize) -> Result<Vec<u8>, Fail> {
    let count = count.min(BATCH.len());
    let table = replay(alloc, events(alloc, &BATCH[..count])?)?;
    let rows = listing(alloc, &table);
    drop(table);
    Ok(rows?)
}

// Returns whether this is the result, and an opening of the disk that is left yields the table after so many events.
fn leaves(alloc: Global, calls: u8, settled: bool, count: usize) -> Result<bool, Fail> {
    let (result, disk) = cut(alloc, calls)?;
    let rows = rows_after(alloc, count)?;
    Ok(result == settled && finds(alloc, disk, &rows)?.0)
}

// The stages take five calls and the settle three. Its second call opens the gate.
#[test]
fn a_batch_is_left_whole_or_not_at_all(rt: HostRuntime) -> Result<(), Fail> {
    for calls in 0..7 {
        assert!(rt; leaves(rt.alloc(), calls, false, 0)?, "{calls} calls");
    }
    assert!(rt; leaves(rt.alloc(), 7, false, 3)?);
    assert!(rt; leaves(rt.alloc(), 8, true, 3)?);
    Ok(())
}
