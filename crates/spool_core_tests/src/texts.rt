//! The texts that the service sends about the jobs and the queues of a table.

use crate::spelled::event;
use client_standing::{RoleRules, Standing, Trust};
use event_records::{Changes, Seen, Subject};
use job_table::{PrepareFault, Table};
use service_texts::{Notes, has_settled, job_told, shown_job};
use spool_types::{Event, JobId, QueueName};
use std::alloc::Global;
use std::process::Abort;
use std::test::*;

// The place of each event's payload.
const PAYLOAD: u64 = 1_000;

// Job 1 is processing, job 2 waits until a moment, and job 3 is canceled.
const EVENTS: &str = "\
01 000171 0003733a2f 0003612f62 02 0000001e 0005\n\
05 000171 00000001 000175 0000 0001 32 0000\n\
05 000171 00000002 000175 0000 0001 32 0000\n\
05 000171 00000003 000175 0000 0001 50 0000\n\
07 00000001 0003612f62 01 00\n\
07 00000002 0003612f62 01 00\n\
08 00000002 02 0000000000000064\n\
0a 00000003\n\
0c 00000001";

// A client that sees everything.
const RULES: RoleRules = RoleRules {
    trust: Trust::All,
    show_all: true,
};

const SHOWN: &[u8] =
    b"job 1\nqueue q\nuser \"u\"\ntitle \"\"\noptions \"\"\ncopies 1\npriority 50\nsize 0\npages 0\nattempts 1\ntype a/b\nstate 5\nreason job-printing\nstage 1 of 1 attempt 1\ncreated unknown\nclosed unknown\nstarted unknown\nok 1\n";

const HELD: &[u8] =
    b"job 2\nqueue q\nuser \"u\"\ntitle \"\"\noptions \"\"\ncopies 1\npriority 50\nsize 0\npages 0\nattempts 0\ntype a/b\nstate 4\nreason job-hold-until-specified\nhold-until 100\nnot-before 0\ncreated unknown\nclosed unknown\nok 1\n";

const ENDED: &[u8] = b"job 3 q 7 canceled \"u\" 0 0 \"\"\nok 1\n";

const NEWS: &[u8] =
    b"job 1 q 5 job-printing \"u\" 0 0 \"\"\ngone job 9\nqueue q 4 accepting a/b retry-current-job 30 5 none \"\"\ngone queue r\n";

// What changed last.
const LAST: &[u8] = b"job 1 q 5 job-printing \"u\" 0 0 \"\"\n";

fn fail_of(fault: PrepareFault) -> Fail {
    match fault {
        PrepareFault::Refused(refusal) => Fail::from(refusal),
        PrepareFault::Memory => Fail::from("memory"),
    }
}

// Changes a table by an event.
fn apply(table: &mut Table, event: Event) -> Result<(), Fail> {
    match table.prepare(&event) {
        Ok(()) => {
            table.commit(event, PAYLOAD);
            Ok(())
        }
        Err(fault) => {
            // An explicit drop: if the event were dropped at the end of its scope, the proof would split into a case for each
            // kind of event.
            drop(event);
            Err(fail_of(fault))
        }
    }
}

fn fill(alloc: Global, table: &mut Table) -> Result<(), Fail> {
    for line in EVENTS.lines() {
        apply(table, event(alloc, line)?)?;
    }
    Ok(())
}

fn number(number: u32) -> Result<JobId, Fail> {
    Ok(JobId::new(number).ok_or("no number")?)
}

// Whether the text of a job, whose times were not seen, is this.
fn shows(alloc: Global, table: &Table, job: u32, wanted: &[u8]) -> Result<bool, Fail> {
    let job = number(job)?;
    let seen = Seen::new(alloc);
    let client = Standing::new(alloc, RULES, false);
    let text = shown_job(alloc, table, &seen, &client, job);
    drop(client);
    drop(seen);
    Ok(text?.as_slice() == wanted)
}

fn tells(alloc: Global, table: &Table, job: u32, wanted: &[u8]) -> Result<bool, Fail> {
    let job = number(job)?;
    let client = Standing::new(alloc, RULES, false);
    let text = job_told(alloc, table, &client, job);
    drop(client);
    Ok(text?.as_slice() == wanted)
}

fn tells_jobs<R: Abort>(rt: &R, alloc: Global, table: &mut Table) -> Result<(), Fail> {
    fill(alloc, table)?;
    assert!(rt; shows(alloc, table, 1, SHOWN)?);
    assert!(rt; shows(alloc, table, 2, HELD)?);
    assert!(rt; shows(alloc, table, 9, b"error job\n")?);
    assert!(rt; tells(alloc, table, 3, ENDED)?);
    assert!(rt; tells(alloc, table, 9, b"error job\n")?);
    assert!(rt; !has_settled(table, number(2)?));
    assert!(rt; has_settled(table, number(3)?));
    assert!(rt; has_settled(table, number(9)?));
    Ok(())
}

#[test]
fn a_job_is_told(rt: HostRuntime) -> Result<(), Fail> {
    let mut table = Table::new(rt.alloc());
    let outcome = tells_jobs(&rt, rt.alloc(), &mut table);
    drop(table);
    outcome
}

// Whether a client that knows the changes up to this number is sent these lines.
fn news(
    alloc: Global,
    changes: &Changes,
    number: u64,
    table: &Table,
    wanted: &[u8],
) -> Result<bool, Fail> {
    let notes = Notes::since(alloc, changes, number)?;
    let client = Standing::new(alloc, RULES, false);
    let lines = notes.lines(alloc, table, &client);
    drop(client);
    drop(notes);
    Ok(lines?.as_slice() == wanted)
}

fn note_queue(alloc: Global, changes: &mut Changes, name: &str) -> Result<(), Fail> {
    let name = QueueName::read(alloc, name)?;
    changes.note_queue(&name);
    Ok(())
}

// Job 1, the queue q, job 9, the queue r and again job 1 changed.
fn note(alloc: Global, changes: &mut Changes) -> Result<(), Fail> {
    changes.note(Subject::Job(number(1)?));
    note_queue(alloc, changes, "q")?;
    changes.note(Subject::Job(number(9)?));
    note_queue(alloc, changes, "r")?;
    changes.note(Subject::Job(number(1)?));
    Ok(())
}

fn tells_changes<R: Abort>(
    rt: &R,
    alloc: Global,
    changes: &mut Changes,
    table: &mut Table,
) -> Result<(), Fail> {
    fill(alloc, table)?;
    note(alloc, changes)?;
    assert!(rt; changes.last() == 12);
    assert!(rt; news(alloc, changes, 7, table, NEWS)?);
    assert!(rt; news(alloc, changes, 11, table, LAST)?);
    assert!(rt; news(alloc, changes, 12, table, b"")?);
    assert!(rt; news(alloc, changes, 13, table, b"missed\n")?);
    assert!(rt; news(alloc, changes, 6, table, b"missed\n")?);
    Ok(())
}

#[test]
fn changes_are_told(rt: HostRuntime) -> Result<(), Fail> {
    let mut table = Table::new(rt.alloc());
    let mut changes = Changes::new(rt.alloc(), 7)?;
    let outcome = tells_changes(&rt, rt.alloc(), &mut changes, &mut table);
    drop(changes);
    drop(table);
    outcome
}
