//! Splitting a spool by queues.
use crate::fault::{AdminFault, at_target};
use crate::folder::Folder;
use crate::halves::{Halves, list_halves};
use crate::names::{missing, missing_queue, names_of};
use crate::record::{noted, part_in, part_name, words_of};
use crate::whole::whole_spool;
use crate::words::Split;
use spool_disk::FileDisk;
use spool_halves::HalfFault;
use spool_runtime::ShellFault;
use std::time::Clock;

// The name of a spool's file.
const NAME: &str = "spool.disk";

// The name that `SpoolFolder::next_device` gives a file.
const NEXT: &str = "spool.disk.new";

// The file without the queues, in the folder of the whole spool, until the change over.
const REST: &str = "spool.rest";

// The record of the split: the name of the file with the queues in the other folder, and the words of the command. It exists
// until that file has its own name.
const RECORD: &str = "spool.split";

const NEXT_RECORD: &str = "spool.split.new";

/// Moves the queues, with their jobs, to a spool of their own in the other folder. If an earlier call with the same words was
/// killed after its change over, finishes that split and does nothing else. If it was killed before, undoes it and begins again.
pub fn split(rt: &HostRuntime, asked: &Split<'_>) -> Result<(), AdminFault> {
    let source = Folder::own(rt, asked.from)?;
    let target = at_target(Folder::own(rt, asked.into))?;
    split_into(rt, &source, &target, asked)
}

fn split_into(
    rt: &HostRuntime,
    source: &Folder<'_>,
    target: &Folder<'_>,
    asked: &Split<'_>,
) -> Result<(), AdminFault> {
    let words = words_of(rt.alloc(), asked.into, &asked.queues)?;
    match begun(rt, source, &words)? {
        Some(part) if was_changed_over(rt, source)? => finish(rt, source, target, &part),
        Some(part) => {
            give_up(rt, source, target, &part)?;
            begin(rt, source, target, &words, &asked.queues)
        }
        None => begin(rt, source, target, &words, &asked.queues),
    }
}

// Returns whether the earlier call has made its change over. That call may have been killed before the change was synced, so that
// a power cut would still undo it. So this function syncs it.
fn was_changed_over(rt: &HostRuntime, source: &Folder<'_>) -> Result<bool, AdminFault> {
    if source.has(rt, REST)? {
        return Ok(false);
    }
    source.sync()?;
    Ok(true)
}

// Splits the spool, if no earlier call has left anything.
fn begin(
    rt: &HostRuntime,
    source: &Folder<'_>,
    target: &Folder<'_>,
    words: &str,
    queues: &[&str],
) -> Result<(), AdminFault> {
    if at_target(target.has(rt, NAME))? {
        return Err(AdminFault::Taken);
    }
    let part = part_now(rt)?;
    match prepare(rt, source, target, &part, words, queues) {
        Ok(()) => {}
        Err(fault) => {
            let _ = give_up(rt, source, target, &part);
            return Err(fault);
        }
    }
    change_over(rt, source, target, &part)?;
    finish(rt, source, target, &part)
}

// Gives the rest the spool's name. From then on the jobs of the queues are only in the part.
fn change_over(
    rt: &HostRuntime,
    source: &Folder<'_>,
    target: &Folder<'_>,
    part: &str,
) -> Result<(), AdminFault> {
    match source.rename(rt, REST, NAME) {
        Ok(()) => Ok(()),
        Err(fault) => {
            if source.has(rt, REST)? {
                let _ = give_up(rt, source, target, part);
            }
            Err(AdminFault::from(fault))
        }
    }
}

// Creates the two files, complete and synced, under names that are not served.
fn prepare(
    rt: &HostRuntime,
    source: &Folder<'_>,
    target: &Folder<'_>,
    part: &str,
    words: &str,
    queues: &[&str],
) -> Result<(), AdminFault> {
    let names = names_of(rt.alloc(), queues)?;
    let (mut whole, size) = whole_spool(rt, &source.owned)?;
    if let Some(name) = missing_queue(whole.table(), &names) {
        return Err(missing(rt.alloc(), name.as_str())?);
    }
    let disks = begin_halves(rt, source, target, part, words, size)?;
    match list_halves(rt.alloc(), &mut whole, &names, disks) {
        Ok(halves) => drop(halves),
        Err(HalfFault::Disk) => return Err(AdminFault::Halves),
        Err(fault) => return Err(AdminFault::from(fault)),
    }
    Ok(())
}

// Creates the two empty files, in the folders of the whole and of the part.
fn begin_halves(
    rt: &HostRuntime,
    source: &Folder<'_>,
    target: &Folder<'_>,
    part: &str,
    words: &str,
    size: u64,
) -> Result<Halves<FileDisk>, AdminFault> {
    let rest = begin_rest(rt, source, size)?;
    record(rt, source, part, words)?;
    let about = source.about(rt, NAME)?;
    let part = at_target(target.put_zeros(rt, part, size, &about))?;
    Ok(Halves { part, rest })
}

// Creates a file for the rows that stay.
fn begin_rest(rt: &HostRuntime, source: &Folder<'_>, size: u64) -> Result<FileDisk, AdminFault> {
    source.remove(rt, REST)?;
    let disk = source.owned.next_device(rt, size)?;
    match source.rename(rt, NEXT, REST) {
        Ok(()) => Ok(disk),
        Err(fault) => {
            drop(disk);
            Err(AdminFault::from(fault))
        }
    }
}

// Notes the split before anything is created in the other folder.
fn record(
    rt: &HostRuntime,
    source: &Folder<'_>,
    part: &str,
    words: &str,
) -> Result<(), AdminFault> {
    let text = noted(rt.alloc(), part, words)?;
    source.remove(rt, NEXT_RECORD)?;
    source.put_text(rt, NEXT_RECORD, &text)?;
    Ok(source.rename(rt, NEXT_RECORD, RECORD)?)
}

// Gives the part its own name, and removes the record.
fn finish(
    rt: &HostRuntime,
    source: &Folder<'_>,
    target: &Folder<'_>,
    part: &str,
) -> Result<(), AdminFault> {
    let is_served = at_target(target.has(rt, NAME))?;
    if at_target(target.has(rt, part))? {
        if is_served {
            return Err(AdminFault::Taken);
        }
        at_target(target.rename(rt, part, NAME))?;
    } else if !is_served {
        return Err(AdminFault::Unfinished);
    }
    Ok(source.remove(rt, RECORD)?)
}

// Undoes a split whose change over was not made. Removes `spool.rest` after the record, because its absence would mean that the
// change over was made.
fn give_up(
    rt: &HostRuntime,
    source: &Folder<'_>,
    target: &Folder<'_>,
    part: &str,
) -> Result<(), AdminFault> {
    at_target(target.remove(rt, part))?;
    source.remove(rt, RECORD)?;
    source.remove(rt, REST)?;
    Ok(source.owned.remove_unfinished(rt)?)
}

// Returns the name of the part of a split that was begun, if any. Fails if its words are not these.
fn begun(rt: &HostRuntime, source: &Folder<'_>, words: &str) -> Result<Option<String>, AdminFault> {
    let Some(text) = source.text(rt, RECORD)? else {
        return Ok(None);
    };
    match part_in(&text, words) {
        Some(part) => Ok(Some(part.to_string(rt.alloc())?)),
        None => Err(AdminFault::Unfinished),
    }
}

// Returns a name for the part that no other split has: the time, in nanoseconds.
fn part_now(rt: &HostRuntime) -> Result<String, AdminFault> {
    let now = match rt.since_1970() {
        Ok(now) => now,
        Err(error) => return Err(AdminFault::from(ShellFault::from(error))),
    };
    Ok(part_name(rt.alloc(), now.as_secs(), now.subsec_nanos())?)
}
