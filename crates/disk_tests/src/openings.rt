//! Opening spools: a device that fails, and more than one block of records.
use crate::spools::{made, opened};
use spool_areas::{Areas, Extent, OpenFault};
use spool_disk::{FuseDisk, MemDisk};
use std::alloc::Global;
use std::test::Fail;

// Returns the disk of an opening that fails because the device fails after `calls` calls.
fn handed_back(alloc: Global, calls: u64) -> Result<MemDisk, Fail> {
    match Areas::open(alloc, FuseDisk::new(made(alloc, 198)?, calls)) {
        Ok(_) => Err(Fail::from("opened")),
        Err(error) => {
            if error.fault == OpenFault::Disk {
                Ok(error.disk.into_disk())
            } else {
                Err(Fail::from(error.fault))
            }
        }
    }
}

// Returns whether that disk is unchanged.
fn is_handed_back(alloc: Global, calls: u64) -> Result<bool, Fail> {
    let before = made(alloc, 198)?;
    let disk = handed_back(alloc, calls)?;
    Ok(disk.bytes() == before.bytes())
}

// Returns whether a new spool is opened with four calls.
fn opens_with_four(alloc: Global) -> Result<bool, Fail> {
    let opened = opened(alloc, FuseDisk::new(made(alloc, 198)?, 4))?;
    Ok(opened.payloads.is_empty() && opened.gate == 16)
}

// An opening takes four calls: a sync, two headers, and one block with all records. The disk is returned unchanged.
#[test]
fn each_device_call_of_an_opening_may_fail(rt: HostRuntime) -> Result<(), Fail> {
    for calls in 0..4 {
        assert!(rt; is_handed_back(rt.alloc(), calls)?, "{calls} calls");
    }
    assert!(rt; opens_with_four(rt.alloc())?);
    Ok(())
}

// Returns whether 12,000 records of one byte are added.
fn add_many(areas: &mut Areas<MemDisk>) -> bool {
    for _ in 0..12_000 {
        if !areas.is_settled() || areas.append(&mut [0, 0, 0, 0, 7, 0]).is_err() {
            return false;
        }
    }
    true
}

// Returns a spool with these records.
fn with_many(alloc: Global) -> Result<MemDisk, Fail> {
    let mut areas = opened(alloc, made(alloc, 200_000)?)?.areas;
    if add_many(&mut areas) {
        Ok(areas.into_disk())
    } else {
        Err(Fail::from("append"))
    }
}

// They are longer than a block, so an opening reads a second block: a sync, two headers and two blocks.
#[test]
fn a_journal_is_read_in_blocks(rt: HostRuntime) -> Result<(), Fail> {
    let fuse = FuseDisk::new(with_many(rt.alloc())?, 5);
    let opened = opened(rt.alloc(), fuse)?;
    let last = Extent {
        place: 72_015,
        len: 1,
    };
    assert!(rt; opened.payloads.len() == 12_000);
    assert!(rt; opened.payloads.last() == Some(&last));
    assert!(rt; (opened.gate, opened.room) == (72_016, 27_984));
    Ok(())
}
