//! Making a device a spool.
use spool_areas::{MakeFault, make};
use spool_disk::{Disk, FuseDisk, MemDisk};
use std::alloc::{AllocError, Global};
use std::test::Fail;

// Makes a device that fails after `calls` calls a spool. Returns the result, and whether the device has failed afterwards.
fn made_after(alloc: Global, calls: u64) -> Result<(Result<(), MakeFault>, bool), AllocError> {
    let mut fuse = FuseDisk::new(MemDisk::new(alloc, 46)?, calls);
    let made = make(&mut fuse);
    Ok((made, fuse.sync().is_err()))
}

// Each of its eight device calls may fail.
#[test]
fn a_spool_is_made_in_eight_calls(rt: HostRuntime) -> Result<(), Fail> {
    for calls in 0..8 {
        assert!(rt; made_after(rt.alloc(), calls)?.0 == Err(MakeFault::Disk));
    }
    assert!(rt; made_after(rt.alloc(), 8)? == (Ok(()), true));
    Ok(())
}
