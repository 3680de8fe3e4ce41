//! Spools on disks in memory.
use spool_areas::{Areas, Opened, make};
use spool_disk::{Disk, MemDisk};
use std::alloc::Global;
use std::test::Fail;

/// Returns an empty spool of `len` bytes.
pub fn made(alloc: Global, len: usize) -> Result<MemDisk, Fail> {
    let mut disk = MemDisk::new(alloc, len)?;
    match make(&mut disk) {
        Ok(()) => Ok(disk),
        Err(fault) => Err(Fail::from(fault)),
    }
}

/// Opens a disk as a spool.
pub fn opened<D: Disk + Drop>(alloc: Global, disk: D) -> Result<Opened<D>, Fail> {
    match Areas::open(alloc, disk) {
        Ok(opened) => Ok(opened),
        Err(error) => Err(Fail::from(error.fault)),
    }
}
