//! Spools on disks in memory, with devices that fail after a number of calls.
ghost use Rattle.std.specs.Prelude.{OnOk};
ghost use Rattle.spool_core.specs.OpenSpools.{IsSettled};

use crate::spelled::events;
use spool_core::{Driven, Spool, drive, make};
use spool_disk::{FuseDisk, MemDisk};
use std::alloc::Global;
use std::test::Fail;

/// A disk that fails after a number of calls.
pub type Device = FuseDisk<MemDisk>;

/// Number of device calls that opening a new spool takes.
pub const OPENING: u64 = 4;

/// Returns a new spool of `len` bytes.
pub fn made(alloc: Global, len: usize) -> Result<MemDisk, Fail> {
    let mut disk = MemDisk::new(alloc, len)?;
    match make(&mut disk) {
        Ok(()) => Ok(disk),
        Err(fault) => Err(Fail::from(fault)),
    }
}

/// Opens a disk with a device that fails after `calls` calls.
pub fn open(alloc: Global, disk: MemDisk, calls: u64) -> Result<Spool<Device>, Fail> {
    match Spool::open(alloc, FuseDisk::new(disk, calls)) {
        Ok(spool) => Ok(spool),
        Err(error) => Err(Fail::from(error.fault)),
    }
}

/// Returns the disk of a spool.
pub fn closed(spool: Spool<Device>) -> MemDisk {
    spool.into_disk().into_disk()
}

// Returns an error if events are staged.
fn settled(spool: &Spool<Device>) -> Result<(), Fail>
    ensures { OnOk result (IsSettled spool.now) }
{
    if spool.is_settled() {
        Ok(())
    } else {
        Err(Fail::from("events are staged"))
    }
}

/// Drives events on a spool.
pub fn driven(alloc: Global, spool: &mut Spool<Device>, texts: &[&str]) -> Result<Driven, Fail> {
    settled(spool)?;
    Ok(drive(alloc, spool, events(alloc, texts)?))
}
