//! Disks in memory and in a file, and their failures.

use spool_disk::{DeviceFault, Disk, FileDisk, FuseDisk, MemDisk};
use std::fs;
use std::fs::File;
use std::test::Fail;

// Reads three bytes from offset 1 on. Returns the result and the bytes.
fn read_three<D: Disk>(disk: &mut D) -> (Result<(), DeviceFault>, [u8; 3]) {
    let mut got = [9; 3];
    if disk.len() != 4 {
        return (Err(DeviceFault), got);
    }
    let read = disk.read(1, &mut got);
    (read, got)
}

// Returns whether these bytes are written at this offset.
fn writes<D: Disk>(disk: &mut D, at: u64, bytes: &[u8]) -> bool {
    match disk.len().checked_sub(at) {
        Some(room) => bytes.len() as u64 <= room && disk.write(at, bytes).is_ok(),
        None => false,
    }
}

fn holds<D: Disk>(disk: &mut D) -> bool {
    writes(disk, 1, &[7, 8]) && disk.sync().is_ok() && read_three(disk) == (Ok(()), [7, 8, 0])
}

// Returns whether each call fails.
fn fails<D: Disk>(disk: &mut D) -> bool {
    !writes(disk, 1, &[9]) && disk.sync().is_err() && read_three(disk).0 == Err(DeviceFault)
}

// The disk contains the bytes that were written.
#[test]
fn fuse_passes_three_calls(rt: HostRuntime) -> Result<(), Fail> {
    let mut disk = FuseDisk::new(MemDisk::new(rt.alloc(), 4)?, 3);
    assert!(rt; holds(&mut disk));
    assert!(rt; fails(&mut disk));
    assert!(rt; (disk.len(), disk.faults()) == (4, 3));
    assert!(rt; disk.into_disk().bytes() == [0, 7, 8, 0].as_slice());
    Ok(())
}

// The fourth call has no effect. Later calls take effect.
#[test]
fn the_fourth_call_fails(rt: HostRuntime) -> Result<(), Fail> {
    let mut disk = FuseDisk::once(MemDisk::new(rt.alloc(), 4)?, 3);
    assert!(rt; holds(&mut disk));
    assert!(rt; !writes(&mut disk, 0, &[1]));
    assert!(rt; writes(&mut disk, 3, &[5]) && disk.sync().is_ok());
    assert!(rt; read_three(&mut disk) == (Ok(()), [7, 8, 5]));
    assert!(rt; (disk.len(), disk.faults()) == (4, 1));
    assert!(rt; disk.into_disk().bytes() == [0, 7, 8, 5].as_slice());
    Ok(())
}

const NAME: &str = "disk_tests.disk";

// Returns a file of four bytes.
fn file(rt: &HostRuntime) -> Result<FileDisk, Fail> {
    let file = File::options()
        .read(true)
        .write(true)
        .create(true)
        .truncate(true)
        .open(rt, NAME)?;
    file.set_len(4)?;
    Ok(FileDisk::new(file)?)
}

// Returns the same file opened read-only. It is truncated after that.
fn cut_file(rt: &HostRuntime) -> Result<FileDisk, Fail> {
    let disk = FileDisk::new(File::open(rt, NAME)?)?;
    let file = File::options().write(true).open(rt, NAME)?;
    file.set_len(2)?;
    Ok(disk)
}

// The file contains the bytes that were written. Then it is truncated and cannot be written.
#[test]
fn file_holds_what_was_written(rt: HostRuntime) -> Result<(), Fail> {
    let mut disk = file(&rt)?;
    assert!(rt; holds(&mut disk));
    assert!(rt; (disk.len(), disk.faults()) == (4, 0));
    drop(disk);
    let mut disk = cut_file(&rt)?;
    assert!(rt; !writes(&mut disk, 0, &[7]));
    assert!(rt; read_three(&mut disk).0 == Err(DeviceFault));
    assert!(rt; (disk.len(), disk.faults()) == (4, 2));
    drop(disk);
    fs::remove_file(&rt, NAME)?;
    Ok(())
}
