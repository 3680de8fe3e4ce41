//! The images of a disk after a failed call.
use disk_images::{Faults, ImageDisk};
use spool_disk::{DeviceFault, Disk};
use std::test::Fail;

// Passes `passed` calls, fails the next one, and passes all later ones. A failed write leaves EE.
#[derive(Drop)]
struct FailsOnce {
    passed: u64,
}

impl Faults for FailsOnce {
    fn strikes(&mut self) -> bool {
        let strikes = self.passed == 0;
        self.passed = if strikes { u64::MAX } else { self.passed - 1 };
        strikes
    }

    fn leave(&mut self, range: &mut [u8]) {
        range.fill(0xEE);
    }
}

// Returns the length of a disk in bytes, and the number of its failed calls.
fn sizes(disk: &ImageDisk<FailsOnce>) -> (u64, u64) {
    (disk.len(), disk.faults())
}

// Writes two bytes at an offset.
fn write(disk: &mut ImageDisk<FailsOnce>, at: u64, bytes: &[u8; 2]) -> Result<(), DeviceFault> {
    match disk.len().checked_sub(at) {
        Some(2..) => disk.write(at, bytes),
        _ => Err(DeviceFault),
    }
}

// Returns whether the disk has these four bytes.
fn has(disk: &mut ImageDisk<FailsOnce>, bytes: &[u8; 4]) -> bool {
    let mut got = [0; 4];
    4 <= disk.len() && disk.read(0, &mut got).is_ok() && &got == bytes
}

// The disk contains the bytes that were written. A failed write leaves any bytes.
#[test]
fn write_that_fails_leaves_any_bytes(rt: HostRuntime) -> Result<(), Fail> {
    let mut disk = ImageDisk::new(rt.alloc(), 4, FailsOnce { passed: 2 })?;
    assert!(rt; sizes(&disk) == (4, 0));
    assert!(rt; write(&mut disk, 1, &[7, 8]) == Ok(()));
    assert!(rt; disk.sync() == Ok(()));
    assert!(rt; write(&mut disk, 2, &[9, 9]) == Err(DeviceFault));
    assert!(rt; sizes(&disk) == (4, 1));
    assert!(rt; has(&mut disk, &[0, 7, 0xEE, 0xEE]));
    Ok(())
}
