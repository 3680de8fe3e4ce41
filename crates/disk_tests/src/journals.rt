//! The window that reads a journal.
ghost use Rattle.gate_journal.specs.Window.{Holds};

use gate_journal::Window;
use spool_disk::{Disk, FuseDisk, MemDisk};
use std::alloc::Global;
use std::test::Fail;

// The bytes of the area after the payloads 0A 00 00 00 01 and 0F.
const TWO_ENTRIES: [u8; 20] = [
    0xA5, 0, 0, 0, 5, 0x0A, 0, 0, 0, 1, 0xA5, 0, 0, 0, 1, 0x0F, 0, 0, 0, 0,
];

// Returns whether these bytes are written at this offset.
fn writes(disk: &mut MemDisk, at: u64, bytes: &[u8]) -> bool {
    match disk.len().checked_sub(at) {
        Some(room) => bytes.len() as u64 <= room && disk.write(at, bytes).is_ok(),
        None => false,
    }
}

// Returns a disk of a block and 24 bytes, with the entries from offset 65,540 on.
fn long_disk(alloc: Global) -> Result<MemDisk, Fail> {
    let mut disk = MemDisk::new(alloc, 65_560)?;
    if writes(&mut disk, 65_540, &TWO_ENTRIES) {
        Ok(disk)
    } else {
        Err(Fail::from("write"))
    }
}

// Returns the two bytes at a place, unless the device fails.
fn two_at<D: Disk>(window: &mut Window, disk: &mut D, place: u64) -> Option<[u8; 2]>
    requires { Holds D.device disk.old window.old }
    ensures { Holds D.device disk.new window.new }
{
    let mut got = [7; 2];
    match disk.len().checked_sub(place) {
        Some(2..) if window.read(disk, place, &mut got).is_ok() => Some(got),
        _ => None,
    }
}

// One call reads 65,536 bytes. After a fault the window is empty.
#[test]
fn window_reads_a_block_in_one_call(rt: HostRuntime) -> Result<(), Fail> {
    let mut fuse = FuseDisk::new(long_disk(rt.alloc())?, 1);
    let mut window = Window::new(rt.alloc())?;
    assert!(rt; two_at(&mut window, &mut fuse, 5) == Some([0, 0]));
    assert!(rt; two_at(&mut window, &mut fuse, 65_539) == Some([0, 0xA5]));
    assert!(rt; fuse.len() == 65_560);
    assert!(rt; two_at(&mut window, &mut fuse, 65_540).is_none());
    assert!(rt; two_at(&mut window, &mut fuse, 5).is_none());
    Ok(())
}

// Returns whether a block from offset 5 on is read, and ends with these bytes.
fn reads_block<D: Disk>(window: &mut Window, disk: &mut D, block: &mut [u8], last: &[u8]) -> bool
    requires { Holds D.device disk.old window.old }
    ensures { Holds D.device disk.new window.new }
{
    match disk.len().checked_sub(5) {
        Some(room) => {
            block.len() as u64 <= room
                && window.read(disk, 5, block).is_ok()
                && block.ends_with(last)
        }
        None => false,
    }
}

// A read of a block or more takes one call each time, and does not change the window.
#[test]
fn window_passes_large_reads_on(rt: HostRuntime) -> Result<(), Fail> {
    let mut fuse = FuseDisk::new(long_disk(rt.alloc())?, 2);
    let mut block = vec![in rt.alloc(); 7; 65_536]?;
    let mut window = Window::new(rt.alloc())?;
    assert!(rt; two_at(&mut window, &mut fuse, 65_540) == Some([0xA5, 0]));
    assert!(rt; reads_block(&mut window, &mut fuse, &mut block, &[0, 0xA5]));
    assert!(rt; fuse.len() == 65_560);
    assert!(rt; two_at(&mut window, &mut fuse, 65_545) == Some([0x0A, 0]));
    Ok(())
}
