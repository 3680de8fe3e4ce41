// Reads a disk in blocks.
ghost use Rattle.std.specs.Prelude.{◌≡◌, ◌↔◌, ◌+◌, ◌-◌, ◌≤◌, ℕ, [], length, take, drop, IfOk, OnOk, IsTrue};
ghost use Rattle.spool_disk.specs.Disk.{Reads, ChangesNothing, HasCause};
ghost use Rattle.gate_journal.specs.Window.{block_len, Holds};

use spool_disk::{DeviceFault, Disk};
use std::alloc::{AllocError, Global};
use std::marker::Model;

// The number of bytes that are read at a time.
const BLOCK_LEN: usize = 65_536;

/// Bytes of a disk that were read together, so that a small read among them calls no device. It does not hold the disk, which each call
/// takes as an argument. A caller that writes to the disk clears the window first.
#[derive(Drop)]
pub struct Window {
    start: u64,
    // The number of bytes at the start of the block that were read.
    len: usize,
    block: Vec<u8>,
}

impl Model for Window {
    ghost use Rattle.gate_journal.specs.Window.{Stretch, block_len};
    ghost use Rattle.std.specs.Prelude.{◌≡◌, ◌≤◌, take, length};

    ghost Value = { Stretch };

    ghost view = { λ w. record { start = w.start; bytes = take w.len w.block.items } };

    ghost invariant = { λ w. (w.len ≤ block_len) × (length w.block.items ≡ block_len) };
}

impl Window {
    /// Returns a window without bytes. It allocates a block here, and nothing later.
    pub fn new(alloc: Global) -> Result<Window, AllocError>
        ensures { IfOk result (λ w. w.bytes ≡ []) }
    {
        Ok(Window {
            start: 0,
            len: 0,
            block: vec![in alloc; 0; BLOCK_LEN]?,
        })
    }

    /// Discards its bytes.
    pub fn clear(&mut self)
        ensures { self.new.bytes ≡ [] }
    {
        self.len = 0;
    }

    /// Reads the bytes from offset `place` on, as `Disk::read` does. If the window does not have all of them, it is filled from that offset
    /// on, with a block or with the rest of the disk. A read of a block or more bypasses it.
    pub fn read<D: Disk>(
        &mut self,
        disk: &mut D,
        place: u64,
        into: &mut [u8],
    ) -> Result<(), DeviceFault>
        requires held { Holds D.device disk.old self.old }
        requires within { place + length into.old ≤ D.device.size disk.old }
        ensures data { OnOk result (Reads (D.device.bytes disk.old) place into.new) }
        ensures held { Holds D.device disk.new self.new }
        ensures same { ChangesNothing D.device disk.old disk.new }
        ensures cause { HasCause D.device disk.old disk.new result }
    {
        if into.len() >= BLOCK_LEN {
            return disk.read(place, into);
        }
        self.reach(disk, place, into.len())?;
        self.copy(place, into);
        Ok(())
    }

    // Ensures that it has `len` bytes from offset `place` on.
    fn reach<D: Disk>(&mut self, disk: &mut D, place: u64, len: usize) -> Result<(), DeviceFault>
        requires held { Holds D.device disk.old self.old }
        requires within { place + len ≤ D.device.size disk.old }
        requires short { len ≤ block_len }
        ensures behind { OnOk result (self.new.start ≤ place) }
        ensures reaches { OnOk result (place - self.new.start + len ≤ length self.new.bytes) }
        ensures held { Holds D.device disk.new self.new }
        ensures same { ChangesNothing D.device disk.old disk.new }
        ensures cause { HasCause D.device disk.old disk.new result }
    {
        if self.has(place, len) {
            return Ok(());
        }
        self.fill(disk, place)
    }

    // Returns whether it has `len` bytes from offset `place` on.
    fn has(&self, place: u64, len: usize) -> bool
        ensures { IsTrue result ↔ ((self.now.start ≤ place) × (place - self.now.start + len ≤ length self.now.bytes)) }
    {
        if place < self.start || place - self.start > self.len as u64 {
            return false;
        }
        len <= self.len - (place - self.start) as usize
    }

    // Reads from the disk again, from offset `place` on.
    fn fill<D: Disk>(&mut self, disk: &mut D, place: u64) -> Result<(), DeviceFault>
        requires within { place ≤ D.device.size disk.old }
        ensures start { OnOk result (self.new.start ≡ place) }
        ensures full { OnOk result ((n : ℕ) → n ≤ block_len → place + n ≤ D.device.size disk.old → n ≤ length self.new.bytes) }
        ensures held { Holds D.device disk.new self.new }
        ensures same { ChangesNothing D.device disk.old disk.new }
        ensures cause { HasCause D.device disk.old disk.new result }
    {
        self.clear();
        let left = disk.len() - place;
        let len = left.min(BLOCK_LEN as u64) as usize;
        read_front(disk, place, &mut self.block, len)?;
        self.start = place;
        self.len = len;
        Ok(())
    }

    // Copies bytes that it has.
    fn copy(&self, place: u64, into: &mut [u8])
        requires behind { self.now.start ≤ place }
        requires within { place - self.now.start + length into.old ≤ length self.now.bytes }
        ensures { into.new ≡ take (length into.old) (drop (place - self.now.start) self.now.bytes) }
    {
        let at = (place - self.start) as usize;
        into.copy_from_slice(&self.block[at..at + into.len()]);
    }
}

// Reads into the first `len` bytes of a block.
fn read_front<D: Disk>(
    disk: &mut D,
    place: u64,
    block: &mut [u8],
    len: usize,
) -> Result<(), DeviceFault>
    requires within { place + len ≤ D.device.size disk.old }
    requires room { len ≤ length block.old }
    ensures data { OnOk result (Reads (D.device.bytes disk.new) place (take len block.new)) }
    ensures long { length block.new ≡ length block.old }
    ensures same { ChangesNothing D.device disk.old disk.new }
    ensures cause { HasCause D.device disk.old disk.new result }
{
    disk.read(place, &mut block[..len])
}
