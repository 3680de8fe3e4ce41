// A disk that passes a number of calls to another disk, and then fails one call without effect, or each.
ghost use Rattle.std.specs.Prelude.{◌≡◌, ◌+◌, ◌-◌, ◌≤◌, ◌<◌, ◌^◌, true, false, length, OnOk, IsErr};
ghost use Rattle.spool_disk.specs.Disk.{Reads, IsSynced, IsWritten, ChangesNothing, ChangesOnly, Counts, HasCause};
ghost use Rattle.spool_disk.specs.Fuse.{disk_of, calls_left, has_blown, is_mended, is_due, fault_count, behind_fuse, IsFused};

use crate::surely::{read_surely, sync_surely, write_surely};
use crate::{DeviceFault, Disk};

/// A disk that passes its first calls of `read`, `write` and `sync` to the wrapped disk. Then it fails each such call without effect, or
/// only the next one. It represents a device that breaks, or is disconnected, at a chosen moment, for good or temporarily.
///
/// Its bytes, images and moments are those of the wrapped disk. It has a count of failures, its own and those of the wrapped disk. At the
/// greatest count, where no call may fail, it repeats the call of the wrapped disk until it succeeds.
#[derive(Drop)]
pub struct FuseDisk<D: Disk> {
    disk: D,
    left: u64,
    // Whether a call has failed because none was left.
    blown: bool,
    // Whether the calls after that one pass.
    mended: bool,
    faults: u64,
}

impl<D: Disk> FuseDisk<D> {
    /// Returns a disk that passes `calls` calls of `read`, `write` and `sync` together, and then fails each.
    pub fn new(disk: D, calls: u64) -> FuseDisk<D>
        ensures disk { disk_of result ≡ disk }
        ensures calls { calls_left result ≡ calls }
        ensures count { fault_count result ≡ 0 }
        ensures lasting { is_mended result ≡ false }
    {
        FuseDisk {
            disk,
            left: calls,
            blown: false,
            mended: false,
            faults: 0,
        }
    }

    /// Returns a disk that passes `calls` calls, fails the next one, and passes all later ones.
    pub fn once(disk: D, calls: u64) -> FuseDisk<D>
        ensures disk { disk_of result ≡ disk }
        ensures calls { calls_left result ≡ calls }
        ensures whole { has_blown result ≡ false }
        ensures count { fault_count result ≡ 0 }
        ensures mended { is_mended result ≡ true }
    {
        FuseDisk {
            disk,
            left: calls,
            blown: false,
            mended: true,
            faults: 0,
        }
    }

    /// Returns the wrapped disk.
    pub fn into_disk(self) -> D
        ensures { result ≡ disk_of self }
    {
        self.disk
    }

    // Takes one of the calls that are left. If the call is due to fail, it counts a failure.
    fn take_call(&mut self) -> Result<(), DeviceFault>
        requires { fault_count self.old < 2 ^ 64 - 1 }
        ensures passes { OnOk result (is_due self.old ≡ false) }
        ensures fails { IsErr result → is_due self.old ≡ true }
        ensures takes { calls_left self.new ≡ calls_left self.old - 1 }
        ensures mends { is_mended self.new ≡ is_mended self.old }
        ensures notes { calls_left self.old ≡ 0 → has_blown self.new ≡ true }
        ensures waits { 0 < calls_left self.old → has_blown self.new ≡ has_blown self.old }
        ensures disk { disk_of self.new ≡ disk_of self.old }
        ensures count { OnOk result (fault_count self.new ≡ fault_count self.old) }
        ensures counted { IsErr result → fault_count self.new ≡ fault_count self.old + 1 }
    {
        if self.left > 0 {
            self.left -= 1;
            return Ok(());
        }
        if self.blown && self.mended {
            return Ok(());
        }
        self.blown = true;
        self.faults += 1;
        Err(DeviceFault)
    }

    // Counts a failure of the wrapped disk.
    fn counted(&mut self, answer: Result<(), DeviceFault>) -> Result<(), DeviceFault>
        requires { fault_count self.old < 2 ^ 64 - 1 }
        ensures same { result ≡ answer }
        ensures disk { disk_of self.new ≡ disk_of self.old }
        ensures left { calls_left self.new ≡ calls_left self.old }
        ensures blown { has_blown self.new ≡ has_blown self.old }
        ensures mends { is_mended self.new ≡ is_mended self.old }
        ensures cause { Counts (fault_count self.old) (fault_count self.new) result }
    {
        if answer.is_err() {
            self.faults += 1;
        }
        answer
    }
}

impl<D: Disk> Disk for FuseDisk<D> {
    ghost device = { behind_fuse D.device };

    ghost lawful = { record {
      reads_image = λ f. D.lawful.reads_image (disk_of f);
      image_size = λ f. D.lawful.image_size (disk_of f);
      counts_now = λ f. D.lawful.counts_now (disk_of f);
      only_now = λ f. D.lawful.only_now (disk_of f);
    } };

    fn len(&self) -> u64 {
        self.disk.len()
    }

    fn faults(&self) -> u64 {
        self.faults
    }

    fn read(&mut self, at: u64, into: &mut [u8]) -> Result<(), DeviceFault>
        requires { at + length into.old ≤ D.device.size (disk_of self.old) }
        ensures data { OnOk result (Reads (D.device.bytes (disk_of self.old)) at into.new) }
        ensures same { ChangesNothing (behind_fuse D.device) self.old self.new }
        ensures cause { HasCause (behind_fuse D.device) self.old self.new result }
        ensures fuse { fault_count self.old < 2 ^ 64 - 1 → IsFused D.device self.old self.new result }
    {
        if self.faults == u64::MAX {
            read_surely(&mut self.disk, at, into);
            return Ok(());
        }
        self.take_call()?;
        let answer = self.disk.read(at, into);
        self.counted(answer)
    }

    fn write(&mut self, at: u64, from: &[u8]) -> Result<(), DeviceFault>
        requires { at + length from.now ≤ D.device.size (disk_of self.old) }
        ensures written { OnOk result (IsWritten (behind_fuse D.device) self.old self.new at from.now) }
        ensures changes { ChangesOnly (behind_fuse D.device) self.old self.new at (length from.now) }
        ensures cause { HasCause (behind_fuse D.device) self.old self.new result }
        ensures fuse { fault_count self.old < 2 ^ 64 - 1 → IsFused D.device self.old self.new result }
    {
        if self.faults == u64::MAX {
            write_surely(&mut self.disk, at, from);
            return Ok(());
        }
        self.take_call()?;
        let answer = self.disk.write(at, from);
        self.counted(answer)
    }

    fn sync(&mut self) -> Result<(), DeviceFault>
        ensures durable { OnOk result (IsSynced (behind_fuse D.device) self.new) }
        ensures same { ChangesNothing (behind_fuse D.device) self.old self.new }
        ensures cause { HasCause (behind_fuse D.device) self.old self.new result }
        ensures fuse { fault_count self.old < 2 ^ 64 - 1 → IsFused D.device self.old self.new result }
    {
        if self.faults == u64::MAX {
            sync_surely(&mut self.disk);
            return Ok(());
        }
        self.take_call()?;
        let answer = self.disk.sync();
        self.counted(answer)
    }
}
