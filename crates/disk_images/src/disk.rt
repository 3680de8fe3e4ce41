// The disk with exactly the images of the definition.
ghost use Rattle.std.specs.Prelude.{◌≡◌, ◌+◌, ◌≤◌, ◌⊎◌, ◌∷◌, [], ◌++◌, ◌<◌, ◌-◌, ◌^◌, Some, false, IfOk, IsErr, OnOk, OnErr, IsTrue, length, replicate};
ghost use Rattle.std.proofs.Common.{subst};
ghost use Rattle.std.proofs.lemmas.Option.{same_Some};
ghost use Rattle.spool_disk.specs.Disk.{Reads, IsSynced, IsWritten, ChangesNothing, ChangesOnly, Counts, HasCause};
ghost use Rattle.spool_disk.specs.Images.{AddsRange, HasNoneUnsynced, IsImage};
ghost use Rattle.disk_images.specs.ImageLaws.{what_is_read, counts_now, only_now};
ghost use Rattle.disk_images.specs.KeptImages.{device_of, past_of, moment_of, failure_count, exact_images, AddsImages};

use crate::content::Content;
use crate::faults::Faults;
use spool_disk::{DeviceFault, Disk};
use std::alloc::{AllocError, Global};

/// A disk that has exactly the images of the definition, and fails if its faults strike.
///
/// A moment ends with each sync that returns Ok: the disk stores its contents of that moment, with the unsynced offsets, in its past.
/// Between two syncs images are only added, so those at the end of a moment are all images of that moment.
#[derive(Drop)]
pub struct ImageDisk<F: Faults> {
    now: Content,
    past: Vec<Content>,
    failures: u64,
    faults: F,
}

impl<F: Faults> ImageDisk<F> {
    /// Returns a disk of `len` zero bytes, all synced, without a past.
    pub fn new(alloc: Global, len: usize, faults: F) -> Result<ImageDisk<F>, AllocError>
    where
        F: Drop,
        ensures bytes { IfOk result (λ d. (device_of d).bytes ≡ replicate len 0) }
        ensures synced { IfOk result (λ d. HasNoneUnsynced (device_of d)) }
        ensures first { IfOk result (λ d. moment_of d ≡ 0) }
        ensures count { IfOk result (λ d. failure_count d ≡ 0) }
    {
        Ok(ImageDisk {
            now: Content::new(alloc, len)?,
            past: Vec::new(alloc),
            failures: 0,
            faults,
        })
    }

    // Returns whether the device fails at this call, which is then counted. At the greatest count no call fails.
    fn strikes(&mut self) -> bool
        ensures now { self.new.now ≡ self.old.now }
        ensures past { self.new.past ≡ self.old.past }
        ensures counted { IsTrue result → self.new.failures ≡ self.old.failures + 1 }
        ensures fits { IsTrue result → self.new.failures < 2 ^ 64 }
        ensures same { result ≡ false → self.new.failures ≡ self.old.failures }
    {
        if self.failures == u64::MAX || !self.faults.strikes() {
            return false;
        }
        self.failures += 1;
        true
    }

    // Stores the current contents as a past moment.
    fn keep_moment(&mut self) -> Result<(), AllocError>
        ensures now { self.new.now ≡ self.old.now }
        ensures count { self.new.failures ≡ self.old.failures }
        ensures kept { OnOk result (self.new.past.items ≡ self.old.past.items ++ self.old.now ∷ []) }
        ensures left_out { OnErr result (self.new.past.items ≡ self.old.past.items) }
    {
        let moment = self.now.copy()?;
        self.past.push(moment)?;
        Ok(())
    }

    // Stores this moment, or counts a failure if memory runs out. At the greatest count, when no call may fail, a moment without memory is
    // left out.
    fn end_moment(&mut self) -> Result<(), DeviceFault>
        ensures now { self.new.now ≡ self.old.now }
        ensures past { (self.new.past.items ≡ self.old.past.items ++ self.old.now ∷ []) ⊎ (self.new.past.items ≡ self.old.past.items) }
        ensures kept { OnOk result (self.old.failures < 2 ^ 64 - 1 → self.new.past.items ≡ self.old.past.items ++ self.old.now ∷ []) }
        ensures left_out { OnErr result (self.new.past.items ≡ self.old.past.items) }
        ensures cause { Counts self.old.failures self.new.failures result }
    {
        match self.keep_moment() {
            Ok(()) => Ok(()),
            Err(_) => {
                if self.failures == u64::MAX {
                    return Ok(());
                }
                self.failures += 1;
                Err(DeviceFault)
            }
        }
    }
}

impl<F: Faults> Disk for ImageDisk<F> {
    ghost device = { exact_images };

    ghost lawful = { record {
      reads_image = λ d r tells. subst (IsImage (device_of d)) (same_Some (device_of d).bytes r tells) (what_is_read (device_of d));
      image_size = λ d c is. is.size;
      counts_now = λ d. counts_now (past_of d) (device_of d);
      only_now = λ d. only_now (past_of d) (device_of d);
    } };

    fn len(&self) -> u64 {
        self.now.len() as u64
    }

    fn faults(&self) -> u64 {
        self.failures
    }

    fn read(&mut self, at: u64, into: &mut [u8]) -> Result<(), DeviceFault>
        requires { at + length into.old ≤ length (device_of self.old).bytes }
        ensures data { OnOk result (Reads (Some (device_of self.old).bytes) at into.new) }
        ensures same { ChangesNothing exact_images self.old self.new }
        ensures cause { HasCause exact_images self.old self.new result }

        // Exactly as defined: the device is unchanged.
        ensures still { device_of self.new ≡ device_of self.old }
        ensures since { AddsImages self.old self.new }
    {
        if self.strikes() {
            self.faults.leave(into);
            return Err(DeviceFault);
        }
        let at = at as usize;
        into.copy_from_slice(&self.now.bytes()[at..at + into.len()]);
        Ok(())
    }

    fn write(&mut self, at: u64, from: &[u8]) -> Result<(), DeviceFault>
        requires { at + length from.now ≤ length (device_of self.old).bytes }
        ensures written { OnOk result (IsWritten exact_images self.old self.new at from.now) }
        ensures changes { ChangesOnly exact_images self.old self.new at (length from.now) }
        ensures cause { HasCause exact_images self.old self.new result }

        // Exactly as defined: the range is unsynced, after a fault too.
        ensures unsynced { AddsRange at (length from.now) (device_of self.old) (device_of self.new) }
        ensures since { AddsImages self.old self.new }
    {
        let at = at as usize;
        self.now.mark(at, from.len());
        if self.strikes() {
            self.now.tear(at, from.len(), &mut self.faults);
            return Err(DeviceFault);
        }
        self.now.overwrite(at, from);
        Ok(())
    }

    fn sync(&mut self) -> Result<(), DeviceFault>
        ensures durable { OnOk result (IsSynced exact_images self.new) }
        ensures same { ChangesNothing exact_images self.old self.new }
        ensures cause { HasCause exact_images self.old self.new result }

        // Exactly as defined: nothing is unsynced, or the device is unchanged. Only at the greatest count of failures, when no call may
        // fail, a moment for which memory runs out is not stored.
        ensures synced { OnOk result (HasNoneUnsynced (device_of self.new)) }
        ensures still { OnErr result (device_of self.new ≡ device_of self.old) }
        ensures since { failure_count self.old < 2 ^ 64 - 1 → AddsImages self.old self.new }
    {
        if self.strikes() {
            return Err(DeviceFault);
        }
        self.end_moment()?;
        self.now.settle();
        Ok(())
    }
}
