// A disk in memory.
ghost use Rattle.std.specs.Prelude.{◌≡◌, ◌+◌, ◌≤◌, Some, length, IfOk, replicate};
ghost use Rattle.std.proofs.Common.{ap, sym};
ghost use Rattle.std.proofs.lemmas.Option.{same_Some};
ghost use Rattle.spool_disk.specs.Disk.{overwritten};
ghost use Rattle.spool_disk.specs.MemoryDisks.{mem_bytes};

use crate::{DeviceFault, Disk};
use std::alloc::{AllocError, Global};

/// A disk in memory. It never fails, and each call takes effect at once, so a crash leaves its bytes: of all disks of the trait it loses
/// least. A test writes the bytes of any other image to it.
#[derive(Drop)]
pub struct MemDisk {
    bytes: Vec<u8>,
}

impl MemDisk {
    /// Returns a disk of `len` zero bytes.
    pub fn new(alloc: Global, len: usize) -> Result<MemDisk, AllocError>
        ensures { IfOk result (λ d. mem_bytes d ≡ replicate len 0) }
    {
        Ok(MemDisk {
            bytes: vec![in alloc; 0; len]?,
        })
    }

    /// Returns its bytes.
    pub fn bytes(&self) -> &[u8]
        ensures { result.now ≡ mem_bytes self.now }
    {
        &self.bytes
    }
}

// Overwrites bytes from offset `at` on.
fn overwrite(bytes: &mut [u8], at: usize, from: &[u8])
    requires { at + length from.now ≤ length bytes.old }
    ensures { bytes.new ≡ overwritten at from.now bytes.old }
{
    bytes[at..at + from.len()].copy_from_slice(from);
}

impl Disk for MemDisk {
    ghost device = { record {
      bytes = λ d. Some (mem_bytes d);
      size = λ d. length (mem_bytes d);
      image = λ d c. c ≡ mem_bytes d;
      moment = λ d. 0;
      image_since = λ d t c. c ≡ mem_bytes d;
      failures = λ d. 0;
    } };

    ghost lawful = { record {
      reads_image = λ d r tells. sym (same_Some (mem_bytes d) r tells);
      image_size = λ d c is. ap length is;
      counts_now = λ d t c le now. now;
      only_now = λ d c left. left;
    } };

    fn len(&self) -> u64 {
        self.bytes.len() as u64
    }

    fn faults(&self) -> u64 {
        0
    }

    fn read(&mut self, at: u64, into: &mut [u8]) -> Result<(), DeviceFault> {
        let at = at as usize;
        into.copy_from_slice(&self.bytes[at..at + into.len()]);
        Ok(())
    }

    #[tactic(auto, using(crate::proofs::Writes::overwrites))]
    fn write(&mut self, at: u64, from: &[u8]) -> Result<(), DeviceFault> {
        overwrite(&mut self.bytes, at as usize, from);
        Ok(())
    }

    fn sync(&mut self) -> Result<(), DeviceFault> {
        Ok(())
    }
}
