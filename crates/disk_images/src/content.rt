// The contents of a device: its bytes, and which of them a crash may change.
ghost use Rattle.std.specs.Prelude.{◌≡◌, ◌+◌, ◌<◌, ◌≤◌, ◌↔◌, ◌⊎◌, ℕ, IfOk, IsTrue, length, replicate, false, slice_index_or};
ghost use Rattle.spool_disk.specs.Disk.{overwritten, SameOutside};
ghost use Rattle.spool_disk.specs.Images.{AreBytes, AddsRange, HasNoneUnsynced};

use crate::faults::Faults;
use std::alloc::{AllocError, Global};
use std::marker::Model;

// The bytes of a device, and for each whether it was written since the last sync.
#[derive(Drop)]
pub(crate) struct Content {
    bytes: Vec<u8>,
    unsynced: Vec<bool>,
}

impl Model for Content {
    ghost use Rattle.std.specs.Prelude.{◌≡◌, length};
    ghost use Rattle.spool_disk.specs.Images.{Device, AreBytes};

    ghost Value = { Device };

    ghost view = { λ content. record { bytes = content.bytes.items; unsynced = content.unsynced.items } };

    ghost invariant = { λ content. (length content.unsynced.items ≡ length content.bytes.items) × AreBytes content.bytes.items };
}

impl Content {
    // Returns `len` zero bytes, all synced.
    pub(crate) fn new(alloc: Global, len: usize) -> Result<Content, AllocError>
        ensures bytes { IfOk result (λ content. content.bytes ≡ replicate len 0) }
        ensures synced { IfOk result (λ content. content.unsynced ≡ replicate len false) }
    {
        Ok(Content {
            bytes: vec![in alloc; 0; len]?,
            unsynced: vec![in alloc; false; len]?,
        })
    }

    // Returns the number of bytes.
    pub(crate) fn len(&self) -> usize
        ensures { result ≡ length self.now.bytes }
    {
        self.bytes.len()
    }

    // Returns the bytes.
    pub(crate) fn bytes(&self) -> &[u8]
        ensures { result.now ≡ self.now.bytes }
    {
        &self.bytes
    }

    // Overwrites bytes from offset `at` on.
    pub(crate) fn overwrite(&mut self, at: usize, from: &[u8])
        requires { at + length from.now ≤ length self.old.bytes }
        ensures bytes { self.new.bytes ≡ overwritten at from.now self.old.bytes }
        ensures unsynced { self.new.unsynced ≡ self.old.unsynced }
        ensures were_bytes { AreBytes self.old.bytes }
    {
        overwrite_in(&mut self.bytes, at, from);
    }

    // Leaves any bytes in a range, as a fault does.
    pub(crate) fn tear<F: Faults>(&mut self, at: usize, len: usize, faults: &mut F)
        requires { at + len ≤ length self.old.bytes }
        ensures bytes { SameOutside at len self.old.bytes self.new.bytes }
        ensures unsynced { self.new.unsynced ≡ self.old.unsynced }
        ensures were_bytes { AreBytes self.old.bytes }
    {
        leave_in(&mut self.bytes, at, len, faults);
    }

    // Marks a range as unsynced.
    pub(crate) fn mark(&mut self, at: usize, len: usize)
        requires { at + len ≤ length self.old.bytes }
        ensures bytes { self.new.bytes ≡ self.old.bytes }
        ensures unsynced { AddsRange at len self.old self.new }
    {
        mark_in(&mut self.unsynced, at, len);
    }

    // Marks every byte as synced.
    pub(crate) fn settle(&mut self)
        ensures bytes { self.new.bytes ≡ self.old.bytes }
        ensures unsynced { HasNoneUnsynced self.new }
    {
        self.unsynced.fill(false);
    }

    // Returns a copy.
    pub(crate) fn copy(&self) -> Result<Content, AllocError>
        ensures { IfOk result (λ content. content ≡ self.now) }
    {
        Ok(Content {
            bytes: self.bytes.clone()?,
            unsynced: self.unsynced.clone()?,
        })
    }
}

// Sets the marks of a range, and no others.
fn mark_in(unsynced: &mut [bool], at: usize, len: usize)
    requires { at + len ≤ length unsynced.old }
    ensures { (k : ℕ) → IsTrue (slice_index_or unsynced.new k false) ↔ (IsTrue (slice_index_or unsynced.old k false) ⊎ ((at ≤ k) × (k < at + len))) }
{
    unsynced[at..at + len].fill(true);
}

// Overwrites bytes from offset `at` on.
fn overwrite_in(bytes: &mut [u8], at: usize, from: &[u8])
    requires { at + length from.now ≤ length bytes.old }
    ensures written { bytes.new ≡ overwritten at from.now bytes.old }
    ensures are_bytes { AreBytes bytes.new }
{
    bytes[at..at + from.len()].copy_from_slice(from);
}

// Leaves any bytes in a range, as a fault does.
fn leave_in<F: Faults>(bytes: &mut [u8], at: usize, len: usize, faults: &mut F)
    requires { at + len ≤ length bytes.old }
    ensures stays { SameOutside at len bytes.old bytes.new }
    ensures are_bytes { AreBytes bytes.new }
{
    faults.leave(&mut bytes[at..at + len]);
}
