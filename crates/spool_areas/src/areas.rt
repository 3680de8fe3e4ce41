//! The areas of an opened spool.
ghost use Rattle.std.specs.Prelude.{◌≡◌, ◌≢◌, ◌<◌, ◌≤◌, ◌+◌, ◌-◌, ◌^◌, ◌↔◌, ◌⊎◌, [], List, ℕ, false, None, length, Err, OnOk, OnErr, IsErrOf, IsTrue};
ghost use Rattle.spool_disk.specs.Disk.{Blames, Reads, IsSynced, ChangesNothing, ChangesOnly};
ghost use Rattle.gate_journal.specs.Appends.{kept_room};
ghost use Rattle.gate_journal.specs.Window.{Holds};
ghost use Rattle.spool_areas.specs.Header.{header_len, IsVersion};
ghost use Rattle.spool_areas.specs.AreaFields.{IsArea};
ghost use Rattle.spool_areas.specs.AreaAppends.{AreaAppends};
ghost use Rattle.spool_areas.specs.AreaStages.{KeepsStagedPayloads, AreaStages, AreaSettles, AreSettled};
ghost use Rattle.spool_areas.specs.Current.{KeepsPayloads};
ghost use Rattle.spool_areas.specs.Checkpoint.{plan_of};

use crate::fault::{AreaFault, ReadFault};
use crate::header::{HEADER_LEN, LAST_EPOCH};
use crate::room::have_room;
use gate_journal::{Journal, JournalFault, Window};
use spool_disk::Disk;
use std::marker::Model;

mod steps;

/// The areas of a spool's device, opened at the current one. It owns the disk.
#[derive(Drop)]
pub struct Areas<D: Disk> {
    disk: D,
    base: u64,
    // The number of bytes of each area.
    len: u64,
    epoch: u64,
    version: u8,
    journal: Journal,
    dead: bool,
    // The bytes that were read last. Each call that may write clears it first.
    window: Window,
}

impl<D: Disk> Model for Areas<D> {
    ghost use Rattle.spool_areas.specs.Current.{Current};

    ghost Value = { Current D };

    ghost use Rattle.spool_areas.specs.AreaFields.{current_of, IsInside};

    ghost view = { current_of };

    ghost invariant = { IsInside D.device };
}

impl<D: Disk> Areas<D> {
    /// Returns the areas of a disk whose current area is from `base` to `end` and has this epoch and version, with the
    /// gate after its records at `gate`. The window is on this disk. It calls no device.
    pub(crate) fn resume(
        disk: D,
        window: Window,
        base: u64,
        end: u64,
        epoch: u64,
        version: u8,
        gate: u64,
    ) -> Areas<D>
        requires held { Holds D.device disk window }
        requires area { IsArea base end (D.device.size disk) }
        requires known { IsVersion version }
        requires header { base + header_len ≤ gate }
        requires inside { gate < end }
        ensures { result ≡ record { disk = disk; base = base; end = end; epoch = epoch; version = version; gate = gate; held = None; dead = false } }
    {
        let first = base + HEADER_LEN;
        Areas {
            disk,
            base,
            len: end - base,
            epoch,
            version,
            journal: Journal::resume(first, end - first, gate),
            dead: false,
            window,
        }
    }

    /// Adds the payload of a frame to the current area, and returns the payload's place on the device. Nothing may be
    /// staged, unless the device has failed.
    ///
    /// A frame is four free bytes, the payload, which may be empty, and one free byte. The call fails with `Full`
    /// exactly if the record and the 7 bytes reserved after it, room for one record of one byte and its next gate,
    /// would exceed the area.
    pub fn append(&mut self, frame: &mut [u8]) -> Result<u64, JournalFault>
        requires none { AreSettled self.old }
        requires whole { 5 ≤ length frame.old }
        requires short { length frame.old < 2 ^ 32 }
        ensures { AreaAppends D.device kept_room self.old self.new frame.old frame.new result }
    {
        if self.dead {
            return Err(JournalFault::Dead);
        }
        self.window.clear();
        let added = self.journal.append(&mut self.disk, frame);
        self.dead = added == Err(JournalFault::Disk);
        added
    }

    /// Does the same, using the room that `append` reserves. It fails with `Full` exactly if the record and its next
    /// gate would exceed the area.
    pub fn append_kept(&mut self, frame: &mut [u8]) -> Result<u64, JournalFault>
        requires none { AreSettled self.old }
        requires whole { 5 ≤ length frame.old }
        requires short { length frame.old < 2 ^ 32 }
        ensures { AreaAppends D.device 1 self.old self.new frame.old frame.new result }
    {
        if self.dead {
            return Err(JournalFault::Dead);
        }
        self.window.clear();
        let added = self.journal.append_kept(&mut self.disk, frame);
        self.dead = added == Err(JournalFault::Disk);
        added
    }

    /// Stages the payload of a frame: writes its record after the records of the current area, without a sync. No image
    /// has it before `settle`. Frames, the place that it returns, `Full` and `Dead` are as in `append`.
    pub fn stage(&mut self, frame: &mut [u8]) -> Result<u64, JournalFault>
        requires whole { 5 ≤ length frame.old }
        requires short { length frame.old < 2 ^ 32 }
        ensures { AreaStages D.device kept_room self.old self.new frame.old frame.new result }
    {
        if self.dead {
            return Err(JournalFault::Dead);
        }
        self.window.clear();
        let staged = self.journal.stage(&mut self.disk, frame);
        self.dead = staged == Err(JournalFault::Disk);
        staged
    }

    /// Makes all staged payloads durable together, with two syncs. If nothing is staged, it calls no device.
    pub fn settle(&mut self) -> Result<(), JournalFault>
        ensures { AreaSettles D.device self.old self.new result }
    {
        if self.dead {
            return Err(JournalFault::Dead);
        }
        self.window.clear();
        match self.journal.settle(&mut self.disk) {
            Ok(()) => Ok(()),
            Err(fault) => {
                self.dead = fault == JournalFault::Disk;
                Err(fault)
            }
        }
    }

    /// Returns whether nothing is staged or the device has failed.
    pub fn is_settled(&self) -> bool
        ensures { IsTrue result ↔ AreSettled self.now }
    {
        self.dead || self.journal.is_settled()
    }

    /// Returns the first gate of the other area, so that the places of rows with payloads of these lengths are known
    /// before the rows are written. If they cannot be written, returns the error. It calls no device.
    pub fn plan(&self, lengths: &[u64]) -> Result<u64, AreaFault>
        ensures { result ≡ plan_of self.now lengths.now }
    {
        let first = self.other_gate()?;
        if have_room(first - HEADER_LEN + self.len, first, lengths) {
            Ok(first)
        } else {
            Err(AreaFault::Full)
        }
    }

    // Returns the first gate of the other area.
    fn other_gate(&self) -> Result<u64, AreaFault>
        ensures { result ≡ plan_of self.now [] }
    {
        if self.dead {
            return Err(AreaFault::Dead);
        }
        if self.epoch == LAST_EPOCH {
            return Err(AreaFault::EpochEnd);
        }
        if self.base == 0 {
            Ok(self.len + HEADER_LEN)
        } else {
            Ok(HEADER_LEN)
        }
    }

    /// Reads bytes of the current area after its header. Consecutive small reads use one block in memory.
    pub fn read_extent(&mut self, place: u64, into: &mut [u8]) -> Result<(), ReadFault>
        requires behind { self.old.base + header_len ≤ place }
        requires inside { place + length into.old ≤ self.old.end }

        ensures dead { IsErrOf result ReadFault.Dead ↔ IsTrue self.old.dead }
        ensures data { OnOk result (Reads (D.device.bytes self.old.disk) place into.new) }
        ensures blames { Blames (D.device.failures self.old.disk) (D.device.failures self.new.disk) (IsErrOf result ReadFault.Disk) }
        ensures dies { IsTrue self.new.dead ↔ (IsTrue self.old.dead ⊎ IsErrOf result ReadFault.Disk) }
        ensures untouched { IsErrOf result ReadFault.Dead → self.new ≡ self.old }
        ensures same { (self.new.base ≡ self.old.base) × (self.new.end ≡ self.old.end) × (self.new.epoch ≡ self.old.epoch) × (self.new.gate ≡ self.old.gate) × (self.new.version ≡ self.old.version) }
        ensures held { self.new.held ≡ self.old.held }
        ensures still { ChangesNothing D.device self.old.disk self.new.disk }
        ensures keeps { (payloads : List (List ℕ)) → KeepsPayloads D.device self.old payloads → KeepsPayloads D.device self.new payloads }
        ensures staged { (payloads staged : List (List ℕ)) → KeepsStagedPayloads D.device self.old payloads staged → KeepsStagedPayloads D.device self.new payloads staged }
    {
        if self.dead {
            return Err(ReadFault::Dead);
        }
        match self.window.read(&mut self.disk, place, into) {
            Ok(()) => Ok(()),
            Err(_) => {
                self.dead = true;
                Err(ReadFault::Disk)
            }
        }
    }

    /// Returns the version of the current area, 1 or 2: that of its header when it was opened, and 2 after a checkpoint
    /// returned `Ok`.
    pub fn version(&self) -> u8
        ensures value { result ≡ self.now.version }
        ensures known { IsVersion result }
    {
        self.version
    }

    /// Returns the place where the current area begins.
    pub fn base(&self) -> u64
        ensures { result ≡ self.now.base }
    {
        self.base
    }

    /// Returns the epoch of the current area.
    pub fn epoch(&self) -> u64
        ensures { result ≡ self.now.epoch }
    {
        self.epoch
    }

    /// Returns the number of bytes of the current area after its records.
    pub fn room(&self) -> u64
        ensures { result ≡ self.now.end - self.now.gate }
    {
        self.journal.room()
    }

    /// Returns whether a call failed because of the device.
    pub fn is_dead(&self) -> bool
        ensures { result ≡ self.now.dead }
    {
        self.dead
    }

    /// Returns the disk.
    pub fn into_disk(self) -> D
        ensures { result ≡ self.disk }
    {
        self.disk
    }
}
