// The journal of one area.
ghost use Rattle.std.specs.Prelude.{◌≡◌, ◌↔◌, ◌<◌, ◌≤◌, ◌+◌, ◌-◌, ◌^◌, [], ◌∷◌, false, None, length, OnOk, IfOk, IsSome, IsTrue};
ghost use Rattle.spool_disk.specs.Disk.{IsSynced, IsWritten, ChangesOnly, HasCause};
ghost use Rattle.gate_journal.specs.Entries.{KeepsEntries};
ghost use Rattle.gate_journal.specs.Appends.{kept_room};
ghost use Rattle.gate_journal.specs.Staged.{gate_of, IsBefore};

use crate::add::{open, put};
use crate::layout::{HEAD_LEN, KEPT_ROOM};
use spool_disk::{DeviceFault, Disk, persist};

/// The reason why it is not certain that a record was added.
#[derive(Clone, Copy, PartialEq, Eq)]
pub enum JournalFault {
    /// The record does not fit. Nothing has changed.
    Full,
    /// The device failed. The record may be on it or not, and the journal is dead from now on.
    Disk,
    /// An earlier call met `Disk`. Nothing has changed.
    Dead,
}

/// The offsets of a journal on a disk, of its next record, and of the closed gate in front of the staged records. It does not hold the
/// disk, which each call takes as an argument.
#[derive(Drop)]
pub struct Journal {
    base: u64,
    end: u64,
    place: u64,
    held: Option<u64>,
    dead: bool,
    ghost in_area: { place < end },
    ghost behind: { IsBefore held place },
}

impl Journal {
    ghost use Rattle.gate_journal.specs.Journal.{state_of, base_of, end_of, place_of, held_of, is_dead};
    ghost use Rattle.gate_journal.specs.Appends.{Appends};
    ghost use Rattle.gate_journal.specs.Stages.{Stages, Settles};

    /// Begins a journal without entries in the `len` bytes from `base` on: it writes the first closed gate and syncs. The bytes after that
    /// gate are unchanged. An area of at least 7 bytes has room for one record of one byte.
    pub fn begin<D: Disk>(disk: &mut D, base: u64, len: u64) -> Result<Journal, DeviceFault>
        requires len { kept_room ≤ len }
        requires within { base + len ≤ D.device.size disk.old }
        requires fits { base + len < 2 ^ 64 }
        ensures journal { IfOk result (λ j. (base_of j ≡ base) × (end_of j ≡ base + len) × (place_of j ≡ base) × (held_of j ≡ None) × (is_dead j ≡ false)) }
        ensures written { OnOk result (IsWritten D.device disk.old disk.new base (0 ∷ [])) }
        ensures none { OnOk result (IsSome (D.device.bytes disk.old) → KeepsEntries D.device disk.new base base []) }
        ensures durable { OnOk result (IsSynced D.device disk.new) }
        ensures changes { ChangesOnly D.device disk.old disk.new base 1 }
        ensures cause { HasCause D.device disk.old disk.new result }
    {
        persist(disk, base, &[0])?;
        Ok(Journal {
            base,
            end: base + len,
            place: base,
            held: None,
            dead: false,
        })
    }

    /// Returns the journal in the `len` bytes from `base` on with its closed gate at `place`, where `next_entry` found it. It calls no
    /// device, so the entries and the images are unchanged.
    pub fn resume(base: u64, len: u64, place: u64) -> Journal
        requires fits { base + len < 2 ^ 64 }
        requires within { place < base + len }
        ensures base { base_of result ≡ base }
        ensures end { end_of result ≡ base + len }
        ensures place { place_of result ≡ place }
        ensures held { held_of result ≡ None }
        ensures alive { is_dead result ≡ false }
    {
        Journal {
            base,
            end: base + len,
            place,
            held: None,
            dead: false,
        }
    }

    /// Returns the number of bytes from the offset of the next record to the end.
    pub fn room(&self) -> u64
        ensures { result ≡ end_of self.now - place_of self.now }
    {
        self.end - self.place
    }

    /// Returns whether nothing is staged.
    pub fn is_settled(&self) -> bool
        ensures { IsTrue result ↔ (held_of self.now ≡ None) }
    {
        self.held.is_none()
    }

    /// Adds the payload of a frame, and returns the payload's offset on the disk. Nothing may be staged.
    ///
    /// A frame is four free bytes, the payload, which may be empty, and one free byte. The call fills in the length and the closed next
    /// gate, and writes the frame after the closed gate. Then it syncs, opens the gate, and syncs again. It returns `Full` exactly if the
    /// record and the 7 bytes reserved after it, room for one record of one byte and its next gate, would extend beyond the area. After
    /// `Disk` every append returns `Dead`.
    pub fn append<D: Disk>(&mut self, disk: &mut D, frame: &mut [u8]) -> Result<u64, JournalFault>
        requires none { held_of self.old ≡ None }
        requires whole { 5 ≤ length frame.old }
        requires short { length frame.old < 2 ^ 32 }
        requires within { end_of self.old ≤ D.device.size disk.old }
        ensures { Appends D.device kept_room (state_of self.old) (state_of self.new) disk.old disk.new frame.old frame.new result }
    {
        self.append_with(disk, frame, KEPT_ROOM)
    }

    /// Does the same as `append`, but may use the room that `append` reserves: it returns `Full` exactly if the record and its next gate
    /// would extend beyond the area.
    pub fn append_kept<D: Disk>(
        &mut self,
        disk: &mut D,
        frame: &mut [u8],
    ) -> Result<u64, JournalFault>
        requires none { held_of self.old ≡ None }
        requires whole { 5 ≤ length frame.old }
        requires short { length frame.old < 2 ^ 32 }
        requires within { end_of self.old ≤ D.device.size disk.old }
        ensures { Appends D.device 1 (state_of self.old) (state_of self.new) disk.old disk.new frame.old frame.new result }
    {
        self.append_with(disk, frame, 1)
    }

    /// Stages the payload of a frame: writes its record after the records that are staged already, without a sync. No image has the entry
    /// before `settle`. Frames, the offset that it returns, `Full` and `Dead` are as in `append`.
    pub fn stage<D: Disk>(&mut self, disk: &mut D, frame: &mut [u8]) -> Result<u64, JournalFault>
        requires whole { 5 ≤ length frame.old }
        requires short { length frame.old < 2 ^ 32 }
        requires within { end_of self.old ≤ D.device.size disk.old }
        ensures { Stages D.device kept_room (state_of self.old) (state_of self.new) disk.old disk.new frame.old frame.new result }
    {
        self.stage_with(disk, frame, KEPT_ROOM)
    }

    /// Makes all staged entries durable together: it syncs, opens the held gate, and syncs again. If nothing is staged, it calls no device.
    /// It never returns `Full`.
    pub fn settle<D: Disk>(&mut self, disk: &mut D) -> Result<(), JournalFault>
        requires within { end_of self.old ≤ D.device.size disk.old }
        ensures { Settles D.device (state_of self.old) (state_of self.new) disk.old disk.new result }
    {
        if self.dead {
            return Err(JournalFault::Dead);
        }
        match self.held {
            None => Ok(()),
            Some(gate) => match open(disk, gate) {
                Ok(()) => {
                    self.held = None;
                    Ok(())
                }
                Err(_) => {
                    self.dead = true;
                    Err(JournalFault::Disk)
                }
            },
        }
    }

    // Stages a record if at least `room` bytes are free from its next gate on.
    fn stage_with<D: Disk>(
        &mut self,
        disk: &mut D,
        frame: &mut [u8],
        room: u64,
    ) -> Result<u64, JournalFault>
        requires whole { 5 ≤ length frame.old }
        requires short { length frame.old < 2 ^ 32 }
        requires within { end_of self.old ≤ D.device.size disk.old }
        requires room { 1 ≤ room }
        requires little { room < 2 ^ 32 }
        ensures { Stages D.device room (state_of self.old) (state_of self.new) disk.old disk.new frame.old frame.new result }
    {
        if self.dead {
            return Err(JournalFault::Dead);
        }
        let size = frame.len() as u64;
        if self.end - self.place < size + room {
            return Err(JournalFault::Full);
        }
        let place = self.place;
        match put(disk, place, self.held, frame) {
            Ok(()) => {
                self.held = Some(first_of(self.held, place));
                self.place = place + size;
                Ok(place + HEAD_LEN)
            }
            Err(_) => {
                self.dead = true;
                Err(JournalFault::Disk)
            }
        }
    }

    // Adds a record if at least `room` bytes are free from its next gate on.
    fn append_with<D: Disk>(
        &mut self,
        disk: &mut D,
        frame: &mut [u8],
        room: u64,
    ) -> Result<u64, JournalFault>
        requires none { held_of self.old ≡ None }
        requires whole { 5 ≤ length frame.old }
        requires short { length frame.old < 2 ^ 32 }
        requires within { end_of self.old ≤ D.device.size disk.old }
        requires room { 1 ≤ room }
        requires little { room < 2 ^ 32 }
        ensures { Appends D.device room (state_of self.old) (state_of self.new) disk.old disk.new frame.old frame.new result }
    {
        let place = self.place;
        let at = match self.stage_with(disk, frame, room) {
            Ok(at) => at,
            Err(fault) => return Err(fault),
        };
        match self.settle(disk) {
            Ok(()) => Ok(at),
            Err(fault) => {
                self.held = None;
                self.place = place;
                Err(fault)
            }
        }
    }
}

// Returns the gate in front of the staged records, after one more is staged at `place`.
fn first_of(held: Option<u64>, place: u64) -> u64
    requires { IsBefore held place }
    ensures gate { result ≡ gate_of held place }
    ensures within { result ≤ place }
{
    match held {
        None => place,
        Some(gate) => gate,
    }
}
