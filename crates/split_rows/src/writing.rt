//! Writing rows to the other area of a disk that is made a spool for them.
ghost use Rattle.std.specs.Prelude.{◌≡◌, ◌+◌, ◌<◌, ◌≤◌, ◌^◌, ◌∷◌, [], List, ℕ, length, take, drop, vec_len, vec_capacity, IfOk, OnOk, IsTrue};
ghost use Rattle.spool_types.specs.declared.listing.Row.{Row as RowOf};
ghost use Rattle.spool_types.specs.declared.version.Version.TheVariants.{Two};
ghost use Rattle.spool_disk.specs.Disk.{IsSynced};
ghost use Rattle.spool_areas.specs.AreaFilling.{Change, Fills};
ghost use Rattle.spool_areas.specs.Checkpoint.{other_base};
ghost use Rattle.spool_areas.specs.Header.{newest_version};
ghost use Rattle.spool_areas.specs.Payloads.{HasVersionAndPayloads};
ghost use Rattle.event_codec.specs.RowSpelling.{row_spelling, IsLegalJob, IsLegalRow, IsOrderedQueue, IsRowSpellable};
ghost use Rattle.listing_rows.specs.RowFilling.{filling, filling_at, AddsRows, IsChangeOf};
ghost use Rattle.split_rows.specs.Writing.{MayWrite, MayEnd};

use crate::fault::HalfFault;
use listing_rows::{BLOCK_ROOM, Filler, end_record, put_job, put_queue, put_row};
use spool_areas::{Areas, MakeFault, Opened, make};
use spool_disk::Disk;
use spool_types::{Job, QueueRow, Row};
use std::alloc::Global;

// Number of bytes before the first gate of an area.
const HEADER_LEN: u64 = 16;

// Number of bytes left after the last row: the record of a reopening, and the gate after it.
const LEFT: u64 = 8;

/// A disk while its other area is filled: the rows that are not written yet with their place, and the end of that area.
#[derive(Drop)]
pub struct Writing<T: Disk> {
    areas: Areas<T>,
    filler: Filler,
    end: u64,
}

/// Makes the disk a spool without rows, and begins the other area.
pub fn begin<T: Disk + Drop>(alloc: Global, mut disk: T) -> Result<Writing<T>, HalfFault>
    ensures may { IfOk result (λ w. MayWrite w.areas w.filler w.end) }
{
    let block = Vec::with_capacity(alloc, BLOCK_ROOM)?;
    match make(&mut disk) {
        Ok(()) => {}
        Err(MakeFault::Full) => return Err(HalfFault::Full),
        Err(MakeFault::Disk) => return Err(HalfFault::Disk),
    }
    let len = disk.len() / 2;
    let Ok(opened) = Areas::open(alloc, disk) else {
        return Err(HalfFault::Disk);
    };
    let Opened { mut areas, .. } = opened;
    match areas.begin() {
        Ok(gate) => Ok(Writing {
            areas,
            filler: Filler { gate, block },
            end: gate - HEADER_LEN + len,
        }),
        Err(_) => Err(HalfFault::Disk),
    }
}

impl<T: Disk + Drop> Writing<T> {
    /// Adds the row of a queue.
    pub fn put_queue(&mut self, queue: &QueueRow) -> Result<(), HalfFault>
        requires may { MayWrite self.old.areas self.old.filler self.old.end }
        ensures may { OnOk result (MayWrite self.new.areas self.new.filler self.new.end) }
        ensures added { OnOk result (IsOrderedQueue queue.now → AddsRows T.device (RowOf.Queue queue.now ∷ []) (filling_at self.old.areas self.old.filler) (filling_at self.new.areas self.new.filler)) }
    {
        let start = put_queue(&mut self.filler.block, queue);
        self.end_row(start)
    }

    /// Does the same for a job, without its document.
    pub fn put_job(&mut self, job: &Job) -> Result<(), HalfFault>
        requires may { MayWrite self.old.areas self.old.filler self.old.end }
        ensures may { OnOk result (MayWrite self.new.areas self.new.filler self.new.end) }
        ensures added { OnOk result (IsLegalJob job.now → AddsRows T.device (RowOf.Job job.now ∷ []) (filling_at self.old.areas self.old.filler) (filling_at self.new.areas self.new.filler)) }
    {
        let start = put_job(&mut self.filler.block, job);
        self.end_row(start)
    }

    /// Does the same for any row.
    pub fn put_row(&mut self, row: &Row) -> Result<(), HalfFault>
        requires may { MayWrite self.old.areas self.old.filler self.old.end }
        ensures may { OnOk result (MayWrite self.new.areas self.new.filler self.new.end) }
        ensures added { OnOk result (IsLegalRow row.now → AddsRows T.device (row.now ∷ []) (filling_at self.old.areas self.old.filler) (filling_at self.new.areas self.new.filler)) }
    {
        let start = put_row(&mut self.filler.block, row);
        self.end_row(start)
    }

    /// Writes the remaining rows, opens the other area, and returns the disk, synced. Each image has the rows that were added.
    pub fn finish(self) -> Result<T, HalfFault>
        requires may { MayWrite self.areas self.filler self.end }
        ensures synced { IfOk result (IsSynced T.device) }
        ensures written { IfOk result (λ disk. (x : Change T) (rows : List (List ℕ)) → IsChangeOf x self.areas → x.new_epoch ≡ self.areas.epoch + 1 → Fills T.device x self.areas.disk self.filler.gate self.filler.block.items rows →
            (c : List ℕ) → T.device.image disk c → HasVersionAndPayloads (other_base self.areas) newest_version rows c) }
    {
        let Writing {
            mut areas,
            mut filler,
            end,
        } = self;
        if !has_room(filler.gate, filler.block.len(), end) {
            return Err(HalfFault::Full);
        }
        match write_rest(&mut areas, &mut filler) {
            Ok(()) => Ok(areas.into_disk()),
            Err(fault) => Err(fault),
        }
    }

    // Ends the record that begins at `start` of the block.
    fn end_row(&mut self, start: usize) -> Result<(), HalfFault>
        requires may { MayEnd self.old.areas self.old.filler self.old.end start }
        ensures may { OnOk result (MayWrite self.new.areas self.new.filler self.new.end) }
        ensures added { OnOk result ((row : RowOf) → drop (start + 5) self.old.filler.block.items ≡ row_spelling Two row → IsRowSpellable Two row →
            AddsRows T.device (row ∷ []) (filling self.old.areas self.old.filler.gate (take start self.old.filler.block.items)) (filling_at self.new.areas self.new.filler)) }
    {
        if !has_room(self.filler.gate, self.filler.block.len(), self.end) {
            return Err(HalfFault::Full);
        }
        match end_record(&mut self.areas, &mut self.filler, start) {
            Ok(()) => Ok(()),
            Err(_) => Err(HalfFault::Disk),
        }
    }
}

// Returns whether `len` bytes from `gate` on, and the bytes left after them, are before the end.
fn has_room(gate: u64, len: usize, end: u64) -> bool
    ensures { IsTrue result → gate + len + 1 ≤ end }
{
    match end.checked_sub(gate) {
        Some(rest) => LEFT <= rest && len as u64 <= rest - LEFT,
        None => false,
    }
}

// Writes the last rows, and opens the area.
fn write_rest<T: Disk>(areas: &mut Areas<T>, filler: &mut Filler) -> Result<(), HalfFault>
    requires may { MayWrite areas.old filler.old (filler.old.gate + length filler.old.block.items + 1) }
    ensures synced { OnOk result (IsSynced T.device areas.new.disk) }
    ensures written { OnOk result ((x : Change T) (rows : List (List ℕ)) → IsChangeOf x areas.old → x.new_epoch ≡ areas.old.epoch + 1 → Fills T.device x areas.old.disk filler.old.gate filler.old.block.items rows →
        (c : List ℕ) → T.device.image areas.new.disk c → HasVersionAndPayloads (other_base areas.old) newest_version rows c) }
{
    let Ok(gate) = areas.write_rows(filler.gate, &mut filler.block) else {
        return Err(HalfFault::Disk);
    };
    match areas.open_other(gate) {
        Ok(()) => Ok(()),
        Err(_) => Err(HalfFault::Disk),
    }
}
