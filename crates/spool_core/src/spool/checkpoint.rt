//! Listing the table in the other area.
ghost use Rattle.std.specs.Prelude.{◌≡◌, ◌≤◌, ◌+◌, ◌↔◌, [], List, ℕ, false, Some, OnOk, OnErr, IfOk, IsErrOf, IsSome, vec_capacity};
ghost use Rattle.spool_types.specs.Limits.{greatest_number};
ghost use Rattle.spool_disk.specs.Disk.{Blames, IsSynced, LeavesOnly};
ghost use Rattle.spool_areas.specs.AreaFilling.{sum_of};
ghost use Rattle.spool_areas.specs.AreaStages.{AreSettled};
ghost use Rattle.job_table.specs.Contents.{AreSized, HasNoMoves, HasOwnPlaces};
ghost use Rattle.job_table.specs.Legal.{IsLegal};
ghost use Rattle.spool_core.specs.Image.{HasInEitherVersion, HasTable, HasDocuments};
ghost use Rattle.spool_core.specs.OpenSpools.{IsSettled};
ghost use Rattle.spool_core.specs.SpoolFields.{open_spool_at, IsOpenSpoolAt};
ghost use Rattle.listing_rows.specs.RowFilling.{block_room};
ghost use Rattle.spool_core.specs.ListingFilling.{HasMoveRoom};
ghost use Rattle.spool_core.specs.Checkpointing.{HasEpoch, IsCheckpoint, IsCheckpointed, blank, fault_for, listed_payloads};

use super::filling::fill_other;
use super::measuring::listing_len;
use super::{CheckpointFault, Spool};
use job_table::Table;
use listing_rows::BLOCK_ROOM;
use spool_areas::{AreaFault, Areas};
use spool_disk::Disk;
use std::alloc::{AllocError, Global};

impl<D: Disk> Spool<D> {
    /// Makes room for further events: lists the table in the other area, which becomes the current one, with the next epoch. The
    /// table is as before, in the newest version of the format. The events that produced it are no longer on the disk. Nothing may be
    /// staged, unless the device has failed.
    pub fn checkpoint(&mut self) -> Result<(), CheckpointFault>
        requires settled { IsSettled self.old }

        // Each result, with its cause and its effect.
        ensures answer { IsCheckpoint D.device self.old result self.new }
        ensures settled { IsSettled self.new }
        ensures blames { Blames (D.device.failures self.old.disk) (D.device.failures self.new.disk) (IsErrOf result CheckpointFault.Disk) }
        ensures fixed { D.device.size self.new.disk ≡ D.device.size self.old.disk }
        ensures told { IsSome (D.device.bytes self.new.disk) ↔ IsSome (D.device.bytes self.old.disk) }

        // Whatever it returns, a crash at any moment leaves the table and its documents.
        ensures any_moment { self.old.dead ≡ false → IsSome (D.device.bytes self.old.disk) →
            LeavesOnly D.device self.old.disk self.new.disk (HasInEitherVersion self.old.state) }
        ensures documents { self.old.dead ≡ false → (r : List ℕ) (documents : ℕ → List ℕ) → D.device.bytes self.old.disk ≡ Some r → HasDocuments self.old.state documents r →
            LeavesOnly D.device self.old.disk self.new.disk (HasDocuments self.old.state documents) }

        // Before it each image has the epoch of the spool. After `Ok` a crash leaves only the listing, with the next epoch, and
        // nothing is unsynced.
        ensures counts { self.old.dead ≡ false → IsSome (D.device.bytes self.old.disk) → (c : List ℕ) → D.device.image self.old.disk c → HasEpoch self.old.epoch c }
        ensures listed { OnOk result (IsSome (D.device.bytes self.old.disk) → (c : List ℕ) → D.device.image self.new.disk c → IsCheckpointed self.old.state (self.old.epoch + 1) c) }
        ensures kept { OnOk result (IsSome (D.device.bytes self.old.disk) → (c : List ℕ) → D.device.image self.new.disk c → HasTable self.new.state c) }
        ensures durable { OnOk result (IsSynced D.device self.new.disk) }
    {
        let changed = change_areas(*self.frame.allocator(), &mut self.areas, &mut self.table);
        // The new places are either in use now or no longer needed.
        self.table.forget_moves();
        changed
    }
}

// Lists the table in the other area, and moves the documents there. Meanwhile one block of rows and the new places of the
// documents are in memory.
fn change_areas<D: Disk>(
    alloc: Global,
    areas: &mut Areas<D>,
    table: &mut Table,
) -> Result<(), CheckpointFault>
    requires open_spool { IsOpenSpoolAt D.device areas.old table.old }
    requires settled { AreSettled areas.old }

    ensures answer { IsCheckpoint D.device (open_spool_at areas.old table.old.state) result (open_spool_at areas.new table.new.state) }
    ensures blames { Blames (D.device.failures areas.old.disk) (D.device.failures areas.new.disk) (IsErrOf result CheckpointFault.Disk) }
    ensures fixed { D.device.size areas.new.disk ≡ D.device.size areas.old.disk }
    ensures told { IsSome (D.device.bytes areas.new.disk) ↔ IsSome (D.device.bytes areas.old.disk) }
    ensures any_moment { areas.old.dead ≡ false → IsSome (D.device.bytes areas.old.disk) →
        LeavesOnly D.device areas.old.disk areas.new.disk (HasInEitherVersion table.old.state) }
    ensures documents { areas.old.dead ≡ false → (r : List ℕ) (documents : ℕ → List ℕ) → D.device.bytes areas.old.disk ≡ Some r → HasDocuments table.old.state documents r →
        LeavesOnly D.device areas.old.disk areas.new.disk (HasDocuments table.old.state documents) }
    ensures listed { OnOk result (IsSome (D.device.bytes areas.old.disk) → (c : List ℕ) → D.device.image areas.new.disk c → IsCheckpointed table.old.state areas.new.epoch c) }
    ensures same { OnErr result (table.new.state ≡ table.old.state) }
    ensures open_spool { IsOpenSpoolAt D.device areas.new table.new }
    ensures settled { AreSettled areas.new }
    ensures durable { OnOk result (IsSynced D.device areas.new.disk) }
{
    // Checked before memory is allocated.
    match areas.plan(&[]) {
        Ok(_) => {}
        Err(fault) => return Err(fault_of(fault)),
    }
    let prepared = match prepare(alloc, table) {
        Ok(prepared) => prepared,
        Err(_) => return Err(CheckpointFault::Memory),
    };
    match areas.plan_by_sum(prepared.sum) {
        Ok(_) => {}
        Err(fault) => return Err(fault_of(fault)),
    }
    // From here on nothing is allocated, and the only error is `Disk`.
    match fill_other(areas, table, prepared.block) {
        Ok(()) => {
            table.commit_moves();
            table.raise();
            // A number without a job has no places.
            let _jobs = table.jobs();
            Ok(())
        }
        Err(_) => Err(CheckpointFault::Disk),
    }
}

fn fault_of(fault: AreaFault) -> CheckpointFault
    ensures { result ≡ fault_for fault }
{
    match fault {
        AreaFault::Dead => CheckpointFault::Dead,
        AreaFault::EpochEnd => CheckpointFault::EpochEnd,
        AreaFault::Full => CheckpointFault::Full,
        AreaFault::Disk => CheckpointFault::Disk,
    }
}

// Prepared before a checkpoint writes: memory for a block of rows, and the total length in bytes of the records of all rows.
#[derive(Drop)]
struct Prepared {
    block: Vec<u8>,
    sum: u64,
}

// Allocates all memory: for the new places of the documents, and for the block.
fn prepare(alloc: Global, table: &mut Table) -> Result<Prepared, AllocError>
    ensures sum { IfOk result (λ p. p.sum ≡ sum_of (listed_payloads table.new.state (blank table.new.state))) }
    ensures empty { IfOk result (λ p. p.block.items ≡ []) }
    ensures spare { IfOk result (λ p. block_room ≤ vec_capacity p.block) }
    ensures legal { OnOk result (IsLegal table.new.state × (table.new.state.highest ≤ greatest_number)) }
    ensures none { OnOk result (HasNoMoves table.new.state table.new.moves) }
    ensures room { OnOk result (HasMoveRoom table.new.state table.new.moves) }
    ensures sized { OnOk result (AreSized table.new) }
    ensures own { OnOk result (HasOwnPlaces table.new) }
    ensures same { table.new.state ≡ table.old.state }
    ensures places { table.new.places ≡ table.old.places }
{
    table.prepare_moves()?;
    let mut block = Vec::with_capacity(alloc, BLOCK_ROOM)?;
    let sum = listing_len(table, &mut block)?;
    block.clear();
    let _jobs = table.jobs();
    // A row can represent the highest number.
    let _highest = table.highest();
    Ok(Prepared { block, sum })
}
