//! Events whose records become durable together.
ghost use Rattle.std.specs.Prelude.{◌≡◌, ◌≤◌, ◌↔◌, ◌⊎◌, List, ℕ, Some, None, OnOk, OnErr, IfOk, IsErrOf, IsSome, IsTrue, false};
ghost use Rattle.spool_types.specs.State.{State};
ghost use Rattle.job_table.specs.Step.{after};
ghost use Rattle.spool_disk.specs.Disk.{Blames, IsSynced, LeavesOnly};
ghost use Rattle.job_table.specs.Contents.{Contents, IsPrepared, HasPlace, AddsPlaces};
ghost use Rattle.spool_types.specs.Sent.{sent_by};
ghost use Rattle.spool_areas.specs.AreaStages.{AreSettled};
ghost use Rattle.spool_core.specs.Image.{HasTable, HasDocuments, HasWhole, documents_after_one};
ghost use Rattle.spool_core.specs.SpoolFields.{open_spool_at, IsStagedAt};
ghost use Rattle.spool_core.specs.OpenSpools.{IsJournalled, shown_bytes};
ghost use Rattle.spool_core.specs.Batch.{IsTableOf, HasBeforeOrAllEvents, HasWholeBeforeOrAll};

use super::ApplyFault;
use super::journalling::fill_frame;
use gate_journal::JournalFault;
use job_table::{PrepareFault, Table, ended_jobs_stay};
use spool_areas::Areas;
use spool_disk::Disk;
use spool_types::Event;

/// Checks whether the table refuses an event, reserves the memory that it needs there, and stages its record. No row changes, nothing is
/// synced, and no image has the event.
pub(super) fn stage_record<D: Disk>(
    areas: &mut Areas<D>,
    table: &mut Table,
    frame: &mut Vec<u8>,
    event: &Event,
) -> Result<u64, ApplyFault>
    requires { IsStagedAt D.device areas.old table.old }

    ensures answer { IsJournalled D.device (open_spool_at areas.old table.old.state) event.now result (open_spool_at areas.new table.old.state) }
    ensures same { table.new.state ≡ table.old.state }
    ensures places { table.new.places ≡ table.old.places }
    ensures moves { table.new.moves ≡ table.old.moves }
    ensures prepared { OnOk result (IsPrepared table.new event.now) }
    ensures at { IfOk result (λ place. HasPlace place (sent_by event.now)) }
    ensures later { D.device.failures areas.old.disk ≤ D.device.failures areas.new.disk }
    ensures counted { OnOk result (D.device.failures areas.new.disk ≡ D.device.failures areas.old.disk) }
    ensures epoch { areas.new.epoch ≡ areas.old.epoch }
    ensures fixed { D.device.size areas.new.disk ≡ D.device.size areas.old.disk }
    ensures told { IsSome (D.device.bytes areas.new.disk) ↔ IsSome (D.device.bytes areas.old.disk) }
    ensures held { OnOk result (IsSome areas.new.held) }

    // Whatever it returns, a crash at any moment leaves the table and the documents that a crash before it leaves.
    ensures any_moment { areas.old.dead ≡ false → (before : State) → IsTableOf D.device areas.old.disk before →
        LeavesOnly D.device areas.old.disk areas.new.disk (HasTable before) }
    ensures documents { areas.old.dead ≡ false → (r : List ℕ) (before : State) (documents : ℕ → List ℕ) → D.device.bytes areas.old.disk ≡ Some r → HasWhole before documents r →
        LeavesOnly D.device areas.old.disk areas.new.disk (HasWhole before documents) }
    ensures sent { OnOk result ((r s : List ℕ) (documents : ℕ → List ℕ) → shown_bytes D.device (open_spool_at areas.old table.old.state) ≡ Some r → shown_bytes D.device (open_spool_at areas.new table.old.state) ≡ Some s →
        HasDocuments table.old.state documents r → HasDocuments (after table.old.state event.now) (documents_after_one table.old.state documents event.now) s) }

    // After `Ok` the areas are those of an open spool with the table after the event, which is staged. After an error, unless the device
    // failed, they are those with the table from before.
    ensures added { IfOk result (λ place. (c : Contents) → c.state ≡ after table.old.state event.now → AddsPlaces place (sent_by event.now) table.new c → IsStagedAt D.device areas.new c) }
    ensures kept { OnErr result (IsStagedAt D.device areas.new table.new) }
{
    ended_jobs_stay();
    // The table is legal.
    let _jobs = table.jobs();
    if areas.is_dead() {
        return Err(ApplyFault::Dead);
    }
    match table.prepare(event) {
        Ok(()) => {}
        Err(PrepareFault::Refused(refusal)) => return Err(ApplyFault::Refused(refusal)),
        Err(PrepareFault::Memory) => return Err(ApplyFault::Memory),
    }
    match fill_frame(frame, event) {
        Ok(()) => {}
        Err(_) => return Err(ApplyFault::Memory),
    }
    match areas.stage(frame) {
        Ok(place) => Ok(place),
        Err(JournalFault::Full) => Err(ApplyFault::Full),
        Err(JournalFault::Disk) => Err(ApplyFault::Disk),
        Err(JournalFault::Dead) => Err(ApplyFault::Dead),
    }
}

/// Makes all staged events durable together, with two syncs, or with none if nothing is staged.
pub(super) fn settle_records<D: Disk>(
    areas: &mut Areas<D>,
    table: &Table,
) -> Result<(), JournalFault>
    requires { IsStagedAt D.device areas.old table.now }

    ensures dead { IsErrOf result JournalFault.Dead ↔ IsTrue areas.old.dead }
    ensures roomy { ¬ (IsErrOf result JournalFault.Full) }
    ensures untouched { IsErrOf result JournalFault.Dead → areas.new ≡ areas.old }
    ensures none { areas.old.dead ≡ false → areas.old.held ≡ None → areas.new ≡ areas.old }
    ensures blames { Blames (D.device.failures areas.old.disk) (D.device.failures areas.new.disk) (IsErrOf result JournalFault.Disk) }
    ensures settled { AreSettled areas.new }
    ensures room { (areas.new.end ≡ areas.old.end) × (areas.new.gate ≡ areas.old.gate) × (areas.new.epoch ≡ areas.old.epoch) }
    ensures dies { IsTrue areas.new.dead ↔ (IsTrue areas.old.dead ⊎ IsErrOf result JournalFault.Disk) }
    ensures fixed { D.device.size areas.new.disk ≡ D.device.size areas.old.disk }
    ensures told { IsSome (D.device.bytes areas.new.disk) ↔ IsSome (D.device.bytes areas.old.disk) }

    // Whatever it returns, a crash at any moment leaves the table without the staged events, or the one with all of them.
    ensures any_moment { areas.old.dead ≡ false → (before : State) → IsTableOf D.device areas.old.disk before →
        LeavesOnly D.device areas.old.disk areas.new.disk (HasBeforeOrAllEvents before table.now.state) }
    ensures documents { areas.old.dead ≡ false → (r s : List ℕ) (before : State) (documents sent : ℕ → List ℕ) → D.device.bytes areas.old.disk ≡ Some r → shown_bytes D.device (open_spool_at areas.old table.now.state) ≡ Some s →
        HasWhole before documents r → HasDocuments table.now.state sent s → LeavesOnly D.device areas.old.disk areas.new.disk (HasWholeBeforeOrAll before documents table.now.state sent) }

    // After `Ok` each image has the table with its documents, and nothing is unsynced.
    ensures stands { IsStagedAt D.device areas.new table.now }
    ensures kept { OnOk result (IsSome (D.device.bytes areas.old.disk) → (c : List ℕ) → D.device.image areas.new.disk c → HasTable table.now.state c) }
    ensures sent { OnOk result ((s : List ℕ) (documents : ℕ → List ℕ) → shown_bytes D.device (open_spool_at areas.old table.now.state) ≡ Some s → HasDocuments table.now.state documents s →
        (c : List ℕ) → D.device.image areas.new.disk c → HasDocuments table.now.state documents c) }
    ensures durable { OnOk result (IsSynced D.device areas.new.disk) }
{
    areas.settle()
}
