//! The record of an event in the journal.
ghost use Rattle.std.specs.Prelude.{◌≡◌, ◌≤◌, ◌-◌, ◌↔◌, ℕ, List, Some, OnOk, OnErr, IfOk, IfErr, IsErrOf, IsSome, false};
ghost use Rattle.job_table.specs.Attempts.{HasNoProcessing, reopened};
ghost use Rattle.job_table.specs.Legal.{IsLegal};
ghost use Rattle.spool_types.specs.declared.event.Event.TheVariants as Event;
ghost use Rattle.job_table.specs.Step.{after};
ghost use Rattle.spool_disk.specs.Disk.{Blames, IsSynced, LeavesOnly};
ghost use Rattle.job_table.specs.Contents.{Contents, IsPrepared, HasPlace, AddsPlaces, KeepsPlaces};
ghost use Rattle.spool_types.specs.Sent.{sent_by};
ghost use Rattle.spool_areas.specs.AreaStages.{AreSettled};
ghost use Rattle.spool_core.specs.Image.{HasDocuments, HasBeforeOrAfterEvent, HasWholeBeforeOrAfterEvent, IsReopeningFault, documents_after_one};
ghost use Rattle.spool_core.specs.SpoolFields.{open_spool_at, IsOpenSpoolAt};
ghost use Rattle.spool_core.specs.OpenSpools.{IsJournalled, IsFrameOf, record_len};

use super::ApplyFault;
use event_codec::encode_onto;
use gate_journal::JournalFault;
use job_table::{PrepareFault, Table, ended_jobs_stay, reopening};
use spool_areas::{Areas, OpenFault};
use spool_disk::Disk;
use spool_types::Event;
use std::alloc::AllocError;

/// Checks whether the table refuses an event, reserves the memory that it needs there, and adds its record to the area. No row
/// changes.
pub(super) fn journal<D: Disk>(
    areas: &mut Areas<D>,
    table: &mut Table,
    frame: &mut Vec<u8>,
    event: &Event,
) -> Result<u64, ApplyFault>
    requires open_spool { IsOpenSpoolAt D.device areas.old table.old }
    requires settled { AreSettled areas.old }

    ensures answer { IsJournalled D.device (open_spool_at areas.old table.old.state) event.now result (open_spool_at areas.new table.old.state) }
    ensures same { table.new.state ≡ table.old.state }
    ensures places { table.new.places ≡ table.old.places }
    ensures moves { table.new.moves ≡ table.old.moves }
    ensures prepared { OnOk result (IsPrepared table.new event.now) }
    ensures at { IfOk result (λ place. HasPlace place (sent_by event.now)) }
    ensures later { D.device.failures areas.old.disk ≤ D.device.failures areas.new.disk }
    ensures counted { OnOk result (D.device.failures areas.new.disk ≡ D.device.failures areas.old.disk) }
    ensures epoch { areas.new.epoch ≡ areas.old.epoch }
    ensures settled { AreSettled areas.new }
    ensures fixed { D.device.size areas.new.disk ≡ D.device.size areas.old.disk }
    ensures told { IsSome (D.device.bytes areas.new.disk) ↔ IsSome (D.device.bytes areas.old.disk) }

    // Whatever it returns, a crash at any moment leaves the table from before the event or the one after it.
    ensures any_moment { areas.old.dead ≡ false → IsSome (D.device.bytes areas.old.disk) →
        LeavesOnly D.device areas.old.disk areas.new.disk (HasBeforeOrAfterEvent table.old.state event.now) }

    // The same for the documents.
    ensures documents { areas.old.dead ≡ false → (r : List ℕ) (documents : ℕ → List ℕ) → D.device.bytes areas.old.disk ≡ Some r → HasDocuments table.old.state documents r →
        LeavesOnly D.device areas.old.disk areas.new.disk (HasWholeBeforeOrAfterEvent table.old.state documents event.now) }
    ensures sent { OnOk result ((r : List ℕ) (documents : ℕ → List ℕ) → D.device.bytes areas.old.disk ≡ Some r → HasDocuments table.old.state documents r →
        (c : List ℕ) → D.device.image areas.new.disk c → HasDocuments (after table.old.state event.now) (documents_after_one table.old.state documents event.now) c) }

    // After `Ok` a crash leaves the table after the event, and nothing is unsynced. After an error, unless the device failed, it
    // leaves the one from before.
    ensures added { IfOk result (λ place. (c : Contents) → c.state ≡ after table.old.state event.now → AddsPlaces place (sent_by event.now) table.new c → IsOpenSpoolAt D.device areas.new c) }
    ensures kept { OnErr result (IsOpenSpoolAt D.device areas.new table.new) }
    ensures durable { OnOk result (IsSynced D.device areas.new.disk) }
{
    ended_jobs_stay();
    // The table is legal.
    let _jobs = table.jobs();
    if areas.is_dead() {
        return Err(ApplyFault::Dead);
    }
    match table.prepare(event) {
        Ok(()) => {}
        Err(PrepareFault::Refused(refusal)) => return Err(ApplyFault::Refused(refusal)),
        Err(PrepareFault::Memory) => return Err(ApplyFault::Memory),
    }
    match fill_frame(frame, event) {
        Ok(()) => {}
        Err(_) => return Err(ApplyFault::Memory),
    }
    match areas.append(frame) {
        Ok(place) => Ok(place),
        Err(JournalFault::Full) => Err(ApplyFault::Full),
        Err(JournalFault::Disk) => Err(ApplyFault::Disk),
        Err(JournalFault::Dead) => Err(ApplyFault::Dead),
    }
}

/// Adds the record of a reopening to the area, in the room that is reserved for it. No row changes.
pub(super) fn journal_reopening<D: Disk>(
    areas: &mut Areas<D>,
    table: &mut Table,
    frame: &mut Vec<u8>,
) -> Result<u64, OpenFault>
    requires open_spool { IsOpenSpoolAt D.device areas.old table.old }
    requires settled { AreSettled areas.old }
    requires alive { areas.old.dead ≡ false }
    requires legal { IsLegal table.old.state }
    requires busy { ¬ (HasNoProcessing table.old.state) }

    ensures same { table.new.state ≡ table.old.state }
    ensures places { table.new.places ≡ table.old.places }
    ensures moves { table.new.moves ≡ table.old.moves }
    ensures prepared { OnOk result (IsPrepared table.new Event.Reopen) }
    ensures alive { OnOk result (areas.new.dead ≡ false) }
    ensures fault { IfErr result IsReopeningFault }
    ensures unchanged { IsErrOf result OpenFault.Memory → areas.new ≡ areas.old }
    ensures blames { Blames (D.device.failures areas.old.disk) (D.device.failures areas.new.disk) (IsErrOf result OpenFault.Disk) }
    ensures fixed { D.device.size areas.new.disk ≡ D.device.size areas.old.disk }
    ensures told { IsSome (D.device.bytes areas.new.disk) ↔ IsSome (D.device.bytes areas.old.disk) }

    ensures epoch { areas.new.epoch ≡ areas.old.epoch }
    ensures settled { AreSettled areas.new }

    // The room that is left, less its record.
    ensures room { OnOk result (areas.new.end - areas.new.gate ≡ areas.old.end - areas.old.gate - record_len Event.Reopen) }

    // Whatever it returns, a crash at any moment leaves the table from before the reopening or the one after it.
    ensures any_moment { LeavesOnly D.device areas.old.disk areas.new.disk (λ c. IsSome (D.device.bytes areas.old.disk) → HasBeforeOrAfterEvent table.old.state Event.Reopen c) }

    // The documents do not change.
    ensures documents { LeavesOnly D.device areas.old.disk areas.new.disk (λ c. (r : List ℕ) (documents : ℕ → List ℕ) → D.device.bytes areas.old.disk ≡ Some r → HasDocuments table.old.state documents r → HasDocuments table.old.state documents c) }
    ensures added { OnOk result ((c : Contents) → c.state ≡ reopened table.old.state → KeepsPlaces table.new c → IsOpenSpoolAt D.device areas.new c) }
    ensures idle { HasNoProcessing (reopened table.old.state) }
    ensures kept { OnErr result (IsOpenSpoolAt D.device areas.new table.new) }
{
    ended_jobs_stay();
    reopening();
    let event = Event::Reopen;
    let prepared = table.prepare(&event);
    let filled = fill_frame(frame, &event);
    // An explicit drop: at the end of the scope each kind of event would be a case of each way out.
    drop(event);
    match prepared {
        Ok(()) => {}
        Err(_) => unreachable!(),
    }
    match filled {
        Ok(()) => {}
        Err(_) => return Err(OpenFault::Memory),
    }
    match areas.append_kept(frame) {
        Ok(place) => Ok(place),
        Err(JournalFault::Disk) => Err(OpenFault::Disk),
        Err(JournalFault::Full) => unreachable!(),
        Err(JournalFault::Dead) => unreachable!(),
    }
}

// Fills the frame of an event: four free bytes, the encoded event and one free byte.
pub(super) fn fill_frame(frame: &mut Vec<u8>, event: &Event) -> Result<(), AllocError>
    ensures { OnOk result (IsFrameOf event.now frame.new.items) }
{
    frame.clear();
    frame.extend_from_slice(&[0; 4])?;
    encode_onto(event, frame)?;
    frame.extend_from_slice(&[0])
}
