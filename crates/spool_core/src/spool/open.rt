//! Opening a spool.
ghost use Rattle.std.specs.Prelude.{◌≡◌, ◌<◌, ◌≤◌, ◌-◌, ◌⊎◌, ◌↔◌, List, ℕ, None, Some, IsSome, IsTrue, false, IfOk, IfErr, OnOk, IsErrOf};
ghost use Rattle.job_table.specs.Attempts.{HasNoProcessing, reopened};
ghost use Rattle.job_table.specs.Legal.{IsLegal};
ghost use Rattle.spool_types.specs.State.{State};
ghost use Rattle.spool_types.specs.declared.event.Event.TheVariants as Event;
ghost use Rattle.spool_disk.specs.Disk.{Blames, LeavesOnly, ChangesNothing};
ghost use Rattle.gate_journal.specs.Appends.{kept_room};
ghost use Rattle.spool_core.specs.Image.{HasTable, HasDocuments, HasRoom, HasBeforeOrAfterEvent, IsReopenedFrom, IsMidway, IsFaultOf, IsReopeningFault};
ghost use Rattle.spool_core.specs.Checkpointing.{HasEpoch};
ghost use Rattle.spool_core.specs.OpenSpools.{IsSettled, LeavesRoom, record_len};

use super::Spool;
use super::journalling::journal_reopening;
use crate::fold::fold;
use gate_journal::KEPT_ROOM;
use job_table::{Table, ended_jobs_stay, reopening};
use spool_areas::{Areas, OpenError, OpenFault, Opened};
use spool_disk::Disk;
use spool_types::Event;
use std::alloc::Global;

impl<D: Disk> Spool<D> {
    /// Opens the spool on a disk: syncs it, builds the table from the rows and events of its current area, and gives up each
    /// attempt that was running, as its queue's error policy specifies. If no job is processing, it writes nothing. Of several
    /// faults it returns the first in the order of the records. The last check is whether a job is processing and the area has no
    /// room for the record of its reopening, which is damage at the closed gate.
    pub fn open(alloc: Global, disk: D) -> Result<Spool<D>, OpenError<D>>
        // The table is that of the bytes after the policy, the room is that of the disk then, and a fault of the bytes is theirs.
        ensures opened { IfOk result (λ spool. (r : List ℕ) → D.device.bytes disk ≡ Some r → IsReopenedFrom spool.state r) }
        ensures room { IfOk result (λ spool. (r : List ℕ) → D.device.bytes spool.disk ≡ Some r → HasRoom spool.room r) }
        ensures epoch { IfOk result (λ spool. (r : List ℕ) → D.device.bytes disk ≡ Some r → HasEpoch spool.epoch r) }
        ensures fault { IfErr result (λ e. (r : List ℕ) → D.device.bytes disk ≡ Some r → IsFaultOf r e.fault) }
        ensures alive { IfOk result (λ spool. spool.dead ≡ false) }
        ensures settled { IfOk result (λ spool. spool.held ≡ None) }
        ensures counted { IfOk result (λ spool. D.device.failures spool.disk ≡ D.device.failures disk) }
        ensures blames { IfErr result (λ e. Blames (D.device.failures disk) (D.device.failures e.disk) (e.fault ≡ OpenFault.Disk)) }
        ensures size { IfOk result (λ spool. D.device.size spool.disk ≡ D.device.size disk) }
        ensures told { IfOk result (λ spool. IsSome (D.device.bytes spool.disk) ↔ IsSome (D.device.bytes disk)) }
        ensures told_back { IfErr result (λ e. IsSome (D.device.bytes e.disk) ↔ IsSome (D.device.bytes disk)) }

        // The room is that of the bytes, less the record of a reopening if a job was processing.
        ensures left { IfOk result (λ spool. (r : List ℕ) (t : State) (room : ℕ) → D.device.bytes disk ≡ Some r → HasTable t r → HasRoom room r → LeavesRoom t room spool.room) }

        // If no job is processing, it writes nothing.
        ensures unwritten { IfOk result (λ spool. (r : List ℕ) (t : State) → D.device.bytes disk ≡ Some r → HasTable t r → HasNoProcessing t → D.device.bytes spool.disk ≡ Some r) }

        // Until its first sync has succeeded, a crash leaves an image of the disk passed in. From then on it leaves an image with
        // the table of the bytes, or the one after the policy, and with the documents of the bytes.
        ensures synced { IfOk result (λ spool. (synced : D) × LeavesOnly D.device disk synced (D.device.image disk)
            × LeavesOnly D.device synced spool.disk (λ c. (r : List ℕ) → D.device.bytes disk ≡ Some r → IsMidway r c)) }
        ensures kept { IfOk result (λ spool. IsSome (D.device.bytes disk) → (c : List ℕ) → D.device.image spool.disk c → HasTable spool.state c) }
        ensures documents { IfOk result (λ spool. (r : List ℕ) (t : State) (documents : ℕ → List ℕ) → D.device.bytes disk ≡ Some r → HasTable t r → HasDocuments t documents r →
            (c : List ℕ) → D.device.image spool.disk c → HasDocuments spool.state documents c) }

        // An error returns the disk. Unless the device failed, the disk reads as before and has no new image.
        ensures back { IfErr result (λ e. ¬ (e.fault ≡ OpenFault.Disk) → (D.device.bytes e.disk ≡ D.device.bytes disk) × LeavesOnly D.device disk e.disk (D.device.image disk)) }
        ensures size_back { IfErr result (λ e. D.device.size e.disk ≡ D.device.size disk) }

        // In the same order as above: before the first sync has succeeded, an image of the disk passed in, and from then on an
        // intermediate image.
        ensures failed { IfErr result (λ e. LeavesOnly D.device disk e.disk (D.device.image disk)
            ⊎ ((synced : D) × LeavesOnly D.device disk synced (D.device.image disk)
            × LeavesOnly D.device synced e.disk (λ c. (r : List ℕ) → D.device.bytes disk ≡ Some r → IsMidway r c))) }

        // No attempt continues after a restart.
        ensures idle { IfOk result (λ spool. HasNoProcessing spool.state) }
    {
        reopening();
        ended_jobs_stay();
        let mut spool = match Spool::load(alloc, disk) {
            Ok(spool) => spool,
            Err(error) => return Err(error),
        };
        if spool.table.is_idle() {
            return Ok(spool);
        }
        match spool.reopen() {
            Ok(()) => Ok(spool),
            Err(fault) => {
                let disk = spool.into_disk();
                Err(OpenError { disk, fault })
            }
        }
    }

    /// Does the same without the policy: syncs the disk and builds the table from the rows and events of its current area. Each
    /// attempt that was running is still shown as such. Writes nothing.
    pub fn load(alloc: Global, disk: D) -> Result<Spool<D>, OpenError<D>>
        // The table and the room are those of the bytes, and a fault of the bytes is theirs.
        ensures opened { IfOk result (λ spool. (r : List ℕ) → D.device.bytes disk ≡ Some r → HasTable spool.state r) }
        ensures room { IfOk result (λ spool. (r : List ℕ) → D.device.bytes disk ≡ Some r → HasRoom spool.room r) }
        ensures epoch { IfOk result (λ spool. (r : List ℕ) → D.device.bytes disk ≡ Some r → HasEpoch spool.epoch r) }
        ensures fault { IfErr result (λ e. (r : List ℕ) → D.device.bytes disk ≡ Some r → IsFaultOf r e.fault) }
        ensures alive { IfOk result (λ spool. spool.dead ≡ false) }
        ensures settled { IfOk result (λ spool. spool.held ≡ None) }
        ensures counted { IfOk result (λ spool. D.device.failures spool.disk ≡ D.device.failures disk) }
        ensures blames { IfErr result (λ e. Blames (D.device.failures disk) (D.device.failures e.disk) (e.fault ≡ OpenFault.Disk)) }

        // It writes nothing.
        ensures same { IfOk result (λ spool. ChangesNothing D.device disk spool.disk) }
        ensures back { IfErr result (λ e. ChangesNothing D.device disk e.disk) }

        // Until its first sync has succeeded, a crash leaves an image of the disk passed in, and from then on an image with this
        // table.
        ensures synced { IfOk result (λ spool. (synced : D) × LeavesOnly D.device disk synced (D.device.image disk)
            × LeavesOnly D.device synced spool.disk (λ c. (r : List ℕ) → D.device.bytes disk ≡ Some r → (c ≡ r) × HasTable spool.state c)) }
        ensures kept { IfOk result (λ spool. IsSome (D.device.bytes disk) → (c : List ℕ) → D.device.image spool.disk c → HasTable spool.state c) }
    {
        let Opened {
            mut areas,
            payloads,
            damage,
            gate,
            room,
        } = match Areas::open(alloc, disk) {
            Ok(opened) => opened,
            Err(error) => return Err(error),
        };
        let table = match fold(&mut areas, alloc, &payloads, gate) {
            Ok(table) => table,
            Err(fault) => {
                let disk = areas.into_disk();
                return Err(OpenError { disk, fault });
            }
        };
        match damage {
            None => {}
            Some(gate) => {
                drop(table);
                let disk = areas.into_disk();
                let fault = OpenFault::Damaged(gate);
                return Err(OpenError { disk, fault });
            }
        }
        if is_cramped(&table, room) {
            drop(table);
            let disk = areas.into_disk();
            let fault = OpenFault::Damaged(gate);
            return Err(OpenError { disk, fault });
        }
        let frame = Vec::new(alloc);
        Ok(Spool {
            areas,
            table,
            frame,
        })
    }

    // Gives up each attempt that was running, as its queue's error policy specifies, and journals that.
    fn reopen(&mut self) -> Result<(), OpenFault>
        requires settled { IsSettled self.old }
        requires alive { self.old.dead ≡ false }
        requires legal { IsLegal self.old.state }
        requires busy { ¬ (HasNoProcessing self.old.state) }
        ensures state { OnOk result ((self.new.state ≡ reopened self.old.state) × HasNoProcessing self.new.state) }
        ensures alive { OnOk result (self.new.dead ≡ false) }
        ensures settled { IsSettled self.new }
        ensures fault { IfErr result IsReopeningFault }
        ensures unchanged { IsErrOf result OpenFault.Memory → self.new ≡ self.old }
        ensures blames { Blames (D.device.failures self.old.disk) (D.device.failures self.new.disk) (IsErrOf result OpenFault.Disk) }
        ensures left { OnOk result (self.new.room ≡ self.old.room - record_len Event.Reopen) }
        ensures epoch { self.new.epoch ≡ self.old.epoch }
        ensures fixed { D.device.size self.new.disk ≡ D.device.size self.old.disk }
        ensures told { IsSome (D.device.bytes self.new.disk) ↔ IsSome (D.device.bytes self.old.disk) }
        ensures any_moment { LeavesOnly D.device self.old.disk self.new.disk (λ c. IsSome (D.device.bytes self.old.disk) → HasBeforeOrAfterEvent self.old.state Event.Reopen c) }
        ensures documents { LeavesOnly D.device self.old.disk self.new.disk (λ c. (r : List ℕ) (documents : ℕ → List ℕ) → D.device.bytes self.old.disk ≡ Some r → HasDocuments self.old.state documents r → HasDocuments self.old.state documents c) }
        ensures kept { OnOk result (IsSome (D.device.bytes self.old.disk) → (c : List ℕ) → D.device.image self.new.disk c → HasTable self.new.state c) }
        ensures room { OnOk result ((r : List ℕ) → D.device.bytes self.new.disk ≡ Some r → HasRoom self.new.room r) }
    {
        match journal_reopening(&mut self.areas, &mut self.table, &mut self.frame) {
            Ok(place) => {
                self.table.commit(Event::Reopen, place);
                Ok(())
            }
            Err(fault) => Err(fault),
        }
    }
}

// Returns whether a job is processing and `room` bytes are too few for the record of its reopening, which has a payload of one
// byte.
fn is_cramped(table: &Table, room: u64) -> bool
    ensures cramped { IsTrue result → ¬ (HasNoProcessing table.now.state) × (room < kept_room) }
    ensures roomy { result ≡ false → ¬ (HasNoProcessing table.now.state) → kept_room ≤ room }
{
    room < KEPT_ROOM && !table.is_idle()
}
