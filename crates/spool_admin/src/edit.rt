//! An edit of a queue, on any disks.
ghost use Rattle.std.specs.Prelude.{◌≡◌, List, ℕ, None, Some, IfErr, IfOk, IsSome};
ghost use Rattle.spool_disk.specs.Disk.{ChangesNothing, IsSynced};
ghost use Rattle.spool_core.specs.Image.{HasTable};
ghost use Rattle.spool_halves.specs.Edited.{KeepsAllDocuments};
ghost use Rattle.spool_admin.specs.AdminFaults.{IsOfEdit, refusal_shown};
ghost use Rattle.spool_admin.specs.QueueEdit.{after_edit, edit_refusal};

use crate::fault::AdminFault;
use job_table::Table;
use queue_edits::{EditRefusal, QueueChange, refusal_of_change, refusal_of_removal};
use spool_core::Spool;
use spool_disk::Disk;
use spool_halves::{remove_queue, set_queue};
use spool_types::QueueName;
use std::alloc::Global;

/// What is done with a queue.
#[derive(Drop)]
pub enum QueueEdit {
    /// These fields get other values.
    Set(QueueChange),
    /// It is removed. The flag is whether its ended jobs may be removed too.
    Remove(bool),
}

/// Returns why the edit is refused, if it is.
pub fn refusal_of(table: &Table, name: &QueueName, edit: &QueueEdit) -> Option<EditRefusal>
    ensures { result ≡ edit_refusal name.now edit.now table.now.state }
{
    match edit {
        QueueEdit::Set(change) => refusal_of_change(table, name, change),
        QueueEdit::Remove(purge) => refusal_of_removal(table, name, *purge),
    }
}

/// Lists the spool with its queue edited, with all documents, on a disk of its own. Returns that disk, synced.
pub fn list_edited<S: Disk, T: Disk + Drop>(
    alloc: Global,
    whole: &mut Spool<S>,
    name: &QueueName,
    edit: &QueueEdit,
    disk: T,
) -> Result<T, AdminFault>
    requires settled { whole.old.held ≡ None }

    // A crash leaves exactly the edited table, with the documents of the old disk.
    ensures edited { IfOk result (λ made. IsSome (T.device.bytes made) → (c : List ℕ) → T.device.image made c → HasTable (after_edit name.now edit.now whole.old.state) c) }
    ensures documents { IfOk result (λ made. (r : List ℕ) → S.device.bytes whole.old.disk ≡ Some r → IsSome (T.device.bytes made) → (c : List ℕ) → T.device.image made c →
        KeepsAllDocuments whole.old.state r c) }
    ensures allowed { IfOk result (λ _. edit_refusal name.now edit.now whole.old.state ≡ None) }
    ensures refused { refusal_shown result ≡ edit_refusal name.now edit.now whole.old.state }
    ensures fault { IfErr result IsOfEdit }
    ensures synced { IfOk result (IsSynced T.device) }
    ensures state { whole.new.state ≡ whole.old.state }
    ensures still { ChangesNothing S.device whole.old.disk whole.new.disk }
{
    match edit {
        QueueEdit::Set(change) => match set_queue(alloc, whole, name, change, disk) {
            Ok(disk) => Ok(disk),
            Err(fault) => Err(AdminFault::from(fault)),
        },
        QueueEdit::Remove(purge) => match remove_queue(alloc, whole, name, *purge, disk) {
            Ok(disk) => Ok(disk),
            Err(fault) => Err(AdminFault::from(fault)),
        },
    }
}
