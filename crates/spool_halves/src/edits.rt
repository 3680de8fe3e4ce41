//! Making a spool with one queue changed or removed on a disk of its own.
ghost use Rattle.std.specs.Prelude.{◌≡◌, ◌++◌, ◌∷◌, [], List, ℕ, None, Some, Ok, IfOk, IsSome, OnOk};
ghost use Rattle.std.specs.Option.{option_map};
ghost use Rattle.spool_types.specs.State.{queue_at};
ghost use Rattle.event_codec.specs.RowSpelling.{IsOrderedQueue};
ghost use Rattle.spool_disk.specs.Disk.{ChangesNothing, IsSynced};
ghost use Rattle.spool_core.specs.Image.{HasTable};
ghost use Rattle.queue_edits.specs.QueueEdits.{after_change, after_removal, changed};
ghost use Rattle.queue_edits.specs.EditRefusals.{change_refusal, removal_refusal};
ghost use Rattle.spool_halves.specs.Edited.{KeepsAllDocuments, refusal_in};

use crate::listing::list_half;
use crate::with_row::list_with_row;
use job_table::{Table, legal_tables_stay_legal, listings_are_loaded};
use queue_edits::{EditRefusal, QueueChange, changed_row, refusal_of_change, refusal_of_removal};
use split_rows::{Half, HalfFault};
use spool_core::Spool;
use spool_disk::Disk;
use spool_types::{QueueName, QueueRow};
use std::alloc::{AllocError, Global};

/// Why a queue was not edited. The spool is as before.
#[derive(Clone, Copy, PartialEq, Eq)]
pub enum EditFault {
    /// The queue may not be edited.
    Refused(EditRefusal),
    /// Memory ran out.
    Memory,
    /// The rows do not fit into half of the new disk.
    Full,
    /// A disk failed, or the rows read back differ from those written.
    Disk,
}

impl From<AllocError> for EditFault {
    ghost use Rattle.std.specs.Prelude.{◌≡◌};
    ghost use Rattle.spool_halves.specs.declared.edits.EditFault.TheVariants.{Memory};

    ghost from_gives = { λ _ fault. fault ≡ Memory };

    fn from(_error: AllocError) -> EditFault {
        EditFault::Memory
    }
}

/// Lists the spool with these fields of the queue changed, with all documents, on a disk of its own, whatever the disk held. Returns
/// that disk, synced. The function reads the result back and compares it, and fails with `Disk` if it is not the changed spool.
pub fn set_queue<S: Disk, T: Disk + Drop>(
    alloc: Global,
    whole: &mut Spool<S>,
    name: &QueueName,
    change: &QueueChange,
    disk: T,
) -> Result<T, EditFault>
    requires settled { whole.old.held ≡ None }

    // A crash leaves exactly the changed table, with the documents of the old disk.
    ensures changed { IfOk result (λ made. IsSome (T.device.bytes made) → (c : List ℕ) → T.device.image made c → HasTable (after_change name.now change.now whole.old.state) c) }
    ensures documents { IfOk result (λ made. (r : List ℕ) → S.device.bytes whole.old.disk ≡ Some r → IsSome (T.device.bytes made) → (c : List ℕ) → T.device.image made c →
        KeepsAllDocuments whole.old.state r c) }
    ensures refused { refusal_in result ≡ change_refusal name.now change.now whole.old.state }
    ensures synced { IfOk result (IsSynced T.device) }

    // Nothing changes on the old disk.
    ensures state { whole.new.state ≡ whole.old.state }
    ensures still { ChangesNothing S.device whole.old.disk whole.new.disk }
{
    let row = match row_to_set(alloc, whole.table(), name, change) {
        Ok(row) => row,
        Err(fault) => return Err(fault),
    };
    let made = list_with_row(alloc, whole, &row, disk);
    drop(row);
    unrefused(made)
}

/// Does the same without the queue and its jobs. `purge` is whether its ended jobs may be removed.
pub fn remove_queue<S: Disk, T: Disk + Drop>(
    alloc: Global,
    whole: &mut Spool<S>,
    name: &QueueName,
    purge: bool,
    disk: T,
) -> Result<T, EditFault>
    requires settled { whole.old.held ≡ None }
    ensures removed { IfOk result (λ made. IsSome (T.device.bytes made) → (c : List ℕ) → T.device.image made c → HasTable (after_removal name.now whole.old.state) c) }
    ensures documents { IfOk result (λ made. (r : List ℕ) → S.device.bytes whole.old.disk ≡ Some r → IsSome (T.device.bytes made) → (c : List ℕ) → T.device.image made c →
        KeepsAllDocuments whole.old.state r c) }
    ensures refused { refusal_in result ≡ removal_refusal name.now purge whole.old.state }
    ensures synced { IfOk result (IsSynced T.device) }
    ensures state { whole.new.state ≡ whole.old.state }
    ensures still { ChangesNothing S.device whole.old.disk whole.new.disk }
{
    legal_tables_stay_legal();
    let table = whole.table();
    let _queues = table.queues();
    match refusal_of_removal(table, name, purge) {
        Some(refusal) => return Err(EditFault::Refused(refusal)),
        None => {}
    }
    let mut names = Vec::new(alloc);
    push_name(&mut names, name)?;
    let rest = Half {
        names: &names,
        named: false,
    };
    let made = list_half(alloc, whole, rest, disk);
    drop(names);
    unrefused(made)
}

// Returns the queue's row with the fields changed, if that is not refused.
fn row_to_set(
    alloc: Global,
    table: &Table,
    name: &QueueName,
    change: &QueueChange,
) -> Result<QueueRow, EditFault>
    ensures row { IfOk result (λ row. option_map (changed change.now) (queue_at table.now.state name.now) ≡ Some row) }
    ensures there { IfOk result (λ row. IsSome (queue_at table.now.state row.name)) }
    ensures ordered { IfOk result IsOrderedQueue }
    ensures refused { refusal_in result ≡ change_refusal name.now change.now table.now.state }
{
    match refusal_of_change(table, name, change) {
        Some(refusal) => return Err(EditFault::Refused(refusal)),
        None => {}
    }
    let _queues = table.queues();
    match table.queue(name) {
        Some(row) => ordered_row(alloc, table, row, change),
        None => Err(EditFault::Refused(EditRefusal::NoQueue)),
    }
}

// Returns the row of the table with the fields changed. Its lists are in order, as those of the row are.
fn ordered_row(
    alloc: Global,
    table: &Table,
    row: &QueueRow,
    change: &QueueChange,
) -> Result<QueueRow, EditFault>
    requires there { queue_at table.now.state row.now.name ≡ Some row.now }
    ensures row { IfOk result (λ new. new ≡ changed change.now row.now) }
    ensures ordered { IfOk result IsOrderedQueue }
    ensures refused { refusal_in result ≡ None }
{
    listings_are_loaded();
    let _highest = table.highest();
    let _queues = table.queues();
    match changed_row(alloc, row, change) {
        Ok(row) => Ok(row),
        Err(_) => Err(EditFault::Memory),
    }
}

fn push_name(names: &mut Vec<QueueName>, name: &QueueName) -> Result<(), AllocError>
    ensures { OnOk result (names.new.items ≡ names.old.items ++ (name.now ∷ [])) }
{
    let copy = name.clone()?;
    Ok(names.push(copy)?)
}

// Returns the disk, or the fault of a listing.
fn unrefused<T>(made: Result<T, HalfFault>) -> Result<T, EditFault>
    ensures disk { IfOk result (λ disk. made ≡ Ok disk) }
    ensures refused { refusal_in result ≡ None }
{
    match made {
        Ok(disk) => Ok(disk),
        Err(HalfFault::Memory) => Err(EditFault::Memory),
        Err(HalfFault::Full) => Err(EditFault::Full),
        Err(HalfFault::Disk) => Err(EditFault::Disk),
    }
}
