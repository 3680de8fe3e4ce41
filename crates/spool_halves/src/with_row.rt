//! Listing a spool with one row of a queue replaced.
ghost use Rattle.std.specs.Prelude.{◌≡◌, List, ℕ, None, Some, IfOk, IsSome, OnOk};
ghost use Rattle.spool_types.specs.State.{queue_at};
ghost use Rattle.event_codec.specs.RowSpelling.{IsOrderedQueue};
ghost use Rattle.spool_disk.specs.Disk.{ChangesNothing, IsSynced};
ghost use Rattle.spool_core.specs.Image.{HasTable};
ghost use Rattle.queue_edits.specs.QueueEdits.{with_row};
ghost use Rattle.spool_halves.specs.Edited.{KeepsAllDocuments};

use crate::filling::{Listed, write_rows};
use crate::listing::numbers_of;
use crate::reading_back::are_same_documents;
use crate::tables::is_with_row;
use split_rows::{Half, HalfFault};
use spool_core::{Spool, one_reading};
use spool_disk::Disk;
use spool_types::QueueRow;
use std::alloc::Global;

/// Lists all rows of a spool, with this row in place of the one with its name, and all documents, on a disk of its own.
pub(crate) fn list_with_row<S: Disk, T: Disk + Drop>(
    alloc: Global,
    whole: &mut Spool<S>,
    row: &QueueRow,
    disk: T,
) -> Result<T, HalfFault>
    requires there { IsSome (queue_at whole.old.state row.now.name) }
    requires ordered { IsOrderedQueue row.now }
    requires settled { whole.old.held ≡ None }
    ensures listed { IfOk result (λ made. IsSome (T.device.bytes made) → (c : List ℕ) → T.device.image made c → HasTable (with_row (Some row.now) whole.old.state) c) }
    ensures documents { IfOk result (λ made. (r : List ℕ) → S.device.bytes whole.old.disk ≡ Some r → IsSome (T.device.bytes made) → (c : List ℕ) → T.device.image made c →
        KeepsAllDocuments whole.old.state r c) }
    ensures synced { IfOk result (IsSynced T.device) }
    ensures state { whole.new.state ≡ whole.old.state }
    ensures held { whole.new.held ≡ whole.old.held }
    ensures still { ChangesNothing S.device whole.old.disk whole.new.disk }
{
    let all = Half {
        names: &[],
        named: false,
    };
    let listed = Listed {
        half: all,
        row: Some(row),
    };
    let written = write_rows(alloc, whole, listed, disk)?;
    let Ok(mut part) = Spool::load(alloc, written) else {
        return Err(HalfFault::Disk);
    };
    look_back_with(alloc, whole, &mut part, row)?;
    Ok(part.into_disk())
}

// Checks that the part is the whole spool with this row, with the same documents. Fails with `Disk` if it is not.
fn look_back_with<S: Disk, T: Disk>(
    alloc: Global,
    whole: &mut Spool<S>,
    part: &mut Spool<T>,
    row: &QueueRow,
) -> Result<(), HalfFault>
    requires there { IsSome (queue_at whole.old.state row.now.name) }
    requires ordered { IsOrderedQueue row.now }
    requires whole_settled { whole.old.held ≡ None }
    requires part_settled { part.old.held ≡ None }
    ensures listed { OnOk result (IsSome (T.device.bytes part.new.disk) → (c : List ℕ) → T.device.image part.new.disk c → HasTable (with_row (Some row.now) whole.old.state) c) }
    ensures documents { OnOk result ((r : List ℕ) → S.device.bytes whole.old.disk ≡ Some r → IsSome (T.device.bytes part.new.disk) → (c : List ℕ) → T.device.image part.new.disk c →
        KeepsAllDocuments whole.old.state r c) }
    ensures synced { OnOk result (IsSynced T.device part.new.disk) }
    ensures state { whole.new.state ≡ whole.old.state }
    ensures held { whole.new.held ≡ whole.old.held }
    ensures still { ChangesNothing S.device whole.old.disk whole.new.disk }
{
    one_reading();
    let whole_table = whole.table();
    let part_table = part.table();
    let has_rows = is_with_row(alloc, whole_table, part_table, row)?;
    if !has_rows {
        return Err(HalfFault::Disk);
    }
    let _whole_jobs = whole_table.jobs();
    let part_jobs = part_table.jobs();
    let numbers = numbers_of(alloc, part_jobs)?;
    let has_documents = are_same_documents(alloc, whole, part, &numbers)?;
    if !has_documents || part.is_dead() {
        return Err(HalfFault::Disk);
    }
    let _table = part.table();
    Ok(())
}
