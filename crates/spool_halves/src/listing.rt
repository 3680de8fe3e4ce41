//! Making a half of a spool on a disk of its own.
ghost use Rattle.std.specs.Prelude.{◌≡◌, List, ℕ, None, Some, IfOk, IsSome, OnOk, map};
ghost use Rattle.spool_disk.specs.Disk.{ChangesNothing, IsSynced};
ghost use Rattle.spool_halves.specs.Halves.{HasHalf, KeepsDocuments};

use crate::filling::{Listed, write_rows};
use crate::reading_back::are_same_documents;
use crate::tables::is_half;
use job_rows::Rows;
use split_rows::{Half, HalfFault};
use spool_core::{Spool, one_reading};
use spool_disk::Disk;
use spool_types::JobId;
use std::alloc::{AllocError, Global};

/// Lists a half of a spool, with its documents, on a disk of its own, whatever the disk held. Returns that disk, synced. The rows
/// are those that the whole spool shows: an attempt that is running is listed as such. The function reads the result back and
/// compares it, and fails with `Disk` if it is not the half.
pub fn list_half<S: Disk, T: Disk + Drop>(
    alloc: Global,
    whole: &mut Spool<S>,
    half: Half<'_>,
    disk: T,
) -> Result<T, HalfFault>
    requires settled { whole.old.held ≡ None }

    // A crash leaves the table of the half, with the documents of the whole spool's disk.
    ensures half { IfOk result (λ made. IsSome (T.device.bytes made) → (c : List ℕ) → T.device.image made c →
        HasHalf half.entry.named half.entry.names.now whole.old.state c) }
    ensures documents { IfOk result (λ made. (r : List ℕ) → S.device.bytes whole.old.disk ≡ Some r → IsSome (T.device.bytes made) → (c : List ℕ) → T.device.image made c →
        KeepsDocuments half.entry.named half.entry.names.now whole.old.state r c) }
    ensures synced { IfOk result (IsSynced T.device) }

    // Nothing changes on the whole spool's disk.
    ensures state { whole.new.state ≡ whole.old.state }
    ensures held { whole.new.held ≡ whole.old.held }
    ensures still { ChangesNothing S.device whole.old.disk whole.new.disk }
{
    let written = write_rows(alloc, whole, Listed { half, row: None }, disk)?;
    let Ok(mut part) = Spool::load(alloc, written) else {
        return Err(HalfFault::Disk);
    };
    look_back(alloc, whole, &mut part, half)?;
    Ok(part.into_disk())
}

// Checks that the part is the half of the whole spool, with the same documents. Fails with `Disk` if it is not.
fn look_back<S: Disk, T: Disk>(
    alloc: Global,
    whole: &mut Spool<S>,
    part: &mut Spool<T>,
    half: Half<'_>,
) -> Result<(), HalfFault>
    requires whole_settled { whole.old.held ≡ None }
    requires part_settled { part.old.held ≡ None }
    ensures half { OnOk result (IsSome (T.device.bytes part.new.disk) → (c : List ℕ) → T.device.image part.new.disk c →
        HasHalf half.entry.named half.entry.names.now whole.old.state c) }
    ensures documents { OnOk result ((r : List ℕ) → S.device.bytes whole.old.disk ≡ Some r → IsSome (T.device.bytes part.new.disk) → (c : List ℕ) → T.device.image part.new.disk c →
        KeepsDocuments half.entry.named half.entry.names.now whole.old.state r c) }
    ensures synced { OnOk result (IsSynced T.device part.new.disk) }
    ensures state { whole.new.state ≡ whole.old.state }
    ensures held { whole.new.held ≡ whole.old.held }
    ensures still { ChangesNothing S.device whole.old.disk whole.new.disk }
{
    one_reading();
    let whole_table = whole.table();
    let part_table = part.table();
    let has_rows = is_half(alloc, whole_table, part_table, half)?;
    if !has_rows {
        return Err(HalfFault::Disk);
    }
    let _whole_jobs = whole_table.jobs();
    let part_jobs = part_table.jobs();
    let numbers = numbers_of(alloc, part_jobs)?;
    let has_documents = are_same_documents(alloc, whole, part, &numbers)?;
    if !has_documents || part.is_dead() {
        return Err(HalfFault::Disk);
    }
    let _table = part.table();
    Ok(())
}

// Returns the numbers of all jobs.
pub(crate) fn numbers_of(alloc: Global, jobs: &Rows) -> Result<Vec<JobId>, AllocError>
    ensures { IfOk result (λ numbers. numbers.items ≡ map (λ row. row.job.id) jobs.now.items) }
{
    let mut numbers = Vec::new(alloc);
    for row in jobs.iter() {
        numbers.push(row.job.id)?;
    }
    Ok(numbers)
}
