//! Comparing documents on two disks.
ghost use Rattle.std.specs.Prelude.{◌≡◌, List, ℕ, None, Some, IfOk, IsTrue};
ghost use Rattle.std.specs.List.{AllByRecursion};
ghost use Rattle.spool_disk.specs.Disk.{ChangesNothing};
ghost use Rattle.spool_core.specs.DocumentReading.{IsDocument};
ghost use Rattle.spool_halves.specs.Halves.{IsSameDocument};

use split_rows::HalfFault;
use spool_core::{Spool, Unread, read_whole};
use spool_disk::Disk;
use spool_types::JobId;
use std::alloc::Global;

/// Returns the document of a job. Fails with `Disk` if the spool has no such job.
pub(crate) fn document_of<S: Disk>(
    alloc: Global,
    spool: &mut Spool<S>,
    job: JobId,
) -> Result<Vec<u8>, HalfFault>
    ensures document { IfOk result (λ bytes. IsDocument S.device spool.old job bytes.items) }
    ensures state { spool.new.state ≡ spool.old.state }
    ensures held { spool.new.held ≡ spool.old.held }
    ensures still { ChangesNothing S.device spool.old.disk spool.new.disk }
{
    if spool.is_dead() || spool.table().job(job).is_none() {
        return Err(HalfFault::Disk);
    }
    match read_whole(alloc, spool, job) {
        Ok(bytes) => Ok(bytes),
        Err(Unread::Memory) => Err(HalfFault::Memory),
        Err(Unread::Disk) => Err(HalfFault::Disk),
    }
}

/// Returns whether each of these jobs has the same document in both spools.
pub(crate) fn are_same_documents<S: Disk, T: Disk>(
    alloc: Global,
    whole: &mut Spool<S>,
    part: &mut Spool<T>,
    jobs: &[JobId],
) -> Result<bool, HalfFault>
    requires whole_settled { whole.old.held ≡ None }
    requires part_settled { part.old.held ≡ None }
    ensures same { IfOk result (λ same. IsTrue same → (r t : List ℕ) → S.device.bytes whole.old.disk ≡ Some r → T.device.bytes part.old.disk ≡ Some t →
        AllByRecursion (IsSameDocument whole.old.state part.old.state r t) jobs.now) }
    ensures whole_state { whole.new.state ≡ whole.old.state }
    ensures part_state { part.new.state ≡ part.old.state }
    ensures whole_held { whole.new.held ≡ whole.old.held }
    ensures part_held { part.new.held ≡ part.old.held }
    ensures whole_still { ChangesNothing S.device whole.old.disk whole.new.disk }
    ensures part_still { ChangesNothing T.device part.old.disk part.new.disk }
{
    for job in jobs {
        let there = document_of(alloc, whole, *job)?;
        let here = document_of(alloc, part, *job)?;
        let same = there.as_slice() == here.as_slice();
        if !same {
            return Ok(false);
        }
    }
    Ok(true)
}
