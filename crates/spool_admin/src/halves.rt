//! Listing both halves of a spool.
ghost use Rattle.std.specs.Prelude.{◌≡◌, IfOk, None, true, false};
ghost use Rattle.spool_disk.specs.Disk.{ChangesNothing, IsSynced};
ghost use Rattle.spool_admin.specs.HalfImages.{LeavesHalf};

use spool_core::Spool;
use spool_disk::Disk;
use spool_halves::{Half, HalfFault, list_half};
use spool_types::QueueName;
use std::alloc::Global;

/// The disks of the two halves.
#[derive(Drop)]
pub struct Halves<T> {
    /// The disk of the named queues.
    pub part: T,
    /// The disk of all other queues.
    pub rest: T,
}

/// Lists the queues with these names, with their jobs and documents, on one disk, and all others on the other disk. Returns both
/// disks. The spool's own disk does not change.
pub fn list_halves<S: Disk, T: Disk + Drop>(
    alloc: Global,
    whole: &mut Spool<S>,
    names: &[QueueName],
    disks: Halves<T>,
) -> Result<Halves<T>, HalfFault>
    requires settled { whole.old.held ≡ None }
    ensures part { IfOk result (λ made. LeavesHalf T.device true names.now whole.old.state (S.device.bytes whole.old.disk) made.part) }
    ensures rest { IfOk result (λ made. LeavesHalf T.device false names.now whole.old.state (S.device.bytes whole.old.disk) made.rest) }
    ensures synced { IfOk result (λ made. IsSynced T.device made.part × IsSynced T.device made.rest) }
    ensures state { whole.new.state ≡ whole.old.state }
    ensures still { ChangesNothing S.device whole.old.disk whole.new.disk }
{
    let Halves { part, rest } = disks;
    let part = list_half(alloc, whole, Half { names, named: true }, part)?;
    let rest = list_half(
        alloc,
        whole,
        Half {
            names,
            named: false,
        },
        rest,
    )?;
    Ok(Halves { part, rest })
}
