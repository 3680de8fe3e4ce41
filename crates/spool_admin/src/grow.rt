//! Making a spool's file larger.
ghost use Rattle.std.specs.Prelude.{◌≡◌, ◌+◌, ◌<◌, ◌↔◌, List, ℕ, Some, IfErr, IfOk, IsErrOf};
ghost use Rattle.spool_disk.specs.Disk.{IsSynced};
ghost use Rattle.spool_admin.specs.AdminFaults.{IsOfGrowth};
ghost use Rattle.spool_admin.specs.Grown.{IsGrownFrom, copied_over};

use crate::copying::copy;
use crate::fault::AdminFault;
use crate::found::{Found, find};
use spool_core::{OpenError, OpenFault, Spool};
use spool_disk::Disk;
use spool_runtime::SpoolFolder;
use std::alloc::Global;

/// Gives the spool of a folder a file of `size` bytes. After a fault the old spool exists unchanged, unless the last sync of the
/// folder failed: then the new file already has the name.
pub fn grow(rt: &HostRuntime, dir: &str, size: u64) -> Result<(), AdminFault>
    ensures { IfErr result IsOfGrowth }
{
    let folder = SpoolFolder::own(rt, dir)?;
    let old = find(rt.alloc(), folder.device_there(rt)?)?;
    if size < old.account.size {
        return Err(AdminFault::Smaller);
    }
    let next = folder.next_device(rt, size)?;
    match list(rt.alloc(), old, next) {
        Ok(next) => drop(next),
        Err(fault) => {
            let _ = folder.remove_unfinished(rt);
            return Err(fault);
        }
    }
    Ok(folder.replace_device(rt)?)
}

/// Lists the contents of a spool's disk in the second area of another disk, which has only zeros. Returns that disk, synced.
pub fn list<S: Disk + Drop, T: Disk + Drop>(
    alloc: Global,
    old: Found<S>,
    mut next: T,
) -> Result<T, AdminFault>
    requires within { old.base + old.account.used < S.device.size old.disk }
    requires short { old.account.used < old.account.size }
    ensures smaller { IsErrOf result AdminFault.Smaller ↔ (T.device.size next < old.account.size) }
    ensures fault { IfErr result IsOfGrowth }
    ensures synced { IfOk result (IsSynced T.device) }
    // A crash leaves the table that opening the copied bytes yields, with their documents.
    ensures grown { IfOk result (λ disk. (r t : List ℕ) → S.device.bytes old.disk ≡ Some r → T.device.bytes next ≡ Some t →
        (c : List ℕ) → T.device.image disk c → IsGrownFrom (copied_over old.base (old.account.used + 1) r t) c) }
    ensures fixed { IfOk result (λ disk. T.device.size disk ≡ T.device.size next) }
{
    let Found {
        mut disk,
        base,
        account,
    } = old;
    if next.len() < account.size {
        return Err(AdminFault::Smaller);
    }
    // With the closed gate after the records.
    if copy(&mut disk, base, account.used + 1, &mut next).is_err() {
        return Err(AdminFault::from(OpenFault::Disk));
    }
    let mut spool = match Spool::open(alloc, next) {
        Ok(spool) => spool,
        Err(OpenError { fault, .. }) => return Err(AdminFault::from(fault)),
    };
    spool.checkpoint()?;
    Ok(spool.into_disk())
}
