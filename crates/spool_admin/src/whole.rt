//! Loading the spool of a folder.
ghost use Rattle.std.specs.Prelude.{◌≡◌, IfErr, IfOk, None};
ghost use Rattle.spool_admin.specs.AdminFaults.{IsOfLoading};

use crate::fault::AdminFault;
use spool_core::Spool;
use spool_disk::Disk;
use spool_runtime::{NamedDisk, SpoolFolder};

/// Returns the folder's spool, and the length of its file. Writes nothing.
pub fn whole_spool<'r>(
    rt: &'r HostRuntime,
    folder: &SpoolFolder<'_>,
) -> Result<(Spool<NamedDisk<'r>>, u64), AdminFault>
    ensures settled { IfOk result (λ found. found.0.held ≡ None) }
    ensures fault { IfErr result IsOfLoading }
{
    let disk = folder.device_there(rt)?;
    let size = disk.len();
    match Spool::load(rt.alloc(), disk) {
        Ok(whole) => Ok((whole, size)),
        Err(error) => Err(AdminFault::from(error.fault)),
    }
}
