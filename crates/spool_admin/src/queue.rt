//! Changing and removing a queue.
ghost use Rattle.std.specs.Prelude.{◌⊎◌, IfErr};
ghost use Rattle.spool_admin.specs.AdminFaults.{IsOfEdit, IsOfLoading};

use crate::edit::{QueueEdit, list_edited, refusal_of};
use crate::fault::AdminFault;
use crate::whole::whole_spool;
use spool_disk::FileDisk;
use spool_runtime::SpoolFolder;
use spool_types::QueueName;

/// Edits a queue of the folder's spool. After a fault the old spool exists unchanged, unless the last sync of the folder failed: then
/// the new file already has the name.
pub fn edit_queue(
    rt: &HostRuntime,
    dir: &str,
    name: &QueueName,
    edit: &QueueEdit,
) -> Result<(), AdminFault>
    ensures { IfErr result (λ fault. IsOfLoading fault ⊎ IsOfEdit fault) }
{
    let folder = SpoolFolder::own(rt, dir)?;
    match write_edited(rt, &folder, name, edit) {
        Ok(next) => drop(next),
        Err(fault) => {
            let _ = folder.remove_unfinished(rt);
            return Err(fault);
        }
    }
    Ok(folder.replace_device(rt)?)
}

// Makes the new file, complete and synced, under the name of an unfinished one. Nothing is made for an edit that is refused.
#[tactic(auto, using(crate::proofs::EditFaults::made))]
fn write_edited(
    rt: &HostRuntime,
    folder: &SpoolFolder<'_>,
    name: &QueueName,
    edit: &QueueEdit,
) -> Result<FileDisk, AdminFault>
    ensures { IfErr result (λ fault. IsOfLoading fault ⊎ IsOfEdit fault) }
{
    let (mut whole, size) = whole_spool(rt, folder)?;
    if let Some(refusal) = refusal_of(whole.table(), name, edit) {
        return Err(AdminFault::from(refusal));
    }
    let next = folder.next_device(rt, size)?;
    list_edited(rt.alloc(), &mut whole, name, edit, next)
}
