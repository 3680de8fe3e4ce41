//! Reads a document.
ghost use Rattle.std.specs.Prelude.{◌≡◌, ◌<◌, ◌≤◌, ◌+◌, ◌^◌, ◌↔◌, ◌⊎◌, ℕ, List, Some, OnOk, IsErrOf, IsTrue, length, take, drop};
ghost use Rattle.spool_disk.specs.Disk.{Blames, ChangesNothing};
ghost use Rattle.spool_areas.specs.Header.{header_len};
ghost use Rattle.spool_areas.specs.Current.{KeepsPayloads};
ghost use Rattle.spool_areas.specs.AreaStages.{KeepsStagedPayloads};
ghost use Rattle.extents.specs.Extents.{size_of};
ghost use Rattle.documents.specs.Documents.{joined, LieIn};

use spool_areas::{Areas, Extent, ReadFault};
use spool_disk::Disk;

/// Reads bytes of a document from offset `at` of the document on.
///
/// The extents are in the current area, after its header. After `Disk`, `into` may have any contents.
pub fn read_joined<D: Disk>(
    areas: &mut Areas<D>,
    extents: &[Extent],
    at: u64,
    into: &mut [u8],
) -> Result<(), ReadFault>
    requires lie { LieIn (areas.old.base + header_len) areas.old.end extents.now }
    requires inside { at + length into.old ≤ size_of extents.now }
    requires within { areas.old.end ≤ D.device.size areas.old.disk }
    requires sized { D.device.size areas.old.disk < 2 ^ 64 }

    ensures data { OnOk result ((r : List ℕ) → D.device.bytes areas.old.disk ≡ Some r →
        into.new ≡ take (length into.old) (drop at (joined r extents.now))) }
    ensures dead { IsErrOf result ReadFault.Dead ↔ IsTrue areas.old.dead }
    ensures blames { Blames (D.device.failures areas.old.disk) (D.device.failures areas.new.disk) (IsErrOf result ReadFault.Disk) }
    ensures dies { IsTrue areas.new.dead ↔ (IsTrue areas.old.dead ⊎ IsErrOf result ReadFault.Disk) }
    ensures untouched { IsErrOf result ReadFault.Dead → areas.new ≡ areas.old }
    ensures unread { IsErrOf result ReadFault.Dead → into.new ≡ into.old }

    // A read changes nothing, and a crash meanwhile leaves only images that were possible before it.
    ensures same { (areas.new.base ≡ areas.old.base) × (areas.new.end ≡ areas.old.end) × (areas.new.epoch ≡ areas.old.epoch) × (areas.new.gate ≡ areas.old.gate) × (areas.new.version ≡ areas.old.version) }
    ensures held { areas.new.held ≡ areas.old.held }
    ensures still { ChangesNothing D.device areas.old.disk areas.new.disk }
    ensures keeps { (payloads : List (List ℕ)) → KeepsPayloads D.device areas.old payloads → KeepsPayloads D.device areas.new payloads }
    ensures staged { (payloads staged : List (List ℕ)) → KeepsStagedPayloads D.device areas.old payloads staged → KeepsStagedPayloads D.device areas.new payloads staged }
{
    if areas.is_dead() {
        return Err(ReadFault::Dead);
    }
    let mut skip = at;
    let mut done = 0;
    for extent in extents {
        if skip >= extent.len {
            skip -= extent.len;
            continue;
        }
        let left = extent.len - skip;
        if (into.len() - done) as u64 <= left {
            return areas.read_extent(extent.place + skip, &mut into[done..]);
        }
        let end = done + left as usize;
        areas.read_extent(extent.place + skip, &mut into[done..end])?;
        done = end;
        skip = 0;
    }
    Ok(())
}
