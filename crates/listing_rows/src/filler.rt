//! Rows of a block that are written to the other area.
ghost use Rattle.std.specs.Prelude.{◌≡◌, ◌<◌, ◌≤◌, ◌+◌, ◌^◌, ◌∷◌, [], length, take, drop, false, Ok, OnOk, vec_len, vec_capacity};
ghost use Rattle.spool_types.specs.declared.listing.Row.{Row as RowOf};
ghost use Rattle.spool_types.specs.declared.version.Version.TheVariants.{Two};
ghost use Rattle.spool_areas.specs.Header.{header_len};
ghost use Rattle.spool_areas.specs.Checkpoint.{area_len, other_base};
ghost use Rattle.event_codec.specs.RowSpelling.{row_spelling, IsRowSpellable};
ghost use Rattle.listing_rows.specs.RowFilling.{filling, filling_at, IsFillingOn, AddsRows};

use spool_areas::{AreaFault, Areas};
use spool_disk::Disk;

/// Rows that are not written yet, and the position of their records in the area.
#[derive(Drop)]
pub struct Filler {
    /// The place of the next records in the other area.
    pub gate: u64,
    /// The records that are not written yet.
    pub block: Vec<u8>,
}

/// Ends the record that begins at this index of the block. If the block is long enough, writes all of it.
pub fn end_record<D: Disk>(
    areas: &mut Areas<D>,
    filler: &mut Filler,
    start: usize,
) -> Result<(), AreaFault>
    requires alive { areas.old.dead ≡ false }
    requires whole { start + 5 ≤ length filler.old.block.items }
    requires short { length filler.old.block.items < 2 ^ 32 }
    requires spare { vec_len filler.old.block + 1 ≤ vec_capacity filler.old.block }
    requires behind { other_base areas.old + header_len ≤ filler.old.gate }
    requires room { filler.old.gate + length filler.old.block.items + 1 ≤ other_base areas.old + area_len areas.old }

    ensures on { IsFillingOn D.device (filling areas.old filler.old.gate (take start filler.old.block.items)) (filling_at areas.new filler.new) result }
    ensures added { OnOk result ((row : RowOf) → drop (start + 5) filler.old.block.items ≡ row_spelling Two row → IsRowSpellable Two row →
        AddsRows D.device (row ∷ []) (filling areas.old filler.old.gate (take start filler.old.block.items)) (filling_at areas.new filler.new)) }
    ensures spare { vec_capacity filler.old.block ≤ vec_capacity filler.new.block }
{
    filler.gate = areas.add_row(filler.gate, &mut filler.block, start)?;
    Ok(())
}
