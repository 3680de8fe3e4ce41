//! The steps of filling the other area: beginning it, writing rows a block of records at a time, and opening it.
ghost use Rattle.std.specs.Prelude.{◌≡◌, ◌≢◌, ◌∷◌, ◌<◌, ◌≤◌, ◌+◌, ◌^◌, ◌++◌, [], List, ℕ, Some, OnOk, IfOk, length, take, drop, slice_index_or, vec_len, vec_capacity};
ghost use Rattle.spool_disk.specs.Disk.{IsSynced, LeavesOnly, ChangesOnly, HasCause};
ghost use Rattle.gate_journal.specs.Entries.{open_gate, record_of};
ghost use Rattle.spool_areas.specs.Header.{header_len};
ghost use Rattle.spool_areas.specs.Payloads.{HasVersionAndPayloads};
ghost use Rattle.spool_areas.specs.Checkpoint.{IsClosing, StandsNew, ChangesOver};
ghost use Rattle.spool_areas.specs.AreaFilling.{Change, CanChange, Fills, change_of};

use crate::header::{HEADER_LEN, header_behind_gate};
use gate_journal::OPEN_GATE;
use spool_disk::{DeviceFault, Disk, persist};

/// Closes the gate of the other area's header if it reads open, and syncs. A write to a closed gate could leave any
/// byte there after a crash, also an open gate, before the bytes after it are a header.
pub(crate) fn close_header<D: Disk>(disk: &mut D, other: u64) -> Result<(), DeviceFault>
    requires { other < D.device.size disk.old }
    ensures any_moment { LeavesOnly D.device disk.old disk.new (IsClosing D.device disk.old other) }
    ensures closed { OnOk result ((r : List ℕ) → D.device.bytes disk.new ≡ Some r → slice_index_or r other 0 ≢ open_gate) }
    ensures durable { OnOk result (IsSynced D.device disk.new) }
    ensures changes { ChangesOnly D.device disk.old disk.new other 1 }
    ensures cause { HasCause D.device disk.old disk.new result }
{
    let mut gate = [0; 1];
    disk.read(other, &mut gate)?;
    if gate[0] != OPEN_GATE {
        return disk.sync();
    }
    persist(disk, other, &[0])
}

/// Begins to fill the other area. The gate of its header is closed if it reads open, and synced. Then the rest of the
/// header is written, and a closed gate where the records begin, which needs no sync. It returns that gate's place.
pub(crate) fn begin_area<D: Disk>(disk: &mut D, other: u64, epoch: u64) -> Result<u64, DeviceFault>
    requires within { other + 17 ≤ D.device.size disk.old }
    requires fits { other + 17 < 2 ^ 64 }
    ensures place { IfOk result (λ gate. gate ≡ other + header_len) }
    ensures begun { OnOk result ((len base old_epoch version : ℕ) (payloads : List (List ℕ)) → CanChange D.device (change_of disk.old len base other old_epoch epoch version payloads) →
        Fills D.device (change_of disk.old len base other old_epoch epoch version payloads) disk.new (other + header_len) [] []) }
    ensures any_moment { (len base old_epoch version : ℕ) (payloads : List (List ℕ)) → CanChange D.device (change_of disk.old len base other old_epoch epoch version payloads) →
        LeavesOnly D.device disk.old disk.new (HasVersionAndPayloads base version payloads) }
    ensures changes { ChangesOnly D.device disk.old disk.new other 17 }
    ensures cause { HasCause D.device disk.old disk.new result }
{
    close_header(disk, other)?;
    disk.write(other + 1, &header_behind_gate(epoch))?;
    disk.write(other + HEADER_LEN, &[0])?;
    Ok(other + HEADER_LEN)
}

/// Turns the bytes of a block from `start` on, five free bytes and a payload, into a record. The record's gate is open,
/// because no image counts it while the header's gate is closed.
pub(crate) fn fill_head(block: &mut Vec<u8>, start: usize)
    requires whole { start + 5 ≤ length block.old.items }
    requires short { length block.old.items < 2 ^ 32 }
    ensures filled { block.new.items ≡ take start block.old.items ++ record_of (drop (start + 5) block.old.items) }
    ensures len { vec_len block.new ≡ vec_len block.old }
    ensures spare { vec_capacity block.new ≡ vec_capacity block.old }
{
    let len = block.len() - start - 5;
    let size = (len as u32).to_be_bytes();
    block[start..start + 5].copy_from_slice(&[OPEN_GATE, size[0], size[1], size[2], size[3]]);
}

/// Writes the records of a block at the closed gate `gate`, with a closed gate after them, and returns the place of
/// that gate. It does not sync: while the header's gate is closed, no image counts these bytes. The block is empty
/// afterwards.
pub(crate) fn write_block<D: Disk>(
    disk: &mut D,
    gate: u64,
    block: &mut Vec<u8>,
) -> Result<u64, DeviceFault>
    requires spare { vec_len block.old + 1 ≤ vec_capacity block.old }
    requires within { gate + length block.old.items + 1 ≤ D.device.size disk.old }
    requires fits { gate + length block.old.items + 1 < 2 ^ 64 }
    ensures place { IfOk result (λ next. next ≡ gate + length block.old.items) }
    ensures emptied { block.new.items ≡ [] }
    ensures empty { vec_len block.new ≡ 0 }
    ensures spare { vec_capacity block.old ≤ vec_capacity block.new }
    ensures added { OnOk result ((x : Change D) (rows : List (List ℕ)) → gate + length block.old.items + 1 ≤ x.other + x.len → Fills D.device x disk.old gate block.old.items rows →
        Fills D.device x disk.new (gate + length block.old.items) [] rows) }
    ensures any_moment { (x : Change D) (rows : List (List ℕ)) → gate + length block.old.items + 1 ≤ x.other + x.len → Fills D.device x disk.old gate block.old.items rows →
        LeavesOnly D.device x.start disk.new (HasVersionAndPayloads x.base x.version x.payloads) }
    ensures changes { ChangesOnly D.device disk.old disk.new gate (length block.old.items + 1) }
    ensures cause { HasCause D.device disk.old disk.new result }
{
    let next = gate + block.len() as u64;
    push_closed_gate(block);
    let written = disk.write(gate, block);
    block.clear();
    written?;
    Ok(next)
}

// Appends a closed gate to the records of a block, within its capacity.
fn push_closed_gate(block: &mut Vec<u8>)
    requires { vec_len block.old + 1 ≤ vec_capacity block.old }
    ensures items { block.new.items ≡ block.old.items ++ 0 ∷ [] }
    ensures spare { vec_capacity block.old ≤ vec_capacity block.new }
{
    match block.extend_from_slice(&[0]) {
        Ok(()) => {}
        Err(_) => unreachable!(),
    }
}

/// Opens the header of the area that was filled, after all its bytes are on the device. From then on an image may have
/// the rows.
pub(crate) fn open_area<D: Disk>(disk: &mut D, other: u64) -> Result<(), DeviceFault>
    requires { other < D.device.size disk.old }
    ensures changed { OnOk result ((x : Change D) (gate : ℕ) (rows : List (List ℕ)) → x.other ≡ other → gate < x.other + x.len → Fills D.device x disk.old gate [] rows →
        StandsNew D.device disk.new x.other x.new_epoch gate rows) }
    ensures any_moment { (x : Change D) (gate : ℕ) (rows : List (List ℕ)) → x.other ≡ other → gate < x.other + x.len → Fills D.device x disk.old gate [] rows →
        ChangesOver D.device x.start disk.new x.base x.version x.payloads x.other rows }
    ensures durable { OnOk result (IsSynced D.device disk.new) }
    ensures changes { ChangesOnly D.device disk.old disk.new other 1 }
    ensures cause { HasCause D.device disk.old disk.new result }
{
    disk.sync()?;
    persist(disk, other, &[OPEN_GATE])
}
