// The writes of a record: `put` writes it after a closed gate, and `open` opens that gate after the records are on the device.
ghost use Rattle.std.specs.Prelude.{◌≡◌, ◌+◌, ◌-◌, ◌<◌, ◌≤◌, ◌^◌, List, ℕ, ◌++◌, [], ◌∷◌, Some, length, OnOk};
ghost use Rattle.std.specs.Option.{option_map};
ghost use Rattle.spool_disk.specs.Disk.{IsSynced, IsWritten, LeavesOnly, ChangesOnly, HasCause, overwritten};
ghost use Rattle.gate_journal.specs.Entries.{record_of, KeepsEntries};
ghost use Rattle.gate_journal.specs.Frame.{framed, payload_of};
ghost use Rattle.gate_journal.specs.Staged.{gate_of, shown, IsBefore, KeepsStaged, IsBeforeOrAll};

use crate::frame::fill;
use crate::layout::OPEN_GATE;
use spool_disk::{DeviceFault, Disk, persist};

// Writes the record of a frame at offset `place`, without a sync. The gate of the first staged record stays closed (`held` is None). A
// later record gets an open gate, since the held gate hides it.
pub(crate) fn put<D: Disk>(
    disk: &mut D,
    place: u64,
    held: Option<u64>,
    frame: &mut [u8],
) -> Result<(), DeviceFault>
    requires before { IsBefore held place }
    requires room { place + 1 < 2 ^ 64 }
    requires whole { 5 ≤ length frame.old }
    requires short { length frame.old < 2 ^ 32 }
    requires fits { place + 1 + length frame.old ≤ D.device.size disk.old }
    ensures framed { frame.new ≡ framed (payload_of frame.old) }
    ensures written { OnOk result (shown (Some (gate_of held place)) (D.device.bytes disk.new) ≡
        option_map (overwritten place (record_of (payload_of frame.old) ++ 0 ∷ [])) (shown held (D.device.bytes disk.old))) }
    ensures changes { ChangesOnly D.device disk.old disk.new place (1 + length frame.old) }
    ensures behind { ChangesOnly D.device disk.old disk.new (gate_of held place + 1) (place + length frame.old - gate_of held place) }
    ensures cause { HasCause D.device disk.old disk.new result }
{
    fill(frame);
    disk.write(place + 1, frame)?;
    match held {
        None => Ok(()),
        Some(_) => disk.write(place, &[OPEN_GATE]),
    }
}

// Opens the gate at offset `gate` by a write of its own, after a sync of the bytes that follow it, and syncs again. Otherwise a crash could
// leave an open gate without its records.
pub(crate) fn open<D: Disk>(disk: &mut D, gate: u64) -> Result<(), DeviceFault>
    requires fits { gate + 1 ≤ D.device.size disk.old }
    ensures written { OnOk result (IsWritten D.device disk.old disk.new gate (165 ∷ [])) }
    ensures durable { OnOk result (IsSynced D.device disk.new) }
    ensures changes { ChangesOnly D.device disk.old disk.new gate 1 }
    ensures cause { HasCause D.device disk.old disk.new result }
    ensures settled { OnOk result ((base place : ℕ) (payloads staged : List (List ℕ)) → KeepsStaged D.device disk.old base place (Some gate) payloads staged →
        KeepsEntries D.device disk.new base place (payloads ++ staged)) }
    ensures any_moment { (base place : ℕ) (payloads staged : List (List ℕ)) → KeepsStaged D.device disk.old base place (Some gate) payloads staged →
        LeavesOnly D.device disk.old disk.new (IsBeforeOrAll base payloads staged) }
{
    disk.sync()?;
    persist(disk, gate, &[OPEN_GATE])
}
