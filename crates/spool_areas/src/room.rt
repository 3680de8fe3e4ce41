//! Whether payloads fit between a gate and the end of an area.
ghost use Rattle.std.specs.Prelude.{◌≡◌, ◌∷◌, ◌≤◌, ◌+◌, [], List, ℕ, IsTrue, length, map};
ghost use Rattle.gate_journal.specs.Appends.{kept_room};
ghost use Rattle.gate_journal.specs.Entries.{records};
ghost use Rattle.spool_areas.specs.Checkpoint.{has_room};
ghost use Rattle.spool_areas.specs.AreaFilling.{sum_of};

use gate_journal::{HEAD_LEN, KEPT_ROOM};

/// Returns whether payloads of these lengths can be appended in order from gate `first` on.
pub(crate) fn have_room(end: u64, first: u64, lengths: &[u64]) -> bool
    requires { first ≤ end }
    ensures { result ≡ has_room end first lengths.now }
{
    let mut gate = first;
    for len in lengths {
        if !has_room_at(end, gate, *len) {
            return false;
        }
        gate += 5 + *len;
    }
    true
}

/// Returns the same for records whose lengths, 5 bytes and the payload each, have this sum. The greatest sum represents
/// any sum above it too.
pub(crate) fn have_room_by_sum(end: u64, first: u64, sum: u64) -> bool
    requires { first + kept_room ≤ end }
    ensures exact { (payloads : List (List ℕ)) → sum ≡ sum_of payloads → result ≡ has_room end first (map length payloads) }
    ensures fits { IsTrue result → (payloads : List (List ℕ)) → sum ≡ sum_of payloads → first + length (records payloads) + kept_room ≤ end }
{
    end - first - KEPT_ROOM >= sum
}

// Returns whether the record of a payload of this length and the 7 bytes reserved after it fit between a gate and the
// end.
fn has_room_at(end: u64, gate: u64, len: u64) -> bool
    requires { gate ≤ end }
    ensures { result ≡ has_room end gate (len ∷ []) }
{
    let taken = HEAD_LEN + KEPT_ROOM;
    end - gate >= taken && end - gate - taken >= len
}
