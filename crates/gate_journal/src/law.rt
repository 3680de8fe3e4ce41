// The laws of a journal's bytes.
ghost use Rattle.std.specs.Prelude.{◌≡◌, ℕ, List};
ghost use Rattle.gate_journal.specs.Entries.{HasEntries};

/// Bytes have at most one list of entries from an offset on, so a journal's bytes determine its entries.
pub fn entries_law()
    ensures { (base : ℕ) (some others : List (List ℕ)) (bytes : List ℕ) → HasEntries base some bytes → HasEntries base others bytes → some ≡ others }
{}
