//! Laws: no append and no checkpoint breaks a document. The functions do nothing; their clauses are the laws.
ghost use Rattle.std.specs.Prelude.{◌≡◌, ◌≢◌, ◌≤◌, ◌+◌, ◌⊎◌, ◌++◌, [], ◌∷◌, ℕ, List, length, map};
ghost use Rattle.std.specs.List.{flat_map, AllByRecursion};
ghost use Rattle.spool_disk.specs.Disk.{SameOutside};
ghost use Rattle.gate_journal.specs.Entries.{records};
ghost use Rattle.extents.specs.declared.extent.Extent.{Extent};
ghost use Rattle.spool_areas.specs.PayloadExtents.{bytes_of};
ghost use Rattle.spool_areas.specs.Header.{header_len};
ghost use Rattle.spool_areas.specs.Payloads.{HasPayloads, gate_after};
ghost use Rattle.spool_types.specs.State.{Job};
ghost use Rattle.spool_types.specs.declared.event.Event.{Event};
ghost use Rattle.spool_types.specs.declared.listing.Row.{Row};
ghost use Rattle.spool_types.specs.declared.version.Version.{Version};
ghost use Rattle.event_codec.specs.Spelling.{spelling};
ghost use Rattle.event_codec.specs.RowSpelling.{row_spelling};
ghost use Rattle.job_table.specs.Listing.{job_rows};
ghost use Rattle.extents.specs.Extents.{size_of};
ghost use Rattle.documents.specs.Documents.{joined, LieIn};
ghost use Rattle.spool_types.specs.Sent.{sent_by, piece_of, sent, placed_to, listed_pieces, document_in};
ghost use Rattle.documents.specs.Placed.{placed, placed_pieces, payloads_of, places_in};

/// The bytes of extents.
pub fn extents_law()
    // Extents have the same bytes while nothing changes in their range. An append changes only bytes after the gate, whatever it returns,
    // and a checkpoint only bytes of the other area.
    ensures kept { (low high at n : ℕ) (xs : List Extent) (old new : List ℕ) → LieIn low high xs → (high ≤ at) ⊎ (at + n ≤ low) →
        SameOutside at n old new → joined new xs ≡ joined old xs }

    // A part of a payload is at its offset after the payload's gate if the record is written.
    ensures part { (base : ℕ) (before after : List (List ℕ)) (front part rest bytes : List ℕ) →
        HasPayloads base (before ++ (front ++ (part ++ rest)) ∷ after) bytes →
        bytes_of bytes (record { place = gate_after base before + 5 + length front; len = length part }) ≡ part }

    // It is before the gate after all payloads.
    ensures lies { (base : ℕ) (before after : List (List ℕ)) (front part rest : List ℕ) →
        gate_after base before + 5 + length front + length part ≤ gate_after base (before ++ (front ++ (part ++ rest)) ∷ after) }

    // One more extent adds its bytes.
    ensures pushed { (xs : List Extent) (x : Extent) (bytes : List ℕ) → joined bytes (xs ++ x ∷ []) ≡ joined bytes xs ++ bytes_of bytes x }
{}

/// The places of documents that events sent, and the bytes there.
pub fn placed_law()
    // In every image with these payloads the places of a job hold the bytes that were sent to it.
    ensures held { (base j : ℕ) (events : List Event) (bytes : List ℕ) → HasPayloads base (map spelling events) bytes →
        joined bytes (placed (base + header_len) events j) ≡ sent events j }

    // They are between the header of the area and the gate after the payloads.
    ensures within { (base j : ℕ) (events : List Event) →
        LieIn (base + header_len) (gate_after base (map spelling events)) (placed (base + header_len) events j) }

    // One more event, with its payload five bytes after the gate of these, adds the extent of the bytes that it sends.
    ensures added { (gate j : ℕ) (events : List Event) (e : Event) →
        placed gate (events ++ e ∷ []) j ≡ placed gate events j ++ placed_to (gate + length (records (map spelling events)) + 5) j (sent_by e) }
{}

/// The documents after a checkpoint: in the new area the places of a job hold the bytes of the pieces in the rows, and the bytes that
/// events after them sent.
pub fn moves_law()
    ensures moved { (v : Version) (base j : ℕ) (rows : List Row) (bytes : List ℕ) → HasPayloads base (map (row_spelling v) rows) bytes →
        joined bytes (placed_pieces v (base + header_len) rows j) ≡ listed_pieces rows j }
    ensures within { (v : Version) (base j : ℕ) (rows : List Row) →
        LieIn (base + header_len) (gate_after base (map (row_spelling v) rows)) (placed_pieces v (base + header_len) rows j) }

    // One more row adds the extent of its piece.
    ensures added { (v : Version) (gate j : ℕ) (rows : List Row) (row : Row) →
        placed_pieces v gate (rows ++ row ∷ []) j ≡ placed_pieces v gate rows j ++ placed_to (gate + length (records (map (row_spelling v) rows)) + 5) j (piece_of row) }

    // In every image with a listing and events after it the places of a job hold its document. They are between the header of the area and
    // the gate after the payloads, and one more event adds the extent of the bytes that it sends.
    ensures history { (v : Version) (base j : ℕ) (rows : List Row) (events : List Event) (bytes : List ℕ) → HasPayloads base (payloads_of v rows events) bytes →
        joined bytes (places_in v base rows events j) ≡ document_in rows events j }
    ensures history_within { (v : Version) (base j : ℕ) (rows : List Row) (events : List Event) →
        LieIn (base + header_len) (gate_after base (payloads_of v rows events)) (places_in v base rows events j) }
    ensures history_added { (v : Version) (base j : ℕ) (rows : List Row) (events : List Event) (e : Event) →
        places_in v base rows (events ++ e ∷ []) j ≡ places_in v base rows events j ++ placed_to (gate_after base (payloads_of v rows events) + 5) j (sent_by e) }

    // The pieces of a document hold it whole, also in a listing of jobs with distinct numbers.
    ensures pieces { (r : Job) (document : List ℕ) → listed_pieces (job_rows r document) r.id ≡ document }
    ensures listed { (documents : ℕ → List ℕ) (before after : List Job) (r : Job) → AllByRecursion (λ q. q.id ≢ r.id) before → AllByRecursion (λ q. q.id ≢ r.id) after →
        listed_pieces (flat_map (λ q. job_rows q (documents q.id)) (before ++ r ∷ after)) r.id ≡ documents r.id }
    ensures others { (r : Job) (document : List ℕ) (j : ℕ) → r.id ≢ j → listed_pieces (job_rows r document) j ≡ [] }
{}

/// The sizes of extents: the lengths of a job's places add up to the number of bytes that were sent to it.
pub fn size_law()
    ensures sent { (gate j : ℕ) (events : List Event) → size_of (placed gate events j) ≡ length (sent events j) }
    ensures listed { (v : Version) (gate j : ℕ) (rows : List Row) → size_of (placed_pieces v gate rows j) ≡ length (listed_pieces rows j) }
    ensures history { (v : Version) (base j : ℕ) (rows : List Row) (events : List Event) → size_of (places_in v base rows events j) ≡ length (document_in rows events j) }
    ensures pushed { (xs : List Extent) (x : Extent) → size_of (xs ++ x ∷ []) ≡ size_of xs + x.len }

    // On a device that contains the extents, the length of their bytes is their size.
    ensures joined { (low high : ℕ) (xs : List Extent) (bytes : List ℕ) → LieIn low high xs → high ≤ length bytes → length (joined bytes xs) ≡ size_of xs }
{}
