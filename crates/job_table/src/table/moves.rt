//! New places for the documents. While a checkpoint writes all documents again it notes their new places, and at its
//! end it sets them all at once.
ghost use Rattle.std.specs.Prelude.{◌≡◌, ℕ, ◌+◌, ◌-◌, ◌*◌, ◌^◌, ◌==◌, ◌<◌, ◌≤◌, false, List, length, Some, IsSome, OnOk, OnErr, if◌then◌else◌};
ghost use Rattle.std.specs.Ordering.{nat_cmp};
ghost use Rattle.std.specs.FinMap.{find};
ghost use Rattle.spool_types.specs.Limits.{longest_send};
ghost use Rattle.spool_types.specs.Phases.{has_ended};
ghost use Rattle.spool_types.specs.Sent.{bytes_behind, with_placed};
ghost use Rattle.spool_types.specs.State.{Job, job_at};
ghost use Rattle.job_table.specs.Contents.{HasMoves, HasNoMoves, document_room, move_room, no_moves, places_at, places_of};
ghost use Rattle.job_table.specs.DocumentLengths.{document_len};

use super::Table;
use crate::new_places::NewPlaces;
use crate::places::extent_behind;
use spool_types::JobId;
use std::alloc::AllocError;
use std::mem;

impl Table {
    /// Reserves room for the new places of all documents, and drops the places noted before. No row changes.
    pub fn prepare_moves(&mut self) -> Result<(), AllocError>
        ensures none { OnOk result (HasNoMoves self.new.state self.new.moves) }

        // There is room for one extent for each piece of each document.
        ensures room { OnOk result ((j : ℕ) (r : Job) → job_at self.new.state j ≡ Some r → document_len r ≤ move_room self.new.moves j * longest_send) }
        ensures same { self.new.state ≡ self.old.state }
        ensures places { self.new.places ≡ self.old.places }
        ensures reserved { self.new.room ≡ self.old.room }
        ensures kept { OnErr result (self.new ≡ self.old) }
    {
        let alloc = *self.lanes.allocator();
        let new_places = NewPlaces::of_rows(alloc, self.store.jobs())?;
        self.new_places = new_places;
        Ok(())
    }

    /// Notes that the next `count` bytes of a job's document are in the payload at this place. Does not allocate.
    pub fn push_move(&mut self, job: JobId, at: u64, count: usize)
        requires room { 0 < move_room self.old.moves job }
        requires at { at + bytes_behind < 2 ^ 64 }
        ensures noted { (bytes : List ℕ) (j : ℕ) → length bytes ≡ count → places_of self.new.moves.places j ≡ with_placed (places_of self.old.moves.places j) at j (Some (job, bytes)) }
        ensures there { (j : ℕ) → IsSome (find nat_cmp j self.old.moves.places) → IsSome (find nat_cmp j self.new.moves.places) }
        ensures room { (j : ℕ) → move_room self.new.moves j ≡ (if job == j then move_room self.old.moves j - 1 else move_room self.old.moves j) }
        ensures same { self.new.state ≡ self.old.state }
        ensures places { self.new.places ≡ self.old.places }
        ensures reserved { self.new.room ≡ self.old.room }
    {
        self.new_places.note(job, extent_behind(at, count));
    }

    /// Drops the new places that were noted, and frees their memory.
    pub fn forget_moves(&mut self)
        ensures none { self.new.moves ≡ no_moves }
        ensures same { self.new.state ≡ self.old.state }
        ensures places { self.new.places ≡ self.old.places }
        ensures reserved { self.new.room ≡ self.old.room }
    {
        let alloc = *self.lanes.allocator();
        self.new_places = NewPlaces::none(alloc);
    }

    /// Sets the document of each job that has not ended to the places noted for it. Does not allocate.
    pub fn commit_moves(&mut self)
        requires { HasMoves self.old.state self.old.moves }
        ensures same { self.new.state ≡ self.old.state }
        ensures places { (j : ℕ) (r : Job) → job_at self.new.state j ≡ Some r → has_ended r.phase ≡ false → places_at self.new j ≡ places_of self.old.moves.places j }
        ensures none { self.new.moves ≡ no_moves }

        // All other room is unchanged. A moved document has the room left in its list of new places.
        ensures reserved { self.new.room ≡ record self.old.room { documents = self.new.room.documents } }
        ensures documents { (j : ℕ) (r : Job) → job_at self.new.state j ≡ Some r → has_ended r.phase ≡ false → document_room self.new.room j ≡ move_room self.old.moves j }
    {
        let alloc = *self.lanes.allocator();
        let noted = mem::replace(&mut self.new_places, NewPlaces::none(alloc));
        self.store.move_documents(noted);
    }
}
