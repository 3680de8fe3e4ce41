//! Setting new places of documents.
ghost use Rattle.std.specs.Prelude.{◌≡◌, ℕ, ◌<◌, false, Some, IsTrue, length, map, slice_index_or};
ghost use Rattle.std.specs.Ordering.{nat_cmp};
ghost use Rattle.std.specs.FinMap as finite;
ghost use Rattle.spool_types.specs.Phases.{has_ended};
ghost use Rattle.spool_types.specs.State.{Job, job_at};
ghost use Rattle.job_table.specs.Contents.{HasMoves, document_room, move_room, places_at, places_of};
ghost use Rattle.job_table.specs.TableRows.{job_entry, HasNew, IsMoved};

use super::Store;
use crate::new_places::NewPlaces;
use job_rows::Rows;
use spool_types::JobRow;

impl Store {
    /// Sets the document of each job that has not ended to its new places. Does not allocate.
    pub(crate) fn move_documents(&mut self, noted: NewPlaces)
        requires { HasMoves self.old.state noted }
        ensures state { self.new.state ≡ self.old.state }
        ensures places { (j : ℕ) (r : Job) → job_at self.new.state j ≡ Some r → has_ended r.phase ≡ false → places_at self.new j ≡ places_of noted.places j }
        ensures room { self.new.room ≡ record self.old.room { documents = self.new.room.documents } }
        ensures documents { (j : ℕ) (r : Job) → job_at self.new.state j ≡ Some r → has_ended r.phase ≡ false → document_room self.new.room j ≡ move_room noted j }
    {
        move_rows(&mut self.jobs, noted);
    }
}

fn move_rows(rows: &mut Rows, mut noted: NewPlaces)
    requires sorted { IsTrue (finite.is_sorted nat_cmp (map job_entry rows.old.items)) }
    requires own { rows.old.numbers ≡ map (λ r. r.job.id) rows.old.items }
    requires there { (i : ℕ) (d : JobRow) → i < length rows.old.items → HasNew noted.places (slice_index_or rows.old.items i d) }
    ensures count { length rows.new.items ≡ length rows.old.items }
    ensures each { (i : ℕ) (d : JobRow) → i < length rows.new.items → IsMoved noted (slice_index_or rows.old.items i d) (slice_index_or rows.new.items i d) }
    ensures rest { rows.new ≡ record rows.old { items = rows.new.items } }
{
    let mut next = rows.first();
    while let Some(job) = next {
        move_row(rows.row_mut(job), &mut noted);
        next = rows.next_above(job.get());
    }
}

// Sets the document of a job that has not ended to its new places.
fn move_row(row: &mut JobRow, noted: &mut NewPlaces)
    requires { HasNew noted.old.places row.old }
    ensures moved { IsMoved noted.old row.old row.new }
    ensures others { (j : ℕ) → ¬ (j ≡ row.old.job.id) → finite.find nat_cmp j noted.new.places ≡ finite.find nat_cmp j noted.old.places }
    ensures room { (j : ℕ) → ¬ (j ≡ row.old.job.id) → move_room noted.new j ≡ move_room noted.old j }
{
    if row.job.phase.has_ended() {
        return;
    }
    row.document = noted.take(row.job.id);
}
