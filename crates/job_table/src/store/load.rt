//! Adding the rows of a listing, each as the last one.
ghost use Rattle.std.specs.Prelude.{◌≡◌, ℕ, ◌<◌, ◌≤◌, ◌∷◌, [], false, IsTrue, OnOk, OnErr};
ghost use Rattle.std.specs.Ordering.{nat_cmp};
ghost use Rattle.std.specs.Cmp.Lexicographic.{slice_cmp};
ghost use Rattle.std.specs.FinMap as finite;
ghost use Rattle.spool_types.specs.Limits.{greatest_number};
ghost use Rattle.spool_types.specs.State.{nothing_in};
ghost use Rattle.job_table.specs.Contents.{places_at, places_of};
ghost use Rattle.job_table.specs.Legal.{IsLegal};
ghost use Rattle.job_table.specs.Loading.{IsAbove, headed, with_queue, with_job};
ghost use Rattle.job_table.specs.TableRows.{HoldsDocument, place_entry};

use super::Store;
use spool_types::{Head, JobId, JobRow, QueueName, QueueRow};
use std::alloc::AllocError;

impl Store {
    // Sets the highest number and the moment of a table without rows, by the head of a listing.
    pub(crate) fn set_head(&mut self, head: Head)
        requires empty { self.old.state ≡ nothing_in self.old.state.version }
        requires highest { head.highest ≤ greatest_number }
        ensures state { self.new.state ≡ headed self.old.state.version head }
        ensures places { self.new.places ≡ self.old.places }
    {
        self.highest = head.highest;
        self.moment = head.moment;
    }

    // Returns whether the name is greater than the names of all queues. The last queue has the greatest name.
    pub(crate) fn is_above_queues(&self, name: &QueueName) -> bool
        ensures yes { IsTrue result → IsAbove (slice_cmp nat_cmp) name.now (finite.keys self.now.state.queues) }
        ensures no { result ≡ false → ¬ (IsAbove (slice_cmp nat_cmp) name.now (finite.keys self.now.state.queues)) }
    {
        match self.queues.last() {
            Some(last) => last.name < *name,
            None => true,
        }
    }

    // Returns whether the number is greater than the numbers of all jobs. The last job has the greatest number.
    pub(crate) fn is_above_jobs(&self, id: JobId) -> bool
        ensures yes { IsTrue result → IsAbove nat_cmp id (finite.keys self.now.state.jobs) }
        ensures no { result ≡ false → ¬ (IsAbove nat_cmp id (finite.keys self.now.state.jobs)) }
        ensures absent { IsTrue result → places_at self.now id ≡ [] }
    {
        match self.jobs.last() {
            Some(last) => last.job.id < id,
            None => true,
        }
    }

    pub(crate) fn push_queue(&mut self, queue: QueueRow) -> Result<(), AllocError>
        requires above { IsAbove (slice_cmp nat_cmp) queue.name (finite.keys self.old.state.queues) }
        requires legal { IsLegal (with_queue self.old.state queue) }
        ensures added { OnOk result (self.new.state ≡ with_queue self.old.state queue) }
        ensures same { OnErr result (self.new.state ≡ self.old.state) }
        ensures places { self.new.places ≡ self.old.places }
    {
        self.queues.push(queue)?;
        Ok(())
    }

    pub(crate) fn push_job(&mut self, row: JobRow)
        requires room { 0 < self.old.room.jobs }
        requires above { IsAbove nat_cmp row.job.id (finite.keys self.old.state.jobs) }
        requires legal { IsLegal (with_job self.old.state row.job) }
        requires holds { HoldsDocument row }
        ensures state { self.new.state ≡ with_job self.old.state row.job }
        ensures places { (j : ℕ) → places_of self.new.places j ≡ places_of (place_entry row ∷ self.old.places) j }
    {
        self.jobs.push(row);
    }
}
