//! The memory that an event needs.
ghost use Rattle.std.specs.Prelude.{◌≡◌, ◌<◌, false, None, Some, IsSome, IsOk, OnOk};
ghost use Rattle.spool_types.specs.Phases.{has_ended};
ghost use Rattle.spool_types.specs.State.{Job, job_at};
ghost use Rattle.job_table.specs.Step.{refusal_of};
ghost use Rattle.job_table.specs.Contents.{HasRoom, document_room};

use super::Store;
use spool_types::{Event, JobId};
use std::alloc::AllocError;

impl Store {
    // Reserves room for an event that is not refused.
    pub(crate) fn reserve(&mut self, event: &Event) -> Result<(), AllocError>
        requires { refusal_of self.old.state event.now ≡ None }
        ensures room { OnOk result (HasRoom self.new.room event.now) }
        ensures same { self.new.state ≡ self.old.state }
        ensures places { self.new.places ≡ self.old.places }
        ensures ready { HasRoom self.old.room event.now → IsOk result }
    {
        match event {
            Event::AddQueue(_) => self.reserve_queue(),
            Event::Create(_) | Event::CreateBy { .. } => self.reserve_job(),
            Event::Send { job, .. } => self.reserve_extent(*job),
            Event::Stage(end) => self.spare.reserve(end.effects.as_slice()),
            // The other events need no memory.
            _ => Ok(()),
        }
    }

    pub(crate) fn reserve_queue(&mut self) -> Result<(), AllocError>
        ensures room { OnOk result (0 < self.new.room.queues) }
        ensures same { self.new.state ≡ self.old.state }
        ensures places { self.new.places ≡ self.old.places }
        ensures ready { 0 < self.old.room.queues → IsOk result }
    {
        self.queues.reserve(1)
    }

    pub(crate) fn reserve_job(&mut self) -> Result<(), AllocError>
        ensures room { OnOk result (0 < self.new.room.jobs) }
        ensures same { self.new.state ≡ self.old.state }
        ensures places { self.new.places ≡ self.old.places }
        ensures ready { 0 < self.old.room.jobs → IsOk result }
    {
        self.jobs.reserve()
    }

    // Reserves room for one more extent. `Vec::reserve` at least doubles the capacity, so many sends move the list only
    // a few times.
    fn reserve_extent(&mut self, job: JobId) -> Result<(), AllocError>
        requires there { IsSome (job_at self.old.state job) }
        requires live { (r : Job) → job_at self.old.state job ≡ Some r → has_ended r.phase ≡ false }
        ensures room { OnOk result (0 < document_room self.new.room job) }
        ensures same { self.new.state ≡ self.old.state }
        ensures places { self.new.places ≡ self.old.places }
        ensures ready { 0 < document_room self.old.room job → IsOk result }
    {
        self.jobs.row_mut(job).document.reserve(1)
    }
}
