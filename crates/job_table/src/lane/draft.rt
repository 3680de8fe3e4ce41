//! The draft of a lane: its contents before the waiting jobs are sorted.
ghost use Rattle.std.specs.Prelude.{◌≡◌, ℕ, ◌+◌, ◌<◌, ◌≤◌, None, IfOk, OnOk};
ghost use Rattle.queue_sched.specs.WaitingIndex.{HasEachOnce};
ghost use Rattle.queue_sched.specs.declared.entry.Entry.{Entry};
ghost use Rattle.job_table.specs.LaneDrafts.{drafted, IsBlank, IsDraft};
ghost use Rattle.job_table.specs.Lanes.{IsAdvanced, IsReseated};
ghost use Rattle.job_table.specs.declared.lane.LaneState.{LaneState};

use super::{Lane, LaneState};
use queue_sched::{Entry, Index};
use spool_types::{JobId, Moment};
use std::alloc::{AllocError, Global};

/// A lane whose waiting jobs are not sorted yet.
#[derive(Drop)]
pub(crate) struct Draft {
    waiting: Vec<Entry>,
    processing: Option<JobId>,
    // The number of jobs that have not ended.
    live: usize,
}

impl Draft {
    /// Returns the draft of a lane without jobs. Does not allocate.
    pub(crate) fn new(alloc: Global) -> Draft
        ensures { IsBlank result }
    {
        Draft {
            waiting: Vec::new(alloc),
            processing: None,
            live: 0,
        }
    }

    /// Adds a job that is not in the draft.
    pub(crate) fn add(&mut self, job: JobId, lane_state: LaneState) -> Result<(), AllocError>
        requires own { (e : Entry) → lane_state ≡ LaneState.Waiting e → e.id ≡ job }
        requires alone { lane_state ≡ LaneState.Processing → self.old.processing ≡ None }
        requires few { self.old.live < usize.MAX }
        ensures draft { OnOk result ((old new : ℕ → LaneState) → IsDraft old self.old → old job ≡ LaneState.Ended → IsReseated old new job lane_state → IsDraft new self.new) }
        ensures live { OnOk result (self.new.live ≤ self.old.live + 1) }
    {
        match lane_state {
            LaneState::Ended => {}
            LaneState::Incoming => self.live += 1,
            LaneState::Waiting(entry) => {
                self.waiting.extend_from_slice(&[entry])?;
                self.live += 1;
            }
            LaneState::Processing => {
                self.processing = Some(job);
                self.live += 1;
            }
        }
        Ok(())
    }

    /// Turns the draft into the lane at this moment. Sorts the waiting jobs, and reserves room for all jobs that have
    /// not ended.
    pub(crate) fn into_lane(self, moment: Moment) -> Result<Lane, AllocError>
        requires { HasEachOnce self.waiting.items }
        ensures { IfOk result (IsAdvanced moment (drafted self)) }
    {
        let mut waiting = self.waiting;
        waiting.reserve(self.live.saturating_sub(waiting.len()))?;
        Ok(Lane {
            index: Index::of_entries(waiting, moment)?,
            processing: self.processing,
            live: self.live,
            reserved: self.live,
        })
    }
}
