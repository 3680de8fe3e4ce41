//! The choice of the next job, and the job that is processing.
ghost use Rattle.std.specs.Prelude.{◌≡◌, ℕ, false, None, Some, IfSome};
ghost use Rattle.std.specs.Option.{IsNone};
ghost use Rattle.std.specs.FinMap as finite;
ghost use Rattle.job_table.specs.Attempts.{busy_of, is_next, next_of};
ghost use Rattle.job_table.specs.Legal.{IsLegal};
ghost use Rattle.job_table.specs.Step.{refusal_of};
ghost use Rattle.queue_sched.specs.Next.{IsNextJob, is_eligible};
ghost use Rattle.spool_types.specs.State.{Job, queue_at, job_at};
ghost use Rattle.spool_types.specs.declared.event.Event.{Event};
ghost use Rattle.spool_types.specs.declared.rows.QueueRow.{QueueRow};

use super::Table;
use queue_sched::{index_law, order_law};
use spool_types::{Job, JobId, QueueName};

impl Table {
    /// Returns the job of the queue to start next: the eligible job that no other eligible job of the queue beats.
    /// Returns None if no job is eligible or the queue does not exist. Reads the index of the queue, no row of a job.
    pub fn next(&self, queue: &QueueName) -> Option<JobId>
        ensures chosen { IfSome result (λ j. (r : Job) × (q : QueueRow) × (job_at self.now.state j ≡ Some r) × (queue_at self.now.state queue.now ≡ Some q) × IsNextJob (finite.values self.now.state.jobs) queue.now q.stopped self.now.state.moment r) }
        ensures none { IsNone result → (q : QueueRow) → queue_at self.now.state queue.now ≡ Some q → (j : ℕ) (r : Job) → job_at self.now.state j ≡ Some r → is_eligible (finite.values self.now.state.jobs) queue.now q.stopped self.now.state.moment r ≡ false }
        // The test of a single job (`is_next`) accepts exactly this job, and the job can be started.
        ensures value { result ≡ next_of self.now.state queue.now }
        ensures startable { IfSome result (λ j. refusal_of self.now.state (Event.Start j) ≡ None) }
        ensures legal { IsLegal self.now.state }
    {
        order_law();
        index_law();
        let lane = self.lane(queue)?;
        if self.queue(queue)?.stopped {
            return None;
        }
        lane.next()
    }

    /// Returns the job of the queue that is processing, if any. Reads the lane of the queue, no row of a job.
    pub fn processing(&self, queue: &QueueName) -> Option<JobId>
        ensures { result ≡ busy_of self.now.state queue.now }
    {
        self.lane(queue)?.processing()
    }

    // Returns whether this job of the table is the next one of its queue.
    pub(super) fn is_next(&self, job: &Job) -> bool
        requires { IsLegal self.now.state → job_at self.now.state job.now.id ≡ Some job.now }
        ensures { result ≡ is_next self.now.state job.now }
    {
        order_law();
        match self.next(&job.queue) {
            Some(next) => next == job.id,
            None => false,
        }
    }
}
