//! Attempts at jobs: the start of an attempt, the end of a stage, and lost attempts.
ghost use Rattle.std.specs.Prelude.{◌≡◌, true, false, None, Some, IsSome};
ghost use Rattle.job_table.specs.Attempts.{is_in_stage, is_last_stage, is_processing_at, lost_by, with_pages, rule_at, stage_verdict, with_effects};
ghost use Rattle.job_table.specs.EventChanges.{change_job, change_queue_of};
ghost use Rattle.job_table.specs.Contents.{HasNoMore, HasSamePlaces, KeepsPlaces};
ghost use Rattle.job_table.specs.Legal.{IsLegal};
ghost use Rattle.row_effects.specs.EffectFold.{queue_after};
ghost use Rattle.row_effects.specs.Room.{HasRoom};
ghost use Rattle.spool_types.specs.State.{Job, queue_at, job_at};
ghost use Rattle.job_table.specs.Step.{refusal_of, after, reply_to, phase_found};
ghost use Rattle.spool_types.specs.declared.event.Event.{Event};
ghost use Rattle.spool_types.specs.declared.rows.QueueRow.{QueueRow};

use super::Store;
use super::lookup::queue_position;
use super::row_changes::{add_pages, rule_queue_row, rule_row, start_row};
use backend_codes::{Verdict, lost_verdict, verdict};
use row_effects::{fold_queue, queues_stay_in_order};
use spool_types::{
    AttemptNumber, Effect, Exit, Job, JobId, Phase, QueueRow, Reply, StageEnd, StageNumber,
};

impl Store {
    // Returns the new phase of the job.
    pub(super) fn start(&mut self, job: JobId) -> Phase
        requires { refusal_of self.old.state (Event.Start job) ≡ None }
        ensures state { self.new.state ≡ after self.old.state (Event.Start job) }
        ensures reply { Reply.Phase result ≡ reply_to self.old.state (Event.Start job) }
        ensures room { HasNoMore self.old.room self.new.room }
        ensures places { KeepsPlaces self.old self.new }
    {
        start_row(self.jobs.row_mut(job))
    }

    // Folds in the effects of the stage, then applies the verdict on its exit. Returns the new phase of the job.
    pub(super) fn end_stage(&mut self, end: StageEnd) -> Phase
        requires accepted { refusal_of self.old.state (Event.Stage end) ≡ None }
        requires room { HasRoom self.old.room.spare end.effects }
        ensures state { self.new.state ≡ after self.old.state (Event.Stage end) }
        ensures reply { Reply.Phase result ≡ reply_to self.old.state (Event.Stage end) }
        ensures room { HasNoMore self.old.room self.new.room }
        ensures places { KeepsPlaces self.old self.new }
    {
        let job = end.job;
        let exit = end.exit;
        self.fold_effects(job, end.effects.into_vec());
        let verdict = self.stage_verdict(job, exit);
        self.rule(job, verdict)
    }

    // Folds in the effects of a stage of this job, in order.
    fn fold_effects(&mut self, job: JobId, effects: Vec<Effect>)
        requires there { IsSome (job_at self.old.state job) }
        requires room { HasRoom self.old.room.spare effects.items }
        ensures state { self.new.state ≡ with_effects self.old.state job effects.items }
        ensures there { IsSome (job_at self.new.state job) }
        ensures room { HasNoMore self.old.room self.new.room }
        ensures places { HasSamePlaces self.old self.new }
    {
        self.fold_into_job(job, &effects);
        self.fold_into_queue(job, effects);
    }

    // Updates the pages of the job.
    fn fold_into_job(&mut self, job: JobId, effects: &[Effect])
        requires { IsSome (job_at self.old.state job) }
        ensures state { self.new.state ≡ change_job self.old.state job (with_pages effects.now) }
        ensures there { IsSome (job_at self.new.state job) }
        ensures room { HasNoMore self.old.room self.new.room }
        ensures places { HasSamePlaces self.old self.new }
        ensures spare { self.new.room.spare ≡ self.old.room.spare }
    {
        add_pages(self.jobs.row_mut(job), effects);
    }

    // Updates the reasons, attributes and message of the job's queue.
    fn fold_into_queue(&mut self, job: JobId, effects: Vec<Effect>)
        requires there { IsSome (job_at self.old.state job) }
        requires room { HasRoom self.old.room.spare effects.items }
        ensures state { self.new.state ≡ change_queue_of self.old.state job (queue_after effects.items) }
        ensures room { HasNoMore self.old.room self.new.room }
        ensures places { HasSamePlaces self.old self.new }
    {
        queues_stay_in_order();
        let Some(row) = self.jobs.get(job) else {
            unreachable!()
        };
        let Ok(queue_at) = queue_position(&self.queues, &row.job.queue) else {
            unreachable!()
        };
        fold_queue(&mut self.queues[queue_at], &mut self.spare, effects);
    }

    // Returns the new phase of the job.
    pub(super) fn abandon(&mut self, job: JobId) -> Phase
        requires { refusal_of self.old.state (Event.Abandon job) ≡ None }
        ensures state { self.new.state ≡ after self.old.state (Event.Abandon job) }
        ensures reply { Reply.Phase result ≡ reply_to self.old.state (Event.Abandon job) }
        ensures room { HasNoMore self.old.room self.new.room }
        ensures places { KeepsPlaces self.old self.new }
    {
        let verdict = self.verdict_on_lost(job);
        self.rule(job, verdict)
    }

    pub(crate) fn is_processing(&self, job: JobId) -> bool
        ensures { result ≡ is_processing_at (job_at self.now.state job) }
    {
        match self.job(job) {
            Some(row) => row.job.phase.is_processing(),
            None => false,
        }
    }

    // Returns the verdict on the end of a stage, by the policy and the limit of the job's queue.
    fn stage_verdict(&self, job: JobId, exit: Exit) -> Verdict
        requires { IsSome (job_at self.now.state job) }
        ensures { (r : Job) (q : QueueRow) → job_at self.now.state job ≡ Some r → queue_at self.now.state r.queue ≡ Some q → result ≡ stage_verdict exit r q }
    {
        let (job, queue) = self.with_queue(job);
        let last_stage = is_last_stage(job.phase);
        verdict(exit, last_stage, queue.policy, job.attempts, queue.limit)
    }

    // Returns the verdict on an attempt without a recorded end, by the policy and the limit of the job's queue.
    fn verdict_on_lost(&self, job: JobId) -> Verdict
        requires { IsSome (job_at self.now.state job) }
        ensures { (r : Job) (q : QueueRow) → job_at self.now.state job ≡ Some r → queue_at self.now.state r.queue ≡ Some q → result ≡ lost_by r q }
    {
        let (job, queue) = self.with_queue(job);
        lost_verdict(queue.policy, job.attempts, queue.limit)
    }

    // Returns an existing job and its queue, which exists too.
    fn with_queue(&self, job: JobId) -> (&Job, &QueueRow)
        requires { IsSome (job_at self.now.state job) }
        ensures job { job_at self.now.state job ≡ Some result.0.now }
        ensures queue { queue_at self.now.state result.0.now.queue ≡ Some result.1.now }
    {
        let Some(row) = self.jobs.get(job) else {
            unreachable!()
        };
        let Ok(queue_at) = queue_position(&self.queues, &row.job.queue) else {
            unreachable!()
        };
        (&row.job, &self.queues[queue_at])
    }

    // Applies a verdict to a job, and stops its queue if the verdict requires it. Returns the new phase of the job.
    fn rule(&mut self, job: JobId, verdict: Verdict) -> Phase
        requires there { IsSome (job_at self.old.state job) }
        requires busy { is_processing_at (job_at self.old.state job) ≡ true }
        requires legal { IsLegal self.old.state → IsLegal (rule_at self.old.state job (λ r q. verdict)) }
        ensures state { self.new.state ≡ rule_at self.old.state job (λ r q. verdict) }
        ensures phase { result ≡ phase_found (job_at self.new.state job) }
        ensures room { HasNoMore self.old.room self.new.room }
        ensures places { KeepsPlaces self.old self.new }
    {
        let now = self.moment;
        let row = self.jobs.row_mut(job);
        let Ok(queue_at) = queue_position(&self.queues, &row.job.queue) else {
            unreachable!()
        };
        let interval = self.queues[queue_at].interval;
        rule_queue_row(&mut self.queues[queue_at], verdict);
        rule_row(row, verdict, now, interval)
    }
}

// Returns whether the phase is the last stage of an attempt, the backend, which runs after the filters.
fn is_last_stage(phase: Phase) -> bool
    ensures { result ≡ is_last_stage phase }
{
    matches!(phase, Phase::Processing { stage, stages, .. } if stage == stages)
}

/// Returns whether a job in this phase is in this stage of this attempt.
pub fn is_in_stage(phase: Phase, attempt: AttemptNumber, stage: StageNumber) -> bool
    ensures { result ≡ is_in_stage attempt stage phase }
{
    match phase {
        Phase::Processing {
            attempt: newest,
            stage: running,
            ..
        } => newest == attempt.get() && u32::from(running) == stage.get(),
        _ => false,
    }
}
