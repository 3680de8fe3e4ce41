//! Laws about the edits. The functions do nothing: their clauses are the laws.
ghost use Rattle.std.specs.Prelude.{◌≡◌, ◌≢◌, ℕ, Bool, true, false, List, None, Some};
ghost use Rattle.std.specs.Option.{option_map};
ghost use Rattle.spool_types.specs.Phases.{has_ended};
ghost use Rattle.spool_types.specs.State.{State, Job, queue_at, job_at};
ghost use Rattle.spool_types.specs.declared.rows.QueueRow.{QueueRow};
ghost use Rattle.job_table.specs.Legal.{IsLegal};
ghost use Rattle.queue_edits.specs.QueueEdits.{after_change, after_removal, changed, target_at};
ghost use Rattle.queue_edits.specs.EditRefusals.{change_refusal, removal_refusal};
ghost use Rattle.queue_edits.specs.declared.change.QueueChange.{QueueChange};

/// A change concerns only the fields of that queue that it gives: all jobs and all other queues are as they were. If it is not refused,
/// the queue of each job that has not ended takes the same media type as before, so the filters of the job are still right.
pub fn only_that_queue_changes()
    ensures queue { (name : List ℕ) (c : QueueChange) (s : State) → IsLegal s → queue_at (after_change name c s) name ≡ option_map (changed c) (queue_at s name) }
    ensures others { (name other : List ℕ) (c : QueueChange) (s : State) → IsLegal s → other ≢ name → queue_at (after_change name c s) other ≡ queue_at s other }
    ensures jobs { (name : List ℕ) (c : QueueChange) (s : State) (j : ℕ) → job_at (after_change name c s) j ≡ job_at s j }
    ensures types { (name : List ℕ) (c : QueueChange) (s : State) (j : ℕ) (r : Job) → IsLegal s → change_refusal name c s ≡ None → job_at s j ≡ Some r → has_ended r.phase ≡ false →
        target_at (after_change name c s) r.queue ≡ target_at s r.queue }
{}

/// A removal removes that queue and its jobs only. If it is not refused, each job that it removes has ended, and was to be removed.
pub fn only_that_queue_goes()
    ensures queue { (name : List ℕ) (s : State) → queue_at (after_removal name s) name ≡ None }
    ensures others { (name other : List ℕ) (s : State) → other ≢ name → queue_at (after_removal name s) other ≡ queue_at s other }
    ensures jobs { (name : List ℕ) (s : State) (j : ℕ) (r : Job) → job_at s j ≡ Some r → r.queue ≢ name → job_at (after_removal name s) j ≡ Some r }
    ensures no_others { (name : List ℕ) (s : State) (j : ℕ) (r : Job) → job_at (after_removal name s) j ≡ Some r → (job_at s j ≡ Some r) × (r.queue ≢ name) }
    ensures ended { (name : List ℕ) (purge : Bool) (s : State) (j : ℕ) (r : Job) → removal_refusal name purge s ≡ None → job_at s j ≡ Some r → r.queue ≡ name →
        (has_ended r.phase ≡ true) × (purge ≡ true) }
{}
