//! A law on causes. The function does nothing: its clause is the law.
ghost use Rattle.std.specs.Prelude.{◌≡◌, ℕ, true, false, None};
ghost use Rattle.job_table.specs.Attempts.{busy_of};
ghost use Rattle.queue_sched.specs.Next.{may_start};
ghost use Rattle.spool_types.specs.State.{State, Job, queue_at};
ghost use Rattle.spool_types.specs.declared.phase.Hold.{Hold as HoldOf};
ghost use Rattle.wait_causes.specs.WaitCauses.{is_stopped_row, waiting_cause, waits_for_service};
ghost use Rattle.wait_causes.specs.declared.cause.ServiceFacts.{ServiceFacts as Facts};

/// A waiting job that waits for the service alone is ready: no hold is in force, the moment of its next attempt has passed, its queue is not
/// stopped, and no job of the queue is processing.
pub fn to_be_started_is_ready()
    ensures job { (f : Facts) (s : State) (r : Job) (hold : HoldOf) (not_before : ℕ) → waits_for_service (waiting_cause f s r hold not_before) ≡ true → may_start s.moment hold not_before ≡ true }
    ensures queue { (f : Facts) (s : State) (r : Job) (hold : HoldOf) (not_before : ℕ) → waits_for_service (waiting_cause f s r hold not_before) ≡ true →
        (is_stopped_row (queue_at s r.queue) ≡ false) × (busy_of s r.queue ≡ None) }
{}
