//! A law of the recorded times.
ghost use Rattle.std.specs.Prelude.{◌≡◌, ℕ, List, map};
ghost use Rattle.event_records.specs.SeenTimes.{AreSeen, Sight, job_times, last_seen, times_from};
ghost use Rattle.event_records.specs.declared.seen.Seen.{Seen};

/// The times of a job after any number of recorded events are the fold over these events.
pub fn times_are_folds()
    ensures { (seen : Seen) (sights : List (Sight × Seen)) → AreSeen seen sights → (job : ℕ) →
        job_times (last_seen seen sights) job ≡ times_from (job_times seen job) job (map (λ x. x.0) sights) }
{}
