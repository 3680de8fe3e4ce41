//! Laws about the halves of every table. The functions do nothing: their clauses are the laws.
ghost use Rattle.std.specs.Prelude.{◌≡◌, ◌⊎◌, ℕ, true, false, Bool, List, None, Some};
ghost use Rattle.spool_types.specs.declared.event.Event.{Event};
ghost use Rattle.spool_types.specs.declared.rows.QueueRow.{QueueRow};
ghost use Rattle.spool_types.specs.declared.version.Version.TheVariants.{Two};
ghost use Rattle.spool_types.specs.State.{State, Job, queue_at, job_at};
ghost use Rattle.split_rows.specs.Half.{takes};
ghost use Rattle.job_table.specs.Apart.{IsPart, own_events, own_of};
ghost use Rattle.job_table.specs.EventFold.{accepted, after_all};
ghost use Rattle.job_table.specs.Legal.{IsLegal};
ghost use Rattle.spool_halves.specs.Halves.{IsHalf};

use job_table::{legal_tables_stay_legal, queues_stay_apart};

/// Each row is in one half and not in the other, unchanged, and no half has any other row.
pub fn each_row_in_one_half()
    ensures jobs { (names : List (List ℕ)) (s t u : State) (j : ℕ) (r : Job) → IsLegal s → IsLegal t → IsLegal u → IsHalf true names s t → IsHalf false names s u → job_at s j ≡ Some r →
        ((job_at t j ≡ Some r) × (job_at u j ≡ None)) ⊎ ((job_at t j ≡ None) × (job_at u j ≡ Some r)) }
    ensures no_others { (named : Bool) (names : List (List ℕ)) (s t : State) (j : ℕ) (r : Job) → IsLegal s → IsLegal t → IsHalf named names s t → job_at t j ≡ Some r →
        (job_at s j ≡ Some r) × (takes named names r.queue ≡ true) }
    ensures queues { (named : Bool) (names : List (List ℕ)) (s t : State) (name : List ℕ) → IsLegal s → IsLegal t → IsHalf named names s t → takes named names name ≡ true → queue_at t name ≡ queue_at s name }
    ensures no_other_queues { (named : Bool) (names : List (List ℕ)) (s t : State) (name : List ℕ) (q : QueueRow) → IsLegal s → IsLegal t → IsHalf named names s t → queue_at t name ≡ Some q →
        (queue_at s name ≡ Some q) × (takes named names q.name ≡ true) }
{}

/// *QueuesApart* for a half: a queue's part of the whole table is its part of the half. So with the same events of its own the
/// queue changes in the half as it would have in the whole.
pub fn halves_go_on()
    ensures part { (named : Bool) (names : List (List ℕ)) (s t p : State) (name : List ℕ) → IsLegal s → IsLegal t → s.version ≡ Two → IsHalf named names s t → takes named names name ≡ true →
        IsPart name s p → IsPart name t p }
    ensures jobs { (named : Bool) (names : List (List ℕ)) (s t p : State) (name : List ℕ) (events others : List Event) (j : ℕ) →
        IsLegal s → IsLegal t → IsLegal p → s.version ≡ Two → IsHalf named names s t → takes named names name ≡ true → IsPart name s p →
        own_events s name (accepted s events) ≡ own_events t name (accepted t others) →
        own_of name (job_at (after_all s (accepted s events)) j) ≡ own_of name (job_at (after_all t (accepted t others)) j) }
    ensures queue { (named : Bool) (names : List (List ℕ)) (s t p : State) (name : List ℕ) (events others : List Event) →
        IsLegal s → IsLegal t → IsLegal p → s.version ≡ Two → IsHalf named names s t → takes named names name ≡ true → IsPart name s p →
        own_events s name (accepted s events) ≡ own_events t name (accepted t others) →
        queue_at (after_all s (accepted s events)) name ≡ queue_at (after_all t (accepted t others)) name }
{
    queues_stay_apart();
}
