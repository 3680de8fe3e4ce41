//! Laws about every image, and about spools that are opened repeatedly. The functions do nothing: their clauses are the laws.
ghost use Rattle.std.specs.Prelude.{◌≡◌, ◌⊎◌, ◌≤◌, ℕ, List, Option, ◌∷◌, Some, IsSome, take};
ghost use Rattle.spool_types.specs.State.{State, Job, nothing_in, job_at};
ghost use Rattle.spool_types.specs.declared.event.Event.{Event};
ghost use Rattle.spool_types.specs.declared.version.Version.{Version};
ghost use Rattle.spool_types.specs.declared.event.NewJob.{NewJob};
ghost use Rattle.job_table.specs.Attempts.{HasNoProcessing};
ghost use Rattle.job_table.specs.Ended.{HasEndedJob, IsKeptOrPurged, subject};
ghost use Rattle.job_table.specs.Over.{HasOver, late_refusal};
ghost use Rattle.job_table.specs.EventFold.{after_all};
ghost use Rattle.job_table.specs.Legal.{IsLegal};
ghost use Rattle.job_table.specs.Step.{creation, refusal_of};
ghost use Rattle.spool_core.specs.Driving.{HasPrefixTable, HasWholePrefix, documents_after};
ghost use Rattle.spool_core.specs.Image.{AreBytes, HasTable, HasDocument, HasDocuments, HasRoom, HasFault, IsMidway, IsReopenedFrom};
ghost use Rattle.spool_core.specs.SpoolLives.{Life, KeepsAcknowledged, after_lives, documents_after_lives, history_of, later_events, next_documents, next_table};
ghost use Rattle.spool_areas.specs.declared.fault.OpenFault.{OpenFault};

use job_table::{ended_jobs_stay, legal_tables_stay_legal, reopening};

/// An image has one table or one fault, never both, and at most one room, so the bytes determine the result of an opening. They
/// also determine the documents: a job's number has at most one, and if there is a table, each job that has not ended has one.
pub fn one_reading()
    // Any bytes have a table or a fault.
    ensures some { (c : List ℕ) → AreBytes c → ((s : State) × HasTable s c) ⊎ ((f : OpenFault) × HasFault f c) }

    // They have only one of these.
    ensures table { (s t : State) (c : List ℕ) → HasTable s c → HasTable t c → s ≡ t }
    ensures either { (s : State) (f : OpenFault) (c : List ℕ) → HasTable s c → ¬ (HasFault f c) }
    ensures fault { (f g : OpenFault) (c : List ℕ) → HasFault f c → HasFault g c → f ≡ g }
    ensures room { (m n : ℕ) (c : List ℕ) → HasRoom m c → HasRoom n c → m ≡ n }
    ensures document { (j : ℕ) (d e c : List ℕ) → HasDocument j d c → HasDocument j e c → d ≡ e }
    ensures documents { (s : State) (c : List ℕ) → HasTable s c → (documents : ℕ → List ℕ) × HasDocuments s documents c }
{}

/// *Many lives*: a spool is driven, a crash leaves an image of its disk, and the next life opens that image, any number of times.
/// A life acknowledges some of its events, and a crash leaves these and perhaps more of them.
pub fn lives_go_on()
    // If a crash left an image of a life, with the table after at least the acknowledged events, opening that image begins the
    // next life.
    ensures opened { (s t : State) (events : List Event) (acknowledged most : ℕ) (image : List ℕ) → HasPrefixTable s events acknowledged most image → IsReopenedFrom t image →
        (left : ℕ) × (acknowledged ≤ left) × (left ≤ most) × (t ≡ next_table s (record { events = events; acknowledged = acknowledged; left = left })) }

    // Its table is the one after the acknowledged events and some further ones: those that the crash left after them, and the
    // opening's Reopen.
    ensures goes_on { (s t : State) (events : List Event) (acknowledged most : ℕ) (image : List ℕ) → HasPrefixTable s events acknowledged most image → IsReopenedFrom t image →
        (more : List Event) × (t ≡ after_all (after_all s (take acknowledged events)) more) }

    // It has the documents of the events that the crash left, which include every acknowledged one.
    ensures documents { (s t : State) (documents : ℕ → List ℕ) (events : List Event) (acknowledged most : ℕ) (image : List ℕ) → HasWholePrefix s documents events acknowledged most image → IsReopenedFrom t image →
        (left : ℕ) × (acknowledged ≤ left) × (left ≤ most) × (t ≡ next_table s (record { events = events; acknowledged = acknowledged; left = left }))
        × HasDocuments t (next_documents s documents (record { events = events; acknowledged = acknowledged; left = left })) image }

    // If a crash interrupts an opening, whatever it leaves, the next opening yields the table that the first would have yielded,
    // with the same documents.
    ensures cut { (s t : State) (image left : List ℕ) → IsMidway image left → IsReopenedFrom s image → IsReopenedFrom t left → t ≡ s }
    ensures cut_documents { (s : State) (documents : ℕ → List ℕ) (image left : List ℕ) → IsMidway image left → HasTable s image → HasDocuments s documents image → HasDocuments s documents left }

    // The lives are equivalent to one life of the events that were left, with a Reopen at each opening. Their tables are legal.
    ensures history { (s : State) (lives : List Life) → after_lives s lives ≡ after_all s (history_of lives) }
    ensures sent { (s : State) (documents : ℕ → List ℕ) (lives : List Life) → documents_after_lives s documents lives ≡ documents_after s documents (history_of lives) }
    ensures legal { (v : Version) (lives : List Life) → IsLegal (after_lives (nothing_in v) lives) }
    ensures idle { (s : State) (l : Life) → IsLegal s → HasNoProcessing (next_table s l) }

    // A job that has ended after the acknowledged events of a life stays ended in all later lives, or one of the events that the
    // crashes left purged it. A number that is over stays over. The job is not started again, and its number is not assigned
    // again.
    ensures ended { (s : State) (l : Life) (lives : List Life) (j : ℕ) (job : Job) → KeepsAcknowledged l →
        HasEndedJob (after_all s (take l.acknowledged l.events)) j job → IsKeptOrPurged (after_all s (take l.acknowledged l.events)) (later_events l lives) (after_lives s (l ∷ lives)) j job }
    ensures over { (s : State) (l : Life) (lives : List Life) (j : ℕ) → KeepsAcknowledged l →
        HasOver (after_all s (take l.acknowledged l.events)) j → HasOver (after_lives s (l ∷ lives)) j }
    ensures refused { (s : State) (l : Life) (lives : List Life) (more : List Event) (j : ℕ) (e : Event) → KeepsAcknowledged l →
        HasOver (after_all s (take l.acknowledged l.events)) j → subject e ≡ Some j →
        refusal_of (after_all (after_lives s (l ∷ lives)) more) e ≡ Some (late_refusal (job_at (after_all (after_lives s (l ∷ lives)) more) j)) }
    ensures number { (s : State) (l : Life) (lives : List Life) (more : List Event) (j : ℕ) (n : NewJob) (by : Option ℕ) → KeepsAcknowledged l →
        HasOver (after_all s (take l.acknowledged l.events)) j → n.job ≡ j →
        IsSome (refusal_of (after_all (after_lives s (l ∷ lives)) more) (creation n by)) }
{
    ended_jobs_stay();
    legal_tables_stay_legal();
    reopening();
    one_reading();
}
