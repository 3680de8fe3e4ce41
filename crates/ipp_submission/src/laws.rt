//! The laws about every run of a submission. The functions do nothing: their clauses are the laws.
ghost use Rattle.std.specs.Prelude.{◌≡◌, ◌==◌, [], ◌∷◌, ℕ, Bool, true, false, List, length};
ghost use Rattle.front_submission.specs.Service.{reply_to};
ghost use Rattle.ipp_submission.specs.JobParts.{all_accepted, closes_with_last, deserted_in, finished, given_up, heard_in, is_ready, lost_in, next_request, supplied_in, supplied_last_in, with_document};
ghost use Rattle.ipp_submission.specs.JobRuns.{ClosedAtMostOnce, Each, IsAccepted, IsUnclosed, IsWhole, JobEvent, JobRun, Pairs, all_read, job_end, job_happens, now};

use front_submission::acts_once;

/// For every sequence of documents and pieces of a client, of requests that are executed or not, of replies that are received or not, and of
/// actions of others.
pub fn submits_once()
    // *Once*: no two jobs of a document are ever closed.
    ensures once { (pieces : List (List ℕ)) (holds : Bool) (given : ℕ) (prints : Bool) (events : List JobEvent) →
        Pairs ClosedAtMostOnce (job_end pieces holds given prints events).documents (job_end pieces holds given prints events).submissions }

    // *Accepted*: if all are accepted, exactly one job of each document was closed, with its bytes, and filters convert it for the printer.
    ensures accepted { (pieces : List (List ℕ)) (holds : Bool) (given : ℕ) (prints : Bool) (events : List JobEvent) →
        all_accepted (job_end pieces holds given prints events).progress ≡ true →
        Pairs IsAccepted (job_end pieces holds given prints events).documents (job_end pieces holds given prints events).submissions }

    // *All*: no job is closed before the client has sent the end of its last document.
    ensures unclosed { (pieces : List (List ℕ)) (holds : Bool) (given : ℕ) (prints : Bool) (events : List JobEvent) →
        (job_end pieces holds given prints events).whole ≡ false → Each IsUnclosed (job_end pieces holds given prints events).submissions }

    // From then on every document is whole.
    ensures whole { (pieces : List (List ℕ)) (holds : Bool) (given : ℕ) (prints : Bool) (events : List JobEvent) →
        (job_end pieces holds given prints events).whole ≡ true → Each IsWhole (job_end pieces holds given prints events).submissions }
{
    acts_once();
}

/// The runs of [`submits_once`] are those of [`crate::Submission`]: each event changes the submission as a call does.
pub fn runs_follow_calls()
    ensures heard { (w : JobRun) → (job_happens w JobEvent.Served).progress ≡ heard_in w.progress (reply_to (now w).service (now w).piece (next_request w.progress)) }
    ensures lost { (w : JobRun) → (job_happens w JobEvent.Lost).progress ≡ lost_in w.progress }
    ensures deserted { (w : JobRun) → (job_happens w JobEvent.Deserted).progress ≡ deserted_in w.progress }
    ensures supplied { (w : JobRun) (piece : List ℕ) (rest : List (List ℕ)) → (now w).rest ≡ piece ∷ rest → (length piece == 0) ≡ false →
        is_ready w.progress ≡ true → (job_happens w JobEvent.Piece).progress ≡ supplied_in w.progress (length piece) }
    ensures supplied_last { (w : JobRun) (piece : List ℕ) → (now w).rest ≡ piece ∷ [] → (length piece == 0) ≡ false → is_ready w.progress ≡ true →
        closes_with_last w.progress ≡ true → (job_happens w JobEvent.LastPiece).progress ≡ supplied_last_in w.progress (length piece) }
    ensures begun { (w : JobRun) (pieces : List (List ℕ)) (given : ℕ) (prints : Bool) → is_ready w.progress ≡ true →
        (job_happens w (JobEvent.Begins pieces given prints)).progress ≡ with_document w.progress }
    ensures ended { (w : JobRun) → is_ready w.progress ≡ true → all_read w ≡ true → (job_happens w JobEvent.Ends).progress ≡ finished w.progress }
    ensures gave_up { (w : JobRun) → (job_happens w JobEvent.GivesUp).progress ≡ given_up w.progress }
{}
