//! The law about every run of a submission. The function does nothing: its clauses are the law.
ghost use Rattle.std.specs.Prelude.{◌≡◌, ℕ, ◌≤◌, ◌⊎◌, Bool, true, false, List, [], ◌∷◌, length};
ghost use Rattle.front_submission.specs.SubmissionSteps.{status};
ghost use Rattle.front_submission.specs.Service.{arriving};
ghost use Rattle.front_submission.specs.SubmissionRuns.{Event, ArePieces, end_of, joined};
ghost use Rattle.front_submission.specs.declared.step.End.{End};
ghost use Rattle.front_submission.specs.declared.step.Step.{Step};

/// *ActsOnce*, for every sequence of requests that are executed or not, of replies that are received or not, and of actions of others.
pub fn acts_once()
    // No two jobs of the submission are ever closed.
    ensures at_most_once { (pieces : List (List ℕ)) (holds : Bool) (given : ℕ) (prints : Bool) (events : List Event) → ArePieces pieces →
        length (end_of pieces holds given prints events).service.closes ≤ 1 }

    // With status 0 exactly one job was closed, with the document's bytes, and filters convert it for the printer.
    ensures accepted { (pieces : List (List ℕ)) (holds : Bool) (given : ℕ) (prints : Bool) (events : List Event) (end : End) → ArePieces pieces →
        (end_of pieces holds given prints events).step ≡ Step.Ended end → status end ≡ 0 →
        ((end_of pieces holds given prints events).service.closes ≡ joined pieces ∷ []) × ((end_of pieces holds given prints events).service.prints ≡ true) }

    // With status 4 the same holds, but no filters convert it.
    ensures unprintable { (pieces : List (List ℕ)) (holds : Bool) (given : ℕ) (prints : Bool) (events : List Event) (end : End) → ArePieces pieces →
        (end_of pieces holds given prints events).step ≡ Step.Ended end → status end ≡ 4 →
        ((end_of pieces holds given prints events).service.closes ≡ joined pieces ∷ []) × ((end_of pieces holds given prints events).service.prints ≡ false) }

    // With either status no job of the submission is left incoming.
    ensures alone { (pieces : List (List ℕ)) (holds : Bool) (given : ℕ) (prints : Bool) (events : List Event) (end : End) →
        (end_of pieces holds given prints events).step ≡ Step.Ended end → (status end ≡ 0) ⊎ (status end ≡ 4) →
        arriving (end_of pieces holds given prints events).service.fate (end_of pieces holds given prints events).service.given ≡ [] }

    // With status 1 no job was ever closed.
    ensures refused { (pieces : List (List ℕ)) (holds : Bool) (given : ℕ) (prints : Bool) (events : List Event) (end : End) → ArePieces pieces →
        (end_of pieces holds given prints events).step ≡ Step.Ended end → status end ≡ 1 →
        (end_of pieces holds given prints events).service.closes ≡ [] }
{}
