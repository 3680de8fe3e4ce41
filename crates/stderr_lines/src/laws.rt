//! Laws of every report.
ghost use Rattle.std.specs.Prelude.{◌≡◌, ℕ, List, []};
ghost use Rattle.spool_types.specs.Effects.{AreEffects};
ghost use Rattle.stderr_lines.specs.Reports.{report_of};
ghost use Rattle.stderr_lines.specs.PendingEffects.{Pending, TakesAll, joined_pieces, to_come};

/// A reader that began before any text and took these pieces will report the effects of their whole text, wherever it was split.
pub fn any_pieces()
    ensures { (begun read : Pending) (pieces : List (List ℕ)) → ((text : List ℕ) → to_come begun text ≡ report_of text) → TakesAll begun pieces read → to_come read [] ≡ report_of (joined_pieces pieces) }
{}

/// The reported effects of a text may be the effects of one stage: their codes have at most 16,384 bytes, and each effect that adds or
/// removes reasons names at least one.
pub fn effects_fit()
    ensures { (text : List ℕ) → AreEffects (report_of text).effects }
{}
