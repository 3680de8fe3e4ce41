//! Laws of the best alternative and of the order that defines it. The functions do nothing: their clauses are the laws.
ghost use Rattle.std.specs.Prelude.{◌≡◌, ◌⊎◌, List, Some, None, false, IsTrue};
ghost use Rattle.mime_rules.specs.Tests.{Subject};
ghost use Rattle.mime_rules.specs.RuleLines.{Alternative};
ghost use Rattle.mime_rules.specs.BestType.{best, beats, IsBest, NoneHolds};

/// The best alternative is a true one that no true one beats. None is best exactly if no alternative is true. All true alternatives that
/// no true one beats have one type.
pub fn best_law()
    ensures some { (s : Subject) (all : List Alternative) (a : Alternative) → best s all ≡ Some a → IsBest s all a }
    ensures none { (s : Subject) (all : List Alternative) → best s all ≡ None → NoneHolds s all }
    ensures only { (s : Subject) (all : List Alternative) (a b : Alternative) → IsBest s all a → IsBest s all b → a.media ≡ b.media }
{}

/// The order of alternatives is strict, and of any two that differ in type or priority one beats the other.
pub fn order_law()
    ensures irreflexive { (a : Alternative) → beats a a ≡ false }
    ensures transitive { (a b c : Alternative) → IsTrue (beats a b) → IsTrue (beats b c) → IsTrue (beats a c) }
    ensures connected { (a b : Alternative) → ¬ ((a.media ≡ b.media) × (a.priority ≡ b.priority)) → IsTrue (beats a b) ⊎ IsTrue (beats b a) }
{}
