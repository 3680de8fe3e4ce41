//! Laws of walks and of their order. The functions do nothing: their clauses are the laws.
ghost use Rattle.std.specs.Prelude.{◌≡◌, ◌⊎◌, ℕ, false, IsTrue, List, None, Some};
ghost use Rattle.mime_costs.specs.Walks.{Worth, beats, worth_of, IsWalk, IsLeast, IsApart};
ghost use Rattle.mime_costs.specs.LeastWalk.{least_walk};
ghost use Rattle.mime_costs.specs.declared.conversion.Conversion.{Conversion};

/// The order of walks is strict, and of any two that differ in cost or lines one beats the other.
pub fn order_law()
    ensures irreflexive { (a : Worth) → beats a a ≡ false }
    ensures transitive { (a b c : Worth) → IsTrue (beats a b) → IsTrue (beats b c) → IsTrue (beats a c) }
    ensures connected { (a b : Worth) → ¬ (a ≡ b) → IsTrue (beats a b) ⊎ IsTrue (beats b a) }
{}

/// No walk beats the least walk. If there is no least walk, no walk exists.
pub fn least_law()
    ensures walk { (file : List Conversion) (from to : List ℕ) (walk : List Conversion) → least_walk file from to ≡ Some walk → IsWalk file from to walk }
    ensures least { (file : List Conversion) (from to : List ℕ) (walk : List Conversion) → least_walk file from to ≡ Some walk → IsLeast file from to (worth_of walk) }
    ensures none { (file : List Conversion) (from to : List ℕ) → least_walk file from to ≡ None → IsApart file from to }
{}
