//! The costs of walks of conversions, which exist only if the walk does.
//!
//! # Promises
//!
//! - [`lesser`]: the lower of the costs that exist.
//! - [`cost_with`]: the cost of a conversion and of the walk after it, if that walk exists.
//!
//! # Errors
//!
//! No call fails or allocates.
//!
//! # Cost
//!
//! A call adds or compares two numbers.
#![tactic(auto)]

ghost use Rattle.std.specs.Prelude.{◌≡◌, ◌≤◌};
ghost use Rattle.walk_costs.specs.WalkCosts.{IsSmall, lesser, plus};

/// Returns the lower of the costs that exist.
pub fn lesser(a: Option<u32>, b: Option<u32>) -> Option<u32>
    ensures { result ≡ lesser a b }
{
    match (a, b) {
        (Some(a), Some(b)) => Some(a.min(b)),
        (Some(a), None) => Some(a),
        (None, b) => b,
    }
}

/// Returns the cost of a conversion and of the walk after it, if that walk exists.
pub fn cost_with(cost: u32, rest: Option<u32>) -> Option<u32>
    requires cost { cost ≤ 10000 }
    requires small { IsSmall rest }
    ensures { result ≡ plus cost rest }
{
    match rest {
        Some(rest) => Some(cost + rest),
        None => None,
    }
}
