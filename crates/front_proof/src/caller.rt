//! The identity of a client for a service.
ghost use Rattle.std.specs.Prelude.{◌≡◌, IfOk, is_some};
ghost use Rattle.std.specs.Option.{option_map};
ghost use Rattle.front_proof.specs.Standings.{standing_of};
ghost use Rattle.front_proof.specs.ProofReplies.{IsStandingIn, name_of, user_of};

use crate::replies::caller_in;
use std::alloc::{AllocError, Global};

/// The identity of a client for a service.
#[derive(Drop)]
pub enum Caller {
    /// The client is not proved.
    Unproved,
    /// A user with this name.
    User(String),
    /// An operator with this name.
    Operator(String),
}

impl Caller {
    /// Returns the identity of a client after this reply to `made`.
    pub fn from_reply(alloc: Global, line: &[u8]) -> Result<Caller, AllocError>
        ensures { IfOk result (λ caller. IsStandingIn line.now (standing_of caller)) }
    {
        caller_in(alloc, line)
    }

    /// Returns whether the client is proved.
    pub fn is_proved(&self) -> bool
        ensures { result ≡ is_some (name_of (standing_of self.now)) }
    {
        !matches!(self, Caller::Unproved)
    }

    /// Returns the name of a user who is no operator.
    pub fn user(&self) -> Option<&str>
        ensures { option_map (λ name. name.now) result ≡ user_of (standing_of self.now) }
    {
        match self {
            Caller::User(name) => Some(name.as_str()),
            Caller::Unproved | Caller::Operator(_) => None,
        }
    }
}
