//! The steps of a proof over one connection.
ghost use Rattle.std.specs.Prelude.{◌≡◌, IfOk, string_bytes};
ghost use Rattle.std.specs.Option.{option_map};
ghost use Rattle.front_proof.specs.ProofSteps.{IsAfterOffer, after_making, after_offer, making, place_of};

use crate::caller::Caller;
use crate::path::ProofPath;
use crate::replies::offered_path;
use std::alloc::{AllocError, Global};

/// The step after the reply to `i-am`.
#[derive(Drop)]
pub enum Step {
    /// Make the folder at this path, with mode 0700.
    Making(ProofPath),
    /// Send `made`, and the command right after it.
    Claiming(ProofPath),
    /// Send the command. The service identifies the client as this.
    Ended(Caller),
}

impl Step {
    /// Returns the step after a reply to `i-am`.
    pub fn after_offer(alloc: Global, line: &[u8]) -> Result<Step, AllocError>
        ensures { IfOk result (λ next. IsAfterOffer line.now (place_of next)) }
    {
        Ok(offered(offered_path(alloc, line)?))
    }

    /// Returns the step after an attempt to make the folder.
    pub fn after_making(self, made: bool) -> Step
        ensures { place_of result ≡ after_making (place_of self) made }
    {
        match self {
            Step::Making(path) => claiming(path, made),
            step => step,
        }
    }
}

fn claiming(path: ProofPath, made: bool) -> Step
    ensures { place_of result ≡ after_making (making (string_bytes path.text)) made }
{
    if made {
        Step::Claiming(path)
    } else {
        drop(path);
        Step::Ended(Caller::Unproved)
    }
}

fn offered(path: Option<ProofPath>) -> Step
    ensures { place_of result ≡ after_offer (option_map (λ path. string_bytes path.text) path) }
{
    match path {
        Some(path) => Step::Making(path),
        None => Step::Ended(Caller::Unproved),
    }
}
