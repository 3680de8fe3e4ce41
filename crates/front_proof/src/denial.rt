//! Why a service denies a request, as a message.
ghost use Rattle.std.specs.Prelude.{◌≡◌, IfOk, string_bytes};
ghost use Rattle.front_proof.specs.Denials.{denied_as, denied_job, denied_to_all, job_reason, operators_only};
ghost use Rattle.front_proof.specs.Standings.{standing_of};

use crate::caller::Caller;
use std::alloc::{AllocError, Global};

/// Explains why the client may not act on a job. `act` is a verb.
#[tactic(auto, unfolding(crate::specs::Denials::denied_job))]
pub fn denied_job(alloc: Global, act: &str, job: u32, caller: &Caller) -> Result<String, AllocError>
    ensures { IfOk result (λ text. string_bytes text ≡ denied_job act.now job (standing_of caller.now)) }
{
    let reason = job_reason(caller);
    let text = format!(in alloc; "cannot {act} job {job}: {reason}")?;
    Ok(text)
}

fn job_reason(caller: &Caller) -> &'static str
    ensures { result.now ≡ job_reason (standing_of caller.now) }
{
    match caller {
        Caller::Unproved => "the service does not know who you are (see spool_service(8), Roles)",
        Caller::User(_) => "it is not yours (ask an operator, or see spool_service(8), Roles)",
        Caller::Operator(_) => "the service denies it (see spool_service(8), Roles)",
    }
}

/// Explains that only operators may do this. `act` is a verb, `object` its object, and `right` the action that only operators may
/// take.
pub fn denied_to_all(
    alloc: Global,
    act: &str,
    object: &str,
    right: &str,
) -> Result<String, AllocError>
    ensures { IfOk result (λ text. string_bytes text ≡ denied_to_all act.now object.now right.now) }
{
    let reason = operators_only(alloc, right)?;
    let text = denied_as(alloc, act, object, reason.as_str());
    drop(reason);
    text
}

#[tactic(auto, unfolding(crate::specs::Denials::denied_as))]
fn denied_as(alloc: Global, act: &str, object: &str, reason: &str) -> Result<String, AllocError>
    ensures { IfOk result (λ text. string_bytes text ≡ denied_as act.now object.now reason.now) }
{
    let text = format!(in alloc; "cannot {act} {object}: {reason}")?;
    Ok(text)
}

#[tactic(auto, unfolding(crate::specs::Denials::operators_only))]
fn operators_only(alloc: Global, right: &str) -> Result<String, AllocError>
    ensures { IfOk result (λ text. string_bytes text ≡ operators_only right.now) }
{
    let text = format!(in alloc; "only operators may {right} (see spool_service(8), Roles)")?;
    Ok(text)
}
