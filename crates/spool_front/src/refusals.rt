//! The explanations of refused commands.
ghost use Rattle.std.specs.Prelude.{◌≡◌, IfOk, string_bytes};
ghost use Rattle.std.specs.Option.{option_map};
ghost use Rattle.front_proof.specs.Denials.{denied_job};
ghost use Rattle.front_proof.specs.Standings.{standing_of};
ghost use Rattle.spool_front.specs.RefusedCommands.{IsExplained, act_word, is_denied, is_purge, job_text, or_unproved, queue_text, queue_word, refused_text};

use crate::fault::Fault;
use front_proof::{Caller, denied_job, denied_to_all};
use front_words::{JobAct, PlainAct, QueueAct};
use refusal_sentences::sentence_of;
use std::alloc::{AllocError, Global};

/// Returns the fault of an action on a job, with an explanation if the service refused it.
pub fn explain_job(
    alloc: Global,
    act: JobAct,
    job: u32,
    caller: Option<&Caller>,
    fault: Fault,
) -> Result<Fault, AllocError>
    ensures { IfOk result (IsExplained (job_text act job (option_map (λ caller. standing_of caller.now) caller.entry)) fault) }
{
    match fault {
        Fault::Refused(reply) => {
            let text = job_text(alloc, act, job, caller, reply.as_str());
            drop(reply);
            Ok(Fault::Explained(text?))
        }
        fault => Ok(fault),
    }
}

/// Returns the fault of an action on a queue, with an explanation if the service refused it.
pub fn explain_queue(
    alloc: Global,
    name: &str,
    act: QueueAct<'_>,
    fault: Fault,
) -> Result<Fault, AllocError>
    ensures { IfOk result (IsExplained (queue_text name.now act.entry) fault) }
{
    match fault {
        Fault::Refused(reply) => {
            let text = queue_text(alloc, name, act, reply.as_str());
            drop(reply);
            Ok(Fault::Explained(text?))
        }
        fault => Ok(fault),
    }
}

// Returns whether the service denied the command.
fn is_denied(reply: &str) -> bool
    ensures { result ≡ is_denied reply.now }
{
    reply == "error denied"
}

fn job_text(
    alloc: Global,
    act: JobAct,
    job: u32,
    caller: Option<&Caller>,
    reply: &str,
) -> Result<String, AllocError>
    ensures { IfOk result (λ text. string_bytes text ≡ job_text act job (option_map (λ caller. standing_of caller.now) caller.entry) reply.now) }
{
    let word = act_word(act);
    if is_denied(reply) && !is_purge(act) {
        return denied_job_text(alloc, word, job, caller);
    }
    let object = format!(in alloc; "job {job}")?;
    let text = if is_denied(reply) {
        denied_to_all(alloc, word, object.as_str(), "purge jobs")
    } else {
        refused_text(alloc, word, object.as_str(), reply)
    };
    drop(object);
    text
}

// Explains why the client may not act on a job. A client that the service was not asked about is unproved.
fn denied_job_text(
    alloc: Global,
    word: &str,
    job: u32,
    caller: Option<&Caller>,
) -> Result<String, AllocError>
    ensures { IfOk result (λ text. string_bytes text ≡ denied_job word.now job (or_unproved (option_map (λ caller. standing_of caller.now) caller.entry))) }
{
    match caller {
        Some(caller) => denied_job(alloc, word, job, caller),
        None => denied_job(alloc, word, job, &Caller::Unproved),
    }
}

// Explains a refusal. `act` is a verb, and `object` its object.
#[tactic(auto, unfolding(crate::specs::RefusedCommands::refused_text))]
fn refused_text(alloc: Global, act: &str, object: &str, reply: &str) -> Result<String, AllocError>
    ensures { IfOk result (λ text. string_bytes text ≡ refused_text act.now object.now reply.now) }
{
    let sentence = sentence_of(reply);
    let text = format!(in alloc; "cannot {act} {object}: {sentence}")?;
    Ok(text)
}

fn is_purge(act: JobAct) -> bool
    ensures { result ≡ is_purge act }
{
    matches!(act, JobAct::Plain(PlainAct::Purge))
}

fn act_word(act: JobAct) -> &'static str
    ensures { result.now ≡ act_word act }
{
    match act {
        JobAct::Cancel | JobAct::CancelOnly => "cancel",
        JobAct::Hold(_) => "hold",
        JobAct::Resume => "release",
        JobAct::Plain(act) => act.word(),
    }
}

fn queue_text(
    alloc: Global,
    name: &str,
    act: QueueAct<'_>,
    reply: &str,
) -> Result<String, AllocError>
    ensures { IfOk result (λ text. string_bytes text ≡ queue_text name.now act.entry reply.now) }
{
    let object = format!(in alloc; "queue {name}")?;
    let text = if is_denied(reply) {
        denied_to_all(alloc, queue_word(act), object.as_str(), "change queues")
    } else {
        refused_text(alloc, queue_word(act), object.as_str(), reply)
    };
    drop(object);
    text
}

fn queue_word(act: QueueAct<'_>) -> &'static str
    ensures { result.now ≡ queue_word act.entry }
{
    match act {
        QueueAct::Add(_) => "add",
        QueueAct::Set { .. } => "set",
        QueueAct::Accept => "accept",
        QueueAct::Reject => "reject",
        QueueAct::Enable => "enable",
        QueueAct::Disable => "disable",
    }
}
