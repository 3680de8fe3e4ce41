//! Which reasons and which message of a queue are shown.
ghost use Rattle.std.specs.Prelude.{◌≡◌, ◌++◌, IfOk, OnOk, filter};
ghost use Rattle.std.specs.Option.{option_copied};
ghost use Rattle.command_lines.specs.Replies.{reasons_word};
ghost use Rattle.spool_types.specs.State.{job_at};
ghost use Rattle.queue_sayings.specs.QueueSayings.{has_spoken, has_spoken_by, has_spoken_in, is_lasting, shown_message, shown_reasons};

use client_standing::Standing;
use command_lines::push_reasons;
use job_table::Table;
use spool_types::{JobId, Phase, QueueName, QueueRow, Reason};
use std::alloc::{AllocError, Global};

/// Returns whether an attempt runs in the queue and a stage of it has ended.
pub fn has_spoken(table: &Table, name: &QueueName) -> bool
    ensures { result ≡ has_spoken table.now.state name.now }
{
    match table.processing(name) {
        Some(job) => job_has_spoken(table, job),
        None => false,
    }
}

fn job_has_spoken(table: &Table, job: JobId) -> bool
    ensures { result ≡ has_spoken_by (job_at table.now.state job) }
{
    match table.job(job) {
        Some(row) => has_spoken_in(row.job.phase),
        None => false,
    }
}

fn has_spoken_in(phase: Phase) -> bool
    ensures { result ≡ has_spoken_in phase }
{
    match phase {
        Phase::Processing { stage, .. } => 1 < stage,
        _ => false,
    }
}

/// Appends the reasons that are shown, joined by commas, or `none`. If memory runs out, a part of them may have been appended.
pub fn push_shown_reasons(
    text: &mut Vec<u8>,
    reasons: &[Reason],
    spoken: bool,
) -> Result<(), AllocError>
    ensures { OnOk result (text.new.items ≡ text.old.items ++ reasons_word (shown_reasons spoken reasons.now)) }
{
    if spoken {
        push_reasons(text, reasons)
    } else {
        push_lasting(text, reasons)
    }
}

fn push_lasting(text: &mut Vec<u8>, reasons: &[Reason]) -> Result<(), AllocError>
    ensures { OnOk result (text.new.items ≡ text.old.items ++ reasons_word (filter is_lasting reasons.now)) }
{
    let alloc = *text.allocator();
    let lasting = lasting_of(alloc, reasons)?;
    push_reasons(text, &lasting)
}

fn lasting_of(alloc: Global, reasons: &[Reason]) -> Result<Vec<Reason>, AllocError>
    ensures { IfOk result (λ lasting. lasting.items ≡ filter is_lasting reasons.now) }
{
    let mut lasting = Vec::new(alloc);
    for reason in reasons {
        if is_lasting(reason) {
            lasting.push(reason.clone()?)?;
        }
    }
    Ok(lasting)
}

fn is_lasting(reason: &Reason) -> bool
    ensures { result ≡ is_lasting reason.now }
{
    let word = reason.as_str().as_bytes();
    word.starts_with(b"marker-") || word.starts_with(b"media-")
}

/// Returns the message that is shown to the client, which may be empty.
pub fn shown_message<'a>(client: &Standing, row: &'a QueueRow, spoken: bool) -> &'a str
    ensures { result.now ≡ shown_message client.now spoken row.now.message }
{
    if spoken && client.sees_all() {
        row.message.as_str()
    } else {
        ""
    }
}
