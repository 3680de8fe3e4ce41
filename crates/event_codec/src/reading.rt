//! Reading events.
ghost use Rattle.std.specs.Prelude.{◌≡◌, ◌≤◌, ◌↔◌, ◌⊎◌, ℕ, length, is_ok, false, IsTrue, IfOk, IfErr, OnOk, IsOk, Ok};
ghost use Rattle.std.specs.Int.{w8, w16, w32};
ghost use Rattle.spool_types.specs.declared.event.Event.{Event};
ghost use Rattle.spool_types.specs.Values.{is_media_type, is_queue_name};
ghost use Rattle.event_codec.specs.Spelling.{IsSpellable, spelling};
ghost use Rattle.event_codec.specs.EventReading.{Gives, MemoryOnly, text_at, flag_at, until_at, exit_at, policy_at, filters_at, maybe_filters_at, piece_at, new_queue_at, queue_at, notes_at, accept_at, stop_at, ticket_at, new_job_at, job_at, job_by_at, send_at, closing_at, hold_at, numbered_at, clock_at, stage_at, fields_at, closing_copies, stage_copies, fields_copy, reaches_copy, whole, reading};

use crate::effect_reading::effects_at;
use crate::fields::texts_at;
use field_codec::{
    CodecFault, ended, job_id, moment, part_at, ranged, text_at, u8_at, u16_at, u32_at, u64_at,
};
use spool_types::{
    Closing, Event, Exit, Filters, JobId, LONGEST_SEND, MediaType, MediaTypeKind, Moment, NewJob,
    NewQueue, Piece, Policy, QueueName, QueueNotes, StageEnd,
};
use std::alloc::Global;

#[tactic(auto, unfolding(crate::specs::EventReading::flag_at, crate::specs::EventReading::flag_of))]
pub(crate) fn flag_at(bytes: &[u8]) -> Result<(bool, &[u8]), CodecFault>
    ensures read { Gives (λ x. (x.0, x.1.now)) result (flag_at bytes.now) }
    ensures memory { IfErr result (MemoryOnly false) }
{
    let (number, rest) = u8_at(bytes)?;
    match number {
        0 => Ok((false, rest)),
        1 => Ok((true, rest)),
        _ => Err(CodecFault::Range),
    }
}

/// Returns the moment until which a job is held, or `None` if it is held until it is released.
#[tactic(auto, unfolding(crate::specs::EventReading::until_at, crate::specs::EventReading::flagged_until_at, crate::specs::EventReading::moment_at, field_codec::specs::Fields::ranged_at))]
fn until_at(bytes: &[u8]) -> Result<(Option<Moment>, &[u8]), CodecFault>
    ensures read { Gives (λ x. (x.0, x.1.now)) result (until_at bytes.now) }
    ensures memory { IfErr result (MemoryOnly false) }
{
    let (flag, rest) = u8_at(bytes)?;
    match flag {
        1 => Ok((None, rest)),
        2 => {
            let (seconds, rest) = u64_at(rest)?;
            let moment = moment(seconds)?;
            Ok((Some(moment), rest))
        }
        _ => Err(CodecFault::Range),
    }
}

#[tactic(auto, unfolding(crate::specs::EventReading::exit_at, crate::specs::EventReading::kind_of_exit, crate::specs::EventReading::status_at))]
fn exit_at(bytes: &[u8]) -> Result<(Exit, &[u8]), CodecFault>
    ensures read { Gives (λ x. (x.0, x.1.now)) result (exit_at bytes.now) }
    ensures memory { IfErr result (MemoryOnly false) }
{
    let (kind, rest) = u8_at(bytes)?;
    match kind {
        0 => {
            let (status, rest) = u8_at(rest)?;
            Ok((Exit::Code(status), rest))
        }
        1 => Ok((Exit::Signal, rest)),
        2 => Ok((Exit::NoStart, rest)),
        3 => Ok((Exit::Lost, rest)),
        _ => Err(CodecFault::Range),
    }
}

#[tactic(auto, unfolding(crate::specs::EventReading::policy_at, crate::specs::EventReading::policy_of))]
fn policy_at(bytes: &[u8]) -> Result<(Policy, &[u8]), CodecFault>
    ensures read { Gives (λ x. (x.0, x.1.now)) result (policy_at bytes.now) }
    ensures memory { IfErr result (MemoryOnly false) }
{
    let (number, rest) = u8_at(bytes)?;
    let policy = match number {
        0 => Policy::AbortJob,
        1 => Policy::RetryJob,
        2 => Policy::RetryCurrentJob,
        3 => Policy::StopPrinter,
        _ => return Err(CodecFault::Range),
    };
    Ok((policy, rest))
}

pub(crate) fn media_at(alloc: Global, bytes: &[u8]) -> Result<(MediaType, &[u8]), CodecFault>
    ensures read { Gives (λ x. (x.0, x.1.now)) result (text_at is_media_type bytes.now) }
    ensures memory { IfErr result (MemoryOnly (is_ok (text_at is_media_type bytes.now))) }
{
    let (name, rest) = text_at::<MediaTypeKind>(alloc, bytes)?;
    Ok((MediaType::from_name(name), rest))
}

/// Returns the filters, which follow their number.
#[tactic(auto, unfolding(crate::specs::EventReading::filters_at, field_codec::specs::Fields::ranged_at, field_codec::specs::Fields::ranged, field_codec::specs::Fields::checked))]
pub(crate) fn filters_at(alloc: Global, bytes: &[u8]) -> Result<(Filters, &[u8]), CodecFault>
    ensures read { Gives (λ x. (x.0, x.1.now)) result (filters_at bytes.now) }
    ensures few { IfOk result (λ x. length x.0 ≤ 15) }
{
    let (count, rest) = u8_at(bytes)?;
    if 15 < count {
        return Err(CodecFault::Range);
    }
    let (filters, rest) = texts_at(alloc, count as u16, rest)?;
    match Filters::new(filters) {
        Ok(filters) => Ok((filters, rest)),
        Err(_) => Err(CodecFault::Range),
    }
}

#[tactic(auto, unfolding(crate::specs::EventReading::maybe_filters_at, crate::specs::EventReading::flagged_filters_at, crate::specs::EventReading::some_filters_at))]
fn maybe_filters_at(alloc: Global, bytes: &[u8]) -> Result<(Option<Filters>, &[u8]), CodecFault>
    ensures read { Gives (λ x. (x.0, x.1.now)) result (maybe_filters_at bytes.now) }
{
    let (flag, rest) = u8_at(bytes)?;
    match flag {
        0 => Ok((None, rest)),
        1 => {
            let (filters, rest) = filters_at(alloc, rest)?;
            Ok((Some(filters), rest))
        }
        _ => Err(CodecFault::Range),
    }
}

/// Returns the bytes of a send, at least `least`.
#[tactic(auto, unfolding(crate::specs::EventReading::piece_at, field_codec::specs::Fields::ranged_at, field_codec::specs::Fields::ranged, field_codec::specs::Fields::checked))]
pub(crate) fn piece_at(
    alloc: Global,
    least: u32,
    bytes: &[u8],
) -> Result<(Piece, &[u8]), CodecFault>
    ensures read { Gives (λ x. (x.0, x.1.now)) result (piece_at least bytes.now) }
    ensures memory { IfErr result (MemoryOnly (is_ok (piece_at least bytes.now))) }
{
    let (count, rest) = u32_at(bytes)?;
    if count < least || LONGEST_SEND < count as usize {
        return Err(CodecFault::Range);
    }
    let (part, rest) = part_at(count as usize, rest)?;
    match Piece::new(Vec::from_slice(alloc, part)?) {
        Ok(piece) => Ok((piece, rest)),
        Err(_) => Err(CodecFault::Range),
    }
}

/// Returns a queue with the fields of AddQueue.
#[tactic(auto, unfolding(crate::specs::EventReading::new_queue_at, field_codec::specs::Fields::ranged_at))]
pub(crate) fn new_queue_at(alloc: Global, bytes: &[u8]) -> Result<(NewQueue, &[u8]), CodecFault>
    ensures read { Gives (λ x. (x.0, x.1.now)) result (new_queue_at bytes.now) }
    ensures copied { OnOk result (IsTrue (is_ok (text_at is_queue_name bytes.now))) }
    ensures memory { IfErr result (MemoryOnly (is_ok (text_at is_queue_name bytes.now))) }
{
    let (name, rest) = text_at(alloc, bytes)?;
    let (uri, rest) = text_at(alloc, rest)?;
    let (target, rest) = media_at(alloc, rest)?;
    let (policy, rest) = policy_at(rest)?;
    let (interval, rest) = u32_at(rest)?;
    let interval = ranged(interval)?;
    let (limit, rest) = u16_at(rest)?;
    let queue = NewQueue {
        name,
        uri,
        target,
        policy,
        interval,
        limit,
    };
    Ok((queue, rest))
}

#[tactic(auto, unfolding(crate::specs::EventReading::queue_at, field_codec::specs::Fields::whole))]
fn new_queue_of(alloc: Global, fields: &[u8]) -> Result<Event, CodecFault>
    ensures read { Gives (λ e. e) result (whole (queue_at fields.now)) }
    ensures memory { IfErr result (MemoryOnly (is_ok (text_at is_queue_name fields.now))) }
{
    let (queue, rest) = new_queue_at(alloc, fields)?;
    ended(rest)?;
    Ok(Event::AddQueue(queue))
}

#[tactic(auto, unfolding(crate::specs::EventReading::notes_at, field_codec::specs::Fields::whole))]
fn notes_of(alloc: Global, fields: &[u8]) -> Result<Event, CodecFault>
    ensures read { Gives (λ e. e) result (whole (notes_at fields.now)) }
    ensures memory { IfErr result (MemoryOnly (is_ok (text_at is_queue_name fields.now))) }
{
    let (queue, rest) = text_at(alloc, fields)?;
    let (info, rest) = text_at(alloc, rest)?;
    let (location, rest) = text_at(alloc, rest)?;
    ended(rest)?;
    Ok(Event::Info(QueueNotes {
        queue,
        info,
        location,
    }))
}

#[tactic(auto, unfolding(crate::specs::EventReading::accept_at, field_codec::specs::Fields::whole))]
fn accept_of(alloc: Global, fields: &[u8]) -> Result<Event, CodecFault>
    ensures read { Gives (λ e. e) result (whole (accept_at fields.now)) }
    ensures memory { IfErr result (MemoryOnly (is_ok (text_at is_queue_name fields.now))) }
{
    let (queue, rest) = text_at(alloc, fields)?;
    let (accepting, rest) = flag_at(rest)?;
    ended(rest)?;
    Ok(Event::SetAccept { queue, accepting })
}

#[tactic(auto, unfolding(crate::specs::EventReading::stop_at, field_codec::specs::Fields::whole))]
fn stop_of(alloc: Global, fields: &[u8]) -> Result<Event, CodecFault>
    ensures read { Gives (λ e. e) result (whole (stop_at fields.now)) }
    ensures memory { IfErr result (MemoryOnly (is_ok (text_at is_queue_name fields.now))) }
{
    let (queue, rest) = text_at(alloc, fields)?;
    let (stopped, rest) = flag_at(rest)?;
    ended(rest)?;
    Ok(Event::SetStop { queue, stopped })
}

/// Returns a new job of this queue and with this number.
#[tactic(auto, unfolding(crate::specs::EventReading::ticket_at, field_codec::specs::Fields::ranged_at))]
pub(crate) fn ticket_at(
    alloc: Global,
    queue: QueueName,
    job: JobId,
    bytes: &[u8],
) -> Result<(NewJob, &[u8]), CodecFault>
    ensures read { Gives (λ x. (x.0, x.1.now)) result (ticket_at queue job bytes.now) }
{
    let (user, rest) = text_at(alloc, bytes)?;
    let (title, rest) = text_at(alloc, rest)?;
    let (copies, rest) = u16_at(rest)?;
    let copies = ranged(copies as u32)?;
    let (priority, rest) = u8_at(rest)?;
    let priority = ranged(priority as u32)?;
    let (options, rest) = text_at(alloc, rest)?;
    let ticket = NewJob {
        queue,
        job,
        user,
        title,
        copies,
        priority,
        options,
    };
    Ok((ticket, rest))
}

#[tactic(auto, unfolding(crate::specs::EventReading::new_job_at, field_codec::specs::Fields::ranged_at))]
fn new_job_at(alloc: Global, bytes: &[u8]) -> Result<(NewJob, &[u8]), CodecFault>
    ensures read { Gives (λ x. (x.0, x.1.now)) result (new_job_at bytes.now) }
    ensures copied { OnOk result (IsTrue (is_ok (text_at is_queue_name bytes.now))) }
    ensures memory { IfErr result (MemoryOnly (is_ok (text_at is_queue_name bytes.now))) }
{
    let (queue, rest) = text_at(alloc, bytes)?;
    let (number, rest) = u32_at(rest)?;
    let job = job_id(number)?;
    ticket_at(alloc, queue, job, rest)
}

#[tactic(auto, unfolding(crate::specs::EventReading::job_at, field_codec::specs::Fields::whole))]
fn job_of(alloc: Global, fields: &[u8]) -> Result<Event, CodecFault>
    ensures read { Gives (λ e. e) result (whole (job_at fields.now)) }
    ensures memory { IfErr result (MemoryOnly (is_ok (text_at is_queue_name fields.now))) }
{
    let (job, rest) = new_job_at(alloc, fields)?;
    ended(rest)?;
    Ok(Event::Create(job))
}

#[tactic(auto, unfolding(crate::specs::EventReading::job_by_at, field_codec::specs::Fields::ranged_at, field_codec::specs::Fields::whole))]
fn job_by_of(alloc: Global, fields: &[u8]) -> Result<Event, CodecFault>
    ensures read { Gives (λ e. e) result (whole (job_by_at fields.now)) }
    ensures memory { IfErr result (MemoryOnly (is_ok (text_at is_queue_name fields.now))) }
{
    let (job, rest) = new_job_at(alloc, fields)?;
    let (seconds, rest) = u64_at(rest)?;
    let by = moment(seconds)?;
    ended(rest)?;
    Ok(Event::CreateBy { job, by })
}

#[tactic(auto, unfolding(crate::specs::EventReading::send_at, field_codec::specs::Fields::ranged_at, field_codec::specs::Fields::whole))]
fn send_of(alloc: Global, fields: &[u8]) -> Result<Event, CodecFault>
    ensures read { Gives (λ e. e) result (whole (send_at fields.now)) }
    ensures memory { IfErr result (MemoryOnly (is_ok (send_at fields.now))) }
{
    let (number, rest) = u32_at(fields)?;
    let job = job_id(number)?;
    let (bytes, rest) = piece_at(alloc, 0, rest)?;
    ended(rest)?;
    Ok(Event::Send { job, bytes })
}

#[tactic(auto, unfolding(crate::specs::EventReading::closing_at, crate::specs::EventReading::closing_copies, field_codec::specs::Fields::ranged_at, field_codec::specs::Fields::whole))]
fn closing_of(alloc: Global, fields: &[u8]) -> Result<Event, CodecFault>
    ensures read { Gives (λ e. e) result (whole (closing_at fields.now)) }
    ensures memory { IfErr result (MemoryOnly (closing_copies fields.now)) }
{
    let (number, rest) = u32_at(fields)?;
    let job = job_id(number)?;
    let (media, rest) = media_at(alloc, rest)?;
    let (filters, rest) = maybe_filters_at(alloc, rest)?;
    ended(rest)?;
    Ok(Event::Close(Closing {
        job,
        media,
        filters,
    }))
}

#[tactic(auto, unfolding(crate::specs::EventReading::hold_at, field_codec::specs::Fields::ranged_at, field_codec::specs::Fields::whole))]
fn hold_of(fields: &[u8]) -> Result<Event, CodecFault>
    ensures read { Gives (λ e. e) result (whole (hold_at fields.now)) }
    ensures memory { IfErr result (MemoryOnly false) }
{
    let (number, rest) = u32_at(fields)?;
    let job = job_id(number)?;
    // `?` is not proved here, because an optional moment is paired with a slice.
    match until_at(rest) {
        Ok((until, rest)) => {
            ended(rest)?;
            Ok(Event::Hold { job, until })
        }
        Err(fault) => Err(fault),
    }
}

// Returns a job's number, if no bytes follow it.
#[tactic(auto, unfolding(crate::specs::EventReading::numbered_at, field_codec::specs::Fields::ranged_at, field_codec::specs::Fields::whole))]
fn only_job(fields: &[u8]) -> Result<JobId, CodecFault>
    ensures read { (event : ℕ → Event) → Gives event result (whole (numbered_at event fields.now)) }
    ensures memory { IfErr result (MemoryOnly false) }
{
    let (number, rest) = u32_at(fields)?;
    let job = job_id(number)?;
    ended(rest)?;
    Ok(job)
}

#[tactic(auto, unfolding(crate::specs::EventReading::clock_at, field_codec::specs::Fields::ranged_at, field_codec::specs::Fields::whole))]
fn clock_of(fields: &[u8]) -> Result<Event, CodecFault>
    ensures read { Gives (λ e. e) result (whole (clock_at fields.now)) }
    ensures memory { IfErr result (MemoryOnly false) }
{
    let (seconds, rest) = u64_at(fields)?;
    let moment = moment(seconds)?;
    ended(rest)?;
    Ok(Event::Clock(moment))
}

#[tactic(auto, unfolding(crate::specs::EventReading::stage_at, crate::specs::EventReading::stage_copies, crate::specs::EventReading::effects_copy, field_codec::specs::Fields::ranged_at, field_codec::specs::Fields::whole))]
fn stage_of(alloc: Global, fields: &[u8]) -> Result<Event, CodecFault>
    ensures read { Gives (λ e. e) result (whole (stage_at fields.now)) }
    ensures memory { IfErr result (MemoryOnly (stage_copies fields.now)) }
{
    let (number, rest) = u32_at(fields)?;
    let job = job_id(number)?;
    let (attempt, rest) = u32_at(rest)?;
    let attempt = ranged(attempt)?;
    let (stage, rest) = u8_at(rest)?;
    let stage = ranged(stage as u32)?;
    let (exit, rest) = exit_at(rest)?;
    let (dropped, rest) = u32_at(rest)?;
    let (effects, rest) = effects_at(alloc, rest)?;
    ended(rest)?;
    Ok(Event::Stage(StageEnd {
        job,
        attempt,
        stage,
        exit,
        dropped,
        effects,
    }))
}

#[tactic(auto, unfolding(field_codec::specs::Fields::whole))]
fn reopen_of(fields: &[u8]) -> Result<Event, CodecFault>
    ensures read { Gives (λ e. e) result (whole (Ok (Event.Reopen, fields.now))) }
    ensures memory { IfErr result (MemoryOnly false) }
{
    ended(fields)?;
    Ok(Event::Reopen)
}

// Returns the event of this kind with these fields.
#[tactic(auto, unfolding(crate::specs::EventReading::fields_at, field_codec::specs::Fields::whole, crate::specs::EventReading::fields_copy))]
fn event_of_kind(alloc: Global, kind: u8, fields: &[u8]) -> Result<Event, CodecFault>
    ensures read { Gives (λ e. e) result (whole (fields_at kind fields.now)) }
    ensures memory { IfErr result (MemoryOnly (fields_copy kind fields.now)) }
{
    match kind {
        0x01 => new_queue_of(alloc, fields),
        0x02 => notes_of(alloc, fields),
        0x03 => accept_of(alloc, fields),
        0x04 => stop_of(alloc, fields),
        0x05 => job_of(alloc, fields),
        0x06 => send_of(alloc, fields),
        0x07 => closing_of(alloc, fields),
        0x08 => hold_of(fields),
        0x09 => Ok(Event::Release(only_job(fields)?)),
        0x0A => Ok(Event::Cancel(only_job(fields)?)),
        0x0B => clock_of(fields),
        0x0C => Ok(Event::Start(only_job(fields)?)),
        0x0D => stage_of(alloc, fields),
        0x0E => Ok(Event::Abandon(only_job(fields)?)),
        0x0F => reopen_of(fields),
        0x10 => Ok(Event::Purge(only_job(fields)?)),
        0x11 => job_by_of(alloc, fields),
        _ => Err(CodecFault::Kind),
    }
}

#[tactic(auto, unfolding(crate::specs::EventReading::event_at, crate::specs::EventReading::reaches_copy, field_codec::specs::Fields::whole))]
fn event_of(alloc: Global, payload: &[u8]) -> Result<Event, CodecFault>
    ensures read { Gives (λ e. e) result (reading payload.now) }
    ensures memory { IfErr result (MemoryOnly (reaches_copy payload.now)) }
{
    match payload {
        [] => Err(CodecFault::Length),
        [kind, fields @ ..] => event_of_kind(alloc, *kind, fields),
    }
}

/// Decodes the event that all the bytes encode. A field is copied once, and nothing is retained after an error.
pub fn decode(alloc: Global, payload: &[u8]) -> Result<Event, CodecFault>
    // The bytes of the result are its spelling.
    ensures sound { IfOk result (λ event. IsSpellable event × (payload.now ≡ spelling event)) }
    // A spelling is decoded, unless memory runs out.
    ensures complete { (event : Event) → IsSpellable event → payload.now ≡ spelling event → Gives (λ e. e) result (Ok event) }
    // The error.
    ensures exact { Gives (λ e. e) result (reading payload.now) }
    // Memory runs out only if a value is copied.
    ensures memory { IfErr result (MemoryOnly (reaches_copy payload.now)) }
{
    event_of(alloc, payload)
}
