//! Writing the rows of a listing.
ghost use Rattle.std.specs.Prelude.{◌≡◌, ◌+◌, ◌*◌, ◌<◌, ◌≤◌, ◌^◌, ◌∷◌, ◌++◌, List, ℕ, [], length, take, IsOk, IfOk, OnOk, OnErr, vec_len, vec_capacity};
ghost use Rattle.std.specs.Int.{w8, w16, w32, w64, to_be_bytes};
ghost use Rattle.std.specs.List.{flat_map, AllByRecursion};
ghost use Rattle.spool_types.specs.Limits.{greatest_moment};
ghost use Rattle.event_codec.specs.Spelling.{attribute_code, queue_code, IsIn, IsQueue, IsJob, IsAttribute};
ghost use Rattle.event_codec.specs.RowSpelling.{hold_reason_number, holding_code, abort_reason_number, waiting_code, phase_code, by_code, typed_code, attributes_code, head_code, new_queue_of, queue_state_code, queue_row_code, new_job_of, created_code, job_state_code, job_rest_code, job_row_code, row_spelling, IsHolding, IsWaitingFor, HasMoments, IsTyped, IsQueueState, HasQueueFields, IsJobState, IsBy, HasJobFields, HasFields, IsLegalRow, IsLegalJob, IsOrderedQueue, IsRowSpellable};
ghost use Rattle.spool_types.specs.declared.listing.Row.{Row};
ghost use Rattle.spool_types.specs.declared.version.Version.TheVariants.{Two};

use crate::effect_writing::put_attribute;
use crate::field_writing::{
    counted_len, media_len, put_counted, put_flag, put_kind, put_media, put_text, put_u8, put_u16,
    put_u32, put_u64, text_len,
};
use crate::writing::{policy_byte, put_send};
use spool_types::{
    AbortReason, Attribute, Attributes, Head, Hold, HoldReason, Job, JobId, MediaType, Moment,
    Phase, Piece, QueueRow, Row,
};
use std::alloc::{AllocError, Global};

fn hold_reason_byte(reason: HoldReason) -> u8
    ensures { result ≡ hold_reason_number reason }
{
    match reason {
        HoldReason::Unspecified => 0,
        HoldReason::Authentication => 1,
        HoldReason::Backend => 2,
    }
}

fn abort_reason_byte(reason: AbortReason) -> u8
    ensures { result ≡ abort_reason_number reason }
{
    match reason {
        AbortReason::FilterFailed => 0,
        AbortReason::BackendFailed => 1,
        AbortReason::RetryLimit => 2,
        AbortReason::AttemptLost => 3,
        AbortReason::NoFilter => 4,
    }
}

fn put_holding(out: &mut Vec<u8>, hold: Hold)
    requires room { vec_len out.old + length (holding_code hold) ≤ vec_capacity out.old }
    ensures written { out.new.items ≡ out.old.items ++ holding_code hold }
    ensures len { vec_len out.new ≡ vec_len out.old + length (holding_code hold) }
    ensures grown { vec_capacity out.old ≤ vec_capacity out.new }
    ensures legal { IsHolding hold }
{
    match hold {
        Hold::Free => put_u8(out, 0),
        Hold::Indefinite(reason) => {
            put_u8(out, 1);
            put_u8(out, hold_reason_byte(reason))
        }
        Hold::Until(moment) => {
            put_u8(out, 2);
            put_u64(out, moment.get())
        }
    }
}

fn put_waiting(out: &mut Vec<u8>, hold: Hold, not_before: Moment, first: bool)
    requires room { vec_len out.old + length (waiting_code hold not_before first) ≤ vec_capacity out.old }
    ensures written { out.new.items ≡ out.old.items ++ waiting_code hold not_before first }
    ensures len { vec_len out.new ≡ vec_len out.old + length (waiting_code hold not_before first) }
    ensures grown { vec_capacity out.old ≤ vec_capacity out.new }
    ensures legal { IsWaitingFor hold not_before }
{
    put_holding(out, hold);
    put_u64(out, not_before.get());
    put_flag(out, first);
}

// Returns the first byte of a phase's code.
fn phase_byte(phase: &Phase) -> u8
    ensures first { take 1 (phase_code phase.now) ≡ result ∷ [] }
{
    match phase {
        Phase::Incoming(_) => 0,
        Phase::Waiting { .. } => 1,
        Phase::Processing { .. } => 2,
        Phase::Completed => 3,
        Phase::Canceled => 4,
        Phase::Aborted(_) => 5,
    }
}

fn put_phase(out: &mut Vec<u8>, phase: &Phase)
    requires room { vec_len out.old + length (phase_code phase.now) ≤ vec_capacity out.old }
    ensures written { out.new.items ≡ out.old.items ++ phase_code phase.now }
    ensures len { vec_len out.new ≡ vec_len out.old + length (phase_code phase.now) }
    ensures grown { vec_capacity out.old ≤ vec_capacity out.new }
    ensures legal { HasMoments phase.now }
{
    put_u8(out, phase_byte(phase));
    match phase {
        Phase::Incoming(hold) => put_holding(out, *hold),
        Phase::Waiting {
            hold,
            not_before,
            first,
        } => put_waiting(out, *hold, *not_before, *first),
        Phase::Processing { stage, .. } => put_u8(out, *stage),
        Phase::Completed | Phase::Canceled => {}
        Phase::Aborted(reason) => put_u8(out, abort_reason_byte(*reason)),
    }
}

fn put_typed(out: &mut Vec<u8>, media: &Option<MediaType>)
    requires room { vec_len out.old + length (typed_code media.now) ≤ vec_capacity out.old }
    ensures written { out.new.items ≡ out.old.items ++ typed_code media.now }
    ensures len { vec_len out.new ≡ vec_len out.old + length (typed_code media.now) }
    ensures grown { vec_capacity out.old ≤ vec_capacity out.new }
    ensures legal { IsTyped media.now }
{
    match media {
        None => put_u8(out, 0),
        Some(media) => {
            put_u8(out, 1);
            put_media(out, media)
        }
    }
}

fn put_each(out: &mut Vec<u8>, attributes: &[Attribute])
    requires room { vec_len out.old + length (flat_map attribute_code attributes.now) ≤ vec_capacity out.old }
    ensures written { out.new.items ≡ out.old.items ++ flat_map attribute_code attributes.now }
    ensures len { vec_len out.new ≡ vec_len out.old + length (flat_map attribute_code attributes.now) }
    ensures grown { vec_capacity out.old ≤ vec_capacity out.new }
    ensures legal { AllByRecursion IsAttribute attributes.now }
{
    for attribute in attributes {
        put_attribute(out, attribute);
    }
}

fn put_attributes(out: &mut Vec<u8>, attributes: &Attributes)
    requires room { vec_len out.old + length (attributes_code attributes.now) ≤ vec_capacity out.old }
    ensures written { out.new.items ≡ out.old.items ++ attributes_code attributes.now }
    ensures len { vec_len out.new ≡ vec_len out.old + length (attributes_code attributes.now) }
    ensures grown { vec_capacity out.old ≤ vec_capacity out.new }
    ensures few { length attributes.now ≤ 64 }
    ensures legal { AllByRecursion IsAttribute attributes.now }
{
    let attributes = attributes.as_slice();
    put_u8(out, attributes.len() as u8);
    put_each(out, attributes);
}

fn put_head(out: &mut Vec<u8>, head: &Head)
    requires room { vec_len out.old + length (head_code head.now) ≤ vec_capacity out.old }
    ensures written { out.new.items ≡ out.old.items ++ head_code head.now }
    ensures len { vec_len out.new ≡ vec_len out.old + length (head_code head.now) }
    ensures grown { vec_capacity out.old ≤ vec_capacity out.new }
    ensures legal { IsIn 0 greatest_moment head.now.moment }
{
    put_u32(out, head.highest);
    put_u64(out, head.moment.get());
}

// Appends the fields of the queue's AddQueue event.
fn put_added(out: &mut Vec<u8>, queue: &QueueRow)
    requires room { vec_len out.old + length (queue_code (new_queue_of queue.now)) ≤ vec_capacity out.old }
    ensures written { out.new.items ≡ out.old.items ++ queue_code (new_queue_of queue.now) }
    ensures len { vec_len out.new ≡ vec_len out.old + length (queue_code (new_queue_of queue.now)) }
    ensures grown { vec_capacity out.old ≤ vec_capacity out.new }
    ensures legal { IsQueue (new_queue_of queue.now) }
{
    put_text(out, &queue.name);
    put_text(out, &queue.uri);
    put_media(out, &queue.target);
    put_u8(out, policy_byte(queue.policy));
    put_u32(out, queue.interval.get());
    put_u16(out, queue.limit);
}

// Appends the descriptions and the state of a queue.
fn put_queue_state(out: &mut Vec<u8>, queue: &QueueRow)
    requires room { vec_len out.old + length (queue_state_code queue.now) ≤ vec_capacity out.old }
    ensures written { out.new.items ≡ out.old.items ++ queue_state_code queue.now }
    ensures len { vec_len out.new ≡ vec_len out.old + length (queue_state_code queue.now) }
    ensures grown { vec_capacity out.old ≤ vec_capacity out.new }
    ensures legal { IsQueueState queue.now }
{
    put_text(out, &queue.info);
    put_text(out, &queue.location);
    put_flag(out, queue.accepting);
    put_flag(out, queue.stopped);
    put_text(out, &queue.message);
    put_counted(out, queue.reasons.as_slice());
    put_attributes(out, &queue.attributes);
}

fn put_queue_row(out: &mut Vec<u8>, queue: &QueueRow)
    requires room { vec_len out.old + length (queue_row_code queue.now) ≤ vec_capacity out.old }
    ensures written { out.new.items ≡ out.old.items ++ queue_row_code queue.now }
    ensures len { vec_len out.new ≡ vec_len out.old + length (queue_row_code queue.now) }
    ensures grown { vec_capacity out.old ≤ vec_capacity out.new }
    ensures legal { HasQueueFields queue.now }
{
    put_added(out, queue);
    put_queue_state(out, queue);
}

// Appends the fields of the job's Create event.
fn put_created(out: &mut Vec<u8>, job: &Job)
    requires room { vec_len out.old + length (created_code (new_job_of job.now)) ≤ vec_capacity out.old }
    ensures written { out.new.items ≡ out.old.items ++ created_code (new_job_of job.now) }
    ensures len { vec_len out.new ≡ vec_len out.old + length (created_code (new_job_of job.now)) }
    ensures grown { vec_capacity out.old ≤ vec_capacity out.new }
    ensures legal { IsJob (new_job_of job.now) }
{
    put_u32(out, job.id.get());
    put_text(out, &job.queue);
    put_text(out, &job.user);
    put_text(out, &job.title);
    put_u16(out, job.copies.get() as u16);
    put_u8(out, job.priority.get() as u8);
    put_text(out, &job.options);
}

// Appends the state of a job.
fn put_job_state(out: &mut Vec<u8>, job: &Job)
    requires room { vec_len out.old + length (job_state_code job.now) ≤ vec_capacity out.old }
    ensures written { out.new.items ≡ out.old.items ++ job_state_code job.now }
    ensures len { vec_len out.new ≡ vec_len out.old + length (job_state_code job.now) }
    ensures grown { vec_capacity out.old ≤ vec_capacity out.new }
    ensures legal { IsJobState job.now }
{
    put_typed(out, &job.media);
    put_counted(out, job.filters.as_slice());
    put_u32(out, job.attempts);
    put_u32(out, job.pages);
    put_u32(out, job.size);
    put_phase(out, &job.phase);
}

// Appends the moment by which a job must start, if any.
fn put_by(out: &mut Vec<u8>, by: Option<Moment>)
    requires room { vec_len out.old + length (by_code Two by) ≤ vec_capacity out.old }
    ensures written { out.new.items ≡ out.old.items ++ by_code Two by }
    ensures len { vec_len out.new ≡ vec_len out.old + length (by_code Two by) }
    ensures grown { vec_capacity out.old ≤ vec_capacity out.new }
    ensures legal { IsBy Two by }
{
    match by {
        None => put_u8(out, 0),
        Some(moment) => {
            put_u8(out, 1);
            put_u64(out, moment.get())
        }
    }
}

fn put_job_rest(out: &mut Vec<u8>, job: &Job)
    requires room { vec_len out.old + length (job_rest_code Two job.now) ≤ vec_capacity out.old }
    ensures written { out.new.items ≡ out.old.items ++ job_rest_code Two job.now }
    ensures len { vec_len out.new ≡ vec_len out.old + length (job_rest_code Two job.now) }
    ensures grown { vec_capacity out.old ≤ vec_capacity out.new }
    ensures state { IsJobState job.now }
    ensures by { IsBy Two job.now.by }
{
    put_job_state(out, job);
    put_by(out, job.by);
}

fn put_job_row(out: &mut Vec<u8>, job: &Job)
    requires room { vec_len out.old + length (job_row_code Two job.now) ≤ vec_capacity out.old }
    ensures written { out.new.items ≡ out.old.items ++ job_row_code Two job.now }
    ensures len { vec_len out.new ≡ vec_len out.old + length (job_row_code Two job.now) }
    ensures grown { vec_capacity out.old ≤ vec_capacity out.new }
    ensures legal { HasJobFields Two job.now }
{
    put_created(out, job);
    put_job_rest(out, job);
}

fn holding_len(hold: Hold) -> usize
    ensures value { result ≡ length (holding_code hold) }
    ensures small { result ≤ 9 }
{
    match hold {
        Hold::Free => 1,
        Hold::Indefinite(_) => 2,
        Hold::Until(_) => 9,
    }
}

fn phase_len(phase: Phase) -> usize
    ensures value { result ≡ length (phase_code phase) }
    ensures small { result ≤ 20 }
{
    match phase {
        Phase::Incoming(hold) => 1 + holding_len(hold),
        Phase::Waiting { hold, .. } => 10 + holding_len(hold),
        Phase::Processing { .. } | Phase::Aborted(_) => 2,
        Phase::Completed | Phase::Canceled => 1,
    }
}

fn by_len(by: Option<Moment>) -> usize
    ensures value { result ≡ length (by_code Two by) }
    ensures small { result ≤ 9 }
{
    match by {
        None => 1,
        Some(_) => 9,
    }
}

fn typed_len(media: &Option<MediaType>) -> usize
    ensures value { result ≡ length (typed_code media.now) }
    ensures small { result ≤ 2051 }
{
    match media {
        None => 1,
        Some(media) => 1 + media_len(media),
    }
}

fn attributes_len(attributes: &[Attribute]) -> usize
    requires few { length attributes.now ≤ 64 }
    ensures value { result ≡ length (flat_map attribute_code attributes.now) }
    ensures small { result ≤ length attributes.now * 4100 }
{
    let mut len = 0;
    for attribute in attributes {
        len += text_len(&attribute.name) + text_len(&attribute.value);
    }
    len
}

fn added_len(queue: &QueueRow) -> usize
    ensures value { result ≡ length (queue_code (new_queue_of queue.now)) }
    ensures small { result < 2 ^ 14 }
{
    text_len(&queue.name) + text_len(&queue.uri) + media_len(&queue.target) + 7
}

fn queue_state_len(queue: &QueueRow) -> usize
    ensures value { result ≡ length (queue_state_code queue.now) }
    ensures small { result ≤ 400000 }
{
    text_len(&queue.info)
        + text_len(&queue.location)
        + 2
        + text_len(&queue.message)
        + counted_len(queue.reasons.as_slice())
        + 1
        + attributes_len(queue.attributes.as_slice())
}

fn created_len(job: &Job) -> usize
    ensures value { result ≡ length (created_code (new_job_of job.now)) }
    ensures small { result < 2 ^ 14 }
{
    4 + text_len(&job.queue)
        + text_len(&job.user)
        + text_len(&job.title)
        + 3
        + text_len(&job.options)
}

fn job_state_len(job: &Job) -> usize
    ensures value { result ≡ length (job_state_code job.now) }
    ensures small { result < 2 ^ 16 }
{
    typed_len(&job.media) + counted_len(job.filters.as_slice()) + 12 + phase_len(job.phase)
}

fn encode_head_onto(head: &Head, out: &mut Vec<u8>) -> Result<(), AllocError>
    ensures spelled { OnOk result (out.new.items ≡ out.old.items ++ row_spelling Two (Row.Head head.now)) }
    ensures spellable { OnOk result (IsLegalRow (Row.Head head.now) → IsRowSpellable Two (Row.Head head.now)) }
    ensures short { length (row_spelling Two (Row.Head head.now)) < 2 ^ 19 }
    ensures fits { vec_len out.old + length (row_spelling Two (Row.Head head.now)) ≤ vec_capacity out.old → IsOk result }
    ensures kept { OnErr result (out.new.items ≡ out.old.items) }
    ensures grown { vec_capacity out.old ≤ vec_capacity out.new }
{
    out.reserve(13)?;
    put_kind(out, 0x40);
    put_head(out, head);
    Ok(())
}

/// Appends the spelling of a queue's row to bytes, as `encode_row_onto` does. The queue is borrowed.
pub fn encode_queue_onto(queue: &QueueRow, out: &mut Vec<u8>) -> Result<(), AllocError>
    ensures spelled { OnOk result (out.new.items ≡ out.old.items ++ row_spelling Two (Row.Queue queue.now)) }
    ensures spellable { OnOk result (IsOrderedQueue queue.now → IsRowSpellable Two (Row.Queue queue.now)) }
    ensures short { length (row_spelling Two (Row.Queue queue.now)) < 2 ^ 19 }

    // It fails only if the capacity did not suffice, and then the bytes are unchanged.
    ensures fits { vec_len out.old + length (row_spelling Two (Row.Queue queue.now)) ≤ vec_capacity out.old → IsOk result }
    ensures kept { OnErr result (out.new.items ≡ out.old.items) }
    ensures grown { vec_capacity out.old ≤ vec_capacity out.new }
{
    out.reserve(1 + added_len(queue) + queue_state_len(queue))?;
    put_kind(out, 0x41);
    put_queue_row(out, queue);
    Ok(())
}

/// Appends the spelling of a job's row. The job is borrowed.
pub fn encode_job_onto(job: &Job, out: &mut Vec<u8>) -> Result<(), AllocError>
    ensures spelled { OnOk result (out.new.items ≡ out.old.items ++ row_spelling Two (Row.Job job.now)) }
    ensures spellable { OnOk result (IsLegalJob job.now → IsRowSpellable Two (Row.Job job.now)) }
    ensures short { length (row_spelling Two (Row.Job job.now)) < 2 ^ 19 }

    // It fails only if the capacity did not suffice, and then the bytes are unchanged.
    ensures fits { vec_len out.old + length (row_spelling Two (Row.Job job.now)) ≤ vec_capacity out.old → IsOk result }
    ensures kept { OnErr result (out.new.items ≡ out.old.items) }
    ensures grown { vec_capacity out.old ≤ vec_capacity out.new }
{
    out.reserve(1 + created_len(job) + job_state_len(job) + by_len(job.by))?;
    put_kind(out, 0x42);
    put_job_row(out, job);
    Ok(())
}

fn encode_piece_onto(job: JobId, bytes: &Piece, out: &mut Vec<u8>) -> Result<(), AllocError>
    ensures spelled { OnOk result (out.new.items ≡ out.old.items ++ row_spelling Two (Row.Piece job bytes.now)) }
    ensures spellable { OnOk result (IsLegalRow (Row.Piece job bytes.now) → IsRowSpellable Two (Row.Piece job bytes.now)) }
    ensures short { length (row_spelling Two (Row.Piece job bytes.now)) < 2 ^ 19 }
    ensures fits { vec_len out.old + length (row_spelling Two (Row.Piece job bytes.now)) ≤ vec_capacity out.old → IsOk result }
    ensures kept { OnErr result (out.new.items ≡ out.old.items) }
    ensures grown { vec_capacity out.old ≤ vec_capacity out.new }
{
    out.reserve(9 + bytes.as_slice().len())?;
    put_send(out, 0x43, job, bytes);
    Ok(())
}

/// Appends the spelling of a row to bytes. The memory for all of it is reserved first. A row that cannot be in a table
/// is written too, by its fields. No bytes are decoded as such a row.
pub fn encode_row_onto(row: &Row, out: &mut Vec<u8>) -> Result<(), AllocError>
    ensures spelled { OnOk result (out.new.items ≡ out.old.items ++ row_spelling Two row.now) }
    ensures spellable { OnOk result (IsLegalRow row.now → IsRowSpellable Two row.now) }
    ensures short { length (row_spelling Two row.now) < 2 ^ 19 }

    // It fails only if the capacity did not suffice, and then the bytes are unchanged.
    ensures fits { vec_len out.old + length (row_spelling Two row.now) ≤ vec_capacity out.old → IsOk result }
    ensures kept { OnErr result (out.new.items ≡ out.old.items) }
    ensures grown { vec_capacity out.old ≤ vec_capacity out.new }
{
    match row {
        Row::Head(head) => encode_head_onto(head, out),
        Row::Queue(queue) => encode_queue_onto(queue, out),
        Row::Job(job) => encode_job_onto(job, out),
        Row::Piece { job, bytes } => encode_piece_onto(*job, bytes, out),
    }
}

/// Returns the spelling of a row. It allocates once.
pub fn encode_row(alloc: Global, row: &Row) -> Result<Vec<u8>, AllocError>
    ensures spelled { IfOk result (λ bytes. bytes.items ≡ row_spelling Two row.now) }
    ensures spellable { OnOk result (IsLegalRow row.now → IsRowSpellable Two row.now) }
    ensures short { length (row_spelling Two row.now) < 2 ^ 19 }
{
    let mut out = Vec::new(alloc);
    encode_row_onto(row, &mut out)?;
    Ok(out)
}
