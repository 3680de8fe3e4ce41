//! Reading the rows of a listing.
ghost use Rattle.std.specs.Prelude.{◌≡◌, ◌+◌, ◌≤◌, length, map, is_ok, false, None, Some, IsTrue, IfOk, IfErr, OnOk, Ok};
ghost use Rattle.spool_types.specs.declared.listing.Row.{Row};
ghost use Rattle.spool_types.specs.Values.{is_queue_name};
ghost use Rattle.event_codec.specs.EventReading.{Gives, MemoryOnly, text_at, list_at, ticket_at, whole};
ghost use Rattle.event_codec.specs.RowSpelling.{name_of, row_spelling, IsRowSpellable};
ghost use Rattle.event_codec.specs.RowReading.{is_above, typed_at, reason_after, attribute_after, reasons_at, attributes_at, head_at, queue_state_at, queue_row, listed_queue_at, queue_row_at, created_at, job_state_at, by_at, job_row, listed_job_at, job_row_at, piece_row_at, job_row_copies, row_reading, reaches_row_copy, last_of};

use crate::phase_reading::phase_at;
use crate::reading::{filters_at, flag_at, media_at, new_queue_at, piece_at, ticket_at};
use field_codec::{CodecFault, ended, job_id, moment, ranged, text_at, u8_at, u32_at, u64_at};
use spool_types::{
    Attribute, AttributeName, Attributes, Filters, Head, Job, JobId, LONGEST_DOCUMENT, MOST_KEPT,
    MediaType, Message, Moment, NewJob, NewQueue, Note, Phase, QueueRow, Ranged, Reason, Reasons,
    Row, Version,
};
use std::alloc::Global;

// The maximum number of bytes of a job's document.
const LONGEST: u32 = LONGEST_DOCUMENT as u32;

/// Returns the media type of a job, if it has one.
#[tactic(auto, unfolding(crate::specs::RowReading::typed_at, crate::specs::RowReading::flagged_media_at, crate::specs::RowReading::some_media_at))]
fn typed_at(alloc: Global, bytes: &[u8]) -> Result<(Option<MediaType>, &[u8]), CodecFault>
    ensures read { Gives (λ x. (x.0, x.1.now)) result (typed_at bytes.now) }
{
    let (flag, rest) = u8_at(bytes)?;
    match flag {
        0 => Ok((None, rest)),
        1 => {
            let (media, rest) = media_at(alloc, rest)?;
            Ok((Some(media), rest))
        }
        _ => Err(CodecFault::Range),
    }
}

// Returns whether a reason is above the last one that was read.
fn is_next_reason(read: &[Reason], reason: &Reason) -> bool
    ensures { result ≡ is_above (last_of read.now) reason.now }
{
    match read.last() {
        Some(before) => before < reason,
        None => true,
    }
}

#[tactic(auto, unfolding(crate::specs::RowReading::reason_after, field_codec::specs::Fields::checked))]
fn reason_after<'a>(
    alloc: Global,
    read: &[Reason],
    bytes: &'a [u8],
) -> Result<(Reason, &'a [u8]), CodecFault>
    ensures { Gives (λ x. (x.0, (Some x.0, x.1.now))) result (reason_after (last_of read.now, bytes.now)) }
{
    let (reason, rest) = text_at(alloc, bytes)?;
    if !is_next_reason(read, &reason) {
        return Err(CodecFault::Range);
    }
    Ok((reason, rest))
}

/// Returns `count` reasons in ascending order. Each has at least two bytes, so the number of bytes limits the memory
/// reserved for the list.
fn listed_reasons_at(
    alloc: Global,
    count: u8,
    bytes: &[u8],
) -> Result<(Vec<Reason>, &[u8]), CodecFault>
    ensures read { Gives (λ x. (x.0.items, (last_of x.0.items, x.1.now))) result (list_at reason_after count (None, bytes.now)) }
    ensures length { IfOk result (λ x. length x.0.items ≡ count) }
{
    let mut reasons = Vec::with_capacity(alloc, (count as usize).min(bytes.len() / 2))?;
    let mut rest = bytes;
    for _ in 0..count {
        let (reason, after) = reason_after(alloc, &reasons, rest)?;
        reasons.push(reason)?;
        rest = after;
    }
    Ok((reasons, rest))
}

#[tactic(auto, unfolding(crate::specs::RowReading::reasons_at, crate::specs::RowReading::ascending_at, field_codec::specs::Fields::ranged_at, field_codec::specs::Fields::ranged, field_codec::specs::Fields::checked))]
fn reasons_at(alloc: Global, bytes: &[u8]) -> Result<(Reasons, &[u8]), CodecFault>
    ensures { Gives (λ x. (x.0, x.1.now)) result (reasons_at bytes.now) }
{
    let (count, rest) = u8_at(bytes)?;
    if MOST_KEPT < count as usize {
        return Err(CodecFault::Range);
    }
    let (reasons, rest) = listed_reasons_at(alloc, count, rest)?;
    match Reasons::new(reasons) {
        Ok(reasons) => Ok((reasons, rest)),
        Err(_) => Err(CodecFault::Range),
    }
}

// Returns whether a name is above that of the last attribute that was read.
fn is_next_name(read: &[Attribute], name: &AttributeName) -> bool
    ensures { result ≡ is_above (last_of (map name_of read.now)) name.now }
{
    match read.last() {
        Some(before) => before.name < *name,
        None => true,
    }
}

#[tactic(auto, unfolding(crate::specs::RowReading::attribute_after, field_codec::specs::Fields::checked))]
fn attribute_after<'a>(
    alloc: Global,
    read: &[Attribute],
    bytes: &'a [u8],
) -> Result<(Attribute, &'a [u8]), CodecFault>
    ensures { Gives (λ x. (x.0, (Some x.0.name, x.1.now))) result (attribute_after (last_of (map name_of read.now), bytes.now)) }
{
    let (name, rest) = text_at(alloc, bytes)?;
    if !is_next_name(read, &name) {
        return Err(CodecFault::Range);
    }
    let (value, rest) = text_at(alloc, rest)?;
    Ok((Attribute { name, value }, rest))
}

/// Returns `count` attributes in ascending order of their names. Each has at least four bytes.
fn listed_attributes_at(
    alloc: Global,
    count: u8,
    bytes: &[u8],
) -> Result<(Vec<Attribute>, &[u8]), CodecFault>
    ensures read { Gives (λ x. (x.0.items, (last_of (map name_of x.0.items), x.1.now))) result (list_at attribute_after count (None, bytes.now)) }
    ensures length { IfOk result (λ x. length x.0.items ≡ count) }
{
    let mut attributes = Vec::with_capacity(alloc, (count as usize).min(bytes.len() / 4))?;
    let mut rest = bytes;
    for _ in 0..count {
        let (attribute, after) = attribute_after(alloc, &attributes, rest)?;
        attributes.push(attribute)?;
        rest = after;
    }
    Ok((attributes, rest))
}

#[tactic(auto, unfolding(crate::specs::RowReading::attributes_at, crate::specs::RowReading::ascending_at, field_codec::specs::Fields::ranged_at, field_codec::specs::Fields::ranged, field_codec::specs::Fields::checked))]
fn attributes_at(alloc: Global, bytes: &[u8]) -> Result<(Attributes, &[u8]), CodecFault>
    ensures { Gives (λ x. (x.0, x.1.now)) result (attributes_at bytes.now) }
{
    let (count, rest) = u8_at(bytes)?;
    if MOST_KEPT < count as usize {
        return Err(CodecFault::Range);
    }
    let (attributes, rest) = listed_attributes_at(alloc, count, rest)?;
    match Attributes::new(attributes) {
        Ok(attributes) => Ok((attributes, rest)),
        Err(_) => Err(CodecFault::Range),
    }
}

#[tactic(auto, unfolding(crate::specs::RowReading::head_at, field_codec::specs::Fields::ranged_at, field_codec::specs::Fields::whole))]
fn head_of(fields: &[u8]) -> Result<Row, CodecFault>
    ensures read { Gives (λ row. row) result (whole (head_at fields.now)) }
    ensures memory { IfErr result (MemoryOnly false) }
{
    let (number, rest) = u32_at(fields)?;
    let highest: Ranged<0, { JobId::GREATEST }> = ranged(number)?;
    let (seconds, rest) = u64_at(rest)?;
    let moment = moment(seconds)?;
    ended(rest)?;
    Ok(Row::Head(Head {
        highest: highest.get(),
        moment,
    }))
}

/// The descriptions and the state of a queue.
#[derive(Drop)]
struct QueueState {
    info: Note,
    location: Note,
    accepting: bool,
    stopped: bool,
    message: Message,
    reasons: Reasons,
    attributes: Attributes,
}

#[tactic(auto, unfolding(crate::specs::RowReading::queue_state_at))]
fn queue_state_at(alloc: Global, bytes: &[u8]) -> Result<(QueueState, &[u8]), CodecFault>
    ensures read { Gives (λ x. (x.0, x.1.now)) result (queue_state_at bytes.now) }
{
    let (info, rest) = text_at(alloc, bytes)?;
    let (location, rest) = text_at(alloc, rest)?;
    let (accepting, rest) = flag_at(rest)?;
    let (stopped, rest) = flag_at(rest)?;
    let (message, rest) = text_at(alloc, rest)?;
    let (reasons, rest) = reasons_at(alloc, rest)?;
    let (attributes, rest) = attributes_at(alloc, rest)?;
    let state = QueueState {
        info,
        location,
        accepting,
        stopped,
        message,
        reasons,
        attributes,
    };
    Ok((state, rest))
}

// Returns the row of a queue with these fields of AddQueue and this state.
fn queue_row(queue: NewQueue, state: QueueState) -> QueueRow
    ensures { result ≡ queue_row queue state }
{
    QueueRow {
        name: queue.name,
        uri: queue.uri,
        target: queue.target,
        policy: queue.policy,
        interval: queue.interval,
        limit: queue.limit,
        info: state.info,
        location: state.location,
        accepting: state.accepting,
        stopped: state.stopped,
        message: state.message,
        reasons: state.reasons,
        attributes: state.attributes,
    }
}

#[tactic(auto, unfolding(crate::specs::RowReading::listed_queue_at))]
fn listed_queue_at(alloc: Global, bytes: &[u8]) -> Result<(QueueRow, &[u8]), CodecFault>
    ensures read { Gives (λ x. (x.0, x.1.now)) result (listed_queue_at bytes.now) }
    ensures memory { IfErr result (MemoryOnly (is_ok (text_at is_queue_name bytes.now))) }
{
    let (queue, rest) = new_queue_at(alloc, bytes)?;
    let (state, rest) = queue_state_at(alloc, rest)?;
    Ok((queue_row(queue, state), rest))
}

#[tactic(auto, unfolding(crate::specs::RowReading::queue_row_at, field_codec::specs::Fields::whole))]
fn queue_row_of(alloc: Global, fields: &[u8]) -> Result<Row, CodecFault>
    ensures read { Gives (λ row. row) result (whole (queue_row_at fields.now)) }
    ensures memory { IfErr result (MemoryOnly (is_ok (text_at is_queue_name fields.now))) }
{
    let (queue, rest) = listed_queue_at(alloc, fields)?;
    ended(rest)?;
    Ok(Row::Queue(queue))
}

/// Returns a job with the fields of its Create event.
#[tactic(auto, unfolding(crate::specs::RowReading::created_at, crate::specs::RowReading::job_row_copies, field_codec::specs::Fields::ranged_at))]
fn created_at(alloc: Global, bytes: &[u8]) -> Result<(NewJob, &[u8]), CodecFault>
    ensures read { Gives (λ x. (x.0, x.1.now)) result (created_at bytes.now) }
    ensures copied { OnOk result (IsTrue (job_row_copies bytes.now)) }
    ensures memory { IfErr result (MemoryOnly (job_row_copies bytes.now)) }
{
    let (number, rest) = u32_at(bytes)?;
    let job = job_id(number)?;
    let (queue, rest) = text_at(alloc, rest)?;
    ticket_at(alloc, queue, job, rest)
}

/// The state of a job.
#[derive(Drop)]
struct JobState {
    media: Option<MediaType>,
    filters: Filters,
    attempts: u32,
    pages: u32,
    size: u32,
    phase: Phase,
}

#[tactic(auto, unfolding(crate::specs::RowReading::job_state_at, field_codec::specs::Fields::ranged_at))]
fn job_state_at(alloc: Global, bytes: &[u8]) -> Result<(JobState, &[u8]), CodecFault>
    ensures read { Gives (λ x. (x.0, x.1.now)) result (job_state_at bytes.now) }
{
    let (media, rest) = typed_at(alloc, bytes)?;
    let (filters, rest) = filters_at(alloc, rest)?;
    let (attempts, rest) = u32_at(rest)?;
    let (pages, rest) = u32_at(rest)?;
    let (size, rest) = u32_at(rest)?;
    let size: Ranged<0, { LONGEST }> = ranged(size)?;
    let stages = filters.as_slice().len() as u8 + 1;
    // `?` is not proved here, because a phase, which may have a moment, is paired with a slice.
    match phase_at(attempts, stages, rest) {
        Ok((phase, rest)) => {
            let state = JobState {
                media,
                filters,
                attempts,
                pages,
                size: size.get(),
                phase,
            };
            Ok((state, rest))
        }
        Err(fault) => Err(fault),
    }
}

/// Returns the moment by which a job must start, if it has one. Version 1 has none.
#[tactic(auto, unfolding(crate::specs::RowReading::by_at, crate::specs::RowReading::flagged_by_at, crate::specs::RowReading::some_by_at, field_codec::specs::Fields::ranged_at))]
fn by_at(version: Version, bytes: &[u8]) -> Result<(Option<Moment>, &[u8]), CodecFault>
    ensures read { Gives (λ x. (x.0, x.1.now)) result (by_at version bytes.now) }
    ensures memory { IfErr result (MemoryOnly false) }
{
    if version == Version::One {
        return Ok((None, bytes));
    }
    let (flag, rest) = u8_at(bytes)?;
    match flag {
        0 => Ok((None, rest)),
        1 => {
            let (seconds, rest) = u64_at(rest)?;
            let by = moment(seconds)?;
            Ok((Some(by), rest))
        }
        _ => Err(CodecFault::Range),
    }
}

// Returns the row of a job with these fields of Create and this state, which must start by this moment.
fn job_row(created: NewJob, state: JobState, by: Option<Moment>) -> Job
    ensures { result ≡ job_row created state by }
{
    Job {
        id: created.job,
        queue: created.queue,
        user: created.user,
        title: created.title,
        copies: created.copies,
        priority: created.priority,
        options: created.options,
        media: state.media,
        filters: state.filters,
        attempts: state.attempts,
        pages: state.pages,
        size: state.size,
        phase: state.phase,
        by,
    }
}

#[tactic(auto, unfolding(crate::specs::RowReading::listed_job_at))]
fn listed_job_at(alloc: Global, version: Version, bytes: &[u8]) -> Result<(Job, &[u8]), CodecFault>
    ensures read { Gives (λ x. (x.0, x.1.now)) result (listed_job_at version bytes.now) }
    ensures memory { IfErr result (MemoryOnly (job_row_copies bytes.now)) }
{
    let (created, rest) = created_at(alloc, bytes)?;
    let (state, rest) = job_state_at(alloc, rest)?;
    // `?` is not proved here, because a moment is paired with a slice.
    match by_at(version, rest) {
        Ok((by, rest)) => Ok((job_row(created, state, by), rest)),
        Err(fault) => Err(fault),
    }
}

#[tactic(auto, unfolding(crate::specs::RowReading::job_row_at, field_codec::specs::Fields::whole))]
fn job_row_of(alloc: Global, version: Version, fields: &[u8]) -> Result<Row, CodecFault>
    ensures read { Gives (λ row. row) result (whole (job_row_at version fields.now)) }
    ensures memory { IfErr result (MemoryOnly (job_row_copies fields.now)) }
{
    let (job, rest) = listed_job_at(alloc, version, fields)?;
    ended(rest)?;
    Ok(Row::Job(job))
}

#[tactic(auto, unfolding(crate::specs::RowReading::piece_row_at, field_codec::specs::Fields::ranged_at, field_codec::specs::Fields::whole))]
fn piece_of(alloc: Global, fields: &[u8]) -> Result<Row, CodecFault>
    ensures read { Gives (λ row. row) result (whole (piece_row_at fields.now)) }
    ensures memory { IfErr result (MemoryOnly (is_ok (piece_row_at fields.now))) }
{
    let (number, rest) = u32_at(fields)?;
    let job = job_id(number)?;
    let (bytes, rest) = piece_at(alloc, 1, rest)?;
    ended(rest)?;
    Ok(Row::Piece { job, bytes })
}

#[tactic(auto, unfolding(crate::specs::RowReading::row_at, crate::specs::RowReading::row_fields_at, field_codec::specs::Fields::whole, crate::specs::RowReading::reaches_row_copy, crate::specs::RowReading::row_fields_copy))]
fn row_of(alloc: Global, version: Version, payload: &[u8]) -> Result<Row, CodecFault>
    ensures read { Gives (λ row. row) result (row_reading version payload.now) }
    ensures memory { IfErr result (MemoryOnly (reaches_row_copy payload.now)) }
{
    match payload {
        [] => Err(CodecFault::Length),
        [0x40, fields @ ..] => head_of(fields),
        [0x41, fields @ ..] => queue_row_of(alloc, fields),
        [0x42, fields @ ..] => job_row_of(alloc, version, fields),
        [0x43, fields @ ..] => piece_of(alloc, fields),
        [_, ..] => Err(CodecFault::Kind),
    }
}

/// Decodes the row that all the bytes encode in this version. A field is copied once, and nothing is retained after an
/// error.
pub fn decode_row(alloc: Global, payload: &[u8], version: Version) -> Result<Row, CodecFault>
    // The bytes of the result are its spelling.
    ensures sound { IfOk result (λ row. IsRowSpellable version row × (payload.now ≡ row_spelling version row)) }
    // A spelling is decoded, unless memory runs out.
    ensures complete { (row : Row) → IsRowSpellable version row → payload.now ≡ row_spelling version row → Gives (λ r. r) result (Ok row) }
    // The error.
    ensures exact { Gives (λ r. r) result (row_reading version payload.now) }
    // Memory runs out only if a value is copied.
    ensures memory { IfErr result (MemoryOnly (reaches_row_copy payload.now)) }
{
    row_of(alloc, version, payload)
}
