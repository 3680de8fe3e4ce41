//! Writing events.
ghost use Rattle.std.specs.Prelude.{◌≡◌, ◌+◌, ◌<◌, ◌≤◌, ◌^◌, ◌∷◌, ◌++◌, List, ℕ, [], length, take, IsOk, IfOk, OnOk, OnErr, vec_len, vec_capacity};
ghost use Rattle.std.specs.Int.{w8, w32, w64, to_be_bytes};
ghost use Rattle.std.specs.List.{flat_map, AllByRecursion};
ghost use Rattle.spool_types.specs.Limits.{greatest_moment};
ghost use Rattle.spool_types.specs.Values.{is_media_type, is_filter_name, is_queue_name};
ghost use Rattle.event_codec.specs.Spelling.{text_code, flag_code, until_code, filters_code, queue_code, notes_code, flagged_code, job_code, job_by_code, send_code, closing_code, hold_code, exit_code, stage_code, policy_number, spelling, IsText, IsQueue, AreNotes, IsIn, IsJobNumber, IsJob, IsJobBy, IsSend, IsClosing, IsHold, IsExit, IsStageEnd, AreFilters, IsSpellable};

use crate::effect_writing::put_effects;
use crate::field_writing::{
    counted_len, media_len, put, put_counted, put_flag, put_kind, put_media, put_text, put_u8,
    put_u16, put_u32, put_u64, text_len,
};
use spool_types::{
    Closing, Event, Exit, Filters, JobId, MediaType, Moment, NewJob, NewQueue, Piece, Policy,
    QueueName, QueueNotes, StageEnd,
};
use std::alloc::{AllocError, Global};

pub(crate) fn policy_byte(policy: Policy) -> u8
    ensures { result ≡ policy_number policy }
{
    match policy {
        Policy::AbortJob => 0,
        Policy::RetryJob => 1,
        Policy::RetryCurrentJob => 2,
        Policy::StopPrinter => 3,
    }
}

fn put_queue(out: &mut Vec<u8>, kind: u8, queue: &NewQueue)
    requires room { vec_len out.old + length (kind ∷ queue_code queue.now) ≤ vec_capacity out.old }
    ensures written { out.new.items ≡ out.old.items ++ kind ∷ queue_code queue.now }
    ensures len { vec_len out.new ≡ vec_len out.old + length (kind ∷ queue_code queue.now) }
    ensures grown { vec_capacity out.old ≤ vec_capacity out.new }
    ensures legal { IsQueue queue.now }
{
    put_kind(out, kind);
    put_text(out, &queue.name);
    put_text(out, &queue.uri);
    put_media(out, &queue.target);
    put_u8(out, policy_byte(queue.policy));
    put_u32(out, queue.interval.get());
    put_u16(out, queue.limit);
}

fn put_notes(out: &mut Vec<u8>, kind: u8, notes: &QueueNotes)
    requires room { vec_len out.old + length (kind ∷ notes_code notes.now) ≤ vec_capacity out.old }
    ensures written { out.new.items ≡ out.old.items ++ kind ∷ notes_code notes.now }
    ensures len { vec_len out.new ≡ vec_len out.old + length (kind ∷ notes_code notes.now) }
    ensures grown { vec_capacity out.old ≤ vec_capacity out.new }
    ensures legal { AreNotes notes.now }
{
    put_kind(out, kind);
    put_text(out, &notes.queue);
    put_text(out, &notes.info);
    put_text(out, &notes.location);
}

// Appends an event that sets a flag of a queue.
fn put_flagged(out: &mut Vec<u8>, kind: u8, queue: &QueueName, flag: bool)
    requires room { vec_len out.old + length (kind ∷ flagged_code queue.now flag) ≤ vec_capacity out.old }
    ensures written { out.new.items ≡ out.old.items ++ kind ∷ flagged_code queue.now flag }
    ensures len { vec_len out.new ≡ vec_len out.old + length (kind ∷ flagged_code queue.now flag) }
    ensures grown { vec_capacity out.old ≤ vec_capacity out.new }
    ensures legal { IsText is_queue_name queue.now }
{
    put_kind(out, kind);
    put_text(out, queue);
    put_flag(out, flag);
}

fn put_job(out: &mut Vec<u8>, kind: u8, job: &NewJob)
    requires room { vec_len out.old + length (kind ∷ job_code job.now) ≤ vec_capacity out.old }
    ensures written { out.new.items ≡ out.old.items ++ kind ∷ job_code job.now }
    ensures len { vec_len out.new ≡ vec_len out.old + length (kind ∷ job_code job.now) }
    ensures grown { vec_capacity out.old ≤ vec_capacity out.new }
    ensures legal { IsJob job.now }
{
    put_kind(out, kind);
    put_text(out, &job.queue);
    put_u32(out, job.job.get());
    put_text(out, &job.user);
    put_text(out, &job.title);
    put_u16(out, job.copies.get() as u16);
    put_u8(out, job.priority.get() as u8);
    put_text(out, &job.options);
}

fn put_job_by(out: &mut Vec<u8>, kind: u8, job: &NewJob, by: Moment)
    requires room { vec_len out.old + length (kind ∷ job_by_code job.now by) ≤ vec_capacity out.old }
    ensures written { out.new.items ≡ out.old.items ++ kind ∷ job_by_code job.now by }
    ensures len { vec_len out.new ≡ vec_len out.old + length (kind ∷ job_by_code job.now by) }
    ensures grown { vec_capacity out.old ≤ vec_capacity out.new }
    ensures legal { IsJobBy job.now by }
{
    put_job(out, kind, job);
    put_u64(out, by.get());
}

pub(crate) fn put_send(out: &mut Vec<u8>, kind: u8, job: JobId, bytes: &Piece)
    requires room { vec_len out.old + length (kind ∷ send_code job bytes.now) ≤ vec_capacity out.old }
    ensures written { out.new.items ≡ out.old.items ++ kind ∷ send_code job bytes.now }
    ensures len { vec_len out.new ≡ vec_len out.old + length (kind ∷ send_code job bytes.now) }
    ensures grown { vec_capacity out.old ≤ vec_capacity out.new }
    ensures legal { IsSend job bytes.now }
{
    put_kind(out, kind);
    let bytes = bytes.as_slice();
    put_u32(out, job.get());
    put_u32(out, bytes.len() as u32);
    put(out, bytes);
}

fn put_filters(out: &mut Vec<u8>, filters: &Option<Filters>)
    requires room { vec_len out.old + length (filters_code filters.now) ≤ vec_capacity out.old }
    ensures written { out.new.items ≡ out.old.items ++ filters_code filters.now }
    ensures len { vec_len out.new ≡ vec_len out.old + length (filters_code filters.now) }
    ensures grown { vec_capacity out.old ≤ vec_capacity out.new }
    ensures legal { AreFilters filters.now }
{
    match filters {
        None => put_u8(out, 0),
        Some(filters) => {
            put_u8(out, 1);
            put_counted(out, filters.as_slice());
        }
    }
}

fn put_closing(out: &mut Vec<u8>, kind: u8, closing: &Closing)
    requires room { vec_len out.old + length (kind ∷ closing_code closing.now) ≤ vec_capacity out.old }
    ensures written { out.new.items ≡ out.old.items ++ kind ∷ closing_code closing.now }
    ensures len { vec_len out.new ≡ vec_len out.old + length (kind ∷ closing_code closing.now) }
    ensures grown { vec_capacity out.old ≤ vec_capacity out.new }
    ensures legal { IsClosing closing.now }
{
    put_kind(out, kind);
    put_u32(out, closing.job.get());
    put_media(out, &closing.media);
    put_filters(out, &closing.filters);
}

fn put_until(out: &mut Vec<u8>, until: Option<Moment>)
    requires room { vec_len out.old + length (until_code until) ≤ vec_capacity out.old }
    ensures written { out.new.items ≡ out.old.items ++ until_code until }
    ensures len { vec_len out.new ≡ vec_len out.old + length (until_code until) }
    ensures grown { vec_capacity out.old ≤ vec_capacity out.new }
{
    match until {
        None => put_u8(out, 1),
        Some(moment) => {
            put_u8(out, 2);
            put_u64(out, moment.get())
        }
    }
}

fn put_hold(out: &mut Vec<u8>, kind: u8, job: JobId, until: Option<Moment>)
    requires room { vec_len out.old + length (kind ∷ hold_code job until) ≤ vec_capacity out.old }
    ensures written { out.new.items ≡ out.old.items ++ kind ∷ hold_code job until }
    ensures len { vec_len out.new ≡ vec_len out.old + length (kind ∷ hold_code job until) }
    ensures grown { vec_capacity out.old ≤ vec_capacity out.new }
    ensures legal { IsHold job until }
{
    put_kind(out, kind);
    put_u32(out, job.get());
    put_until(out, until);
}

fn put_exit(out: &mut Vec<u8>, exit: Exit)
    requires room { vec_len out.old + length (exit_code exit) ≤ vec_capacity out.old }
    ensures written { out.new.items ≡ out.old.items ++ exit_code exit }
    ensures len { vec_len out.new ≡ vec_len out.old + length (exit_code exit) }
    ensures grown { vec_capacity out.old ≤ vec_capacity out.new }
    ensures legal { IsExit exit }
{
    match exit {
        Exit::Code(status) => {
            put_u8(out, 0);
            put_u8(out, status)
        }
        Exit::Signal => put_u8(out, 1),
        Exit::NoStart => put_u8(out, 2),
        Exit::Lost => put_u8(out, 3),
    }
}

fn put_stage(out: &mut Vec<u8>, kind: u8, end: &StageEnd)
    requires room { vec_len out.old + length (kind ∷ stage_code end.now) ≤ vec_capacity out.old }
    ensures written { out.new.items ≡ out.old.items ++ kind ∷ stage_code end.now }
    ensures len { vec_len out.new ≡ vec_len out.old + length (kind ∷ stage_code end.now) }
    ensures grown { vec_capacity out.old ≤ vec_capacity out.new }
    ensures legal { IsStageEnd end.now }
{
    put_kind(out, kind);
    put_u32(out, end.job.get());
    put_u32(out, end.attempt.get());
    put_u8(out, end.stage.get() as u8);
    put_exit(out, end.exit);
    put_u32(out, end.dropped);
    put_effects(out, &end.effects);
}

fn put_number(out: &mut Vec<u8>, kind: u8, job: JobId)
    requires room { vec_len out.old + length (kind ∷ to_be_bytes w32 job) ≤ vec_capacity out.old }
    ensures written { out.new.items ≡ out.old.items ++ kind ∷ to_be_bytes w32 job }
    ensures len { vec_len out.new ≡ vec_len out.old + length (kind ∷ to_be_bytes w32 job) }
    ensures grown { vec_capacity out.old ≤ vec_capacity out.new }
    ensures legal { IsJobNumber job }
{
    put_kind(out, kind);
    put_u32(out, job.get());
}

fn put_moment(out: &mut Vec<u8>, kind: u8, moment: Moment)
    requires room { vec_len out.old + length (kind ∷ to_be_bytes w64 moment) ≤ vec_capacity out.old }
    ensures written { out.new.items ≡ out.old.items ++ kind ∷ to_be_bytes w64 moment }
    ensures len { vec_len out.new ≡ vec_len out.old + length (kind ∷ to_be_bytes w64 moment) }
    ensures grown { vec_capacity out.old ≤ vec_capacity out.new }
    ensures legal { IsIn 0 greatest_moment moment }
{
    put_kind(out, kind);
    put_u64(out, moment.get());
}

fn put_event(out: &mut Vec<u8>, event: &Event)
    requires room { vec_len out.old + length (spelling event.now) ≤ vec_capacity out.old }
    ensures written { out.new.items ≡ out.old.items ++ spelling event.now }
    ensures len { vec_len out.new ≡ vec_len out.old + length (spelling event.now) }
    ensures grown { vec_capacity out.old ≤ vec_capacity out.new }
    ensures legal { IsSpellable event.now }
{
    match event {
        Event::AddQueue(queue) => put_queue(out, 0x01, queue),
        Event::Info(notes) => put_notes(out, 0x02, notes),
        Event::SetAccept { queue, accepting } => put_flagged(out, 0x03, queue, *accepting),
        Event::SetStop { queue, stopped } => put_flagged(out, 0x04, queue, *stopped),
        Event::Create(job) => put_job(out, 0x05, job),
        Event::Send { job, bytes } => put_send(out, 0x06, *job, bytes),
        Event::Close(closing) => put_closing(out, 0x07, closing),
        Event::Hold { job, until } => put_hold(out, 0x08, *job, *until),
        Event::Release(job) => put_number(out, 0x09, *job),
        Event::Cancel(job) => put_number(out, 0x0A, *job),
        Event::Clock(moment) => put_moment(out, 0x0B, *moment),
        Event::Start(job) => put_number(out, 0x0C, *job),
        Event::Stage(end) => put_stage(out, 0x0D, end),
        Event::Abandon(job) => put_number(out, 0x0E, *job),
        Event::Reopen => put_kind(out, 0x0F),
        Event::Purge(job) => put_number(out, 0x10, *job),
        Event::CreateBy { job, by } => put_job_by(out, 0x11, job, *by),
    }
}

fn queue_len(queue: &NewQueue) -> usize
    ensures value { result ≡ length (queue_code queue.now) }
    ensures small { result < 2 ^ 16 }
{
    text_len(&queue.name) + text_len(&queue.uri) + media_len(&queue.target) + 7
}

fn notes_len(notes: &QueueNotes) -> usize
    ensures value { result ≡ length (notes_code notes.now) }
    ensures small { result < 2 ^ 16 }
{
    text_len(&notes.queue) + text_len(&notes.info) + text_len(&notes.location)
}

fn job_len(job: &NewJob) -> usize
    ensures value { result ≡ length (job_code job.now) }
    ensures small { result < 2 ^ 16 }
{
    text_len(&job.queue)
        + 4
        + text_len(&job.user)
        + text_len(&job.title)
        + 3
        + text_len(&job.options)
}

fn filters_len(filters: &Option<Filters>) -> usize
    ensures value { result ≡ length (filters_code filters.now) }
    ensures small { result < 2 ^ 16 }
{
    match filters {
        None => 1,
        Some(filters) => 1 + counted_len(filters.as_slice()),
    }
}

fn until_len(until: Option<Moment>) -> usize
    ensures value { result ≡ length (until_code until) }
    ensures small { result < 2 ^ 16 }
{
    match until {
        None => 1,
        Some(_) => 9,
    }
}

fn exit_len(exit: Exit) -> usize
    ensures value { result ≡ length (exit_code exit) }
    ensures small { result < 2 ^ 16 }
{
    match exit {
        Exit::Code(_) => 2,
        Exit::Signal | Exit::NoStart | Exit::Lost => 1,
    }
}

fn stage_len(end: &StageEnd) -> usize
    ensures value { result ≡ length (stage_code end.now) }
    ensures small { result < 2 ^ 16 }
{
    15 + exit_len(end.exit) + end.effects.code_len()
}

/// Returns the number of bytes of an event's spelling.
fn spelled_len(event: &Event) -> usize
    ensures value { result ≡ length (spelling event.now) }
    ensures small { result < 2 ^ 17 }
{
    match event {
        Event::AddQueue(queue) => 1 + queue_len(queue),
        Event::Info(notes) => 1 + notes_len(notes),
        Event::SetAccept { queue, .. } | Event::SetStop { queue, .. } => 2 + text_len(queue),
        Event::Create(job) => 1 + job_len(job),
        Event::Send { bytes, .. } => 9 + bytes.as_slice().len(),
        Event::Close(closing) => 5 + media_len(&closing.media) + filters_len(&closing.filters),
        Event::Hold { until, .. } => 5 + until_len(*until),
        Event::Clock(_) => 9,
        Event::Stage(end) => 1 + stage_len(end),
        Event::Reopen => 1,
        Event::CreateBy { job, .. } => 9 + job_len(job),
        // Only a job's number.
        _ => 5,
    }
}

/// Returns the spelling of an event. It allocates once.
pub fn encode(alloc: Global, event: &Event) -> Result<Vec<u8>, AllocError>
    ensures spelled { IfOk result (λ bytes. bytes.items ≡ spelling event.now) }
    ensures spellable { OnOk result (IsSpellable event.now) }
    ensures short { length (spelling event.now) < 2 ^ 17 }
{
    let mut out = Vec::with_capacity(alloc, spelled_len(event))?;
    put_event(&mut out, event);
    Ok(out)
}

/// Appends the spelling of an event to bytes. The memory for all of it is reserved first.
pub fn encode_onto(event: &Event, out: &mut Vec<u8>) -> Result<(), AllocError>
    ensures spelled { OnOk result (out.new.items ≡ out.old.items ++ spelling event.now) }
    ensures spellable { OnOk result (IsSpellable event.now) }
    ensures short { length (spelling event.now) < 2 ^ 17 }

    // It fails only if the capacity did not suffice, and then the bytes are unchanged.
    ensures fits { vec_len out.old + length (spelling event.now) ≤ vec_capacity out.old → IsOk result }
    ensures kept { OnErr result (out.new.items ≡ out.old.items) }
    ensures grown { vec_capacity out.old ≤ vec_capacity out.new }
{
    out.reserve(spelled_len(event))?;
    put_event(out, event);
    Ok(())
}
