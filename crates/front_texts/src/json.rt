//! Jobs and queues as JSON.
ghost use Rattle.std.specs.Prelude.{◌≡◌, IfOk, OnOk, codes, false, option_copied, string_bytes};
ghost use Rattle.std.specs.Option.{option_map};
ghost use Rattle.serde_json.specs.View.{view, members_view};
ghost use Rattle.serde_json.specs.Data.{put as with_member, string};
ghost use Rattle.clean_texts.specs.CleanTexts.{is_steered};
ghost use Rattle.clean_texts.specs.JsonEscapes.{clean_json};
ghost use Rattle.serde_json.specs.Written.{has_float, compact_text};
ghost use Rattle.front_texts.specs.Json.{text_data, text_item, texts_data, job_data, jobs_data, queue_data, queues_data, with_queue_state, with_queue_rules, with_queue_notes, with_counts, with_state_and_reason, with_waits, with_job, with_asked, with_times, with_moments, with_shown, asked_data, job_status_data, shown_data, moment_data, moments_data, shown_time_data, stage_data, time_data, times_data};

use crate::job_line::JobLine;
use crate::job_shown::{JobAsked, JobShown, JobStatus, StageShown};
use crate::job_times::{JobTimes, TimeShown};
use crate::queue_line::QueueLine;
use clean_texts::clean_json;
use serde_json::{Map, Value, json, put};
use spool_types::{MediaType, Moment, Reason};
use std::alloc::{AllocError, Global};

// The members of an object.
type JsonMembers = Map<String, Value>;

// Adds a member that is a text.
fn put_text(
    members: &mut JsonMembers,
    alloc: Global,
    key: &str,
    text: &str,
) -> Result<(), AllocError>
    ensures { OnOk result (members_view members.new.entries ≡ with_member key.now (string text.now) (members_view members.old.entries)) }
{
    put(members, alloc, key, text_json(alloc, text)?)
}

// Adds a member that is a time, the text `unknown` or null.
fn put_time(
    members: &mut JsonMembers,
    alloc: Global,
    key: &str,
    time: Option<TimeShown>,
) -> Result<(), AllocError>
    ensures { OnOk result (members_view members.new.entries ≡ with_member key.now (time_data time) (members_view members.old.entries)) }
{
    put(members, alloc, key, time_json(alloc, time)?)
}

// Adds a member that is a reason or null.
fn put_reason(
    members: &mut JsonMembers,
    alloc: Global,
    reason: Option<&Reason>,
) -> Result<(), AllocError>
    ensures { OnOk result (members_view members.new.entries ≡ with_member (codes "reason") (text_data (option_copied reason.entry)) (members_view members.old.entries)) }
{
    put(members, alloc, "reason", reason_json(alloc, reason)?)
}

/// Returns the text of a value, with an escape for each character that steers a terminal.
pub fn json_text(alloc: Global, value: &Value) -> Result<String, AllocError>
    ensures value { IfOk result (λ text. has_float (view value.now) ≡ false → string_bytes text ≡ clean_json (compact_text (view value.now))) }
    ensures clean { IfOk result (λ text. is_steered (string_bytes text) ≡ false) }
{
    let json = value.to_string(alloc)?;
    clean_json(alloc, json.as_str())
}

/// Returns a job as an object.
pub fn job_json(alloc: Global, job: &JobLine) -> Result<Value, AllocError>
    ensures value { IfOk result (λ object. view object ≡ job_data job.now) }
{
    let mut members = Map::new(alloc);
    put_job(&mut members, alloc, job)?;
    Ok(Value::Object(members))
}

fn put_job(members: &mut JsonMembers, alloc: Global, job: &JobLine) -> Result<(), AllocError>
    ensures { OnOk result (members_view members.new.entries ≡ with_job job.now (members_view members.old.entries)) }
{
    put(members, alloc, "number", Value::from(job.number.get()))?;
    put_text(members, alloc, "queue", job.queue.as_str())?;
    put_text(members, alloc, "state", job.state.word())?;
    put_reason(members, alloc, job.reason.as_ref())?;
    put_text(members, alloc, "user", job.user.as_str())?;
    put(members, alloc, "size", Value::from(job.size))?;
    put(members, alloc, "pages", Value::from(job.pages))?;
    put_text(members, alloc, "title", job.title.as_str())
}

// Returns a reason or null.
fn reason_json(alloc: Global, reason: Option<&Reason>) -> Result<Value, AllocError>
    ensures { IfOk result (λ value. view value ≡ text_data (option_copied reason.entry)) }
{
    match reason {
        Some(reason) => text_json(alloc, reason.as_str()),
        None => Ok(Value::Null),
    }
}

/// Returns the jobs as an array of objects, in their order.
pub fn jobs_json(alloc: Global, jobs: &[JobLine]) -> Result<Value, AllocError>
    ensures value { IfOk result (λ array. view array ≡ jobs_data jobs.now) }
{
    let mut array = Vec::new(alloc);
    for job in jobs {
        array.push(job_json(alloc, job)?)?;
    }
    Ok(Value::Array(array))
}

/// Returns a queue as an object.
pub fn queue_json(alloc: Global, queue: &QueueLine) -> Result<Value, AllocError>
    ensures value { IfOk result (λ object. view object ≡ queue_data queue.now) }
{
    let mut members = Map::new(alloc);
    put_queue_state(alloc, &mut members, queue)?;
    put_queue_rules(alloc, &mut members, queue)?;
    put_queue_notes(alloc, &mut members, queue)?;
    Ok(Value::Object(members))
}

fn put_queue_state(
    alloc: Global,
    members: &mut JsonMembers,
    queue: &QueueLine,
) -> Result<(), AllocError>
    ensures { OnOk result (members_view members.new.entries ≡ with_queue_state queue.now (members_view members.old.entries)) }
{
    put_text(members, alloc, "name", queue.name.as_str())?;
    put_text(members, alloc, "state", queue.state.word())?;
    put(members, alloc, "accepting", Value::Bool(queue.accepting))
}

fn put_queue_rules(
    alloc: Global,
    members: &mut JsonMembers,
    queue: &QueueLine,
) -> Result<(), AllocError>
    ensures { OnOk result (members_view members.new.entries ≡ with_queue_rules queue.now (members_view members.old.entries)) }
{
    put_text(members, alloc, "policy", queue.policy.word())?;
    put(
        members,
        alloc,
        "interval",
        Value::from(queue.interval.get()),
    )?;
    put(members, alloc, "limit", Value::from(queue.limit))
}

fn put_queue_notes(
    alloc: Global,
    members: &mut JsonMembers,
    queue: &QueueLine,
) -> Result<(), AllocError>
    ensures { OnOk result (members_view members.new.entries ≡ with_queue_notes queue.now (members_view members.old.entries)) }
{
    put_text(members, alloc, "type", queue.target.as_str())?;
    put(
        members,
        alloc,
        "reasons",
        reasons_json(alloc, queue.reasons.as_slice())?,
    )?;
    put_text(members, alloc, "message", queue.message.as_str())
}

fn reasons_json(alloc: Global, reasons: &[Reason]) -> Result<Value, AllocError>
    ensures { IfOk result (λ array. view array ≡ texts_data reasons.now) }
{
    let mut array = Vec::new(alloc);
    for reason in reasons {
        array.push(text_json(alloc, reason.as_str())?)?;
    }
    Ok(Value::Array(array))
}

fn text_json(alloc: Global, text: &str) -> Result<Value, AllocError>
    ensures { IfOk result (λ value. view value ≡ text_item text.now) }
{
    Ok(Value::String(String::from_str(alloc, text)?))
}

/// Returns the queues as an array of objects, in their order.
pub fn queues_json(alloc: Global, queues: &[QueueLine]) -> Result<Value, AllocError>
    ensures value { IfOk result (λ array. view array ≡ queues_data queues.now) }
{
    let mut array = Vec::new(alloc);
    for queue in queues {
        array.push(queue_json(alloc, queue)?)?;
    }
    Ok(Value::Array(array))
}

/// Returns a job with all its fields as an object, and why it does not print. A field without a value is null.
pub fn job_shown_json(alloc: Global, job: &JobShown, why: Option<&str>) -> Result<Value, AllocError>
    ensures value { IfOk result (λ object. view object ≡ shown_data job.now (option_map (λ text. text.now) why.entry)) }
{
    let mut members = Map::new(alloc);
    put_shown(&mut members, alloc, job, why)?;
    Ok(Value::Object(members))
}

fn put_shown(
    members: &mut JsonMembers,
    alloc: Global,
    job: &JobShown,
    why: Option<&str>,
) -> Result<(), AllocError>
    ensures { OnOk result (members_view members.new.entries ≡ with_shown job.now (option_map (λ text. text.now) why.entry) (members_view members.old.entries)) }
{
    put(members, alloc, "asked", asked_json(alloc, &job.asked)?)?;
    put(
        members,
        alloc,
        "course",
        job_status_json(alloc, &job.job_status)?,
    )?;
    put(members, alloc, "times", times_json(alloc, job.times)?)?;
    put(members, alloc, "why", why_json(alloc, why)?)
}

// Returns a sentence or null.
fn why_json(alloc: Global, why: Option<&str>) -> Result<Value, AllocError>
    ensures { IfOk result (λ value. view value ≡ text_data (option_map (λ text. text.now) why.entry)) }
{
    match why {
        Some(why) => text_json(alloc, why),
        None => Ok(Value::Null),
    }
}

fn times_json(alloc: Global, times: JobTimes) -> Result<Value, AllocError>
    ensures { IfOk result (λ object. view object ≡ times_data times) }
{
    let mut members = Map::new(alloc);
    put_times(&mut members, alloc, times)?;
    Ok(Value::Object(members))
}

fn put_times(members: &mut JsonMembers, alloc: Global, times: JobTimes) -> Result<(), AllocError>
    ensures { OnOk result (members_view members.new.entries ≡ with_times times (members_view members.old.entries)) }
{
    put_time(members, alloc, "created", times.created)?;
    put_time(members, alloc, "closed", times.closed)?;
    put_time(members, alloc, "started", times.started)?;
    put_time(members, alloc, "ended", times.ended)
}

// Returns a moment, the text `unknown` or null.
fn time_json(alloc: Global, time: Option<TimeShown>) -> Result<Value, AllocError>
    ensures { IfOk result (λ value. view value ≡ time_data time) }
{
    match time {
        Some(time) => shown_time_json(alloc, time),
        None => Ok(Value::Null),
    }
}

fn shown_time_json(alloc: Global, time: TimeShown) -> Result<Value, AllocError>
    ensures { IfOk result (λ value. view value ≡ shown_time_data time) }
{
    match time {
        TimeShown::At(moment) => Ok(moment_json(Some(moment))),
        TimeShown::Unknown => text_json(alloc, "unknown"),
    }
}

fn asked_json(alloc: Global, asked: &JobAsked) -> Result<Value, AllocError>
    ensures { IfOk result (λ object. view object ≡ asked_data asked.now) }
{
    let mut members = Map::new(alloc);
    put_asked(&mut members, alloc, asked)?;
    Ok(Value::Object(members))
}

fn put_asked(members: &mut JsonMembers, alloc: Global, asked: &JobAsked) -> Result<(), AllocError>
    ensures { OnOk result (members_view members.new.entries ≡ with_asked asked.now (members_view members.old.entries)) }
{
    put(members, alloc, "number", Value::from(asked.number.get()))?;
    put_text(members, alloc, "queue", asked.queue.as_str())?;
    put_text(members, alloc, "user", asked.user.as_str())?;
    put_text(members, alloc, "title", asked.title.as_str())?;
    put_text(members, alloc, "options", asked.options.as_str())?;
    put(members, alloc, "copies", Value::from(asked.copies.get()))?;
    put(
        members,
        alloc,
        "priority",
        Value::from(asked.priority.get()),
    )
}

fn job_status_json(alloc: Global, job_status: &JobStatus) -> Result<Value, AllocError>
    ensures { IfOk result (λ object. view object ≡ job_status_data job_status.now) }
{
    let mut members = Map::new(alloc);
    put_counts(alloc, &mut members, job_status)?;
    put_state_and_reason(alloc, &mut members, job_status)?;
    put_waits(alloc, &mut members, job_status)?;
    Ok(Value::Object(members))
}

fn put_counts(
    alloc: Global,
    members: &mut JsonMembers,
    job_status: &JobStatus,
) -> Result<(), AllocError>
    ensures { OnOk result (members_view members.new.entries ≡ with_counts job_status.now (members_view members.old.entries)) }
{
    put(members, alloc, "size", Value::from(job_status.size))?;
    put(members, alloc, "pages", Value::from(job_status.pages))?;
    put(members, alloc, "attempts", Value::from(job_status.attempts))
}

fn put_state_and_reason(
    alloc: Global,
    members: &mut JsonMembers,
    job_status: &JobStatus,
) -> Result<(), AllocError>
    ensures { OnOk result (members_view members.new.entries ≡ with_state_and_reason job_status.now (members_view members.old.entries)) }
{
    put(
        members,
        alloc,
        "type",
        media_json(alloc, job_status.media.as_ref())?,
    )?;
    put_text(members, alloc, "state", job_status.state.word())?;
    put_reason(members, alloc, job_status.reason.as_ref())
}

fn put_waits(
    alloc: Global,
    members: &mut JsonMembers,
    job_status: &JobStatus,
) -> Result<(), AllocError>
    ensures { OnOk result (members_view members.new.entries ≡ with_waits job_status.now (members_view members.old.entries)) }
{
    put(members, alloc, "moments", moments_json(alloc, job_status)?)?;
    put(
        members,
        alloc,
        "stage",
        stage_json(alloc, job_status.stage)?,
    )
}

fn moments_json(alloc: Global, job_status: &JobStatus) -> Result<Value, AllocError>
    ensures { IfOk result (λ object. view object ≡ moments_data job_status.now) }
{
    let mut members = Map::new(alloc);
    put_moments(&mut members, alloc, job_status)?;
    Ok(Value::Object(members))
}

fn put_moments(
    members: &mut JsonMembers,
    alloc: Global,
    job_status: &JobStatus,
) -> Result<(), AllocError>
    ensures { OnOk result (members_view members.new.entries ≡ with_moments job_status.now (members_view members.old.entries)) }
{
    put(members, alloc, "by", moment_json(job_status.by))?;
    put(
        members,
        alloc,
        "hold_until",
        moment_json(job_status.hold_until),
    )?;
    put(
        members,
        alloc,
        "not_before",
        moment_json(job_status.not_before),
    )
}

// Returns a media type or null.
fn media_json(alloc: Global, media: Option<&MediaType>) -> Result<Value, AllocError>
    ensures { IfOk result (λ value. view value ≡ text_data (option_copied media.entry)) }
{
    match media {
        Some(media) => text_json(alloc, media.as_str()),
        None => Ok(Value::Null),
    }
}

// Returns the seconds of a moment or null.
fn moment_json(moment: Option<Moment>) -> Value
    ensures { view result ≡ moment_data moment }
{
    match moment {
        Some(moment) => Value::from(moment.get()),
        None => Value::Null,
    }
}

fn stage_json(alloc: Global, stage: Option<StageShown>) -> Result<Value, AllocError>
    ensures { IfOk result (λ object. view object ≡ stage_data stage) }
{
    match stage {
        Some(stage) => json!(in alloc; {
            "stage": stage.stage,
            "stages": stage.stages,
            "attempt": stage.attempt
        }),
        None => Ok(Value::Null),
    }
}
