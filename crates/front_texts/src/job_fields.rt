//! One job with all its fields, for a terminal.
ghost use Rattle.std.specs.Prelude.{◌≤◌, IfOk, OnOk};
ghost use Rattle.front_texts.specs.Cells.{AreLines};

use crate::cells::{clean_line, push_cell};
use crate::job_shown::{JobAsked, JobShown, JobStatus, StageShown};
use crate::job_times::{JobTimes, TimeShown};
use crate::sizes::{moment_text, size_text};
use spool_types::Moment;
use std::alloc::{AllocError, Global};

// The columns of the field names.
const NAME_COLUMNS: usize = 10;

/// Returns the job as lines of a name and a value, of at most `width` columns. A field without a value has no line.
pub fn job_page(alloc: Global, job: &JobShown, width: usize) -> Result<Vec<String>, AllocError>
    requires { 1 ≤ width }
    ensures fits { IfOk result (λ lines. AreLines width lines.items) }
{
    let mut lines = Vec::new(alloc);
    push_asked(alloc, &mut lines, &job.asked, width)?;
    push_job_status(alloc, &mut lines, &job.job_status, width)?;
    push_moments(alloc, &mut lines, &job.job_status, width)?;
    push_times(alloc, &mut lines, job.times, width)?;
    Ok(lines)
}

/// Appends a line of a name and a value, which is cleaned.
pub(crate) fn push_line(
    alloc: Global,
    lines: &mut Vec<String>,
    name: &str,
    value: &str,
    width: usize,
) -> Result<(), AllocError>
    requires there { 1 ≤ width }
    requires fit { AreLines width lines.old.items }
    ensures { OnOk result (AreLines width lines.new.items) }
{
    let mut line = String::new(alloc);
    push_cell(alloc, &mut line, name, NAME_COLUMNS)?;
    line.push_str(value)?;
    lines.push(clean_line(alloc, line.as_str(), width)?)?;
    Ok(())
}

fn push_number(
    alloc: Global,
    lines: &mut Vec<String>,
    name: &str,
    value: u32,
    width: usize,
) -> Result<(), AllocError>
    requires there { 1 ≤ width }
    requires fit { AreLines width lines.old.items }
    ensures { OnOk result (AreLines width lines.new.items) }
{
    let value = format!(in alloc; "{value}")?;
    push_line(alloc, lines, name, value.as_str(), width)
}

fn push_asked(
    alloc: Global,
    lines: &mut Vec<String>,
    asked: &JobAsked,
    width: usize,
) -> Result<(), AllocError>
    requires there { 1 ≤ width }
    requires fit { AreLines width lines.old.items }
    ensures { OnOk result (AreLines width lines.new.items) }
{
    push_number(alloc, lines, "job", asked.number.get(), width)?;
    push_line(alloc, lines, "queue", asked.queue.as_str(), width)?;
    push_line(alloc, lines, "user", asked.user.as_str(), width)?;
    push_line(alloc, lines, "title", asked.title.as_str(), width)?;
    push_line(alloc, lines, "options", asked.options.as_str(), width)?;
    push_number(alloc, lines, "copies", asked.copies.get(), width)?;
    push_number(alloc, lines, "priority", asked.priority.get(), width)
}

fn push_job_status(
    alloc: Global,
    lines: &mut Vec<String>,
    job_status: &JobStatus,
    width: usize,
) -> Result<(), AllocError>
    requires there { 1 ≤ width }
    requires fit { AreLines width lines.old.items }
    ensures { OnOk result (AreLines width lines.new.items) }
{
    let size = size_text(alloc, job_status.size)?;
    push_line(alloc, lines, "size", size.as_str(), width)?;
    push_number(alloc, lines, "pages", job_status.pages, width)?;
    push_number(alloc, lines, "attempts", job_status.attempts, width)?;
    if let Some(media) = &job_status.media {
        push_line(alloc, lines, "type", media.as_str(), width)?;
    }
    push_line(alloc, lines, "state", job_status.state_word(), width)?;
    if let Some(reason) = &job_status.reason {
        push_line(alloc, lines, "reason", reason.as_str(), width)?;
    }
    Ok(())
}

fn push_moments(
    alloc: Global,
    lines: &mut Vec<String>,
    job_status: &JobStatus,
    width: usize,
) -> Result<(), AllocError>
    requires there { 1 ≤ width }
    requires fit { AreLines width lines.old.items }
    ensures { OnOk result (AreLines width lines.new.items) }
{
    push_moment(alloc, lines, "start by", job_status.by, width)?;
    push_moment(alloc, lines, "held until", job_status.hold_until, width)?;
    push_moment(
        alloc,
        lines,
        "not before",
        shown_moment(job_status.not_before),
        width,
    )?;
    push_stage(alloc, lines, job_status.stage, width)
}

// A job that waits for no moment has the moment 0 there, which is not shown.
fn shown_moment(moment: Option<Moment>) -> Option<Moment> {
    match moment {
        Some(moment) if moment == Moment::ZERO => None,
        other => other,
    }
}

fn push_moment(
    alloc: Global,
    lines: &mut Vec<String>,
    name: &str,
    moment: Option<Moment>,
    width: usize,
) -> Result<(), AllocError>
    requires there { 1 ≤ width }
    requires fit { AreLines width lines.old.items }
    ensures { OnOk result (AreLines width lines.new.items) }
{
    let Some(moment) = moment else {
        return Ok(());
    };
    let text = moment_text(alloc, moment)?;
    push_line(alloc, lines, name, text.as_str(), width)
}

fn push_times(
    alloc: Global,
    lines: &mut Vec<String>,
    times: JobTimes,
    width: usize,
) -> Result<(), AllocError>
    requires there { 1 ≤ width }
    requires fit { AreLines width lines.old.items }
    ensures { OnOk result (AreLines width lines.new.items) }
{
    push_time(alloc, lines, "created", times.created, width)?;
    push_time(alloc, lines, "closed", times.closed, width)?;
    push_time(alloc, lines, "started", times.started, width)?;
    push_time(alloc, lines, "ended", times.ended, width)
}

fn push_time(
    alloc: Global,
    lines: &mut Vec<String>,
    name: &str,
    time: Option<TimeShown>,
    width: usize,
) -> Result<(), AllocError>
    requires there { 1 ≤ width }
    requires fit { AreLines width lines.old.items }
    ensures { OnOk result (AreLines width lines.new.items) }
{
    match time {
        Some(time) => push_shown_time(alloc, lines, name, time, width),
        None => Ok(()),
    }
}

fn push_shown_time(
    alloc: Global,
    lines: &mut Vec<String>,
    name: &str,
    time: TimeShown,
    width: usize,
) -> Result<(), AllocError>
    requires there { 1 ≤ width }
    requires fit { AreLines width lines.old.items }
    ensures { OnOk result (AreLines width lines.new.items) }
{
    match time {
        TimeShown::At(moment) => push_moment(alloc, lines, name, Some(moment), width),
        TimeShown::Unknown => push_line(alloc, lines, name, "unknown", width),
    }
}

fn push_stage(
    alloc: Global,
    lines: &mut Vec<String>,
    stage: Option<StageShown>,
    width: usize,
) -> Result<(), AllocError>
    requires there { 1 ≤ width }
    requires fit { AreLines width lines.old.items }
    ensures { OnOk result (AreLines width lines.new.items) }
{
    let Some(
        StageShown {
            stage,
            stages,
            attempt,
        },
    ) = stage
    else {
        return Ok(());
    };
    let text = format!(in alloc; "{stage} of {stages} in attempt {attempt}")?;
    push_line(alloc, lines, "stage", text.as_str(), width)
}
