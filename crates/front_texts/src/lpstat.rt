//! The output of `lpstat`.
ghost use Rattle.std.specs.Prelude.{◌≡◌, ◌++◌, [], cond, OnOk, IfOk, option_copied, replicate};
ghost use Rattle.std.specs.List.{flat_map};
ghost use Rattle.front_texts.specs.Lpstat.{padded, is_printing, printing_job, message_of, job_name, printing_line, stopped_line, printer_line, printers_text, accepting_line, request_cell, owner_cell, bytes_cell};
ghost use Rattle.front_texts.specs.Lpstat.{alerts_line, alerts_of, alerts_text, blank_part, device_line, device_text, job_entry, job_line, name_line, printer_entry, queued_for, reason_or_none};

use crate::job_line::JobLine;
use crate::queue_line::QueueLine;
use crate::shown_user::owner_word;
use crate::states::{JobState, PrinterState};
use clean_texts::{clean_bytes, clean_text};
use spool_types::{JobId, QueueName, Reason};
use std::alloc::{AllocError, Global};
use std::io::Write;
use unicode_width::UnicodeWidthStr;

/// Returns the output of `lpstat -p`: a line for each queue, and for a stopped queue a line with the reason. The date is unknown, so it is
/// `-`. If `more` is shown, a line with the reasons of its state follows.
pub fn lpstat_printers(
    alloc: Global,
    queues: &[QueueLine],
    jobs: &[JobLine],
    more: bool,
) -> Result<Vec<u8>, AllocError>
    ensures value { IfOk result (λ text. text.items ≡ printers_text more queues.now jobs.now) }
{
    let mut text = Vec::new(alloc);
    for queue in queues {
        push_entry(&mut text, queue, printing_job(jobs, &queue.name), more)?;
    }
    Ok(text)
}

fn push_entry(
    text: &mut Vec<u8>,
    queue: &QueueLine,
    job: Option<JobId>,
    more: bool,
) -> Result<(), AllocError>
    ensures { OnOk result (text.new.items ≡ text.old.items ++ printer_entry more queue.now job) }
{
    push_printer(text, queue, job)?;
    push_if_more(text, queue, more)
}

fn push_if_more(text: &mut Vec<u8>, queue: &QueueLine, more: bool) -> Result<(), AllocError>
    ensures { OnOk result (text.new.items ≡ text.old.items ++ cond more (alerts_line queue.now) []) }
{
    if more {
        push_alerts(text, queue)
    } else {
        Ok(())
    }
}

fn push_alerts(text: &mut Vec<u8>, queue: &QueueLine) -> Result<(), AllocError>
    ensures { OnOk result (text.new.items ≡ text.old.items ++ alerts_line queue.now) }
{
    text.extend_from_slice(b"\tAlerts:")?;
    push_reasons(text, queue.reasons.as_slice())?;
    text.extend_from_slice(b"\n")
}

fn push_reasons(text: &mut Vec<u8>, reasons: &[Reason]) -> Result<(), AllocError>
    ensures { OnOk result (text.new.items ≡ text.old.items ++ alerts_text reasons.now) }
{
    if reasons.is_empty() {
        return text.extend_from_slice(b" none");
    }
    push_each(text, reasons)
}

fn push_each(text: &mut Vec<u8>, reasons: &[Reason]) -> Result<(), AllocError>
    ensures { OnOk result (text.new.items ≡ text.old.items ++ flat_map blank_part reasons.now) }
{
    for reason in reasons {
        push_reason(text, reason)?;
    }
    Ok(())
}

fn push_reason(text: &mut Vec<u8>, reason: &Reason) -> Result<(), AllocError>
    ensures { OnOk result (text.new.items ≡ text.old.items ++ blank_part reason.now) }
{
    text.extend_from_slice(b" ")?;
    text.extend_from_slice(reason.as_str().as_bytes())
}

/// Returns the output of `lpstat -e`: the names of the queues.
pub fn lpstat_names(alloc: Global, queues: &[QueueLine]) -> Result<Vec<u8>, AllocError>
    ensures value { IfOk result (λ text. text.items ≡ flat_map name_line queues.now) }
{
    let mut text = Vec::new(alloc);
    for queue in queues {
        push_name(&mut text, queue)?;
    }
    Ok(text)
}

fn push_name(text: &mut Vec<u8>, queue: &QueueLine) -> Result<(), AllocError>
    ensures { OnOk result (text.new.items ≡ text.old.items ++ name_line queue.now) }
{
    text.extend_from_slice(queue.name.as_str().as_bytes())?;
    text.extend_from_slice(b"\n")
}

/// Returns a line of `lpstat -v`: the device of a queue, which is empty if it is not known.
pub fn lpstat_device(alloc: Global, name: &str, uri: &[u8]) -> Result<Vec<u8>, AllocError>
    ensures value { IfOk result (λ text. text.items ≡ device_line name.now uri.now) }
{
    let uri = clean_bytes(alloc, uri)?;
    let mut text = Vec::new(alloc);
    text.extend_from_slice(b"device for ")?;
    text.extend_from_slice(name.as_bytes())?;
    text.extend_from_slice(b": ")?;
    text.extend_from_slice(device_text(uri.as_str()).as_bytes())?;
    text.extend_from_slice(b"\n")?;
    Ok(text)
}

fn device_text(uri: &str) -> &str
    ensures { result.now ≡ device_text uri.now }
{
    if uri.is_empty() { "-" } else { uri }
}

// Returns the first processing job of a queue.
pub(crate) fn printing_job(jobs: &[JobLine], queue: &QueueName) -> Option<JobId>
    ensures { result ≡ printing_job queue.now jobs.now }
{
    for job in jobs {
        if is_printing(job, queue) {
            return Some(job.number);
        }
    }
    None
}

fn is_printing(job: &JobLine, queue: &QueueName) -> bool
    ensures { result ≡ is_printing queue.now job.now }
{
    job.state == JobState::Processing && job.queue == *queue
}

fn push_printer(text: &mut Vec<u8>, queue: &QueueLine, job: Option<JobId>) -> Result<(), AllocError>
    ensures { OnOk result (text.new.items ≡ text.old.items ++ printer_line queue.now job) }
{
    let name = queue.name.as_str();
    match (queue.state, job) {
        (PrinterState::Idle, _) => {
            write!(text, "printer {name} is idle.  enabled since -\n").map_err(|_| AllocError)
        }
        (PrinterState::Processing, Some(job)) => push_printing(text, name, job),
        (PrinterState::Processing, None) => {
            write!(text, "printer {name} now printing.  enabled since -\n").map_err(|_| AllocError)
        }
        (PrinterState::Stopped, _) => push_stopped(text, name, message_of(queue)),
    }
}

fn push_printing(text: &mut Vec<u8>, name: &str, job: JobId) -> Result<(), AllocError>
    ensures { OnOk result (text.new.items ≡ text.old.items ++ printing_line name.now job) }
{
    write!(text, "printer {name} now printing ").map_err(|_| AllocError)?;
    push_job_name(text, name, job)?;
    text.extend_from_slice(b".  enabled since -\n")
}

// Appends the id of a job: its queue and its number.
fn push_job_name(text: &mut Vec<u8>, queue: &str, job: JobId) -> Result<(), AllocError>
    ensures { OnOk result (text.new.items ≡ text.old.items ++ job_name queue.now job) }
{
    let number = job.get();
    write!(text, "{queue}-{number}").map_err(|_| AllocError)
}

fn push_stopped(text: &mut Vec<u8>, name: &str, why: &str) -> Result<(), AllocError>
    ensures { OnOk result (text.new.items ≡ text.old.items ++ stopped_line name.now why.now) }
{
    write!(text, "printer {name} disabled since - -\n\t").map_err(|_| AllocError)?;
    text.extend_from_slice(why.as_bytes())?;
    text.extend_from_slice(b"\n")
}

// Returns the message of a queue, or that the reason is unknown.
fn message_of(queue: &QueueLine) -> &str
    ensures { result.now ≡ message_of queue.now.message }
{
    let message = queue.message.as_str();
    if message.is_empty() {
        "reason unknown"
    } else {
        message
    }
}

/// Returns the output of `lpstat -a`: whether each queue accepts jobs.
pub fn lpstat_accepting(alloc: Global, queues: &[QueueLine]) -> Result<Vec<u8>, AllocError>
    ensures value { IfOk result (λ text. text.items ≡ flat_map accepting_line queues.now) }
{
    let mut text = Vec::new(alloc);
    for queue in queues {
        push_accepting(&mut text, queue)?;
    }
    Ok(text)
}

fn push_accepting(text: &mut Vec<u8>, queue: &QueueLine) -> Result<(), AllocError>
    ensures { OnOk result (text.new.items ≡ text.old.items ++ accepting_line queue.now) }
{
    let name = queue.name.as_str();
    if queue.accepting {
        write!(text, "{name} accepting requests since -\n").map_err(|_| AllocError)
    } else {
        let why = message_of(queue);
        write!(text, "{name} not accepting requests since - -\n\t{why}\n").map_err(|_| AllocError)
    }
}

/// Returns the output of `lpstat -o`: `QUEUE-N USER SIZE -` for each job. The date of its creation is unknown. In the long form two lines
/// follow.
pub fn lpstat_jobs(alloc: Global, jobs: &[JobLine], long: bool) -> Result<Vec<u8>, AllocError>
    ensures value { IfOk result (λ text. text.items ≡ flat_map (job_entry long) jobs.now) }
{
    let mut text = Vec::new(alloc);
    for job in jobs {
        push_job(alloc, &mut text, job, long)?;
    }
    Ok(text)
}

fn push_job(alloc: Global, text: &mut Vec<u8>, job: &JobLine, long: bool) -> Result<(), AllocError>
    ensures { OnOk result (text.new.items ≡ text.old.items ++ job_entry long job.now) }
{
    push_job_line(alloc, text, job)?;
    push_if_long(text, job, long)
}

fn push_if_long(text: &mut Vec<u8>, job: &JobLine, long: bool) -> Result<(), AllocError>
    ensures { OnOk result (text.new.items ≡ text.old.items ++ cond long (alerts_of job.now ++ queued_for job.now) []) }
{
    if !long {
        return Ok(());
    }
    push_alerts_of(text, job)?;
    push_queued_for(text, job)
}

fn push_alerts_of(text: &mut Vec<u8>, job: &JobLine) -> Result<(), AllocError>
    ensures { OnOk result (text.new.items ≡ text.old.items ++ alerts_of job.now) }
{
    text.extend_from_slice(b"\tAlerts: ")?;
    text.extend_from_slice(reason_or_none(job.reason.as_ref()).as_bytes())?;
    text.extend_from_slice(b"\n")
}

fn reason_or_none(reason: Option<&Reason>) -> &str
    ensures { result.now ≡ reason_or_none (option_copied reason.entry) }
{
    match reason {
        Some(reason) => reason.as_str(),
        None => "none",
    }
}

fn push_queued_for(text: &mut Vec<u8>, job: &JobLine) -> Result<(), AllocError>
    ensures { OnOk result (text.new.items ≡ text.old.items ++ queued_for job.now) }
{
    let queue = job.queue.as_str();
    write!(text, "\tqueued for {queue}\n").map_err(|_| AllocError)
}

fn push_job_line(alloc: Global, text: &mut Vec<u8>, job: &JobLine) -> Result<(), AllocError>
    ensures { OnOk result (text.new.items ≡ text.old.items ++ job_line job.now) }
{
    push_request(alloc, text, job)?;
    push_owner(alloc, text, job)?;
    push_bytes(alloc, text, job)
}

fn push_request(alloc: Global, text: &mut Vec<u8>, job: &JobLine) -> Result<(), AllocError>
    ensures { OnOk result (text.new.items ≡ text.old.items ++ request_cell job.now) }
{
    let queue = job.queue.as_str();
    let number = job.number.get();
    let request = format!(in alloc; "{queue}-{number}")?;
    push_padded(text, request.as_str(), 23)
}

fn push_owner(alloc: Global, text: &mut Vec<u8>, job: &JobLine) -> Result<(), AllocError>
    ensures { OnOk result (text.new.items ≡ text.old.items ++ owner_cell job.now) }
{
    let user = clean_text(alloc, owner_word(job.user.as_str()))?;
    push_padded(text, user.as_str(), 13)
}

fn push_bytes(alloc: Global, text: &mut Vec<u8>, job: &JobLine) -> Result<(), AllocError>
    ensures { OnOk result (text.new.items ≡ text.old.items ++ bytes_cell job.now) }
{
    let size = job.size;
    let bytes = format!(in alloc; "{size}")?;
    push_blanks(text, 8usize.saturating_sub(bytes.len()))?;
    text.extend_from_slice(bytes.as_bytes())?;
    text.extend_from_slice(b" -\n")
}

// Appends a text, blanks up to the end of its column, and one more blank.
pub(crate) fn push_padded(text: &mut Vec<u8>, value: &str, columns: usize) -> Result<(), AllocError>
    ensures { OnOk result (text.new.items ≡ text.old.items ++ padded columns value.now) }
{
    text.extend_from_slice(value.as_bytes())?;
    push_blanks(text, columns.saturating_sub(value.width()))?;
    text.push(b' ')?;
    Ok(())
}

fn push_blanks(text: &mut Vec<u8>, count: usize) -> Result<(), AllocError>
    ensures { OnOk result (text.new.items ≡ text.old.items ++ replicate count 32) }
{
    let mut left = count;
    while 0 < left {
        text.push(b' ')?;
        left -= 1;
    }
    Ok(())
}
