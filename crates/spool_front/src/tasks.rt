//! The tasks that show and change jobs and queues.
ghost use Rattle.std.specs.Prelude.{◌≡◌, IfOk, filter};
ghost use Rattle.std.specs.Option.{option_map};
ghost use Rattle.spool_front.specs.Acts.{act_line, is_not_held, is_of, is_refused, is_resume, is_stop, is_unknown, queue_act_line, unless_refused};
ghost use Rattle.spool_front.specs.TaskFaults.{status_of};

use crate::canceling::clear_queues;
use crate::client::{Answer, Client};
use crate::commands::{Until, hold_line, info_line, job_line, name_line, queue_line};
use crate::fault::{Fault, first_failure, unknown_queue};
use crate::host::Screen;
use crate::json_lines::{fields_json, news_json, print_json};
use crate::live_table::watch_jobs;
use crate::moments::{Clocks, clocks_for_act};
use crate::output::print_lines;
use crate::refusals::{explain_job, explain_queue};
use crate::services::{Services, all_jobs, all_queues, client_at, only_socket, socket_of};
use clean_texts::clean_bytes;
use front_texts::{
    JobLine, JobShown, QueueLine, job_page, job_shown_json, jobs_json, jobs_table, queue_page,
    queues_json, queues_table,
};
use front_words::{JobAct, QueueAct, Status};
use std::alloc::{AllocError, Global};

/// Shows one job, the jobs of a queue, or all jobs.
pub fn show_status(
    rt: &HostRuntime,
    services: Services<'_, '_>,
    asked: Status<'_>,
    screen: Screen,
) -> Result<u8, Fault>
    ensures { IfOk result (λ status. status ≡ 0) }
{
    if let Some(job) = asked.job {
        return show_job(rt, services, job, asked.json, screen);
    }
    if asked.watch {
        return watch_jobs(rt, services, asked, screen);
    }
    let mut jobs = all_jobs(rt, services)?;
    keep_of(&mut jobs, asked.queue);
    let shown = print_jobs(rt, &jobs, asked.json, screen);
    drop(jobs);
    shown?;
    Ok(0)
}

/// Prints jobs as a table or as JSON.
pub fn print_jobs(
    rt: &HostRuntime,
    jobs: &[JobLine],
    json: bool,
    screen: Screen,
) -> Result<(), Fault> {
    let alloc = rt.alloc();
    if json {
        return print_json(rt, jobs_json(alloc, jobs)?);
    }
    print_lines(rt, &jobs_table(alloc, jobs, screen.width.max(1))?)?;
    Ok(())
}

/// Retains the jobs of the queue, or all if no queue is named.
pub fn keep_of(jobs: &mut Vec<JobLine>, queue: Option<&str>)
    ensures { jobs.new.items ≡ filter (is_of (option_map (λ name. name.now) queue.entry)) jobs.old.items }
{
    jobs.retain(|job| is_of(queue, job));
}

fn is_of(queue: Option<&str>, job: &JobLine) -> bool
    ensures { result ≡ is_of (option_map (λ name. name.now) queue.entry) job.now }
{
    match queue {
        Some(queue) => job.queue.as_str() == queue,
        None => true,
    }
}

// Shows the job with this number of each service that has one.
fn show_job(
    rt: &HostRuntime,
    services: Services<'_, '_>,
    job: u32,
    json: bool,
    screen: Screen,
) -> Result<u8, Fault>
    ensures { IfOk result (λ status. status ≡ 0) }
{
    let mut found = false;
    for socket in services.sockets {
        let mut client = client_at(rt, services, socket);
        let shown = client.job(job);
        drop(client);
        if let Some(shown) = shown? {
            found = true;
            let why = why_of(rt, services, socket, job);
            print_shown(rt, shown, why, json, screen)?;
        }
    }
    if found {
        Ok(0)
    } else {
        Err(Fault::Named("no such job:", format!(in rt.alloc(); "{job}")?))
    }
}

fn print_shown(
    rt: &HostRuntime,
    shown: JobShown,
    why: Result<Option<String>, Fault>,
    json: bool,
    screen: Screen,
) -> Result<(), Fault> {
    let printed = print_with_why(rt, &shown, why, json, screen);
    drop(shown);
    printed
}

fn print_with_why(
    rt: &HostRuntime,
    shown: &JobShown,
    why: Result<Option<String>, Fault>,
    json: bool,
    screen: Screen,
) -> Result<(), Fault> {
    match why? {
        Some(why) => print_job(rt, shown, Some(why.as_str()), json, screen),
        None => print_job(rt, shown, None, json, screen),
    }
}

// Returns why a job does not print, as a clean sentence, if there is a cause.
fn why_of(
    rt: &HostRuntime,
    services: Services<'_, '_>,
    socket: &str,
    job: u32,
) -> Result<Option<String>, Fault> {
    let mut client = client_at(rt, services, socket);
    let why = client.why(job);
    drop(client);
    match why? {
        Some(why) => Ok(Some(clean_bytes(rt.alloc(), why.as_slice())?)),
        None => Ok(None),
    }
}

fn print_job(
    rt: &HostRuntime,
    shown: &JobShown,
    why: Option<&str>,
    json: bool,
    screen: Screen,
) -> Result<(), Fault> {
    let alloc = rt.alloc();
    if json {
        return print_json(rt, job_shown_json(alloc, shown, why)?);
    }
    print_lines(rt, &job_page(alloc, shown, screen.width.max(1))?)?;
    if let Some(why) = why {
        println!(rt; "why       {why}")?;
    }
    Ok(())
}

pub fn show_queues(
    rt: &HostRuntime,
    services: Services<'_, '_>,
    json: bool,
    screen: Screen,
) -> Result<u8, Fault>
    ensures { IfOk result (λ status. status ≡ 0) }
{
    let queues = all_queues(rt, services)?;
    let shown = print_queues(rt, &queues, json, screen);
    drop(queues);
    shown?;
    Ok(0)
}

fn print_queues(
    rt: &HostRuntime,
    queues: &[QueueLine],
    json: bool,
    screen: Screen,
) -> Result<(), Fault> {
    let alloc = rt.alloc();
    if json {
        return print_json(rt, queues_json(alloc, queues)?);
    }
    print_lines(rt, &queues_table(alloc, queues, screen.width.max(1))?)?;
    Ok(())
}

/// Shows a queue with all its fields, or its row if its service reports no more.
pub fn show_queue(
    rt: &HostRuntime,
    services: Services<'_, '_>,
    name: &str,
    json: bool,
    screen: Screen,
) -> Result<u8, Fault>
    ensures { IfOk result (λ status. status ≡ 0) }
{
    let socket = socket_of(rt, services, name)?;
    let mut client = client_at(rt, services, socket);
    let shown = show_queue_of(rt, &mut client, name, json, screen);
    drop(client);
    shown?;
    Ok(0)
}

fn show_queue_of(
    rt: &HostRuntime,
    client: &mut Client<'_>,
    name: &str,
    json: bool,
    screen: Screen,
) -> Result<(), Fault> {
    let Some(answer) = client.queue(name)? else {
        return show_row(rt, client, name, json, screen);
    };
    let printed = print_fields(rt, &answer, json, screen);
    drop(answer);
    printed
}

fn print_fields(
    rt: &HostRuntime,
    answer: &Answer,
    json: bool,
    screen: Screen,
) -> Result<(), Fault> {
    let alloc = rt.alloc();
    if json {
        return print_json(rt, fields_json(alloc, answer.rows.as_slice())?);
    }
    print_lines(
        rt,
        &queue_page(alloc, answer.rows.as_slice(), screen.width.max(1))?,
    )?;
    Ok(())
}

// Shows the row of a queue.
fn show_row(
    rt: &HostRuntime,
    client: &mut Client<'_>,
    name: &str,
    json: bool,
    screen: Screen,
) -> Result<(), Fault> {
    let mut queues = client.queues()?;
    queues.retain(|queue| queue.name.as_str() == name);
    let shown = if queues.is_empty() {
        Err(unknown_queue(rt.alloc(), name)?)
    } else {
        print_queues(rt, &queues, json, screen)
    };
    drop(queues);
    shown
}

/// Prints each line that the service sends about a change, clean or as JSON, until the connection is lost.
pub fn watch(rt: &HostRuntime, services: Services<'_, '_>, json: bool) -> Result<u8, Fault>
    ensures { IfOk result (λ status. status ≡ 0) }
{
    let mut client = client_at(rt, services, only_socket(services)?);
    let ended = watch_by(rt, &mut client, json);
    drop(client);
    ended?;
    Ok(0)
}

fn watch_by(rt: &HostRuntime, client: &mut Client<'_>, json: bool) -> Result<(), Fault> {
    drop(client.ask(b"watch\n")?);
    for _ in 0..u64::MAX {
        let lines = client.receive_lines()?;
        let printed = print_news(rt, &lines, json);
        drop(lines);
        printed?;
    }
    Ok(())
}

/// Prints lines that the service sends without a command, clean or as JSON.
pub fn print_news(rt: &HostRuntime, lines: &[Vec<u8>], json: bool) -> Result<(), Fault> {
    for line in lines {
        if json {
            print_json(rt, news_json(rt.alloc(), line.as_slice())?)?;
        } else {
            print_clean(rt, line.as_slice())?;
        }
    }
    Ok(())
}

/// Prints a line of the service, clean.
pub fn print_clean(rt: &HostRuntime, line: &[u8]) -> Result<(), Fault> {
    let shown = clean_bytes(rt.alloc(), line)?;
    println!(rt; "{shown}")?;
    Ok(())
}

/// Applies the same action to each of these jobs.
pub fn act_on_jobs(
    rt: &HostRuntime,
    services: Services<'_, '_>,
    act: JobAct,
    jobs: &[u32],
) -> Result<u8, Fault> {
    let mut client = client_at(rt, services, only_socket(services)?);
    let ended = act_by(rt, &mut client, act, jobs);
    drop(client);
    ended
}

/// Applies the same action to each of these jobs. If the action is refused for a job, or the reply is lost, this is reported and the next job follows.
pub fn act_by(
    rt: &HostRuntime,
    client: &mut Client<'_>,
    act: JobAct,
    jobs: &[u32],
) -> Result<u8, Fault> {
    let clocks = clocks_for_act(rt, client, act)?;
    let mut status = 0;
    for job in jobs {
        let line = act_line(rt.alloc(), clocks, act, *job)?;
        if let Err(fault) = order_act(rt, client, act, *job, line.as_slice()) {
            let fault = explain_job(rt.alloc(), act, *job, client.caller(), fault)?;
            let ended = report_fault(rt, *job, fault)?;
            status = first_failure(status, ended);
        }
    }
    Ok(status)
}

// Applies the action to a job. A service that does not know `stop` gets `cancel` and `end` in its place.
fn order_act(
    rt: &HostRuntime,
    client: &mut Client<'_>,
    act: JobAct,
    job: u32,
    line: &[u8],
) -> Result<(), Fault> {
    let ended = client.order(line);
    if is_stop(act) && is_unknown(&ended) {
        drop(ended);
        return cancel_and_end(rt, client, job);
    }
    if is_resume(act) && is_not_held(&ended) {
        drop(ended);
        return Ok(());
    }
    ended
}

// Returns whether a job that is not held counts as released.
fn is_resume(act: JobAct) -> bool
    ensures { result ≡ is_resume act }
{
    matches!(act, JobAct::Resume)
}

fn is_not_held(ended: &Result<(), Fault>) -> bool
    ensures { result ≡ is_not_held ended.now }
{
    match ended {
        Err(Fault::Refused(text)) => {
            text.as_str() == "error 15 NotHeld" || text.as_str() == "error 11 NotWaiting"
        }
        _ => false,
    }
}

// Returns whether the command of this action is `stop`.
fn is_stop(act: JobAct) -> bool
    ensures { result ≡ is_stop act }
{
    matches!(act, JobAct::Cancel)
}

// Returns whether the service does not know the command.
fn is_unknown(ended: &Result<(), Fault>) -> bool
    ensures { result ≡ is_unknown ended.now }
{
    match ended {
        Err(Fault::Refused(text)) => text.as_str() == "error syntax",
        _ => false,
    }
}

// Cancels a job, and terminates its child if one runs.
fn cancel_and_end(rt: &HostRuntime, client: &mut Client<'_>, job: u32) -> Result<(), Fault> {
    let cancel = job_line(rt.alloc(), "cancel", job)?;
    let end = job_line(rt.alloc(), "end", job)?;
    client.order(cancel.as_slice())?;
    unless_refused(client.order(end.as_slice()))
}

// Returns the result of a command that may be refused.
fn unless_refused(ended: Result<(), Fault>) -> Result<(), Fault>
    ensures { result ≡ unless_refused ended }
{
    if is_refused(&ended) {
        drop(ended);
        return Ok(());
    }
    ended
}

fn is_refused(ended: &Result<(), Fault>) -> bool
    ensures { result ≡ is_refused ended.now }
{
    matches!(ended, Err(Fault::Refused(_)))
}

// Reports why the action failed for a job, and returns the status. Any other fault concerns all jobs.
fn report_fault(rt: &HostRuntime, job: u32, fault: Fault) -> Result<u8, Fault>
    ensures { IfOk result (λ status. status ≡ status_of fault) }
{
    if !matches!(fault, Fault::Explained(_) | Fault::Unknown) {
        return Err(fault);
    }
    let status = fault.status();
    let told = match &fault {
        Fault::Explained(_) => eprintln!(rt; "spool: {fault}"),
        _ => eprintln!(rt; "spool: job {job}: {fault}"),
    };
    drop(fault);
    told?;
    Ok(status)
}

fn act_line(alloc: Global, clocks: Clocks, act: JobAct, job: u32) -> Result<Vec<u8>, AllocError>
    ensures { IfOk result (λ line. line.items ≡ act_line clocks act job) }
{
    match act {
        JobAct::Cancel => job_line(alloc, "stop", job),
        JobAct::CancelOnly => job_line(alloc, "cancel", job),
        JobAct::Resume => job_line(alloc, "release", job),
        JobAct::Plain(act) => job_line(alloc, act.word(), job),
        JobAct::Hold(None) => hold_line(alloc, job, Until::Released),
        JobAct::Hold(Some(moment)) => {
            hold_line(alloc, job, Until::Reached(clocks.second_of(moment)))
        }
    }
}

/// Applies the same action to each of these queues, in their order, up to the first one for which it fails. With `clears` their jobs are
/// canceled too.
pub fn switch_queues(
    rt: &HostRuntime,
    services: Services<'_, '_>,
    names: &[&str],
    act: QueueAct<'_>,
    clears: bool,
) -> Result<u8, Fault> {
    for name in names {
        act_on_queue(rt, services, name, act)?;
    }
    if clears && !names.is_empty() {
        return clear_queues(rt, services, names, None, false);
    }
    Ok(0)
}

/// Applies an action to a queue.
pub fn act_on_queue(
    rt: &HostRuntime,
    services: Services<'_, '_>,
    name: &str,
    act: QueueAct<'_>,
) -> Result<u8, Fault>
    ensures { IfOk result (λ status. status ≡ 0) }
{
    let line = act_text(rt.alloc(), name, act)?;
    let socket = match act {
        QueueAct::Add(_) => only_socket(services)?,
        _ => socket_of(rt, services, name)?,
    };
    let mut client = client_at(rt, services, socket);
    let ended = client.order(line.as_slice());
    drop(client);
    match ended {
        Ok(()) => Ok(0),
        Err(fault) => Err(explain_queue(rt.alloc(), name, act, fault)?),
    }
}

fn act_text(alloc: Global, name: &str, act: QueueAct<'_>) -> Result<Vec<u8>, AllocError>
    ensures { IfOk result (λ line. line.items ≡ queue_act_line name.now act.entry) }
{
    match act {
        QueueAct::Add(queue) => queue_line(alloc, name, queue),
        QueueAct::Set { info, location } => info_line(alloc, name, info, location),
        QueueAct::Accept => name_line(alloc, "accept", name),
        QueueAct::Reject => name_line(alloc, "reject", name),
        QueueAct::Enable => name_line(alloc, "enable", name),
        QueueAct::Disable => name_line(alloc, "disable", name),
    }
}
