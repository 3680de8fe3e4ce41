//! The output of lpstat and lpq.
ghost use Rattle.std.specs.Prelude.{◌≡◌, ◌||◌, IfOk, MatchResult, false, filter, string_bytes, true};
ghost use Rattle.std.specs.List.{list_any};
ghost use Rattle.std.specs.Option.{option_map};
ghost use Rattle.command_lines.specs.CommandGrammar.{is_word};
ghost use Rattle.spool_front.specs.CupsForms.{asks_jobs, asks_lists, asks_queues, asks_service, has_name, has_unknown, is_any_unknown, is_asked, is_known, is_listed};
ghost use Rattle.spool_front.specs.CupsForms.{is_meant, is_named, is_numbered, is_part, is_unknown, is_which, job_id, list_of, lists_jobs, running_line};

use crate::client::Client;
use crate::fault::Fault;
use crate::output::print_bytes;
use crate::services::{Services, all_jobs, all_queues, client_at, queue_of};
use clean_texts::clean;
use front_texts::{
    JobLine, QueueLine, device_in, lpq, lpstat_accepting, lpstat_device, lpstat_jobs, lpstat_names,
    lpstat_printers,
};
use front_words::{Lpq, Lpstat, Which};
use std::alloc::{AllocError, Global};

/// Prints what lpstat was asked for, or the jobs if it was asked for nothing. Whether a service is running is determined without waiting for
/// one.
pub fn show_lpstat(
    rt: &HostRuntime,
    services: Services<'_, '_>,
    asked: &Lpstat<'_>,
) -> Result<u8, Fault>
    ensures { IfOk result (λ status. status ≡ 0) }
{
    if asked.scheduler || asked.all {
        let running = is_running(rt, services)?;
        print_bytes(rt, running_line(running).as_bytes())?;
        if !running {
            return end_without_service(asks_service(asked));
        }
    }
    if asked.server {
        for socket in services.sockets {
            println!(rt; "{}", clean(socket))?;
        }
    }
    report_asked(rt, services, asked)?;
    Ok(0)
}

// Returns whether each service takes a connection.
fn is_running(rt: &HostRuntime, services: Services<'_, '_>) -> Result<bool, Fault> {
    for socket in services.sockets {
        let mut client = Client::new(rt, socket, 0, false);
        let connected = client.connect();
        drop(client);
        if !connected? {
            return Ok(false);
        }
    }
    Ok(true)
}

fn running_line(running: bool) -> &'static str
    ensures { result.now ≡ running_line running }
{
    if running {
        "scheduler is running\n"
    } else {
        "scheduler is not running\n"
    }
}

// Without a service, only the question whether one is running has an answer.
fn end_without_service(asks: bool) -> Result<u8, Fault>
    ensures { MatchResult result (λ status. (status ≡ 0) × (asks ≡ false)) (λ _. asks ≡ true) }
{
    if asks {
        Err(Fault::Words("no service is running"))
    } else {
        Ok(0)
    }
}

fn report_asked(
    rt: &HostRuntime,
    services: Services<'_, '_>,
    asked: &Lpstat<'_>,
) -> Result<(), Fault> {
    if asked.usual || asked.all || asked.summary {
        report_usual(rt, services)?;
    }
    if asked.destinations {
        report_names(rt, services)?;
    }
    if let Some(names) = asked.classes {
        check_classes(rt, names)?;
    }
    if let Some(names) = list_of(asked.devices, asked.all || asked.summary) {
        report_devices(rt, services, names)?;
    }
    if let Some(names) = list_of(asked.accepting, asked.all) {
        report_accepting(rt, services, names)?;
    }
    if let Some(names) = list_of(asked.printers, asked.all) {
        report_printers(rt, services, names, asked.long || asked.described)?;
    }
    if lists_jobs(asked) {
        report_jobs(rt, services, asked)?;
    }
    Ok(())
}

fn report_names(rt: &HostRuntime, services: Services<'_, '_>) -> Result<(), Fault> {
    let queues = all_queues(rt, services)?;
    let text = lpstat_names(rt.alloc(), &queues);
    drop(queues);
    print_bytes(rt, text?.as_slice())?;
    Ok(())
}

// There are no classes, so that none has a name.
fn check_classes(rt: &HostRuntime, names: &str) -> Result<(), Fault> {
    if names.is_empty() {
        return Ok(());
    }
    Err(Fault::Named("no such class:", String::from_str(rt.alloc(), names)?))
}

// Prints the devices of these queues, each from its service.
fn report_devices(rt: &HostRuntime, services: Services<'_, '_>, names: &str) -> Result<(), Fault> {
    drop(queues_named(rt, services, names)?);
    for socket in services.sockets {
        let mut client = client_at(rt, services, socket);
        let printed = print_devices_of(rt, &mut client, names);
        drop(client);
        printed?;
    }
    Ok(())
}

fn print_devices_of(rt: &HostRuntime, client: &mut Client<'_>, names: &str) -> Result<(), Fault> {
    let mut queues = client.queues()?;
    keep_queues(&mut queues, names);
    let printed = print_devices(rt, client, &queues);
    drop(queues);
    printed
}

fn print_devices(
    rt: &HostRuntime,
    client: &mut Client<'_>,
    queues: &[QueueLine],
) -> Result<(), Fault> {
    for queue in queues {
        print_device(rt, client, queue.name.as_str())?;
    }
    Ok(())
}

fn print_device(rt: &HostRuntime, client: &mut Client<'_>, name: &str) -> Result<(), Fault> {
    let Some(answer) = client.queue(name)? else {
        return Err(Fault::Words("the service does not report its devices"));
    };
    let text = lpstat_device(rt.alloc(), name, device_in(&answer.rows));
    drop(answer);
    print_bytes(rt, text?.as_slice())?;
    Ok(())
}

fn report_accepting(
    rt: &HostRuntime,
    services: Services<'_, '_>,
    names: &str,
) -> Result<(), Fault> {
    let queues = queues_named(rt, services, names)?;
    let text = lpstat_accepting(rt.alloc(), &queues);
    drop(queues);
    print_bytes(rt, text?.as_slice())?;
    Ok(())
}

fn report_printers(
    rt: &HostRuntime,
    services: Services<'_, '_>,
    names: &str,
    more: bool,
) -> Result<(), Fault> {
    let queues = queues_named(rt, services, names)?;
    let text = printers_text(rt, services, &queues, more);
    drop(queues);
    print_bytes(rt, text?.as_slice())?;
    Ok(())
}

fn printers_text(
    rt: &HostRuntime,
    services: Services<'_, '_>,
    queues: &[QueueLine],
    more: bool,
) -> Result<Vec<u8>, Fault> {
    let jobs = all_jobs(rt, services)?;
    let text = lpstat_printers(rt.alloc(), queues, &jobs, more);
    drop(jobs);
    Ok(text?)
}

fn report_jobs(
    rt: &HostRuntime,
    services: Services<'_, '_>,
    asked: &Lpstat<'_>,
) -> Result<(), Fault> {
    if let Some(names) = asked.jobs {
        drop(queues_named(rt, services, names)?);
    }
    let jobs = jobs_named(rt, services, asked)?;
    let text = lpstat_jobs(rt.alloc(), &jobs, asked.long);
    drop(jobs);
    print_bytes(rt, text?.as_slice())?;
    Ok(())
}

// Returns the requested names. The empty list means all.
fn list_of<'a>(names: Option<&'a str>, all: bool) -> Option<&'a str>
    ensures { option_map (λ text. text.now) result ≡ list_of (option_map (λ text. text.now) names.entry) all }
{
    match names {
        Some(names) => Some(names),
        None if all => Some(""),
        None => None,
    }
}

// Returns whether jobs were requested, or nothing was.
fn lists_jobs(asked: &Lpstat<'_>) -> bool
    ensures { result ≡ lists_jobs asked.now }
{
    asks_jobs(asked) || !(asked.scheduler || asked.server || asks_queues(asked))
}

// Returns whether anything but the service and its socket was requested.
fn asks_service(asked: &Lpstat<'_>) -> bool
    ensures { result ≡ asks_service asked.now }
{
    asks_jobs(asked) || asks_queues(asked)
}

fn asks_jobs(asked: &Lpstat<'_>) -> bool
    ensures { result ≡ asks_jobs asked.now }
{
    asked.all || asked.jobs.is_some() || asked.users.is_some() || !asked.names.is_empty()
}

fn asks_queues(asked: &Lpstat<'_>) -> bool
    ensures { result ≡ asks_queues asked.now }
{
    asks_lists(asked)
        || asked.usual
        || asked.summary
        || asked.destinations
        || asked.classes.is_some()
}

fn asks_lists(asked: &Lpstat<'_>) -> bool
    ensures { result ≡ asks_lists asked.now }
{
    asked.accepting.is_some() || asked.printers.is_some() || asked.devices.is_some()
}

// Returns whether a name is in a list, whose names are separated by commas or blanks. The empty list contains all names.
fn has_name(names: &str, name: &str) -> bool
    ensures { result ≡ has_name names.now name.now }
{
    names.is_empty() || is_part(names.as_bytes(), name.as_bytes())
}

fn is_part(names: &[u8], name: &[u8]) -> bool
    ensures { result ≡ is_part names.now name.now }
{
    names
        .split(|b| *b == b',' || *b == b' ')
        .any(|part| part == name)
}

fn queues_named(
    rt: &HostRuntime,
    services: Services<'_, '_>,
    names: &str,
) -> Result<Vec<QueueLine>, Fault> {
    let mut queues = all_queues(rt, services)?;
    if has_unknown(names, &queues) {
        drop(queues);
        return Err(Fault::Named(
            "no such queue in the list:",
            String::from_str(rt.alloc(), names)?,
        ));
    }
    keep_queues(&mut queues, names);
    Ok(queues)
}

// Returns whether a name in a list is that of no queue. The empty list contains no name.
fn has_unknown(names: &str, queues: &[QueueLine]) -> bool
    ensures { result ≡ has_unknown names.now queues.now }
{
    !names.is_empty() && is_any_unknown(names.as_bytes(), queues)
}

fn is_any_unknown(names: &[u8], queues: &[QueueLine]) -> bool
    ensures { result ≡ is_any_unknown names.now queues.now }
{
    names
        .split(|b| *b == b',' || *b == b' ')
        .any(|part| is_unknown(part, queues))
}

fn is_unknown(name: &[u8], queues: &[QueueLine]) -> bool
    ensures { result ≡ is_unknown queues.now name.now }
{
    !name.is_empty() && !is_known(name, queues)
}

fn is_known(name: &[u8], queues: &[QueueLine]) -> bool
    ensures { result ≡ is_known queues.now name.now }
{
    queues
        .iter()
        .any(|queue| queue.name.as_str().as_bytes() == name)
}

fn keep_queues(queues: &mut Vec<QueueLine>, names: &str)
    ensures { queues.new.items ≡ filter (λ queue. has_name names.now queue.name) queues.old.items }
{
    queues.retain(|queue| has_name(names, queue.name.as_str()));
}

fn jobs_named(
    rt: &HostRuntime,
    services: Services<'_, '_>,
    asked: &Lpstat<'_>,
) -> Result<Vec<JobLine>, Fault> {
    let mut jobs = named_jobs(rt.alloc(), all_jobs(rt, services)?, asked)?;
    keep_asked(&mut jobs, asked);
    Ok(jobs)
}

// Retains the jobs that -W and -u ask for.
fn keep_asked(jobs: &mut Vec<JobLine>, asked: &Lpstat<'_>)
    ensures { jobs.new.items ≡ filter (is_asked asked.now) jobs.old.items }
{
    jobs.retain(|job| is_asked(asked, job));
}

fn is_asked(asked: &Lpstat<'_>, job: &JobLine) -> bool
    ensures { result ≡ is_asked asked.now job.now }
{
    is_which(asked.which, job) && has_name(asked.users.unwrap_or(""), job.user.as_str())
}

fn is_which(which: Which, job: &JobLine) -> bool
    ensures { result ≡ is_which which job.now }
{
    match which {
        Which::NotCompleted => !job.has_ended(),
        Which::Completed => job.has_ended(),
        Which::All => true,
    }
}

fn named_jobs(
    alloc: Global,
    jobs: Vec<JobLine>,
    asked: &Lpstat<'_>,
) -> Result<Vec<JobLine>, AllocError>
    ensures { IfOk result (λ named. named.items ≡ filter (is_named asked.now) jobs.items) }
{
    let mut named = Vec::new(alloc);
    for job in jobs {
        if is_named(alloc, asked, &job)? {
            named.push(job)?;
        }
    }
    Ok(named)
}

// Returns whether a job was requested, by its queue or by its id.
fn is_named(alloc: Global, asked: &Lpstat<'_>, job: &JobLine) -> Result<bool, AllocError>
    ensures { IfOk result (λ named. named ≡ is_named asked.now job.now) }
{
    let id = job_id(alloc, job)?;
    let queue = job.queue.as_str();
    if asked.names.is_empty() {
        let names = asked.jobs.unwrap_or("");
        return Ok(has_either(names, queue, id.as_str()));
    }
    Ok(is_in_any(asked.names.as_slice(), queue, id.as_str()))
}

fn is_in_any(lists: &[&str], queue: &str, id: &str) -> bool
    ensures { result ≡ list_any (λ names. has_name names.now queue.now || has_name names.now id.now) lists.now }
{
    lists.iter().any(|names| has_either(names, queue, id))
}

fn has_either(names: &str, queue: &str, id: &str) -> bool
    ensures { result ≡ (has_name names.now queue.now || has_name names.now id.now) }
{
    has_name(names, queue) || has_name(names, id)
}

fn job_id(alloc: Global, job: &JobLine) -> Result<String, AllocError>
    ensures { IfOk result (λ id. string_bytes id ≡ job_id job.now) }
{
    let queue = job.queue.as_str();
    let number = job.number.get();
    let id = format!(in alloc; "{queue}-{number}")?;
    Ok(id)
}

fn report_usual(rt: &HostRuntime, services: Services<'_, '_>) -> Result<(), Fault> {
    let told = match queue_of(rt, services, None) {
        Ok((_, queue)) => println!(rt; "system default destination: {}", clean(queue.as_str())),
        Err(Fault::Words(_)) => println!(rt; "no system default destination"),
        Err(fault) => return Err(fault),
    };
    told?;
    Ok(())
}

/// Prints what lpq was asked for.
pub fn show_lpq(rt: &HostRuntime, services: Services<'_, '_>, asked: &Lpq<'_>) -> Result<u8, Fault>
    ensures { IfOk result (λ status. status ≡ 0) }
{
    let queues = all_queues(rt, services)?;
    let found = report_queues(rt, services, asked, &queues);
    drop(queues);
    if found? || asked.all {
        return Ok(0);
    }
    Err(Fault::Words("no such queue"))
}

// Prints each requested queue with its jobs. Returns whether there is one.
fn report_queues(
    rt: &HostRuntime,
    services: Services<'_, '_>,
    asked: &Lpq<'_>,
    queues: &[QueueLine],
) -> Result<bool, Fault> {
    let mut jobs = all_jobs(rt, services)?;
    keep_listed(&mut jobs, asked);
    let found = report_meant(rt, services, asked, queues, &jobs);
    drop(jobs);
    found
}

fn report_meant(
    rt: &HostRuntime,
    services: Services<'_, '_>,
    asked: &Lpq<'_>,
    queues: &[QueueLine],
    jobs: &[JobLine],
) -> Result<bool, Fault> {
    let name = if asked.all {
        None
    } else {
        let (_, name) = queue_of(rt, services, asked.queue)?;
        Some(name)
    };
    print_meant(rt, &name, queues, jobs, asked.long)
}

fn print_meant(
    rt: &HostRuntime,
    name: &Option<String>,
    queues: &[QueueLine],
    jobs: &[JobLine],
    long: bool,
) -> Result<bool, Fault>
    ensures { IfOk result (λ found. found ≡ list_any (is_meant name.now) queues.now) }
{
    let mut found = false;
    for queue in queues {
        if is_meant(name, queue) {
            found = true;
            print_bytes(rt, lpq(rt.alloc(), queue, jobs, long)?.as_slice())?;
        }
    }
    Ok(found)
}

// Returns whether a queue was requested. Without a name all are.
fn is_meant(name: &Option<String>, queue: &QueueLine) -> bool
    ensures { result ≡ is_meant name.now queue.now }
{
    match name {
        Some(name) => name.as_str() == queue.name.as_str(),
        None => true,
    }
}

// Retains the jobs with the numbers and of the users that were named, or all if nothing was named.
fn keep_listed(jobs: &mut Vec<JobLine>, asked: &Lpq<'_>)
    ensures { jobs.new.items ≡ filter (is_listed asked.now) jobs.old.items }
{
    jobs.retain(|job| is_listed(asked, job));
}

fn is_listed(asked: &Lpq<'_>, job: &JobLine) -> bool
    ensures { result ≡ is_listed asked.now job.now }
{
    if asked.jobs.is_empty() && asked.users.is_empty() {
        return true;
    }
    is_numbered(asked.jobs.as_slice(), job) || is_of_any(asked.users.as_slice(), job)
}

fn is_numbered(numbers: &[u32], job: &JobLine) -> bool
    ensures { result ≡ is_numbered numbers.now job.now }
{
    numbers.contains(&job.number.get())
}

fn is_of_any(users: &[&str], job: &JobLine) -> bool
    ensures { result ≡ list_any (λ user. is_word user.now job.now.user) users.now }
{
    users.iter().any(|user| *user == job.user.as_str())
}
