//! The choice of services and queues.
ghost use Rattle.std.specs.Prelude.{◌≡◌, ◌≢◌, ◌*◌, IfErr, IfOk, IfSome, IsOk, None, OnOk, [], ◌∷◌, ◌++◌, length, map, string_bytes, true};
ghost use Rattle.std.specs.List.{Contains};
ghost use Rattle.spool_front.specs.QueueChoice.{has_queue, noted, place_at, queue_in};
ghost use Rattle.spool_front.specs.EnvironmentValues.{IsNumberOr};

use crate::client::Client;
use crate::commands::has_control;
use crate::defaults::stored_queue;
use crate::fault::Fault;
use crate::host::{number_or, variable, variable_or};
use front_texts::{AgedJob, JobLine, QueueLine};
use std::alloc::{AllocError, Global};

// The default socket, and the default patience in seconds.
const USUAL_SOCKET: &str = "/run/cegmandi/spool.sock";

const USUAL_PATIENCE: u64 = 30;

const MOST_PATIENCE: u64 = 4_294_967_295;

/// The sockets of the services, at least one, and how long to wait for each, in seconds.
#[derive(Clone, Copy)]
pub struct Services<'p, 'a> {
    pub sockets: &'p [&'a str],
    pub patience: u32,
}

/// Returns the socket of the environment, or the default.
pub fn usual_socket(rt: &HostRuntime) -> Result<String, AllocError> {
    variable_or(rt, "SPOOL_SOCKET", USUAL_SOCKET)
}

/// Returns how long to wait for a service, in seconds.
pub fn patience(rt: &HostRuntime) -> Result<u32, AllocError> {
    let told = variable(rt, "SPOOL_PATIENCE")?;
    Ok(patience_in(&told))
}

fn patience_in(told: &Option<String>) -> u32
    ensures { IsNumberOr 4294967295 30 told.now result }
{
    number_or(told, MOST_PATIENCE, USUAL_PATIENCE) as u32
}

/// Returns a client of the service at a socket, which proves who it is.
pub fn client_at<'a>(rt: &'a HostRuntime, services: Services<'_, '_>, socket: &'a str) -> Client<'a>
    ensures patience { result.pauses ≡ services.entry.patience * 10 }
    ensures proves { result.proves ≡ true }
    ensures socket { result.socket.now ≡ socket.now }
{
    Client::new(rt, socket, services.patience, true)
}

/// Returns the socket of the only service. A job number is ambiguous if there are several services.
pub fn only_socket<'a>(services: Services<'_, 'a>) -> Result<&'a str, Fault>
    ensures one { IfOk result (λ socket. map (λ service. service.now) services.entry.sockets.now ≡ socket.now ∷ []) }
    ensures others { IfErr result (λ _. length services.entry.sockets.now ≢ 1) }
{
    match services.sockets {
        [socket] => Ok(*socket),
        _ => Err(Fault::Words("this task needs exactly one --socket")),
    }
}

/// Returns the queues of the service at a socket, without a proof of who asks: names and states are the same for all clients.
pub fn queues_at(
    rt: &HostRuntime,
    services: Services<'_, '_>,
    socket: &str,
) -> Result<Vec<QueueLine>, Fault> {
    let mut client = Client::new(rt, socket, services.patience, false);
    let queues = client.queues();
    drop(client);
    queues
}

// Returns the queues of the service at a socket, with the messages that are shown to the user who asks.
fn shown_queues_at(
    rt: &HostRuntime,
    services: Services<'_, '_>,
    socket: &str,
) -> Result<Vec<QueueLine>, Fault> {
    let mut client = client_at(rt, services, socket);
    let queues = client.queues();
    drop(client);
    queues
}

/// Returns the queues of all services, with the messages that are shown to the user who asks.
pub fn all_queues(rt: &HostRuntime, services: Services<'_, '_>) -> Result<Vec<QueueLine>, Fault> {
    let mut queues = Vec::new(rt.alloc());
    for socket in services.sockets {
        for queue in shown_queues_at(rt, services, socket)? {
            queues.push(queue)?;
        }
    }
    Ok(queues)
}

/// Returns the jobs of all services.
pub fn all_jobs(rt: &HostRuntime, services: Services<'_, '_>) -> Result<Vec<JobLine>, Fault> {
    let mut jobs = Vec::new(rt.alloc());
    for socket in services.sockets {
        for job in jobs_at(rt, services, socket)? {
            jobs.push(job)?;
        }
    }
    Ok(jobs)
}

/// Returns the jobs of all services with their ages.
pub fn all_aged_jobs(rt: &HostRuntime, services: Services<'_, '_>) -> Result<Vec<AgedJob>, Fault> {
    let mut jobs = Vec::new(rt.alloc());
    for socket in services.sockets {
        for job in aged_jobs_at(rt, services, socket)? {
            jobs.push(job)?;
        }
    }
    Ok(jobs)
}

fn aged_jobs_at(
    rt: &HostRuntime,
    services: Services<'_, '_>,
    socket: &str,
) -> Result<Vec<AgedJob>, Fault> {
    let mut client = client_at(rt, services, socket);
    let jobs = client.aged_jobs();
    drop(client);
    jobs
}

fn jobs_at(
    rt: &HostRuntime,
    services: Services<'_, '_>,
    socket: &str,
) -> Result<Vec<JobLine>, Fault> {
    let mut client = client_at(rt, services, socket);
    let jobs = client.jobs();
    drop(client);
    jobs
}

/// Returns the socket and the name of the requested queue: the named one, that of the environment, the stored default, or the only one.
pub fn queue_of<'a>(
    rt: &HostRuntime,
    services: Services<'_, 'a>,
    queue: Option<&str>,
) -> Result<(&'a str, String), Fault>
    ensures socket { IfOk result (λ service. Contains (map (λ socket. socket.now) services.entry.sockets.now) service.0.now) }
    ensures named { IfOk result (λ service. IfSome queue.entry (λ name. string_bytes service.1 ≡ name.now)) }
{
    let alloc = rt.alloc();
    if let Some(queue) = queue {
        return place_of(rt, services, String::from_str(alloc, queue)?);
    }
    match usual_queue(rt)? {
        Some(queue) => place_of(rt, services, queue),
        None => only_queue(rt, services),
    }
}

// Returns the queue of the environment, or the stored default.
fn usual_queue(rt: &HostRuntime) -> Result<Option<String>, Fault> {
    let lpdest = variable(rt, "LPDEST")?;
    let printer = variable(rt, "PRINTER")?;
    let Some(queue) = queue_in(lpdest, printer) else {
        return stored_queue(rt);
    };
    if has_control(queue.as_str()) {
        drop(queue);
        return Err(Fault::Words("the queue in LPDEST or PRINTER contains a control character"));
    }
    Ok(Some(queue))
}

// Returns the queue of LPDEST, or else that of PRINTER. `lp` in PRINTER names no queue.
fn queue_in(lpdest: Option<String>, printer: Option<String>) -> Option<String>
    ensures { result ≡ queue_in lpdest printer }
{
    match lpdest {
        Some(queue) => Some(queue),
        None => printer_queue(printer),
    }
}

fn printer_queue(printer: Option<String>) -> Option<String>
    ensures { result ≡ queue_in None printer }
{
    let Some(queue) = printer else {
        return None;
    };
    if queue.as_str() == "lp" {
        drop(queue);
        return None;
    }
    Some(queue)
}

fn place_of<'a>(
    rt: &HostRuntime,
    services: Services<'_, 'a>,
    queue: String,
) -> Result<(&'a str, String), Fault>
    ensures socket { IfOk result (λ service. Contains (map (λ socket. socket.now) services.entry.sockets.now) service.0.now) }
    ensures queue { IfOk result (λ service. service.1 ≡ queue) }
{
    let socket = socket_of(rt, services, queue.as_str())?;
    Ok((socket, queue))
}

/// Returns the socket of the service that has this queue. If there is only one service, it is not asked.
pub fn socket_of<'a>(
    rt: &HostRuntime,
    services: Services<'_, 'a>,
    queue: &str,
) -> Result<&'a str, Fault>
    ensures socket { IfOk result (λ socket. Contains (map (λ service. service.now) services.entry.sockets.now) socket.now) }
    ensures alone { length services.entry.sockets.now ≡ 1 → IsOk result }
{
    if let [socket] = services.sockets {
        return Ok(*socket);
    }
    for socket in services.sockets {
        if has_queue(&queues_at(rt, services, socket)?, queue) {
            return Ok(*socket);
        }
    }
    Err(Fault::Named("no service has queue", String::from_str(rt.alloc(), queue)?))
}

/// Returns whether a queue has this name.
pub fn has_queue(queues: &[QueueLine], name: &str) -> bool
    ensures { result ≡ has_queue queues.now name.now }
{
    queues.iter().any(|row| row.name.as_str() == name)
}

fn only_queue<'a>(rt: &HostRuntime, services: Services<'_, 'a>) -> Result<(&'a str, String), Fault>
    ensures { IfOk result (λ service. Contains (map (λ socket. socket.now) services.entry.sockets.now) service.0.now) }
{
    let mut only = None;
    for socket in services.sockets {
        note_only(
            rt.alloc(),
            socket,
            &queues_at(rt, services, socket)?,
            &mut only,
        )?;
    }
    match only {
        Some(service) => Ok(service),
        None => Err(Fault::Words("no queue exists")),
    }
}

// Stores the queue of a service if it is the only one.
fn note_only<'a>(
    alloc: Global,
    socket: &'a str,
    queues: &[QueueLine],
    only: &mut Option<(&'a str, String)>,
) -> Result<(), Fault>
    ensures { OnOk result (noted only.new (λ service. service.now) ≡ noted only.old (λ service. service.now) ++ map (place_at socket.now) queues.now) }
{
    for row in queues {
        if only.is_some() {
            return Err(Fault::Words("no queue is given, and there are several"));
        }
        *only = Some((socket, String::from_str(alloc, row.name.as_str())?));
    }
    Ok(())
}
