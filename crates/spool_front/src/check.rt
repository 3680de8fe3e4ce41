//! The check of programs, services and queues.
ghost use Rattle.std.specs.Prelude.{◌≡◌, ◌⊎◌, IfOk, string_bytes};
ghost use Rattle.std.specs.Option.{option_map};
ghost use Rattle.std.specs.List.{list_all, list_any};
ghost use Rattle.spool_front.specs.ReachableTypes.{leads};
ghost use Rattle.spool_front.specs.Checks.{hindrance_of, prints, why_not};

use crate::chains::{Chains, read_chains};
use crate::fault::Fault;
use crate::json_lines::{print_json, printing_json, running_json};
use crate::programs::report_programs;
use crate::services::{Services, queues_at};
use clean_texts::clean;
use front_texts::{PrinterState, QueueLine};
use std::alloc::{AllocError, Global};

/// Why a queue cannot print documents.
#[derive(Clone, Copy)]
pub enum Hindrance {
    /// No chain of filters converts to the type of its printer.
    NoChain,
    /// The queue is stopped.
    Stopped,
    /// The queue rejects jobs.
    Rejecting,
}

/// Prints each program that cannot be run, each service that is running, and whether each queue can print. The status is 0 if there is no
/// problem, and otherwise 1.
pub fn check(rt: &HostRuntime, services: Services<'_, '_>, json: bool) -> Result<u8, Fault>
    ensures { IfOk result (λ status. (status ≡ 0) ⊎ (status ≡ 1)) }
{
    let run = report_programs(rt, json)?;
    let chains = read_chains(rt)?;
    let print = report_services(rt, services, &chains, json);
    drop(chains);
    if print? && run { Ok(0) } else { Ok(1) }
}

// Returns whether all queues of all services can print, and prints it for each.
fn report_services(
    rt: &HostRuntime,
    services: Services<'_, '_>,
    chains: &Chains,
    json: bool,
) -> Result<bool, Fault> {
    let mut all = true;
    for socket in services.sockets {
        let printing = report_service(rt, services, socket, chains, json)?;
        all = all && printing;
    }
    Ok(all)
}

fn report_service(
    rt: &HostRuntime,
    services: Services<'_, '_>,
    socket: &str,
    chains: &Chains,
    json: bool,
) -> Result<bool, Fault> {
    let queues = queues_at(rt, services, socket)?;
    report_running(rt, socket, json)?;
    let all = report_queues(rt, chains, &queues, json);
    drop(queues);
    all
}

fn report_running(rt: &HostRuntime, socket: &str, json: bool) -> Result<(), Fault> {
    if json {
        return print_json(rt, running_json(rt.alloc(), socket)?);
    }
    println!(rt; "service {} is running", clean(socket))?;
    Ok(())
}

fn report_queues(
    rt: &HostRuntime,
    chains: &Chains,
    queues: &[QueueLine],
    json: bool,
) -> Result<bool, Fault>
    ensures { IfOk result (λ all. all ≡ list_all (prints chains.now) queues.now) }
{
    let mut all = true;
    for queue in queues {
        let hindrance = hindrance_of(chains, queue)?;
        report_queue(rt, queue, hindrance, json)?;
        all = all && hindrance.is_none();
    }
    Ok(all)
}

fn hindrance_of(chains: &Chains, queue: &QueueLine) -> Result<Option<Hindrance>, AllocError>
    ensures { IfOk result (λ found. found ≡ hindrance_of (list_any (leads chains.now.convs queue.now.target) chains.now.kinds.items) queue.now.state queue.now.accepting) }
{
    if !chains.lead_to(&queue.target)? {
        return Ok(Some(Hindrance::NoChain));
    }
    if matches!(queue.state, PrinterState::Stopped) {
        return Ok(Some(Hindrance::Stopped));
    }
    if !queue.accepting {
        return Ok(Some(Hindrance::Rejecting));
    }
    Ok(None)
}

fn report_queue(
    rt: &HostRuntime,
    queue: &QueueLine,
    hindrance: Option<Hindrance>,
    json: bool,
) -> Result<(), Fault> {
    let name = queue.name.as_str();
    let target = queue.target.as_str();
    if json {
        let why = why_not(rt.alloc(), target, hindrance)?;
        let why = why.as_ref().map(|why| why.as_str());
        return print_json(rt, printing_json(rt.alloc(), name, why)?);
    }
    match why_not(rt.alloc(), target, hindrance)? {
        Some(why) => println!(rt; "queue {name} {why}")?,
        None => println!(rt; "queue {name} prints {target}")?,
    }
    Ok(())
}

// Returns why a queue with this type cannot print.
fn why_not(
    alloc: Global,
    target: &str,
    hindrance: Option<Hindrance>,
) -> Result<Option<String>, AllocError>
    ensures { IfOk result (λ why. option_map string_bytes why ≡ why_not target.now hindrance) }
{
    let Some(hindrance) = hindrance else {
        return Ok(None);
    };
    let text = match hindrance {
        Hindrance::NoChain => {
            format!(in alloc; "cannot print: no chain of filters converts to {target}")?
        }
        Hindrance::Stopped => String::from_str(alloc, "is stopped")?,
        Hindrance::Rejecting => String::from_str(alloc, "rejects jobs")?,
    };
    Ok(Some(text))
}
