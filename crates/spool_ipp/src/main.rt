//! The IPP front: prints the documents of IPP clients through the service.
//!
//! Arguments: `--service SOCKET [--listen ADDRESS:PORT] [--socket SOCKET] [--operators-socket SOCKET] [--printers FILE] [--convs FILE]
//! [--default QUEUE] [--name HOST] [--behind-tls] [--end FILE]`, or `--version` ([`words`]).
//!
//! # Parts
//!
//! `ipp_loop` contains the loop, which knows no socket and no clock. This crate implements its traits:
//!
//! - [`words`]: the arguments, and the files that they name.
//! - [`names`]: removes a socket that no program serves, so that its name is free.
//! - [`sockets`]: the listening sockets, the connections of clients and that to the service. One is watched for writing only while output
//!   waits: after a write that can take nothing now it is (`waits` of `MioStream::write`).
//! - [`clocks`]: the clocks of the system, and its random numbers.
//!
//! # Errors
//!
//! A line on standard error and status 1, or status 2 for invalid arguments. The line says which file or socket cannot be used, and why
//! ([`fault`]).
#![tactic(auto)]

mod clocks;
mod fault;
mod names;
mod sockets;
mod words;

use clocks::SystemTimes;
use fault::StartFault;
use ipp_loop::Front;
use ipp_sockets::Times;
use mio::Poll;
use program_version::VERSION;
use sockets::MioSockets;
use std::process::ExitCode;
use std::{env, io};
use system_reasons::reason_of;
use words::{Mistake, Words, read_words, world_of};

fn main(rt: HostRuntime) -> ExitCode {
    let given = match given_words(&rt) {
        Ok(given) => given,
        Err(error) => return failed(&rt, &StartFault::System(error)),
    };
    if is_version(given.as_slice()) {
        let _ = println!(rt; "spool_ipp {VERSION}");
        return ExitCode::SUCCESS;
    }
    match read_words(given.as_slice()) {
        Ok(words) => match run(&rt, &words) {
            Ok(()) => ExitCode::SUCCESS,
            Err(fault) => failed(&rt, &fault),
        },
        Err(mistake) => {
            report(&rt, mistake);
            ExitCode::from(2)
        }
    }
}

// Returns the arguments, without the name of the program.
fn given_words(rt: &HostRuntime) -> io::Result<Vec<String>> {
    let mut given = env::args(rt)?;
    let _ = given.next();
    Ok(given.collect(rt.alloc())?)
}

fn is_version(given: &[String]) -> bool {
    match given {
        [word] => word.as_str() == "--version",
        _ => false,
    }
}

// Reports invalid arguments.
fn report(rt: &HostRuntime, mistake: Mistake<'_>) {
    let _ = match mistake {
        Mistake::Unknown { option } => eprintln!(rt; "spool_ipp: unknown option: {option}"),
        Mistake::NoAddress { value } => {
            eprintln!(rt;
                "spool_ipp: --listen {value}: expected ADDRESS:PORT, such as 127.0.0.1:631 or [::1]:631"
            )
        }
        Mistake::NoValue { option } => eprintln!(rt; "spool_ipp: {option} needs a value"),
        Mistake::NoService => eprintln!(rt; "spool_ipp: --service SOCKET is required"),
    };
}

// Reports why the program cannot go on.
fn failed(rt: &HostRuntime, fault: &StartFault) -> ExitCode {
    match fault {
        StartFault::System(error) => report_error(rt, error),
        StartFault::Told(text) => {
            let text = text.as_str();
            let _ = eprintln!(rt; "spool_ipp: {text}");
        }
    }
    ExitCode::FAILURE
}

// Reports an error of the system. If memory is out, its number is printed too.
fn report_error(rt: &HostRuntime, error: &io::Error) {
    let _ = match reason_of(rt.alloc(), error) {
        Ok(reason) => {
            let reason = reason.as_str();
            eprintln!(rt; "spool_ipp: {reason}")
        }
        Err(_) => eprintln!(rt; "spool_ipp: {error}"),
    };
}

fn run(rt: &HostRuntime, words: &Words<'_>) -> Result<(), StartFault> {
    let mut times = SystemTimes::new(rt);
    let seconds = times.seconds();
    let world = world_of(rt, words, seconds)?;
    let poll = Poll::new(rt)?;
    let registry = poll.registry().try_clone()?;
    let mut sockets = MioSockets::new(rt, words, poll, &registry)?;
    let millis = times.millis();
    let mut front = Front::new(rt.alloc(), world, millis)?;
    front.serve(&mut sockets, &mut times)?;
    Ok(())
}
