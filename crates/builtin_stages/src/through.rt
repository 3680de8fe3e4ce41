//! The backend `through`, which prints by a chain of programs (`program_pipes`).
//!
//! The last filters of a document and the real backend run at the same time, joined by pipes, so that the raster of a page is not kept. The
//! file of the chain belongs to the administrator: a URI, which each person who may add a queue chooses, names no program.
ghost use Rattle.std.specs.Prelude.{◌≡◌, map, IfOk};
ghost use Rattle.std.specs.String.{string_bytes};
ghost use Rattle.std.specs.Process.{exit_status};
ghost use Rattle.builtin_stages.specs.ToolEnding.{ReportsThrough, TellsText, TellsThrough, ThroughEnds, unstarted_line};

use crate::backends::variable;
use crate::ends::report_end;
use crate::fault::ToolFault;
use program_lists::{ListFault, ProgramList};
use program_pipes::{
    ChainEnd, ChainFault, Print, backend_uri, chain_of, chain_status, report_of, run_chain,
};
use std::alloc::{AllocError, Global};
use std::fs;
use std::fs::{File, Files};
use std::io::{ErrorKind, Write};
use std::process::{ExitCode, Processes};
use std::rt::Env;
use whole_writes::write_whole;

/// How a chain ended.
#[derive(Drop)]
pub(crate) enum ThroughEnd<'a> {
    /// All its programs ran.
    Ran(ChainEnd<'a>),
    /// The program of this name cannot be started.
    NotStarted(&'a str),
    /// None was started.
    Failed(ToolFault),
}

/// Prints by the chain in a file, with the arguments of a job, and returns the exit status. Without arguments it lists no devices.
pub(crate) fn run_through<H: Files<File = File> + Env + Processes + AllocGlobal, E: Write>(
    rt: &H,
    file: &str,
    words: &[String],
    errors: &mut E,
) -> ExitCode
    ensures { ThroughEnds file.now (map string_bytes words.now) (E.contents errors.old) (E.contents errors.new) (exit_status result) }
{
    match words.split_first() {
        Some(_) => run_job(rt, file, words, errors),
        None => ExitCode::SUCCESS,
    }
}

// Prints by the chain in the file, reports how it ended, and returns the exit status.
fn run_job<H: Files<File = File> + Env + Processes + AllocGlobal, E: Write>(
    rt: &H,
    file: &str,
    words: &[String],
    errors: &mut E,
) -> ExitCode
    ensures { TellsThrough file.now (E.contents errors.old) (E.contents errors.new) (exit_status result) }
{
    let chain = read_chain(rt, file);
    let end = run_chain_of(rt, &chain, words);
    report_through(rt.alloc(), errors, file, &end)
}

// Runs a chain that was read.
fn run_chain_of<'a, H: Files<File = File> + Processes + AllocGlobal>(
    rt: &H,
    chain: &'a Result<(ProgramList, String), ToolFault>,
    words: &'a [String],
) -> ThroughEnd<'a> {
    match chain {
        Ok((list, uri)) => run_list(rt, list, words, uri.as_str()),
        Err(fault) => ThroughEnd::Failed(*fault),
    }
}

// Reads the programs in the file, and returns them with the URI of the device for their backend.
fn read_chain<H: Files<File = File> + Env + AllocGlobal>(
    rt: &H,
    file: &str,
) -> Result<(ProgramList, String), ToolFault> {
    let list = read_list(rt, file)?;
    let uri = given_uri(rt, &list)?;
    Ok((list, uri))
}

fn read_list<H: Files<File = File> + AllocGlobal>(
    rt: &H,
    file: &str,
) -> Result<ProgramList, ToolFault> {
    let text = match fs::read_to_string(rt, file) {
        Ok(text) => text,
        Err(error) if error.kind() == ErrorKind::OutOfMemory => return Err(ToolFault::Memory),
        Err(error) => return Err(ToolFault::ChainFile(error)),
    };
    match ProgramList::read(rt.alloc(), text.as_str()) {
        Ok(list) => Ok(list),
        Err(ListFault::Unread) => Err(ToolFault::Chain),
        Err(ListFault::Memory) => Err(ToolFault::Memory),
    }
}

// Returns the URI of the device for the backend of a chain.
fn given_uri<H: Env + AllocGlobal>(rt: &H, list: &ProgramList) -> Result<String, ToolFault> {
    let Some(chain) = chain_of(list) else {
        return Err(ToolFault::Chain);
    };
    let uri = variable(rt, "DEVICE_URI")?;
    match backend_uri(rt.alloc(), chain.backend.name.as_str(), uri.as_str())? {
        Some(uri) => Ok(uri),
        None => Err(ToolFault::Device),
    }
}

// Runs the chain of these programs.
fn run_list<'a, H: Files<File = File> + Processes + AllocGlobal>(
    rt: &H,
    list: &'a ProgramList,
    words: &'a [String],
    uri: &'a str,
) -> ThroughEnd<'a> {
    let Some(chain) = chain_of(list) else {
        return ThroughEnd::Failed(ToolFault::Chain);
    };
    match run_chain(rt, Print { chain, words, uri }) {
        Ok(end) => ThroughEnd::Ran(end),
        Err(ChainFault::NotStarted(name)) => ThroughEnd::NotStarted(name),
        Err(ChainFault::Memory) => ThroughEnd::Failed(ToolFault::Memory),
    }
}

// Reports how the chain in a file ended, and returns the exit status. If a line cannot be made or written, only the status reports it.
fn report_through<E: Write>(
    alloc: Global,
    errors: &mut E,
    file: &str,
    end: &ThroughEnd<'_>,
) -> ExitCode
    ensures { ReportsThrough end.now file.now (E.contents errors.old) (E.contents errors.new) (exit_status result) }
{
    match end {
        ThroughEnd::Ran(end) => {
            if let Ok(text) = report_of(alloc, end) {
                let _ = write_whole(errors, text.as_bytes());
            }
            ExitCode::from(chain_status(end))
        }
        ThroughEnd::NotStarted(name) => {
            report_unstarted(alloc, errors, name);
            ExitCode::FAILURE
        }
        ThroughEnd::Failed(fault) => report_end(alloc, errors, file, Err(*fault)),
    }
}

// Reports a program that cannot be started.
fn report_unstarted<E: Write>(alloc: Global, errors: &mut E, name: &str)
    ensures { TellsText (unstarted_line name.now) (E.contents errors.old) (E.contents errors.new) }
{
    if let Ok(line) = unstarted_line(alloc, name) {
        let _ = write_whole(errors, line.as_bytes());
    }
}

#[tactic(auto, unfolding(crate::specs::ToolEnding::unstarted_line))]
fn unstarted_line(alloc: Global, name: &str) -> Result<String, AllocError>
    ensures { IfOk result (λ line. string_bytes line ≡ unstarted_line name.now) }
{
    let line = format!(in alloc; "ERROR: cannot start {name}\n")?;
    Ok(line)
}
