//! Runs the programs of a chain.
ghost use Rattle.std.specs.Prelude.{◌≡◌, map, IfOk};
ghost use Rattle.program_pipes.specs.declared.running.ChainFault.TheVariants.{Memory};
ghost use Rattle.program_pipes.specs.ChainRuns.{HasNamesOf, names_of};

use crate::chain::Chain;
use crate::command::program_command;
use crate::ends::{ChainEnd, Ended, FilterEnd, ended_by};
use program_lists::{ListedFilter, ListedProgram};
use std::alloc::{AllocError, Global};
use std::fs::{File, Files};
use std::os::unix::fs::PermissionsExt;
use std::process::{Child, OpenProcess, Processes, Stdio};
use std::{fs, io};

/// A document that a chain prints.
#[derive(Clone, Copy)]
pub struct Print<'a> {
    pub chain: Chain<'a>,
    /// The five or six arguments of the job (filter(7)).
    pub words: &'a [String],
    /// The URI of the device, with the scheme of the chain's backend.
    pub uri: &'a str,
}

/// Why a chain did not run.
#[derive(Clone, Copy)]
pub enum ChainFault<'a> {
    /// The program of this name cannot be started.
    NotStarted(&'a str),
    /// Memory ran out.
    Memory,
}

impl<'a> From<AllocError> for ChainFault<'a> {
    ghost from_gives = { λ _ fault. fault ≡ Memory };

    fn from(_error: AllocError) -> ChainFault<'a> {
        ChainFault::Memory
    }
}

/// Runs the programs of a chain, and waits until all have ended. If one cannot be started, it kills those before it.
pub fn run_chain<'a, H: Files<File = File> + Processes + AllocGlobal>(
    rt: &H,
    print: Print<'a>,
) -> Result<ChainEnd<'a>, ChainFault<'a>>
    ensures { IfOk result (HasNamesOf print.entry.chain) }
{
    check_programs(rt, print.chain)?;
    let mut end = unknown_end(rt.alloc(), print.chain)?;
    let mut children = Vec::new(rt.alloc());
    let started = start_all(rt, print, &mut children);
    if started.is_err() {
        kill_all(&mut children);
    }
    wait_all(&mut children, &mut end);
    match started {
        Ok(()) => Ok(end),
        Err(fault) => Err(fault),
    }
}

// Fails if a program of the chain cannot be run, before any is started.
fn check_programs<'a, H: Files<File = File>>(
    rt: &H,
    chain: Chain<'a>,
) -> Result<(), ChainFault<'a>> {
    for filter in chain.filters {
        check_program(rt, filter.name.as_str(), &filter.program)?;
    }
    check_program(rt, chain.backend.name.as_str(), &chain.backend.program)
}

fn check_program<'a, H: Files<File = File>>(
    rt: &H,
    name: &'a str,
    program: &ListedProgram,
) -> Result<(), ChainFault<'a>> {
    match fs::metadata(rt, program.path.as_str()) {
        Ok(about) if about.is_file() && about.permissions().mode() & 0o111 != 0 => Ok(()),
        _ => Err(ChainFault::NotStarted(name)),
    }
}

// Returns the ends of the chain's programs before they are known.
fn unknown_end<'a>(alloc: Global, chain: Chain<'a>) -> Result<ChainEnd<'a>, AllocError>
    ensures { IfOk result (HasNamesOf chain.entry) }
{
    Ok(ChainEnd {
        filters: unknown_filters(alloc, chain.filters)?,
        name: chain.backend.name.as_str(),
        backend: Ended::Unknown,
    })
}

fn unknown_filters<'a>(
    alloc: Global,
    filters: &'a [ListedFilter],
) -> Result<Vec<FilterEnd<'a>>, AllocError>
    ensures { IfOk result (λ ends. names_of ends.items ≡ map (λ listed. listed.name) filters.now) }
{
    let mut ends = Vec::new(alloc);
    for filter in filters {
        ends.push(FilterEnd {
            name: filter.name.as_str(),
            ended: Ended::Unknown,
        })?;
    }
    Ok(ends)
}

// Starts the programs, the backend last, each with the output of the one before it.
fn start_all<'a, H: Files<File = File> + Processes + AllocGlobal>(
    rt: &H,
    print: Print<'a>,
    children: &mut Vec<Child<H::Started>>,
) -> Result<(), ChainFault<'a>> {
    let filters = print.chain.filters;
    children.reserve(filters.len().saturating_add(1))?;
    let mut input = Stdio::inherit();
    for (index, filter) in filters.iter().enumerate() {
        input = start_filter(rt, print, filter, index == 0, input, children)?;
    }
    let backend = print.chain.backend;
    let place = Place {
        is_first: filters.is_empty(),
        input,
        output: Stdio::inherit(),
    };
    match start(rt, print, &backend.program, place) {
        Ok(child) => keep(children, child),
        Err(_) => Err(ChainFault::NotStarted(backend.name.as_str())),
    }
}

// Starts a filter, and returns its output.
fn start_filter<'a, H: Files<File = File> + Processes + AllocGlobal>(
    rt: &H,
    print: Print<'a>,
    filter: &'a ListedFilter,
    is_first: bool,
    input: Stdio,
    children: &mut Vec<Child<H::Started>>,
) -> Result<Stdio, ChainFault<'a>> {
    let name = filter.name.as_str();
    let Ok((reader, writer)) = io::pipe(rt) else {
        return Err(ChainFault::NotStarted(name));
    };
    let place = Place {
        is_first,
        input,
        output: Stdio::from(writer),
    };
    match start(rt, print, &filter.program, place) {
        Ok(child) => {
            keep(children, child)?;
            Ok(Stdio::from(reader))
        }
        Err(_) => Err(ChainFault::NotStarted(name)),
    }
}

// Adds a program that was started. There is room for it.
fn keep<'a, P: OpenProcess + Drop>(
    children: &mut Vec<Child<P>>,
    child: Child<P>,
) -> Result<(), ChainFault<'a>> {
    match children.push(child) {
        Ok(()) => Ok(()),
        Err(failed) => Err(AllocError::from(failed).into()),
    }
}

// The place of a program in its chain.
#[derive(Drop)]
struct Place {
    is_first: bool,
    input: Stdio,
    output: Stdio,
}

// Starts a program. This closes the chain's own copies of its input and output, so that each program sees when the one next to it ends.
fn start<H: Processes + AllocGlobal>(
    rt: &H,
    print: Print<'_>,
    program: &ListedProgram,
    place: Place,
) -> io::Result<Child<H::Started>> {
    let mut command = program_command(rt.alloc(), program, place.is_first, print.words, print.uri)?;
    command.stdin(place.input);
    command.stdout(place.output);
    command.spawn(rt)
}

fn kill_all<P: OpenProcess + Drop>(children: &mut Vec<Child<P>>) {
    for child in children.iter_mut() {
        let _ = child.kill();
    }
}

// Waits for each program, and notes how it ended. The last is the backend, if all were started.
fn wait_all<P: OpenProcess + Drop>(children: &mut Vec<Child<P>>, end: &mut ChainEnd<'_>)
    ensures filters { names_of end.new.filters.items ≡ names_of end.old.filters.items }
    ensures name { end.new.name ≡ end.old.name }
{
    for (index, child) in children.iter_mut().enumerate() {
        note(end, index, ended_by(child.wait()));
    }
}

// Notes the end of the program with this number.
fn note(end: &mut ChainEnd<'_>, index: usize, ended: Ended)
    ensures filters { names_of end.new.filters.items ≡ names_of end.old.filters.items }
    ensures name { end.new.name ≡ end.old.name }
{
    match end.filters.get_mut(index) {
        Some(filter) => filter.ended = ended,
        None => end.backend = ended,
    }
}
