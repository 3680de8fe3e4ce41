//! Runs `spool_shell`, after its arguments are read.
ghost use Rattle.std.specs.Prelude.{◌≡◌, IfErr, IfOk, true};
ghost use Rattle.spool_runtime.specs.Serving.{IsOfOpening, IsSetUp, database};

use crate::begun::check_child_ends;
use crate::device::SpoolFolder;
use crate::devices::{ChildDiscovery, print_devices};
use crate::fault::ShellFault;
use crate::files::read_rules;
use crate::fitness::log_programs;
use crate::launcher::launcher_in;
use crate::leftovers::clear_leftovers;
use crate::named_disk::NamedDisk;
use crate::serving::{
    ending, memory_device, open_engine, place_in, reserved_area, run_with, serve,
};
use crate::words::ShellWords;
use child_pipeline::{Children, NoChildren};
use filter_args::Place;
use log::Log;
use mime_costs::Convs;
use mime_rules::Types;
use program_lists::ProgramList;
use spool_engine::Engine;
use std::alloc::Global;
use std::fs::{File, Files};
use std::io::{Read, Write};

/// Prints the devices, or serves the commands over a spool, as the arguments ask.
pub fn run<L, R: Read, W: Write>(
    logged: &L,
    rt: &HostRuntime,
    words: ShellWords<'_>,
    reader: &mut R,
    writer: &mut W,
) -> Result<(), ShellFault>
where
    L: Files<File = File> + AllocGlobal + Log,
    // If devices are asked for, no command is read.
    ensures devices { words.entry.devices ≡ true → R.remaining reader.new ≡ R.remaining reader.old }
{
    if words.programs.is_some() && !words.devices {
        check_child_ends(rt)?;
    }
    let (types, convs, programs) = read_rules(logged, words.types, words.convs, words.programs)?;
    if words.devices {
        return print_devices(rt.alloc(), &ChildDiscovery { rt }, &programs, writer);
    }
    let rules = (types, convs);
    match words.root {
        Some(dir) => serve_folder(logged, rt, dir, words, programs, rules, reader, writer),
        None => serve_memory(rt.alloc(), words, rules, reader, writer),
    }
}

// Serves the commands over a new spool in memory, which starts no children.
fn serve_memory<R: Read, W: Write>(
    alloc: Global,
    words: ShellWords<'_>,
    rules: (Types, Convs),
    reader: &mut R,
    writer: &mut W,
) -> Result<(), ShellFault> {
    let disk = memory_device(alloc, words.size)?;
    let place = place_in(alloc, "", false)?;
    let children = (NoChildren, place);
    serve(alloc, disk, children, rules, words.reserve, reader, writer)
}

// Serves the commands over the spool of a folder, with the programs of the list as children.
fn serve_folder<L, R: Read, W: Write>(
    log: &L,
    rt: &HostRuntime,
    dir: &str,
    words: ShellWords<'_>,
    programs: ProgramList,
    rules: (Types, Convs),
    reader: &mut R,
    writer: &mut W,
) -> Result<(), ShellFault>
where
    L: Log,
{
    log_programs(log, rt, &programs);
    let children = launcher_in(log, rt, dir, programs)?;
    serve_children(log, rt, dir, words, children, rules, reader, writer)
}

// Serves the commands with these children.
fn serve_children<L, C, R: Read, W: Write>(
    log: &L,
    rt: &HostRuntime,
    dir: &str,
    words: ShellWords<'_>,
    children: (C, Place),
    rules: (Types, Convs),
    reader: &mut R,
    writer: &mut W,
) -> Result<(), ShellFault>
where
    L: Log,
    C: Children + Drop,
{
    let (folder, mut engine) = open_folder_engine(log, rt, dir, words.size, children, rules)?;
    let reserved = reserved_area(words.reserve, folder.disk_size(rt)?);
    let ran = run_with(rt.alloc(), &mut engine, reserved, reader, writer);
    let served = ending(ran, engine.met_fault());
    // The program owns the folder until all commands are served.
    drop(folder);
    served
}

/// Returns a folder, which the program owns until the value is dropped, and an engine over the spool in it. If the
/// spool does not exist, makes one of `size` bytes. After the spool is open, removes the files that children of an
/// earlier program left.
pub fn open_folder_engine<'a, L, C>(
    log: &L,
    rt: &'a HostRuntime,
    dir: &'a str,
    size: u64,
    children: (C, Place),
    rules: (Types, Convs),
) -> Result<(SpoolFolder<'a>, Engine<NamedDisk<'a>, C>), ShellFault>
where
    L: Log,
    C: Children + Drop,
    ensures opened { IfOk result (λ opened. IsSetUp (database rules.0 rules.1 children.1) children.1 (C.tells children.0) opened.1) }
    ensures fault { IfErr result IsOfOpening }
{
    let folder = SpoolFolder::own(rt, dir)?;
    let disk = folder.device(rt, size)?;
    let engine = open_engine(rt.alloc(), disk, children, rules)?;
    clear_leftovers(log, rt, dir);
    Ok((folder, engine))
}
