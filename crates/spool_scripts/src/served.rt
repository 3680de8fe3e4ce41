//! Serves a script with an engine.

use crate::case::Case;
use crate::cut::{CLIENT, OPENING, RUN, TICK, next_part};
use crate::fault::CaseFault;
use crate::orders::push_orders;
use crate::outcomes::read_children;
use crate::paced::{PacedReader, PacedWriter};
use crate::ticks::push_tick;
use crate::ways::Way;
use child_pipeline::MemChildren;
use command_lines::Commands;
use filter_args::Place;
use mime_costs::Convs;
use mime_rules::Types;
use spool_core::{Spool, make};
use spool_disk::{Disk, FuseDisk, MemDisk};
use spool_engine::{Engine, RunFault, append_answer};
use std::alloc::Global;
use whole_writes::write_whole;

// The byte offset of the version of the first area.
const VERSION_PLACE: u64 = 1;

/// The result of a script.
#[derive(Drop)]
pub struct Served {
    pub replies: Vec<u8>,
    /// The report in addition to the replies: the runs whose reader or writer failed or that ran out of memory, the
    /// result of each tick, the parts whose disk failed, and then the orders of the children.
    pub account: Vec<u8>,
}

// The state that one part of a script passes to the next.
#[derive(Drop)]
struct Bench {
    disk: MemDisk,
    children: MemChildren,
    account: String,
}

// A part of a script: the text between two openings. The disk fails after `calls` calls.
#[derive(Clone, Copy)]
struct Part<'a> {
    script: &'a [u8],
    calls: u64,
    reader_fails: bool,
}

type Printer = Engine<FuseDisk<MemDisk>, MemChildren>;

/// Serves the script of a case on a new spool. During its first part the disk fails after `calls` calls, and during the
/// first run of that part the limits of the case apply.
pub fn serve(alloc: Global, case: &Case, way: Way, calls: u64) -> Result<Served, CaseFault> {
    let mut bench = new_bench(alloc, case)?;
    let mut writer = PacedWriter::new(alloc, way.writing, case.limits);
    let mut reader_fails = case.limits.reader_fails;
    let mut calls = calls;
    let mut rest: &[u8] = &case.script;
    for _ in 0..u64::MAX {
        let (script, after) = next_part(rest, OPENING);
        let part = Part {
            script,
            calls,
            reader_fails,
        };
        bench = serve_part(alloc, case, bench, part, way, &mut writer)?;
        match after {
            Some(script) => rest = script,
            None => break,
        }
        writer.lift();
        reader_fails = false;
        calls = u64::MAX;
    }
    let Bench {
        children,
        mut account,
        ..
    } = bench;
    push_orders(&mut account, &children)?;
    Ok(Served {
        replies: writer.into_bytes(),
        account: account.into_bytes(),
    })
}

fn new_bench(alloc: Global, case: &Case) -> Result<Bench, CaseFault> {
    Ok(Bench {
        disk: new_disk(alloc, case)?,
        children: read_children(alloc, case.children.as_str())?,
        account: String::new(alloc),
    })
}

// Makes a new spool, with the version that the case specifies.
fn new_disk(alloc: Global, case: &Case) -> Result<MemDisk, CaseFault> {
    let mut disk = MemDisk::new(alloc, case.size)?;
    make(&mut disk)?;
    match case.version {
        Some(version) if VERSION_PLACE < disk.len() => disk.write(VERSION_PLACE, &[version])?,
        _ => {}
    }
    Ok(disk)
}

// Returns an engine over the spool of a disk.
fn printer_on(
    alloc: Global,
    case: &Case,
    disk: FuseDisk<MemDisk>,
    children: MemChildren,
) -> Result<Printer, CaseFault> {
    let (types, _) = Types::read(alloc, case.types.as_str())?;
    let (convs, _) = Convs::read(alloc, case.convs.as_str())?;
    let place = place(alloc, case.lang.as_str())?;
    match Spool::open(alloc, disk) {
        Ok(spool) => Ok(Engine::new(alloc, spool, children, types, convs, place)),
        Err(error) => Err(CaseFault::from(error.fault)),
    }
}

// Serves a part of a script on the spool of a disk.
fn serve_part(
    alloc: Global,
    case: &Case,
    bench: Bench,
    part: Part<'_>,
    way: Way,
    writer: &mut PacedWriter,
) -> Result<Bench, CaseFault> {
    let Bench {
        disk,
        children,
        mut account,
    } = bench;
    let disk = failing(disk, part.calls, case.fuse.once);
    let mut printer = printer_on(alloc, case, disk, children)?;
    serve_runs(alloc, &mut printer, part, way, writer, &mut account)?;
    if printer.met_fault() {
        account.push_str("the disk failed\n")?;
    }
    let (spool, children) = printer.into_parts();
    Ok(Bench {
        disk: spool.into_disk().into_disk(),
        children,
        account,
    })
}

// Serves the runs of a part in order.
fn serve_runs(
    alloc: Global,
    printer: &mut Printer,
    part: Part<'_>,
    way: Way,
    writer: &mut PacedWriter,
    account: &mut String,
) -> Result<(), CaseFault> {
    let mut rest = part.script;
    let mut reader_fails = part.reader_fails;
    for _ in 0..u64::MAX {
        let (script, after) = next_part(rest, RUN);
        let run = Part {
            script,
            reader_fails,
            ..part
        };
        serve_ticks(alloc, printer, run, way, writer, account)?;
        match after {
            Some(script) => rest = script,
            None => break,
        }
        writer.lift();
        reader_fails = false;
    }
    Ok(())
}

// Serves the text between two lines that make the engine run again, with a tick at each line that asks for one. Adds
// the result of each tick to the account.
fn serve_ticks(
    alloc: Global,
    printer: &mut Printer,
    part: Part<'_>,
    way: Way,
    writer: &mut PacedWriter,
    account: &mut String,
) -> Result<(), CaseFault> {
    let mut rest = part.script;
    let mut reader_fails = part.reader_fails;
    let mut happened = Vec::new(alloc);
    for _ in 0..u64::MAX {
        let (script, after) = next_part(rest, TICK);
        let piece = Part {
            script,
            reader_fails,
            ..part
        };
        serve_clients(alloc, printer, piece, way, writer, account)?;
        match after {
            Some(script) => rest = script,
            None => break,
        }
        writer.lift();
        reader_fails = false;
        push_tick(account, printer.tick(None, &mut happened))?;
    }
    Ok(())
}

// Serves the text between two ticks in one run, and then the client of each line `# client`.
fn serve_clients(
    alloc: Global,
    printer: &mut Printer,
    part: Part<'_>,
    way: Way,
    writer: &mut PacedWriter,
    account: &mut String,
) -> Result<(), CaseFault> {
    let (script, mut after) = next_part(part.script, CLIENT);
    let mut reader = PacedReader::new(script, way.reading, part.reader_fails);
    if let Err(fault) = printer.run(&mut reader, writer) {
        push_fault(account, fault)?;
    }
    for _ in 0..u64::MAX {
        let Some(rest) = after else {
            break;
        };
        writer.lift();
        let (text, behind) = next_part(rest, CLIENT);
        serve_client(alloc, printer, text, writer, account)?;
        after = behind;
    }
    Ok(())
}

// Serves a client that sends this text, one command at a time, as long as a complete command is buffered.
fn serve_client(
    alloc: Global,
    printer: &mut Printer,
    text: &[u8],
    writer: &mut PacedWriter,
    account: &mut String,
) -> Result<(), CaseFault> {
    let mut commands = Commands::new(alloc);
    commands.feed(text)?;
    for _ in 0..u64::MAX {
        let Some(command) = commands.next()? else {
            break;
        };
        let answer = printer.execute(command);
        let mut reply = Vec::new(alloc);
        append_answer(&mut reply, printer.table(), &answer)?;
        if write_whole(writer, &reply).is_err() {
            return push_fault(account, RunFault::Write);
        }
    }
    Ok(())
}

// Adds the failure of a run to the account.
fn push_fault(account: &mut String, fault: RunFault) -> Result<(), CaseFault> {
    let line = match fault {
        RunFault::Read => "the reader failed\n",
        RunFault::Write => "the writer failed\n",
        RunFault::Memory => "a run ran out of memory\n",
    };
    account.push_str(line)?;
    Ok(())
}

// Returns a disk that fails after `calls` calls: once, or from then on.
fn failing(disk: MemDisk, calls: u64, once: bool) -> FuseDisk<MemDisk> {
    if once {
        FuseDisk::once(disk, calls)
    } else {
        FuseDisk::new(disk, calls)
    }
}

// Returns the place of the children.
fn place(alloc: Global, lang: &str) -> Result<Place, CaseFault> {
    Ok(Place {
        root: String::from_str(alloc, "/r")?,
        lang: String::from_str(alloc, lang)?,
        path: String::from_str(alloc, "/bin")?,
        side: false,
    })
}
