//! Opens and serves a spool.
ghost use Rattle.std.specs.Prelude.{◌≡◌, ◌⊎◌, ◌≤◌, ℕ, List, IfErr, IfOk, IsOkUnless, length};
ghost use Rattle.spool_disk.specs.MemoryDisks.{mem_bytes};
ghost use Rattle.spool_types.specs.State.{nothing};
ghost use Rattle.spool_core.specs.Image.{HasTable};
ghost use Rattle.spool_runtime.specs.ProgramEnding.{ending_of};
ghost use Rattle.spool_engine.specs.EngineRuns.{CommandStep};
ghost use Rattle.spool_engine.specs.EventSteps.{setting};
ghost use Rattle.spool_runtime.specs.Serving.{HasRun, IsOpened, IsPlace, IsRunWith, IsUnopened, IsUnread, database, reserved_area};

use crate::fault::{DiskCause, ShellFault};
use child_pipeline::Children;
use engine_reserve::serve_text;
use filter_args::Place;
use mime_costs::Convs;
use mime_rules::Types;
use spool_core::{OpenError, Spool, make};
use spool_disk::{Disk, MemDisk};
use spool_engine::{Engine, RunFault};
use std::alloc::{AllocError, Global};
use std::io::{Read, Write};

// The locale of the children and of type detection.
const LANG: &str = "C";

// The search path of the children.
const PATH: &str = "/usr/bin:/bin";

/// Returns the place of the children of a folder's spool. The search path and the locale are the same everywhere, so
/// that a child does not depend on the user who started the spooler.
pub fn place_in(alloc: Global, root: &str, side: bool) -> Result<Place, AllocError>
    ensures { IfOk result (IsPlace root.entry.now side) }
{
    Ok(Place {
        root: String::from_str(alloc, root)?,
        lang: String::from_str(alloc, LANG)?,
        path: String::from_str(alloc, PATH)?,
        side,
    })
}

/// Makes a new spool of `size` bytes in memory.
pub fn memory_device(alloc: Global, size: u64) -> Result<MemDisk, ShellFault>
    ensures size { IfOk result (λ disk. length (mem_bytes disk) ≡ size) }
    ensures empty { IfOk result (λ disk. HasTable nothing (mem_bytes disk)) }
    ensures fault { 46 ≤ size → IsOkUnless result ShellFault.Memory }
{
    let mut disk = MemDisk::new(alloc, size as usize)?;
    match make(&mut disk) {
        Ok(()) => Ok(disk),
        Err(_) => Err(ShellFault::Disk(DiskCause::Failed)),
    }
}

/// Returns an engine over the spool on this disk, with these children in this place. It holds no slot.
pub fn open_engine<D: Disk + Drop, C: Children + Drop>(
    alloc: Global,
    disk: D,
    children: (C, Place),
    rules: (Types, Convs),
) -> Result<Engine<D, C>, ShellFault>
    ensures opened { IfOk result (IsOpened D.device (database rules.0 rules.1 children.1) children.1 (C.tells children.0) disk) }
    ensures fault { IfErr result (IsUnread D.device disk) }
{
    let (types, convs) = rules;
    let (children, place) = children;
    match Spool::open(alloc, disk) {
        Ok(spool) => Ok(Engine::new(alloc, spool, children, types, convs, place)),
        Err(OpenError { fault, .. }) => Err(ShellFault::from(fault)),
    }
}

/// Serves the commands over the spool on this disk, with these children in this place. With `reserve` the run keeps the
/// reserve of the journal.
pub fn serve<D: Disk + Drop, C: Children + Drop, R: Read, W: Write>(
    alloc: Global,
    disk: D,
    children: (C, Place),
    rules: (Types, Convs),
    reserve: bool,
    reader: &mut R,
    writer: &mut W,
) -> Result<(), ShellFault>
    ensures { HasRun D.device (database rules.0 rules.1 children.1) children.1 (C.tells children.0) reserve
        disk (R.remaining reader.old) result (W.contents writer.old) (W.contents writer.new)
        ⊎ IsUnopened D.device
        disk (R.remaining reader.old) (R.remaining reader.new) result (W.contents writer.old) (W.contents writer.new) }
{
    let reserved = reserved_area(reserve, disk.len());
    let mut engine = match open_engine(alloc, disk, children, rules) {
        Ok(engine) => engine,
        Err(fault) => return Err(fault),
    };
    let ran = run_with(alloc, &mut engine, reserved, reader, writer);
    ending(ran, engine.met_fault())
}

/// Returns the size of an area of a disk of `size` bytes, if a run keeps the reserve.
pub(crate) fn reserved_area(reserve: bool, size: u64) -> Option<u64>
    ensures { result ≡ reserved_area reserve size }
{
    if reserve { Some(size / 2) } else { None }
}

/// Serves the commands by this engine. If `reserved` has the size of its areas, the run keeps the reserve.
pub(crate) fn run_with<D: Disk, C: Children, R: Read, W: Write>(
    alloc: Global,
    engine: &mut Engine<D, C>,
    reserved: Option<u64>,
    reader: &mut R,
    writer: &mut W,
) -> Result<(), RunFault>
    ensures { (text : List ℕ) × (turns : List (CommandStep D)) × IsRunWith (setting D.device engine.old.mime engine.old.place) reserved
        (R.remaining reader.old) engine.old.run_state text turns engine.new.run_state result (W.contents writer.old) (W.contents writer.new) }
{
    match reserved {
        Some(area) => serve_text(alloc, engine, area, reader, writer),
        None => engine.run(reader, writer),
    }
}

/// Converts the end of a run. A run over a disk that failed answers all commands, and still ends with a fault.
pub(crate) fn ending(ran: Result<(), RunFault>, failed: bool) -> Result<(), ShellFault>
    ensures { result ≡ ending_of ran failed }
{
    match ran {
        Ok(()) if failed => Err(ShellFault::Disk(DiskCause::Failed)),
        Ok(()) => Ok(()),
        Err(fault) => Err(ShellFault::from(fault)),
    }
}
