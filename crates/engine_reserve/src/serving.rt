//! Serves the commands of a text, and keeps the reserve.
ghost use Rattle.std.specs.Prelude.{◌≡◌, ℕ, List, [], IfOk, OnOk};
ghost use Rattle.command_lines.specs.declared.command.Command.{Command as CommandOf};
ghost use Rattle.spool_engine.specs.AnswerTexts.{answer_text};
ghost use Rattle.spool_engine.specs.EngineRuns.{CommandStep};
ghost use Rattle.engine_reserve.specs.ReservedRuns.{IsReservedRun, ServesEnd, ServesOne, ServesPiece, ServesWhole, TakesReservedStep, setting_of};

use crate::room::{command_cost, takes_reserve};
use child_pipeline::Children;
use command_lines::{Answer, Command, Commands};
use job_table::Table;
use spool_disk::Disk;
use spool_engine::{Engine, RunFault, append_answer};
use std::alloc::{AllocError, Global};
use std::io::{ErrorKind, Read, Write};
use whole_writes::write_whole;

// The number of bytes requested from the reader at once.
const PIECE: usize = 16_384;

/// Serves the commands of a text, as `Engine::run` does, but answers each that would take room from the reserve with `error full`, and does
/// nothing else for it. `area` is the size of an area of the engine's disk, in bytes. Writes the reply to each command before it takes the
/// next. An interrupted read is repeated.
pub fn serve_text<D: Disk, C: Children, R: Read, W: Write>(
    alloc: Global,
    engine: &mut Engine<D, C>,
    area: u64,
    reader: &mut R,
    writer: &mut W,
) -> Result<(), RunFault>
    ensures run { (text : List ℕ) × (turns : List (CommandStep D)) ×
        IsReservedRun (setting_of D.device engine.old) area (R.remaining reader.old)
        engine.old.run_state text turns engine.new.run_state result (W.contents writer.old) (W.contents writer.new) }
    ensures mime { engine.new.mime ≡ engine.old.mime }
    ensures place { engine.new.place ≡ engine.old.place }
{
    // Until the device has failed, a crash leaves the table that is shown.
    let _kept = engine.met_fault();
    let mut commands = Commands::new(alloc);
    let mut piece = [0u8; PIECE];
    'reads: for _ in 0..u32::MAX {
        match reader.read(&mut piece) {
            Ok(0) => return serve_end(alloc, engine, area, &mut commands, writer),
            Ok(count) => {
                match take_piece(alloc, engine, area, &mut commands, &piece[..count], writer) {
                    Ok(()) => {}
                    Err(fault) => return Err(fault),
                }
            }
            Err(e) => {
                if e.kind() != ErrorKind::Interrupted {
                    return Err(RunFault::Read);
                }
            }
        }
    }
    Err(RunFault::Read)
}

// Takes a piece of the text, and serves the commands that are then whole.
fn take_piece<D: Disk, C: Children, W: Write>(
    alloc: Global,
    engine: &mut Engine<D, C>,
    area: u64,
    commands: &mut Commands,
    piece: &[u8],
    writer: &mut W,
) -> Result<(), RunFault>
    ensures served { (turns : List (CommandStep D)) × ServesPiece (setting_of D.device engine.old) area
        piece.now engine.old.run_state commands.old turns engine.new.run_state commands.new result (W.contents writer.old) (W.contents writer.new) }
    ensures mime { engine.new.mime ≡ engine.old.mime }
    ensures place { engine.new.place ≡ engine.old.place }
{
    match commands.feed(piece) {
        Ok(()) => serve_whole(alloc, engine, area, commands, writer),
        Err(_) => Err(RunFault::Memory),
    }
}

// Serves the commands that are whole.
fn serve_whole<D: Disk, C: Children, W: Write>(
    alloc: Global,
    engine: &mut Engine<D, C>,
    area: u64,
    commands: &mut Commands,
    writer: &mut W,
) -> Result<(), RunFault>
    ensures served { (turns : List (CommandStep D)) × ServesWhole (setting_of D.device engine.old) area
        engine.old.run_state commands.old turns engine.new.run_state commands.new result (W.contents writer.old) (W.contents writer.new) }
    ensures mime { engine.new.mime ≡ engine.old.mime }
    ensures place { engine.new.place ≡ engine.old.place }
{
    'commands: loop {
        match commands.next() {
            Ok(Some(command)) => match answer(alloc, engine, area, command, writer) {
                Ok(()) => {}
                Err(fault) => return Err(fault),
            },
            Ok(None) => return Ok(()),
            Err(_) => return Err(RunFault::Memory),
        }
    }
}

// Serves the commands that remain at the end of the text.
fn serve_end<D: Disk, C: Children, W: Write>(
    alloc: Global,
    engine: &mut Engine<D, C>,
    area: u64,
    commands: &mut Commands,
    writer: &mut W,
) -> Result<(), RunFault>
    ensures served { (turns : List (CommandStep D)) × (rest : List CommandOf) ×
        ServesEnd (setting_of D.device engine.old) area
        engine.old.run_state commands.old turns engine.new.run_state rest result (W.contents writer.old) (W.contents writer.new) ×
        OnOk result (rest ≡ []) }
    ensures mime { engine.new.mime ≡ engine.old.mime }
    ensures place { engine.new.place ≡ engine.old.place }
{
    'commands: loop {
        match commands.finish() {
            Ok(Some(command)) => match answer(alloc, engine, area, command, writer) {
                Ok(()) => {}
                Err(fault) => return Err(fault),
            },
            Ok(None) => return Ok(()),
            Err(_) => return Err(RunFault::Memory),
        }
    }
}

// Serves a command, and writes the text of the answer.
fn answer<D: Disk, C: Children, W: Write>(
    alloc: Global,
    engine: &mut Engine<D, C>,
    area: u64,
    command: Command,
    writer: &mut W,
) -> Result<(), RunFault>
    ensures served { (t : CommandStep D) × ServesOne (setting_of D.device engine.old) area
        engine.old.run_state command t engine.new.run_state result (W.contents writer.old) (W.contents writer.new) }
    ensures mime { engine.new.mime ≡ engine.old.mime }
    ensures place { engine.new.place ≡ engine.old.place }
{
    let answer = execute(engine, area, command);
    match text_of(alloc, engine.table(), &answer) {
        Ok(text) => match write_whole(writer, &text) {
            Ok(()) => Ok(()),
            Err(_) => Err(RunFault::Write),
        },
        Err(_) => Err(RunFault::Memory),
    }
}

// Executes a command, unless it would take room from the reserve, and returns the answer.
fn execute<D: Disk, C: Children>(engine: &mut Engine<D, C>, area: u64, command: Command) -> Answer
    ensures executed { (t : CommandStep D) × TakesReservedStep (setting_of D.device engine.old) area engine.old.run_state command t engine.new.run_state ×
        (answer_text engine.new.run_state.spool.state result ≡ t.text) }
    ensures mime { engine.new.mime ≡ engine.old.mime }
    ensures place { engine.new.place ≡ engine.old.place }
{
    if takes_reserve(engine.as_staging(), area, command_cost(&command)) {
        drop(command);
        return Answer::Full;
    }
    engine.execute(command)
}

// Returns the text of an answer over the current table.
fn text_of(alloc: Global, table: &Table, answer: &Answer) -> Result<Vec<u8>, AllocError>
    ensures { IfOk result (λ text. text.items ≡ answer_text table.now.state answer.now) }
{
    let mut text = Vec::new(alloc);
    append_answer(&mut text, table, answer)?;
    Ok(text)
}
