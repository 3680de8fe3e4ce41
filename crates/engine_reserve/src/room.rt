//! The room of the journal that commands take.
ghost use Rattle.std.specs.Prelude.{◌≡◌};
ghost use Rattle.engine_reserve.specs.CommandRoom.{command_cost, event_cost, is_beyond, journal_of, takes_reserve};

use child_pipeline::Children;
use command_lines::Command;
use service_rules::{Journal, close_cost, create_cost, is_let_in, send_cost};
use spool_disk::Disk;
use spool_engine::StagingEngine;
use spool_types::Event;

/// Returns the state of an engine's journal. `area` is the size of an area of its disk, in bytes.
pub fn journal_of<D: Disk, C: Children>(engine: &StagingEngine<D, C>, area: u64) -> Journal
    ensures { result ≡ journal_of area engine.now.run_state }
{
    Journal {
        area,
        free: engine.room(),
        jobs: engine.table().jobs().len() as u64,
    }
}

/// Returns whether something that needs at most this many bytes, if it takes room, would take them from the reserve. After a fault of the
/// device it would not: the engine reports the fault.
pub fn takes_reserve<D: Disk, C: Children>(
    engine: &StagingEngine<D, C>,
    area: u64,
    cost: Option<u64>,
) -> bool
    ensures { result ≡ takes_reserve area engine.now.run_state cost }
{
    !engine.met_fault() && is_beyond(journal_of(engine, area), cost)
}

// Returns whether an event that needs at most this many bytes is not let in.
fn is_beyond(journal: Journal, cost: Option<u64>) -> bool
    ensures { result ≡ is_beyond journal cost }
{
    match cost {
        Some(cost) => !is_let_in(journal, cost),
        None => false,
    }
}

/// Returns the number of bytes that a command needs at most, or `None` if it may use the reserve.
pub fn command_cost(command: &Command) -> Option<u64>
    ensures { result ≡ command_cost command.now }
{
    match command {
        Command::Apply(event) => event_cost(event),
        Command::Create(_) => Some(create_cost()),
        Command::Close { .. } => Some(close_cost()),
        _ => None,
    }
}

fn event_cost(event: &Event) -> Option<u64>
    ensures { result ≡ event_cost event.now }
{
    match event {
        Event::Create(_) | Event::CreateBy { .. } => Some(create_cost()),
        Event::Send { bytes, .. } => Some(send_cost(bytes.as_slice().len())),
        Event::Close(_) => Some(close_cost()),
        _ => None,
    }
}
