//! The room of the journal that requests take.
ghost use Rattle.std.specs.Prelude.{◌≡◌};
ghost use Rattle.service_loop.specs.TakenRoom.{cost_of, is_reserved, room_for, word_cost};

use crate::shared::Shared;
use child_pipeline::Children;
use client_reader::Ask;
use engine_reserve::{command_cost, journal_of, takes_reserve};
use service_rules::{close_cost, document_room};
use service_texts::OwnWord;
use spool_disk::Disk;

impl<D: Disk, C: Children> Shared<D, C> {
    /// Whether a request would take room from the reserve of the journal.
    pub fn is_reserved(&self, ask: &Ask) -> bool
        ensures { result ≡ is_reserved self.now.area self.now.engine.run_state ask.now }
    {
        takes_reserve(&self.engine, self.area, cost_of(ask))
    }

    /// The length of the longest document that is let in now.
    pub fn room_for_document(&self) -> u64
        ensures { result ≡ room_for self.now.area self.now.engine.run_state }
    {
        document_room(journal_of(&self.engine, self.area))
    }
}

// The bytes that a request needs at most, if it takes room.
fn cost_of(ask: &Ask) -> Option<u64>
    ensures { result ≡ cost_of ask.now }
{
    match ask {
        Ask::Command(command) => command_cost(command),
        Ask::Own(word) => word_cost(word),
    }
}

fn word_cost(word: &OwnWord) -> Option<u64>
    ensures { result ≡ word_cost word.now }
{
    match word {
        OwnWord::CloseAs { .. } | OwnWord::CloseAt { .. } => Some(close_cost()),
        _ => None,
    }
}
