//! The effects that are retained.
ghost use Rattle.std.specs.Prelude.{◌≡◌, ◌≤◌, OnOk, OnErr};
ghost use Rattle.std.specs.Option.{ForSome, option_map, option_to_list};
ghost use Rattle.stderr_lines.specs.Reports.{told_by};
ghost use Rattle.stderr_lines.specs.PendingEffects.{nothing_kept};
ghost use Rattle.stderr_lines.specs.Tallies.{keep, keep_all, begun, joined};
ghost use Rattle.stderr_lines.specs.EffectDrafts.{effect_of, IsSound};

use crate::draft::Draft;
use crate::lines::Report;
use spool_types::{Effect, Effects};
use std::alloc::{AllocError, Global};
use std::marker::Model;

/// The effects of the lines so far that are retained.
#[derive(Drop)]
pub struct Tally {
    effects: Vec<Effect>,
    // The number of bytes left for codes. 0 once an effect was dropped.
    room: usize,
    dropped: u32,
}

impl Model for Tally {
    ghost use Rattle.stderr_lines.specs.PendingEffects.{Tally};

    ghost Value = { Tally };

    ghost view = { λ a. record { effects = a.effects.items; room = a.room; dropped = a.dropped } };
}

impl Tally {
    /// Returns a tally without effects. Allocates nothing.
    pub fn new(alloc: Global) -> Tally
        ensures { result ≡ nothing_kept }
    {
        Tally {
            effects: Vec::new(alloc),
            room: Effects::MOST_BYTES,
            dropped: 0,
        }
    }

    /// Returns a tally without effects that continues this one. Allocates nothing.
    pub fn begun(&self) -> Tally
        ensures { result ≡ begun self.now }
    {
        Tally {
            effects: Vec::new(self.alloc()),
            room: self.room,
            dropped: self.dropped,
        }
    }

    fn alloc(&self) -> Global {
        *self.effects.allocator()
    }

    /// Retains an effect, or counts it if it does not fit. After an `Err` it has done neither.
    pub fn add(&mut self, draft: &Draft<'_>) -> Result<(), AllocError>
        requires { IsSound draft.now }
        ensures { OnOk result (self.new ≡ keep self.old (effect_of draft.now)) }
    {
        let size = draft.size();
        if self.room < size {
            self.room = 0;
            self.dropped = self.dropped.saturating_add(1);
            return Ok(());
        }
        let effect = draft.read(self.alloc())?;
        self.effects.push(effect)?;
        self.room -= size;
        Ok(())
    }

    /// Does the same with a draft, if any.
    pub fn add_any(&mut self, draft: Option<Draft<'_>>) -> Result<(), AllocError>
        requires { ForSome draft (λ d. IsSound d) }
        ensures { OnOk result (self.new ≡ keep_all self.old (option_to_list (option_map effect_of draft.entry))) }
    {
        match draft {
            Some(draft) => self.add(&draft),
            None => Ok(()),
        }
    }

    /// Appends a tally that was begun from this one. An `Err` has added nothing.
    pub fn join(&mut self, later: Tally) -> Result<(), AllocError>
        ensures ok { OnOk result (self.new ≡ joined self.old later) }
        ensures err { OnErr result (self.new ≡ self.old) }
    {
        let Tally {
            mut effects,
            room,
            dropped,
        } = later;
        self.effects.append(&mut effects)?;
        self.room = room;
        self.dropped = dropped;
        Ok(())
    }

    /// Returns the report, if no more text comes.
    pub fn into_report(self) -> Report
        ensures told { told_by result ≡ record { effects = self.effects; dropped = self.dropped } }
        ensures counted { result.dropped ≤ 4294967295 }
    {
        Report {
            effects: self.effects,
            dropped: self.dropped,
        }
    }
}
