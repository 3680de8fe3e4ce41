//! The memory for effects.
ghost use Rattle.std.specs.Prelude.{◌≡◌, ◌≤◌, true, OnOk, IsOk, vec_len, vec_capacity};
ghost use Rattle.std.specs.List.{list_any};
ghost use Rattle.row_effects.specs.Keys.{most_kept};
ghost use Rattle.row_effects.specs.Room.{HasRoom, can_add_reasons, can_add_attributes};

use spool_types::{Attribute, Effect, MOST_KEPT, Reason};
use std::alloc::{AllocError, Global};
use std::marker::Model;

/// Memory reserved for effects. Callers see its room, in reasons and in attributes.
#[derive(Drop)]
pub struct Spare {
    pub(super) reasons: Vec<Reason>,
    pub(super) attributes: Vec<Attribute>,
}

impl Model for Spare {
    ghost use Rattle.std.specs.Prelude.{◌≡◌, vec_len, vec_capacity};
    ghost use Rattle.row_effects.specs.Room.{Room};

    ghost Value = { Room };

    ghost view = { λ a. record { reasons = vec_capacity a.reasons; attributes = vec_capacity a.attributes } };

    ghost invariant = { λ a. (vec_len a.reasons ≡ 0) × (vec_len a.attributes ≡ 0) };
}

impl Spare {
    /// Returns a `Spare` without memory. Does not allocate.
    pub fn new(alloc: Global) -> Spare
        ensures reasons { result.reasons ≡ 0 }
        ensures attributes { result.attributes ≡ 0 }
    {
        Spare {
            reasons: Vec::new(alloc),
            attributes: Vec::new(alloc),
        }
    }

    /// Reserves the memory that the effects may need.
    pub fn reserve(&mut self, effects: &[Effect]) -> Result<(), AllocError>
        ensures room { OnOk result (HasRoom self.new effects.now) }

        // Allocates only if room is missing.
        ensures ready { HasRoom self.old effects.now → IsOk result }

        // Keeps the memory reserved before, whatever the result.
        ensures reasons { self.old.reasons ≤ self.new.reasons }
        ensures attributes { self.old.attributes ≤ self.new.attributes }
    {
        make_room(&mut self.reasons, adds_reasons(effects))?;
        make_room(&mut self.attributes, adds_attributes(effects))?;
        Ok(())
    }
}

// Reserves room for 64 items, if it is needed.
fn make_room<T>(items: &mut Vec<T>, is_wanted: bool) -> Result<(), AllocError>
    requires { vec_len items.old ≡ 0 }
    ensures room { OnOk result (is_wanted ≡ true → most_kept ≤ vec_capacity items.new) }
    ensures ready { (is_wanted ≡ true → most_kept ≤ vec_capacity items.old) → IsOk result }
    ensures capacity { vec_capacity items.old ≤ vec_capacity items.new }
    ensures empty { vec_len items.new ≡ 0 }
{
    if is_wanted {
        items.reserve(MOST_KEPT)
    } else {
        Ok(())
    }
}

fn adds_reasons(effects: &[Effect]) -> bool
    ensures { result ≡ list_any can_add_reasons effects.now }
{
    effects.iter().any(|effect| matches!(effect, Effect::SetReasons(_) | Effect::AddReasons(_)))
}

fn adds_attributes(effects: &[Effect]) -> bool
    ensures { result ≡ list_any can_add_attributes effects.now }
{
    effects
        .iter()
        .any(|effect| matches!(effect, Effect::Attribute(_)))
}
