//! The effects of one stage.
ghost use Rattle.std.specs.Prelude.{◌≡◌, ◌≤◌, ◌↔◌, [], false, nat_le, IfOk, IfErr, IsOk, IsTrue};
ghost use Rattle.std.specs.List.{list_all};
ghost use Rattle.spool_types.specs.Effects.{AreEffects, effect_size, effects_size, text_size, texts_size, names_enough, most_effect_bytes, room_left};

use crate::effect::Effect;
use crate::items::Items;
use crate::kinds::Reason;
use std::alloc::Global;
use std::marker::Model;

impl Effect {
    /// Returns the number of bytes of `room` that are left after the effect's code, or `None` if the code does not fit.
    pub fn room_after(&self, room: usize) -> Option<usize>
        ensures { result ≡ room_left (effect_size self.now) room }
    {
        match self {
            Effect::Pages { .. } => room.checked_sub(9),
            Effect::TotalPages(_) => room.checked_sub(5),
            Effect::SetReasons(words) | Effect::AddReasons(words) | Effect::DropReasons(words) => {
                room_after_words(room.checked_sub(3)?, words.as_slice())
            }
            Effect::Attribute(attribute) => {
                let room = room_after_text(room.checked_sub(1)?, attribute.name.as_str())?;
                room_after_text(room, attribute.value.as_str())
            }
            Effect::Message { text, .. } => room_after_text(room.checked_sub(2)?, text.as_str()),
        }
    }

    // Returns whether the effect names a reason, or neither adds nor drops reasons.
    fn names_enough(&self) -> bool
        ensures { result ≡ names_enough self.now }
    {
        match self {
            Effect::AddReasons(words) | Effect::DropReasons(words) => !words.as_slice().is_empty(),
            _ => true,
        }
    }
}

// Returns the number of bytes of `room` that are left after the codes of the reasons, or `None` if they do not fit.
fn room_after_words(room: usize, words: &[Reason]) -> Option<usize>
    ensures { result ≡ room_left (texts_size words.now) room }
{
    let mut left = room;
    for word in words {
        left = room_after_text(left, word.as_str())?;
    }
    Some(left)
}

fn room_after_text(room: usize, text: &str) -> Option<usize>
    ensures { result ≡ room_left (text_size text.now) room }
{
    room.checked_sub(2)?.checked_sub(text.len())
}

// Returns the number of bytes of `room` that are left after the codes of the effects, or `None` if they do not fit.
fn room_after_all(room: usize, effects: &[Effect]) -> Option<usize>
    ensures { result ≡ room_left (effects_size effects.now) room }
{
    let mut left = room;
    for effect in effects {
        left = effect.room_after(left)?;
    }
    Some(left)
}

// Returns whether these may be the effects of one stage.
fn are_effects(effects: &[Effect]) -> bool
    ensures yes { IsTrue result → AreEffects effects.now }
    ensures no { result ≡ false → ¬ AreEffects effects.now }
{
    name_enough(effects) && have_room(effects)
}

fn name_enough(effects: &[Effect]) -> bool
    ensures { result ≡ list_all names_enough effects.now }
{
    effects.iter().all(|effect| effect.names_enough())
}

fn have_room(effects: &[Effect]) -> bool
    ensures { result ≡ nat_le (effects_size effects.now) most_effect_bytes }
{
    room_after_all(Effects::MOST_BYTES, effects).is_some()
}

/// The effects of one stage, in the order of their lines. Its value in contracts is a list. Each effect that adds or
/// drops reasons names at least one reason, and the codes have at most 16,384 bytes in total.
#[derive(Drop)]
pub struct Effects {
    effects: Items<Effect, 16_384>,
}

impl Model for Effects {
    ghost use Rattle.std.specs.Prelude.{List};
    ghost use Rattle.spool_types.specs.declared.effect.Effect.{Effect};
    ghost use Rattle.spool_types.specs.Effects.{AreEffects};

    ghost Value = { List Effect };

    ghost view = { λ a. a.effects };

    ghost invariant = { λ a. AreEffects a.effects };

    ghost inverse = { λ effects. record { effects = effects } };
}

impl Effects {
    /// The maximum number of code bytes of the effects of one stage.
    pub const MOST_BYTES: usize = 16_384;

    /// Returns the effects, or the `Vec` as an error if they cannot be those of one stage. It allocates nothing.
    pub fn new(effects: Vec<Effect>) -> Result<Effects, Vec<Effect>>
        ensures sound { IsOk result ↔ AreEffects effects.items }
        ensures value { IfOk result (λ list. list ≡ effects.items) }
        ensures returned { IfErr result (λ same. same ≡ effects) }
    {
        if !are_effects(&effects) {
            return Err(effects);
        }
        // Each code has at least one byte, so the number of effects is at most the number of bytes.
        let effects = Items::new(effects)?;
        Ok(Effects { effects })
    }

    /// Returns no effects. It allocates nothing.
    pub fn empty(alloc: Global) -> Effects
        ensures { result ≡ [] }
    {
        Effects {
            effects: Items::empty(alloc),
        }
    }

    /// Returns the effects in order.
    pub fn as_slice(&self) -> &[Effect]
        ensures value { result.now ≡ self.now }
        ensures sound { AreEffects self.now }
    {
        self.effects.as_slice()
    }

    /// Returns the effects as they were passed to `new`.
    pub fn into_vec(self) -> Vec<Effect>
        ensures value { result.items ≡ self }
        ensures sound { AreEffects result.items }
    {
        self.effects.into_vec()
    }

    /// Returns the number of bytes of their codes.
    pub fn code_len(&self) -> usize
        ensures value { result ≡ effects_size self.now }
        ensures short { result ≤ most_effect_bytes }
    {
        match room_after_all(Effects::MOST_BYTES, self.as_slice()) {
            Some(left) => Effects::MOST_BYTES - left,
            None => unreachable!(),
        }
    }
}
