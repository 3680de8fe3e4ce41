//! The parts of a queue that change while effects are folded in.
ghost use Rattle.std.specs.Prelude.{◌≡◌, ◌≤◌, [], ◌∷◌};
ghost use Rattle.row_effects.specs.EffectFold.{reasons_by, attributes_by, message_by, reasons_after, attributes_after, message_after};
ghost use Rattle.row_effects.specs.Room.{HasRoom};
ghost use Rattle.row_effects.specs.QueueDrafts.{IsAscendingDraft, room_of};

use crate::changes::{add_reasons, drop_reasons, set_attribute, set_reasons};
use spool_types::{Attribute, Effect, Message, Reason};

/// The reasons and the attributes of a queue in vectors of their own, and its message.
#[derive(Drop)]
pub(super) struct Draft {
    pub(super) reasons: Vec<Reason>,
    pub(super) attributes: Vec<Attribute>,
    pub(super) message: Message,
}

impl Draft {
    /// Folds in the effects. Does not allocate.
    pub(super) fn apply_all(&mut self, effects: Vec<Effect>)
        requires ascending { IsAscendingDraft self.old }
        requires room { HasRoom (room_of self.old) effects.items }
        ensures reasons { self.new.reasons.items ≡ reasons_after effects.items self.old.reasons.items }
        ensures attributes { self.new.attributes.items ≡ attributes_after effects.items self.old.attributes.items }
        ensures message { self.new.message ≡ message_after effects.items self.old.message }
    {
        for effect in effects {
            self.apply(effect);
        }
    }

    fn apply(&mut self, effect: Effect)
        requires ascending { IsAscendingDraft self.old }
        requires room { HasRoom (room_of self.old) (effect ∷ []) }
        ensures reasons { self.new.reasons.items ≡ reasons_by self.old.reasons.items effect }
        ensures attributes { self.new.attributes.items ≡ attributes_by self.old.attributes.items effect }
        ensures message { self.new.message ≡ message_by self.old.message effect }
        ensures ascending { IsAscendingDraft self.new }
        ensures reasons_room { (room_of self.old).reasons ≤ (room_of self.new).reasons }
        ensures attributes_room { (room_of self.old).attributes ≤ (room_of self.new).attributes }
    {
        match effect {
            Effect::Pages { .. } | Effect::TotalPages(_) => {}
            Effect::SetReasons(words) => set_reasons(&mut self.reasons, words),
            Effect::AddReasons(words) => add_reasons(&mut self.reasons, words),
            Effect::DropReasons(words) => drop_reasons(&mut self.reasons, words.as_slice()),
            Effect::Attribute(attribute) => set_attribute(&mut self.attributes, attribute),
            Effect::Message { text, .. } => self.message = text,
        }
    }
}
