//! Writing the effects of a stage.
ghost use Rattle.std.specs.Prelude.{◌≡◌, ◌+◌, ◌<◌, ◌≤◌, ◌^◌, ◌∷◌, ◌++◌, [], length, take, vec_len, vec_capacity};
ghost use Rattle.std.specs.List.{flat_map, AllByRecursion};
ghost use Rattle.spool_types.specs.Effects.{AreEffects};
ghost use Rattle.spool_types.specs.Values.{is_message};
ghost use Rattle.event_codec.specs.Spelling.{pages_code, words_code, attribute_code, message_code, effect_code, effects_code, level_number, AreWords, IsAttribute, IsText, IsEffect};

use crate::field_writing::{put_text, put_texts, put_u8, put_u16, put_u32};
use spool_types::{Attribute, Effect, Effects, Level, Message, Words};

fn level_byte(level: Level) -> u8
    ensures { result ≡ level_number level }
{
    match level {
        Level::Emergency => 0,
        Level::Alert => 1,
        Level::Critical => 2,
        Level::Error => 3,
        Level::Warning => 4,
        Level::Notice => 5,
        Level::Info => 6,
    }
}

fn put_pages(out: &mut Vec<u8>, page: u32, copies: u32)
    requires room { vec_len out.old + length (pages_code page copies) ≤ vec_capacity out.old }
    ensures written { out.new.items ≡ out.old.items ++ pages_code page copies }
    ensures len { vec_len out.new ≡ vec_len out.old + length (pages_code page copies) }
    ensures grown { vec_capacity out.old ≤ vec_capacity out.new }
{
    put_u32(out, page);
    put_u32(out, copies);
}

fn put_words(out: &mut Vec<u8>, words: &Words)
    requires room { vec_len out.old + length (words_code words.now) ≤ vec_capacity out.old }
    ensures written { out.new.items ≡ out.old.items ++ words_code words.now }
    ensures len { vec_len out.new ≡ vec_len out.old + length (words_code words.now) }
    ensures grown { vec_capacity out.old ≤ vec_capacity out.new }
    ensures legal { AreWords words.now }
{
    let words = words.as_slice();
    put_u16(out, words.len() as u16);
    put_texts(out, words);
}

pub(crate) fn put_attribute(out: &mut Vec<u8>, attribute: &Attribute)
    requires room { vec_len out.old + length (attribute_code attribute.now) ≤ vec_capacity out.old }
    ensures written { out.new.items ≡ out.old.items ++ attribute_code attribute.now }
    ensures len { vec_len out.new ≡ vec_len out.old + length (attribute_code attribute.now) }
    ensures grown { vec_capacity out.old ≤ vec_capacity out.new }
    ensures legal { IsAttribute attribute.now }
{
    put_text(out, &attribute.name);
    put_text(out, &attribute.value);
}

fn put_message(out: &mut Vec<u8>, level: Level, text: &Message)
    requires room { vec_len out.old + length (message_code level text.now) ≤ vec_capacity out.old }
    ensures written { out.new.items ≡ out.old.items ++ message_code level text.now }
    ensures len { vec_len out.new ≡ vec_len out.old + length (message_code level text.now) }
    ensures grown { vec_capacity out.old ≤ vec_capacity out.new }
    ensures legal { IsText is_message text.now }
{
    put_u8(out, level_byte(level));
    put_text(out, text);
}

// Returns the first byte of an effect's code.
fn effect_byte(effect: &Effect) -> u8
    ensures first { take 1 (effect_code effect.now) ≡ result ∷ [] }
{
    match effect {
        Effect::Pages { .. } => 1,
        Effect::TotalPages(_) => 2,
        Effect::SetReasons(_) => 3,
        Effect::AddReasons(_) => 4,
        Effect::DropReasons(_) => 5,
        Effect::Attribute(_) => 6,
        Effect::Message { .. } => 7,
    }
}

fn put_effect(out: &mut Vec<u8>, effect: &Effect)
    requires room { vec_len out.old + length (effect_code effect.now) ≤ vec_capacity out.old }
    ensures written { out.new.items ≡ out.old.items ++ effect_code effect.now }
    ensures len { vec_len out.new ≡ vec_len out.old + length (effect_code effect.now) }
    ensures grown { vec_capacity out.old ≤ vec_capacity out.new }
    ensures legal { IsEffect effect.now }
{
    put_u8(out, effect_byte(effect));
    match effect {
        Effect::Pages { page, copies } => put_pages(out, *page, *copies),
        Effect::TotalPages(pages) => put_u32(out, *pages),
        Effect::SetReasons(words) => put_words(out, words),
        Effect::AddReasons(words) => put_words(out, words),
        Effect::DropReasons(words) => put_words(out, words),
        Effect::Attribute(attribute) => put_attribute(out, attribute),
        Effect::Message { level, text } => put_message(out, *level, text),
    }
}

fn put_listed(out: &mut Vec<u8>, effects: &[Effect])
    requires room { vec_len out.old + length (flat_map effect_code effects.now) ≤ vec_capacity out.old }
    ensures written { out.new.items ≡ out.old.items ++ flat_map effect_code effects.now }
    ensures len { vec_len out.new ≡ vec_len out.old + length (flat_map effect_code effects.now) }
    ensures grown { vec_capacity out.old ≤ vec_capacity out.new }
    ensures legal { AllByRecursion IsEffect effects.now }
{
    for effect in effects {
        put_effect(out, effect);
    }
}

/// Appends the number of the effects of a stage, and each effect.
pub(crate) fn put_effects(out: &mut Vec<u8>, effects: &Effects)
    requires room { vec_len out.old + length (effects_code effects.now) ≤ vec_capacity out.old }
    ensures written { out.new.items ≡ out.old.items ++ effects_code effects.now }
    ensures len { vec_len out.new ≡ vec_len out.old + length (effects_code effects.now) }
    ensures grown { vec_capacity out.old ≤ vec_capacity out.new }
    ensures sound { AreEffects effects.now }
    ensures each { AllByRecursion IsEffect effects.now }
{
    let effects = effects.as_slice();
    put_u16(out, effects.len() as u16);
    put_listed(out, effects);
}
