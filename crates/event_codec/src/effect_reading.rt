//! Reading the effects of a stage.
ghost use Rattle.std.specs.Prelude.{◌≡◌, ℕ, List, length, nat_le, IfOk, IfErr};
ghost use Rattle.std.specs.Int.{w16};
ghost use Rattle.spool_types.specs.declared.effect.Effect.TheVariants as Change;
ghost use Rattle.spool_types.specs.Effects.{most_effect_bytes};
ghost use Rattle.event_codec.specs.EventReading.{Gives, MemoryOnly, list_at, pages_at, total_at, words_at, worded_at, attribute_at, level_at, message_at, effect_at, effect_within, listed_at, effects_at, effects_copy};

use crate::fields::texts_at;
use field_codec::{CodecFault, text_at, u8_at, u16_at, u32_at};
use spool_types::{Attribute, Effect, Effects, Level, Words};
use std::alloc::Global;

#[tactic(auto, unfolding(crate::specs::EventReading::pages_at))]
fn pages_at(bytes: &[u8]) -> Result<(Effect, &[u8]), CodecFault>
    ensures { Gives (λ x. (x.0, x.1.now)) result (pages_at bytes.now) }
{
    let (page, rest) = u32_at(bytes)?;
    let (copies, rest) = u32_at(rest)?;
    Ok((Effect::Pages { page, copies }, rest))
}

#[tactic(auto, unfolding(crate::specs::EventReading::total_at))]
fn total_at(bytes: &[u8]) -> Result<(Effect, &[u8]), CodecFault>
    ensures { Gives (λ x. (x.0, x.1.now)) result (total_at bytes.now) }
{
    let (pages, rest) = u32_at(bytes)?;
    Ok((Effect::TotalPages(pages), rest))
}

/// Returns at least `least` words, which follow their number.
#[tactic(auto, unfolding(crate::specs::EventReading::words_at, field_codec::specs::Fields::ranged_at, field_codec::specs::Fields::ranged, field_codec::specs::Fields::checked))]
fn words_at(alloc: Global, least: u16, bytes: &[u8]) -> Result<(Words, &[u8]), CodecFault>
    ensures { Gives (λ x. (x.0, x.1.now)) result (words_at least bytes.now) }
{
    let (count, rest) = u16_at(bytes)?;
    if count < least {
        return Err(CodecFault::Range);
    }
    let (words, rest) = texts_at(alloc, count, rest)?;
    match Words::new(words) {
        Ok(words) => Ok((words, rest)),
        Err(_) => Err(CodecFault::Range),
    }
}

#[tactic(auto, unfolding(crate::specs::EventReading::attribute_at))]
fn attribute_at(alloc: Global, bytes: &[u8]) -> Result<(Effect, &[u8]), CodecFault>
    ensures { Gives (λ x. (x.0, x.1.now)) result (attribute_at bytes.now) }
{
    let (name, rest) = text_at(alloc, bytes)?;
    let (value, rest) = text_at(alloc, rest)?;
    Ok((Effect::Attribute(Attribute { name, value }), rest))
}

#[tactic(auto, unfolding(crate::specs::EventReading::level_at, crate::specs::EventReading::level_of))]
fn level_at(bytes: &[u8]) -> Result<(Level, &[u8]), CodecFault>
    ensures { Gives (λ x. (x.0, x.1.now)) result (level_at bytes.now) }
{
    let (number, rest) = u8_at(bytes)?;
    let level = match number {
        0 => Level::Emergency,
        1 => Level::Alert,
        2 => Level::Critical,
        3 => Level::Error,
        4 => Level::Warning,
        5 => Level::Notice,
        6 => Level::Info,
        _ => return Err(CodecFault::Range),
    };
    Ok((level, rest))
}

#[tactic(auto, unfolding(crate::specs::EventReading::message_at))]
fn message_at(alloc: Global, bytes: &[u8]) -> Result<(Effect, &[u8]), CodecFault>
    ensures { Gives (λ x. (x.0, x.1.now)) result (message_at bytes.now) }
{
    let (level, rest) = level_at(bytes)?;
    let (text, rest) = text_at(alloc, rest)?;
    Ok((Effect::Message { level, text }, rest))
}

#[tactic(auto, unfolding(crate::specs::EventReading::worded_at))]
fn set_reasons_at(alloc: Global, bytes: &[u8]) -> Result<(Effect, &[u8]), CodecFault>
    ensures { Gives (λ x. (x.0, x.1.now)) result (worded_at 0 (λ words. Change.SetReasons words) bytes.now) }
{
    let (words, rest) = words_at(alloc, 0, bytes)?;
    Ok((Effect::SetReasons(words), rest))
}

#[tactic(auto, unfolding(crate::specs::EventReading::worded_at))]
fn add_reasons_at(alloc: Global, bytes: &[u8]) -> Result<(Effect, &[u8]), CodecFault>
    ensures { Gives (λ x. (x.0, x.1.now)) result (worded_at 1 (λ words. Change.AddReasons words) bytes.now) }
{
    let (words, rest) = words_at(alloc, 1, bytes)?;
    Ok((Effect::AddReasons(words), rest))
}

#[tactic(auto, unfolding(crate::specs::EventReading::worded_at))]
fn drop_reasons_at(alloc: Global, bytes: &[u8]) -> Result<(Effect, &[u8]), CodecFault>
    ensures { Gives (λ x. (x.0, x.1.now)) result (worded_at 1 (λ words. Change.DropReasons words) bytes.now) }
{
    let (words, rest) = words_at(alloc, 1, bytes)?;
    Ok((Effect::DropReasons(words), rest))
}

#[tactic(auto, unfolding(crate::specs::EventReading::effect_at, crate::specs::EventReading::kind_of_effect))]
fn effect_at(alloc: Global, bytes: &[u8]) -> Result<(Effect, &[u8]), CodecFault>
    ensures { Gives (λ x. (x.0, x.1.now)) result (effect_at bytes.now) }
{
    let (kind, rest) = u8_at(bytes)?;
    match kind {
        1 => pages_at(rest),
        2 => total_at(rest),
        3 => set_reasons_at(alloc, rest),
        4 => add_reasons_at(alloc, rest),
        5 => drop_reasons_at(alloc, rest),
        6 => attribute_at(alloc, rest),
        7 => message_at(alloc, rest),
        _ => Err(CodecFault::Range),
    }
}

/// Returns an effect whose code fits in the room, and the remaining room.
#[tactic(auto, unfolding(crate::specs::EventReading::effect_within, crate::specs::EventReading::some_room))]
fn effect_within(
    alloc: Global,
    room: usize,
    bytes: &[u8],
) -> Result<(Effect, usize, &[u8]), CodecFault>
    ensures { Gives (λ x. (x.0, (x.1, x.2.now))) result (effect_within (room, bytes.now)) }
{
    let (effect, rest) = effect_at(alloc, bytes)?;
    match effect.room_after(room) {
        Some(left) => Ok((effect, left, rest)),
        None => Err(CodecFault::Range),
    }
}

/// Returns `count` effects within the room of one stage. Each has at least three bytes, so the number of bytes limits
/// the memory reserved for the list.
fn listed_at(alloc: Global, count: u16, bytes: &[u8]) -> Result<(Vec<Effect>, &[u8]), CodecFault>
    ensures read { Gives (λ x. (x.0.items, x.1.now)) result (listed_at count bytes.now) }
    ensures memory { IfErr result (MemoryOnly (nat_le 1 count)) }
{
    let mut effects = Vec::with_capacity(alloc, (count as usize).min(bytes.len() / 3))?;
    let mut room = Effects::MOST_BYTES;
    let mut rest = bytes;
    for _ in 0..count {
        let (effect, left, after) = effect_within(alloc, room, rest)?;
        effects.push(effect)?;
        room = left;
        rest = after;
    }
    Ok((effects, rest))
}

/// Returns the effects, which follow their number.
#[tactic(auto, unfolding(crate::specs::EventReading::effects_at, crate::specs::EventReading::effects_copy, crate::specs::EventReading::some_effects_at, field_codec::specs::Fields::checked))]
pub(crate) fn effects_at(alloc: Global, bytes: &[u8]) -> Result<(Effects, &[u8]), CodecFault>
    ensures read { Gives (λ x. (x.0, x.1.now)) result (effects_at bytes.now) }
    ensures memory { IfErr result (MemoryOnly (effects_copy bytes.now)) }
{
    let (count, rest) = u16_at(bytes)?;
    let (effects, rest) = listed_at(alloc, count, rest)?;
    match Effects::new(effects) {
        Ok(effects) => Ok((effects, rest)),
        Err(_) => unreachable!(),
    }
}
