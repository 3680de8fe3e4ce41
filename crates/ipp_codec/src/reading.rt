//! Reading messages.
ghost use Rattle.std.specs.Prelude.{◌≡◌, ◌≤◌, ◌-◌, ◌++◌, ◌∷◌, [], ℕ, List, Ok, IfErr, IfOk, IsErrOf, length, nat_le, take};
ghost use Rattle.ipp_values.specs.declared.message.Message.{Message as MessageValue};
ghost use Rattle.ipp_codec.specs.Reading.{additional_at, at_limit, attribute_at, attributes_at, follows, group_at, groups_at, message_at, name_at, name_begins, reading, values_at};
ghost use Rattle.ipp_codec.specs.MessageSpelling.{value_count, Spells};
ghost use Rattle.ipp_codec.specs.ReadSteps.{Gives, Lasts, before};
ghost use Rattle.ipp_codec.specs.Unfinished.{CanComplete};

use crate::counts::has_few_values;
use crate::fault::DecodeFault;
use crate::place::Place;
use crate::values::{part_at, text_of, u8_at, u16_at, u32_at, value_at, value_tag_of};
use ipp_values::{Attribute, AttributeName, Group, GroupTag, Items, Message, Value, Version};
use std::alloc::Global;

/// The greatest number of octets from the header to the end of the attributes.
const LONGEST: usize = 65_536;

/// The tag at the end of the attributes (RFC 8010, 3.5.1).
const END_OF_ATTRIBUTES: u8 = 3;

/// The first value tag. Those below are delimiters (RFC 8010, 3.5).
const FIRST_VALUE_TAG: u8 = 16;

/// Returns whether the first octet of the length of a name, if it has arrived, is 0.
fn name_begins(octets: &[u8]) -> bool
    ensures { result ≡ name_begins octets.now }
{
    match octets {
        [high, ..] => *high == 0,
        [] => true,
    }
}

/// Returns the name of an attribute after its length.
#[tactic(auto, unfolding(crate::specs::Reading::name_at, crate::specs::Reading::checked))]
fn name_at(alloc: Global, octets: &[u8]) -> Result<(AttributeName, &[u8]), DecodeFault>
    ensures { Gives (λ x. (x.0, x.1.now)) result (name_at octets.now) }
{
    if !name_begins(octets) {
        return Err(DecodeFault::Name);
    }
    let (length, rest) = u16_at(octets)?;
    if length < 1 || 255 < length {
        return Err(DecodeFault::Name);
    }
    let (part, rest) = part_at(length as usize, rest)?;
    let name = text_of(alloc, part)?;
    Ok((name, rest))
}

/// Returns whether an additional value follows at this place.
#[tactic(auto, unfolding(crate::specs::Reading::follows, crate::specs::Reading::checked))]
fn follows(place: Place, octets: &[u8]) -> Result<bool, DecodeFault>
    ensures { Gives (λ b. b) result (follows place octets.now) }
{
    let (number, rest) = u8_at(octets)?;
    if number < FIRST_VALUE_TAG {
        return Ok(false);
    }
    let tag = value_tag_of(number)?;
    place.after(&tag)?;
    if !name_begins(rest) {
        return Err(DecodeFault::Name);
    }
    let (length, _) = u16_at(rest)?;
    Ok(length == 0)
}

/// Returns an additional value, with the place after it.
#[tactic(auto, unfolding(crate::specs::Reading::additional_at, crate::specs::Reading::tag_at, crate::specs::Reading::no_name_at, crate::specs::Reading::checked))]
fn additional_at(
    alloc: Global,
    place: Place,
    octets: &[u8],
) -> Result<(Place, Value, &[u8]), DecodeFault>
    ensures { Gives (λ x. ((x.0, x.1), x.2.now)) result (additional_at place octets.now) }
{
    let (number, rest) = u8_at(octets)?;
    let tag = value_tag_of(number)?;
    let (length, rest) = u16_at(rest)?;
    if length != 0 {
        return Err(DecodeFault::Name);
    }
    let next = place.after(&tag)?;
    let (value, rest) = value_at(alloc, &tag, rest)?;
    Ok((next, value, rest))
}

/// Appends the additional values of an attribute, and returns the octets after them. An error leaves any values.
fn values_at<'a>(
    alloc: Global,
    most: usize,
    start: Place,
    values: &mut Items<Value>,
    octets: &'a [u8],
) -> Result<&'a [u8], DecodeFault>
    ensures { Gives (λ rest. (values.new, rest.now)) result (before values.old (values_at most start octets.now)) }
{
    let mut place = start;
    let mut rest = octets;
    for _ in 0..most {
        let more = follows(place, rest)?;
        if !more {
            if place.is_outside() {
                return Ok(rest);
            }
            return Err(DecodeFault::Collection);
        }
        let (next, value, after) = additional_at(alloc, place, rest)?;
        values.push(value)?;
        place = next;
        rest = after;
    }
    Err(DecodeFault::TooLarge)
}

#[tactic(auto, unfolding(crate::specs::Reading::attribute_at, crate::specs::Reading::tag_at))]
fn attribute_at(
    alloc: Global,
    most: usize,
    octets: &[u8],
) -> Result<(Attribute, &[u8]), DecodeFault>
    ensures { Gives (λ x. (x.0, x.1.now)) result (attribute_at most octets.now) }
{
    let (number, rest) = u8_at(octets)?;
    let tag = value_tag_of(number)?;
    let next = Place::Outside.after(&tag)?;
    let (name, rest) = name_at(alloc, rest)?;
    let (value, rest) = value_at(alloc, &tag, rest)?;
    let mut values = Items::one(alloc, value)?;
    let rest = values_at(alloc, most, next, &mut values, rest)?;
    Ok((Attribute { name, values }, rest))
}

/// Appends the attributes of a group, and returns the octets after them. An error leaves any attributes.
fn attributes_at<'a>(
    alloc: Global,
    most: usize,
    attributes: &mut Items<Attribute>,
    octets: &'a [u8],
) -> Result<&'a [u8], DecodeFault>
    ensures { Gives (λ rest. (attributes.new, rest.now)) result (before attributes.old (attributes_at most most octets.now)) }
{
    let mut rest = octets;
    for _ in 0..most {
        let (number, _) = u8_at(rest)?;
        if number < FIRST_VALUE_TAG {
            return Ok(rest);
        }
        let (attribute, after) = attribute_at(alloc, most, rest)?;
        attributes.push(attribute)?;
        rest = after;
    }
    Err(DecodeFault::TooLarge)
}

/// Returns the group after its tag.
fn group_at(
    alloc: Global,
    most: usize,
    number: u8,
    octets: &[u8],
) -> Result<(Group, &[u8]), DecodeFault>
    ensures { Gives (λ x. (x.0, x.1.now)) result (group_at most number octets.now) }
{
    let Some(tag) = GroupTag::from_number(number) else {
        return Err(DecodeFault::Delimiter);
    };
    let mut attributes = Items::empty(alloc);
    let rest = attributes_at(alloc, most, &mut attributes, octets)?;
    Ok((Group { tag, attributes }, rest))
}

/// Appends the groups, and returns the octets after the end of the attributes. An error leaves any groups.
fn groups_at<'a>(
    alloc: Global,
    most: usize,
    groups: &mut Items<Group>,
    octets: &'a [u8],
) -> Result<&'a [u8], DecodeFault>
    ensures { Gives (λ rest. (groups.new, rest.now)) result (before groups.old (groups_at most most octets.now)) }
{
    let mut rest = octets;
    for _ in 0..most {
        let (number, after) = u8_at(rest)?;
        if number == END_OF_ATTRIBUTES {
            return Ok(after);
        }
        let (group, left) = group_at(alloc, most, number, after)?;
        groups.push(group)?;
        rest = left;
    }
    Err(DecodeFault::TooLarge)
}

#[tactic(auto, unfolding(crate::specs::Reading::message_at))]
fn message_at(alloc: Global, most: usize, octets: &[u8]) -> Result<(Message, &[u8]), DecodeFault>
    ensures { Gives (λ x. (x.0, x.1.now)) result (message_at most octets.now) }
{
    let (major, rest) = u8_at(octets)?;
    let (minor, rest) = u8_at(rest)?;
    let (code, rest) = u16_at(rest)?;
    let (request_id, rest) = u32_at(rest)?;
    let mut groups = Items::empty(alloc);
    let rest = groups_at(alloc, most, &mut groups, rest)?;
    let message = Message {
        version: Version { major, minor },
        code,
        request_id: request_id.cast_signed(),
        groups,
    };
    Ok((message, rest))
}

/// Returns the octets within the limit.
#[tactic(auto, using(crate::proofs::DecodeLaws::short_window))]
fn window_of(octets: &[u8]) -> &[u8]
    ensures { result.now ≡ take 65536 octets.now }
{
    if octets.len() <= LONGEST {
        return octets;
    }
    octets.split_at(LONGEST).0
}

fn is_long(octets: &[u8]) -> bool
    ensures { result ≡ nat_le 65536 (length octets.now) }
{
    LONGEST <= octets.len()
}

/// Returns the fault of octets that are as long as the limit, or shorter.
fn at_limit(is_long: bool, fault: DecodeFault) -> DecodeFault
    ensures { result ≡ at_limit is_long fault }
{
    match fault {
        DecodeFault::NeedMore => {
            if is_long {
                DecodeFault::TooLarge
            } else {
                DecodeFault::NeedMore
            }
        }
        DecodeFault::TooLarge
        | DecodeFault::Delimiter
        | DecodeFault::Name
        | DecodeFault::Length
        | DecodeFault::Text
        | DecodeFault::Boolean
        | DecodeFault::Collection
        | DecodeFault::Memory => fault,
    }
}

/// Returns the number of octets before the rest of the window.
fn count_taken(window: &[u8], rest: &[u8]) -> usize
    ensures { result ≡ length window.now - length rest.now }
{
    window.len().saturating_sub(rest.len())
}

fn read_message(alloc: Global, octets: &[u8]) -> Result<(Message, usize), DecodeFault>
    ensures { Gives (λ x. x) result (reading octets.now) }
{
    let window = window_of(octets);
    let long = is_long(octets);
    match message_at(alloc, window.len(), window) {
        Ok((message, rest)) => {
            if has_few_values(&message) {
                Ok((message, count_taken(window, rest)))
            } else {
                drop(message);
                Err(DecodeFault::TooLarge)
            }
        }
        Err(fault) => Err(at_limit(long, fault)),
    }
}

/// Reads the message at the front of the octets, and returns how many it takes. The octets after them are the document, which is
/// not read.
///
/// A caller that has only a part of the octets calls again after `NeedMore`, with more. If it does so only after the octets have
/// doubled, or have ended, the time of all calls is linear.
pub fn decode(alloc: Global, octets: &[u8]) -> Result<(Message, usize), DecodeFault>
    // A message that is returned is spelled by its octets.
    ensures sound { IfOk result (λ x. Spells x.0 (take x.1 octets.now)) }
    ensures short { IfOk result (λ x. (x.1 ≤ 65536) × (x.1 ≤ length octets.now)) }
    ensures few { IfOk result (λ x. value_count x.0 ≤ 4096) }

    // A message within the limits is read from its spelling, unless memory runs out.
    ensures complete { (m : MessageValue) (n : ℕ) → n ≤ 65536 → n ≤ length octets.now → value_count m ≤ 4096 → Spells m (take n octets.now) → Gives (λ x. x) result (Ok (m, n)) }

    // A fault remains the fault whatever octets follow, unless octets or memory were lacking.
    ensures lasting { IfErr result (λ fault. (more : List ℕ) → Lasts fault (reading (octets.now ++ more))) }

    // More octets can complete a message, if those of a last name or value that has not arrived whole are not counted.
    ensures unfinished { IsErrOf result DecodeFault.NeedMore → CanComplete octets.now }

    // Which fault it is.
    ensures exact { Gives (λ x. x) result (reading octets.now) }
{
    read_message(alloc, octets)
}
