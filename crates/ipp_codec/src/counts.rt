//! How many values a message has.
ghost use Rattle.std.specs.Prelude.{◌≡◌, ◌+◌, ◌<◌, MatchOption, nat_le};
ghost use Rattle.std.specs.List.{sum_by};
ghost use Rattle.ipp_codec.specs.MessageSpelling.{value_count, values_in, values_of};

use ipp_values::{Attribute, Group, Message};

/// The greatest number of values in a message, with the marks of collections.
const MOST_VALUES: usize = 4_096;

/// Returns how many more values may follow, or `None` if the attributes have too many.
fn room_after_attributes(room: usize, attributes: &[Attribute]) -> Option<usize>
    ensures { MatchOption result (room < sum_by values_of attributes.now) (λ left. left + sum_by values_of attributes.now ≡ room) }
{
    let mut left = room;
    for attribute in attributes {
        left = left.checked_sub(attribute.values.as_slice().len())?;
    }
    Some(left)
}

fn room_after_groups(room: usize, groups: &[Group]) -> Option<usize>
    ensures { MatchOption result (room < sum_by values_in groups.now) (λ left. left + sum_by values_in groups.now ≡ room) }
{
    let mut left = room;
    for group in groups {
        left = room_after_attributes(left, group.attributes.as_slice())?;
    }
    Some(left)
}

pub(crate) fn has_few_values(message: &Message) -> bool
    ensures { result ≡ nat_le (value_count message.now) 4096 }
{
    room_after_groups(MOST_VALUES, message.groups.as_slice()).is_some()
}
