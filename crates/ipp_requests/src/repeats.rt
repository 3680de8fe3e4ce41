//! Attributes that occur twice.
ghost use Rattle.std.specs.Prelude.{◌≡◌, [], IfOk};
ghost use Rattle.std.specs.List.{list_any};
ghost use Rattle.ipp_requests.specs.IppChecks.{repeats, repeats_a_name};

use ipp_values::{Attribute, Group};
use std::alloc::{AllocError, Global};
use std::collections::BTreeSet;

/// Returns whether a group has two attributes with one name.
pub fn any_group_repeats(alloc: Global, groups: &[Group]) -> Result<bool, AllocError>
    ensures { IfOk result (λ found. found ≡ list_any repeats_a_name groups.now) }
{
    for group in groups {
        if repeats(alloc, group.attributes.as_slice())? {
            return Ok(true);
        }
    }
    Ok(false)
}

// Returns whether two of the attributes have one name. The set has the names of the attributes before.
fn repeats(alloc: Global, attributes: &[Attribute]) -> Result<bool, AllocError>
    ensures { IfOk result (λ found. found ≡ repeats [] attributes.now) }
{
    let mut seen = BTreeSet::new(alloc);
    for attribute in attributes {
        if !seen.insert(attribute.name.as_str())? {
            return Ok(true);
        }
    }
    Ok(false)
}
