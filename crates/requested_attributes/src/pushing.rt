//! Attributes of an answer.
ghost use Rattle.std.specs.Prelude.{◌≡◌, ◌++◌, OnOk};
ghost use Rattle.std.specs.Option.{option_to_list};
ghost use Rattle.requested_attributes.specs.AttributeGroups.{named_attribute};

use ipp_values::{Attribute, Items, Value, ValueFault};
use std::alloc::{AllocError, Global};

/// Appends an attribute, if it has values.
pub fn push_attribute(
    alloc: Global,
    attributes: &mut Items<Attribute>,
    name: &str,
    values: Items<Value>,
) -> Result<(), AllocError>
    ensures { OnOk result (attributes.new ≡ attributes.old ++ option_to_list (named_attribute name.now values)) }
{
    if values.as_slice().is_empty() {
        return Ok(());
    }
    match Attribute::with_values(alloc, name, values) {
        Ok(attribute) => attributes.push(attribute),
        Err(ValueFault::Bad) => Ok(()),
        Err(ValueFault::Memory) => Err(AllocError),
    }
}
