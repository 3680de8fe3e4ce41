//! Messages, groups and attributes (RFC 8010, 3.1).
ghost use Rattle.std.specs.Prelude.{◌≡◌, ◌↔◌, ◌∷◌, [], option_copied, find, IfOk, IsErrOf, true, false};
ghost use Rattle.ipp_values.specs.TextLimits.{is_text};
ghost use Rattle.ipp_values.specs.Messages.{is_named, has_tag};

use crate::fault::ValueFault;
use crate::items::Items;
use crate::tags::GroupTag;
use crate::text::AttributeName;
use crate::value::Value;
use std::alloc::Global;

/// A version of the protocol (RFC 8010, 3.1.8).
#[derive(Clone, Copy, PartialEq, Eq)]
pub struct Version {
    pub major: u8,
    pub minor: u8,
}

/// A request or a response. The document that may follow is no part of it.
#[derive(Drop)]
pub struct Message {
    pub version: Version,
    /// The operation of a request, or the status of a response.
    pub code: u16,
    /// At least 1 in a valid request (RFC 8011, 4.1.2).
    pub request_id: i32,
    pub groups: Items<Group>,
}

/// The attributes after one delimiter tag. There may be none.
#[derive(Drop)]
pub struct Group {
    pub tag: GroupTag,
    pub attributes: Items<Attribute>,
}

/// An attribute with its values in order. An attribute that is sent has at least one.
#[derive(Drop)]
pub struct Attribute {
    pub name: AttributeName,
    pub values: Items<Value>,
}

impl Message {
    /// Returns the first group with this tag.
    pub fn group(&self, tag: GroupTag) -> Option<&Group>
        ensures { option_copied result ≡ find (has_tag tag) self.now.groups }
    {
        self.groups.as_slice().iter().find(|group| group.tag == tag)
    }
}

impl Group {
    /// Returns no attributes under a tag. It allocates nothing.
    pub fn empty(alloc: Global, tag: GroupTag) -> Group
        ensures tag { result.tag ≡ tag }
        ensures attributes { result.attributes ≡ [] }
    {
        Group {
            tag,
            attributes: Items::empty(alloc),
        }
    }

    /// Returns the first attribute with this name.
    pub fn attribute(&self, name: &str) -> Option<&Attribute>
        ensures { option_copied result ≡ find (is_named name.now) self.now.attributes }
    {
        self.attributes
            .as_slice()
            .iter()
            .find(|attribute| attribute.name.as_str() == name)
    }
}

impl Attribute {
    /// Returns an attribute with one value. Its error is `Bad` exactly if the name is empty, longer than 255 octets or not
    /// US-ASCII.
    pub fn new(alloc: Global, name: &str, value: Value) -> Result<Attribute, ValueFault>
        ensures name { IfOk result (λ attribute. attribute.name ≡ name.now) }
        ensures values { IfOk result (λ attribute. attribute.values ≡ value ∷ []) }
        ensures bad { IsErrOf result ValueFault.Bad → is_text 1 255 127 name.now ≡ false }
    {
        let values = Items::one(alloc, value)?;
        Attribute::with_values(alloc, name, values)
    }

    /// Returns an attribute with these values. Its error is `Bad` exactly if the name is empty, longer than 255 octets or not
    /// US-ASCII.
    pub fn with_values(
        alloc: Global,
        name: &str,
        values: Items<Value>,
    ) -> Result<Attribute, ValueFault>
        ensures name { IfOk result (λ attribute. attribute.name ≡ name.now) }
        ensures values { IfOk result (λ attribute. attribute.values ≡ values) }
        ensures bad { IsErrOf result ValueFault.Bad ↔ (is_text 1 255 127 name.now ≡ false) }
    {
        match AttributeName::read(alloc, name) {
            Ok(name) => Ok(Attribute { name, values }),
            Err(fault) => {
                drop(values);
                Err(fault)
            }
        }
    }
}
