//! The checks of a request before its operation (RFC 8011 4.1), in their order.
ghost use Rattle.std.specs.Prelude.{◌≡◌, ◌≢◌, None, Some, [], IfErr, IfOk, OnOk};
ghost use Rattle.std.specs.List.{list_any};
ghost use Rattle.ipp_names.specs.declared.statuses.Status.TheVariants.{TemporaryError};
ghost use Rattle.ipp_requests.specs.IppChecks.{attributes_of, begins_with_both, begins_with_language, fault_of, has_known_charset, is_known_version, is_request_id, is_text};

use crate::attributes::{only, text_at};
use crate::needs::lacks_target;
use crate::repeats::any_group_repeats;
use crate::syntax::Syntax;
use ipp_names::{Operation, Status};
use ipp_values::{Attribute, GroupTag, Message, Version};
use std::alloc::Global;

/// Returns the status of the first check that a message fails, or `TemporaryError` if memory runs out.
pub fn check(alloc: Global, message: &Message) -> Result<(), Status>
    ensures ok { OnOk result (fault_of message.now ≡ None) }
    ensures refused { IfErr result (λ status. status ≢ TemporaryError → fault_of message.now ≡ Some status) }
{
    let attributes = attributes_of(message);
    let operation = Operation::from_number(message.code);
    if !is_known_version(message.version) {
        return Err(Status::VersionNotSupported);
    }
    if !is_request_id(message.request_id) || !begins_with_both(attributes) {
        return Err(Status::BadRequest);
    }
    match any_group_repeats(alloc, message.groups.as_slice()) {
        Ok(true) => return Err(Status::BadRequest),
        Ok(false) => {}
        Err(_) => return Err(Status::TemporaryError),
    }
    if lacks_target(operation, attributes) {
        return Err(Status::BadRequest);
    }
    if !has_known_charset(attributes) {
        return Err(Status::CharsetNotSupported);
    }
    if operation.is_none() {
        return Err(Status::OperationNotSupported);
    }
    Ok(())
}

/// Returns the operation attributes, which are the first group. There are none if another group comes first.
pub fn attributes_of(message: &Message) -> &[Attribute]
    ensures { result.now ≡ attributes_of message.now }
{
    match message.groups.as_slice() {
        [group, ..] if group.tag == GroupTag::Operation => group.attributes.as_slice(),
        _ => &[],
    }
}

fn is_known_version(version: Version) -> bool
    ensures { result ≡ is_known_version version }
{
    version.major == 1 || version.major == 2
}

fn is_request_id(id: i32) -> bool
    ensures { result ≡ is_request_id id }
{
    1 <= id
}

// Returns whether the charset comes first and the natural language second.
fn begins_with_both(attributes: &[Attribute]) -> bool
    ensures { result ≡ begins_with_both attributes.now }
{
    match attributes.split_first() {
        Some((charset, others)) => {
            is_text(Syntax::Charset, "attributes-charset", charset) && begins_with_language(others)
        }
        None => false,
    }
}

fn begins_with_language(attributes: &[Attribute]) -> bool
    ensures { result ≡ begins_with_language attributes.now }
{
    match attributes.split_first() {
        Some((language, _)) => is_text(
            Syntax::NaturalLanguage,
            "attributes-natural-language",
            language,
        ),
        None => false,
    }
}

// Returns whether the attribute has this name, and exactly one value, of this syntax.
fn is_text(syntax: Syntax, name: &str, attribute: &Attribute) -> bool
    ensures { result ≡ is_text syntax name.now attribute.now }
{
    if attribute.name.as_str() != name {
        return false;
    }
    match only(attribute.values.as_slice()) {
        Some(value) => syntax.text(value).is_some(),
        None => false,
    }
}

fn has_known_charset(attributes: &[Attribute]) -> bool
    ensures { result ≡ has_known_charset attributes.now }
{
    match text_at(Syntax::Charset, "attributes-charset", attributes) {
        Ok(Some(charset)) => charset.as_str() == "utf-8" || charset.as_str() == "us-ascii",
        _ => false,
    }
}
