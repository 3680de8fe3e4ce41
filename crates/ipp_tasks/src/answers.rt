//! Answers to IPP clients.
ghost use Rattle.std.specs.Prelude.{◌≡◌, true};
ghost use Rattle.ipp_tasks.specs.Requests.{answered_version, is_known};

use ipp_answers::values::{Syntax, keywords, string};
use ipp_codec::encode;
use ipp_names::Status;
use ipp_values::{Attribute, Group, GroupTag, Items, Message, Value, ValueFault, Version};
use std::alloc::{AllocError, Global};

/// The first part of a request, which its answer repeats.
#[derive(Clone, Copy)]
pub struct Header {
    pub version: Version,
    pub request_id: i32,
}

impl Header {
    /// Returns the header of the answer to a message. A version that is not known is answered in 2.0.
    pub fn of(message: &Message) -> Header
        ensures version { result.version ≡ answered_version message.now.version }
        ensures request_id { result.request_id ≡ message.now.request_id }
    {
        Header {
            version: known_version(message.version),
            request_id: message.request_id,
        }
    }

    /// Returns the header of the answer to these octets, which are no message.
    pub fn of_octets(octets: &[u8]) -> Header
        ensures { is_known result.version ≡ true }
    {
        match octets {
            [major, minor, _, _, a, b, c, d, ..] => Header {
                version: known_version(Version {
                    major: *major,
                    minor: *minor,
                }),
                request_id: i32::from_be_bytes([*a, *b, *c, *d]),
            },
            _ => Header {
                version: Version { major: 2, minor: 0 },
                request_id: 1,
            },
        }
    }
}

// Returns the version of the answer to a request of this version.
fn known_version(version: Version) -> Version
    ensures { result ≡ answered_version version }
{
    let is_known = version.major == 1 && version.minor <= 1
        || version.major == 2 && version.minor <= 2;
    if is_known {
        version
    } else {
        Version { major: 2, minor: 0 }
    }
}

/// Returns the octets of an answer: its status, and these groups.
pub fn answer(
    alloc: Global,
    header: Header,
    status: Status,
    groups: Vec<Group>,
) -> Result<Vec<u8>, AllocError> {
    let mut all = Items::empty(alloc);
    all.push(head_group(alloc)?)?;
    for group in groups {
        all.push(group)?;
    }
    let message = Message {
        version: header.version,
        code: status.number(),
        request_id: header.request_id,
        groups: all,
    };
    match encode(alloc, &message) {
        Ok(octets) => Ok(octets),
        Err(_) => Err(AllocError),
    }
}

fn head_group(alloc: Global) -> Result<Group, AllocError> {
    let mut attributes = Items::empty(alloc);
    let charset = string(alloc, Syntax::Charset, "utf-8")?;
    attributes.push(attribute(alloc, "attributes-charset", charset)?)?;
    let language = string(alloc, Syntax::NaturalLanguage, "en")?;
    attributes.push(attribute(alloc, "attributes-natural-language", language)?)?;
    Ok(Group {
        tag: GroupTag::Operation,
        attributes,
    })
}

fn attribute(alloc: Global, name: &str, value: Value) -> Result<Attribute, AllocError> {
    match Attribute::new(alloc, name, value) {
        Ok(attribute) => Ok(attribute),
        Err(_) => Err(AllocError),
    }
}

/// Returns the group of attributes that are not supported.
pub fn unsupported_group(alloc: Global, names: &[String]) -> Result<Group, AllocError> {
    let mut attributes = Items::empty(alloc);
    for name in names {
        attributes.push(attribute(alloc, name.as_str(), Value::Unsupported)?)?;
    }
    Ok(Group {
        tag: GroupTag::Unsupported,
        attributes,
    })
}

/// The attributes of the answer to a request that creates or closes a job.
pub fn created_names(alloc: Global) -> Result<Items<Value>, AllocError> {
    keywords(
        alloc,
        &[
            "job-id",
            "job-uri",
            "job-state",
            "job-state-reasons",
            "job-state-message",
        ],
    )
}
