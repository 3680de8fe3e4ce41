//! A queue's row with other values.
ghost use Rattle.std.specs.Prelude.{◌≡◌, ◌++◌, ◌∷◌, [], IfOk, OnOk, unwrap_or};
ghost use Rattle.queue_edits.specs.QueueEdits.{changed};

use spool_types::{Attribute, Attributes, Interval, MediaType, Policy, QueueRow, Uri};
use std::alloc::{AllocError, Global};

/// The fields of a queue that get another value. A field that is `None` keeps its value.
#[derive(Drop)]
pub struct QueueChange {
    pub uri: Option<Uri>,
    pub media: Option<MediaType>,
    pub policy: Option<Policy>,
    pub interval: Option<Interval>,
    pub limit: Option<u16>,
}

/// Returns the row with these fields replaced.
pub fn changed_row(
    alloc: Global,
    row: &QueueRow,
    change: &QueueChange,
) -> Result<QueueRow, AllocError>
    ensures { IfOk result (λ new. new ≡ changed change.now row.now) }
{
    Ok(QueueRow {
        name: row.name.clone()?,
        uri: uri_or(&change.uri, &row.uri)?,
        target: media_or(&change.media, &row.target)?,
        policy: change.policy.unwrap_or(row.policy),
        interval: change.interval.unwrap_or(row.interval),
        limit: change.limit.unwrap_or(row.limit),
        info: row.info.clone()?,
        location: row.location.clone()?,
        accepting: row.accepting,
        stopped: row.stopped,
        message: row.message.clone()?,
        reasons: row.reasons.clone()?,
        attributes: copied(alloc, &row.attributes)?,
    })
}

fn uri_or(given: &Option<Uri>, old: &Uri) -> Result<Uri, AllocError>
    ensures { IfOk result (λ uri. uri ≡ unwrap_or given.now old.now) }
{
    match given {
        Some(uri) => uri.clone(),
        None => old.clone(),
    }
}

fn media_or(given: &Option<MediaType>, old: &MediaType) -> Result<MediaType, AllocError>
    ensures { IfOk result (λ media. media ≡ unwrap_or given.now old.now) }
{
    match given {
        Some(media) => media.clone(),
        None => old.clone(),
    }
}

// Returns a copy of the attributes.
fn copied(alloc: Global, attributes: &Attributes) -> Result<Attributes, AllocError>
    ensures { IfOk result (λ copy. copy ≡ attributes.now) }
{
    let mut copies = Vec::new(alloc);
    for attribute in attributes.as_slice() {
        push_copy(&mut copies, attribute)?;
    }
    Ok(Attributes::new(copies).unwrap())
}

// Appends a copy of the attribute.
fn push_copy(copies: &mut Vec<Attribute>, attribute: &Attribute) -> Result<(), AllocError>
    ensures { OnOk result (copies.new.items ≡ copies.old.items ++ (attribute.now ∷ [])) }
{
    let name = attribute.name.clone()?;
    let value = attribute.value.clone()?;
    Ok(copies.push(Attribute { name, value })?)
}
