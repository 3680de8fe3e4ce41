//! Texts in order, at the front of bytes.
ghost use Rattle.std.specs.Prelude.{◌≡◌, length, IfOk};
ghost use Rattle.event_codec.specs.EventReading.{Gives, list_at, text_at};

use field_codec::{CodecFault, text_at};
use spool_types::{Text, TextKind};
use std::alloc::Global;

/// Returns `count` texts of the kind `K`. Each text has at least two bytes, so the number of bytes limits the memory
/// reserved for the list.
pub(crate) fn texts_at<K: TextKind>(
    alloc: Global,
    count: u16,
    bytes: &[u8],
) -> Result<(Vec<Text<K>>, &[u8]), CodecFault>
    ensures read { Gives (λ x. (x.0.items, x.1.now)) result (list_at (text_at K.allowed) count bytes.now) }
    ensures length { IfOk result (λ x. length x.0.items ≡ count) }
{
    let mut texts = Vec::with_capacity(alloc, (count as usize).min(bytes.len() / 2))?;
    let mut rest = bytes;
    for _ in 0..count {
        let (text, after) = text_at(alloc, rest)?;
        texts.push(text)?;
        rest = after;
    }
    Ok((texts, rest))
}
