//! The lines of a file of mime.types(5).
ghost use Rattle.std.specs.Prelude.{◌≡◌};
ghost use Rattle.spool_types.specs.Values.{media_in};
ghost use Rattle.mime_rules.specs.RuleLines.{outcome_of};
ghost use Rattle.mime_rules.specs.RuleFields.{LineTold, MediaTold};

use crate::grammar::{list_of, priority_of};
use crate::rule::Rule;
use crate::stop::Stop;
use crate::tokens::tokens_of;
use line_words::first_word;
use spool_types::{MediaType, WarningKind};
use std::alloc::Global;

/// One alternative of a type: its rule and its priority.
#[derive(Drop)]
pub(crate) struct Alternative {
    pub media_type: MediaType,
    pub priority: u8,
    pub rule: Rule,
}

/// Reads a line: a type, and then a list of rules.
pub(crate) fn read_line(alloc: Global, line: &[u8]) -> Result<Alternative, Stop>
    ensures value { LineTold result (outcome_of line.now) }
{
    let (word, rest) = first_word(line);
    let media_type = media_type(alloc, word)?;
    let tokens = tokens_of(alloc, rest)?;
    let priority = priority_of(&tokens);
    let rule = list_of(alloc, tokens)?;
    Ok(Alternative {
        media_type,
        priority,
        rule,
    })
}

fn media_type(alloc: Global, word: &[u8]) -> Result<MediaType, Stop>
    ensures { MediaTold result (media_in word.now) }
{
    match MediaType::from_word(alloc, word)? {
        Some(media_type) => Ok(media_type),
        None => Err(Stop::Fault(WarningKind::BadType)),
    }
}
