//! The attributes that a line sets.
ghost use Rattle.std.specs.Prelude.{◌≡◌, OnOk, IfSome};
ghost use Rattle.std.specs.Option.{option_map};
ghost use Rattle.stderr_lines.specs.AttributeLines.{attribute_of, attribute_effects};
ghost use Rattle.stderr_lines.specs.Tallies.{keep_all};
ghost use Rattle.stderr_lines.specs.EffectDrafts.{effect_of, IsLineText, IsSound};

use crate::cuts::cut_at;
use crate::draft::Draft;
use crate::quoting::split_word;
use crate::tally::Tally;
use crate::texts::text_in;
use spool_types::AttributeNameKind;
use std::alloc::AllocError;

/// Adds the pairs of `ATTR: name=value ..`.
pub fn add_attributes(tally: &mut Tally, text: &[u8]) -> Result<(), AllocError>
    requires { IsLineText text.now }
    ensures { OnOk result (tally.new ≡ keep_all tally.old (attribute_effects text.now)) }
{
    let mut rest = Some(text);
    while let Some(here) = rest {
        let (word, behind) = split_word(here);
        tally.add_any(attribute_draft(word))?;
        rest = behind;
    }
    Ok(())
}

// Returns the pair in a word.
fn attribute_draft(word: &[u8]) -> Option<Draft<'_>>
    requires { IsLineText word.now }
    ensures effect { option_map effect_of result ≡ attribute_of word.now }
    ensures sound { IfSome result (λ draft. IsSound draft) }
{
    let (name, value) = cut_at(b'=', word)?;
    let name = text_in::<AttributeNameKind>(name)?;
    Some(Draft::Attribute { name, value })
}
