//! The effects of a line.
ghost use Rattle.std.specs.Prelude.{◌≡◌, ◌≤◌, length, map, OnOk};
ghost use Rattle.stderr_lines.specs.LineEffects.{shown_byte, effects_by, line_effects};
ghost use Rattle.stderr_lines.specs.Tallies.{keep_all};
ghost use Rattle.stderr_lines.specs.EffectDrafts.{IsLineText};

use crate::attributes::add_attributes;
use crate::draft::Draft;
use crate::pages::page_draft;
use crate::prefix::{Prefix, prefix_at};
use crate::reasons::state_draft;
use crate::tally::Tally;
use std::alloc::AllocError;

const QUESTION_MARK: u8 = b'?';

/// Adds the effects of a line. Overwrites the line's bytes.
pub fn add_line(tally: &mut Tally, line: &mut [u8]) -> Result<(), AllocError>
    requires { length line.old ≤ 1023 }
    ensures { OnOk result (tally.new ≡ keep_all tally.old (line_effects line.old)) }
{
    let Some((prefix, start)) = prefix_at(line) else {
        return Ok(());
    };
    show(line);
    add_text(tally, prefix, &line[start..])
}

// Replaces each byte that is not printable with a question mark.
fn show(bytes: &mut [u8])
    ensures { bytes.new ≡ map shown_byte bytes.old }
{
    for i in 0..bytes.len() {
        bytes[i] = shown_byte(bytes[i]);
    }
}

fn shown_byte(b: u8) -> u8
    ensures { result ≡ shown_byte b }
{
    if b < 32 || 126 < b { QUESTION_MARK } else { b }
}

// Adds the effects of a text after its prefix.
fn add_text(tally: &mut Tally, prefix: Prefix, text: &[u8]) -> Result<(), AllocError>
    requires { IsLineText text.now }
    ensures { OnOk result (tally.new ≡ keep_all tally.old (effects_by prefix text.now)) }
{
    match prefix {
        Prefix::Silent => Ok(()),
        Prefix::Page => tally.add_any(page_draft(text)),
        Prefix::State => tally.add_any(state_draft(text)),
        Prefix::Attr => add_attributes(tally, text),
        Prefix::Level(level) => tally.add(&Draft::Message { level, text }),
    }
}
