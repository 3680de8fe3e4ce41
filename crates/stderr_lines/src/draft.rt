//! Effects whose texts are borrowed from the line.
ghost use Rattle.std.specs.Prelude.{◌≡◌, ◌+◌, IfOk};
ghost use Rattle.spool_types.specs.Effects.{text_size, effect_size};
ghost use Rattle.stderr_lines.specs.EffectDrafts.{effect_of, changed, IsSound, IsLineText};
ghost use Rattle.line_words.specs.Quoting.{said};
ghost use Rattle.line_words.specs.declared.quoting.Quoting.TheVariants.{Bare};

use crate::quoting::{unquoted, unquoted_len};
use crate::reasons::{read_reasons, reasons_size};
use crate::texts::{copy_of, printable_text};
use spool_types::{Attribute, Effect, Level, Message, Words};
use std::alloc::{AllocError, Global};

/// How the queue's reasons change.
#[derive(Clone, Copy)]
pub enum Change {
    Set,
    Add,
    Remove,
}

/// An effect of a line, before it allocates.
#[derive(Clone, Copy)]
pub enum Draft<'a> {
    Pages { page: u32, copies: u32 },
    TotalPages(u32),
    Reasons { change: Change, words: &'a [u8] },
    Attribute { name: &'a str, value: &'a [u8] },
    Message { level: Level, text: &'a [u8] },
}

impl<'a> Draft<'a> {
    /// Returns the number of bytes of the effect's code.
    pub fn size(&self) -> usize
        requires { IsSound self.now }
        ensures { result ≡ effect_size (effect_of self.now) }
    {
        match self {
            Draft::Pages { .. } => 9,
            Draft::TotalPages(_) => 5,
            Draft::Reasons { words, .. } => 3 + reasons_size(words),
            Draft::Attribute { name, value } => attribute_size(name, value),
            Draft::Message { text, .. } => 4 + text.len(),
        }
    }

    /// Returns the effect in memory of its own.
    pub fn read(&self, alloc: Global) -> Result<Effect, AllocError>
        requires { IsSound self.now }
        ensures { IfOk result (λ effect. effect ≡ effect_of self.now) }
    {
        match self {
            Draft::Pages { page, copies } => Ok(Effect::Pages {
                page: *page,
                copies: *copies,
            }),
            Draft::TotalPages(pages) => Ok(Effect::TotalPages(*pages)),
            Draft::Reasons { change, words } => Ok(changed(*change, read_reasons(alloc, words)?)),
            Draft::Attribute { name, value } => Ok(Effect::Attribute(Attribute {
                name: copy_of(alloc, name)?,
                value: read_value(alloc, value)?,
            })),
            Draft::Message { level, text } => Ok(Effect::Message {
                level: *level,
                text: read_message(alloc, text)?,
            }),
        }
    }
}

// Returns the number of bytes of an attribute's code.
fn attribute_size(name: &str, value: &[u8]) -> usize
    requires { IsLineText value.now }
    ensures { result ≡ 1 + text_size name.now + text_size (said Bare value.now) }
{
    5 + name.len() + unquoted_len(value)
}

fn changed(change: Change, words: Words) -> Effect
    ensures { result ≡ changed change words }
{
    match change {
        Change::Set => Effect::SetReasons(words),
        Change::Add => Effect::AddReasons(words),
        Change::Remove => Effect::DropReasons(words),
    }
}

// Returns the value of an attribute, without its quotes.
fn read_value(alloc: Global, value: &[u8]) -> Result<Message, AllocError>
    requires { IsLineText value.now }
    ensures { IfOk result (λ text. text ≡ said Bare value.now) }
{
    let bytes = unquoted(alloc, value)?;
    read_message(alloc, &bytes)
}

fn read_message(alloc: Global, text: &[u8]) -> Result<Message, AllocError>
    requires { IsLineText text.now }
    ensures { IfOk result (λ message. message ≡ text.now) }
{
    copy_of(alloc, printable_text(text))
}
