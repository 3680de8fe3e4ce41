//! The types of documents.
ghost use Rattle.std.specs.Prelude.{◌≡◌, ◌∷◌, ◌++◌, [], IfOk, map, min};
ghost use Rattle.std.specs.Option.{option_map};
ghost use Rattle.mime_lines.specs.LineFields.{line_of};
ghost use Rattle.mime_rules.specs.RuleLines.{alternatives_of, warnings_of, alternatives_in, warnings_in};
ghost use Rattle.mime_rules.specs.BestType.{type_of, best, better, beats};
ghost use Rattle.mime_rules.specs.Reach.{reach, IsEnough};
ghost use Rattle.mime_rules.specs.RuleFields.{types_of, alternative_of, subject_of};

use crate::line::{Alternative, read_line};
use crate::meaning::{Subject, holds};
use crate::reach::reach_of_alternatives;
use crate::stop::Stop;
use mime_lines::{JoinedLine, joined_lines};
use spool_types::{MediaType, Warning};
use std::alloc::{AllocError, Global};
use std::marker::Model;

/// The contents of a file of mime.types(5): the alternatives of each media type. Contracts see them as a list, in the order of their
/// lines.
#[derive(Drop)]
pub struct Types {
    alternatives: Vec<Alternative>,
}

impl Model for Types {
    ghost use Rattle.mime_rules.specs.TypesValue.{TypesValue, types_code};

    ghost Value = { TypesValue };

    ghost coded = { types_code };

    ghost view = { λ types. types.alternatives.items };
}

impl Types {
    /// Reads a file. Each invalid line is skipped, with a warning of its first error.
    pub fn read(alloc: Global, text: &str) -> Result<(Types, Vec<Warning>), AllocError>
        ensures types { IfOk result (λ r. types_of r.0 ≡ alternatives_of text.now) }
        ensures warnings { IfOk result (λ r. r.1.items ≡ warnings_of text.now) }
    {
        let lines = joined_lines(alloc, text)?;
        let (alternatives, warnings) = read_lines(alloc, &lines)?;
        Ok((Types { alternatives }, warnings))
    }

    /// Returns the type of a document with this name and these bytes, in this locale. Allocates nothing.
    pub fn type_of(&self, name: &str, bytes: &[u8], locale: &str) -> Option<&MediaType>
        ensures value { option_map (λ media. media.now) result ≡ type_of (record { name = name.now; bytes = bytes.now; locale = locale.now }) (types_of self.now) }
    {
        let subject = Subject {
            name: name.as_bytes(),
            bytes,
            locale: locale.as_bytes(),
        };
        match best(&self.alternatives, &subject) {
            Some(alternative) => Some(&alternative.media_type),
            None => None,
        }
    }

    /// Returns how many first bytes determine the type of a document of this length. No rule examines a later byte.
    pub fn reach(&self, len: usize) -> usize
        ensures value { result ≡ min len (reach self.now) }
        ensures enough { IsEnough self.now len result }
    {
        reach_of_alternatives(&self.alternatives, len)
    }
}

// Returns the alternatives and the warnings of these lines.
fn read_lines(
    alloc: Global,
    lines: &[JoinedLine<'_>],
) -> Result<(Vec<Alternative>, Vec<Warning>), AllocError>
    ensures types { IfOk result (λ r. map alternative_of r.0.items ≡ alternatives_in (map line_of lines.now)) }
    ensures warnings { IfOk result (λ r. r.1.items ≡ warnings_in (map line_of lines.now)) }
{
    let mut alternatives = Vec::new(alloc);
    let mut warnings = Vec::new(alloc);
    for line in lines {
        add_line(alloc, line, &mut alternatives, &mut warnings)?;
    }
    Ok((alternatives, warnings))
}

// Adds the alternative of a line, or its warning.
fn add_line(
    alloc: Global,
    line: &JoinedLine<'_>,
    alternatives: &mut Vec<Alternative>,
    warnings: &mut Vec<Warning>,
) -> Result<(), AllocError>
    ensures types { IfOk result (λ _. map alternative_of alternatives.new.items ≡ map alternative_of alternatives.old.items ++ alternatives_in (line_of line.now ∷ [])) }
    ensures warnings { IfOk result (λ _. warnings.new.items ≡ warnings.old.items ++ warnings_in (line_of line.now ∷ [])) }
{
    match read_line(alloc, line.text.bytes()) {
        Ok(alternative) => {
            alternatives.push(alternative)?;
            Ok(())
        }
        Err(Stop::Fault(kind)) => {
            warnings.push(Warning {
                line: line.number,
                kind,
            })?;
            Ok(())
        }
        Err(Stop::Memory) => Err(AllocError),
    }
}

// Returns the best of the alternatives that are true.
fn best<'a>(alternatives: &'a [Alternative], subject: &Subject<'_>) -> Option<&'a Alternative>
    ensures { option_map (λ a. alternative_of a.now) result ≡ best (subject_of subject.now) (map alternative_of alternatives.now) }
{
    let mut found: Option<&'a Alternative> = None;
    let mut rest = alternatives;
    while let Some((last, before)) = rest.split_last() {
        if holds(&last.rule, subject) {
            found = Some(better(last, found));
        }
        rest = before;
    }
    found
}

// Returns the one of the two that wins.
fn better<'a>(first: &'a Alternative, later: Option<&'a Alternative>) -> &'a Alternative
    ensures { alternative_of result.now ≡ better (alternative_of first.now) (option_map (λ a. alternative_of a.now) later.entry) }
{
    match later {
        None => first,
        Some(other) => { if beats(other, first) { other } else { first } }
    }
}

// Returns whether `a` has the higher priority, or the same priority and the type that is alphabetically first.
fn beats(a: &Alternative, b: &Alternative) -> bool
    ensures { result ≡ beats (alternative_of a.now) (alternative_of b.now) }
{
    b.priority < a.priority
        || (a.priority == b.priority && a.media_type.as_str() < b.media_type.as_str())
}
