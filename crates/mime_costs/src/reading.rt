//! The lines of a file of mime.convs(5).
ghost use Rattle.std.specs.Prelude.{◌≡◌, IfOk};
ghost use Rattle.std.specs.Option.{option_map};
ghost use Rattle.mime_costs.specs.ConversionFiles.{cost_in, four_words, of_words, conversions_of, warnings_of};
ghost use Rattle.mime_costs.specs.ConversionFields.{words_in};

use crate::conversion::{Conversion, Cost, Source};
use line_words::first_word;
use mime_lines::{Number, joined_lines, read_number};
use spool_types::{FilterName, MediaType, Warning, WarningKind};
use std::alloc::{AllocError, Global};

// The words of a line.
#[derive(Clone, Copy)]
struct Words<'a> {
    source: &'a [u8],
    destination: &'a [u8],
    cost: &'a [u8],
    filter: &'a [u8],
}

/// Returns the conversions of a text, and the warnings of its invalid lines.
pub fn read_lines(alloc: Global, text: &str) -> Result<(Vec<Conversion>, Vec<Warning>), AllocError>
    ensures conversions { IfOk result (λ r. r.0.items ≡ conversions_of text.now) }
    ensures warnings { IfOk result (λ r. r.1.items ≡ warnings_of text.now) }
{
    let mut conversions = Vec::new(alloc);
    let mut warnings = Vec::new(alloc);
    for line in joined_lines(alloc, text)?.iter() {
        match read_line(alloc, line.number, line.text.bytes())? {
            Ok(conversion) => conversions.push(conversion)?,
            Err(kind) => warnings.push(Warning {
                line: line.number,
                kind,
            })?,
        }
    }
    Ok((conversions, warnings))
}

// Returns the conversion of a line, or the line's first error.
fn read_line(
    alloc: Global,
    number: usize,
    line: &[u8],
) -> Result<Result<Conversion, WarningKind>, AllocError>
    ensures { IfOk result (λ said. said ≡ of_words number (four_words line.now)) }
{
    let Some(words) = four_words(line) else {
        return Ok(Err(WarningKind::BadLine));
    };
    let Some(source) = Source::from_folded_word(alloc, words.source)? else {
        return Ok(Err(WarningKind::BadType));
    };
    let Some(destination) = MediaType::from_word(alloc, words.destination)? else {
        return Ok(Err(WarningKind::BadType));
    };
    let Some(cost) = cost_of(words.cost) else {
        return Ok(Err(WarningKind::BadNumber));
    };
    let Some(filter) = FilterName::from_word(alloc, words.filter)? else {
        return Ok(Err(WarningKind::BadLine));
    };
    Ok(Ok(Conversion {
        line: number,
        source,
        destination,
        cost,
        filter,
    }))
}

// Returns the words of a line that has exactly four.
fn four_words(line: &[u8]) -> Option<Words<'_>>
    ensures { option_map words_in result ≡ four_words line.now }
{
    let (source, rest) = first_word(line);
    let (destination, rest) = first_word(rest);
    let (cost, rest) = first_word(rest);
    let (filter, rest) = first_word(rest);
    let (more, _) = first_word(rest);
    if !filter.is_empty() && more.is_empty() {
        Some(Words {
            source,
            destination,
            cost,
            filter,
        })
    } else {
        None
    }
}

fn cost_of(word: &[u8]) -> Option<Cost>
    ensures { result ≡ cost_in word.now }
{
    match read_number(word)? {
        Number::Fits(number) => Cost::new(number),
        Number::TooGreat => None,
    }
}
