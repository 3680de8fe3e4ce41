//! The job template attributes that the options of a job state.
ghost use Rattle.std.specs.Prelude.{◌≡◌, ◌≤◌, ◌++◌, ◌∷◌, [], map, IfOk, IfSome, OnOk};
ghost use Rattle.std.specs.Option.{option_map};
ghost use Rattle.std.specs.List.{slice_split};
ghost use Rattle.requested_attributes.specs.AttributeGroups.{answered};
ghost use Rattle.ipp_options.specs.StatedAttributes.{number_in, pair_in, one_or_none, integer_in, enum_in, range_in, is_comma, ranges_of, ranges_in, resolution_in, keyword_in, values_of, values_by, stated_row, stated_rows, all_choices};

use crate::choice::Choice;
use filter_args::Options;
use ipp_printers::parted;
use ipp_values::{Attribute, Items, Keyword, RangeOfInteger, Resolution, Value, ValueFault};
use line_words::decimal;
use requested_attributes::{Asked, AttributeGroup, is_wanted, push_attribute};
use std::alloc::{AllocError, Global};

/// The greatest integer.
const MOST_INTEGER: u64 = 2_147_483_647;

static CHOICES: [Choice; 12] = [
    Choice::Finishings,
    Choice::Media,
    Choice::Handling,
    Choice::NumberUp,
    Choice::Orientation,
    Choice::OutputBin,
    Choice::PageRanges,
    Choice::ColorMode,
    Choice::Quality,
    Choice::Scaling,
    Choice::Resolution,
    Choice::Sides,
];

// Returns all attributes, in the order of their names.
fn all_choices() -> &'static [Choice]
    ensures { result.now ≡ all_choices }
{
    &CHOICES
}

/// Returns the job template attributes that a client asks for and that the options of a job state, in the order of their names.
///
/// Each option of [`read_settings`](crate::read_settings) that has the name of such an attribute is returned as the values of the
/// attribute. An option whose text is no value of the attribute is absent.
pub fn stated_attributes(
    alloc: Global,
    asked: Asked<'_>,
    options: &Options<'_>,
) -> Result<Items<Attribute>, AllocError>
    ensures { IfOk result (λ attributes. attributes ≡ answered asked.entry (stated_rows options.now)) }
{
    attributes_of(alloc, asked, options, all_choices())
}

fn attributes_of(
    alloc: Global,
    asked: Asked<'_>,
    options: &Options<'_>,
    choices: &[Choice],
) -> Result<Items<Attribute>, AllocError>
    ensures { IfOk result (λ attributes. attributes ≡ answered asked.entry (map (stated_row options.now) choices.now)) }
{
    let mut attributes = Items::empty(alloc);
    for choice in choices {
        push_choice(alloc, &mut attributes, asked, options, *choice)?;
    }
    Ok(attributes)
}

// Appends the attribute, if it is asked for and the options state it.
fn push_choice(
    alloc: Global,
    attributes: &mut Items<Attribute>,
    asked: Asked<'_>,
    options: &Options<'_>,
    choice: Choice,
) -> Result<(), AllocError>
    ensures { OnOk result (attributes.new ≡ attributes.old ++ answered asked.entry (stated_row options.now choice ∷ [])) }
{
    let name = choice.name();
    if !is_wanted(asked, name, AttributeGroup::JobTemplate) {
        return Ok(());
    }
    let values = values_by(alloc, choice, options.get(name))?;
    push_attribute(alloc, attributes, name, values)
}

fn values_by(alloc: Global, choice: Choice, text: Option<&str>) -> Result<Items<Value>, AllocError>
    ensures { IfOk result (λ values. values ≡ values_by choice (option_map (λ text. text.now) text.entry)) }
{
    match text {
        Some(text) => values_of(alloc, choice, text),
        None => Ok(Items::empty(alloc)),
    }
}

// Returns the values of an attribute, from the text of its option.
fn values_of(alloc: Global, choice: Choice, text: &str) -> Result<Items<Value>, AllocError>
    ensures { IfOk result (λ values. values ≡ values_of choice text.now) }
{
    let bytes = text.as_bytes();
    match choice {
        Choice::NumberUp => one_or_none(alloc, integer_in(bytes)),
        Choice::Orientation | Choice::Quality | Choice::Finishings => {
            one_or_none(alloc, enum_in(bytes))
        }
        Choice::PageRanges => ranges_in(alloc, bytes),
        Choice::Resolution => one_or_none(alloc, resolution_in(bytes)),
        Choice::Media
        | Choice::Sides
        | Choice::ColorMode
        | Choice::Scaling
        | Choice::OutputBin
        | Choice::Handling => one_or_none(alloc, keyword_in(alloc, text)?),
    }
}

fn one_or_none(alloc: Global, value: Option<Value>) -> Result<Items<Value>, AllocError>
    ensures { IfOk result (λ values. values ≡ one_or_none value) }
{
    match value {
        Some(value) => Items::one(alloc, value),
        None => Ok(Items::empty(alloc)),
    }
}

// ## Words and numbers

fn keyword_in(alloc: Global, text: &str) -> Result<Option<Value>, AllocError>
    ensures { IfOk result (λ value. value ≡ keyword_in text.now) }
{
    match Keyword::read(alloc, text) {
        Ok(word) => Ok(Some(Value::Keyword(word))),
        Err(ValueFault::Bad) => Ok(None),
        Err(ValueFault::Memory) => Err(AllocError),
    }
}

fn number_in(text: &[u8]) -> Option<u32>
    ensures value { result ≡ number_in text.now }
    ensures bound { IfSome result (λ number. number ≤ 2147483647) }
{
    let number = decimal(text, MOST_INTEGER)?;
    Some(number as u32)
}

fn integer_in(text: &[u8]) -> Option<Value>
    ensures { result ≡ integer_in text.now }
{
    let number = number_in(text)?;
    Some(Value::Integer(number as i32))
}

fn enum_in(text: &[u8]) -> Option<Value>
    ensures { result ≡ enum_in text.now }
{
    let number = number_in(text)?;
    Some(Value::Enum(number as i32))
}

// Returns two numbers with this byte between them, or one number for both.
fn pair_in(mark: u8, text: &[u8]) -> Option<(u32, u32)>
    ensures value { result ≡ pair_in mark text.now }
    ensures first { IfSome result (λ pair. pair.0 ≤ 2147483647) }
    ensures second { IfSome result (λ pair. pair.1 ≤ 2147483647) }
{
    match parted(text, mark) {
        Some((first, second)) => {
            let first = number_in(first)?;
            let second = number_in(second)?;
            Some((first, second))
        }
        None => {
            let number = number_in(text)?;
            Some((number, number))
        }
    }
}

// ## Ranges of pages

fn ranges_in(alloc: Global, text: &[u8]) -> Result<Items<Value>, AllocError>
    ensures { IfOk result (λ values. values ≡ ranges_in text.now) }
{
    let texts = parts_of(alloc, text)?;
    ranges_of(alloc, texts.as_slice())
}

// Returns the parts between the commas.
fn parts_of<'a>(alloc: Global, text: &'a [u8]) -> Result<Vec<&'a [u8]>, AllocError>
    ensures { IfOk result (λ parts. map (λ part. part.now) parts.items ≡ slice_split is_comma text.now) }
{
    text.split(|b| *b == b',').collect(alloc)
}

fn ranges_of(alloc: Global, texts: &[&[u8]]) -> Result<Items<Value>, AllocError>
    ensures { IfOk result (λ values. values ≡ ranges_of [] (map (λ text. text.now) texts.now)) }
{
    let mut values = Items::empty(alloc);
    for text in texts {
        match range_in(text) {
            Some(range) => values.push(range)?,
            None => return Ok(Items::empty(alloc)),
        }
    }
    Ok(values)
}

fn range_in(text: &[u8]) -> Option<Value>
    ensures { result ≡ range_in text.now }
{
    let (lower, upper) = pair_in(b'-', text)?;
    if 1 <= lower && lower <= upper {
        Some(Value::RangeOfInteger(RangeOfInteger {
            lower: lower as i32,
            upper: upper as i32,
        }))
    } else {
        None
    }
}

// ## Resolutions

fn resolution_in(text: &[u8]) -> Option<Value>
    ensures { result ≡ resolution_in text.now }
{
    if text.len() < 3 {
        return None;
    }
    let (numbers, unit) = text.split_at(text.len() - 3);
    if unit != b"dpi".as_slice() {
        return None;
    }
    let (cross_feed, feed) = pair_in(b'x', numbers)?;
    Some(Value::Resolution(Resolution {
        cross_feed: cross_feed as i32,
        feed: feed as i32,
        units: Resolution::DOTS_PER_INCH,
    }))
}
