//! The values of options.
ghost use Rattle.std.specs.Prelude.{◌≡◌, ◌++◌, ◌==◌, IfOk, OnOk, Some};
ghost use Rattle.std.specs.Option.{option_map, option_and_then};
ghost use Rattle.std.specs.List.{list_all, list_any};
ghost use Rattle.std.specs.String.{string_bytes};
ghost use Rattle.std.specs.Cow.{cow_str_bytes};
ghost use Rattle.ipp_options.specs.AttributeWords.{only};
ghost use Rattle.ipp_options.specs.TemplateChoices.{number_up, orientation, quality};
ghost use Rattle.ipp_options.specs.OptionValues.{lent_value, choice_value, chosen, is_no_finishing, finishings_of, pages_in, pages_text, comma_after, page_ranges_of, resolutions, resolution_of, dots_of, is_reserved, is_passed, other_of, other_value};

use crate::choice::Choice;
use crate::words::{enum_in, enum_of, integer_in, natural_of, only, word_in};
use filter_args::is_option_name;
use ipp_printers::{Printer, Resolution};
use ipp_values::Value;
use std::alloc::{AllocError, Global};
use std::borrow::CowStr;

/// Returns the value of the option that an attribute becomes, or `None` if the printer does not support its values.
pub(crate) fn choice_value<'a>(
    alloc: Global,
    printer: &Printer,
    choice: Choice,
    values: &'a [Value],
) -> Result<Option<CowStr<'a, Global>>, AllocError>
    ensures { IfOk result (λ value. option_map cow_str_bytes value ≡ choice_value printer.now choice values.now) }
{
    match choice {
        Choice::PageRanges => Ok(owned(page_ranges_of(alloc, values)?)),
        Choice::Resolution => Ok(owned(resolution_in(alloc, printer, values)?)),
        _ => Ok(lent(lent_value(printer, choice, values))),
    }
}

fn owned<'a>(text: Option<String>) -> Option<CowStr<'a, Global>>
    ensures { option_map cow_str_bytes result ≡ option_map string_bytes text }
{
    match text {
        Some(text) => Some(CowStr::Owned(text)),
        None => None,
    }
}

fn lent<'a>(text: Option<&'a str>) -> Option<CowStr<'a, Global>>
    ensures { option_map cow_str_bytes result ≡ option_map (λ text. text.now) text.entry }
{
    match text {
        Some(text) => Some(CowStr::Borrowed(text)),
        None => None,
    }
}

// Returns a value that needs no memory.
fn lent_value<'a>(printer: &Printer, choice: Choice, values: &'a [Value]) -> Option<&'a str>
    ensures { option_map (λ text. text.now) result ≡ lent_value printer.now choice values.now }
{
    match choice {
        Choice::NumberUp => number_up(integer_in(values)?),
        Choice::Orientation => orientation(enum_in(values)?),
        Choice::Quality => quality(enum_in(values)?),
        Choice::Finishings => finishings_of(values),
        _ => chosen(printer, choice, word_in(values)?),
    }
}

fn chosen<'a>(printer: &Printer, choice: Choice, word: &'a str) -> Option<&'a str>
    ensures { option_map (λ text. text.now) result ≡ chosen printer.now choice word.now }
{
    if choice.is_choice(printer, word) {
        Some(word)
    } else {
        None
    }
}

fn number_up(n: u32) -> Option<&'static str>
    ensures { option_map (λ text. text.now) result ≡ number_up n }
{
    match n {
        1 => Some("1"),
        2 => Some("2"),
        4 => Some("4"),
        6 => Some("6"),
        9 => Some("9"),
        16 => Some("16"),
        _ => None,
    }
}

fn orientation(n: u32) -> Option<&'static str>
    ensures { option_map (λ text. text.now) result ≡ orientation n }
{
    match n {
        3 => Some("3"),
        4 => Some("4"),
        5 => Some("5"),
        6 => Some("6"),
        _ => None,
    }
}

fn quality(n: u32) -> Option<&'static str>
    ensures { option_map (λ text. text.now) result ≡ quality n }
{
    match n {
        3 => Some("3"),
        4 => Some("4"),
        5 => Some("5"),
        _ => None,
    }
}

// Returns the value for finishings that are all none.
fn finishings_of(values: &[Value]) -> Option<&'static str>
    ensures { option_map (λ text. text.now) result ≡ finishings_of values.now }
{
    if !values.is_empty() && are_no_finishings(values) {
        Some("3")
    } else {
        None
    }
}

fn are_no_finishings(values: &[Value]) -> bool
    ensures { result ≡ list_all is_no_finishing values.now }
{
    values.iter().all(|value| is_no_finishing(value))
}

fn is_no_finishing(value: &Value) -> bool
    ensures { result ≡ is_no_finishing value.now }
{
    match enum_of(value) {
        Some(number) => number == 3,
        None => false,
    }
}

// Returns ranges of pages in ascending order, separated by commas.
fn page_ranges_of(alloc: Global, values: &[Value]) -> Result<Option<String>, AllocError>
    ensures { IfOk result (λ text. option_map string_bytes text ≡ page_ranges_of values.now) }
{
    if values.is_empty() {
        return Ok(None);
    }
    let mut text = String::new(alloc);
    let mut last = 0;
    for value in values {
        let Some((lower, upper)) = pages_in(value, last) else {
            return Ok(None);
        };
        push_pages(&mut text, last, lower, upper)?;
        last = upper;
    }
    Ok(Some(text))
}

// Returns the bounds of a range after the page `last`.
fn pages_in(value: &Value, last: u32) -> Option<(u32, u32)>
    ensures { result ≡ pages_in last value.now }
{
    match value {
        Value::RangeOfInteger(range) => {
            let lower = natural_of(range.lower)?;
            let upper = natural_of(range.upper)?;
            if last < lower && lower <= upper {
                Some((lower, upper))
            } else {
                None
            }
        }
        _ => None,
    }
}

// Appends a range, with a comma after an earlier one.
fn push_pages(text: &mut String, last: u32, lower: u32, upper: u32) -> Result<(), AllocError>
    ensures { OnOk result (string_bytes text.new ≡ string_bytes text.old ++ (comma_after last ++ pages_text (lower, upper))) }
{
    if last != 0 {
        text.push_str(",")?;
    }
    if lower == upper {
        write!(text, "{lower}")
    } else {
        write!(text, "{lower}-{upper}")
    }
}

// Returns a resolution that the printer supports.
fn resolution_in(
    alloc: Global,
    printer: &Printer,
    values: &[Value],
) -> Result<Option<String>, AllocError>
    ensures { IfOk result (λ text. option_map string_bytes text ≡ option_and_then (resolution_of (resolutions printer.now)) (only values.now)) }
{
    match only(values) {
        Some(value) => resolution_of(alloc, printer.resolutions(), value),
        None => Ok(None),
    }
}

fn resolution_of(
    alloc: Global,
    supported: &[Resolution],
    value: &Value,
) -> Result<Option<String>, AllocError>
    ensures { IfOk result (λ text. option_map string_bytes text ≡ resolution_of supported.now value.now) }
{
    let Value::Resolution(resolution) = value else {
        return Ok(None);
    };
    if resolution.units != ipp_values::Resolution::DOTS_PER_INCH {
        return Ok(None);
    }
    match (
        natural_of(resolution.cross_feed),
        natural_of(resolution.feed),
    ) {
        (Some(cross), Some(feed)) => dots_of(alloc, supported, cross, feed),
        _ => Ok(None),
    }
}

fn dots_of(
    alloc: Global,
    supported: &[Resolution],
    cross: u32,
    feed: u32,
) -> Result<Option<String>, AllocError>
    ensures { IfOk result (λ text. option_map string_bytes text ≡ dots_of supported.now (Some cross) (Some feed)) }
{
    if cross == feed && is_supported(supported, cross) {
        Ok(Some(format!(in alloc; "{cross}x{feed}dpi")?))
    } else {
        Ok(None)
    }
}

fn is_supported(supported: &[Resolution], dots: u32) -> bool
    ensures { result ≡ list_any (λ resolution. resolution == dots) supported.now }
{
    supported.iter().any(|resolution| resolution.get() == dots)
}

/// Returns whether an attribute that no rule names may become an option.
pub(crate) fn is_passed(name: &str) -> bool
    ensures { result ≡ is_passed name.now }
{
    is_option_name(name) && !is_reserved(name)
}

fn is_reserved(name: &str) -> bool
    ensures { result ≡ is_reserved name.now }
{
    name.starts_with("job-") || name == "submission"
}

/// Returns the value of the option that such an attribute becomes: a keyword, a name, a text, an integer or a boolean.
pub(crate) fn other_value<'a>(
    alloc: Global,
    values: &'a [Value],
) -> Result<Option<CowStr<'a, Global>>, AllocError>
    ensures { IfOk result (λ value. option_map cow_str_bytes value ≡ other_value values.now) }
{
    match only(values) {
        Some(value) => other_of(alloc, value),
        None => Ok(None),
    }
}

fn other_of<'a>(alloc: Global, value: &'a Value) -> Result<Option<CowStr<'a, Global>>, AllocError>
    ensures { IfOk result (λ text. option_map cow_str_bytes text ≡ other_of value.now) }
{
    match value {
        Value::Keyword(text) => Ok(lent(Some(text.as_str()))),
        Value::Name(text) => Ok(lent(Some(text.as_str()))),
        Value::Text(text) => Ok(lent(Some(text.as_str()))),
        Value::Integer(number) => Ok(owned(Some(number.to_string(alloc)?))),
        Value::Boolean(flag) => Ok(lent(Some(if *flag { "true" } else { "false" }))),
        _ => Ok(None),
    }
}
