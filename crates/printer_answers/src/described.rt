//! The values that come from the file of printers.
ghost use Rattle.std.specs.Prelude.{◌≡◌, ◌∷◌, ◌++◌, [], map, take, IfOk, OnOk, codes, string_bytes};
ghost use Rattle.std.specs.Fmt.{decimal};
ghost use Rattle.std.specs.Option.{option_copied};
ghost use Rattle.std.specs.List.{flat_map, list_any};
ghost use Rattle.ipp_answers.specs.AnswerValues.{dots, integer_of, keyword_value, of_option};
ghost use Rattle.requested_attributes.specs.AttributeGroups.{is_same};
ghost use Rattle.printer_answers.specs.PrinterAnswers.{color_modes, info_for, joined, location_for, printer_type, pwg_raster, pwg_types, sides, text_or, urf, urf_resolutions, urf_words};
ghost use Rattle.printer_answers.specs.PrinterMedia.{dimension, dimensions, media_col, media_name, media_size, member_value, size_begin, size_end, size_name};
ghost use Rattle.printer_answers.specs.PrinterSources.{described_values, raster_values};

use crate::facts::PrinterFacts;
use crate::printer_sources::{DescribedFact, RasterFact};
use ipp_answers::values::{
    Syntax, dots, enumerated, integer, keywords, one_string, optional_text, string, texts,
};
use ipp_printers::{MediaSize, PageRate, Printer, Resolution};
use ipp_values::{AttributeName, Items, Value, ValueFault};
use spool_types::{MediaType, Text, TextKind};
use std::alloc::{AllocError, Global};

/// Returns the values of a fact of the file of printers.
pub fn described_values(
    alloc: Global,
    printer: &Printer<'_>,
    fact: DescribedFact,
) -> Result<Items<Value>, AllocError>
    ensures { IfOk result (λ values. values ≡ described_values printer.now fact) }
{
    match fact {
        DescribedFact::Color => Items::one(alloc, Value::Boolean(printer.color())),
        DescribedFact::ColorModes => keywords(alloc, color_modes(printer)),
        DescribedFact::ColorPagesPerMinute => rate(alloc, printer.color_pages_per_minute()),
        DescribedFact::DefaultMedia => media_names(alloc, first_of(printer.media())),
        DescribedFact::DefaultMediaCol => media_cols(alloc, first_of(printer.media())),
        DescribedFact::DefaultOutputBin => {
            texts(alloc, Syntax::Keyword, first_of(printer.output_bins()))
        }
        DescribedFact::DefaultResolution => resolutions(alloc, first_of(printer.resolutions())),
        DescribedFact::DeviceId => optional_text(alloc, Syntax::Text, printer.device_id()),
        DescribedFact::MakeAndModel => optional_text(alloc, Syntax::Text, printer.make_and_model()),
        DescribedFact::Media => media_names(alloc, printer.media()),
        DescribedFact::MediaDatabase => media_cols(alloc, printer.media()),
        DescribedFact::MediaSizes => media_sizes(alloc, printer.media()),
        DescribedFact::OutputBins => texts(alloc, Syntax::Keyword, printer.output_bins()),
        DescribedFact::PagesPerMinute => rate(alloc, printer.pages_per_minute()),
        DescribedFact::Resolutions => resolutions(alloc, printer.resolutions()),
        DescribedFact::Sides => keywords(alloc, sides(printer)),
        DescribedFact::Type => Items::one(alloc, enumerated(printer_type(printer))),
    }
}

// Returns the first item, if there is one.
fn first_of<T>(items: &[T]) -> &[T]
    ensures { result.now ≡ take 1 items.now }
{
    if items.is_empty() { items } else { &items[..1] }
}

// Returns the values of print-color-mode-supported (PWG 5100.13).
fn color_modes(printer: &Printer<'_>) -> &'static [&'static str]
    ensures { map (λ word. word.now) result.now ≡ color_modes printer.now }
{
    if printer.color() {
        &["auto", "color", "monochrome"]
    } else {
        &["auto", "monochrome"]
    }
}

// Returns the values of sides-supported (RFC 8011, 5.2.8).
fn sides(printer: &Printer<'_>) -> &'static [&'static str]
    ensures { map (λ word. word.now) result.now ≡ sides printer.now }
{
    if printer.duplex() {
        &["one-sided", "two-sided-long-edge", "two-sided-short-edge"]
    } else {
        &["one-sided"]
    }
}

// Returns the printer-type of CUPS.
fn printer_type(printer: &Printer<'_>) -> u64
    ensures { result ≡ printer_type printer.now }
{
    let color = if printer.color() { 8 } else { 0 };
    let duplex = if printer.duplex() { 16 } else { 0 };
    196 + color + duplex
}

fn rate(alloc: Global, rate: Option<PageRate>) -> Result<Items<Value>, AllocError>
    ensures { IfOk result (λ values. values ≡ of_option integer_of rate) }
{
    match rate {
        Some(rate) => Items::one(alloc, integer(u64::from(rate.get()))),
        None => Ok(Items::empty(alloc)),
    }
}

fn resolutions(alloc: Global, numbers: &[Resolution]) -> Result<Items<Value>, AllocError>
    ensures { IfOk result (λ values. values ≡ map dots numbers.now) }
{
    let mut values = Items::empty(alloc);
    for number in numbers {
        values.push(dots(number.get()))?;
    }
    Ok(values)
}

// ## Sizes of paper

fn media_names(alloc: Global, media: &[MediaSize]) -> Result<Items<Value>, AllocError>
    ensures { IfOk result (λ values. values ≡ map media_name media.now) }
{
    let mut values = Items::empty(alloc);
    for size in media {
        values.push(string(alloc, Syntax::Keyword, size.name.as_str())?)?;
    }
    Ok(values)
}

fn media_sizes(alloc: Global, media: &[MediaSize]) -> Result<Items<Value>, AllocError>
    ensures { IfOk result (λ values. values ≡ flat_map media_size media.now) }
{
    let mut values = Items::empty(alloc);
    for size in media {
        push_media_size(alloc, &mut values, size)?;
    }
    Ok(values)
}

fn media_cols(alloc: Global, media: &[MediaSize]) -> Result<Items<Value>, AllocError>
    ensures { IfOk result (λ values. values ≡ flat_map media_col media.now) }
{
    let mut values = Items::empty(alloc);
    for size in media {
        push_media_col(alloc, &mut values, size)?;
    }
    Ok(values)
}

fn push_media_size(
    alloc: Global,
    values: &mut Items<Value>,
    size: &MediaSize,
) -> Result<(), AllocError>
    ensures { OnOk result (values.new ≡ values.old ++ media_size size.now) }
{
    values.push(Value::BeginCollection)?;
    push_dimensions(alloc, values, size)?;
    values.push(Value::EndCollection)
}

fn push_dimensions(
    alloc: Global,
    values: &mut Items<Value>,
    size: &MediaSize,
) -> Result<(), AllocError>
    ensures { OnOk result (values.new ≡ values.old ++ dimensions size.now) }
{
    push_dimension(alloc, values, "x-dimension", size.width)?;
    push_dimension(alloc, values, "y-dimension", size.height)
}

fn push_dimension(
    alloc: Global,
    values: &mut Items<Value>,
    name: &str,
    length: u32,
) -> Result<(), AllocError>
    ensures { OnOk result (values.new ≡ values.old ++ dimension name.now length) }
{
    values.push(member(alloc, name)?)?;
    values.push(integer(u64::from(length)))
}

fn push_media_col(
    alloc: Global,
    values: &mut Items<Value>,
    size: &MediaSize,
) -> Result<(), AllocError>
    ensures { OnOk result (values.new ≡ values.old ++ media_col size.now) }
{
    push_size_begin(alloc, values)?;
    push_media_size(alloc, values, size)?;
    push_size_end(alloc, values, size)
}

fn push_size_begin(alloc: Global, values: &mut Items<Value>) -> Result<(), AllocError>
    ensures { OnOk result (values.new ≡ values.old ++ size_begin) }
{
    values.push(Value::BeginCollection)?;
    values.push(member(alloc, "media-size")?)
}

fn push_size_end(
    alloc: Global,
    values: &mut Items<Value>,
    size: &MediaSize,
) -> Result<(), AllocError>
    ensures { OnOk result (values.new ≡ values.old ++ size_end size.now) }
{
    push_size_name(alloc, values, size)?;
    values.push(Value::EndCollection)
}

fn push_size_name(
    alloc: Global,
    values: &mut Items<Value>,
    size: &MediaSize,
) -> Result<(), AllocError>
    ensures { OnOk result (values.new ≡ values.old ++ size_name size.now) }
{
    push_member(alloc, values, "media-size-name")?;
    push_media_name(alloc, values, size)
}

fn push_member(alloc: Global, values: &mut Items<Value>, name: &str) -> Result<(), AllocError>
    ensures { OnOk result (values.new ≡ values.old ++ member_value name.now ∷ []) }
{
    values.push(member(alloc, name)?)
}

fn push_media_name(
    alloc: Global,
    values: &mut Items<Value>,
    size: &MediaSize,
) -> Result<(), AllocError>
    ensures { OnOk result (values.new ≡ values.old ++ media_name size.now ∷ []) }
{
    values.push(string(alloc, Syntax::Keyword, size.name.as_str())?)
}

fn member(alloc: Global, name: &str) -> Result<Value, AllocError>
    ensures { IfOk result (λ value. value ≡ member_value name.now) }
{
    match AttributeName::read(alloc, name) {
        Ok(name) => Ok(Value::MemberName(name)),
        Err(ValueFault::Bad) => Ok(Value::NoValue),
        Err(ValueFault::Memory) => Err(AllocError),
    }
}

// ## Raster formats

/// Returns the values of a capability of a raster format, if the queue takes the format.
pub fn raster_values(
    alloc: Global,
    printer: &Printer<'_>,
    facts: &PrinterFacts,
    fact: RasterFact,
) -> Result<Items<Value>, AllocError>
    ensures { IfOk result (λ values. values ≡ raster_values printer.now facts.now fact) }
{
    match fact {
        RasterFact::PwgResolutions => {
            if takes_pwg(facts) {
                resolutions(alloc, printer.resolutions())
            } else {
                Ok(Items::empty(alloc))
            }
        }
        RasterFact::PwgSheetBack => {
            if takes_pwg(facts) {
                one_string(alloc, Syntax::Keyword, "normal")
            } else {
                Ok(Items::empty(alloc))
            }
        }
        RasterFact::PwgTypes => {
            if takes_pwg(facts) {
                keywords(alloc, pwg_types(printer))
            } else {
                Ok(Items::empty(alloc))
            }
        }
        RasterFact::Urf => {
            if takes_urf(facts) {
                urf_values(alloc, printer)
            } else {
                Ok(Items::empty(alloc))
            }
        }
    }
}

fn takes_pwg(facts: &PrinterFacts) -> bool
    ensures { result ≡ list_any (is_same pwg_raster) facts.now.formats.items }
{
    has_format(facts.formats.as_slice(), "image/pwg-raster")
}

fn takes_urf(facts: &PrinterFacts) -> bool
    ensures { result ≡ list_any (is_same urf) facts.now.formats.items }
{
    has_format(facts.formats.as_slice(), "image/urf")
}

fn has_format(formats: &[MediaType], format: &str) -> bool
    ensures { result ≡ list_any (is_same format.now) formats.now }
{
    formats.iter().any(|media| format == media.as_str())
}

/// Returns whether this text is among the texts.
pub fn has_word<K: TextKind>(texts: &[Text<K>], word: &str) -> bool
    ensures { result ≡ list_any (is_same word.now) texts.now }
{
    texts.iter().any(|text| word == text.as_str())
}

// Returns the values of pwg-raster-document-type-supported (PWG 5102.4).
fn pwg_types(printer: &Printer<'_>) -> &'static [&'static str]
    ensures { map (λ word. word.now) result.now ≡ pwg_types printer.now }
{
    if printer.color() {
        &["black_1", "sgray_8", "srgb_8"]
    } else {
        &["black_1", "sgray_8"]
    }
}

fn urf_values(alloc: Global, printer: &Printer<'_>) -> Result<Items<Value>, AllocError>
    ensures { IfOk result (λ values. values ≡ map keyword_value (urf_words printer.now)) }
{
    let colors: &[&str] = if printer.color() {
        &["V1.4", "CP1", "W8", "SRGB24"]
    } else {
        &["V1.4", "CP1", "W8"]
    };
    let mut values = keywords(alloc, colors)?;
    push_urf_resolutions(alloc, &mut values, printer.resolutions())?;
    if printer.duplex() {
        values.push(string(alloc, Syntax::Keyword, "DM1")?)?;
    }
    Ok(values)
}

fn push_urf_resolutions(
    alloc: Global,
    values: &mut Items<Value>,
    numbers: &[Resolution],
) -> Result<(), AllocError>
    ensures { OnOk result (values.new ≡ values.old ++ map keyword_value (urf_resolutions numbers.now)) }
{
    let [first, others @ ..] = numbers else {
        return Ok(());
    };
    let text = resolutions_text(alloc, *first, others)?;
    values.push(string(alloc, Syntax::Keyword, text.as_str())?)
}

// Returns the resolutions, joined by hyphens, after `RS`.
fn resolutions_text(
    alloc: Global,
    first: Resolution,
    others: &[Resolution],
) -> Result<String, AllocError>
    ensures { IfOk result (λ text. string_bytes text ≡ codes "RS" ++ joined (first ∷ others.now)) }
{
    let number = first.get();
    let mut text = format!(in alloc; "RS{number}")?;
    for other in others {
        push_hyphenated(alloc, &mut text, other.get())?;
    }
    Ok(text)
}

fn push_hyphenated(alloc: Global, text: &mut String, number: u32) -> Result<(), AllocError>
    ensures { OnOk result (string_bytes text.new ≡ string_bytes text.old ++ (45 ∷ decimal number)) }
{
    let part = format!(in alloc; "-{number}")?;
    text.push_str(part.as_str())
}

// ## Texts

/// Returns the operator's text about the queue, or that of the file of printers. Without both it is the queue's name.
pub fn info_of<'a>(printer: &'a Printer<'_>, facts: &'a PrinterFacts) -> &'a str
    ensures { result.now ≡ info_for printer.now facts.now }
{
    match printer.info() {
        Some(info) => text_or(info.as_str(), facts.info.as_str()),
        None => text_or(facts.name.as_str(), facts.info.as_str()),
    }
}

/// Returns where the printer is, by an operator or else by the file. Without both the text is empty.
pub fn location_of<'a>(printer: &'a Printer<'_>, facts: &'a PrinterFacts) -> &'a str
    ensures { result.now ≡ location_for printer.now facts.now }
{
    match printer.location() {
        Some(location) => text_or(location.as_str(), facts.location.as_str()),
        None => facts.location.as_str(),
    }
}

// Returns a text, or another one if it is empty.
fn text_or<'a>(other: &'a str, text: &'a str) -> &'a str
    ensures { result.now ≡ text_or other.now text.now }
{
    if text.is_empty() { other } else { text }
}
