//! Tests of job attributes.
use filter_args::Options;
use ipp_options::{Hold, JobSettings, SettingsFault, read_settings, stated_attributes};
use ipp_printers::{Printer, PrinterList};
use ipp_values::{Attribute, Keyword, NameString, RangeOfInteger, Resolution, Value, ValueFault};
use requested_attributes::Asked;
use spool_types::Moment;
use std::alloc::{AllocError, Global};

const FILE: &str = "resolutions 600";

fn push(
    list: &mut Vec<Attribute>,
    alloc: Global,
    name: &str,
    value: Value,
) -> Result<(), ValueFault> {
    let attribute = Attribute::new(alloc, name, value)?;
    list.push(attribute).map_err(AllocError::from)?;
    Ok(())
}

fn push_words(alloc: Global, list: &mut Vec<Attribute>) -> Result<(), ValueFault> {
    push(
        list,
        alloc,
        "note",
        Value::Name(NameString::read(alloc, "a b=c")?),
    )?;
    push(
        list,
        alloc,
        "media",
        Value::Keyword(Keyword::read(alloc, "A4")?),
    )?;
    push(
        list,
        alloc,
        "job-hold-until",
        Value::Keyword(Keyword::read(alloc, "0:01")?),
    )
}

fn push_numbers(alloc: Global, list: &mut Vec<Attribute>) -> Result<(), ValueFault> {
    push(list, alloc, "copies", Value::Integer(2))?;
    push(list, alloc, "level", Value::Integer(-7))?;
    push(
        list,
        alloc,
        "page-ranges",
        Value::RangeOfInteger(RangeOfInteger { lower: 2, upper: 5 }),
    )?;
    let resolution = Resolution {
        cross_feed: 600,
        feed: 600,
        units: Resolution::DOTS_PER_INCH,
    };
    push(
        list,
        alloc,
        "printer-resolution",
        Value::Resolution(resolution),
    )?;
    push(list, alloc, "sides", Value::Integer(1))
}

const OPTIONS: &str =
    "note=a\\ b=c media=A4 level=-7 page-ranges=2-5 printer-resolution=600x600dpi";

// Returns whether these are the settings of the attributes. The value of sides is not supported.
fn are_asked(asked: &JobSettings) -> bool {
    asked.copies.get() == 2
        && asked.options.as_str() == OPTIONS
        && matches!(asked.hold, Hold::Until(moment) if moment.get() == 60)
        && asked.unsupported.as_slice().len() == 1
}

// Returns whether the settings are as expected without fidelity, and refused with fidelity.
fn is_read(alloc: Global, printer: &Printer, list: &[&Attribute]) -> bool {
    let Ok(asked) = read_settings(alloc, printer, list, false, Moment::ZERO) else {
        return false;
    };
    match read_settings(alloc, printer, list, true, Moment::ZERO) {
        Err(SettingsFault::Unsupported(attributes)) => {
            attributes.as_slice().len() == 3 && are_asked(&asked)
        }
        _ => false,
    }
}

fn is_as_asked(alloc: Global, printers: &PrinterList) -> Result<bool, ValueFault> {
    let mut list = Vec::new(alloc);
    push_words(alloc, &mut list)?;
    push_numbers(alloc, &mut list)?;
    let lent: Vec<&Attribute> = list.iter().collect(alloc)?;
    Ok(is_read(alloc, &printers.printer("q"), &lent))
}

#[test]
fn attributes_become_settings(rt: HostRuntime) {
    let Ok(printers) = PrinterList::read(rt.alloc(), FILE) else {
        return assert!(rt; false);
    };
    assert!(rt; matches!(is_as_asked(rt.alloc(), &printers), Ok(true)));
}

// Returns whether these are the attributes that `OPTIONS` states.
fn are_stated(attributes: &[Attribute]) -> bool {
    let [media, pages, resolution] = attributes else {
        return false;
    };
    media.name.as_str() == "media"
        && matches!(media.values.as_slice(), [Value::Keyword(word)] if word.as_str() == "A4")
        && pages.name.as_str() == "page-ranges"
        && matches!(pages.values.as_slice(), [Value::RangeOfInteger(range)] if range.lower == 2 && range.upper == 5)
        && resolution.name.as_str() == "printer-resolution"
        && matches!(resolution.values.as_slice(), [Value::Resolution(dots)] if dots.cross_feed == 600 && dots.feed == 600)
}

fn is_stated(alloc: Global, text: &str) -> bool {
    let Ok(options) = Options::parse(alloc, text) else {
        return false;
    };
    match stated_attributes(alloc, Asked::All, &options) {
        Ok(attributes) => are_stated(attributes.as_slice()),
        Err(_) => false,
    }
}

#[test]
fn options_become_attributes(rt: HostRuntime) {
    assert!(rt; is_stated(rt.alloc(), OPTIONS));
}
