//! The settings that attributes ask for, one attribute at a time.
ghost use Rattle.std.specs.Prelude.{◌≡◌, Some, IfOk, OnOk, true, map};
ghost use Rattle.std.specs.Option.{option_and_then, option_map};
ghost use Rattle.std.specs.Cow.{cow_str_bytes};
ghost use Rattle.std.specs.List.{list_all};
ghost use Rattle.filter_args.specs.Pairs.{is_option_name};
ghost use Rattle.spool_types.specs.Values.{is_plain};
ghost use Rattle.ipp_options.specs.AttributeWords.{integer_in};
ghost use Rattle.ipp_options.specs.OptionValues.{choice_named};
ghost use Rattle.ipp_options.specs.JobSettings.{no_settings, with_note, with_refused, with_copies, with_priority, with_hold, with_none, must_be_none, is_none_word, are_none, with_media_col, with_other, with_choice, with_value, with_attribute, ranged};

use crate::choice::Choice;
use crate::hold::{Hold, hold_in, hold_time_in};
use crate::paper::{are_honored, size_in};
use crate::values::{choice_value, is_passed, other_value};
use crate::words::{integer_in, is_word};
use filter_args::Options;
use ipp_printers::Printer;
use ipp_values::{Attribute, Items, Value};
use spool_types::{Copies, Moment, Priority, Ranged};
use std::alloc::{AllocError, Global};
use std::borrow::CowStr;

/// An attribute that the printer does not support.
#[derive(Drop)]
pub struct Unsupported<'a> {
    pub attribute: &'a Attribute,
    /// Whether the printer supports the attribute, but not this value.
    pub known: bool,
}

/// The settings of the attributes so far.
#[derive(Drop)]
pub struct Settings<'a> {
    pub copies: Copies,
    pub priority: Priority,
    pub hold: Hold,
    pub options: Options<'a>,
    pub unsupported: Items<Unsupported<'a>>,
    /// Whether an attribute that may not be left out is not supported.
    pub refused: bool,
}

impl<'a> Settings<'a> {
    /// Returns the settings without attributes.
    pub(crate) fn new(alloc: Global) -> Settings<'a>
        ensures { result ≡ no_settings }
    {
        let (Some(copies), Some(priority)) = (Copies::new(1), Priority::new(50)) else {
            unreachable!()
        };
        Settings {
            copies,
            priority,
            hold: Hold::Free,
            options: Options::empty(alloc),
            unsupported: Items::empty(alloc),
            refused: false,
        }
    }

    /// Adds an attribute.
    pub(crate) fn add(
        &mut self,
        alloc: Global,
        printer: &'a Printer<'a>,
        fidelity: bool,
        now: Moment,
        attribute: &'a Attribute,
    ) -> Result<(), AllocError>
        ensures { OnOk result (self.new ≡ with_attribute printer.now fidelity now self.old attribute.entry) }
    {
        let name = attribute.name.as_str();
        let values = attribute.values.as_slice();
        if name == "copies" {
            self.add_copies(attribute, ranged_in(values))
        } else if name == "job-priority" {
            self.add_priority(attribute, ranged_in(values))
        } else if name == "job-hold-until" {
            self.add_hold(attribute, hold_in(values, now))
        } else if name == "job-hold-until-time" {
            self.add_hold(attribute, hold_time_in(values))
        } else if must_be_none(name) {
            self.add_none(attribute)
        } else if name == "media-col" {
            self.add_media_col(printer, attribute)
        } else {
            self.add_choice(alloc, printer, fidelity, attribute)
        }
    }

    // Notes an attribute that the printer does not support.
    fn note(&mut self, attribute: &'a Attribute, known: bool) -> Result<(), AllocError>
        ensures { OnOk result (self.new ≡ with_note self.old attribute.entry known) }
    {
        self.unsupported.push(Unsupported { attribute, known })
    }

    // Notes an attribute that may not be left out.
    fn refuse(&mut self, attribute: &'a Attribute) -> Result<(), AllocError>
        ensures { OnOk result (self.new ≡ with_refused self.old attribute.entry) }
    {
        self.refused = true;
        self.note(attribute, true)
    }

    fn add_copies(
        &mut self,
        attribute: &'a Attribute,
        copies: Option<Copies>,
    ) -> Result<(), AllocError>
        ensures { OnOk result (self.new ≡ with_copies self.old attribute.entry copies) }
    {
        match copies {
            Some(copies) => {
                self.copies = copies;
                Ok(())
            }
            None => self.note(attribute, true),
        }
    }

    fn add_priority(
        &mut self,
        attribute: &'a Attribute,
        priority: Option<Priority>,
    ) -> Result<(), AllocError>
        ensures { OnOk result (self.new ≡ with_priority self.old attribute.entry priority) }
    {
        match priority {
            Some(priority) => {
                self.priority = priority;
                Ok(())
            }
            None => self.note(attribute, true),
        }
    }

    // Two different holds are refused.
    fn add_hold(&mut self, attribute: &'a Attribute, hold: Option<Hold>) -> Result<(), AllocError>
        ensures { OnOk result (self.new ≡ with_hold self.old attribute.entry hold) }
    {
        let Some(hold) = hold else {
            return self.refuse(attribute);
        };
        if hold.is_free() || hold.is_same(&self.hold) {
            Ok(())
        } else if self.hold.is_free() {
            self.hold = hold;
            Ok(())
        } else {
            self.refuse(attribute)
        }
    }

    // Any value but `none` is refused.
    fn add_none(&mut self, attribute: &'a Attribute) -> Result<(), AllocError>
        ensures { OnOk result (self.new ≡ with_none self.old attribute.entry) }
    {
        if are_none(attribute.values.as_slice()) {
            Ok(())
        } else {
            self.refuse(attribute)
        }
    }

    fn add_media_col(
        &mut self,
        printer: &'a Printer<'a>,
        attribute: &'a Attribute,
    ) -> Result<(), AllocError>
        ensures { OnOk result (self.new ≡ with_media_col printer.now self.old attribute.entry) }
    {
        let values = attribute.values.as_slice();
        let Some(size) = size_in(printer.media(), values) else {
            return self.note(attribute, true);
        };
        self.add_value(
            attribute,
            Choice::Media.name(),
            CowStr::Borrowed(size),
            true,
        )?;
        if are_honored(values) {
            Ok(())
        } else {
            self.note(attribute, true)
        }
    }

    fn add_choice(
        &mut self,
        alloc: Global,
        printer: &Printer,
        fidelity: bool,
        attribute: &'a Attribute,
    ) -> Result<(), AllocError>
        ensures { OnOk result (self.new ≡ with_choice printer.now fidelity self.old attribute.entry (choice_named attribute.now.name)) }
    {
        let Some(choice) = Choice::named(attribute.name.as_str()) else {
            return self.add_other(alloc, fidelity, attribute);
        };
        match choice_value(alloc, printer, choice, attribute.values.as_slice())? {
            Some(value) => self.add_value(attribute, choice.name(), value, true),
            None => self.note(attribute, true),
        }
    }

    // Adds an attribute that no rule names.
    fn add_other(
        &mut self,
        alloc: Global,
        fidelity: bool,
        attribute: &'a Attribute,
    ) -> Result<(), AllocError>
        ensures { OnOk result (self.new ≡ with_other fidelity self.old attribute.entry) }
    {
        let name = attribute.name.as_str();
        if fidelity || !is_passed(name) {
            return self.note(attribute, false);
        }
        match other_value(alloc, attribute.values.as_slice())? {
            Some(value) => self.add_value(attribute, name, value, false),
            None => self.note(attribute, false),
        }
    }

    // Adds an option. If its value has a control character, the attribute is not supported.
    fn add_value(
        &mut self,
        attribute: &'a Attribute,
        name: &'a str,
        value: CowStr<'a, Global>,
        known: bool,
    ) -> Result<(), AllocError>
        requires { is_option_name name.now ≡ true }
        ensures { OnOk result (self.new ≡ with_value self.old name.now (cow_str_bytes value.entry) (with_note self.old attribute.entry known)) }
    {
        if is_plain_text(value.as_str()) {
            self.options.insert(name, value)
        } else {
            self.note(attribute, known)
        }
    }
}

// Returns the only value, if it is an integer in the range.
fn ranged_in<const LEAST: u32, const MOST: u32>(values: &[Value]) -> Option<Ranged<LEAST, MOST>>
    ensures { result ≡ option_and_then (ranged LEAST MOST) (integer_in values.now) }
{
    Ranged::new(integer_in(values)?)
}

// Returns whether a text has no control characters.
fn is_plain_text(text: &str) -> bool
    ensures { result ≡ list_all is_plain text.now }
{
    text.bytes().all(|b| is_plain(b))
}

fn is_plain(b: u8) -> bool
    ensures { result ≡ is_plain b }
{
    32 <= b && b != 127
}

// Returns whether an attribute is about a banner, or about a hold of a kind that the spooler does not have.
fn must_be_none(name: &str) -> bool
    ensures { result ≡ must_be_none name.now }
{
    name == "job-sheets"
        || name == "job-sheets-col"
        || name == "job-hold-until-interval"
        || name == "job-delay-output-until"
        || name == "job-delay-output-until-interval"
        || name == "job-delay-output-until-time"
        || name == "job-release-action"
        || name == "job-password"
}

// Returns whether there are values, and all of them are `none`.
fn are_none(values: &[Value]) -> bool
    ensures { result ≡ are_none values.now }
{
    !values.is_empty() && has_only_none(values)
}

fn has_only_none(values: &[Value]) -> bool
    ensures { result ≡ list_all is_none_word values.now }
{
    values.iter().all(|value| is_word("none", value))
}
