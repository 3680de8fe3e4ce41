//! The settings that a request asks for.
ghost use Rattle.std.specs.Prelude.{◌≡◌, IfOk, IfErr, OnOk, IsErrOf, Ok, false};
ghost use Rattle.spool_types.specs.Values.{is_options};
ghost use Rattle.filter_args.specs.Printing.{printed};
ghost use Rattle.filter_args.specs.OptionTexts.{reading};
ghost use Rattle.ipp_options.specs.JobSettings.{settings_of, is_refused};
ghost use Rattle.ipp_options.specs.KeptHolds.{HoldKept, IsFault};

use crate::hold::Hold;
use crate::settings::{Settings, Unsupported};
use filter_args::Options;
use ipp_printers::Printer;
use ipp_values::{Attribute, Items};
use spool_types::{Copies, Moment, OptionText, Priority, TextFault};
use std::alloc::{AllocError, Global};

/// The words of `create`, the hold of the job, and the attributes that the printer does not support.
#[derive(Drop)]
pub struct JobSettings<'a> {
    pub copies: Copies,
    pub priority: Priority,
    pub hold: Hold,
    pub options: OptionText,
    pub unsupported: Items<Unsupported<'a>>,
}

/// Why a request is refused.
#[derive(Drop)]
pub enum SettingsFault<'a> {
    /// The printer does not support these attributes. One of them may not be left out, or nothing may be, with fidelity.
    Unsupported(Items<Unsupported<'a>>),
    /// The options are longer than 2,048 bytes.
    TooLong,
    /// Out of memory.
    Memory,
}

impl<'a> From<AllocError> for SettingsFault<'a> {
    ghost use Rattle.ipp_options.specs.declared.read.SettingsFault.TheVariants.{Memory};

    ghost from_gives = { λ _ e. e ≡ Memory };

    fn from(_error: AllocError) -> SettingsFault<'a> {
        SettingsFault::Memory
    }
}

/// Returns the settings that these job attributes ask for at the moment `now`, in seconds since 1970.
pub fn read_settings<'a>(
    alloc: Global,
    printer: &'a Printer<'a>,
    attributes: &[&'a Attribute],
    fidelity: bool,
    now: Moment,
) -> Result<JobSettings<'a>, SettingsFault<'a>>
    ensures copies { IfOk result (λ asked. asked.copies ≡ (settings_of printer.now fidelity now attributes.now).copies) }
    ensures priority { IfOk result (λ asked. asked.priority ≡ (settings_of printer.now fidelity now attributes.now).priority) }
    ensures hold { IfOk result (λ asked. asked.hold ≡ (settings_of printer.now fidelity now attributes.now).hold) }
    ensures options { IfOk result (λ asked. asked.options ≡ printed (settings_of printer.now fidelity now attributes.now).options) }
    ensures unsupported { IfOk result (λ asked. asked.unsupported ≡ (settings_of printer.now fidelity now attributes.now).unsupported) }
    ensures accepted { OnOk result (is_refused fidelity (settings_of printer.now fidelity now attributes.now) ≡ false) }
    ensures fault { IfErr result (λ fault. IsFault fault fidelity (settings_of printer.now fidelity now attributes.now)) }

    // The text of the options reads back as exactly these options.
    ensures read_back { IfOk result (λ asked. reading asked.options ≡ Ok (settings_of printer.now fidelity now attributes.now).options) }
    // A hold and a banner are never dropped.
    ensures hold_kept { IfOk result (λ asked. HoldKept now attributes.now asked.hold) }
{
    let Settings {
        copies,
        priority,
        hold,
        options,
        unsupported,
        refused,
    } = collect(alloc, printer, attributes, fidelity, now)?;
    if refused || (fidelity && !unsupported.as_slice().is_empty()) {
        return Err(SettingsFault::Unsupported(unsupported));
    }
    let text = text_of(alloc, &options);
    drop(options);
    match text {
        Ok(options) => Ok(JobSettings {
            copies,
            priority,
            hold,
            options,
            unsupported,
        }),
        Err(TextFault::Bad) => Err(SettingsFault::TooLong),
        Err(TextFault::Memory) => Err(SettingsFault::Memory),
    }
}

// Returns the text of options, which reads back as these options.
fn text_of(alloc: Global, options: &Options) -> Result<OptionText, TextFault>
    ensures value { IfOk result (λ text. text ≡ printed options.now) }
    ensures read_back { reading (printed options.now) ≡ Ok options.now }
    ensures bad { IsErrOf result TextFault.Bad → is_options (printed options.now) ≡ false }
{
    let text = options.print()?;
    OptionText::read(alloc, text.as_str())
}

fn collect<'a>(
    alloc: Global,
    printer: &'a Printer<'a>,
    attributes: &[&'a Attribute],
    fidelity: bool,
    now: Moment,
) -> Result<Settings<'a>, AllocError>
    ensures { IfOk result (λ settings. settings ≡ settings_of printer.now fidelity now attributes.now) }
{
    let mut settings = Settings::new(alloc);
    for attribute in attributes {
        settings.add(alloc, printer, fidelity, now, *attribute)?;
    }
    Ok(settings)
}
