//! Job template attributes whose values are options.
ghost use Rattle.std.specs.Prelude.{◌≡◌, true};
ghost use Rattle.std.specs.List.{list_any};
ghost use Rattle.filter_args.specs.Pairs.{is_option_name};
ghost use Rattle.ipp_options.specs.TemplateChoices.{is_side, is_color_mode, is_scaling, is_handling, is_bin};
ghost use Rattle.ipp_options.specs.OptionValues.{choice_named, name_of, is_choice};

use crate::paper::is_media;
use ipp_printers::{Keyword, Printer};

/// A job template attribute that becomes an option of the same name.
#[derive(Clone, Copy)]
pub(crate) enum Choice {
    Media,
    Sides,
    NumberUp,
    Orientation,
    PageRanges,
    Quality,
    ColorMode,
    Scaling,
    Resolution,
    OutputBin,
    Finishings,
    Handling,
}

impl Choice {
    /// Returns the attribute with this name.
    pub(crate) fn named(name: &str) -> Option<Choice>
        ensures { result ≡ choice_named name.now }
    {
        if name == "media" {
            Some(Choice::Media)
        } else if name == "sides" {
            Some(Choice::Sides)
        } else if name == "number-up" {
            Some(Choice::NumberUp)
        } else if name == "orientation-requested" {
            Some(Choice::Orientation)
        } else if name == "page-ranges" {
            Some(Choice::PageRanges)
        } else if name == "print-quality" {
            Some(Choice::Quality)
        } else if name == "print-color-mode" {
            Some(Choice::ColorMode)
        } else if name == "print-scaling" {
            Some(Choice::Scaling)
        } else if name == "printer-resolution" {
            Some(Choice::Resolution)
        } else if name == "output-bin" {
            Some(Choice::OutputBin)
        } else if name == "finishings" {
            Some(Choice::Finishings)
        } else if name == "multiple-document-handling" {
            Some(Choice::Handling)
        } else {
            None
        }
    }

    /// Returns the name of the attribute, and of the option that it becomes.
    pub(crate) fn name(self) -> &'static str
        ensures value { result.now ≡ name_of self }
        ensures option { is_option_name result.now ≡ true }
    {
        match self {
            Choice::Media => "media",
            Choice::Sides => "sides",
            Choice::NumberUp => "number-up",
            Choice::Orientation => "orientation-requested",
            Choice::PageRanges => "page-ranges",
            Choice::Quality => "print-quality",
            Choice::ColorMode => "print-color-mode",
            Choice::Scaling => "print-scaling",
            Choice::Resolution => "printer-resolution",
            Choice::OutputBin => "output-bin",
            Choice::Finishings => "finishings",
            Choice::Handling => "multiple-document-handling",
        }
    }

    /// Returns whether the printer supports a word as the value of this attribute.
    pub(crate) fn is_choice(self, printer: &Printer, word: &str) -> bool
        ensures { result ≡ is_choice printer.now self word.now }
    {
        match self {
            Choice::Media => is_media(printer.media(), word),
            Choice::Sides => is_side(printer.duplex(), word),
            Choice::ColorMode => is_color_mode(printer.color(), word),
            Choice::Scaling => is_scaling(word),
            Choice::OutputBin => is_bin(printer.output_bins(), word),
            Choice::Handling => is_handling(word),
            _ => false,
        }
    }
}

fn is_side(duplex: bool, word: &str) -> bool
    ensures { result ≡ is_side duplex word.now }
{
    word == "one-sided"
        || (duplex && (word == "two-sided-long-edge" || word == "two-sided-short-edge"))
}

fn is_color_mode(color: bool, word: &str) -> bool
    ensures { result ≡ is_color_mode color word.now }
{
    word == "auto" || word == "monochrome" || (color && word == "color")
}

fn is_scaling(word: &str) -> bool
    ensures { result ≡ is_scaling word.now }
{
    word == "auto" || word == "auto-fit" || word == "fill" || word == "fit" || word == "none"
}

fn is_handling(word: &str) -> bool
    ensures { result ≡ is_handling word.now }
{
    word == "separate-documents-uncollated-copies" || word == "separate-documents-collated-copies"
}

fn is_bin(bins: &[Keyword], word: &str) -> bool
    ensures { result ≡ is_bin bins.now word.now }
{
    bins.iter().any(|bin| bin.as_str() == word)
}
