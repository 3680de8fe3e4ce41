//! The properties of a printer.
ghost use Rattle.std.specs.Prelude.{◌≡◌, ◌∷◌, ◌++◌, []};
ghost use Rattle.std.specs.Option.{option_map};
ghost use Rattle.ipp_printers.specs.PrinterFacts.{a4, property_of, info_of, location_of, make_and_model_of, device_id_of, media_of, color_of, duplex_of, resolutions_of, output_bins_of, pages_per_minute_of, color_pages_per_minute_of};

use crate::kind::PropertyKind;
use crate::media::{Keyword, MediaSize};
use crate::property::{PageRate, Property, Resolution};
use spool_types::{Message, Note};
use std::marker::Model;

/// A printer: the properties of its queue's section, and then those of all printers. Its value in contracts is the list of both.
#[derive(Drop)]
pub struct Printer<'a> {
    own: &'a [Property],
    all: &'a [Property],
    // The size A4 alone.
    default_media: &'a [MediaSize],
}

impl<'a> Model for Printer<'a> {
    ghost use Rattle.std.specs.Prelude.{◌≡◌, ◌∷◌, ◌++◌, [], List};
    ghost use Rattle.ipp_printers.specs.PrinterFacts.{a4};
    ghost use Rattle.ipp_printers.specs.declared.property.Property.{Property};

    ghost Value = { List Property };

    ghost view = { λ printer. printer.own.now ++ printer.all.now };

    ghost invariant = { λ printer. printer.default_media.now ≡ a4 ∷ [] };
}

impl<'a> Printer<'a> {
    pub(crate) fn new(
        own: &'a [Property],
        all: &'a [Property],
        default_media: &'a [MediaSize],
    ) -> Printer<'a>
        requires { default_media.now ≡ a4 ∷ [] }
        ensures { result ≡ own.now ++ all.now }
    {
        Printer {
            own,
            all,
            default_media,
        }
    }

    // Returns the first property of this kind.
    fn property(&self, kind: PropertyKind) -> Option<&Property>
        ensures { option_map (λ property. property.now) result ≡ property_of kind self.now }
    {
        match find_kind(self.own, kind) {
            Some(property) => Some(property),
            None => find_kind(self.all, kind),
        }
    }

    /// Returns its printer-info.
    pub fn info(&self) -> Option<&Note>
        ensures value { option_map (λ text. text.now) result ≡ info_of (property_of PropertyKind.Info self.now) }
    {
        match self.property(PropertyKind::Info) {
            Some(Property::Info(text)) => Some(text),
            _ => None,
        }
    }

    /// Returns its printer-location.
    pub fn location(&self) -> Option<&Note>
        ensures value { option_map (λ text. text.now) result ≡ location_of (property_of PropertyKind.Location self.now) }
    {
        match self.property(PropertyKind::Location) {
            Some(Property::Location(text)) => Some(text),
            _ => None,
        }
    }

    /// Returns its printer-make-and-model.
    pub fn make_and_model(&self) -> Option<&Note>
        ensures value { option_map (λ text. text.now) result ≡ make_and_model_of (property_of PropertyKind.MakeAndModel self.now) }
    {
        match self.property(PropertyKind::MakeAndModel) {
            Some(Property::MakeAndModel(text)) => Some(text),
            _ => None,
        }
    }

    /// Returns its printer-device-id (PWG 5107.2).
    pub fn device_id(&self) -> Option<&Message>
        ensures value { option_map (λ text. text.now) result ≡ device_id_of (property_of PropertyKind.DeviceId self.now) }
    {
        match self.property(PropertyKind::DeviceId) {
            Some(Property::DeviceId(text)) => Some(text),
            _ => None,
        }
    }

    /// Returns its sizes of paper, the default first. Without a line of `media` this is A4.
    pub fn media(&self) -> &[MediaSize]
        ensures value { result.now ≡ media_of (property_of PropertyKind.Media self.now) }
    {
        match self.property(PropertyKind::Media) {
            Some(Property::Media(sizes)) => sizes.as_slice(),
            _ => self.default_media,
        }
    }

    /// Returns whether it prints in color.
    pub fn color(&self) -> bool
        ensures value { result ≡ color_of (property_of PropertyKind.Color self.now) }
    {
        match self.property(PropertyKind::Color) {
            Some(Property::Color(flag)) => *flag,
            _ => false,
        }
    }

    /// Returns whether it prints on both sides.
    pub fn duplex(&self) -> bool
        ensures value { result ≡ duplex_of (property_of PropertyKind.Duplex self.now) }
    {
        match self.property(PropertyKind::Duplex) {
            Some(Property::Duplex(flag)) => *flag,
            _ => false,
        }
    }

    /// Returns its resolutions in dots per inch, the default first. Without a line of `resolutions` there is none.
    pub fn resolutions(&self) -> &[Resolution]
        ensures value { result.now ≡ resolutions_of (property_of PropertyKind.Resolutions self.now) }
    {
        match self.property(PropertyKind::Resolutions) {
            Some(Property::Resolutions(resolutions)) => resolutions.as_slice(),
            _ => &[],
        }
    }

    /// Returns its output bins, the default first. Without a line of `output-bins` there is none.
    pub fn output_bins(&self) -> &[Keyword]
        ensures value { result.now ≡ output_bins_of (property_of PropertyKind.OutputBins self.now) }
    {
        match self.property(PropertyKind::OutputBins) {
            Some(Property::OutputBins(bins)) => bins.as_slice(),
            _ => &[],
        }
    }

    /// Returns its number of pages per minute.
    pub fn pages_per_minute(&self) -> Option<PageRate>
        ensures value { result ≡ pages_per_minute_of (property_of PropertyKind.PagesPerMinute self.now) }
    {
        match self.property(PropertyKind::PagesPerMinute) {
            Some(Property::PagesPerMinute(rate)) => Some(*rate),
            _ => None,
        }
    }

    /// Returns its number of pages per minute in color.
    pub fn color_pages_per_minute(&self) -> Option<PageRate>
        ensures value { result ≡ color_pages_per_minute_of (property_of PropertyKind.ColorPagesPerMinute self.now) }
    {
        match self.property(PropertyKind::ColorPagesPerMinute) {
            Some(Property::ColorPagesPerMinute(rate)) => Some(*rate),
            _ => None,
        }
    }
}

/// Returns the first property of this kind in a section.
pub(crate) fn find_kind(properties: &[Property], kind: PropertyKind) -> Option<&Property>
    ensures { option_map (λ property. property.now) result ≡ property_of kind properties.now }
{
    properties
        .iter()
        .find(|property| property.kind().keyword() == kind.keyword())
}
