//! The properties that lines can state.
ghost use Rattle.std.specs.Prelude.{◌≡◌};
ghost use Rattle.ipp_printers.specs.PropertyKinds.{keyword_of, kind_named};

/// A property of a printer.
#[derive(Clone, Copy)]
pub enum PropertyKind {
    /// Its printer-info (RFC 8011).
    Info,
    /// Its printer-location.
    Location,
    /// Its printer-make-and-model.
    MakeAndModel,
    /// Its printer-device-id (PWG 5107.2).
    DeviceId,
    /// The sizes of paper.
    Media,
    /// Whether it prints in color.
    Color,
    /// Whether it prints on both sides.
    Duplex,
    /// Its resolutions in dots per inch.
    Resolutions,
    /// Its output bins.
    OutputBins,
    /// Pages per minute.
    PagesPerMinute,
    /// Pages per minute in color.
    ColorPagesPerMinute,
}

impl PropertyKind {
    /// Returns the word that begins the line of this property.
    pub fn keyword(self) -> &'static str
        ensures value { result.now ≡ keyword_of self }
    {
        match self {
            PropertyKind::Info => "info",
            PropertyKind::Location => "location",
            PropertyKind::MakeAndModel => "make-and-model",
            PropertyKind::DeviceId => "device-id",
            PropertyKind::Media => "media",
            PropertyKind::Color => "color",
            PropertyKind::Duplex => "duplex",
            PropertyKind::Resolutions => "resolutions",
            PropertyKind::OutputBins => "output-bins",
            PropertyKind::PagesPerMinute => "pages-per-minute",
            PropertyKind::ColorPagesPerMinute => "pages-per-minute-color",
        }
    }

    // Returns the property whose line begins with this word.
    pub(crate) fn named(word: &[u8]) -> Option<PropertyKind>
        ensures { result ≡ kind_named word.now }
    {
        if word == b"info".as_slice() {
            Some(PropertyKind::Info)
        } else if word == b"location".as_slice() {
            Some(PropertyKind::Location)
        } else if word == b"make-and-model".as_slice() {
            Some(PropertyKind::MakeAndModel)
        } else if word == b"device-id".as_slice() {
            Some(PropertyKind::DeviceId)
        } else if word == b"media".as_slice() {
            Some(PropertyKind::Media)
        } else if word == b"color".as_slice() {
            Some(PropertyKind::Color)
        } else if word == b"duplex".as_slice() {
            Some(PropertyKind::Duplex)
        } else if word == b"resolutions".as_slice() {
            Some(PropertyKind::Resolutions)
        } else if word == b"output-bins".as_slice() {
            Some(PropertyKind::OutputBins)
        } else if word == b"pages-per-minute".as_slice() {
            Some(PropertyKind::PagesPerMinute)
        } else if word == b"pages-per-minute-color".as_slice() {
            Some(PropertyKind::ColorPagesPerMinute)
        } else {
            None
        }
    }
}
