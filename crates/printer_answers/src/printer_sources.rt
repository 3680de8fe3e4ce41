//! From which fact each attribute of a printer takes its values.
use ipp_answers::values::Syntax;
use requested_attributes::AttributeGroup;

/// An attribute of printers.
#[derive(Clone, Copy)]
pub struct PrinterRow<'a> {
    pub name: &'a str,
    pub group: AttributeGroup,
    pub source: PrinterSource<'a>,
}

/// The source of the values of an attribute.
#[derive(Clone, Copy)]
pub enum PrinterSource<'a> {
    /// The same values for each printer.
    Fixed(Fixed<'a>),
    /// What the service reports of the queue.
    Queue(QueueFact),
    /// The addresses of the server and of the printer.
    Address(AddressFact),
    /// The server.
    Server(ServerFact),
    /// The file of printers.
    Described(DescribedFact),
    /// What the service reports, and otherwise the file of printers.
    Mixed(MixedFact),
    /// The file of printers, if the queue takes a raster format.
    Raster(RasterFact),
}

/// Values that do not depend on any fact.
#[derive(Clone, Copy)]
pub enum Fixed<'a> {
    Strings(Syntax, &'a [&'a str]),
    Enums(&'a [u32]),
    Integers(&'a [u32]),
    Boolean(bool),
    Range(u32, u32),
    NoValue,
    Unknown,
}

/// A fact that the service reports of a queue.
#[derive(Clone, Copy)]
pub enum QueueFact {
    DeviceUri,
    Formats,
    Accepting,
    Name,
    State,
    ChangeDate,
    ChangeTime,
    Message,
    Reasons,
    QueuedJobs,
}

/// An address.
#[derive(Clone, Copy)]
pub enum AddressFact {
    Icon,
    Page,
    Printer,
    Uuid,
}

/// A fact of the server.
#[derive(Clone, Copy)]
pub enum ServerFact {
    CreationAttributes,
    LongestDocument,
    SeveralDocuments,
    TimeOut,
    Operations,
    ConfigurationDate,
    ConfigurationTime,
    CurrentDate,
    CurrentTime,
    Security,
    WhichJobs,
}

/// A fact of the file of printers.
#[derive(Clone, Copy)]
pub enum DescribedFact {
    Color,
    ColorModes,
    ColorPagesPerMinute,
    DefaultMedia,
    DefaultMediaCol,
    DefaultOutputBin,
    DefaultResolution,
    DeviceId,
    MakeAndModel,
    Media,
    MediaDatabase,
    MediaSizes,
    OutputBins,
    PagesPerMinute,
    Resolutions,
    Sides,
    Type,
}

/// A text that an operator or the file of printers states.
#[derive(Clone, Copy)]
pub enum MixedFact {
    Info,
    Location,
}

/// A capability that concerns one raster format.
#[derive(Clone, Copy)]
pub enum RasterFact {
    PwgResolutions,
    PwgSheetBack,
    PwgTypes,
    Urf,
}
