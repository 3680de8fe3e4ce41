//! The attributes of printers, each with its source.
ghost use Rattle.std.specs.Prelude.{◌≡◌, List, map};
ghost use Rattle.printer_answers.specs.PrinterRows.{description_rows, template_rows};
ghost use Rattle.printer_answers.specs.PrinterSources.{stated};
ghost use Rattle.printer_answers.specs.declared.facts.PrinterFacts.{PrinterFacts};
ghost use Rattle.ipp_answers.specs.declared.facts.Server.{Server};
ghost use Rattle.ipp_printers.specs.declared.property.Property.{Property};

use crate::printer_sources::Fixed::{Boolean, Enums, Integers, NoValue, Range, Strings, Unknown};
use crate::printer_sources::PrinterSource::{
    Address, Described, Fixed, Mixed, Queue, Raster, Server,
};
use crate::printer_sources::{
    AddressFact, DescribedFact, MixedFact, PrinterRow, QueueFact, RasterFact, ServerFact,
};
use ipp_answers::values::Syntax;
use requested_attributes::AttributeGroup;

static DESCRIPTION: [PrinterRow<'static>; 60] = [
    PrinterRow {
        name: "charset-configured",
        group: AttributeGroup::PrinterDescription,
        source: Fixed(Strings(Syntax::Charset, &["utf-8"])),
    },
    PrinterRow {
        name: "charset-supported",
        group: AttributeGroup::PrinterDescription,
        source: Fixed(Strings(Syntax::Charset, &["us-ascii", "utf-8"])),
    },
    PrinterRow {
        name: "color-supported",
        group: AttributeGroup::PrinterDescription,
        source: Described(DescribedFact::Color),
    },
    PrinterRow {
        name: "compression-supported",
        group: AttributeGroup::PrinterDescription,
        source: Fixed(Strings(Syntax::Keyword, &["none"])),
    },
    PrinterRow {
        name: "device-uri",
        group: AttributeGroup::PrinterDescription,
        source: Queue(QueueFact::DeviceUri),
    },
    PrinterRow {
        name: "document-format-default",
        group: AttributeGroup::PrinterDescription,
        source: Fixed(Strings(Syntax::MimeMediaType, &["application/octet-stream"])),
    },
    PrinterRow {
        name: "document-format-supported",
        group: AttributeGroup::PrinterDescription,
        source: Queue(QueueFact::Formats),
    },
    PrinterRow {
        name: "generated-natural-language-supported",
        group: AttributeGroup::PrinterDescription,
        source: Fixed(Strings(Syntax::NaturalLanguage, &["en"])),
    },
    PrinterRow {
        name: "identify-actions-default",
        group: AttributeGroup::PrinterDescription,
        source: Fixed(Strings(Syntax::Keyword, &["display"])),
    },
    PrinterRow {
        name: "identify-actions-supported",
        group: AttributeGroup::PrinterDescription,
        source: Fixed(Strings(Syntax::Keyword, &["display"])),
    },
    PrinterRow {
        name: "ipp-features-supported",
        group: AttributeGroup::PrinterDescription,
        source: Fixed(Strings(Syntax::Keyword, &["none"])),
    },
    PrinterRow {
        name: "ipp-versions-supported",
        group: AttributeGroup::PrinterDescription,
        source: Fixed(Strings(Syntax::Keyword, &["1.1", "2.0"])),
    },
    PrinterRow {
        name: "job-creation-attributes-supported",
        group: AttributeGroup::PrinterDescription,
        source: Server(ServerFact::CreationAttributes),
    },
    PrinterRow {
        name: "job-ids-supported",
        group: AttributeGroup::PrinterDescription,
        source: Fixed(Boolean(true)),
    },
    PrinterRow {
        name: "job-k-octets-supported",
        group: AttributeGroup::PrinterDescription,
        source: Server(ServerFact::LongestDocument),
    },
    PrinterRow {
        name: "job-settable-attributes-supported",
        group: AttributeGroup::PrinterDescription,
        source: Fixed(Strings(Syntax::Keyword, &["job-hold-until"])),
    },
    PrinterRow {
        name: "multiple-document-jobs-supported",
        group: AttributeGroup::PrinterDescription,
        source: Server(ServerFact::SeveralDocuments),
    },
    PrinterRow {
        name: "multiple-operation-time-out",
        group: AttributeGroup::PrinterDescription,
        source: Server(ServerFact::TimeOut),
    },
    PrinterRow {
        name: "multiple-operation-time-out-action",
        group: AttributeGroup::PrinterDescription,
        source: Fixed(Strings(Syntax::Keyword, &["abort-job"])),
    },
    PrinterRow {
        name: "natural-language-configured",
        group: AttributeGroup::PrinterDescription,
        source: Fixed(Strings(Syntax::NaturalLanguage, &["en"])),
    },
    PrinterRow {
        name: "operations-supported",
        group: AttributeGroup::PrinterDescription,
        source: Server(ServerFact::Operations),
    },
    PrinterRow {
        name: "pages-per-minute",
        group: AttributeGroup::PrinterDescription,
        source: Described(DescribedFact::PagesPerMinute),
    },
    PrinterRow {
        name: "pages-per-minute-color",
        group: AttributeGroup::PrinterDescription,
        source: Described(DescribedFact::ColorPagesPerMinute),
    },
    PrinterRow {
        name: "pdl-override-supported",
        group: AttributeGroup::PrinterDescription,
        source: Fixed(Strings(Syntax::Keyword, &["attempted"])),
    },
    PrinterRow {
        name: "preferred-attributes-supported",
        group: AttributeGroup::PrinterDescription,
        source: Fixed(Boolean(false)),
    },
    PrinterRow {
        name: "printer-config-change-date-time",
        group: AttributeGroup::PrinterDescription,
        source: Server(ServerFact::ConfigurationDate),
    },
    PrinterRow {
        name: "printer-config-change-time",
        group: AttributeGroup::PrinterDescription,
        source: Server(ServerFact::ConfigurationTime),
    },
    PrinterRow {
        name: "printer-current-time",
        group: AttributeGroup::PrinterDescription,
        source: Server(ServerFact::CurrentDate),
    },
    PrinterRow {
        name: "printer-device-id",
        group: AttributeGroup::PrinterDescription,
        source: Described(DescribedFact::DeviceId),
    },
    PrinterRow {
        name: "printer-dns-sd-name",
        group: AttributeGroup::PrinterDescription,
        source: Fixed(NoValue),
    },
    PrinterRow {
        name: "printer-geo-location",
        group: AttributeGroup::PrinterDescription,
        source: Fixed(Unknown),
    },
    PrinterRow {
        name: "printer-get-attributes-supported",
        group: AttributeGroup::PrinterDescription,
        source: Fixed(Strings(Syntax::Keyword, &["document-format"])),
    },
    PrinterRow {
        name: "printer-icons",
        group: AttributeGroup::PrinterDescription,
        source: Address(AddressFact::Icon),
    },
    PrinterRow {
        name: "printer-info",
        group: AttributeGroup::PrinterDescription,
        source: Mixed(MixedFact::Info),
    },
    PrinterRow {
        name: "printer-is-accepting-jobs",
        group: AttributeGroup::PrinterDescription,
        source: Queue(QueueFact::Accepting),
    },
    PrinterRow {
        name: "printer-is-temporary",
        group: AttributeGroup::PrinterDescription,
        source: Fixed(Boolean(false)),
    },
    PrinterRow {
        name: "printer-location",
        group: AttributeGroup::PrinterDescription,
        source: Mixed(MixedFact::Location),
    },
    PrinterRow {
        name: "printer-make-and-model",
        group: AttributeGroup::PrinterDescription,
        source: Described(DescribedFact::MakeAndModel),
    },
    PrinterRow {
        name: "printer-more-info",
        group: AttributeGroup::PrinterDescription,
        source: Address(AddressFact::Page),
    },
    PrinterRow {
        name: "printer-name",
        group: AttributeGroup::PrinterDescription,
        source: Queue(QueueFact::Name),
    },
    PrinterRow {
        name: "printer-organization",
        group: AttributeGroup::PrinterDescription,
        source: Fixed(Strings(Syntax::Text, &[""])),
    },
    PrinterRow {
        name: "printer-organizational-unit",
        group: AttributeGroup::PrinterDescription,
        source: Fixed(Strings(Syntax::Text, &[""])),
    },
    PrinterRow {
        name: "printer-state",
        group: AttributeGroup::PrinterDescription,
        source: Queue(QueueFact::State),
    },
    PrinterRow {
        name: "printer-state-change-date-time",
        group: AttributeGroup::PrinterDescription,
        source: Queue(QueueFact::ChangeDate),
    },
    PrinterRow {
        name: "printer-state-change-time",
        group: AttributeGroup::PrinterDescription,
        source: Queue(QueueFact::ChangeTime),
    },
    PrinterRow {
        name: "printer-state-message",
        group: AttributeGroup::PrinterDescription,
        source: Queue(QueueFact::Message),
    },
    PrinterRow {
        name: "printer-state-reasons",
        group: AttributeGroup::PrinterDescription,
        source: Queue(QueueFact::Reasons),
    },
    PrinterRow {
        name: "printer-supply-info-uri",
        group: AttributeGroup::PrinterDescription,
        source: Address(AddressFact::Page),
    },
    PrinterRow {
        name: "printer-type",
        group: AttributeGroup::PrinterDescription,
        source: Described(DescribedFact::Type),
    },
    PrinterRow {
        name: "printer-up-time",
        group: AttributeGroup::PrinterDescription,
        source: Server(ServerFact::CurrentTime),
    },
    PrinterRow {
        name: "printer-uri-supported",
        group: AttributeGroup::PrinterDescription,
        source: Address(AddressFact::Printer),
    },
    PrinterRow {
        name: "printer-uuid",
        group: AttributeGroup::PrinterDescription,
        source: Address(AddressFact::Uuid),
    },
    PrinterRow {
        name: "pwg-raster-document-resolution-supported",
        group: AttributeGroup::PrinterDescription,
        source: Raster(RasterFact::PwgResolutions),
    },
    PrinterRow {
        name: "pwg-raster-document-sheet-back",
        group: AttributeGroup::PrinterDescription,
        source: Raster(RasterFact::PwgSheetBack),
    },
    PrinterRow {
        name: "pwg-raster-document-type-supported",
        group: AttributeGroup::PrinterDescription,
        source: Raster(RasterFact::PwgTypes),
    },
    PrinterRow {
        name: "queued-job-count",
        group: AttributeGroup::PrinterDescription,
        source: Queue(QueueFact::QueuedJobs),
    },
    PrinterRow {
        name: "urf-supported",
        group: AttributeGroup::PrinterDescription,
        source: Raster(RasterFact::Urf),
    },
    PrinterRow {
        name: "uri-authentication-supported",
        group: AttributeGroup::PrinterDescription,
        source: Fixed(Strings(Syntax::Keyword, &["requesting-user-name"])),
    },
    PrinterRow {
        name: "uri-security-supported",
        group: AttributeGroup::PrinterDescription,
        source: Server(ServerFact::Security),
    },
    PrinterRow {
        name: "which-jobs-supported",
        group: AttributeGroup::PrinterDescription,
        source: Server(ServerFact::WhichJobs),
    },
];

static TEMPLATE: [PrinterRow<'static>; 38] = [
    PrinterRow {
        name: "copies-default",
        group: AttributeGroup::JobTemplate,
        source: Fixed(Integers(&[1])),
    },
    PrinterRow {
        name: "copies-supported",
        group: AttributeGroup::JobTemplate,
        source: Fixed(Range(1, 9999)),
    },
    PrinterRow {
        name: "finishings-default",
        group: AttributeGroup::JobTemplate,
        source: Fixed(Enums(&[3])),
    },
    PrinterRow {
        name: "finishings-supported",
        group: AttributeGroup::JobTemplate,
        source: Fixed(Enums(&[3])),
    },
    PrinterRow {
        name: "job-hold-until-default",
        group: AttributeGroup::JobTemplate,
        source: Fixed(Strings(Syntax::Keyword, &["no-hold"])),
    },
    PrinterRow {
        name: "job-hold-until-supported",
        group: AttributeGroup::JobTemplate,
        source: Fixed(Strings(Syntax::Keyword, &["no-hold", "indefinite"])),
    },
    PrinterRow {
        name: "job-hold-until-time-supported",
        group: AttributeGroup::JobTemplate,
        source: Fixed(Range(0, 2147483647)),
    },
    PrinterRow {
        name: "job-priority-default",
        group: AttributeGroup::JobTemplate,
        source: Fixed(Integers(&[50])),
    },
    PrinterRow {
        name: "job-priority-supported",
        group: AttributeGroup::JobTemplate,
        source: Fixed(Integers(&[100])),
    },
    PrinterRow {
        name: "job-sheets-default",
        group: AttributeGroup::JobTemplate,
        source: Fixed(Strings(Syntax::Keyword, &["none"])),
    },
    PrinterRow {
        name: "job-sheets-supported",
        group: AttributeGroup::JobTemplate,
        source: Fixed(Strings(Syntax::Keyword, &["none"])),
    },
    PrinterRow {
        name: "media-col-database",
        group: AttributeGroup::OwnName,
        source: Described(DescribedFact::MediaDatabase),
    },
    PrinterRow {
        name: "media-col-default",
        group: AttributeGroup::JobTemplate,
        source: Described(DescribedFact::DefaultMediaCol),
    },
    PrinterRow {
        name: "media-col-supported",
        group: AttributeGroup::JobTemplate,
        source: Fixed(Strings(
            Syntax::Keyword,
            &[
                "media-bottom-margin",
                "media-left-margin",
                "media-right-margin",
                "media-size",
                "media-size-name",
                "media-source",
                "media-top-margin",
                "media-type",
            ],
        )),
    },
    PrinterRow {
        name: "media-default",
        group: AttributeGroup::JobTemplate,
        source: Described(DescribedFact::DefaultMedia),
    },
    PrinterRow {
        name: "media-size-supported",
        group: AttributeGroup::JobTemplate,
        source: Described(DescribedFact::MediaSizes),
    },
    PrinterRow {
        name: "media-source-supported",
        group: AttributeGroup::JobTemplate,
        source: Fixed(Strings(Syntax::Keyword, &["auto"])),
    },
    PrinterRow {
        name: "media-supported",
        group: AttributeGroup::JobTemplate,
        source: Described(DescribedFact::Media),
    },
    PrinterRow {
        name: "media-type-supported",
        group: AttributeGroup::JobTemplate,
        source: Fixed(Strings(Syntax::Keyword, &["stationery"])),
    },
    PrinterRow {
        name: "multiple-document-handling-default",
        group: AttributeGroup::JobTemplate,
        source: Fixed(Strings(Syntax::Keyword, &["separate-documents-collated-copies"])),
    },
    PrinterRow {
        name: "multiple-document-handling-supported",
        group: AttributeGroup::JobTemplate,
        source: Fixed(Strings(
            Syntax::Keyword,
            &[
                "separate-documents-uncollated-copies",
                "separate-documents-collated-copies",
            ],
        )),
    },
    PrinterRow {
        name: "number-up-default",
        group: AttributeGroup::JobTemplate,
        source: Fixed(Integers(&[1])),
    },
    PrinterRow {
        name: "number-up-supported",
        group: AttributeGroup::JobTemplate,
        source: Fixed(Integers(&[1, 2, 4, 6, 9, 16])),
    },
    PrinterRow {
        name: "orientation-requested-default",
        group: AttributeGroup::JobTemplate,
        source: Fixed(NoValue),
    },
    PrinterRow {
        name: "orientation-requested-supported",
        group: AttributeGroup::JobTemplate,
        source: Fixed(Enums(&[3, 4, 5, 6])),
    },
    PrinterRow {
        name: "output-bin-default",
        group: AttributeGroup::JobTemplate,
        source: Described(DescribedFact::DefaultOutputBin),
    },
    PrinterRow {
        name: "output-bin-supported",
        group: AttributeGroup::JobTemplate,
        source: Described(DescribedFact::OutputBins),
    },
    PrinterRow {
        name: "page-ranges-supported",
        group: AttributeGroup::JobTemplate,
        source: Fixed(Boolean(true)),
    },
    PrinterRow {
        name: "print-color-mode-default",
        group: AttributeGroup::JobTemplate,
        source: Fixed(Strings(Syntax::Keyword, &["auto"])),
    },
    PrinterRow {
        name: "print-color-mode-supported",
        group: AttributeGroup::JobTemplate,
        source: Described(DescribedFact::ColorModes),
    },
    PrinterRow {
        name: "print-quality-default",
        group: AttributeGroup::JobTemplate,
        source: Fixed(Enums(&[4])),
    },
    PrinterRow {
        name: "print-quality-supported",
        group: AttributeGroup::JobTemplate,
        source: Fixed(Enums(&[3, 4, 5])),
    },
    PrinterRow {
        name: "print-scaling-default",
        group: AttributeGroup::JobTemplate,
        source: Fixed(Strings(Syntax::Keyword, &["auto"])),
    },
    PrinterRow {
        name: "print-scaling-supported",
        group: AttributeGroup::JobTemplate,
        source: Fixed(Strings(
            Syntax::Keyword,
            &["auto", "auto-fit", "fill", "fit", "none"],
        )),
    },
    PrinterRow {
        name: "printer-resolution-default",
        group: AttributeGroup::JobTemplate,
        source: Described(DescribedFact::DefaultResolution),
    },
    PrinterRow {
        name: "printer-resolution-supported",
        group: AttributeGroup::JobTemplate,
        source: Described(DescribedFact::Resolutions),
    },
    PrinterRow {
        name: "sides-default",
        group: AttributeGroup::JobTemplate,
        source: Fixed(Strings(Syntax::Keyword, &["one-sided"])),
    },
    PrinterRow {
        name: "sides-supported",
        group: AttributeGroup::JobTemplate,
        source: Described(DescribedFact::Sides),
    },
];

// Returns the attributes of the group `printer-description`.
pub fn description_table() -> &'static [PrinterRow<'static>]
    ensures { (s : Server) (d : List Property) (f : PrinterFacts) → map (stated s d f) result.now ≡ description_rows s d f }
{
    &DESCRIPTION
}

// Returns the attributes that say which job template attributes are supported, and the database of media.
pub fn template_table() -> &'static [PrinterRow<'static>]
    ensures { (s : Server) (d : List Property) (f : PrinterFacts) → map (stated s d f) result.now ≡ template_rows d }
{
    &TEMPLATE
}
