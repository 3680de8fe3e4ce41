//! The values of the attributes of a printer.
ghost use Rattle.std.specs.Prelude.{◌≡◌, ◌∷◌, [], codes, map, filter, nat_eq, string_bytes, IfOk};
ghost use Rattle.std.specs.List.{starts_with};
ghost use Rattle.ipp_names.specs.IppOperations.{operation_number, operations};
ghost use Rattle.ipp_answers.specs.AnswerValues.{enum_of, keyword_value, string_value, type_value};
ghost use Rattle.requested_attributes.specs.AttributeGroups.{is_same};
ghost use Rattle.printer_answers.specs.PrinterAnswers.{is_told, octet_stream, or_none, pause_word, printer_reasons, printer_state, queued_jobs, security, with_word};
ghost use Rattle.printer_answers.specs.PrinterSources.{address_text, fixed_values, mixed_text, queue_values, server_values, source_values};
ghost use Rattle.ipp_answers.specs.WhichJobs.{all_choices, choice_word};

use crate::described::{described_values, has_word, info_of, location_of, raster_values};
use crate::facts::PrinterFacts;
use crate::printer_sources::{AddressFact, Fixed, MixedFact, PrinterSource, QueueFact, ServerFact};
use ipp_answers::uris::{PRINTERS, ipp_uri, page_uri, uuid_urn};
use ipp_answers::values::{
    Syntax, date, enumerated, enums, integer, integers, one_string, optional_text, range, seconds,
    string, strings, texts,
};
use ipp_answers::{Server, WhichJobs};
use ipp_names::{Operation, PrinterState};
use ipp_printers::Printer;
use ipp_values::{Items, Value};
use spool_types::{MediaType, Reason};
use std::alloc::{AllocError, Global};

// The type of documents whose type the service detects.
const OCTET_STREAM: &str = "application/octet-stream";

/// Returns the values of an attribute.
pub fn source_values(
    alloc: Global,
    server: &Server<'_>,
    printer: &Printer<'_>,
    facts: &PrinterFacts,
    source: PrinterSource<'_>,
) -> Result<Items<Value>, AllocError>
    ensures { IfOk result (λ values. values ≡ source_values server.now printer.now facts.now source.entry) }
{
    match source {
        PrinterSource::Fixed(fixed) => fixed_values(alloc, fixed),
        PrinterSource::Queue(fact) => queue_values(alloc, facts, fact),
        PrinterSource::Address(fact) => address_values(alloc, server, facts, fact),
        PrinterSource::Server(fact) => server_values(alloc, server, fact),
        PrinterSource::Described(fact) => described_values(alloc, printer, fact),
        PrinterSource::Mixed(fact) => mixed_values(alloc, printer, facts, fact),
        PrinterSource::Raster(fact) => raster_values(alloc, printer, facts, fact),
    }
}

fn fixed_values(alloc: Global, fixed: Fixed<'_>) -> Result<Items<Value>, AllocError>
    ensures { IfOk result (λ values. values ≡ fixed_values fixed.entry) }
{
    match fixed {
        Fixed::Strings(syntax, texts) => strings(alloc, syntax, texts),
        Fixed::Enums(numbers) => enums(alloc, numbers),
        Fixed::Integers(numbers) => integers(alloc, numbers),
        Fixed::Boolean(so) => Items::one(alloc, Value::Boolean(so)),
        Fixed::Range(lower, upper) => Items::one(alloc, range(u64::from(lower), u64::from(upper))),
        Fixed::NoValue => Items::one(alloc, Value::NoValue),
        Fixed::Unknown => Items::one(alloc, Value::Unknown),
    }
}

fn queue_values(
    alloc: Global,
    facts: &PrinterFacts,
    fact: QueueFact,
) -> Result<Items<Value>, AllocError>
    ensures { IfOk result (λ values. values ≡ queue_values facts.now fact) }
{
    match fact {
        QueueFact::DeviceUri => optional_text(alloc, Syntax::Uri, facts.uri.as_ref()),
        QueueFact::Formats => formats(alloc, facts.formats.as_slice()),
        QueueFact::Accepting => Items::one(alloc, Value::Boolean(facts.accepting)),
        QueueFact::Name => one_string(alloc, Syntax::Name, facts.name.as_str()),
        QueueFact::State => Items::one(alloc, enumerated(u64::from(state_of(facts).number()))),
        QueueFact::ChangeDate => Items::one(alloc, date(facts.changed)),
        QueueFact::ChangeTime => Items::one(alloc, seconds(facts.changed)),
        QueueFact::Message => one_string(alloc, Syntax::Text, facts.message.as_str()),
        QueueFact::Reasons => reasons(alloc, facts),
        QueueFact::QueuedJobs => Items::one(alloc, integer(queued_jobs(facts))),
    }
}

// Returns the printer-state (RFC 8011, 5.4.11).
fn state_of(facts: &PrinterFacts) -> PrinterState
    ensures { result ≡ printer_state facts.now }
{
    if facts.printing.is_some() {
        PrinterState::Processing
    } else if facts.stopped {
        PrinterState::Stopped
    } else {
        PrinterState::Idle
    }
}

fn queued_jobs(facts: &PrinterFacts) -> u64
    ensures { result ≡ queued_jobs facts.now }
{
    u64::from(facts.waiting) + if facts.printing.is_some() { 1 } else { 0 }
}

// Returns the printer-state-reasons (RFC 8011, 5.4.12).
#[tactic(auto, using(crate::proofs::Pauses::never_none))]
fn reasons(alloc: Global, facts: &PrinterFacts) -> Result<Items<Value>, AllocError>
    ensures { IfOk result (λ values. values ≡ map keyword_value (printer_reasons facts.now)) }
{
    let reported = facts.reasons.as_slice();
    if facts.stopped {
        with_word(alloc, pause_word(facts.printing.is_some()), reported)
    } else {
        or_none(alloc, reported)
    }
}

fn pause_word(busy: bool) -> &'static str
    ensures { result.now ≡ pause_word busy }
{
    if busy { "moving-to-paused" } else { "paused" }
}

// Returns the reasons, and this one after them if it is not among them.
#[tactic(auto, using(crate::proofs::Pauses::pushed))]
fn with_word(alloc: Global, word: &str, reported: &[Reason]) -> Result<Items<Value>, AllocError>
    ensures { IfOk result (λ values. values ≡ map keyword_value (with_word word.now reported.now)) }
{
    let mut values = texts(alloc, Syntax::Keyword, reported)?;
    if !has_word(reported, word) {
        values.push(string(alloc, Syntax::Keyword, word)?)?;
    }
    Ok(values)
}

fn or_none(alloc: Global, reported: &[Reason]) -> Result<Items<Value>, AllocError>
    ensures { IfOk result (λ values. values ≡ map keyword_value (or_none reported.now)) }
{
    if reported.is_empty() {
        one_string(alloc, Syntax::Keyword, "none")
    } else {
        texts(alloc, Syntax::Keyword, reported)
    }
}

// Returns the types that clients may use, after that of octets.
fn formats(alloc: Global, formats: &[MediaType]) -> Result<Items<Value>, AllocError>
    ensures { IfOk result (λ values. values ≡ type_value octet_stream ∷ map type_value (filter is_told formats.now)) }
{
    let mut values = one_string(alloc, Syntax::MimeMediaType, OCTET_STREAM)?;
    for format in formats {
        if is_told(format.as_str()) {
            values.push(string(alloc, Syntax::MimeMediaType, format.as_str())?)?;
        }
    }
    Ok(values)
}

fn is_told(format: &str) -> bool
    ensures { result ≡ is_told format.now }
{
    !is_octets(format) && !is_between_filters(format)
}

fn is_octets(format: &str) -> bool
    ensures { result ≡ is_same format.now octet_stream }
{
    format == OCTET_STREAM
}

fn is_between_filters(format: &str) -> bool
    ensures { result ≡ starts_with nat_eq format.now (codes "application/vnd.cups-") }
{
    format.as_bytes().starts_with(b"application/vnd.cups-")
}

fn address_values(
    alloc: Global,
    server: &Server<'_>,
    facts: &PrinterFacts,
    fact: AddressFact,
) -> Result<Items<Value>, AllocError>
    ensures { IfOk result (λ values. values ≡ string_value Syntax.Uri (address_text server.now facts.now fact) ∷ []) }
{
    let address = address_text(alloc, server, facts, fact)?;
    one_string(alloc, Syntax::Uri, address.as_str())
}

fn address_text(
    alloc: Global,
    server: &Server<'_>,
    facts: &PrinterFacts,
    fact: AddressFact,
) -> Result<String, AllocError>
    ensures { IfOk result (λ text. string_bytes text ≡ address_text server.now facts.now fact) }
{
    let name = facts.name.as_str();
    match fact {
        AddressFact::Icon => page_uri(alloc, server, "/icon.png", ""),
        AddressFact::Page => page_uri(alloc, server, PRINTERS, name),
        AddressFact::Printer => ipp_uri(alloc, server, PRINTERS, name),
        AddressFact::Uuid => uuid_urn(alloc, server, PRINTERS, name),
    }
}

fn server_values(
    alloc: Global,
    server: &Server<'_>,
    fact: ServerFact,
) -> Result<Items<Value>, AllocError>
    ensures { IfOk result (λ values. values ≡ server_values server.now fact) }
{
    match fact {
        ServerFact::CreationAttributes => strings(
            alloc,
            Syntax::Keyword,
            server.creation_attributes,
        ),
        ServerFact::LongestDocument => Items::one(alloc, range(0, server.longest_document / 1024)),
        ServerFact::SeveralDocuments => {
            Items::one(alloc, Value::Boolean(server.takes_several_documents))
        }
        ServerFact::TimeOut => Items::one(alloc, integer(u64::from(server.time_out))),
        ServerFact::Operations => operations(alloc),
        ServerFact::ConfigurationDate => Items::one(alloc, date(server.configured)),
        ServerFact::ConfigurationTime => Items::one(alloc, seconds(server.configured)),
        ServerFact::CurrentDate => Items::one(alloc, date(server.moment)),
        ServerFact::CurrentTime => Items::one(alloc, seconds(server.moment)),
        ServerFact::Security => one_string(alloc, Syntax::Keyword, security(server)),
        ServerFact::WhichJobs => which_jobs(alloc),
    }
}

fn security(server: &Server<'_>) -> &'static str
    ensures { result.now ≡ security server.now }
{
    if server.is_secure { "tls" } else { "none" }
}

// Returns the numbers of all operations that the server offers.
fn operations(alloc: Global) -> Result<Items<Value>, AllocError>
    ensures { IfOk result (λ values. values ≡ map (λ operation. enum_of (operation_number operation)) operations) }
{
    let mut values = Items::empty(alloc);
    let all = Operation::all();
    for operation in all {
        values.push(enumerated(u64::from(operation.number())))?;
    }
    Ok(values)
}

fn which_jobs(alloc: Global) -> Result<Items<Value>, AllocError>
    ensures { IfOk result (λ values. values ≡ map (λ choice. keyword_value (choice_word choice)) all_choices) }
{
    let mut values = Items::empty(alloc);
    let all = WhichJobs::all();
    for choice in all {
        values.push(string(alloc, Syntax::Keyword, choice.keyword())?)?;
    }
    Ok(values)
}

fn mixed_values(
    alloc: Global,
    printer: &Printer<'_>,
    facts: &PrinterFacts,
    fact: MixedFact,
) -> Result<Items<Value>, AllocError>
    ensures { IfOk result (λ values. values ≡ string_value Syntax.Text (mixed_text printer.now facts.now fact) ∷ []) }
{
    let text = match fact {
        MixedFact::Info => info_of(printer, facts),
        MixedFact::Location => location_of(printer, facts),
    };
    one_string(alloc, Syntax::Text, text)
}
