//! The targets of requests (RFC 8011 4.1.5): printers and jobs, named by URIs.
ghost use Rattle.std.specs.Prelude.{◌≡◌, option_map};
ghost use Rattle.ipp_requests.specs.IppTargets.{begins_with_slash, everywhere_path, first_part, is_scheme, is_service, job_at, job_by_number, job_in, job_number, job_of, job_with, later_parts, named_printer, path_of, printer_of, printers_at, printers_by, printers_in, printers_of};

use crate::attributes::{number_at, text_at};
use crate::borrowed::MessageText;
use crate::syntax::Syntax;
use ipp_names::Status;
use ipp_values::Attribute;
use line_words::decimal;
use spool_types::{JobId, QueueNameKind, TextKind};

/// A printer.
#[derive(Drop)]
pub enum Printer<'m> {
    /// The path /ipp/print.
    Default,
    /// The path /printers/NAME. The name may be that of a queue.
    Named(MessageText<'m>),
}

/// One printer, or all printers of the service.
#[derive(Drop)]
pub enum Printers<'m> {
    All,
    One(Printer<'m>),
}

/// A job.
#[derive(Drop)]
pub enum JobTarget<'m> {
    /// The job with this number, by `job-uri`.
    Number(JobId),
    /// The job with this number, if it is a job of these printers.
    NumberOf(Printers<'m>, JobId),
    /// The job that these printers print, or else their next one: the `job-id` 0 of lprm(1).
    CurrentOf(Printers<'m>),
}

/// Returns the printers that `printer-uri` names.
pub fn printers_of(attributes: &[Attribute]) -> Result<Printers<'_>, Status>
    ensures { result ≡ printers_of attributes.now }
{
    match text_at(Syntax::Uri, "printer-uri", attributes)? {
        Some(uri) => printers_in(uri.as_str()),
        None => Err(Status::BadRequest),
    }
}

/// Returns the printer that `printer-uri` names.
pub fn printer_of(attributes: &[Attribute]) -> Result<Printer<'_>, Status>
    ensures { result ≡ printer_of attributes.now }
{
    match printers_of(attributes)? {
        Printers::All => Err(Status::NotFound),
        Printers::One(printer) => Ok(printer),
    }
}

/// Returns the job that `job-uri` names, or `printer-uri` and `job-id`.
pub fn job_of(attributes: &[Attribute]) -> Result<JobTarget<'_>, Status>
    ensures { result ≡ job_of attributes.now }
{
    match text_at(Syntax::Uri, "job-uri", attributes)? {
        Some(uri) => job_in(uri.as_str()),
        None => job_by_number(attributes),
    }
}

fn job_by_number(attributes: &[Attribute]) -> Result<JobTarget<'_>, Status>
    ensures { result ≡ job_by_number attributes.now }
{
    let Some(number) = number_at(0, "job-id", attributes)? else {
        return Err(Status::BadRequest);
    };
    let printers = printers_of(attributes)?;
    Ok(job_with(printers, number))
}

fn job_with(printers: Printers<'_>, number: u32) -> JobTarget<'_>
    ensures { result ≡ job_with printers.entry number }
{
    match JobId::new(number) {
        Some(job) => JobTarget::NumberOf(printers, job),
        None => JobTarget::CurrentOf(printers),
    }
}

fn job_in(uri: &str) -> Result<JobTarget<'_>, Status>
    ensures { result ≡ job_in uri.now }
{
    let Some(path) = path_of(uri) else {
        return Err(Status::BadRequest);
    };
    match job_at(path) {
        Some(job) => Ok(JobTarget::Number(job)),
        None => Err(Status::NotFound),
    }
}

fn printers_in(uri: &str) -> Result<Printers<'_>, Status>
    ensures { result ≡ printers_in uri.now }
{
    let Some(path) = path_of(uri) else {
        return Err(Status::BadRequest);
    };
    match printers_at(path) {
        Some(printers) => Ok(printers),
        None => Err(Status::NotFound),
    }
}

// Returns the job of a path without its first slash.
fn job_at(path: &str) -> Option<JobId>
    ensures { result ≡ job_at path.now }
{
    let (kind, number) = parted(path);
    if kind == "jobs" {
        job_number(number)
    } else {
        None
    }
}

fn job_number(word: &str) -> Option<JobId>
    ensures { result ≡ job_number word.now }
{
    let number = decimal(word.as_bytes(), u64::from(JobId::GREATEST))?;
    JobId::new(number as u32)
}

// Returns the printers of a path without its first slash.
fn printers_at(path: &str) -> Option<Printers<'_>>
    ensures { result ≡ printers_at path.now }
{
    let (kind, name) = parted(path);
    if kind == "ipp" {
        everywhere_path(name)
    } else {
        printers_by(kind, name)
    }
}

fn printers_by<'m>(kind: &str, name: &'m str) -> Option<Printers<'m>>
    ensures { result ≡ printers_by kind.now name.now }
{
    if name == "" {
        if is_service(kind) {
            Some(Printers::All)
        } else {
            None
        }
    } else if kind == "printers" {
        named_printer(name)
    } else {
        None
    }
}

fn is_service(kind: &str) -> bool
    ensures { result ≡ is_service kind.now }
{
    kind == "" || kind == "printers" || kind == "jobs"
}

// Returns the printer of a path after /ipp/.
fn everywhere_path(path: &str) -> Option<Printers<'_>>
    ensures { result ≡ everywhere_path path.now }
{
    let (kind, name) = parted(path);
    if kind != "print" {
        return None;
    }
    if name == "" {
        Some(Printers::One(Printer::Default))
    } else {
        named_printer(name)
    }
}

fn named_printer(name: &str) -> Option<Printers<'_>>
    ensures { result ≡ named_printer name.now }
{
    if QueueNameKind::allows(name) {
        Some(Printers::One(Printer::Named(MessageText::new(name))))
    } else {
        None
    }
}

// Returns the path of a URI without its first slash.
fn path_of(uri: &str) -> Option<&str>
    ensures { option_map (λ path. path.now) result ≡ path_of uri.now }
{
    let (scheme, rest) = parted(uri);
    if !is_scheme(scheme) || !begins_with_slash(rest) {
        return None;
    }
    let (_, rest) = parted(rest);
    let (_, path) = parted(rest);
    Some(path)
}

fn is_scheme(text: &str) -> bool
    ensures { result ≡ is_scheme text.now }
{
    text == "ipp:" || text == "ipps:" || text == "http:" || text == "https:"
}

fn begins_with_slash(text: &str) -> bool
    ensures { result ≡ begins_with_slash text.now }
{
    match text.as_bytes() {
        [b, ..] => *b == b'/',
        [] => false,
    }
}

// Splits the text at its first slash, which is dropped.
fn parted(text: &str) -> (&str, &str)
    ensures first { result.0.now ≡ first_part text.now }
    ensures later { result.1.now ≡ later_parts text.now }
{
    match text.split_once('/') {
        Some(parts) => parts,
        None => (text, ""),
    }
}
