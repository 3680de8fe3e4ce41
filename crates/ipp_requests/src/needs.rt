//! The targets that operations need (RFC 8011 4.1.5).
ghost use Rattle.std.specs.Prelude.{◌≡◌};
ghost use Rattle.ipp_requests.specs.IppChecks.{is_there, lacks, lacks_target, target_kind};

use crate::attributes::named;
use ipp_names::Operation;
use ipp_values::Attribute;

/// The target that an operation needs.
#[derive(Clone, Copy)]
pub enum TargetKind {
    /// `printer-uri`.
    APrinter,
    /// `job-uri`, or `printer-uri` and `job-id`.
    AJob,
    NoTarget,
}

/// Returns whether the target is missing that the operation needs. An operation that is not offered needs none.
pub fn lacks_target(operation: Option<Operation>, attributes: &[Attribute]) -> bool
    ensures { result ≡ lacks_target operation attributes.now }
{
    match operation {
        Some(operation) => lacks(target_kind(operation), attributes),
        None => false,
    }
}

fn target_kind(operation: Operation) -> TargetKind
    ensures { result ≡ target_kind operation }
{
    match operation {
        Operation::PrintJob
        | Operation::ValidateJob
        | Operation::CreateJob
        | Operation::GetJobs
        | Operation::GetPrinterAttributes
        | Operation::PausePrinter
        | Operation::ResumePrinter
        | Operation::PurgeJobs
        | Operation::EnablePrinter
        | Operation::DisablePrinter
        | Operation::CancelJobs
        | Operation::CancelMyJobs
        | Operation::IdentifyPrinter
        | Operation::CupsAcceptJobs
        | Operation::CupsRejectJobs => TargetKind::APrinter,
        Operation::SendDocument
        | Operation::CancelJob
        | Operation::GetJobAttributes
        | Operation::HoldJob
        | Operation::ReleaseJob
        | Operation::SetJobAttributes
        | Operation::CloseJob => TargetKind::AJob,
        Operation::CupsGetDefault | Operation::CupsGetPrinters | Operation::CupsGetClasses => {
            TargetKind::NoTarget
        }
    }
}

fn lacks(kind: TargetKind, attributes: &[Attribute]) -> bool
    ensures { result ≡ lacks kind attributes.now }
{
    match kind {
        TargetKind::APrinter => !is_there("printer-uri", attributes),
        TargetKind::AJob => {
            !(is_there("job-uri", attributes)
                || is_there("printer-uri", attributes) && is_there("job-id", attributes))
        }
        TargetKind::NoTarget => false,
    }
}

fn is_there(name: &str, attributes: &[Attribute]) -> bool
    ensures { result ≡ is_there name.now attributes.now }
{
    named(name, attributes).is_some()
}
