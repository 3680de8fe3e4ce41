//! The action of a request, by its operation.
ghost use Rattle.std.specs.Prelude.{◌≡◌};
ghost use Rattle.std.specs.List.{list_all};
ghost use Rattle.ipp_requests.specs.IppActions.{action_of, cancellation_of, change_of, default_question_of, document_of, flag_at, hold_of, identification_of, is_hold, is_plain, job_attributes_of, job_listing_of, job_question_of, job_selection_of, new_document_of, new_hold_of, new_job_of, printer_listing_of, printer_question_of, requested_of, settings_of};

use crate::actions::{
    Action, Document, JobListing, JobSelection, NewDocument, NewJob, PrinterChange, PrinterListing,
};
use crate::attributes::{boolean_at, keywords_at, number_at, numbers_at, text_at, values_at};
use crate::borrowed::{MessageText, MessageValues};
use crate::syntax::Syntax;
use crate::targets::{job_of, printer_of, printers_of};
use crate::which_jobs::which_jobs_of;
use ipp_names::{Operation, Status};
use ipp_values::{Attribute, GroupTag, Message};

/// Returns the action of a request. The attributes are the operation attributes of the message.
pub fn action_of<'m>(
    operation: Operation,
    attributes: &'m [Attribute],
    message: &'m Message,
) -> Result<Action<'m>, Status>
    ensures { result ≡ action_of operation attributes.now message.now }
{
    match operation {
        Operation::PrintJob => Ok(Action::PrintJob(new_job(attributes)?)),
        Operation::ValidateJob => Ok(Action::ValidateJob(new_job(attributes)?)),
        Operation::CreateJob => Ok(Action::CreateJob(new_job(attributes)?)),
        Operation::SendDocument => Ok(Action::SendDocument(new_document(attributes)?)),
        Operation::CancelJob => cancellation(attributes),
        Operation::GetJobAttributes => job_question(attributes),
        Operation::GetJobs => Ok(Action::GetJobs(job_listing(attributes)?)),
        Operation::GetPrinterAttributes => printer_question(attributes),
        Operation::HoldJob => hold(attributes),
        Operation::ReleaseJob => Ok(Action::ReleaseJob(job_of(attributes)?)),
        Operation::PausePrinter => change(PrinterChange::Pause, attributes),
        Operation::ResumePrinter => change(PrinterChange::Resume, attributes),
        Operation::PurgeJobs => Ok(Action::PurgeJobs(job_selection(attributes)?)),
        Operation::SetJobAttributes => settings(attributes, message),
        Operation::EnablePrinter => change(PrinterChange::Accept, attributes),
        Operation::DisablePrinter => change(PrinterChange::Reject, attributes),
        Operation::CancelJobs => Ok(Action::CancelJobs(job_selection(attributes)?)),
        Operation::CancelMyJobs => Ok(Action::CancelMyJobs(job_selection(attributes)?)),
        Operation::CloseJob => Ok(Action::CloseJob(job_of(attributes)?)),
        Operation::IdentifyPrinter => identification(attributes),
        Operation::CupsGetDefault => default_question(attributes),
        Operation::CupsGetPrinters => Ok(Action::GetPrinters(printer_listing(attributes)?)),
        Operation::CupsGetClasses => Ok(Action::GetClasses(printer_listing(attributes)?)),
        Operation::CupsAcceptJobs => change(PrinterChange::Accept, attributes),
        Operation::CupsRejectJobs => change(PrinterChange::Reject, attributes),
    }
}

fn new_job(attributes: &[Attribute]) -> Result<NewJob<'_>, Status>
    ensures { result ≡ new_job_of attributes.now }
{
    let printer = printer_of(attributes)?;
    let is_exact = flag_at("ipp-attribute-fidelity", attributes)?;
    let name = text_at(Syntax::Name, "job-name", attributes)?;
    let document = document_of(attributes)?;
    Ok(NewJob {
        printer,
        name,
        is_exact,
        document,
    })
}

fn new_document(attributes: &[Attribute]) -> Result<NewDocument<'_>, Status>
    ensures { result ≡ new_document_of attributes.now }
{
    let job = job_of(attributes)?;
    let Some(is_last) = boolean_at("last-document", attributes)? else {
        return Err(Status::BadRequest);
    };
    let document = document_of(attributes)?;
    Ok(NewDocument {
        job,
        document,
        is_last,
    })
}

fn document_of(attributes: &[Attribute]) -> Result<Document<'_>, Status>
    ensures { result ≡ document_of attributes.now }
{
    let how = text_at(Syntax::Keyword, "compression", attributes)?;
    let name = text_at(Syntax::Name, "document-name", attributes)?;
    let format = text_at(Syntax::MimeMediaType, "document-format", attributes)?;
    if is_plain(&how) {
        Ok(Document { name, format })
    } else {
        Err(Status::CompressionNotSupported)
    }
}

// Returns whether the document is not compressed.
fn is_plain(compression: &Option<MessageText<'_>>) -> bool
    ensures { result ≡ is_plain compression.now }
{
    match compression {
        Some(compression) => compression.as_str() == "none",
        None => true,
    }
}

fn job_listing(attributes: &[Attribute]) -> Result<JobListing<'_>, Status>
    ensures { result ≡ job_listing_of attributes.now }
{
    let printers = printers_of(attributes)?;
    let which = which_jobs_of(attributes)?;
    let mine = flag_at("my-jobs", attributes)?;
    let limit = number_at(1, "limit", attributes)?;
    let first_index = number_at(1, "first-index", attributes)?;
    let first_job = number_at(1, "first-job-id", attributes)?;
    let ids = numbers_at("job-ids", attributes)?;
    let requested = requested_of(attributes)?;
    Ok(JobListing {
        printers,
        which,
        mine,
        limit,
        first_index,
        first_job,
        ids,
        requested,
    })
}

fn job_selection(attributes: &[Attribute]) -> Result<JobSelection<'_>, Status>
    ensures { result ≡ job_selection_of attributes.now }
{
    let printers = printers_of(attributes)?;
    let mine = flag_at("my-jobs", attributes)?;
    let purges = flag_at("purge-jobs", attributes)?;
    let ids = numbers_at("job-ids", attributes)?;
    Ok(JobSelection {
        printers,
        mine,
        purges,
        ids,
    })
}

fn printer_listing(attributes: &[Attribute]) -> Result<PrinterListing<'_>, Status>
    ensures { result ≡ printer_listing_of attributes.now }
{
    let limit = number_at(1, "limit", attributes)?;
    let first = text_at(Syntax::Name, "first-printer-name", attributes)?;
    let requested = requested_of(attributes)?;
    Ok(PrinterListing {
        limit,
        first,
        requested,
    })
}

fn cancellation(attributes: &[Attribute]) -> Result<Action<'_>, Status>
    ensures { result ≡ cancellation_of attributes.now }
{
    let job = job_of(attributes)?;
    let purges = flag_at("purge-jobs", attributes)?;
    Ok(Action::CancelJob { job, purges })
}

fn hold(attributes: &[Attribute]) -> Result<Action<'_>, Status>
    ensures { result ≡ hold_of attributes.now }
{
    let job = job_of(attributes)?;
    let until = values_at("job-hold-until", attributes);
    Ok(Action::HoldJob { job, until })
}

fn settings<'m>(attributes: &'m [Attribute], message: &'m Message) -> Result<Action<'m>, Status>
    ensures { result ≡ settings_of attributes.now message.now }
{
    let job = job_of(attributes)?;
    let until = new_hold_of(message)?;
    Ok(Action::SetJobAttributes { job, until })
}

// Returns the values of `job-hold-until`. No other job attribute can be set.
fn new_hold_of(message: &Message) -> Result<MessageValues<'_>, Status>
    ensures { result ≡ new_hold_of message.now }
{
    let attributes = job_attributes_of(message);
    if !are_holds(attributes) {
        return Err(Status::AttributesOrValuesNotSupported);
    }
    match values_at("job-hold-until", attributes) {
        Some(until) => Ok(until),
        None => Err(Status::BadRequest),
    }
}

// Returns the attributes of the first group of job attributes.
fn job_attributes_of(message: &Message) -> &[Attribute]
    ensures { result.now ≡ job_attributes_of message.now }
{
    match message.group(GroupTag::Job) {
        Some(group) => group.attributes.as_slice(),
        None => &[],
    }
}

fn are_holds(attributes: &[Attribute]) -> bool
    ensures { result ≡ list_all is_hold attributes.now }
{
    attributes.iter().all(|attribute| is_hold(attribute))
}

fn is_hold(attribute: &Attribute) -> bool
    ensures { result ≡ is_hold attribute.now }
{
    attribute.name.as_str() == "job-hold-until"
}

fn job_question(attributes: &[Attribute]) -> Result<Action<'_>, Status>
    ensures { result ≡ job_question_of attributes.now }
{
    let job = job_of(attributes)?;
    let requested = requested_of(attributes)?;
    Ok(Action::GetJobAttributes { job, requested })
}

fn printer_question(attributes: &[Attribute]) -> Result<Action<'_>, Status>
    ensures { result ≡ printer_question_of attributes.now }
{
    let printer = printer_of(attributes)?;
    let requested = requested_of(attributes)?;
    Ok(Action::GetPrinterAttributes { printer, requested })
}

fn change(change: PrinterChange, attributes: &[Attribute]) -> Result<Action<'_>, Status>
    ensures { result ≡ change_of change attributes.now }
{
    let printer = printer_of(attributes)?;
    Ok(Action::ChangePrinter(change, printer))
}

fn identification(attributes: &[Attribute]) -> Result<Action<'_>, Status>
    ensures { result ≡ identification_of attributes.now }
{
    let printer = printer_of(attributes)?;
    let actions = keywords_at("identify-actions", attributes)?;
    let message = text_at(Syntax::Text, "message", attributes)?;
    Ok(Action::IdentifyPrinter {
        printer,
        actions,
        message,
    })
}

fn default_question(attributes: &[Attribute]) -> Result<Action<'_>, Status>
    ensures { result ≡ default_question_of attributes.now }
{
    let requested = requested_of(attributes)?;
    Ok(Action::GetDefault { requested })
}

fn requested_of(attributes: &[Attribute]) -> Result<Option<MessageValues<'_>>, Status>
    ensures { result ≡ requested_of attributes.now }
{
    keywords_at("requested-attributes", attributes)
}

// Returns the value of this boolean attribute, which is false without it.
fn flag_at(name: &str, attributes: &[Attribute]) -> Result<bool, Status>
    ensures { result ≡ flag_at name.now attributes.now }
{
    match boolean_at(name, attributes)? {
        Some(flag) => Ok(flag),
        None => Ok(false),
    }
}
