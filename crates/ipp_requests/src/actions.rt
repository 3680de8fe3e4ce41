//! The requests, one for each operation.
use crate::borrowed::{MessageText, MessageValues};
use crate::targets::{JobTarget, Printer, Printers};
use crate::which_jobs::WhichJobs;

/// The document of a request.
#[derive(Drop)]
pub struct Document<'m> {
    /// `document-name`.
    pub name: Option<MessageText<'m>>,
    /// `document-format`.
    pub format: Option<MessageText<'m>>,
}

/// A job to be created. Its job attributes are in the message.
#[derive(Drop)]
pub struct NewJob<'m> {
    pub printer: Printer<'m>,
    /// `job-name`.
    pub name: Option<MessageText<'m>>,
    /// `ipp-attribute-fidelity`: refuse the job if an attribute is not supported.
    pub is_exact: bool,
    pub document: Document<'m>,
}

/// A document to be added to a job.
#[derive(Drop)]
pub struct NewDocument<'m> {
    pub job: JobTarget<'m>,
    pub document: Document<'m>,
    /// `last-document`.
    pub is_last: bool,
}

/// The jobs that Get-Jobs lists.
#[derive(Drop)]
pub struct JobListing<'m> {
    pub printers: Printers<'m>,
    pub which: WhichJobs,
    /// `my-jobs`: only those of the user.
    pub mine: bool,
    /// `limit`: at most this many jobs.
    pub limit: Option<u32>,
    /// `first-index`: from the job at this position, which counts from 1.
    pub first_index: Option<u32>,
    /// `first-job-id`: from this number.
    pub first_job: Option<u32>,
    /// `job-ids`: only these, which are integers from 1.
    pub ids: Option<MessageValues<'m>>,
    /// `requested-attributes`, which are keywords.
    pub requested: Option<MessageValues<'m>>,
}

/// The jobs that Cancel-Jobs, Cancel-My-Jobs and Purge-Jobs name.
#[derive(Drop)]
pub struct JobSelection<'m> {
    pub printers: Printers<'m>,
    /// `my-jobs`: only those of the user.
    pub mine: bool,
    /// `purge-jobs`: forget them, too.
    pub purges: bool,
    /// `job-ids`: only these, which are integers from 1.
    pub ids: Option<MessageValues<'m>>,
}

/// The printers that CUPS-Get-Printers or the classes that CUPS-Get-Classes lists.
#[derive(Drop)]
pub struct PrinterListing<'m> {
    /// `limit`: at most this many.
    pub limit: Option<u32>,
    /// `first-printer-name`: from this name.
    pub first: Option<MessageText<'m>>,
    /// `requested-attributes`, which are keywords.
    pub requested: Option<MessageValues<'m>>,
}

/// A change of a printer.
#[derive(Clone, Copy)]
pub enum PrinterChange {
    /// Pause-Printer.
    Pause,
    /// Resume-Printer.
    Resume,
    /// Enable-Printer, CUPS-Accept-Jobs.
    Accept,
    /// Disable-Printer, CUPS-Reject-Jobs.
    Reject,
}

/// The action of a request, with the facts of its operation.
#[derive(Drop)]
pub enum Action<'m> {
    PrintJob(NewJob<'m>),
    ValidateJob(NewJob<'m>),
    CreateJob(NewJob<'m>),
    SendDocument(NewDocument<'m>),
    CloseJob(JobTarget<'m>),
    CancelJob {
        job: JobTarget<'m>,
        /// `purge-jobs`: forget it, too.
        purges: bool,
    },
    HoldJob {
        job: JobTarget<'m>,
        /// `job-hold-until`: its values, as they were sent.
        until: Option<MessageValues<'m>>,
    },
    ReleaseJob(JobTarget<'m>),
    SetJobAttributes {
        job: JobTarget<'m>,
        /// `job-hold-until`, the only attribute that can be set: its values, as they were sent.
        until: MessageValues<'m>,
    },
    GetJobAttributes {
        job: JobTarget<'m>,
        /// `requested-attributes`, which are keywords.
        requested: Option<MessageValues<'m>>,
    },
    GetJobs(JobListing<'m>),
    CancelJobs(JobSelection<'m>),
    CancelMyJobs(JobSelection<'m>),
    PurgeJobs(JobSelection<'m>),
    GetPrinterAttributes {
        printer: Printer<'m>,
        /// `requested-attributes`, which are keywords.
        requested: Option<MessageValues<'m>>,
    },
    ChangePrinter(PrinterChange, Printer<'m>),
    IdentifyPrinter {
        printer: Printer<'m>,
        /// `identify-actions`, which are keywords.
        actions: Option<MessageValues<'m>>,
        /// `message`, for the operator.
        message: Option<MessageText<'m>>,
    },
    /// CUPS-Get-Default.
    GetDefault {
        /// `requested-attributes`, which are keywords.
        requested: Option<MessageValues<'m>>,
    },
    /// CUPS-Get-Printers.
    GetPrinters(PrinterListing<'m>),
    /// CUPS-Get-Classes.
    GetClasses(PrinterListing<'m>),
}
