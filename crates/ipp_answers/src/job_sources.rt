//! From which fact each attribute of a job takes its values.
use requested_attributes::AttributeGroup;

/// An attribute of jobs.
#[derive(Clone, Copy)]
pub struct JobRow<'a> {
    pub name: &'a str,
    pub group: AttributeGroup,
    pub source: JobSource,
}

/// The source of the values of an attribute.
#[derive(Clone, Copy)]
pub enum JobSource {
    /// The charset of the texts of all jobs.
    Charset,
    Number(JobNumber),
    Seconds(JobTime),
    Date(JobTime),
    Address(JobAddress),
    Title,
    User,
    Format,
    HoldUntil,
    HoldUntilTime,
    State,
    StateMessage,
    StateReasons,
    /// The moment of the answer.
    UpTime,
}

/// A number that the service reports of a job.
#[derive(Clone, Copy)]
pub enum JobNumber {
    Id,
    Copies,
    Priority,
    Impressions,
    KiloOctets,
    Documents,
}

/// A state whose time is answered.
#[derive(Clone, Copy)]
pub enum JobTime {
    Creation,
    Processing,
    Completion,
}

/// An address of a job or of its printer.
#[derive(Clone, Copy)]
pub enum JobAddress {
    Job,
    Page,
    Printer,
    Uuid,
}
