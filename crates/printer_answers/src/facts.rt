//! What the service reports of a queue.
use ipp_answers::Timestamp;
use spool_types::{JobId, MediaType, Message, Note, QueueName, Reasons, Uri};

/// What the service reports of a queue (`queue NAME`).
#[derive(Drop)]
pub struct PrinterFacts {
    pub name: QueueName,
    /// The device's URI. Only operators see it.
    pub uri: Option<Uri>,
    pub info: Note,
    pub location: Note,
    pub accepting: bool,
    pub stopped: bool,
    /// The job that is processing, if any.
    pub printing: Option<JobId>,
    /// The number of waiting jobs.
    pub waiting: u32,
    pub reasons: Reasons,
    pub message: Message,
    /// The moment of the last change, if the service knows it.
    pub changed: Option<Timestamp>,
    /// The media types from which a chain of filters leads to the type of the queue ([`formats_to`](crate::formats_to)).
    pub formats: Vec<MediaType>,
}
