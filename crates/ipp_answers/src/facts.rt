//! What is known of a server and of a job.
use crate::states::JobReason;
use crate::timestamps::Timestamp;
use spool_types::{Copies, JobId, MediaName, Priority, QueueName, Title, UserName};

/// The server that answers.
#[derive(Clone, Copy)]
pub struct Server<'a> {
    /// The host, and the port if it is not 631, by which the client reaches the server.
    pub host: &'a str,
    /// Whether a proxy in front of the server offers TLS.
    pub is_secure: bool,
    /// The spool: the name of the host, and the path of the service's socket. The UUIDs of printers and jobs are made from it.
    pub spool: &'a str,
    /// The moment of the answer.
    pub moment: Option<Timestamp>,
    /// The moment at which the file of printers was read.
    pub configured: Option<Timestamp>,
    /// The names of the attributes that the server reads in a request for a job.
    pub creation_attributes: &'a [&'a str],
    /// The greatest length of a document, in bytes.
    pub longest_document: u64,
    /// Whether a job may have several documents.
    pub takes_several_documents: bool,
    /// After this many seconds without an operation a job that has no whole document is canceled.
    pub time_out: u32,
}

/// The time at which a job reached a state.
#[derive(Clone, Copy)]
pub enum Reached {
    /// The job has not reached the state.
    NotYet,
    /// The job has reached the state. The service does not know when.
    Unknown,
    At(Timestamp),
}

/// What the service reports of a job (`job N`).
#[derive(Drop)]
pub struct JobFacts {
    pub id: JobId,
    pub queue: QueueName,
    /// The owner. `None` if the service hides the owner, the title and the options from the client.
    pub user: Option<UserName>,
    /// The title. It is empty if the job has none or the service hides it.
    pub title: Title,
    pub reason: JobReason,
    /// The moment until which the job is held, if it has one.
    pub held_until: Option<Timestamp>,
    pub copies: Copies,
    pub priority: Priority,
    /// The bytes of the document that were sent.
    pub size: u32,
    /// Pages printed in the newest attempt.
    pub impressions: u32,
    /// The type of the document, after the job was closed.
    pub format: Option<MediaName>,
    pub created: Reached,
    pub started: Reached,
    pub ended: Reached,
}
