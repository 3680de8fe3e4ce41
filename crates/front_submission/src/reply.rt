//! The replies of the service.

/// An incoming job that has the token.
#[derive(Clone, Copy)]
pub struct Own {
    pub job: u32,
    pub size: u64,
}

/// The incoming jobs that have the token: one of them, and the number of another one if there are several.
#[derive(Clone, Copy)]
pub struct Found {
    pub own: Option<Own>,
    pub another: Option<u32>,
}

/// The state of a job.
#[derive(Clone, Copy)]
pub enum Shown {
    /// The job is incoming and has this number of bytes.
    Arriving { size: u64 },
    /// The job was closed.
    WasClosed,
    /// The job was closed, and no filters convert it for its printer.
    NoFilters,
    /// The job has ended and was never closed.
    NeverClosed,
}

/// The reply to a request.
#[derive(Clone, Copy)]
pub enum Reply {
    /// `ok job N`.
    Created { job: u32 },
    /// `ok bytes SIZE`.
    Sent { size: u64 },
    /// `ok type ..`, and whether the job has stages.
    Closed { printable: bool },
    /// `ok`.
    Done,
    /// The jobs that a search found.
    Jobs { found: Found },
    /// The lines of `job N`.
    Job { shown: Shown },
    /// `error job`.
    Gone,
    /// `error memory` or `error full`: the request was not executed, and can be repeated later.
    Later,
    /// `error 6 NotIncoming`.
    NotIncoming,
    /// Another refusal: the request was not executed.
    Denied,
    /// A reply that leaves unknown whether the request was executed, such as `error disk`.
    Unclear,
}
