//! The steps of a submission, its requests and its outcomes.

/// The next action of the front end.
#[derive(Clone, Copy)]
pub enum Request {
    /// Send `create`, with the token.
    Create,
    /// Search for incoming jobs that have the token.
    Find,
    /// Read the next piece of the document, from this offset on.
    Read {
        size: u64,
    },
    /// Send `send`, with the piece that begins at this offset. `last` states that `closeat` follows at once, with the size after the piece.
    Send {
        job: u32,
        size: u64,
        piece: u32,
        last: bool,
    },
    /// Send `job`.
    Show {
        job: u32,
    },
    /// Send `hold`, so that the job is held once it is closed.
    Hold {
        job: u32,
    },
    /// Send `close`.
    Close {
        job: u32,
    },
    /// Send `cancel`.
    Cancel {
        job: u32,
    },
    /// Do nothing: the submission has ended.
    Nothing,
}

/// Why a document was refused.
#[derive(Clone, Copy)]
pub enum Cause {
    /// The service refused it.
    Declined,
    /// The size of the job differs from the number of bytes sent.
    OtherSize,
    /// The job was ended by someone else before it was closed.
    EndedEarly,
    /// The document cannot be read.
    Unreadable,
    /// No service was reachable for too long.
    Deserted,
}

/// The outcome of a submission.
#[derive(Clone, Copy)]
pub enum End {
    /// The job was closed.
    Accepted {
        job: u32,
    },
    /// The job was closed, and no filters convert it for its printer.
    Unprintable {
        job: u32,
    },
    /// Nothing will be printed: the job was never closed, or there was no job. `canceled` states whether the service has canceled it.
    Refused {
        job: Option<u32>,
        cause: Cause,
        canceled: bool,
    },
    /// The job may have been closed, and this cannot be determined.
    Unknown {
        job: u32,
    },
}

/// The state of a submission. `tries` is the number of attempts that are left if the service puts a request off, and `size` the number of
/// bytes that are known to have been sent.
#[derive(Clone, Copy)]
pub enum Step {
    /// No job is known.
    Creating {
        tries: u8,
    },
    /// The reply to a `create` was lost.
    Finding,
    /// A surplus job with the token is canceled.
    Clearing {
        job: u32,
    },
    /// The next piece of the document is needed.
    Reading {
        job: u32,
        size: u64,
    },
    /// A piece is sent. `last` states that it is the document's last one, and that the job is closed with it.
    Sending {
        job: u32,
        size: u64,
        piece: u32,
        last: bool,
        tries: u8,
    },
    /// The reply to a `send` was lost. If the piece was the last one, the job may have been closed.
    Measuring {
        job: u32,
        size: u64,
        piece: u32,
        last: bool,
    },
    /// The whole document was sent, and its job must be held.
    Holding {
        job: u32,
        size: u64,
        tries: u8,
    },
    /// The whole document was sent. `again` states whether a `close` was sent before.
    Closing {
        job: u32,
        size: u64,
        tries: u8,
        again: bool,
    },
    /// The reply to a `close` was lost.
    Checking {
        job: u32,
        size: u64,
    },
    /// The job is given up.
    Canceling {
        job: u32,
        cause: Cause,
    },
    /// The submission has ended.
    Ended {
        end: End,
    },
}
