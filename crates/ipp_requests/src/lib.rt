//! Requests of IPP: the action that a client demands, and the status of a message with a fault.
//!
//! The crate has values alone. A [`Request`] borrows its texts from the message, so it allocates nothing but the set of names of
//! [`Request::of`].
//!
//! # Model
//!
//! `IppRequests` defines the request of a message (`request_of`), in two tables:
//!
//! - `IppChecks` has the checks of each message, in their order (`checks`). The first one that fails decides the status.
//! - `IppActions` has a row for each operation (`action_of`): its target, then its attributes. The first fault decides.
//!
//! | Check | Status |
//! |---|---|
//! | the major version is 1 or 2 (RFC 8011 4.1.8) | server-error-version-not-supported |
//! | the request-id is at least 1 (RFC 8011 4.1.2) | client-error-bad-request |
//! | the first group begins with `attributes-charset` and `attributes-natural-language` (RFC 8011 4.1.4.1) | client-error-bad-request |
//! | no group has two attributes with one name (RFC 8011 4.1.3) | client-error-bad-request |
//! | the message has the target that the operation needs (RFC 8011 4.1.5) | client-error-bad-request |
//! | the charset is utf-8 or us-ascii | client-error-charset-not-supported |
//! | the operation is offered | server-error-operation-not-supported |
//! | the target is a URI of a scheme of IPP or HTTP | client-error-bad-request |
//! | its path is that of a printer or of a job | client-error-not-found |
//! | `compression` is `none` | client-error-compression-not-supported |
//! | `which-jobs` is known; only `job-hold-until` is set | client-error-attributes-or-values-not-supported |
//! | each other attribute that is read has its syntax and number of values; Send-Document has `last-document` | client-error-bad-request |
//!
//! The order of the targets' attributes does not matter: lp(1) sends `printer-uri` last in some requests. Attributes that no row reads are
//! ignored. The service decides whether a printer or a job exists and whether the client may change it. `ServiceStatuses` has the statuses of
//! its refusals.
//!
//! # Targets
//!
//! The authority of a URI is not examined.
//!
//! | Path | Target |
//! |---|---|
//! | `/`, `/printers/`, `/jobs/` | the whole service |
//! | `/printers/NAME`, `/ipp/print/NAME` | a printer, if a queue may have this name |
//! | `/ipp/print` | the default printer |
//! | `/jobs/N` | a job, with a number from 1 to 2,147,483,647 |
//!
//! # Promises
//!
//! - *ExactRequests*: [`Request::of`] returns Ok exactly with the request that the tables define (`ok`), and otherwise the status of the
//!   first fault (`refused`).
//! - [`requests_are_complete`]: no message without charset, natural language or target is a request (`language`, `target`). Neither is one
//!   of another version or charset, or with an operation that is not offered (`operation`).
//! - [`status_of`] is exactly the table of the service's refusals.
//!
//! # Errors
//!
//! `TemporaryError` if memory runs out, and only then: no row has this status.
//!
//! # Cost
//!
//! Each group is read once, and its names are put in a set. Then each attribute of an operation is found by reading the operation
//! attributes from the start.
#![tactic(auto)]

mod actions;
mod attributes;
mod borrowed;
mod checks;
mod laws;
mod needs;
mod reading;
mod refusals;
mod repeats;
mod request;
mod syntax;
mod targets;
mod which_jobs;

pub use actions::{
    Action, Document, JobListing, JobSelection, NewDocument, NewJob, PrinterChange, PrinterListing,
};
pub use borrowed::{MessageText, MessageValues};
pub use laws::requests_are_complete;
pub use refusals::{ServiceError, status_of};
pub use request::Request;
pub use targets::{JobTarget, Printer, Printers};
pub use which_jobs::WhichJobs;
