//! Requests over HTTP/1.1 to the IPP front: the route of the head of a request, or the status that refuses it.
//!
//! The crate has values alone. The bytes of a connection become heads and bodies in the library http1.
//!
//! # Model
//!
//! `HttpRoutes` defines the route of a head (`route_of`) by checks in their order. The first one that fails decides the status.
//!
//! | Check | Status |
//! |---|---|
//! | over TCP, `Host` is a name of this machine | 403 |
//! | the body has no coding but `chunked` | 501 |
//! | the method is POST, GET, HEAD or OPTIONS | 405 |
//! | POST has a length or chunks | 411 |
//! | the type of POST is `application/ipp` | 415 |
//! | GET and HEAD name a page | 404 |
//!
//! | Path | Page |
//! |---|---|
//! | `/`, `/printers/`, `/jobs/` | all printers and jobs |
//! | `/printers/NAME` | a printer, if a queue may have this name |
//! | `/icon.png` | an icon |
//! | `/metrics` | counts, for a monitor |
//!
//! The target of POST does not matter: the message names its printer or job.
//!
//! # Promises
//!
//! - *ExactRoutes*: [`route_of`] returns exactly the route or the status of the table (`value`).
//! - *OnlyOwnHosts*: an IPP message is read only under a name of this machine or over its own socket, and only if its type is
//!   `application/ipp` ([`route_of`], `host` and `media`). A browser sends neither for a page of another site: a name that such a site points
//!   here is no name of this machine, and a form cannot send this type.
//!
//! # Errors
//!
//! None: no call allocates memory, and none fails.
#![tactic(auto)]

mod head;
mod hosts;
mod pages;
mod route;

pub use head::RequestHead;
pub use hosts::is_own_host;
pub use pages::{page_of, printer_of};
pub use route::{HttpStatus, Page, Route, is_ipp_type, route_of};
