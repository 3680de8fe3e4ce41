//! The attributes of printers that are returned to clients of the Internet Printing Protocol.
//!
//! An answer is computed from facts: what the service reports of a queue ([`PrinterFacts`]), the file of printers (`ipp_printers`), and the
//! server with its clock (`ipp_answers::Server`). Nothing else is answered.
//!
//! # The table
//!
//! `PrinterRows` has a row for each attribute: its name, its group, and its values as a function of the facts. A row without values is
//! absent from the answer. The code has the same table as data, in which each row names a source.
//!
//! | Values of | Source |
//! |---|---|
//! | `operations-supported`, `which-jobs-supported` | the tables `ipp_names::Operation` and `ipp_answers::WhichJobs` |
//! | `job-creation-attributes-supported` | the names that the server reads (`Server::creation_attributes`) |
//! | `document-format-supported` | octets, then each type of `PrinterFacts::formats`, except those between the filters of CUPS |
//! | `pwg-raster-document-..`, `urf-supported` | the file of printers, if these formats are among them |
//! | `printer-info`, `printer-location` | the service, otherwise the file of printers |
//! | media, sides, colors, resolutions, output bins, speed, make and model | the file of printers |
//! | `printer-uuid` | the hash of the spool's name and the printer's path (version 5 of RFC 9562), the same after a restart |
//! | `printer-up-time` and other times | seconds since 1970, as CUPS has them |
//! | `printer-state-reasons` | those of the service, and that the printer is paused |
//!
//! Facts that nobody knows are not answered: the margins of a sheet, which medium is loaded, and the levels of supplies have no attribute.
//! `printer-geo-location` is `unknown`, and `printer-dns-sd-name` is `no-value`.
//!
//! # Promises
//!
//! - [`printer_group`] returns exactly the rows that are asked for, in the order of the table, as attributes (`attributes`, by `answered` of
//!   `requested_attributes`). [`PrinterSelection`] does the same for the printers of a request: it looks up once what is asked for.
//! - [`formats_to`] returns exactly the types from which a chain of conversions leads to the type of a queue (`leads_to`, by `least_walk` of
//!   `mime_costs`).
//! - [`states_are_those_shown`]: the state of a printer is that which the service shows.
//! - [`examples_of_printer_requests`]: the attributes that are returned to `lp`, and for the names of groups.
//!
//! # Errors
//!
//! The only error is out of memory.
//!
//! # Cost
//!
//! A selection compares each value of `requested-attributes` with each of a hundred rows. An answer computes the values of the selected rows
//! alone.
#![tactic(auto)]

mod described;
mod facts;
mod formats;
mod laws;
mod printer_sources;
mod printer_table;
mod printer_values;
mod printers;

pub use facts::PrinterFacts;
pub use formats::formats_to;
pub use laws::{examples_of_printer_requests, states_are_those_shown};
pub use printers::{PrinterSelection, printer_group};
