//! The numbers and names of IPP: operations, status codes, and states of jobs and printers.
//!
//! Each is an enum with its numbers. `specs/` has one table for each: the number of each row, and its name as the standard writes it.
//!
//! | Enum | Source |
//! |---|---|
//! | [`Operation`] | RFC 8011 5.4.15, RFC 3380, RFC 3998, PWG 5100.11, PWG 5100.13; the numbers from 0x4001 are those of CUPS |
//! | [`Status`] | RFC 8011 appendix B |
//! | [`JobState`] | RFC 8011 5.3.7 |
//! | [`PrinterState`] | RFC 8011 5.4.11 |
//!
//! [`Operation`] has the operations that the server offers, and no others. So [`Operation::from_number`] also decides which
//! operations are supported.
//!
//! # Promises
//!
//! For each enum:
//!
//! - `number` returns the number of the table (`value`), and `from_number` reads it back (`round_trip`).
//! - `from_number` returns the row with this number, and None if there is none (`value`). The row has the number (`round_trip`).
//! - `name` and `keyword` return the text of the table.
//! - `all` returns the whole table.
//!
//! # Errors
//!
//! None. No function allocates.
#![tactic(auto)]

mod job_states;
mod operations;
mod printer_states;
mod statuses;

pub use job_states::JobState;
pub use operations::Operation;
pub use printer_states::PrinterState;
pub use statuses::Status;
