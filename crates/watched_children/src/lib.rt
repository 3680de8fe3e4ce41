//! Children whose starts and ends are logged.
//!
//! [`WatchedChildren`] wraps other children. It logs a line for each start and each end. The line of an end with another status than 0 has
//! the queue, and the user and the title of the job; the last lines of the child's standard error follow. What children and users wrote is
//! cleaned (`clean_texts`). Everything else it passes on.
//!
//! # Promises
//!
//! - *Nothing changes on the way*: the trace of the wrapper is the trace of the inner children (`tells`), and a ticket has the number of
//!   the inner ticket (`number`). So each call is exactly one call of the inner children: `start` passes the order as it is, and `finish`
//!   and `has_ended` return the inner answers. Each law of an engine's children (no stage is ordered twice, the right input, each child is
//!   finished once) applies to wrapped children. [`WatchedChildren::new`] takes the inner children as they are (`inner`).
//! - The answer of `start_room` is that of the inner children (`rooms`).
//!
//! # Not proved
//!
//! - What is logged. If memory for the name of a child runs out, its lines say `a child`; if it runs out for the queue, the user and the
//!   title, they are left out. If memory for a line of standard error runs out,
//!   the line is left out. `tests/test_clean_output.py` shows what the log has of a hostile child.
//! - That a ticket has the group of the inner ticket: a group has no contract. `test_one_of_several_children_is_ended` of
//!   `tests/test_service_printing.py` shows it.
#![tactic(auto)]

mod watched;

pub use watched::{WatchedChildren, WatchedTicket};
