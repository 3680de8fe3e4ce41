//! Changes to a queue that exists: other values of its fields, and its removal.
//!
//! No event of a spool does either. `spool_halves` writes the spool with the changed table to a new disk.
//!
//! # Promises
//!
//! - `specs/QueueEdits` defines the table after a change (`after_change`) and after a removal (`after_removal`), as functions of the
//!   table before.
//! - [`changed_row`] returns exactly the queue's row with the given fields replaced (`changed`).
//! - [`refusal_of_change`] and [`refusal_of_removal`] return exactly the first cause to refuse an edit, or `None` (`change_refusal`,
//!   `removal_refusal`).
//! - [`only_that_queue_changes`] and [`only_that_queue_goes`] are laws about these definitions: every other row is as it was.
//!
//! # What is refused
//!
//! A change of the media type is refused while a job of the queue has not ended: its filters were chosen for the old type when it was
//! closed, so the device would get the wrong data. A type that is equal to the old one is no change. The other fields may change at any
//! time, since no job refers to them: a job that waits keeps its place, and its next attempt uses the new values. A removal is refused
//! while a job of the queue has not ended. Jobs that have ended are removed with their queue only if the caller asks for that, because
//! each job's queue exists in every legal table.
//!
//! # Errors
//!
//! [`changed_row`] fails if memory runs out. The row is as before.
#![tactic(auto)]

mod change;
mod laws;
mod refusals;

pub use change::{QueueChange, changed_row};
pub use laws::{only_that_queue_changes, only_that_queue_goes};
pub use refusals::{EditRefusal, refusal_of_change, refusal_of_removal};
