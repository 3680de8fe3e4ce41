//! The rows of one half of a spool that is split by queues: selecting, writing and comparing them.
//!
//! A half has the queues with some names, or all others ([`Half`]), and the jobs of its queues. Its rows are those of the whole
//! spool, unchanged and in the same order.
//!
//! # Promises
//!
//! - [`Half::takes`] returns exactly whether the half has a queue (`takes`). Each name is in one half and not in the other.
//! - [`are_queues`] and [`are_jobs`] return true only if the rows are exactly those of the whole that the half takes, in order.
//!   They compare the encodings of two rows; a row has only one encoding (`one_row` of `event_codec`). [`are_queues_with`] does the
//!   same for all queues, with one row in place of the one with its name (`replaced`).
//! - [`begin`] and the steps of a [`Writing`] may be called in order (`may`, `MayWrite`). [`Writing::put_queue`],
//!   [`Writing::put_job`] and [`Writing::put_row`] add exactly the record of the row, after those that were added before it
//!   (`added`, `AddsRows` of `listing_rows`). If it does not fit, they fail with [`HalfFault::Full`]. After
//!   [`Writing::finish`] each image of the disk has the rows that were added, in the newest version (`written`), and nothing is
//!   unsynced (`synced`).
//!
//! # Not proved
//!
//! - That the rows of a half are all added: `spool_halves` reads them back and compares them instead.
//! - That [`begin`] and the calls of a [`Writing`] succeed: a body that always returns [`HalfFault::Disk`] meets their clauses.
//!
//! # How rows are written
//!
//! `begin` makes the disk a spool without rows. The other area is filled as a checkpoint fills it (`listing_rows`). After the
//! last row room for the record of a reopening is left. Then the area is opened, and everything is synced.
//!
//! # Errors
//!
//! [`HalfFault`]. After any of them the new disk may hold anything.
#![tactic(auto)]

mod fault;
mod half;
mod rows;
mod writing;

pub use fault::HalfFault;
pub use half::Half;
pub use rows::{are_jobs, are_queues, are_queues_with};
pub use writing::{Writing, begin};
