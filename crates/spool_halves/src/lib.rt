//! The two halves of a spool that is split by queues, and a spool with one queue changed or removed.
//!
//! [`list_half`] writes one half of a spool to a disk of its own: the queues with the given names, their jobs and documents, or
//! all others. Two calls, one for each half, produce the two spools that replace the old one.
//!
//! [`set_queue`] and [`remove_queue`] write a spool with one queue changed or removed to a disk of its own, which replaces the old one.
//!
//! # Promises
//!
//! These hold on every disk that meets `Disk`.
//!
//! - [`set_queue`]: a crash afterwards leaves only images with exactly the changed table (`changed`, `after_change` of `queue_edits`),
//!   and each job that has not ended has the document there that the old disk has for it (`documents`, `KeepsAllDocuments`).
//!   [`remove_queue`] promises the same of the table without the queue and its jobs (`removed`, `after_removal`). Both are refused
//!   exactly as `queue_edits` says (`refused`). The new disk is synced (`synced`), the old spool is as before (`state`, `still`).
//! - [`list_half`]: a crash afterwards leaves only images whose table has exactly the rows of the half (`takes` of `split_rows`),
//!   each as it was and in order, with the highest number and the moment of the whole, in the newest version (`half`, `IsHalf`).
//!   Each job of the half that has not ended has the document there that the whole spool's disk has for it (`documents`,
//!   `KeepsDocuments`). The new disk is synced (`synced`). The whole spool's table and disk are as before (`state`, `still`).
//! - [`each_row_in_one_half`]: of two halves by the same names, of a legal table, each job is in exactly one, and neither half
//!   has a job or a queue that the whole does not have (`jobs`, `no_others`, `no_other_queues`). A queue's row is in its half as
//!   it was (`queues`).
//! - [`halves_go_on`]: a queue's part of the whole table is its part of its half (`part`). So if it gets the same events of its
//!   own in both, the queue and its jobs are the same afterwards, whatever other events happen (`jobs`, `queue`,
//!   `queues_stay_apart` of `job_table`).
//!
//! # Not proved
//!
//! - That `list_half` never returns `Disk` on a sound disk, which means that the rows read back are those of the half. Of the
//!   writer it is proved that each row that it is given is added (`Writing::put_queue`, `added`). Tests show the rest.
//! - That `list_half`, `set_queue` and `remove_queue` succeed: a body that always returns a fault of the disk meets their clauses.
//!
//! # How it works
//!
//! `list_half` writes the rows ([`split_rows`]) and opens the new disk like any spool (`Spool::load`). It compares the encoded
//! rows with those of the whole table, and the documents with those of the old disk. It returns only a disk that passes, so the
//! promises depend on the bytes that were read, not on the writer. It applies no policy: opening a half gives up an attempt that
//! was running, as opening the whole would.
//!
//! `set_queue` lists all rows in the same way, with the changed row in place of the old one, and compares them with the old table.
//! `remove_queue` lists the half of all other queues.
//!
//! # Errors
//!
//! [`HalfFault`]: memory ran out, which includes memory for twice the longest document; the rows do not fit into half of the
//! disk; or a disk failed, which includes rows read back that differ from those written. The whole spool is as before. [`EditFault`]
//! has these and the refusals.
#![tactic(auto)]

mod edits;
mod filling;
mod laws;
mod listing;
mod reading_back;
mod tables;
mod with_row;

pub use edits::{EditFault, remove_queue, set_queue};
pub use laws::{each_row_in_one_half, halves_go_on};
pub use listing::list_half;
pub use queue_edits::{EditRefusal, QueueChange};
pub use split_rows::{Half, HalfFault};
