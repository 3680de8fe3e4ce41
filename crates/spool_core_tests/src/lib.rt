//! Tests of the tables and spools of `job_table` and `spool_core`: runs of events, batches, and the texts that a service sends about a
//! table. Events and rows are encoded in hexadecimal.
//!
//! The stored scripts test checkpoints, spools of an older version, and disks that fail. `decision_examples` has the order of waiting
//! jobs, and `tests/test_images.py` compares listings that are loaded, and documents, with the bytes of a second encoder.
#![tactic(auto)]

#[cfg(test)]
mod batches;
#[cfg(test)]
mod runs;
#[cfg(test)]
mod spelled;
#[cfg(test)]
mod spools;
#[cfg(test)]
mod texts;
