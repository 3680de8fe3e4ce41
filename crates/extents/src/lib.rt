//! Ranges of bytes on a device.
//!
//! [`Extent`] is used by `spool_areas`, for the places of payloads, and by the rows of jobs in `spool_types`, for the places of
//! their documents. So this crate is below both. `specs/Extents` defines the number of bytes of a list of extents.
#![tactic(auto)]

mod extent;

pub use extent::Extent;
