//! Tests of devices, of their images, and of the calls that make, open and read a spool.
//!
//! The bytes of a device are specified by examples (`decision_examples`). `tests/test_images.py` compares the bytes of whole spools, and the
//! stored scripts run open spools on disks that fail after each call in turn.
#![tactic(auto)]

#[cfg(test)]
mod disks;
#[cfg(test)]
mod images;
#[cfg(test)]
mod journals;
#[cfg(test)]
mod making;
#[cfg(test)]
mod openings;
#[cfg(test)]
mod spools;
