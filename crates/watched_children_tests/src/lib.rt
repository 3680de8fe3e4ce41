//! The laws of an engine's children, for the children of the service: a log around others. The others are in memory here, so they report
//! their calls, and the premises of the laws hold.
//!
//! # Promises
//!
//! - [`watched_engine`] makes an engine over them. Over any list of its calls (rounds, ticks and runs) no stage of an attempt is ordered
//!   twice (`once`), and each later stage gets the output of the stage before it (`input`).
//! - [`end_watched`] waits for the children that run: each has been finished once, and none runs (`finished`).
#![tactic(auto)]

mod engines;

pub use engines::{end_watched, watched_engine};
