//! The loop of the service in memory: a run of `service_loop` over a socket, clocks, signals, children and a disk in memory.
//!
//! Each of the traits by which `service_loop` reaches the system has an implementation here that reports what it does: [`MemListener`] with
//! its [`MemConnection`]s, [`MemTimes`] and [`MemSignals`]. So the clauses of the loop on connections, clocks and signals are not empty:
//! there are values for which their premises hold.
//!
//! One run of `service_loop::Service::serve` is a test (`run_tests.rt`): clients send commands, one watches, and one requests the end. The
//! test compares the texts that they are sent with those that `command_lines` and `service_texts` define.
#![tactic(auto)]

mod clocks;
mod connections;
mod listeners;
#[cfg(test)]
mod run_tests;
mod senders;

pub use clocks::MemTimes;
pub use connections::MemConnection;
pub use listeners::MemListener;
pub use senders::MemSignals;
