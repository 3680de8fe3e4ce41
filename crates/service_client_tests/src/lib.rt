//! A connection in memory that reports its trace, and tests of `service_client` over it.
#![tactic(auto)]

mod memory;
#[cfg(test)]
mod tests;

pub use memory::MemoryConnection;
