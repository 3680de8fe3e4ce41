//! Signals in memory.
ghost use Rattle.std.specs.Prelude.{◌≡◌, true, None, Some, IfOk, cond};

use service_loop::{Signal, Signals};
use std::alloc::{AllocError, Global};

/// Records the signals that it sends. It reports none any more once its memory is full.
#[derive(Drop)]
pub struct MemSignals {
    sent: Vec<(u32, Signal)>,
    is_whole: bool,
}

impl MemSignals {
    pub fn new(alloc: Global, most: usize) -> Result<MemSignals, AllocError>
        ensures { IfOk result (λ signals. signals.is_whole ≡ true) }
    {
        Ok(MemSignals {
            sent: Vec::with_capacity(alloc, most)?,
            is_whole: true,
        })
    }

    /// The signals that were sent, each with its group, in order.
    pub fn sent(&self) -> &[(u32, Signal)]
        ensures { result.now ≡ self.now.sent.items }
    {
        &self.sent
    }
}

impl Signals for MemSignals {
    ghost sent = { λ s. cond s.is_whole (Some s.sent.items) None };

    fn send(&mut self, group: u32, signal: Signal) -> bool {
        if self.sent.push((group, signal)).is_err() {
            self.is_whole = false;
        }
        true
    }
}
