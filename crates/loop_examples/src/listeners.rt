//! A listening socket in memory.
use crate::connections::MemConnection;
use service_loop::{AcceptOutcome, Listener, Readiness};
use std::io;

/// Clients that connect one after another, one before each wait. After each wait all connections are ready.
#[derive(Drop)]
pub struct MemListener<'a> {
    // The clients that have not connected yet, the next one last.
    coming: Vec<MemConnection<'a>>,
    // Whether the next one has connected.
    knocks: bool,
    // The number of keys that were watched, and the next one to report.
    keys: usize,
    next: usize,
}

impl<'a> MemListener<'a> {
    /// These clients connect, the last one first.
    pub fn new(coming: Vec<MemConnection<'a>>) -> MemListener<'a> {
        MemListener {
            coming,
            knocks: false,
            keys: 0,
            next: 0,
        }
    }
}

impl<'a> Listener for MemListener<'a> {
    type Stream = MemConnection<'a>;

    fn wait(&mut self, _millis: Option<u64>) -> io::Result<()> {
        self.knocks = true;
        self.next = 0;
        Ok(())
    }

    fn next_readiness(&mut self) -> Option<Readiness> {
        let at = self.next;
        if self.keys < at {
            return None;
        }
        self.next = at.saturating_add(1);
        if at == self.keys {
            return Some(Readiness::NewClient);
        }
        Some(Readiness::Client {
            key: at,
            writable: true,
            gone: false,
        })
    }

    fn accept(&mut self) -> AcceptOutcome<MemConnection<'a>> {
        if !self.knocks {
            return AcceptOutcome::Nobody;
        }
        self.knocks = false;
        match self.coming.pop() {
            Some(connection) => AcceptOutcome::Client(connection),
            None => AcceptOutcome::Nobody,
        }
    }

    fn watch(&mut self, _connection: &mut MemConnection<'a>, key: usize) -> bool {
        self.keys = self.keys.max(key.saturating_add(1));
        true
    }
}
