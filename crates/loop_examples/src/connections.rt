//! The connection of a client in memory.
ghost use Rattle.std.specs.Prelude.{◌≡◌, [], None, Some, map};
ghost use Rattle.loop_examples.specs.ProofNotes.{step_by};

use client_standing::{Proved, RoleRules};
use service_loop::Connection;
use spool_types::UserName;
use std::alloc::{AllocError, Global};
use std::cell::RefCell;
use std::io;
use std::io::{ErrorKind, Read};

// The path of the folder that it names.
const PROOF: &str = "/proof";

// A step of its client's proofs.
#[derive(Clone, Copy)]
enum ProofNote {
    Named,
    Examined,
}

/// A client that sends a text and takes all that it is sent.
#[derive(Drop)]
pub struct MemConnection<'a> {
    text: &'a [u8],
    // Whether it stays connected after its text.
    stays: bool,
    written: Vec<u8>,
    // The written bytes once more, for the time after the connection was closed.
    seen: &'a RefCell<Vec<u8>>,
    gave: Option<io::Result<usize>>,
    took: Option<io::Result<usize>>,
    rules: RoleRules,
    is_operators: bool,
    // The user that its client proves to be, and the steps of the proofs so far.
    user: &'a UserName,
    proofs: Vec<ProofNote>,
}

impl<'a> MemConnection<'a> {
    /// A client of this user that sends this text and then hangs up, unless it stays.
    pub fn new(
        alloc: Global,
        text: &'a [u8],
        stays: bool,
        seen: &'a RefCell<Vec<u8>>,
        rules: RoleRules,
        is_operators: bool,
        user: &'a UserName,
    ) -> MemConnection<'a>
        ensures text { result.text.now ≡ text.now }
        ensures written { result.written.items ≡ [] }
        ensures rules { result.rules ≡ rules }
        ensures is_operators { result.is_operators ≡ is_operators }
        ensures user { result.user.now ≡ user.now }
        ensures proofs { result.proofs.items ≡ [] }
    {
        MemConnection {
            text,
            stays,
            written: Vec::new(alloc),
            seen,
            gave: None,
            took: None,
            rules,
            is_operators,
            user,
            proofs: Vec::new(alloc),
        }
    }

    // Keeps the written bytes for the time after the connection was closed.
    fn keep(&self, bytes: &[u8]) {
        if let Ok(mut seen) = self.seen.try_borrow_mut() {
            let _ = seen.extend_from_slice(bytes);
        }
    }
}

impl Connection for MemConnection<'_> {
    ghost view = { record {
      remaining = λ c. Some c.text.now;
      contents = λ c. Some c.written.items;
      gave = λ c. c.gave;
      took = λ c. c.took;
      rules = λ c. c.rules;
      is_operators = λ c. c.is_operators;
      proofs = λ c. Some (map (step_by c.user.now c.is_operators) c.proofs.items);
    } };

    fn read(&mut self, piece: &mut [u8]) -> io::Result<usize> {
        let outcome = if self.stays && self.text.is_empty() {
            Err(io::Error::from(ErrorKind::WouldBlock))
        } else {
            self.text.read(piece)
        };
        self.gave = Some(outcome);
        outcome
    }

    fn write(&mut self, text: &[u8]) -> io::Result<usize> {
        let outcome = match self.written.extend_from_slice(text) {
            Ok(()) => Ok(text.len()),
            Err(error) => Err(io::Error::from(error)),
        };
        if outcome.is_ok() {
            self.keep(text);
        }
        self.took = Some(outcome);
        outcome
    }

    fn rules(&self) -> RoleRules {
        self.rules
    }

    fn is_operators(&self) -> bool {
        self.is_operators
    }

    fn challenge(&mut self) -> Result<Option<String>, AllocError> {
        let path = String::from_str(*self.written.allocator(), PROOF)?;
        self.proofs.push(ProofNote::Named)?;
        Ok(Some(path))
    }

    fn prove(&mut self) -> Result<Option<Proved>, AllocError> {
        let name = self.user.clone()?;
        self.proofs.push(ProofNote::Examined)?;
        let is_operator = self.is_operators;
        Ok(Some(Proved { name, is_operator }))
    }
}
