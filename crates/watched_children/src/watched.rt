//! The wrapper of the children, and of their tickets.
ghost use Rattle.std.specs.Prelude.{◌≡◌};

use child_pipeline::{ChildFault, Children, Finish, Order, Program};
use clean_texts::{clean_bytes, clean_text};
use log::{Log, debug, error, info};
use spool_types::Exit;
use std::alloc::{AllocError, Global};

// How many bytes of the end of a child's standard error are logged.
const LAST_BYTES: usize = 400;

// The name of a child in the log if memory for it ran out.
const UNNAMED: &str = "a child";

/// Children whose starts and ends are logged.
#[derive(Drop)]
pub struct WatchedChildren<'a, L, C: Children> {
    log: &'a L,
    alloc: Global,
    pub inner: C,
}

/// The ticket of a child, with the texts of the child for the log. A text is missing if memory for it ran out.
#[derive(Drop)]
pub struct WatchedTicket<T: Drop> {
    inner: T,
    // Its job, attempt, stage and program.
    name: Option<String>,
    // Its queue, and the user and the title of its job.
    origin: Option<String>,
}

impl<'a, L: Log, C: Children> WatchedChildren<'a, L, C> {
    /// The same children, logged here.
    pub fn new(log: &'a L, alloc: Global, inner: C) -> WatchedChildren<'a, L, C>
        ensures inner { result.inner ≡ inner }
    {
        WatchedChildren { log, alloc, inner }
    }

    fn log_end(&self, name: &str, origin: &str, finish: &Finish) {
        match finish.exit {
            Exit::Code(0) => info!(self.log; "{name}: ended"),
            Exit::Code(code) => error!(self.log; "{name}: ended with status {code}{origin}"),
            Exit::Signal => error!(self.log; "{name}: killed by a signal{origin}"),
            Exit::NoStart | Exit::Lost => {}
        }
        if finish.exit != Exit::Code(0) {
            log_last_lines(self.log, self.alloc, name, finish.errors.as_slice());
        }
    }
}

// Logs the last lines of a child's standard error, clean. A line for which memory runs out is left out.
fn log_last_lines<L: Log>(log: &L, alloc: Global, name: &str, errors: &[u8]) {
    let from = errors.len().saturating_sub(LAST_BYTES);
    for line in errors[from..].split(|b| *b == b'\n') {
        if line.is_empty() {
            continue;
        }
        if let Ok(shown) = clean_bytes(alloc, line) {
            error!(log; "{name}: {shown}");
        }
    }
}

fn name_of(alloc: Global, order: &Order) -> Result<String, AllocError> {
    let job = order.job.get();
    let attempt = order.attempt.get();
    let stage = order.stage.get();
    let program = match &order.program {
        Program::Filter(name) => name.as_str(),
        Program::Backend(scheme) => scheme.as_str(),
    };
    format!(in alloc; "job {job} attempt {attempt} stage {stage} {program}")
}

// The queue of a child, and the user and the title of its job (filter(7)), clean, as they follow a failure.
fn origin_of(alloc: Global, order: &Order) -> Result<String, AllocError> {
    let queue = order.queue.as_str();
    let words = order.words.as_slice();
    let user = word_at(words, 1);
    let title = word_at(words, 2);
    let text = format!(in alloc; ", queue {queue}, user {user}, title {title}")?;
    clean_text(alloc, text.as_str())
}

fn word_at(words: &[String], at: usize) -> &str {
    match words.get(at) {
        Some(word) => word.as_str(),
        None => "",
    }
}

// A text of a child in the log, or the other one if it is missing.
fn shown<'a>(text: &'a Option<String>, other: &'a str) -> &'a str {
    match text {
        Some(text) => text.as_str(),
        None => other,
    }
}

impl<'a, L: Log, C: Children> Children for WatchedChildren<'a, L, C> {
    type Ticket = WatchedTicket<C::Ticket>;

    ghost tells = { λ c. C.tells c.inner };

    ghost number = { λ t. C.number t.inner };

    ghost groups = { C.groups };

    ghost rooms = { λ old start_room new. C.rooms old.inner start_room new.inner };

    fn start(&mut self, order: Order) -> Result<WatchedTicket<C::Ticket>, ChildFault> {
        let name = name_of(self.alloc, &order).ok();
        let origin = origin_of(self.alloc, &order).ok();
        match self.inner.start(order) {
            Ok(inner) => {
                debug!(self.log; "{}: started", shown(&name, UNNAMED));
                Ok(WatchedTicket {
                    inner,
                    name,
                    origin,
                })
            }
            Err(fault) => Err(fault),
        }
    }

    fn finish(&mut self, ticket: WatchedTicket<C::Ticket>) -> Result<Finish, ChildFault> {
        let WatchedTicket {
            inner,
            name,
            origin,
        } = ticket;
        let answer = self.inner.finish(inner);
        if let Ok(finish) = &answer {
            self.log_end(shown(&name, UNNAMED), shown(&origin, ""), finish);
        }
        answer
    }

    fn has_ended(&mut self, ticket: &mut WatchedTicket<C::Ticket>) -> bool {
        self.inner.has_ended(&mut ticket.inner)
    }

    fn group(ticket: &WatchedTicket<C::Ticket>) -> u32 {
        C::group(&ticket.inner)
    }

    fn start_room(&mut self) -> Option<usize> {
        self.inner.start_room()
    }
}
