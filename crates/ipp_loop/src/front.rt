//! The loop: serves the clients, and exchanges their commands with the service.
ghost use Rattle.ipp_loop.specs.ClientPlaces.{KeepsOthers};

use crate::client::Client;
use crate::shared::{AGAIN, NO_CLIENT, Shared, UNAVAILABLE};
use ipp_sockets::{Readiness, Sockets, Stream, Tag, Times};
use ipp_tasks::World;
use service_client::{Answered, Asked, Reply};
use std::alloc::{AllocError, Global};
use std::io;
use std::io::ErrorKind;

/// The greatest number of connected clients.
pub const MOST_CLIENTS: usize = 64;

// The most parts of the clients' requests that one turn of the loop serves.
const MOST_PASSES: u32 = 64;

// A client that has been idle for less than these milliseconds keeps its place.
const LEAST_IDLE: u64 = 1_000;

// The longest wait, in milliseconds.
const LONGEST_WAIT: u64 = 1_000;

// How long the program waits for open requests at its end, in milliseconds.
const LONGEST_END: u64 = 10_000;

/// The front.
#[derive(Drop)]
pub struct Front<S: Stream> {
    clients: Vec<Option<Client<S>>>,
    shared: Shared<S>,
    serial: u64,
    // Whether a new client may be connecting.
    has_new_client: bool,
    // Whether there is more to do at once.
    more: bool,
    // When the end was requested.
    ends: Option<u64>,
    // When it was last looked for.
    looked: u64,
}

/// The result of a client's turn.
#[derive(Clone, Copy)]
struct Served {
    has_progress: bool,
    /// Whether the client can be dismissed.
    is_over: bool,
}

impl Served {
    const NONE: Served = Served {
        has_progress: false,
        is_over: false,
    };
}

impl<S: Stream> Front<S> {
    /// A front without clients.
    pub fn new(alloc: Global, world: World, millis: u64) -> Result<Front<S>, AllocError> {
        let mut clients = Vec::with_capacity(alloc, MOST_CLIENTS)?;
        for _ in 0..MOST_CLIENTS {
            clients.push(None)?;
        }
        Ok(Front {
            clients,
            shared: Shared::new(alloc, world, millis),
            serial: 0,
            has_new_client: true,
            more: false,
            ends: None,
            looked: 0,
        })
    }

    /// Serves the clients until the program is to end, and then answers the open requests.
    pub fn serve<R: Sockets<Stream = S>, T: Times>(
        &mut self,
        sockets: &mut R,
        times: &mut T,
    ) -> io::Result<()> {
        for _ in 0..u64::MAX {
            self.wait(sockets, times)?;
            self.turn(sockets, times)?;
            if self.is_over(sockets) {
                break;
            }
        }
        self.close_all();
        Ok(())
    }

    fn wait<R: Sockets<Stream = S>, T: Times>(
        &mut self,
        sockets: &mut R,
        times: &mut T,
    ) -> io::Result<()> {
        let wait = if self.more {
            0
        } else if self.shared.link.is_connected() {
            LONGEST_WAIT
        } else {
            AGAIN
        };
        match sockets.wait(wait) {
            Ok(()) => {}
            Err(error) if error.kind() == ErrorKind::Interrupted => {}
            Err(error) => return Err(error),
        }
        self.shared.millis = times.millis();
        self.shared.world.seconds = times.seconds();
        self.note_readiness(sockets);
        Ok(())
    }

    fn note_readiness<R: Sockets<Stream = S>>(&mut self, sockets: &mut R) {
        for _ in 0..u32::MAX {
            match sockets.next_readiness() {
                None => return,
                Some(Readiness::NewClient) => self.has_new_client = true,
                Some(Readiness::Service) => self.shared.link.note_ready(),
                Some(Readiness::Client { key }) => self.note_ready(key),
            }
        }
    }

    fn note_ready(&mut self, key: usize)
        ensures others { KeepsOthers key self.old.clients.items self.new.clients.items }
    {
        if let Some(Some(client)) = self.clients.get_mut(key) {
            client.note_ready();
        }
    }

    fn turn<R: Sockets<Stream = S>, T: Times>(
        &mut self,
        sockets: &mut R,
        times: &mut T,
    ) -> Result<(), AllocError> {
        if self.shared.wants_connection() {
            let stream = sockets.connect();
            self.shared.connected(stream);
        }
        self.more = !self.serve_all(times)?;
        // New clients come last, so that those that have left have given up their places, and the requests of the others are read.
        if self.has_new_client && self.ends.is_none() {
            self.accept_all(sockets);
            self.more = true;
        }
        self.shared.sweep()
    }

    // Serves the clients until nothing more can be done, or for [`MOST_PASSES`] passes. Returns whether nothing more can be done.
    fn serve_all<T: Times>(&mut self, times: &mut T) -> Result<bool, AllocError> {
        for _ in 0..MOST_PASSES {
            if !self.pass(times)? {
                return Ok(true);
            }
        }
        Ok(false)
    }

    // Takes the replies that have come, and gives each client a turn. Returns whether anything was done.
    fn pass<T: Times>(&mut self, times: &mut T) -> Result<bool, AllocError> {
        let mut progress = self.hear()?;
        for key in 0..self.clients.len() {
            progress |= self.serve_client(key, times)?;
        }
        self.shared.lost_turn()?;
        progress |= self.hear()?;
        Ok(progress)
    }

    // ## Clients

    // Accepts the clients that are connecting.
    fn accept_all<R: Sockets<Stream = S>>(&mut self, sockets: &mut R) {
        for _ in 0..MOST_CLIENTS {
            match sockets.accept() {
                Some(stream) => self.accept(sockets, stream),
                None => {
                    self.has_new_client = false;
                    return;
                }
            }
        }
    }

    fn accept<R: Sockets<Stream = S>>(&mut self, sockets: &mut R, stream: S) {
        let mut stream = stream;
        let Some(key) = self.place() else {
            let _ = stream.write(UNAVAILABLE);
            return;
        };
        if !sockets.watch(&mut stream, key) {
            return;
        }
        self.serial = self.serial.wrapping_add(1);
        let client = Client::new(self.shared.alloc, stream, self.serial, self.shared.millis);
        if let Some(slot) = self.clients.get_mut(key) {
            *slot = Some(client);
        }
    }

    // Returns a free place, or that of the client that has been idle for the longest time.
    fn place(&self) -> Option<usize> {
        let mut oldest = None;
        let mut earliest = self.shared.millis.saturating_sub(LEAST_IDLE);
        for (key, slot) in self.clients.iter().enumerate() {
            let Some(client) = slot else {
                return Some(key);
            };
            if let Some(since) = client.idle_since() {
                if since < earliest {
                    earliest = since;
                    oldest = Some(key);
                }
            }
        }
        oldest
    }

    // Gives a client a turn. Returns whether it made progress.
    fn serve_client<T: Times>(&mut self, key: usize, times: &mut T) -> Result<bool, AllocError>
        ensures others { KeepsOthers key self.old.clients.items self.new.clients.items }
    {
        let served = self.serve_at(key, times);
        if served.is_over {
            self.dismiss(key)?;
        }
        Ok(served.has_progress)
    }

    fn serve_at<T: Times>(&mut self, key: usize, times: &mut T) -> Served
        ensures others { KeepsOthers key self.old.clients.items self.new.clients.items }
    {
        match self.clients.get_mut(key) {
            Some(slot) => serve_in(slot, &mut self.shared, key, times),
            None => Served::NONE,
        }
    }

    // Disconnects a client. Its job is given up.
    fn dismiss(&mut self, key: usize) -> Result<(), AllocError>
        ensures others { KeepsOthers key self.old.clients.items self.new.clients.items }
    {
        let Some(slot) = self.clients.get_mut(key) else {
            return Ok(());
        };
        let Some(client) = slot.take() else {
            return Ok(());
        };
        match client.dismiss() {
            Some(job) => self.shared.give_up(job),
            None => Ok(()),
        }
    }

    // ## The service

    // Takes the replies that have come, and notes the commands that were lost. Returns whether there are any.
    fn hear(&mut self) -> Result<bool, AllocError> {
        let mut answers = Vec::new(self.shared.alloc);
        let lost = self.shared.exchange(&mut answers);
        let progress = !answers.is_empty() || !lost.is_empty();
        for answered in answers {
            self.heard(answered)?;
        }
        for asked in lost {
            self.lose(asked);
        }
        Ok(progress)
    }

    // *Apart*: only the client of the command changes.
    fn heard(&mut self, answered: Answered<Tag>) -> Result<(), AllocError>
        ensures others { KeepsOthers answered.tag.key self.old.clients.items self.new.clients.items }
    {
        let tag = answered.tag;
        if tag.key == NO_CLIENT {
            return self.shared.lost_heard(tag.serial, &answered.reply);
        }
        self.heard_at(tag.key, tag.serial, &answered.reply);
        Ok(())
    }

    fn heard_at(&mut self, key: usize, serial: u64, reply: &Reply)
        ensures others { KeepsOthers key self.old.clients.items self.new.clients.items }
    {
        if let Some(slot) = self.clients.get_mut(key) {
            heard_in(slot, &mut self.shared, serial, reply);
        }
    }

    fn lose(&mut self, asked: Asked<Tag>)
        ensures others { KeepsOthers asked.tag.key self.old.clients.items self.new.clients.items }
    {
        let tag = asked.tag;
        if tag.key == NO_CLIENT {
            return self.shared.lost_lost(tag.serial);
        }
        self.lose_at(tag.key, tag.serial);
    }

    fn lose_at(&mut self, key: usize, serial: u64)
        ensures others { KeepsOthers key self.old.clients.items self.new.clients.items }
    {
        if let Some(slot) = self.clients.get_mut(key) {
            lose_in(slot, self.shared.alloc, serial);
        }
    }

    // ## The end

    // Returns whether the end was requested, and each request is answered or was waited for.
    fn is_over<R: Sockets<Stream = S>>(&mut self, sockets: &mut R) -> bool {
        let Some(since) = self.ends else {
            self.look_for_end(sockets);
            return false;
        };
        self.shared.millis > since.saturating_add(LONGEST_END) || !self.has_request()
    }

    // Asks the system a few times a second whether the end was requested.
    fn look_for_end<R: Sockets<Stream = S>>(&mut self, sockets: &mut R) {
        if self.shared.millis < self.looked.saturating_add(AGAIN) {
            return;
        }
        self.looked = self.shared.millis;
        if sockets.is_ending() {
            self.ends = Some(self.shared.millis);
        }
    }

    fn has_request(&self) -> bool {
        for slot in &self.clients {
            if let Some(client) = slot {
                if client.idle_since().is_none() {
                    return true;
                }
            }
        }
        false
    }

    fn close_all(&mut self) {
        for key in 0..self.clients.len() {
            if let Some(Some(client)) = self.clients.get_mut(key) {
                client.close();
            }
        }
    }
}

// Takes the reply to a command of the client in a place.
fn heard_in<S: Stream>(
    slot: &mut Option<Client<S>>,
    shared: &mut Shared<S>,
    serial: u64,
    reply: &Reply,
) {
    if let Some(client) = slot {
        client.heard(shared, serial, reply);
    }
}

// Notes that a command of the client in a place is lost.
fn lose_in<S: Stream>(slot: &mut Option<Client<S>>, alloc: Global, serial: u64) {
    if let Some(client) = slot {
        client.lost(alloc, serial);
    }
}

// Gives the client in a place a turn.
fn serve_in<S: Stream, T: Times>(
    slot: &mut Option<Client<S>>,
    shared: &mut Shared<S>,
    key: usize,
    times: &mut T,
) -> Served {
    match slot {
        Some(client) => Served {
            has_progress: client.serve(shared, key, times),
            is_over: client.is_over(),
        },
        None => Served::NONE,
    }
}
