//! The state that all clients share: the service, and the jobs that wait for their next request.
ghost use Rattle.std.specs.Prelude.{◌≡◌, ◌≤◌, [], ◌∷◌, ◌++◌, is_some, false, true, IfNone, IfSome, OnOk};
ghost use Rattle.ipp_submission.specs.JobParts.{given_up};
ghost use Rattle.ipp_printing.specs.PrintingJobs.{submission_of};
ghost use Rattle.ipp_loop.specs.SharedStates.{KeepsLost, is_away, parked_count, submissions};
ghost use Rattle.ipp_sockets.specs.LinkStates.{AreOnce, IsGivenUp, IsNew, Stands, waiting};
ghost use Rattle.ipp_tasks.specs.ParkedJobs.{most_parked};

use crate::lost::LostJobs;
use ipp_printing::PrintingJob;
use ipp_sockets::{Link, Stream, Tag};
use ipp_tasks::{MOST_PARKED, Parked, World};
use service_client::{Answered, Asked, Reply};
use std::alloc::{AllocError, Global};
use std::collections::VecDeque;

/// The key of the jobs without a client.
pub const NO_CLIENT: usize = usize::MAX;

/// The answer without memory, or to a client without a place.
pub const UNAVAILABLE: &[u8] =
    b"HTTP/1.1 503 Service Unavailable\r\nContent-Length: 0\r\nConnection: close\r\n\r\n";

// How long the service may be away, in milliseconds.
const AWAY: u64 = 30_000;

// The time between two attempts to connect to the service, in milliseconds.
pub const AGAIN: u64 = 100;

/// The state that all clients share.
#[derive(Drop)]
pub struct Shared<S: Stream> {
    pub alloc: Global,
    pub world: World,
    pub link: Link<S>,
    pub parked: Parked,
    lost: LostJobs,
    /// The time, in milliseconds of the steady clock.
    pub millis: u64,
    // When the service answered last, or had nothing to answer.
    heard: u64,
    // When a connection was tried last.
    tried: u64,
    // The second in which the jobs were last looked through.
    swept: u64,
}

impl<S: Stream> Shared<S> {
    pub fn new(alloc: Global, world: World, millis: u64) -> Shared<S>
        ensures link { IsGivenUp result.link }
        ensures parked { parked_count result ≡ 0 }
    {
        Shared {
            alloc,
            world,
            link: Link::new(alloc),
            parked: Parked::new(alloc),
            lost: LostJobs::new(alloc),
            millis,
            heard: millis,
            tried: 0,
            swept: 0,
        }
    }

    /// Returns whether the service has not answered for too long.
    pub fn is_away(&self) -> bool
        ensures { result ≡ is_away self.now }
    {
        self.millis > self.heard.saturating_add(AWAY)
    }

    /// Returns whether it is time to connect to the service.
    pub fn wants_connection(&self) -> bool
        ensures { result ≡ true → is_some self.now.link.stream ≡ false }
    {
        !self.link.is_connected() && self.millis >= self.tried.saturating_add(AGAIN)
    }

    /// Takes a new connection to the service, if the attempt has made one. There is none yet.
    pub fn connected(&mut self, stream: Option<S>)
        requires { is_some self.old.link.stream ≡ false }
        ensures some { IfSome stream (λ stream. IsNew stream self.new.link) }
        ensures none { IfNone stream (self.new.link ≡ self.old.link) }
    {
        self.tried = self.millis;
        if let Some(stream) = stream {
            self.link.connected(stream);
            self.heard = self.millis;
        }
    }

    /// Exchanges what can be exchanged with the service now. Returns the commands that were lost.
    pub fn exchange(&mut self, answers: &mut Vec<Answered<Tag>>) -> VecDeque<Asked<Tag>>
        ensures once { AreOnce (waiting self.old.link) answers.old.items answers.new.items result.items (waiting self.new.link) }
        // A service that has not answered for too long is given up, and so is a connection that lacks the text of a command.
        ensures away { is_away self.old ≡ true → is_some self.new.link.stream ≡ false }
        ensures broken { self.old.link.broken ≡ true → is_some self.new.link.stream ≡ false }
        ensures stands { is_some self.new.link.stream ≡ true → (Stands self.old.link self.new.link) × (result.items ≡ []) }
        ensures lost { is_some self.new.link.stream ≡ false → IsGivenUp self.new.link }
    {
        if self.link.is_connected() && self.is_away() {
            return self.link.lose();
        }
        let lost = self.link.pump(answers);
        if self.link.is_connected() && (self.link.is_settled() || !answers.is_empty()) {
            self.heard = self.millis;
        }
        lost
    }

    // ## Jobs that wait for their next request

    /// Keeps a job for its next request. If too many wait, the one with the lowest number is given up.
    pub fn park(&mut self, job: PrintingJob) -> Result<(), AllocError>
        ensures bounded { parked_count self.old ≤ most_parked → parked_count self.new ≤ most_parked }
    {
        let Some(number) = job.number() else {
            return Ok(());
        };
        let mut job = job;
        job.note_use(self.world.seconds);
        match self.parked.put(number, job)? {
            Some(first) => self.lost.push(first),
            None => Ok(()),
        }
    }

    /// Gives up a job whose client was lost.
    pub fn give_up(&mut self, job: PrintingJob) -> Result<(), AllocError>
        ensures { OnOk result (submissions self.new.lost ≡ submissions self.old.lost ++ given_up (submission_of job) ∷ []) }
    {
        self.lost.push(job)
    }

    /// Gives up the jobs that have waited too long for their next request. It looks for them once a second.
    pub fn sweep(&mut self) -> Result<(), AllocError>
        ensures { parked_count self.new ≤ parked_count self.old }
    {
        if self.swept == self.world.seconds {
            return Ok(());
        }
        self.swept = self.world.seconds;
        for _ in 0..MOST_PARKED {
            match self.parked.take_late(self.world.seconds) {
                Some(job) => self.lost.push(job)?,
                None => break,
            }
        }
        Ok(())
    }

    // ## Jobs without a client

    /// Goes on with the first job without a client.
    pub fn lost_turn(&mut self) -> Result<(), AllocError> {
        let away = self.is_away();
        self.lost.forget_ended(away);
        self.lost.prepare(self.alloc)?;
        let tag = Tag {
            key: NO_CLIENT,
            serial: self.lost.serial(),
        };
        let sent = match self.lost.unsent() {
            Some(command) => self.link.ask(tag, command)?,
            None => false,
        };
        if sent {
            self.lost.note_sent();
        }
        Ok(())
    }

    /// Takes the reply to a command of a job without a client.
    pub fn lost_heard(&mut self, serial: u64, reply: &Reply) -> Result<(), AllocError>
        ensures kept { KeepsLost self.old.lost self.new.lost }
    {
        self.lost.heard(self.alloc, serial, reply)
    }

    /// Notes that a command of a job without a client was lost.
    pub fn lost_lost(&mut self, serial: u64)
        ensures kept { KeepsLost self.old.lost self.new.lost }
    {
        self.lost.lost(serial);
    }
}
