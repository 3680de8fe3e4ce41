//! A client: its unserved text, and the replies that it has not taken.
//!
//! At most a piece beyond the beginning of a line is read of its text. Its reader (`client_reader`) returns its requests in order.
ghost use Rattle.std.specs.Prelude.{◌≡◌, ◌⊎◌, ◌<◌, ◌&&◌, ◌||◌, ℕ, cond, nat_le, vec_len, is_some, true, false, List, [], None, Some, IfOk, OnOk};
ghost use Rattle.client_reader.specs.AwaitedRequests.{is_in_send};
ghost use Rattle.service_rules.specs.Bounds.{most_unread};
ghost use Rattle.service_rules.specs.Listeners.{may_listen};
ghost use Rattle.service_loop.specs.ClientListening.{BeginsAtMost, IsHeard};
ghost use Rattle.service_loop.specs.ServiceCalls.{GoesWithin};
ghost use Rattle.service_loop.specs.StagedRoom.{has_many_staged};
ghost use Rattle.service_loop.specs.AdmissionViews.{is_listener, listens, unread, watches};
ghost use Rattle.service_loop.specs.ClientActions.{Action, IsDurable};
ghost use Rattle.service_loop.specs.Progress.{HasLeft, HasRead, IsAtRest, IsBacklogged, IsCut, IsGiven, IsMarked, IsReadAs, IsUnheard, Leaves, as_given, as_read, as_served, as_told, goes_further, has_ended, heard_after, misses, news_for, signed, text_for};
ghost use Rattle.service_loop.specs.ClientSlots.{HasNoneNow};
ghost use Rattle.service_loop.specs.ClientSteps.{Delivers, Goes, GivesNext, IsAdded, IsEntry, IsNotified, IsClientStep, is_starved, status_of};

mod answers;
mod applied;
mod listening;
mod looks;

use crate::bounds::{MOST_STEPS, PIECE};
use crate::connection::{Connection, read_of, write_to};
use crate::shared::Shared;
use child_pipeline::Children;
use client_reader::{Next, Reader};
use client_standing::Standing;
use job_table::Table;
use service_rules::bounds::MOST_UNREAD;
use service_rules::{Listening, is_served_on};
use service_texts::{Notes, has_settled, job_told, push_change};
use spool_disk::Disk;
use spool_types::JobId;
use std::alloc::{AllocError, Global};
use std::io::ErrorKind;

// Sent to a watching client that left too much unread.
const MISSED: &[u8] = b"missed\n";

/// Why a client is disconnected.
#[derive(Clone, Copy, Debug, PartialEq, Eq)]
pub enum Disconnect {
    /// It hung up, or its text has ended and it has all replies.
    Left,
    /// Memory ran out for its text or a reply.
    Memory,
    /// The device failed before its replies were durable.
    Device,
}

/// Why a client cannot be served.
#[derive(Clone, Copy, Debug, PartialEq, Eq)]
enum ClientFault {
    /// Memory ran out for its text or a reply.
    Memory,
}

impl From<AllocError> for ClientFault {
    ghost use Rattle.service_loop.specs.declared.client.ClientFault.TheVariants.{Memory};

    ghost from_gives = { λ _ e. e ≡ Memory };

    fn from(_error: AllocError) -> ClientFault {
        ClientFault::Memory
    }
}

/// The result of the requests of a client's turn.
#[derive(Clone, Copy)]
pub struct Turn {
    /// Whether a request was served.
    pub served: bool,
    /// Whether more can be served at once.
    pub more: bool,
    // The places that other clients have that listen.
    listening: Listening,
    /// Whether it requested the end of the service.
    pub shutdown: bool,
    pub disconnect: Option<Disconnect>,
}

impl Turn {
    fn new(listening: Listening) -> Turn
        ensures { result ≡ record { served = false; more = false; listening = listening; shutdown = false; disconnect = None } }
    {
        Turn {
            served: false,
            more: false,
            listening,
            shutdown: false,
            disconnect: None,
        }
    }
}

/// The result of the replies of a client's turn.
#[derive(Clone, Copy)]
pub struct Sending {
    /// Whether more can be done for it at once.
    pub more: bool,
    pub disconnect: Option<Disconnect>,
}

// The result of a step of a client's turn.
#[derive(Clone, Copy)]
enum Step {
    // A request was served.
    Served,
    // There may be more.
    Goes,
    // There is nothing more now.
    Rests,
    // Its connection is lost.
    Lost,
}

#[derive(Drop)]
pub struct Client<L: Connection> {
    connection: L,
    // Reads its requests from the text that was read.
    reader: Reader,
    // The replies, and how many of their bytes the client has taken.
    replies: Vec<u8>,
    taken: usize,
    readable: bool,
    writable: bool,
    // Whether its text has ended, and whether it has hung up and reads no replies any more.
    over: bool,
    gone: bool,
    // The job whose end it waits for.
    waits: Option<JobId>,
    // Whether it is sent what changes, and whether it missed some of that.
    watches: bool,
    missed: bool,
    // Whether it is sent the number of the last change too.
    counts: bool,
    // When it was last heard, in milliseconds: when a request of it was answered, when bytes of a send arrived, or when it took bytes. An
    // empty line is no sign of life.
    last_active: u64,
    // Who it is, and which jobs are its own.
    standing: Standing,
}

impl<L: Connection> Client<L> {
    /// A client with this connection.
    pub fn new(alloc: Global, connection: L, now: u64) -> Client<L>
        ensures entry { IsEntry L.view connection result }
        ensures connection { (result.readable ≡ true) × (result.writable ≡ true) × (result.over ≡ false) × (result.gone ≡ false) }
        ensures told { (result.waits ≡ None) × (result.watches ≡ false) × (result.missed ≡ false) }
        ensures heard { result.last_active ≡ now }
    {
        let standing = Standing::new(alloc, connection.rules(), connection.is_operators());
        Client {
            connection,
            reader: Reader::new(alloc),
            replies: Vec::new(alloc),
            taken: 0,
            readable: true,
            writable: true,
            over: false,
            gone: false,
            waits: None,
            watches: false,
            missed: false,
            counts: false,
            last_active: now,
            standing,
        }
    }

    /// When it was last heard, in milliseconds.
    pub fn last_active(&self) -> u64
        ensures { result ≡ self.now.last_active }
    {
        self.last_active
    }

    /// The newest jobs that it created.
    pub fn made_jobs(&self) -> &[JobId]
        ensures { result.now ≡ self.now.standing.made }
    {
        self.standing.made().as_slice()
    }

    /// Whether it waits for a job's end or watches, and has taken all that it was sent.
    pub fn listens(&self) -> bool
        ensures { result ≡ listens self.now }
    {
        (self.waits.is_some() || self.watches()) && self.unread() == 0
    }

    /// Notes that the connection may be readable, and whether it may take more (`writable`) or has hung up (`gone`).
    pub fn signal(&mut self, writable: bool, gone: bool)
        ensures goes { Goes L.view self.old [] [] self.new }
        ensures status { status_of self.new ≡ status_of self.old }
        ensures signed { self.new ≡ signed self.old writable gone }
    {
        self.readable = true;
        self.writable = self.writable || writable;
        self.gone = self.gone || gone;
    }

    /// Whether it waits for a job's end or watches. Then it has one of the places for clients that listen.
    pub fn is_listener(&self) -> bool
        ensures { result ≡ is_listener self.now }
    {
        self.waits.is_some() || self.watches()
    }

    /// Whether its connection may have more of its text. Otherwise it has no request now.
    pub fn is_readable(&self) -> bool
        ensures { result ≡ self.now.readable }
    {
        self.readable
    }

    /// The rights of the client.
    pub fn standing(&self) -> &Standing
        ensures { result.now ≡ self.now.standing }
    {
        &self.standing
    }

    fn unread(&self) -> usize
        ensures { result ≡ unread self.now }
    {
        self.replies.len().saturating_sub(self.taken)
    }

    /// Serves requests of the client, up to the bounds of a turn. Their events are staged, and their replies wait for [`Client::send`].
    /// `listening`: the places of the other clients that listen.
    pub fn serve<D: Disk, C: Children>(
        &mut self,
        shared: &mut Shared<D, C>,
        listening: Listening,
        now: u64,
    ) -> Turn
        // Unless memory ran out for it, its next requests were answered in order, and no other text is for it.
        ensures client_step { is_starved result.disconnect ≡ false → (actions : List (Action D)) ×
            IsClientStep D.device L.view shared.old.engine self.old actions shared.new.engine self.new }

        // It listens afterwards only if it listened before, or one more client might.
        ensures listens { is_starved result.disconnect ≡ false → BeginsAtMost (may_listen listening) self.old self.new }

        // Unless there is more to do at once, a client that stays is at rest or left too much unread.
        ensures rests { result.disconnect ≡ None → result.more ≡ false → IsAtRest shared.new.engine.run_state.spool.state self.new ⊎ IsBacklogged self.new }
        ensures leaves { Leaves L.view shared.new.engine.run_state.spool self.old result.disconnect self.new }
        ensures calls { GoesWithin D.device shared.old.most shared.old.engine shared.new.most shared.new.engine }
    {
        let mut turn = Turn::new(listening);
        match self.try_serve(shared, now, &mut turn) {
            Ok(true) => {}
            Ok(false) => turn.disconnect = Some(Disconnect::Left),
            Err(ClientFault::Memory) => turn.disconnect = Some(Disconnect::Memory),
        }
        turn
    }

    // Does the same. Returns whether the client stays.
    fn try_serve<D: Disk, C: Children>(
        &mut self,
        shared: &mut Shared<D, C>,
        now: u64,
        turn: &mut Turn,
    ) -> Result<bool, ClientFault>
        ensures client_step { OnOk result ((actions : List (Action D)) ×
            IsClientStep D.device L.view shared.old.engine self.old actions shared.new.engine self.new) }
        ensures listens { OnOk result (BeginsAtMost (may_listen turn.old.listening) self.old self.new) }
        ensures rests { IfOk result (λ there. there ≡ true → turn.new.more ≡ false → IsAtRest shared.new.engine.run_state.spool.state self.new ⊎ IsBacklogged self.new) }
        ensures leaves { IfOk result (λ there. there ≡ false → HasLeft L.view self.new) }
        ensures marked { IsMarked L.view self.old → IsMarked L.view self.new }
        ensures disconnect { turn.new.disconnect ≡ turn.old.disconnect }
        ensures calls { GoesWithin D.device shared.old.most shared.old.engine shared.new.most shared.new.engine }
    {
        if self.has_left_waiting() {
            return Ok(false);
        }
        self.settle_many(shared);
        if !self.serve_some(shared, now, turn)? {
            return Ok(false);
        }
        Ok(!self.has_ended(turn.more))
    }

    // Makes the events that other clients staged durable if they are many, so that no settle takes long.
    fn settle_many<D: Disk, C: Children>(&self, shared: &mut Shared<D, C>)
        ensures few { has_many_staged shared.new.settled_room shared.new.engine.run_state.spool.room ≡ false }
        ensures client_step { (actions : List (Action D)) × IsClientStep D.device L.view shared.old.engine self.now actions shared.new.engine self.now }
        ensures calls { GoesWithin D.device shared.old.most shared.old.engine shared.new.most shared.new.engine }
    {
        if shared.has_many_staged() {
            shared.settle();
        }
    }

    // Whether its text has ended, there is no more to serve, it waits for nothing, and it has all replies. A last line without line feed is no
    // command: the client may have been killed in the middle of it.
    fn has_ended(&self, more: bool) -> bool
        ensures { result ≡ has_ended self.now more }
    {
        self.over && !more && self.waits.is_none() && self.unread() == 0
    }

    /// Makes the staged events durable, if any are staged, and then writes the replies that its connection takes.
    pub fn send<D: Disk, C: Children>(&mut self, shared: &mut Shared<D, C>, now: u64) -> Sending
        // Nothing is written to its connection before all events are durable, and nothing but its replies then.
        ensures client_step { (actions : List (Action D)) × IsClientStep D.device L.view shared.old.engine self.old actions shared.new.engine self.new }
        ensures given { result.disconnect ≡ None → IsGiven self.new }
        // There is more to do at once exactly if it took so much that it can be served again, or all, so that it can leave.
        ensures more { result.disconnect ≡ None → result.more ≡ goes_further (nat_le most_unread (unread self.old)) self.new }
        // Unless there is more to do at once, nothing can be done for it if nothing could be done before.
        ensures rests { result.disconnect ≡ None → result.more ≡ false → HasNoneNow self.old → HasNoneNow self.new }
        ensures leaves { Leaves L.view shared.new.engine.run_state.spool self.old result.disconnect self.new }
        ensures listens { is_listener self.new ≡ is_listener self.old }
        ensures calls { GoesWithin D.device shared.old.most shared.old.engine shared.new.most shared.new.engine }
    {
        if !shared.settle() {
            return Sending {
                more: false,
                disconnect: Some(Disconnect::Device),
            };
        }
        let was_backlogged = MOST_UNREAD <= self.unread();
        if !self.give(shared, now) {
            return Sending {
                more: false,
                disconnect: Some(Disconnect::Left),
            };
        }
        Sending {
            more: self.goes_further(was_backlogged),
            disconnect: None,
        }
    }

    // Whether it can be served again, as too much of its replies is unread no longer, or leave, as it has ended. Its connection may report no
    // readiness for that.
    fn goes_further(&self, was_backlogged: bool) -> bool
        ensures { result ≡ goes_further was_backlogged self.now }
    {
        was_backlogged && self.unread() < MOST_UNREAD || self.has_ended(false)
    }

    // Whether it has hung up while it waits. A waiting client is not read, so the end of its text is not seen.
    fn has_left_waiting(&self) -> bool
        ensures { result ≡ (self.now.gone && is_some self.now.waits) }
    {
        self.gone && self.waits.is_some()
    }

    // Serves complete requests, up to the bounds of a turn. Returns whether the client stays.
    fn serve_some<D: Disk, C: Children>(
        &mut self,
        shared: &mut Shared<D, C>,
        now: u64,
        turn: &mut Turn,
    ) -> Result<bool, ClientFault>
        ensures client_step { OnOk result ((actions : List (Action D)) ×
            IsClientStep D.device L.view shared.old.engine self.old actions shared.new.engine self.new) }
        ensures listens { OnOk result (BeginsAtMost (may_listen turn.old.listening) self.old self.new) }
        ensures rests { IfOk result (λ there. there ≡ true → turn.new.more ≡ false → IsAtRest shared.new.engine.run_state.spool.state self.new ⊎ IsBacklogged self.new) }
        ensures leaves { IfOk result (λ there. there ≡ false → IsCut L.view self.new) }
        ensures marked { IsMarked L.view self.old → IsMarked L.view self.new }
        ensures disconnect { turn.new.disconnect ≡ turn.old.disconnect }
        ensures calls { GoesWithin D.device shared.old.most shared.old.engine shared.new.most shared.new.engine }
    {
        turn.more = true;
        let mut served = 0;
        for _ in 0..MOST_STEPS {
            if !is_served_on(served, self.unread()) {
                turn.more = self.unread() < MOST_UNREAD;
                break;
            }
            match self.step(shared, now, turn)? {
                Step::Served => served += 1,
                Step::Goes => {}
                Step::Rests => {
                    turn.more = false;
                    break;
                }
                Step::Lost => return Ok(false),
            }
        }
        Ok(true)
    }

    // Reports the end that it waits for, or serves its next request, or reads more of its text.
    fn step<D: Disk, C: Children>(
        &mut self,
        shared: &mut Shared<D, C>,
        now: u64,
        turn: &mut Turn,
    ) -> Result<Step, ClientFault>
        ensures client_step { OnOk result ((actions : List (Action D)) ×
            IsClientStep D.device L.view shared.old.engine self.old actions shared.new.engine self.new) }
        ensures rests { IfOk result (λ step. step ≡ Step.Rests → IsAtRest shared.new.engine.run_state.spool.state self.new) }
        ensures leaves { IfOk result (λ step. step ≡ Step.Lost → IsCut L.view self.new) }
        ensures marked { IsMarked L.view self.old → IsMarked L.view self.new }
        ensures listens { OnOk result (BeginsAtMost (may_listen turn.old.listening) self.old self.new) }
        ensures heard { IfOk result (λ step. IsHeard self.old now step self.new) }
        ensures turn { turn.new ≡ as_served turn.old turn.new }
        ensures calls { GoesWithin D.device shared.old.most shared.old.engine shared.new.most shared.new.engine }
    {
        if !self.has_reported_end(shared)? {
            return Ok(Step::Rests);
        }
        match self.next_asked()? {
            Next::Asked(ask) => {
                self.answer(shared, ask, turn)?;
                self.note_heard(now);
                Ok(Step::Served)
            }
            Next::Again => Ok(Step::Goes),
            Next::Text => Ok(self.read_more(now)?),
        }
    }

    // Notes that a request of it was answered.
    fn note_heard(&mut self, now: u64)
        ensures goes { Goes L.view self.old [] [] self.new }
        ensures status { status_of self.new ≡ status_of self.old }
        ensures kept { self.new ≡ record self.old { last_active = now } }
    {
        self.last_active = now;
    }

    // The next request of its reader.
    fn next_asked(&mut self) -> Result<Next, AllocError>
        ensures next { IfOk result (λ next. GivesNext L.view self.old next self.new) }
        ensures status { status_of self.new ≡ status_of self.old }
        ensures marked { IsMarked L.view self.old → IsMarked L.view self.new }
        ensures kept { self.new ≡ record self.old { reader = self.new.reader } }
    {
        let next = self.reader.next()?;
        Ok(next)
    }

    // Reports the end of the job that it waits for, if the job has ended. Returns whether it waits for no job now.
    fn has_reported_end<D: Disk, C: Children>(
        &mut self,
        shared: &Shared<D, C>,
    ) -> Result<bool, AllocError>
        ensures client_step { OnOk result ((actions : List (Action D)) ×
            IsClientStep D.device L.view shared.now.engine self.old actions shared.now.engine self.new) }
        ensures waits { IfOk result (λ over. over ≡ true → self.new.waits ≡ None) }
        ensures rests { IfOk result (λ over. over ≡ false → IsAtRest shared.now.engine.run_state.spool.state self.new) }
        ensures listens { is_listener self.new ≡ true → is_listener self.old ≡ true }
        ensures marked { IsMarked L.view self.old → IsMarked L.view self.new }
        ensures kept { self.new ≡ record self.old { replies = self.new.replies; waits = self.new.waits } }
    {
        let Some(job) = self.waits else {
            return Ok(true);
        };
        let table = shared.engine.table();
        if !has_settled(table, job) {
            return Ok(false);
        }
        let text = job_told(*self.replies.allocator(), table, &self.standing, job)?;
        self.add(&text)?;
        self.waits = None;
        Ok(true)
    }

    /// Whether it is sent what changes.
    pub fn watches(&self) -> bool
        ensures { result ≡ watches self.now }
    {
        self.watches && !self.over
    }

    /// Sends it what changed, if it watches. If it left too much unread, it gets `missed` later. Returns false if memory ran out.
    pub fn notify(&mut self, notes: &Notes, table: &Table, last: u64) -> bool
        ensures told { result ≡ true → IsAdded self.old (text_for self.old (news_for table.now.state notes.now last self.old)) self.new }
        ensures of { IsNotified (news_for table.now.state notes.now last self.old) (text_for self.old (news_for table.now.state notes.now last self.old)) }
        ensures missed { result ≡ true → self.new.missed ≡ misses self.old }
        ensures starved { result ≡ false → watches self.old ≡ true }
        ensures status { status_of self.new ≡ status_of self.old }
        ensures kept { self.new ≡ as_told self.old self.new }
    {
        if !self.watches() {
            return true;
        }
        if MOST_UNREAD <= self.unread() {
            self.missed = true;
            return true;
        }
        let Ok(news) = self.news(notes, table, last) else {
            return false;
        };
        if self.missed {
            self.missed = false;
            if self.add(MISSED).is_err() {
                return false;
            }
        }
        self.add(&news).is_ok()
    }

    // Returns what it is sent of these changes.
    fn news(&self, notes: &Notes, table: &Table, last: u64) -> Result<Vec<u8>, AllocError>
        ensures { IfOk result (λ news. news.items ≡ news_for table.now.state notes.now last self.now) }
    {
        let mut news = notes.lines(*self.replies.allocator(), table, &self.standing)?;
        if self.counts {
            push_change(&mut news, last)?;
        }
        Ok(news)
    }

    // Appends a text to its replies.
    fn add(&mut self, text: &[u8]) -> Result<(), AllocError>
        ensures added { OnOk result (IsAdded self.old text.now self.new) }
        ensures status { status_of self.new ≡ status_of self.old }
        ensures kept { self.new ≡ record self.old { replies = self.new.replies } }
    {
        self.replies.extend_from_slice(text)?;
        Ok(())
    }

    // Writes the replies that its connection takes. What they report is durable. Returns whether the connection still takes replies.
    fn give<D: Disk, C: Children>(&mut self, shared: &Shared<D, C>, now: u64) -> bool
        requires durable { IsDurable shared.now.engine.run_state.spool }
        ensures delivers { Delivers L.view self.old self.new }
        ensures status { status_of self.new ≡ status_of self.old }
        ensures given { result ≡ true → IsGiven self.new }
        ensures lost { result ≡ false → IsUnheard L.view self.new }
        ensures heard { self.new.last_active ≡ heard_after self.old now self.new }
        ensures marked { IsMarked L.view self.old → IsMarked L.view self.new }
        ensures kept { self.new ≡ as_given self.old self.new }
    {
        while self.writable && self.taken < self.replies.len() {
            if !self.write_some(shared, now) {
                return false;
            }
        }
        if self.replies.len() <= self.taken {
            self.replies.clear();
            self.taken = 0;
        }
        true
    }

    // Writes some of its replies. Returns whether the connection still takes replies.
    fn write_some<D: Disk, C: Children>(&mut self, _shared: &Shared<D, C>, now: u64) -> bool
        requires durable { IsDurable _shared.now.engine.run_state.spool }
        requires unread { self.old.taken < vec_len self.old.replies }
        requires writable { self.old.writable ≡ true }
        ensures delivers { Delivers L.view self.old self.new }
        ensures some { result ≡ true → (unread self.new < unread self.old) ⊎ ((self.new.writable ≡ false) × (unread self.new ≡ unread self.old)) }
        ensures lost { result ≡ false → IsUnheard L.view self.new × (unread self.new ≡ unread self.old) }
        ensures heard { self.new.last_active ≡ heard_after self.old now self.new }
        ensures marked { IsMarked L.view self.old → IsMarked L.view self.new }
        ensures kept { self.new ≡ as_given self.old self.new }
    {
        match write_to(&mut self.connection, &self.replies[self.taken..]) {
            Ok(0) => false,
            Ok(count) => {
                self.taken += count;
                self.last_active = now;
                self.forget_taken();
                true
            }
            Err(error) if error.kind() == ErrorKind::WouldBlock => {
                self.writable = false;
                true
            }
            Err(_) => false,
        }
    }

    // Releases the replies that were taken once they reach the limit of unread bytes. Otherwise the buffer of a client that always leaves
    // something unread would grow.
    fn forget_taken(&mut self)
        ensures goes { Goes L.view self.old [] [] self.new }
        ensures unread { unread self.new ≡ unread self.old }
        ensures few { self.new.taken < most_unread }
        ensures kept { self.new ≡ record self.old { replies = self.new.replies; taken = self.new.taken } }
    {
        if MOST_UNREAD <= self.taken {
            self.replies.drain(..self.taken.min(self.replies.len()));
            self.taken = 0;
        }
    }

    // Reads a piece of its text, if the connection may have one.
    fn read_more(&mut self, now: u64) -> Result<Step, ClientFault>
        ensures goes { OnOk result (Goes L.view self.old [] [] self.new) }
        ensures status { status_of self.new ≡ status_of self.old }
        ensures read { IfOk result (λ step. IsReadAs L.view self.old now step self.new) }
        ensures listens { is_listener self.new ≡ true → is_listener self.old ≡ true }
        ensures heard { IfOk result (λ step. IsHeard self.old now step self.new) }
        ensures marked { IsMarked L.view self.old → IsMarked L.view self.new }
        ensures kept { self.new ≡ as_read self.old self.new }
    {
        if !self.readable {
            return Ok(Step::Rests);
        }
        if self.read(now)? {
            Ok(Step::Goes)
        } else {
            Ok(Step::Lost)
        }
    }

    // When it was heard once a piece of its text has arrived: now if the piece is of a send.
    fn heard_by_read(&self, now: u64) -> u64
        ensures { result ≡ cond (is_in_send self.now.reader) now self.now.last_active }
    {
        if self.reader.is_in_send() {
            now
        } else {
            self.last_active
        }
    }

    // Reads a piece of its text. Returns false if the connection is lost.
    fn read(&mut self, now: u64) -> Result<bool, AllocError>
        requires { self.old.readable ≡ true }
        ensures goes { OnOk result (Goes L.view self.old [] [] self.new) }
        ensures there { IfOk result (λ there. there ≡ true → HasRead L.view self.old now self.new) }
        ensures lost { IfOk result (λ there. there ≡ false → IsCut L.view self.new) }
        ensures listens { is_listener self.new ≡ true → is_listener self.old ≡ true }
        ensures heard { IfOk result (λ there. IsHeard self.old now (cond there Step.Goes Step.Lost) self.new) }
        ensures marked { IsMarked L.view self.old → IsMarked L.view self.new }
        ensures kept { self.new ≡ as_read self.old self.new }
    {
        let mut piece = [0u8; PIECE];
        match read_of(&mut self.connection, &mut piece) {
            Ok(0) => {
                self.readable = false;
                self.over = true;
                Ok(true)
            }
            Ok(count) => {
                self.last_active = self.heard_by_read(now);
                self.reader.take(&piece[..count])?;
                Ok(true)
            }
            Err(error) if error.kind() == ErrorKind::WouldBlock => {
                self.readable = false;
                Ok(true)
            }
            Err(_) => Ok(false),
        }
    }
}
