//! The clients, each in its own slot.
ghost use Rattle.std.specs.Option.{option_map};
ghost use Rattle.std.specs.Prelude.{◌≡◌, ◌+◌, ◌<◌, ◌≤◌, ◌||◌, ℕ, cond, min, true, false, None, IfOk, IfSome, OnOk};
ghost use Rattle.service_rules.specs.Bounds.{most_clients};
ghost use Rattle.service_rules.specs.ClientAdmission.{IsAdmission};
ghost use Rattle.service_rules.specs.Listeners.{most_listeners};
ghost use Rattle.service_loop.specs.ClientListening.{listeners_below};
ghost use Rattle.slab.specs.Slab.{get, slab_len};
ghost use Rattle.service_loop.specs.ServiceCalls.{GoesWithin};
ghost use Rattle.service_loop.specs.AdmissionViews.{heard_of, is_watched};
ghost use Rattle.service_loop.specs.ClientSlots.{HadOwnTurns, HasNoneNow, HasTurn, HaveServed, HaveTurns, IsEntered, IsLetIn, IsSlotSignaled, IsSlotNotified, KeepsOthers, goes_on, leaves_more};
ghost use Rattle.service_loop.specs.Progress.{IsGiven, news_for};
ghost use Rattle.service_loop.specs.ClientSteps.{is_starved};
ghost use Rattle.service_loop.specs.SlotHistories.{HasAdmitted};

use crate::client::{Client, Disconnect, Sending, Turn};
use crate::connection::Connection;
use crate::listener::Listener;
use crate::listeners::{count_listeners, end_of_keys, listening_of, one_if};
use crate::shared::Shared;
use child_pipeline::Children;
use job_table::Table;
use service_rules::bounds::MOST_CLIENTS;
use service_rules::{Admission, Client as Heard, admit};
use service_texts::Notes;
use slab::Slab;
use spool_disk::Disk;
use std::alloc::{AllocError, Global};

// Sent to a client without a slot.
const BUSY: &[u8] = b"error busy\n";

/// The result of the turns of all clients.
#[derive(Clone, Copy)]
pub struct Turns {
    pub served: bool,
    pub more: bool,
    pub shutdown: bool,
    /// How many clients were disconnected because memory ran out.
    pub starved: usize,
}

impl Turns {
    // Adds the result of one turn.
    fn add(&mut self, turn: Turn)
        requires { self.old.starved < MOST_CLIENTS }
        ensures { self.new ≡ record {
          served = self.old.served || turn.served;
          more = self.old.more || turn.more;
          shutdown = self.old.shutdown || turn.shutdown;
          starved = cond (is_starved turn.disconnect) (self.old.starved + 1) self.old.starved;
        } }
    {
        self.served = self.served || turn.served;
        self.more = self.more || turn.more;
        self.shutdown = self.shutdown || turn.shutdown;
        if turn.disconnect == Some(Disconnect::Memory) {
            self.starved += 1;
        }
    }
}

#[derive(Drop)]
pub struct Clients<L: Connection> {
    alloc: Global,
    slots: Slab<Client<L>>,
    // The number of places, and how many clients listen. They are counted once a turn, and the count is then kept.
    places: usize,
    listeners: usize,
    // When each client was heard last, listed when a new client needs a place.
    heard: Vec<Heard>,
}

impl<L: Connection> Clients<L> {
    /// No clients, and this number of places, at most [`MOST_CLIENTS`].
    pub fn new(alloc: Global, places: usize) -> Result<Clients<L>, AllocError>
        ensures none { IfOk result (λ clients. (key : ℕ) → get clients.slots key ≡ None) }
        ensures places { IfOk result (λ clients. clients.places ≡ min places most_clients) }
    {
        let places = places.min(MOST_CLIENTS);
        Ok(Clients {
            alloc,
            slots: Slab::with_capacity(alloc, places)?,
            places,
            listeners: 0,
            heard: Vec::with_capacity(alloc, places)?,
        })
    }

    pub fn len(&self) -> usize
        ensures { result ≡ slab_len self.now.slots }
    {
        self.slots.len()
    }

    /// Notes readiness of the client in this slot.
    pub fn signal(&mut self, key: usize, writable: bool, gone: bool)
        ensures own { IsSlotSignaled L.view writable gone (get self.old.slots key) (get self.new.slots key) }
        ensures others { KeepsOthers key self.old.slots self.new.slots }
    {
        if let Some(client) = self.slots.get_mut(key) {
            client.signal(writable, gone);
        }
    }

    /// Admits a client, or sends it `error busy`. If no place is free, it replaces the client that has been idle longest, if that was long
    /// enough; a client that listens is not idle. Returns the decision.
    pub fn admit<R: Listener<Stream = L>>(
        &mut self,
        listener: &mut R,
        connection: L,
        now: u64,
    ) -> Result<Admission, AllocError>
        ensures admission { IfOk result (IsAdmission self.old.places (heard_of self.old.slots) now) }
        ensures lets_in { IfOk result (λ admission. IsLetIn L.view connection admission self.old.slots self.new.slots) }
        // Also if memory runs out, only an idle client has left, and only for a new one.
        ensures admitted { HasAdmitted L.view self.old.places connection now self.old.slots self.new.slots }
        ensures places { self.new.places ≡ self.old.places }
    {
        list_heard(&self.slots, &mut self.heard)?;
        let admission = admit(&self.heard, self.places, now);
        match admission {
            Admission::Free => {}
            Admission::InsteadOf(key) => {
                self.slots.try_remove(key);
            }
            Admission::Busy => {
                send_busy(connection);
                return Ok(admission);
            }
        }
        self.enter(listener, connection, now)?;
        Ok(admission)
    }

    // Puts a new client into a slot, unless its connection cannot report its readiness.
    fn enter<R: Listener<Stream = L>>(
        &mut self,
        listener: &mut R,
        connection: L,
        now: u64,
    ) -> Result<(), AllocError>
        ensures entered { IsEntered L.view connection self.old.slots self.new.slots }
        ensures kept { self.new ≡ record self.old { slots = self.new.slots } }
    {
        let mut connection = connection;
        self.slots.reserve(1)?;
        let key = self.slots.vacant_key();
        if listener.watch(&mut connection, key) {
            self.slots
                .insert_reserved(Client::new(self.alloc, connection, now));
        }
        Ok(())
    }

    /// Whether a client watches.
    pub fn watch(&self) -> bool
        ensures some { result ≡ true → (key : ℕ) × (key < MOST_CLIENTS) × (is_watched (get self.now.slots key) ≡ true) }
        ensures none { result ≡ false → (key : ℕ) → key < MOST_CLIENTS → is_watched (get self.now.slots key) ≡ false }
    {
        let end = end_of_keys(&self.slots);
        for key in 0..end {
            if self.is_watched(key) {
                return true;
            }
        }
        false
    }

    // Whether the slot has a client that watches.
    fn is_watched(&self, key: usize) -> bool
        ensures { result ≡ is_watched (get self.now.slots key) }
    {
        match self.slots.get(key) {
            Some(client) => client.watches(),
            None => false,
        }
    }

    /// Sends the watching clients what changed. The last change has the number `last`. Returns how many were disconnected because memory ran out.
    pub fn notify(&mut self, notes: &Notes, table: &Table, last: u64) -> usize
        ensures told { (key : ℕ) → key < MOST_CLIENTS → IsSlotNotified (news_for table.now.state notes.now last) (get self.old.slots key) (get self.new.slots key) }
        ensures others { (key : ℕ) → MOST_CLIENTS ≤ key → get self.new.slots key ≡ get self.old.slots key }
    {
        let mut starved = 0;
        for key in 0..MOST_CLIENTS {
            if !self.notify_at(key, notes, table, last) {
                starved += 1;
            }
        }
        starved
    }

    // Sends changes to the client in this slot, and disconnects it if memory runs out. Returns whether memory sufficed.
    fn notify_at(&mut self, key: usize, notes: &Notes, table: &Table, last: u64) -> bool
        ensures own { IsSlotNotified (news_for table.now.state notes.now last) (get self.old.slots key) (get self.new.slots key) }
        ensures others { KeepsOthers key self.old.slots self.new.slots }
    {
        let Some(client) = self.slots.get_mut(key) else {
            return true;
        };
        if client.notify(notes, table, last) {
            return true;
        }
        self.slots.try_remove(key);
        false
    }

    /// Gives each client a turn: serves requests of all clients, makes their events durable together, and then writes the replies. If the
    /// device fails, no reply is written, and all clients are disconnected.
    pub fn serve<D: Disk, C: Children>(&mut self, shared: &mut Shared<D, C>, now: u64) -> Turns
        // The slots had their turns in order, each on the engine that the previous one left: first for requests, and then for replies.
        ensures turns { HaveServed D.device L.view shared.old.engine self.old.slots shared.new.engine self.new.slots }
        ensures calls { GoesWithin D.device shared.old.most shared.old.engine shared.new.most shared.new.engine }
        // Each client had its own turns, and nothing else changed it.
        ensures own { (key : ℕ) → key < MOST_CLIENTS → HadOwnTurns D.device L.view (get self.old.slots key) (get self.new.slots key) }
        ensures others { (key : ℕ) → MOST_CLIENTS ≤ key → get self.new.slots key ≡ get self.old.slots key }

        // Clients that listen leave a quarter of the places to others.
        ensures listeners { listeners_below self.old.slots most_clients ≤ most_listeners self.old.places → listeners_below self.new.slots most_clients ≤ most_listeners self.old.places }
        ensures places { self.new.places ≡ self.old.places }

        // Each remaining client was sent what its connection takes. Unless there is more, nothing can be done for it now.
        ensures given { (key : ℕ) → key < MOST_CLIENTS → IfSome (get self.new.slots key) IsGiven }
        ensures rests { result.more ≡ false → (key : ℕ) → key < MOST_CLIENTS → IfSome (get self.new.slots key) HasNoneNow }
    {
        let mut turns = Turns {
            served: false,
            more: false,
            shutdown: false,
            starved: 0,
        };
        self.serve_requests(shared, now, &mut turns);
        let more = self.send_replies(shared, now);
        turns.more = either(turns.more, more);
        turns
    }

    // Serves requests of each client.
    fn serve_requests<D: Disk, C: Children>(
        &mut self,
        shared: &mut Shared<D, C>,
        now: u64,
        turns: &mut Turns,
    )
        requires { turns.old ≡ record { served = false; more = false; shutdown = false; starved = 0 } }
        ensures turns { HaveTurns D.device L.view shared.old.engine self.old.slots MOST_CLIENTS shared.new.engine self.new.slots }
        ensures calls { GoesWithin D.device shared.old.most shared.old.engine shared.new.most shared.new.engine }
        ensures counted { self.new.listeners ≡ listeners_below self.new.slots most_clients }
        ensures few { listeners_below self.old.slots most_clients ≤ most_listeners self.old.places → self.new.listeners ≤ most_listeners self.old.places }
        ensures places { self.new.places ≡ self.old.places }
        ensures rests { turns.new.more ≡ false → (key : ℕ) → key < MOST_CLIENTS → IfSome (get self.new.slots key) HasNoneNow }
    {
        self.listeners = count_listeners(&self.slots);
        let end = end_of_keys(&self.slots);
        for key in 0..end {
            if let Some(turn) = self.serve_at(shared, key, now) {
                turns.add(turn);
            }
        }
    }

    // Makes all staged events durable, and writes the replies of each client. Returns whether there is more to do at once.
    fn send_replies<D: Disk, C: Children>(&mut self, shared: &mut Shared<D, C>, now: u64) -> bool
        requires counted { self.old.listeners ≡ listeners_below self.old.slots most_clients }
        ensures turns { HaveTurns D.device L.view shared.old.engine self.old.slots MOST_CLIENTS shared.new.engine self.new.slots }
        ensures calls { GoesWithin D.device shared.old.most shared.old.engine shared.new.most shared.new.engine }
        ensures counted { self.new.listeners ≡ listeners_below self.new.slots most_clients }
        ensures few { self.new.listeners ≤ self.old.listeners }
        ensures places { self.new.places ≡ self.old.places }
        ensures given { (key : ℕ) → key < MOST_CLIENTS → IfSome (get self.new.slots key) IsGiven }
        ensures rests { result ≡ false → ((key : ℕ) → key < MOST_CLIENTS → IfSome (get self.old.slots key) HasNoneNow) → (key : ℕ) → key < MOST_CLIENTS → IfSome (get self.new.slots key) HasNoneNow }
    {
        let mut more = false;
        let end = end_of_keys(&self.slots);
        for key in 0..end {
            if let Some(sending) = self.send_at(shared, key, now) {
                more = either(more, sending.more);
            }
        }
        more
    }

    // Writes the replies of the client in this slot, and frees the slot if the client is disconnected.
    fn send_at<D: Disk, C: Children>(
        &mut self,
        shared: &mut Shared<D, C>,
        key: usize,
        now: u64,
    ) -> Option<Sending>
        requires key { key < MOST_CLIENTS }
        requires counted { self.old.listeners ≡ listeners_below self.old.slots most_clients }
        ensures turn { HasTurn D.device L.view shared.old.engine self.old.slots key (option_map (λ sending. sending.disconnect) result) shared.new.engine self.new.slots }
        ensures calls { GoesWithin D.device shared.old.most shared.old.engine shared.new.most shared.new.engine }
        ensures counted { self.new.listeners ≡ listeners_below self.new.slots most_clients }
        ensures few { self.new.listeners ≤ self.old.listeners }
        ensures places { self.new.places ≡ self.old.places }
        ensures given { IfSome (get self.new.slots key) IsGiven }
        ensures rests { goes_on result ≡ false → IfSome (get self.old.slots key) HasNoneNow → IfSome (get self.new.slots key) HasNoneNow }
    {
        let client = self.slots.get_mut(key)?;
        let listens = one_if(client.is_listener());
        let sending = client.send(shared, now);
        if sending.disconnect.is_some() {
            // A job that is not noted, since memory ran out, is not canceled before the service is started again.
            let _ = shared
                .known
                .leave(shared.engine.table(), client.made_jobs());
            self.slots.try_remove(key);
            self.listeners -= listens;
        }
        Some(sending)
    }

    // Serves requests of the client in this slot, and frees the slot if the client is disconnected.
    fn serve_at<D: Disk, C: Children>(
        &mut self,
        shared: &mut Shared<D, C>,
        key: usize,
        now: u64,
    ) -> Option<Turn>
        requires key { key < MOST_CLIENTS }
        requires counted { self.old.listeners ≡ listeners_below self.old.slots most_clients }
        ensures turn { HasTurn D.device L.view shared.old.engine self.old.slots key (option_map (λ turn. turn.disconnect) result) shared.new.engine self.new.slots }
        ensures rests { leaves_more result ≡ false → IfSome (get self.new.slots key) HasNoneNow }
        ensures calls { GoesWithin D.device shared.old.most shared.old.engine shared.new.most shared.new.engine }
        ensures counted { self.new.listeners ≡ listeners_below self.new.slots most_clients }
        ensures few { self.old.listeners ≤ most_listeners self.old.places → self.new.listeners ≤ most_listeners self.old.places }
        ensures places { self.new.places ≡ self.old.places }
    {
        let client = self.slots.get(key)?;
        let others = self.listeners - one_if(client.is_listener());
        let listening = listening_of(&self.slots, client, self.places, others);
        let client = self.slots.get_mut(key)?;
        shared.known.now = now;
        let turn = client.serve(shared, listening, now);
        self.listeners = others;
        if turn.disconnect.is_some() {
            // A job that is not noted, since memory ran out, is not canceled before the service is started again.
            let _ = shared
                .known
                .leave(shared.engine.table(), client.made_jobs());
            self.slots.try_remove(key);
        } else if client.is_listener() {
            self.listeners += 1;
        }
        Some(turn)
    }
}

// Whether one of two holds.
fn either(one: bool, other: bool) -> bool
    ensures { result ≡ (one || other) }
{
    one || other
}

// Sends `error busy` to a client without a slot.
fn send_busy<L: Connection>(connection: L) {
    let mut connection = connection;
    let _ = connection.write(BUSY);
}

// Lists when each client was heard last.
fn list_heard<L: Connection>(
    slots: &Slab<Client<L>>,
    list: &mut Vec<Heard>,
) -> Result<(), AllocError>
    ensures { OnOk result (list.new.items ≡ heard_of slots.now) }
{
    list.clear();
    for (key, client) in slots.iter() {
        let heard = client.last_active();
        let listens = client.listens();
        list.push(Heard {
            key,
            heard,
            listens,
        })?;
    }
    Ok(())
}
