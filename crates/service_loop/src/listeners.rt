//! The clients that listen, among all clients.
ghost use Rattle.std.specs.Prelude.{◌≡◌, ◌<◌, ◌≤◌, ◌&&◌, ◌||◌, ◌-◌, ℕ, Option, None, Some};
ghost use Rattle.slab.specs.Slab.{get};
ghost use Rattle.client_standing.specs.ClientStanding.{is_operator};
ghost use Rattle.service_rules.specs.Bounds.{most_clients};
ghost use Rattle.service_loop.specs.ClientListening.{is_listened, is_listened_by, is_same_caller, is_same_user, listeners_below, listeners_like, listening_of, one_if, own_listeners, wants_own};

use crate::client::Client;
use crate::connection::Connection;
use client_standing::{Caller, Standing};
use service_rules::bounds::MOST_CLIENTS;
use service_rules::{Listening, user_share};
use slab::Slab;

/// Returns a number above all keys of clients, at most [`MOST_CLIENTS`].
pub fn end_of_keys<L: Connection>(slots: &Slab<Client<L>>) -> usize
    ensures bound { result ≤ MOST_CLIENTS }
    ensures none { (key : ℕ) → result ≤ key → key < MOST_CLIENTS → get slots.now key ≡ None }
{
    slots.capacity().min(MOST_CLIENTS)
}

/// Returns how many clients listen.
pub fn count_listeners<L: Connection>(slots: &Slab<Client<L>>) -> usize
    ensures { result ≡ listeners_below slots.now most_clients }
{
    let mut count = 0usize;
    let end = end_of_keys(slots);
    for key in 0..end {
        if is_listened(slots, key) {
            count += 1;
        }
    }
    count
}

// Returns whether the slot has a client that listens.
fn is_listened<L: Connection>(slots: &Slab<Client<L>>, key: usize) -> bool
    ensures { result ≡ is_listened (get slots.now key) }
{
    match slots.get(key) {
        Some(client) => client.is_listener(),
        None => false,
    }
}

/// Returns what a client counts for.
pub fn one_if(is_listener: bool) -> usize
    ensures { result ≡ one_if is_listener }
{
    usize::from(is_listener)
}

/// Returns the places of the others that listen, for this client.
pub fn listening_of<L: Connection>(
    slots: &Slab<Client<L>>,
    client: &Client<L>,
    places: usize,
    others: usize,
) -> Listening
    ensures { result ≡ listening_of slots.now client.now places others }
{
    let own = if wants_own(client, places, others) {
        Some(own_listeners(slots, client))
    } else {
        None
    };
    Listening {
        places,
        others,
        own,
    }
}

// Whether the clients of its user are counted: it may have a request, it is no operator, and so many listen that its share may be full.
fn wants_own<L: Connection>(client: &Client<L>, places: usize, others: usize) -> bool
    ensures { result ≡ wants_own client.now places others }
{
    client.is_readable() && user_share(places) <= others && !client.standing().is_operator()
}

// Returns how many other clients of its user listen.
fn own_listeners<L: Connection>(slots: &Slab<Client<L>>, client: &Client<L>) -> usize
    ensures { result ≡ own_listeners slots.now client.now }
{
    let mut count = 0usize;
    for key in 0..MOST_CLIENTS {
        if is_listened_by(slots, client, key) {
            count += 1;
        }
    }
    count.saturating_sub(one_if(client.is_listener()))
}

// Returns whether the slot has a client that listens and counts for the same user.
fn is_listened_by<L: Connection>(slots: &Slab<Client<L>>, client: &Client<L>, key: usize) -> bool
    ensures { result ≡ is_listened_by client.now.standing (get slots.now key) }
{
    match slots.get(key) {
        Some(other) => { other.is_listener() && is_same_user(client.standing(), other.standing()) }
        None => false,
    }
}

// Whether two clients count for the same user.
fn is_same_user(one: &Standing, other: &Standing) -> bool
    ensures { result ≡ is_same_user one.now other.now }
{
    !one.is_operator() && !other.is_operator() && is_same_caller(one.caller(), other.caller())
}

fn is_same_caller(one: &Caller, other: &Caller) -> bool
    ensures { result ≡ is_same_caller one.now other.now }
{
    match one {
        Caller::Unproved => matches!(other, Caller::Unproved),
        Caller::User(name) => other.is_user(name),
        Caller::Operator(_) => false,
    }
}
