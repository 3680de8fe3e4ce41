//! Admission: whether a new client is connected, and which client it replaces.
ghost use Rattle.std.specs.Prelude.{◌≡◌, ◌≢◌, ◌↔◌, ℕ, List, true, false, MatchOption, IfSome};
ghost use Rattle.std.specs.List.{Contains};
ghost use Rattle.std.specs.Option.{IsNone};
ghost use Rattle.service_rules.specs.ClientAdmission.{is_idle, goes_before, HasNoneIdle, IsAdmission, IsFirstToGo};
ghost use Rattle.service_rules.specs.declared.slots.Client.{Client as AnyClient};
ghost use Rattle.service_rules.specs.declared.slots.Admission.{Admission as AnyAdmission};

use crate::bounds::LEAST_IDLE;

/// A connected client: its key, and the moment when it was last heard, in milliseconds.
#[derive(Clone, Copy)]
pub struct Client {
    pub key: usize,
    pub heard: u64,
    /// Whether it waits for something to be sent, and has taken all that was sent. Such a client has nothing to say.
    pub listens: bool,
}

/// The decision on a new client.
#[derive(Clone, Copy)]
pub enum Admission {
    /// A place is free.
    Free,
    /// It replaces the client with this key, which is disconnected.
    InsteadOf(usize),
    /// No place is available: it is sent `error busy` and disconnected.
    Busy,
}

/// Decides on a new client of a service with this number of places, at the moment `now`, in milliseconds.
pub fn admit(clients: &[Client], places: usize, now: u64) -> Admission
    ensures { IsAdmission places clients.now now result }
{
    if clients.len() < places {
        return Admission::Free;
    }
    match first_to_go(clients, now) {
        Some(client) => Admission::InsteadOf(client.key),
        None => Admission::Busy,
    }
}

/// The client that has been idle longest, if that is at least 10 s. A client that listens is not idle. Of two clients heard at the same
/// moment, the one with the lower key.
pub fn first_to_go(clients: &[Client], now: u64) -> Option<Client>
    ensures found { IfSome result (IsFirstToGo clients.now now) }
    ensures none { IsNone result ↔ HasNoneIdle clients.now now }
{
    let mut first = None;
    for client in clients {
        if is_idle(client, now) && goes_before_first(client, first) {
            first = Some(*client);
        }
    }
    first
}

/// A client that is not idle keeps its place.
pub fn clients_that_are_not_idle_stay()
    ensures { (places : ℕ) (clients : List AnyClient) (now : ℕ) (decision : AnyAdmission) → IsAdmission places clients now decision →
        (c : AnyClient) → is_idle now c ≡ false → ((d : AnyClient) → Contains clients d → d.key ≡ c.key → d ≡ c) → decision ≢ AnyAdmission.InsteadOf c.key }
{}

fn is_idle(client: &Client, now: u64) -> bool
    ensures { result ≡ is_idle now client.now }
{
    !client.listens && LEAST_IDLE <= now.saturating_sub(client.heard)
}

fn goes_before(client: &Client, other: &Client) -> bool
    ensures { result ≡ goes_before client.now other.now }
{
    if client.heard == other.heard {
        client.key < other.key
    } else {
        client.heard < other.heard
    }
}

// Whether a client precedes the first one so far, if any.
fn goes_before_first(client: &Client, first: Option<Client>) -> bool
    ensures { MatchOption first (result ≡ true) (λ other. result ≡ goes_before client.now other) }
{
    match first {
        Some(other) => goes_before(client, &other),
        None => true,
    }
}
