//! Listening: whether one more client may wait for a job's end, or watch.
ghost use Rattle.std.specs.Prelude.{◌≡◌, ◌<◌, ◌≤◌, ℕ, List, [], length};
ghost use Rattle.service_rules.specs.Listeners.{Wish, count_of, has_share_left, listeners_after, may_listen, most_listeners, user_share};

/// The places of a service, and which of them other clients have that listen.
#[derive(Clone, Copy)]
pub struct Listening {
    /// The number of places.
    pub places: usize,
    /// How many other clients listen.
    pub others: usize,
    /// How many of these are of the client's user. None for an operator, whose share is not limited.
    pub own: Option<usize>,
}

/// The most clients that listen at once: three quarters of the places.
pub fn most_listeners(places: usize) -> usize
    ensures { result ≡ most_listeners places }
{
    places - places.div_ceil(4)
}

/// The most clients of one user that listen at once: half of all that may, rounded up.
pub fn user_share(places: usize) -> usize
    ensures { result ≡ user_share places }
{
    most_listeners(places).div_ceil(2)
}

/// Whether one more client may listen.
pub fn may_listen(listening: &Listening) -> bool
    ensures { result ≡ may_listen listening.now }
{
    listening.others < most_listeners(listening.places)
        && has_share_left(listening.places, listening.own)
}

fn has_share_left(places: usize, own: Option<usize>) -> bool
    ensures { result ≡ has_share_left places own }
{
    match own {
        Some(own) => own < user_share(places),
        None => true,
    }
}

/// Clients that listen never fill all places, and those of one user never have more than its share, in whatever order clients begin and end.
pub fn listeners_leave_places()
    ensures places { (places : ℕ) → 0 < places → (wishes : List Wish) → length (listeners_after places [] wishes) < places }
    ensures most { (places : ℕ) (wishes : List Wish) → length (listeners_after places [] wishes) ≤ most_listeners places }
    ensures share { (places user : ℕ) (wishes : List Wish) → count_of user (listeners_after places [] wishes) ≤ user_share places }
{}
