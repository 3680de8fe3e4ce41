//! The places of clients.
ghost use Rattle.std.specs.Prelude.{◌≡◌};
ghost use Rattle.ipp_access.specs.IppAccess.{is_of, place_of, prefix};

/// The place of a client: the socket that accepted it.
#[derive(Clone, Copy)]
pub enum Place {
    /// TCP.
    Network,
    /// The socket that all users of the machine may open.
    Socket,
    /// The socket that operators may open.
    Operators,
}

/// Returns the beginning of the tokens of jobs that came by a place.
pub fn prefix(place: Place) -> &'static str
    ensures { result.now ≡ prefix place }
{
    match place {
        Place::Network => "ipp-network-",
        Place::Socket => "ipp-socket-",
        Place::Operators => "ipp-operators-",
    }
}

/// Returns the place of the client that made the job with this token, if the token is one of the front.
pub fn place_of(token: &str) -> Option<Place>
    ensures { result ≡ place_of token.now }
{
    if is_of(Place::Network, token) {
        Some(Place::Network)
    } else if is_of(Place::Socket, token) {
        Some(Place::Socket)
    } else if is_of(Place::Operators, token) {
        Some(Place::Operators)
    } else {
        None
    }
}

fn is_of(place: Place, token: &str) -> bool
    ensures { result ≡ is_of place token.now }
{
    token.as_bytes().starts_with(prefix(place).as_bytes())
}
