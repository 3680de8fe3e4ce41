//! The limits of a client's turn.
ghost use Rattle.std.specs.Prelude.{◌≡◌};
ghost use Rattle.service_rules.specs.ClientBounds.{is_served_on};

use crate::bounds::{MOST_COMMANDS, MOST_UNREAD};

/// Whether a further request of a client is served in its turn, after `served` requests and with `unread` bytes of its replies unread.
pub fn is_served_on(served: usize, unread: usize) -> bool
    ensures { result ≡ is_served_on served unread }
{
    served < MOST_COMMANDS && unread < MOST_UNREAD
}
