//! The user of a job as the service shows it.
ghost use Rattle.std.specs.Prelude.{◌≡◌};
ghost use Rattle.std.specs.List.{list_all};
ghost use Rattle.spool_types.specs.Values.{is_plain};
ghost use Rattle.front_texts.specs.ShownUsers.{is_shown_user, owner_word};

use spool_types::{Text, TextKind};

/// The kind of a user as the service shows it: up to 255 bytes, no control characters.
pub struct ShownUserKind;

/// The user of a job, or the empty text if the service does not show whose the job is.
pub type ShownUser = Text<ShownUserKind>;

impl TextKind for ShownUserKind {
    ghost allowed = { is_shown_user };

    fn allows(text: &str) -> bool {
        text.len() <= 255 && has_only_plain_bytes(text)
    }
}

fn has_only_plain_bytes(text: &str) -> bool
    ensures { result ≡ list_all is_plain text.now }
{
    text.as_bytes().iter().all(|b| is_plain(*b))
}

fn is_plain(b: u8) -> bool
    ensures { result ≡ is_plain b }
{
    32 <= b && b != 127
}

/// Returns the user for a column. A hidden one is a word too.
pub(crate) fn owner_word(user: &str) -> &str
    ensures { result.now ≡ owner_word user.now }
{
    if user.is_empty() { "unknown" } else { user }
}
