//! The users whose names are known.
ghost use Rattle.std.specs.Prelude.{◌≡◌, ◌≤◌, IfOk, OnErr, OnOk, [], length};
ghost use Rattle.std.specs.Option.{option_map};
ghost use Rattle.user_proofs.specs.KnownUsers.{is_known, known_at, lifetime, noted};

use spool_types::UserName;
use std::alloc::{AllocError, Global};

// How many users are kept.
const MOST_USERS: usize = 1_024;

// How long an answer of the system is valid, in milliseconds, and an answer without a name.
const LIFETIME: u64 = 600_000;

const LIFETIME_OF_NONE: u64 = 10_000;

/// A user, as the system knows it.
#[derive(Drop)]
pub struct Identity {
    pub name: UserName,
    /// Whether the user is an operator.
    pub is_operator: bool,
}

impl Identity {
    /// Copies the identity.
    pub fn try_clone(&self) -> Result<Identity, AllocError>
        ensures value { IfOk result (λ copy. copy ≡ self.now) }
    {
        Ok(Identity {
            name: self.name.clone()?,
            is_operator: self.is_operator,
        })
    }
}

/// The answer of the system to the question who a user is.
#[derive(Drop)]
pub struct KnownUser {
    pub uid: u32,
    /// When the system answered, in milliseconds.
    pub since: u64,
    /// Who it is, or none if the system knows no name.
    pub identity: Option<Identity>,
}

/// The answers of the system, the oldest first.
#[derive(Drop)]
pub struct KnownUsers {
    users: Vec<KnownUser>,
}

impl std::marker::Model for KnownUsers {
    ghost use Rattle.std.specs.Prelude.{List};
    ghost use Rattle.user_proofs.specs.declared.known.KnownUser.{KnownUser};

    ghost Value = { List KnownUser };

    ghost view = { λ known. known.users.items };
}

impl KnownUsers {
    /// Returns a list without answers. Allocates nothing.
    pub fn new(alloc: Global) -> KnownUsers
        ensures value { result ≡ [] }
    {
        KnownUsers {
            users: Vec::new(alloc),
        }
    }

    /// Returns the first answer for this user that is valid at the moment `now`, in milliseconds.
    pub fn find(&self, uid: u32, now: u64) -> Option<&KnownUser>
        ensures value { option_map (λ user. user.now) result ≡ known_at uid now self.now }
    {
        self.users.iter().find(|user| is_known(user, uid, now))
    }

    /// Adds an answer. The oldest of 1,024 is dropped.
    pub fn note(&mut self, user: KnownUser) -> Result<(), AllocError>
        ensures value { OnOk result (self.new ≡ noted user self.old) }
        ensures kept { OnErr result (self.new ≡ self.old) }
    {
        self.users.reserve(1)?;
        if MOST_USERS <= self.users.len() {
            self.users.remove(0);
        }
        self.users.push_reserved(user);
        Ok(())
    }
}

fn is_known(user: &KnownUser, uid: u32, now: u64) -> bool
    ensures { result ≡ is_known uid now user.now }
{
    user.uid == uid && now.saturating_sub(user.since) < lifetime(&user.identity)
}

// Returns how long an answer with this result is valid.
fn lifetime(identity: &Option<Identity>) -> u64
    ensures { result ≡ lifetime identity.now }
{
    match identity {
        Some(_) => LIFETIME,
        None => LIFETIME_OF_NONE,
    }
}
