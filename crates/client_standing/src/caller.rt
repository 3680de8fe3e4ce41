//! Who a client is.
ghost use Rattle.std.specs.Prelude.{◌≡◌};
ghost use Rattle.client_standing.specs.ClientStanding.{caller_of, first_caller, is_operator_by, is_user};

use crate::rules::Trust;
use spool_types::UserName;

/// The result of a proof.
#[derive(Drop)]
pub struct Proved {
    pub name: UserName,
    /// Whether the user is an operator, or the client came by the operators' socket.
    pub is_operator: bool,
}

/// Who a client is.
#[derive(Drop)]
pub enum Caller {
    /// It has proved nothing.
    Unproved,
    /// It has proved to be this user.
    User(UserName),
    /// It has proved to be this user, who is an operator, or it came by the operators' socket.
    Operator(Option<UserName>),
}

impl Caller {
    /// A client that has proved nothing yet, by whether it came by the operators' socket.
    pub fn first(is_operators: bool) -> Caller
        ensures { result ≡ first_caller is_operators }
    {
        if is_operators {
            Caller::Operator(None)
        } else {
            Caller::Unproved
        }
    }

    /// The client that has proved this.
    pub fn of(proved: Proved) -> Caller
        ensures { result ≡ caller_of proved }
    {
        if proved.is_operator {
            Caller::Operator(Some(proved.name))
        } else {
            Caller::User(proved.name)
        }
    }

    /// Whether it may do everything.
    pub fn is_operator(&self, trust: Trust) -> bool
        ensures { result ≡ is_operator_by trust self.now }
    {
        match self {
            Caller::Unproved => trust == Trust::All,
            Caller::User(_) => false,
            Caller::Operator(_) => true,
        }
    }

    /// Whether it has proved to be this user and is no operator.
    pub fn is_user(&self, user: &UserName) -> bool
        ensures { result ≡ is_user self.now user.now }
    {
        match self {
            Caller::Unproved => false,
            Caller::User(name) => *name == *user,
            Caller::Operator(_) => false,
        }
    }
}
