//! The rules for the clients of a socket.

/// The rights of a client that has proved nothing.
#[derive(Clone, Copy, Debug, PartialEq, Eq)]
pub enum Trust {
    /// Everything, as an operator.
    All,
    /// Only what anybody may.
    None,
}

/// The rules for the clients of a socket.
#[derive(Clone, Copy, Debug, PartialEq, Eq)]
pub struct RoleRules {
    pub trust: Trust,
    /// Whether titles, users and options of all jobs are shown to each client.
    pub show_all: bool,
}
