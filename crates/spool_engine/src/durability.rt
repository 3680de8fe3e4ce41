//! When the event of a command becomes durable.

/// When the event of a command becomes durable.
#[derive(Clone, Copy)]
pub(crate) enum Durability {
    /// Before the command is answered, with two syncs.
    Durable,
    /// When the staged events are settled, together with them.
    Staged,
}
