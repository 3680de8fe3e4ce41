//! The requests of a client.

use command_lines::Command;
use service_texts::OwnWord;

/// A request of a client.
#[derive(Drop)]
pub enum Ask {
    /// A command of the engine.
    Command(Command),
    /// A word of the service itself.
    Own(OwnWord),
}

/// The result of a step of a reader.
#[derive(Drop)]
pub enum Next {
    Asked(Ask),
    /// Nothing yet, but there may be more.
    Again,
    /// More of the text is needed.
    Text,
}
