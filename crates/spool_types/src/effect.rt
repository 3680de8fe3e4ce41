//! How a child ended, and the effects of its standard error.
use crate::items::Words;
use crate::kinds::{AttributeName, Message};

/// How a child ended.
#[derive(Clone, Copy, PartialEq, Eq)]
pub enum Exit {
    /// With this exit status (backend(7) names 0 to 7).
    Code(u8),
    /// By a signal.
    Signal,
    /// It was never started.
    NoStart,
    /// Its end or its output is unknown.
    Lost,
}

/// The severity of a message (filter(7)).
#[derive(Clone, Copy, PartialEq, Eq)]
pub enum Level {
    Emergency,
    Alert,
    Critical,
    Error,
    Warning,
    Notice,
    Info,
}

/// An attribute of a queue.
#[derive(Drop)]
pub struct Attribute {
    pub name: AttributeName,
    pub value: Message,
}

/// The effect of a line of a child's standard error (filter(7)).
#[derive(Drop)]
pub enum Effect {
    /// `PAGE: page copies` adds the copies to the job's pages.
    Pages { page: u32, copies: u32 },
    /// `PAGE: total pages` sets the job's pages.
    TotalPages(u32),
    /// `STATE: word,..` sets the queue's reasons.
    SetReasons(Words),
    /// `STATE: +word,..` adds reasons.
    AddReasons(Words),
    /// `STATE: -word,..` removes reasons.
    DropReasons(Words),
    /// `ATTR: name=value` sets an attribute of the queue.
    Attribute(Attribute),
    /// `ERROR: text` and similar lines set the queue's message.
    Message { level: Level, text: Message },
}
