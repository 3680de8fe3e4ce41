//! The commands of a script.
use spool_types::{
    Copies, Event, FileName, JobId, Moment, NewQueue, OptionText, Priority, QueueName, Ranged,
    Title, UserName,
};

/// The greatest number of rounds of a `drain`.
pub type Rounds = Ranged<1, 1000>;

/// A job to be created, without its number.
#[derive(Drop)]
pub struct Creation {
    pub queue: QueueName,
    pub user: UserName,
    pub title: Title,
    pub copies: Copies,
    pub priority: Priority,
    /// The options as they were given.
    pub options: OptionText,
    /// The moment by which the job must start, if any.
    pub by: Option<Moment>,
}

/// A command: a complete event, a request that the table or a document turns into an event, or a request without an event.
#[derive(Drop)]
pub enum Command {
    /// Asks for an event that the line states completely.
    Apply(Event),
    /// Adds a queue, if its URI is that of a device.
    Queue(NewQueue),
    /// Creates a job, if its options are valid. It gets the next number.
    Create(Creation),
    /// Ends a job's document. Its type is determined by this file name and by its bytes.
    Close { job: JobId, name: FileName },
    /// A send of too many bytes. They were skipped and not stored.
    OversizedSend,
    Jobs,
    Queues,
    /// Starts the next job of each free queue, then runs one stage of each processing job.
    Round,
    /// Runs rounds until one has nothing to do, at most this many.
    Drain(Rounds),
    /// Makes room for further events: lists the table in place of the events that produced it.
    Checkpoint,
    /// A line that is no command, or bytes of a send without a line feed after them.
    Malformed,
}

// The meaning of a line.
#[derive(Drop)]
pub enum Kind {
    // None: the line is empty or a remark.
    Remark,
    Says(Command),
    // The bytes of a send follow.
    Takes { job: JobId, count: u32 },
}

// The kind of the next bytes.
#[derive(Clone, Copy, PartialEq, Eq)]
pub enum Mode {
    Line,
    // The rest of a line that has no further meaning.
    Skip,
    // The bytes of a send.
    Payload { job: JobId, count: u32 },
    // The bytes of an oversized send, which are skipped.
    Counting { left: u32 },
}
