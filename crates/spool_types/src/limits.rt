//! Maximum numbers of queues, bytes, reasons and attributes.

/// The maximum number of queues in a table.
pub const MOST_QUEUES: usize = 64;

/// The maximum number of bytes of a job's document.
pub const LONGEST_DOCUMENT: usize = 16_777_216;

/// The maximum number of bytes of one send.
pub const LONGEST_SEND: usize = 65_536;

/// The maximum number of reasons, and of attributes, of a queue.
pub const MOST_KEPT: usize = 64;
