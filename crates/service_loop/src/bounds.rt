//! Bounds of the loop that `service_rules` does not define.

/// The most bytes that one read of a client takes.
pub const PIECE: usize = 16_384;

/// The most steps in a client's turn. A blank line takes a step too.
pub const MOST_STEPS: usize = 256;

/// Once the records of the staged events have this many bytes, they become durable before the next client is served.
pub const MOST_STAGED: u64 = 1_048_576;

/// The most connections accepted in a turn.
pub const MOST_ACCEPTED: usize = 64;

/// The longest wait of a turn without children, in microseconds, if no clock can be read, an end was requested, the journal is
/// full, or a client could not be accepted.
pub const LONGEST_IDLE: u64 = 1_000_000;

/// How long a requested end waits for processing jobs, in milliseconds.
pub const LONGEST_END: u64 = 60_000;
