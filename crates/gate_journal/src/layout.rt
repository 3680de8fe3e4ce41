//! The layout of a record: a gate, the payload's length in four bytes, and the payload.

/// An open gate. Every other byte is a closed gate.
pub const OPEN_GATE: u8 = 0xA5;

/// The number of bytes of a record before its payload: the gate and the length.
pub const HEAD_LEN: u64 = 5;

/// The number of bytes that `append` reserves from a record's next gate on: room for one record of one byte, and the gate after it.
pub const KEPT_ROOM: u64 = 7;
