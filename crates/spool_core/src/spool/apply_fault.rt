//! Why an event was not applied.

use spool_types::Refusal;

/// Why an event was not applied. The causes are checked in this order. After all but `Disk` nothing has changed.
#[derive(Clone, Copy, PartialEq, Eq)]
pub enum ApplyFault {
    /// An earlier call met a fault of the device, and no device was called. The spool must be opened again.
    Dead,
    /// The table refuses the event.
    Refused(Refusal),
    /// Memory ran out.
    Memory,
    /// The event's record does not fit into the area.
    Full,
    /// The device has failed. The event may or may not be on it. The table is unchanged, and from now on every call fails with
    /// `Dead`.
    Disk,
}
