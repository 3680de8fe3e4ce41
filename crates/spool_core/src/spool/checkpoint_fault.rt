//! Why a table was not listed.

/// Why a table was not listed. The causes are checked in this order. After all but `Disk` nothing has changed.
#[derive(Clone, Copy, Debug, PartialEq, Eq)]
pub enum CheckpointFault {
    /// An earlier call met a fault of the device, and no device was called. The spool must be opened again.
    Dead,
    /// The current area has the greatest epoch.
    EpochEnd,
    /// Memory ran out for the listing.
    Memory,
    /// The listing does not fit into the other area, or leaves no room there.
    Full,
    /// The device has failed. A crash leaves the area that was current or the listing, both with this table. From now on every
    /// call fails with `Dead`.
    Disk,
}
