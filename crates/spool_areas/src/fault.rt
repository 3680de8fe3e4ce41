//! Why a call on the areas failed.

/// Why a device was not made a spool.
#[derive(Clone, Copy, Debug, PartialEq, Eq)]
pub enum MakeFault {
    /// The device is shorter than two areas of 23 bytes. Nothing has changed.
    Full,
    /// The device failed. It may have any contents, and must be made a spool again.
    Disk,
}

/// Why a device was not opened as a spool.
#[derive(Clone, Copy, Debug, PartialEq, Eq)]
pub enum OpenFault {
    /// It is too short, no header is open, or two open headers have the same epoch.
    NotASpool,
    /// The bytes from the gate at this place on are not those of a spool.
    Damaged(u64),
    /// Memory for the result ran out.
    Memory,
    /// The device failed.
    Disk,
}

/// A device that was not opened, and the reason.
#[derive(Drop)]
pub struct OpenError<D> {
    pub disk: D,
    pub fault: OpenFault,
}

/// Why nothing was read.
#[derive(Clone, Copy, PartialEq, Eq)]
pub enum ReadFault {
    /// An earlier call failed because of the device.
    Dead,
    /// The device failed. Every later call returns `Dead`.
    Disk,
}

/// Why rows were not written into the other area, in the order of the checks. Nothing has changed, except after `Disk`.
#[derive(Clone, Copy, Debug, PartialEq, Eq)]
pub enum AreaFault {
    /// An earlier call failed because of the device.
    Dead,
    /// The current area has the greatest epoch.
    EpochEnd,
    /// A row, appended in order, would not fit.
    Full,
    /// The device failed. The area has the old rows or the new ones, and every later call returns `Dead`.
    Disk,
}
