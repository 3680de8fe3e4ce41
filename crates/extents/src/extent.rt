//! Ranges of bytes on a device.

/// A range of a device with a payload, or a part of one.
#[derive(Clone, Copy, PartialEq, Eq)]
pub struct Extent {
    /// The byte offset of its first byte on the device.
    pub place: u64,
    /// The number of its bytes.
    pub len: u64,
}
